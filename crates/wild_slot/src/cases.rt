//! The contents of a symbol's GOT slots, by cases over its flags.
ghost use Rattle.std.specs.Prelude.{◌≡◌, ◌+◌, ◌<◌, ◌≤◌, length};
ghost use Rattle.wild_slot.specs.Storage.{minus, rounded_up, thread_pointer, is_outside};
ghost use Rattle.wild_slot.specs.Slots.{setting_of, is_replaceable, number, general, plt, named, offset_item, module_item, module_offset_item, descriptor_item, offset_items, module_items, descriptor_items, plain_item, stub_item, stub_items, stub_address, ifunc_address_items, canonical_address_items, thread_items, address_items, with_items, slot, storage_pair};

use crate::slot::{Setting, SlotEntry, SlotFault, SlotItem, SlotWord};
use crate::symbol_slots::SymbolSlots;
use wild_reloc::DynamicRelocationKind;
use wild_types::{
    Layout, Machine, OutputKind, Resolution, Tls, ValueFlags, has_dynamic_symbol, has_thread_slot,
};

/// The difference of two addresses, modulo 2^64.
fn minus(address: u64, start: u64) -> u64
    ensures { result ≡ minus address start }
{
    address.wrapping_sub(start)
}

/// The least multiple of `align` that is not below the number.
fn rounded_up(number: u64, align: u64) -> u64
    ensures { result ≡ rounded_up number align }
{
    if align == 0 {
        return number;
    }
    let gap = (align - number % align) % align;
    number.wrapping_add(gap)
}

/// The address of the thread pointer: after the thread-local data on x86-64 (TLS variant II); on AArch64 (variant I) before the data
/// and 16 bytes that the system reserves.
pub fn thread_pointer(machine: Machine, tls: Tls) -> u64
    ensures { result ≡ thread_pointer machine tls }
{
    match machine {
        Machine::X86_64 => rounded_up(tls.end, tls.align),
        Machine::AArch64 => minus(tls.start, rounded_up(16, tls.align)),
    }
}

/// Whether the address is neither in the thread-local data nor at their end.
fn is_outside(tls: Tls, value: u64) -> bool
    ensures { result ≡ is_outside tls value }
{
    value < tls.start || tls.end < value
}

impl Setting {
    /// The properties of a layout on which the contents of slots depend.
    pub fn of(layout: &Layout) -> Setting
        ensures { result ≡ setting_of layout.now }
    {
        Setting {
            kind: layout.kind,
            relr: layout.options.relr,
            tls: layout.tls,
            thread_pointer: thread_pointer(layout.machine, layout.tls),
        }
    }
}

/// Whether another module's definition, if there is one, replaces this one at run time.
pub fn is_replaceable(kind: OutputKind, flags: ValueFlags) -> bool
    ensures { result ≡ is_replaceable kind flags }
{
    (flags.is_dynamic() && !flags.needs_copy_relocation())
        || (kind.is_shared_object() && (flags.needs_export_dynamic() && flags.is_interposable()))
}

/// A number that no loader changes.
fn number(value: u64) -> SlotItem
    ensures { result ≡ number value }
{
    SlotItem::Word(SlotWord::Number(value))
}

/// 0, filled by an entry of `rela_dyn_general`.
fn general(kind: DynamicRelocationKind, symbol: u64, addend: u64) -> SlotItem
    ensures { result ≡ general kind symbol addend }
{
    SlotItem::Word(SlotWord::General(SlotEntry {
        kind,
        symbol,
        addend,
    }))
}

/// 0, filled by an entry of `rela_plt`.
fn plt(kind: DynamicRelocationKind, symbol: u64, addend: u64) -> SlotItem
    ensures { result ≡ plt kind symbol addend }
{
    SlotItem::Word(SlotWord::Plt(SlotEntry {
        kind,
        symbol,
        addend,
    }))
}

/// 0, filled by an entry of `rela_dyn_general` for the symbol with that index; a fault without an index.
fn named_general(kind: DynamicRelocationKind, symbol: Option<u64>) -> SlotItem
    ensures { result ≡ named symbol (λ d. general kind d 0) }
{
    match symbol {
        Some(symbol) => general(kind, symbol, 0),
        None => SlotItem::Fault(SlotFault::NoDynamicSymbol),
    }
}

/// The slot for the symbol's offset from the thread pointer.
fn offset_item(setting: &Setting, resolution: &Resolution) -> SlotItem
    ensures { result ≡ offset_item setting.now resolution.now }
{
    let value = resolution.raw_value;
    if has_dynamic_symbol(resolution.flags) {
        named_general(
            DynamicRelocationKind::TpOff,
            resolution.dynamic_symbol_index,
        )
    } else if value == 0 {
        number(0)
    } else if is_outside(setting.tls, value) {
        SlotItem::Fault(SlotFault::TlsOutOfSegment { value })
    } else if setting.kind.is_executable() {
        number(minus(value, setting.thread_pointer))
    } else {
        general(
            DynamicRelocationKind::TpOff,
            0,
            minus(value, setting.tls.start),
        )
    }
}

/// The slot for the symbol's module.
fn module_item(setting: &Setting, resolution: &Resolution) -> SlotItem
    ensures { result ≡ module_item setting.now resolution.now }
{
    if setting.kind.is_executable() && !resolution.flags.is_dynamic() {
        number(1)
    } else if resolution.flags.is_interposable() {
        named_general(
            DynamicRelocationKind::DtpMod,
            resolution.dynamic_symbol_index,
        )
    } else {
        general(DynamicRelocationKind::DtpMod, 0, 0)
    }
}

/// The slot for the symbol's offset in the module's thread-local data.
fn module_offset_item(setting: &Setting, resolution: &Resolution) -> SlotItem
    ensures { result ≡ module_offset_item setting.now resolution.now }
{
    match resolution.dynamic_symbol_index {
        Some(symbol) if resolution.flags.is_interposable() => {
            general(DynamicRelocationKind::DtpOff, symbol, 0)
        }
        _ => number(minus(resolution.raw_value, setting.tls.start)),
    }
}

/// The first slot of the symbol's TLS descriptor.
fn descriptor_item(setting: &Setting, resolution: &Resolution) -> SlotItem
    ensures { result ≡ descriptor_item setting.now resolution.now }
{
    let value = resolution.raw_value;
    let (symbol, addend) = match resolution.dynamic_symbol_index {
        Some(symbol) => (symbol, 0),
        None => {
            if is_replaceable(setting.kind, resolution.flags) {
                return SlotItem::Fault(SlotFault::NoDynamicSymbol);
            }
            if is_outside(setting.tls, value) {
                return SlotItem::Fault(SlotFault::TlsOutOfSegment { value });
            }
            (0, minus(value, setting.tls.start))
        }
    };
    if setting.kind.is_static_executable() {
        return SlotItem::Fault(SlotFault::StaticTlsDesc);
    }
    general(DynamicRelocationKind::TlsDesc, symbol, addend)
}

/// The slot for the symbol's address.
fn plain_item(setting: &Setting, resolution: &Resolution) -> SlotItem
    ensures { result ≡ plain_item setting.now resolution.now }
{
    let flags = resolution.flags;
    let value = resolution.raw_value;
    if flags.needs_canonical_plt() {
        match resolution.dynamic_symbol_index {
            Some(symbol) => plt(DynamicRelocationKind::JumpSlot, symbol, 0),
            None => SlotItem::Fault(SlotFault::NoDynamicSymbol),
        }
    } else if has_dynamic_symbol(flags) {
        named_general(
            DynamicRelocationKind::GotEntry,
            resolution.dynamic_symbol_index,
        )
    } else if flags.is_ifunc() {
        plt(DynamicRelocationKind::Irelative, 0, value)
    } else if setting.kind.is_position_independent() && flags.has_link_time_address() {
        SlotItem::Word(if setting.relr {
            SlotWord::InRelrGot(value)
        } else {
            SlotWord::Address(value)
        })
    } else {
        number(value)
    }
}

/// The stub; a fault if it is too far from its slot, by the distance `far`.
fn stub_item(far: Option<u64>) -> SlotItem
    ensures { result ≡ stub_item far }
{
    match far {
        Some(value) => SlotItem::Fault(SlotFault::PltTooFar { value }),
        None => SlotItem::Stub,
    }
}

/// The slot for the address of the stub.
fn stub_address(setting: &Setting, stub: Option<u64>) -> SlotItem
    ensures { result ≡ stub_address setting.now stub }
{
    match stub {
        None => SlotItem::Fault(SlotFault::NoStub),
        Some(stub) if setting.kind.is_position_independent() => {
            SlotItem::Word(SlotWord::Address(stub))
        }
        Some(stub) => number(stub),
    }
}

fn add_offset(slot: &mut SymbolSlots, setting: &Setting, resolution: &Resolution)
    requires { length slot.old.words < 5 }
    ensures added { slot.new ≡ with_items slot.old (offset_items setting.now resolution.now) }
    ensures few { length slot.new.words ≤ length slot.old.words + 1 }
{
    if resolution.flags.needs_got_tls_offset() {
        slot.add(offset_item(setting, resolution));
    }
}

fn add_module(slot: &mut SymbolSlots, setting: &Setting, resolution: &Resolution)
    requires { length slot.old.words < 4 }
    ensures added { slot.new ≡ with_items slot.old (module_items setting.now resolution.now) }
    ensures few { length slot.new.words ≤ length slot.old.words + 2 }
{
    if resolution.flags.needs_got_tls_module() {
        slot.add(module_item(setting, resolution));
        slot.add(module_offset_item(setting, resolution));
    }
}

fn add_descriptor(slot: &mut SymbolSlots, setting: &Setting, resolution: &Resolution)
    requires { length slot.old.words < 4 }
    ensures added { slot.new ≡ with_items slot.old (descriptor_items setting.now resolution.now) }
{
    if resolution.flags.needs_got_tls_descriptor() {
        slot.add(descriptor_item(setting, resolution));
        slot.add(number(0));
    }
}

#[tactic(auto, using(crate::proofs::SlotLemmas::items_joined))]
fn add_thread_slots(slot: &mut SymbolSlots, setting: &Setting, resolution: &Resolution)
    requires { length slot.old.words ≤ 0 }
    ensures { slot.new ≡ with_items slot.old (thread_items setting.now resolution.now) }
{
    add_offset(slot, setting, resolution);
    add_module(slot, setting, resolution);
    add_descriptor(slot, setting, resolution);
}

fn add_stub(slot: &mut SymbolSlots, far: Option<u64>, stub: Option<u64>)
    requires { length slot.old.words < 5 }
    ensures added { slot.new ≡ with_items slot.old (stub_items far stub) }
    ensures few { length slot.new.words ≤ length slot.old.words + 1 }
{
    if stub.is_some() {
        slot.add(stub_item(far));
    }
}

fn add_ifunc_address(slot: &mut SymbolSlots, setting: &Setting, resolution: &Resolution)
    requires { length slot.old.words < 5 }
    ensures added { slot.new ≡ with_items slot.old (ifunc_address_items setting.now resolution.now) }
    ensures few { length slot.new.words ≤ length slot.old.words + 1 }
{
    if resolution.flags.needs_ifunc_got_for_address() {
        slot.add(stub_address(setting, resolution.plt_address));
    }
}

fn add_canonical_address(slot: &mut SymbolSlots, setting: &Setting, resolution: &Resolution)
    requires { length slot.old.words < 5 }
    ensures { slot.new ≡ with_items slot.old (canonical_address_items setting.now resolution.now) }
{
    if resolution.flags.needs_canonical_plt_got_for_address() {
        slot.add(named_general(
            DynamicRelocationKind::GotEntry,
            resolution.dynamic_symbol_index,
        ));
    }
}

#[tactic(auto, using(crate::proofs::SlotLemmas::items_joined))]
fn add_address_slots(
    slot: &mut SymbolSlots,
    setting: &Setting,
    far: Option<u64>,
    resolution: &Resolution,
)
    requires { length slot.old.words ≤ 0 }
    ensures { slot.new ≡ with_items slot.old (address_items setting.now far resolution.now) }
{
    slot.add(plain_item(setting, resolution));
    add_stub(slot, far, resolution.plt_address);
    add_ifunc_address(slot, setting, resolution);
    add_canonical_address(slot, setting, resolution);
}

/// The slots and the stub of a resolution, up to the first fault. `far` is the distance of the stub from its slot if that is too
/// large.
#[tactic(auto, unfolding(crate::specs::Slots::slot))]
pub fn slot_of(setting: &Setting, far: Option<u64>, resolution: &Resolution) -> SymbolSlots
    ensures { result ≡ slot setting.now far resolution.now }
{
    let mut slot = SymbolSlots::empty();
    if resolution.got_address.is_some() {
        if has_thread_slot(resolution.flags) {
            add_thread_slots(&mut slot, setting, resolution);
        } else {
            add_address_slots(&mut slot, setting, far, resolution);
        }
    }
    slot
}

/// The module pair of the output's own thread-local data.
pub fn storage_pair(setting: &Setting) -> [SlotWord; 2]
    ensures { result ≡ storage_pair setting.now }
{
    if setting.kind.is_executable() {
        let offset = minus(setting.thread_pointer, setting.tls.start);
        [SlotWord::Number(1), SlotWord::Number(offset)]
    } else {
        let module = SlotEntry {
            kind: DynamicRelocationKind::DtpMod,
            symbol: 0,
            addend: 0,
        };
        [SlotWord::General(module), SlotWord::Number(0)]
    }
}
