//! Slots and stubs of symbols.
ghost use Rattle.std.specs.Prelude.{◌≡◌, ◌≤◌, ◌&&◌};
ghost use Rattle.wild_reloc.specs.Expression.{slot_sort};
ghost use Rattle.wild_reloc.specs.Formula.{AddressSlot, ModulePair};
ghost use Rattle.wild_types.specs.SymbolSlots.{got_of, plt_of};
ghost use Rattle.wild_slot.specs.MachineStub.{stub_in};
ghost use Rattle.wild_checker.specs.Bytes.{has_bytes};
ghost use Rattle.wild_meaning.specs.Slot.{has_slot_of, offset_from_first};
ghost use Rattle.wild_checker.specs.Loaded.{loaded_now};
ghost use Rattle.wild_checker.specs.Slots.{is_known, are_same, holds_value, holds_pair, holds_offset, holds_descriptor, holds_slot, slot_place, slot_by, symbol_slot, own_pair_by, slot_term, is_for, has_places, is_stub, is_strong, stub_by, stub_term, is_at_stub, holds_stub};

use crate::bytes::has_bytes;
use crate::loaded::LoadedRef;
use crate::symbols::{is_equal, loaded_term, raw_in};
use crate::threads::{begin_offset, may_be_zero, module_term, offset_term, thread_term};
use wild_loader::Machine as Processor;
use wild_reloc::SlotSort;
use wild_slot::{STUB_SIZE, write_stub};
use wild_terms::Term;
use wild_types::{File, Layout, Machine, Symbol, SymbolIndex, ValueFlags, got_of, plt_of};

/// Whether a term is known and is that one.
pub(crate) fn is_known(known: Option<Term>, x: Term) -> bool
    ensures { result ≡ is_known known x }
{
    match known {
        Some(y) => y.is(x),
        None => false,
    }
}

/// Whether two terms are known and are the same.
fn are_same(a: Option<Term>, b: Option<Term>) -> bool
    ensures { result ≡ are_same a b }
{
    match b {
        Some(x) => is_known(a, x),
        None => false,
    }
}

/// Whether the word at an address is a symbol's value in every world.
fn holds_value(
    loaded: &LoadedRef,
    file: &File,
    symbol: SymbolIndex,
    definition: &Symbol,
    address: u64,
) -> bool
    ensures { result ≡ holds_value (loaded_now loaded.now) file.now symbol definition.now address }
{
    are_same(
        loaded.memory.term(address, 8),
        loaded_term(loaded, file, symbol, definition),
    )
}

/// Whether layout and image are for the same machine.
pub(crate) fn is_for(machine: Machine, processor: Processor) -> bool
    ensures { result ≡ is_for machine processor }
{
    match (machine, processor) {
        (Machine::X86_64, Processor::X86_64) => true,
        (Machine::AArch64, Processor::AArch64) => true,
        _ => false,
    }
}

/// Whether code of a machine can jump by a slot at every base. Code of AArch64 reaches a slot by its page, in steps of eight bytes.
fn has_places(machine: Machine, layout: &Layout, slot: u64) -> bool
    ensures { result ≡ has_places machine layout.now slot }
{
    match machine {
        Machine::X86_64 => true,
        Machine::AArch64 => layout.page_size % 4096 == 0 && slot % 8 == 0,
    }
}

/// Whether the code at an address is the stub that jumps by a slot, which it reaches.
fn has_stub_code(loaded: &LoadedRef, stub: u64, slot: u64) -> bool
    ensures { result ≡ ((stub_in loaded.now.layout.now slot stub).reaches && has_bytes loaded.now.memory.now stub (stub_in loaded.now.layout.now slot stub).bytes) }
{
    let layout = loaded.layout;
    let mut code = [0; STUB_SIZE];
    match write_stub(layout.machine, layout.options.bti, &mut code, slot, stub) {
        Ok(()) => has_bytes(loaded.memory, stub, &code),
        Err(_) => false,
    }
}

/// Whether the code at an address is the stub that jumps by a slot.
fn is_stub(loaded: &LoadedRef, stub: u64, slot: u64) -> bool
    ensures { result ≡ is_stub (loaded_now loaded.now) stub slot }
{
    let layout = loaded.layout;
    is_for(layout.machine, loaded.memory.machine())
        && has_places(layout.machine, layout, slot)
        && has_stub_code(loaded, stub, slot)
}

/// Whether a symbol is defined, or its stub may lead to another module's definition. On x86-64 it does not matter.
fn is_strong(machine: Machine, definition: &Symbol) -> bool
    ensures { result ≡ is_strong machine definition.now }
{
    match machine {
        Machine::X86_64 => true,
        Machine::AArch64 => {
            !definition.flags.is_undefined_weak() || definition.flags.needs_plt()
        }
    }
}

/// A symbol's stub, if it jumps by the symbol's first slot, and that holds the symbol's value.
fn stub_of(
    loaded: &LoadedRef,
    file: &File,
    symbol: SymbolIndex,
    definition: &Symbol,
) -> Option<Term>
    ensures { result ≡ stub_by (loaded_now loaded.now) file.now symbol definition.now (plt_of definition.now) (got_of definition.now) }
{
    let stub = plt_of(definition)?;
    let slot = got_of(definition)?;
    if is_strong(loaded.layout.machine, definition)
        && is_stub(loaded, stub, slot)
        && holds_value(loaded, file, symbol, definition, slot)
    {
        Some(loaded.outline.based(stub))
    } else {
        None
    }
}

/// The address of a symbol's stub, if it jumps by the symbol's first slot, and that holds the symbol's value.
pub(crate) fn stub_term(loaded: &LoadedRef, file: &File, symbol: SymbolIndex) -> Option<Term>
    ensures { result ≡ stub_term (loaded_now loaded.now) file.now symbol }
{
    let symbols = loaded.layout.symbols.as_slice();
    let definition = symbols.get(loaded.layout.canonical(symbol).0)?;
    stub_of(loaded, file, symbol, definition)
}

/// Whether the output uses its stub's address as a symbol's: the symbol is an IFUNC, or the layout places it at its stub.
pub(crate) fn is_at_stub(
    loaded: &LoadedRef,
    file: &File,
    symbol: SymbolIndex,
    definition: &Symbol,
) -> bool
    ensures { result ≡ is_at_stub (loaded_now loaded.now) file.now symbol definition.now }
{
    let address = raw_in(loaded, file, symbol, definition.resolution);
    !definition.flags.is_absolute()
        && (definition.flags.is_ifunc() || is_equal(address, plt_of(definition)))
}

/// Whether the word at an address is that of a symbol's stub, and a slot for the symbol's address may have that.
fn holds_stub(
    loaded: &LoadedRef,
    file: &File,
    symbol: SymbolIndex,
    definition: &Symbol,
    address: u64,
) -> bool
    ensures { result ≡ holds_stub (loaded_now loaded.now) file.now symbol definition.now address }
{
    (is_at_stub(loaded, file, symbol, definition) || definition.flags.needs_ifunc_got_for_address())
        && are_same(
            loaded.memory.term(address, 8),
            stub_term(loaded, file, symbol),
        )
}

/// Whether the two words at an address are two terms in every world.
fn holds_pair(loaded: &LoadedRef, address: u64, first: Option<Term>, second: Option<Term>) -> bool
    ensures { result ≡ holds_pair (loaded_now loaded.now) address first second }
{
    address < 0xffff_ffff_ffff_fff8
        && are_same(loaded.memory.term(address, 8), first)
        && are_same(loaded.memory.term(address + 8, 8), second)
}

/// Whether the word at an address is a symbol's offset from the thread pointer in every world.
fn holds_offset(
    loaded: &LoadedRef,
    file: &File,
    symbol: SymbolIndex,
    definition: &Symbol,
    address: u64,
) -> bool
    ensures { result ≡ holds_offset (loaded_now loaded.now) file.now symbol definition.now address }
{
    let known = loaded.memory.term(address, 8);
    are_same(known, thread_term(loaded, file, symbol, definition))
        || may_be_zero(loaded, file, symbol, definition) && is_known(known, Term::number(0))
}

/// Whether the loader notes that offset for the descriptor at an address.
fn holds_descriptor(
    loaded: &LoadedRef,
    file: &File,
    symbol: SymbolIndex,
    definition: &Symbol,
    address: u64,
) -> bool
    ensures { result ≡ holds_descriptor (loaded_now loaded.now) file.now symbol definition.now address }
{
    are_same(
        loaded.memory.descriptor(address),
        thread_term(loaded, file, symbol, definition),
    )
}

/// Whether memory at an address has the content of a slot of that sort for a symbol.
fn holds_slot(
    loaded: &LoadedRef,
    file: &File,
    symbol: SymbolIndex,
    definition: &Symbol,
    sort: SlotSort,
    address: u64,
) -> bool
    ensures { result ≡ holds_slot (loaded_now loaded.now) file.now symbol definition.now sort address }
{
    match sort {
        SlotSort::Address => {
            holds_value(loaded, file, symbol, definition, address)
                || holds_stub(loaded, file, symbol, definition, address)
        }
        SlotSort::TlsGd => holds_pair(
            loaded,
            address,
            module_term(loaded, definition),
            offset_term(loaded, file, symbol, definition),
        ),
        SlotSort::TlsLd => false,
        SlotSort::TpOff => holds_offset(loaded, file, symbol, definition, address),
        SlotSort::TlsDesc => holds_descriptor(loaded, file, symbol, definition, address),
    }
}

/// Whether a symbol with these flags has a slot of that sort.
fn has_slot(sort: SlotSort, flags: ValueFlags) -> bool
    ensures { result ≡ has_slot_of (slot_sort sort) flags }
{
    match sort {
        SlotSort::Address => flags.needs_got(),
        SlotSort::TlsGd => flags.needs_got_tls_module(),
        SlotSort::TlsLd => false,
        SlotSort::TpOff => flags.needs_got_tls_offset(),
        SlotSort::TlsDesc => flags.needs_got_tls_descriptor(),
    }
}

/// How far a symbol's slot for its address is after its first slot.
fn address_offset(flags: ValueFlags) -> u64
    ensures { result ≡ offset_from_first AddressSlot flags }
{
    if flags.needs_ifunc_got_for_address() || flags.needs_canonical_plt_got_for_address() {
        8
    } else {
        0
    }
}

/// How far its pair is: after the offset from the thread pointer.
fn pair_offset(flags: ValueFlags) -> u64
    ensures is { result ≡ offset_from_first ModulePair flags }
    ensures few { result ≤ 8 }
{
    if flags.needs_got_tls_offset() { 8 } else { 0 }
}

/// How far its slot of a sort is.
fn slot_offset(sort: SlotSort, flags: ValueFlags) -> u64
    ensures { result ≡ offset_from_first (slot_sort sort) flags }
{
    match sort {
        SlotSort::Address => address_offset(flags),
        SlotSort::TlsGd => pair_offset(flags),
        SlotSort::TlsLd => 0,
        SlotSort::TpOff => 0,
        SlotSort::TlsDesc => {
            let pair = if flags.needs_got_tls_module() { 16 } else { 0 };
            pair_offset(flags) + pair
        }
    }
}

/// A symbol's slot of a sort, if it holds what such a slot holds.
fn slot_of(
    loaded: &LoadedRef,
    file: &File,
    symbol: SymbolIndex,
    definition: &Symbol,
    sort: SlotSort,
) -> Option<Term>
    ensures { result ≡ slot_by (loaded_now loaded.now) file.now symbol definition.now sort (slot_place sort definition.now) }
{
    if !has_slot(sort, definition.flags) {
        return None;
    }
    let first = got_of(definition)?;
    let address = first.checked_add(slot_offset(sort, definition.flags))?;
    if holds_slot(loaded, file, symbol, definition, sort, address) {
        Some(loaded.outline.based(address))
    } else {
        None
    }
}

/// The address of a symbol's slot of a sort, if it holds what such a slot holds.
fn symbol_slot(loaded: &LoadedRef, file: &File, sort: SlotSort, symbol: SymbolIndex) -> Option<Term>
    ensures { result ≡ symbol_slot (loaded_now loaded.now) file.now sort symbol }
{
    let symbols = loaded.layout.symbols.as_slice();
    let definition = symbols.get(loaded.layout.canonical(symbol).0)?;
    slot_of(loaded, file, symbol, definition, sort)
}

/// The address of the pair of the output's own module, if it represents what offsets in the module are relative to.
fn own_pair(loaded: &LoadedRef) -> Option<Term>
    ensures { result ≡ own_pair_by (loaded_now loaded.now) loaded.now.layout.now.tlsld }
{
    let address = loaded.layout.tlsld?;
    let module = Some(loaded.outline.own_module());
    let offset = match begin_offset(loaded) {
        Some(n) => Some(Term::number(n)),
        None => None,
    };
    if holds_pair(loaded, address, module, offset) {
        Some(loaded.outline.based(address))
    } else {
        None
    }
}

/// The address of the slot of a sort for a symbol. All symbols share the pair of the output's own module.
pub(crate) fn slot_term(
    loaded: &LoadedRef,
    file: &File,
    sort: SlotSort,
    symbol: SymbolIndex,
) -> Option<Term>
    ensures { result ≡ slot_term (loaded_now loaded.now) file.now sort symbol }
{
    match sort {
        SlotSort::TlsLd => own_pair(loaded),
        _ => symbol_slot(loaded, file, sort, symbol),
    }
}
