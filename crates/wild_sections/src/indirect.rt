//! Addresses of PLT stubs and GOT entries that relocations use (x86-64 psABI, "Procedure Linkage Table", "Global Offset
//! Table (GOT)").
ghost use Rattle.std.specs.Prelude.{◌≡◌};
ghost use Rattle.wild_layout.specs.SymbolValues.{resolved_address};
ghost use Rattle.wild_layout.specs.SlotValues.{resolution_of, index_of, decided_address, stub_of, symbol_is_ifunc, stub_address, has_second_slot, after_word, after_pair, slot_from_first, slot_in_resolution, slot_of, slot_address};

use wild_reloc::SlotSort;
use wild_slot::{flags_at, next_word};
use wild_types::{Fault, Layout, Missing, Resolution, SymbolIndex, ValueFlags, has_thread_slot};

/// An address, or the fault that the symbol has none of this kind.
#[inline]
pub(crate) fn resolved_address(
    what: Missing,
    symbol: SymbolIndex,
    address: Option<u64>,
) -> Result<u64, Fault>
    ensures { result ≡ resolved_address what symbol address }
{
    match address {
        Some(address) => Ok(address),
        None => Err(Fault::MissingResolution {
            what,
            symbol: symbol.0,
        }),
    }
}

/// The resolution of the symbol's definition.
pub(crate) fn resolution_of(layout: &Layout, symbol: SymbolIndex) -> Option<Resolution>
    ensures { result ≡ resolution_of layout.now symbol }
{
    match layout.symbols.as_slice().get(layout.canonical(symbol).0) {
        Some(found) => found.resolution,
        None => None,
    }
}

/// The index of the symbol's definition in the dynamic symbol table.
pub fn index_of(layout: &Layout, symbol: SymbolIndex) -> Option<u64>
    ensures { result ≡ index_of layout.now symbol }
{
    match resolution_of(layout, symbol) {
        Some(resolution) => resolution.dynamic_symbol_index,
        None => None,
    }
}

/// The address in the symbol's resolution, that of the resolver for an IFUNC; or the fault that it has none.
pub fn decided_address(layout: &Layout, symbol: SymbolIndex) -> Result<u64, Fault>
    ensures { result ≡ decided_address layout.now symbol }
{
    let decided = match resolution_of(layout, symbol) {
        Some(resolution) => Some(resolution.raw_value),
        None => None,
    };
    resolved_address(Missing::Address, symbol, decided)
}

/// Whether the symbol is an IFUNC: a resolver chooses the function at load time.
#[inline]
pub(crate) fn symbol_is_ifunc(layout: &Layout, symbol: SymbolIndex) -> bool
    ensures { result ≡ symbol_is_ifunc layout.now symbol }
{
    flags_at(layout, symbol).is_ifunc()
}

/// The address of the symbol's PLT stub.
pub fn stub_of(layout: &Layout, symbol: SymbolIndex) -> Option<u64>
    ensures { result ≡ stub_of layout.now symbol }
{
    match resolution_of(layout, symbol) {
        Some(resolution) => resolution.plt_address,
        None => None,
    }
}

/// The address of the PLT stub of a relocation's symbol, 0 without a symbol. Fails if the symbol has no stub.
pub(crate) fn stub_address(layout: &Layout, symbol: Option<SymbolIndex>) -> Result<u64, Fault>
    ensures { result ≡ stub_address layout.now symbol }
{
    match symbol {
        Some(symbol) => resolved_address(Missing::Stub, symbol, stub_of(layout, symbol)),
        None => Ok(0),
    }
}

/// Whether references to the symbol's address use a GOT entry of its own, after that of the PLT stub.
fn has_second_slot(flags: ValueFlags) -> bool
    ensures { result ≡ has_second_slot flags }
{
    flags.needs_ifunc_got_for_address() || flags.needs_canonical_plt_got_for_address()
}

/// The place after the word at `place`, or `place` itself if `word` is false.
fn after_word(word: bool, place: u64) -> u64
    ensures { result ≡ after_word word place }
{
    if word { next_word(place) } else { place }
}

/// The place after the pair of words at `place`, or `place` itself if `pair` is false.
fn after_pair(pair: bool, place: u64) -> u64
    ensures { result ≡ after_pair pair place }
{
    if pair { place.wrapping_add(16) } else { place }
}

/// The address of the GOT entry of a sort, for a symbol with these flags whose first GOT entry is at `first`. Thread-local entries are
/// in this order: offset (one word), pair (two), descriptor (two).
fn slot_from_first(sort: SlotSort, flags: ValueFlags, first: u64) -> Option<u64>
    ensures { result ≡ slot_from_first sort flags first }
{
    let offset = flags.needs_got_tls_offset();
    let module = flags.needs_got_tls_module();
    match sort {
        SlotSort::TpOff if offset => Some(first),
        SlotSort::TlsGd if module => Some(after_word(offset, first)),
        SlotSort::TlsDesc if flags.needs_got_tls_descriptor() => {
            Some(after_pair(module, after_word(offset, first)))
        }
        SlotSort::TpOff | SlotSort::TlsGd | SlotSort::TlsDesc => None,
        _ if has_thread_slot(flags) => None,
        _ => Some(after_word(has_second_slot(flags), first)),
    }
}

/// The address of the GOT entry of a sort, by a resolution.
fn slot_in_resolution(sort: SlotSort, resolution: Option<Resolution>) -> Option<u64>
    ensures { result ≡ slot_in_resolution sort resolution }
{
    let resolution = resolution?;
    slot_from_first(sort, resolution.flags, resolution.got_address?)
}

/// The address of the symbol's GOT entry of a sort. The pair for the output's own thread-local data exists once, for all symbols.
fn slot_of(layout: &Layout, sort: SlotSort, symbol: SymbolIndex) -> Option<u64>
    ensures { result ≡ slot_of layout.now sort symbol }
{
    match sort {
        SlotSort::TlsLd => layout.tlsld,
        _ => slot_in_resolution(sort, resolution_of(layout, symbol)),
    }
}

/// The address of the GOT entry of sort `sort` of a relocation's symbol, 0 without a symbol. Fails if the symbol has no such entry.
pub(crate) fn slot_address(
    layout: &Layout,
    sort: SlotSort,
    symbol: Option<SymbolIndex>,
) -> Result<u64, Fault>
    ensures { result ≡ slot_address layout.now sort symbol }
{
    match symbol {
        Some(symbol) => resolved_address(Missing::Slot, symbol, slot_of(layout, sort, symbol)),
        None => Ok(0),
    }
}
