//! The entry point of the program (gABI, "Symbol Table", "ELF Header").
ghost use Rattle.std.specs.Prelude.{◌≡◌, Some};
ghost use Rattle.wild_types.specs.Addresses.{raw_value};
ghost use Rattle.wild_needs.specs.EntryPoint.{start_of, text_start, default_entry, entry_value, entry_at, entry_point};
ghost use Rattle.wild_types.specs.Lookups.{canonical};

use wild_slot::flags_at;
use wild_types::{
    Entry, EntryWarning, File, InputSection, Layout, Place, Section, SymbolIndex, plt_of,
};

/// The address of a section, unless it is empty.
fn start_of(section: &Section) -> Option<u64>
    ensures { result ≡ start_of (Some section.now) }
{
    if section.size == 0 {
        None
    } else {
        Some(section.address)
    }
}

/// The address of the first section named `.text`, unless it is empty.
#[tactic(auto, unfolding(crate::specs::EntryPoint::text_start))]
fn text_start(layout: &Layout) -> Option<u64>
    ensures { result ≡ text_start layout.now }
{
    for section in layout.sections.as_slice() {
        if section.name.as_slice() == b".text".as_slice() {
            return start_of(section);
        }
    }
    None
}

/// The entry point for a symbol without an address: the start of `.text`, or 0 if there is none, with a warning.
fn default_entry(symbol: SymbolIndex, text: Option<u64>) -> (u64, Option<EntryWarning>)
    ensures address { result.0 ≡ (default_entry symbol text).address }
    ensures warning { result.1 ≡ (default_entry symbol text).warning }
{
    match text {
        Some(address) => (address, Some(EntryWarning::Defaulted { symbol, address })),
        None => (0, Some(EntryWarning::EmptyText { symbol })),
    }
}

/// The address of a symbol as entry point: for an IFUNC that of its stub.
fn entry_value(layout: &Layout, symbol: SymbolIndex) -> Option<u64>
    ensures { result ≡ entry_value layout.now symbol }
{
    if flags_at(layout, symbol).is_ifunc() {
        let definition = layout.canonical(symbol);
        plt_of(layout.symbols.as_slice().get(definition.0)?)
    } else {
        layout.raw_value(symbol)
    }
}

/// The entry point at a symbol. A library does not need one.
fn entry_at(layout: &Layout, symbol: SymbolIndex) -> (u64, Option<EntryWarning>)
    ensures address { result.0 ≡ (entry_at layout.now symbol (entry_value layout.now symbol)).address }
    ensures warning { result.1 ≡ (entry_at layout.now symbol (entry_value layout.now symbol)).warning }
{
    match entry_value(layout, symbol) {
        Some(address) => (address, None),
        None if layout.kind.is_shared_object() => (0, None),
        None => default_entry(symbol, text_start(layout)),
    }
}

/// The entry point (`e_entry`), and the warning about it. It is 0 for a relocatable object, and if the layout has none.
#[tactic(auto, unfolding(crate::specs::EntryPoint::entry_point))]
pub fn elf_entry_address(layout: &Layout) -> (u64, Option<EntryWarning>)
    ensures address { result.0 ≡ (entry_point layout.now).address }
    ensures warning { result.1 ≡ (entry_point layout.now).warning }
{
    if layout.kind.is_partial_link() {
        return (0, None);
    }
    match layout.entry {
        Some(Entry::Symbol(symbol)) => entry_at(layout, symbol),
        Some(Entry::Address(address)) => (address, None),
        None => (0, None),
    }
}
