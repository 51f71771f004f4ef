//! The values of symbols as terms, where the output's own definition has them.
ghost use Rattle.std.specs.Prelude.{◌≡◌, Some, option_and_then};
ghost use Rattle.wild_types.specs.Addresses.{address_in_section};
ghost use Rattle.wild_meaning.specs.Value.{may_be_replaced};
ghost use Rattle.wild_checker.specs.Loaded.{loaded_now};
ghost use Rattle.wild_checker.specs.Symbols.{end_of_file, end_of_files, end_of_groups, are_ordered, in_file, address_by_place, raw_in, value_by, is_equal, represents, is_plain, defined_term, symbol_term, index_of, known_answer, answer_term, own_term, loaded_term, is_no_merged, names_no_strings};

use crate::loaded::LoadedRef;
use wild_records::abi::symbol::STT_SECTION;
use wild_terms::{Atom, KnownAnswer, Outline, Term};
use wild_types::{
    File, Group, InputSection, Layout, Machine, OutputKind, Place, Resolution, Slot, Symbol,
    SymbolIndex, ValueFlags, plt_of,
};

/// The end of a file's range of symbols, if it starts at a number or after it. A file without symbols has the number itself.
fn end_of_file(start: u128, file: &File) -> Option<u128>
    ensures { result ≡ end_of_file start file.now }
{
    let first = file.first_symbol.0 as u128;
    if file.symbol_count == 0 {
        Some(start)
    } else if start <= first {
        Some(first + file.symbol_count as u128)
    } else {
        None
    }
}

/// The end of the last range of symbols, if the ranges ascend from a number on.
fn end_of_files(start: u128, files: &[File]) -> Option<u128>
    ensures { result ≡ end_of_files start files.now }
{
    let mut end = start;
    for file in files {
        end = end_of_file(end, file)?;
    }
    Some(end)
}

/// The same for the files of groups.
fn end_of_groups(groups: &[Group]) -> Option<u128>
    ensures { result ≡ end_of_groups 0 groups.now }
{
    let mut end = 0;
    for group in groups {
        end = end_of_files(end, group.files.as_slice())?;
    }
    Some(end)
}

/// Whether the files' ranges of symbols ascend, so that a symbol is one of at most one file.
pub(crate) fn are_ordered(layout: &Layout) -> bool
    ensures { result ≡ are_ordered layout.now }
{
    end_of_groups(layout.groups.as_slice()).is_some()
}

/// Whether a symbol is one of the file.
fn in_file(loaded: &LoadedRef, file: &File, symbol: SymbolIndex) -> bool
    ensures { result ≡ in_file (loaded_now loaded.now) file.now symbol }
{
    let first = file.first_symbol.0;
    let end = first as u128 + file.symbol_count as u128;
    loaded.ordered && first <= symbol.0 && (symbol.0 as u128) < end
}

/// The address `value` bytes after the start of an input section; none if the section has no address.
fn address_in_section(layout: &Layout, section: &InputSection, value: u64) -> Option<u64>
    ensures { result ≡ address_in_section layout.now value (Some section.now) }
{
    if section.has_address(layout) {
        Some(section.address.wrapping_add(value))
    } else {
        None
    }
}

/// The address of a symbol of the file by its place.
fn address_by_place(layout: &Layout, file: &File, value: u64, place: Place) -> Option<u64>
    ensures { result ≡ address_by_place layout.now file.now value place }
{
    match place {
        Place::Section(n) => match file.sections.as_slice().get(n) {
            Some(section) => address_in_section(layout, section, value),
            None => None,
        },
        _ => None,
    }
}

/// A symbol's address in the layout: that of its definition's resolution, else of its place in the file.
pub(crate) fn raw_in(
    loaded: &LoadedRef,
    file: &File,
    symbol: SymbolIndex,
    resolution: Option<Resolution>,
) -> Option<u64>
    ensures { result ≡ raw_in (loaded_now loaded.now) file.now symbol resolution }
{
    if let Some(resolution) = resolution {
        return Some(resolution.raw_value);
    }
    if !in_file(loaded, file, symbol) {
        return None;
    }
    let found = loaded.layout.symbols.as_slice().get(symbol.0)?;
    address_by_place(loaded.layout, file, found.value, found.place)
}

/// The value of an address.
fn value_by(absolute: bool, outline: &Outline, address: u64) -> Term
    ensures { result ≡ value_by absolute outline.now address }
{
    if absolute {
        Term::number(address)
    } else {
        outline.based(address)
    }
}

/// Whether another module may define a symbol with these flags.
pub(crate) fn may_be_replaced(kind: OutputKind, flags: ValueFlags) -> bool
    ensures { result ≡ may_be_replaced kind flags }
{
    let exported = flags.needs_export_dynamic() && flags.is_interposable();
    (flags.is_dynamic() && !flags.needs_copy_relocation())
        || (matches!(kind, OutputKind::SharedObject) && exported)
}

/// Whether two addresses are there and equal.
pub(crate) fn is_equal(a: Option<u64>, b: Option<u64>) -> bool
    ensures { result ≡ is_equal a b }
{
    match (a, b) {
        (Some(a), Some(b)) => a == b,
        _ => false,
    }
}

/// Whether an address represents its symbol. On AArch64 it does if it is not that of the symbol's stub, and the symbol is defined.
fn represents(machine: Machine, definition: &Symbol, address: Option<u64>) -> bool
    ensures { result ≡ represents machine definition.now address }
{
    match machine {
        Machine::X86_64 => true,
        Machine::AArch64 => {
            !definition.flags.is_undefined_weak() && !is_equal(address, plt_of(definition))
        }
    }
}

/// Whether no other module may define a symbol, and no resolver computes its value.
fn is_plain(loaded: &LoadedRef, file: &File, symbol: SymbolIndex, definition: &Symbol) -> bool
    ensures { result ≡ is_plain (loaded_now loaded.now) file.now symbol definition.now }
{
    let layout = loaded.layout;
    let address = raw_in(loaded, file, symbol, definition.resolution);
    !may_be_replaced(layout.kind, definition.flags)
        && !definition.flags.is_ifunc()
        && represents(layout.machine, definition, address)
}

/// A symbol's value, from its definition.
fn defined_term(
    loaded: &LoadedRef,
    file: &File,
    symbol: SymbolIndex,
    definition: &Symbol,
) -> Option<Term>
    ensures { result ≡ defined_term (loaded_now loaded.now) file.now symbol (Some definition.now) }
{
    if !is_plain(loaded, file, symbol, definition) {
        return None;
    }
    let address = raw_in(loaded, file, symbol, definition.resolution)?;
    let absolute = definition.flags.is_absolute();
    Some(value_by(absolute, loaded.outline, address))
}

/// A symbol's value.
pub(crate) fn symbol_term(loaded: &LoadedRef, file: &File, symbol: SymbolIndex) -> Option<Term>
    ensures { result ≡ symbol_term (loaded_now loaded.now) file.now symbol }
{
    let symbols = loaded.layout.symbols.as_slice();
    let definition = symbols.get(loaded.layout.canonical(symbol).0)?;
    defined_term(loaded, file, symbol, definition)
}

/// The answer for a dynamic symbol, as far as the layout fixes it.
#[derive(Clone, Copy)]
pub struct IndexedAnswer {
    /// The index of the symbol.
    pub index: u32,
    pub answer: KnownAnswer,
}

/// The answer for the dynamic symbol with an index, as far as the layout fixes it.
fn answer_for(outline: &Outline, index: Option<u64>) -> Option<IndexedAnswer>
    ensures { result ≡ known_answer outline.now index }
{
    let index = index?;
    if index >= 1 << 32 {
        return None;
    }
    let answer = *outline.symbols.as_slice().get(index as usize)?;
    Some(IndexedAnswer {
        index: index as u32,
        answer,
    })
}

/// The answer for a symbol, by its definition, as far as the layout fixes it.
pub(crate) fn known_answer(outline: &Outline, definition: &Symbol) -> Option<IndexedAnswer>
    ensures { result ≡ known_answer outline.now (index_of definition.now.resolution) }
{
    match definition.resolution {
        Some(resolution) => answer_for(outline, resolution.dynamic_symbol_index),
        None => None,
    }
}

/// The address in the answer for a symbol, from its definition.
pub(crate) fn answered_term(outline: &Outline, definition: &Symbol) -> Option<Term>
    ensures { result ≡ answer_term outline.now (index_of definition.now.resolution) }
{
    let found = known_answer(outline, definition)?;
    Some(found.answer.address(found.index))
}

/// A symbol's value by the output's own definition: for an IFUNC, the answer of its resolver.
pub(crate) fn own_term(
    loaded: &LoadedRef,
    file: &File,
    symbol: SymbolIndex,
    definition: &Symbol,
) -> Option<Term>
    ensures { result ≡ own_term (loaded_now loaded.now) file.now symbol definition.now }
{
    if definition.flags.is_ifunc() {
        return match definition.resolution {
            Some(resolution) => Some(Term::atom(Atom::Resolver(resolution.raw_value))),
            None => None,
        };
    }
    let address = raw_in(loaded, file, symbol, definition.resolution)?;
    let absolute = definition.flags.is_absolute();
    Some(value_by(absolute, loaded.outline, address))
}

/// A symbol's value, also where another module may define the symbol.
pub(crate) fn loaded_term(
    loaded: &LoadedRef,
    file: &File,
    symbol: SymbolIndex,
    definition: &Symbol,
) -> Option<Term>
    ensures { result ≡ loaded_term (loaded_now loaded.now) file.now symbol definition.now }
{
    if may_be_replaced(loaded.layout.kind, definition.flags) {
        return answered_term(loaded.outline, definition);
    }
    own_term(loaded, file, symbol, definition)
}

/// Whether a place is in no section of merged strings.
fn is_no_merged(file: &File, place: Place) -> bool
    ensures { result ≡ is_no_merged file.now place }
{
    match place {
        Place::Section(n) => match file.sections.as_slice().get(n) {
            Some(section) => !matches!(section.slot, Slot::Merge),
            None => true,
        },
        _ => true,
    }
}

/// Whether a symbol is not that of a section of merged strings.
pub(crate) fn names_no_strings(loaded: &LoadedRef, file: &File, symbol: SymbolIndex) -> bool
    ensures { result ≡ names_no_strings (loaded_now loaded.now) file.now symbol }
{
    match loaded.layout.symbols.as_slice().get(symbol.0) {
        Some(found) => {
            found.info % 16 != STT_SECTION
                || in_file(loaded, file, symbol) && is_no_merged(file, found.place)
        }
        None => true,
    }
}
