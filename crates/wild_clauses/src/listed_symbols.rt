//! Clause 13: the listed symbols of the dynamic symbol table. The file of a symbol is searched for only if a section can have a
//! header index that is too large for a symbol.
ghost use Rattle.std.specs.Prelude.{◌≡◌, nat_lt, length, slice_get, Some};
ghost use Rattle.wild_needs.specs.DynamicSymbols.{dynsym_of, undefined_entries, symbol_sections, output_section, section_of_input, is_position, listed_fits, first_misplaced_listed, first_listed};
ghost use Rattle.wild_types.specs.Lookups.{files_of, file_of};
ghost use Rattle.wild_clauses.specs.Positions.{found_in, section_in, part_is_below, symbol_is_below, all_below};

use wild_needs::dynsym_of;
use wild_types::{DynamicSymbol, File, Layout, Part, Place, SectionIndex, Symbol, Test, all_pass};

/// The header index of an input section's output section; 0 if there is none.
fn section_of_input(layout: &Layout, file: &File, place: usize) -> SectionIndex
    ensures { result ≡ section_of_input layout.now (slice_get file.now.sections place) }
{
    match file.sections.as_slice().get(place) {
        Some(section) => layout.section_of(section.part),
        None => SectionIndex(0),
    }
}

/// The same in the file whose range contains the symbol of that number.
fn found_in(layout: &Layout, files: &[File], symbol: usize, place: usize) -> Option<SectionIndex>
    ensures { result ≡ found_in layout.now files.now symbol place }
{
    for file in files {
        let end = file.first_symbol.0 as u128 + file.symbol_count as u128;
        if file.first_symbol.0 <= symbol && (symbol as u128) < end {
            return Some(section_of_input(layout, file, place));
        }
    }
    None
}

fn section_in(layout: &Layout, symbol: usize, place: usize) -> SectionIndex
    ensures { result ≡ section_in layout.now symbol place layout.now.groups }
{
    for group in layout.groups.as_slice() {
        match found_in(layout, group.files.as_slice(), symbol, place) {
            Some(section) => return section,
            None => {}
        }
    }
    SectionIndex(0)
}

/// The header index of the output section of the symbol of that number; 0 if there is none.
#[tactic(auto, using(crate::proofs::DynsymLemmas::section_is))]
fn output_section(layout: &Layout, number: usize, place: Place) -> SectionIndex
    ensures { result ≡ output_section layout.now (file_of (files_of layout.now.groups) number) place }
{
    match place {
        Place::Output(section) => section,
        Place::Section(section) => section_in(layout, number, section),
        _ => SectionIndex(0),
    }
}

/// Whether a symbol may have that header index (gABI, "Special Section Indexes").
fn is_below(section: SectionIndex) -> bool
    ensures { result ≡ nat_lt section symbol_sections }
{
    section.0 < 0xff00
}

/// A symbol may have the header index of the item's section.
struct IsBelow;

impl Test<Part> for IsBelow {
    ghost test = { λ t. part_is_below };

    fn passes(&self, part: &Part) -> bool {
        is_below(part.section)
    }
}

impl Test<Symbol> for IsBelow {
    ghost test = { λ t. symbol_is_below };

    fn passes(&self, symbol: &Symbol) -> bool {
        match symbol.place {
            Place::Output(section) => is_below(section),
            _ => true,
        }
    }
}

/// Whether no symbol can be in a section whose header index is too large for it. The file of a symbol is searched for only if one
/// can.
fn all_below(layout: &Layout) -> bool
    ensures { result ≡ all_below layout.now }
{
    all_pass(&IsBelow, layout.parts.as_slice()) && all_pass(&IsBelow, layout.symbols.as_slice())
}

#[tactic(auto, using(crate::proofs::DynsymLemmas::all_are_below))]
fn section_fits(layout: &Layout, below: bool, number: usize, symbol: &Symbol) -> bool
    requires below { below ≡ all_below layout.now }
    requires own { slice_get layout.now.symbols number ≡ Some symbol.now }
    ensures { result ≡ nat_lt (output_section layout.now (file_of (files_of layout.now.groups) number) symbol.now.place) symbol_sections }
{
    below || is_below(output_section(layout, number, symbol.place))
}

/// Whether the symbol's index is that position.
fn is_position(position: u128, symbol: &Symbol) -> bool
    ensures { result ≡ is_position position (dynsym_of symbol.now) }
{
    match dynsym_of(symbol) {
        Some(index) => u128::from(index) == position,
        None => false,
    }
}

fn listed_fits(layout: &Layout, below: bool, position: u128, listed: &DynamicSymbol) -> bool
    requires below { below ≡ all_below layout.now }
    ensures { result ≡ listed_fits layout.now position listed.now }
{
    let number = listed.symbol.0;
    match layout.symbols.as_slice().get(number) {
        Some(symbol) => {
            is_position(position, symbol) && section_fits(layout, below, number, symbol)
        }
        None => false,
    }
}

/// The first listed symbol whose index is not the position that follows, or whose section has an index that no symbol may have.
pub(crate) fn first_misplaced_listed(layout: &Layout, undefined: usize) -> Option<usize>
    requires count { undefined ≡ length (undefined_entries layout.now.symbols (files_of layout.now.groups)) }
    ensures { result ≡ first_misplaced_listed layout.now (first_listed layout.now) 0 layout.now.dynsyms }
{
    let below = all_below(layout);
    let first = undefined as u128 + 1;
    for (i, listed) in layout.dynsyms.as_slice().iter().enumerate() {
        if !listed_fits(layout, below, first + i as u128, listed) {
            return Some(i);
        }
    }
    None
}
