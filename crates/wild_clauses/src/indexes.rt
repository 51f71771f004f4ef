//! Clause 9: indexes.
ghost use Rattle.std.specs.Prelude.{◌≡◌, is_some, length, slice_get};
ghost use Rattle.wild_plan_rules.specs.Indexes.{index_fits, part_index_fits, relocation_index_fits, symbol_is_there, header_is_there, section_indexes_fit, file_indexes_fit, group_indexes_fit, thunk_is_there, thunks_are_there, listed_is_there, section_is_there, file_is_there, sorted_is_there, merged_is_there, entry_is_there, definition_is_own, range_follows, range_out_of_order};
ghost use Rattle.wild_types.specs.Lists.{through};
ghost use Rattle.wild_clauses.specs.SymbolIndexes.{all_ranges_lie};
ghost use Rattle.wild_plan_rules.specs.ClauseTests.{check_indexes};
ghost use Rattle.wild_clauses.specs.Survey.{are_ordinary};
ghost use Rattle.wild_clauses.specs.FileTests.{headers_are_there, symbols_are_there, groups_pass};

use crate::copies::first_copied_again;
use crate::survey::failing;
use crate::symbol_indexes::{index_fits, symbol_misfit};
use crate::verdict::{fails, unless};
use crate::versions::ParentIsThere;
use wild_types::{
    Clause, DynamicSymbol, Entry, File, Group, InputRelocation, InputSection, Layout, Merged, Part,
    SectionIndex, SortedSection, Symbol, SymbolIndex, Test, Thunk, all_pass, first_failing,
};
use wild_words::Items;

/// The indexes in an item name items that exist.
#[derive(Clone, Copy)]
pub(crate) struct IndexesFit<'a> {
    pub(crate) layout: &'a Layout,
}

impl IndexesFit<'_> {
    /// Whether those of a section do, except in its relocations.
    pub(crate) fn headers_are_there(&self, section: &InputSection) -> bool
        ensures { result ≡ headers_are_there self.now.layout.now section.now }
    {
        section.part < self.layout.parts.len()
            && header_fits(self.layout.sections.len(), section.singleton)
            && all_pass(self, section.members.as_slice())
    }

    /// Whether those of a file do, except in its sections.
    pub(crate) fn symbols_are_there(&self, file: &File) -> bool
        ensures { result ≡ symbols_are_there self.now.layout.now file.now }
    {
        let end = file.first_symbol.0 as u128 + file.symbol_count as u128;
        (file.symbol_count == 0 || end <= self.layout.symbols.len() as u128)
            && all_pass(self, file.copies.as_slice())
            && file.thunk_block < self.layout.thunk_blocks.len().max(1)
    }
}

impl Test<Part> for IndexesFit<'_> {
    ghost test = { λ t. part_index_fits t.layout.now };

    fn passes(&self, part: &Part) -> bool {
        part.section.0 < self.layout.sections.len()
    }
}

impl Test<InputRelocation> for IndexesFit<'_> {
    ghost test = { λ t. relocation_index_fits t.layout.now };

    fn passes(&self, relocation: &InputRelocation) -> bool {
        index_fits(self.layout.symbols.len(), relocation.symbol)
    }
}

impl Test<SymbolIndex> for IndexesFit<'_> {
    ghost test = { λ t. symbol_is_there t.layout.now };

    fn passes(&self, symbol: &SymbolIndex) -> bool {
        symbol.0 < self.layout.symbols.len()
    }
}

impl Test<SectionIndex> for IndexesFit<'_> {
    ghost test = { λ t. header_is_there t.layout.now };

    fn passes(&self, header: &SectionIndex) -> bool {
        header.0 < self.layout.sections.len()
    }
}

/// Whether a header index, if there is one, is below a count of sections.
fn header_fits(count: usize, header: Option<SectionIndex>) -> bool
    ensures { result ≡ index_fits count header }
{
    match header {
        Some(header) => header.0 < count,
        None => true,
    }
}

impl Test<InputSection> for IndexesFit<'_> {
    ghost test = { λ t. section_indexes_fit t.layout.now };

    fn passes(&self, section: &InputSection) -> bool {
        self.headers_are_there(section) && all_pass(self, section.relocations.as_slice())
    }
}

/// Whether the indexes in a section and its relocations name items that exist.
pub fn section_indexes_fit(layout: &Layout, section: &InputSection) -> bool
    ensures { result ≡ section_indexes_fit layout.now section.now }
{
    IndexesFit { layout }.passes(section)
}

impl Test<File> for IndexesFit<'_> {
    ghost test = { λ t. file_indexes_fit t.layout.now };

    fn passes(&self, file: &File) -> bool {
        self.symbols_are_there(file) && all_pass(self, file.sections.as_slice())
    }
}

impl Test<Group> for IndexesFit<'_> {
    ghost test = { λ t. group_indexes_fit t.layout.now };

    fn passes(&self, group: &Group) -> bool {
        all_pass(self, group.files.as_slice())
    }
}

impl Test<Thunk> for IndexesFit<'_> {
    ghost test = { λ t. thunk_is_there t.layout.now };

    fn passes(&self, thunk: &Thunk) -> bool {
        self.passes(&thunk.symbol)
    }
}

impl Test<Items<Thunk>> for IndexesFit<'_> {
    ghost test = { λ t. thunks_are_there t.layout.now };

    fn passes(&self, block: &Items<Thunk>) -> bool {
        all_pass(self, block.as_slice())
    }
}

impl Test<DynamicSymbol> for IndexesFit<'_> {
    ghost test = { λ t. listed_is_there t.layout.now };

    fn passes(&self, listed: &DynamicSymbol) -> bool {
        self.passes(&listed.symbol)
    }
}

/// Whether there is a file of that number, and in it a section of that number.
fn has_section(files: &[File], file: usize, section: usize) -> bool
    ensures { result ≡ section_is_there section (slice_get files.now file) }
{
    match files.get(file) {
        Some(file) => section < file.sections.len(),
        None => false,
    }
}

impl Test<SortedSection> for IndexesFit<'_> {
    ghost test = { λ t. sorted_is_there t.layout.now };

    fn passes(&self, entry: &SortedSection) -> bool {
        match self.layout.groups.as_slice().get(entry.group) {
            Some(group) => has_section(group.files.as_slice(), entry.file, entry.section),
            None => false,
        }
    }
}

impl Test<Merged> for IndexesFit<'_> {
    ghost test = { λ t. merged_is_there t.layout.now };

    fn passes(&self, merged: &Merged) -> bool {
        merged.part < self.layout.parts.len()
    }
}

impl Test<Symbol> for IndexesFit<'_> {
    ghost test = { λ t. definition_is_own t.layout.now };

    fn passes(&self, symbol: &Symbol) -> bool {
        let Some(index) = symbol.definition else {
            return true;
        };
        match self.layout.symbols.as_slice().get(index.0) {
            Some(found) => found.definition.unwrap_or(index) == index,
            None => true,
        }
    }
}

/// Whether the symbol of the entry point, if it is a symbol, exists.
fn entry_is_there(layout: &Layout) -> bool
    ensures { result ≡ entry_is_there layout.now layout.now.entry }
{
    match layout.entry {
        Some(Entry::Symbol(symbol)) => symbol.0 < layout.symbols.len(),
        _ => true,
    }
}

/// Where the next file's range may begin; none if one of these files' begins too early.
fn ranges_end(end: u128, files: &[File]) -> Option<u128>
    ensures { result ≡ through range_follows end files.now }
{
    let mut end = end;
    for file in files {
        if file.symbol_count != 0 {
            if (file.first_symbol.0 as u128) < end {
                return None;
            }
            end = file.first_symbol.0 as u128 + file.symbol_count as u128;
        }
    }
    Some(end)
}

/// The place of the first group with a range that begins before the end of the previous one.
fn range_out_of_order(groups: &[Group]) -> Option<usize>
    ensures { result ≡ range_out_of_order 0 0 groups.now }
{
    let mut end: u128 = 0;
    for (i, group) in groups.iter().enumerate() {
        match ranges_end(end, group.files.as_slice()) {
            Some(next) => end = next,
            None => return Some(i),
        }
    }
    None
}

/// The same; if the ranges are in order (`ranges_in_order`), nothing is searched.
#[tactic(auto, using(crate::proofs::AstrayLemmas::none_out_of_order))]
fn first_out_of_order(layout: &Layout, ranges_in_order: bool) -> Option<usize>
    requires { ranges_in_order ≡ is_some (all_ranges_lie (length layout.now.symbols) 0 layout.now.groups) }
    ensures { result ≡ range_out_of_order 0 0 layout.now.groups }
{
    if ranges_in_order {
        None
    } else {
        range_out_of_order(layout.groups.as_slice())
    }
}

#[tactic(auto, using(crate::proofs::PassedLemmas::indexes_pass), unfolding(wild_plan_rules::specs::ClauseTests::check_indexes))]
pub(crate) fn check_indexes(
    layout: &Layout,
    tests_pass: bool,
    ranges_in_order: bool,
    has_no_copies_versions_or_sorting: bool,
) -> Result<(), Clause>
    requires tests_pass { tests_pass ≡ groups_pass layout.now }
    requires ordinary { has_no_copies_versions_or_sorting ≡ are_ordinary layout.now.groups }
    requires ranges_in_order { ranges_in_order ≡ is_some (all_ranges_lie (length layout.now.symbols) 0 layout.now.groups) }
    ensures { result ≡ check_indexes layout.now }
{
    let indexes = IndexesFit { layout };
    let groups = layout.groups.as_slice();
    fails(9, first_failing(&indexes, layout.parts.as_slice()))?;
    fails(9, unless(layout.primary_part < layout.parts.len()))?;
    fails(9, symbol_misfit(layout, ranges_in_order))?;
    fails(9, failing(tests_pass, &indexes, groups))?;
    fails(9, first_failing(&indexes, layout.dynsyms.as_slice()))?;
    fails(
        9,
        first_failing(&ParentIsThere { layout }, layout.verdefs.as_slice()),
    )?;
    fails(9, first_failing(&indexes, layout.thunk_blocks.as_slice()))?;
    fails(9, first_failing(&indexes, layout.sorted.as_slice()))?;
    fails(9, first_failing(&indexes, layout.merged.as_slice()))?;
    fails(9, unless(layout.identity.part < layout.parts.len()))?;
    fails(9, unless(entry_is_there(layout)))?;
    fails(
        9,
        first_copied_again(layout, has_no_copies_versions_or_sorting),
    )?;
    fails(9, first_failing(&indexes, layout.symbols.as_slice()))?;
    fails(9, first_out_of_order(layout, ranges_in_order))
}
