//! Clause 21: what only relocatable objects may have, and what they may not have.
ghost use Rattle.std.specs.Prelude.{◌≡◌, slice_get};
ghost use Rattle.wild_plan_rules.specs.Partial.{has_no_segments, is_slotless, has_no_slot, has_no_pair, has_no_thunks, lists_no_symbols, is_indexless, has_no_index, is_no_debug, is_group, is_of_kind, has_entries, table_fits, file_tables_fit, tables_fit, group_fits_members, table_has_data};
ghost use Rattle.wild_types.specs.Lookups.{is_rela};
ghost use Rattle.wild_plan_rules.specs.ClauseTests.{check_partial};
ghost use Rattle.wild_clauses.specs.FileTests.{groups_pass};

use crate::each_section::failing_group;
use crate::verdict::{fails, unless};
use wild_records::Rela;
use wild_types::{
    Clause, File, Group, InputSection, Layout, Resolution, Slot, Symbol, Test, Thunk, all_pass,
    first_failing,
};
use wild_words::Items;

/// Whether the output is no relocatable object, or has no segments: no loader reads such an object.
fn has_no_segments(layout: &Layout) -> bool
    ensures { result ≡ has_no_segments layout.now }
{
    !layout.kind.is_partial_link() || layout.segments.len() == 0
}

fn is_slotless(resolution: Option<Resolution>) -> bool
    ensures { result ≡ is_slotless resolution }
{
    match resolution {
        Some(resolution) => resolution.got_address.is_none() && resolution.plt_address.is_none(),
        None => true,
    }
}

/// In a relocatable object no symbol has slots or a stub.
#[derive(Clone, Copy)]
struct HasNoSlot<'a> {
    layout: &'a Layout,
}

impl Test<Symbol> for HasNoSlot<'_> {
    ghost test = { λ t. has_no_slot t.layout.now };

    fn passes(&self, symbol: &Symbol) -> bool {
        !self.layout.kind.is_partial_link() || is_slotless(symbol.resolution)
    }
}

/// Whether it has no module pair for thread-local data either.
fn has_no_pair(layout: &Layout) -> bool
    ensures { result ≡ has_no_pair layout.now }
{
    !layout.kind.is_partial_link() || layout.tlsld.is_none()
}

/// In a relocatable object no block has thunks.
#[derive(Clone, Copy)]
struct HasNoThunks<'a> {
    layout: &'a Layout,
}

impl Test<Items<Thunk>> for HasNoThunks<'_> {
    ghost test = { λ t. has_no_thunks t.layout.now };

    fn passes(&self, block: &Items<Thunk>) -> bool {
        !self.layout.kind.is_partial_link() || block.len() == 0
    }
}

/// Whether the output is no relocatable object, or has no dynamic symbols.
fn lists_no_symbols(layout: &Layout) -> bool
    ensures { result ≡ lists_no_symbols layout.now }
{
    !layout.kind.is_partial_link() || layout.dynsyms.len() == 0
}

fn is_indexless(resolution: Option<Resolution>) -> bool
    ensures { result ≡ is_indexless resolution }
{
    match resolution {
        Some(resolution) => resolution.dynamic_symbol_index.is_none(),
        None => true,
    }
}

/// In a relocatable object no symbol has an index among the dynamic ones.
#[derive(Clone, Copy)]
struct HasNoIndex<'a> {
    layout: &'a Layout,
}

impl Test<Symbol> for HasNoIndex<'_> {
    ghost test = { λ t. has_no_index t.layout.now };

    fn passes(&self, symbol: &Symbol) -> bool {
        !self.layout.kind.is_partial_link() || is_indexless(symbol.resolution)
    }
}

/// In a relocatable object sections for debuggers are linked like all others.
#[derive(Clone, Copy)]
struct IsNoDebug<'a> {
    layout: &'a Layout,
}

impl Test<InputSection> for IsNoDebug<'_> {
    ghost test = { λ t. is_no_debug t.layout.now };

    fn passes(&self, section: &InputSection) -> bool {
        !self.layout.kind.is_partial_link() || !section.slot.is_debug()
    }
}

fn is_rela(slot: Slot) -> bool
    ensures { result ≡ is_rela slot }
{
    matches!(slot, Slot::Rela)
}

fn is_group(slot: Slot) -> bool
    ensures { result ≡ is_group slot }
{
    matches!(slot, Slot::Group)
}

/// Only relocatable objects have relocation tables, groups and sections with an output section of their own.
#[derive(Clone, Copy)]
pub(crate) struct IsOfKind<'a> {
    pub(crate) layout: &'a Layout,
}

impl Test<InputSection> for IsOfKind<'_> {
    ghost test = { λ t. is_of_kind t.layout.now };

    fn passes(&self, section: &InputSection) -> bool {
        self.layout.kind.is_partial_link()
            || !is_rela(section.slot) && !is_group(section.slot) && section.singleton.is_none()
    }
}

/// Whether the table's target exists, and the table has an entry for each of its relocations.
fn has_entries(file: &File, table: &InputSection) -> bool
    ensures { result ≡ has_entries table.now.size (slice_get file.now.sections table.now.target) }
{
    match file.sections.as_slice().get(table.target) {
        Some(target) => {
            u128::from(table.size) == Rela::SIZE as u128 * target.relocations.len() as u128
        }
        None => false,
    }
}

/// A relocation table has a target in its file, and an entry for each of its relocations.
#[derive(Clone, Copy)]
struct TableFits<'a> {
    file: &'a File,
}

impl Test<InputSection> for TableFits<'_> {
    ghost test = { λ t. table_fits t.file.now };

    fn passes(&self, section: &InputSection) -> bool {
        !is_rela(section.slot) || has_entries(self.file, section)
    }
}

/// So do those of each file of a group.
struct TablesFit;

impl Test<File> for TablesFit {
    ghost test = { λ t. file_tables_fit };

    fn passes(&self, file: &File) -> bool {
        all_pass(&TableFits { file }, file.sections.as_slice())
    }
}

impl Test<Group> for TablesFit {
    ghost test = { λ t. tables_fit };

    fn passes(&self, group: &Group) -> bool {
        all_pass(self, group.files.as_slice())
    }
}

/// Whether each relocation table of a file has a target in the file, and an entry for each of its relocations.
pub fn file_tables_fit(file: &File) -> bool
    ensures { result ≡ file_tables_fit file.now }
{
    TablesFit.passes(file)
}

/// A group has one word for its flags and one for each member (gABI, "Section Groups").
struct GroupFitsMembers;

impl Test<InputSection> for GroupFitsMembers {
    ghost test = { λ t. group_fits_members };

    fn passes(&self, section: &InputSection) -> bool {
        !is_group(section.slot) || u128::from(section.size) == 4 + 4 * section.members.len() as u128
    }
}

/// Relocation tables and groups have data.
struct TableHasData;

impl Test<InputSection> for TableHasData {
    ghost test = { λ t. table_has_data };

    fn passes(&self, section: &InputSection) -> bool {
        !(is_rela(section.slot) || is_group(section.slot)) || !section.nobits
    }
}

/// For other outputs the last tests follow from having nothing that only a relocatable object may have.
#[tactic(auto, using(crate::proofs::PartialLemmas::no_partial, crate::proofs::PassedLemmas::kinds_pass), unfolding(wild_plan_rules::specs::ClauseTests::check_partial))]
pub(crate) fn check_partial(layout: &Layout, tests_pass: bool) -> Result<(), Clause>
    requires tests_pass { tests_pass ≡ groups_pass layout.now }
    ensures { result ≡ check_partial layout.now }
{
    let groups = layout.groups.as_slice();
    if !layout.kind.is_partial_link() {
        if tests_pass {
            return Ok(());
        }
        return fails(21, failing_group(&IsOfKind { layout }, groups));
    }
    let symbols = layout.symbols.as_slice();
    let blocks = layout.thunk_blocks.as_slice();
    fails(21, unless(has_no_segments(layout)))?;
    fails(21, first_failing(&HasNoSlot { layout }, symbols))?;
    fails(21, unless(has_no_pair(layout)))?;
    fails(21, first_failing(&HasNoThunks { layout }, blocks))?;
    fails(21, unless(lists_no_symbols(layout)))?;
    fails(21, first_failing(&HasNoIndex { layout }, symbols))?;
    fails(21, failing_group(&IsNoDebug { layout }, groups))?;
    fails(21, failing_group(&IsOfKind { layout }, groups))?;
    fails(21, first_failing(&TablesFit, groups))?;
    fails(21, failing_group(&GroupFitsMembers, groups))?;
    fails(21, failing_group(&TableHasData, groups))
}
