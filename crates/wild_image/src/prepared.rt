//! What the writers of all groups need of a layout, computed once.
ghost use Rattle.std.specs.Prelude.{◌≡◌, ◌<◌, ◌+◌, [], length, Ok, Some, IfOk, slice_get, slice_index_or};
ghost use Rattle.wild_types.specs.FilePlaces.{given};
ghost use Rattle.wild_plan_rules.specs.WellFormed.{first_clause};
ghost use Rattle.wild_layout.specs.Faults.{flat_map_from, part_errors};
ghost use Rattle.wild_image.specs.Append.{EachPartLies, HasStarts};
ghost use Rattle.wild_image.specs.Prepared.{HasGroupStarts, IsPrepared};

use crate::append::written_size;
use crate::layout_facts::LayoutFacts;
use crate::shares::first_has_all;
use std::alloc::{AllocError, Global};
use wild_clauses::LayoutSurvey;
use wild_contents::{SearchTable, make_search_table};
use wild_frames::Sorter;
use wild_geometry::layouts_are_laid_out;
use wild_relax::Arch;
use wild_sections::{Resolved, SymbolTables};
use wild_types::{Group, Layout};
use wild_words::Items;

/// What the writers of all groups need of a layout whose clauses hold and whose shares are correct: properties of the layout, those of its
/// symbols, the search table of frames, and where each group's bytes begin in each part.
#[derive(Drop)]
pub struct Prepared {
    pub(crate) facts: LayoutFacts,
    pub(crate) symbols: SymbolTables,
    pub(crate) table: SearchTable,
    starts: Items<Items<u64>>,
}

/// Advances each part's start past what a group writes of it.
fn advance_starts(layout: &Layout, index: usize, group: &Group, starts: &mut [u64])
    requires lies { EachPartLies layout.now }
    requires group { slice_get layout.now.groups index ≡ Some group.now }
    requires starts { HasStarts layout.now index starts.old }
    ensures { HasStarts layout.now (index + 1) starts.new }
{
    for (i, part) in layout.parts.as_slice().iter().enumerate() {
        starts[i] += written_size(layout, part, group, i);
    }
}

/// For each group, the number of bytes that the groups before it write of each part, given these numbers for the first group.
fn starts_from(
    alloc: Global,
    layout: &Layout,
    first: Vec<u64>,
) -> Result<Items<Items<u64>>, AllocError>
    requires lies { EachPartLies layout.now }
    requires first { HasStarts layout.now 0 first.items }
    ensures { IfOk result (λ v. HasGroupStarts layout.now v) }
{
    let mut starts = first;
    let mut all = Vec::with_capacity(alloc, layout.groups.len())?;
    for (j, group) in layout.groups.as_slice().iter().enumerate() {
        all.push(Items::from_vec(starts.to_vec(alloc)?))?;
        advance_starts(layout, j, group, &mut starts);
    }
    Ok(Items::from_vec(all))
}

/// For each group, the number of bytes that the groups before it write of each part.
fn group_starts(alloc: Global, layout: &Layout) -> Result<Items<Items<u64>>, AllocError>
    requires { EachPartLies layout.now }
    ensures { IfOk result (λ v. HasGroupStarts layout.now v) }
{
    let first = vec![in alloc; 0u64; layout.parts.len()]?;
    starts_from(alloc, layout, first)
}

impl Prepared {
    /// Computes all of it.
    pub fn of<A: Arch, S: Sorter>(
        sorter: &S,
        alloc: Global,
        layout: &Layout,
    ) -> Result<Self, AllocError>
        requires ready { S.ready sorter.now }
        requires machine { layout.now.machine ≡ A.machine }
        requires clauses { first_clause layout.now ≡ Ok tt }
        requires shares { flat_map_from (part_errors layout.now) 0 layout.now.parts ≡ [] }
        ensures { IfOk result (λ p. IsPrepared layout.now p) }
    {
        layouts_are_laid_out();
        let seen = LayoutSurvey::of(layout);
        let symbols = SymbolTables::with_survey(
            alloc,
            layout,
            layout.kind.is_partial_link() || !seen.unmerged,
        )?;
        let resolved = Resolved::<A>::new(layout, &symbols);
        let table = make_search_table(sorter, alloc, &resolved)?;
        let starts = group_starts(alloc, layout)?;
        let inside = seen.inner_groups_need_no_tables;
        let facts = LayoutFacts::of(layout, inside, first_has_all(layout));
        Ok(Prepared {
            facts,
            symbols,
            table,
            starts,
        })
    }

    /// The number of bytes that the groups before a group write of each part.
    pub(crate) fn starts_of(&self, alloc: Global, group: usize) -> Result<Vec<u64>, AllocError>
        requires { group < length self.now.starts }
        ensures { IfOk result (λ v. v.items ≡ slice_index_or self.now.starts group []) }
    {
        self.starts.as_slice()[group].as_slice().to_vec(alloc)
    }
}
