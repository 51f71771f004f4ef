//! The bytes of one group, by part or over an image.
ghost use Rattle.std.specs.Prelude.{◌≡◌, [], ℕ, ◌<◌, ◌≤◌, ◌+◌, ◌^◌, length, IfOk, OnOk, OnErr, All, Ok, Some, slice_get};
ghost use Rattle.wild_types.specs.Faults.{Answers};
ghost use Rattle.wild_types.specs.Lookups.{image_size};
ghost use Rattle.wild_plan_rules.specs.WellFormed.{first_clause};
ghost use Rattle.wild_words.specs.Overlay.{overlay};
ghost use Rattle.wild_layout.specs.Image.{group_pieces};
ghost use Rattle.wild_layout.specs.Faults.{flat_map_from, part_errors, group_errors};
ghost use Rattle.std.specs.List.{list_any};
ghost use Rattle.wild_types.specs.declared.part.Role.TheVariants as role;
ghost use Rattle.wild_types.specs.declared.file.File.{File};
ghost use Rattle.wild_types.specs.FileRoles.{is_prelude};
ghost use Rattle.wild_layout.specs.SearchTable.{address_of_role};
ghost use Rattle.wild_contents.specs.SearchTable.{IsTableFor};
ghost use Rattle.wild_image.specs.Pieces.{group_parts, group_pairs, group_tables, group_files};
ghost use Rattle.wild_image.specs.Jobs.{GivesPiece, PutsPieces};
ghost use Rattle.wild_image.specs.LayoutFacts.{AreFactsOf};
ghost use Rattle.wild_image.specs.Prepared.{IsPrepared};

use crate::append::append_group;
use crate::buffer::{GroupBytes, add_group};
use crate::layout_facts::LayoutFacts;
use crate::prepared::Prepared;
use crate::relocation_counts::relocation_counts;
use crate::split_by_part::split_by_part;
use crate::step_count::Steps;
use std::alloc::{AllocError, Global};
use std::sync::ledger::Ledger;
use wild_contents::{PartBytes, SearchTable, make_search_table};
use wild_debug::{DebugWriter, Workers};
use wild_frames::Sorter;
use wild_geometry::layouts_are_laid_out;
use wild_relax::Arch;
use wild_sections::{Resolved, SymbolTables};
use wild_types::{Error, Group, Layout};
use wild_words::Items;

/// The bytes of a group, one list for each part of the image: its contribution to the tables, then its input sections and thunks.
/// And pairs (section, count) of the relocations read.
#[derive(Drop)]
pub struct GroupPiece {
    pub parts: Items<PartBytes>,
    pub counts: Items<(u32, u64)>,
}

/// All bytes of a group, or its first fault. This is the step that `Steps` counts.
fn group_bytes<A: Arch, E: DebugWriter<A>, L: Ledger>(
    by: &Workers<E>,
    resolved: &Resolved<A>,
    index: usize,
    group: &Group,
    facts: LayoutFacts,
    table: &SearchTable,
    steps: &mut Steps<L>,
) -> Result<GroupBytes, Error>
    requires ready { E.ready by.now.executor.now }
    requires facts { AreFactsOf resolved.now.layout.now facts }
    requires clauses { first_clause resolved.now.layout.now ≡ Ok tt }
    requires shares { flat_map_from (part_errors resolved.now.layout.now) 0 resolved.now.layout.now.parts ≡ [] }
    requires group { slice_get resolved.now.layout.now.groups index ≡ Some group.now }
    requires table { All (IsTableFor resolved.now.layout.now table.now) group.now.files }
    ensures faults { Answers result (group_errors resolved.now.layout.now index group.now) }
    ensures tables { IfOk result (λ b. b.tables ≡ group_tables resolved.now.layout.now group.now) }
    ensures files { IfOk result (λ b. b.files ≡ group_files resolved.now.layout.now group.now) }
    ensures counted { steps.new ≡ steps.old + 1 }
{
    layouts_are_laid_out();
    steps.count_group();
    let mut bytes = GroupBytes::with_room(by.alloc, 0, 0)?;
    add_group(by, resolved, index, group, facts, table, &mut bytes)?;
    Ok(bytes)
}

/// The bytes of a group by part and its counts, or its first fault.
fn piece_of<A: Arch, E: DebugWriter<A>, L: Ledger>(
    by: &Workers<E>,
    resolved: &Resolved<A>,
    index: usize,
    group: &Group,
    facts: LayoutFacts,
    table: &SearchTable,
    steps: &mut Steps<L>,
) -> Result<GroupPiece, Error>
    requires ready { E.ready by.now.executor.now }
    requires facts { AreFactsOf resolved.now.layout.now facts }
    requires clauses { first_clause resolved.now.layout.now ≡ Ok tt }
    requires shares { flat_map_from (part_errors resolved.now.layout.now) 0 resolved.now.layout.now.parts ≡ [] }
    requires group { slice_get resolved.now.layout.now.groups index ≡ Some group.now }
    requires table { All (IsTableFor resolved.now.layout.now table.now) group.now.files }
    ensures faults { Answers result (group_errors resolved.now.layout.now index group.now) }
    ensures parts { IfOk result (λ p. p.parts ≡ group_parts resolved.now.layout.now group.now) }
    ensures counts { IfOk result (λ p. p.counts ≡ group_pairs resolved.now.layout.now group.now) }
    ensures counted { steps.new ≡ steps.old + 1 }
{
    layouts_are_laid_out();
    let bytes = group_bytes(by, resolved, index, group, facts, table, steps)?;
    let parts = split_by_part(by.alloc, resolved.layout, group, &bytes)?;
    let counts = Items::from_vec(relocation_counts(by.alloc, resolved.layout, group)?);
    Ok(GroupPiece { parts, counts })
}

/// Whether the group has the prelude, the first file of the layout.
fn has_first(group: &Group) -> bool
    ensures { result ≡ list_any (λ (f : File). is_prelude f.role) group.now.files }
{
    group
        .files
        .as_slice()
        .iter()
        .any(|file| file.role.is_prelude())
}

/// The `.eh_frame_hdr` search table, if the group has the first file, which writes it.
#[tactic(auto, using(crate::proofs::PlacedLemmas::table_of_all, crate::proofs::PlacedLemmas::table_of_none))]
fn table_for<A: Arch, S: Sorter>(
    sorter: &S,
    alloc: Global,
    resolved: &Resolved<A>,
    group: &Group,
) -> Result<SearchTable, AllocError>
    requires ready { S.ready sorter.now }
    requires place { address_of_role resolved.now.layout.now role.EhFrameHdr + 4 < 2 ^ 64 }
    ensures { IfOk result (λ t. All (IsTableFor resolved.now.layout.now t) group.now.files) }
{
    if !has_first(group) {
        return Ok(SearchTable::none(alloc));
    }
    let table = make_search_table(sorter, alloc, resolved)?;
    Ok(table)
}

/// The bytes and counts of the group with that number, or its first fault. `well_formed` checks that the clauses hold,
/// `check_shares` that the shares are correct. It counts one step.
pub fn write_group<A: Arch, L: Ledger, E: Sorter + DebugWriter<A>>(
    executor: &E,
    alloc: Global,
    layout: &Layout,
    group: usize,
    steps: &mut Steps<L>,
) -> Result<GroupPiece, Error>
    requires ready { E.ready executor.now }
    requires machine { layout.now.machine ≡ A.machine }
    requires clauses { first_clause layout.now ≡ Ok tt }
    requires shares { flat_map_from (part_errors layout.now) 0 layout.now.parts ≡ [] }
    requires group { group < length layout.now.groups }
    ensures piece { GivesPiece layout.now group result }
    ensures counted { OnOk result (steps.new ≡ steps.old + 1) }
    ensures most { steps.new ≤ steps.old + 1 }
{
    layouts_are_laid_out();
    let symbols = SymbolTables::new(alloc, layout)?;
    let resolved = Resolved::<A>::new(layout, &symbols);
    let found = &layout.groups.as_slice()[group];
    let table = table_for(executor, alloc, &resolved, found)?;
    let by = Workers {
        executor,
        alloc,
        count: 1,
    };
    let facts = LayoutFacts::of(layout, false, false);
    piece_of(&by, &resolved, group, found, facts, &table, steps)
}

/// Copies the bytes of a group into an image, or returns the group's first fault and leaves the image as it is.
fn put_group<A: Arch, E: DebugWriter<A>, L: Ledger>(
    by: &Workers<E>,
    resolved: &Resolved<A>,
    prepared: &Prepared,
    index: usize,
    group: &Group,
    out: &mut [u8],
    steps: &mut Steps<L>,
) -> Result<(), Error>
    requires ready { E.ready by.now.executor.now }
    requires clauses { first_clause resolved.now.layout.now ≡ Ok tt }
    requires shares { flat_map_from (part_errors resolved.now.layout.now) 0 resolved.now.layout.now.parts ≡ [] }
    requires prepared { IsPrepared resolved.now.layout.now prepared.now }
    requires group { slice_get resolved.now.layout.now.groups index ≡ Some group.now }
    requires room { length out.old ≡ image_size resolved.now.layout.now }
    ensures faults { Answers result (group_errors resolved.now.layout.now index group.now) }
    ensures image { OnOk result (out.new ≡ overlay (group_pieces resolved.now.layout.now index group.now) out.old) }
    ensures kept { OnErr result (out.new ≡ out.old) }
    ensures counted { steps.new ≡ steps.old + 1 }
{
    layouts_are_laid_out();
    let facts = prepared.facts;
    let bytes = group_bytes(by, resolved, index, group, facts, &prepared.table, steps)?;
    let mut starts = prepared.starts_of(by.alloc, index)?;
    append_group(resolved.layout, index, group, &bytes, &mut starts, out);
    Ok(())
}

/// Writes the bytes of the group with that number over an image, or returns the group's first fault and leaves the image as it is. What is
/// the same for each group was prepared. It counts one step.
pub fn write_group_over<A: Arch, E: DebugWriter<A>, L: Ledger>(
    by: &Workers<E>,
    layout: &Layout,
    prepared: &Prepared,
    group: usize,
    out: &mut [u8],
    steps: &mut Steps<L>,
) -> Result<(), Error>
    requires ready { E.ready by.now.executor.now }
    requires machine { layout.now.machine ≡ A.machine }
    requires clauses { first_clause layout.now ≡ Ok tt }
    requires shares { flat_map_from (part_errors layout.now) 0 layout.now.parts ≡ [] }
    requires prepared { IsPrepared layout.now prepared.now }
    requires group { group < length layout.now.groups }
    requires room { length out.old ≡ image_size layout.now }
    ensures pieces { PutsPieces layout.now group out.old result out.new }
    ensures kept { OnErr result (out.new ≡ out.old) }
    ensures counted { steps.new ≡ steps.old + 1 }
{
    layouts_are_laid_out();
    let resolved = Resolved::<A>::new(layout, &prepared.symbols);
    let found = &layout.groups.as_slice()[group];
    put_group(by, &resolved, prepared, group, found, out, steps)
}
