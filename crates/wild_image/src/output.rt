//! Writes the image of a layout.
ghost use Rattle.std.specs.Prelude.{◌≡◌, ◌<◌, ◌≤◌, ◌^◌, ℕ, [], length, take, Ok, Some, slice_get, IfOk};
ghost use Rattle.wild_types.specs.Faults.{Answers};
ghost use Rattle.wild_plan_rules.specs.Places.{relocation_count};
ghost use Rattle.wild_plan_rules.specs.WellFormed.{first_clause};
ghost use Rattle.wild_sections.specs.SymbolTables.{HasSymbolTables};
ghost use Rattle.wild_layout.specs.Image.{bytes, counts};
ghost use Rattle.wild_layout.specs.Warnings.{warnings};
ghost use Rattle.wild_layout.specs.Faults.{clause_errors, flat_map_from, part_errors, group_errors, errors};
ghost use Rattle.wild_layout.specs.Geometry.{IsLaidOut};
ghost use Rattle.wild_image.specs.Batches.{AreBatches, GivesBatch};
ghost use Rattle.wild_image.specs.LayoutFacts.{AreFactsOf};
ghost use Rattle.wild_image.specs.declared.job.Outcome.{Outcome};

use crate::append::append_all;
use crate::batch::{Batch, batch_size, batches_of};
use crate::group_writer::{GroupWriter, ImageWriter};
use crate::job::{GroupJob, Outcome};
use crate::layout_facts::LayoutFacts;
use crate::padding::padded_prefix;
use crate::share_job::check_shares_by_workers;
use crate::shares::first_has_all;
use std::alloc::{AllocError, Global};
use wild_clauses::LayoutSurvey;
use wild_contents::make_search_table;
use wild_crew::{Gate, OpenGate};
use wild_debug::Workers;
use wild_geometry::{layouts_are_laid_out, owned_bytes_are_written};
use wild_needs::elf_entry_address;
use wild_relax::{Arch, ElfAArch64, ElfX86_64};
use wild_sections::{Resolved, SymbolTables};
use wild_types::{EntryWarning, Error, Layout, Machine};
use wild_words::{Bytes, Items};

/// An image or its first bytes, its warnings, and the number of relocations read for each section.
#[derive(Drop)]
pub struct SizedOutput {
    pub out: Bytes,
    pub warnings: Items<EntryWarning>,
    pub counts: Items<u64>,
}

/// The warnings that accompany the image.
fn warnings_of(alloc: Global, layout: &Layout) -> Result<Items<EntryWarning>, AllocError>
    ensures { IfOk result (λ w. w ≡ warnings layout.now) }
{
    match elf_entry_address(layout).1 {
        Some(warning) => Ok(Items::from_vec(vec![in alloc; warning]?)),
        None => Ok(Items::new(alloc)),
    }
}

/// The first `size` bytes of the image, or the first fault of the groups.
fn write_bytes<A: Arch>(
    alloc: Global,
    layout: &Layout,
    batches: &[Batch],
    outcomes: &[Outcome],
    size: u64,
) -> Result<Vec<u8>, Error>
    requires machine { layout.now.machine ≡ A.machine }
    requires clauses { first_clause layout.now ≡ Ok tt }
    requires shares { flat_map_from (part_errors layout.now) 0 layout.now.parts ≡ [] }
    requires laid_out { IsLaidOut layout.now }
    requires few { length layout.now.groups < 2 ^ 32 }
    requires batches { AreBatches layout.now.groups batches.now }
    requires count { length outcomes.now ≡ length batches.now }
    requires each { (i : ℕ) (o : Outcome) → slice_get outcomes.now i ≡ Some o → GivesBatch layout.now batches.now i o.bytes }
    ensures faults { Answers result (flat_map_from (group_errors layout.now) 0 layout.now.groups) }
    ensures image { IfOk result (λ v. v.items ≡ take size (bytes layout.now)) }
{
    owned_bytes_are_written();
    let mut starts = vec![in alloc; 0u64; layout.parts.len()]?;
    let mut out = padded_prefix(alloc, layout, size)?;
    append_all(layout, batches, outcomes, &mut starts, &mut out)?;
    Ok(out)
}

/// Writes the first `size` bytes of the image of a layout whose clauses hold and whose shares are correct, or returns its first fault.
/// `facts` have been computed by the caller.
fn write_resolved<A: Arch, G: Gate, E: GroupWriter<A, G>>(
    executor: &E,
    alloc: Global,
    resolved: &Resolved<A>,
    facts: LayoutFacts,
    workers: u8,
    size: u64,
    gate: &G,
) -> Result<SizedOutput, Error>
    requires ready { E.ready executor.now }
    requires facts { AreFactsOf resolved.now.layout.now facts }
    requires workers { (1 ≤ workers) × (workers ≤ 64) }
    requires clauses { first_clause resolved.now.layout.now ≡ Ok tt }
    requires shares { flat_map_from (part_errors resolved.now.layout.now) 0 resolved.now.layout.now.parts ≡ [] }
    requires laid_out { IsLaidOut resolved.now.layout.now }
    requires few { relocation_count resolved.now.layout.now < 2 ^ 64 }
    ensures faults { Answers result (flat_map_from (group_errors resolved.now.layout.now) 0 resolved.now.layout.now.groups) }
    ensures image { IfOk result (λ o. o.out ≡ take size (bytes resolved.now.layout.now)) }
    ensures warnings { IfOk result (λ o. o.warnings ≡ warnings resolved.now.layout.now) }
    ensures counts { IfOk result (λ o. o.counts ≡ counts resolved.now.layout.now) }
{
    let layout = resolved.layout;
    let table = make_search_table(executor, alloc, resolved)?;
    let groups = layout.groups.as_slice();
    let cut = batches_of(alloc, groups, batch_size(groups.len()))?;
    let batches = cut.as_slice();
    let by = Workers {
        executor,
        alloc,
        count: usize::from(workers),
    };
    let job = GroupJob {
        by,
        resolved,
        batches,
        facts,
        table: &table,
    };
    let sections = layout.sections.len() as u32;
    let gathered = executor.gather_batches(alloc, &job, sections, u32::from(workers), gate)?;
    let pieces = gathered.pieces.as_slice();
    let out = write_bytes::<A>(alloc, layout, batches, pieces, size)?;
    let warnings = warnings_of(alloc, layout)?;
    Ok(SizedOutput {
        out: Bytes::from_vec(out),
        warnings,
        counts: gathered.totals,
    })
}

/// Writes the first `size` bytes of the image of a layout whose clauses hold and whose shares are correct, or returns its first fault.
/// `symbols` and `facts` have been computed by the caller.
fn write_laid_out<A: Arch, G: Gate, E: GroupWriter<A, G>>(
    executor: &E,
    alloc: Global,
    layout: &Layout,
    symbols: &SymbolTables,
    facts: LayoutFacts,
    workers: u8,
    size: u64,
    gate: &G,
) -> Result<SizedOutput, Error>
    requires ready { E.ready executor.now }
    requires facts { AreFactsOf layout.now facts }
    requires symbols { HasSymbolTables layout.now symbols.now }
    requires machine { layout.now.machine ≡ A.machine }
    requires workers { (1 ≤ workers) × (workers ≤ 64) }
    requires clauses { first_clause layout.now ≡ Ok tt }
    requires shares { flat_map_from (part_errors layout.now) 0 layout.now.parts ≡ [] }
    requires laid_out { IsLaidOut layout.now }
    requires few { relocation_count layout.now < 2 ^ 64 }
    ensures faults { Answers result (flat_map_from (group_errors layout.now) 0 layout.now.groups) }
    ensures image { IfOk result (λ o. o.out ≡ take size (bytes layout.now)) }
    ensures warnings { IfOk result (λ o. o.warnings ≡ warnings layout.now) }
    ensures counts { IfOk result (λ o. o.counts ≡ counts layout.now) }
{
    let resolved = Resolved::<A>::new(layout, symbols);
    write_resolved(executor, alloc, &resolved, facts, workers, size, gate)
}

/// Writes the first `size` bytes of the image of a layout, or returns its first fault. `workers` workers share the work; each enters the
/// gate before each batch of groups.
fn write_prefix_gated<A: Arch, G: Gate, E: GroupWriter<A, G>>(
    executor: &E,
    alloc: Global,
    layout: &Layout,
    workers: u8,
    size: u64,
    gate: &G,
) -> Result<SizedOutput, Error>
    requires ready { E.ready executor.now }
    requires machine { layout.now.machine ≡ A.machine }
    requires workers { (1 ≤ workers) × (workers ≤ 64) }
    ensures faults { Answers result (errors layout.now) }
    ensures image { IfOk result (λ o. o.out ≡ take size (bytes layout.now)) }
    ensures warnings { IfOk result (λ o. o.warnings ≡ warnings layout.now) }
    ensures counts { IfOk result (λ o. o.counts ≡ counts layout.now) }
    ensures fits { IfOk result (λ _. length (bytes layout.now) ≤ 2 ^ 62) }
{
    let seen = LayoutSurvey::of(layout);
    let needs_owner_files = layout.kind.is_partial_link() || !seen.unmerged;
    let symbols = executor.check_and_resolve(alloc, layout, seen, needs_owner_files, workers)?;
    let facts = LayoutFacts::of(
        layout,
        seen.inner_groups_need_no_tables,
        first_has_all(layout),
    );
    check_shares_by_workers(executor, alloc, layout, facts, workers)?;
    layouts_are_laid_out();
    write_laid_out::<A, G, E>(
        executor, alloc, layout, &symbols, facts, workers, size, gate,
    )
}

/// Writes the image of a layout, or returns its first fault. `workers` workers share the work; each enters the gate before each batch
/// of groups.
pub fn write_gated<A: Arch, G: Gate, E: GroupWriter<A, G>>(
    executor: &E,
    alloc: Global,
    layout: &Layout,
    workers: u8,
    gate: &G,
) -> Result<SizedOutput, Error>
    requires ready { E.ready executor.now }
    requires machine { layout.now.machine ≡ A.machine }
    requires workers { (1 ≤ workers) × (workers ≤ 64) }
    ensures faults { Answers result (errors layout.now) }
    ensures image { IfOk result (λ o. o.out ≡ bytes layout.now) }
    ensures warnings { IfOk result (λ o. o.warnings ≡ warnings layout.now) }
    ensures counts { IfOk result (λ o. o.counts ≡ counts layout.now) }
{
    write_prefix_gated::<A, G, E>(executor, alloc, layout, workers, u64::MAX, gate)
}

/// Writes the first `size` bytes of the image of a layout, or returns its first fault. `workers` workers share the work.
pub fn write_prefix<A: Arch, E: GroupWriter<A, OpenGate>>(
    executor: &E,
    alloc: Global,
    layout: &Layout,
    workers: u8,
    size: u64,
) -> Result<SizedOutput, Error>
    requires ready { E.ready executor.now }
    requires machine { layout.now.machine ≡ A.machine }
    requires workers { (1 ≤ workers) × (workers ≤ 64) }
    ensures faults { Answers result (errors layout.now) }
    ensures image { IfOk result (λ o. o.out ≡ take size (bytes layout.now)) }
    ensures warnings { IfOk result (λ o. o.warnings ≡ warnings layout.now) }
    ensures counts { IfOk result (λ o. o.counts ≡ counts layout.now) }
{
    write_prefix_gated::<A, OpenGate, E>(executor, alloc, layout, workers, size, &OpenGate)
}

/// Writes the image of a layout, or returns its first fault. `workers` workers share the work.
pub fn write<A: Arch, E: GroupWriter<A, OpenGate>>(
    executor: &E,
    alloc: Global,
    layout: &Layout,
    workers: u8,
) -> Result<SizedOutput, Error>
    requires ready { E.ready executor.now }
    requires machine { layout.now.machine ≡ A.machine }
    requires workers { (1 ≤ workers) × (workers ≤ 64) }
    ensures faults { Answers result (errors layout.now) }
    ensures image { IfOk result (λ o. o.out ≡ bytes layout.now) }
    ensures warnings { IfOk result (λ o. o.warnings ≡ warnings layout.now) }
    ensures counts { IfOk result (λ o. o.counts ≡ counts layout.now) }
{
    write_gated::<A, OpenGate, E>(executor, alloc, layout, workers, &OpenGate)
}

/// Writes the image of a layout for the machine that it names, or returns its first fault. `workers` workers share the work.
pub fn write_layout<E: ImageWriter>(
    executor: &E,
    alloc: Global,
    layout: &Layout,
    workers: u8,
) -> Result<SizedOutput, Error>
    requires ready { E.ready executor.now }
    requires workers { (1 ≤ workers) × (workers ≤ 64) }
    ensures faults { Answers result (errors layout.now) }
    ensures image { IfOk result (λ o. o.out ≡ bytes layout.now) }
    ensures warnings { IfOk result (λ o. o.warnings ≡ warnings layout.now) }
    ensures counts { IfOk result (λ o. o.counts ≡ counts layout.now) }
{
    match layout.machine {
        Machine::X86_64 => write::<ElfX86_64, E>(executor, alloc, layout, workers),
        Machine::AArch64 => write::<ElfAArch64, E>(executor, alloc, layout, workers),
    }
}
