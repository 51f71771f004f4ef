//! The memory of a layout.
ghost use Rattle.std.specs.Prelude.{◌≡◌, ◌≤◌, ◌==◌, not, None, Ok, IfOk, IfErr, IfSome};
ghost use Rattle.std.specs.List.{list_all};
ghost use Rattle.wild_records.specs.Abi.Segment.{pt_dynamic};
ghost use Rattle.wild_types.specs.declared.section.Segment.{Segment};
ghost use Rattle.wild_loader.specs.Outcome.{Gives as LoaderGives};
ghost use Rattle.wild_loader.specs.Runs.{least_shared};
ghost use Rattle.wild_placer.specs.Plain.{is_plain, load_by};
ghost use Rattle.wild_placer.specs.Place.{layout_memory, Gives, Fails, write_fault, load_fault, fault_of_prefix};

use crate::fault::PlaceFault;
use crate::laws::{placed_runs_are_separate, plain_layouts_are_loaded};
use crate::plain::load_plain;
use std::alloc::Global;
use wild_image::{Arch, GroupWriter, OpenGate, write, write_prefix};
use wild_layout::numbers_fit;
use wild_loader::{LoadFault, Memory, World, load_image};
use wild_records::abi::segment::{PT_DYNAMIC, PT_LOAD};
use wild_records::{FileHeader, ProgramHeader};
use wild_types::{Error, Fault, Layout, Segment};

/// The writer's error, as a fault of the placer.
fn write_fault(error: Error) -> PlaceFault
    ensures { result ≡ write_fault error }
{
    match error.fault {
        Fault::OutOfMemory => PlaceFault::OutOfMemory,
        _ => PlaceFault::Write(error),
    }
}

/// The loader's fault, as one of the placer.
fn load_fault(fault: LoadFault) -> PlaceFault
    ensures { result ≡ load_fault fault }
{
    match fault {
        LoadFault::OutOfMemory => PlaceFault::OutOfMemory,
        fault => PlaceFault::Load(fault),
    }
}

/// The loader's fault in the first bytes of an image, as one of the placer, unless these bytes end too early.
fn fault_of_prefix(fault: LoadFault) -> Option<PlaceFault>
    ensures { result ≡ fault_of_prefix fault }
{
    match fault {
        LoadFault::Cut { .. } => None,
        fault => Some(load_fault(fault)),
    }
}

/// Whether no segment is a dynamic section.
fn has_no_dynamic(segments: &[Segment]) -> bool
    ensures { result ≡ list_all (λ (g : Segment). not (g.kind == pt_dynamic)) segments.now }
{
    segments.iter().all(|segment| segment.kind != PT_DYNAMIC)
}

/// Whether the output is loaded, and has no dynamic section.
fn is_plain(layout: &Layout) -> bool
    ensures { result ≡ is_plain layout.now }
{
    !layout.kind.is_partial_link() && has_no_dynamic(layout.segments.as_slice())
}

/// How many of an image's first bytes are read: its headers, the segments that are loaded and the dynamic section.
fn loaded_size(layout: &Layout) -> u64
    ensures { 64 ≤ result }
{
    let segments = layout.segments.as_slice();
    let headers = (segments.len() as u64).saturating_mul(ProgramHeader::SIZE as u64);
    let mut end = headers.saturating_add(FileHeader::SIZE as u64);
    for segment in segments {
        if segment.kind == PT_LOAD || segment.kind == PT_DYNAMIC {
            end = end.max(segment.offset.saturating_add(segment.file_size));
        }
    }
    end
}

/// The memory of the first bytes of an image, with or without a dynamic section.
fn load_by(
    alloc: Global,
    plain: bool,
    layout: &Layout,
    prefix: &[u8],
    world: &World,
) -> Result<Memory, LoadFault>
    ensures { LoaderGives result (load_by plain layout.now world.now prefix.now) }
{
    if plain {
        load_plain(alloc, layout, prefix, world)
    } else {
        load_image(alloc, prefix, world)
    }
}

/// The memory of a layout in a world, by the first bytes of its image; none if these end too early.
#[tactic(auto, using(crate::proofs::PlaceLemmas::not_written, crate::proofs::PlaceLemmas::prefix_placed, crate::proofs::PlaceLemmas::prefix_not_loaded))]
fn place_prefix<A: Arch, E: GroupWriter<A, OpenGate>>(
    executor: &E,
    alloc: Global,
    layout: &Layout,
    world: &World,
    workers: u8,
) -> Result<Option<Memory>, PlaceFault>
    requires ready { E.ready executor.now }
    requires machine { layout.now.machine ≡ A.machine }
    requires workers { (1 ≤ workers) × (workers ≤ 64) }
    ensures memory { IfOk result (λ o. IfSome o (λ m. layout_memory layout.now world.now ≡ Ok m)) }
    ensures fault { IfErr result (λ e. Fails e (layout_memory layout.now world.now)) }
{
    numbers_fit(layout);
    plain_layouts_are_loaded();
    let plain = is_plain(layout);
    let size = loaded_size(layout);
    let output = match write_prefix::<A, E>(executor, alloc, layout, workers, size) {
        Ok(output) => output,
        Err(error) => return Err(write_fault(error)),
    };
    match load_by(alloc, plain, layout, output.out.as_slice(), world) {
        Ok(memory) => Ok(Some(memory)),
        Err(fault) => match fault_of_prefix(fault) {
            Some(fault) => Err(fault),
            None => Ok(None),
        },
    }
}

/// The memory of a layout in a world, by its image.
#[tactic(auto, using(crate::proofs::PlaceLemmas::not_written, crate::proofs::PlaceLemmas::is_placed, crate::proofs::PlaceLemmas::not_loaded))]
fn place_whole<A: Arch, E: GroupWriter<A, OpenGate>>(
    executor: &E,
    alloc: Global,
    layout: &Layout,
    world: &World,
    workers: u8,
) -> Result<Memory, PlaceFault>
    requires ready { E.ready executor.now }
    requires machine { layout.now.machine ≡ A.machine }
    requires workers { (1 ≤ workers) × (workers ≤ 64) }
    ensures { Gives result (layout_memory layout.now world.now) }
{
    let output = match write::<A, E>(executor, alloc, layout, workers) {
        Ok(output) => output,
        Err(error) => return Err(write_fault(error)),
    };
    match load_image(alloc, output.out.as_slice(), world) {
        Ok(memory) => Ok(memory),
        Err(fault) => Err(load_fault(fault)),
    }
}

/// The memory of a layout in a world: what the loader makes of the layout's image. `workers` workers share the work. Of the image the first
/// bytes are made and freed again: those that the loader reads.
pub fn place_code<A: Arch, E: GroupWriter<A, OpenGate>>(
    executor: &E,
    alloc: Global,
    layout: &Layout,
    world: &World,
    workers: u8,
) -> Result<Memory, PlaceFault>
    requires ready { E.ready executor.now }
    requires machine { layout.now.machine ≡ A.machine }
    requires workers { (1 ≤ workers) × (workers ≤ 64) }
    ensures memory { Gives result (layout_memory layout.now world.now) }
    ensures separate { IfOk result (λ m. least_shared m.runs ≡ None) }
{
    placed_runs_are_separate();
    match place_prefix::<A, E>(executor, alloc, layout, world, workers)? {
        Some(memory) => Ok(memory),
        None => place_whole::<A, E>(executor, alloc, layout, world, workers),
    }
}
