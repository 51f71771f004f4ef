//! Bytes at addresses: whether two parts share one, and writing parts over others.
ghost use Rattle.std.specs.Prelude.{◌≡◌, map, None, IfOk, Ok};
ghost use Rattle.wild_loader.specs.Outcome.{Gives, GivesBy};
ghost use Rattle.wild_loader.specs.Relocate.{runs_of_patches};
ghost use Rattle.wild_loader.specs.Runs.{extent_of, least_shared, check_no_overlap, put_bytes, overlay_runs};

use crate::change::Patch;
use crate::fault::LoadFault;
use crate::index::IndexedMemory;
use crate::memory::Run;
use std::alloc::Global;
use wild_words::{Extent, least_shared};

/// The start and the end of a run.
fn extent_of_run(run: &Run) -> Extent
    ensures { result ≡ extent_of run.now }
{
    Extent {
        start: run.start,
        end: run.start as u128 + run.bytes.len() as u128,
    }
}

/// The starts and ends of runs.
fn extents_of_runs(alloc: Global, runs: &[Run]) -> Result<Vec<Extent>, LoadFault>
    ensures { GivesBy (λ v. v.items) result (Ok (map extent_of runs.now)) }
{
    let mut extents = Vec::new(alloc);
    for run in runs {
        extents.push(extent_of_run(run))?;
    }
    Ok(extents)
}

/// The starts and ends of the bytes of changes.
fn extents_of_patches(alloc: Global, patches: &[Patch]) -> Result<Vec<Extent>, LoadFault>
    ensures { GivesBy (λ v. v.items) result (Ok (map extent_of (runs_of_patches patches.now))) }
{
    let mut extents = Vec::new(alloc);
    for patch in patches {
        extents.push(extent_of_run(&patch.run))?;
    }
    Ok(extents)
}

/// Whether no two of the runs share an address.
pub fn check_runs(alloc: Global, runs: &[Run]) -> Result<(), LoadFault>
    ensures gives { Gives result (check_no_overlap (least_shared runs.now)) }
    ensures apart { IfOk result (λ x. least_shared runs.now ≡ None) }
{
    let mut extents = extents_of_runs(alloc, runs)?;
    if let Some(address) = least_shared(&mut extents) {
        return Err(LoadFault::Overlap { address });
    }
    Ok(())
}

/// Whether no two changes share an address.
pub(crate) fn check_patches(alloc: Global, patches: &[Patch]) -> Result<(), LoadFault>
    ensures { Gives result (check_no_overlap (least_shared (runs_of_patches patches.now))) }
{
    let mut extents = extents_of_patches(alloc, patches)?;
    if let Some(address) = least_shared(&mut extents) {
        return Err(LoadFault::Overlap { address });
    }
    Ok(())
}

/// Writes bytes from an address on.
#[tactic(auto, unfolding(crate::specs::Runs::put_bytes))]
fn put_all(memory: &mut IndexedMemory, start: u64, bytes: &[u8])
    ensures machine { memory.new.machine ≡ memory.old.machine }
    ensures runs { memory.new.runs ≡ put_bytes start bytes.now memory.old.runs }
{
    for i in 0..bytes.len() {
        memory.put(start as u128 + i as u128, bytes[i]);
    }
}

/// Writes the bytes of changes over memory.
#[tactic(auto, unfolding(crate::specs::Runs::overlay_runs))]
pub(crate) fn put_patches(memory: &mut IndexedMemory, patches: &[Patch])
    ensures machine { memory.new.machine ≡ memory.old.machine }
    ensures runs { memory.new.runs ≡ overlay_runs (runs_of_patches patches.now) memory.old.runs }
{
    for patch in patches {
        put_all(memory, patch.run.start, patch.run.bytes.as_slice());
    }
}
