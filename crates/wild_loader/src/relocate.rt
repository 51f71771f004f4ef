//! The tables of an image applied to the bytes of its segments.
ghost use Rattle.std.specs.Prelude.{◌≡◌, [], ◌++◌, None, Ok};
ghost use Rattle.wild_loader.specs.Memory.{memory_of};
ghost use Rattle.wild_loader.specs.Outcome.{Gives};
ghost use Rattle.wild_loader.specs.Runs.{least_shared};
ghost use Rattle.wild_loader.specs.Relocate.{add_relas, add_places, apart, notes, memory_with_patches, relocate};

use crate::change::{Patch, entry_patch, packed_patch};
use crate::fault::LoadFault;
use crate::index::IndexedMemory;
use crate::memory::{Machine, Memory, Run};
use crate::places::read_places;
use crate::runs::{check_patches, put_patches};
use crate::tables::Tables;
use crate::world::World;
use std::alloc::Global;
use wild_records::Rela;
use wild_words::Items;

/// The changes, followed by those of entries.
#[tactic(auto, unfolding(crate::specs::Relocate::add_all))]
fn add_entries(
    alloc: Global,
    world: &World,
    before: &IndexedMemory,
    entries: &[Rela],
    mut patches: Items<Patch>,
) -> Result<Items<Patch>, LoadFault>
    ensures { Gives result (add_relas world.now before.now entries.now patches) }
{
    for entry in entries {
        patches.push(entry_patch(alloc, world, before, entry)?)?;
    }
    Ok(patches)
}

/// The changes at places of the packed relative relocations.
#[tactic(auto, unfolding(crate::specs::Relocate::add_all))]
fn add_packed(
    alloc: Global,
    world: &World,
    before: &IndexedMemory,
    places: &[u64],
) -> Result<Items<Patch>, LoadFault>
    ensures { Gives result (add_places world.now before.now places.now []) }
{
    let mut patches = Items::new(alloc);
    for place in places {
        patches.push(packed_patch(alloc, world, before, *place)?)?;
    }
    Ok(patches)
}

/// The changes, if no two of them share an address.
#[tactic(auto, unfolding(crate::specs::Relocate::apart))]
fn checked(alloc: Global, patches: Items<Patch>) -> Result<Items<Patch>, LoadFault>
    ensures { Gives result (apart patches) }
{
    check_patches(alloc, patches.as_slice())?;
    Ok(patches)
}

/// The pairs that changes note.
#[tactic(auto, unfolding(crate::specs::Relocate::notes))]
fn noted_pairs(alloc: Global, patches: &[Patch]) -> Result<Items<(u64, u64)>, LoadFault>
    ensures { Gives result (Ok (notes patches.now)) }
{
    let mut pairs = Items::new(alloc);
    for patch in patches {
        if let Some(offset) = patch.offset {
            pairs.push((patch.run.start, offset))?;
        }
    }
    Ok(pairs)
}

/// Memory with changes.
fn changed(alloc: Global, mut before: IndexedMemory, patches: &[Patch]) -> Result<Memory, LoadFault>
    ensures { Gives result (Ok (memory_with_patches before patches.now)) }
{
    let descriptors = noted_pairs(alloc, patches)?;
    put_patches(&mut before, patches);
    Ok(Memory {
        machine: before.machine(),
        runs: before.into_runs(),
        descriptors,
    })
}

/// Indexed memory with the changes of all entries; no two may share an address.
#[tactic(auto, unfolding(crate::specs::Relocate::relocate))]
fn apply_tables(
    alloc: Global,
    world: &World,
    before: IndexedMemory,
    tables: &Tables,
) -> Result<Memory, LoadFault>
    ensures { Gives result (relocate world.now before tables.now) }
{
    let places = read_places(alloc, tables.words.as_slice())?;
    let packed = add_packed(alloc, world, &before, places.as_slice())?;
    let packed = checked(alloc, packed)?;
    let entries = tables.entries.as_slice();
    let patches = add_entries(alloc, world, &before, entries, packed)?;
    let patches = checked(alloc, patches)?;
    let jumps = tables.jumps.as_slice();
    let all = add_entries(alloc, world, &before, jumps, patches)?;
    let all = checked(alloc, all)?;
    changed(alloc, before, all.as_slice())
}

/// The bytes of segments with the changes of all entries; no two entries may share an address.
pub fn relocate_runs(
    alloc: Global,
    world: &World,
    machine: Machine,
    runs: Items<Run>,
    tables: &Tables,
) -> Result<Memory, LoadFault>
    requires { least_shared runs ≡ None }
    ensures { Gives result (relocate world.now (memory_of machine runs) tables.now) }
{
    let before = IndexedMemory::new(alloc, machine, runs)?;
    apply_tables(alloc, world, before, tables)
}
