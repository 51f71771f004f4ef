//! Live memories by their numbers, with their runs under their starts.
ghost use Rattle.std.specs.Prelude.{◌≡◌, ℕ, ◌+◌, ◌<◌, ◌^◌, [], ◌∷◌, ◌++◌, length, true, false, is_some, None, IfErr, OnOk, OnErr};
ghost use Rattle.std.specs.Ordering.{nat_cmp};
ghost use Rattle.std.specs.BTreeMap.{get};
ghost use Rattle.wild_loader.specs.Changes.{first_value};
ghost use Rattle.wild_loader.specs.Runs.{least_shared};
ghost use Rattle.wild_placer.specs.declared.fault.PlaceFault.TheVariants.{Taken};
ghost use Rattle.wild_placer.specs.Live.{byte_in_memory, ArePlaced};
ghost use Rattle.wild_placer.specs.Placed.{without, HasByte, IsFree, AddFails};
ghost use Rattle.wild_placer.specs.Shared.{IsLeastOfRuns};

use crate::fault::PlaceFault;
use crate::index::LoadedRun;
use crate::listed::{add_runs, remove_runs};
use crate::shared::first_shared;
use std::collections::BTreeMap;
use wild_loader::Memory;

/// Adds a memory that shares no byte with live ones. Returns false if memory runs out; then nothing changes.
fn insert_memory(
    live: &mut BTreeMap<u32, Memory>,
    starts: &mut BTreeMap<u64, LoadedRun>,
    number: u32,
    memory: Memory,
) -> bool
    requires placed { ArePlaced number (get nat_cmp live.old) (get nat_cmp starts.old) }
    requires separate { least_shared memory.runs ≡ None }
    requires free { IsLeastOfRuns (get nat_cmp starts.old) memory.runs (length memory.runs) None }
    ensures placed { result ≡ true → ArePlaced (number + 1) (get nat_cmp live.new) (get nat_cmp starts.new) }
    ensures live { result ≡ true → live.new.entries ≡ live.old.entries ++ (number, memory) ∷ [] }
    ensures kept_placed { result ≡ false → ArePlaced number (get nat_cmp live.new) (get nat_cmp starts.new) }
    ensures kept { result ≡ false → live.new.entries ≡ live.old.entries }
{
    if !add_runs(starts, number, memory.runs.as_slice()) {
        return false;
    }
    match live.insert(number, memory) {
        Ok(_) => true,
        Err(failed) => {
            remove_runs(starts, failed.value.1.runs.as_slice());
            false
        }
    }
}

/// The fault of a memory whose first shared byte is at an address.
fn taken(address: u64) -> PlaceFault
    ensures fault { result ≡ Taken address }
    ensures low { address < 2 ^ 64 }
{
    PlaceFault::Taken { address }
}

/// Adds a memory, unless it shares a byte with a live one.
pub(crate) fn add_memory(
    live: &mut BTreeMap<u32, Memory>,
    starts: &mut BTreeMap<u64, LoadedRun>,
    number: u32,
    memory: Memory,
) -> Result<(), PlaceFault>
    requires placed { ArePlaced number (get nat_cmp live.old) (get nat_cmp starts.old) }
    requires separate { least_shared memory.runs ≡ None }
    ensures placed { OnOk result (ArePlaced (number + 1) (get nat_cmp live.new) (get nat_cmp starts.new)) }
    ensures live { OnOk result (live.new.entries ≡ live.old.entries ++ (number, memory) ∷ []) }
    ensures free { OnOk result ((a : ℕ) → HasByte memory a → IsFree (record { next = number; live = live.old.entries }) a) }
    ensures fault { IfErr result (λ e. AddFails e (record { next = number; live = live.old.entries }) memory) }
    ensures kept_placed { OnErr result (ArePlaced number (get nat_cmp live.new) (get nat_cmp starts.new)) }
    ensures kept { OnErr result (live.new.entries ≡ live.old.entries) }
{
    match first_shared(starts, memory.runs.as_slice()) {
        Some(address) => Err(taken(address)),
        None => {
            if insert_memory(live, starts, number, memory) {
                Ok(())
            } else {
                Err(PlaceFault::OutOfMemory)
            }
        }
    }
}

/// Removes the memory with a number, if it is live.
pub(crate) fn remove_memory(
    live: &mut BTreeMap<u32, Memory>,
    starts: &mut BTreeMap<u64, LoadedRun>,
    number: u32,
) -> bool
    ensures placed { (next : ℕ) → ArePlaced next (get nat_cmp live.old) (get nat_cmp starts.old) → ArePlaced next (get nat_cmp live.new) (get nat_cmp starts.new) }
    ensures live { live.new.entries ≡ without number live.old.entries }
    ensures found { result ≡ is_some (first_value live.old.entries number) }
    ensures kept { result ≡ false → live.new.entries ≡ live.old.entries }
{
    match live.remove(&number) {
        Some(memory) => {
            remove_runs(starts, memory.runs.as_slice());
            true
        }
        None => false,
    }
}

/// The byte at an address of the memory with a number, if it is live.
pub(crate) fn read_byte(live: &BTreeMap<u32, Memory>, number: u32, address: u64) -> Option<u8>
    ensures { result ≡ byte_in_memory (get nat_cmp live.now number) address }
{
    match live.get(&number) {
        Some(memory) => memory.byte(address),
        None => None,
    }
}
