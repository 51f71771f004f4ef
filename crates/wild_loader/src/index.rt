//! Memory whose entries are not applied yet, with an index of its runs by start address: the run of an address is found by binary
//! search.
ghost use Rattle.std.specs.Prelude.{◌≡◌, map, None, Some, Ok, MatchResult};
ghost use Rattle.wild_loader.specs.declared.fault.LoadFault.TheVariants.{OutOfMemory};
ghost use Rattle.wild_loader.specs.Outcome.{Gives, GivesBy};
ghost use Rattle.wild_loader.specs.Index.{place_of, starts_and_indices, IsIndexOf};
ghost use Rattle.wild_loader.specs.Memory.{memory_of, byte_of, byte_in};
ghost use Rattle.wild_loader.specs.Runs.{extent_of, least_shared, has_address, put_byte};

use crate::fault::LoadFault;
use crate::memory::{Machine, Run};
use std::alloc::Global;
use std::marker::Model;
use wild_words::Items;

/// The runs of an image's segments, with an index by address: a byte is found in time logarithmic in the number of runs. Contracts treat
/// it as a memory; the entries of its tables are not applied.
#[derive(Drop)]
pub struct IndexedMemory {
    machine: Machine,
    runs: Vec<Run>,
    /// The start and the list index of each run, sorted by start.
    index: Vec<(u64, usize)>,
}

impl Model for IndexedMemory {
    ghost use Rattle.std.specs.Prelude.{map};
    ghost use Rattle.wild_loader.specs.declared.memory.Memory.{Memory};
    ghost use Rattle.wild_loader.specs.Index.{IsIndexOf};
    ghost use Rattle.wild_loader.specs.Memory.{memory_of};
    ghost use Rattle.wild_loader.specs.Runs.{extent_of};

    ghost Value = { Memory };

    ghost view = { λ m. memory_of m.machine m.runs.items };

    ghost invariant = { λ m. IsIndexOf m.index.items (map extent_of m.runs.items) };
}

/// Whether a run contains an address.
fn has(run: &Run, address: u128) -> bool
    ensures { result ≡ has_address run.now address }
{
    let start = run.start as u128;
    start <= address && address - start < run.bytes.len() as u128
}

/// The start and the list index of each run that is not empty.
#[tactic(auto, unfolding(crate::specs::Index::starts_and_indices))]
fn locate(alloc: Global, runs: &[Run]) -> Result<Vec<(u64, usize)>, LoadFault>
    ensures { GivesBy (λ v. v.items) result (Ok (starts_and_indices 0 (map extent_of runs.now))) }
{
    let mut index = Vec::new(alloc);
    for i in 0..runs.len() {
        let run = &runs[i];
        if run.bytes.len() > 0 {
            index.push((run.start, i))?;
        }
    }
    Ok(index)
}

/// The starts and the list indices of runs, sorted by start.
fn make_index(alloc: Global, runs: &[Run]) -> Result<Vec<(u64, usize)>, LoadFault>
    requires { least_shared runs.now ≡ None }
    ensures { MatchResult result (λ index. IsIndexOf index.items (map extent_of runs.now)) (λ e. e ≡ OutOfMemory) }
{
    let mut index = locate(alloc, runs)?;
    index.sort_unstable_by_key(|s| s.0);
    Ok(index)
}

/// The list index of the run that contains an address.
fn find_place(index: &[(u64, usize)], runs: &[Run], address: u128) -> Option<usize>
    requires { IsIndexOf index.now (map extent_of runs.now) }
    ensures { result ≡ place_of runs.now address }
{
    let after = index.partition_point(|s| s.0 as u128 <= address);
    if after == 0 {
        return None;
    }
    let (_, place) = index[after - 1];
    if has(&runs[place], address) {
        Some(place)
    } else {
        None
    }
}

/// The byte at an address of the run that contains it.
fn byte_at(runs: &[Run], place: usize, address: u128) -> u8
    requires { place_of runs.now address ≡ Some place }
    ensures { byte_of runs.now address ≡ Some result }
{
    let run = &runs[place];
    run.bytes.as_slice()[(address - run.start as u128) as usize]
}

/// Writes a byte at an address of the run that contains it.
fn put_at(runs: &mut Vec<Run>, place: usize, address: u128, byte: u8)
    requires { place_of runs.old.items address ≡ Some place }
    ensures { runs.new.items ≡ put_byte address byte runs.old.items }
{
    let run = &mut runs[place];
    let distance = address - run.start as u128;
    prove!(distance < run.bytes.len() as u128);
    run.bytes.set(distance as usize, byte);
}

impl IndexedMemory {
    /// The memory of runs that share no address. Fails if memory is refused.
    pub fn new(
        alloc: Global,
        machine: Machine,
        runs: Items<Run>,
    ) -> Result<IndexedMemory, LoadFault>
        requires { least_shared runs ≡ None }
        ensures { Gives result (Ok (memory_of machine runs)) }
    {
        let runs = runs.into_vec();
        let index = make_index(alloc, runs.as_slice())?;
        Ok(IndexedMemory {
            machine,
            runs,
            index,
        })
    }

    /// The machine of the image.
    pub fn machine(&self) -> Machine
        ensures { result ≡ self.now.machine }
    {
        self.machine
    }

    /// The byte at an address; none if it is not loaded.
    pub fn byte(&self, address: u128) -> Option<u8>
        ensures { result ≡ byte_in self.now address }
    {
        if address >= 1 << 64 {
            return None;
        }
        let runs = self.runs.as_slice();
        let Some(place) = find_place(self.index.as_slice(), runs, address) else {
            return None;
        };
        Some(byte_at(runs, place, address))
    }

    /// Writes a byte at an address, if one is loaded there.
    pub(crate) fn put(&mut self, address: u128, byte: u8)
        ensures machine { self.new.machine ≡ self.old.machine }
        ensures runs { self.new.runs ≡ put_byte address byte self.old.runs }
    {
        let place = find_place(self.index.as_slice(), self.runs.as_slice(), address);
        if let Some(place) = place {
            put_at(&mut self.runs, place, address, byte);
        }
    }

    /// The runs.
    pub(crate) fn into_runs(self) -> Items<Run>
        ensures { result ≡ self.runs }
    {
        Items::from_vec(self.runs)
    }
}
