//! Layouts that are placed side by side in memory.
ghost use Rattle.std.specs.Prelude.{◌≡◌, ◌-◌, ◌^◌, ◌<◌, ◌≤◌, [], None, Err, IsSome, IfOk, IfErr, IfSome, IfNone, OnOk, OnErr};
ghost use Rattle.wild_loader.specs.Changes.{first_value};
ghost use Rattle.wild_loader.specs.Runs.{least_shared};
ghost use Rattle.wild_placer.specs.declared.fault.PlaceFault.TheVariants.{Full, NoSuch};
ghost use Rattle.wild_placer.specs.Placed.{without, IsFree, IsByte, AreApart, IsAdded, AddFails, IsPlacedAs, PlaceFails};

use crate::code::place_code;
use crate::fault::PlaceFault;
use crate::index::{LoadedRun, run_at};
use crate::live::{add_memory, read_byte, remove_memory};
use std::alloc::Global;
use std::collections::BTreeMap;
use std::marker::Model;
use wild_image::{Arch, GroupWriter, OpenGate};
use wild_loader::{Memory, World};
use wild_types::Layout;

/// Layouts that are placed side by side. Contracts see the next number, and each live placement with its memory.
#[derive(Drop)]
pub struct Placed {
    next: u32,
    live: BTreeMap<u32, Memory>,
    /// The runs with bytes of live placements, under their starts.
    starts: BTreeMap<u64, LoadedRun>,
}

impl Model for Placed {
    ghost use Rattle.std.specs.Ordering.{nat_cmp};
    ghost use Rattle.std.specs.BTreeMap.{get};
    ghost use Rattle.wild_placer.specs.Live.{ArePlaced};
    ghost use Rattle.wild_placer.specs.Placed.{Placements};

    ghost Value = { Placements };

    ghost view = { λ p. record { next = p.next; live = p.live.entries } };

    ghost invariant = { λ p. ArePlaced p.next (get nat_cmp p.live) (get nat_cmp p.starts) };
}

impl Placed {
    /// No placements. Takes no memory.
    pub fn new(alloc: Global) -> Placed
        ensures { result ≡ record { next = 0; live = [] } }
    {
        Placed {
            next: 0,
            live: BTreeMap::new(alloc),
            starts: BTreeMap::new(alloc),
        }
    }

    /// Adds a memory as a live placement, and returns its number.
    fn add(&mut self, memory: Memory) -> Result<u32, PlaceFault>
        requires few { self.old.next < 2 ^ 32 - 1 }
        requires separate { least_shared memory.runs ≡ None }
        ensures added { IfOk result (λ n. IsAdded self.old memory n self.new) }
        ensures fault { IfErr result (λ e. AddFails e self.old memory) }
        ensures kept { OnErr result (self.new ≡ self.old) }
    {
        let number = self.next;
        match add_memory(&mut self.live, &mut self.starts, number, memory) {
            Ok(()) => {
                self.next = number + 1;
                Ok(number)
            }
            Err(fault) => Err(fault),
        }
    }

    /// Places a layout in a world, and returns the number of the placement: they count from 0, and none is used again. A call that is refused
    /// changes nothing. `workers` workers share the work.
    #[tactic(auto, using(crate::proofs::RefusalLemmas::code_fails, crate::proofs::RefusalLemmas::add_fails))]
    pub fn place<A: Arch, E: GroupWriter<A, OpenGate>>(
        &mut self,
        executor: &E,
        alloc: Global,
        layout: &Layout,
        world: &World,
        workers: u8,
    ) -> Result<u32, PlaceFault>
        requires ready { E.ready executor.now }
        requires machine { layout.now.machine ≡ A.machine }
        requires workers { (1 ≤ workers) × (workers ≤ 64) }
        ensures full { self.old.next ≡ 2 ^ 32 - 1 → result ≡ Err Full }
        ensures placed { IfOk result (λ n. IsPlacedAs self.old layout.now world.now n self.new) }
        ensures fault { IfErr result (λ e. PlaceFails e self.old layout.now world.now) }
        ensures kept { OnErr result (self.new ≡ self.old) }
    {
        if self.next == u32::MAX {
            return Err(PlaceFault::Full);
        }
        let memory = place_code::<A, E>(executor, alloc, layout, world, workers)?;
        self.add(memory)
    }

    /// Removes a live placement. Takes no memory.
    pub fn remove(&mut self, number: u32) -> Result<(), PlaceFault>
        ensures live { OnOk result (IsSome (first_value self.old.live number)) }
        ensures removed { OnOk result (self.new ≡ record { next = self.old.next; live = without number self.old.live }) }
        ensures fault { IfErr result (λ e. e ≡ NoSuch number) }
        ensures none { OnErr result (first_value self.old.live number ≡ None) }
        ensures kept { OnErr result (self.new ≡ self.old) }
    {
        if !remove_memory(&mut self.live, &mut self.starts, number) {
            return Err(PlaceFault::NoSuch { number });
        }
        Ok(())
    }

    /// The byte that a live placement has at an address. At most one has a byte there.
    pub fn byte(&self, address: u64) -> Option<u8>
        ensures byte { IfSome result (λ b. IsByte self.now address b) }
        ensures none { IfNone result (IsFree self.now address) }
        ensures apart { AreApart self.now }
    {
        match run_at(&self.starts, address) {
            Some((_, run)) => read_byte(&self.live, run.number, address),
            None => None,
        }
    }
}
