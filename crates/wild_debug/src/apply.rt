//! Applies the relocations of a debug section to its bytes.
ghost use Rattle.std.specs.Prelude.{◌≡◌, length, All, OnOk};
ghost use Rattle.std.specs.Thread.{IsSync};
ghost use Rattle.wild_types.specs.Faults.{Answers};
ghost use Rattle.wild_shards.specs.InOrder.{in_order, ResultIs};
ghost use Rattle.wild_layout.specs.Debug.{debug_rule, debug_bytes, at_offset_only};
ghost use Rattle.wild_layout.specs.Faults.{debug_errors};
ghost use Rattle.wild_layout.specs.SectionPlaces.{FieldLies};

use crate::decide::DebugStep;
use crate::faults::first_fault;
use crate::pass::apply_in_order;
use crate::sharded::run_shards;
use std::alloc::Global;
use std::thread::Threads;
use wild_executor::{Alone, Executor, Threaded};
use wild_relax::{Arch, ElfAArch64, ElfX86_64};
use wild_sections::{InputPlace, Resolved};
use wild_shards::ranges_of;
use wild_types::{Error, InputRelocation, InputSection};

/// The result of a pass over the relocations. A fault gets the relocation's place in the input.
fn answer<A: Arch>(
    step: &DebugStep<A>,
    place: InputPlace,
    origins: &[InputRelocation],
    passed: Result<(), Error>,
    _out: &[u8],
) -> Result<(), Error>
    requires came { ResultIs passed _out.now (in_order (debug_rule step.now.resolved.now.layout.now at_offset_only step.now.section.now) 0 step.now.section.now.relocations step.now.section.now.bytes) }
    requires origins { length origins.now ≡ length step.now.section.now.relocations }
    ensures faults { Answers result (debug_errors step.now.resolved.now.layout.now place.group place.file place.section step.now.section.now origins.now) }
    ensures bytes { OnOk result (_out.now ≡ debug_bytes step.now.resolved.now.layout.now step.now.section.now) }
{
    match passed {
        Ok(()) => Ok(()),
        Err(_) => first_fault(step, place, origins),
    }
}

/// Applies the relocations of a debug section to its bytes, one after another; or returns the first fault, with its place in the
/// input.
#[tactic(auto, using(crate::proofs::FieldLemmas::lie_from_start))]
pub fn apply_debug_relocations<A: Arch>(
    resolved: &Resolved<A>,
    place: InputPlace,
    origins: &[InputRelocation],
    section: &InputSection,
    out: &mut [u8],
) -> Result<(), Error>
    requires bytes { out.old ≡ section.now.bytes }
    requires lie { All (FieldLies resolved.now.layout.now.machine (length out.old)) section.now.relocations }
    requires origins { length origins.now ≡ length section.now.relocations }
    ensures faults { Answers result (debug_errors resolved.now.layout.now place.group place.file place.section section.now origins.now) }
    ensures bytes { OnOk result (out.new ≡ debug_bytes resolved.now.layout.now section.now) }
{
    let step = DebugStep::new(resolved, section);
    let passed = apply_in_order(&step, section.relocations.as_slice(), 0, out);
    answer(&step, place, origins, passed, out)
}

/// The number of shards is at most the number of relocations divided by this, rounded up.
const LEAST: usize = 65536;

/// The same with `workers` threads. If the relocations can be applied independently, they are divided into shards that run in parallel:
/// at most one for each worker, and at most one for each 65,536 relocations, rounded up.
pub fn apply_debug_rela_relocations<A: Arch + Sync, R: Threads + Sync>(
    rt: &R,
    alloc: Global,
    resolved: &Resolved<A>,
    place: InputPlace,
    origins: &[InputRelocation],
    section: &InputSection,
    out: &mut [u8],
    workers: usize,
) -> Result<(), Error>
where
    A::Relaxation: Sync,
    requires bytes { out.old ≡ section.now.bytes }
    requires lie { All (FieldLies resolved.now.layout.now.machine (length out.old)) section.now.relocations }
    requires origins { length origins.now ≡ length section.now.relocations }
    ensures faults { Answers result (debug_errors resolved.now.layout.now place.group place.file place.section section.now origins.now) }
    ensures bytes { OnOk result (out.new ≡ debug_bytes resolved.now.layout.now section.now) }
{
    let relocations = section.relocations.as_slice();
    let step = DebugStep::new(resolved, section);
    let shards = workers.min(relocations.len().div_ceil(LEAST));
    match ranges_of(alloc, &step, relocations, out.len(), shards)? {
        Some(ranges) => {
            let passed = run_shards(rt, &step, &ranges, relocations, 0, out);
            answer(&step, place, origins, passed, out)
        }
        None => apply_debug_relocations(resolved, place, origins, section, out),
    }
}

/// Who relocates one section, the number of its workers, and their allocator.
#[derive(Drop)]
pub struct Workers<'r, E> {
    pub executor: &'r E,
    pub alloc: Global,
    pub count: usize,
}

/// An executor that relocates the debug sections of a machine.
pub trait DebugWriter<A: Arch>: Executor + Sized {
    ghost use Rattle.std.specs.Prelude.{◌≡◌, length, All, OnOk};
    ghost use Rattle.wild_types.specs.Faults.{Answers};
    ghost use Rattle.wild_layout.specs.Debug.{debug_bytes};
    ghost use Rattle.wild_layout.specs.Faults.{debug_errors};
    ghost use Rattle.wild_layout.specs.SectionPlaces.{FieldLies};

    /// Applies the relocations of a debug section to its bytes; or returns the first fault, with its place in the input.
    fn apply_by_workers(
        by: &Workers<Self>,
        resolved: &Resolved<A>,
        place: InputPlace,
        origins: &[InputRelocation],
        section: &InputSection,
        out: &mut [u8],
    ) -> Result<(), Error>
        requires ready { Self.ready by.now.executor.now }
        requires bytes { out.old ≡ section.now.bytes }
        requires lie { All (FieldLies resolved.now.layout.now.machine (length out.old)) section.now.relocations }
        requires origins { length origins.now ≡ length section.now.relocations }
        ensures faults { Answers result (debug_errors resolved.now.layout.now place.group place.file place.section section.now origins.now) }
        ensures bytes { OnOk result (out.new ≡ debug_bytes resolved.now.layout.now section.now) };
}

/// One relocation after another.
impl<A: Arch> DebugWriter<A> for Alone {
    fn apply_by_workers(
        _by: &Workers<Alone>,
        resolved: &Resolved<A>,
        place: InputPlace,
        origins: &[InputRelocation],
        section: &InputSection,
        out: &mut [u8],
    ) -> Result<(), Error> {
        apply_debug_relocations(resolved, place, origins, section, out)
    }
}

/// In shards, if the section is large.
impl<'t, R: Threads + Sync> DebugWriter<ElfX86_64> for Threaded<'t, R> {
    fn apply_by_workers(
        by: &Workers<Threaded<'t, R>>,
        resolved: &Resolved<ElfX86_64>,
        place: InputPlace,
        origins: &[InputRelocation],
        section: &InputSection,
        out: &mut [u8],
    ) -> Result<(), Error> {
        apply_debug_rela_relocations(
            by.executor.0,
            by.alloc,
            resolved,
            place,
            origins,
            section,
            out,
            by.count,
        )
    }
}

/// In shards, if the section is large.
impl<'t, R: Threads + Sync> DebugWriter<ElfAArch64> for Threaded<'t, R> {
    fn apply_by_workers(
        by: &Workers<Threaded<'t, R>>,
        resolved: &Resolved<ElfAArch64>,
        place: InputPlace,
        origins: &[InputRelocation],
        section: &InputSection,
        out: &mut [u8],
    ) -> Result<(), Error> {
        apply_debug_rela_relocations(
            by.executor.0,
            by.alloc,
            resolved,
            place,
            origins,
            section,
            out,
            by.count,
        )
    }
}
