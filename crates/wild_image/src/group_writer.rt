//! Executors that write the batches of an image.
ghost use Rattle.std.specs.Prelude.{◌≡◌, ◌<◌, ◌≤◌, ◌^◌, ℕ, length, All, Some, slice_get, IfOk};
ghost use Rattle.wild_crew.specs.FinalCore.{AreTotals, AtEnd, shape_of, sum_of};
ghost use Rattle.wild_image.specs.Batches.{GivesBatch, pairs_at};
ghost use Rattle.wild_image.specs.declared.job.Outcome.{Outcome};

use crate::clause_check::ClauseChecker;
use crate::job::{GroupJob, Outcome};
use crate::share_job::ShareChecker;
use std::alloc::{AllocError, Global};
use std::thread::Threads;
use wild_crew::{Gate, JobResults, OpenGate, gather, gather_alone};
use wild_debug::DebugWriter;
use wild_executor::{Alone, Threaded};
use wild_frames::Sorter;
use wild_relax::{Arch, ElfAArch64, ElfX86_64};

/// An executor that writes the batches of an image for a machine, and enters a gate before each batch.
pub trait GroupWriter<A: Arch, G: Gate>: Sorter
    + ClauseChecker
    + ShareChecker
    + DebugWriter<A>
    + Sized {
    ghost use Rattle.std.specs.Prelude.{◌≡◌, ◌<◌, ◌≤◌, ◌^◌, ℕ, length, All, Some, slice_get, IfOk};
    ghost use Rattle.wild_crew.specs.FinalCore.{AreTotals, AtEnd, shape_of, sum_of};
    ghost use Rattle.wild_image.specs.Batches.{GivesBatch, pairs_at};
    ghost use Rattle.wild_image.specs.declared.job.Outcome.{Outcome};

    /// The outcome of each batch in their order, and the relocation count of each section, by `workers` workers.
    fn gather_batches(
        &self,
        alloc: Global,
        job: &GroupJob<A, Self>,
        sections: u32,
        workers: u32,
        gate: &G,
    ) -> Result<JobResults<Outcome>, AllocError>
        requires ready { Self.ready self.now }
        requires job_ready { Self.ready job.now.by.executor.now }
        requires workers { (1 ≤ workers) × (workers ≤ 64) }
        requires sections { (g : ℕ) → g < length job.now.batches.now → All (λ p. p.0 < sections) (pairs_at job.now.resolved.now.layout.now job.now.batches.now g) }
        requires fit { (k : ℕ) → k < sections → sum_of (pairs_at job.now.resolved.now.layout.now job.now.batches.now) (length job.now.batches.now) k < 2 ^ 64 }
        ensures outcomes { IfOk result (λ r. (length r.pieces ≡ length job.now.batches.now) × ((g : ℕ) (o : Outcome) → slice_get r.pieces g ≡ Some o → GivesBatch job.now.resolved.now.layout.now job.now.batches.now g o.bytes)) }
        ensures totals { IfOk result (λ r. AreTotals (pairs_at job.now.resolved.now.layout.now job.now.batches.now) (length job.now.batches.now) sections r.totals) }
        ensures core { IfOk result (λ r. AtEnd (shape_of workers (length job.now.batches.now) sections) r.totals r.core) };
}

impl<A: Arch, G: Gate> GroupWriter<A, G> for Alone {
    fn gather_batches(
        &self,
        alloc: Global,
        job: &GroupJob<A, Alone>,
        sections: u32,
        workers: u32,
        gate: &G,
    ) -> Result<JobResults<Outcome>, AllocError> {
        gather_alone(alloc, job, sections, workers, gate)
    }
}

impl<'t, R: Threads + Sync> GroupWriter<ElfX86_64, OpenGate> for Threaded<'t, R> {
    fn gather_batches(
        &self,
        alloc: Global,
        job: &GroupJob<ElfX86_64, Threaded<'t, R>>,
        sections: u32,
        workers: u32,
        gate: &OpenGate,
    ) -> Result<JobResults<Outcome>, AllocError> {
        gather(self.0, alloc, job, sections, workers, gate)
    }
}

impl<'t, R: Threads + Sync> GroupWriter<ElfAArch64, OpenGate> for Threaded<'t, R> {
    fn gather_batches(
        &self,
        alloc: Global,
        job: &GroupJob<ElfAArch64, Threaded<'t, R>>,
        sections: u32,
        workers: u32,
        gate: &OpenGate,
    ) -> Result<JobResults<Outcome>, AllocError> {
        gather(self.0, alloc, job, sections, workers, gate)
    }
}

/// An executor that writes the image of any machine. It has no gate at which workers wait.
pub trait ImageWriter: GroupWriter<ElfX86_64, OpenGate> + GroupWriter<ElfAArch64, OpenGate> {}

impl ImageWriter for Alone {}

impl<R: Threads + Sync> ImageWriter for Threaded<'_, R> {}
