//! The check of all shares, divided into batches of groups.
ghost use Rattle.std.specs.Prelude.{◌≡◌, ◌<◌, ◌≤◌, ◌^◌, ℕ, true, [], length, Some, slice_get, IfOk};
ghost use Rattle.wild_types.specs.Faults.{Answers};
ghost use Rattle.wild_layout.specs.Faults.{flat_map_from, part_errors};
ghost use Rattle.wild_image.specs.Batches.{AreBatches};
ghost use Rattle.wild_image.specs.LayoutFacts.{AreFactsOf};
ghost use Rattle.wild_image.specs.Steps.{part_faults};
ghost use Rattle.wild_image.specs.ShareChecks.{GivesCheck};
ghost use Rattle.wild_image.specs.declared.share_job.ShareCheck.{ShareCheck};

use crate::batch::{Batch, batch_size, batches_of};
use crate::layout_facts::LayoutFacts;
use crate::shares::{batch_is_correct, check_parts};
use std::alloc::{AllocError, Global};
use std::thread::Threads;
use wild_crew::{Counted, Job, JobResults, OpenGate, gather, gather_alone};
use wild_executor::{Alone, Executor, Threaded};
use wild_types::{Error, Layout};

/// The result of a batch: whether its shares are what is needed. It has no counts.
#[derive(Drop)]
pub struct ShareCheck {
    pub(crate) is_correct: bool,
}

impl Counted for ShareCheck {
    ghost use Rattle.std.specs.Prelude.{[]};

    ghost listed = { λ _. [] };

    fn counts(&self) -> &[(u32, u64)] {
        &[]
    }
}

/// The batches of a layout whose shares are checked.
#[derive(Drop)]
pub struct ShareJob<'l, 'b> {
    pub(crate) layout: &'l Layout,
    pub(crate) batches: &'b [Batch<'b>],
    pub(crate) facts: LayoutFacts,
    ghost batches_are: { AreBatches layout.now.groups batches.now },
    ghost few: { length batches.now < 2 ^ 32 },
    ghost few_groups: { length layout.now.groups < 2 ^ 32 },
    ghost facts_are: { AreFactsOf layout.now facts },
}

impl Job<ShareCheck> for ShareJob<'_, '_> {
    ghost use Rattle.std.specs.Prelude.{⊤, [], length};
    ghost use Rattle.wild_image.specs.ShareChecks.{GivesCheck};

    ghost number = { λ j. length j.batches.now };

    ghost gives = { λ j i o. GivesCheck j.layout.now j.batches.now i o.is_correct };

    ghost counts_of = { λ _ _. [] };

    ghost ready = { λ _. ⊤ };

    fn groups(&self) -> u32 {
        self.batches.len() as u32
    }

    fn run(&self, group: u32) -> Result<ShareCheck, AllocError> {
        let batch = &self.batches[group as usize];
        let is_correct = batch_is_correct(self.layout, self.facts, batch);
        Ok(ShareCheck { is_correct })
    }
}

/// An executor that checks the shares of the batches of a layout.
pub trait ShareChecker: Executor {
    ghost use Rattle.std.specs.Prelude.{◌≡◌, ◌≤◌, ℕ, length, Some, slice_get, IfOk};
    ghost use Rattle.wild_image.specs.ShareChecks.{GivesCheck};
    ghost use Rattle.wild_image.specs.declared.share_job.ShareCheck.{ShareCheck};

    /// The check of each batch in their order, by `workers` workers.
    fn gather_checks(
        &self,
        alloc: Global,
        job: &ShareJob,
        workers: u32,
    ) -> Result<JobResults<ShareCheck>, AllocError>
        requires ready { Self.ready self.now }
        requires workers { (1 ≤ workers) × (workers ≤ 64) }
        ensures { IfOk result (λ r. (length r.pieces ≡ length job.now.batches.now) × ((i : ℕ) (o : ShareCheck) → slice_get r.pieces i ≡ Some o → GivesCheck job.now.layout.now job.now.batches.now i o.is_correct)) };
}

impl ShareChecker for Alone {
    fn gather_checks(
        &self,
        alloc: Global,
        job: &ShareJob,
        workers: u32,
    ) -> Result<JobResults<ShareCheck>, AllocError> {
        gather_alone(alloc, job, 0, workers, &OpenGate)
    }
}

impl<R: Threads + Sync> ShareChecker for Threaded<'_, R> {
    fn gather_checks(
        &self,
        alloc: Global,
        job: &ShareJob,
        workers: u32,
    ) -> Result<JobResults<ShareCheck>, AllocError> {
        gather(self.0, alloc, job, 0, workers, &OpenGate)
    }
}

/// Whether each check found what is needed.
fn all_are_correct(checks: &[ShareCheck]) -> bool
    ensures { result ≡ true → (i : ℕ) (o : ShareCheck) → slice_get checks.now i ≡ Some o → o.is_correct ≡ true }
{
    for check in checks {
        if !check.is_correct {
            return false;
        }
    }
    true
}

/// Whether all shares are what is needed, checked batch by batch.
fn all_shares_are_correct<E: ShareChecker>(
    executor: &E,
    alloc: Global,
    layout: &Layout,
    facts: LayoutFacts,
    workers: u8,
) -> Result<bool, AllocError>
    requires ready { E.ready executor.now }
    requires facts { AreFactsOf layout.now facts }
    requires workers { (1 ≤ workers) × (workers ≤ 64) }
    requires few { length layout.now.groups < 2 ^ 32 }
    ensures { IfOk result (λ b. b ≡ true → flat_map_from (part_faults layout.now) 0 layout.now.parts ≡ []) }
{
    let groups = layout.groups.as_slice();
    let cut = batches_of(alloc, groups, batch_size(groups.len()))?;
    let batches = cut.as_slice();
    let job = ShareJob {
        layout,
        batches,
        facts,
    };
    let checks = executor.gather_checks(alloc, &job, u32::from(workers))?;
    Ok(all_are_correct(checks.pieces.as_slice()))
}

/// Checks that all shares are what is needed, by `workers` workers. Checks them part by part, in the order of faults, only if one is
/// wrong.
#[tactic(auto, unfolding(crate::specs::Steps::part_faults, crate::specs::Steps::share_faults))]
pub(crate) fn check_shares_by_workers<E: ShareChecker>(
    executor: &E,
    alloc: Global,
    layout: &Layout,
    facts: LayoutFacts,
    workers: u8,
) -> Result<(), Error>
    requires ready { E.ready executor.now }
    requires facts { AreFactsOf layout.now facts }
    requires workers { (1 ≤ workers) × (workers ≤ 64) }
    requires few { length layout.now.groups < 2 ^ 32 }
    ensures { Answers result (flat_map_from (part_errors layout.now) 0 layout.now.parts) }
{
    if all_shares_are_correct(executor, alloc, layout, facts, workers)? {
        return Ok(());
    }
    check_parts(layout, layout.parts.as_slice())
}
