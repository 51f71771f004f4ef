//! Groups that are gathered by several workers.

use std::alloc::AllocError;
use std::sync::atomic::{AtomicU64, Ordering};
use std::test::Fail;
use wild_crew::{Core, Counted, Gate, Job, OpenGate, Step, gather};

// A group's number, with the relocations of section 1 that it read.
#[derive(Drop)]
struct GroupReads {
    group: u32,
    counts: [(u32, u64); 1],
}

impl Counted for GroupReads {
    ghost use Rattle.std.specs.Prelude.{[], ◌∷◌};

    ghost listed = { λ r. r.counts };

    fn counts(&self) -> &[(u32, u64)] {
        &self.counts
    }
}

// Three groups, one of which may run out of memory, and how often each was entered and run.
#[derive(Drop)]
struct Counters {
    lacking: u32,
    entered: [AtomicU64; 3],
    ran: [AtomicU64; 3],
}

impl Gate for Counters {
    fn enter(&self, group: u32) {
        if let Some(mark) = self.entered.get(group as usize) {
            mark.fetch_add(1, Ordering::SeqCst);
        }
    }
}

impl Job<GroupReads> for Counters {
    ghost use Rattle.std.specs.Prelude.{◌≡◌, [], ◌∷◌};
    ghost use Rattle.wild_tests_low.specs.Examples.{relocations_of_group};

    ghost number = { λ _. 3 };

    ghost gives = { λ _ g p. p.group ≡ g };

    ghost counts_of = { λ _ g. (1, relocations_of_group g) ∷ [] };

    ghost ready = { λ _. Unit {0} };

    fn groups(&self) -> u32 {
        3
    }

    fn run(&self, group: u32) -> Result<GroupReads, AllocError> {
        self.ran[group as usize].fetch_add(1, Ordering::SeqCst);
        if group == self.lacking {
            return Err(AllocError);
        }
        let n = match group {
            0 => 2,
            1 => 0,
            _ => 5,
        };
        Ok(GroupReads {
            group,
            counts: [(1, n)],
        })
    }
}

impl Counters {
    fn new(lacking: u32) -> Counters {
        Counters {
            lacking,
            entered: [AtomicU64::new(0), AtomicU64::new(0), AtomicU64::new(0)],
            ran: [AtomicU64::new(0), AtomicU64::new(0), AtomicU64::new(0)],
        }
    }

    // Whether each group was entered once and run once.
    fn are_once(&self) -> bool {
        for group in 0..3usize {
            let entered = self.entered[group].load(Ordering::SeqCst);
            if entered != 1 || self.ran[group].load(Ordering::SeqCst) != 1 {
                return false;
            }
        }
        true
    }
}

// Whether there is a piece for each of the three groups, in order.
fn are_pieces(pieces: &[GroupReads]) -> bool {
    matches!(pieces, [a, b, c] if a.group == 0 && b.group == 1 && c.group == 2)
}

// Whether each number was claimed once, and one more by each of so many workers.
fn has_claims(core: &Core, workers: u32) -> bool {
    core.next == 3 + u64::from(workers) && core.claims.len() == workers as usize
}

#[test]
fn each_group_is_entered_and_run_once(rt: HostRuntime) -> Result<(), Fail> {
    for workers in [1, 2, 64] {
        let job = Counters::new(3);
        let got = gather(&rt, rt.alloc(), &job, 2, workers, &job)?;
        assert!(rt; are_pieces(got.pieces.as_slice()) && has_claims(&got.core, workers));
        assert!(rt;
            got.totals.as_slice() == [0, 7].as_slice() && job.are_once(),
            "{workers}"
        );
    }
    Ok(())
}

#[test]
fn a_worker_without_memory_is_joined(rt: HostRuntime) {
    for workers in [1, 2, 64] {
        let got = gather(&rt, rt.alloc(), &Counters::new(1), 2, workers, &OpenGate);
        assert!(rt; got.is_err());
    }
}

// Whether the first worker claimed 1, and the second 0 and counted it.
fn are_claimed_and_counted(core: &Core) -> bool {
    matches!(core.claims.as_slice(), [a, b] if a.as_slice() == [1].as_slice() && b.as_slice() == [0].as_slice())
        && matches!(core.counts.as_slice(), [a, b] if a.len() == 0 && b.as_slice() == [(0, 5)].as_slice())
}

#[test]
fn steps_of_two_workers(rt: HostRuntime) -> Result<(), Fail> {
    let mut core = Core::new(rt.alloc(), 2, 1)?;
    core.step(Step::Claim(1))?;
    core.step(Step::Claim(0))?;
    core.step(Step::Count(1, 0, 5))?;
    assert!(rt; core.next == 2 && are_claimed_and_counted(&core));
    Ok(())
}

// Counts who enters; the first waits for a second.
#[derive(Drop)]
struct Meeting {
    entered: AtomicU64,
    met: AtomicU64,
}

impl Gate for Meeting {
    fn enter(&self, _group: u32) {
        if self.entered.fetch_add(1, Ordering::SeqCst) > 0 {
            return;
        }
        for _ in 0..268435456u64 {
            if self.entered.load(Ordering::SeqCst) > 1 {
                self.met.store(1, Ordering::SeqCst);
                return;
            }
        }
    }
}

#[test]
fn two_workers_meet(rt: HostRuntime) -> Result<(), Fail> {
    let gate = Meeting {
        entered: AtomicU64::new(0),
        met: AtomicU64::new(0),
    };
    let got = gather(&rt, rt.alloc(), &Counters::new(3), 2, 2, &gate)?;
    let met = gate.met.load(Ordering::SeqCst);
    assert!(rt;
        got.pieces.len() == 3 && met == 1,
        "the second worker entered no group"
    );
    Ok(())
}
