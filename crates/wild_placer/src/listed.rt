//! Lists the runs of a memory under their starts, and removes them.
ghost use Rattle.std.specs.Prelude.{◌≡◌, ℕ, None, true, false};
ghost use Rattle.std.specs.Ordering.{nat_cmp};
ghost use Rattle.std.specs.BTreeMap.{get};
ghost use Rattle.wild_placer.specs.Listed.{any_begins, own_entry, or_else, with_runs, without_runs};

use crate::index::LoadedRun;
use std::collections::BTreeMap;
use wild_loader::Run;

/// Removes the runs that begin where runs of a memory do.
pub(crate) fn remove_runs(starts: &mut BTreeMap<u64, LoadedRun>, runs: &[Run])
    ensures { (q : ℕ) → get nat_cmp starts.new q ≡ without_runs runs.now (get nat_cmp starts.old) q }
{
    for run in runs {
        if run.bytes.len() != 0 {
            starts.remove(&run.start);
        }
    }
}

/// Lists a run as one of a placement, if it has bytes. Returns false if memory runs out; then nothing is listed.
#[tactic(auto, using(crate::proofs::ListedLemmas::no_entry, crate::proofs::ListedLemmas::one_entry))]
fn add_run(starts: &mut BTreeMap<u64, LoadedRun>, number: u32, index: usize, run: &Run) -> bool
    ensures added { result ≡ true → (q : ℕ) → get nat_cmp starts.new q ≡ or_else (own_entry number index run.now q) (get nat_cmp starts.old q) }
    ensures kept { result ≡ false → (q : ℕ) → get nat_cmp starts.new q ≡ get nat_cmp starts.old q }
{
    let size = run.bytes.len();
    if size == 0 {
        return true;
    }
    let listed = LoadedRun {
        end: run.start as u128 + size as u128,
        number,
        index,
    };
    match starts.insert(run.start, listed) {
        Ok(_) => true,
        Err(_) => false,
    }
}

/// Lists the runs of a memory as those of a placement. Returns false if memory runs out; then nothing is listed.
pub(crate) fn add_runs(starts: &mut BTreeMap<u64, LoadedRun>, number: u32, runs: &[Run]) -> bool
    requires { (q : ℕ) → any_begins runs.now q ≡ true → get nat_cmp starts.old q ≡ None }
    ensures added { result ≡ true → (q : ℕ) → get nat_cmp starts.new q ≡ with_runs number runs.now (get nat_cmp starts.old) q }
    ensures kept { result ≡ false → (q : ℕ) → get nat_cmp starts.new q ≡ get nat_cmp starts.old q }
{
    for i in 0..runs.len() {
        if !add_run(starts, number, i, &runs[i]) {
            remove_runs(starts, &runs[..i]);
            return false;
        }
    }
    true
}
