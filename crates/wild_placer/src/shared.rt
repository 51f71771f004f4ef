//! Addresses that a memory shares with live placements.
ghost use Rattle.std.specs.Prelude.{◌≡◌, length};
ghost use Rattle.std.specs.Ordering.{nat_cmp};
ghost use Rattle.std.specs.BTreeMap.{get};
ghost use Rattle.wild_words.specs.Extents.{least};
ghost use Rattle.wild_placer.specs.Index.{AreSeparate};
ghost use Rattle.wild_placer.specs.Shared.{IsLeastOfRun, IsLeastOfRuns};

use crate::index::{LoadedRun, first_taken};
use std::collections::BTreeMap;
use wild_loader::Run;

/// The lesser of two addresses; either may be absent.
fn lesser(a: Option<u64>, b: Option<u64>) -> Option<u64>
    ensures { result ≡ least a b }
{
    match (a, b) {
        (Some(a), Some(b)) => Some(a.min(b)),
        (Some(a), None) => Some(a),
        (None, b) => b,
    }
}

/// The least address of a run that is taken.
fn shared_with_run(starts: &BTreeMap<u64, LoadedRun>, run: &Run) -> Option<u64>
    requires { AreSeparate (get nat_cmp starts.now) }
    ensures { IsLeastOfRun (get nat_cmp starts.now) run.now result }
{
    let size = run.bytes.len();
    if size == 0 {
        return None;
    }
    first_taken(starts, run.start, run.start as u128 + size as u128)
}

/// The least address of some runs that is taken.
pub(crate) fn first_shared(starts: &BTreeMap<u64, LoadedRun>, runs: &[Run]) -> Option<u64>
    requires { AreSeparate (get nat_cmp starts.now) }
    ensures { IsLeastOfRuns (get nat_cmp starts.now) runs.now (length runs.now) result }
{
    let mut found = None;
    for run in runs {
        found = lesser(found, shared_with_run(starts, run));
    }
    found
}
