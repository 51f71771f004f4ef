//! The runs of loaded bytes of live placements, found by address.
ghost use Rattle.std.specs.Prelude.{◌≡◌, ℕ, ◌<◌, ◌≤◌, None, IfSome, IfNone};
ghost use Rattle.std.specs.Ordering.{nat_cmp};
ghost use Rattle.std.specs.BTreeMap.{get};
ghost use Rattle.wild_placer.specs.Index.{IsTaken, IsFirstTaken, NoneIsTaken, AreSeparate, IsRunAt, IsLastStart, IsFirstStart};

use std::collections::BTreeMap;

/// A run of loaded bytes of a placement, listed under its start.
#[derive(Clone, Copy, Drop)]
pub struct LoadedRun {
    /// The address after its last byte.
    pub end: u128,
    /// The number of the placement.
    pub number: u32,
    /// The index of the run in the placement's memory.
    pub index: usize,
}

/// The run with the greatest start up to an address.
fn last_start(starts: &BTreeMap<u64, LoadedRun>, address: u64) -> Option<(u64, LoadedRun)>
    ensures some { IfSome result (λ p. IsLastStart (get nat_cmp starts.now) address p.0 p.1) }
    ensures none { IfNone result ((q : ℕ) → q ≤ address → get nat_cmp starts.now q ≡ None) }
{
    match starts.range(..=address).next_back() {
        Some((start, run)) => Some((*start, *run)),
        None => None,
    }
}

/// The least start from an address on.
fn first_start(starts: &BTreeMap<u64, LoadedRun>, address: u64) -> Option<u64>
    ensures some { IfSome result (λ start. IsFirstStart (get nat_cmp starts.now) address start) }
    ensures none { IfNone result ((q : ℕ) → address ≤ q → get nat_cmp starts.now q ≡ None) }
{
    match starts.range(address..).next() {
        Some((start, _)) => Some(*start),
        None => None,
    }
}

/// The run that contains an address, with its start.
#[tactic(auto, using(crate::proofs::IndexLemmas::none_begins, crate::proofs::IndexLemmas::last_ends))]
pub(crate) fn run_at(starts: &BTreeMap<u64, LoadedRun>, address: u64) -> Option<(u64, LoadedRun)>
    requires { AreSeparate (get nat_cmp starts.now) }
    ensures some { IfSome result (λ p. IsRunAt (get nat_cmp starts.now) address p.0 p.1) }
    ensures none { IfNone result (IsTaken (get nat_cmp starts.now) address → ⊥) }
{
    let (start, run) = last_start(starts, address)?;
    if (address as u128) < run.end {
        Some((start, run))
    } else {
        None
    }
}

/// The least address from `start` on and before `end` that a run contains.
#[tactic(auto, using(crate::proofs::IndexLemmas::first_at_once, crate::proofs::IndexLemmas::next_is_first, crate::proofs::IndexLemmas::none_before_next, crate::proofs::IndexLemmas::none_after))]
pub(crate) fn first_taken(starts: &BTreeMap<u64, LoadedRun>, start: u64, end: u128) -> Option<u64>
    requires separate { AreSeparate (get nat_cmp starts.now) }
    requires some { start < end }
    ensures some { IfSome result (λ a. IsFirstTaken (get nat_cmp starts.now) start end a) }
    ensures none { IfNone result (NoneIsTaken (get nat_cmp starts.now) start end) }
{
    if let Some(_) = run_at(starts, start) {
        return Some(start);
    }
    let next = first_start(starts, start)?;
    if (next as u128) < end {
        Some(next)
    } else {
        None
    }
}
