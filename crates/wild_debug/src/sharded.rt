//! Applies the relocations of a debug section in parallel shards.
ghost use Rattle.std.specs.Prelude.{◌≡◌, ◌+◌, ◌≤◌, length, All};
ghost use Rattle.std.specs.Thread.{IsSync};
ghost use Rattle.wild_shards.specs.InOrder.{in_order, first_of, ResultIs, FieldWithin, Tiles};
ghost use Rattle.wild_layout.specs.Debug.{debug_rule, at_offset_only};

use crate::decide::DebugStep;
use crate::pass::apply_in_order;
use std::thread::{Threads, join_mut};
use wild_relax::Arch;
use wild_shards::DebugRelocationShardRange;
use wild_types::{Error, InputRelocation};

/// The result of two parts: the first's fault, otherwise the second's result.
fn first_of(one: Result<(), Error>, two: Result<(), Error>) -> Result<(), Error>
    ensures { result ≡ first_of one two }
{
    match one {
        Err(fault) => Err(fault),
        Ok(()) => two,
    }
}

/// Applies the relocations of a shard to its part of the bytes, which begins at offset `base`.
#[tactic(auto, using(crate::proofs::FieldLemmas::lie_in_part))]
fn apply_part<A: Arch>(
    step: &DebugStep<A>,
    relocations: &[InputRelocation],
    base: u64,
    out: &mut [u8],
) -> Result<(), Error>
    requires { All (FieldWithin (debug_rule step.now.resolved.now.layout.now at_offset_only step.now.section.now) base (base + length out.old)) relocations.now }
    ensures { ResultIs result out.new (in_order (debug_rule step.now.resolved.now.layout.now at_offset_only step.now.section.now) base relocations.now out.old) }
{
    apply_in_order(step, relocations, base, out)
}

/// Applies the relocations of each range to its part of the bytes, which begin at offset `base`, in parallel; or returns the first fault
/// in the order of the ranges.
pub(crate) fn run_shards<A: Arch + Sync, R: Threads + Sync>(
    rt: &R,
    step: &DebugStep<A>,
    ranges: &[DebugRelocationShardRange],
    relocations: &[InputRelocation],
    base: u64,
    out: &mut [u8],
) -> Result<(), Error>
where
    A::Relaxation: Sync,
    requires tiles { Tiles (debug_rule step.now.resolved.now.layout.now at_offset_only step.now.section.now) ranges.now relocations.now base (base + length out.old) }
    ensures { ResultIs result out.new (in_order (debug_rule step.now.resolved.now.layout.now at_offset_only step.now.section.now) base relocations.now out.old) }
{
    let Some((first, rest)) = ranges.split_first() else {
        return Ok(());
    };
    let (mine, others) = relocations.split_at(first.relocations.end - first.relocations.start);
    let middle = first.output.end as u64;
    let (front, back) = out.split_at_mut((middle - base) as usize);
    let (one, two) = join_mut(
        rt,
        &mut || -> Result<(), Error>
            requires { All (FieldWithin (debug_rule step.now.resolved.now.layout.now at_offset_only step.now.section.now) base (base + length front.now)) mine.now }
            ensures { ResultIs result front.exit.now (in_order (debug_rule step.entry.now.resolved.now.layout.now at_offset_only step.entry.now.section.now) base mine.entry.now front.entry.now) }
        { apply_part(step, mine, base, front) },
        &mut || -> Result<(), Error>
            requires { Tiles (debug_rule step.now.resolved.now.layout.now at_offset_only step.now.section.now) rest.now others.now middle (middle + length back.now) }
            ensures { ResultIs result back.exit.now (in_order (debug_rule step.entry.now.resolved.now.layout.now at_offset_only step.entry.now.section.now) middle others.entry.now back.entry.now) }
        { run_shards(rt, step, rest, others, middle, back) },
    );
    first_of(one, two)
}
