//! Relocations applied in parallel shards.
ghost use Rattle.std.specs.Prelude.{◌≡◌, ◌+◌, ◌≤◌, length, All, Some, IfOk, min, option_map, IfSome};
ghost use Rattle.std.specs.Thread.{IsSync};
ghost use Rattle.wild_shards.specs.ByIndex.{offset_in, size_in};
ghost use Rattle.wild_shards.specs.Ranges.{AreRanges};
ghost use Rattle.wild_shards.specs.InOrder.{in_order, ResultIs, FieldWithin, KeepsLength, Tiles, first_of};

use crate::in_order::apply_in_order;
use crate::ranges::{
    DebugRelocationShardRange, Offsets, Sizes, debug_relocation_shard_ranges_parallel,
};
use crate::step::{Step, steps_stay_in_fields};
use std::alloc::{AllocError, Global};
use std::thread::{Threads, join_mut};
use wild_types::{Error, InputRelocation};

/// The combined result of two parts: the fault of the first, else the result of the second.
fn first_of(one: Result<(), Error>, two: Result<(), Error>) -> Result<(), Error>
    ensures { result ≡ first_of one two }
{
    match one {
        Err(fault) => Err(fault),
        Ok(()) => two,
    }
}

/// Applies the relocations of each range in its part of the output, which begins at offset `base`, in parallel. Returns the first
/// fault in the order of the ranges.
pub(crate) fn run_shards<R: Threads + Sync, S: Step + Sync>(
    rt: &R,
    step: &S,
    ranges: &[DebugRelocationShardRange],
    relocations: &[InputRelocation],
    base: u64,
    out: &mut [u8],
) -> Result<(), Error>
    requires keeps { KeepsLength (S.rule step.now) }
    requires tiles { Tiles (S.rule step.now) ranges.now relocations.now base (base + length out.old) }
    ensures { ResultIs result out.new (in_order (S.rule step.now) base relocations.now out.old) }
{
    let Some((first, rest)) = ranges.split_first() else {
        return Ok(());
    };
    let (mine, others) = relocations.split_at(first.relocations.end - first.relocations.start);
    let middle = first.output.end as u64;
    let (front, back) = out.split_at_mut((middle - base) as usize);
    let (one, two) = join_mut(
        rt,
        &mut || -> Result<(), Error>
            requires { All (FieldWithin (S.rule step.now) base (base + length front.now)) mine.now }
            ensures { ResultIs result front.exit.now (in_order (S.rule step.entry.now) base mine.entry.now front.entry.now) }
        { apply_in_order(step, mine, base, front) },
        &mut || -> Result<(), Error>
            requires { IsSync R.row × IsSync S.row × KeepsLength (S.rule step.now) × Tiles (S.rule step.now) rest.now others.now middle (middle + length back.now) }
            ensures { ResultIs result back.exit.now (in_order (S.rule step.entry.now) middle others.entry.now back.entry.now) }
        { run_shards(rt, step, rest, others, middle, back) },
    );
    first_of(one, two)
}

/// The offsets of relocations in memory.
#[derive(Drop)]
struct InMemoryOffsets<'a>(&'a [InputRelocation]);

impl Offsets for InMemoryOffsets<'_> {
    ghost use Rattle.std.specs.Prelude.{length};
    ghost use Rattle.wild_shards.specs.ByIndex.{offset_in};

    ghost count = { λ o. length o.0.now };

    ghost offset = { λ o i. offset_in o.0.now i };

    fn offset_at(&self, index: usize) -> u64 {
        self.0[index].offset
    }
}

/// The sizes of the fields of relocations in memory.
#[derive(Drop)]
struct InMemorySizes<'a, S>(&'a S, &'a [InputRelocation]);

impl<S: Step> Sizes for InMemorySizes<'_, S> {
    ghost use Rattle.std.specs.Prelude.{length};
    ghost use Rattle.wild_shards.specs.ByIndex.{size_in};

    ghost count = { λ t. length t.1.now };

    ghost size = { λ t i. size_in (S.rule t.0.now) t.1.now i };

    fn write_size_at(&self, index: usize) -> Option<usize> {
        self.0.size(&self.1[index])
    }
}

/// The ranges of the shards of relocations in memory. They are consecutive from the first relocation and byte to the last, and each
/// field is within its shard's part of the output.
pub fn ranges_of<S: Step>(
    alloc: Global,
    step: &S,
    relocations: &[InputRelocation],
    output: usize,
    shards: usize,
) -> Result<Option<Vec<DebugRelocationShardRange>>, AllocError>
    ensures ranges { IfOk result (λ o. AreRanges (offset_in relocations.now) (size_in (S.rule step.now) relocations.now) (length relocations.now) output (min shards (length relocations.now)) (option_map (λ v. v.items) o)) }
    ensures tiles { IfOk result (λ o. IfSome o (λ v. Tiles (S.rule step.now) v.items relocations.now 0 output)) }
{
    steps_stay_in_fields(step);
    let offsets = InMemoryOffsets(relocations);
    let sizes = InMemorySizes(step, relocations);
    debug_relocation_shard_ranges_parallel(
        alloc,
        relocations.len(),
        output,
        shards,
        &offsets,
        &sizes,
    )
}

/// Applies relocations in parallel shards, or in sequence if shards must not run in parallel. The bytes and the first fault are
/// those of the sequential pass, for every number of shards.
pub fn apply_sharded<R: Threads + Sync, S: Step + Sync>(
    rt: &R,
    alloc: Global,
    step: &S,
    relocations: &[InputRelocation],
    shards: usize,
    out: &mut [u8],
) -> Result<Result<(), Error>, AllocError>
    requires lie { All (FieldWithin (S.rule step.now) 0 (length out.old)) relocations.now }
    ensures { IfOk result (λ r. ResultIs r out.new (in_order (S.rule step.now) 0 relocations.now out.old)) }
{
    let ranges = ranges_of(alloc, step, relocations, out.len(), shards)?;
    match ranges {
        Some(ranges) => {
            steps_stay_in_fields(step);
            Ok(run_shards(rt, step, &ranges, relocations, 0, out))
        }
        None => Ok(apply_in_order(step, relocations, 0, out)),
    }
}

/// A section with fewer relocations is not split.
const MIN_RELOCATIONS_TO_SHARD: usize = 65536;

/// Applies relocations with that number of workers. From 65,536 relocations on it uses shards: at most one per worker, and at most
/// one for each 65,536 relocations or part of them.
pub fn apply_by_workers<R: Threads + Sync, S: Step + Sync>(
    rt: &R,
    alloc: Global,
    step: &S,
    relocations: &[InputRelocation],
    workers: usize,
    out: &mut [u8],
) -> Result<Result<(), Error>, AllocError>
    requires lie { All (FieldWithin (S.rule step.now) 0 (length out.old)) relocations.now }
    ensures { IfOk result (λ r. ResultIs r out.new (in_order (S.rule step.now) 0 relocations.now out.old)) }
{
    if relocations.len() < MIN_RELOCATIONS_TO_SHARD {
        return Ok(apply_in_order(step, relocations, 0, out));
    }
    let shards = workers.min(relocations.len().div_ceil(MIN_RELOCATIONS_TO_SHARD));
    apply_sharded(rt, alloc, step, relocations, shards, out)
}
