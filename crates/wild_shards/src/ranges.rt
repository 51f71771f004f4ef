//! The ranges of the shards.
ghost use Rattle.std.specs.Prelude.{◌≡◌, ℕ, ◌+◌, ◌-◌, ◌<◌, ◌≤◌, ◌==◌, ◌^◌, Option, IfOk, true, min, option_map, if◌then◌else◌};
ghost use Rattle.wild_shards.specs.Ranges.{cut, shard, output_end, output_start, AreSorted, AreWithin, Fits, TailFits, AreShards, AreRanges};

use std::alloc::{AllocError, Global};
use std::ops::Range;

/// The greatest width of a relocation's field, in bytes.
const MAX_FIELD_WIDTH: u64 = 10;

/// The relocations of a shard, and its part of the output.
#[derive(Debug, PartialEq, Eq, Drop)]
pub struct DebugRelocationShardRange {
    pub relocations: Range<usize>,
    pub output: Range<usize>,
}

/// The offsets of relocations, by index.
pub trait Offsets {
    ghost count: { Self → ℕ };

    ghost offset: { Self → ℕ → ℕ };

    /// The offset of the relocation with that index.
    fn offset_at(&self, index: usize) -> u64
        requires { index < count self.now }
        ensures { result ≡ offset self.now index };
}

/// The sizes of the fields that relocations write, by index.
pub trait Sizes {
    ghost count: { Self → ℕ };

    ghost size: { Self → ℕ → Option ℕ };

    /// The size of the field of the relocation with that index; none if it cannot be determined.
    fn write_size_at(&self, index: usize) -> Option<usize>
        requires { index < count self.now }
        ensures { result ≡ size self.now index };
}

/// Whether the offsets ascend, and none is past the end of the output.
fn are_in_order<O: Offsets>(offsets: &O, count: usize, output: usize) -> bool
    requires { count ≤ O.count offsets.now }
    ensures sorted { result ≡ true → AreSorted (O.offset offsets.now) count }
    ensures within { result ≡ true → AreWithin (O.offset offsets.now) count output }
    ensures all { AreSorted (O.offset offsets.now) count → AreWithin (O.offset offsets.now) count output → result ≡ true }
{
    let mut previous = 0;
    for index in 0..count {
        let offset = offsets.offset_at(index);
        if offset < previous || offset > output as u64 {
            return false;
        }
        previous = offset;
    }
    true
}

/// Whether the size of the field is known, is at most 10, and the field ends at or before the limit.
fn fits<S: Sizes>(sizes: &S, index: usize, offset: u64, limit: u64) -> bool
    requires { index < S.count sizes.now }
    ensures yes { result ≡ true → Fits limit offset (S.size sizes.now index) }
    ensures no { Fits limit offset (S.size sizes.now index) → result ≡ true }
{
    match sizes.write_size_at(index) {
        Some(size) => size as u64 <= MAX_FIELD_WIDTH
            && offset as u128 + size as u128 <= limit as u128,
        None => false,
    }
}

/// Whether the last fields of a shard fit. Sizes are read only there.
fn tail_fits<O: Offsets, S: Sizes>(
    offsets: &O,
    sizes: &S,
    start: usize,
    end: usize,
    limit: u64,
) -> bool
    requires some { start < end }
    requires offsets { end ≤ O.count offsets.now }
    requires sizes { end ≤ S.count sizes.now }
    requires sorted { AreSorted (O.offset offsets.now) end }
    ensures yes { result ≡ true → TailFits (O.offset offsets.now) (S.size sizes.now) start end limit }
    ensures no { TailFits (O.offset offsets.now) (S.size sizes.now) start end limit → result ≡ true }
{
    let last = offsets.offset_at(end - 1);
    for index in (start..end).rev() {
        let offset = offsets.offset_at(index);
        if offset as u128 + MAX_FIELD_WIDTH as u128 <= last as u128 {
            return true;
        }
        if !fits(sizes, index, offset, limit) {
            return false;
        }
    }
    true
}

/// The index of the first relocation of shard `index` of `shards`.
#[tactic(auto, using(crate::proofs::CutLemmas::cuts))]
fn first_of(count: usize, shards: usize, index: usize) -> usize
    requires some { 0 < shards }
    requires index { index ≤ shards }
    ensures { result ≡ cut count shards index }
{
    (count as u128 * index as u128 / shards as u128) as usize
}

/// The offset at which the output of a shard begins.
#[tactic(auto, using(crate::proofs::CutLemmas::cuts))]
fn start_of<O: Offsets>(offsets: &O, count: usize, shards: usize, index: usize) -> u64
    requires some { shards ≤ count }
    requires index { index < shards }
    requires count { count ≤ O.count offsets.now }
    ensures { result ≡ output_start (O.offset offsets.now) count shards index }
{
    if index == 0 {
        0
    } else {
        offsets.offset_at(first_of(count, shards, index))
    }
}

/// The offset at which the output of a shard ends.
#[tactic(auto, using(crate::proofs::CutLemmas::cuts))]
fn end_of<O: Offsets>(offsets: &O, count: usize, output: usize, shards: usize, index: usize) -> u64
    requires some { shards ≤ count }
    requires index { index < shards }
    requires count { count ≤ O.count offsets.now }
    ensures { result ≡ output_end (O.offset offsets.now) count output shards index }
{
    if index + 1 == shards {
        output as u64
    } else {
        start_of(offsets, count, shards, index + 1)
    }
}

/// The ranges of a shard.
fn shard_of<O: Offsets>(
    offsets: &O,
    count: usize,
    output: usize,
    shards: usize,
    index: usize,
) -> DebugRelocationShardRange
    requires some { shards ≤ count }
    requires index { index < shards }
    requires count { count ≤ O.count offsets.now }
    ensures { result ≡ shard (O.offset offsets.now) count output shards index }
{
    DebugRelocationShardRange {
        relocations: first_of(count, shards, index)..first_of(count, shards, index + 1),
        output: start_of(offsets, count, shards, index) as usize..end_of(
            offsets, count, output, shards, index,
        ) as usize,
    }
}

/// Whether the last fields of a shard fit.
#[tactic(auto, using(crate::proofs::CutLemmas::cuts))]
fn shard_fits<O: Offsets, S: Sizes>(
    offsets: &O,
    sizes: &S,
    count: usize,
    shards: usize,
    index: usize,
    limit: u64,
) -> bool
    requires some { shards ≤ count }
    requires index { index < shards }
    requires offsets { count ≤ O.count offsets.now }
    requires sizes { count ≤ S.count sizes.now }
    requires sorted { AreSorted (O.offset offsets.now) count }
    ensures yes { result ≡ true → TailFits (O.offset offsets.now) (S.size sizes.now) (cut count shards index) (cut count shards (index + 1)) limit }
    ensures no { TailFits (O.offset offsets.now) (S.size sizes.now) (cut count shards index) (cut count shards (index + 1)) limit → result ≡ true }
{
    let start = first_of(count, shards, index);
    let end = first_of(count, shards, index + 1);
    tail_fits(offsets, sizes, start, end, limit)
}

/// The ranges of several shards of ascending offsets, or none if the last fields of a shard do not fit.
fn fitting_ranges<O: Offsets, S: Sizes>(
    alloc: Global,
    count: usize,
    output: usize,
    shards: usize,
    offsets: &O,
    sizes: &S,
) -> Result<Option<Vec<DebugRelocationShardRange>>, AllocError>
    requires some { (2 ≤ shards) × (shards ≤ count) }
    requires offsets { count ≤ O.count offsets.now }
    requires sizes { count ≤ S.count sizes.now }
    requires sorted { AreSorted (O.offset offsets.now) count }
    requires within { AreWithin (O.offset offsets.now) count output }
    ensures { IfOk result (λ o. AreRanges (O.offset offsets.now) (S.size sizes.now) count output shards (option_map (λ v. v.items) o)) }
{
    let mut ranges = Vec::with_capacity(alloc, shards)?;
    for index in 0..shards {
        let limit = end_of(offsets, count, output, shards, index);
        if !shard_fits(offsets, sizes, count, shards, index, limit) {
            return Ok(None);
        }
        ranges.push(shard_of(offsets, count, output, shards, index))?;
    }
    Ok(Some(ranges))
}

/// The ranges of the shards, or none if they must not run in parallel:
/// - there are fewer than two shards,
/// - offsets descend, or one is past the end of the output,
/// - among the last fields of a shard a size is unknown, above 10, or too large for the shard's output.
pub fn debug_relocation_shard_ranges_parallel<O: Offsets, S: Sizes>(
    alloc: Global,
    count: usize,
    output: usize,
    shards: usize,
    offsets: &O,
    sizes: &S,
) -> Result<Option<Vec<DebugRelocationShardRange>>, AllocError>
    requires offsets { count ≤ O.count offsets.now }
    requires sizes { count ≤ S.count sizes.now }
    ensures { IfOk result (λ o. AreRanges (O.offset offsets.now) (S.size sizes.now) count output (min shards count) (option_map (λ v. v.items) o)) }
{
    let fewer = shards.min(count);
    if fewer < 2 || !are_in_order(offsets, count, output) {
        return Ok(None);
    }
    fitting_ranges(alloc, count, output, fewer, offsets, sizes)
}
