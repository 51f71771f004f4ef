//! Shards of a debug section's relocations: their ranges, and that any number of workers writes the same bytes and reports the
//! same fault.

use std::alloc::{AllocError, Global};
use std::cell::Cell;
use std::test::Fail;
use std::thread::Threads;
use wild_shards::{
    DebugRelocationShardRange, Offsets, Sizes, Step, apply_by_workers,
    debug_relocation_shard_ranges_parallel, fields_lie, ranges_of,
};
use wild_types::{At, Error, Fault, InputRelocation};
use wild_words::put_u32;

/// Offsets in a list.
#[derive(Drop)]
struct ListedOffsets<'a>(&'a [u64]);

impl Offsets for ListedOffsets<'_> {
    ghost use Rattle.std.specs.Prelude.{length, slice_index};

    ghost count = { λ a. length a.0.now };

    ghost offset = { λ a i. slice_index a.0.now i };

    fn offset_at(&self, index: usize) -> u64 {
        self.0[index]
    }
}

/// Counts how often a size is read.
#[derive(Drop)]
struct CountedSizes<'a> {
    sizes: &'a [Option<usize>],
    reads: Cell<u32>,
}

impl Sizes for CountedSizes<'_> {
    ghost use Rattle.std.specs.Prelude.{length, slice_index_or, None};

    ghost count = { λ s. length s.sizes.now };

    ghost size = { λ s i. slice_index_or s.sizes.now i None };

    fn write_size_at(&self, index: usize) -> Option<usize> {
        self.reads.set(self.reads.get().saturating_add(1));
        self.sizes[index]
    }
}

/// The relocations of a shard, and its bytes, from the first to the end.
type Shard = (usize, usize, usize, usize);

/// Offsets, sizes, the length of the output, how many shards there may be, and those that there are: none where fields do not
/// lie one after another.
type Row = (
    &'static [u64],
    &'static [Option<usize>],
    usize,
    usize,
    &'static [Shard],
);

const FOURS: &[Option<usize>] = &[Some(4); 4];

#[rattlefmt::skip]
const RANGES: &[Row] = &[
    (&[0, 4, 8, 12, 16, 20, 24, 28], &[Some(4); 8], 32, 4, &[(0, 2, 0, 8), (2, 4, 8, 16), (4, 6, 16, 24), (6, 8, 24, 32)]),
    // Offsets that fall, or an end past the output's.
    (&[0, 8, 4, 12], FOURS, 16, 2, &[]),
    (&[0, 4, 12, 8], FOURS, 16, 2, &[]),
    (&[0, 4, 12, 20], FOURS, 16, 2, &[]),
    (&[0, 4, 8, 14], FOURS, 16, 2, &[]),
    // A field that reaches into the next shard, and sizes that are not known.
    (&[0, 4, 8, 12], &[Some(4), Some(8), Some(4), Some(4)], 16, 2, &[]),
    (&[0, 4, 8, 12], &[None; 4], 16, 2, &[]),
    // No more shards than relocations.
    (&[0, 4], &[Some(4); 2], 8, 4, &[(0, 1, 0, 4), (1, 2, 4, 8)]),
];

/// Whether the ranges are these shards.
fn are_shards(ranges: &[DebugRelocationShardRange], shards: &[Shard]) -> bool {
    if ranges.len() != shards.len() {
        return false;
    }
    for (range, (first, last, start, end)) in ranges.iter().zip(shards) {
        let found = (&range.relocations, &range.output);
        if *found.0 != (*first..*last) || *found.1 != (*start..*end) {
            return false;
        }
    }
    true
}

#[test]
fn ranges_of_shards(rt: HostRuntime) -> Result<(), Fail> {
    for (offsets, sizes, output, shards, wanted) in RANGES {
        let sizes = CountedSizes {
            sizes: *sizes,
            reads: Cell::new(0),
        };
        let count = offsets.len().min(sizes.sizes.len());
        let offsets = ListedOffsets(*offsets);
        let ranges = debug_relocation_shard_ranges_parallel(
            rt.alloc(),
            count,
            *output,
            *shards,
            &offsets,
            &sizes,
        )?;
        let found = match &ranges {
            Some(ranges) => are_shards(ranges.as_slice(), *wanted),
            None => wanted.is_empty(),
        };
        assert!(rt; found, "{output} {shards}");
    }
    Ok(())
}

/// Of 32 fields in four shards only the last three of each shard are near its end.
#[test]
fn sizes_are_read_near_the_ends_of_shards(rt: HostRuntime) -> Result<(), AllocError> {
    let mut offsets = [0; 32];
    for i in 0..32 {
        offsets[i] = 4 * i as u64;
    }
    let sizes = CountedSizes {
        sizes: &[Some(4); 32],
        reads: Cell::new(0),
    };
    let ranges = debug_relocation_shard_ranges_parallel(
        rt.alloc(),
        32,
        128,
        4,
        &ListedOffsets(&offsets),
        &sizes,
    )?;
    assert!(rt; ranges.is_some());
    assert!(rt; sizes.reads.get() == 12);
    Ok(())
}

/// A relocation of type 10 writes its offset in four bytes, any other has a fault.
#[derive(Drop)]
struct WriteOffset;

impl Step for WriteOffset {
    ghost use Rattle.wild_tests_low.specs.Shards.{offset_rule, offset_rule-small, offset_rule-keeps};

    ghost rule = { λ _. offset_rule };

    ghost small = { λ _ r. offset_rule-small r };

    ghost keeps = { λ _ r xs h. offset_rule-keeps r xs h };

    fn size(&self, relocation: &InputRelocation) -> Option<usize> {
        if relocation.number == 10 {
            Some(4)
        } else {
            None
        }
    }

    fn write(&self, relocation: &InputRelocation, field: &mut [u8]) -> Result<(), Error> {
        if relocation.number == 10 {
            put_u32(field, 0, (relocation.offset % 4294967296) as u32);
            return Ok(());
        }
        Err(Error {
            fault: Fault::UnsupportedRelocation {
                number: relocation.number,
            },
            at: At {
                group: None,
                file: None,
                section: None,
                offset: Some(relocation.offset),
            },
        })
    }
}

/// 131,072 relocations of type 10, one for each four bytes. Those at two of the places may have another type: 10 and 70,000.
fn relocations(alloc: Global, unsupported: bool) -> Result<Vec<InputRelocation>, AllocError> {
    let mut list = Vec::with_capacity(alloc, 131072)?;
    for place in 0..131072u64 {
        list.push(InputRelocation {
            offset: 4 * place,
            number: if unsupported && (place == 10 || place == 70000) {
                99
            } else {
                10
            },
            symbol: None,
            addend: 0,
            malformed: false,
        })?;
    }
    Ok(list)
}

/// The offset of the fault that so many workers report over these bytes.
fn fault_over<R: Threads + Sync>(
    rt: &R,
    alloc: Global,
    list: &[InputRelocation],
    workers: usize,
    out: &mut [u8],
) -> Result<Option<u64>, AllocError> {
    if !fields_lie(&WriteOffset, list, out.len()) {
        return Ok(None);
    }
    match apply_by_workers(rt, alloc, &WriteOffset, list, workers, out)? {
        Ok(()) => Ok(None),
        Err(error) => Ok(error.at.offset),
    }
}

/// The bytes that so many workers write over 7s, and the offset of the fault that they report.
fn written_by<R: Threads + Sync>(
    rt: &R,
    alloc: Global,
    list: &[InputRelocation],
    workers: usize,
    length: usize,
) -> Result<(Vec<u8>, Option<u64>), AllocError> {
    let mut out = vec![in alloc; 7u8; length]?;
    let fault = fault_over(rt, alloc, list, workers, &mut out)?;
    Ok((out, fault))
}

#[test]
fn all_numbers_of_workers_write_the_same(rt: HostRuntime) -> Result<(), AllocError> {
    let list = relocations(rt.alloc(), false)?;
    let (first, none) = written_by(&rt, rt.alloc(), &list, 1, 524288)?;
    assert!(rt; none.is_none());
    assert!(rt; first.len() == 524288);
    assert!(rt; first[..8] == [0, 0, 0, 0, 4, 0, 0, 0]);
    assert!(rt; first[262144..262148] == [0, 0, 4, 0]);
    for workers in [2, 64] {
        let (bytes, fault) = written_by(&rt, rt.alloc(), &list, workers, 524288)?;
        assert!(rt; fault.is_none());
        assert!(rt; bytes == first);
    }
    Ok(())
}

#[test]
fn all_numbers_of_workers_report_the_first_fault(rt: HostRuntime) -> Result<(), AllocError> {
    let list = relocations(rt.alloc(), true)?;
    for workers in [1, 2, 64] {
        let (_, fault) = written_by(&rt, rt.alloc(), &list, workers, 524288)?;
        assert!(rt; fault == Some(40));
    }
    Ok(())
}

#[test]
fn two_workers_have_half_each(rt: HostRuntime) -> Result<(), Fail> {
    let list = relocations(rt.alloc(), false)?;
    let ranges = ranges_of(rt.alloc(), &WriteOffset, &list, 524288, 2)?;
    let ranges = ranges.ok_or("no ranges")?;
    let halves = [(0, 65536, 0, 262144), (65536, 131072, 262144, 524288)];
    assert!(rt; are_shards(ranges.as_slice(), &halves));
    Ok(())
}
