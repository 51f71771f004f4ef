//! Sorts the entries of a search table, by threads or in the calling thread alone.
ghost use Rattle.std.specs.Prelude.{◌≡◌, OnOk};
ghost use Rattle.std.specs.Ordering.{nat_cmp};
ghost use Rattle.std.specs.List.Sorted.{IsPermutation, IsNonDecreasingBy, IsStableByKey};
ghost use Rattle.wild_frames.specs.Table.{rank_of};

use crate::table::rank;
use rayon::prelude::*;
use std::alloc::{AllocError, Global};
use std::marker::Sync;
use std::thread::Threads;
use wild_executor::{Alone, Executor, Threaded};
use wild_records::EhFrameHdrEntry;

/// Sorts entries by the start of their code; the sort is stable. Time n log n, on as many threads as there are processors.
pub fn sort_eh_frame_hdr_entries(
    rt: &(impl Threads + Sync),
    alloc: Global,
    entries: &mut [EhFrameHdrEntry],
) -> Result<(), AllocError>
    ensures permutation { IsPermutation entries.old entries.new }
    ensures sorted { OnOk result (IsNonDecreasingBy rank_of entries.new) }
    ensures stable { IsStableByKey rank_of nat_cmp entries.old entries.new }
{
    par_sort_by_key(
        rt,
        alloc,
        entries,
        |e: &EhFrameHdrEntry| -> u32
            ensures { result ≡ rank_of e.now }
        { rank(e.frame_ptr) },
    )
}

/// Sorts entries by the start of their code, in the calling thread; the sort is stable. Time n log n.
pub fn sort_entries_alone(alloc: Global, entries: &mut [EhFrameHdrEntry]) -> Result<(), AllocError>
    ensures permutation { IsPermutation entries.old entries.new }
    ensures sorted { OnOk result (IsNonDecreasingBy rank_of entries.new) }
    ensures stable { IsStableByKey rank_of nat_cmp entries.old entries.new }
{
    entries.sort_by_key(
        alloc,
        |e: &EhFrameHdrEntry| -> u32
            ensures { result ≡ rank_of e.now }
        { rank(e.frame_ptr) },
    )
}

/// Sorts the entries of a search table.
pub trait Sorter: Executor {
    ghost use Rattle.std.specs.Prelude.{OnOk};
    ghost use Rattle.std.specs.Ordering.{nat_cmp};
    ghost use Rattle.std.specs.List.Sorted.{IsPermutation, IsNonDecreasingBy, IsStableByKey};
    ghost use Rattle.wild_frames.specs.Table.{rank_of};

    /// Sorts entries by the start of their code; the sort is stable. Time n log n.
    fn sort(&self, alloc: Global, entries: &mut [EhFrameHdrEntry]) -> Result<(), AllocError>
        requires ready { Self.ready self.now }
        ensures permutation { IsPermutation entries.old entries.new }
        ensures sorted { OnOk result (IsNonDecreasingBy rank_of entries.new) }
        ensures stable { IsStableByKey rank_of nat_cmp entries.old entries.new };
}

impl Sorter for Alone {
    fn sort(&self, alloc: Global, entries: &mut [EhFrameHdrEntry]) -> Result<(), AllocError> {
        sort_entries_alone(alloc, entries)
    }
}

impl<R: Threads + Sync> Sorter for Threaded<'_, R> {
    fn sort(&self, alloc: Global, entries: &mut [EhFrameHdrEntry]) -> Result<(), AllocError> {
        sort_eh_frame_hdr_entries(self.0, alloc, entries)
    }
}
