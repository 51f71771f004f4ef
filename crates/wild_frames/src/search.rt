//! Look-ups in the search table, as an unwinder makes them.
ghost use Rattle.std.specs.Prelude.{◌≡◌, ◌<◌, ◌≤◌, ◌+◌, ◌*◌, length, OnErr};
ghost use Rattle.wild_frames.specs.Table.{rank, count_in, nth_entry, IsInOrder, IsOrdered, IsLastBefore, RanksAreOrdered, TableIsInOrder, FdeIsFound};

use crate::table::rank;
use wild_records::{EhFrameHdr, EhFrameHdrEntry, eh_frame_hdr_entry_is_read};

/// The entry of a table with that index.
fn nth_entry(table: &[u8], index: usize) -> EhFrameHdrEntry
    requires { 12 + 8 * index + 8 ≤ length table.now }
    ensures { result ≡ nth_entry table.now index }
{
    EhFrameHdrEntry::read(table, EhFrameHdr::SIZE + EhFrameHdrEntry::SIZE * index)
}

/// The number of entries of a table.
fn count_entries(table: &[u8]) -> usize
    ensures { result ≡ count_in table.now }
{
    table.len().saturating_sub(EhFrameHdr::SIZE) / EhFrameHdrEntry::SIZE
}

/// Checks that the entries of a table are in order, as a binary search requires. If not, returns the index of the first entry that is
/// below the one before it. Linear; allocates no memory.
#[tactic(auto, using(crate::proofs::TableLemmas::ordered_first, crate::proofs::TableLemmas::ordered_more, crate::proofs::TableLemmas::ordered_all, crate::proofs::TableLemmas::out_at, crate::proofs::TableLemmas::not_in_order))]
pub fn check_order(table: &[u8]) -> Result<(), usize>
    ensures told { IsOrdered table.now result }
    ensures exact { OnErr result (IsInOrder table.now → ⊥) }
{
    let count = count_entries(table);
    let mut index = 1;
    while index < count {
        if rank(nth_entry(table, index).frame_ptr) < rank(nth_entry(table, index - 1).frame_ptr) {
            return Err(index);
        }
        index += 1;
    }
    Ok(())
}

/// The last entry of a table whose code, relative to the header, begins at or before `code`. A binary search.
pub fn look_up(table: &[u8], code: i32) -> Option<EhFrameHdrEntry>
    requires { IsInOrder table.now }
    ensures { IsLastBefore (rank code) table.now result }
{
    let most = rank(code);
    let mut low = 0;
    let mut high = count_entries(table);
    while low < high {
        let middle = low + (high - low) / 2;
        if rank(nth_entry(table, middle).frame_ptr) <= most {
            low = middle + 1;
        } else {
            high = middle;
        }
    }
    if low == 0 {
        None
    } else {
        Some(nth_entry(table, low - 1))
    }
}

/// A table that was written is in order, as a binary search requires. If no two FDEs cover a common address of code, a search for an
/// address that an FDE covers finds that FDE.
pub fn tables_are_searched()
    ensures ranks { RanksAreOrdered }
    ensures order { TableIsInOrder }
    ensures found { FdeIsFound }
{
    eh_frame_hdr_entry_is_read();
}
