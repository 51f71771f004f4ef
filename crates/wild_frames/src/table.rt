//! The search table of frames (LSB, "The .eh_frame_hdr section").
ghost use Rattle.std.specs.Prelude.{◌≡◌, ◌<◌, ◌≤◌, ◌+◌, ◌*◌, ◌^◌, ◌++◌, [], ◌∷◌, if◌then◌else◌, length, map, take, OnOk, IfOk};
ghost use Rattle.std.specs.List.{flat_map};
ghost use Rattle.std.specs.List.Sorted.{IsPermutation, IsNonDecreasingBy};
ghost use Rattle.wild_records.specs.Frames.{eh_frame_hdr_size, eh_frame_hdr_entry_size};
ghost use Rattle.wild_frames.specs.Table.{distance, far, entry_of, far_fde, table_errors, header_of, rank, rank_of, hdr_bytes, entry_bytes, in_order, IsTable, table_of, Answers};

use crate::sorter::Sorter;
use std::alloc::{AllocError, AllocFailed, Global};
use wild_records::abi::frame::{
    DW_EH_PE_ABSPTR, DW_EH_PE_DATAREL, DW_EH_PE_PCREL, DW_EH_PE_SDATA4, DW_EH_PE_UDATA4,
    EH_FRAME_HDR_VERSION,
};
use wild_records::{EhFrameHdr, EhFrameHdrEntry};

/// A kept FDE.
#[derive(Clone, Copy)]
pub struct Fde {
    /// The address at which its code begins.
    pub code: u64,
    /// Its own address.
    pub address: u64,
}

/// Why a table was not written.
#[derive(Clone, Copy, Debug, PartialEq, Eq)]
pub enum TableError {
    /// The distance of an address from the header does not fit a signed 32-bit field: the distance, modulo 2^64.
    FrameOffsetOverflow { value: u64 },
    /// Out of memory.
    OutOfMemory,
}

impl From<AllocError> for TableError {
    ghost use Rattle.std.specs.Prelude.{◌≡◌};
    ghost use Rattle.wild_frames.specs.Table.{out_of_memory};

    ghost from_gives = { λ _ e. e ≡ out_of_memory };

    fn from(_: AllocError) -> Self {
        TableError::OutOfMemory
    }
}

impl<T: Drop> From<AllocFailed<T>> for TableError {
    ghost use Rattle.std.specs.Prelude.{◌≡◌};
    ghost use Rattle.wild_frames.specs.Table.{out_of_memory};

    ghost from_gives = { λ _ e. e ≡ out_of_memory };

    fn from(_: AllocFailed<T>) -> Self {
        TableError::OutOfMemory
    }
}

/// The distance from one address to another, in 32 bits.
fn distance(from: u64, to: u64) -> Result<i32, TableError>
    ensures faults { Answers result (far from to) }
    ensures value { IfOk result (λ d. d ≡ distance from to) }
{
    let low = to as u128 + 0x8000_0000;
    let high = from as u128 + 0x8000_0000;
    if low < from as u128 || to as u128 >= high {
        return Err(TableError::FrameOffsetOverflow {
            value: to.wrapping_sub(from),
        });
    }
    Ok((to as i128 - from as i128) as i32)
}

/// Maps signed numbers to unsigned ones in the same order.
pub(crate) fn rank(value: i32) -> u32
    ensures { result ≡ rank value }
{
    value.cast_unsigned().wrapping_add(0x8000_0000)
}

/// The search table entry of an FDE.
fn entry_of(header: u64, fde: Fde) -> Result<EhFrameHdrEntry, TableError>
    ensures faults { Answers result (far_fde header fde) }
    ensures value { IfOk result (λ e. e ≡ entry_of header fde) }
{
    let frame_ptr = distance(header, fde.code)?;
    let frame_info_ptr = distance(header, fde.address)?;
    Ok(EhFrameHdrEntry {
        frame_ptr,
        frame_info_ptr,
    })
}

/// The search table entries of FDEs, in their order.
fn entries_of(alloc: Global, header: u64, fdes: &[Fde]) -> Result<Vec<EhFrameHdrEntry>, TableError>
    ensures faults { Answers result (flat_map (far_fde header) fdes.now) }
    ensures value { IfOk result (λ v. v.items ≡ map (entry_of header) fdes.now) }
{
    let mut entries = Vec::with_capacity(alloc, fdes.len())?;
    for fde in fdes {
        match entry_of(header, *fde) {
            Ok(entry) => entries.push(entry)?,
            Err(error) => return Err(error),
        }
    }
    Ok(entries)
}

/// Writes the header to the start of the table's bytes, or returns the fault that the frames are too far from it.
pub fn write_eh_frame_hdr(
    header: u64,
    eh_frame: u64,
    count: u32,
    out: &mut [u8],
) -> Result<(), TableError>
    requires room { eh_frame_hdr_size ≤ length out.old }
    requires place { header + 4 < 2 ^ 64 }
    ensures faults { Answers result (far (header + 4) eh_frame) }
    ensures front { OnOk result (take eh_frame_hdr_size out.new ≡ hdr_bytes (header_of header eh_frame count)) }
{
    let frame_pointer = distance(header + 4, eh_frame)?;
    let record = EhFrameHdr {
        version: EH_FRAME_HDR_VERSION,
        frame_pointer_encoding: DW_EH_PE_PCREL | DW_EH_PE_SDATA4,
        count_encoding: DW_EH_PE_ABSPTR | DW_EH_PE_UDATA4,
        table_encoding: DW_EH_PE_DATAREL | DW_EH_PE_SDATA4,
        frame_pointer,
        entry_count: count,
    };
    record.put(&mut out[..EhFrameHdr::SIZE]);
    Ok(())
}

/// Writes one entry to a table.
fn put_entry(entry: &EhFrameHdrEntry, at: usize, out: &mut [u8])
    requires { at + 8 ≤ length out.old }
    ensures { take (at + 8) out.new ≡ take at out.old ++ entry_bytes entry.now }
{
    entry.put(&mut out[at..at + EhFrameHdrEntry::SIZE]);
}

/// Writes the entries after the header.
fn put_entries(entries: &[EhFrameHdrEntry], out: &mut [u8])
    requires { length out.old ≡ 12 + 8 * length entries.now }
    ensures { out.new ≡ take 12 out.old ++ flat_map entry_bytes entries.now }
{
    for i in 0..entries.len() {
        put_entry(&entries[i], 12 + 8 * i, out);
    }
}

/// Writes the entries after the header, sorted by the start of their code.
fn put_sorted<S: Sorter>(
    sorter: &S,
    alloc: Global,
    entries: &mut [EhFrameHdrEntry],
    out: &mut [u8],
) -> Result<(), AllocError>
    requires ready { S.ready sorter.now }
    requires room { length out.old ≡ 12 + 8 * length entries.old }
    ensures bytes { OnOk result (out.new ≡ take 12 out.old ++ flat_map entry_bytes (in_order entries.old)) }
    ensures all { OnOk result (IsPermutation entries.old (in_order entries.old)) }
    ensures sorted { OnOk result (IsNonDecreasingBy rank_of (in_order entries.old)) }
{
    sorter.sort(alloc, entries)?;
    put_entries(entries, out);
    Ok(())
}

/// Writes the search table of the kept FDEs, or returns the first distance that is too far.
pub fn write_search_table<S: Sorter>(
    sorter: &S,
    alloc: Global,
    header: u64,
    eh_frame: u64,
    fdes: &[Fde],
    out: &mut [u8],
) -> Result<(), TableError>
    requires ready { S.ready sorter.now }
    requires room { length out.old ≡ eh_frame_hdr_size + eh_frame_hdr_entry_size * length fdes.now }
    requires few { length fdes.now < 2 ^ 32 }
    requires place { header + 4 < 2 ^ 64 }
    ensures faults { Answers result (table_errors header eh_frame fdes.now) }
    ensures table { OnOk result (out.new ≡ table_of header eh_frame fdes.now) }
    ensures sorted { OnOk result (IsTable header eh_frame fdes.now out.new) }
{
    write_eh_frame_hdr(header, eh_frame, fdes.len() as u32, out)?;
    let mut entries = entries_of(alloc, header, fdes)?;
    put_sorted(sorter, alloc, &mut entries, out)?;
    Ok(())
}
