//! The tables of a group's slots, stubs and entries, by calls of their writer; and a dynamic section as GNU ld writes it.
use crate::layouts::{layout_of, resolution_of};
use std::alloc::Global;
use std::test::*;
use wild_plan::{Fault, Layout, Resolution, SlotFault, SymbolIndex, dynamic_count, put_stub};
use wild_records::Rela;
use wild_reloc::DynamicRelocationKind;
use wild_relr::{block_words, count_words};
use wild_tables::{
    ROLES, SlotWriteError, TableWriter, relative_entry, verify_resolution_allocation, write_dynamic,
};
use wild_tests_plans::{MOVED, PACKED, SLOTTED};
use wild_words::read_u64;

/// A call of the writer.
enum Call {
    /// Puts the address 0x1040 at a place, which then has this word.
    Address(u64, u64),
    /// Puts the address 0x1040 at an even place as a word, without a bitmap.
    Relr(u64),
    /// Ends the run of packed places, as at the end of a section.
    EndRun,
    /// Packs so many slots from 0x3000 on.
    Bitmap(u64),
    /// Puts the reserved words of `got`.
    Reserved,
    /// Puts the slots of a symbol, and the stub from 0x400140 to the slot at 0x402028 if there is room for one.
    Slots(usize),
    /// Puts `R_X86_64_64` at 0x3000, of symbol 2 with the addend 5.
    Symbol,
    /// Puts `R_X86_64_IRELATIVE` at 0x3008, with the resolver at 0x1000.
    Resolver,
    /// Puts `R_X86_64_COPY` of the first symbol.
    Copy,
    /// Puts the slot of the first symbol at this address. If that is outside the thread-local data, the fault says it.
    Offset(u64),
    /// Checks the sizes that the first symbol needs: this one of `got`, and three entries of `rela_dyn_general`.
    Size(u64, Option<Fault>),
    /// Checks that each table is full.
    Full,
}

/// Calls, each with whether it succeeds.
type Calls = &'static [(Call, bool)];

/// The words of `got`, `got_relr`, `rela_plt`, `rela_dyn_relative`, `rela_dyn_general` and `relr_dyn`.
type Words = [&'static [u64]; 6];

/// A plan, calls of the writer of its first group, the words of the tables after them, and the stubs.
type Row = (&'static str, Calls, Words, &'static [u8]);

/// An address that moves, with a slot at 0x3000, and room for three packed words.
const BLOCK: &str =
    r#"{"kind":"static_pie","options":{"relr":true},"parts":[{"role":"got_relr"},{"role":"relr_dyn"}],"symbols":[{"flags":["NON_INTERPOSABLE","GOT"],"resolution":{"raw_value":4160,"got":12288}}],"groups":[{"part_sizes":[8,24]}]}"#;

/// A copied symbol, and room for three entries.
const GENERAL: &str =
    r#"{"kind":"dynamic_pie","parts":[{"role":"rela_dyn_general"}],"symbols":[{"flags":["COPY_RELOCATION"],"resolution":{"raw_value":8192,"dynsym":3}}],"groups":[{"part_sizes":[72]}]}"#;

/// A thread-local symbol of a library, 8 bytes after the start of the data, with slots for its offset, its module and its
/// descriptor: five words.
const THREAD_SLOTS: &str =
    r#"{"kind":"shared","symbols":[{"flags":["NON_INTERPOSABLE","GOT_TLS_OFFSET","GOT_TLS_MODULE","GOT_TLS_DESCRIPTOR"],"resolution":{"raw_value":12296,"got":16384}}],"groups":[{}]}"#;

const TOO_SMALL: Fault = Fault::InsufficientAllocation {
    part: 5,
    group: 0,
    given: 32,
    needed: 40,
};

const TOO_LARGE: Fault = Fault::ExcessiveAllocation {
    part: 5,
    group: 0,
    given: 48,
    needed: 40,
};

/// A thread-local symbol with a slot for its offset, and data of 16 bytes from 0x403000 on.
const OFFSET: &str =
    r#"{"kind":"static","tls":{"start":4206592,"end":4206608,"align":16},"parts":[{"role":"got","size":8}],"symbols":[{"flags":["NON_INTERPOSABLE","GOT_TLS_OFFSET"],"resolution":{"got":16384}}],"groups":[{"part_sizes":[8]}]}"#;

/// `endbr64`, `bnd jmp *0x402028(%rip)`, `nopl 0(%rax,%rax,1)` at 0x400140 (x86-64 psABI, "Procedure Linkage Table").
const STUB: &[u8] = &[
    0xf3, 0x0f, 0x1e, 0xfa, 0xf2, 0xff, 0x25, 0xdd, 0x1e, 0, 0, 0x0f, 0x1f, 0x44, 0, 0,
];

#[rattlefmt::skip]
const ROWS: &[Row] = &[
    // An address at an odd place has an entry, and 0 at the place; at an even place it is packed over the address. Then the tables
    // are full, and refuse a third.
    (MOVED, &[
        (Call::Address(0x3001, 0), true), (Call::Full, false), (Call::Address(0x3010, 0x1040), true), (Call::Full, true),
        (Call::Address(0x3003, 0x5555_5555_5555_5555), false),
    ], [&[], &[], &[], &[0x3001, 8, 0x1040], &[], &[0x3010]], &[]),
    // Even places are packed section by section (gABI, "Relative Relocation Table"). The last is the next section's.
    (PACKED, &[
        (Call::Address(0x3000, 0x1040), true), (Call::Address(0x3010, 0x1040), true), (Call::Address(0x31f8, 0x1040), true),
        (Call::Address(0x3200, 0x1040), true), (Call::EndRun, true), (Call::Address(0x3208, 0x1040), true), (Call::Full, true),
    ], [&[], &[], &[], &[], &[], &[0x3000, 0x8000_0000_0000_0005, 3, 0x3208]], &[]),
    (PACKED, &[
        (Call::Address(0x3000, 0x1040), true), (Call::Address(0x3010, 0x1040), true), (Call::Address(0x31f8, 0x1040), true),
        (Call::Address(0x3200, 0x1040), true), (Call::Relr(0x3208), true), (Call::Full, true),
    ], [&[], &[], &[], &[], &[], &[0x3000, 0x8000_0000_0000_0005, 3, 0x3208]], &[]),
    // Slots from 0x3000 on are packed as a block: a bitmap has 63 places.
    (BLOCK, &[(Call::Slots(0), true), (Call::Bitmap(0), true)], [&[], &[0x1040], &[], &[], &[], &[0, 0, 0]], &[]),
    (BLOCK, &[(Call::Slots(0), true), (Call::Bitmap(0), true), (Call::Bitmap(65), true), (Call::Relr(0x4000), false)],
        [&[], &[0x1040], &[], &[], &[], &[0x3000, u64::MAX, 3]], &[]),
    // What a loader fills is 0; the psABI has the other words. The entry of the resolver's function is IRELATIVE (37), with the
    // resolver's address.
    (SLOTTED, &[
        (Call::Reserved, true), (Call::Slots(0), true), (Call::Slots(1), true), (Call::Slots(2), true), (Call::Full, true),
        (Call::Reserved, false),
    ], [&[0, 1, 16, 0, 0x40_0140, 0x40_013e, 0xffff_ffff_ffff_fff8, 1, 8], &[], &[0x40_2028, 37, 0x40_013c], &[], &[], &[]], STUB),
    // R_X86_64_64 (1) of symbol 2, R_X86_64_IRELATIVE (37), and R_X86_64_COPY (5) of symbol 3.
    (GENERAL, &[
        (Call::Symbol, true), (Call::Resolver, true), (Call::Copy, true), (Call::Full, true), (Call::Copy, false),
    ], [&[], &[], &[], &[], &[
        0x3000, 0x2_0000_0001, 5,
        0x3008, 37, 0x1000,
        0x2000, 0x3_0000_0005, 0,
    ], &[]], &[]),
    (THREAD_SLOTS, &[
        (Call::Size(40, None), true), (Call::Size(32, Some(TOO_SMALL)), true), (Call::Size(48, Some(TOO_LARGE)), true),
    ], [&[], &[], &[], &[], &[], &[]], &[]),
    // Offsets from the thread pointer, which is at the end of the data. An address of 0 has the offset 0; one past the end is refused.
    (OFFSET, &[(Call::Offset(0x40_3010), true)], [&[0], &[], &[], &[], &[], &[]], &[]),
    (OFFSET, &[(Call::Offset(0x40_3008), true)], [&[0xffff_ffff_ffff_fff8], &[], &[], &[], &[], &[]], &[]),
    (OFFSET, &[(Call::Offset(0), true)], [&[0], &[], &[], &[], &[], &[]], &[]),
    (OFFSET, &[(Call::Offset(0x40_3011), false)], [&[0], &[], &[], &[], &[], &[]], &[]),
];

/// Whether these bytes are exactly those words.
fn are_words(bytes: &[u8], words: &[u64]) -> bool {
    if bytes.len() / 8 != words.len() || bytes.len() % 8 != 0 {
        return false;
    }
    for (i, word) in words.iter().enumerate() {
        if read_u64(bytes, 8 * i) != *word {
            return false;
        }
    }
    true
}

/// Puts an address over 0x55s; whether that succeeds, and the word that the place then has.
fn put_address(tables: &mut TableWriter, layout: &Layout, place: u64) -> (bool, u64) {
    let mut site = [0x55; 8];
    let result = tables.write_address_relocation(layout, place, 0x1040, &mut site);
    (result.is_ok(), u64::from_le_bytes(site))
}

/// Puts the slots of a symbol, with the stub.
fn put_slots(tables: &mut TableWriter, layout: &Layout, index: usize) -> Result<bool, Fail> {
    let mut stub = [0; 16];
    put_stub(layout.machine, false, &mut stub, 0x40_2028, 0x40_0140);
    let resolution = resolution_of(layout, index)?;
    let result = tables.process_resolution(layout, &resolution, Ok(stub));
    Ok(result.is_ok())
}

/// Puts the slot of the first symbol at this address.
fn put_offset(tables: &mut TableWriter, layout: &Layout, address: u64) -> Result<bool, Fail> {
    let mut own = resolution_of(layout, 0)?;
    own.raw_value = address;
    match tables.process_resolution(layout, &own, Err(0)) {
        Ok(()) => Ok(true),
        Err(SlotWriteError::Fault(SlotFault::TlsOutOfSegment { value })) if value == address => Ok(
            false,
        ),
        Err(_) => Err("another fault".into()),
    }
}

/// The fault of a size of `got`.
fn fault_of(layout: &Layout, resolution: &Resolution, got: u64) -> Option<Fault> {
    let mut sizes = [0; ROLES];
    sizes[10] = 72;
    sizes[5] = got;
    match verify_resolution_allocation(layout.kind, &sizes, resolution, &layout.options) {
        Ok(()) => None,
        Err(error) => Some(error.fault),
    }
}

/// Whether a call succeeds.
fn succeeds(tables: &mut TableWriter, layout: &Layout, call: &Call) -> Result<bool, Fail> {
    match call {
        Call::Address(place, word) => {
            let (is_put, found) = put_address(tables, layout, *place);
            if found != *word {
                return Err("another word".into());
            }
            Ok(is_put)
        }
        Call::Relr(place) => Ok(tables.write_relr_entry_flat(layout, *place, 0x1040).is_ok()),
        Call::EndRun => {
            tables.reset_relr_run();
            Ok(true)
        }
        Call::Bitmap(count) => Ok(tables.write_got_relr_bitmap(0x3000, *count).is_ok()),
        Call::Reserved => Ok(tables.write_plt_got_entries(layout).is_ok()),
        Call::Slots(index) => put_slots(tables, layout, *index),
        Call::Symbol => {
            let kind = DynamicRelocationKind::Absolute;
            let result = tables.write_dynamic_symbol_relocation(layout, 0x3000, 5, 2, kind);
            Ok(result.is_ok())
        }
        Call::Resolver => {
            let result = tables.write_ifunc_relocation_for_data(layout, 0x3008, 0x1000);
            Ok(result.is_ok())
        }
        Call::Copy => Ok(tables.write_copy_relocation(layout, SymbolIndex(0)).is_ok()),
        Call::Offset(address) => put_offset(tables, layout, *address),
        Call::Size(got, fault) => Ok(fault_of(layout, &resolution_of(layout, 0)?, *got) == *fault),
        Call::Full => Ok(tables.validate_empty(layout).is_ok()),
    }
}

/// Whether the calls end as a row of the table says, and leave the tables as it says.
fn are_filled(alloc: Global, layout: &Layout, row: &Row) -> Result<bool, Fail> {
    let (_, calls, words, stubs) = row;
    if layout.groups.len() == 0 {
        return Err("no group".into());
    }
    let mut tables = TableWriter::new(alloc, layout, 0)?;
    for (call, wanted) in *calls {
        if succeeds(&mut tables, layout, call)? != *wanted {
            return Ok(false);
        }
    }
    let [got, block, plt, relative, general, packed] = words;
    Ok(
        are_words(tables.got_words(), *got)
            && are_words(tables.block_words(), *block)
            && are_words(tables.plt_entries(), *plt)
            && are_words(tables.relative_entries(), *relative)
            && are_words(tables.general_entries(), *general)
            && are_words(tables.relr_words(), *packed)
            && tables.stubs() == *stubs,
    )
}

#[test]
fn tables_by_calls_of_their_writer(rt: HostRuntime) -> Result<(), Fail> {
    for (number, row) in ROWS.iter().enumerate() {
        let layout = layout_of(rt.alloc(), row.0)?;
        assert!(rt; are_filled(rt.alloc(), &layout, row)?, "row {number}");
    }
    Ok(())
}

/// Without a writer: the numbers of packed words of the first four places of `PACKED` and of a block of three slots, and the entry of a
/// place that moves.
#[test]
fn words_without_a_writer(rt: HostRuntime) -> Result<(), Fail> {
    assert!(rt; count_words(&[0x3000, 0x3010, 0x31f8, 0x3200]) == 3);
    assert!(rt; block_words(0x3000, 3) == 2);
    let layout = layout_of(rt.alloc(), MOVED)?;
    let mut bytes = [0; Rela::SIZE];
    relative_entry(&layout, 0x3001, 0x1040).put(&mut bytes);
    assert!(rt; are_words(&bytes, &[0x3001, 8, 0x1040]));
    Ok(())
}

/// The entries of `.dynamic` that GNU ld 2.40 wrote, but for `DT_HASH`, of the file that gcc 12.2 made by
/// `-static-pie -fPIE -nostdlib -O1 -Wl,--hash-style=sysv,-z,now,--build-id=none` of
///
/// ```c
/// static int value = 7;
/// int *here = &value;
/// void _start(void) { for (;;) {} }
/// ```
///
/// They are in the order of `DynamicTag`, which differs from ld's. There is room for one more at the end.
#[rattlefmt::skip]
const ENTRIES_OF_LD: [u64; 26] = [
    0x5, 0x228, 0xa, 1, 0x6, 0x210, 0xb, 24,
    0x7, 0x230, 0x8, 24, 0x9, 24, 0x6fff_fff9, 1,
    0x15, 0, 0x1e, 0x8, 0x6fff_fffb, 0x0800_0001, 0, 0,
    0, 0,
];

/// The parts of ld's file that its dynamic section names.
const PLAN_OF_LD: &str =
    r#"{"kind":"static_pie","page_size":4096,"parts":[{"role":"dynsym","address":528,"size":24,"align":8},{"role":"dynstr","address":552,"size":1},{"role":"rela_dyn_relative","address":560,"size":24,"align":8}],"groups":[{}]}"#;

#[test]
fn dynamic_section_of_ld(rt: HostRuntime) -> Result<(), Fail> {
    let layout = layout_of(rt.alloc(), PLAN_OF_LD)?;
    let mut section = [1; 208];
    if dynamic_count(&layout) > 13 {
        return Err("too many entries".into());
    }
    write_dynamic(&layout, &mut section);
    assert!(rt; are_words(&section, &ENTRIES_OF_LD));
    Ok(())
}
