//! Tables of entries, applied and refused.

use crate::loader::load;
use std::alloc::Global;
use std::test::Fail;
use wild_loader::{LoadFault, Memory};
use wild_records::abi::dynamic::{DT_JMPREL, DT_PLTRELSZ, DT_RELA, DT_RELASZ, DT_RELR, DT_RELRSZ};
use wild_records::abi::header::{ELFCLASS64, ELFDATA2LSB, ELFMAG, EM_AARCH64, EM_X86_64, ET_DYN};
use wild_records::abi::relocation::{
    R_AARCH64_GLOB_DAT, R_AARCH64_JUMP_SLOT, R_AARCH64_RELATIVE, R_AARCH64_TLSDESC, R_X86_64_64,
    R_X86_64_COPY, R_X86_64_DTPMOD64, R_X86_64_DTPOFF64, R_X86_64_GLOB_DAT, R_X86_64_IRELATIVE,
    R_X86_64_JUMP_SLOT, R_X86_64_NONE, R_X86_64_RELATIVE, R_X86_64_SIZE32, R_X86_64_SIZE64,
    R_X86_64_TLSDESC, R_X86_64_TPOFF64,
};
use wild_records::abi::segment::{PT_DYNAMIC, PT_LOAD};
use wild_records::{DynamicEntry, FileHeader, ProgramHeader, Rela, Relr};

/// The headers of an image that is loaded from address 0 on, with more bytes in memory than in the file. Its dynamic
/// section is at 0xb0.
fn append_headers(image: &mut Vec<u8>, machine: u16) -> Result<(), Fail> {
    let header = FileHeader {
        magic: ELFMAG,
        class: ELFCLASS64,
        encoding: ELFDATA2LSB,
        ident_version: 1,
        os_abi: 0,
        abi_version: 0,
        file_type: ET_DYN,
        machine,
        version: 1,
        entry: 0,
        program_offset: 64,
        section_offset: 0,
        flags: 0,
        header_size: 64,
        program_entry_size: 56,
        program_count: 2,
        section_entry_size: 64,
        section_count: 0,
        name_table: 0,
    };
    let mut slot = [0; 64];
    header.put(&mut slot);
    image.extend_from_slice(&slot)?;
    for (kind, place, file_size, mem_size) in [
        (PT_LOAD, 0, 0x500, 0x600),
        (PT_DYNAMIC, 0xb0, 0x90, 0x90),
    ] {
        let segment = ProgramHeader {
            kind,
            flags: 6,
            offset: place,
            address: place,
            physical: place,
            file_size,
            mem_size,
            align: 8,
        };
        let mut slot = [0; 56];
        segment.put(&mut slot);
        image.extend_from_slice(&slot)?;
    }
    Ok(())
}

/// Entries of a dynamic section.
fn append_tags(image: &mut Vec<u8>, tags: &[(u64, u64)]) -> Result<(), Fail> {
    for (tag, value) in tags {
        let mut slot = [0; 16];
        let entry = DynamicEntry {
            tag: *tag,
            value: *value,
        };
        entry.put(&mut slot);
        image.extend_from_slice(&slot)?;
    }
    Ok(())
}

fn append_words(image: &mut Vec<u8>, words: &[u64]) -> Result<(), Fail> {
    for word in words {
        let mut slot = [0; 8];
        Relr { entry: *word }.put(&mut slot);
        image.extend_from_slice(&slot)?;
    }
    Ok(())
}

/// The place of an entry, its number, its symbol, and its addend.
type Entry = (u64, u32, u32, i64);

fn append_entries(image: &mut Vec<u8>, entries: &[Entry]) -> Result<(), Fail> {
    for (offset, number, symbol, addend) in entries {
        let mut slot = [0; 24];
        let entry = Rela {
            offset: *offset,
            number: *number,
            symbol: *symbol,
            addend: *addend,
        };
        entry.put(&mut slot);
        image.extend_from_slice(&slot)?;
    }
    Ok(())
}

/// The 8-byte numbers from 0 to 31.
fn append_numbers(image: &mut Vec<u8>) -> Result<(), Fail> {
    for number in 0..32u8 {
        image.extend_from_slice(&[number, 0, 0, 0, 0, 0, 0, 0])?;
    }
    Ok(())
}

/// Puts such an image there: words of packed relative relocations at 0x140, entries with addends at 0x180, and numbers from
/// 0x400 on.
fn put_image(
    image: &mut Vec<u8>,
    machine: u16,
    tags: &[(u64, u64)],
    words: &[u64],
    entries: &[Entry],
) -> Result<(), Fail> {
    append_headers(image, machine)?;
    append_tags(image, tags)?;
    image.resize(0x140, 0)?;
    append_words(image, words)?;
    image.resize(0x180, 0)?;
    append_entries(image, entries)?;
    image.resize(0x400, 0)?;
    append_numbers(image)
}

/// The tags of both tables; their sizes are those of two words and of three entries.
const BOTH: &[(u64, u64)] = &[
    (DT_RELR, 0x140),
    (DT_RELRSZ, 16),
    (DT_RELA, 0x180),
    (DT_RELASZ, 72),
];

/// What such an image is at base 0x10000.
fn load_tables(
    alloc: Global,
    machine: u16,
    tags: &[(u64, u64)],
    words: &[u64],
    entries: &[Entry],
) -> Result<Result<Memory, LoadFault>, Fail> {
    let mut image = Vec::new(alloc);
    put_image(&mut image, machine, tags, words, entries)?;
    load(alloc, image.as_slice(), 0x10000)
}

/// Its memory, if it is loaded.
fn memory_of(
    alloc: Global,
    machine: u16,
    tags: &[(u64, u64)],
    words: &[u64],
    entries: &[Entry],
) -> Result<Memory, Fail> {
    let loaded = load_tables(alloc, machine, tags, words, entries)?;
    Ok(loaded.ok().ok_or("refused")?)
}

/// Entries of relative relocations.
const RELATIVE: &[Entry] = &[
    (0x440, R_X86_64_RELATIVE, 0, 0x123),
    (0x448, R_X86_64_RELATIVE, 0, -1),
    (0x450, R_X86_64_RELATIVE, 0, 0),
];

/// Words of an image with these entries and, packed, the place 0x400, and bits 1 and 3 of a bitmap from 0x408 on.
const MOVED: &[(u64, Option<u64>)] = &[
    (0x10400, Some(0x10000)),
    (0x10408, Some(0x10001)),
    (0x10410, Some(2)),
    (0x10418, Some(0x10003)),
    (0x10420, Some(4)),
    (0x10440, Some(0x10123)),
    (0x10448, Some(0xffff)),
    (0x10450, Some(0x10000)),
    (0x10458, Some(11)),
    (0x10500, Some(0)),
    (0x105f8, Some(0)),
    (0x105f9, None),
];

#[test]
fn packed_and_relative(rt: HostRuntime) -> Result<(), Fail> {
    let memory = memory_of(rt.alloc(), EM_X86_64, BOTH, &[0x400, 0b1011], RELATIVE)?;
    for (address, word) in MOVED {
        assert!(rt; memory.word(*address) == *word, "at {address}");
    }
    Ok(())
}

/// A table of size 0 is absent, whatever its address is. The first of several tags of one kind counts.
const EMPTY: &[(u64, u64)] = &[
    (DT_RELR, 0x9999),
    (DT_RELRSZ, 0),
    (DT_JMPREL, 0u64.wrapping_sub(8)),
    (DT_PLTRELSZ, 0),
    (DT_RELA, 0x180),
    (DT_RELASZ, 24),
    (DT_RELASZ, 0x9999),
    (DT_RELA, 0x9999),
];

#[test]
fn empty_tables(rt: HostRuntime) -> Result<(), Fail> {
    let entries = &[(0x400, R_X86_64_RELATIVE, 0, 5)];
    let memory = memory_of(rt.alloc(), EM_X86_64, EMPTY, &[], entries)?;
    assert!(rt; memory.word(0x10400) == Some(0x10005) && memory.word(0x10408) == Some(1));
    Ok(())
}

/// The tags of a table of three entries.
const ENTRIES: &[(u64, u64)] = &[(DT_RELA, 0x180), (DT_RELASZ, 72)];

/// Three entries, and the words from 0x400 on.
const APPLIED: &[(u16, &[Entry], [u64; 3])] = &[
    (
        EM_X86_64,
        &[
            (0x400, R_X86_64_64, 1, 5),
            (0x408, R_X86_64_GLOB_DAT, 1, 5),
            (0x410, R_X86_64_JUMP_SLOT, 1, 5),
        ],
        [0x7005, 0x7000, 0x7000],
    ),
    (
        EM_X86_64,
        &[
            (0x400, R_X86_64_IRELATIVE, 0, 0x20),
            (0x408, R_X86_64_DTPMOD64, 1, 0),
            (0x410, R_X86_64_DTPMOD64, 0, 0),
        ],
        [0x9999, 2, 1],
    ),
    (
        EM_X86_64,
        &[
            (0x400, R_X86_64_DTPOFF64, 1, 2),
            (0x408, R_X86_64_TPOFF64, 1, 2),
            (0x410, R_X86_64_TPOFF64, 0, 2),
        ],
        [0x32, 0xffff_ffff_ffff_fff2, 0xffff_ffff_ffff_ff82],
    ),
    (
        EM_X86_64,
        &[
            (0x404, R_X86_64_SIZE32, 1, 1),
            (0x408, R_X86_64_SIZE64, 1, 1),
            (0x411, R_X86_64_COPY, 1, 0),
        ],
        [0x4_0000_0000, 4, 0x6362_6102],
    ),
    // Two with addends, and a descriptor.
    (
        EM_AARCH64,
        &[
            (0x400, R_AARCH64_GLOB_DAT, 1, 5),
            (0x408, R_AARCH64_JUMP_SLOT, 1, 6),
            (0x410, R_AARCH64_TLSDESC, 1, 2),
        ],
        [0x7005, 0x7006, 2],
    ),
];

/// Whether memory has these words from 0x10400 on.
fn has_words(memory: &Memory, words: &[u64; 3]) -> bool {
    memory.word(0x10400) == Some(words[0])
        && memory.word(0x10408) == Some(words[1])
        && memory.word(0x10410) == Some(words[2])
}

#[test]
fn applied_entries(rt: HostRuntime) -> Result<(), Fail> {
    for (machine, entries, words) in APPLIED {
        let memory = memory_of(rt.alloc(), *machine, ENTRIES, &[], entries)?;
        assert!(rt; has_words(&memory, words), "{entries:?}");
        let descriptor = (*machine == EM_AARCH64).then_some(0xffff_ffff_ffff_fff2);
        assert!(rt; memory.descriptor_at(0x10410) == descriptor);
        assert!(rt; memory.descriptor_at(0x10418).is_none());
    }
    Ok(())
}

/// The last of three entries.
const LAST: Entry = (0x410, R_X86_64_RELATIVE, 0, 0);

/// Three entries, and why they are not applied.
const REFUSED: &[(&[Entry], LoadFault)] = &[
    (
        &[(0x400, R_X86_64_NONE, 0, 0), LAST, LAST],
        LoadFault::UnknownDynamic {
            number: R_X86_64_NONE,
        },
    ),
    (
        &[(0x400, R_AARCH64_RELATIVE, 0, 0), LAST, LAST],
        LoadFault::UnknownDynamic {
            number: R_AARCH64_RELATIVE,
        },
    ),
    (
        &[(0x400, R_X86_64_GLOB_DAT, 2, 0), LAST, LAST],
        LoadFault::UnknownSymbol { index: 2 },
    ),
    (
        &[(0x400, R_X86_64_IRELATIVE, 0, 0), LAST, LAST],
        LoadFault::NoAnswer { value: 0x10000 },
    ),
    (
        &[(0x5f9, R_X86_64_RELATIVE, 0, 0), LAST, LAST],
        LoadFault::Unloaded { address: 0x10600 },
    ),
    (
        &[
            (0x5f8, R_X86_64_RELATIVE, 0, 0),
            (0x409, R_X86_64_RELATIVE, 0, 0),
            LAST,
        ],
        LoadFault::Overlap { address: 0x10410 },
    ),
    // A descriptor takes 16 bytes.
    (
        &[
            (0x401, R_X86_64_TLSDESC, 0, 0),
            (0x418, R_X86_64_RELATIVE, 0, 0),
            LAST,
        ],
        LoadFault::Overlap { address: 0x10410 },
    ),
];

#[test]
fn refused_entries(rt: HostRuntime) -> Result<(), Fail> {
    for (entries, fault) in REFUSED {
        let found = load_tables(rt.alloc(), EM_X86_64, ENTRIES, &[], entries)?.err();
        assert!(rt; found == Some(*fault), "{entries:?}");
    }
    Ok(())
}

/// Tags of tables, and why these are not read or not applied.
const REFUSED_TABLES: &[(&[(u64, u64)], LoadFault)] = &[
    (&[(DT_RELA, 0x180)], LoadFault::NoTable { tag: DT_RELA }),
    (
        &[(DT_PLTRELSZ, 24)],
        LoadFault::NoTable { tag: DT_PLTRELSZ },
    ),
    // The tag of the size is after the end of the entries.
    (
        &[(DT_RELR, 0x140), (0, 0), (DT_RELRSZ, 8)],
        LoadFault::NoTable { tag: DT_RELR },
    ),
    (
        &[(DT_RELR, 0x4f9), (DT_RELRSZ, 8)],
        LoadFault::Cut { offset: 0x4f9 },
    ),
    (
        &[(DT_RELR, 0x600), (DT_RELRSZ, 8)],
        LoadFault::Cut { offset: 0x600 },
    ),
    // A place of RELR is a place of RELA.
    (BOTH, LoadFault::Overlap { address: 0x10404 }),
];

#[test]
fn refused_tables(rt: HostRuntime) -> Result<(), Fail> {
    let entries = &[
        (0x404, R_X86_64_RELATIVE, 0, 0),
        (0x418, R_X86_64_RELATIVE, 0, 0),
        (0x420, R_X86_64_RELATIVE, 0, 0),
    ];
    for (tags, fault) in REFUSED_TABLES {
        let found = load_tables(rt.alloc(), EM_X86_64, tags, &[0x400, 1], entries)?.err();
        assert!(rt; found == Some(*fault), "{tags:?}");
    }
    Ok(())
}
