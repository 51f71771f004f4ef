//! Records of files that gcc 12 and GNU ld 2.40 wrote, with the fields that readelf prints of them.

use wild_records::abi::dynamic::DT_GNU_HASH;
use wild_records::abi::frame::{
    DW_EH_PE_DATAREL, DW_EH_PE_PCREL, DW_EH_PE_SDATA4, DW_EH_PE_UDATA4, EH_FRAME_HDR_VERSION,
};
use wild_records::abi::header::{
    ELFCLASS64, ELFDATA2LSB, ELFMAG, ELFOSABI_NONE, EM_X86_64, ET_DYN, EV_CURRENT,
};
use wild_records::abi::note::NT_GNU_BUILD_ID;
use wild_records::abi::section::{SHF_ALLOC, SHF_INFO_LINK, SHN_ABS, SHT_RELA};
use wild_records::abi::segment::{PF_R, PF_W, PT_LOAD};
use wild_records::abi::symbol::{STB_GLOBAL, STT_FUNC, STV_DEFAULT};
use wild_records::abi::version::{VER_DEF_CURRENT, VER_NEED_CURRENT};
use wild_records::{
    DynamicEntry, EhFrameHdr, EhFrameHdrEntry, FileHeader, GnuHashHeader, NoteHeader,
    ProgramHeader, RawSection, Rela, Relr, SectionHeader, SymbolSection, SymtabEntry, Verdaux,
    Verdef, Vernaux, Verneed, Versym,
};

// Whether the record is written as the bytes, and so is the one that is read from them.
macro_rules! stands_as {
    ($kind:ident, $record:expr, $bytes:expr) => {{
        let mut out = [0xff; $kind::SIZE];
        $record.put(&mut out);
        let mut again = [0xff; $kind::SIZE];
        if let Some(read) = $kind::get($bytes) {
            read.put(&mut again);
        }
        out.as_slice() == $bytes && again.as_slice() == $bytes
    }};
}

fn file_header(record: &FileHeader, bytes: &[u8]) -> bool {
    stands_as!(FileHeader, record, bytes)
}

fn program_header(record: &ProgramHeader, bytes: &[u8]) -> bool {
    stands_as!(ProgramHeader, record, bytes)
}

fn section_header(record: &SectionHeader, bytes: &[u8]) -> bool {
    stands_as!(SectionHeader, record, bytes)
}

fn symtab_entry(record: &SymtabEntry, bytes: &[u8]) -> bool {
    stands_as!(SymtabEntry, record, bytes)
}

fn rela(record: &Rela, bytes: &[u8]) -> bool {
    stands_as!(Rela, record, bytes)
}

fn relr(record: &Relr, bytes: &[u8]) -> bool {
    stands_as!(Relr, record, bytes)
}

fn dynamic_entry(record: &DynamicEntry, bytes: &[u8]) -> bool {
    stands_as!(DynamicEntry, record, bytes)
}

fn verdef(record: &Verdef, bytes: &[u8]) -> bool {
    stands_as!(Verdef, record, bytes)
}

fn verdaux(record: &Verdaux, bytes: &[u8]) -> bool {
    stands_as!(Verdaux, record, bytes)
}

fn verneed(record: &Verneed, bytes: &[u8]) -> bool {
    stands_as!(Verneed, record, bytes)
}

fn vernaux(record: &Vernaux, bytes: &[u8]) -> bool {
    stands_as!(Vernaux, record, bytes)
}

fn versym(record: &Versym, bytes: &[u8]) -> bool {
    stands_as!(Versym, record, bytes)
}

fn note_header(record: &NoteHeader, bytes: &[u8]) -> bool {
    stands_as!(NoteHeader, record, bytes)
}

fn gnu_hash_header(record: &GnuHashHeader, bytes: &[u8]) -> bool {
    stands_as!(GnuHashHeader, record, bytes)
}

fn eh_frame_hdr(record: &EhFrameHdr, bytes: &[u8]) -> bool {
    stands_as!(EhFrameHdr, record, bytes)
}

fn eh_frame_hdr_entry(record: &EhFrameHdrEntry, bytes: &[u8]) -> bool {
    stands_as!(EhFrameHdrEntry, record, bytes)
}

#[rattlefmt::skip]
#[test]
fn headers(rt: HostRuntime) {
    assert!(rt; file_header(&FileHeader {
        magic: ELFMAG,
        class: ELFCLASS64,
        encoding: ELFDATA2LSB,
        ident_version: EV_CURRENT,
        os_abi: ELFOSABI_NONE,
        abi_version: 0,
        file_type: ET_DYN,
        machine: EM_X86_64,
        version: u32::from(EV_CURRENT),
        entry: 0,
        program_offset: FileHeader::SIZE as u64,
        section_offset: 13936,
        flags: 0,
        header_size: FileHeader::SIZE as u16,
        program_entry_size: ProgramHeader::SIZE as u16,
        program_count: 10,
        section_entry_size: SectionHeader::SIZE as u16,
        section_count: 32,
        name_table: 31,
    }, &[
        0x7f, 0x45, 0x4c, 0x46, 0x02, 0x01, 0x01, 0x00, 0x00, 0x00, 0x00, 0x00, 0x00, 0x00, 0x00, 0x00,
        0x03, 0x00, 0x3e, 0x00, 0x01, 0x00, 0x00, 0x00, 0x00, 0x00, 0x00, 0x00, 0x00, 0x00, 0x00, 0x00,
        0x40, 0x00, 0x00, 0x00, 0x00, 0x00, 0x00, 0x00, 0x70, 0x36, 0x00, 0x00, 0x00, 0x00, 0x00, 0x00,
        0x00, 0x00, 0x00, 0x00, 0x40, 0x00, 0x38, 0x00, 0x0a, 0x00, 0x40, 0x00, 0x20, 0x00, 0x1f, 0x00,
    ]), "FileHeader");
    assert!(rt; program_header(&ProgramHeader {
        kind: PT_LOAD,
        flags: PF_R | PF_W,
        offset: 0x2d64,
        address: 0x3d64,
        physical: 0x3d64,
        file_size: 0x2d4,
        mem_size: 0x2dc,
        align: 0x1000,
    }, &[
        0x01, 0x00, 0x00, 0x00, 0x06, 0x00, 0x00, 0x00, 0x64, 0x2d, 0x00, 0x00, 0x00, 0x00, 0x00, 0x00,
        0x64, 0x3d, 0x00, 0x00, 0x00, 0x00, 0x00, 0x00, 0x64, 0x3d, 0x00, 0x00, 0x00, 0x00, 0x00, 0x00,
        0xd4, 0x02, 0x00, 0x00, 0x00, 0x00, 0x00, 0x00, 0xdc, 0x02, 0x00, 0x00, 0x00, 0x00, 0x00, 0x00,
        0x00, 0x10, 0x00, 0x00, 0x00, 0x00, 0x00, 0x00,
    ]), "ProgramHeader");
    assert!(rt; section_header(&SectionHeader {
        name: 125,
        kind: SHT_RELA,
        flags: SHF_ALLOC | SHF_INFO_LINK,
        address: 0x6c0,
        offset: 0x6c0,
        size: 0x60,
        link: 4,
        info: 25,
        align: 8,
        entry_size: Rela::SIZE as u64,
    }, &[
        0x7d, 0x00, 0x00, 0x00, 0x04, 0x00, 0x00, 0x00, 0x42, 0x00, 0x00, 0x00, 0x00, 0x00, 0x00, 0x00,
        0xc0, 0x06, 0x00, 0x00, 0x00, 0x00, 0x00, 0x00, 0xc0, 0x06, 0x00, 0x00, 0x00, 0x00, 0x00, 0x00,
        0x60, 0x00, 0x00, 0x00, 0x00, 0x00, 0x00, 0x00, 0x04, 0x00, 0x00, 0x00, 0x19, 0x00, 0x00, 0x00,
        0x08, 0x00, 0x00, 0x00, 0x00, 0x00, 0x00, 0x00, 0x18, 0x00, 0x00, 0x00, 0x00, 0x00, 0x00, 0x00,
    ]), "SectionHeader");
}

#[rattlefmt::skip]
#[test]
fn symbols_and_relocations(rt: HostRuntime) {
    assert!(rt; symtab_entry(&SymtabEntry {
        name: 108,
        info: STB_GLOBAL << 4 | STT_FUNC,
        other: STV_DEFAULT,
        section: 15,
        value: 0x1139,
        size: 49,
    }, &[
        0x6c, 0x00, 0x00, 0x00, 0x12, 0x00, 0x0f, 0x00, 0x39, 0x11, 0x00, 0x00, 0x00, 0x00, 0x00, 0x00,
        0x31, 0x00, 0x00, 0x00, 0x00, 0x00, 0x00, 0x00,
    ]), "SymtabEntry");
    assert!(rt; rela(&Rela {
        offset: 0x8,
        number: 19,
        symbol: 8,
        addend: -4,
    }, &[
        0x08, 0x00, 0x00, 0x00, 0x00, 0x00, 0x00, 0x00, 0x13, 0x00, 0x00, 0x00, 0x08, 0x00, 0x00, 0x00,
        0xfc, 0xff, 0xff, 0xff, 0xff, 0xff, 0xff, 0xff,
    ]), "Rela");
    assert!(rt; relr(&Relr { entry: 0x7000001 }, &[
        0x01, 0x00, 0x00, 0x07, 0x00, 0x00, 0x00, 0x00,
    ]), "Relr");
    assert!(rt; dynamic_entry(&DynamicEntry {
        tag: DT_GNU_HASH,
        value: 0x2e8,
    }, &[
        0xf5, 0xfe, 0xff, 0x6f, 0x00, 0x00, 0x00, 0x00, 0xe8, 0x02, 0x00, 0x00, 0x00, 0x00, 0x00, 0x00,
    ]), "DynamicEntry");
}

#[rattlefmt::skip]
#[test]
fn versions(rt: HostRuntime) {
    assert!(rt; verdef(&Verdef {
        version: VER_DEF_CURRENT,
        flags: 0,
        index: 3,
        count: 2,
        hash: 0x592,
        aux: Verdef::SIZE as u32,
        next: 0,
    }, &[
        0x01, 0x00, 0x00, 0x00, 0x03, 0x00, 0x02, 0x00, 0x92, 0x05, 0x00, 0x00, 0x14, 0x00, 0x00, 0x00,
        0x00, 0x00, 0x00, 0x00,
    ]), "Verdef");
    assert!(rt; verdaux(&Verdaux { name: 167, next: 8 }, &[
        0xa7, 0x00, 0x00, 0x00, 0x08, 0x00, 0x00, 0x00,
    ]), "Verdaux");
    assert!(rt; verneed(&Verneed {
        version: VER_NEED_CURRENT,
        count: 1,
        file: 135,
        aux: Verneed::SIZE as u32,
        next: 32,
    }, &[
        0x01, 0x00, 0x01, 0x00, 0x87, 0x00, 0x00, 0x00, 0x10, 0x00, 0x00, 0x00, 0x20, 0x00, 0x00, 0x00,
    ]), "Verneed");
    assert!(rt; vernaux(&Vernaux {
        hash: 0xd696913,
        flags: 0,
        index: 5,
        name: 170,
        next: 0,
    }, &[
        0x13, 0x69, 0x69, 0x0d, 0x00, 0x00, 0x05, 0x00, 0xaa, 0x00, 0x00, 0x00, 0x00, 0x00, 0x00, 0x00,
    ]), "Vernaux");
    assert!(rt; versym(&Versym { version: 5 }, &[
        0x05, 0x00,
    ]), "Versym");
}

#[rattlefmt::skip]
#[test]
fn notes_hashes_and_frames(rt: HostRuntime) {
    assert!(rt; note_header(&NoteHeader {
        name_size: 4,
        descriptor_size: 20,
        kind: NT_GNU_BUILD_ID,
    }, &[
        0x04, 0x00, 0x00, 0x00, 0x14, 0x00, 0x00, 0x00, 0x03, 0x00, 0x00, 0x00,
    ]), "NoteHeader");
    assert!(rt; gnu_hash_header(&GnuHashHeader {
        bucket_count: 3,
        symbol_base: 8,
        bloom_count: 1,
        bloom_shift: 6,
    }, &[
        0x03, 0x00, 0x00, 0x00, 0x08, 0x00, 0x00, 0x00, 0x01, 0x00, 0x00, 0x00, 0x06, 0x00, 0x00, 0x00,
    ]), "GnuHashHeader");
    assert!(rt; eh_frame_hdr(&EhFrameHdr {
        version: EH_FRAME_HDR_VERSION,
        frame_pointer_encoding: DW_EH_PE_PCREL | DW_EH_PE_SDATA4,
        count_encoding: DW_EH_PE_UDATA4,
        table_encoding: DW_EH_PE_DATAREL | DW_EH_PE_SDATA4,
        frame_pointer: 44,
        entry_count: 4,
    }, &[
        0x01, 0x1b, 0x03, 0x3b, 0x2c, 0x00, 0x00, 0x00, 0x04, 0x00, 0x00, 0x00,
    ]), "EhFrameHdr");
    assert!(rt; eh_frame_hdr_entry(&EhFrameHdrEntry {
        frame_ptr: -4072,
        frame_info_ptr: 72,
    }, &[
        0x18, 0xf0, 0xff, 0xff, 0x48, 0x00, 0x00, 0x00,
    ]), "EhFrameHdrEntry");
}

// gABI, "Symbol Table": a table of 16 bits has no room for the indexes from SHN_LORESERVE on.
#[test]
fn sections_of_symbols(rt: HostRuntime) {
    let raw = SymbolSection::from(RawSection(SHN_ABS));
    assert!(rt; matches!(raw, SymbolSection::Raw(SHN_ABS)));
    for (index, want) in [
        (1, (1, 0)),
        (0xfeff, (0xfeff, 0)),
        (0xff00, (0xffff, 0xff00)),
        (0x12345, (0xffff, 0x12345)),
    ] {
        assert_eq!(rt; SymbolSection::split(index), want);
    }
}
