//! Hashes of names, and names as they are printed.

use std::test::Fail;
use wild_records::{gnu_hash, sysv_hash};
use wild_reloc::{DisplayRelocation, aarch64, x86_64};

/// 300 letters from `a` to `z`, over and over.
const LONG: &[u8; 300] =
    b"abcdefghijklmnopqrstuvwxyzabcdefghijklmnopqrstuvwxyzabcdefghijklmnopqrstuvwxyzabcdefghijklmnopqrstuv\
    wxyzabcdefghijklmnopqrstuvwxyzabcdefghijklmnopqrstuvwxyzabcdefghijklmnopqrstuvwxyzabcdefghijklmnopqr\
    stuvwxyzabcdefghijklmnopqrstuvwxyzabcdefghijklmnopqrstuvwxyzabcdefghijklmnopqrstuvwxyzabcdefghijklmn";

/// A name, its System V hash and its GNU hash. The first five are those of flapenguin.me/elf-dt-hash and
/// flapenguin.me/elf-dt-gnu-hash. The others are what GNU ld 2.40 writes: the hash of a version with the first name and of a base
/// version with the second, and the two names' words in .gnu.hash, whose lowest bit, which marks a chain's end, is from the C of
/// glibc's dl_new_hash.
const HASHES: &[(&[u8], u32, u32)] = &[
    (b"", 0x0000_0000, 0x0000_1505),
    (b"printf", 0x0779_05a6, 0x156b_2bb8),
    (b"exit", 0x0006_cf04, 0x7c96_7e3f),
    (b"syscall", 0x0b09_985c, 0xbac2_12a0),
    (b"flapenguin.me", 0x0398_7915, 0x8ae9_f18e),
    (LONG, 0x037c_664e, 0x082d_e543),
    (b"\xff\xfe\xc3\xa9\x80", 0x010f_ae10, 0x1a94_04ae),
];

#[test]
fn hashes_of_names(rt: HostRuntime) {
    for (name, sysv, gnu) in HASHES {
        assert!(rt;
            sysv_hash(name) == *sysv && gnu_hash(name) == *gnu,
            "{name:?}"
        );
    }
}

// Names as `elf.h` of glibc 2.36 and `readelf` 2.40 have them.
#[test]
fn printed_names(rt: HostRuntime) -> Result<(), Fail> {
    let call = x86_64::rel_type_to_string(4);
    let branch = aarch64::rel_type_to_string(283);
    let unknown = aarch64::rel_type_to_string(99);
    let text = format!(in rt.alloc(); "{call}, {branch}, {unknown}")?;
    assert!(rt; text.as_str() == "R_X86_64_PLT32, R_AARCH64_CALL26, unknown(99)");
    Ok(())
}

#[test]
fn printed_relocations(rt: HostRuntime) -> Result<(), Fail> {
    let name = x86_64::rel_type_to_string(2);
    let symbol = Some("main");
    let of_symbol = DisplayRelocation { name, symbol };
    let of_none = DisplayRelocation { name, symbol: None };
    let text = format!(in rt.alloc(); "{of_symbol}, {of_none}")?;
    let wanted =
        "relocation of type R_X86_64_PC32 to main, relocation of type R_X86_64_PC32 to absolute";
    assert!(rt; text.as_str() == wanted);
    Ok(())
}
