//! Rewritten sequences of AArch64 words, each word by the row of its own relocation.

use crate::rewrites::{DYNAMIC, FIXED, IFUNC, MOVABLE, OTHERS, OWN};
use std::test::Fail;
use wild_relax::{Reference, RelocationInfo, Row, choose_aarch64};
use wild_types::{OutputKind, ValueFlags};

/// The flags of sections of code.
const CODE: u64 = 6;

/// The relocation types, the symbol's flags and its address, the words' address, the number that the field of each word takes, the words, and
/// what becomes of them, as `as` 2.40 (aarch64-linux-gnu) writes those instructions.
type Words = (
    &'static [u32],
    ValueFlags,
    u64,
    u64,
    &'static [u64],
    &'static [u8],
    &'static [u8],
);

#[rattlefmt::skip]
const WORDS: &[Words] = &[
    // A symbol 24 bytes after the thread pointer: `nop`, `nop`, `movz x0, #0, lsl #16`, `movk x0, #0x18`.
    (&[562, 563, 564, 569], OWN, 0x3_0008, 0x1_0000, &[0, 0, 0x18, 0x18],
        b"\0\0\0\x90\x01\0\x40\xf9\0\0\0\x91\x20\0\x3f\xd6",
        b"\x1f\x20\x03\xd5\x1f\x20\x03\xd5\0\0\xa0\xd2\0\x03\x80\xf2"),
    // One of another module, with its offset in a slot at 0x40010: `adrp x0, 0x40000`, `ldr x0, [x0, #0x10]`.
    (&[562, 563, 564, 569], OTHERS, 0, 0x1_0000, &[0, 0, 0x3_0000, 0x4_0010],
        b"\0\0\0\x90\x01\0\x40\xf9\0\0\0\x91\x20\0\x3f\xd6",
        b"\x1f\x20\x03\xd5\x1f\x20\x03\xd5\x80\x01\0\x90\0\x08\x40\xf9"),
    // `adrp x3`, `ldr x3, [x3]`: `movz x3, #1, lsl #16`, `movk x3, #0x18`; of xzr nothing.
    (&[541, 542], OWN, 0x3_0008, 0x1_0000, &[0x1_0018, 0x1_0018], b"\x03\0\0\x90\x63\0\x40\xf9", b"\x23\0\xa0\xd2\x03\x03\x80\xf2"),
    (&[541, 542], OWN, 0x3_0008, 0x1_0000, &[0x1_0018, 0x1_0018], b"\x1f\0\0\x90\xff\x03\x40\xf9", b"\x1f\0\0\x90\xff\x03\x40\xf9"),
    // `adrp x0`, `add x0, x0`: `nop`, `adr x0, .+0x100`; and as far as `adr` reaches, but no further.
    (&[275, 277], OWN, 0x1_0104, 0x1_0000, &[0, 0x100], b"\0\0\0\x90\0\0\0\x91", b"\x1f\x20\x03\xd5\0\x08\0\x10"),
    (&[275, 277], OWN, 0x11_0003, 0x1_0000, &[0, 0xf_ffff], b"\0\0\0\x90\0\0\0\x91", b"\x1f\x20\x03\xd5\xe0\xff\x7f\x70"),
    (&[275, 277], OWN, 0x11_0004, 0x1_0000, &[0, 0x10_0000], b"\0\0\0\x90\0\0\0\x91", b"\0\0\0\x90\0\0\0\x91"),
];

/// Writes the word of a row, where it lies in the bytes.
fn write_word(row: Row, value: u64, bytes: &mut [u8], start: usize) -> Result<(), Fail> {
    let size = row.pattern_size() as usize;
    if row.keeps_bytes() || !row.fits() || bytes.len() < size || bytes.len() - size < start {
        Err("no word")?;
    }
    row.write_template(value, bytes, start);
    Ok(())
}

#[test]
fn sequences_of_words(rt: HostRuntime) -> Result<(), Fail> {
    for (types, flags, symbol, address, values, input, output) in WORDS {
        let mut relocations = Vec::new(rt.alloc());
        let mut offset = 0u64;
        for number in *types {
            relocations.push(RelocationInfo {
                number: *number,
                offset,
                symbol: Some(0),
                addend: 0,
                names_tls_get_addr: false,
            })?;
            offset = offset.saturating_add(4);
        }
        let mut bytes = input.to_vec(rt.alloc())?;
        let mut at = 0;
        for value in *values {
            let found = choose_aarch64(&Reference {
                relocations: relocations.as_slice(),
                at,
                bytes: *input,
                flags: *flags,
                kind: FIXED,
                section_flags: CODE,
                relax: true,
                value: Some(*symbol),
                address: *address,
            });
            match found {
                Ok(Some(row)) => write_word(row, *value, &mut bytes, at.saturating_mul(4))?,
                Ok(None) => {}
                Err(_) => Err("no sequence")?,
            }
            at = at.saturating_add(1);
        }
        assert!(rt; bytes.as_slice() == *output, "{symbol:x}");
    }
    Ok(())
}

/// A weak symbol that another module may define.
const WEAK: ValueFlags = ValueFlags(ValueFlags::DYNAMIC.0 | ValueFlags::UNDEFINED_WEAK.0);

/// The output, the symbol's flags, the relocation types, the words, and whether a row is chosen for each with rewriting off.
type Mandatory = (OutputKind, ValueFlags, &'static [u32], &'static [u8], bool);

#[rattlefmt::skip]
const MANDATORY: &[Mandatory] = &[
    // A descriptor call: in a static executable.
    (FIXED, OWN, &[562, 563, 564, 569], b"\0\0\0\x90\x01\0\x40\xf9\0\0\0\x91\x20\0\x3f\xd6", true),
    (MOVABLE, OWN, &[562, 563, 564, 569], b"\0\0\0\x90\x01\0\x40\xf9\0\0\0\x91\x20\0\x3f\xd6", true),
    (DYNAMIC, OWN, &[562, 563, 564, 569], b"\0\0\0\x90\x01\0\x40\xf9\0\0\0\x91\x20\0\x3f\xd6", false),
    (DYNAMIC, OTHERS, &[562, 563, 564, 569], b"\0\0\0\x90\x01\0\x40\xf9\0\0\0\x91\x20\0\x3f\xd6", false),
    // The offset in a slot, and a near address: in no output.
    (FIXED, OWN, &[541, 542], b"\x03\0\0\x90\x63\0\x40\xf9", false),
    (FIXED, OWN, &[275, 277], b"\0\0\0\x90\0\0\0\x91", false),
    // Branches: of an IFUNC, and conditional ones of a weak symbol, in every output; of an own symbol in a static executable.
    (DYNAMIC, IFUNC, &[282], b"\0\0\0\x14", true),
    (DYNAMIC, IFUNC, &[283], b"\0\0\0\x94", true),
    (FIXED, OWN, &[282], b"\0\0\0\x14", true),
    (DYNAMIC, OWN, &[282], b"\0\0\0\x14", false),
    (MOVABLE, OWN, &[283], b"\0\0\0\x94", true),
    (DYNAMIC, OWN, &[283], b"\0\0\0\x94", false),
    (DYNAMIC, WEAK, &[279], b"\0\0\0\x36", true),
    (DYNAMIC, WEAK, &[280], b"\0\0\0\x54", true),
    (DYNAMIC, OTHERS, &[280], b"\0\0\0\x54", false),
];

#[test]
fn words_that_are_mandatory(rt: HostRuntime) -> Result<(), Fail> {
    for (kind, flags, types, input, wanted) in MANDATORY {
        let mut relocations = Vec::new(rt.alloc());
        let mut offset = 0u64;
        for number in *types {
            relocations.push(RelocationInfo {
                number: *number,
                offset,
                symbol: Some(0),
                addend: 0,
                names_tls_get_addr: false,
            })?;
            offset = offset.saturating_add(4);
        }
        for at in 0..types.len() {
            let found = choose_aarch64(&Reference {
                relocations: relocations.as_slice(),
                at,
                bytes: *input,
                flags: *flags,
                kind: *kind,
                section_flags: CODE,
                relax: false,
                value: Some(0x1_0040),
                address: 0x1_0000,
            });
            let is_chosen = matches!(found, Ok(Some(_)));
            assert!(rt; is_chosen == *wanted, "{types:?}");
        }
    }
    Ok(())
}
