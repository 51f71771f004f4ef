//! Frames that are kept, and their search table: examples worked by hand from the LSB ("The .eh_frame section", "The .eh_frame_hdr
//! section").

use std::alloc::{AllocError, Global};
use std::marker::Sync;
use std::test::Fail;
use std::thread::Threads;
use wild_executor::Threaded;
use wild_frames::{
    BadFrame, Fde, FrameError, FrameSource, TableError, Target, count_frames, write_eh_frame_data,
    write_search_table,
};
use wild_types::{FrameFault, InputRelocation, SymbolIndex};

/// A section whose fields have 4 bytes. Symbol 0 is in a discarded section, and every other symbol in a loaded one.
#[derive(Clone, Copy)]
struct Example<'a> {
    bytes: &'a [u8],
    relocations: &'a [InputRelocation],
}

impl FrameSource for Example<'_> {
    ghost use Rattle.std.specs.Prelude.{◌≡◌};
    ghost use Rattle.wild_tests_low.specs.Examples.{symbol_target};

    ghost frames = { λ e. record { bytes = e.bytes.now; relocations = e.relocations.now; width = λ r. 4; target = λ r. symbol_target r.symbol } };

    fn bytes(&self) -> &[u8] {
        self.bytes
    }

    fn relocations(&self) -> &[InputRelocation] {
        self.relocations
    }

    fn width(&self, _: &InputRelocation) -> usize {
        4
    }

    fn target(&self, relocation: &InputRelocation) -> Target {
        match relocation.symbol {
            None => Target::NoSection,
            Some(symbol) if symbol.0 == 0 => Target::Discarded,
            Some(_) => Target::Loaded,
        }
    }
}

const DISCARDED: u8 = 0;

const LOADED: u8 = 1;

const NO_PLACE: u8 = 2;

const MALFORMED: u8 = 3;

/// The relocations of fields at these offsets.
fn relocations_of(alloc: Global, fields: &[(u64, u8)]) -> Result<Vec<InputRelocation>, AllocError> {
    let mut relocations = Vec::new(alloc);
    for (offset, of) in fields {
        let symbol = match *of {
            DISCARDED => Some(SymbolIndex(0)),
            LOADED => Some(SymbolIndex(1)),
            _ => None,
        };
        relocations.push(InputRelocation {
            offset: *offset,
            number: 2,
            symbol,
            addend: 0,
            malformed: *of == MALFORMED,
        })?;
    }
    Ok(relocations)
}

/// The bytes of a section with such fields that are kept, and how many FDEs are.
fn kept_bytes(
    alloc: Global,
    bytes: &[u8],
    fields: &[(u64, u8)],
) -> Result<(Vec<u8>, u64), FrameError> {
    let relocations = relocations_of(alloc, fields)?;
    let frames = Example {
        bytes,
        relocations: relocations.as_slice(),
    };
    let counts = count_frames(&frames);
    let mut out = vec![in alloc; 0; counts.bytes as usize]?;
    write_eh_frame_data(alloc, &frames, &mut out)?;
    Ok((out, counts.fdes))
}

/// A CIE, three FDEs whose ids lead to it, and a zero length before 4 more bytes.
#[rattlefmt::skip]
const THREE_FDES: [u8; 72] = [
    12, 0, 0, 0, 0x00, 0, 0, 0, 1, 2, 3, 4, 5, 6, 7, 8,
    12, 0, 0, 0, 0x14, 0, 0, 0, 0, 0, 0, 0, 11, 12, 13, 14,
    12, 0, 0, 0, 0x24, 0, 0, 0, 0, 0, 0, 0, 21, 22, 23, 24,
    12, 0, 0, 0, 0x34, 0, 0, 0, 0, 0, 0, 0, 31, 32, 33, 34,
    0, 0, 0, 0, 9, 9, 9, 9,
];

/// Without the second FDE: the third one's id is its distance from the CIE at the new offset.
#[rattlefmt::skip]
const TWO_FDES: [u8; 48] = [
    12, 0, 0, 0, 0x00, 0, 0, 0, 1, 2, 3, 4, 5, 6, 7, 8,
    12, 0, 0, 0, 0x14, 0, 0, 0, 0, 0, 0, 0, 11, 12, 13, 14,
    12, 0, 0, 0, 0x24, 0, 0, 0, 0, 0, 0, 0, 31, 32, 33, 34,
];

/// A CIE of 8 bytes before the last bytes of a section: sections, and how many of their bytes are kept.
const TAILS: [(&[u8], usize); 4] = [
    (&[4, 0, 0, 0, 0, 0, 0, 0, 0, 0, 0, 0], 8),
    (&[4, 0, 0, 0, 0, 0, 0, 0, 0, 0, 0], 11),
    (&[4, 0, 0, 0, 0, 0, 0, 0, 0, 0, 1, 0], 12),
    (&[4, 0, 0, 0, 0, 0, 0, 0, 0, 0, 0, 0, 0], 13),
];

/// Sections and fields that are refused.
const REFUSED: [(&[u8], &[(u64, u8)], FrameFault, u64); 10] = [
    (&[16, 0, 0, 0, 0, 0, 0, 0], &[], FrameFault::Cut, 0),
    (&[3, 0, 0, 0, 0, 0, 0, 0], &[], FrameFault::Short, 0),
    (
        &[0; 24],
        &[(16, LOADED), (8, LOADED)],
        FrameFault::Unsorted,
        8,
    ),
    (
        &[0; 24],
        &[(16, LOADED), (8, MALFORMED)],
        FrameFault::Malformed,
        8,
    ),
    (&THREE_FDES, &[(24, NO_PLACE)], FrameFault::PcBegin, 16),
    (&THREE_FDES, &[(14, LOADED)], FrameFault::Field, 0),
    (
        &THREE_FDES,
        &[(24, LOADED), (30, LOADED)],
        FrameFault::Field,
        16,
    ),
    (&[4, 0, 0, 0, 4, 0, 0, 0], &[], FrameFault::Cie, 0),
    (
        &[4, 0, 0, 0, 0, 0, 0, 0, 4, 0, 0, 0, 8, 0, 0, 0],
        &[],
        FrameFault::Cie,
        8,
    ),
    (
        &[5, 0, 0, 0, 1, 0, 0, 0, 0],
        &[(8, LOADED)],
        FrameFault::Short,
        0,
    ),
];

#[test]
fn kept_frames(rt: HostRuntime) -> Result<(), Fail> {
    let fields = [(24, LOADED), (40, DISCARDED), (56, LOADED)];
    let (bytes, fdes) = kept_bytes(rt.alloc(), &THREE_FDES, &fields)?;
    assert!(rt; bytes.as_slice() == TWO_FDES.as_slice() && fdes == 2);
    for (section, count) in &TAILS {
        let (bytes, _) = kept_bytes(rt.alloc(), *section, &[])?;
        assert!(rt; bytes.len() == *count);
    }
    for (section, fields, why, offset) in &REFUSED {
        let bad = BadFrame {
            why: *why,
            offset: *offset,
        };
        let found = kept_bytes(rt.alloc(), *section, *fields).err();
        assert_eq!(rt; found, Some(FrameError::Bad(bad)));
    }
    Ok(())
}

/// The table at 0x402000 of frames at such an address and of two FDEs, of which the first has its code there.
fn table(
    rt: &(impl Threads + Sync),
    alloc: Global,
    eh_frame: u64,
    code: u64,
) -> Result<Vec<u8>, TableError> {
    let fdes = [
        Fde {
            code,
            address: 0x402040,
        },
        Fde {
            code: 0x401000,
            address: 0x402030,
        },
    ];
    let mut out = vec![in alloc; 0; 28]?;
    write_search_table(&Threaded(rt), alloc, 0x402000, eh_frame, &fdes, &mut out)?;
    Ok(out)
}

/// The table of code at 0x401010 and 0x401000.
#[rattlefmt::skip]
const TABLE: [u8; 28] = [
    0x01, 0x1b, 0x03, 0x3b, 0x1c, 0x00, 0x00, 0x00, 0x02, 0x00, 0x00, 0x00,
    0x00, 0xf0, 0xff, 0xff, 0x30, 0x00, 0x00, 0x00, 0x10, 0xf0, 0xff, 0xff, 0x40, 0x00, 0x00, 0x00,
];

#[test]
fn search_tables(rt: HostRuntime) -> Result<(), Fail> {
    let sorted = table(&rt, rt.alloc(), 0x402020, 0x401010)?;
    assert!(rt; sorted.as_slice() == TABLE.as_slice());
    let far = TableError::FrameOffsetOverflow { value: 0x8000_0000 };
    let of_header = table(&rt, rt.alloc(), 0x8040_2004, 0x401010);
    assert_eq!(rt; of_header.err(), Some(far));
    let of_code = table(&rt, rt.alloc(), 0x402020, 0x8040_2000);
    assert_eq!(rt; of_code.err(), Some(far));
    Ok(())
}
