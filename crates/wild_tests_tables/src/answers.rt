//! Printed answers, for images and for layouts that are refused.
use crate::layouts::layout_of;
use std::test::*;
use wild_plan::{At, EntryWarning, Error, Fault, Missing, SymbolIndex};
use wild_text::{PlanFault, image_answer, refusal_answer};

const NAMES: &str = r#"{"symbols":[{"name":"5f7374617274"},{"name":"ff"}]}"#;

/// The text of an image of 33 bytes, with these warnings, and counts of four sections.
const IMAGE: &str = "image 33
warning cannot find entry symbol `_start`, defaulting to 0x4000b0
warning cannot find entry symbol `ff` and .text is empty, not setting entry point
count 1 3
count 3 1
a5a5a5a5a5a5a5a5a5a5a5a5a5a5a5a5a5a5a5a5a5a5a5a5a5a5a5a5a5a5a5a5
a5
";

#[test]
fn an_image(rt: HostRuntime) -> Result<(), Fail> {
    let layout = layout_of(rt.alloc(), NAMES)?;
    let warnings = [
        EntryWarning::Defaulted {
            symbol: SymbolIndex(0),
            address: 0x40_00b0,
        },
        EntryWarning::EmptyText {
            symbol: SymbolIndex(1),
        },
    ];
    let text = image_answer(rt.alloc(), &layout, &[0xa5; 33], &warnings, &[0, 3, 0, 1])?;
    assert!(rt; text.as_slice() == IMAGE.as_bytes());
    Ok(())
}

/// In a group.
const GROUP: At = At {
    group: Some(0),
    ..At::NO_PLACE
};

/// In a section of a file of that number.
const FIRST: At = At {
    file: Some(1),
    section: Some(1),
    ..GROUP
};

const SECOND: At = At {
    file: Some(2),
    section: Some(2),
    ..GROUP
};

/// A fault, where it is, and the line.
const REFUSALS: &[(Fault, At, &str)] = &[
    (
        Fault::MalformedLayout {
            clause: 2,
            index: 0,
        },
        At::NO_PLACE,
        "refused MalformedLayout clause=2 index=0\n",
    ),
    (
        Fault::InsufficientAllocation {
            part: 3,
            group: 0,
            given: 8,
            needed: 16,
        },
        At::NO_PLACE,
        "refused InsufficientAllocation part=3 group=0 given=8 needed=16\n",
    ),
    (
        Fault::ExcessiveAllocation {
            part: 3,
            group: 1,
            given: 16,
            needed: 8,
        },
        At::NO_PLACE,
        "refused ExcessiveAllocation part=3 group=1 given=16 needed=8\n",
    ),
    (
        Fault::UnsupportedRelocation { number: 99 },
        At {
            offset: Some(4),
            ..FIRST
        },
        "refused UnsupportedRelocation number=99 at group=0 file=1 section=1 offset=4\n",
    ),
    (
        Fault::RecompileWithPic { number: 10 },
        At {
            offset: Some(26),
            ..SECOND
        },
        "refused RecompileWithPic number=10 at group=0 file=2 section=2 offset=26\n",
    ),
    (
        Fault::MissingResolution {
            what: Missing::Address,
            symbol: 7,
        },
        GROUP,
        "refused MissingResolution what=address symbol=7 at group=0\n",
    ),
    (
        Fault::MissingResolution {
            what: Missing::DynamicSymbol,
            symbol: 7,
        },
        At::NO_PLACE,
        "refused MissingResolution what=dynsym symbol=7\n",
    ),
    (
        Fault::MissingResolution {
            what: Missing::Slot,
            symbol: 0,
        },
        At {
            offset: Some(3),
            ..GROUP
        },
        "refused MissingResolution what=slot symbol=0 at group=0 offset=3\n",
    ),
    (
        Fault::MissingResolution {
            what: Missing::Stub,
            symbol: 2,
        },
        At::NO_PLACE,
        "refused MissingResolution what=stub symbol=2\n",
    ),
    (
        Fault::UnknownSequence { number: 19 },
        At {
            offset: Some(4),
            ..FIRST
        },
        "refused UnknownSequence number=19 at group=0 file=1 section=1 offset=4\n",
    ),
    (
        Fault::PltTooFar {
            value: u64::MAX - (1 << 31),
        },
        FIRST,
        "refused PltTooFar value=-2147483649 at group=0 file=1 section=1\n",
    ),
    (
        Fault::TlsOutOfSegment { value: u64::MAX },
        At::NO_PLACE,
        "refused TlsOutOfSegment value=18446744073709551615\n",
    ),
    (
        Fault::StaticTlsDesc { symbol: 3 },
        At::NO_PLACE,
        "refused StaticTlsDesc symbol=3\n",
    ),
    (
        Fault::OutOfRange {
            value: u64::MAX - 4,
        },
        At {
            offset: Some(9),
            ..GROUP
        },
        "refused OutOfRange value=-5 at group=0 offset=9\n",
    ),
    (
        Fault::OverlappingSites { byte: 4 },
        SECOND,
        "refused OverlappingSites byte=4 at group=0 file=2 section=2\n",
    ),
];

#[test]
fn refusals(rt: HostRuntime) -> Result<(), Fail> {
    for (fault, at, line) in REFUSALS {
        let error = Error {
            fault: *fault,
            at: *at,
        };
        let text = refusal_answer(rt.alloc(), error)?;
        assert!(rt; text.as_str() == *line, "{line}");
    }
    Ok(())
}

#[test]
fn plan_faults(rt: HostRuntime) -> Result<(), Fail> {
    let fault = PlanFault::At(String::from_str(rt.alloc(), "/kind")?);
    let refused = PlanFault::OutOfMemory;
    let text = format!(in rt.alloc(); "{fault}, {refused}")?;
    assert!(rt; text.as_str() == "not a plan: /kind, out of memory");
    Ok(())
}
