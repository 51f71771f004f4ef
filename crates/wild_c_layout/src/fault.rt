//! Faults.
ghost use Rattle.std.specs.Prelude.{◌≡◌};
ghost use Rattle.wild_c_layout.specs.FaultOf.{place, empty_at, with_number, with_index, with_value, with_addend, with_share, missing_number, frame_number, fault_of};

use crate::values::ABSENT;
use wild_types::{At, Error, Fault, FrameFault, Missing};

/// Why a layout has no image, and where. A member that the fault has not is 0; a place that it has not is `ABSENT`.
#[repr(C)]
#[derive(Clone, Copy)]
pub struct CFault {
    /// Which fault: its number, from 1 on.
    pub fault: u32,
    /// A clause, a relocation type, what is missing, or what is wrong with frames.
    pub number: u32,
    /// The index of an item, a part or a symbol.
    pub index: usize,
    /// The group whose share is wrong.
    pub share_group: usize,
    /// Its share, in bytes.
    pub given: u64,
    /// The bytes that it writes there.
    pub needed: u64,
    /// A value, a distance, or an offset.
    pub value: u64,
    pub addend: i64,
    /// The group of the place.
    pub group: usize,
    /// The file in the group.
    pub file: usize,
    /// The section in the file.
    pub section: usize,
    /// The offset in the section.
    pub offset: u64,
}

/// The index of a place, or `ABSENT`.
fn place(index: Option<usize>) -> usize
    ensures { result ≡ place index }
{
    index.unwrap_or(ABSENT as usize)
}

/// A fault without members.
fn empty_at(at: At, fault: u32) -> CFault
    ensures { result ≡ empty_at at fault }
{
    CFault {
        fault,
        number: 0,
        index: 0,
        share_group: 0,
        given: 0,
        needed: 0,
        value: 0,
        addend: 0,
        group: place(at.group),
        file: place(at.file),
        section: place(at.section),
        offset: at.offset.unwrap_or(ABSENT),
    }
}

fn with_number(number: u32, fault: CFault) -> CFault
    ensures { result ≡ with_number number fault }
{
    CFault { number, ..fault }
}

fn with_index(index: usize, fault: CFault) -> CFault
    ensures { result ≡ with_index index fault }
{
    CFault { index, ..fault }
}

fn with_value(value: u64, fault: CFault) -> CFault
    ensures { result ≡ with_value value fault }
{
    CFault { value, ..fault }
}

fn with_addend(addend: i64, fault: CFault) -> CFault
    ensures { result ≡ with_addend addend fault }
{
    CFault { addend, ..fault }
}

/// What is missing, as a number.
fn missing_number(what: Missing) -> u32
    ensures { result ≡ missing_number what }
{
    what as u32
}

/// What is wrong with frames, as a number.
fn frame_number(why: FrameFault) -> u32
    ensures { result ≡ frame_number why }
{
    why as u32
}

/// The struct that says why a layout has no image.
#[tactic(auto, unfolding(crate::specs::FaultOf::fault_of))]
pub fn fault_of(error: Error) -> CFault
    ensures { result ≡ fault_of error }
{
    let at = error.at;
    match error.fault {
        Fault::OutOfMemory => empty_at(at, 0),
        Fault::MalformedLayout { clause, index } => with_index(
            index,
            with_number(clause, empty_at(at, 1)),
        ),
        Fault::InsufficientAllocation {
            part,
            group,
            given,
            needed,
        } => CFault {
            index: part,
            share_group: group,
            given,
            needed,
            ..empty_at(at, 2)
        },
        Fault::ExcessiveAllocation {
            part,
            group,
            given,
            needed,
        } => CFault {
            index: part,
            share_group: group,
            given,
            needed,
            ..empty_at(at, 3)
        },
        Fault::UnsupportedRelocation { number } => with_number(number, empty_at(at, 4)),
        Fault::RecompileWithPic { number } => with_number(number, empty_at(at, 5)),
        Fault::MissingResolution { what, symbol } => with_index(
            symbol,
            with_number(missing_number(what), empty_at(at, 6)),
        ),
        Fault::UnknownSequence { number } => with_number(number, empty_at(at, 7)),
        Fault::IfuncAddend { addend } => with_addend(addend, empty_at(at, 8)),
        Fault::NoThunk { value } => with_value(value, empty_at(at, 9)),
        Fault::ThunkOutOfRange { value } => with_value(value, empty_at(at, 10)),
        Fault::ThunkAddend { addend } => with_addend(addend, empty_at(at, 11)),
        Fault::PltTooFar { value } => with_value(value, empty_at(at, 12)),
        Fault::TlsOutOfSegment { value } => with_value(value, empty_at(at, 13)),
        Fault::StaticTlsDesc { symbol } => with_index(symbol, empty_at(at, 14)),
        Fault::BadFrameData { why } => with_number(frame_number(why), empty_at(at, 15)),
        Fault::FrameOffsetOverflow { value } => with_value(value, empty_at(at, 16)),
        Fault::OutOfRange { value } => with_value(value, empty_at(at, 17)),
        Fault::OverlappingSites { byte } => with_value(byte, empty_at(at, 18)),
    }
}
