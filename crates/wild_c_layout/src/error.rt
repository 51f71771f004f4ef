//! The fault that a struct says.
ghost use Rattle.std.specs.Prelude.{◌≡◌, slice_get};
ghost use Rattle.wild_c_layout.specs.ErrorOf.{at_of, missing_kinds, missing_fault, frame_faults, frame_fault, numbered_fault, error_of};

use crate::fault::CFault;
use crate::values::{present, present_index};
use wild_types::{At, Error, Fault, FrameFault, Missing};

const MISSING: [Missing; 5] = [
    Missing::Address,
    Missing::Slot,
    Missing::Stub,
    Missing::DynamicSymbol,
    Missing::Section,
];

const FRAME_FAULTS: [FrameFault; 7] = [
    FrameFault::Malformed,
    FrameFault::Unsorted,
    FrameFault::Cut,
    FrameFault::Short,
    FrameFault::PcBegin,
    FrameFault::Cie,
    FrameFault::Field,
];

/// The place of the fault.
fn at_of(fault: &CFault) -> At
    ensures { result ≡ at_of fault.now }
{
    At {
        group: present_index(fault.group),
        file: present_index(fault.file),
        section: present_index(fault.section),
        offset: present(fault.offset),
    }
}

/// The fault of a symbol that lacks the thing with that number.
fn missing_fault(number: u32, symbol: usize) -> Option<Fault>
    ensures { result ≡ missing_fault (slice_get missing_kinds number) symbol }
{
    let what = MISSING.get(number as usize).copied()?;
    Some(Fault::MissingResolution { what, symbol })
}

/// The fault of frames with that number.
fn frame_fault(number: u32) -> Option<Fault>
    ensures { result ≡ frame_fault (slice_get frame_faults number) }
{
    let why = FRAME_FAULTS.get(number as usize).copied()?;
    Some(Fault::BadFrameData { why })
}

/// The fault without its place.
fn numbered_fault(fault: &CFault) -> Option<Fault>
    ensures { result ≡ numbered_fault fault.now }
{
    let value = fault.value;
    let number = fault.number;
    match fault.fault {
        1 => Some(Fault::MalformedLayout {
            clause: number,
            index: fault.index,
        }),
        2 => Some(Fault::InsufficientAllocation {
            part: fault.index,
            group: fault.share_group,
            given: fault.given,
            needed: fault.needed,
        }),
        3 => Some(Fault::ExcessiveAllocation {
            part: fault.index,
            group: fault.share_group,
            given: fault.given,
            needed: fault.needed,
        }),
        4 => Some(Fault::UnsupportedRelocation { number }),
        5 => Some(Fault::RecompileWithPic { number }),
        6 => missing_fault(number, fault.index),
        7 => Some(Fault::UnknownSequence { number }),
        8 => Some(Fault::IfuncAddend {
            addend: fault.addend,
        }),
        9 => Some(Fault::NoThunk { value }),
        10 => Some(Fault::ThunkOutOfRange { value }),
        11 => Some(Fault::ThunkAddend {
            addend: fault.addend,
        }),
        12 => Some(Fault::PltTooFar { value }),
        13 => Some(Fault::TlsOutOfSegment { value }),
        14 => Some(Fault::StaticTlsDesc {
            symbol: fault.index,
        }),
        15 => frame_fault(number),
        16 => Some(Fault::FrameOffsetOverflow { value }),
        17 => Some(Fault::OutOfRange { value }),
        18 => Some(Fault::OverlappingSites { byte: value }),
        _ => None,
    }
}

/// The fault that the struct says; none, if the number of the fault, or one that it has, is none of those.
#[tactic(auto, unfolding(crate::specs::ErrorOf::error_of))]
pub fn error_of(fault: &CFault) -> Option<Error>
    ensures { result ≡ error_of fault.now }
{
    let known = numbered_fault(fault)?;
    Some(Error {
        fault: known,
        at: at_of(fault),
    })
}
