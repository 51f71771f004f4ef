//! Why a layout has no image.
use std::alloc::{AllocError, AllocFailed};

/// A clause of a well-formed layout that fails, with the index of the first item that fails it.
#[derive(Clone, Copy, Debug, PartialEq, Eq)]
pub struct Clause {
    pub clause: u32,
    pub index: usize,
}

/// What a relocation needs and its symbol lacks.
#[derive(Clone, Copy, Debug, PartialEq, Eq)]
pub enum Missing {
    Address,
    Slot,
    Stub,
    DynamicSymbol,
    /// The output section in which the symbol is placed.
    Section,
}

/// What is wrong with a section of frames (LSB, "The .eh_frame section").
#[derive(Clone, Copy, Debug, PartialEq, Eq)]
pub enum FrameFault {
    /// The reader of the input failed at a relocation.
    Malformed,
    /// The offset of a relocation is below that of the relocation before it.
    Unsorted,
    /// An entry goes past the section's end.
    Cut,
    /// An entry is too short for its id, or a kept FDE for its PC Begin.
    Short,
    /// The PC Begin of an FDE names no symbol, or one that is in no input section.
    PcBegin,
    /// The CIE pointer of an FDE leads to no CIE.
    Cie,
    /// A field goes past its entry.
    Field,
}

/// Why a layout has no image. Parts, groups and symbols are indexes into their lists, in the form in which they are printed; sizes
/// are in bytes.
#[derive(Clone, Copy, Debug, PartialEq, Eq)]
pub enum Fault {
    /// A clause of a well-formed layout fails.
    MalformedLayout {
        clause: u32,
        index: usize,
    },
    /// A group's share of a part is smaller than the bytes that it writes there.
    InsufficientAllocation {
        part: usize,
        group: usize,
        given: u64,
        needed: u64,
    },
    /// A group's share of a part is larger than the bytes that it writes there.
    ExcessiveAllocation {
        part: usize,
        group: usize,
        given: u64,
        needed: u64,
    },
    /// The relocation type has no row, or needs a symbol and the relocation has none.
    UnsupportedRelocation {
        number: u32,
    },
    /// The code has to be compiled as position-independent: the field cannot hold an address that is known only where
    /// the image is loaded.
    RecompileWithPic {
        number: u32,
    },
    /// The relocation's symbol lacks something that the relocation needs.
    MissingResolution {
        what: Missing,
        symbol: usize,
    },
    /// An instruction is to be rewritten, but its bytes or the next relocation do not match the expected sequence.
    UnknownSequence {
        number: u32,
    },
    /// A reference to an IFUNC has an addend. The loader stores the resolver's result and cannot add to it.
    IfuncAddend {
        addend: i64,
    },
    /// The target of a branch is out of its range, and no thunk leads to it: the distance, modulo 2^64.
    NoThunk {
        value: u64,
    },
    /// A thunk is too far from a branch, or the target is too far from its thunk. The distance is modulo 2^64; that of a target is between pages.
    ThunkOutOfRange {
        value: u64,
    },
    /// A branch with an addend needs a thunk. A thunk leads to its target and cannot add to it.
    ThunkAddend {
        addend: i64,
    },
    /// A PLT stub is too far from its GOT slot: the distance, modulo 2^64.
    PltTooFar {
        value: u64,
    },
    /// A thread-local symbol has a slot, but its address is outside the thread-local data.
    TlsOutOfSegment {
        value: u64,
    },
    /// A static executable needs a TLS descriptor, but has no code that a descriptor could call.
    StaticTlsDesc {
        symbol: usize,
    },
    /// A section of frames cannot be read: its list of relocations is bad, or the entry at that offset.
    BadFrameData {
        why: FrameFault,
    },
    /// The distance of an address from the search table of frames does not fit a signed 32-bit field.
    FrameOffsetOverflow {
        /// The distance, modulo 2^64.
        value: u64,
    },
    /// The value does not fit the field.
    OutOfRange {
        value: u64,
    },
    /// Two relocations write the same byte of a section.
    OverlappingSites {
        byte: u64,
    },
    /// Out of memory.
    OutOfMemory,
}

/// The location of a fault, as far as it applies: the group, the file's index in the group, the section's index in the file, and the
/// offset in the section.
#[derive(Clone, Copy, Debug, PartialEq, Eq)]
pub struct At {
    pub group: Option<usize>,
    pub file: Option<usize>,
    pub section: Option<usize>,
    pub offset: Option<u64>,
}

impl At {
    /// No location.
    pub const NO_PLACE: At = At {
        group: None,
        file: None,
        section: None,
        offset: None,
    };
}

/// Why no image was written, and where.
#[derive(Clone, Copy, Debug, PartialEq, Eq)]
pub struct Error {
    pub fault: Fault,
    pub at: At,
}

impl From<AllocError> for Error {
    ghost use Rattle.std.specs.Prelude.{◌≡◌};
    ghost use Rattle.wild_types.specs.Faults.{out_of_memory};

    ghost from_gives = { λ _ e. e ≡ out_of_memory };

    fn from(_: AllocError) -> Error {
        Error {
            fault: Fault::OutOfMemory,
            at: At::NO_PLACE,
        }
    }
}

impl<T: Drop> From<AllocFailed<T>> for Error {
    ghost use Rattle.std.specs.Prelude.{◌≡◌};
    ghost use Rattle.wild_types.specs.Faults.{out_of_memory};

    ghost from_gives = { λ _ e. e ≡ out_of_memory };

    fn from(_: AllocFailed<T>) -> Error {
        Error {
            fault: Fault::OutOfMemory,
            at: At::NO_PLACE,
        }
    }
}
