//! Entries of frames: CIEs (common information entries) and FDEs (frame description entries).
use std::alloc::AllocError;
use wild_types::FrameFault;

/// A CIE that the walk has passed.
#[derive(Clone, Copy)]
pub struct Cie {
    /// Its offset in the input section.
    pub from: u64,
    /// Its offset in the kept bytes.
    pub to: u64,
}

/// An entry that is kept.
#[derive(Clone, Copy)]
pub struct KeptEntry {
    /// Its offset in the input section.
    pub from: u64,
    /// Its size in bytes, including the length word.
    pub size: u64,
    /// Its offset in the kept bytes.
    pub to: u64,
    /// Its id in the kept bytes: 0 for a CIE; for an FDE the distance from its id word back to its CIE.
    pub id: u64,
}

/// What is wrong, and at which offset of the section: that of the entry, or of the relocation.
#[derive(Clone, Copy, Debug, PartialEq, Eq)]
pub struct BadFrame {
    pub why: FrameFault,
    pub offset: u64,
}

/// What a step of a walk finds at its offset.
#[derive(Clone, Copy)]
pub enum Found {
    /// A length of zero, which ends the section.
    End,
    /// Fewer than 8 bytes remain, from that offset on.
    Tail { from: u64 },
    /// An entry with a fault.
    Bad { why: FrameFault, offset: u64 },
    /// An FDE of that size in bytes, which is dropped.
    Dropped { size: u64 },
    Kept { entry: KeptEntry },
}

/// Why frames were not written.
#[derive(Clone, Copy, Debug, PartialEq, Eq)]
pub enum FrameError {
    Bad(BadFrame),
    /// Out of memory.
    OutOfMemory,
}

impl From<AllocError> for FrameError {
    ghost use Rattle.std.specs.Prelude.{◌≡◌};
    ghost use Rattle.wild_frames.specs.Faults.{out_of_memory};

    ghost from_gives = { λ _ e. e ≡ out_of_memory };

    fn from(_: AllocError) -> Self {
        FrameError::OutOfMemory
    }
}
