//! Why a change is refused.
use wild_types::Error;

/// Why a change is refused.
#[derive(Clone, Copy, Debug, PartialEq, Eq)]
pub enum RelinkFault {
    /// The change names no loaded section and no debug section.
    NoSection,
    /// The new bytes have another length than those of the section.
    Length { given: usize, needed: usize },
    /// The changed layout has faults, of which this is the first.
    Write(Error),
    /// Out of memory.
    OutOfMemory,
}
