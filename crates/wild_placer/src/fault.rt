//! Why a layout is not placed.
use wild_loader::LoadFault;
use wild_types::Error;

/// Why a layout is not placed, or a placement not removed.
#[derive(Clone, Copy)]
pub enum PlaceFault {
    /// All numbers are used: 2^32 - 1 layouts were placed.
    Full,
    /// The layout has faults, and this is the first.
    Write(Error),
    /// The loader does not load the layout's image in the world.
    Load(LoadFault),
    /// A live placement has the byte at that address; it is the first such byte.
    Taken { address: u64 },
    /// No live placement has that number.
    NoSuch { number: u32 },
    /// Out of memory.
    OutOfMemory,
}
