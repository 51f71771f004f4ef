//! Which bytes of segments a section is compared with.

/// Where the bytes of a section have to lie: in the memory of segments, or among their file bytes.
#[derive(Clone, Copy)]
pub enum ImageOrMemory {
    Memory,
    File,
}
