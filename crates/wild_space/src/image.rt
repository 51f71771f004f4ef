//! Images of a name space.
use wild_words::Bytes;

/// An image of a name space.
#[derive(Drop)]
pub struct NamedImage {
    /// The name by which other images need it.
    pub name: Bytes,
    /// The image.
    pub bytes: Bytes,
    /// What is added to each address of the image.
    pub base: u64,
    /// The signed distance of its thread-local data from the thread pointer.
    pub distance: i64,
}
