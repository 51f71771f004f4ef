//! What references are checked against.
use wild_terms::{Outline, TermMemory};
use wild_types::Layout;

/// A file: the position of its group, and its own in the group.
#[derive(Clone, Copy)]
pub struct FileSite {
    pub group: usize,
    pub file: usize,
}

/// A layout, its outline, and the memory of an image as terms.
#[derive(Clone, Copy)]
pub struct LoadedRef<'a> {
    pub layout: &'a Layout,
    pub outline: &'a Outline,
    pub memory: &'a TermMemory,
    /// Whether the files' ranges of symbols ascend, so that a symbol is one of at most one file.
    pub ordered: bool,
    /// The files of the symbols.
    pub files: &'a [Option<FileSite>],
}
