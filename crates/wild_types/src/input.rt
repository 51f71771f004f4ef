//! Input sections and their relocations.
use crate::index::{SectionIndex, SymbolIndex};
use wild_words::{Bytes, Items};

/// A relocation of an input section (gABI, "Relocation").
#[derive(Clone, Copy)]
pub struct InputRelocation {
    pub offset: u64,
    /// The machine's relocation type.
    pub number: u32,
    pub symbol: Option<SymbolIndex>,
    pub addend: i64,
    /// The reader of the input failed at this relocation.
    pub malformed: bool,
}

/// Where a string of a merged section was placed.
#[derive(Clone, Copy)]
pub struct MergedString {
    pub offset: u64,
    pub address: u64,
}

/// How an input section is written.
#[derive(Clone, Copy)]
pub enum Slot {
    Discard,
    Loaded,
    Sorted,
    Debug,
    Frame,
    Merge,
    Rela,
    Group,
}

/// A section of an input file.
#[derive(Drop)]
pub struct InputSection {
    pub slot: Slot,
    pub name: Bytes,
    /// The part in which it is placed.
    pub part: usize,
    pub address: u64,
    pub size: u64,
    pub flags: u64,
    pub nobits: bool,
    /// Its words are written in reverse order.
    pub reversed: bool,
    /// Its header index, if a partial object keeps it as a section of its own.
    pub singleton: Option<SectionIndex>,
    /// The section to which the relocations of a "rela" section apply.
    pub target: usize,
    /// The header indexes of a "group" section's members.
    pub members: Items<SectionIndex>,
    pub bytes: Bytes,
    /// The strings of a "merge" section, by offset.
    pub strings: Items<MergedString>,
    pub relocations: Items<InputRelocation>,
}
