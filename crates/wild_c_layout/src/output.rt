//! Parts, sections and segments of the output.
ghost use Rattle.std.specs.Prelude.{◌≡◌};
ghost use Rattle.wild_c_layout.specs.Output.{part_of, section_of, segment_of, fill_of};

use crate::codes::role_of;
use crate::decode::{Decode, DecodePlain};
use crate::values::{bytes_of, is_set};
use std::alloc::{AllocError, Global};
use wild_types::{Part, Section, SectionIndex, Segment};

/// A part of the image.
#[repr(C)]
#[derive(Clone, Copy)]
pub struct CPart {
    /// The index in the list of roles.
    pub role: u32,
    pub section: usize,
    pub offset: u64,
    pub address: u64,
    pub size: u64,
    pub align: u64,
}

/// A section of the output (gABI, "Section Header").
#[repr(C)]
#[derive(Drop)]
pub struct CSection<'a> {
    pub name: &'a [u8],
    /// `sh_type`.
    pub kind: u32,
    pub link: u32,
    pub info: u32,
    /// The bytes with which its padding is filled, if `has_fill` is set.
    pub fill: [u8; 4],
    pub has_fill: u8,
    pub section_symbol: u8,
    pub flags: u64,
    pub address: u64,
    pub offset: u64,
    pub size: u64,
    pub align: u64,
    pub entsize: u64,
}

/// A segment (gABI, "Program Header").
#[repr(C)]
#[derive(Clone, Copy)]
pub struct CSegment {
    /// `p_type`.
    pub kind: u32,
    pub flags: u32,
    pub offset: u64,
    pub address: u64,
    pub physical: u64,
    pub file_size: u64,
    pub mem_size: u64,
    pub align: u64,
}

impl DecodePlain<Part> for CPart {
    ghost value_of = { part_of };

    #[tactic(auto, unfolding(crate::specs::Output::part_of))]
    fn value(&self) -> Part {
        Part {
            role: role_of(self.role),
            section: SectionIndex(self.section),
            offset: self.offset,
            address: self.address,
            size: self.size,
            align: self.align,
        }
    }
}

/// The bytes with which the padding is filled, if there are some.
fn fill_of(section: &CSection) -> Option<[u8; 4]>
    ensures { result ≡ fill_of section.now }
{
    if is_set(section.has_fill) {
        Some(section.fill)
    } else {
        None
    }
}

impl Decode<Section> for CSection<'_> {
    ghost value_of = { section_of };

    #[tactic(auto, unfolding(crate::specs::Output::section_of))]
    fn decode(&self, alloc: Global) -> Result<Section, AllocError> {
        let name = bytes_of(alloc, self.name)?;
        Ok(Section {
            name,
            kind: self.kind,
            flags: self.flags,
            address: self.address,
            offset: self.offset,
            size: self.size,
            link: self.link,
            info: self.info,
            align: self.align,
            entsize: self.entsize,
            fill: fill_of(self),
            section_symbol: is_set(self.section_symbol),
        })
    }
}

impl DecodePlain<Segment> for CSegment {
    ghost value_of = { segment_of };

    #[tactic(auto, unfolding(crate::specs::Output::segment_of))]
    fn value(&self) -> Segment {
        Segment {
            kind: self.kind,
            flags: self.flags,
            offset: self.offset,
            address: self.address,
            physical: self.physical,
            file_size: self.file_size,
            mem_size: self.mem_size,
            align: self.align,
        }
    }
}
