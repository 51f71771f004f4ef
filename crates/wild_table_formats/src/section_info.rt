//! `sh_info` of sections whose value the writer computes (gABI, "Section Header").

use wild_types::SectionIndex;

/// A section, and the value of its `sh_info`.
#[derive(Clone, Copy)]
pub struct ComputedInfo {
    pub section: SectionIndex,
    pub info: u32,
}
