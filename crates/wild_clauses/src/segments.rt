//! Clause 6: segments.
ghost use Rattle.std.specs.Prelude.{◌≡◌};
ghost use Rattle.wild_plan_rules.specs.Places.{loaded_sections};
ghost use Rattle.wild_plan_rules.specs.Segments.{segment_follows, segment_out_of_order, leaves_zero_free, segment_in_image};
ghost use Rattle.wild_plan_rules.specs.ClauseTests.{check_segments};

use crate::entries::{check_entries, dynamic_astray, table_not_loaded};
use crate::loaded_bytes::not_loaded;
use crate::verdict::fails;
use wild_plan_rules::ImageOrMemory;
use wild_records::abi::segment::PT_LOAD;
use wild_types::{
    Clause, Layout, OutputKind, Section, Segment, Test, all_but_first, first_failing, wide_sum,
};

fn segment_follows(page: u64, end: u128, segment: &Segment) -> bool
    ensures { result ≡ segment_follows page end segment.now }
{
    end <= u128::from(segment.address)
        && segment.file_size <= segment.mem_size
        && page != 0
        && segment.address % page == segment.offset % page
}

fn segment_out_of_order(page: u64, segments: &[Segment]) -> Option<usize>
    ensures { result ≡ segment_out_of_order page 0 0 segments.now }
{
    let mut end: u128 = 0;
    for (i, segment) in segments.iter().enumerate() {
        if segment.kind == PT_LOAD {
            if !segment_follows(page, end, segment) {
                return Some(i);
            }
            end = wide_sum(segment.address, segment.mem_size);
        }
    }
    None
}

/// No loaded segment of an output with a fixed load address has bytes at address 0.
#[derive(Clone, Copy)]
struct LeavesZeroFree {
    kind: OutputKind,
}

impl Test<Segment> for LeavesZeroFree {
    ghost test = { λ t. leaves_zero_free t.kind };

    fn passes(&self, segment: &Segment) -> bool {
        !(self.kind.has_fixed_load_address()
            && segment.kind == PT_LOAD
            && segment.address == 0
            && segment.mem_size != 0)
    }
}

/// A segment ends in the image.
#[derive(Clone, Copy)]
struct SegmentInImage {
    size: u128,
}

impl Test<Segment> for SegmentInImage {
    ghost test = { λ t. segment_in_image t.size };

    fn passes(&self, segment: &Segment) -> bool {
        wide_sum(segment.offset, segment.file_size) <= self.size
    }
}

/// The sections after section 0, of an output that is loaded.
fn loaded_sections(layout: &Layout) -> &[Section]
    ensures { result.now ≡ loaded_sections layout.now }
{
    if layout.kind.is_partial_link() {
        &[]
    } else {
        all_but_first(layout.sections.as_slice())
    }
}

#[tactic(auto, unfolding(wild_plan_rules::specs::ClauseTests::check_segments))]
pub(crate) fn check_segments(layout: &Layout) -> Result<(), Clause>
    ensures { result ≡ check_segments layout.now }
{
    let segments = layout.segments.as_slice();
    let later = loaded_sections(layout);
    let page = layout.page_size;
    let kind = layout.kind;
    let size = layout.image_end();
    fails(6, segment_out_of_order(page, segments))?;
    fails(
        6,
        not_loaded(ImageOrMemory::Memory, layout, segments, later, page),
    )?;
    fails(6, first_failing(&LeavesZeroFree { kind }, segments))?;
    fails(
        6,
        not_loaded(ImageOrMemory::File, layout, segments, later, page),
    )?;
    fails(6, first_failing(&SegmentInImage { size }, segments))?;
    fails(6, dynamic_astray(layout, segments))?;
    check_entries(layout)?;
    fails(6, table_not_loaded(layout, layout.parts.as_slice()))
}
