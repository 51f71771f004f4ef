//! Whether segments load the bytes of sections: one parallel pass over sections and loaded segments.
ghost use Rattle.std.specs.Prelude.{◌≡◌, ◌≤◌, true, take, length, All, None};
ghost use Rattle.wild_plan_rules.specs.SegmentCoverage.{loads_nothing_from, covers};
ghost use Rattle.wild_types.specs.Lists.{first_failing};
ghost use Rattle.wild_plan_rules.specs.Segments.{segment_out_of_order, size_on, has_byte, must_be_loaded, bytes_are_loaded};

use wild_plan_rules::ImageOrMemory;
use wild_records::abi::segment::PT_LOAD;
use wild_types::{Layout, Section, Segment, is_allocated, is_thread_local, wide_sum};

fn size_on(side: ImageOrMemory, segment: &Segment) -> u64
    ensures { result ≡ size_on side segment.now }
{
    match side {
        ImageOrMemory::Memory => segment.mem_size,
        ImageOrMemory::File => segment.file_size,
    }
}

/// Whether the section's bytes must be there.
fn must_be_loaded(side: ImageOrMemory, layout: &Layout, section: &Section) -> bool
    ensures { result ≡ must_be_loaded side layout.now section.now }
{
    match side {
        ImageOrMemory::Memory => {
            is_allocated(section.flags)
                && !(is_thread_local(section.flags) && section.is_without_data())
        }
        ImageOrMemory::File => is_allocated(section.flags) && layout.fills_file(section),
    }
}

/// Whether the segment loads the byte of the section at that address. If the section has file bytes, address minus offset must be
/// the same for both.
fn has_byte(
    side: ImageOrMemory,
    layout: &Layout,
    section: &Section,
    address: u128,
    segment: &Segment,
) -> bool
    ensures { result ≡ has_byte side layout.now section.now address segment.now }
{
    segment.kind == PT_LOAD
        && u128::from(segment.address) <= address
        && address < wide_sum(segment.address, size_on(side, segment))
        && (!layout.fills_file(section)
            || wide_sum(section.offset, segment.address)
                == wide_sum(section.address, segment.offset))
}

/// Whether the segment loads no byte at the address or higher.
fn loads_nothing_from(address: u128, segment: &Segment) -> bool
    ensures { result ≡ loads_nothing_from address segment.now }
{
    segment.kind != PT_LOAD || wide_sum(segment.address, segment.mem_size) <= address
}

/// Whether consecutive segments load all bytes of the section.
#[tactic(auto, using(wild_plan_rules::proofs::CoverLemmas::covers_done))]
fn covers(side: ImageOrMemory, layout: &Layout, section: &Section, segments: &[Segment]) -> bool
    ensures { result ≡ covers side layout.now section.now section.now.address segments.now }
{
    let end = wide_sum(section.address, section.size);
    let mut reached = u128::from(section.address);
    for segment in segments {
        if end <= reached {
            return true;
        }
        if !loads_nothing_from(reached, segment) {
            if !has_byte(side, layout, section, reached, segment) {
                return false;
            }
            reached = wide_sum(segment.address, size_on(side, segment));
        }
    }
    end <= reached
}

/// The first place from `next` on of a segment that is not passed.
#[tactic(auto, using(wild_plan_rules::proofs::CoverLemmas::passed_more))]
fn pass(segments: &[Segment], next: usize, address: u128) -> usize
    requires there { next ≤ length segments.now }
    requires passed { All (λ g. loads_nothing_from address g ≡ true) (take next segments.now) }
    ensures there { result ≤ length segments.now }
    ensures passed { All (λ g. loads_nothing_from address g ≡ true) (take result segments.now) }
{
    let mut next = next;
    while next < segments.len() && loads_nothing_from(address, &segments[next]) {
        next += 1;
    }
    next
}

/// The segment to continue with for a section at that address: searched from `next` on, or from the first segment if the section
/// begins before `low`.
#[tactic(auto, using(wild_plan_rules::proofs::CoverLemmas::passed_later))]
fn go_on(segments: &[Segment], next: usize, low: u64, address: u64) -> usize
    requires there { next ≤ length segments.now }
    requires passed { All (λ g. loads_nothing_from low g ≡ true) (take next segments.now) }
    ensures there { result ≤ length segments.now }
    ensures passed { All (λ g. loads_nothing_from address g ≡ true) (take result segments.now) }
{
    let first = if address < low { 0 } else { next };
    pass(segments, first, u128::from(address))
}

/// The place of the first section with a byte that must be in a segment and is in none. `later` are the sections after section 0. A
/// section that begins before the previous one starts again at the first segment.
pub(crate) fn not_loaded(
    side: ImageOrMemory,
    layout: &Layout,
    segments: &[Segment],
    later: &[Section],
    page: u64,
) -> Option<usize>
    requires { segment_out_of_order page 0 0 segments.now ≡ None }
    ensures { result ≡ first_failing (bytes_are_loaded side layout.now segments.now) 1 later.now }
{
    let mut next = 0;
    let mut low = 0;
    for (i, section) in later.iter().enumerate() {
        if must_be_loaded(side, layout, section) {
            next = go_on(segments, next, low, section.address);
            low = section.address;
            if !covers(side, layout, section, &segments[next..]) {
                return Some(i + 1);
            }
        }
    }
    None
}
