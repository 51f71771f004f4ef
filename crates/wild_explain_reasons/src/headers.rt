//! Tests of parts, output sections and segments.

use crate::tests::{PartTest, SectionTest, SegmentTest};
use crate::verdict::{Verdict, due, plain};
use wild_records::abi::section::{SHT_NOTE, SHT_RELA};
use wild_records::abi::segment::{PT_DYNAMIC, PT_LOAD};
use wild_types::{
    Layout, Part, Role, Section, Segment, has_role, is_allocated, is_thread_local, place_of,
};

/// Whether a size from an address ends above 2^62.
pub(crate) fn ends_high(start: u64, size: u64) -> bool {
    start.saturating_add(size) > 1 << 62
}

/// Whether a range lies in another.
fn lies_within(start: u64, size: u64, inner: u64, inner_size: u64) -> bool {
    start <= inner && inner.saturating_add(inner_size) <= start.saturating_add(size)
}

/// The first part of a role, with its place.
pub(crate) fn first_of(layout: &Layout, role: Role) -> Option<(usize, Part)> {
    for (i, part) in layout.parts.as_slice().iter().enumerate() {
        if has_role(role, part) {
            return Some((i, *part));
        }
    }
    None
}

/// The sum of the shares of a part of so many groups, at most 2^64 - 1.
pub(crate) fn shares_before(layout: &Layout, part: usize, group: usize) -> u64 {
    let mut sum: u64 = 0;
    for (i, found) in layout.groups.as_slice().iter().enumerate() {
        if i < group {
            sum = sum.saturating_add(found.given(part));
        }
    }
    sum
}

/// The file offset after the parts before one.
fn end_before(layout: &Layout, index: usize) -> u64 {
    let mut end = 0;
    for (i, part) in layout.parts.as_slice().iter().enumerate() {
        if i < index && layout.takes_file_bytes(part.section) {
            end = part.offset.saturating_add(part.size);
        }
    }
    end
}

/// Whether a part lies in its section.
pub(crate) fn lies_in(layout: &Layout, section: &Section, part: &Part) -> bool {
    if !layout.fills_file(section) {
        return lies_within(section.address, section.size, part.address, part.size);
    }
    let is_even = section.address <= part.address
        && part.address.saturating_add(section.offset)
            == part.offset.saturating_add(section.address);
    lies_within(section.offset, section.size, part.offset, part.size)
        && (!is_allocated(section.flags) || is_even)
}

/// Whether a loaded segment has the file bytes of a part, or its addresses if its section is not written.
fn is_carried(layout: &Layout, part: &Part) -> bool {
    for segment in layout.segments.as_slice() {
        let holds = if layout.is_header_only_at(part.section) {
            lies_within(segment.address, segment.mem_size, part.address, part.size)
        } else {
            lies_within(segment.offset, segment.file_size, part.offset, part.size)
                && part.offset.saturating_add(segment.address)
                    == part.address.saturating_add(segment.offset)
        };
        if segment.kind == PT_LOAD && holds {
            return true;
        }
    }
    false
}

/// Whether a part fails a test.
pub(crate) fn test_part(layout: &Layout, index: usize, part: &Part, test: &PartTest) -> Verdict {
    match test {
        PartTest::Ends => plain(
            !part.align.is_power_of_two()
                || ends_high(part.address, part.size)
                || ends_high(part.offset, part.size),
        ),
        PartTest::Order => {
            let end = end_before(layout, index);
            due(part.offset < end, end)
        }
        PartTest::RoleTwice => plain(match first_of(layout, part.role) {
            Some((first, _)) => first < index && !has_role(Role::Raw, part),
            None => false,
        }),
        PartTest::At(offset) => {
            let has_none = layout.kind.is_partial_link() && has_role(Role::ProgramHeaders, part);
            let is_asked = !has_none;
            due(is_asked && part.offset != *offset, *offset)
        }
        PartTest::RelativeEnd => match first_of(layout, Role::RelaDynRelative) {
            Some((_, before)) => {
                let end = before.offset.saturating_add(before.size);
                let follows = part.address == before.address.saturating_add(before.size);
                due(part.offset != end || !follows, end)
            }
            None => plain(false),
        },
        PartTest::SectionRange => plain(match layout.sections.as_slice().get(part.section.0) {
            Some(section) => part.section.0 != 0 && !lies_in(layout, section, part),
            None => false,
        }),
        PartTest::Unallocated => {
            let place = place_of(part.role);
            let is_read = place_of(Role::Got) <= place && place <= place_of(Role::Dynamic);
            let is_asked = is_read && !layout.kind.is_partial_link();
            plain(is_asked && !layout.is_allocated_section(part.section))
        }
        PartTest::Entries => {
            plain(layout.kind.is_static_executable() && layout.kind.has_fixed_load_address())
        }
        PartTest::Split => plain(is_carried(layout, part)),
        PartTest::Shares => {
            let sum = shares_before(layout, index, layout.groups.len());
            due(sum != part.size, sum)
        }
        PartTest::Section => plain(part.section.0 >= layout.sections.len()),
        PartTest::RelrOption => plain(has_role(Role::GotRelr, part) && !layout.options.relr),
        PartTest::DynamicNote => {
            let is_noted = layout.kind_at(part.section) == SHT_NOTE;
            plain(layout.options.only_keep_debug && has_role(Role::Dynamic, part) && is_noted)
        }
        PartTest::OmittedHeader => {
            let is_header = matches!(
                part.role,
                Role::FileHeader | Role::ProgramHeaders | Role::SectionHeaders | Role::Shstrtab
            );
            plain(is_header && layout.is_header_only_at(part.section))
        }
        PartTest::Last => plain(true),
    }
}

/// The first address of a section that no loaded segment has, in its memory or in its file bytes.
pub(crate) fn reached(layout: &Layout, section: &Section, in_file: bool) -> u64 {
    let mut reached = section.address;
    for segment in layout.segments.as_slice() {
        let size = if in_file {
            segment.file_size
        } else {
            segment.mem_size
        };
        let end = segment.address.saturating_add(size);
        let is_even = !layout.fills_file(section)
            || section.offset.saturating_add(segment.address)
                == section.address.saturating_add(segment.offset);
        if segment.kind == PT_LOAD && segment.address <= reached && reached < end && is_even {
            reached = end;
        }
    }
    reached
}

/// The bytes of the parts of entries in a section.
fn entry_bytes(layout: &Layout, index: usize) -> u64 {
    let mut sum: u64 = 0;
    for role in [Role::RelaPlt, Role::RelaDynRelative, Role::RelaDynGeneral] {
        if let Some((_, part)) = first_of(layout, role)
            && part.section.0 == index
        {
            sum = sum.saturating_add(part.size);
        }
    }
    sum
}

/// Whether an output section fails a test.
pub(crate) fn test_section(
    layout: &Layout,
    index: usize,
    section: &Section,
    test: &SectionTest,
) -> Verdict {
    let zeros = section.is_without_data();
    let is_loaded = index != 0 && is_allocated(section.flags) && !layout.kind.is_partial_link();
    let end = section.address.saturating_add(section.size);
    match test {
        SectionTest::Ends => plain(
            !(index == 0 && section.align == 0 || section.align.is_power_of_two())
                || ends_high(section.address, section.size)
                || ends_high(section.offset, section.size),
        ),
        SectionTest::Memory => {
            let reached = reached(layout, section, false);
            let is_asked = is_loaded && !(zeros && is_thread_local(section.flags));
            due(is_asked && reached < end, reached)
        }
        SectionTest::Bytes => {
            let reached = reached(layout, section, true);
            due(
                is_loaded && layout.fills_file(section) && reached < end,
                reached,
            )
        }
        SectionTest::Entries => {
            let bytes = entry_bytes(layout, index);
            let is_fixed = layout.kind.is_static_executable()
                && layout.kind.has_fixed_load_address();
            let is_asked = is_loaded && is_fixed && section.kind == SHT_RELA;
            due(is_asked && section.size != bytes, bytes)
        }
        SectionTest::Name => plain(section.name.as_slice().contains(&0)),
    }
}

/// The end in memory of the loaded segments before one, and how many `PT_DYNAMIC` segments are before it.
pub(crate) fn segments_before(layout: &Layout, index: usize) -> (u64, usize) {
    let mut end = 0;
    let mut count: usize = 0;
    for (i, segment) in layout.segments.as_slice().iter().enumerate() {
        if i < index && segment.kind == PT_LOAD {
            end = segment.address.saturating_add(segment.mem_size);
        }
        if i < index && segment.kind == PT_DYNAMIC {
            count = count.saturating_add(1);
        }
    }
    (end, count)
}

/// Whether a segment has the place and the size of the dynamic section.
fn is_dynamic(layout: &Layout, segment: &Segment) -> bool {
    match first_of(layout, Role::Dynamic) {
        Some((_, part)) => {
            let in_file = if layout.is_header_only_at(part.section) {
                0
            } else {
                part.size
            };
            segment.offset == part.offset
                && segment.address == part.address
                && segment.file_size == in_file
                && segment.mem_size == part.size
        }
        None => false,
    }
}

/// Whether a segment fails a test.
pub(crate) fn test_segment(
    layout: &Layout,
    index: usize,
    segment: &Segment,
    test: &SegmentTest,
) -> Verdict {
    let is_loaded = segment.kind == PT_LOAD;
    let (end, count) = segments_before(layout, index);
    match test {
        SegmentTest::Ends => plain(
            !(segment.align == 0 || segment.align.is_power_of_two())
                || ends_high(segment.address, segment.mem_size)
                || ends_high(segment.offset, segment.file_size),
        ),
        SegmentTest::Order => due(is_loaded && segment.address < end, end),
        SegmentTest::Larger => plain(is_loaded && segment.mem_size < segment.file_size),
        SegmentTest::Remainder => {
            let page = layout.page_size;
            plain(is_loaded && page != 0 && segment.address % page != segment.offset % page)
        }
        SegmentTest::AtZero => {
            let is_fixed = layout.kind.has_fixed_load_address();
            plain(is_loaded && is_fixed && segment.address == 0 && segment.mem_size != 0)
        }
        SegmentTest::ImageEnd => {
            let size = layout.image_end().min(u128::from(u64::MAX)) as u64;
            due(
                segment.offset.saturating_add(segment.file_size) > size,
                size,
            )
        }
        SegmentTest::Dynamic => plain(
            segment.kind == PT_DYNAMIC && (!is_dynamic(layout, segment) || count != 0),
        ),
    }
}
