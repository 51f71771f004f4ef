//! Tests of the order of sections, of merged strings, of the linker's name of itself and of properties.

use crate::hints::{LIKELY, push_expected};
use crate::items::{Item, SectionPlace, section_at};
use crate::tests::{MergedTest, PlanTest, SortedTest};
use crate::text::Text;
use crate::verdict::{Verdict, due, plain};
use wild_types::{InputSection, Layout, Merged, Role, Slot, SortedSection, has_role};

/// Whether an entry of the order fails a test.
pub(crate) fn test_sorted(layout: &Layout, entry: SortedSection, test: &SortedTest) -> bool {
    let at = SectionPlace {
        group: entry.group,
        file: entry.file,
        section: entry.section,
    };
    match (section_at(layout, at), test) {
        (Some(section), SortedTest::Other) => !matches!(section.slot, Slot::Sorted),
        (found, _) => found.is_none(),
    }
}

/// Whether a sorted section is named exactly once; other sections need not be.
pub(crate) fn is_named_once(layout: &Layout, at: SectionPlace, section: &InputSection) -> bool {
    let mut times: usize = 0;
    for entry in layout.sorted.as_slice() {
        if entry.group == at.group && entry.file == at.file && entry.section == at.section {
            times = times.saturating_add(1);
        }
    }
    !matches!(section.slot, Slot::Sorted) || times == 1
}

/// Whether the part of that number is a raw one.
fn is_raw(layout: &Layout, part: usize) -> bool {
    match layout.parts.as_slice().get(part) {
        Some(part) => has_role(Role::Raw, part),
        None => false,
    }
}

/// The first group's share of a part.
fn room(layout: &Layout, part: usize) -> u64 {
    match layout.groups.as_slice().get(0) {
        Some(group) => group.given(part),
        None => 0,
    }
}

/// How many bytes merged strings have.
pub(crate) fn size_of(merged: &Merged) -> u64 {
    let mut size: u64 = 0;
    for string in merged.strings.as_slice() {
        size = size.saturating_add(string.len() as u64);
    }
    size
}

/// Whether merged strings from number `from` on have bytes in a part.
fn others_stand(layout: &Layout, part: usize, from: usize) -> bool {
    for (i, other) in layout.merged.as_slice().iter().enumerate() {
        if from <= i && other.part == part && size_of(other) != 0 {
            return true;
        }
    }
    false
}

/// Adds the part whose room merged strings fill, if they name that part and do not fill it.
pub(crate) fn push_front(out: &mut Text, layout: &Layout, part: usize) {
    for (i, merged) in layout.merged.as_slice().iter().enumerate() {
        let size = size_of(merged);
        if merged.part != part || size == room(layout, part) {
            continue;
        }
        for j in 0..layout.parts.len() {
            if size == room(layout, j) {
                let numbers = (part as u64, j as u64);
                let why = "the first group has as many bytes there as the strings have";
                return push_expected(out, LIKELY, Item::Merged(i), "/part", numbers, why);
            }
        }
    }
}

/// Whether the front of a part is that of merged strings or of the linker's name of itself.
pub(crate) fn has_front(layout: &Layout, part: usize) -> bool {
    for merged in layout.merged.as_slice() {
        if merged.part == part {
            return true;
        }
    }
    layout.identity.bytes.len() != 0 && layout.identity.part == part
}

/// Whether merged strings fail a test.
pub(crate) fn test_merged(
    layout: &Layout,
    index: usize,
    merged: &Merged,
    test: &MergedTest,
) -> Verdict {
    let size = size_of(merged);
    match test {
        MergedTest::Raw => plain(!is_raw(layout, merged.part)),
        MergedTest::Part => plain(merged.part >= layout.parts.len()),
        MergedTest::Size => {
            let room = room(layout, merged.part);
            due(size != room, room)
        }
        MergedTest::Shared => {
            plain(size != 0 && others_stand(layout, merged.part, index.saturating_add(1)))
        }
    }
}

/// Whether the linker's name of itself fails a test.
pub(crate) fn test_identity(layout: &Layout, test: &PlanTest) -> Verdict {
    let (part, size) = (layout.identity.part, layout.identity.bytes.len() as u64);
    match test {
        PlanTest::IdentityPart => plain(part >= layout.parts.len()),
        PlanTest::IdentityRaw => plain(size != 0 && !is_raw(layout, part)),
        PlanTest::IdentitySize => {
            let room = room(layout, part);
            due(size != 0 && size != room, room)
        }
        _ => plain(size != 0 && others_stand(layout, part, 0)),
    }
}

/// Whether a property before number `index` has that type.
pub(crate) fn types_before(layout: &Layout, ptype: u32, index: usize) -> bool {
    for (i, property) in layout.properties.as_slice().iter().enumerate() {
        if i < index && property.ptype == ptype {
            return true;
        }
    }
    false
}

/// Whether a path is not empty and does not end with its only zero byte.
pub(crate) fn ends_without_zero(path: &[u8]) -> bool {
    for (i, byte) in path.iter().enumerate() {
        if *byte == 0 {
            return i.saturating_add(1) != path.len();
        }
    }
    !path.is_empty()
}
