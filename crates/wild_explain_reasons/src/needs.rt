//! How many bytes each part needs, and how many it has in an image.

use crate::names::role_word;
use crate::text::Text;
use wild_needs::needs;
use wild_types::{Group, Layout, Part, Role, has_role};

/// Adds how many bytes each part needs, and how many each group needs of it. For a raw part these are those of `part_sizes`.
pub fn push_needs(out: &mut Text, layout: &Layout) {
    for (i, part) in layout.parts.as_slice().iter().enumerate() {
        let word = role_word(part.role);
        let size = part.size;
        let mut needed: u64 = 0;
        for group in 0..layout.groups.len() {
            needed = needed.saturating_add(needs(layout, i, group));
        }
        let whose = if has_role(Role::Raw, part) {
            ", as it is given"
        } else {
            ""
        };
        writeln!(
            out,
            "/parts/{i}/size {needed} ({word}; it has {size}{whose})"
        );
    }
    for group in 0..layout.groups.len() {
        write!(out, "/groups/{group}/part_sizes [");
        for i in 0..layout.parts.len() {
            if i != 0 {
                out.push_str(",");
            }
            let needed = needs(layout, i, group);
            write!(out, "{needed}");
        }
        out.push_str("]\n");
    }
}

/// The end of the last input section of a group in a raw part, in the order of the files.
fn end_in(group: &Group, part: usize) -> Option<u64> {
    let mut last: Option<u64> = None;
    for file in group.files.as_slice() {
        for section in file.sections.as_slice() {
            if section.part == part && section.slot.has_range() {
                let end = section.address.saturating_add(section.size);
                last = Some(end.max(last.unwrap_or(0)));
            }
        }
    }
    last
}

/// Adds the first group whose share of a raw part does not end with its last input section there.
pub(crate) fn push_room(out: &mut Text, layout: &Layout, index: usize, part: &Part) {
    let mut from = part.address;
    for (i, group) in layout.groups.as_slice().iter().enumerate() {
        let share = group.given(index);
        let to = from.saturating_add(share);
        if let Some(end) = end_in(group, index)
            && end != to
        {
            let room = end.saturating_sub(from);
            writeln!(
                out,
                "raw: /groups/{i}/part_sizes/{index} is {share}; the group's last input section there ends {room} bytes behind address {from}, where its share begins"
            );
            return;
        }
        from = to;
    }
}

/// Adds how many bytes each part has, and how many each group has of it.
pub fn push_image(out: &mut Text, layout: &Layout) {
    for (i, part) in layout.parts.as_slice().iter().enumerate() {
        let word = role_word(part.role);
        let (offset, address, size) = (part.offset, part.address, part.size);
        write!(
            out,
            "part {i} {word}: offset {offset}, address {address}, size {size}; by group"
        );
        for group in layout.groups.as_slice() {
            let given = group.given(i);
            write!(out, " {given}");
        }
        out.push_str("\n");
    }
}
