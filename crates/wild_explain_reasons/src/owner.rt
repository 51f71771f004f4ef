//! Which part, group, input section and relocation a byte of the image belongs to.

use crate::faults::push_relocation;
use crate::headers::shares_before;
use crate::items::{Item, SectionPlace, push_item, section_at};
use crate::names::{push_section, role_word};
use crate::text::Text;
use crate::thunks::thunk_with;
use wild_types::{Layout, Part, Role, field_bytes, has_role};

/// The input section of a group that has the address, in a part.
fn section_with(layout: &Layout, group: usize, part: usize, address: u64) -> Option<SectionPlace> {
    let found = layout.groups.as_slice().get(group)?;
    for (i, file) in found.files.as_slice().iter().enumerate() {
        for (j, section) in file.sections.as_slice().iter().enumerate() {
            let end = section.address.saturating_add(section.size);
            let is_in = section.part == part && section.is_filled(layout);
            if is_in && section.address <= address && address < end {
                return Some(SectionPlace {
                    group,
                    file: i,
                    section: j,
                });
            }
        }
    }
    None
}

/// Adds the input section that has an address, and the relocation that writes there.
fn push_input(out: &mut Text, layout: &Layout, at: SectionPlace, address: u64) {
    let Some(section) = section_at(layout, at) else {
        return;
    };
    let byte = address.saturating_sub(section.address);
    write!(out, "owner: byte {byte} of ");
    push_item(out, Item::Input(at));
    let mut index = None;
    for (i, relocation) in section.relocations.as_slice().iter().enumerate() {
        let width = field_bytes(layout.machine, relocation.number) as u64;
        let end = relocation.offset.saturating_add(width);
        if index.is_none() && relocation.offset <= byte && byte < end {
            index = Some(i);
        }
    }
    if let Some(index) = index {
        write!(out, ", in the field of /relocations/{index}: ");
        push_relocation(out, layout, section, index);
    }
    out.push_str("\n");
}

/// Adds which group has a byte of a part, and which input section or thunk.
fn push_in_part(out: &mut Text, layout: &Layout, index: usize, part: &Part, byte: u64) {
    let word = role_word(part.role);
    let address = part.address.saturating_add(byte);
    writeln!(
        out,
        "part: byte {byte} of /parts/{index} ({word}), address {address}"
    );
    for group in 0..layout.groups.len() {
        let before = shares_before(layout, index, group);
        let through = shares_before(layout, index, group.saturating_add(1));
        if before <= byte && byte < through {
            let own = byte - before;
            writeln!(out, "group: byte {own} of the share of /groups/{group}");
            let owner = section_with(layout, group, index, address);
            if has_role(Role::Raw, part)
                && let Some(at) = owner
            {
                push_input(out, layout, at, address);
            } else if has_role(Role::Raw, part)
                && index == layout.primary_part
                && let Some((thunk, byte)) = thunk_with(layout, group, address)
            {
                write!(out, "owner: byte {byte} of ");
                push_item(out, thunk);
                out.push_str("\n");
            }
        }
    }
}

/// Adds what the byte of the image at an offset belongs to.
pub fn push_owner(out: &mut Text, layout: &Layout, offset: u64) {
    for (i, part) in layout.parts.as_slice().iter().enumerate() {
        let end = part.offset.saturating_add(part.size);
        let is_in = layout.takes_file_bytes(part.section) && part.offset <= offset && offset < end;
        if is_in {
            return push_in_part(out, layout, i, part, offset - part.offset);
        }
    }
    for (i, section) in layout.sections.as_slice().iter().enumerate() {
        let end = section.offset.saturating_add(section.size);
        if i != 0 && layout.fills_file(section) && section.offset <= offset && offset < end {
            out.push_str("padding: of ");
            push_section(out, layout, i);
            out.push_str("\n");
            return;
        }
    }
    let size = layout.image_end();
    if size <= u128::from(offset) {
        writeln!(out, "no byte: the image has {size} bytes");
    } else {
        out.push_str("padding: in no part and no section\n");
    }
}
