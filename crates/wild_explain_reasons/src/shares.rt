//! What likely made a group's share of a part wrong: the members to change.

use crate::advice::push_shapes;
use crate::frames::push_frames;
use crate::hints::{LIKELY, push_hint};
use crate::items::{Item, push_item};
use crate::names::push_symbol;
use crate::segments::push_missing;
use crate::text::Text;
use std::alloc::{AllocError, Global};
use wild_types::{Layout, Part, Place, Role, Slot};

/// Adds the number of segments, and segments that are missing.
fn push_segment_count(out: &mut Text, layout: &Layout, part: &Part) {
    let room = part.size / 56;
    let count = layout.segments.len() as u64;
    if count != room {
        write!(
            out,
            "likely: /segments has {count} items, and the part has room for {room}"
        );
        out.push_str(": a program header has 56 bytes\n");
    }
    push_missing(out, layout, LIKELY)
}

/// One mark for each of `count` items, which is not set.
fn no_marks(alloc: Global, count: usize) -> Result<Vec<bool>, AllocError> {
    vec![in alloc; false; count]
}

/// Sets the mark of an item, if it is there.
fn set_mark(marks: &mut [bool], index: usize) {
    if let Some(mark) = marks.get_mut(index) {
        *mark = true;
    }
}

/// Whether the mark of an item is set.
fn is_marked(marks: &[bool], index: usize) -> bool {
    match marks.get(index) {
        Some(mark) => *mark,
        None => false,
    }
}

/// Adds the symbols with COPY_RELOCATION that no library copies.
fn push_uncopied(out: &mut Text, alloc: Global, layout: &Layout) -> Result<(), AllocError> {
    let mut copied = no_marks(alloc, layout.symbols.len())?;
    for group in layout.groups.as_slice() {
        for file in group.files.as_slice() {
            for copy in file.copied() {
                set_mark(&mut copied, layout.canonical(*copy).0);
            }
        }
    }
    for (i, group) in layout.groups.as_slice().iter().enumerate() {
        for (j, file) in group.files.as_slice().iter().enumerate() {
            for (k, symbol) in layout.symbols_of(file).iter().enumerate() {
                let number = file.first_symbol.0.saturating_add(k);
                if symbol.flags.needs_copy_relocation() && !is_marked(&copied, number) {
                    out.push_str("likely: ");
                    push_item(out, Item::File(i, j));
                    out.push_str("/copies is without ");
                    push_symbol(out, layout, number);
                    out.push_str(", which has the flag COPY_RELOCATION\n");
                }
            }
        }
    }
    Ok(())
}

/// Adds the output sections of a relocatable object that have input sections and no section symbol.
fn push_nameless(out: &mut Text, alloc: Global, layout: &Layout) -> Result<(), AllocError> {
    let mut filled = no_marks(alloc, layout.sections.len())?;
    let mut alone = no_marks(alloc, layout.sections.len())?;
    for group in layout.groups.as_slice() {
        for file in group.files.as_slice() {
            for section in file.sections.as_slice() {
                if matches!(section.slot, Slot::Loaded) {
                    set_mark(&mut filled, layout.section_of(section.part).0);
                }
                if let Some(index) = section.singleton {
                    set_mark(&mut alone, index.0);
                }
            }
        }
    }
    for (i, section) in layout.sections.as_slice().iter().enumerate() {
        let is_named = section.section_symbol || is_marked(&alone, i);
        if is_marked(&filled, i) && !is_named {
            let text =
                "is false, and no input section has `singleton` with that section: it has no symbol in the table";
            push_hint(out, LIKELY, Item::Section(i), "/section_symbol", text);
        }
    }
    Ok(())
}

/// Adds the symbols that relocations name and that `.symtab` leaves out.
fn push_omitted(out: &mut Text, alloc: Global, layout: &Layout) -> Result<(), AllocError> {
    let mut named = no_marks(alloc, layout.symbols.len())?;
    for group in layout.groups.as_slice() {
        for file in group.files.as_slice() {
            for section in file.sections.as_slice() {
                for relocation in section.relocations.as_slice() {
                    if let Some(symbol) = relocation.symbol {
                        set_mark(&mut named, symbol.0);
                    }
                }
            }
        }
    }
    for (i, symbol) in layout.symbols.as_slice().iter().enumerate() {
        let is_undefined = matches!(symbol.place, Place::Undefined) && symbol.definition.is_none();
        if is_marked(&named, i) && is_undefined && !symbol.emit {
            let text =
                "is false, and relocations name the undefined symbol: it has no entry in the table";
            push_hint(out, LIKELY, Item::Symbol(i), "/emit", text);
        }
    }
    Ok(())
}

/// Adds what likely made a group's share of a part wrong.
pub(crate) fn push_share_causes(
    out: &mut Text,
    alloc: Global,
    layout: &Layout,
    part: usize,
) -> Result<(), AllocError> {
    let Some(part) = layout.parts.as_slice().get(part) else {
        return Ok(());
    };
    match part.role {
        Role::ProgramHeaders => push_segment_count(out, layout, part),
        Role::SysvHash | Role::GnuHash => push_shapes(out, layout, LIKELY),
        Role::EhFrameHdr if !layout.options.eh_frame_hdr => {
            let text = "is false, and a part has the role eh_frame_hdr: the table is empty";
            push_hint(out, LIKELY, Item::Plan, "/options/eh_frame_hdr", text);
        }
        Role::EhFrame | Role::EhFrameHdr => push_frames(out, alloc, layout)?,
        Role::RelaDynGeneral => push_uncopied(out, alloc, layout)?,
        Role::SymtabLocal if layout.kind.is_partial_link() => push_nameless(out, alloc, layout)?,
        Role::SymtabLocal | Role::SymtabGlobal | Role::Strtab => push_omitted(out, alloc, layout)?,
        _ => {}
    }
    Ok(())
}
