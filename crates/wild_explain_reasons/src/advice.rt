//! Advice for a layout without faults: mistakes that would show only when its image is loaded or run.

use crate::contents::{push_copies_over, push_sections, push_values};
use crate::hints::{ADVICE, push_hint};
use crate::items::Item;
use crate::linking::{push_library, push_listed, push_local, push_path};
use crate::names::{push_section, push_symbol};
use crate::segments::{has_addresses, push_permissions, push_segments};
use crate::stores::{Barriers, push_slots, push_stores};
use crate::text::Text;
use std::alloc::{AllocError, Global};
use wild_needs::elf_entry_address;
use wild_records::abi::segment::{PF_X, PT_LOAD};
use wild_types::{File, Layout, Role, SymbolIndex, is_allocated, is_there, is_writable, part_with};

/// Adds an allocated section that begins before the end of those before it.
fn push_overlaps(out: &mut Text, layout: &Layout) {
    let mut before: usize = 0;
    let mut low: u64 = 0;
    let mut end: u64 = 0;
    for (i, section) in layout.sections.as_slice().iter().enumerate() {
        if has_addresses(section) {
            let last = section.address.saturating_add(section.size);
            if section.address < end && low < last {
                write!(out, "advice: /sections/{i} lies over /sections/{before}: ");
                push_section(out, layout, i);
                out.push_str(", ");
                push_section(out, layout, before);
                out.push_str("\n");
            }
            if end < last {
                before = i;
                low = section.address;
                end = last;
            }
        }
    }
}

/// Adds zeroed sections that a segment fills with file bytes.
fn push_zeros(out: &mut Text, layout: &Layout) {
    for (i, section) in layout.sections.as_slice().iter().enumerate() {
        let address = section.address;
        let mut filled_by = None;
        for (j, segment) in layout.segments.as_slice().iter().enumerate() {
            let end = segment.address.saturating_add(segment.file_size);
            let is_in = segment.address <= address && address < end;
            if filled_by.is_none() && segment.kind == PT_LOAD && is_in {
                filled_by = Some(j);
            }
        }
        if section.is_without_data()
            && has_addresses(section)
            && let Some(segment) = filled_by
        {
            write!(
                out,
                "advice: /segments/{segment}/file_size reaches address {address} of "
            );
            push_section(out, layout, i);
            out.push_str(": its zeros are bytes of the file\n");
        }
    }
}

/// Adds parts of hash tables without a shape, in lines that begin with a word.
pub(crate) fn push_shapes(out: &mut Text, layout: &Layout, word: &str) {
    let parts = layout.parts.as_slice();
    if is_there(Role::SysvHash, parts) && layout.sysv_hash.is_none() {
        writeln!(
            out,
            "{word}: a part has the role sysv_hash, and /sysv_hash is not given: the table is empty"
        );
    }
    if is_there(Role::GnuHash, parts) && layout.gnu_hash.is_none() {
        writeln!(
            out,
            "{word}: a part has the role gnu_hash, and /gnu_hash is not given: the table is empty"
        );
    }
}

/// Adds a base of the GOT that is not in it.
fn push_base(out: &mut Text, layout: &Layout) {
    let base = layout.got_base;
    let parts = layout.parts.as_slice();
    if let Some(part) = part_with(Role::Got, parts) {
        let (start, end) = (part.address, part.address.saturating_add(part.size));
        if base < start || end < base {
            writeln!(
                out,
                "advice: /got_base is {base}, and the part got has addresses {start} to {end}: relocations with GOT in their value count from there"
            );
        }
    }
}

/// Adds the copies of a library's symbols that have no room in writable data.
fn push_copies(out: &mut Text, layout: &Layout, file: &File) {
    for copy in file.copied() {
        let definition: SymbolIndex = layout.canonical(*copy);
        let Some(symbol) = layout.symbols.as_slice().get(definition.0) else {
            continue;
        };
        let address = match symbol.resolution {
            Some(found) => found.raw_value,
            None => 0,
        };
        let size = symbol.size;
        let mut has_room = false;
        for section in layout.sections.as_slice() {
            let end = section.address.saturating_add(section.size);
            let is_in = section.address <= address && address.saturating_add(size) <= end;
            has_room = has_room
                || is_allocated(section.flags) && is_writable(section.flags) && is_in;
        }
        if !has_room {
            out.push_str("advice: the copy of ");
            push_symbol(out, layout, definition.0);
            writeln!(
                out,
                " has no room: {size} bytes at address {address} lie in no writable section"
            );
        }
    }
}

/// Adds an entry address that is in no executable segment.
fn push_entry(out: &mut Text, layout: &Layout) {
    let (entry, _) = elf_entry_address(layout);
    let mut is_executable = false;
    for segment in layout.segments.as_slice() {
        let end = segment.address.saturating_add(segment.file_size);
        let is_in = segment.address <= entry && entry < end;
        is_executable = is_executable
            || segment.kind == PT_LOAD && segment.flags & PF_X != 0 && is_in;
    }
    if layout.kind.is_executable() && !is_executable {
        writeln!(
            out,
            "advice: /entry is address {entry}, which no executable segment has"
        );
    }
}

/// Adds what would go wrong when the image is loaded or run. A relocatable object is not loaded.
pub fn push_advice(out: &mut Text, alloc: Global, layout: &Layout) -> Result<(), AllocError> {
    if layout.kind.is_partial_link() {
        if layout.options.strip_all {
            let text = "has no effect: a relocatable object has its table of symbols";
            push_hint(out, ADVICE, Item::Plan, "/options/strip_all", text);
        }
        return Ok(());
    }
    push_segments(out, layout);
    push_overlaps(out, layout);
    push_zeros(out, layout);
    push_base(out, layout);
    push_shapes(out, layout, ADVICE);
    push_entry(out, layout);
    push_path(out, layout, ADVICE);
    push_listed(out, layout);
    let barriers = Barriers::of(alloc, layout)?;
    push_permissions(out, layout, &barriers);
    for (i, group) in layout.groups.as_slice().iter().enumerate() {
        for (j, file) in group.files.as_slice().iter().enumerate() {
            push_copies(out, layout, file);
            push_copies_over(out, layout, file);
            push_values(out, layout, file);
            push_sections(out, layout, (i, j), file);
            push_library(out, layout, ADVICE, Item::File(i, j), file);
            push_local(out, layout, file);
            push_slots(out, layout, &barriers, file);
            push_stores(out, layout, &barriers, (i, j), file);
        }
    }
    Ok(())
}
