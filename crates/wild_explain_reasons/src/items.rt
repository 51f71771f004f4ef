//! The items of a plan that a fault names: their paths, and their members.

use crate::fronts::size_of;
use crate::names::{push_name, push_resolution, push_section, push_symbol, role_word};
use crate::text::Text;
use wild_records::gnu_hash;
use wild_types::{InputSection, Layout, Slot, SymbolIndex};

/// Where an input section is in the lists of a plan.
#[derive(Clone, Copy)]
pub struct SectionPlace {
    pub group: usize,
    pub file: usize,
    pub section: usize,
}

/// An item of a plan, by its places in the lists that have it.
#[derive(Clone, Copy)]
pub enum Item {
    Plan,
    Part(usize),
    Section(usize),
    Segment(usize),
    Symbol(usize),
    Listed(usize),
    Version(usize),
    Auxiliary(usize),
    /// The number of its block, and its own in the block.
    Thunk(usize, usize),
    Sorted(usize),
    Merged(usize),
    Property(usize),
    Group(usize),
    File(usize, usize),
    Input(SectionPlace),
}

/// Adds the path of an item.
pub fn push_item(out: &mut Text, item: Item) {
    match item {
        Item::Plan => {}
        Item::Part(i) => out.push_index("/parts/", i),
        Item::Section(i) => out.push_index("/sections/", i),
        Item::Segment(i) => out.push_index("/segments/", i),
        Item::Symbol(i) => out.push_index("/symbols/", i),
        Item::Listed(i) => out.push_index("/dynsyms/", i),
        Item::Version(i) => out.push_index("/verdefs/", i),
        Item::Auxiliary(i) => out.push_index("/options/auxiliary/", i),
        Item::Thunk(i, j) => {
            out.push_index("/thunk_blocks/", i);
            out.push_index("/", j);
        }
        Item::Sorted(i) => out.push_index("/sorted/", i),
        Item::Merged(i) => out.push_index("/merged/", i),
        Item::Property(i) => out.push_index("/properties/", i),
        Item::Group(i) => out.push_index("/groups/", i),
        Item::File(i, j) => push_file_path(out, i, j),
        Item::Input(at) => {
            push_file_path(out, at.group, at.file);
            out.push_index("/sections/", at.section);
        }
    }
}

/// Adds the path of a file.
fn push_file_path(out: &mut Text, group: usize, file: usize) {
    out.push_index("/groups/", group);
    out.push_index("/files/", file);
}

/// The input section at a place.
pub(crate) fn section_at(layout: &Layout, at: SectionPlace) -> Option<&InputSection> {
    let group = layout.groups.as_slice().get(at.group)?;
    let file = group.files.as_slice().get(at.file)?;
    file.sections.as_slice().get(at.section)
}

/// Adds the members of a part.
fn push_part(out: &mut Text, layout: &Layout, index: usize) {
    if let Some(found) = layout.parts.as_slice().get(index) {
        let (offset, address, size) = (found.offset, found.address, found.size);
        let align = found.align;
        write!(
            out,
            "offset {offset}, address {address}, size {size}, align {align}, in "
        );
        push_section(out, layout, found.section.0);
    }
}

/// Adds the members of an output section.
fn push_output(out: &mut Text, layout: &Layout, index: usize) {
    push_section(out, layout, index);
    if let Some(found) = layout.sections.as_slice().get(index) {
        let (kind, flags, align) = (found.kind, found.flags, found.align);
        let (offset, address, size) = (found.offset, found.address, found.size);
        write!(
            out,
            " kind {kind}, flags {flags}, offset {offset}, address {address}, size {size}, align {align}"
        );
    }
}

/// Adds the members of a segment.
fn push_segment(out: &mut Text, layout: &Layout, index: usize) {
    if let Some(found) = layout.segments.as_slice().get(index) {
        let (kind, align) = (found.kind, found.align);
        let (offset, address) = (found.offset, found.address);
        let (file_size, mem_size) = (found.file_size, found.mem_size);
        write!(
            out,
            "kind {kind}, offset {offset}, address {address}, file_size {file_size}, mem_size {mem_size}, align {align}"
        );
    }
}

/// Adds a symbol, its resolution, and its definition if that is another symbol.
pub(crate) fn push_decided(out: &mut Text, layout: &Layout, index: usize) {
    push_symbol(out, layout, index);
    let definition = layout.canonical(SymbolIndex(index)).0;
    if definition != index {
        write!(out, "; its definition is symbol {definition}");
    }
    if let Some(symbol) = layout.symbols.as_slice().get(index)
        && let Some(resolution) = symbol.resolution
    {
        push_resolution(out, resolution);
    }
}

/// Adds the members of an input section.
fn push_input(out: &mut Text, layout: &Layout, at: SectionPlace) {
    let Some(section) = section_at(layout, at) else {
        return;
    };
    let slot = match section.slot {
        Slot::Discard => "discard",
        Slot::Loaded => "loaded",
        Slot::Sorted => "sorted",
        Slot::Debug => "debug",
        Slot::Frame => "frame",
        Slot::Merge => "merge",
        Slot::Rela => "rela",
        Slot::Group => "group",
    };
    let bytes = section.bytes.len();
    let (address, size, flags) = (section.address, section.size, section.flags);
    let (nobits, part) = (section.nobits, section.part);
    push_name(out, section.name.as_slice());
    write!(
        out,
        " slot {slot}, address {address}, size {size}, {bytes} bytes, nobits {nobits}, flags {flags}, part {part}"
    );
    if let Some(found) = layout.parts.as_slice().get(part) {
        let word = role_word(found.role);
        let outer = found.section.0;
        write!(out, " ({word}) in section {outer}");
    }
}

/// Adds the members of a file.
fn push_file(out: &mut Text, layout: &Layout, group: usize, file: usize) {
    if let Some(found) = layout.groups.as_slice().get(group)
        && let Some(held) = found.files.as_slice().get(file)
    {
        let (files, groups) = (found.files.len(), layout.groups.len());
        let (first, count) = (held.first_symbol.0, held.symbol_count);
        let (copies, symbols) = (held.copies.len(), layout.symbols.len());
        write!(
            out,
            "file {file} of {files} in group {group} of {groups}, symbols from {first} on, {count} of {symbols}, {copies} copies"
        );
        if held.thunk_block != 0 {
            let (block, blocks) = (held.thunk_block, layout.thunk_blocks.len());
            write!(out, ", thunk_block {block} of {blocks}");
        }
    }
}

/// Adds the members of a group.
fn push_group(out: &mut Text, layout: &Layout, group: usize) {
    if let Some(found) = layout.groups.as_slice().get(group) {
        let (shares, parts) = (found.part_sizes.len(), layout.parts.len());
        let (files, strings, names) = (found.files.len(), found.dynstr_start, found.strtab_start);
        let (local, global) = (found.symtab_local_start, found.symtab_global_start);
        let frames = found.eh_frame_start;
        write!(
            out,
            "{files} files, {shares} shares of {parts} parts, dynstr_start {strings}, strtab_start {names}, eh_frame_start {frames}, symtab_local_start {local}, symtab_global_start {global}"
        );
    }
}

/// Adds the members of an item of `dynsyms`.
fn push_listed(out: &mut Text, layout: &Layout, index: usize) {
    if let Some(found) = layout.dynsyms.as_slice().get(index) {
        let (symbol, symbols) = (found.symbol.0, layout.symbols.len());
        push_name(out, found.name.as_slice());
        write!(out, " symbol {symbol} of {symbols} symbols");
        if let Some(shape) = layout.gnu_hash
            && shape.buckets != 0
        {
            let count = shape.buckets;
            let bucket = gnu_hash(found.name.as_slice()) % count;
            write!(out, ", bucket {bucket} of {count}");
        }
    }
}

/// Adds the members of an item of `verdefs`.
fn push_version(out: &mut Text, layout: &Layout, index: usize) {
    if let Some(found) = layout.verdefs.as_slice().get(index) {
        let count = layout.verdefs.len();
        push_name(out, found.name.as_slice());
        if let Some(parent) = found.parent {
            write!(out, ", parent {parent} of {count} versions");
        }
    }
}

/// Adds the members of a thunk.
fn push_thunk(out: &mut Text, layout: &Layout, block: usize, index: usize) {
    if let Some(block) = layout.thunk_blocks.as_slice().get(block)
        && let Some(found) = block.as_slice().get(index)
    {
        let (symbol, symbols) = (found.symbol.0, layout.symbols.len());
        let (address, count) = (found.address, block.len());
        write!(
            out,
            "thunk {index} of {count}, symbol {symbol} of {symbols} symbols, address {address}"
        );
    }
}

/// Adds the members of an item of `merged`.
fn push_merged(out: &mut Text, layout: &Layout, index: usize) {
    if let Some(found) = layout.merged.as_slice().get(index) {
        let (part, count, size) = (found.part, found.strings.len(), size_of(found));
        write!(out, "part {part}, {count} strings of {size} bytes");
    }
}

/// Adds the members of an item of `sorted`, `properties` or `options/auxiliary`.
fn push_entry(out: &mut Text, layout: &Layout, item: Item) {
    match item {
        Item::Auxiliary(i) => {
            if let Some(name) = layout.options.auxiliary.as_slice().get(i) {
                push_name(out, name.as_slice());
            }
        }
        Item::Sorted(i) => {
            if let Some(found) = layout.sorted.as_slice().get(i) {
                let (group, file, section) = (found.group, found.file, found.section);
                write!(out, "group {group}, file {file}, section {section}");
            }
        }
        Item::Property(i) => {
            if let Some(found) = layout.properties.as_slice().get(i) {
                let ptype = found.ptype;
                write!(out, "type {ptype}");
            }
        }
        _ => {}
    }
}

/// Adds the members of an item.
pub(crate) fn push_found(out: &mut Text, layout: &Layout, item: Item) {
    match item {
        Item::Plan => {}
        Item::Part(i) => push_part(out, layout, i),
        Item::Section(i) => push_output(out, layout, i),
        Item::Segment(i) => push_segment(out, layout, i),
        Item::Symbol(i) => push_decided(out, layout, i),
        Item::Listed(i) => push_listed(out, layout, i),
        Item::Version(i) => push_version(out, layout, i),
        Item::Thunk(i, j) => push_thunk(out, layout, i, j),
        Item::Merged(i) => push_merged(out, layout, i),
        Item::Group(i) => push_group(out, layout, i),
        Item::File(i, j) => push_file(out, layout, i, j),
        Item::Input(at) => push_input(out, layout, at),
        Item::Auxiliary(_) | Item::Sorted(_) | Item::Property(_) => push_entry(out, layout, item),
    }
}
