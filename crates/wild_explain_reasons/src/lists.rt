//! Tests of groups, files, input sections, and the lists of names.

use crate::fronts::has_front;
use crate::headers::{ends_high, first_of, shares_before};
use crate::items::{Item, SectionPlace, section_at};
use crate::partial::{is_of_other, names_no_section};
use crate::tests::{EntryTest, FileTest, GroupTest, InputTest};
use crate::verdict::{Finding, Verdict, due, plain};
use wild_types::{
    DynamicSymbol, File, Group, InputSection, Layout, Role, Slot, VersionDefinition, field_bytes,
    is_allocated,
};

/// Whether a group fails a test.
pub(crate) fn test_group(
    layout: &Layout,
    index: usize,
    group: &Group,
    test: &GroupTest,
) -> Verdict {
    match test {
        GroupTest::Count => {
            let parts = layout.parts.len();
            due(group.part_sizes.len() != parts, parts as u64)
        }
        GroupTest::NoFile => plain(true),
        GroupTest::Start(role) => {
            let before = match first_of(layout, *role) {
                Some((part, _)) => shares_before(layout, part, index),
                None => 0,
            };
            let found = match *role {
                Role::Dynstr => group.dynstr_start,
                Role::Strtab => group.strtab_start,
                Role::EhFrame => group.eh_frame_start,
                Role::SymtabLocal => group.symtab_local_start,
                _ => group.symtab_global_start,
            };
            due(found != before, before)
        }
    }
}

/// Whether a file's copy is no symbol; or for the other test, whether two copies of all files have the definition of one of its own.
fn is_wrong_copy(layout: &Layout, copied: &File, test: &FileTest) -> bool {
    for copy in copied.copies.as_slice() {
        if let FileTest::Copies = test {
            if copy.0 >= layout.symbols.len() {
                return true;
            }
            continue;
        }
        let mut count: usize = 0;
        for group in layout.groups.as_slice() {
            for file in group.files.as_slice() {
                for other in file.copies.as_slice() {
                    if layout.canonical(*other) == layout.canonical(*copy) {
                        count = count.saturating_add(1);
                    }
                }
            }
        }
        if count > 1 {
            return true;
        }
    }
    false
}

/// Whether the name of a version that is needed of a library has a zero byte.
fn has_zero_version(file: &File) -> bool {
    if let Some(needs) = &file.verneed {
        for version in needs.versions.as_slice() {
            if version.name.as_slice().contains(&0) {
                return true;
            }
        }
    }
    false
}

/// The end of the symbol ranges of the files before one, and whether no library after it has `verneed`.
fn around(layout: &Layout, group: usize, file: usize) -> (usize, bool) {
    let mut end: usize = 0;
    let mut is_last = true;
    for (i, found) in layout.groups.as_slice().iter().enumerate() {
        for (j, held) in found.files.as_slice().iter().enumerate() {
            if (i < group || i == group && j < file) && held.symbol_count != 0 {
                end = held.first_symbol.0.saturating_add(held.symbol_count);
            }
            if (i > group || i == group && j > file) && held.verneed.is_some() {
                is_last = is_last && !held.role.is_library();
            }
        }
    }
    (end, is_last)
}

/// Whether a file of a group fails a test.
pub(crate) fn test_file(
    layout: &Layout,
    group: usize,
    index: usize,
    file: &File,
    test: &FileTest,
) -> Verdict {
    match test {
        FileTest::Role => {
            let is_first = group == 0 && index == 0;
            let files = match layout.groups.as_slice().get(group) {
                Some(found) => found.files.len(),
                None => 0,
            };
            let is_last = group.saturating_add(1) == layout.groups.len()
                && index.saturating_add(1) == files;
            plain(file.role.is_prelude() != is_first || file.role.is_epilogue() != is_last)
        }
        FileTest::Range => {
            let end = file.first_symbol.0.saturating_add(file.symbol_count);
            plain(file.symbol_count != 0 && end > layout.symbols.len())
        }
        FileTest::Copies | FileTest::Twice => plain(is_wrong_copy(layout, file, test)),
        FileTest::ThunkBlock => {
            let blocks = layout.thunk_blocks.len();
            plain(file.thunk_block != 0 && file.thunk_block >= blocks)
        }
        FileTest::Order => {
            let (end, _) = around(layout, group, index);
            due(
                file.symbol_count != 0 && file.first_symbol.0 < end,
                end as u64,
            )
        }
        FileTest::Mark => {
            let (_, is_last) = around(layout, group, index);
            plain(match &file.verneed {
                Some(needs) => file.role.is_library() && needs.last != is_last,
                None => false,
            })
        }
        FileTest::Library => plain(file.lib_name.as_slice().contains(&0)),
        FileTest::Needed => plain(has_zero_version(file)),
    }
}

/// The first relocation of a section that fails the test on its field, or on its symbol.
pub(crate) fn wrong_relocation(
    layout: &Layout,
    section: &InputSection,
    test: &InputTest,
) -> Option<usize> {
    for (i, relocation) in section.relocations.as_slice().iter().enumerate() {
        let width = field_bytes(layout.machine, relocation.number) as u64;
        let is_wrong = match (test, relocation.symbol) {
            (InputTest::Fields, _) => {
                width != 0 && relocation.offset.saturating_add(width) > section.size
            }
            (InputTest::Malformed, _) => relocation.malformed && !section.slot.is_frame(),
            (InputTest::Reversed, _) => {
                section.reversed && (relocation.offset % 8 != 0 || width != 8)
            }
            (InputTest::Symbols, Some(symbol)) => symbol.0 >= layout.symbols.len(),
            _ => false,
        };
        if is_wrong {
            return Some(i);
        }
    }
    None
}

/// The first input section in a group's range of a part that begins before the end of the one before it, or ends past the range.
pub(crate) fn first_astray(
    layout: &Layout,
    group: usize,
    part: usize,
    test: &InputTest,
) -> Option<Finding> {
    let found = layout.groups.as_slice().get(group)?;
    let start = layout.parts.as_slice().get(part)?.address;
    let mut from = start.saturating_add(shares_before(layout, part, group));
    let to = start.saturating_add(shares_before(layout, part, group.saturating_add(1)));
    for (file, held) in found.files.as_slice().iter().enumerate() {
        for (section, input) in held.sections.as_slice().iter().enumerate() {
            if input.part == part && input.has_range_bytes(layout) {
                let at = SectionPlace {
                    group,
                    file,
                    section,
                };
                if let Some(astray) = astray(input, at, (from, to), test) {
                    return Some(astray);
                }
                from = input.address.saturating_add(input.size);
            }
        }
        if held.role.is_epilogue() {
            return first_sorted_astray(layout, part, (from, to), test);
        }
    }
    None
}

/// An input section that begins before a range, or for the other test ends past it.
fn astray(
    input: &InputSection,
    at: SectionPlace,
    range: (u64, u64),
    test: &InputTest,
) -> Option<Finding> {
    let (from, to) = range;
    let end = input.address.saturating_add(input.size);
    let verdict = match test {
        InputTest::ShareEnd => due(to < end, to.saturating_sub(input.size)),
        _ => due(input.address < from, from),
    };
    let item = Item::Input(at);
    if verdict.fails {
        Some(Finding { item, verdict })
    } else {
        None
    }
}

/// The same for the sections in a given order, which are placed after those of the last file.
fn first_sorted_astray(
    layout: &Layout,
    part: usize,
    range: (u64, u64),
    test: &InputTest,
) -> Option<Finding> {
    let (mut from, to) = range;
    for entry in layout.sorted.as_slice() {
        let at = SectionPlace {
            group: entry.group,
            file: entry.file,
            section: entry.section,
        };
        if let Some(input) = section_at(layout, at)
            && input.part == part
            && matches!(input.slot, Slot::Sorted)
            && input.has_bytes(layout)
        {
            let found = astray(input, at, (from, to), test);
            if found.is_some() {
                return found;
            }
            from = input.address.saturating_add(input.size);
        }
    }
    None
}

/// Whether an input section fails a test.
pub(crate) fn test_input(layout: &Layout, section: &InputSection, test: &InputTest) -> bool {
    let length = section.bytes.len() as u64;
    let discarded = section.slot.is_discarded();
    let role = match layout.parts.as_slice().get(section.part) {
        Some(part) => part.role,
        None => Role::Property,
    };
    match test {
        InputTest::Ends => ends_high(section.address, section.size),
        InputTest::ShareStart
        | InputTest::ShareEnd
        | InputTest::Order
        | InputTest::Target
        | InputTest::Group => false,
        InputTest::Length => {
            let bytes = if section.nobits { 0 } else { section.size };
            let may_lack = matches!(section.slot, Slot::Merge | Slot::Rela);
            !discarded && length != bytes && (!may_lack || length != 0)
        }
        InputTest::Frames => section.slot.is_frame() && role != Role::EhFrame,
        InputTest::Discarded => discarded && (section.address != 0 || length != 0),
        InputTest::RawPart => { !discarded && !section.slot.is_frame() && role != Role::Raw }
        InputTest::Front => {
            (length != 0 || section.brings_bytes(layout)) && has_front(layout, section.part)
        }
        InputTest::Allocation => {
            let allocated = layout.is_allocated_part(section.part);
            let written = matches!(section.slot, Slot::Loaded | Slot::Sorted | Slot::Frame);
            let is_asked = written && !layout.kind.is_partial_link();
            is_asked && is_allocated(section.flags) != allocated
        }
        InputTest::Room => {
            let is_made = matches!(section.slot, Slot::Rela) && section.size != 0;
            (length != 0 || is_made) && !layout.has_data(layout.section_of(section.part))
        }
        InputTest::Singleton | InputTest::Members => names_no_section(layout, section, test),
        InputTest::Debug | InputTest::Partial | InputTest::NoData => {
            is_of_other(layout, section, test)
        }
        InputTest::PartIndex => section.part >= layout.parts.len(),
        InputTest::Words => section.reversed && section.size % 8 != 0,
        InputTest::Fields | InputTest::Malformed | InputTest::Reversed | InputTest::Symbols => {
            wrong_relocation(layout, section, test).is_some()
        }
        InputTest::Name => section.name.as_slice().contains(&0),
    }
}

/// Whether an item of `dynsyms` fails a test.
pub(crate) fn test_listed(layout: &Layout, listed: &DynamicSymbol, test: &EntryTest) -> bool {
    match test {
        EntryTest::Index => listed.symbol.0 >= layout.symbols.len(),
        EntryTest::Order => true,
        EntryTest::Name => listed.name.as_slice().contains(&0),
    }
}

/// Whether an item of `verdefs` fails a test.
pub(crate) fn test_version(
    layout: &Layout,
    index: usize,
    version: &VersionDefinition,
    test: &EntryTest,
) -> bool {
    match (test, version.parent) {
        (EntryTest::Index, Some(parent)) => parent >= layout.verdefs.len(),
        (EntryTest::Order, Some(parent)) => parent == 0 || index <= parent,
        (EntryTest::Name, _) => true,
        _ => false,
    }
}
