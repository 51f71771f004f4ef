//! What likely made an item fail a test of a clause: the members to change, with their numbers.

use crate::fronts::push_front;
use crate::headers::{first_of, lies_in, reached};
use crate::hints::{LIKELY, push_expected, push_hint};
use crate::items::{Item, SectionPlace, push_item, section_at};
use crate::names::push_symbol;
use crate::symbol_places::place_of_symbol;
use crate::symbols::position_of;
use crate::tests::{InputTest, PartTest, SectionTest, SegmentTest, SymbolTest, Test};
use crate::text::Text;
use wild_records::Rela;
use wild_records::abi::segment::PT_LOAD;
use wild_types::{File, InputSection, Layout, Part, Role, Slot, has_role, is_allocated};

/// Adds that the list of sections does not begin with the empty section 0.
fn push_first_section(out: &mut Text, layout: &Layout) {
    if let Some(first) = layout.sections.as_slice().get(0)
        && (first.kind != 0 || first.name.len() != 0)
    {
        push_hint(
            out,
            LIKELY,
            Item::Section(0),
            "",
            "is expected to be {}: without it each part names the section after its own",
        );
    }
}

/// Adds the part before one in the file, if it does not lie in its section.
fn push_part_before(out: &mut Text, layout: &Layout, index: usize) {
    let mut before: Option<(usize, Part)> = None;
    for (i, part) in layout.parts.as_slice().iter().enumerate() {
        if i < index && layout.takes_file_bytes(part.section) {
            before = Some((i, *part));
        }
    }
    if let Some((i, part)) = before {
        push_distance(out, layout, i, &part);
    }
}

/// Adds the offset that a part would have at its section's distance of address and offset, if it does not lie in the section.
fn push_distance(out: &mut Text, layout: &Layout, index: usize, part: &Part) {
    let Some(section) = layout.sections.as_slice().get(part.section.0) else {
        return;
    };
    if part.section.0 == 0 || lies_in(layout, section, part) {
        return;
    }
    let ahead = if is_allocated(section.flags) {
        part.address.saturating_sub(section.address)
    } else {
        0
    };
    let numbers = (part.offset, section.offset.saturating_add(ahead));
    push_expected(
        out,
        LIKELY,
        Item::Part(index),
        "/offset",
        numbers,
        "the place of its address in its section",
    )
}

/// Adds the section that a part lies in, if that is not the section that it names; else the offset at the section's distance.
fn push_holder(out: &mut Text, layout: &Layout, index: usize) {
    let Some(part) = layout.parts.as_slice().get(index) else {
        return;
    };
    for (i, section) in layout.sections.as_slice().iter().enumerate() {
        if i != 0 && layout.fills_file(section) && lies_in(layout, section, part) {
            let numbers = (part.section.0 as u64, i as u64);
            let why = "that section has the part's offset and address";
            return push_expected(out, LIKELY, Item::Part(index), "/section", numbers, why);
        }
    }
    push_distance(out, layout, index, part)
}

/// Adds the last loaded segment before the first byte of a section that no segment has, with the offset or the size that it needs.
fn push_short_segment(out: &mut Text, layout: &Layout, index: usize, in_file: bool) {
    let Some(section) = layout.sections.as_slice().get(index) else {
        return;
    };
    if section.address == 0 {
        let text =
            "has 2 (SHF_ALLOC), and the section's address is 0: a section that is not loaded has not that flag";
        return push_hint(out, LIKELY, Item::Section(index), "/flags", text);
    }
    let first = reached(layout, section, in_file);
    let mut last = None;
    for (i, segment) in layout.segments.as_slice().iter().enumerate() {
        if segment.kind == PT_LOAD && segment.address <= first {
            last = Some((i, *segment));
        }
    }
    let Some((i, segment)) = last else {
        return;
    };
    let ahead = section.address.saturating_sub(segment.address);
    let offset = section.offset.saturating_sub(ahead);
    if layout.fills_file(section) && segment.offset != offset {
        let why = "the section's distance of address and offset";
        let numbers = (segment.offset, offset);
        return push_expected(out, LIKELY, Item::Segment(i), "/offset", numbers, why);
    }
    let (member, size) = if in_file {
        ("/file_size", segment.file_size)
    } else {
        ("/mem_size", segment.mem_size)
    };
    let numbers = (size, ahead.saturating_add(section.size));
    push_expected(
        out,
        LIKELY,
        Item::Segment(i),
        member,
        numbers,
        "the end of that section",
    )
}

/// Adds the first member of a `PT_DYNAMIC` segment that is not that of the part.
fn push_dynamic(out: &mut Text, layout: &Layout, index: usize) {
    if let Some(segment) = layout.segments.as_slice().get(index)
        && let Some((_, part)) = first_of(layout, Role::Dynamic)
    {
        for (member, found, expected) in [
            ("/offset", segment.offset, part.offset),
            ("/address", segment.address, part.address),
            ("/file_size", segment.file_size, part.size),
            ("/mem_size", segment.mem_size, part.size),
        ] {
            if found != expected {
                let why = "that of the part dynamic";
                let numbers = (found, expected);
                return push_expected(out, LIKELY, Item::Segment(index), member, numbers, why);
            }
        }
    }
}

/// Adds the first file whose range of symbols does not begin where those before it end, or that has input sections and no symbols.
fn push_range(out: &mut Text, layout: &Layout) {
    let mut end: usize = 0;
    for (i, group) in layout.groups.as_slice().iter().enumerate() {
        for (j, file) in group.files.as_slice().iter().enumerate() {
            let item = Item::File(i, j);
            if file.symbol_count == 0 && file.sections.len() != 0 {
                let text = "is 0, and the file has input sections";
                return push_hint(out, LIKELY, item, "/symbol_count", text);
            }
            if file.symbol_count != 0 && file.first_symbol.0 != end {
                let numbers = (file.first_symbol.0 as u64, end as u64);
                let why = "the end of the ranges of the files before it";
                return push_expected(out, LIKELY, item, "/first_symbol", numbers, why);
            }
            end = end.saturating_add(file.symbol_count);
        }
    }
}

/// Adds why a symbol is in no input section: its file has fewer, or no file has the symbol.
fn push_symbol_place(out: &mut Text, layout: &Layout, symbol: usize) {
    if let Some(at) = place_of_symbol(layout, symbol)
        && let Some(group) = layout.groups.as_slice().get(at.group)
        && let Some(file) = group.files.as_slice().get(at.file)
    {
        let (section, count) = (at.section, file.sections.len());
        write!(
            out,
            "likely: /symbols/{symbol}/place/section is {section}, expected below {count}: "
        );
        push_item(out, Item::File(at.group, at.file));
        out.push_str(" has so many input sections\n");
        return;
    }
    push_range(out, layout)
}

/// Adds that the dynamic symbol table has no entry of a symbol.
fn push_unlisted(out: &mut Text, layout: &Layout, index: usize) {
    if position_of(layout, index).is_none() {
        out.push_str("likely: /dynsyms has no item of ");
        push_symbol(out, layout, index);
        out.push_str(", and the symbol is no undefined entry: list it, or give it no `dynsym`\n");
    }
}

/// The first raw part in an output section of that name.
fn part_named(layout: &Layout, name: &[u8]) -> Option<usize> {
    for (i, part) in layout.parts.as_slice().iter().enumerate() {
        if has_role(Role::Raw, part)
            && let Some(section) = layout.sections.as_slice().get(part.section.0)
            && !name.is_empty()
            && section.name.as_slice() == name
        {
            return Some(i);
        }
    }
    None
}

/// Adds the part whose section has the name of an input section, if the input section names another one.
fn push_part_named(out: &mut Text, layout: &Layout, at: SectionPlace, section: &InputSection) {
    let item = Item::Input(at);
    if let Some(part) = layout.parts.as_slice().get(section.part)
        && has_role(Role::EhFrame, part)
    {
        let text =
            "is expected to be `frame`, or the part another one: the part has the role eh_frame";
        return push_hint(out, LIKELY, item, "/slot", text);
    }
    match part_named(layout, section.name.as_slice()) {
        Some(part) if part != section.part => {
            let numbers = (section.part as u64, part as u64);
            let why = "that part's section has the name of the input section";
            push_expected(out, LIKELY, item, "/part", numbers, why)
        }
        _ => {}
    }
}

/// Adds the section of a file whose relocations a table has by its name and its size.
fn push_target(out: &mut Text, at: SectionPlace, file: &File, table: &InputSection) {
    let name = table.name.as_slice();
    for (i, section) in file.sections.as_slice().iter().enumerate() {
        let count = section.relocations.len() as u64;
        let own = section.name.as_slice();
        if name.starts_with(b".rela")
            && name.ends_with(own)
            && name.len() == own.len().saturating_add(5)
            && table.size == count.saturating_mul(Rela::SIZE as u64)
        {
            let numbers = (table.target as u64, i as u64);
            let why = "the section of that name has as many relocations";
            return push_expected(out, LIKELY, Item::Input(at), "/target", numbers, why);
        }
    }
}

/// Adds what likely made an input section fail a test.
fn push_input(out: &mut Text, layout: &Layout, test: &InputTest, at: SectionPlace) {
    let Some(section) = section_at(layout, at) else {
        return;
    };
    match test {
        InputTest::ShareStart
        | InputTest::ShareEnd
        | InputTest::RawPart
        | InputTest::Allocation
        | InputTest::Room => push_part_named(out, layout, at, section),
        InputTest::Length if section.bytes.len() == 0 && !section.nobits => {
            let text = "is expected to be true: the section has a size and no bytes";
            push_hint(out, LIKELY, Item::Input(at), "/nobits", text)
        }
        InputTest::Front => push_front(out, layout, section.part),
        InputTest::Target => {
            if let Some(group) = layout.groups.as_slice().get(at.group)
                && let Some(file) = group.files.as_slice().get(at.file)
            {
                push_target(out, at, file, section);
            }
        }
        InputTest::Partial if matches!(section.slot, Slot::Rela) => {
            let text = "is `rela`, and /kind is not `partial`";
            push_hint(out, LIKELY, Item::Input(at), "/slot", text)
        }
        _ => {}
    }
}

/// Adds what likely made an item fail a test.
pub(crate) fn push_likely(out: &mut Text, layout: &Layout, test: &Test, item: Item) {
    match (test, item) {
        (Test::Part(PartTest::Order), Item::Part(part)) => {
            push_first_section(out, layout);
            push_part_before(out, layout, part)
        }
        (Test::Part(PartTest::SectionRange), Item::Part(part)) => push_holder(out, layout, part),
        (Test::Section(SectionTest::Memory), Item::Section(section)) => {
            push_short_segment(out, layout, section, false)
        }
        (Test::Section(SectionTest::Bytes), Item::Section(section)) => {
            push_short_segment(out, layout, section, true)
        }
        (Test::Segment(SegmentTest::Dynamic), Item::Segment(segment)) => {
            push_dynamic(out, layout, segment)
        }
        (Test::Symbol(SymbolTest::SymbolFile), Item::Symbol(symbol)) => push_symbol_place(
            out, layout, symbol,
        ),
        (Test::Symbol(SymbolTest::Position), Item::Symbol(symbol)) => {
            push_unlisted(out, layout, symbol)
        }
        (Test::Input(test), Item::Input(at)) => push_input(out, layout, test, at),
        _ => {}
    }
}
