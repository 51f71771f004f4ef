//! For each clause: its name, the members that are likely wrong if it fails, and the first of its tests that an item fails.

use crate::demands::push_demand;
use crate::faults::push_relocation;
use crate::fronts::{is_named_once, test_merged, test_sorted, types_before};
use crate::headers::{first_of, test_part, test_section, test_segment};
use crate::items::{Item, SectionPlace, push_found, push_item, section_at};
use crate::layout_rows::{Row, layout_rows};
use crate::likely::push_likely;
use crate::lists::{
    first_astray, test_file, test_group, test_input, test_listed, test_version, wrong_relocation,
};
use crate::names::part_word;
use crate::needs::push_room;
use crate::partial::test_made;
use crate::plan::{push_plan, test_plan};
use crate::symbols::{test_symbol, undefined_entries};
use crate::table_rows::table_rows;
use crate::tests::{FileTest, InputTest, PartTest, PlanTest, SectionTest, Test};
use crate::text::Text;
use crate::thunks::find_thunk;
use crate::verdict::{Finding, Verdict, due, plain};
use wild_types::{Layout, Role, field_bytes, has_role};

/// The names of the clauses, from the first on.
const TITLES: [&str; 22] = [
    "sizes and alignments",
    "counts",
    "the order of the parts",
    "the roles",
    "parts in sections",
    "segments",
    "shares, prelude and epilogue",
    "input sections in their parts",
    "indexes",
    "fields",
    "where slots and stubs stand",
    "where thunks stand",
    "the dynamic symbol table",
    "flags and slots",
    "thread-local data",
    "where a group's strings, frames and symbols begin",
    "hash tables",
    "versions",
    "names",
    "reversed sections",
    "relocatable objects",
    "merged strings, the linker's name of itself, properties, images of debug sections alone",
];

/// For each clause, from the first on, what is likely wrong in a plan that fails it.
const MISTAKES: [&str; 22] = [
    "`page_size` left out; `align` of a section left out (0, which section 0 alone may have); an `align` of 0 at a part",
    "`sections` without section 0 (`{}`); `groups` left out",
    "`offset` behind a part that has grown, or not rounded up to `align`; `parts` not in the order of the file; `{}` missing at the head of `sections`",
    "`role` left out (`raw`); `strip_all` left out, so that `.symtab` is asked for; a part left out, of a table or of a member (`interp`, `build_id`, `properties`)",
    "`address`, `offset` or `size` of a part that was moved without its section; `section` of the part, counted without section 0",
    "a segment that did not move or grow with what stands in it; `address` and `offset` that leave different remainders by `page_size`; `file_size` or `mem_size` counted from the section and not from the segment",
    "`part_sizes` that was not changed with a part's `size`, or has no entry for a part that was added; of a raw part, which nobody counts, another number than the bytes from where the group's share begins to where its last input section there ends, with what lies between them; `role` left out of the prelude or the epilogue (`object`)",
    "`slot` left out (`discard`); `address` behind an input section that has grown; `size` other than the number of bytes; `nobits` left out of zeroed data; `flags` of the input section without 2; `part` counted among sections; a sorted section left out of `sorted`",
    "`symbol_count` left out; `first_symbol` that was not moved with a symbol that was added; a `definition` that is itself defined elsewhere; `singleton` or `members` counted without section 0",
    "`offset` of the relocation, counted from the part or the file; the offset of the instruction and not of its field; `malformed` outside frames",
    "`got` behind a symbol whose flag was added or taken away; `got` counted in `got` where the slot stands in `got_relr`, or the other way round; `got` without the 16 bytes of `tlsld`; a symbol with a slot in no file's range",
    "`owns_thunk_block` left out of the file behind which a block stands, or given to two files; `address` of the thunks behind an input section that has grown; thunks in a plan for x86-64",
    "`dynsym` counted without the null symbol, or not moved with an undefined entry that was added; a library without the role `dynamic`; a resolution at a library's symbol that nothing refers to; `dynsyms` in another order",
    "`got` or `plt` left at a symbol whose flag was taken away, or the flag without the address; `NON_INTERPOSABLE` at a library's symbol",
    "`start` or `align` of `tls`, where a section with more alignment was put in front",
    "a start left out of a group behind the first, counted from the start of the file, or in entries and not in bytes",
    "`base` without the null symbol or an undefined entry; `dynsyms` in the order of their names and not of their buckets",
    "`last` left at a library that is no longer the last; a `parent` counted as the index of a version; the option `versions` without the part, or the part without the option",
    "a name written with the zero that ends it in the object; `interp` without the zero that ends it",
    "`reversed` at a section of other things than words of 8 bytes; a relocation of 4 bytes, or R_X86_64_NONE, in it",
    "`segments`, `dynsyms`, `got` or `plt` in a plan of kind `partial`; slot `debug` in place of `loaded`; `size` of a table that was not changed with the relocations of its target; `target` counted among all sections; `size` of a group without the word of its flags",
    "the first group's entry of `part_sizes` for the part, which was not changed with the strings; a property listed twice; `only_keep_debug` in a plan of kind `partial`",
];

/// The name of the clause with that place in the list.
fn title_at(place: usize) -> Option<&'static str> {
    TITLES.get(place).copied()
}

/// What is likely wrong in a plan that fails the clause with that place in the list.
fn mistake_at(place: usize) -> Option<&'static str> {
    MISTAKES.get(place).copied()
}

/// The item, if it fails.
fn finding(item: Item, verdict: Verdict) -> Option<Finding> {
    if verdict.fails {
        Some(Finding { item, verdict })
    } else {
        None
    }
}

/// The first file of a group that fails a test.
fn find_file(layout: &Layout, group: usize, test: &FileTest) -> Option<Finding> {
    let found = layout.groups.as_slice().get(group)?;
    for (i, file) in found.files.as_slice().iter().enumerate() {
        let verdict = test_file(layout, group, i, file, test);
        if verdict.fails {
            return finding(Item::File(group, i), verdict);
        }
    }
    None
}

/// The first input section of a group that fails a test.
fn find_input(layout: &Layout, group: usize, test: &InputTest) -> Option<Finding> {
    let is_of_range = match test {
        InputTest::ShareStart | InputTest::ShareEnd => true,
        _ => false,
    };
    if is_of_range {
        // The ranges of the last group hold the sorted sections of all groups.
        let last = layout.groups.len().saturating_sub(1);
        for part in 0..layout.parts.len() {
            for ranges in [group, last] {
                if let Some(found) = first_astray(layout, ranges, part, test)
                    && let Item::Input(at) = found.item
                    && at.group == group
                {
                    return Some(found);
                }
            }
        }
        return None;
    }
    let found = layout.groups.as_slice().get(group)?;
    for (file, held) in found.files.as_slice().iter().enumerate() {
        for (section, input) in held.sections.as_slice().iter().enumerate() {
            let at = SectionPlace {
                group,
                file,
                section,
            };
            let verdict = match test {
                InputTest::Order => plain(!is_named_once(layout, at, input)),
                InputTest::Target | InputTest::Group => test_made(held, input, test),
                _ => plain(test_input(layout, input, test)),
            };
            if verdict.fails {
                return finding(Item::Input(at), verdict);
            }
        }
    }
    None
}

/// The symbol of an item of `dynsyms`, with the position of its entry.
fn placed(layout: &Layout, index: usize) -> Option<Finding> {
    let symbol = layout.dynsyms.as_slice().get(index)?.symbol.0;
    let (undefined, _) = undefined_entries(layout, symbol);
    let position = undefined.saturating_add(1).saturating_add(index);
    let verdict = due(true, position as u64);
    finding(Item::Symbol(symbol), verdict)
}

/// The item that fails a test of a clause that fails at an index.
pub(crate) fn find(layout: &Layout, index: usize, test: &Test) -> Option<Finding> {
    match test {
        Test::Plan(test) => finding(Item::Plan, test_plan(layout, index, test)),
        Test::Part(test) => {
            let part = layout.parts.as_slice().get(index)?;
            finding(Item::Part(index), test_part(layout, index, part, test))
        }
        Test::Of(role, test) => {
            let (place, part) = first_of(layout, *role)?;
            finding(Item::Part(place), test_part(layout, place, &part, test))
        }
        Test::Section(test) => {
            let section = layout.sections.as_slice().get(index)?;
            let verdict = test_section(layout, index, section, test);
            finding(Item::Section(index), verdict)
        }
        Test::Segment(test) => {
            let segment = layout.segments.as_slice().get(index)?;
            let verdict = test_segment(layout, index, segment, test);
            finding(Item::Segment(index), verdict)
        }
        Test::Symbol(test) => {
            let symbol = layout.symbols.as_slice().get(index)?;
            let verdict = test_symbol(layout, index, symbol, test);
            finding(Item::Symbol(index), verdict)
        }
        Test::Placed => placed(layout, index),
        Test::Group(test) => {
            let group = layout.groups.as_slice().get(index)?;
            finding(Item::Group(index), test_group(layout, index, group, test))
        }
        Test::File(test) => find_file(layout, index, test),
        Test::Input(test) => find_input(layout, index, test),
        Test::Listed(test) => {
            let listed = layout.dynsyms.as_slice().get(index)?;
            finding(
                Item::Listed(index),
                plain(test_listed(layout, listed, test)),
            )
        }
        Test::Version(test) => {
            let version = layout.verdefs.as_slice().get(index)?;
            let fails = test_version(layout, index, version, test);
            finding(Item::Version(index), plain(fails))
        }
        Test::Thunk(test) => find_thunk(layout, index, test),
        Test::Sorted(test) => {
            let entry = layout.sorted.as_slice().get(index)?;
            finding(
                Item::Sorted(index),
                plain(test_sorted(layout, *entry, test)),
            )
        }
        Test::Merged(test) => {
            let merged = layout.merged.as_slice().get(index)?;
            finding(
                Item::Merged(index),
                test_merged(layout, index, merged, test),
            )
        }
        Test::Property => {
            let property = layout.properties.as_slice().get(index)?;
            let before = types_before(layout, property.ptype, index);
            finding(Item::Property(index), plain(before))
        }
        Test::Auxiliary => {
            let name = layout.options.auxiliary.as_slice().get(index)?;
            finding(Item::Auxiliary(index), plain(name.as_slice().contains(&0)))
        }
    }
}

/// Adds what an input section has: of a test of relocations, the first that fails it and the end of its field.
fn push_input_found(out: &mut Text, layout: &Layout, at: SectionPlace, test: &InputTest) {
    if let Some(section) = section_at(layout, at)
        && let Some(index) = wrong_relocation(layout, section, test)
        && let Some(relocation) = section.relocations.as_slice().get(index)
    {
        let width = field_bytes(layout.machine, relocation.number) as u64;
        let (end, size) = (relocation.offset.saturating_add(width), section.size);
        write!(out, "/{index}\nfound: ");
        push_relocation(out, layout, section, index);
        write!(out, "; its field ends at {end}, the section at {size}");
        if let InputTest::Fields = test {
            let last = size.saturating_sub(width);
            write!(out, "; expected an offset up to {last}");
        }
        return;
    }
    out.push_str("\nfound: ");
    push_found(out, layout, Item::Input(at))
}

/// Adds what fails, its path, what the plan has there, and what was expected.
pub(crate) fn push_row(out: &mut Text, layout: &Layout, index: usize, row: &Row, found: Finding) {
    let (test, what, member) = row;
    write!(out, "what: {what}\nwhere: ");
    push_item(out, found.item);
    write!(out, "{member}");
    if let Item::Part(part) = found.item {
        let word = part_word(layout, part);
        write!(out, " ({word})");
    }
    match (found.item, test) {
        (_, Test::Plan(test)) => {
            out.push_str("\nfound: ");
            push_plan(out, layout, index, test);
        }
        (Item::Input(at), Test::Input(test)) => push_input_found(out, layout, at, test),
        _ => {
            out.push_str("\nfound: ");
            push_found(out, layout, found.item);
        }
    }
    if let Some(expected) = found.verdict.expected {
        let word = match test {
            Test::Section(SectionTest::Memory) => "the first such byte is",
            Test::Section(SectionTest::Bytes) => "the first such byte is",
            _ => "expected",
        };
        write!(out, "; {word} {expected}");
    }
    out.push_str("\n");
    push_likely(out, layout, test, found.item);
    if let Test::Plan(PlanTest::NoTable) = test {
        push_demand(out, layout, index);
    }
    if let Test::Part(PartTest::Shares) = test
        && let Some(part) = layout.parts.as_slice().get(index)
        && has_role(Role::Raw, part)
    {
        push_room(out, layout, index, part);
    }
}

/// Adds the first of some tests that an item fails.
fn push_first(out: &mut Text, layout: &Layout, index: usize, rows: &[Row]) {
    for row in rows {
        if let Some(found) = find(layout, index, &row.0) {
            push_row(out, layout, index, row, found);
            return;
        }
    }
}

/// The tests of a clause.
pub(crate) fn rows_of(clause: u32) -> &'static [Row] {
    match clause {
        1..=8 | 10 => layout_rows(clause),
        _ => table_rows(clause),
    }
}

/// Adds the reason for a clause that fails.
pub(crate) fn push_clause(out: &mut Text, layout: &Layout, clause: u32, index: usize) {
    let place = (clause as usize).saturating_sub(1);
    if let Some(title) = title_at(place)
        && let Some(mistake) = mistake_at(place)
    {
        writeln!(out, "clause {clause}: {title}");
        push_first(out, layout, index, rows_of(clause));
        writeln!(out, "likely: {mistake}");
    }
}
