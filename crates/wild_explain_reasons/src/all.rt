//! All items that fail a test which looks at one item and at no other.

use crate::clauses::{find, push_row, rows_of};
use crate::layout_rows::Row;
use crate::names::part_word;
use crate::tests::{
    EntryTest, FileTest, GroupTest, InputTest, MergedTest, PartTest, PlanTest, SegmentTest,
    SymbolTest, Test, ThunkTest,
};
use crate::text::Text;
use wild_needs::needs;
use wild_types::Layout;

/// Whether a test does not depend on other items of its list, nor on where a clause fails.
fn is_alone(test: &Test) -> bool {
    match test {
        Test::Plan(test) => !matches!(
            test,
            PlanTest::StaticDynamic
                | PlanTest::NoTable
                | PlanTest::NoPair
                | PlanTest::TooMany
                | PlanTest::Versions
        ),
        Test::Part(test) => !matches!(
            test,
            PartTest::Order
                | PartTest::RoleTwice
                | PartTest::RelativeEnd
                | PartTest::Entries
                | PartTest::Split
                | PartTest::Last
        ),
        Test::Section(_) | Test::Sorted(_) | Test::Auxiliary => true,
        Test::Segment(test) => !matches!(test, SegmentTest::Order | SegmentTest::Dynamic),
        Test::Symbol(test) => !matches!(
            test,
            SymbolTest::SymbolFile
                | SymbolTest::UnwrittenSlot
                | SymbolTest::Slot
                | SymbolTest::Stub
                | SymbolTest::Position
                | SymbolTest::Second
                | SymbolTest::Other
        ),
        Test::Group(test) => matches!(test, GroupTest::Count),
        Test::File(test) => !matches!(
            test,
            FileTest::Copies | FileTest::Twice | FileTest::Order | FileTest::Mark
        ),
        Test::Input(test) => !matches!(
            test,
            InputTest::ShareStart | InputTest::ShareEnd | InputTest::Order | InputTest::Front
        ),
        Test::Listed(test) | Test::Version(test) => !matches!(test, EntryTest::Order),
        Test::Thunk(test) => matches!(test, ThunkTest::Symbol | ThunkTest::Any),
        Test::Merged(test) => !matches!(test, MergedTest::Shared),
        _ => false,
    }
}

/// How many indexes a test can fail at.
fn count_of(layout: &Layout, test: &Test) -> usize {
    match test {
        Test::Part(_) => layout.parts.len(),
        Test::Section(_) => layout.sections.len(),
        Test::Segment(_) => layout.segments.len(),
        Test::Symbol(_) => layout.symbols.len(),
        Test::Group(_) | Test::File(_) | Test::Input(_) => layout.groups.len(),
        Test::Listed(_) => layout.dynsyms.len(),
        Test::Version(_) => layout.verdefs.len(),
        Test::Thunk(_) => layout.thunk_blocks.len(),
        Test::Sorted(_) => layout.sorted.len(),
        Test::Merged(_) => layout.merged.len(),
        Test::Auxiliary => layout.options.auxiliary.len(),
        _ => 1,
    }
}

/// The clauses in the order in which their tests are listed: those on places, then those on indexes, slots, tables and names.
const CLAUSES: [u32; 22] = [
    1, 2, 3, 4, 5, 6, 7, 8, 10, 9, 11, 12, 13, 14, 15, 16, 17, 18, 19, 20, 21, 22,
];

/// Adds the items that fail a test of a clause, by themselves.
fn push_failing(out: &mut Text, layout: &Layout, clause: u32, row: &Row) {
    let (test, _, _) = row;
    for index in 0..count_of(layout, test) {
        if let Some(found) = find(layout, index, test) {
            writeln!(out, "fails: clause {clause}, index {index}");
            push_row(out, layout, index, row, found);
        }
    }
}

/// Adds, for each test of the clauses, the items that fail it.
fn push_tests(out: &mut Text, layout: &Layout) {
    for clause in &CLAUSES {
        for row in rows_of(*clause) {
            if is_alone(&row.0) {
                push_failing(out, layout, *clause, row);
            }
        }
    }
}

/// Adds the shares that differ from what the groups have to write.
fn push_shares(out: &mut Text, layout: &Layout) {
    for (i, group) in layout.groups.as_slice().iter().enumerate() {
        for part in 0..layout.parts.len() {
            let (given, needed) = (group.given(part), needs(layout, part, i));
            if given != needed {
                let word = part_word(layout, part);
                writeln!(
                    out,
                    "fails: /groups/{i}/part_sizes/{part} ({word}) is {given}, expected {needed}"
                );
            }
        }
    }
}

/// Adds all items that fail a test of a clause which depends on no other item, and all shares that are not what is needed. A fault of a clause
/// may be the cause of later ones.
pub fn push_all(out: &mut Text, layout: &Layout) {
    push_tests(out, layout);
    push_shares(out, layout)
}
