//! The tests of clauses 1 to 8 and 10. Each has the mistake of an item that fails it, and the member that is tested. The tests of a clause
//! are in its order, so the first test that an item fails is the mistake to name.

use crate::tests::{
    FileTest, GroupTest, InputTest, MergedTest, PartTest, PlanTest, SectionTest, SegmentTest,
    SortedTest, Test,
};
use wild_types::Role;

/// A test of a clause, what is wrong if it fails, and the member.
pub(crate) type Row = (Test, &'static str, &'static str);

const ENDS: &str =
    "the alignment is no power of two, or the end in memory or in the file is above 2^62";

const EMPTY: &str = "a list is empty that must not be";

const MISSING: &str = "no part has a role that each output has";

const HEADERS: &str = "the part does not stand where headers stand";

const CLAUSE_1: [Row; 6] = [
    (
        Test::Plan(PlanTest::PageSize),
        "the page size is no power of two from 4096 to 65536",
        "/page_size",
    ),
    (Test::Part(PartTest::Ends), ENDS, ""),
    (Test::Section(SectionTest::Ends), ENDS, ""),
    (Test::Segment(SegmentTest::Ends), ENDS, ""),
    (
        Test::Plan(PlanTest::ThreadAlign),
        "the alignment of the thread-local data is no power of two",
        "/tls/align",
    ),
    (
        Test::Input(InputTest::Ends),
        "an input section ends above 2^62",
        "/address",
    ),
];

const CLAUSE_2: [Row; 3] = [
    (Test::Plan(PlanTest::NoSection), EMPTY, "/sections"),
    (Test::Plan(PlanTest::NoGroup), EMPTY, "/groups"),
    (Test::Plan(PlanTest::TooMany), "a list is too long", ""),
];

const CLAUSE_3: [Row; 2] = [
    (
        Test::Part(PartTest::Order),
        "the part begins before the end of the part before it in the file",
        "/offset",
    ),
    (
        Test::Part(PartTest::Last),
        "the part's offset is no multiple of its alignment",
        "/offset",
    ),
];

const CLAUSE_4: [Row; 10] = [
    (
        Test::Part(PartTest::RoleTwice),
        "two parts have one role",
        "/role",
    ),
    (
        Test::Plan(PlanTest::Missing(Role::FileHeader)),
        MISSING,
        "/parts",
    ),
    (
        Test::Of(Role::FileHeader, PartTest::At(0)),
        HEADERS,
        "/offset",
    ),
    (
        Test::Plan(PlanTest::Missing(Role::SectionHeaders)),
        MISSING,
        "/parts",
    ),
    (
        Test::Plan(PlanTest::Missing(Role::Shstrtab)),
        MISSING,
        "/parts",
    ),
    (
        Test::Plan(PlanTest::Missing(Role::ProgramHeaders)),
        MISSING,
        "/parts",
    ),
    (
        Test::Of(Role::ProgramHeaders, PartTest::At(64)),
        HEADERS,
        "/offset",
    ),
    (
        Test::Of(Role::RelaDynGeneral, PartTest::RelativeEnd),
        "the part rela_dyn_general does not begin where the part rela_dyn_relative ends",
        "/offset",
    ),
    (
        Test::Plan(PlanTest::StaticDynamic),
        "an output of kind `static` has no dynamic section",
        "/parts",
    ),
    (
        Test::Plan(PlanTest::NoTable),
        "a table has something to be written and no part",
        "/parts",
    ),
];

const CLAUSE_5: [Row; 4] = [
    (
        Test::Plan(PlanTest::FirstSection),
        "section 0 has a type or a name",
        "/sections/0",
    ),
    (
        Test::Part(PartTest::SectionRange),
        "the part does not lie in its section, at equal distance in file and memory",
        "/offset",
    ),
    (
        Test::Part(PartTest::Unallocated),
        "the part is read where the image is loaded, and its section is not allocated",
        "/section",
    ),
    (
        Test::Part(PartTest::Last),
        "the part takes file bytes, and its section has none",
        "/section",
    ),
];

const CLAUSE_6: [Row; 13] = [
    (
        Test::Segment(SegmentTest::Order),
        "the segment begins before the end of the loaded segment before it",
        "/address",
    ),
    (
        Test::Segment(SegmentTest::Larger),
        "the segment has more bytes in the file than in memory",
        "/mem_size",
    ),
    (
        Test::Segment(SegmentTest::Remainder),
        "the segment's address and offset leave different remainders by the page size",
        "/address",
    ),
    (
        Test::Section(SectionTest::Memory),
        "a byte of an allocated section lies in the memory of no PT_LOAD segment at equal distance in file and memory",
        "/address",
    ),
    (
        Test::Segment(SegmentTest::AtZero),
        "a loaded segment of a fixed executable begins at address 0",
        "/address",
    ),
    (
        Test::Section(SectionTest::Bytes),
        "a byte of an allocated section lies in the file bytes of no PT_LOAD segment at equal distance in file and memory",
        "/address",
    ),
    (
        Test::Segment(SegmentTest::ImageEnd),
        "the segment's file bytes end behind the image",
        "/file_size",
    ),
    (
        Test::Segment(SegmentTest::Dynamic),
        "a PT_DYNAMIC segment is not that of the part dynamic, or is a second one",
        "/offset",
    ),
    (
        Test::Plan(PlanTest::NoDynamicSegment),
        "no segment is PT_DYNAMIC (kind 2)",
        "/segments",
    ),
    (
        Test::Section(SectionTest::Entries),
        "an allocated section of entries has other bytes than its parts",
        "/size",
    ),
    (
        Test::Part(PartTest::Entries),
        "a part with entries stands in no allocated section of entries (kind 4)",
        "/section",
    ),
    (
        Test::Part(PartTest::Split),
        "the parts rela_dyn_relative and rela_dyn_general do not lie in one segment",
        "/address",
    ),
    (
        Test::Part(PartTest::Last),
        "a table that a loader reads does not lie in the file bytes of one PT_LOAD segment",
        "/address",
    ),
];

const CLAUSE_7: [Row; 4] = [
    (
        Test::Part(PartTest::Shares),
        "the groups' shares of a part do not add up to its size",
        "/size",
    ),
    (
        Test::Group(GroupTest::Count),
        "a group does not list one share for each part",
        "/part_sizes",
    ),
    (
        Test::File(FileTest::Role),
        "the first file of the first group is the prelude, the last of the last the epilogue, and no other is either",
        "/role",
    ),
    (
        Test::Group(GroupTest::NoFile),
        "the first group has a prelude and the last an epilogue",
        "/files",
    ),
];

const CLAUSE_8: [Row; 14] = [
    (
        Test::Input(InputTest::ShareStart),
        "the input section begins before the end of what stands ahead of it in its part",
        "/address",
    ),
    (
        Test::Input(InputTest::ShareEnd),
        "the input section ends behind the group's range of its part",
        "/address",
    ),
    (
        Test::Input(InputTest::Order),
        "a sorted input section is not named once in `sorted`",
        "/slot",
    ),
    (
        Test::Sorted(SortedTest::Other),
        "an entry of `sorted` names no sorted input section",
        "",
    ),
    (
        Test::Input(InputTest::Length),
        "an input section has not as many bytes as its size, or is without data and has some",
        "/size",
    ),
    (
        Test::Input(InputTest::Frames),
        "the part of an input section of frames is not the part eh_frame",
        "/part",
    ),
    (
        Test::Input(InputTest::Discarded),
        "a discarded input section has an address or bytes",
        "/slot",
    ),
    (
        Test::Input(InputTest::RawPart),
        "an input section's part is not a raw one",
        "/part",
    ),
    (
        Test::Merged(MergedTest::Raw),
        "the part of merged strings is not a raw one",
        "/part",
    ),
    (
        Test::Plan(PlanTest::IdentityRaw),
        "the part of the linker's name of itself is not a raw one",
        "/identity/part",
    ),
    (
        Test::Plan(PlanTest::Primary),
        "the part of thunks is not a raw one in an allocated section with data",
        "/primary_part",
    ),
    (
        Test::Input(InputTest::Front),
        "bytes of the first group stand in a part whose front merged strings or the linker's name of itself take",
        "/part",
    ),
    (
        Test::Input(InputTest::Allocation),
        "an input section is allocated and its part's section is not, or the other way round",
        "/flags",
    ),
    (
        Test::Input(InputTest::Room),
        "an input section with bytes stands in a section without data",
        "/part",
    ),
];

const CLAUSE_10: [Row; 2] = [
    (
        Test::Input(InputTest::Fields),
        "the field of a relocation ends behind its input section",
        "/relocations",
    ),
    (
        Test::Input(InputTest::Malformed),
        "a relocation that the reader of the input failed at, outside frames",
        "/relocations",
    ),
];

/// The tests of a clause from 1 to 8, or of clause 10.
pub(crate) fn layout_rows(clause: u32) -> &'static [Row] {
    match clause {
        1 => &CLAUSE_1,
        2 => &CLAUSE_2,
        3 => &CLAUSE_3,
        4 => &CLAUSE_4,
        5 => &CLAUSE_5,
        6 => &CLAUSE_6,
        7 => &CLAUSE_7,
        8 => &CLAUSE_8,
        10 => &CLAUSE_10,
        _ => &[],
    }
}
