//! The tests of the clauses on indexes, slots, tables and names. Each has the mistake of an item that fails it, and the member that is
//! tested. The tests of a clause are in its order, so the first test that an item fails is the mistake to name.

use crate::layout_rows::Row;
use crate::tests::{
    EntryTest, FileTest, GroupTest, InputTest, MergedTest, PartTest, PlanTest, SectionTest,
    SortedTest, SymbolTest, Test, ThunkTest,
};
use wild_types::Role;

const SYMBOLS: &str = "a file's symbols are not there";

const START: &str = "a group's start is not the sum of the shares of the groups before it";

const SHAPE: &str = "the shape of the GNU hash table";

const ZERO: &str = "a name has a zero byte; the one that ends a string is added when it is written";

const CLAUSE_9: [Row; 22] = [
    (
        Test::Part(PartTest::Section),
        "a part's section is not there",
        "/section",
    ),
    (
        Test::Plan(PlanTest::PrimaryPart),
        "the part of thunks is not there",
        "/primary_part",
    ),
    (
        Test::Symbol(SymbolTest::Definition),
        "the definition of a symbol is not there",
        "/definition",
    ),
    (
        Test::Symbol(SymbolTest::Output),
        "the output section of a symbol is not there",
        "/place/output",
    ),
    (
        Test::Symbol(SymbolTest::SymbolFile),
        "the input section of a symbol is not there, or the symbol is in no file's range (`first_symbol`, `symbol_count`)",
        "/place/section",
    ),
    (Test::File(FileTest::Range), SYMBOLS, "/symbol_count"),
    (Test::File(FileTest::Copies), SYMBOLS, "/copies"),
    (
        Test::File(FileTest::ThunkBlock),
        "a file's block of thunks is not there",
        "/thunk_block",
    ),
    (
        Test::Input(InputTest::PartIndex),
        "an input section's part is not there",
        "/part",
    ),
    (
        Test::Input(InputTest::Singleton),
        "the output section of an input section that is kept by itself is not there",
        "/singleton",
    ),
    (
        Test::Input(InputTest::Members),
        "a member of a group is no output section",
        "/members",
    ),
    (
        Test::Input(InputTest::Symbols),
        "a relocation's symbol is not there",
        "/relocations",
    ),
    (
        Test::Listed(EntryTest::Index),
        "a symbol of `dynsyms` is not there",
        "/symbol",
    ),
    (
        Test::Version(EntryTest::Index),
        "a parent of `verdefs` is not there",
        "/parent",
    ),
    (
        Test::Thunk(ThunkTest::Symbol),
        "the symbol of a thunk is not there",
        "/symbol",
    ),
    (
        Test::Sorted(SortedTest::Index),
        "the section that an entry of `sorted` names is not there",
        "",
    ),
    (
        Test::Merged(MergedTest::Part),
        "the part of merged strings is not there",
        "/part",
    ),
    (
        Test::Plan(PlanTest::IdentityPart),
        "the part of the linker's name of itself is not there",
        "/identity/part",
    ),
    (
        Test::Plan(PlanTest::Entry),
        "the symbol of `entry` is not there",
        "/entry/symbol",
    ),
    (
        Test::File(FileTest::Twice),
        "two copies have one definition",
        "/copies",
    ),
    (
        Test::Symbol(SymbolTest::FinalDefinition),
        "a symbol's definition is itself defined by another one",
        "/definition",
    ),
    (
        Test::File(FileTest::Order),
        "a file's range of symbols begins before the end of the one before it",
        "/first_symbol",
    ),
];

const CLAUSE_11: [Row; 7] = [
    (
        Test::Symbol(SymbolTest::UnwrittenSlot),
        "no file whose range has the symbol writes its slots",
        "/resolution/got",
    ),
    (
        Test::Symbol(SymbolTest::Slot),
        "the symbol's first slot is not the next free word of its part",
        "/resolution/got",
    ),
    (
        Test::Symbol(SymbolTest::Stub),
        "the symbol's stub is not the next free one of its part",
        "/resolution/plt",
    ),
    (
        Test::Symbol(SymbolTest::Even),
        "a slot is no multiple of 8",
        "/resolution/got",
    ),
    (
        Test::Part(PartTest::RelrOption),
        "the part got_relr is there without the option `relr`",
        "/role",
    ),
    (
        Test::Plan(PlanTest::Pair),
        "the pair of `tlsld` does not stand behind the reserved words of the part got",
        "/tlsld",
    ),
    (
        Test::Part(PartTest::Last),
        "the part got_relr stands at address 0",
        "/address",
    ),
];

const CLAUSE_12: [Row; 4] = [
    (
        Test::Thunk(ThunkTest::Order),
        "the thunk's symbol does not come behind that of the thunk ahead",
        "/symbol",
    ),
    (
        Test::Thunk(ThunkTest::Place),
        "the thunk does not stand at the next free place of the primary part, behind the sections of its block's file and in its group's range; or the input section begins before that place",
        "/address",
    ),
    (
        Test::Thunk(ThunkTest::BlockFile),
        "no file owns the block of thunks",
        "",
    ),
    (Test::Thunk(ThunkTest::Last), "x86-64 has no thunks", ""),
];

const CLAUSE_13: [Row; 2] = [
    (
        Test::Symbol(SymbolTest::Position),
        "the symbol's index in the dynamic symbol table is not the position of its entry: an undefined one (DYNAMIC in an object, or a resolution in a file of role `dynamic`), or one of `dynsyms`",
        "/resolution/dynsym",
    ),
    (
        Test::Placed,
        "a symbol of `dynsyms` has no resolution with the position of its entry, or stands in a section with an index of 65280 or above",
        "/resolution/dynsym",
    ),
];

const CLAUSE_14: [Row; 12] = [
    (
        Test::Symbol(SymbolTest::DynamicOwn),
        "DYNAMIC with NON_INTERPOSABLE",
        "/flags",
    ),
    (
        Test::Symbol(SymbolTest::StubValue),
        "DYNAMIC with a stub that is not its `raw_value`",
        "/resolution/raw_value",
    ),
    (
        Test::Symbol(SymbolTest::StubWithoutGot),
        "a `plt` without a `got`",
        "/resolution/got",
    ),
    (
        Test::Symbol(SymbolTest::TwoSeconds),
        "IFUNC_GOT_FOR_ADDRESS with CANONICAL_PLT_GOT_FOR_ADDRESS",
        "/flags",
    ),
    (
        Test::Symbol(SymbolTest::ThreadStub),
        "a thread-local slot with IFUNC or a `plt`",
        "/flags",
    ),
    (
        Test::Symbol(SymbolTest::IfuncDynamic),
        "IFUNC with DYNAMIC",
        "/flags",
    ),
    (
        Test::Symbol(SymbolTest::SlotWithoutFlag),
        "a `got` without GOT or a flag of a thread-local slot",
        "/flags",
    ),
    (
        Test::Symbol(SymbolTest::NoSlot),
        "GOT, or a flag of a thread-local slot, without a `got`",
        "/resolution/got",
    ),
    (
        Test::Symbol(SymbolTest::GotThread),
        "GOT with a flag of a thread-local slot",
        "/flags",
    ),
    (
        Test::Symbol(SymbolTest::IfuncAbsolute),
        "IFUNC with ABSOLUTE",
        "/flags",
    ),
    (
        Test::Symbol(SymbolTest::Second),
        "a second slot for an address in the part got_relr (without IFUNC or CANONICAL_PLT)",
        "/flags",
    ),
    (
        Test::Symbol(SymbolTest::Other),
        "flags that do not go together",
        "/flags",
    ),
];

const CLAUSE_15: [Row; 3] = [
    (
        Test::Plan(PlanTest::ThreadEnd),
        "the thread-local data end before their start",
        "/tls/end",
    ),
    (
        Test::Plan(PlanTest::ThreadStart),
        "the start of the thread-local data is no multiple of their alignment",
        "/tls/start",
    ),
    (
        Test::Plan(PlanTest::NoPair),
        "AArch64 has no module pair of its own for local-dynamic references",
        "/tlsld",
    ),
];

const CLAUSE_16: [Row; 5] = [
    (
        Test::Group(GroupTest::Start(Role::Dynstr)),
        START,
        "/dynstr_start",
    ),
    (
        Test::Group(GroupTest::Start(Role::Strtab)),
        START,
        "/strtab_start",
    ),
    (
        Test::Group(GroupTest::Start(Role::EhFrame)),
        START,
        "/eh_frame_start",
    ),
    (
        Test::Group(GroupTest::Start(Role::SymtabLocal)),
        START,
        "/symtab_local_start",
    ),
    (
        Test::Group(GroupTest::Start(Role::SymtabGlobal)),
        START,
        "/symtab_global_start",
    ),
];

const CLAUSE_17: [Row; 6] = [
    (
        Test::Plan(PlanTest::SysvBuckets),
        "the System V hash table has no bucket",
        "/sysv_hash/buckets",
    ),
    (Test::Plan(PlanTest::GnuBuckets), SHAPE, "/gnu_hash/buckets"),
    (
        Test::Plan(PlanTest::GnuBloom),
        SHAPE,
        "/gnu_hash/bloom_count",
    ),
    (
        Test::Plan(PlanTest::GnuShift),
        SHAPE,
        "/gnu_hash/bloom_shift",
    ),
    (Test::Plan(PlanTest::GnuBase), SHAPE, "/gnu_hash/base"),
    (
        Test::Listed(EntryTest::Order),
        "the symbols of `dynsyms` do not ascend by the bucket of their names in the GNU hash table",
        "",
    ),
];

const CLAUSE_18: [Row; 4] = [
    (
        Test::Plan(PlanTest::NoVersion),
        "the part gnu_version_d is there and no version is defined",
        "/verdefs",
    ),
    (
        Test::Version(EntryTest::Order),
        "a version's parent is not an earlier one behind the first",
        "/parent",
    ),
    (
        Test::File(FileTest::Mark),
        "`last` is set at the last library with `verneed`, and at no other",
        "/verneed/last",
    ),
    (
        Test::Plan(PlanTest::Versions),
        "the part gnu_version is there exactly with the option `versions`",
        "/options/versions",
    ),
];

const CLAUSE_19: [Row; 11] = [
    (Test::Plan(PlanTest::SearchPath), ZERO, "/options/rpath"),
    (Test::Plan(PlanTest::OwnName), ZERO, "/options/soname"),
    (Test::Auxiliary, ZERO, ""),
    (Test::Section(SectionTest::Name), ZERO, "/name"),
    (Test::Symbol(SymbolTest::Name), ZERO, "/name"),
    (Test::Input(InputTest::Name), ZERO, "/name"),
    (Test::File(FileTest::Library), ZERO, "/lib_name"),
    (Test::File(FileTest::Needed), ZERO, "/verneed/versions"),
    (Test::Listed(EntryTest::Name), ZERO, "/name"),
    (Test::Version(EntryTest::Name), ZERO, "/name"),
    (
        Test::Plan(PlanTest::Interpreter),
        "the path of the interpreter does not end with its only zero byte",
        "/interp",
    ),
];

const CLAUSE_20: [Row; 2] = [
    (
        Test::Input(InputTest::Words),
        "a reversed input section has more than whole words of 8 bytes",
        "/size",
    ),
    (
        Test::Input(InputTest::Reversed),
        "a relocation of a reversed input section is of something else than a whole word",
        "/relocations",
    ),
];

const CLAUSE_21: [Row; 11] = [
    (
        Test::Plan(PlanTest::PartialSegments),
        "a relocatable object has no segments",
        "/segments",
    ),
    (
        Test::Symbol(SymbolTest::PartialSlot),
        "no symbol of a relocatable object has slots or a stub",
        "/resolution",
    ),
    (
        Test::Plan(PlanTest::PartialPair),
        "a relocatable object has no slots, and no pair of them for thread-local data",
        "/tlsld",
    ),
    (
        Test::Thunk(ThunkTest::Any),
        "a relocatable object has no thunks",
        "",
    ),
    (
        Test::Plan(PlanTest::PartialDynsyms),
        "a relocatable object has no dynamic symbols",
        "/dynsyms",
    ),
    (
        Test::Symbol(SymbolTest::PartialIndex),
        "no symbol of a relocatable object has an index in a dynamic symbol table",
        "/resolution/dynsym",
    ),
    (
        Test::Input(InputTest::Debug),
        "a debug section of a relocatable object is written as all others are (slot `loaded`)",
        "/slot",
    ),
    (
        Test::Input(InputTest::Partial),
        "only a relocatable object has tables of relocations, groups and sections that are kept by themselves",
        "",
    ),
    (
        Test::Input(InputTest::Target),
        "a table of relocations has not 24 bytes for each relocation of its target, or its file has no such section",
        "/size",
    ),
    (
        Test::Input(InputTest::Group),
        "a group has not four bytes for its flags and four for each member",
        "/size",
    ),
    (
        Test::Input(InputTest::NoData),
        "a table of relocations or a group is without data",
        "/nobits",
    ),
];

const CLAUSE_22: [Row; 8] = [
    (
        Test::Merged(MergedTest::Size),
        "merged strings are not the room of their part in the first group",
        "/strings",
    ),
    (
        Test::Plan(PlanTest::IdentitySize),
        "the linker's name of itself is not the room of its part in the first group",
        "/identity/bytes",
    ),
    (Test::Property, "an earlier property has the type", "/ptype"),
    (
        Test::Plan(PlanTest::KeepsAll),
        "a relocatable object keeps debug sections alone",
        "/options/only_keep_debug",
    ),
    (
        Test::Part(PartTest::DynamicNote),
        "the dynamic section stands in a section of notes, in an image of debug sections alone",
        "/section",
    ),
    (
        Test::Merged(MergedTest::Shared),
        "two items of `merged` with strings name one part",
        "/part",
    ),
    (
        Test::Plan(PlanTest::IdentityAlone),
        "merged strings stand in the part of the linker's name of itself",
        "/identity/part",
    ),
    (
        Test::Part(PartTest::OmittedHeader),
        "headers or names of sections stand in an allocated section, in an image of debug sections alone",
        "/section",
    ),
];

/// The tests of clause 9, or of a clause from 11 on.
pub(crate) fn table_rows(clause: u32) -> &'static [Row] {
    match clause {
        9 => &CLAUSE_9,
        11 => &CLAUSE_11,
        12 => &CLAUSE_12,
        13 => &CLAUSE_13,
        14 => &CLAUSE_14,
        15 => &CLAUSE_15,
        16 => &CLAUSE_16,
        17 => &CLAUSE_17,
        18 => &CLAUSE_18,
        19 => &CLAUSE_19,
        20 => &CLAUSE_20,
        21 => &CLAUSE_21,
        22 => &CLAUSE_22,
        _ => &[],
    }
}
