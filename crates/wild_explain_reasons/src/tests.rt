//! The tests of the clauses, by the kind of item that they look at.

use wild_types::Role;

/// Tests of the plan as a whole.
pub(crate) enum PlanTest {
    PageSize,
    ThreadAlign,
    ThreadEnd,
    ThreadStart,
    NoPair,
    NoSection,
    NoGroup,
    TooMany,
    Missing(Role),
    /// Of the role with the number that the clause gives.
    StaticDynamic,
    /// The same.
    NoTable,
    FirstSection,
    NoDynamicSegment,
    Entry,
    PrimaryPart,
    Primary,
    Pair,
    SysvBuckets,
    GnuBuckets,
    GnuBloom,
    GnuShift,
    GnuBase,
    NoVersion,
    Versions,
    SearchPath,
    OwnName,
    /// The part of the linker's name of itself.
    IdentityPart,
    IdentityRaw,
    IdentitySize,
    IdentityAlone,
    Interpreter,
    /// Of a relocatable object.
    PartialSegments,
    /// The same.
    PartialPair,
    /// The same.
    PartialDynsyms,
    /// Of a relocatable object.
    KeepsAll,
}

/// Tests of a part.
pub(crate) enum PartTest {
    Ends,
    Order,
    RoleTwice,
    At(u64),
    RelativeEnd,
    SectionRange,
    Unallocated,
    Entries,
    Split,
    Shares,
    Section,
    RelrOption,
    /// Of an image for debuggers alone.
    DynamicNote,
    /// The same.
    OmittedHeader,
    Last,
}

/// Tests of an output section.
pub(crate) enum SectionTest {
    Ends,
    Memory,
    Bytes,
    Entries,
    Name,
}

/// Tests of a segment.
pub(crate) enum SegmentTest {
    Ends,
    Order,
    Larger,
    Remainder,
    AtZero,
    ImageEnd,
    Dynamic,
}

/// Tests of a symbol.
pub(crate) enum SymbolTest {
    Definition,
    Output,
    SymbolFile,
    FinalDefinition,
    UnwrittenSlot,
    Slot,
    Stub,
    Even,
    Position,
    DynamicOwn,
    StubValue,
    StubWithoutGot,
    TwoSeconds,
    ThreadStub,
    IfuncDynamic,
    SlotWithoutFlag,
    NoSlot,
    GotThread,
    IfuncAbsolute,
    Second,
    Other,
    Name,
    /// Of a relocatable object.
    PartialSlot,
    /// The same.
    PartialIndex,
}

/// Tests of an input section.
pub(crate) enum InputTest {
    Ends,
    ShareStart,
    ShareEnd,
    Order,
    Length,
    Frames,
    Discarded,
    RawPart,
    Front,
    Allocation,
    Room,
    Fields,
    Malformed,
    Words,
    Reversed,
    PartIndex,
    Singleton,
    Members,
    Symbols,
    Name,
    /// Of a relocatable object.
    Debug,
    /// Of any other output.
    Partial,
    Target,
    Group,
    NoData,
}

/// Tests of a file.
pub(crate) enum FileTest {
    Role,
    Range,
    Copies,
    ThunkBlock,
    Twice,
    Order,
    Mark,
    Library,
    Needed,
}

/// Tests of a thunk.
pub(crate) enum ThunkTest {
    Symbol,
    Order,
    Place,
    BlockFile,
    Last,
    /// Of a relocatable object.
    Any,
}

/// Tests of an entry of `sorted`.
pub(crate) enum SortedTest {
    Other,
    Index,
}

/// Tests of merged strings.
pub(crate) enum MergedTest {
    Raw,
    Part,
    Size,
    Shared,
}

/// Tests of a group.
pub(crate) enum GroupTest {
    Count,
    NoFile,
    Start(Role),
}

/// Tests of an item of `dynsyms` or `verdefs`.
pub(crate) enum EntryTest {
    Index,
    Order,
    Name,
}

/// A test, by the kind of item that it looks at.
pub(crate) enum Test {
    Plan(PlanTest),
    Part(PartTest),
    /// The part of a role.
    Of(Role, PartTest),
    Section(SectionTest),
    Segment(SegmentTest),
    Symbol(SymbolTest),
    /// The symbol of an item of `dynsyms`.
    Placed,
    Group(GroupTest),
    File(FileTest),
    Input(InputTest),
    Listed(EntryTest),
    Version(EntryTest),
    Thunk(ThunkTest),
    Sorted(SortedTest),
    Merged(MergedTest),
    Property,
    Auxiliary,
}
