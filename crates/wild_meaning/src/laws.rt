//! The images that the definitions refuse: worked layouts, legal worlds for them, and images that are not linked there.
ghost use Rattle.wild_meaning.specs.Worked.CopyRefusals.{CopyingWorldIsLegal, RoomlessWorldIsLegal, WrongCopyIsRefused, WrongZeroIsRefused, WrongPlaceOfCopyIsRefused, WrongMachineIsRefused, WrongHeadersAreRefused, CopyingImageIsLinked};
ghost use Rattle.wild_meaning.specs.Worked.ImageRefusalsAArch64.{WordsWorldIsLegal, WrongCodeOfWordsIsRefused, WordsImageIsLinked};
ghost use Rattle.wild_meaning.specs.Worked.RefusalsAArch64.{RightWordsDo, WrongWordsAreRefused, CutBitsAreRefused, SlotAddendsAreRefused, PairsAreExcepted, NegatedMovesAreUnknown, ShiftedAddsAreUnknown, ThunksAreJudged};
ghost use Rattle.wild_meaning.specs.Worked.ReplaceableSymbols.{DynamicIsReplaceable, ExportedIsReplaceable, AnswersAreTaken};
ghost use Rattle.wild_meaning.specs.Worked.SegmentRefusals.{WrongSegmentsAreRefused, WrongStacksAreRefused, OtherPlacesAreRefused, WrongFieldsAreRefused, WrongSectionsAreRefused, NoDynamicIsRefused, WrongEntriesAreRefused, OwnSectionsAreJudged};
ghost use Rattle.wild_meaning.specs.Worked.SharedRefusals.{SharedWorldIsLegal, WrongSlotsAreRefused, WrongAddressesAreRefused, WrongOffsetsAreRefused, WrongModulesAreRefused, WrongDescriptorsAreRefused, WrongSizeIsRefused, WrongByteIsRefused, WrongOwnDistanceIsRefused, ChangedTableIsRefused, WrongCodeOfLibraryIsRefused, SharedImageIsLinked, SlotsNeedTheirFlags, WrongStubsAreRefused};
ghost use Rattle.wild_meaning.specs.Worked.StringRefusals.{StringsWorldIsLegal, StringsAreJudged, ReversedWordsAreJudged, TextsAreJudged, StringsImageIsLinked};
ghost use Rattle.wild_meaning.specs.Worked.TermRefusals.{WrongTermsAreRefused, WrongPagesAreRefused, CutNumbersAreRefused, OtherBitsAreRefused};
ghost use Rattle.wild_meaning.specs.Worked.SequenceRefusals.{RemovedCallsAreRefused, OtherBasesAreRefused, KeptCallsAreRefused, OtherAddendsAreNoCalls};
ghost use Rattle.wild_meaning.specs.Worked.StaticRefusals.{StaticPieWorldIsLegal, WrongDataAreRefused, WrongCodeIsRefused, WrongBlankIsRefused, StaticImageIsLinked, PaddedImageIsLinked};

use wild_records::file_header_is_read;

/// Each worked layout has a legal world at a base other than 0. So has a layout without room for a copied symbol.
pub fn worked_worlds_are_legal()
    ensures shared { SharedWorldIsLegal }
    ensures copying { CopyingWorldIsLegal }
    ensures roomless { RoomlessWorldIsLegal }
    ensures static_pie { StaticPieWorldIsLegal }
{}

/// A symbol of another module, and a library's own symbol that is visible and interposable, may be defined by another module. A
/// legal world has another address for it.
pub fn symbols_are_replaced()
    ensures dynamic { DynamicIsReplaceable }
    ensures exported { ExportedIsReplaceable }
    ensures taken { AnswersAreTaken }
{}

/// No image of the worked shared object is linked in its world with one fault in memory:
/// - a slot of an address or an offset, a stub, a word with an address, a thread-pointer offset;
/// - the module of a pair, the offset of a descriptor, a size, a byte in no field;
/// - a distance that only the library's own symbol can have;
/// - a byte of the dynamic section that is not as in the file;
/// - code that receives an offset where it requires a descriptor.
/// A symbol has no slot of a sort whose flag it lacks. One image is linked there.
pub fn wrong_shared_objects_are_refused()
    ensures slots { WrongSlotsAreRefused }
    ensures flags { SlotsNeedTheirFlags }
    ensures stubs { WrongStubsAreRefused }
    ensures addresses { WrongAddressesAreRefused }
    ensures offsets { WrongOffsetsAreRefused }
    ensures modules { WrongModulesAreRefused }
    ensures descriptors { WrongDescriptorsAreRefused }
    ensures size { WrongSizeIsRefused }
    ensures byte { WrongByteIsRefused }
    ensures near { WrongOwnDistanceIsRefused }
    ensures table { ChangedTableIsRefused }
    ensures code { WrongCodeOfLibraryIsRefused }
    ensures linked { SharedImageIsLinked }
{}

/// No image of the worked program with a copied symbol is linked in its world with one fault:
/// - a copied byte, or a zero byte of a section without data;
/// - the address of the copied symbol;
/// - the machine, type or entry in the file header.
/// One image is linked there.
pub fn wrong_copies_are_refused()
    ensures copy { WrongCopyIsRefused }
    ensures zero { WrongZeroIsRefused }
    ensures place { WrongPlaceOfCopyIsRefused }
    ensures machine { WrongMachineIsRefused }
    ensures header { WrongHeadersAreRefused }
    ensures linked { CopyingImageIsLinked }
{
    file_header_is_read();
}

/// No image of the worked program without a dynamic linker is linked in its world with one fault:
/// - an address that does not move, or an offset or entry that does;
/// - a branch to another symbol, or a load of the byte past its symbol;
/// - a half rewritten sequence, or one with another symbol's offset, or code that receives a descriptor where it requires an offset;
/// - a byte other than 0 in a section without data, among others that have some.
/// One image is linked there, and one of the program with such a section.
pub fn wrong_programs_are_refused()
    ensures words { WrongDataAreRefused }
    ensures code { WrongCodeIsRefused }
    ensures blank { WrongBlankIsRefused }
    ensures linked { StaticImageIsLinked }
    ensures padded { PaddedImageIsLinked }
{
    file_header_is_read();
}

/// A reference to the middle of a merged string holds if its field is that byte's address. No image is linked if it is another
/// number; if two words that must be reversed are in input order; or if a byte of a merged string, or of the interpreter's path, is
/// another one.
/// The world is legal, and one image is linked there.
pub fn strings_and_reversed_words_are_judged()
    ensures legal { StringsWorldIsLegal }
    ensures strings { StringsAreJudged }
    ensures reversed { ReversedWordsAreJudged }
    ensures texts { TextsAreJudged }
    ensures linked { StringsImageIsLinked }
{}

/// No image describes its layout's output, in whatever world, if:
/// - its segments are not the layout's, or cannot be mapped page by page;
/// - its file header has another version or ABI, or other sizes or another place of headers;
/// - its section headers are not those of the layout's sections;
/// - a dynamic linker loads it and it has no dynamic section, or one that allows late binding or has a wrong type, size or number
/// of entries, leads to other tables or functions than the layout's, or does not end.
pub fn wrong_segments_are_refused()
    ensures segments { WrongSegmentsAreRefused }
    ensures stacks { WrongStacksAreRefused }
    ensures places { OtherPlacesAreRefused }
    ensures fields { WrongFieldsAreRefused }
    ensures sections { WrongSectionsAreRefused }
    ensures dynamic { NoDynamicIsRefused }
    ensures entries { WrongEntriesAreRefused }
    ensures own { OwnSectionsAreJudged }
{
    file_header_is_read();
}

/// On AArch64 a rewritten descriptor call has the required effect, and so has a page pair. With one wrong word the code does not:
/// - a call that remains, or one half in the other half's place;
/// - a distance from another place, or the complement of a number;
/// - the slot of another symbol.
/// No reference holds whose value does not fit its field, or that adds something to a symbol's slot.
/// The two parts of an absolute symbol's address are checked at the same bases.
/// Neither `movn` nor an `add` of a shifted number is an instruction that its type fills. A thunk to the next page does not reach
/// its target.
pub fn wrong_words_are_refused()
    ensures right { RightWordsDo }
    ensures wrong { WrongWordsAreRefused }
    ensures cut { CutBitsAreRefused }
    ensures addends { SlotAddendsAreRefused }
    ensures pairs { PairsAreExcepted }
    ensures negated { NegatedMovesAreUnknown }
    ensures shifted { ShiftedAddsAreUnknown }
    ensures thunks { ThunksAreJudged }
{}

/// No image of the worked AArch64 program is linked in its world with one fault:
/// - a load from another slot than the symbol's, or a thunk to the next page;
/// - a branch with an addend through a thunk, which adds nothing;
/// - a descriptor call that is rewritten by half, or with the low half of the offset in the high one's place;
/// - an address in two instructions that is not the symbol's.
/// The world is legal, and one image is linked there.
pub fn wrong_programs_of_words_are_refused()
    ensures legal { WordsWorldIsLegal }
    ensures code { WrongCodeOfWordsIsRefused }
    ensures linked { WordsImageIsLinked }
{}

/// In no layout does a reference in data hold if its field has:
/// - another number than the distance of the global offset table, or from it;
/// - in an executable, another offset in the output's own thread-local data;
/// - another page than the symbol's, or its slot's;
/// - the low 32 bits of a longer number;
/// - in an AArch64 instruction, another bit outside the field.
pub fn wrong_numbers_are_refused()
    ensures terms { WrongTermsAreRefused }
    ensures pages { WrongPagesAreRefused }
    ensures cut { CutNumbersAreRefused }
    ensures others { OtherBitsAreRefused }
{}

/// In no layout of x86-64 does thread-local code hold if:
/// - a library lacks the call through a descriptor;
/// - an executable's own thread-local data start elsewhere than at the thread pointer;
/// - a call remains in its sequence, and has another distance.
/// A call with another addend belongs to no sequence.
pub fn wrong_sequences_are_refused()
    ensures calls { RemovedCallsAreRefused }
    ensures bases { OtherBasesAreRefused }
    ensures kept { KeptCallsAreRefused }
    ensures addends { OtherAddendsAreNoCalls }
{}
