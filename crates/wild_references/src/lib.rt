//! The values that the writer computes are those of the judge's formulas: one law for each term, and the law of a whole section.
#![tactic(auto)]

ghost use Rattle.wild_reloc.specs.declared.expression.Term.TheVariants as term;
ghost use Rattle.wild_references.specs.Laws.{AddressesGive, AddressesGiveLinked, EntriesGive, ItemFieldsHold, ItemsHaveBytes, OutputsMoveByPages, PartsGive, PartsGiveLinked, SlotsGive, StubsRepresentSymbols, TermGives, TermGivesLinked, ThreadPlacesAreKnown};
ghost use Rattle.wild_references.specs.PlainLaws.{PlainInstructionsDo, RawValuesAreAddresses, RowsHaveFormulas};
ghost use Rattle.wild_references.specs.Stubs.{StubsJumpToSlots, StubsAreOfSymbols};
ghost use Rattle.wild_references.specs.Thunks.{ThunksGive, ThunksJumpToTargets};
ghost use Rattle.wild_references.specs.FilledX86_64.{FilledInstructionsDo};
ghost use Rattle.wild_references.specs.EffectLaws.{InstructionsAreKept, ItemsHold, KeptInstructionsDo, OthersAreKept, PartnersHold, RewrittenAreFollowed, RewrittenHold, RewrittenAreInstructions, SequencesAreKept, WindowsHaveNoOtherField};

use wild_geometry::machines_have_their_facts;
use wild_loader::{stubs_are_read, stubs_of_words_are_read};
use wild_relax::{
    aarch64_code_reaches, aarch64_rewrites_keep_the_effect, aarch64_rows_apply_together,
    rewrites_keep_the_effect, rewrites_stay_in_their_patterns, stubs_jump_to_their_slots,
};
use wild_reloc::widths_of_fields;

/// S + A, if the symbol or the output does not move, and S + A minus the place or GOT.
pub fn symbols_are_given()
    ensures gives { TermGives term.Symbol }
    ensures linked { TermGivesLinked term.Symbol }
{
    stubs_jump_to_their_slots();
    aarch64_code_reaches();
    stubs_are_read();
    stubs_of_words_are_read();
}

/// L + A, minus the place or GOT.
pub fn stubs_are_given()
    ensures gives { TermGives term.Stub }
    ensures stand { StubsRepresentSymbols }
{
    stubs_jump_to_their_slots();
    aarch64_code_reaches();
    stubs_are_read();
    stubs_of_words_are_read();
}

/// G + A, minus the place or GOT, for slots of each sort.
pub fn slots_are_given()
    ensures { SlotsGive }
{
    stubs_jump_to_their_slots();
    aarch64_code_reaches();
    stubs_are_read();
    stubs_of_words_are_read();
}

/// L + A - P for a branch through a thunk.
pub fn thunks_are_given()
    ensures { ThunksGive }
{
    stubs_jump_to_their_slots();
    aarch64_code_reaches();
    stubs_are_read();
    stubs_of_words_are_read();
}

/// GOT + A - P.
pub fn distances_of_the_table_are_given()
    ensures { TermGives term.GotBase }
{}

/// Z + A.
pub fn sizes_are_given()
    ensures { TermGives term.Size }
{}

/// For an AArch64 output the bits below its page of S + A, and of G.
pub fn parts_are_given()
    ensures gives { PartsGive }
    ensures linked { PartsGiveLinked }
{
    stubs_jump_to_their_slots();
    aarch64_code_reaches();
    stubs_are_read();
    stubs_of_words_are_read();
}

/// A thread-pointer offset, plus A.
pub fn offsets_from_the_thread_pointer_are_given()
    ensures gives { TermGives term.PointerOffset }
    ensures linked { TermGivesLinked term.PointerOffset }
{}

/// An offset in the module's thread-local data, plus A.
pub fn offsets_in_the_module_are_given()
    ensures gives { TermGives term.ModuleOffset }
    ensures linked { TermGivesLinked term.ModuleOffset }
{}

/// S + A for a symbol that moves with the base: the value after loading of an address that moves.
pub fn addresses_are_given()
    ensures gives { AddressesGive }
    ensures linked { AddressesGiveLinked }
{
    stubs_jump_to_their_slots();
    aarch64_code_reaches();
    stubs_are_read();
    stubs_of_words_are_read();
}

/// S + A and Z + A in fields that are left to entries: the value that a loader stores there.
pub fn entries_are_given()
    ensures { EntriesGive }
{
    machines_have_their_facts();
}

/// A symbol's offset in the thread-local data, and that it is the symbol's address minus the thread pointer.
pub fn thread_places_are_known()
    ensures { ThreadPlacesAreKnown }
{}

/// Each stub in memory, used or not, jumps to the address in its symbol's first slot. In a legal world this is the symbol's value.
pub fn stubs_jump_to_slots()
    ensures jump { StubsJumpToSlots }
    ensures symbols { StubsAreOfSymbols }
{
    stubs_jump_to_their_slots();
    aarch64_code_reaches();
    stubs_are_read();
    stubs_of_words_are_read();
}

/// Each thunk in memory, used or not, jumps to its target.
pub fn thunks_jump_to_targets()
    ensures { ThunksJumpToTargets }
{
    aarch64_code_reaches();
    stubs_of_words_are_read();
}

/// In a legal world the bases of a laid out output are multiples of 4096, and its items consist of bytes.
pub fn outputs_move_by_pages()
    ensures pages { OutputsMoveByPages }
    ensures bytes { ItemsHaveBytes }
{}

/// If memory has a kept section as decided, each of its references that keeps its instruction has its formula's value.
pub fn item_fields_hold()
    ensures { ItemFieldsHold }
{
    machines_have_their_facts();
    widths_of_fields();
    symbols_are_given();
    stubs_are_given();
    thunks_are_given();
    thunks_jump_to_targets();
    slots_are_given();
    parts_are_given();
    distances_of_the_table_are_given();
    sizes_are_given();
    offsets_from_the_thread_pointer_are_given();
    offsets_in_the_module_are_given();
    addresses_are_given();
    entries_are_given();
}

/// An instruction with filled fields has the effect that the input's bytes require, if its operand has the right value.
pub fn filled_instructions_do()
    ensures { FilledInstructionsDo }
{}

/// No other relocation has a field among the bytes of a rewritten instruction.
pub fn windows_have_no_other_field()
    ensures { WindowsHaveNoOtherField }
{}

/// A rewritten instruction is one that the judge knows, and has the effect that the input's instruction requires. So does the
/// call of its sequence.
pub fn rewritten_instructions_hold()
    ensures stand { RewrittenAreInstructions }
    ensures rewritten { RewrittenHold }
    ensures partners { PartnersHold }
{
    windows_have_no_other_field();
    rewrites_keep_the_effect();
    rewrites_stay_in_their_patterns();
    symbols_are_given();
    offsets_from_the_thread_pointer_are_given();
    slots_are_given();
    aarch64_rows_apply_together();
    aarch64_rewrites_keep_the_effect();
    stubs_jump_to_their_slots();
    aarch64_code_reaches();
    stubs_are_read();
    stubs_of_words_are_read();
}

/// The field of a rewritten instruction names a slot of its symbol, not the symbol itself, or only the output defines the symbol.
pub fn rewritten_instructions_are_followed()
    ensures { RewrittenAreFollowed }
{}

/// Either all relocations of a sequence keep it, or none does. An instruction that is not rewritten keeps its bytes, whatever is
/// rewritten near it. So does every byte outside all fields and instructions.
pub fn other_bytes_are_kept()
    ensures sequences { SequencesAreKept }
    ensures instructions { InstructionsAreKept }
    ensures others { OthersAreKept }
{
    rewritten_instructions_hold();
    rewrites_stay_in_their_patterns();
    aarch64_rows_apply_together();
}

/// A kept instruction has the effect that it requires, because of its fields' values.
pub fn kept_instructions_do()
    ensures { KeptInstructionsDo }
{
    other_bytes_are_kept();
}

/// Each reference of a loaded section holds.
pub fn items_hold()
    ensures { ItemsHold }
{
    rewritten_instructions_hold();
    rewritten_instructions_are_followed();
    other_bytes_are_kept();
    kept_instructions_do();
}

/// The same for the memory of any image, whoever wrote it, by what memory has at the fields and beside them.
pub fn plain_items_are_read()
    ensures rows { RowsHaveFormulas }
    ensures values { RawValuesAreAddresses }
    ensures instructions { PlainInstructionsDo }
{
    machines_have_their_facts();
}
