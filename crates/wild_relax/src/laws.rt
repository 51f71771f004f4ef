//! Laws: the code that is written has the effect that is required.
ghost use Rattle.wild_relax.specs.Laws.{StubsJump};
ghost use Rattle.wild_relax.specs.KeepX86_64.{RowsHaveTypes, RowsKeep};
ghost use Rattle.wild_relax.specs.RowDuties.{RowsHaveDuties, MandatoryRowsAlone, FieldsSuitSymbols, AddendsAreChecked};
ghost use Rattle.wild_relax.specs.Section.{ChosenRowsApply, ChosenPatternsArePresent, SectionsAreLinked};

use wild_words::overlays_keep_pieces;

/// The code of a stub jumps to the address in its slot, whatever the base of the output.
pub fn stubs_jump_to_their_slots()
    ensures { StubsJump }
{}

/// The bytes that a rewrite writes have the effect that the input's bytes demand.
pub fn rewrites_keep_the_effect()
    ensures { RowsKeep }
{}

/// A rewrite writes its field as the machine's table of relocation types has it.
pub fn rewrites_write_relocation_types()
    ensures { RowsHaveTypes }
{}

/// A row is chosen only if it applies and its whole pattern is in the input. The rewrite and its field, written into the section,
/// change nothing outside that pattern.
pub fn rewrites_stay_in_their_patterns()
    ensures stand { ChosenRowsApply }
    ensures whole { ChosenPatternsArePresent }
    ensures linked { SectionsAreLinked }
{
    overlays_keep_pieces();
}

/// Each row of both machines has the duty of a list in the definitions: whether it is applied even if rewriting is off. If it is
/// off, exactly the mandatory rows are chosen of those that are chosen if it is on.
pub fn rows_have_duties()
    ensures listed { RowsHaveDuties }
    ensures alone { MandatoryRowsAlone }
{}

/// A row is chosen only for a symbol that its field suits: its address or offset for the output's own definition, its stub, or the
/// slot of its offset for others. On x86-64 the addend is that of a field at the end of its instruction.
pub fn rewritten_fields_suit_symbols()
    ensures symbols { FieldsSuitSymbols }
    ensures addends { AddendsAreChecked }
{}
