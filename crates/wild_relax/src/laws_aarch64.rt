//! Laws of the code that is written for AArch64.
ghost use Rattle.wild_relax.specs.FieldsAArch64.{FieldsAgree, PartsAreFields, TypesHaveForms};
ghost use Rattle.wild_relax.specs.KeepAArch64.{RowsOfAArch64Keep};
ghost use Rattle.wild_relax.specs.LawsAArch64.{StubsOfAArch64Jump, ThunksReach};
ghost use Rattle.wild_relax.specs.SequenceRowsAArch64.{ChosenRowsApply, RowsApplyTogether};

/// A stub jumps to the address in its slot, also with a landing pad at its start; a thunk jumps to its target. This holds at
/// every base that is a multiple of the page size.
pub fn aarch64_code_reaches()
    ensures stubs { StubsOfAArch64Jump }
    ensures thunks { ThunksReach }
{}

/// Relocation types write the same fields that code is read from. Each type that fills an instruction has word forms with that
/// field. The parts of a rewrite are what its relocation types write.
pub fn aarch64_fields_agree()
    ensures fields { FieldsAgree }
    ensures types { TypesHaveForms }
    ensures parts { PartsAreFields }
{}

/// The words written in place of a sequence have the effect that the sequence demands, for every valid register and at every
/// base.
pub fn aarch64_rewrites_keep_the_effect()
    ensures { RowsOfAArch64Keep }
{}

/// A row is chosen only if it applies and its whole word is in the input. If it belongs to a sequence, those of the other words
/// are chosen for theirs: no sequence is rewritten in part.
pub fn aarch64_rows_apply_together()
    ensures stand { ChosenRowsApply }
    ensures together { RowsApplyTogether }
{}
