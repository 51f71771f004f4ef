//! Laws of AArch64 code: functions that do nothing.
ghost use Rattle.wild_aarch64.specs.Laws.{BranchesKeep, FieldsAreWritten, FormsAreRead, HintsAreLost, HintsAreSkipped, JumpsAreFollowed, RowsAreSteps, RowsKeep, TemplatesDescend};
ghost use Rattle.wild_aarch64.specs.Stub.{MarkedStubsAreSteps, MarkedStubsJump, StubsAreSteps, StubsJump, ThunksAreSteps, ThunksReach};

/// A word of a form is decoded as that form. Writing its field changes the immediate and nothing else.
pub fn fields_are_written()
    ensures read { FormsAreRead }
    ensures written { FieldsAreWritten }
{}

/// `nop` and `bti c` before or after a run do not change what it does.
pub fn hints_do_nothing()
    ensures skipped { HintsAreSkipped }
    ensures lost { HintsAreLost }
{}

/// Words that end in a jump jump whatever words come after them.
pub fn jumps_are_followed()
    ensures { JumpsAreFollowed }
{}

/// No template is longer than one before it.
pub fn longest_is_first()
    ensures { TemplatesDescend }
{}

/// The words that a row writes do what the words that they replace demand, and are decoded as one step. A branch goes where its word
/// demands.
pub fn rewrites_keep_the_effect()
    ensures rows { RowsKeep }
    ensures steps { RowsAreSteps }
    ensures branches { BranchesKeep }
{}

/// A stub, with or without a landing pad, jumps to the address in its GOT entry; a thunk reaches its target.
pub fn stubs_jump()
    ensures plain { StubsJump }
    ensures marked { MarkedStubsJump }
    ensures thunks { ThunksReach }
{}

/// Stubs, stubs with a landing pad and thunks are each decoded as one step, whatever words come after.
pub fn stubs_are_steps()
    ensures plain { StubsAreSteps }
    ensures marked { MarkedStubsAreSteps }
    ensures thunks { ThunksAreSteps }
{}
