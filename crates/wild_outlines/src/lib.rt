//! What no change of an input section alters. All functions are laws without code.
#![tactic(auto)]

ghost use Rattle.std.specs.Prelude.{ℕ};
ghost use Rattle.wild_types.specs.declared.file.Group.{Group};
ghost use Rattle.wild_types.specs.declared.layout.Layout.{Layout};
ghost use Rattle.wild_outlines.specs.ValueLaws.{ImageSizeByOutline, OutlineStays, ValuesByOutline, WarningsByOutline};
ghost use Rattle.wild_outlines.specs.GroupLaws.{GroupsByOutline, PaddingByOutline};
ghost use Rattle.wild_outlines.specs.ClauseLaws.{ChangesAreTested, ClausesByOutline};
ghost use Rattle.wild_outlines.specs.ShareLaws.{SharesByOutline};
ghost use Rattle.wild_outlines.specs.RefusalLaws.{RefusalsByGroup};
ghost use Rattle.wild_outlines.specs.ChangedLaws.{ChangedBytes, ChangedCounts, ChangedErrors, ChangedTotal, OthersHaveNone};

/// A change that keeps the length of its section leaves the outline as it is.
pub fn outline_stays()
    ensures { OutlineStays }
{}

/// Values, decisions, placed sections, the size of the image and the warnings depend on the outline only.
pub fn values_by_outline()
    ensures values { (l : Layout) → ValuesByOutline l }
    ensures size { ImageSizeByOutline }
    ensures warnings { WarningsByOutline }
{}

/// The faults and the pieces of a group depend on the group and on the outline only.
pub fn groups_by_outline()
    ensures { (l : Layout) (i : ℕ) (g : Group) → GroupsByOutline l i g }
{}

/// The padding depends on the outline only.
pub fn padding_by_outline()
    ensures { PaddingByOutline }
{}

/// A change may be made if the section and its replacement pass certain tests, each in its own layout.
pub fn changes_are_tested()
    ensures { ChangesAreTested }
{}

/// A change that may be made leaves all clauses satisfied.
pub fn clauses_by_outline()
    ensures { ClausesByOutline }
{}

/// A change that keeps the numbers of dynamic relocations keeps what groups need, and the faults of shares.
pub fn shares_by_outline()
    ensures { SharesByOutline }
{}

/// One count of relocations changes, and by how many.
pub fn changed_counts()
    ensures { ChangedCounts }
{}

/// The number of all relocations after a change.
pub fn changed_total()
    ensures { ChangedTotal }
{}

/// The image after a change is the image before it, with the pieces of the changed group over it.
pub fn changed_bytes()
    ensures { ChangedBytes }
{}

/// A change that may be made has the faults of its own group alone.
pub fn changed_errors()
    ensures { ChangedErrors }
{}

/// In a layout without faults, a group as it was before the change has none after it.
pub fn others_have_none()
    ensures { OthersHaveNone }
{}

/// The faults of a layout that had none, after any change that keeps the length of its section, by the changed group alone.
pub fn refusals_by_group()
    ensures { RefusalsByGroup }
{}
