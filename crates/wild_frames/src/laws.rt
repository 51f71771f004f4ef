//! Properties of the kept entries.
ghost use Rattle.wild_frames.specs.Reading.{KeptAreFiltered, EntriesHaveNoGaps, EntriesAreRead, IdsLead, FieldsSpareIds, OthersAreInput};

/// Of the entries that a reader of the input finds, the CIEs are kept, and the FDEs of loaded code. They are written consecutively:
/// a reader of the output that follows the lengths finds exactly these entries, whatever their fields hold. Each FDE's id leads to
/// the CIE to which the input's id led, and no field of the FDE overlaps the id. Each other byte of an entry is the input's.
pub fn kept_entries_are_read()
    ensures filtered { KeptAreFiltered }
    ensures gaps { EntriesHaveNoGaps }
    ensures read { EntriesAreRead }
    ensures lead { IdsLead }
    ensures spare { FieldsSpareIds }
    ensures others { OthersAreInput }
{}
