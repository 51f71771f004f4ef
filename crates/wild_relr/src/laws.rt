//! Laws of RELR words: functions that do nothing.
ghost use Rattle.wild_relr.specs.Laws.{LengthsOfWords, WordsAreRead, WordsFit};
ghost use Rattle.wild_relr.specs.Places.{PlacesAreEven};
ghost use Rattle.wild_relr.specs.Encoding.{EachPlaceIsRecorded, RunsAreFollowed};
ghost use Rattle.wild_relr.specs.RunWords.{PiecesArePacked, BlocksHoldTheirSlots, NoBlockHasNoWords, RunsAreRecorded, RunsAreCounted, PiecesAreRecorded, RelrSlotIsARun, RisingRunsKeepOrder};

/// If a new place is recorded, the decoded places are the earlier ones and it. If it is the greatest, it is the last.
pub fn each_place_is_recorded()
    ensures recorded { EachPlaceIsRecorded }
    ensures followed { RunsAreFollowed }
{}

/// No word decodes to an odd place.
pub fn places_are_even()
    ensures { PlacesAreEven }
{}

/// Recording place by place gives the same words as encoding whole runs and blocks.
pub fn pieces_are_packed()
    ensures { PiecesArePacked }
{}

/// A block adds its slots after the places before, in order. Without slots, or with base 0, it has no words.
pub fn blocks_hold_their_slots()
    ensures held { BlocksHoldTheirSlots }
    ensures none { NoBlockHasNoWords }
{}

/// After a run of new places, exactly these are decoded in addition.
pub fn runs_are_recorded()
    ensures { RunsAreRecorded }
{}

/// The number of words of a run can be counted without building them.
pub fn runs_are_counted()
    ensures { RunsAreCounted }
{}

/// After runs and blocks without a place that appears twice, exactly their places are decoded.
pub fn pieces_are_recorded()
    ensures { PiecesAreRecorded }
{}

/// A place in an address word of its own is a run of one place.
pub fn relr_slot_is_a_run()
    ensures { RelrSlotIsARun }
{}

/// If places ascend and are all above the places decoded before, they are decoded in their order.
pub fn rising_runs_keep_order()
    ensures { RisingRunsKeepOrder }
{}

/// Each word has 8 bytes, and is read back at its offset.
pub fn words_are_read()
    ensures lengths { LengthsOfWords }
    ensures read { WordsAreRead }
{}

/// The words of places below 2^64 are below 2^64.
pub fn words_fit()
    ensures { WordsFit }
{}
