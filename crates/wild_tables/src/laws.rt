//! Laws of the tables.
ghost use Rattle.wild_tables.specs.SlotLaws.{EachWordIsInOnePart, WordsAreReadInOrder, EachFilledWordHasOneEntry, EntriesFillWords, CountsDoNotDependOnMachine};

use wild_relr::words_are_read;

/// Each word of a slot is in exactly one of `got` and `got_relr`. Each word that a loader fills has exactly one RELA entry or
/// RELR word with its place.
pub fn slots_are_filled()
    ensures stand { EachWordIsInOnePart }
    ensures read { WordsAreReadInOrder }
    ensures filled { EachFilledWordHasOneEntry }
    ensures places { EntriesFillWords }
    ensures counts { CountsDoNotDependOnMachine }
{
    words_are_read();
}
