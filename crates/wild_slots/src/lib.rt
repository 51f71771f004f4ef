//! The places of slots' words in their tables, and their relocation entries. All functions are laws without code.
#![tactic(auto)]

ghost use Rattle.wild_slots.specs.SlotPlaces.{SlotsArePlaced, EachWordIsPlaced, StubsAreThere, PairIsPlaced};
ghost use Rattle.wild_slots.specs.AscendingPlaces.{PlacesAscend};
ghost use Rattle.wild_slots.specs.Blocks.{BlocksAreWhole};
ghost use Rattle.wild_slots.specs.Entries.{EntriesAreKnown, EntriesAreOfWords, FixedOutputsMoveNothing};

/// A file writes the words and the stub of each symbol with slots, at their addresses in the tables.
pub fn slots_are_placed()
    ensures { SlotsArePlaced }
{}

/// Each word is 8 bytes after the one before it.
pub fn each_word_is_placed()
    ensures { EachWordIsPlaced }
{}

/// A symbol with slots whose stub has an address has a stub, if its slots have no fault.
pub fn stubs_are_there()
    ensures { StubsAreThere }
{}

/// The pair of the output's own thread-local data is at its address.
pub fn pair_is_placed()
    ensures { PairIsPlaced }
{}

/// The places of words and of stubs are in ascending order.
pub fn places_ascend()
    ensures { PlacesAscend }
{}

/// A group's RELR block of slots has no gap.
pub fn blocks_are_whole()
    ensures { BlocksAreWhole }
{}

/// Each entry of a slot refers to its symbol, the symbol's resolver, or the output's own module.
pub fn entries_are_known()
    ensures { EntriesAreKnown }
{}

/// Each entry of a file's slots is that of a word of one of its symbols, at the word's place.
pub fn entries_are_of_words()
    ensures { EntriesAreOfWords }
{}

/// In an output with a fixed base no slot has an address that moves.
pub fn fixed_outputs_move_nothing()
    ensures { FixedOutputsMoveNothing }
{}
