//! Adds the words of slots, their RELA entries and their RELR words to the tables.
ghost use Rattle.std.specs.Prelude.{◌≡◌, ◌+◌, ◌*◌, ◌≤◌, ◌++◌, length, replicate};
ghost use Rattle.wild_slot.specs.SlotParts.{slot_words, slot_entries, relr_slot_places};
ghost use Rattle.wild_tables.specs.SlotTables.{after_relr_slots};

use crate::rela::RelaTable;
use crate::relr::RelrTable;
use crate::word::WordTable;
use wild_slot::{EntryPart, SlotWord, WordPart, entry_of, next_word, relr_slot_place, word_of};
use wild_types::Machine;

/// Appends `n` words of 0.
pub(crate) fn add_zeros(table: &mut WordTable, n: usize)
    requires { 8 * (length table.old.words + n) ≤ table.old.room }
    ensures words { table.new.words ≡ table.old.words ++ replicate n 0 }
    ensures room { table.new.room ≡ table.old.room }
{
    for _ in 0..n {
        table.push(0);
    }
}

/// Appends those of a slot's words that belong to this part.
pub(crate) fn add_words(
    table: &mut WordTable,
    part: WordPart,
    relr: bool,
    place: u64,
    words: &[SlotWord],
)
    requires { 8 * (length table.old.words + length (slot_words part relr place words.now)) ≤ table.old.room }
    ensures words { table.new.words ≡ table.old.words ++ slot_words part relr place words.now }
    ensures room { table.new.room ≡ table.old.room }
{
    let mut place = place;
    for word in words {
        if let Some(value) = word_of(part, relr, place, *word) {
            table.push(value);
        }
        place = next_word(place);
    }
}

/// Appends those of a slot's RELA entries that belong to this part.
pub(crate) fn add_entries(
    table: &mut RelaTable,
    part: EntryPart,
    machine: Machine,
    relr: bool,
    place: u64,
    words: &[SlotWord],
)
    requires { 24 * (length table.old.entries + length (slot_entries part machine relr place words.now)) ≤ table.old.room }
    ensures entries { table.new.entries ≡ table.old.entries ++ slot_entries part machine relr place words.now }
    ensures room { table.new.room ≡ table.old.room }
{
    let mut place = place;
    for word in words {
        if let Some(entry) = entry_of(part, machine, relr, place, *word) {
            table.push(entry);
        }
        place = next_word(place);
    }
}

/// Records the places of a slot's words that have their own RELR word.
pub(crate) fn add_relr_slots(table: &mut RelrTable, relr: bool, place: u64, words: &[SlotWord])
    requires { 8 * (length table.old.state.words + length (relr_slot_places relr place words.now)) ≤ table.old.room }
    ensures state { table.new.state ≡ after_relr_slots table.old.state (relr_slot_places relr place words.now) }
    ensures room { table.new.room ≡ table.old.room }
{
    let mut place = place;
    for word in words {
        if let Some(packed) = relr_slot_place(relr, place, *word) {
            table.push_relr_slot(packed);
        }
        place = next_word(place);
    }
}
