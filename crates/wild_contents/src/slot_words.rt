//! GOT words: their bytes, their dynamic relocations, and their RELR words.
ghost use Rattle.std.specs.Prelude.{◌≡◌, ◌∷◌, [], ◌++◌, OnOk};
ghost use Rattle.wild_slot.specs.SlotParts.{slot_words, slot_entries, relr_slot_places};
ghost use Rattle.wild_relr.specs.WriterState.{word_bytes};
ghost use Rattle.wild_table_formats.specs.RelativeEntries.{rela_bytes};

use crate::part_bytes::PartBytes;
use crate::relative_entries::add_entry;
use std::alloc::AllocError;
use wild_slot::{EntryPart, SlotWord, WordPart, entry_of, next_word, relr_slot_place, word_of};
use wild_types::Machine;

/// Appends a word.
#[tactic(auto, using(wild_words::proofs::WordLemmas::word_8))]
pub(crate) fn add_word(word: u64, bytes: &mut PartBytes) -> Result<(), AllocError>
    ensures { OnOk result (bytes.new ≡ bytes.old ++ word_bytes (word ∷ [])) }
{
    bytes.extend(&word.to_le_bytes())
}

/// Appends the GOT words, of which the first is at `place`, that are in a part.
pub(crate) fn add_slot_words(
    part: WordPart,
    relr: bool,
    place: u64,
    words: &[SlotWord],
    bytes: &mut PartBytes,
) -> Result<(), AllocError>
    ensures { OnOk result (bytes.new ≡ bytes.old ++ word_bytes (slot_words part relr place words.now)) }
{
    let mut place = place;
    for word in words {
        if let Some(value) = word_of(part, relr, place, *word) {
            add_word(value, bytes)?;
        }
        place = next_word(place);
    }
    Ok(())
}

/// Appends the dynamic relocations of GOT words that are in a part.
pub(crate) fn add_slot_entries(
    part: EntryPart,
    machine: Machine,
    relr: bool,
    place: u64,
    words: &[SlotWord],
    bytes: &mut PartBytes,
) -> Result<(), AllocError>
    ensures { OnOk result (bytes.new ≡ bytes.old ++ rela_bytes (slot_entries part machine relr place words.now)) }
{
    let mut place = place;
    for word in words {
        if let Some(entry) = entry_of(part, machine, relr, place, *word) {
            add_entry(entry, bytes)?;
        }
        place = next_word(place);
    }
    Ok(())
}

/// Appends the places of the GOT words that have a RELR word of their own.
pub(crate) fn add_flat_places(
    relr: bool,
    place: u64,
    words: &[SlotWord],
    bytes: &mut PartBytes,
) -> Result<(), AllocError>
    ensures { OnOk result (bytes.new ≡ bytes.old ++ word_bytes (relr_slot_places relr place words.now)) }
{
    let mut place = place;
    for word in words {
        if let Some(packed) = relr_slot_place(relr, place, *word) {
            add_word(packed, bytes)?;
        }
        place = next_word(place);
    }
    Ok(())
}
