//! What slots contribute to the parts of an image: GOT words, dynamic relocations and RELR words.
ghost use Rattle.std.specs.Prelude.{◌≡◌, ◌%◌, ◌≤◌, true, length, IfSome};
ghost use Rattle.wild_slot.specs.SlotParts.{begins_relr_got, next, is_packed, word_of, slot_words, type_of, entry_at, address_entry, entry_of, slot_entries, relr_slot_place, relr_slot_places};

use crate::slot::{SlotEntry, SlotWord};
use wild_records::Rela;
use wild_reloc::DynamicRelocationKind;
use wild_types::Machine;

/// A part that contains slots.
#[derive(Clone, Copy)]
pub enum WordPart {
    /// `got`.
    Got,
    /// `got_relr`.
    RelrGot,
}

/// A part that contains the dynamic relocations of slots.
#[derive(Clone, Copy)]
pub enum EntryPart {
    /// `rela_plt`.
    Plt,
    /// `rela_dyn_relative`.
    Relative,
    /// `rela_dyn_general`.
    General,
}

/// The machine's relocation type for a kind of dynamic relocation.
pub fn type_of(machine: Machine, kind: DynamicRelocationKind) -> u32
    ensures { result ≡ type_of machine kind }
{
    match machine {
        Machine::X86_64 => kind.x86_64_r_type(),
        Machine::AArch64 => kind.aarch64_r_type(),
    }
}

/// The address of the next word.
pub fn next_word(place: u64) -> u64
    ensures { result ≡ next place }
{
    place.wrapping_add(8)
}

/// Whether the place is packed: RELR is enabled and the place is even.
fn is_packed(relr: bool, place: u64) -> bool
    ensures is { result ≡ is_packed relr place }
    ensures even { result ≡ true → place % 2 ≡ 0 }
{
    relr && place % 2 == 0
}

/// The dynamic relocation that fills the word at a place.
pub fn entry_at(machine: Machine, place: u64, entry: SlotEntry) -> Rela
    ensures { result ≡ entry_at machine place entry }
{
    Rela {
        offset: place,
        number: type_of(machine, entry.kind),
        symbol: (entry.symbol % (1 << 32)) as u32,
        addend: entry.addend.cast_signed(),
    }
}

/// The relative entry with which a loader stores load bias plus value.
pub fn address_entry(machine: Machine, place: u64, value: u64) -> Rela
    ensures { result ≡ address_entry machine place value }
{
    Rela {
        offset: place,
        number: type_of(machine, DynamicRelocationKind::Relative),
        symbol: 0,
        addend: value.cast_signed(),
    }
}

/// The contents of a word in the file, if it belongs to the part.
pub fn word_of(part: WordPart, relr: bool, place: u64, word: SlotWord) -> Option<u64>
    ensures { result ≡ word_of part relr place word }
{
    match (part, word) {
        (WordPart::Got, SlotWord::Number(value)) => Some(value),
        (WordPart::Got, SlotWord::Address(address)) => Some(if is_packed(relr, place) {
            address
        } else {
            0
        }),
        (WordPart::Got, SlotWord::General(_) | SlotWord::Plt(_)) => Some(0),
        (WordPart::RelrGot, SlotWord::InRelrGot(address)) => Some(address),
        _ => None,
    }
}

/// The dynamic relocation of a word, if it has one in the part.
pub fn entry_of(
    part: EntryPart,
    machine: Machine,
    relr: bool,
    place: u64,
    word: SlotWord,
) -> Option<Rela>
    ensures { result ≡ entry_of part machine relr place word }
{
    match (part, word) {
        (EntryPart::Plt, SlotWord::Plt(entry)) => Some(entry_at(machine, place, entry)),
        (EntryPart::General, SlotWord::General(entry)) => Some(entry_at(machine, place, entry)),
        (EntryPart::Relative, SlotWord::Address(address)) if !is_packed(relr, place) => {
            Some(address_entry(machine, place, address))
        }
        _ => None,
    }
}

/// The place, if the word has a RELR word of its own.
pub fn relr_slot_place(relr: bool, place: u64, word: SlotWord) -> Option<u64>
    ensures is { result ≡ relr_slot_place relr place word }
    ensures even { IfSome result (λ p. p % 2 ≡ 0) }
{
    match word {
        SlotWord::Address(_) if is_packed(relr, place) => Some(place),
        _ => None,
    }
}

/// The number of these words that belong to the part.
pub fn count_words(part: WordPart, relr: bool, place: u64, words: &[SlotWord]) -> usize
    ensures is { result ≡ length (slot_words part relr place words.now) }
    ensures few { result ≤ length words.now }
{
    let mut count = 0;
    let mut place = place;
    for word in words {
        if word_of(part, relr, place, *word).is_some() {
            count += 1;
        }
        place = next_word(place);
    }
    count
}

/// The number of these words that have a dynamic relocation in the part.
pub fn count_entries(
    part: EntryPart,
    machine: Machine,
    relr: bool,
    place: u64,
    words: &[SlotWord],
) -> usize
    ensures is { result ≡ length (slot_entries part machine relr place words.now) }
    ensures few { result ≤ length words.now }
{
    let mut count = 0;
    let mut place = place;
    for word in words {
        if entry_of(part, machine, relr, place, *word).is_some() {
            count += 1;
        }
        place = next_word(place);
    }
    count
}

/// The number of these words that have a RELR word of their own.
pub fn count_relr_slots(relr: bool, place: u64, words: &[SlotWord]) -> usize
    ensures is { result ≡ length (relr_slot_places relr place words.now) }
    ensures few { result ≤ length words.now }
{
    let mut count = 0;
    let mut place = place;
    for word in words {
        if relr_slot_place(relr, place, *word).is_some() {
            count += 1;
        }
        place = next_word(place);
    }
    count
}

/// Whether the first word belongs to the group's run of words that are packed together.
pub fn begins_relr_got(words: &[SlotWord]) -> bool
    ensures { result ≡ begins_relr_got words.now }
{
    matches!(words.first(), Some(SlotWord::InRelrGot(_)))
}
