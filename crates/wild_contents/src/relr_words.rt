//! The `.relr.dyn` words of an input section, whose places are packed separately (gABI, "Relative Relocation Table").
ghost use Rattle.std.specs.Prelude.{◌≡◌, ◌+◌, ◌*◌, ◌%◌, ◌≤◌, ◌++◌, length, IfOk, OnOk};
ghost use Rattle.std.specs.List.{flat_map};
ghost use Rattle.wild_records.specs.Relocations.{relr_size};
ghost use Rattle.wild_relr.specs.Encoding.{after};
ghost use Rattle.wild_relr.specs.RunWords.{packed, after_places};
ghost use Rattle.wild_relr.specs.WriterState.{word_bytes};
ghost use Rattle.wild_contents.specs.FileTables.{packed_in, section_word_bytes};

use crate::part_bytes::PartBytes;
use std::alloc::{AllocError, Global};
use wild_needs::relr_place;
use wild_records::Relr;
use wild_tables::RelrTable;
use wild_types::{InputRelocation, InputSection, Layout};

/// Records an even place, for which there is room.
fn record_place(words: &mut RelrTable, place: u64)
    requires even { place % 2 ≡ 0 }
    requires room { relr_size * (length words.old.state.words + 1) ≤ words.old.room }
    ensures state { words.new.state ≡ after words.old.state place }
    ensures room { words.new.room ≡ words.old.room }
{
    match words.write(place) {
        Ok(()) => {}
        Err(_) => {}
    }
}

/// Records the place of a relocation, if it is packed; there is room for one more word.
fn pack(
    layout: &Layout,
    section: &InputSection,
    relocation: &InputRelocation,
    words: &mut RelrTable,
)
    requires { relr_size * (length words.old.state.words + 1) ≤ words.old.room }
    ensures state { words.new.state ≡ after_places words.old.state (packed_in layout.now section.now relocation.now) }
    ensures few { length words.new.state.words ≤ length words.old.state.words + 1 }
    ensures room { words.new.room ≡ words.old.room }
{
    if let Some(place) = relr_place(layout, section, relocation) {
        record_place(words, place);
    }
}

/// The RELR words of a section's relocations; there is room for one word for each.
fn words_in(alloc: Global, layout: &Layout, section: &InputSection) -> Result<RelrTable, AllocError>
    ensures { IfOk result (λ t. t.state.words ≡ packed (flat_map (packed_in layout.now section.now) section.now.relocations)) }
{
    let relocations = section.relocations.as_slice();
    let mut words = RelrTable::new(alloc, relocations.len() * Relr::SIZE)?;
    for relocation in relocations {
        pack(layout, section, relocation, &mut words);
    }
    Ok(words)
}

/// Appends the words of a table.
fn add_table(words: &RelrTable, bytes: &mut PartBytes) -> Result<(), AllocError>
    ensures { OnOk result (bytes.new ≡ bytes.old ++ word_bytes words.now.state.words) }
{
    bytes.extend(&words.bytes()[..words.used()])
}

/// Appends the words of a section.
#[tactic(auto, using(crate::proofs::FileTableLemmas::packed_words, crate::proofs::FileTableLemmas::no_words))]
pub(crate) fn add_section_words(
    alloc: Global,
    layout: &Layout,
    section: &InputSection,
    bytes: &mut PartBytes,
) -> Result<(), AllocError>
    ensures { OnOk result (bytes.new ≡ bytes.old ++ section_word_bytes layout.now section.now) }
{
    if layout.may_have_relative(section) {
        let words = words_in(alloc, layout, section)?;
        add_table(&words, bytes)?;
    }
    Ok(())
}
