//! The start of the GOT, which is written once, and the `.relr.dyn` words for a group's GOT words.
ghost use Rattle.std.specs.Prelude.{◌≡◌, ◌-◌, ◌*◌, ◌^◌, ◌++◌, min, replicate, unwrap_or, OnOk};
ghost use Rattle.wild_relr.specs.RunWords.{bitmaps, bitmap_count};
ghost use Rattle.wild_relr.specs.WriterState.{word_bytes};
ghost use Rattle.wild_slot.specs.SlotParts.{slot_words};
ghost use Rattle.wild_needs.specs.SlotShares.{storage_words, words_of_relr_got};
ghost use Rattle.wild_slot.specs.declared.slot_parts.WordPart.TheVariants as words;
ghost use Rattle.wild_table_formats.specs.RelativeEntries.{rela_bytes};
ghost use Rattle.wild_layout.specs.SlotBytes.{storage_entries, header_bytes, block_bytes};

use crate::part_bytes::PartBytes;
use crate::slot_words::{add_slot_entries, add_slot_words, add_word};
use std::alloc::AllocError;
use wild_needs::{RelrGot, group_relr_got};
use wild_slot::{EntryPart, Setting, WordPart, storage_pair};
use wild_types::{Group, Layout, Role};

/// Appends `count` words that are 0.
fn add_zeros(count: u64, bytes: &mut PartBytes) -> Result<(), AllocError>
    ensures { OnOk result (bytes.new ≡ bytes.old ++ word_bytes (replicate count 0)) }
{
    for _ in 0..count {
        add_word(0, bytes)?;
    }
    Ok(())
}

/// Appends the GOT pair for the output's own thread-local data (local dynamic model), if it has an address.
fn add_pair(layout: &Layout, bytes: &mut PartBytes) -> Result<(), AllocError>
    ensures { OnOk result (bytes.new ≡ bytes.old ++ word_bytes (slot_words words.Got layout.now.options.relr (unwrap_or layout.now.tlsld 0) (storage_words layout.now))) }
{
    match layout.tlsld {
        Some(place) => {
            let pair = storage_pair(&Setting::of(layout));
            add_slot_words(WordPart::Got, layout.options.relr, place, &pair, bytes)
        }
        None => Ok(()),
    }
}

/// Appends the dynamic relocations of that pair.
fn add_pair_entries(layout: &Layout, bytes: &mut PartBytes) -> Result<(), AllocError>
    ensures { OnOk result (bytes.new ≡ bytes.old ++ rela_bytes (storage_entries layout.now)) }
{
    match layout.tlsld {
        Some(place) => {
            let pair = storage_pair(&Setting::of(layout));
            let relr = layout.options.relr;
            add_slot_entries(
                EntryPart::General,
                layout.machine,
                relr,
                place,
                &pair,
                bytes,
            )
        }
        None => Ok(()),
    }
}

/// Appends what is once in a part of that role: the reserved words, which are 0, and that pair; or the pair's relocations.
pub(crate) fn add_header(
    layout: &Layout,
    role: Role,
    bytes: &mut PartBytes,
) -> Result<(), AllocError>
    ensures { OnOk result (bytes.new ≡ bytes.old ++ header_bytes layout.now role) }
{
    match role {
        Role::Got => {
            add_zeros(layout.got_header, bytes)?;
            add_pair(layout, bytes)
        }
        Role::RelaDynGeneral => add_pair_entries(layout, bytes),
        _ => Ok(()),
    }
}

/// The RELR bitmap word of `slots` consecutive words, of at most 63: all of their bits are set.
#[tactic(auto, using(wild_relr::proofs::WriterLemmas::full_shift))]
fn full_bitmap(slots: u64) -> u64
    ensures { result ≡ 2 * 2 ^ min slots 63 - 1 }
{
    u64::MAX >> (63 - slots.min(63))
}

/// Appends the RELR bitmap words of `slots` consecutive words.
fn add_bitmaps(slots: u64, bytes: &mut PartBytes) -> Result<(), AllocError>
    ensures { OnOk result (bytes.new ≡ bytes.old ++ word_bytes (bitmaps (bitmap_count slots) slots)) }
{
    let mut rest = slots;
    while rest > 0 {
        add_word(full_bitmap(rest), bytes)?;
        rest = rest.saturating_sub(63);
    }
    Ok(())
}

/// Appends the RELR words of a run of GOT words: the address of the first, and the bitmap words of the others (gABI, "Relative
/// Relocation Table").
fn add_words_of_block(block: RelrGot, bytes: &mut PartBytes) -> Result<(), AllocError>
    ensures { OnOk result (bytes.new ≡ bytes.old ++ word_bytes (words_of_relr_got block)) }
{
    if block.base == 0 || block.count == 0 {
        return Ok(());
    }
    add_word(block.base, bytes)?;
    add_bitmaps(block.count - 1, bytes)
}

/// Appends the RELR words of a group's run of GOT words, if the part of that role is `.relr.dyn`.
pub(crate) fn add_block(
    layout: &Layout,
    role: Role,
    group: &Group,
    bytes: &mut PartBytes,
) -> Result<(), AllocError>
    ensures { OnOk result (bytes.new ≡ bytes.old ++ block_bytes layout.now role group.now) }
{
    if matches!(role, Role::RelrDyn) {
        add_words_of_block(group_relr_got(layout, group), bytes)?;
    }
    Ok(())
}
