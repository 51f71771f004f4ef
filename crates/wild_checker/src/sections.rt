//! The first changed byte of an input section, and its first reference that does not hold.
ghost use Rattle.std.specs.Prelude.{◌≡◌};
ghost use Rattle.wild_checker.specs.Loaded.{loaded_now};
ghost use Rattle.wild_checker.specs.Rewritten.{first_cursor};
ghost use Rattle.wild_checker.specs.Sections.{is_loaded_slot, is_in_memory, has_frames, is_in_order, gap_end, changed_gap, is_settled, first_doubt};

use crate::bytes::{are_in_order, changed_between};
use crate::loaded::LoadedRef;
use crate::question::Question;
use crate::references::reference_holds;
use crate::rewritten::{Cursor, FIRST, next_cursor, rewritten_start};
use wild_records::abi::relocation::R_X86_64_NONE;
use wild_records::abi::section::SHF_ALLOC;
use wild_types::{File, InputRelocation, InputSection, Layout, Machine, Slot};

/// Whether sections of that sort are loaded as placed.
fn is_loaded_slot(slot: Slot) -> bool
    ensures { result ≡ is_loaded_slot slot }
{
    match slot {
        Slot::Loaded => true,
        Slot::Sorted => true,
        _ => false,
    }
}

/// Whether a section is loaded as placed, has memory and data, and is written.
fn is_in_memory(layout: &Layout, section: &InputSection) -> bool
    ensures { result ≡ is_in_memory layout.now section.now }
{
    is_loaded_slot(section.slot)
        && section.flags / SHF_ALLOC % 2 == 1
        && !section.nobits
        && !section.is_omitted(layout)
}

/// Whether a section has frames, and is written.
fn has_frames(layout: &Layout, section: &InputSection) -> bool
    ensures { result ≡ has_frames layout.now section.now }
{
    section.slot.is_frame() && !section.nobits && !section.is_omitted(layout)
}

/// Whether a section is not in reverse order, and its fields are in order.
fn is_in_order(machine: Machine, section: &InputSection) -> bool
    ensures { result ≡ is_in_order machine section.now }
{
    !section.reversed && are_in_order(machine, section.relocations.as_slice())
}

/// Where the bytes that have to be the input's end: at a relocation's field, or at its instruction if that was rewritten.
fn gap_end(
    loaded: &LoadedRef,
    file: &File,
    section: &InputSection,
    cursor: Cursor,
    relocation: &InputRelocation,
) -> u128
    ensures { result ≡ gap_end (loaded_now loaded.now) file.now section.now cursor relocation.now }
{
    match rewritten_start(loaded, file, section, cursor, relocation) {
        Some(start) => start as u128,
        None => relocation.offset as u128,
    }
}

/// The first changed byte of a section that is in no field and in no rewritten instruction.
fn changed_gap(loaded: &LoadedRef, file: &File, section: &InputSection) -> Option<usize>
    ensures { result ≡ changed_gap (loaded_now loaded.now) file.now section.now first_cursor section.now.relocations }
{
    let mut cursor = FIRST;
    for relocation in section.relocations.as_slice() {
        let to = gap_end(loaded, file, section, cursor, relocation);
        if let Some(k) = changed_between(loaded.memory, section, cursor.end, to) {
            return Some(k);
        }
        cursor = next_cursor(loaded.layout.machine, cursor, relocation);
    }
    changed_between(
        loaded.memory,
        section,
        cursor.end,
        section.bytes.len() as u128,
    )
}

/// Which byte of a section is in no field, in no rewritten instruction and not the input's. The section's fields have to be in order.
#[derive(Clone, Copy)]
pub(crate) struct ChangedByte<'a> {
    pub(crate) loaded: LoadedRef<'a>,
}

impl Question for ChangedByte<'_> {
    ghost use Rattle.wild_checker.specs.Loaded.{loaded_now};
    ghost use Rattle.wild_checker.specs.Sections.{changed_byte};

    ghost asks = { λ q. changed_byte (loaded_now q.loaded) };

    fn ask(&self, file: &File, section: &InputSection) -> Option<usize> {
        if !is_in_memory(self.loaded.layout, section) {
            return None;
        }
        if !is_in_order(self.loaded.layout.machine, section) {
            return None;
        }
        changed_gap(&self.loaded, file, section)
    }
}

/// Whether a relocation refers to nothing, holds, or has a rewritten instruction with the required effect.
fn is_settled(
    loaded: &LoadedRef,
    file: &File,
    section: &InputSection,
    cursor: Cursor,
    relocation: &InputRelocation,
) -> bool
    ensures { result ≡ is_settled (loaded_now loaded.now) file.now section.now cursor relocation.now }
{
    relocation.number == R_X86_64_NONE
        || rewritten_start(loaded, file, section, cursor, relocation).is_some()
        || reference_holds(loaded, file, section, relocation)
}

/// The position of the first relocation that is not settled.
fn first_doubt(loaded: &LoadedRef, file: &File, section: &InputSection) -> Option<usize>
    ensures { result ≡ first_doubt (loaded_now loaded.now) file.now section.now first_cursor 0 section.now.relocations }
{
    let mut cursor = FIRST;
    for (i, relocation) in section.relocations.as_slice().iter().enumerate() {
        if !is_settled(loaded, file, section, cursor, relocation) {
            return Some(i);
        }
        cursor = next_cursor(loaded.layout.machine, cursor, relocation);
    }
    None
}

/// The first reference of a section that does not hold in every world, or is not decided.
#[derive(Clone, Copy)]
pub(crate) struct DoubtfulReference<'a> {
    pub(crate) loaded: LoadedRef<'a>,
}

impl Question for DoubtfulReference<'_> {
    ghost use Rattle.wild_checker.specs.Loaded.{loaded_now};
    ghost use Rattle.wild_checker.specs.Sections.{doubtful_reference};

    ghost asks = { λ q. doubtful_reference (loaded_now q.loaded) };

    fn ask(&self, file: &File, section: &InputSection) -> Option<usize> {
        if has_frames(self.loaded.layout, section) {
            return Some(0);
        }
        if !is_in_memory(self.loaded.layout, section) {
            return None;
        }
        if !is_in_order(self.loaded.layout.machine, section) {
            return Some(0);
        }
        first_doubt(&self.loaded, file, section)
    }
}
