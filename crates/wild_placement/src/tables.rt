//! Tables of relocations of a relocatable object (gABI, "Relocation").
ghost use Rattle.std.specs.Prelude.{◌≡◌, IfOk, map, option_copied, slice_get};
ghost use Rattle.wild_placement.specs.PlacedSections.{base_of, counted_from, target_relocations, rela_with_target};
ghost use Rattle.wild_placement.specs.PlacedInputs.{at_reversed_word, placed_at};

use crate::words::reversed_offset;
use std::alloc::{AllocError, Global};
use wild_types::{File, InputRelocation, InputSection, Slot};
use wild_words::{Bytes, Items};

/// The offset of an input section in its output section; 0 for one that the object keeps as a section of its own.
fn base_of(section: &InputSection) -> u64
    ensures { result ≡ base_of section.now }
{
    match section.singleton {
        Some(_) => 0,
        None => section.address,
    }
}

/// A relocation of a section that begins at offset `base` of its output section, modulo 2^64.
fn counted_from(base: u64, relocation: InputRelocation) -> InputRelocation
    ensures { result ≡ counted_from base relocation }
{
    InputRelocation {
        offset: base.wrapping_add(relocation.offset),
        ..relocation
    }
}

/// A relocation of a section, at the new offset of its word if the section is reversed.
fn at_reversed_word(section: &InputSection, relocation: InputRelocation) -> InputRelocation
    ensures { result ≡ at_reversed_word section.now relocation }
{
    if section.reversed {
        reversed_offset(section.size, relocation)
    } else {
        relocation
    }
}

/// A relocation of the target of a table, with the offset that the table has.
pub(crate) fn placed_at(target: &InputSection, relocation: InputRelocation) -> InputRelocation
    ensures { result ≡ placed_at target.now relocation }
{
    counted_from(base_of(target), at_reversed_word(target, relocation))
}

/// The relocations of a target, with the offsets that a table has.
fn placed(alloc: Global, target: &InputSection) -> Result<Vec<InputRelocation>, AllocError>
    ensures { IfOk result (λ v. v.items ≡ map (placed_at target.now) target.now.relocations) }
{
    let mut placed = target.relocations.as_slice().to_vec(alloc)?;
    for i in 0..placed.len() {
        placed[i] = placed_at(target, placed[i]);
    }
    Ok(placed)
}

/// The section to which the relocations of a table apply, in its file.
pub(crate) fn target_of<'a>(file: &'a File, section: &InputSection) -> Option<&'a InputSection>
    ensures { option_copied result ≡ slice_get file.now.sections section.now.target }
{
    file.sections.as_slice().get(section.target)
}

/// The relocations of the target of a table, with the offsets that the table has.
#[tactic(auto, using(crate::proofs::TableLemmas::target_placed, crate::proofs::TableLemmas::target_missing))]
fn target_relocations(
    alloc: Global,
    file: &File,
    section: &InputSection,
) -> Result<Vec<InputRelocation>, AllocError>
    ensures { IfOk result (λ v. v.items ≡ target_relocations file.now section.now) }
{
    match target_of(file, section) {
        Some(target) => placed(alloc, target),
        None => Ok(Vec::new(alloc)),
    }
}

/// A table of relocations, with the relocations of its target.
pub(crate) fn rela_with_target(
    alloc: Global,
    file: &File,
    section: &InputSection,
) -> Result<InputSection, AllocError>
    ensures { IfOk result (λ s. s ≡ rela_with_target file.now section.now) }
{
    let relocations = target_relocations(alloc, file, section)?;
    Ok(InputSection {
        slot: Slot::Rela,
        name: Bytes::new(alloc),
        part: section.part,
        address: section.address,
        size: section.size,
        flags: section.flags,
        nobits: section.nobits,
        reversed: false,
        singleton: None,
        target: section.target,
        members: Items::new(alloc),
        bytes: Bytes::new(alloc),
        strings: Items::new(alloc),
        relocations: Items::from_vec(relocations),
    })
}
