//! Placed sections in memory.
ghost use Rattle.std.specs.Prelude.{◌≡◌, IfOk, option_to_list, unwrap_or};
ghost use Rattle.wild_placement.specs.ReversedWords.{with_word_order};
ghost use Rattle.wild_placement.specs.PlacedSections.{as_loaded, unread, rela_with_target};
ghost use Rattle.wild_placement.specs.PlacedInputs.{placed_content, frames_content, unframed_content, sorted_content, copy_with};

use crate::frames::FileFrames;
use crate::kept_frames::{keep, placed_frames};
use crate::tables::rela_with_target;
use crate::words::reversed_section;
use std::alloc::{AllocError, Global};
use std::marker::Model;
use wild_frames::BadFrame;
use wild_types::{File, InputRelocation, InputSection, Layout, Slot};
use wild_words::{Bytes, Items};

/// A placed section. It borrows the plan's section if that is placed unchanged.
#[derive(Drop)]
pub struct PlacedInput<'a> {
    input: &'a InputSection,
    new_section: Option<InputSection>,
    origins: Option<Items<InputRelocation>>,
    fault: Option<BadFrame>,
}

impl<'a> Model for PlacedInput<'a> {
    ghost use Rattle.std.specs.Prelude.{unwrap_or, option_to_list};
    ghost use Rattle.wild_placement.specs.PlacedInputs.{PlacedContent};

    ghost Value = { PlacedContent };

    ghost view = { λ a. record { section = unwrap_or a.new_section a.input.now; origins = unwrap_or a.origins a.input.now.relocations; faults = option_to_list a.fault } };
}

impl<'a> PlacedInput<'a> {
    /// The section.
    pub fn section(&self) -> &InputSection
        ensures { result.now ≡ self.now.section }
    {
        match &self.new_section {
            Some(section) => section,
            None => self.input,
        }
    }

    /// Its relocations, at the input's offsets.
    pub fn origins(&self) -> &[InputRelocation]
        ensures { result.now ≡ self.now.origins }
    {
        match &self.origins {
            Some(origins) => origins.as_slice(),
            None => self.input.relocations.as_slice(),
        }
    }

    /// The fault that ends its frames, if there is one.
    pub fn fault(&self) -> Option<BadFrame>
        ensures { option_to_list result ≡ self.now.faults }
    {
        self.fault
    }
}

/// Places a section of frames: its kept entries begin at address `at`.
fn place_frames<'a>(
    alloc: Global,
    layout: &Layout,
    file: &File,
    at: u64,
    section: &'a InputSection,
) -> Result<PlacedInput<'a>, AllocError>
    ensures { IfOk result (λ x. x ≡ frames_content layout.now file.now at section.now) }
{
    let frames = FileFrames {
        layout,
        file,
        section,
    };
    let kept = keep(alloc, &frames)?;
    Ok(PlacedInput {
        input: section,
        new_section: Some(placed_frames(alloc, at, section, kept.bytes, kept.moved)),
        origins: Some(Items::from_vec(kept.origins)),
        fault: kept.fault,
    })
}

/// A placed section other than frames; `new_section` is its new form, if it is changed. Relocations of a relocatable object are not read.
fn place_section<'a>(
    alloc: Global,
    layout: &Layout,
    section: &'a InputSection,
    new_section: Option<InputSection>,
) -> PlacedInput<'a>
    ensures { result ≡ unframed_content layout.now section.now (unwrap_or new_section section.now) }
{
    let origins = if layout.kind.is_partial_link() {
        Some(Items::new(alloc))
    } else {
        None
    };
    PlacedInput {
        input: section,
        new_section,
        origins,
        fault: None,
    }
}

/// Places a section, with its words in reverse order if it is a reversed one.
#[tactic(auto, unfolding(crate::specs::ReversedWords::with_word_order))]
fn place_reversed<'a>(
    alloc: Global,
    layout: &Layout,
    section: &'a InputSection,
) -> Result<PlacedInput<'a>, AllocError>
    ensures { IfOk result (λ x. x ≡ unframed_content layout.now section.now (with_word_order section.now)) }
{
    if !section.reversed {
        return Ok(place_section(alloc, layout, section, None));
    }
    let new_section = reversed_section(alloc, section)?;
    Ok(place_section(alloc, layout, section, Some(new_section)))
}

/// A copy of a section, with another kind and other relocations.
fn copy_with(
    alloc: Global,
    slot: Slot,
    relocations: Vec<InputRelocation>,
    section: &InputSection,
) -> Result<InputSection, AllocError>
    ensures { IfOk result (λ s. s ≡ copy_with slot relocations.items section.now) }
{
    let name = section.name.as_slice().to_vec(alloc)?;
    let members = section.members.as_slice().to_vec(alloc)?;
    let bytes = section.bytes.as_slice().to_vec(alloc)?;
    let strings = section.strings.as_slice().to_vec(alloc)?;
    Ok(InputSection {
        slot,
        name: Bytes::from_vec(name),
        part: section.part,
        address: section.address,
        size: section.size,
        flags: section.flags,
        nobits: section.nobits,
        reversed: section.reversed,
        singleton: section.singleton,
        target: section.target,
        members: Items::from_vec(members),
        bytes: Bytes::from_vec(bytes),
        strings: Items::from_vec(strings),
        relocations: Items::from_vec(relocations),
    })
}

/// The section with its words in reverse order if it is a reversed one, as a value that borrows nothing.
#[tactic(auto, unfolding(crate::specs::ReversedWords::with_word_order))]
fn with_word_order(alloc: Global, section: InputSection) -> Result<InputSection, AllocError>
    ensures { IfOk result (λ s. s ≡ with_word_order section) }
{
    if section.reversed {
        reversed_section(alloc, &section)
    } else {
        Ok(section)
    }
}

/// Places a loaded section. In a relocatable object its relocations are left out: they are in a separate table.
fn place_loaded_input<'a>(
    alloc: Global,
    layout: &Layout,
    section: &'a InputSection,
) -> Result<PlacedInput<'a>, AllocError>
    ensures { IfOk result (λ x. x ≡ unframed_content layout.now section.now (with_word_order (unread layout.now section.now))) }
{
    if !layout.kind.is_partial_link() {
        return place_reversed(alloc, layout, section);
    }
    let unread = copy_with(alloc, section.slot, Vec::new(alloc), section)?;
    let new_section = with_word_order(alloc, unread)?;
    Ok(place_section(alloc, layout, section, Some(new_section)))
}

/// Places a table of relocations, with the relocations of its target.
fn place_table<'a>(
    alloc: Global,
    layout: &Layout,
    file: &File,
    section: &'a InputSection,
) -> Result<PlacedInput<'a>, AllocError>
    ensures { IfOk result (λ x. x ≡ unframed_content layout.now section.now (rela_with_target file.now section.now)) }
{
    let new_section = rela_with_target(alloc, file, section)?;
    Ok(place_section(alloc, layout, section, Some(new_section)))
}

/// Places a section of a file; `at` is the address of the file's next frames. One pass over the section. Allocates memory for what
/// changes:
/// - the kept bytes and relocations of frames, and the offsets of their CIEs,
/// - the bytes and relocations of a reversed section,
/// - the relocations of a table,
/// - in a relocatable object the bytes of a loaded section.
#[tactic(auto, unfolding(crate::specs::PlacedSections::placed_section))]
pub fn place_input<'a>(
    alloc: Global,
    layout: &Layout,
    file: &File,
    at: u64,
    section: &'a InputSection,
) -> Result<PlacedInput<'a>, AllocError>
    ensures { IfOk result (λ x. x ≡ placed_content layout.now file.now at section.now) }
{
    match section.slot {
        Slot::Frame => place_frames(alloc, layout, file, at, section),
        Slot::Loaded => place_loaded_input(alloc, layout, section),
        Slot::Debug => place_reversed(alloc, layout, section),
        Slot::Rela => place_table(alloc, layout, file, section),
        _ => Ok(place_section(alloc, layout, section, None)),
    }
}

/// Copies a sorted section as a loaded one.
fn loaded(
    alloc: Global,
    layout: &Layout,
    section: &InputSection,
) -> Result<InputSection, AllocError>
    ensures { IfOk result (λ s. s ≡ as_loaded (unread layout.now section.now)) }
{
    let relocations = if layout.kind.is_partial_link() {
        Vec::new(alloc)
    } else {
        section.relocations.as_slice().to_vec(alloc)?
    };
    copy_with(alloc, Slot::Loaded, relocations, section)
}

/// Places a sorted section.
pub fn place_sorted<'a>(
    alloc: Global,
    layout: &Layout,
    section: &'a InputSection,
) -> Result<PlacedInput<'a>, AllocError>
    ensures { IfOk result (λ x. x ≡ sorted_content layout.now section.now) }
{
    let loaded = loaded(alloc, layout, section)?;
    let new_section = with_word_order(alloc, loaded)?;
    Ok(place_section(alloc, layout, section, Some(new_section)))
}
