//! The kept entries of a section of frames, placed consecutively.
ghost use Rattle.std.specs.Prelude.{◌≡◌, ◌++◌, [], IfOk, OnOk, All, map, None, option_to_list};
ghost use Rattle.std.specs.List.{flat_map};
ghost use Rattle.wild_frames.specs.Frames.{found_bytes, found_in, rest_of, start};
ghost use Rattle.wild_frames.specs.Faults.{found_errors, frame_errors};
ghost use Rattle.wild_frames.specs.Walks.{IsAtStart, IsWithinSection};
ghost use Rattle.wild_placement.specs.FrameInputs.{frames_of};
ghost use Rattle.wild_placement.specs.PlacedSections.{moved_relocation, frame_flags};
ghost use Rattle.wild_placement.specs.PlacedInputs.{StaysLow, StayLow, own_kept, found_moved, fault_after, AreKept, placed_frames_of};

use crate::frames::FileFrames;
use std::alloc::{AllocError, Global};
use wild_frames::{BadFrame, Found, FrameSource, KeptEntry, Walk, add_found, walk_continues};
use wild_records::abi::section::{SHF_EXECINSTR, SHF_WRITE};
use wild_types::{InputRelocation, InputSection, Slot, is_executable, is_writable};
use wild_words::{Bytes, Items};

/// A relocation of a kept entry, at the entry's new offset.
pub(crate) fn moved_relocation(entry: &KeptEntry, relocation: InputRelocation) -> InputRelocation
    requires { StaysLow entry.now relocation }
    ensures { result ≡ moved_relocation entry.now relocation }
{
    InputRelocation {
        offset: entry.to + relocation.offset.saturating_sub(entry.from),
        ..relocation
    }
}

/// The kept entries of frames, their relocations at the input's offsets and at the new ones, and the fault that ended them.
#[derive(Drop)]
pub(crate) struct KeptFrames {
    pub(crate) bytes: Vec<u8>,
    pub(crate) origins: Vec<InputRelocation>,
    pub(crate) moved: Vec<InputRelocation>,
    pub(crate) fault: Option<BadFrame>,
}

/// Moves the relocations of an entry to its new offset.
fn move_all(entry: &KeptEntry, relocations: &mut [InputRelocation])
    requires { All (StaysLow entry.now) relocations.old }
    ensures { relocations.new ≡ map (moved_relocation entry.now) relocations.old }
{
    for i in 0..relocations.len() {
        relocations[i] = moved_relocation(entry, relocations[i]);
    }
}

impl KeptFrames {
    /// No entries.
    fn new(alloc: Global) -> Self
        ensures bytes { result.bytes.items ≡ [] }
        ensures origins { result.origins.items ≡ [] }
        ensures moved { result.moved.items ≡ [] }
        ensures fault { result.fault ≡ None }
    {
        KeptFrames {
            bytes: Vec::new(alloc),
            origins: Vec::new(alloc),
            moved: Vec::new(alloc),
            fault: None,
        }
    }

    /// Adds the relocations of an entry.
    fn add_relocations(
        &mut self,
        entry: &KeptEntry,
        own: &[InputRelocation],
    ) -> Result<(), AllocError>
        requires { All (StaysLow entry.now) own.now }
        ensures origins { OnOk result (self.new.origins.items ≡ self.old.origins.items ++ own.now) }
        ensures moved { OnOk result (self.new.moved.items ≡ self.old.moved.items ++ map (moved_relocation entry.now) own.now) }
        ensures others { OnOk result ((self.new.bytes.items ≡ self.old.bytes.items) × (self.new.fault ≡ self.old.fault)) }
    {
        self.origins.extend_from_slice(own)?;
        let from = self.moved.len();
        self.moved.extend_from_slice(own)?;
        move_all(entry, &mut self.moved[from..]);
        Ok(())
    }

    /// Adds the output for what a walk found, with its relocations.
    fn add(
        &mut self,
        frames: &FileFrames<'_>,
        found: &Found,
        own: &[InputRelocation],
    ) -> Result<(), AllocError>
        requires lies { IsWithinSection (frames_of frames.now.layout.now frames.now.file.now frames.now.section.now) found.now }
        requires low { StayLow own.now found.now }
        ensures bytes { OnOk result (self.new.bytes.items ≡ self.old.bytes.items ++ found_bytes (frames_of frames.now.layout.now frames.now.file.now frames.now.section.now) found.now) }
        ensures origins { OnOk result (self.new.origins.items ≡ self.old.origins.items ++ own_kept own.now found.now) }
        ensures moved { OnOk result (self.new.moved.items ≡ self.old.moved.items ++ found_moved own.now found.now) }
        ensures fault { OnOk result (self.new.fault ≡ fault_after self.old.fault found.now) }
    {
        add_found(frames, found, &mut self.bytes)?;
        match found {
            Found::Kept { entry } => self.add_relocations(entry, own)?,
            Found::Bad { why, offset } => {
                self.fault = Some(BadFrame {
                    why: *why,
                    offset: *offset,
                });
            }
            Found::End | Found::Tail { .. } | Found::Dropped { .. } => {}
        }
        Ok(())
    }
}

/// Collects the kept entries, from the start of a walk on.
fn keep_from(alloc: Global, frames: &FileFrames<'_>, first: Walk) -> Result<KeptFrames, AllocError>
    requires { IsAtStart (frames_of frames.now.layout.now frames.now.file.now frames.now.section.now) first }
    ensures kept { IfOk result (λ k. AreKept (frames_of frames.now.layout.now frames.now.file.now frames.now.section.now) (rest_of (frames_of frames.now.layout.now frames.now.file.now frames.now.section.now) start) k.bytes.items k.origins.items k.moved.items) }
    ensures fault { IfOk result (λ k. option_to_list k.fault ≡ flat_map found_errors (rest_of (frames_of frames.now.layout.now frames.now.file.now frames.now.section.now) start)) }
{
    let _room = frames.bytes().len();
    let mut walk = first;
    let mut kept = KeptFrames::new(alloc);
    loop {
        let from = walk.relocation;
        let found = walk.step(frames)?;
        let own = &frames.relocations()[from..walk.relocation];
        kept.add(frames, &found, own)?;
        if !walk_continues(&found) {
            return Ok(kept);
        }
    }
}

/// Collects the kept entries of frames, in one pass over the section.
pub(crate) fn keep(alloc: Global, frames: &FileFrames<'_>) -> Result<KeptFrames, AllocError>
    ensures kept { IfOk result (λ k. AreKept (frames_of frames.now.layout.now frames.now.file.now frames.now.section.now) (found_in (frames_of frames.now.layout.now frames.now.file.now frames.now.section.now)) k.bytes.items k.origins.items k.moved.items) }
    ensures fault { IfOk result (λ k. option_to_list k.fault ≡ frame_errors (frames_of frames.now.layout.now frames.now.file.now frames.now.section.now)) }
{
    match Walk::start(alloc, frames) {
        Ok(walk) => keep_from(alloc, frames, walk),
        Err(fault) => {
            let mut kept = KeptFrames::new(alloc);
            kept.fault = Some(fault);
            Ok(kept)
        }
    }
}

/// The flags of placed frames: without `SHF_WRITE` and `SHF_EXECINSTR`, because the program neither writes nor executes them.
pub fn frame_flags(flags: u64) -> u64
    ensures { result ≡ frame_flags flags }
{
    let read = if is_writable(flags) {
        flags.saturating_sub(SHF_WRITE)
    } else {
        flags
    };
    if is_executable(read) {
        read.saturating_sub(SHF_EXECINSTR)
    } else {
        read
    }
}

/// A placed section of frames, made of its kept bytes and moved relocations.
pub(crate) fn placed_frames(
    alloc: Global,
    at: u64,
    section: &InputSection,
    bytes: Vec<u8>,
    moved: Vec<InputRelocation>,
) -> InputSection
    ensures { result ≡ placed_frames_of section.now at bytes.items moved.items }
{
    InputSection {
        slot: Slot::Frame,
        name: Bytes::new(alloc),
        part: section.part,
        address: at,
        size: bytes.len() as u64,
        flags: frame_flags(section.flags),
        nobits: false,
        reversed: false,
        singleton: None,
        target: 0,
        members: Items::new(alloc),
        bytes: Bytes::from_vec(bytes),
        strings: Items::new(alloc),
        relocations: Items::from_vec(moved),
    }
}
