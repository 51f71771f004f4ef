//! The one walk over the relocations of a placed section. It passes each to a sink, and allocates no memory.
ghost use Rattle.std.specs.Prelude.{◌≡◌, ℕ, map, All};
ghost use Rattle.std.specs.List.{flat_map};
ghost use Rattle.wild_frames.specs.Frames.{rest_of, start};
ghost use Rattle.wild_frames.specs.Passes.{IsReady};
ghost use Rattle.wild_placement.specs.ReversedWords.{reversed_offset, with_word_order};
ghost use Rattle.wild_placement.specs.FrameInputs.{frames_of};
ghost use Rattle.wild_placement.specs.PlacedSections.{moved_relocation, moved_relocations, placed_section, unread, target_relocations};
ghost use Rattle.wild_placement.specs.PlacedInputs.{StaysLow, StayLow, found_moved, found_placed, placed_at};
ghost use Rattle.wild_words.specs.Runs.{SinkRun};

use crate::frames::FileFrames;
use crate::kept_frames::moved_relocation;
use crate::tables::{placed_at, target_of};
use crate::words::reversed_offset;
use wild_frames::{Found, FrameSource, KeptEntry, Pass, walk_continues};
use wild_types::{File, InputRelocation, InputSection, Layout, Slot};
use wild_words::Sink;

/// Passes relocations unchanged.
#[inline(always)]
#[tactic(auto, using(wild_words::proofs::RunLemmas::item_loops))]
fn give_all<S: Sink<InputRelocation>>(
    relocations: &[InputRelocation],
    sink: &mut S,
) -> Result<(), S::Error>
    ensures { SinkRun S.goes S.refuses sink.old relocations.now result sink.new }
{
    for relocation in relocations {
        sink.take(*relocation)?;
    }
    Ok(())
}

/// Passes relocations of a section of `size` bytes at the new offsets of their reversed words.
#[inline(always)]
#[tactic(auto, using(wild_words::proofs::RunLemmas::mapped_loops))]
fn give_reversed_words<S: Sink<InputRelocation>>(
    size: u64,
    relocations: &[InputRelocation],
    sink: &mut S,
) -> Result<(), S::Error>
    ensures { SinkRun S.goes S.refuses sink.old (map (reversed_offset size) relocations.now) result sink.new }
{
    for relocation in relocations {
        sink.take(reversed_offset(size, *relocation))?;
    }
    Ok(())
}

/// Passes the relocations of a debug section as placed.
#[inline(always)]
#[tactic(auto, unfolding(crate::specs::ReversedWords::with_word_order))]
fn give_words<S: Sink<InputRelocation>>(
    section: &InputSection,
    sink: &mut S,
) -> Result<(), S::Error>
    ensures { SinkRun S.goes S.refuses sink.old (with_word_order section.now).relocations result sink.new }
{
    let relocations = section.relocations.as_slice();
    if section.reversed {
        give_reversed_words(section.size, relocations, sink)
    } else {
        give_all(relocations, sink)
    }
}

/// Passes the relocations of a loaded or sorted section as placed: none in a relocatable object.
#[inline(always)]
#[tactic(auto, using(wild_words::proofs::RunLemmas::runs, crate::proofs::TableLemmas::none_read))]
pub fn give_reversed<S: Sink<InputRelocation>>(
    layout: &Layout,
    section: &InputSection,
    sink: &mut S,
) -> Result<(), S::Error>
    ensures { SinkRun S.goes S.refuses sink.old (with_word_order (unread layout.now section.now)).relocations result sink.new }
{
    if layout.kind.is_partial_link() {
        Ok(())
    } else {
        give_words(section, sink)
    }
}

/// Passes the relocations of the target of a table, with the offsets that the table has.
#[inline(always)]
#[tactic(auto, using(wild_words::proofs::RunLemmas::mapped_loops))]
fn give_placed<S: Sink<InputRelocation>>(
    target: &InputSection,
    relocations: &[InputRelocation],
    sink: &mut S,
) -> Result<(), S::Error>
    ensures { SinkRun S.goes S.refuses sink.old (map (placed_at target.now) relocations.now) result sink.new }
{
    for relocation in relocations {
        sink.take(placed_at(target, *relocation))?;
    }
    Ok(())
}

/// Passes the entries of a table of relocations.
#[inline(always)]
fn give_table<S: Sink<InputRelocation>>(
    file: &File,
    section: &InputSection,
    sink: &mut S,
) -> Result<(), S::Error>
    ensures { SinkRun S.goes S.refuses sink.old (target_relocations file.now section.now) result sink.new }
{
    match target_of(file, section) {
        Some(target) => give_placed(target, target.relocations.as_slice(), sink),
        None => Ok(()),
    }
}

/// Passes the relocations of a kept entry, at the entry's new offset.
#[inline(always)]
#[tactic(auto, using(wild_words::proofs::RunLemmas::mapped_loops))]
fn give_moved<S: Sink<InputRelocation>>(
    entry: &KeptEntry,
    relocations: &[InputRelocation],
    sink: &mut S,
) -> Result<(), S::Error>
    requires { All (StaysLow entry.now) relocations.now }
    ensures { SinkRun S.goes S.refuses sink.old (map (moved_relocation entry.now) relocations.now) result sink.new }
{
    for relocation in relocations {
        sink.take(moved_relocation(entry, *relocation))?;
    }
    Ok(())
}

/// Passes the relocations of what a walk found.
#[inline(always)]
#[tactic(auto, using(wild_words::proofs::RunLemmas::runs))]
fn give_found<S: Sink<InputRelocation>>(
    found: &Found,
    relocations: &[InputRelocation],
    sink: &mut S,
) -> Result<(), S::Error>
    requires { StayLow relocations.now found.now }
    ensures { SinkRun S.goes S.refuses sink.old (found_moved relocations.now found.now) result sink.new }
{
    match found {
        Found::Kept { entry } => give_moved(entry, relocations, sink),
        Found::End | Found::Tail { .. } | Found::Bad { .. } | Found::Dropped { .. } => Ok(()),
    }
}

/// Passes the relocations of the kept entries, from the start of a walk on.
#[inline(always)]
fn give_kept<S: Sink<InputRelocation>>(
    frames: &FileFrames<'_>,
    first: Pass,
    sink: &mut S,
) -> Result<(), S::Error>
    requires { IsReady (frames_of frames.now.layout.now frames.now.file.now frames.now.section.now) first }
    ensures { SinkRun S.goes S.refuses sink.old (flat_map (found_placed (frames_of frames.now.layout.now frames.now.file.now frames.now.section.now)) (rest_of (frames_of frames.now.layout.now frames.now.file.now frames.now.section.now) start)) result sink.new }
{
    let _room = frames.bytes().len();
    let mut walk = first;
    loop {
        let from = walk.relocation;
        let found = walk.step(frames);
        let relocations = &frames.relocations()[from..walk.relocation];
        give_found(&found, relocations, sink)?;
        if !walk_continues(&found) {
            return Ok(());
        }
    }
}

/// Passes the relocations of a section of frames.
#[inline(always)]
fn give_frames<S: Sink<InputRelocation>>(
    frames: &FileFrames<'_>,
    sink: &mut S,
) -> Result<(), S::Error>
    ensures { SinkRun S.goes S.refuses sink.old (moved_relocations (frames_of frames.now.layout.now frames.now.file.now frames.now.section.now)) result sink.new }
{
    match Pass::start(frames) {
        Ok(walk) => give_kept(frames, walk, sink),
        Err(_) => Ok(()),
    }
}

/// Passes the relocations of a file's section, as placed in the output, one by one. Allocates no memory.
#[inline(always)]
#[tactic(auto, unfolding(crate::specs::PlacedSections::placed_section))]
pub fn give_relocations<S: Sink<InputRelocation>>(
    layout: &Layout,
    file: &File,
    section: &InputSection,
    sink: &mut S,
) -> Result<(), S::Error>
    ensures { (at : ℕ) → SinkRun S.goes S.refuses sink.old (placed_section layout.now file.now at section.now).relocations result sink.new }
{
    match section.slot {
        Slot::Frame => give_frames(
            &FileFrames {
                layout,
                file,
                section,
            },
            sink,
        ),
        Slot::Loaded => give_reversed(layout, section, sink),
        Slot::Debug => give_words(section, sink),
        Slot::Rela => give_table(file, section, sink),
        _ => give_all(section.relocations.as_slice(), sink),
    }
}
