//! Frames that are not kept: the first faulty entry of a section, and the FDEs that are dropped.

use crate::faults::{relocation_at, words_of};
use crate::fields::word_at;
use crate::items::{Item, SectionPlace, push_item};
use crate::text::Text;
use std::alloc::{AllocError, Global};
use wild_frames::{BadFrame, FrameError, FrameSource, Target, count_frames, write_eh_frame_data};
use wild_placement::FileFrames;
use wild_types::{Fault, FrameFault, InputRelocation, InputSection, Layout};

/// The relocation that has a fault: the one at its offset, or at the FDE's PC Begin.
fn relocation_of(section: &InputSection, bad: BadFrame) -> Option<usize> {
    match bad.why {
        FrameFault::Malformed | FrameFault::Unsorted => relocation_at(section, bad.offset),
        FrameFault::PcBegin => relocation_at(section, bad.offset.saturating_add(8)),
        _ => None,
    }
}

/// Adds the first fault of a section's frames, if there is one, and returns whether there is.
fn push_bad_frame(
    out: &mut Text,
    alloc: Global,
    at: SectionPlace,
    frames: &FileFrames<'_>,
) -> Result<bool, AllocError> {
    let counts = count_frames(frames);
    let mut kept = vec![in alloc; 0; counts.bytes as usize]?;
    match write_eh_frame_data(alloc, frames, &mut kept) {
        Ok(()) => Ok(false),
        Err(FrameError::OutOfMemory) => Err(AllocError),
        Err(FrameError::Bad(bad)) => {
            let (what, remedy) = words_of(Fault::BadFrameData { why: bad.why }, false);
            let offset = bad.offset;
            out.push_str("likely: ");
            push_item(out, Item::Input(at));
            if let Some(index) = relocation_of(frames.section, bad) {
                write!(out, "/relocations/{index}");
            }
            writeln!(
                out,
                " has a fault of frames at offset {offset}, from where none is kept: {what}; {remedy}"
            );
            Ok(true)
        }
    }
}

/// The index of the first relocation from an offset on, among those from index `first` on.
fn skip_relocations(relocations: &[InputRelocation], first: usize, offset: u64) -> usize {
    let mut next = first;
    for _ in 0..relocations.len() {
        match relocations.get(next) {
            Some(relocation) if relocation.offset < offset => next = next.saturating_add(1),
            _ => break,
        }
    }
    next
}

/// Why an FDE at an offset is dropped, by the first of its relocations; empty if it is kept.
fn why_dropped(
    frames: &FileFrames<'_>,
    entry: u64,
    first: Option<&InputRelocation>,
) -> &'static str {
    match first {
        Some(relocation) if relocation.offset == entry.saturating_add(8) => {
            match frames.target(relocation) {
                Target::Loaded => "",
                _ => "its code is in no input section that is loaded",
            }
        }
        _ => "no relocation is at its byte 8, where the address of its code is",
    }
}

/// Adds the FDEs of a section that are dropped, each with its offset and the reason.
fn push_dropped(out: &mut Text, at: SectionPlace, frames: &FileFrames<'_>) {
    let bytes = frames.bytes();
    let size = bytes.len() as u64;
    let relocations = frames.relocations();
    let mut next: usize = 0;
    let mut entry: u64 = 0;
    for _ in 0..bytes.len() {
        let length = u64::from(word_at(bytes, entry));
        if size < entry.saturating_add(8) || length == 0 {
            return;
        }
        let is_fde = word_at(bytes, entry.saturating_add(4)) != 0;
        next = skip_relocations(relocations, next, entry);
        let why = why_dropped(frames, entry, relocations.get(next));
        if is_fde && !why.is_empty() {
            out.push_str("likely: ");
            push_item(out, Item::Input(at));
            writeln!(out, " has an FDE at offset {entry} that is dropped: {why}");
        }
        entry = entry.saturating_add(length).saturating_add(4);
    }
}

/// Adds what keeps frames out of the image, for each input section of frames.
pub(crate) fn push_frames(
    out: &mut Text,
    alloc: Global,
    layout: &Layout,
) -> Result<(), AllocError> {
    for (group, found) in layout.groups.as_slice().iter().enumerate() {
        for (file, held) in found.files.as_slice().iter().enumerate() {
            for (section, input) in held.sections.as_slice().iter().enumerate() {
                let at = SectionPlace {
                    group,
                    file,
                    section,
                };
                let frames = FileFrames {
                    layout,
                    file: held,
                    section: input,
                };
                if input.slot.is_frame() && !push_bad_frame(out, alloc, at, &frames)? {
                    push_dropped(out, at, &frames);
                }
            }
        }
    }
    Ok(())
}
