//! The kept bytes of a section.
ghost use Rattle.std.specs.Prelude.{◌≡◌, [], ◌++◌, ◌<◌, ◌≤◌, ◌+◌, length, drop, OnOk, IfOk, IfErr, true, false};
ghost use Rattle.std.specs.List.{flat_map};
ghost use Rattle.wild_words.specs.Words.{word, place};
ghost use Rattle.wild_frames.specs.Frames.{start, entry_bytes, tail_of, found_bytes, rest_of, frame_bytes, terminator, walk_continues};
ghost use Rattle.wild_frames.specs.Faults.{found_errors, frame_errors, Answers, Refuses};
ghost use Rattle.wild_frames.specs.Walks.{IsWithinSection, IsAtStart, IsWritten};

use crate::entry::{BadFrame, Found, FrameError, KeptEntry};
use crate::frames::FrameSource;
use crate::walk::Walk;
use std::alloc::{AllocError, Global};
use wild_words::{put, read_u32};

/// Writes the low four bytes of an id.
#[tactic(auto, using(wild_words::proofs::WordLemmas::low_word_4))]
fn put_id(room: &mut [u8], id: u64)
    requires { 8 ≤ length room.old }
    ensures { room.new ≡ place 4 (word 4 id) room.old }
{
    put(room, 4, &id.to_le_bytes()[..4]);
}

/// Writes a kept entry, with its new id.
#[tactic(auto, unfolding(crate::specs::Frames::entry_bytes))]
pub fn write_entry<F: FrameSource>(frames: &F, entry: &KeptEntry, room: &mut [u8])
    requires within { entry.now.from + entry.now.size ≤ length (F.frames frames.now).bytes }
    requires least { 8 ≤ entry.now.size }
    requires room { length room.old ≡ entry.now.size }
    ensures { room.new ≡ entry_bytes (F.frames frames.now) entry.now }
{
    let from = entry.from as usize;
    room.copy_from_slice(&frames.bytes()[from..from + entry.size as usize]);
    if entry.id != 0 {
        put_id(room, entry.id);
    }
}

/// How many of the remaining bytes are copied.
#[tactic(auto, unfolding(crate::specs::Frames::tail_of))]
fn count_tail<F: FrameSource>(frames: &F, from: u64) -> usize
    requires { from ≤ length (F.frames frames.now).bytes }
    ensures { result ≡ length (tail_of (drop from (F.frames frames.now).bytes)) }
{
    let tail = &frames.bytes()[from as usize..];
    if tail.len() == 4 && read_u32(tail, 0) == 0 {
        return 0;
    }
    tail.len()
}

/// Copies the remaining bytes of a section, from offset `from` on. If they are four zeros they are not copied.
#[tactic(auto, unfolding(crate::specs::Frames::tail_of))]
fn write_tail<F: FrameSource>(frames: &F, from: u64, room: &mut [u8])
    requires from { from ≤ length (F.frames frames.now).bytes }
    requires room { length room.old ≡ length (tail_of (drop from (F.frames frames.now).bytes)) }
    ensures { room.new ≡ tail_of (drop from (F.frames frames.now).bytes) }
{
    let tail = &frames.bytes()[from as usize..];
    if tail.len() == 4 && read_u32(tail, 0) == 0 {
        return;
    }
    room.copy_from_slice(tail);
}

/// The size of the output for what was found, in bytes.
pub(crate) fn count_bytes<F: FrameSource>(frames: &F, found: &Found) -> usize
    requires { IsWithinSection (F.frames frames.now) found.now }
    ensures { result ≡ length (found_bytes (F.frames frames.now) found.now) }
{
    match found {
        Found::Kept { entry } => entry.size as usize,
        Found::Tail { from } => count_tail(frames, *from),
        _ => 0,
    }
}

/// Writes the output for what was found, or returns its fault.
fn write_found<F: FrameSource>(frames: &F, found: &Found, room: &mut [u8]) -> Result<(), FrameError>
    requires lies { IsWithinSection (F.frames frames.now) found.now }
    requires room { length room.old ≡ length (found_bytes (F.frames frames.now) found.now) }
    ensures faults { Answers result (found_errors found.now) }
    ensures bytes { OnOk result (room.new ≡ found_bytes (F.frames frames.now) found.now) }
{
    match found {
        Found::Kept { entry } => write_entry(frames, entry, room),
        Found::Tail { from } => write_tail(frames, *from, room),
        Found::Bad { why, offset } => {
            return Err(FrameError::Bad(BadFrame {
                why: *why,
                offset: *offset,
            }));
        }
        Found::Dropped { .. } | Found::End => {}
    }
    Ok(())
}

/// Appends the output for what was found: nothing if it is not kept.
#[tactic(auto, unfolding(crate::specs::Frames::entry_bytes, crate::specs::Frames::tail_of))]
pub fn add_found<F: FrameSource>(
    frames: &F,
    found: &Found,
    out: &mut Vec<u8>,
) -> Result<(), AllocError>
    requires { IsWithinSection (F.frames frames.now) found.now }
    ensures { OnOk result (out.new.items ≡ out.old.items ++ found_bytes (F.frames frames.now) found.now) }
{
    let bytes = frames.bytes();
    match found {
        Found::Kept { entry } => {
            let from = entry.from as usize;
            let at = out.len();
            out.extend_from_slice(&bytes[from..from + entry.size as usize])?;
            if entry.id != 0 {
                put_id(&mut out[at..], entry.id);
            }
        }
        Found::Tail { from } => {
            let from = *from as usize;
            out.extend_from_slice(&bytes[from..from + count_tail(frames, from as u64)])?;
        }
        _ => {}
    }
    Ok(())
}

/// Appends the zero length that ends the frames of an output.
pub fn write_eh_frame_terminator(out: &mut Vec<u8>) -> Result<(), AllocError>
    ensures { OnOk result (out.new.items ≡ out.old.items ++ terminator) }
{
    out.extend_from_slice(&[0; 4])
}

/// Whether the walk continues after what was found.
pub fn walk_continues(found: &Found) -> bool
    ensures { result ≡ walk_continues found.now }
{
    match found {
        Found::Kept { .. } | Found::Dropped { .. } => true,
        _ => false,
    }
}

/// Takes one step of a walk and writes its output. Returns whether there is more.
fn write_next<F: FrameSource>(
    frames: &F,
    walk: &mut Walk,
    out: &mut [u8],
) -> Result<bool, FrameError>
    requires { IsWritten (F.frames frames.now) walk.old out.old }
    ensures faults { IfErr result (λ e. Refuses e (flat_map found_errors (rest_of (F.frames frames.now) start))) }
    ensures none { IfOk result (λ more. more ≡ false → flat_map found_errors (rest_of (F.frames frames.now) start) ≡ []) }
    ensures bytes { IfOk result (λ more. more ≡ false → out.new ≡ flat_map (found_bytes (F.frames frames.now)) (rest_of (F.frames frames.now) start)) }
    ensures more { IfOk result (λ more. more ≡ true → IsWritten (F.frames frames.now) walk.new out.new) }
    ensures further { IfOk result (λ more. more ≡ true → (walk.old.at < walk.new.at) × (walk.new.at ≤ length (F.frames frames.now).bytes)) }
{
    let to = walk.to as usize;
    let _room = out.len();
    let found = walk.step(frames)?;
    let count = count_bytes(frames, &found);
    match write_found(frames, &found, &mut out[to..to + count]) {
        Ok(()) => Ok(walk_continues(&found)),
        Err(error) => Err(error),
    }
}

/// Writes the kept bytes, from the start of a walk on.
fn write_frames<F: FrameSource>(frames: &F, first: Walk, out: &mut [u8]) -> Result<(), FrameError>
    requires first { IsAtStart (F.frames frames.now) first }
    requires room { length out.old ≡ length (flat_map (found_bytes (F.frames frames.now)) (rest_of (F.frames frames.now) start)) }
    ensures faults { Answers result (flat_map found_errors (rest_of (F.frames frames.now) start)) }
    ensures bytes { OnOk result (out.new ≡ flat_map (found_bytes (F.frames frames.now)) (rest_of (F.frames frames.now) start)) }
{
    let mut walk = first;
    while write_next(frames, &mut walk, out)? {}
    Ok(())
}

/// Writes the kept bytes of a section, before their fields are relocated, or returns the first fault. One pass over the section's bytes
/// and relocations, with a binary search for each FDE. Allocates memory for the offsets of the CIEs.
pub fn write_eh_frame_data<F: FrameSource>(
    alloc: Global,
    frames: &F,
    out: &mut [u8],
) -> Result<(), FrameError>
    requires room { length out.old ≡ length (frame_bytes (F.frames frames.now)) }
    ensures faults { Answers result (frame_errors (F.frames frames.now)) }
    ensures bytes { OnOk result (out.new ≡ frame_bytes (F.frames frames.now)) }
{
    match Walk::start(alloc, frames) {
        Ok(walk) => write_frames(frames, walk, out),
        Err(fault) => Err(FrameError::Bad(fault)),
    }
}
