//! Counts the kept bytes and FDEs of a section without writing them.
ghost use Rattle.std.specs.Prelude.{◌≡◌, length};
ghost use Rattle.std.specs.List.{flat_map};
ghost use Rattle.wild_frames.specs.Frames.{start, rest_of, found_bytes, fde_of, fdes_in, frame_bytes};
ghost use Rattle.wild_frames.specs.Passes.{IsReady};

use crate::entry::Found;
use crate::frames::{FrameSource, byte_count};
use crate::pass::Pass;
use crate::write::{count_bytes, walk_continues};

/// The sizes of the kept frames of a section.
#[derive(Clone, Copy)]
pub struct FrameCounts {
    /// The kept bytes.
    pub bytes: u64,
    /// The number of kept FDEs. Each is an entry of the search table.
    pub fdes: u64,
}

/// The number of search table entries for an item that was found: 1 for a kept FDE.
fn count_fdes(found: &Found) -> u64
    ensures { result ≡ length (fde_of found.now) }
{
    match found {
        Found::Kept { entry } if entry.id != 0 => 1,
        _ => 0,
    }
}

/// Counts the kept bytes and FDEs, from the start of a walk on.
fn count_rest<F: FrameSource>(frames: &F, first: Pass) -> FrameCounts
    requires { IsReady (F.frames frames.now) first }
    ensures bytes { result.bytes ≡ length (flat_map (found_bytes (F.frames frames.now)) (rest_of (F.frames frames.now) start)) }
    ensures fdes { result.fdes ≡ length (flat_map fde_of (rest_of (F.frames frames.now) start)) }
{
    let mut walk = first;
    let mut fdes = 0;
    loop {
        let to = walk.to;
        let _length = byte_count(frames);
        let found = walk.step(frames);
        if !walk_continues(&found) {
            let bytes = to + count_bytes(frames, &found) as u64;
            return FrameCounts { bytes, fdes };
        }
        fdes += count_fdes(&found);
    }
}

/// Counts the bytes and the FDEs that are kept of a section's frames. Reads the section's bytes once, writes nothing and allocates
/// no memory.
pub fn count_frames<F: FrameSource>(frames: &F) -> FrameCounts
    ensures bytes { result.bytes ≡ length (frame_bytes (F.frames frames.now)) }
    ensures fdes { result.fdes ≡ length (fdes_in (F.frames frames.now)) }
{
    match Pass::start(frames) {
        Ok(walk) => count_rest(frames, walk),
        Err(_) => FrameCounts { bytes: 0, fdes: 0 },
    }
}
