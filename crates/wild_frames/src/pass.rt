//! A walk over the entries of a section that takes no memory.
ghost use Rattle.std.specs.Prelude.{◌≡◌, ◌<◌, ◌-◌, ◌≤◌, ◌+◌, ◌^◌, ◌∷◌, [], ◌==◌, if◌then◌else◌, length, true, false};
ghost use Rattle.wild_words.specs.Words.{number_at};
ghost use Rattle.wild_frames.specs.Frames.{State, found, after, walk_continues};
ghost use Rattle.wild_frames.specs.Walks.{Fits, IsOwn};
ghost use Rattle.wild_frames.specs.Passes.{reaches_offset, has_cie, cie_before, last_cie_after, state_with_cie, state_without_cies, IsBoundary, FollowsWalk, IsWithin, Begins, IsPassStep};

use crate::entry::{BadFrame, Cie, Found};
use crate::frames::{FrameSource, byte_count};
use crate::relocations::list_error;
use crate::walk::{Spot, found};
use wild_words::read_u32;

/// A walk that allocates no memory. It finds what a `Walk` finds, except for the id of a kept FDE, because it does not record where
/// the CIEs were moved.
#[derive(Clone, Copy)]
pub struct Pass {
    /// The walk's offset in the section.
    pub at: u64,
    /// The index of the first relocation from that offset on.
    pub relocation: usize,
    /// The offset of the next kept entry in the kept bytes.
    pub to: u64,
    /// The offset of the last CIE that the walk has passed; 0 before the first.
    pub known: u64,
}

/// Whether a reader that follows the lengths from one offset reaches another.
#[tactic(auto, unfolding(crate::specs::Passes::reaches_offset))]
fn reaches_offset(bytes: &[u8], from: u64, to: u64) -> bool
    requires { to + 8 ≤ length bytes.now }
    ensures { result ≡ reaches_offset bytes.now to from to }
{
    let mut at = from;
    while at < to {
        at += 4 + read_u32(bytes, at as usize) as u64;
    }
    at == to
}

impl Pass {
    /// A walk at the start of a section, or the fault of the section's relocations.
    pub fn start<F: FrameSource>(frames: &F) -> Result<Pass, BadFrame>
        ensures { Begins (F.frames frames.now) result }
    {
        if let Some(fault) = list_error(frames.relocations()) {
            return Err(fault);
        }
        Ok(Pass {
            at: 0,
            relocation: 0,
            to: 0,
            known: 0,
        })
    }

    /// Whether a CIE is at an offset before the walk's. The last CIE and the first are known; reaching another takes one read for
    /// each entry between.
    fn has_cie(&self, bytes: &[u8], from: u64) -> bool
        requires known { IsBoundary bytes.now self.now.known }
        requires from { from < self.now.at }
        requires room { self.now.at + 8 ≤ length bytes.now }
        ensures { result ≡ has_cie bytes.now from }
    {
        let first = if self.known <= from { self.known } else { 0 };
        reaches_offset(bytes, first, from) && read_u32(bytes, from as usize + 4) == 0
    }

    /// Whether a CIE is `id` bytes before the id word of the entry at the walk's offset.
    fn has_cie_back(&self, bytes: &[u8], id: u64) -> bool
        requires known { IsBoundary bytes.now self.now.known }
        requires room { self.now.at + 8 ≤ length bytes.now }
        ensures { cie_before bytes.now self.now.at self.now.to id ≡ if result then (record { from = self.now.at + 4 - id; to = self.now.to }) ∷ [] else [] }
    {
        4 < id && id <= self.at + 4 && self.has_cie(bytes, self.at + 4 - id)
    }

    /// What the walk finds at its offset, with the number of its relocations.
    fn look<F: FrameSource>(&self, frames: &F) -> (Found, usize)
        requires fits { Fits (F.frames frames.now) (state_without_cies self.now) self.now.relocation }
        requires known { IsBoundary (F.frames frames.now).bytes self.now.known }
        ensures found { result.0 ≡ found (F.frames frames.now) (state_with_cie (F.frames frames.now).bytes self.now) }
        ensures own { walk_continues result.0 ≡ true → IsOwn (F.frames frames.now) self.now.at (after (state_without_cies self.now) result.0).at self.now.relocation result.1 }
        ensures few { self.now.relocation + result.1 ≤ length (F.frames frames.now).relocations }
    {
        let bytes = frames.bytes();
        let at = self.at;
        if bytes.len() as u64 - at < 8 {
            return (Found::Tail { from: at }, 0);
        }
        let id = read_u32(bytes, at as usize + 4) as u64;
        let cie = [Cie {
            from: (at + 4).saturating_sub(id),
            to: self.to,
        }];
        let cies: &[Cie] = if self.has_cie_back(bytes, id) {
            &cie
        } else {
            &[]
        };
        let spot = Spot {
            at,
            relocation: self.relocation,
            to: self.to,
            cies,
        };
        found(frames, &spot)
    }

    /// Moves the walk past what was found.
    fn pass(&mut self, found: &Found, count: usize)
        requires room { walk_continues found.now ≡ true → (after (state_without_cies self.old) found.now).at < 2 ^ 64 }
        requires shrinks { self.old.to ≤ self.old.at }
        requires count { self.old.relocation + count < 2 ^ 64 }
        ensures at { self.new.at ≡ (after (state_without_cies self.old) found.now).at }
        ensures to { self.new.to ≡ (after (state_without_cies self.old) found.now).to }
        ensures relocation { walk_continues found.now ≡ true → self.new.relocation ≡ self.old.relocation + count }
        ensures stays { walk_continues found.now ≡ false → self.new.relocation ≡ self.old.relocation }
        ensures known { self.new.known ≡ last_cie_after self.old.known found.now }
    {
        match found {
            Found::Kept { entry } => {
                if entry.id == 0 {
                    self.known = entry.from;
                }
                self.at += entry.size;
                self.to += entry.size;
                self.relocation += count;
            }
            Found::Dropped { size } => {
                self.at += size;
                self.relocation += count;
            }
            _ => {}
        }
    }

    /// Returns what is found at the walk's offset, and moves the walk past it. The id of a kept FDE is not computed; it is some number
    /// other than 0. If each FDE belongs to the last CIE before it or to the first, all steps over a section take one pass over its
    /// entries and relocations.
    pub fn step<F: FrameSource>(&mut self, frames: &F) -> Found
        requires { IsWithin (F.frames frames.now) self.old }
        ensures { (st : State) → FollowsWalk (F.frames frames.now) self.old st → IsPassStep (F.frames frames.now) st self.old self.new result }
    {
        let _length = byte_count(frames);
        let _count = frames.relocations().len();
        let (found, count) = self.look(frames);
        self.pass(&found, count);
        found
    }
}
