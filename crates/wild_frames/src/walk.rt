//! A walk over the entries of a section.
ghost use Rattle.std.specs.Prelude.{◌≡◌, ◌<◌, ◌≤◌, ◌+◌, ◌^◌, length, AllPairs, slice_range, true, false, IfOk, OnOk};
ghost use Rattle.wild_frames.specs.Frames.{cie_at, cie_back, kept_if, fde_entry, entry_with_id, entry_of_size, found, after, walk_continues, relocations_in};
ghost use Rattle.wild_frames.specs.Walks.{state_of, spot_state, Fits, IsOwn, IsWithinSection, MovesBack, AreOwn, Starts, IsNext};

use crate::entry::{BadFrame, Cie, Found, KeptEntry};
use crate::frames::{FrameSource, Target, byte_count};
use crate::relocations::{count_before, fields_lie, list_error, target_first};
use std::alloc::{AllocError, Global};
use wild_types::{FrameFault, InputRelocation};
use wild_words::read_u32;

/// The state of a walk.
#[derive(Drop)]
pub struct Walk {
    /// The walk's offset in the section.
    pub at: u64,
    /// The index of the first relocation from that offset on.
    pub relocation: usize,
    /// The offset of the next kept entry in the kept bytes.
    pub to: u64,
    /// The CIEs that the walk has passed.
    pub cies: Vec<Cie>,
}

/// The position at which frames are read.
#[derive(Clone, Copy)]
pub(crate) struct Spot<'a> {
    /// The offset in the section.
    pub(crate) at: u64,
    /// The index of the first relocation from that offset on.
    pub(crate) relocation: usize,
    /// The offset of the next kept entry in the kept bytes.
    pub(crate) to: u64,
    /// The CIEs before the offset, among which an FDE's CIE is looked up.
    pub(crate) cies: &'a [Cie],
}

/// The offset in the kept bytes of the CIE at offset `from`. Time log n.
fn cie_at(from: u64, cies: &[Cie]) -> Option<u64>
    requires { AllPairs (λ c d. c.from < d.from) cies.now }
    ensures { result ≡ cie_at from cies.now }
{
    let index = cies.partition_point(|c| c.from < from);
    if index < cies.len() && cies[index].from == from {
        Some(cies[index].to)
    } else {
        None
    }
}

/// The offset in the kept bytes of the CIE that is `id` bytes before offset `at` (of the id word).
fn cie_back(at: u64, id: u64, cies: &[Cie]) -> Option<u64>
    requires { AllPairs (λ c d. c.from < d.from) cies.now }
    ensures { result ≡ cie_back at id cies.now }
{
    if id <= at {
        cie_at(at - id, cies)
    } else {
        None
    }
}

/// A kept entry, if its fields are within it; else the fault.
fn kept_if<F: FrameSource>(
    frames: &F,
    own: &[InputRelocation],
    spot: &Spot<'_>,
    size: u64,
    id: u64,
) -> Found
    ensures { result ≡ kept_if (F.frames frames.now).width own.now spot.now.at spot.now.to size id }
{
    let at = spot.at;
    if !fields_lie(frames, own, at as u128 + size as u128) {
        return Found::Bad {
            why: FrameFault::Field,
            offset: at,
        };
    }
    Found::Kept {
        entry: KeptEntry {
            from: at,
            size,
            to: spot.to,
            id,
        },
    }
}

/// An FDE, by the target of its PC Begin and by the new offset of its CIE.
fn fde_entry<F: FrameSource>(
    frames: &F,
    own: &[InputRelocation],
    spot: &Spot<'_>,
    size: u64,
    target: Target,
    cie: Option<u64>,
) -> Found
    requires { spot.now.to + 4 < 2 ^ 64 }
    ensures { result ≡ fde_entry (F.frames frames.now).width target cie own.now spot.now.at spot.now.to size }
{
    let offset = spot.at;
    match (target, cie) {
        (Target::NoSection, _) => Found::Bad {
            why: FrameFault::PcBegin,
            offset,
        },
        (Target::Loaded, _) if size < 12 => Found::Bad {
            why: FrameFault::Short,
            offset,
        },
        (_, None) => Found::Bad {
            why: FrameFault::Cie,
            offset,
        },
        (Target::Discarded, Some(_)) => Found::Dropped { size },
        (Target::Loaded, Some(cie)) => {
            kept_if(frames, own, spot, size, (spot.to + 4).saturating_sub(cie))
        }
    }
}

/// An entry with that id and size, and its relocations.
#[tactic(auto, unfolding(crate::specs::Frames::entry_with_id))]
fn entry_with_id<F: FrameSource>(
    frames: &F,
    own: &[InputRelocation],
    spot: &Spot<'_>,
    size: u64,
    id: u32,
) -> Found
    requires met { AllPairs (λ c d. c.from < d.from) spot.now.cies.now }
    requires far { spot.now.at + 8 < 2 ^ 64 }
    requires shrinks { spot.now.to ≤ spot.now.at }
    ensures { result ≡ entry_with_id (F.frames frames.now) own.now (spot_state spot.now) size id }
{
    if id == 0 {
        return kept_if(frames, own, spot, size, 0);
    }
    let target = target_first(frames, spot.at + 8, own);
    let cie = cie_back(spot.at + 4, id as u64, spot.cies);
    fde_entry(frames, own, spot, size, target, cie)
}

/// The number of relocations of the entry that ends at `end`.
fn count_own<F: FrameSource>(frames: &F, spot: &Spot<'_>, end: u64) -> usize
    requires fits { Fits (F.frames frames.now) (spot_state spot.now) spot.now.relocation }
    requires end { spot.now.at ≤ end }
    ensures { IsOwn (F.frames frames.now) spot.now.at end spot.now.relocation result }
{
    count_before(&frames.relocations()[spot.relocation..], end)
}

/// An entry of that size, with the number of its relocations.
#[tactic(auto, unfolding(crate::specs::Frames::entry_of_size))]
fn entry_of_size<F: FrameSource>(frames: &F, spot: &Spot<'_>, size: u64) -> (Found, usize)
    requires fits { Fits (F.frames frames.now) (spot_state spot.now) spot.now.relocation }
    requires room { spot.now.at + 8 ≤ length (F.frames frames.now).bytes }
    ensures found { result.0 ≡ entry_of_size (F.frames frames.now) (spot_state spot.now) size }
    ensures own { walk_continues result.0 ≡ true → IsOwn (F.frames frames.now) spot.now.at (spot.now.at + size) spot.now.relocation result.1 }
    ensures few { spot.now.relocation + result.1 ≤ length (F.frames frames.now).relocations }
{
    let offset = spot.at;
    let bytes = frames.bytes();
    if bytes.len() as u64 - offset < size {
        return (
            Found::Bad {
                why: FrameFault::Cut,
                offset,
            },
            0,
        );
    }
    if size < 8 {
        return (
            Found::Bad {
                why: FrameFault::Short,
                offset,
            },
            0,
        );
    }
    let count = count_own(frames, spot, offset + size);
    let own = &frames.relocations()[spot.relocation..spot.relocation + count];
    let id = read_u32(bytes, offset as usize + 4);
    (entry_with_id(frames, own, spot, size, id), count)
}

/// What is found at that position, with the number of its relocations.
#[tactic(auto, unfolding(crate::specs::Frames::found))]
pub(crate) fn found<F: FrameSource>(frames: &F, spot: &Spot<'_>) -> (Found, usize)
    requires fits { Fits (F.frames frames.now) (spot_state spot.now) spot.now.relocation }
    ensures found { result.0 ≡ found (F.frames frames.now) (spot_state spot.now) }
    ensures own { walk_continues result.0 ≡ true → IsOwn (F.frames frames.now) spot.now.at (after (spot_state spot.now) result.0).at spot.now.relocation result.1 }
    ensures few { spot.now.relocation + result.1 ≤ length (F.frames frames.now).relocations }
{
    let at = spot.at;
    let bytes = frames.bytes();
    if bytes.len() as u64 - at < 8 {
        return (Found::Tail { from: at }, 0);
    }
    let length = read_u32(bytes, at as usize);
    if length == 0 {
        return (Found::End, 0);
    }
    entry_of_size(frames, spot, 4 + length as u64)
}

impl Walk {
    /// A walk at the start of a section, or the fault of the section's relocations.
    pub fn start<F: FrameSource>(alloc: Global, frames: &F) -> Result<Walk, BadFrame>
        ensures { Starts (F.frames frames.now) result }
    {
        if let Some(fault) = list_error(frames.relocations()) {
            return Err(fault);
        }
        Ok(Walk {
            at: 0,
            relocation: 0,
            to: 0,
            cies: Vec::new(alloc),
        })
    }

    /// What the walk finds at its offset, with the number of its relocations.
    fn look<F: FrameSource>(&self, frames: &F) -> (Found, usize)
        requires fits { Fits (F.frames frames.now) (state_of self.now) self.now.relocation }
        ensures found { result.0 ≡ found (F.frames frames.now) (state_of self.now) }
        ensures own { walk_continues result.0 ≡ true → IsOwn (F.frames frames.now) self.now.at (after (state_of self.now) result.0).at self.now.relocation result.1 }
        ensures few { self.now.relocation + result.1 ≤ length (F.frames frames.now).relocations }
    {
        let spot = Spot {
            at: self.at,
            relocation: self.relocation,
            to: self.to,
            cies: self.cies.as_slice(),
        };
        found(frames, &spot)
    }

    /// Moves the walk past what was found.
    fn pass(&mut self, found: Found, count: usize) -> Result<(), AllocError>
        requires room { walk_continues found ≡ true → (after (state_of self.old) found).at < 2 ^ 64 }
        requires shrinks { self.old.to ≤ self.old.at }
        requires count { self.old.relocation + count < 2 ^ 64 }
        ensures state { OnOk result (state_of self.new ≡ after (state_of self.old) found) }
        ensures relocation { OnOk result (walk_continues found ≡ true → self.new.relocation ≡ self.old.relocation + count) }
        ensures stays { OnOk result (walk_continues found ≡ false → self.new.relocation ≡ self.old.relocation) }
    {
        match found {
            Found::Kept { entry } => {
                if entry.id == 0 {
                    self.cies.push(Cie {
                        from: entry.from,
                        to: entry.to,
                    })?;
                }
                self.at += entry.size;
                self.to += entry.size;
                self.relocation += count;
            }
            Found::Dropped { size } => {
                self.at += size;
                self.relocation += count;
            }
            _ => {}
        }
        Ok(())
    }

    /// Returns what is found at the walk's offset, and moves the walk past it. All steps over a section take one pass over its entries and
    /// relocations, and for each FDE a binary search among the CIEs.
    pub fn step<F: FrameSource>(&mut self, frames: &F) -> Result<Found, AllocError>
        requires { Fits (F.frames frames.now) (state_of self.old) self.old.relocation }
        ensures found { IfOk result (λ f. f ≡ found (F.frames frames.now) (state_of self.old)) }
        ensures state { IfOk result (λ f. state_of self.new ≡ after (state_of self.old) f) }
        ensures next { IfOk result (λ f. IsNext (F.frames frames.now) (state_of self.old) (state_of self.new) f) }
        ensures lies { IfOk result (λ f. IsWithinSection (F.frames frames.now) f) }
        ensures back { IfOk result MovesBack }
        ensures counted { IfOk result (λ f. (self.old.relocation ≤ self.new.relocation) × (self.new.relocation ≤ length (F.frames frames.now).relocations)) }
        ensures own { IfOk result (λ f. AreOwn (F.frames frames.now) (slice_range (F.frames frames.now).relocations self.old.relocation self.new.relocation) f) }
        ensures further { IfOk result (λ f. walk_continues f ≡ true → (self.old.at < self.new.at) × (self.new.at ≤ length (F.frames frames.now).bytes)) }
        ensures fits { IfOk result (λ f. walk_continues f ≡ true → Fits (F.frames frames.now) (state_of self.new) self.new.relocation) }
    {
        let _length = byte_count(frames);
        let _count = frames.relocations().len();
        let (found, count) = self.look(frames);
        self.pass(found, count)?;
        Ok(found)
    }
}
