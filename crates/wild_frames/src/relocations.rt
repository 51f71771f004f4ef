//! The relocations of a section of frames, in order of their offsets.
ghost use Rattle.std.specs.Prelude.{◌≡◌, ◌≤◌, ◌+◌, length, nat_lt, nat_le, take, drop};
ghost use Rattle.std.specs.List.{filter, list_all};
ghost use Rattle.wild_frames.specs.Frames.{malformed_in, unsorted_in, list_error, target_first};
ghost use Rattle.wild_frames.specs.Walks.{IsSorted};

use crate::entry::BadFrame;
use crate::frames::{FrameSource, Target};
use wild_types::{FrameFault, InputRelocation};

/// The first relocation that could not be read.
#[tactic(auto, unfolding(crate::specs::Frames::malformed_in))]
fn malformed_in(relocations: &[InputRelocation]) -> Option<BadFrame>
    ensures { result ≡ malformed_in relocations.now }
{
    for relocation in relocations {
        if relocation.malformed {
            return Some(BadFrame {
                why: FrameFault::Malformed,
                offset: relocation.offset,
            });
        }
    }
    None
}

/// The first relocation whose offset is below that of the relocation before it.
#[tactic(auto, unfolding(crate::specs::Frames::unsorted_in))]
fn unsorted_in(relocations: &[InputRelocation]) -> Option<BadFrame>
    ensures { result ≡ unsorted_in 0 relocations.now }
{
    let mut reach = 0;
    for relocation in relocations {
        let offset = relocation.offset;
        if offset < reach {
            return Some(BadFrame {
                why: FrameFault::Unsorted,
                offset,
            });
        }
        reach = offset;
    }
    None
}

/// The fault of a list of relocations, if it has one.
#[tactic(auto, unfolding(crate::specs::Frames::list_error))]
pub(crate) fn list_error(relocations: &[InputRelocation]) -> Option<BadFrame>
    ensures { result ≡ list_error relocations.now }
{
    match malformed_in(relocations) {
        Some(fault) => Some(fault),
        None => unsorted_in(relocations),
    }
}

/// The number of relocations before an offset: those of one entry, so that all entries together take one pass.
pub(crate) fn count_before(rest: &[InputRelocation], end: u64) -> usize
    requires { IsSorted rest.now }
    ensures within { result ≤ length rest.now }
    ensures own { take result rest.now ≡ filter (λ r. nat_lt r.offset end) rest.now }
    ensures later { drop result rest.now ≡ filter (λ r. nat_le end r.offset) rest.now }
{
    for (i, relocation) in rest.iter().enumerate() {
        if relocation.offset >= end {
            return i;
        }
    }
    rest.len()
}

/// Where the code of an FDE is, by its first relocation if that is at offset `at` (the PC Begin); else `Discarded`.
pub(crate) fn target_first<F: FrameSource>(frames: &F, at: u64, own: &[InputRelocation]) -> Target
    ensures { result ≡ target_first (F.frames frames.now).target at own.now }
{
    match own.first() {
        Some(relocation) if relocation.offset == at => frames.target(relocation),
        _ => Target::Discarded,
    }
}

/// Each field ends at or before `end`.
pub(crate) fn fields_lie<F: FrameSource>(frames: &F, own: &[InputRelocation], end: u128) -> bool
    ensures { result ≡ list_all (λ r. nat_le (r.offset + (F.frames frames.now).width r) end) own.now }
{
    for relocation in own {
        if relocation.offset as u128 + frames.width(relocation) as u128 > end {
            return false;
        }
    }
    true
}
