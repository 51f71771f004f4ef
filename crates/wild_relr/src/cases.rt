//! The word that a place goes into.
ghost use Rattle.std.specs.Prelude.{◌≡◌};
ghost use Rattle.wild_relr.specs.WriterState.{IsInWord};
ghost use Rattle.wild_relr.specs.Encoding.{choice};

use crate::bits::{bitmap_of, slot_of};
use crate::run::{Choice, Run};

/// The first that holds: the place has a bit in the last bitmap, or in a new bitmap after the last word, or needs an address word.
#[tactic(auto, unfolding(crate::specs::Encoding::choice))]
pub fn choice(run: Run, place: u64) -> Choice
    ensures is { result ≡ choice run place }
    ensures in_word { IsInWord result }
{
    match run {
        Run::Closed => Choice::Adds(place, Run::Address(place)),
        Run::Address(address) => match slot_of(address, 8, place) {
            Some(slot) => Choice::Adds(bitmap_of(slot), Run::Bitmap(address + 8)),
            None => Choice::Adds(place, Run::Address(place)),
        },
        Run::Bitmap(start) => {
            if let Some(slot) = slot_of(start, 0, place) {
                return Choice::Joins(slot);
            }
            match slot_of(start, 504, place) {
                Some(slot) => Choice::Adds(bitmap_of(slot), Run::Bitmap(start + 504)),
                None => Choice::Adds(place, Run::Address(place)),
            }
        }
    }
}
