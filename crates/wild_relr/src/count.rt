//! Counts the words of places, to reserve each group's share of the table.
ghost use Rattle.std.specs.Prelude.{◌≡◌, length};
ghost use Rattle.wild_relr.specs.RunWords.{packed};

use crate::cases::choice;
use crate::laws::runs_are_counted;
use crate::run::{Choice, Run};

/// The number of words that the places take as one run.
pub fn count_words(places: &[u64]) -> usize
    ensures { result ≡ length (packed places.now) }
{
    let mut count = 0;
    let mut run = Run::Closed;
    for place in places {
        if let Choice::Adds(_, next) = choice(run, *place) {
            count += 1;
            run = next;
        }
    }
    runs_are_counted();
    count
}
