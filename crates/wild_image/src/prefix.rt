//! Writes bytes over the first bytes of an image.
ghost use Rattle.std.specs.Prelude.{◌≡◌};
ghost use Rattle.wild_image.specs.Prefix.{place_in_prefix};

use wild_words::put;

/// Writes `part` from offset `at` of an image on, as far as `out` reaches, which has the image's first bytes.
#[tactic(auto, using(crate::proofs::PrefixLemmas::nothing_placed, crate::proofs::PrefixLemmas::front_placed, crate::proofs::PrefixLemmas::all_placed))]
pub(crate) fn put_in_prefix(out: &mut [u8], at: usize, part: &[u8])
    ensures { out.new ≡ place_in_prefix at part.now out.old }
{
    if out.len() <= at {
        return;
    }
    let room = out.len() - at;
    if room < part.len() {
        put(out, at, &part[..room]);
    } else {
        put(out, at, part);
    }
}
