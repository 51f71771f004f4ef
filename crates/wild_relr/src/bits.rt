//! Bits of bitmap words.
ghost use Rattle.std.specs.Prelude.{◌≡◌, ◌+◌, ◌-◌, ◌*◌, ◌^◌, ◌<◌, ◌≤◌, min, IfSome};
ghost use Rattle.wild_relr.specs.Encoding.{slot, bitmap, with_bit};

/// The number of the bit for the place, in the bitmap whose window starts `skip` bytes after `from`; `None` if the place has no bit there.
#[tactic(auto, unfolding(crate::specs::Encoding::slot))]
pub(crate) fn slot_of(from: u64, skip: u64, place: u64) -> Option<u64>
    ensures is { result ≡ slot (from + skip) place }
    ensures within { IfSome result (λ i. (i < 63) × (from + skip + 8 * i ≤ place)) }
{
    if place < from {
        return None;
    }
    let behind = place - from;
    if behind < skip {
        return None;
    }
    let distance = behind - skip;
    if distance % 8 != 0 {
        return None;
    }
    if distance >= 504 {
        return None;
    }
    Some(distance / 8)
}

/// A bitmap word with one bit set.
#[tactic(auto, using(crate::proofs::WriterLemmas::bit_fits), unfolding(crate::specs::Encoding::bitmap))]
pub(crate) fn bitmap_of(slot: u64) -> u64
    requires { slot < 63 }
    ensures { result ≡ bitmap slot }
{
    1 + (2 << slot)
}

/// The bitmap word with the bit of that number set.
#[tactic(auto, using(crate::proofs::WriterLemmas::bit_fits, crate::proofs::WriterLemmas::bit_set))]
pub(crate) fn word_with(word: u64, slot: u64) -> u64
    requires { slot < 63 }
    ensures { result ≡ with_bit slot word }
{
    word | (2 << slot)
}

/// A bitmap word with the first `slots` bits set, at most 63.
#[tactic(auto, using(crate::proofs::WriterLemmas::full_shift))]
pub(crate) fn full_bitmap(slots: u64) -> u64
    ensures { result ≡ 2 * 2 ^ min slots 63 - 1 }
{
    let clear = 63 - slots.min(63);
    u64::MAX >> clear
}
