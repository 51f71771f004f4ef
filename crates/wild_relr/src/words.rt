//! Consecutive words of eight bytes.
ghost use Rattle.std.specs.Prelude.{◌≡◌, ℕ, ◌+◌, ◌-◌, ◌*◌, ◌<◌, ◌≤◌, [], ◌∷◌, ◌++◌, length, slice_index};
ghost use Rattle.wild_relr.specs.Encoding.{with_last_bit};
ghost use Rattle.wild_relr.specs.RunWords.{bitmaps, bitmap_count, block};
ghost use Rattle.wild_relr.specs.WriterState.{words_in, IsSpelled};

use crate::bits::{full_bitmap, word_with};
use wild_words::{put_u64, read_u64};

/// Writes `word` after the first `count` words.
#[tactic(auto, using(crate::proofs::WriterLemmas::words_in_more, crate::proofs::SpellLemmas::spelled_more, crate::proofs::WriterLemmas::word_above))]
pub(crate) fn add_word(out: &mut [u8], count: usize, word: u64)
    requires { 8 * count + 8 ≤ length out.old }
    ensures words { words_in out.new (count + 1) ≡ words_in out.old count ++ word ∷ [] }
    ensures spelled { IsSpelled out.old count → IsSpelled out.new (count + 1) }
    ensures rest { (k : ℕ) → 8 * (count + 1) ≤ k → slice_index out.new k ≡ slice_index out.old k }
{
    put_u64(out, 8 * count, word);
}

/// Sets one more bit in the last of the first `count` words.
#[tactic(auto, using(crate::proofs::WriterLemmas::words_in_joined, crate::proofs::SpellLemmas::spelled_last, crate::proofs::WriterLemmas::word_above))]
pub(crate) fn join_last(out: &mut [u8], count: usize, slot: u64)
    requires counted { 0 < count }
    requires fits { 8 * count ≤ length out.old }
    requires slot { slot < 63 }
    ensures words { words_in out.new count ≡ with_last_bit slot (words_in out.old count) }
    ensures spelled { IsSpelled out.old count → IsSpelled out.new count }
    ensures rest { (k : ℕ) → 8 * count ≤ k → slice_index out.new k ≡ slice_index out.old k }
{
    let at = 8 * (count - 1);
    let word = read_u64(out, at);
    put_u64(out, at, word_with(word, slot));
}

/// Writes `words` bitmap words, with `slots` bits set in all, after the first `count` words.
pub(crate) fn add_bitmaps(out: &mut [u8], count: usize, words: usize, slots: u64)
    requires { 8 * (count + words) ≤ length out.old }
    ensures rest { (k : ℕ) → 8 * (count + words) ≤ k → slice_index out.new k ≡ slice_index out.old k }
    ensures words { words_in out.new (count + words) ≡ words_in out.old count ++ bitmaps words slots }
    ensures spelled { IsSpelled out.old count → IsSpelled out.new (count + words) }
{
    let mut rest = slots;
    for i in 0..words {
        add_word(out, count + i, full_bitmap(rest));
        rest = rest.saturating_sub(63);
    }
}

/// The number of words that a block of `n` slots takes; 0 if `base` is 0.
pub fn block_words(base: u64, n: u64) -> u64
    ensures is { result ≡ length (block base n) }
    ensures base { 0 < result → 0 < base }
    ensures slots { 0 < result → 0 < n }
    ensures counted { 0 < result → result ≡ 1 + bitmap_count (n - 1) }
{
    if base == 0 {
        return 0;
    }
    if n == 0 {
        return 0;
    }
    let slots = n - 1;
    let rest = if slots % 63 == 0 { 0 } else { 1 };
    1 + (slots / 63 + rest)
}

/// Writes the block of `n` slots after the first `count` words.
pub(crate) fn add_block(out: &mut [u8], count: usize, base: u64, bitmap_words: usize, n: u64)
    requires base { 0 < base }
    requires slots { 0 < n }
    requires counted { bitmap_words ≡ bitmap_count (n - 1) }
    requires fits { 8 * (count + 1 + bitmap_words) ≤ length out.old }
    ensures rest { (k : ℕ) → 8 * (count + 1 + bitmap_words) ≤ k → slice_index out.new k ≡ slice_index out.old k }
    ensures words { words_in out.new (count + 1 + bitmap_words) ≡ words_in out.old count ++ block base n }
    ensures spelled { IsSpelled out.old count → IsSpelled out.new (count + 1 + bitmap_words) }
{
    add_word(out, count, base);
    add_bitmaps(out, count + 1, bitmap_words, n - 1);
}
