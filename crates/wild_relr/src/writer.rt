//! The writer of RELR words. It keeps no list of places, so each place takes the same steps.
ghost use Rattle.std.specs.Prelude.{◌≡◌, ◌≢◌, ◌++◌, ℕ, ◌*◌, ◌%◌, ◌<◌, ◌≤◌, List, [], length, slice_index, Contains, OnOk, OnErr};
ghost use Rattle.wild_relr.specs.Places.{places};
ghost use Rattle.wild_relr.specs.Encoding.{after, Follows, Records};
ghost use Rattle.wild_relr.specs.RunWords.{after_block, after_relr_slot, reset, nothing, slots};
ghost use Rattle.wild_relr.specs.WriterState.{state, ContainsWords};

use crate::cases::choice;
use crate::laws::{blocks_hold_their_slots, each_place_is_recorded};
use crate::run::{Choice, Run};
use crate::words::{add_block, add_word, block_words, join_last};

/// The words to be written do not fit.
#[derive(Clone, Copy, Debug, PartialEq, Eq)]
pub struct Full;

/// The number of words written to a part, and the state of their run.
#[derive(Clone, Copy)]
pub struct RelrWriter {
    count: usize,
    run: Run,
}

impl RelrWriter {
    /// A writer without words.
    #[tactic(auto, unfolding(crate::specs::WriterState::words_in, crate::specs::WriterState::IsSpelled))]
    pub fn new() -> Self
        ensures state { (bytes : List ℕ) → state bytes result ≡ nothing }
        ensures follows { (bytes : List ℕ) → Follows (state bytes result) }
        ensures lies { (bytes : List ℕ) → ContainsWords bytes result }
    {
        RelrWriter {
            count: 0,
            run: Run::Closed,
        }
    }

    /// The number of words.
    pub fn len(&self) -> usize
        ensures count { result ≡ self.now.count }
        ensures words { (bytes : List ℕ) → length (state bytes self.now).words ≡ result }
    {
        self.count
    }

    /// Records a place by a new word, or by a bit in the last word.
    fn put_place(&mut self, out: &mut [u8], place: u64) -> Result<(), Full>
        requires { ContainsWords out.old self.old }
        ensures ok { OnOk result (state out.new self.new ≡ after (state out.old self.old) place) }
        ensures lies { ContainsWords out.new self.new }
        ensures grows { self.old.count ≤ self.new.count }
        ensures rest { (k : ℕ) → 8 * self.new.count ≤ k → slice_index out.new k ≡ slice_index out.old k }
        ensures fits { OnOk result (8 * length (after (state out.old self.old) place).words ≤ length out.old) }
        ensures full { OnErr result (length out.old < 8 * length (after (state out.old self.old) place).words) }
        ensures out_kept { OnErr result (out.new ≡ out.old) }
        ensures kept { OnErr result (self.new ≡ self.old) }
    {
        match choice(self.run, place) {
            Choice::Joins(slot) => join_last(out, self.count, slot),
            Choice::Adds(word, run) => {
                if out.len() - 8 * self.count < 8 {
                    return Err(Full);
                }
                add_word(out, self.count, word);
                self.count += 1;
                self.run = run;
            }
        }
        Ok(())
    }

    /// Ends the run: the next place gets an address word.
    pub fn reset_run(&mut self)
        ensures state { (bytes : List ℕ) → state bytes self.new ≡ reset (state bytes self.old) }
        ensures follows { (bytes : List ℕ) → Follows (state bytes self.new) }
        ensures count { self.new.count ≡ self.old.count }
        ensures lies { (bytes : List ℕ) → ContainsWords bytes self.old → ContainsWords bytes self.new }
    {
        self.run = Run::Closed;
    }

    /// Records a place that is not recorded yet: by a new word, or by a bit in the last word. Fails exactly if the words with it do not
    /// fit; then nothing changes.
    pub fn write(&mut self, out: &mut [u8], place: u64) -> Result<(), Full>
        requires lies { ContainsWords out.old self.old }
        requires follows { Follows (state out.old self.old) }
        requires even { place % 2 ≡ 0 }
        ensures ok { OnOk result (state out.new self.new ≡ after (state out.old self.old) place) }
        ensures recorded { OnOk result ((Contains (places (state out.old self.old).words) place → ⊥) → Records (state out.old self.old).words (state out.new self.new).words place) }
        ensures lies { ContainsWords out.new self.new }
        ensures rest { (k : ℕ) → 8 * self.new.count ≤ k → slice_index out.new k ≡ slice_index out.old k }
        ensures follows { Follows (state out.new self.new) }
        ensures fits { OnOk result (8 * length (after (state out.old self.old) place).words ≤ length out.old) }
        ensures full { OnErr result (length out.old < 8 * length (after (state out.old self.old) place).words) }
        ensures out_kept { OnErr result (out.new ≡ out.old) }
        ensures kept { OnErr result (self.new ≡ self.old) }
    {
        each_place_is_recorded();
        self.put_place(out, place)
    }

    /// Writes the block of `n` slots after the words.
    fn put_block(&mut self, out: &mut [u8], base: u64, n: u64) -> Result<(), Full>
        requires { ContainsWords out.old self.old }
        ensures ok { OnOk result (state out.new self.new ≡ after_block (state out.old self.old) base n) }
        ensures lies { ContainsWords out.new self.new }
        ensures rest { (k : ℕ) → 8 * self.new.count ≤ k → slice_index out.new k ≡ slice_index out.old k }
        ensures fits { OnOk result (8 * length (after_block (state out.old self.old) base n).words ≤ length out.old) }
        ensures full { OnErr result (length out.old < 8 * length (after_block (state out.old self.old) base n).words) }
        ensures out_kept { OnErr result (out.new ≡ out.old) }
        ensures kept { OnErr result (self.new ≡ self.old) }
    {
        let needed = block_words(base, n);
        let room = (out.len() - 8 * self.count) / 8;
        if needed > room as u64 {
            return Err(Full);
        }
        if needed > 0 {
            let bitmap_words = (needed - 1) as usize;
            add_block(out, self.count, base, bitmap_words, n);
            self.count = self.count + 1 + bitmap_words;
        }
        self.run = Run::Closed;
        Ok(())
    }

    /// Records the `n` slots from `base` on by a block, and ends the run. Fails exactly if the words with the block do not fit; then
    /// nothing changes.
    pub fn write_block(&mut self, out: &mut [u8], base: u64, n: u64) -> Result<(), Full>
        requires lies { ContainsWords out.old self.old }
        requires even { base % 2 ≡ 0 }
        ensures ok { OnOk result (state out.new self.new ≡ after_block (state out.old self.old) base n) }
        ensures recorded { OnOk result (base ≢ 0 → places (state out.new self.new).words ≡ places (state out.old self.old).words ++ slots base n) }
        ensures lies { ContainsWords out.new self.new }
        ensures rest { (k : ℕ) → 8 * self.new.count ≤ k → slice_index out.new k ≡ slice_index out.old k }
        ensures follows { OnOk result (Follows (state out.new self.new)) }
        ensures fits { OnOk result (8 * length (after_block (state out.old self.old) base n).words ≤ length out.old) }
        ensures full { OnErr result (length out.old < 8 * length (after_block (state out.old self.old) base n).words) }
        ensures out_kept { OnErr result (out.new ≡ out.old) }
        ensures kept { OnErr result (self.new ≡ self.old) }
    {
        blocks_hold_their_slots();
        self.put_block(out, base, n)
    }

    /// Records a place that is not recorded yet by an address word of its own, and ends the run. Fails exactly if the words with it do
    /// not fit; then nothing changes.
    pub fn write_relr_slot(&mut self, out: &mut [u8], place: u64) -> Result<(), Full>
        requires lies { ContainsWords out.old self.old }
        requires even { place % 2 ≡ 0 }
        ensures ok { OnOk result (state out.new self.new ≡ after_relr_slot (state out.old self.old) place) }
        ensures recorded { OnOk result ((Contains (places (state out.old self.old).words) place → ⊥) → Records (state out.old self.old).words (state out.new self.new).words place) }
        ensures lies { ContainsWords out.new self.new }
        ensures rest { (k : ℕ) → 8 * self.new.count ≤ k → slice_index out.new k ≡ slice_index out.old k }
        ensures follows { OnOk result (Follows (state out.new self.new)) }
        ensures fits { OnOk result (8 * length (after_relr_slot (state out.old self.old) place).words ≤ length out.old) }
        ensures full { OnErr result (length out.old < 8 * length (after_relr_slot (state out.old self.old) place).words) }
        ensures out_kept { OnErr result (out.new ≡ out.old) }
        ensures kept { OnErr result (self.new ≡ self.old) }
    {
        each_place_is_recorded();
        self.put_relr_slot(out, place)
    }

    /// Writes the place as an address word, after the words.
    fn put_relr_slot(&mut self, out: &mut [u8], place: u64) -> Result<(), Full>
        requires { ContainsWords out.old self.old }
        ensures ok { OnOk result (state out.new self.new ≡ after_relr_slot (state out.old self.old) place) }
        ensures lies { ContainsWords out.new self.new }
        ensures rest { (k : ℕ) → 8 * self.new.count ≤ k → slice_index out.new k ≡ slice_index out.old k }
        ensures fits { OnOk result (8 * length (after_relr_slot (state out.old self.old) place).words ≤ length out.old) }
        ensures full { OnErr result (length out.old < 8 * length (after_relr_slot (state out.old self.old) place).words) }
        ensures out_kept { OnErr result (out.new ≡ out.old) }
        ensures kept { OnErr result (self.new ≡ self.old) }
    {
        if out.len() - 8 * self.count < 8 {
            return Err(Full);
        }
        add_word(out, self.count, place);
        self.count += 1;
        self.run = Run::Closed;
        Ok(())
    }
}
