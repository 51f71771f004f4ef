//! A group's share of the GOT.
ghost use Rattle.std.specs.Prelude.{◌≡◌, ◌+◌, ◌*◌, ◌^◌, ◌<◌, ◌≤◌, [], ◌∷◌, ◌++◌, length, take, IfOk};
ghost use Rattle.wild_relr.specs.WriterState.{word_bytes, words_in, IsSpelled};

use std::alloc::{AllocError, Global};
use std::marker::Model;
use wild_slot::WORD_SIZE;
use wild_words::put_u64;

/// Words of 8 bytes in a group's share of a part, written from its start.
#[derive(Drop)]
pub struct WordTable {
    part: Vec<u8>,
    count: usize,
}

impl Model for WordTable {
    ghost use Rattle.wild_table_formats.specs.GotWords.{GotWords, words_of_part, IsWordTable};

    ghost Value = { GotWords };

    ghost view = { λ t. words_of_part t.part.items t.count };

    ghost invariant = { λ t. IsWordTable t.part.items t.count };
}

impl WordTable {
    /// An empty table for a share of `room` bytes. Fails only if out of memory.
    #[tactic(auto, unfolding(wild_relr::specs::WriterState::words_in, wild_relr::specs::WriterState::IsSpelled))]
    pub fn new(alloc: Global, room: usize) -> Result<Self, AllocError>
        ensures { IfOk result (λ t. (t.words ≡ []) × (t.room ≡ room)) }
    {
        Ok(WordTable {
            part: vec![in alloc; 0; room]?,
            count: 0,
        })
    }

    /// Appends a word that fits.
    #[tactic(auto, using(wild_relr::proofs::WriterLemmas::length_words_in))]
    pub fn push(&mut self, word: u64)
        requires { 8 * (length self.old.words + 1) ≤ self.old.room }
        ensures words { self.new.words ≡ self.old.words ++ word ∷ [] }
        ensures room { self.new.room ≡ self.old.room }
    {
        prove!(WORD_SIZE * self.count + WORD_SIZE <= self.part.len());
        add_word(self.part.as_mut_slice(), self.count, word);
        self.count += 1;
    }

    /// The size of the share in bytes.
    pub fn room(&self) -> usize
        ensures room { result ≡ self.now.room }
        ensures small { result < 2 ^ 63 }
    {
        self.part.as_slice().len()
    }

    /// The number of bytes of all words.
    #[tactic(auto, using(wild_relr::proofs::WriterLemmas::length_words_in))]
    pub fn used(&self) -> usize
        ensures used { result ≡ 8 * length self.now.words }
        ensures fits { result ≤ self.now.room }
    {
        WORD_SIZE * self.count
    }

    /// The bytes of the share: those of the words, then the unwritten rest.
    #[tactic(auto, using(crate::proofs::WordTableLemmas::words_stand))]
    pub fn bytes(&self) -> &[u8]
        ensures written { take (8 * length self.now.words) result.now ≡ word_bytes self.now.words }
        ensures room { length result.now ≡ self.now.room }
    {
        self.part.as_slice()
    }
}

/// Writes a word after the first `count` words.
#[tactic(auto, using(wild_relr::proofs::WriterLemmas::words_in_more, wild_relr::proofs::SpellLemmas::spelled_more))]
fn add_word(out: &mut [u8], count: usize, word: u64)
    requires { 8 * count + 8 ≤ length out.old }
    ensures words { words_in out.new (count + 1) ≡ words_in out.old count ++ word ∷ [] }
    ensures spelled { IsSpelled out.old count → IsSpelled out.new (count + 1) }
{
    put_u64(out, WORD_SIZE * count, word);
}
