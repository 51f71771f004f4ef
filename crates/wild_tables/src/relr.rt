//! A group's share of a RELR section (gABI, "Relative Relocation Table").
ghost use Rattle.std.specs.Prelude.{◌≡◌, ◌≢◌, ◌+◌, ◌*◌, ◌%◌, ◌^◌, ◌<◌, ◌≤◌, ◌++◌, length, take, Contains, OnOk, OnErr, IfOk};
ghost use Rattle.wild_records.specs.Relocations.{relr_size};
ghost use Rattle.wild_relr.specs.Places.{places};
ghost use Rattle.wild_relr.specs.Encoding.{after, Follows, Records};
ghost use Rattle.wild_relr.specs.RunWords.{after_relr_slot, after_block, reset, nothing, slots};
ghost use Rattle.wild_relr.specs.WriterState.{word_bytes};

use std::alloc::{AllocError, Global};
use std::marker::Model;
use wild_records::Relr;
use wild_relr::{Full, RelrWriter, each_place_is_recorded};

/// RELR words in a group's share of a part, written from its start.
#[derive(Drop)]
pub struct RelrTable {
    part: Vec<u8>,
    writer: RelrWriter,
}

impl Model for RelrTable {
    ghost use Rattle.wild_table_formats.specs.RelrWords.{Words, words_of_table, IsTable};

    ghost Value = { Words };

    ghost view = { λ t. words_of_table t.part.items t.writer };

    ghost invariant = { λ t. IsTable t.part.items t.writer };
}

impl RelrTable {
    /// An empty table for a share of `room` bytes. Fails only if out of memory.
    pub fn new(alloc: Global, room: usize) -> Result<Self, AllocError>
        ensures { IfOk result (λ t. (t.state ≡ nothing) × (t.room ≡ room)) }
    {
        Ok(RelrTable {
            part: vec![in alloc; 0; room]?,
            writer: RelrWriter::new(),
        })
    }

    /// Records an even place. Fails exactly if the words including it do not fit; then nothing changes.
    pub fn write(&mut self, place: u64) -> Result<(), Full>
        requires { place % 2 ≡ 0 }
        ensures ok { OnOk result (self.new.state ≡ after self.old.state place) }
        ensures recorded { OnOk result ((Contains (places self.old.state.words) place → ⊥) → Records self.old.state.words self.new.state.words place) }
        ensures fits { OnOk result (relr_size * length (after self.old.state place).words ≤ self.old.room) }
        ensures full { OnErr result (self.old.room < relr_size * length (after self.old.state place).words) }
        ensures kept { OnErr result (self.new ≡ self.old) }
        ensures room { self.new.room ≡ self.old.room }
    {
        each_place_is_recorded();
        self.follow();
        self.put(place)
    }

    /// The state of the open run agrees with the words.
    fn follow(&self)
        ensures { Follows self.now.state }
    {
        let _writer = &self.writer;
    }

    /// Records an even place: a bit in the last bitmap, a new bitmap, or an address word.
    fn put(&mut self, place: u64) -> Result<(), Full>
        requires { place % 2 ≡ 0 }
        ensures ok { OnOk result (self.new.state ≡ after self.old.state place) }
        ensures fits { OnOk result (relr_size * length (after self.old.state place).words ≤ self.old.room) }
        ensures full { OnErr result (self.old.room < relr_size * length (after self.old.state place).words) }
        ensures kept { OnErr result (self.new ≡ self.old) }
        ensures room { self.new.room ≡ self.old.room }
    {
        self.writer.write(self.part.as_mut_slice(), place)
    }

    /// Records an even place by its own address word, and ends the run. Fails exactly if the words including it do not fit;
    /// then nothing changes.
    pub fn write_relr_slot(&mut self, place: u64) -> Result<(), Full>
        requires { place % 2 ≡ 0 }
        ensures ok { OnOk result (self.new.state ≡ after_relr_slot self.old.state place) }
        ensures recorded { OnOk result ((Contains (places self.old.state.words) place → ⊥) → Records self.old.state.words self.new.state.words place) }
        ensures fits { OnOk result (relr_size * length (after_relr_slot self.old.state place).words ≤ self.old.room) }
        ensures full { OnErr result (self.old.room < relr_size * length (after_relr_slot self.old.state place).words) }
        ensures kept { OnErr result (self.new ≡ self.old) }
        ensures room { self.new.room ≡ self.old.room }
    {
        each_place_is_recorded();
        self.put_relr_slot(place)
    }

    /// Records an even place by its own address word.
    fn put_relr_slot(&mut self, place: u64) -> Result<(), Full>
        requires { place % 2 ≡ 0 }
        ensures ok { OnOk result (self.new.state ≡ after_relr_slot self.old.state place) }
        ensures fits { OnOk result (relr_size * length (after_relr_slot self.old.state place).words ≤ self.old.room) }
        ensures full { OnErr result (self.old.room < relr_size * length (after_relr_slot self.old.state place).words) }
        ensures kept { OnErr result (self.new ≡ self.old) }
        ensures room { self.new.room ≡ self.old.room }
    {
        self.writer.write_relr_slot(self.part.as_mut_slice(), place)
    }

    /// Records an even place by its own address word, which fits, and ends the run.
    pub fn push_relr_slot(&mut self, place: u64)
        requires even { place % 2 ≡ 0 }
        requires fits { relr_size * (length self.old.state.words + 1) ≤ self.old.room }
        ensures state { self.new.state ≡ after_relr_slot self.old.state place }
        ensures room { self.new.room ≡ self.old.room }
    {
        match self.put_relr_slot(place) {
            Ok(()) => {}
            Err(_) => unreachable!(),
        }
    }

    /// Records `n` places, 8 bytes after each other from `base`, by one address word and its bitmaps, and ends the run. Fails
    /// exactly if the words including them do not fit; then nothing changes.
    pub fn write_block(&mut self, base: u64, n: u64) -> Result<(), Full>
        requires { base % 2 ≡ 0 }
        ensures ok { OnOk result (self.new.state ≡ after_block self.old.state base n) }
        ensures recorded { OnOk result (base ≢ 0 → places self.new.state.words ≡ places self.old.state.words ++ slots base n) }
        ensures fits { OnOk result (relr_size * length (after_block self.old.state base n).words ≤ self.old.room) }
        ensures full { OnErr result (self.old.room < relr_size * length (after_block self.old.state base n).words) }
        ensures kept { OnErr result (self.new ≡ self.old) }
        ensures room { self.new.room ≡ self.old.room }
    {
        self.writer.write_block(self.part.as_mut_slice(), base, n)
    }

    /// Ends the run; no word changes.
    pub fn reset_run(&mut self)
        ensures state { self.new.state ≡ reset self.old.state }
        ensures room { self.new.room ≡ self.old.room }
    {
        self.writer.reset_run();
    }

    /// The size of the share in bytes.
    pub fn room(&self) -> usize
        ensures room { result ≡ self.now.room }
        ensures small { result < 2 ^ 63 }
    {
        self.part.as_slice().len()
    }

    /// The number of bytes of all words.
    pub fn used(&self) -> usize
        ensures used { result ≡ relr_size * length self.now.state.words }
        ensures fits { result ≤ self.now.room }
    {
        self.writer.len() * Relr::SIZE
    }

    /// The bytes of the share: those of the words, then the unwritten rest.
    #[tactic(auto, using(crate::proofs::TableLemmas::words_stand))]
    pub fn bytes(&self) -> &[u8]
        ensures written { take (relr_size * length self.now.state.words) result.now ≡ word_bytes self.now.state.words }
        ensures room { length result.now ≡ self.now.room }
    {
        self.part.as_slice()
    }
}
