//! A group's share of a RELA section (gABI, "Relocation").
ghost use Rattle.std.specs.Prelude.{◌≡◌, ◌+◌, ◌*◌, ◌^◌, ◌<◌, ◌≤◌, [], ◌∷◌, ◌++◌, length, take, OnOk, OnErr, IfOk};
ghost use Rattle.wild_words.specs.Words.{place};
ghost use Rattle.wild_words.specs.Record.{spell};
ghost use Rattle.wild_records.specs.Relocations.{rela_size, rela_fields};
ghost use Rattle.wild_table_formats.specs.RelativeEntries.{rela_bytes, entries_in, IsSpelled};

use std::alloc::{AllocError, Global};
use std::marker::Model;
use wild_records::{Rela, rela_is_read};
use wild_relr::Full;
use wild_words::put;

/// RELA entries in a group's share of a part, written from its start.
#[derive(Drop)]
pub struct RelaTable {
    part: Vec<u8>,
    count: usize,
}

impl Model for RelaTable {
    ghost use Rattle.wild_table_formats.specs.RelativeEntries.{Entries, entries_of_table, IsTable};

    ghost Value = { Entries };

    ghost view = { λ t. entries_of_table t.part.items t.count };

    ghost invariant = { λ t. IsTable t.part.items t.count };
}

impl RelaTable {
    /// An empty table for a share of `room` bytes. Fails only if out of memory.
    #[tactic(auto, unfolding(wild_table_formats::specs::RelativeEntries::entries_in, wild_table_formats::specs::RelativeEntries::IsSpelled))]
    pub fn new(alloc: Global, room: usize) -> Result<Self, AllocError>
        ensures { IfOk result (λ t. (t.entries ≡ []) × (t.room ≡ room)) }
    {
        Ok(RelaTable {
            part: vec![in alloc; 0; room]?,
            count: 0,
        })
    }

    /// Appends an entry. Fails exactly if it does not fit; then nothing changes.
    #[tactic(auto, using(wild_table_formats::proofs::EntryLemmas::length_entries_in))]
    pub fn write(&mut self, entry: Rela) -> Result<(), Full>
        ensures ok { OnOk result (self.new.entries ≡ self.old.entries ++ entry ∷ []) }
        ensures fits { OnOk result (rela_size * (length self.old.entries + 1) ≤ self.old.room) }
        ensures full { OnErr result (self.old.room < rela_size * (length self.old.entries + 1)) }
        ensures kept { OnErr result (self.new ≡ self.old) }
        ensures room { self.new.room ≡ self.old.room }
    {
        if self.part.len() - Rela::SIZE * self.count < Rela::SIZE {
            return Err(Full);
        }
        self.push(entry);
        Ok(())
    }

    /// Appends an entry that fits.
    #[tactic(auto, using(wild_table_formats::proofs::EntryLemmas::length_entries_in))]
    pub fn push(&mut self, entry: Rela)
        requires { rela_size * (length self.old.entries + 1) ≤ self.old.room }
        ensures entries { self.new.entries ≡ self.old.entries ++ entry ∷ [] }
        ensures room { self.new.room ≡ self.old.room }
    {
        prove!(Rela::SIZE * self.count + Rela::SIZE <= self.part.len());
        add_entry(self.part.as_mut_slice(), self.count, entry);
        self.count += 1;
    }

    /// The size of the share in bytes.
    pub fn room(&self) -> usize
        ensures room { result ≡ self.now.room }
        ensures small { result < 2 ^ 63 }
    {
        self.part.as_slice().len()
    }

    /// The number of bytes of all entries.
    #[tactic(auto, using(wild_table_formats::proofs::EntryLemmas::length_entries_in))]
    pub fn used(&self) -> usize
        ensures used { result ≡ rela_size * length self.now.entries }
        ensures fits { result ≤ self.now.room }
    {
        Rela::SIZE * self.count
    }

    /// The bytes of the share: those of the entries, then the unwritten rest.
    #[tactic(auto, using(wild_table_formats::proofs::EntryLemmas::entries_stand))]
    pub fn bytes(&self) -> &[u8]
        ensures written { take (rela_size * length self.now.entries) result.now ≡ rela_bytes self.now.entries }
        ensures room { length result.now ≡ self.now.room }
    {
        self.part.as_slice()
    }
}

/// Writes an entry at an offset.
fn put_entry(out: &mut [u8], at: usize, entry: Rela)
    requires { at + rela_size ≤ length out.old }
    ensures { out.new ≡ place at (spell (rela_fields entry)) out.old }
{
    let mut bytes = [0; Rela::SIZE];
    entry.put(&mut bytes);
    put(out, at, &bytes);
}

/// Writes an entry after the first `count` entries.
#[tactic(auto, using(wild_table_formats::proofs::EntryLemmas::entries_in_more, wild_table_formats::proofs::EntryLemmas::spelled_more))]
fn add_entry(out: &mut [u8], count: usize, entry: Rela)
    requires { rela_size * count + rela_size ≤ length out.old }
    ensures entries { entries_in out.new (count + 1) ≡ entries_in out.old count ++ entry ∷ [] }
    ensures spelled { IsSpelled out.old count → IsSpelled out.new (count + 1) }
{
    rela_is_read();
    entry.fits();
    put_entry(out, Rela::SIZE * count, entry);
}
