//! A group's share of a symbol table (gABI, "Symbol Table").
ghost use Rattle.std.specs.Prelude.{◌≡◌, ℕ, ◌+◌, ◌*◌, ◌<◌, ◌≤◌, [], ◌∷◌, ◌++◌, length, take, IfOk, slice_index_or};
ghost use Rattle.wild_words.specs.Words.{place};
ghost use Rattle.wild_words.specs.Record.{spell};
ghost use Rattle.wild_records.specs.SymtabEntry.{symtab_entry_size, symtab_entry_fields, symtab_entry_at};
ghost use Rattle.wild_records.specs.declared.symtab_entry.SymtabEntry.{SymtabEntry as Entry};
ghost use Rattle.wild_table_formats.specs.Symbols.{symbol_bytes, symbols_in, IsSpelled, symbols_used, with_entry, room_for_entry, symbols_full_or_fault, room_for_entries, kept_symbols, front_symbols, symbols_joined};

use std::alloc::{AllocError, Global};
use std::marker::Model;
use wild_records::{SymtabEntry, symtab_entry_is_read};
use wild_types::{Error, excessive, insufficient};
use wild_words::put;

/// Symbols in a group's share of a part, written from its start.
#[derive(Drop)]
pub struct SymbolTable {
    part: usize,
    group: usize,
    share: Vec<u8>,
    count: usize,
    reserved: usize,
}

impl Model for SymbolTable {
    ghost use Rattle.wild_table_formats.specs.Symbols.{Symbols, symbols_of, IsSymbols};

    ghost Value = { Symbols };

    ghost view = { λ t. symbols_of t.part t.group t.share.items t.count t.reserved };

    ghost invariant = { λ t. IsSymbols t.share.items t.count t.reserved };
}

impl SymbolTable {
    /// An empty table for a share of `room` bytes. `part` is the index of its part in the layout.
    #[tactic(auto, unfolding(wild_table_formats::specs::Symbols::symbols_in, wild_table_formats::specs::Symbols::IsSpelled))]
    pub(crate) fn new(
        alloc: Global,
        part: usize,
        group: usize,
        room: usize,
    ) -> Result<Self, AllocError>
        ensures { IfOk result (λ t. t ≡ record { part = part; group = group; symbols = []; room = room; reserved = 0 }) }
    {
        Ok(SymbolTable {
            part,
            group,
            share: vec![in alloc; 0; room]?,
            count: 0,
            reserved: 0,
        })
    }

    /// The number of bytes of all symbols.
    #[tactic(auto, using(wild_table_formats::proofs::SymbolLemmas::length_symbols_in))]
    fn used(&self) -> usize
        ensures used { result ≡ symbols_used self.now }
        ensures fits { result ≤ self.now.room }
    {
        SymtabEntry::SIZE * self.count
    }

    /// The number of bytes of the share that may be used now.
    fn room(&self) -> usize
        ensures { result ≡ self.now.room }
    {
        self.share.len() - self.reserved
    }

    /// Checks that one more symbol fits.
    ///
    /// # Errors
    ///
    /// `InsufficientAllocation` exactly if it does not fit.
    pub(crate) fn check_room(&self) -> Result<(), Error>
        ensures { result ≡ room_for_entry self.now }
    {
        let given = self.room();
        let used = self.used();
        if given - used < SymtabEntry::SIZE {
            return Err(insufficient(
                self.part,
                self.group,
                given as u64,
                (used + SymtabEntry::SIZE) as u64,
            ));
        }
        Ok(())
    }

    /// Appends a symbol that fits.
    #[tactic(auto, using(wild_table_formats::proofs::SymbolLemmas::length_symbols_in))]
    pub(crate) fn push(&mut self, entry: SymtabEntry)
        requires { symbols_used self.old + symtab_entry_size ≤ self.old.room }
        ensures { self.new ≡ with_entry entry self.old }
    {
        let left = self.share.len() - self.reserved - SymtabEntry::SIZE * self.count;
        prove!(SymtabEntry::SIZE <= left);
        add_entry(self.share.as_mut_slice(), self.count, entry);
        self.count += 1;
    }

    /// Checks that the share is full.
    ///
    /// # Errors
    ///
    /// `ExcessiveAllocation` exactly if unwritten bytes are left.
    pub fn check_exhausted(&self) -> Result<(), Error>
        ensures { result ≡ symbols_full_or_fault self.now }
    {
        let given = self.room();
        let used = self.used();
        if used < given {
            return Err(excessive(self.part, self.group, given as u64, used as u64));
        }
        Ok(())
    }

    /// Checks that `count` more symbols fit.
    ///
    /// # Errors
    ///
    /// `InsufficientAllocation` exactly if they do not fit.
    pub(crate) fn check_entries(&self, count: u32) -> Result<(), Error>
        ensures { result ≡ room_for_entries count self.now }
    {
        let given = self.share.len() - self.reserved;
        let needed = self.used() + SymtabEntry::SIZE * count as usize;
        if given < needed {
            return Err(insufficient(self.part, self.group, given as u64, needed as u64));
        }
        Ok(())
    }

    /// Reserves all of the share after the next `count` symbols, and returns the number of bytes reserved.
    #[tactic(auto, using(wild_table_formats::proofs::SymbolLemmas::length_symbols_in))]
    pub(crate) fn take_front(&mut self, count: u32) -> usize
        requires { symbols_used self.old + symtab_entry_size * count ≤ self.old.room }
        ensures front { self.new ≡ front_symbols count self.old }
        ensures kept { result ≡ kept_symbols count self.old }
    {
        let front = SymtabEntry::SIZE * self.count + SymtabEntry::SIZE * count as usize;
        let kept = self.share.len() - self.reserved - front;
        self.reserved += kept;
        kept
    }

    /// Reserves all unwritten bytes of the share, and returns their number.
    pub(crate) fn close(&mut self) -> usize
        ensures front { self.new ≡ front_symbols 0 self.old }
        ensures kept { result ≡ kept_symbols 0 self.old }
    {
        let _used = self.used();
        self.take_front(0)
    }

    /// Makes `kept` of the reserved bytes usable again.
    pub(crate) fn join(&mut self, kept: usize)
        ensures { self.new ≡ symbols_joined kept self.old }
    {
        self.reserved -= kept.min(self.reserved);
    }

    /// The bytes of the share: those of the symbols, then the unwritten rest. Symbol k is read at offset 24 k.
    #[tactic(auto, using(wild_table_formats::proofs::SymbolLemmas::symbols_stand, wild_table_formats::proofs::SymbolLemmas::symbol_in))]
    pub fn bytes(&self) -> &[u8]
        ensures written { take (symbols_used self.now) result.now ≡ symbol_bytes self.now.symbols }
        ensures read { (k : ℕ) (d : Entry) → k < length self.now.symbols → symtab_entry_at result.now (symtab_entry_size * k) ≡ slice_index_or self.now.symbols k d }
        ensures room { length result.now ≡ self.now.room + self.now.reserved }
    {
        self.share.as_slice()
    }
}

/// Writes a symbol at an offset.
fn put_entry(out: &mut [u8], at: usize, entry: SymtabEntry)
    requires { at + symtab_entry_size ≤ length out.old }
    ensures { out.new ≡ place at (spell (symtab_entry_fields entry)) out.old }
{
    let mut bytes = [0; SymtabEntry::SIZE];
    entry.put(&mut bytes);
    put(out, at, &bytes);
}

/// Writes a symbol after the first `count` symbols.
#[tactic(auto, using(wild_table_formats::proofs::SymbolLemmas::symbols_in_more, wild_table_formats::proofs::SymbolLemmas::spelled_more))]
fn add_entry(out: &mut [u8], count: usize, entry: SymtabEntry)
    requires { symtab_entry_size * count + symtab_entry_size ≤ length out.old }
    ensures symbols { symbols_in out.new (count + 1) ≡ symbols_in out.old count ++ entry ∷ [] }
    ensures spelled { IsSpelled out.old count → IsSpelled out.new (count + 1) }
{
    symtab_entry_is_read();
    entry.fits();
    put_entry(out, SymtabEntry::SIZE * count, entry);
}
