//! A group's extended section indexes (gABI, `SHT_SYMTAB_SHNDX`).
ghost use Rattle.std.specs.Prelude.{◌≡◌, ◌+◌, ◌≤◌, [], length, take, IfOk};
ghost use Rattle.wild_symbols.specs.Indexes.{has_index, index_room, with_index, room_for_index, indexes_full_or_fault, indexes_room, room_for_indexes, kept_indexes, front_indexes, indexes_joined};

use std::alloc::{AllocError, Global};
use std::marker::Model;
use wild_types::{Error, excessive, insufficient};
use wild_words::put_u32;

/// The size of an extended section index in bytes.
const INDEX_SIZE: usize = 4;

/// Extended section indexes in a group's share of a part, written from its start. If `each` is set, every symbol has one,
/// which is 0 if `st_shndx` has its section. Otherwise only a symbol whose section does not fit in `st_shndx` has one.
#[derive(Drop)]
pub struct IndexTable {
    part: usize,
    group: usize,
    share: Vec<u8>,
    used: usize,
    reserved: usize,
    each: bool,
}

impl Model for IndexTable {
    ghost use Rattle.wild_symbols.specs.Indexes.{Indexes, indexes_in, IsIndexes};

    ghost Value = { Indexes };

    ghost view = { λ t. indexes_in t.part t.group t.share.items t.used t.reserved t.each };

    ghost invariant = { λ t. IsIndexes t.share.items t.used t.reserved };
}

impl IndexTable {
    /// An empty table for a share of `room` bytes. `part` is the index of its part in the layout.
    pub(crate) fn new(
        alloc: Global,
        part: usize,
        group: usize,
        room: usize,
        each: bool,
    ) -> Result<Self, AllocError>
        ensures { IfOk result (λ t. t ≡ record { part = part; group = group; bytes = []; room = room; reserved = 0; each = each }) }
    {
        Ok(IndexTable {
            part,
            group,
            share: vec![in alloc; 0; room]?,
            used: 0,
            reserved: 0,
            each,
        })
    }

    /// Whether a symbol has an extended section index.
    fn has(&self, index: u32) -> bool
        ensures { result ≡ has_index self.now.each index }
    {
        self.each || index != 0
    }

    /// The number of bytes of all indexes.
    fn used(&self) -> usize
        ensures used { result ≡ length self.now.bytes }
        ensures fits { result ≤ self.now.room }
    {
        self.used
    }

    /// The number of bytes of the share that may be used now.
    fn room(&self) -> usize
        ensures { result ≡ self.now.room }
    {
        self.share.len() - self.reserved
    }

    /// The number of bytes of all indexes with that of one more symbol.
    fn with_one(&self, index: u32) -> usize
        ensures { result ≡ length self.now.bytes + index_room self.now.each index }
    {
        if self.has(index) {
            self.used + INDEX_SIZE
        } else {
            self.used
        }
    }

    /// Checks that the index of one more symbol fits.
    ///
    /// # Errors
    ///
    /// `InsufficientAllocation` exactly if it does not fit.
    pub(crate) fn check_room(&self, index: u32) -> Result<(), Error>
        ensures { result ≡ room_for_index index self.now }
    {
        let room = self.room();
        let needed = self.with_one(index);
        if room < needed {
            return Err(insufficient(self.part, self.group, room as u64, needed as u64));
        }
        Ok(())
    }

    /// Appends the index of a symbol, if the symbol has one.
    pub(crate) fn push(&mut self, index: u32)
        requires { length self.old.bytes + index_room self.old.each index ≤ self.old.room }
        ensures { self.new ≡ with_index index self.old }
    {
        if self.has(index) {
            put_u32(self.share.as_mut_slice(), self.used, index);
            self.used += INDEX_SIZE;
        }
    }

    /// Checks that the share is full.
    ///
    /// # Errors
    ///
    /// `ExcessiveAllocation` exactly if unwritten bytes are left.
    pub fn check_exhausted(&self) -> Result<(), Error>
        ensures { result ≡ indexes_full_or_fault self.now }
    {
        let room = self.room();
        if self.used < room {
            return Err(excessive(self.part, self.group, room as u64, self.used as u64));
        }
        Ok(())
    }

    /// The number of bytes for the indexes of `count` symbols whose sections fit in `st_shndx`.
    fn room_of(&self, count: u32) -> usize
        ensures room { result ≡ indexes_room count self.now }
        ensures none { count ≡ 0 → result ≡ 0 }
    {
        if self.each {
            INDEX_SIZE * count as usize
        } else {
            0
        }
    }

    /// Checks that the indexes of `count` more symbols fit.
    ///
    /// # Errors
    ///
    /// `InsufficientAllocation` exactly if they do not fit.
    pub(crate) fn check_indexes(&self, count: u32) -> Result<(), Error>
        ensures { result ≡ room_for_indexes count self.now }
    {
        let room = self.room();
        let needed = self.used + self.room_of(count);
        if room < needed {
            return Err(insufficient(self.part, self.group, room as u64, needed as u64));
        }
        Ok(())
    }

    /// Reserves all of the share after the indexes of the next `count` symbols, and returns the number of bytes reserved.
    pub(crate) fn take_front(&mut self, count: u32) -> usize
        requires { length self.old.bytes + indexes_room count self.old ≤ self.old.room }
        ensures front { self.new ≡ front_indexes count self.old }
        ensures kept { result ≡ kept_indexes count self.old }
    {
        let kept = self.share.len() - self.reserved - (self.used + self.room_of(count));
        self.reserved += kept;
        kept
    }

    /// Reserves all unwritten bytes of the share, and returns their number.
    pub(crate) fn close(&mut self) -> usize
        ensures front { self.new ≡ front_indexes 0 self.old }
        ensures kept { result ≡ kept_indexes 0 self.old }
    {
        let _used = self.used();
        let _none = self.room_of(0);
        self.take_front(0)
    }

    /// Makes `kept` of the reserved bytes usable again.
    pub(crate) fn join(&mut self, kept: usize)
        ensures { self.new ≡ indexes_joined kept self.old }
    {
        self.reserved -= kept.min(self.reserved);
    }

    /// The bytes of the share: those of the indexes, then the unwritten rest.
    pub fn bytes(&self) -> &[u8]
        ensures written { take (length self.now.bytes) result.now ≡ self.now.bytes }
        ensures room { length result.now ≡ self.now.room + self.now.reserved }
    {
        self.share.as_slice()
    }
}
