//! A group's share of a string table (gABI, "String Table").
ghost use Rattle.std.specs.Prelude.{◌≡◌, ◌+◌, ◌^◌, ◌<◌, ◌≤◌, [], ◌∷◌, ◌++◌, length, take, OnOk, OnErr, IfOk};
ghost use Rattle.wild_words.specs.Words.{place};
ghost use Rattle.wild_table_formats.specs.Strings.{string, with_string, room_for_string, strings_full_or_fault, room_for_bytes, kept_strings, front_strings, strings_joined};

use std::alloc::{AllocError, Global};
use std::marker::Model;
use wild_types::{Error, excessive, insufficient};
use wild_words::{put, put_u8};

/// Consecutive strings, each with a zero at its end, written from the start of a group's share. The share begins at offset
/// `start` of the output's string table, and ends below 2^32.
#[derive(Drop)]
pub struct StrTabWriter {
    part: usize,
    group: usize,
    start: u32,
    share: Vec<u8>,
    used: usize,
    reserved: usize,
}

impl Model for StrTabWriter {
    ghost use Rattle.wild_table_formats.specs.Strings.{Strings, strings_in, IsStrings};

    ghost Value = { Strings };

    ghost view = { λ t. strings_in t.part t.group t.start t.share.items t.used t.reserved };

    ghost invariant = { λ t. IsStrings t.start t.share.items t.used t.reserved };
}

/// Writes a string, given in two pieces, and its zero at an offset.
#[tactic(auto, using(wild_table_formats::proofs::StringLemmas::front_of_joined))]
fn put_string(out: &mut [u8], at: usize, front: &[u8], back: &[u8])
    requires { at + (length front.now + length back.now + 1) ≤ length out.old }
    ensures { take (at + (length front.now + length back.now + 1)) out.new ≡ take at out.old ++ string (front.now ++ back.now) }
{
    put(out, at, front);
    put(out, at + front.len(), back);
    put_u8(out, at + (front.len() + back.len()), 0);
}

impl StrTabWriter {
    /// An empty table for a share of `room` bytes. `part` is the index of its part in the layout.
    pub(crate) fn new(
        alloc: Global,
        part: usize,
        group: usize,
        start: u32,
        room: usize,
    ) -> Result<Self, AllocError>
        requires { start + room < 2 ^ 32 }
        ensures { IfOk result (λ t. t ≡ record { part = part; group = group; start = start; bytes = []; room = room; reserved = 0 }) }
    {
        Ok(StrTabWriter {
            part,
            group,
            start,
            share: vec![in alloc; 0; room]?,
            used: 0,
            reserved: 0,
        })
    }

    /// Appends a string and a zero, and returns the string's offset in the output's string table.
    ///
    /// # Errors
    ///
    /// `InsufficientAllocation` exactly if the two do not fit in the rest of the share; then nothing changes.
    #[tactic(auto, using(wild_table_formats::proofs::StringLemmas::joined_with_none))]
    pub fn write_str(&mut self, bytes: &[u8]) -> Result<u32, Error>
        ensures answered { result ≡ room_for_string bytes.now self.old }
        ensures written { OnOk result (self.new ≡ with_string bytes.now self.old) }
        ensures kept { OnErr result (self.new ≡ self.old) }
    {
        self.write_joined(bytes, b"")
    }

    /// The same for a string with a short suffix.
    pub(crate) fn write_joined(&mut self, front: &[u8], back: &[u8]) -> Result<u32, Error>
        requires { length back.now ≤ 4 }
        ensures answered { result ≡ room_for_string (front.now ++ back.now) self.old }
        ensures written { OnOk result (self.new ≡ with_string (front.now ++ back.now) self.old) }
        ensures kept { OnErr result (self.new ≡ self.old) }
    {
        let room = self.room();
        let needed = self.used + (front.len() + back.len() + 1);
        if room < needed {
            return Err(insufficient(self.part, self.group, room as u64, needed as u64));
        }
        put_string(self.share.as_mut_slice(), self.used, front, back);
        let offset = self.start + self.used as u32;
        self.used = needed;
        Ok(offset)
    }

    /// Checks that the share is full.
    ///
    /// # Errors
    ///
    /// `ExcessiveAllocation` exactly if unwritten bytes are left.
    pub fn check_exhausted(&self) -> Result<(), Error>
        ensures { result ≡ strings_full_or_fault self.now }
    {
        let room = self.room();
        if self.used < room {
            return Err(excessive(self.part, self.group, room as u64, self.used as u64));
        }
        Ok(())
    }

    /// The number of bytes of the share that may be used now.
    fn room(&self) -> usize
        ensures { result ≡ self.now.room }
    {
        self.share.len() - self.reserved
    }

    /// Checks that `bytes` more bytes fit.
    ///
    /// # Errors
    ///
    /// `InsufficientAllocation` exactly if they do not fit.
    pub(crate) fn check_bytes(&self, bytes: u32) -> Result<(), Error>
        ensures { result ≡ room_for_bytes bytes self.now }
    {
        let room = self.room();
        let needed = self.used + bytes as usize;
        if room < needed {
            return Err(insufficient(self.part, self.group, room as u64, needed as u64));
        }
        Ok(())
    }

    /// Reserves all of the share after the next `bytes` bytes, and returns the number of bytes reserved.
    pub(crate) fn take_front(&mut self, bytes: u32) -> usize
        requires { length self.old.bytes + bytes ≤ self.old.room }
        ensures front { self.new ≡ front_strings bytes self.old }
        ensures kept { result ≡ kept_strings bytes self.old }
    {
        let kept = self.share.len() - self.reserved - (self.used + bytes as usize);
        self.reserved += kept;
        kept
    }

    /// Makes `kept` of the reserved bytes usable again.
    pub(crate) fn join(&mut self, kept: usize)
        ensures { self.new ≡ strings_joined kept self.old }
    {
        self.reserved -= kept.min(self.reserved);
    }

    /// The bytes of the share: those of the strings, then the unwritten rest.
    pub fn bytes(&self) -> &[u8]
        ensures written { take (length self.now.bytes) result.now ≡ self.now.bytes }
        ensures room { length result.now ≡ self.now.room + self.now.reserved }
    {
        self.share.as_slice()
    }
}
