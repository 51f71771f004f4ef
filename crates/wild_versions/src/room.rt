//! A buffer of fixed size that is filled from its front.
ghost use Rattle.std.specs.Prelude.{◌≡◌, ◌+◌, ◌++◌, ◌^◌, ◌<◌, ◌≤◌, length, take, [], IfOk, OnOk};
ghost use Rattle.wild_table_formats.specs.VersionRoom.{with_bytes, IsFull};

use std::alloc::{AllocError, Global};
use std::marker::Model;
use wild_words::put;

/// A buffer that is filled from its front: the first `used` bytes are written.
#[derive(Drop)]
pub struct FilledRoom {
    room: Vec<u8>,
    used: usize,
}

impl Model for FilledRoom {
    ghost use Rattle.wild_table_formats.specs.VersionRoom.{BufferContent, buffer_content, FitsBuffer};

    ghost Value = { BufferContent };

    ghost view = { λ t. buffer_content t.room.items t.used };

    ghost invariant = { λ t. FitsBuffer t.room.items t.used };
}

/// Writes bytes at an offset, after those already written.
#[tactic(auto, using(wild_table_formats::proofs::VersionChains::front_of))]
fn append_at(out: &mut [u8], at: usize, bytes: &[u8])
    requires { at + length bytes.now ≤ length out.old }
    ensures { take (at + length bytes.now) out.new ≡ take at out.old ++ bytes.now }
{
    put(out, at, bytes);
}

impl FilledRoom {
    /// An empty buffer with `room` bytes of space. Fails only if out of memory.
    pub(crate) fn new(alloc: Global, room: usize) -> Result<Self, AllocError>
        ensures { IfOk result (λ t. t ≡ record { bytes = []; room = room }) }
    {
        Ok(FilledRoom {
            room: vec![in alloc; 0; room]?,
            used: 0,
        })
    }

    /// Extends the buffer by `size` bytes of space. Fails only if out of memory.
    pub(crate) fn make_room(&mut self, size: usize) -> Result<(), AllocError>
        requires { size < 2 ^ 32 }
        ensures { OnOk result (self.new ≡ record self.old { room = self.old.room + size }) }
    {
        let room = self.room.len() + size;
        self.room.resize(room, 0)
    }

    /// Appends bytes.
    pub(crate) fn push(&mut self, bytes: &[u8])
        requires { length self.old.bytes + length bytes.now ≤ self.old.room }
        ensures added { self.new ≡ with_bytes bytes.now self.old }
        ensures used { length self.new.bytes ≡ length self.old.bytes + length bytes.now }
    {
        append_at(self.room.as_mut_slice(), self.used, bytes);
        self.used += bytes.len();
    }

    /// The size of the buffer, written and unwritten bytes together.
    pub(crate) fn room(&self) -> usize
        ensures { result ≡ self.now.room }
    {
        self.room.len()
    }

    /// The number of written bytes.
    pub(crate) fn used(&self) -> usize
        ensures is { result ≡ length self.now.bytes }
        ensures few { result < 2 ^ 63 }
    {
        self.used
    }

    /// The whole buffer: the written bytes, then the unwritten ones.
    pub(crate) fn bytes(&self) -> &[u8]
        ensures written { take (length self.now.bytes) result.now ≡ self.now.bytes }
        ensures room { length result.now ≡ self.now.room }
    {
        self.room.as_slice()
    }

    /// The bytes of a buffer that is full.
    pub(crate) fn into_bytes(self) -> Vec<u8>
        requires { IsFull self }
        ensures { result.items ≡ self.bytes }
    {
        self.room
    }
}
