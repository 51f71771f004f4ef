//! A group's share of the PLT.
ghost use Rattle.std.specs.Prelude.{◌≡◌, ◌+◌, ◌^◌, ◌<◌, ◌≤◌, [], ◌++◌, length, take, IfOk};

use std::alloc::{AllocError, Global};
use std::marker::Model;
use wild_words::put;

/// Stubs in a group's share of a part, written consecutively from its start.
#[derive(Drop)]
pub struct StubTable {
    part: Vec<u8>,
    used: usize,
}

impl Model for StubTable {
    ghost use Rattle.std.specs.Prelude.{◌≤◌, length};
    ghost use Rattle.wild_table_formats.specs.GotWords.{Stubs, stubs_of_part};

    ghost Value = { Stubs };

    ghost view = { λ t. stubs_of_part t.part.items t.used };

    ghost invariant = { λ t. t.used ≤ length t.part.items };
}

impl StubTable {
    /// An empty table for a share of `room` bytes. Fails only if out of memory.
    pub fn new(alloc: Global, room: usize) -> Result<Self, AllocError>
        ensures { IfOk result (λ t. (t.bytes ≡ []) × (t.room ≡ room)) }
    {
        Ok(StubTable {
            part: vec![in alloc; 0; room]?,
            used: 0,
        })
    }

    /// Appends the bytes of a stub.
    pub fn push(&mut self, stub: &[u8])
        requires { length self.old.bytes + length stub.now ≤ self.old.room }
        ensures bytes { self.new.bytes ≡ self.old.bytes ++ stub.now }
        ensures room { self.new.room ≡ self.old.room }
    {
        prove!(self.used + stub.len() <= self.part.len());
        add_stub(self.part.as_mut_slice(), self.used, stub);
        self.used += stub.len();
    }

    /// The size of the share in bytes.
    pub fn room(&self) -> usize
        ensures room { result ≡ self.now.room }
        ensures small { result < 2 ^ 63 }
    {
        self.part.as_slice().len()
    }

    /// The number of bytes of all stubs.
    pub fn used(&self) -> usize
        ensures used { result ≡ length self.now.bytes }
        ensures fits { result ≤ self.now.room }
    {
        self.used
    }

    /// The bytes of the share: those of the stubs, then the unwritten rest.
    pub fn bytes(&self) -> &[u8]
        ensures written { take (length self.now.bytes) result.now ≡ self.now.bytes }
        ensures room { length result.now ≡ self.now.room }
    {
        self.part.as_slice()
    }
}

/// Writes a stub after the first `used` bytes.
#[tactic(auto, using(crate::proofs::WordTableLemmas::stub_put))]
fn add_stub(out: &mut [u8], used: usize, stub: &[u8])
    requires { used + length stub.now ≤ length out.old }
    ensures { take (used + length stub.now) out.new ≡ take used out.old ++ stub.now }
{
    put(out, used, stub);
}
