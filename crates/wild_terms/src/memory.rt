//! The memory of an image as terms.
ghost use Rattle.std.specs.Prelude.{◌≡◌, ◌+◌, ◌^◌, ◌<◌, ◌≤◌, option_map, is_some, IfSome};
ghost use Rattle.wild_terms.specs.Symbolic.{Ascend, covers, patch_covering, known_byte, known_number, whole_term, noted_term, term_at, descriptor_at};

use crate::load::{TermPatch, width};
use crate::outline::TermChange;
use crate::term::Term;
use std::marker::Model;
use wild_loader::{IndexedMemory, Machine};
use wild_words::Items;

/// The memory of an image as terms; contracts treat it as `Symbolic`.
#[derive(Drop)]
pub struct TermMemory {
    memory: IndexedMemory,
    /// The changes of entries, sorted by place.
    patches: Vec<TermPatch>,
}

impl Model for TermMemory {
    ghost use Rattle.wild_terms.specs.Symbolic.{Symbolic, Ascend};

    ghost Value = { Symbolic };

    ghost view = { λ m. record { memory = m.memory; patches = m.patches.items } };

    ghost invariant = { λ m. Ascend m.patches.items };
}

/// Whether a change covers an address.
fn is_covered(patch: &TermPatch, address: u128) -> bool
    ensures { result ≡ covers patch.now address }
{
    patch.place as u128 <= address && address < patch.place as u128 + width(patch.change) as u128
}

/// The change that covers an address.
fn find_patch(patches: &[TermPatch], address: u128) -> Option<TermPatch>
    requires { Ascend patches.now }
    ensures { result ≡ patch_covering patches.now address }
{
    let after = patches.partition_point(|p| p.place as u128 <= address);
    if after == 0 {
        return None;
    }
    let i = after - 1;
    let last = patches[i];
    if is_covered(&last, address) {
        Some(last)
    } else {
        None
    }
}

/// The term of which `count` bytes are the low bytes, where a change covers exactly these.
fn whole(change: TermChange, count: u8) -> Option<Term>
    ensures { result ≡ whole_term change count }
{
    match change {
        TermChange::Word(term) if count == 8 => Some(term),
        TermChange::Half(term) if count == 4 => Some(term),
        _ => None,
    }
}

/// The thread offset that a change notes.
fn noted(change: TermChange) -> Option<Term>
    ensures { result ≡ noted_term change }
{
    match change {
        TermChange::Descriptor(term) => Some(term),
        _ => None,
    }
}

impl TermMemory {
    ghost use Rattle.std.specs.Prelude.{◌≡◌, ◌+◌, ◌^◌, ◌<◌, ◌≤◌, IfSome};
    ghost use Rattle.std.specs.List.Sorted.{IsPermutation};
    ghost use Rattle.wild_words.specs.Extents.{least_extent};
    ghost use Rattle.wild_terms.specs.Symbolic.{Ascend, AreApart, known_byte, known_number, term_at, descriptor_at};

    /// The memory of an image before any entry is applied, with the changes of its entries.
    pub(crate) fn new(memory: IndexedMemory, patches: Items<TermPatch>) -> TermMemory
        requires { AreApart patches }
        ensures memory { result.memory ≡ memory }
        ensures patches { IsPermutation patches result.patches }
        ensures ascend { Ascend result.patches }
    {
        let mut patches = patches.into_vec();
        patches.sort_unstable_by_key(|p| p.place);
        TermMemory { memory, patches }
    }

    /// The machine of the image.
    pub fn machine(&self) -> Machine
        ensures { result ≡ self.now.memory.machine }
    {
        self.memory.machine()
    }

    /// The byte at an address, if it is the same in every world.
    pub fn byte(&self, address: u128) -> Option<u8>
        ensures { result ≡ known_byte self.now address }
    {
        if find_patch(self.patches.as_slice(), address).is_some() {
            return None;
        }
        self.memory.byte(address)
    }

    /// The number in `count` bytes, lowest byte first, if it is the same in every world.
    fn number(&self, address: u128, count: u8) -> Option<u64>
        requires count { count ≤ 8 }
        requires address { address + count < 2 ^ 65 }
        ensures number { result ≡ known_number self.now address count }
        ensures bound { IfSome result (λ n. n < 256 ^ count) }
    {
        if count == 0 {
            return Some(0);
        }
        let low = self.byte(address)?;
        let rest = self.number(address + 1, count - 1)?;
        Some(low as u64 + 256 * rest)
    }

    /// The `count` bytes at an address as a term, of whose value they are the low bytes in every world. None if no such term is known.
    #[tactic(auto, unfolding(crate::specs::Symbolic::term_at))]
    pub fn term(&self, address: u64, count: u8) -> Option<Term>
        requires { count ≤ 8 }
        ensures { result ≡ term_at self.now address count }
    {
        match find_patch(self.patches.as_slice(), address as u128) {
            Some(patch) if patch.place == address => whole(patch.change, count),
            Some(_) => None,
            None => Some(Term::number(self.number(address as u128, count)?)),
        }
    }

    /// The thread offset that is noted for the descriptor at an address.
    #[tactic(auto, unfolding(crate::specs::Symbolic::descriptor_at))]
    pub fn descriptor(&self, address: u64) -> Option<Term>
        ensures { result ≡ descriptor_at self.now address }
    {
        match find_patch(self.patches.as_slice(), address as u128) {
            Some(patch) if patch.place == address => noted(patch.change),
            _ => None,
        }
    }
}
