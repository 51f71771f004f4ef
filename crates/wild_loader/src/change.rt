//! The changes that a relocation entry makes in memory.
ghost use Rattle.std.specs.Prelude.{◌≡◌, Ok, IfOk, length};
ghost use Rattle.wild_words.specs.Words.{word, number};
ghost use Rattle.wild_loader.specs.Outcome.{Gives};
ghost use Rattle.wild_loader.specs.Runs.{read_bytes};
ghost use Rattle.wild_loader.specs.Changes.{change_of, size_of, bytes_after, offset_noted, patch_at};
ghost use Rattle.wild_loader.specs.Relocate.{rela_patch, place_patch};

use crate::answers::{answer, module_offset, plus_addend, resolved, thread_number};
use crate::fault::LoadFault;
use crate::index::IndexedMemory;
use crate::kind::{DynamicKind, dynamic_kind};
use crate::memory::Run;
use crate::world::World;
use std::alloc::Global;
use wild_records::Rela;
use wild_words::{Bytes, read_u64};

/// A change that an entry makes at its place.
#[derive(Drop)]
pub enum Change {
    /// Eight bytes are set to this word.
    Word(u64),
    /// Four bytes are set to this number.
    Half(u32),
    /// The bytes are set to these.
    Fill(Bytes),
    /// This number is added to the eight-byte word.
    Add(u64),
    /// The sixteen bytes are a descriptor of this offset from the thread pointer; they keep their values.
    Descriptor(u64),
}

/// A change at its place in memory.
#[derive(Drop)]
pub struct Patch {
    /// The bytes after the change.
    pub run: Run,
    /// The thread offset that the change notes.
    pub offset: Option<u64>,
}

/// A copy of bytes.
fn copy_bytes(alloc: Global, bytes: &[u8]) -> Result<Bytes, LoadFault>
    ensures { Gives result (Ok bytes.now) }
{
    let mut copy = Vec::new(alloc);
    copy.extend_from_slice(bytes)?;
    Ok(Bytes::from_vec(copy))
}

/// The 8 bytes of a number.
#[tactic(auto, using(wild_words::proofs::WordLemmas::word_8))]
fn word_bytes(alloc: Global, number: u64) -> Result<Bytes, LoadFault>
    ensures { Gives result (Ok (word 8 number)) }
{
    copy_bytes(alloc, &number.to_le_bytes())
}

/// The 4 bytes of a number.
#[tactic(auto, using(wild_words::proofs::WordLemmas::word_4))]
fn half_bytes(alloc: Global, number: u32) -> Result<Bytes, LoadFault>
    ensures { Gives result (Ok (word 4 number)) }
{
    copy_bytes(alloc, &number.to_le_bytes())
}

/// The change of an entry of a kind.
#[tactic(auto, unfolding(crate::specs::Changes::change_of))]
fn entry_change(
    alloc: Global,
    world: &World,
    kind: DynamicKind,
    entry: &Rela,
) -> Result<Change, LoadFault>
    ensures { Gives result (change_of world.now kind entry.now) }
{
    match kind {
        DynamicKind::Relative => Ok(Change::Word(plus_addend(world.base, entry))),
        DynamicKind::Symbol => Ok(Change::Word(answer(world, entry.symbol)?.address)),
        DynamicKind::SymbolPlus => {
            let answer = answer(world, entry.symbol)?;
            Ok(Change::Word(plus_addend(answer.address, entry)))
        }
        DynamicKind::Resolved => {
            let value = resolved(world, plus_addend(world.base, entry))?;
            Ok(Change::Word(value))
        }
        DynamicKind::Module => {
            let (module, _) = module_offset(world, entry.symbol)?;
            Ok(Change::Word(module))
        }
        DynamicKind::ModuleOffset => {
            let answer = answer(world, entry.symbol)?;
            Ok(Change::Word(plus_addend(answer.offset, entry)))
        }
        DynamicKind::ThreadOffset => Ok(Change::Word(thread_number(world, entry)?)),
        DynamicKind::Descriptor => Ok(Change::Descriptor(thread_number(world, entry)?)),
        DynamicKind::Copy => {
            let answer = answer(world, entry.symbol)?;
            Ok(Change::Fill(copy_bytes(alloc, answer.bytes.as_slice())?))
        }
        DynamicKind::Size32 => {
            let answer = answer(world, entry.symbol)?;
            let size = plus_addend(answer.size, entry) % (1 << 32);
            Ok(Change::Half(size as u32))
        }
        DynamicKind::Size64 => {
            let answer = answer(world, entry.symbol)?;
            Ok(Change::Word(plus_addend(answer.size, entry)))
        }
    }
}

/// The bytes from an address on, or the first address that is not loaded.
fn read_loaded(
    alloc: Global,
    memory: &IndexedMemory,
    address: u64,
    count: usize,
) -> Result<Bytes, LoadFault>
    ensures gives { Gives result (read_bytes memory.now address count) }
    ensures count { IfOk result (λ bytes. length bytes ≡ count) }
{
    let mut bytes = Vec::new(alloc);
    for i in 0..count {
        let Some(byte) = memory.byte(address as u128 + i as u128) else {
            return Err(LoadFault::Unloaded {
                address: address.wrapping_add(i as u64),
            });
        };
        bytes.push(byte)?;
    }
    Ok(Bytes::from_vec(bytes))
}

/// The number of bytes of memory that a change covers.
fn size(change: &Change) -> usize
    ensures { result ≡ size_of change.now }
{
    match change {
        Change::Word(_) => 8,
        Change::Half(_) => 4,
        Change::Fill(bytes) => bytes.len(),
        Change::Add(_) => 8,
        Change::Descriptor(_) => 16,
    }
}

/// The word in 8 bytes.
#[tactic(auto, using(crate::proofs::ByteLoop::whole_word))]
fn word_of(bytes: &Bytes) -> u64
    requires { length bytes.now ≡ 8 }
    ensures { result ≡ number bytes.now }
{
    read_u64(bytes.as_slice(), 0)
}

/// The bytes after a change, given those before.
fn apply_change(alloc: Global, change: Change, old: Bytes) -> Result<Bytes, LoadFault>
    requires { length old ≡ size_of change }
    ensures { Gives result (Ok (bytes_after change old)) }
{
    match change {
        Change::Word(number) => word_bytes(alloc, number),
        Change::Half(number) => half_bytes(alloc, number),
        Change::Fill(bytes) => Ok(bytes),
        Change::Add(number) => word_bytes(alloc, word_of(&old).wrapping_add(number)),
        Change::Descriptor(_) => Ok(old),
    }
}

/// The thread offset that a change notes.
fn noted_offset(change: &Change) -> Option<u64>
    ensures { result ≡ offset_noted change.now }
{
    match change {
        Change::Descriptor(offset) => Some(*offset),
        _ => None,
    }
}

/// A change at an address, over the loaded bytes there.
#[tactic(auto, unfolding(crate::specs::Changes::patch_at))]
fn make_patch(
    alloc: Global,
    before: &IndexedMemory,
    place: u64,
    change: Change,
) -> Result<Patch, LoadFault>
    ensures { Gives result (patch_at before.now place change) }
{
    let old = read_loaded(alloc, before, place, size(&change))?;
    let offset = noted_offset(&change);
    let bytes = apply_change(alloc, change, old)?;
    Ok(Patch {
        run: Run {
            start: place,
            bytes,
        },
        offset,
    })
}

/// The change of an entry with an addend.
#[tactic(auto, unfolding(crate::specs::Relocate::rela_patch))]
pub(crate) fn entry_patch(
    alloc: Global,
    world: &World,
    before: &IndexedMemory,
    entry: &Rela,
) -> Result<Patch, LoadFault>
    ensures { Gives result (rela_patch world.now before.now entry.now) }
{
    let Some(kind) = dynamic_kind(before.machine(), entry.number) else {
        return Err(LoadFault::UnknownDynamic {
            number: entry.number,
        });
    };
    let change = entry_change(alloc, world, kind, entry)?;
    make_patch(alloc, before, world.base.wrapping_add(entry.offset), change)
}

/// The change at a place of the packed relative relocations.
#[tactic(auto, unfolding(crate::specs::Relocate::place_patch))]
pub(crate) fn packed_patch(
    alloc: Global,
    world: &World,
    before: &IndexedMemory,
    place: u64,
) -> Result<Patch, LoadFault>
    ensures { Gives result (place_patch world.now before.now place) }
{
    make_patch(
        alloc,
        before,
        world.base.wrapping_add(place),
        Change::Add(world.base),
    )
}
