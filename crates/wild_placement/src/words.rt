//! Sections whose words are written in reverse order.
ghost use Rattle.std.specs.Prelude.{◌≡◌, IfOk, map};
ghost use Rattle.wild_placement.specs.ReversedWords.{word_size, reversed_word_bytes, reversed_offset, reversed_section};

use std::alloc::{AllocError, Global};
use wild_types::{InputRelocation, InputSection};
use wild_words::{Bytes, Items};

/// The size of a word in bytes.
const WORD_SIZE: u64 = 8;

/// The relocation at the new offset of its word, in a section of `size` bytes.
pub(crate) fn reversed_offset(size: u64, relocation: InputRelocation) -> InputRelocation
    ensures { result ≡ reversed_offset size relocation }
{
    InputRelocation {
        offset: size
            .saturating_sub(relocation.offset)
            .saturating_sub(WORD_SIZE),
        ..relocation
    }
}

/// The words of a section in reverse order.
#[tactic(auto, unfolding(crate::specs::ReversedWords::reversed_word_bytes))]
fn reversed_word_bytes(alloc: Global, bytes: &[u8]) -> Result<Vec<u8>, AllocError>
    ensures { IfOk result (λ v. v.items ≡ reversed_word_bytes bytes.now) }
{
    let size = WORD_SIZE as usize;
    let mut reversed_section = Vec::with_capacity(alloc, bytes.len())?;
    for i in 0..bytes.len() / size {
        let end = bytes.len() - size * i;
        reversed_section.extend_from_slice(&bytes[end - size..end])?;
    }
    Ok(reversed_section)
}

/// Relocations at the new offsets of their words.
fn reversed_relocations(
    alloc: Global,
    size: u64,
    relocations: &[InputRelocation],
) -> Result<Vec<InputRelocation>, AllocError>
    ensures { IfOk result (λ v. v.items ≡ map (reversed_offset size) relocations.now) }
{
    let mut reversed_section = relocations.to_vec(alloc)?;
    for i in 0..reversed_section.len() {
        reversed_section[i] = reversed_offset(size, reversed_section[i]);
    }
    Ok(reversed_section)
}

/// The section with its words in reverse order.
pub(crate) fn reversed_section(
    alloc: Global,
    section: &InputSection,
) -> Result<InputSection, AllocError>
    ensures { IfOk result (λ s. s ≡ reversed_section section.now) }
{
    let bytes = reversed_word_bytes(alloc, section.bytes.as_slice())?;
    let relocations = reversed_relocations(alloc, section.size, section.relocations.as_slice())?;
    Ok(InputSection {
        slot: section.slot,
        name: Bytes::new(alloc),
        part: section.part,
        address: section.address,
        size: section.size,
        flags: section.flags,
        nobits: section.nobits,
        reversed: false,
        singleton: None,
        target: 0,
        members: Items::new(alloc),
        bytes: Bytes::from_vec(bytes),
        strings: Items::new(alloc),
        relocations: Items::from_vec(relocations),
    })
}
