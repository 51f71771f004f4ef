//! Bytes that memory has in every world.
ghost use Rattle.std.specs.Prelude.{◌≡◌, ◌+◌, ◌^◌, ◌<◌, length};
ghost use Rattle.wild_checker.specs.Bytes.{is_byte, first_changed, has_bytes, field_end, are_in_order, changed_between};

use wild_terms::TermMemory;
use wild_types::{InputRelocation, InputSection, Machine, field_bytes};

/// Whether memory has a byte at an address in every world.
fn is_byte(memory: &TermMemory, address: u128, byte: u8) -> bool
    ensures { result ≡ is_byte memory.now address byte }
{
    match memory.byte(address) {
        Some(known) => known == byte,
        None => false,
    }
}

/// The first of bytes from an address on that memory does not have in every world; offsets count from `start`.
fn first_changed(memory: &TermMemory, address: u64, start: usize, bytes: &[u8]) -> Option<usize>
    requires { start + length bytes.now < 2 ^ 64 }
    ensures { result ≡ first_changed memory.now address start bytes.now }
{
    for (k, byte) in bytes.iter().enumerate() {
        if !is_byte(memory, address as u128 + (start + k) as u128, *byte) {
            return Some(start + k);
        }
    }
    None
}

/// Whether memory has these bytes in every world.
pub(crate) fn has_bytes(memory: &TermMemory, address: u64, bytes: &[u8]) -> bool
    ensures { result ≡ has_bytes memory.now address bytes.now }
{
    first_changed(memory, address, 0, bytes).is_none()
}

/// The end of a relocation's field.
fn field_end(machine: Machine, relocation: &InputRelocation) -> u128
    ensures end { result ≡ field_end machine relocation.now }
    ensures fits { result < 2 ^ 65 }
{
    relocation.offset as u128 + field_bytes(machine, relocation.number) as u128
}

/// Whether each field starts at or after the end of the one before it.
pub(crate) fn are_in_order(machine: Machine, relocations: &[InputRelocation]) -> bool
    ensures { result ≡ are_in_order machine 0 relocations.now }
{
    let mut end = 0;
    for relocation in relocations {
        if (relocation.offset as u128) < end {
            return false;
        }
        end = field_end(machine, relocation);
    }
    true
}

/// The first changed byte of a section between two offsets.
pub(crate) fn changed_between(
    memory: &TermMemory,
    section: &InputSection,
    from: u128,
    to: u128,
) -> Option<usize>
    ensures { result ≡ changed_between memory.now section.now from to }
{
    let bytes = section.bytes.as_slice();
    let end = to.min(bytes.len() as u128) as usize;
    if from >= end as u128 {
        return None;
    }
    let start = from as usize;
    first_changed(memory, section.address, start, &bytes[start..end])
}
