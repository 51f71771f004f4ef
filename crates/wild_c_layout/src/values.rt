//! Plain values: flags, numbers that may be absent, bytes.
ghost use Rattle.std.specs.Prelude.{◌≡◌, IfOk};
ghost use Rattle.wild_c_layout.specs.Values.{is_set, present, present_bytes, index};
ghost use Rattle.wild_c_layout.specs.Extras.{listed_bytes};

use crate::decode::{Decode, DecodePlain};
use std::alloc::{AllocError, Global};
use wild_types::{SectionIndex, SymbolIndex};
use wild_words::{Bytes, Items};

/// The number that says that there is none.
pub const ABSENT: u64 = u64::MAX;

/// Bytes in a list.
#[repr(C)]
#[derive(Drop)]
pub struct CBytes<'a> {
    pub bytes: &'a [u8],
}

/// Whether a flag is set: it is any number but 0.
pub fn is_set(flag: u8) -> bool
    ensures { result ≡ is_set flag }
{
    flag != 0
}

/// The number, if it is there.
pub fn present(number: u64) -> Option<u64>
    ensures { result ≡ present number }
{
    if number == ABSENT { None } else { Some(number) }
}

/// The index, if it is there.
pub fn present_index(index: usize) -> Option<usize>
    ensures { result ≡ present index }
{
    if index as u64 == ABSENT {
        None
    } else {
        Some(index)
    }
}

/// The index of a symbol, if it is there.
pub fn present_symbol(index: usize) -> Option<SymbolIndex>
    ensures { result ≡ present index }
{
    if index as u64 == ABSENT {
        None
    } else {
        Some(SymbolIndex(index))
    }
}

/// The index of an output section, if it is there.
pub fn present_section(index: usize) -> Option<SectionIndex>
    ensures { result ≡ present index }
{
    if index as u64 == ABSENT {
        None
    } else {
        Some(SectionIndex(index))
    }
}

/// A copy of the bytes.
pub fn bytes_of(alloc: Global, bytes: &[u8]) -> Result<Bytes, AllocError>
    ensures { IfOk result (λ b. b ≡ bytes.now) }
{
    Ok(Bytes::from_vec(bytes.to_vec(alloc)?))
}

/// A copy of the bytes, if the flag is set.
pub fn present_bytes(alloc: Global, flag: u8, bytes: &[u8]) -> Result<Option<Bytes>, AllocError>
    ensures { IfOk result (λ b. b ≡ present_bytes flag bytes.now) }
{
    if !is_set(flag) {
        return Ok(None);
    }
    Ok(Some(bytes_of(alloc, bytes)?))
}

/// A copy of the numbers.
pub fn numbers_of(alloc: Global, numbers: &[u64]) -> Result<Items<u64>, AllocError>
    ensures { IfOk result (λ xs. xs ≡ numbers.now) }
{
    Ok(Items::from_vec(numbers.to_vec(alloc)?))
}

impl Decode<Bytes> for CBytes<'_> {
    ghost value_of = { listed_bytes };

    fn decode(&self, alloc: Global) -> Result<Bytes, AllocError> {
        bytes_of(alloc, self.bytes)
    }
}

impl DecodePlain<SymbolIndex> for usize {
    ghost value_of = { index };

    fn value(&self) -> SymbolIndex {
        SymbolIndex(*self)
    }
}

impl DecodePlain<SectionIndex> for usize {
    ghost value_of = { index };

    fn value(&self) -> SectionIndex {
        SectionIndex(*self)
    }
}
