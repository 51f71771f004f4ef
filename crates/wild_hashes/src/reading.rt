//! Reads words of a hash table, and names of symbols.
ghost use Rattle.std.specs.Prelude.{◌≡◌, ◌+◌, ◌*◌, ◌≤◌, ◌^◌, ◌<◌, length, position, IfOk, IfSome, MatchResult, Ok, Err};
ghost use Rattle.wild_hashes.specs.Reading.{read, is_zero, string_at, name_offset, symbol_name, has_name};
ghost use Rattle.wild_hashes.specs.LookUp.{chain_word, is_named};

use crate::fault::LookupFault;
use wild_records::SymtabEntry;
use wild_words::{read_u32, read_u64};

/// The bytes that a look-up reads. Each slice begins where the hash table, the dynamic symbol table or its string table
/// begins.
#[derive(Clone, Copy)]
pub struct LookupTables<'a> {
    pub hashes: &'a [u8],
    pub symbols: &'a [u8],
    pub strings: &'a [u8],
}

/// The 4 bytes at an offset of a table.
#[tactic(auto, unfolding(crate::specs::Reading::read))]
pub fn read_word(table: &[u8], at: usize) -> Result<u32, LookupFault>
    ensures read { result ≡ read table.now at 4 }
    ensures inside { IfOk result (λ _. at + 4 ≤ length table.now) }
{
    if table.len() < 4 || table.len() - 4 < at {
        return Err(LookupFault::Cut { offset: at as u64 });
    }
    Ok(read_u32(table, at))
}

/// The 8 bytes at an offset of a table.
#[tactic(auto, unfolding(crate::specs::Reading::read))]
pub(crate) fn read_double_word(table: &[u8], at: usize) -> Result<u64, LookupFault>
    ensures { result ≡ read table.now at 8 }
{
    if table.len() < 8 || table.len() - 8 < at {
        return Err(LookupFault::Cut { offset: at as u64 });
    }
    Ok(read_u64(table, at))
}

/// The chain word of a symbol. The chain words begin at an offset, with that of symbol 0.
#[tactic(auto, using(crate::proofs::ScanLemmas::chain_word_0))]
pub(crate) fn chain_word(table: &[u8], at: usize, index: u32) -> Result<u32, LookupFault>
    requires { at < 2 ^ 40 }
    ensures { result ≡ chain_word (read table.now) at 0 index }
{
    read_word(table, at + 4 * index as usize)
}

/// The index of the first zero.
fn find_zero(bytes: &[u8]) -> Option<usize>
    ensures first { result ≡ position is_zero bytes.now }
    ensures inside { IfSome result (λ i. i < length bytes.now) }
{
    bytes.iter().position(|byte| *byte == 0)
}

/// The bytes from an offset to the first zero.
#[tactic(auto, using(crate::proofs::StringLemmas::string_steps), unfolding(crate::specs::Reading::string_at))]
pub(crate) fn string_at(strings: &[u8], at: u64) -> Result<&[u8], LookupFault>
    ensures { MatchResult result (λ s. string_at strings.now at ≡ Ok s.now) (λ e. string_at strings.now at ≡ Err e) }
{
    if at > strings.len() as u64 {
        return Err(LookupFault::NoString { offset: at });
    }
    let rest = &strings[at as usize..];
    match find_zero(rest) {
        Some(end) => Ok(&rest[..end]),
        None => Err(LookupFault::NoString { offset: at }),
    }
}

/// Whether the string at an offset is the name.
fn is_string(strings: &[u8], at: u64, name: &[u8]) -> Result<bool, LookupFault>
    ensures { result ≡ has_name (string_at strings.now) name.now at }
{
    let found = string_at(strings, at)?;
    Ok(found == name)
}

/// `st_name` of a symbol.
#[tactic(auto, unfolding(crate::specs::Reading::name_offset, wild_records::specs::SymtabEntry::symtab_entry_at))]
fn name_offset(symbols: &[u8], index: u64) -> Result<u32, LookupFault>
    ensures { result ≡ name_offset symbols.now index }
{
    if symbols.len() as u64 / SymtabEntry::SIZE as u64 <= index {
        return Err(LookupFault::NoSymbol { index });
    }
    Ok(read_u32(symbols, SymtabEntry::SIZE * index as usize))
}

/// Whether a symbol has that name.
#[tactic(auto, unfolding(crate::specs::Reading::symbol_name))]
pub(crate) fn has_name(
    tables: &LookupTables<'_>,
    index: u64,
    name: &[u8],
) -> Result<bool, LookupFault>
    ensures { result ≡ has_name (symbol_name tables.now.symbols.now tables.now.strings.now) name.now index }
{
    let at = name_offset(tables.symbols, index)?;
    is_string(tables.strings, at as u64, name)
}

/// Whether a symbol has that name. The names are compared only if the chain word has the name's hash.
pub(crate) fn is_named(
    tables: &LookupTables<'_>,
    index: u64,
    name: &[u8],
    hash: u32,
    word: u32,
) -> Result<bool, LookupFault>
    ensures { result ≡ is_named (symbol_name tables.now.symbols.now tables.now.strings.now) name.now hash word index }
{
    if word / 2 == hash / 2 {
        has_name(tables, index, name)
    } else {
        Ok(false)
    }
}
