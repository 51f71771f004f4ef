//! The look-up of a name in the bytes of a hash table.
ghost use Rattle.std.specs.Prelude.{◌≡◌, ℕ, ◌+◌, ◌*◌, ◌/◌, ◌^◌, ◌<◌, ◌≤◌, ◌==◌, length};
ghost use Rattle.std.specs.Int.{bit_at};
ghost use Rattle.wild_hashes.specs.Reading.{read, symbol_name};
ghost use Rattle.wild_hashes.specs.LookUp.{chain_word, sysv_scan, sysv_find, sysv_lookup, gnu_scan, may_hold, gnu_in_bucket, gnu_find, gnu_lookup};

use crate::fault::LookupFault;
use crate::reading::{LookupTables, chain_word, has_name, is_named, read_double_word, read_word};
use wild_records::{GnuHashHeader, gnu_hash, sysv_hash};

/// Walks the System V chain from symbol `first`, for at most `count` symbols. The chain words begin at `at`.
#[tactic(auto, using(crate::proofs::ScanLemmas::sysv_scan_more, crate::proofs::ScanLemmas::sysv_scan_none))]
fn scan_sysv(
    tables: &LookupTables<'_>,
    name: &[u8],
    at: usize,
    count: u32,
    first: u32,
) -> Result<Option<u64>, LookupFault>
    requires { at < 2 ^ 40 }
    ensures { result ≡ sysv_scan (chain_word (read tables.now.hashes.now) at 0) (symbol_name tables.now.symbols.now tables.now.strings.now) name.now count first }
{
    let mut index = first;
    for i in 0..count {
        if index == 0 {
            return Ok(None);
        }
        if has_name(tables, index as u64, name)? {
            return Ok(Some(index as u64));
        }
        index = chain_word(tables.hashes, at, index)?;
    }
    if index == 0 {
        return Ok(None);
    }
    Err(LookupFault::Cycle {
        index: index as u64,
    })
}

/// The look-up in a System V table with these numbers of buckets and symbols.
#[tactic(auto, unfolding(crate::specs::LookUp::sysv_find))]
fn find_sysv(
    tables: &LookupTables<'_>,
    name: &[u8],
    hash: u32,
    buckets: u32,
    count: u32,
) -> Result<Option<u64>, LookupFault>
    ensures { result ≡ sysv_find (read tables.now.hashes.now) (symbol_name tables.now.symbols.now tables.now.strings.now) name.now hash 0 buckets count }
{
    if buckets == 0 {
        return Ok(None);
    }
    let first = read_word(tables.hashes, 8 + 4 * (hash % buckets) as usize)?;
    scan_sysv(tables, name, 8 + 4 * buckets as usize, count, first)
}

/// The look-up in a System V table. `None` if no symbol has the name, or if the table has no buckets.
#[tactic(auto, unfolding(crate::specs::LookUp::sysv_lookup, crate::specs::LookUp::sysv_by))]
pub fn find_sysv_symbol(tables: &LookupTables<'_>, name: &[u8]) -> Result<Option<u64>, LookupFault>
    ensures { result ≡ sysv_lookup tables.now.hashes.now tables.now.symbols.now tables.now.strings.now name.now }
{
    let buckets = read_word(tables.hashes, 0)?;
    let count = read_word(tables.hashes, 4)?;
    find_sysv(tables, name, sysv_hash(name), buckets, count)
}

/// Walks the GNU chain from a symbol. The chain words begin at `at`, with that of symbol `base`.
#[tactic(auto, using(crate::proofs::ScanLemmas::gnu_scan_more, crate::proofs::ScanLemmas::chain_word_at))]
fn scan_gnu(
    tables: &LookupTables<'_>,
    name: &[u8],
    hash: u32,
    at: usize,
    base: u32,
    first: u32,
) -> Result<Option<u64>, LookupFault>
    requires low { at < 2 ^ 40 }
    requires from_base { base ≤ first }
    ensures { result ≡ gnu_scan (chain_word (read tables.now.hashes.now) at base) (symbol_name tables.now.symbols.now tables.now.strings.now) name.now hash (length tables.now.hashes.now) first }
{
    let mut index = first as u64;
    let mut place = at + 4 * (first - base) as usize;
    for i in 0..tables.hashes.len() {
        let word = read_word(tables.hashes, place)?;
        if is_named(tables, index, name, hash, word)? {
            return Ok(Some(index));
        }
        if word % 2 == 1 {
            return Ok(None);
        }
        index += 1;
        place += 4;
    }
    read_word(tables.hashes, place)?;
    Ok(None)
}

/// A hash shifted right; 0 for a shift of 32 or more.
#[tactic(auto, using(crate::proofs::StringLemmas::shifted_out))]
fn shift_right(hash: u32, shift: u32) -> u32
    ensures { result ≡ hash / 2 ^ shift }
{
    if shift >= 32 { 0 } else { hash >> shift }
}

/// Whether a bit of a word is set.
fn has_bit(word: u64, bit: u32) -> bool
    requires { bit < 64 }
    ensures { result ≡ (bit_at word bit == 1) }
{
    (word >> bit) & 1 == 1
}

/// Whether the two bits of a hash are set in this word of the Bloom filter.
#[tactic(auto)]
fn may_hold(shift: u32, hash: u32, word: u64) -> bool
    ensures { result ≡ may_hold shift hash word }
{
    has_bit(word, hash % 64) && has_bit(word, shift_right(hash, shift) % 64)
}

/// The look-up in the bucket of a hash.
#[tactic(auto, unfolding(crate::specs::LookUp::gnu_in_bucket))]
fn find_in_bucket(
    header: &GnuHashHeader,
    tables: &LookupTables<'_>,
    name: &[u8],
    hash: u32,
) -> Result<Option<u64>, LookupFault>
    requires { 0 < header.now.bucket_count }
    ensures { result ≡ gnu_in_bucket (read tables.now.hashes.now) (symbol_name tables.now.symbols.now tables.now.strings.now) name.now hash (length tables.now.hashes.now) 0 header.now }
{
    let buckets = 16 + 8 * header.bloom_count as usize;
    let first = read_word(
        tables.hashes,
        buckets + 4 * (hash % header.bucket_count) as usize,
    )?;
    if first < header.symbol_base {
        return Ok(None);
    }
    scan_gnu(
        tables,
        name,
        hash,
        buckets + 4 * header.bucket_count as usize,
        header.symbol_base,
        first,
    )
}

/// The look-up in a GNU table with this header.
#[tactic(auto, unfolding(crate::specs::LookUp::gnu_find))]
fn find_gnu(
    header: &GnuHashHeader,
    tables: &LookupTables<'_>,
    name: &[u8],
    hash: u32,
) -> Result<Option<u64>, LookupFault>
    ensures { result ≡ gnu_find (read tables.now.hashes.now) (symbol_name tables.now.symbols.now tables.now.strings.now) name.now hash (length tables.now.hashes.now) 0 header.now }
{
    if header.bucket_count == 0 || header.bloom_count == 0 {
        return Ok(None);
    }
    let word = read_double_word(
        tables.hashes,
        16 + 8 * (hash / 64 % header.bloom_count) as usize,
    )?;
    if may_hold(header.bloom_shift, hash, word) {
        find_in_bucket(header, tables, name, hash)
    } else {
        Ok(None)
    }
}

/// The look-up in a GNU table. `None` if no symbol has the name, or if the table has no buckets or no Bloom filter.
#[tactic(auto, unfolding(crate::specs::LookUp::gnu_lookup))]
pub fn find_gnu_symbol(tables: &LookupTables<'_>, name: &[u8]) -> Result<Option<u64>, LookupFault>
    ensures { result ≡ gnu_lookup tables.now.hashes.now tables.now.symbols.now tables.now.strings.now name.now }
{
    let Some(header) = GnuHashHeader::get(tables.hashes) else {
        return Err(LookupFault::Cut { offset: 0 });
    };
    find_gnu(&header, tables, name, gnu_hash(name))
}
