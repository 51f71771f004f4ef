//! Writers of hash tables. Nothing is allocated.
ghost use Rattle.std.specs.Prelude.{◌≡◌, ℕ, ◌+◌, ◌*◌, ◌/◌, ◌%◌, ◌^◌, ◌<◌, ◌≤◌, ◌++◌, length, map, drop, if◌then◌else◌, [], ◌∷◌, replicate};
ghost use Rattle.wild_words.specs.Words.{word, number};
ghost use Rattle.wild_hashes.specs.Tables.{sysv_hash_of, gnu_hash_of, gnu_header, words, buckets, with_bits, bloom, is_last, gnu_chains, sysv_chains, gnu_table, sysv_table};

use wild_records::{GnuHashHeader, gnu_hash, sysv_hash};
use wild_types::{DynamicSymbol, GnuHash};
use wild_words::{put_u32, put_u64, read_u32, read_u64};

/// The GNU hash of a symbol's name.
#[tactic(auto, unfolding(crate::specs::Tables::gnu_hash_of))]
fn gnu_hash_of(definition: &DynamicSymbol) -> u32
    ensures { result ≡ gnu_hash_of definition.now }
{
    gnu_hash(definition.name.as_slice())
}

/// The System V hash of a symbol's name.
#[tactic(auto, unfolding(crate::specs::Tables::sysv_hash_of))]
fn sysv_hash_of(definition: &DynamicSymbol) -> u32
    ensures { result ≡ sysv_hash_of definition.now }
{
    sysv_hash(definition.name.as_slice())
}

/// The buckets of a GNU table of symbols with the indexes from `base` on. The walk is from the last symbol to the first,
/// so each bucket ends with its first symbol.
#[tactic(auto, using(crate::proofs::WriterLemmas::bucket_steps))]
fn write_gnu_buckets(out: &mut [u8], count: u32, base: u32, definitions: &[DynamicSymbol])
    requires room { length out.old ≡ 4 * count }
    requires some { 0 < count }
    requires few { base + length definitions.now < 2 ^ 32 }
    ensures { out.new ≡ words 4 (buckets count base (map gnu_hash_of definitions.now)) }
{
    out.fill(0);
    let mut i = definitions.len();
    while i > 0 {
        i -= 1;
        let hash = gnu_hash_of(&definitions[i]);
        put_u32(out, 4 * (hash % count) as usize, base + i as u32);
    }
}

/// A word of the Bloom filter with the two bits of a hash.
#[tactic(auto, using(std::proofs::lemmas::Nat::one_shl))]
fn with_bits(shift: u32, hash: u32, old: u64) -> u64
    requires { shift < 32 }
    ensures { result ≡ with_bits shift hash old }
{
    old | (1 << (hash % 64)) | (1 << ((hash >> shift) % 64))
}

/// The Bloom filter of the names.
#[tactic(auto, using(crate::proofs::WriterLemmas::bloom_steps))]
fn write_bloom(out: &mut [u8], count: u32, shift: u32, definitions: &[DynamicSymbol])
    requires room { length out.old ≡ 8 * count }
    requires some { 0 < count }
    requires short { shift < 32 }
    ensures { out.new ≡ words 8 (bloom count shift (map gnu_hash_of definitions.now)) }
{
    out.fill(0);
    let mut i = definitions.len();
    while i > 0 {
        i -= 1;
        let hash = gnu_hash_of(&definitions[i]);
        let at = 8 * (hash / 64 % count) as usize;
        let old = read_u64(out, at);
        put_u64(out, at, with_bits(shift, hash, old));
    }
}

/// Whether a symbol with this hash is the last of its bucket. The following symbols begin at index `next`.
#[tactic(auto, using(crate::proofs::WriterLemmas::last_steps))]
fn is_last(count: u32, hash: u32, definitions: &[DynamicSymbol], next: usize) -> bool
    requires some { 0 < count }
    requires within { next ≤ length definitions.now }
    ensures { result ≡ is_last count hash (map gnu_hash_of (drop next definitions.now)) }
{
    next == definitions.len() || gnu_hash_of(&definitions[next]) % count != hash % count
}

/// The chain word of a symbol with this hash: the hash, with bit 0 set for the last symbol of its bucket.
fn gnu_word(count: u32, hash: u32, definitions: &[DynamicSymbol], next: usize) -> u32
    requires some { 0 < count }
    requires within { next ≤ length definitions.now }
    ensures { result ≡ 2 * (hash / 2) + (if is_last count hash (map gnu_hash_of (drop next definitions.now)) then 1 else 0) }
{
    if is_last(count, hash, definitions, next) {
        2 * (hash / 2) + 1
    } else {
        2 * (hash / 2)
    }
}

/// The chain words of a GNU table.
#[tactic(auto, using(crate::proofs::WriterLemmas::chain_steps))]
fn write_gnu_chains(out: &mut [u8], count: u32, definitions: &[DynamicSymbol])
    requires room { length out.old ≡ 4 * length definitions.now }
    requires some { 0 < count }
    ensures { out.new ≡ words 4 (gnu_chains count (map gnu_hash_of definitions.now)) }
{
    let mut i = definitions.len();
    while i > 0 {
        i -= 1;
        let hash = gnu_hash_of(&definitions[i]);
        put_u32(out, 4 * i, gnu_word(count, hash, definitions, i + 1));
    }
}

/// The buckets and chain words of a System V table of symbols with the indexes from `base` on. The walk is from the last
/// symbol to the first, and puts each at the head of its bucket's chain.
#[tactic(auto, using(crate::proofs::WriterLemmas::sysv_steps))]
fn write_sysv_parts(
    firsts: &mut [u8],
    chains: &mut [u8],
    count: u32,
    base: u32,
    definitions: &[DynamicSymbol],
)
    requires firsts { length firsts.old ≡ 4 * count }
    requires chains { length chains.old ≡ 4 * length definitions.now }
    requires some { 0 < count }
    requires few { base + length definitions.now < 2 ^ 32 }
    ensures firsts { firsts.new ≡ words 4 (buckets count base (map sysv_hash_of definitions.now)) }
    ensures chains { chains.new ≡ words 4 (sysv_chains count base (map sysv_hash_of definitions.now)) }
{
    firsts.fill(0);
    let mut i = definitions.len();
    while i > 0 {
        i -= 1;
        let at = 4 * (sysv_hash_of(&definitions[i]) % count) as usize;
        let next = read_u32(firsts, at);
        put_u32(chains, 4 * i, next);
        put_u32(firsts, at, base + i as u32);
    }
}

/// Writes the GNU hash table of the defined symbols (GNU, "DT_GNU_HASH"): header, Bloom filter, buckets, chain words. The
/// defined symbols have the indexes from the shape's `base` on in `.dynsym`. A look-up finds them if they ascend by bucket.
#[tactic(auto, unfolding(crate::specs::Tables::gnu_table))]
pub fn write_gnu_hash_tables(out: &mut [u8], shape: &GnuHash, definitions: &[DynamicSymbol])
    requires room { length out.old ≡ 16 + 8 * shape.now.bloom_count + 4 * shape.now.buckets + 4 * length definitions.now }
    requires some { 0 < shape.now.buckets }
    requires some_bloom { 0 < shape.now.bloom_count }
    requires short { shape.now.bloom_shift < 32 }
    requires few { shape.now.base + length definitions.now < 2 ^ 32 }
    ensures { out.new ≡ gnu_table (gnu_header shape.now) (map gnu_hash_of definitions.now) }
{
    let header = GnuHashHeader {
        bucket_count: shape.buckets,
        symbol_base: shape.base,
        bloom_count: shape.bloom_count,
        bloom_shift: shape.bloom_shift,
    };
    let (front, rest) = out.split_at_mut(GnuHashHeader::SIZE);
    header.put(front);
    let (filter, rest) = rest.split_at_mut(8 * shape.bloom_count as usize);
    write_bloom(filter, shape.bloom_count, shape.bloom_shift, definitions);
    let (firsts, chains) = rest.split_at_mut(4 * shape.buckets as usize);
    write_gnu_buckets(firsts, shape.buckets, shape.base, definitions);
    write_gnu_chains(chains, shape.buckets, definitions);
}

/// Writes the System V hash table of the defined symbols (gABI, "Hash Table"): the two counts, the buckets, and a chain word
/// for each symbol of `.dynsym`. The defined symbols have the indexes from `base` on.
#[tactic(auto, unfolding(crate::specs::Tables::sysv_table))]
pub fn write_sysv_hash_table(out: &mut [u8], count: u32, base: u32, definitions: &[DynamicSymbol])
    requires room { length out.old ≡ 8 + 4 * count + 4 * base + 4 * length definitions.now }
    requires some { 0 < count }
    requires few { base + length definitions.now < 2 ^ 32 }
    ensures { out.new ≡ sysv_table count base (map sysv_hash_of definitions.now) }
{
    let (front, rest) = out.split_at_mut(8);
    write_counts(front, count, base + definitions.len() as u32);
    let (firsts, rest) = rest.split_at_mut(4 * count as usize);
    let (others, chains) = rest.split_at_mut(4 * base as usize);
    write_no_words(others, base);
    write_sysv_parts(firsts, chains, count, base, definitions);
}

/// The counts of a System V table: buckets, and symbols.
fn write_counts(out: &mut [u8], buckets: u32, symbols: u32)
    requires { length out.old ≡ 8 }
    ensures { out.new ≡ words 4 (buckets ∷ symbols ∷ []) }
{
    put_u32(out, 0, buckets);
    put_u32(out, 4, symbols);
}

/// `count` words of 0: the chain words of the symbols before `base`.
#[tactic(auto, using(crate::proofs::WriterLemmas::zero_words))]
fn write_no_words(out: &mut [u8], count: u32)
    requires { length out.old ≡ 4 * count }
    ensures { out.new ≡ words 4 (replicate count 0) }
{
    out.fill(0);
}
