//! Clause 17: the shapes of the hash tables, and the order of the symbols in the GNU hash table.
ghost use Rattle.std.specs.Prelude.{◌≡◌, ◌≤◌, true, Ok};
ghost use Rattle.wild_needs.specs.HashShapes.{sysv_fits, gnu_shape_fits, gnu_fits, bucket_of, bucket_below, bucket_astray};
ghost use Rattle.wild_plan_rules.specs.ClauseTests.{check_indexes, check_hashes};

use crate::dynsyms::exact_count;
use crate::verdict::{fails, unless};
use wild_records::gnu_hash;
use wild_types::{Clause, DynamicSymbol, GnuHash, Layout, SysvHash};

/// Whether a table of that shape has a bucket (gABI, "Hash Table").
fn sysv_fits(shape: Option<SysvHash>) -> bool
    ensures { result ≡ sysv_fits shape }
{
    match shape {
        Some(shape) => 1 <= shape.buckets,
        None => true,
    }
}

/// Whether the table has a bucket, a word of its Bloom filter and a shift of less than 32 bits, and begins with the first symbol
/// that is defined.
fn gnu_shape_fits(layout: &Layout, shape: GnuHash) -> bool
    requires indexes { check_indexes layout.now ≡ Ok tt }
    ensures { result ≡ gnu_shape_fits layout.now shape }
{
    1 <= shape.buckets
        && 1 <= shape.bloom_count
        && shape.bloom_shift < 32
        && u128::from(shape.base) == exact_count(layout) as u128 + 1
}

fn gnu_fits(layout: &Layout) -> bool
    requires indexes { check_indexes layout.now ≡ Ok tt }
    ensures { result ≡ gnu_fits layout.now layout.now.gnu_hash }
{
    match layout.gnu_hash {
        Some(shape) => gnu_shape_fits(layout, shape),
        None => true,
    }
}

/// The bucket of a symbol's name.
#[tactic(auto, unfolding(wild_needs::specs::HashShapes::bucket_of))]
fn bucket_of(buckets: u32, listed: &DynamicSymbol) -> u32
    requires some { 1 ≤ buckets }
    ensures { result ≡ bucket_of buckets listed.now }
{
    gnu_hash(listed.name.as_slice()) % buckets
}

/// The first symbol that comes after one of a later bucket.
fn bucket_below(buckets: u32, listed: &[DynamicSymbol]) -> Option<usize>
    requires some { 1 ≤ buckets }
    ensures { result ≡ bucket_below buckets 0 0 listed.now }
{
    let mut least = 0;
    for (i, symbol) in listed.iter().enumerate() {
        let bucket = bucket_of(buckets, symbol);
        if bucket < least {
            return Some(i);
        }
        least = bucket;
    }
    None
}

/// The same, if there is such a table.
fn bucket_astray(layout: &Layout) -> Option<usize>
    requires fits { gnu_fits layout.now layout.now.gnu_hash ≡ true }
    ensures { result ≡ bucket_astray layout.now.gnu_hash layout.now.dynsyms }
{
    match layout.gnu_hash {
        Some(shape) => bucket_below(shape.buckets, layout.dynsyms.as_slice()),
        None => None,
    }
}

/// Requires that the indexes fit.
#[tactic(auto, unfolding(wild_plan_rules::specs::ClauseTests::check_hashes))]
pub(crate) fn check_hashes(layout: &Layout) -> Result<(), Clause>
    requires indexes { check_indexes layout.now ≡ Ok tt }
    ensures { result ≡ check_hashes layout.now }
{
    fails(17, unless(sysv_fits(layout.sysv_hash)))?;
    fails(17, unless(gnu_fits(layout)))?;
    fails(17, bucket_astray(layout))
}
