//! The least address that two images of a space share.
ghost use Rattle.std.specs.Prelude.{◌≡◌, ℕ, [], ◌∷◌, ◌^◌, ◌≤◌, ◌<◌, ◌+◌, ◌*◌, ◌++◌, max, All, IfOk, length};
ghost use Rattle.wild_records.specs.ProgramHeader.{program_header_size};
ghost use Rattle.wild_loader.specs.Headers.{program_headers};
ghost use Rattle.wild_space.specs.Order.{AreOrdered};
ghost use Rattle.wild_space.specs.Binds.{place_of};
ghost use Rattle.wild_words.specs.Extents.{total};
ghost use Rattle.wild_space.specs.Counts.{kept, cut, has_number};
ghost use Rattle.wild_space.specs.Overlaps.{extent_of, has_addresses, extents_of, extents_in, placed, least_in_two};

use crate::ordered::OrderedImages;
use std::alloc::{AllocError, Global};
use wild_hashes::Records;
use wild_records::ProgramHeader;
use wild_records::abi::segment::PT_LOAD;
use wild_words::{Extent, least_shared};

/// Whether a segment is loaded, and has an address below 2^64.
fn has_addresses(base: u64, header: &ProgramHeader) -> bool
    ensures { result ≡ has_addresses base header.now }
{
    header.kind == PT_LOAD
        && header.mem_size != 0
        && base as u128 + (header.address as u128) < 1 << 64
}

/// The addresses of such a segment, as far as they are below 2^64.
fn extent_of(base: u64, header: &ProgramHeader) -> Extent
    requires { base + header.now.address < 2 ^ 64 }
    ensures { result ≡ extent_of base header.now }
{
    let end = base as u128 + header.address as u128 + header.mem_size as u128;
    Extent {
        start: base + header.address,
        end: end.min(1 << 64),
    }
}

/// The extents, followed by that of a segment, if it has addresses.
#[tactic(auto, unfolding(crate::specs::Overlaps::extents_of))]
fn add_extent(
    base: u64,
    header: &ProgramHeader,
    mut extents: Vec<Extent>,
) -> Result<Vec<Extent>, AllocError>
    requires { All (λ e. e.end ≤ 2 ^ 64) extents.items }
    ensures is { IfOk result (λ more. more.items ≡ extents.items ++ extents_of base (header.now ∷ [])) }
    ensures low { IfOk result (λ more. All (λ e. e.end ≤ 2 ^ 64) more.items) }
{
    if has_addresses(base, header) {
        extents.push(extent_of(base, header))?;
    }
    Ok(extents)
}

/// The addresses of the segments to load, at a base.
fn read_extents(
    alloc: Global,
    image: &[u8],
    headers: Records,
    base: u64,
) -> Result<Vec<Extent>, AllocError>
    requires { headers.start + program_header_size * headers.count ≤ length image.now }
    ensures is { IfOk result (λ v. v.items ≡ extents_of base (program_headers image.now headers.count headers.start)) }
    ensures low { IfOk result (λ v. All (λ e. e.end ≤ 2 ^ 64) v.items) }
{
    let mut extents = Vec::new(alloc);
    for i in 0..headers.count {
        let header = ProgramHeader::read(image, headers.start + ProgramHeader::SIZE * i);
        extents = add_extent(base, &header, extents)?;
    }
    Ok(extents)
}

/// The addresses of the image at a place of the order.
#[tactic(auto, unfolding(crate::specs::Overlaps::extents_in))]
fn extents_in(alloc: Global, space: &OrderedImages<'_>, n: usize) -> Result<Vec<Extent>, AllocError>
    requires ordered { AreOrdered space.now.images.now space.now.order space.now.tables }
    requires inside { n < length space.now.order }
    ensures is { IfOk result (λ v. v.items ≡ extents_in space.now.images.now (place_of space.now.order n)) }
    ensures low { IfOk result (λ v. All (λ e. e.end ≤ 2 ^ 64) v.items) }
{
    let tables = space.tables(n);
    read_extents(alloc, space.bytes(n), tables.headers, space.base(n))
}

/// Adds the part of an extent after `reach`, and returns the greater of both ends.
fn add_kept(all: &mut Vec<Extent>, reach: u128, extent: Extent) -> Result<u128, AllocError>
    requires reach { reach ≤ 2 ^ 64 }
    requires end { extent.end ≤ 2 ^ 64 }
    ensures kept { IfOk result (λ _. all.new.items ≡ all.old.items ++ kept reach extent) }
    ensures reach { IfOk result (λ r. r ≡ max reach extent.end) }
{
    if extent.end <= reach {
        return Ok(reach);
    }
    let start = (extent.start as u128).max(reach) as u64;
    all.push(Extent {
        start,
        end: extent.end,
    })?;
    Ok(extent.end)
}

/// Adds extents in order of their starts, each without the numbers of those before it.
fn add_cut(all: &mut Vec<Extent>, extents: &[Extent]) -> Result<(), AllocError>
    requires { All (λ e. e.end ≤ 2 ^ 64) extents.now }
    ensures { IfOk result (λ _. all.new.items ≡ all.old.items ++ cut 0 extents.now) }
{
    let mut reach: u128 = 0;
    for extent in extents {
        reach = add_kept(all, reach, *extent)?;
    }
    Ok(())
}

/// Adds the numbers of a list, each once.
fn add_list(all: &mut Vec<Extent>, mut list: Vec<Extent>) -> Result<(), AllocError>
    requires { All (λ e. e.end ≤ 2 ^ 64) list.items }
    ensures { IfOk result (λ _. (a : ℕ) → total a all.new.items ≡ total a all.old.items + has_number list.items a) }
{
    list.sort_unstable_by_key(|e| e.start);
    add_cut(all, list.as_slice())
}

/// The least address that two images share. Time n log n. Fails only if memory runs out.
pub(crate) fn least_overlap(
    alloc: Global,
    space: &OrderedImages<'_>,
) -> Result<Option<u64>, AllocError>
    requires ordered { AreOrdered space.now.images.now space.now.order space.now.tables }
    ensures { IfOk result (λ found. found ≡ least_in_two (placed space.now.images.now space.now.order)) }
{
    let mut all = Vec::new(alloc);
    for n in 0..space.order.len() {
        let list = extents_in(alloc, space, n)?;
        add_list(&mut all, list)?;
    }
    Ok(least_shared(all.as_mut_slice()))
}
