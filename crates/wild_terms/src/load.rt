//! Symbolic loading: the steps of the loader at base 0, with terms in place of the numbers that a world determines.
ghost use Rattle.std.specs.Prelude.{◌≡◌, ◌+◌, ◌^◌, ◌<◌, ◌≤◌, [], ◌++◌, map, IfOk, Ok};
ghost use Rattle.wild_loader.specs.Outcome.{Gives, GivesBy};
ghost use Rattle.wild_terms.specs.Outline.{HasSortedResolvers};
ghost use Rattle.wild_terms.specs.Symbolic.{width_of, are_loaded, number_read, extent_of, tail_of, tails_of, patch_terms, place_terms, rela_terms, add_place_terms, add_rela_terms, shared_byte, apart_terms, AreApart, image_tails, relocate_terms, terms_of, IsLoadedBy};

use crate::memory::TermMemory;
use crate::outline::{Outline, TermChange};
use std::alloc::Global;
use wild_loader::{
    Image, IndexedMemory, LoadFault, Tables, dynamic_kind, read_header, read_image, read_places,
    read_programs,
};
use wild_records::abi::segment::PT_LOAD;
use wild_records::{ProgramHeader, Rela};
use wild_words::{Extent, Items, least_shared};

/// A change at an address of the image.
#[derive(Clone, Copy)]
pub struct TermPatch {
    /// The address of its first byte, without the base.
    pub place: u64,
    /// The change.
    pub change: TermChange,
}

/// The number of bytes that a change covers.
pub(crate) fn width(change: TermChange) -> u8
    ensures { result ≡ width_of change }
{
    match change {
        TermChange::Word(_) => 8,
        TermChange::Half(_) => 4,
        TermChange::Descriptor(_) => 16,
    }
}

/// Whether `count` bytes from an address on are loaded. Fails at the first that is not.
#[tactic(auto, unfolding(wild_loader::specs::Runs::read_bytes))]
fn check_loaded(memory: &IndexedMemory, address: u128, count: u8) -> Result<(), LoadFault>
    requires { address + count < 2 ^ 65 }
    ensures { result ≡ are_loaded memory.now address count }
{
    if count == 0 {
        return Ok(());
    }
    if memory.byte(address).is_none() {
        return Err(LoadFault::Unloaded {
            address: (address % (1 << 64)) as u64,
        });
    }
    check_loaded(memory, address + 1, count - 1)
}

/// The number in `count` loaded bytes, lowest byte first. Fails at the first that is not loaded.
#[tactic(auto, unfolding(wild_loader::specs::Runs::read_bytes, wild_words::specs::Words::number))]
fn loaded_number(memory: &IndexedMemory, address: u128, count: u8) -> Result<u64, LoadFault>
    requires count { count ≤ 8 }
    requires address { address + count < 2 ^ 65 }
    ensures number { result ≡ number_read memory.now address count }
    ensures bound { IfOk result (λ n. n < 256 ^ count) }
{
    if count == 0 {
        return Ok(0);
    }
    let Some(low) = memory.byte(address) else {
        return Err(LoadFault::Unloaded {
            address: (address % (1 << 64)) as u64,
        });
    };
    let rest = loaded_number(memory, address + 1, count - 1)?;
    Ok(low as u64 + 256 * rest)
}

/// A change at an address, whose bytes are loaded.
#[tactic(auto, unfolding(crate::specs::Symbolic::patch_terms))]
fn make_patch(
    memory: &IndexedMemory,
    place: u64,
    change: TermChange,
) -> Result<TermPatch, LoadFault>
    ensures { result ≡ patch_terms memory.now place change }
{
    check_loaded(memory, place as u128, width(change))?;
    Ok(TermPatch { place, change })
}

/// The change at a place of the packed relative relocations.
#[tactic(auto, unfolding(crate::specs::Symbolic::place_terms))]
fn packed_patch(
    outline: &Outline,
    memory: &IndexedMemory,
    place: u64,
) -> Result<TermPatch, LoadFault>
    ensures { result ≡ place_terms outline.now memory.now place }
{
    let number = loaded_number(memory, place as u128, 8)?;
    Ok(TermPatch {
        place,
        change: TermChange::Word(outline.based(number)),
    })
}

/// The change of an entry with an addend.
#[tactic(auto, unfolding(crate::specs::Symbolic::rela_terms))]
fn entry_patch(
    outline: &Outline,
    memory: &IndexedMemory,
    entry: &Rela,
) -> Result<TermPatch, LoadFault>
    requires { HasSortedResolvers outline.now }
    ensures { Gives result (rela_terms outline.now memory.now entry.now) }
{
    let Some(kind) = dynamic_kind(memory.machine(), entry.number) else {
        return Err(LoadFault::UnknownDynamic {
            number: entry.number,
        });
    };
    let change = outline.change(kind, entry)?;
    make_patch(memory, entry.offset, change)
}

/// The changes at places of the packed relative relocations.
#[tactic(auto, unfolding(wild_loader::specs::Relocate::add_all))]
fn add_packed(
    alloc: Global,
    outline: &Outline,
    memory: &IndexedMemory,
    places: &[u64],
) -> Result<Items<TermPatch>, LoadFault>
    ensures { Gives result (add_place_terms outline.now memory.now places.now []) }
{
    let mut patches = Items::new(alloc);
    for place in places {
        patches.push(packed_patch(outline, memory, *place)?)?;
    }
    Ok(patches)
}

/// The changes, followed by those of entries.
#[tactic(auto, unfolding(wild_loader::specs::Relocate::add_all))]
fn add_entries(
    outline: &Outline,
    memory: &IndexedMemory,
    entries: &[Rela],
    mut patches: Items<TermPatch>,
) -> Result<Items<TermPatch>, LoadFault>
    requires { HasSortedResolvers outline.now }
    ensures { Gives result (add_rela_terms outline.now memory.now entries.now patches) }
{
    for entry in entries {
        patches.push(entry_patch(outline, memory, entry)?)?;
    }
    Ok(patches)
}

/// The bytes of a change.
fn extent(patch: &TermPatch) -> Extent
    ensures { result ≡ extent_of patch.now }
{
    Extent {
        start: patch.place,
        end: patch.place as u128 + width(patch.change) as u128,
    }
}

/// The extents, followed by those of changes.
fn with_extents(mut extents: Vec<Extent>, patches: &[TermPatch]) -> Result<Vec<Extent>, LoadFault>
    ensures { GivesBy (λ v. v.items) result (Ok (extents.items ++ map extent_of patches.now)) }
{
    for patch in patches {
        extents.push(extent(patch))?;
    }
    Ok(extents)
}

/// The least byte that two changes share, or that is after the file bytes of a segment.
fn shared_byte(
    alloc: Global,
    tails: &[Extent],
    patches: &[TermPatch],
) -> Result<Option<u64>, LoadFault>
    ensures { Gives result (Ok (shared_byte tails.now patches.now)) }
{
    let mut extents = Vec::new(alloc);
    extents.extend_from_slice(tails)?;
    let mut extents = with_extents(extents, patches)?;
    Ok(least_shared(&mut extents))
}

/// Whether no two changes share a byte, and none is after the file bytes of a segment.
fn check_apart(alloc: Global, tails: &[Extent], patches: &[TermPatch]) -> Result<(), LoadFault>
    ensures gives { Gives result (apart_terms tails.now patches.now) }
    ensures apart { IfOk result (λ x. AreApart patches.now) }
{
    let found = shared_byte(alloc, tails, patches)?;
    match found {
        Some(address) => Err(LoadFault::Overlap { address }),
        None => Ok(()),
    }
}

/// The memory of a segment after its file bytes, if there is some.
fn tail(header: &ProgramHeader) -> Option<Extent>
    ensures { result ≡ tail_of header.now }
{
    let start = header.address as u128 + header.file_size as u128;
    if header.kind == PT_LOAD && header.file_size < header.mem_size && start < 1 << 64 {
        Some(Extent {
            start: start as u64,
            end: header.address as u128 + header.mem_size as u128,
        })
    } else {
        None
    }
}

/// The memory of segments after their file bytes.
fn tails(alloc: Global, headers: &[ProgramHeader]) -> Result<Vec<Extent>, LoadFault>
    ensures { GivesBy (λ v. v.items) result (Ok (tails_of headers.now)) }
{
    let mut extents = Vec::new(alloc);
    for header in headers {
        if let Some(extent) = tail(header) {
            extents.push(extent)?;
        }
    }
    Ok(extents)
}

/// The memory of an image's segments after their file bytes.
#[tactic(auto, unfolding(crate::specs::Symbolic::image_tails))]
fn read_tails(alloc: Global, image: &[u8]) -> Result<Vec<Extent>, LoadFault>
    ensures { GivesBy (λ v. v.items) result (image_tails image.now) }
{
    let header = read_header(image)?;
    let start = header.program_offset as usize;
    let headers = read_programs(alloc, image, start, header.program_count)?;
    tails(alloc, headers.as_slice())
}

/// The changes of all entries; no two may share a byte.
#[tactic(auto, unfolding(crate::specs::Symbolic::relocate_terms))]
fn apply_tables(
    alloc: Global,
    outline: &Outline,
    memory: &IndexedMemory,
    tails: &[Extent],
    tables: &Tables,
) -> Result<Items<TermPatch>, LoadFault>
    requires { HasSortedResolvers outline.now }
    ensures gives { Gives result (relocate_terms outline.now memory.now tails.now tables.now) }
    ensures apart { IfOk result (λ ps. AreApart ps) }
{
    let places = read_places(alloc, tables.words.as_slice())?;
    let packed = add_packed(alloc, outline, memory, places.as_slice())?;
    check_apart(alloc, tails, packed.as_slice())?;
    let patches = add_entries(outline, memory, tables.entries.as_slice(), packed)?;
    check_apart(alloc, tails, patches.as_slice())?;
    let all = add_entries(outline, memory, tables.jumps.as_slice(), patches)?;
    check_apart(alloc, tails, all.as_slice())?;
    Ok(all)
}

/// The memory of an image as terms, whatever the world.
#[tactic(auto, unfolding(crate::specs::Symbolic::terms_of))]
pub fn load_terms(alloc: Global, outline: &Outline, image: &[u8]) -> Result<TermMemory, LoadFault>
    requires { HasSortedResolvers outline.now }
    ensures { IsLoadedBy (terms_of outline.now image.now) result }
{
    let Image {
        machine,
        runs,
        tables,
    } = read_image(alloc, 0, image)?;
    let tails = read_tails(alloc, image)?;
    let memory = IndexedMemory::new(alloc, machine, runs)?;
    let patches = apply_tables(alloc, outline, &memory, tails.as_slice(), &tables)?;
    Ok(TermMemory::new(memory, patches))
}
