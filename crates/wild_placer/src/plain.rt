//! The memory of an image without a dynamic section: that of its segments, with its relocation sections applied (gABI, "Program Loading").
ghost use Rattle.std.specs.Prelude.{◌≡◌, ◌+◌, ◌^◌, ◌≤◌, ◌<◌, [], map, length, nat_lt, None, Ok, IfOk};
ghost use Rattle.wild_loader.specs.Outcome.{Gives};
ghost use Rattle.wild_loader.specs.Headers.{machine_of};
ghost use Rattle.wild_loader.specs.Runs.{least_shared};
ghost use Rattle.wild_loader.specs.Segments.{segment_bytes, load_segment, load_segments, segments};
ghost use Rattle.wild_loader.specs.Tables.{with_section, section_entries};
ghost use Rattle.wild_placer.specs.Plain.{rela_header, rela_headers, load_plain};

use std::alloc::Global;
use wild_loader::{
    LoadFault, Machine, Memory, Run, Tables, World, check_runs, is_to_apply, read_header,
    read_programs, read_relas, relocate_runs,
};
use wild_records::abi::header::EM_AARCH64;
use wild_records::abi::section::SHT_NOBITS;
use wild_records::abi::segment::PT_LOAD;
use wild_records::{FileHeader, ProgramHeader, Rela, SectionHeader};
use wild_types::{Layout, Section};
use wild_words::{Bytes, Items};

/// The machine of a file header.
fn machine(header: &FileHeader) -> Machine
    ensures { result ≡ machine_of header.now }
{
    if header.machine == EM_AARCH64 {
        Machine::AArch64
    } else {
        Machine::X86_64
    }
}

/// The bytes of a segment in memory: those of the file, then zeros.
fn read_segment(alloc: Global, image: &[u8], segment: &ProgramHeader) -> Result<Bytes, LoadFault>
    requires { segment.now.offset + segment.now.file_size ≤ length image.now }
    ensures { Gives result (Ok (segment_bytes image.now segment.now)) }
{
    let start = segment.offset as usize;
    let end = start + segment.file_size.min(segment.mem_size) as usize;
    let mut bytes = Vec::new(alloc);
    bytes.extend_from_slice(&image[start..end])?;
    bytes.resize(segment.mem_size as usize, 0)?;
    Ok(Bytes::from_vec(bytes))
}

fn wraps(base: u64, address: u64, size: u64) -> bool
    ensures { result ≡ nat_lt (2 ^ 64) (base + address + size) }
{
    base as u128 + address as u128 + size as u128 > 1 << 64
}

/// The runs, followed by that of one more segment.
#[tactic(auto, using(std::proofs::lemmas::Grind::common_steps), unfolding(wild_loader::specs::Segments::load_segment))]
fn add_segment(
    alloc: Global,
    base: u64,
    image: &[u8],
    segment: &ProgramHeader,
    mut runs: Items<Run>,
) -> Result<Items<Run>, LoadFault>
    ensures { Gives result (load_segment base image.now segment.now runs) }
{
    if segment.kind != PT_LOAD {
        return Ok(runs);
    }
    let length = image.len() as u64;
    if segment.offset > length || segment.file_size > length - segment.offset {
        return Err(LoadFault::Cut {
            offset: segment.offset,
        });
    }
    if wraps(base, segment.address, segment.mem_size) {
        return Err(LoadFault::Wraps {
            address: segment.address,
        });
    }
    if segment.mem_size > 0 {
        let bytes = read_segment(alloc, image, segment)?;
        let start = base + segment.address;
        runs.push(Run { start, bytes })?;
    }
    Ok(runs)
}

/// The runs of segments, whether or not two of them share a byte.
#[tactic(auto, unfolding(wild_loader::specs::Segments::load_segments))]
fn add_segments(
    alloc: Global,
    base: u64,
    image: &[u8],
    headers: &[ProgramHeader],
) -> Result<Items<Run>, LoadFault>
    ensures { Gives result (load_segments base image.now headers.now []) }
{
    let mut runs = Items::new(alloc);
    for segment in headers {
        runs = add_segment(alloc, base, image, segment, runs)?;
    }
    Ok(runs)
}

/// The runs of the segments to load; no two may share a byte.
#[tactic(auto, unfolding(wild_loader::specs::Segments::segments))]
fn read_segments(
    alloc: Global,
    base: u64,
    image: &[u8],
    headers: &[ProgramHeader],
) -> Result<Items<Run>, LoadFault>
    ensures gives { Gives result (segments base image.now headers.now) }
    ensures apart { IfOk result (λ runs. least_shared runs ≡ None) }
{
    let runs = add_segments(alloc, base, image, headers)?;
    check_runs(alloc, runs.as_slice())?;
    Ok(runs)
}

/// The header of a section, as far as relocation entries are read by it.
fn rela_header(layout: &Layout, section: &Section) -> SectionHeader
    ensures { result ≡ rela_header layout.now section.now }
{
    let kind = if layout.is_header_only(section) {
        SHT_NOBITS
    } else {
        section.kind
    };
    SectionHeader {
        name: 0,
        kind,
        flags: section.flags,
        address: 0,
        offset: section.offset,
        size: section.size,
        link: 0,
        info: 0,
        align: 0,
        entry_size: 0,
    }
}

/// The entries, followed by those of a section, which is in the image.
fn add_entries(
    alloc: Global,
    image: &[u8],
    section: &SectionHeader,
    mut entries: Items<Rela>,
) -> Result<Items<Rela>, LoadFault>
    ensures { Gives result (with_section image.now section.now entries) }
{
    let length = image.len() as u64;
    if section.offset > length || section.size > length - section.offset {
        return Err(LoadFault::Cut {
            offset: section.offset,
        });
    }
    let start = section.offset as usize;
    let count = section.size as usize / Rela::SIZE;
    let more = read_relas(alloc, image, start, count)?;
    for entry in more.as_slice() {
        entries.push(*entry)?;
    }
    Ok(entries)
}

/// The entries of sections.
#[tactic(auto, unfolding(wild_loader::specs::Tables::section_entries))]
fn section_entries(
    alloc: Global,
    layout: &Layout,
    image: &[u8],
    sections: &[Section],
) -> Result<Items<Rela>, LoadFault>
    ensures { Gives result (section_entries image.now (map (rela_header layout.now) sections.now) []) }
{
    let mut entries = Items::new(alloc);
    for section in sections {
        let header = rela_header(layout, section);
        if is_to_apply(&header) {
            entries = add_entries(alloc, image, &header, entries)?;
        }
    }
    Ok(entries)
}

/// The entries of the relocation sections of an image whose file header is read.
#[tactic(auto, unfolding(wild_loader::specs::Tables::section_entries))]
fn read_entries(
    alloc: Global,
    layout: &Layout,
    image: &[u8],
    header: &FileHeader,
) -> Result<Items<Rela>, LoadFault>
    ensures { Gives result (section_entries image.now (rela_headers layout.now header.now) []) }
{
    if header.section_offset == 0 {
        return Ok(Items::new(alloc));
    }
    match layout.sections.as_slice() {
        [_, sections @ ..] => section_entries(alloc, layout, image, sections),
        [] => Ok(Items::new(alloc)),
    }
}

/// The memory of the segments of a layout's image in a world, with the entries of the relocation sections applied.
#[tactic(auto, unfolding(crate::specs::Plain::load_plain))]
pub(crate) fn load_plain(
    alloc: Global,
    layout: &Layout,
    image: &[u8],
    world: &World,
) -> Result<Memory, LoadFault>
    ensures { Gives result (load_plain layout.now world.now image.now) }
{
    let header = read_header(image)?;
    let start = header.program_offset as usize;
    let headers = read_programs(alloc, image, start, header.program_count)?;
    let runs = read_segments(alloc, world.base, image, headers.as_slice())?;
    let entries = read_entries(alloc, layout, image, &header)?;
    let tables = Tables {
        words: Items::new(alloc),
        entries,
        jumps: Items::new(alloc),
    };
    relocate_runs(alloc, world, machine(&header), runs, &tables)
}
