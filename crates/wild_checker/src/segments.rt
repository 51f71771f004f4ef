//! Whether layout and image have the same segments to load.
ghost use Rattle.std.specs.Prelude.{◌≡◌, Ok};
ghost use Rattle.wild_loader.specs.Outcome.{Gives, GivesBy};
ghost use Rattle.wild_checker.specs.Segments.{layout_load, image_load, layout_loads, image_loads, is_at, first_different, segment_doubt};

use std::alloc::Global;
use wild_loader::{LoadFault, read_header, read_programs};
use wild_records::ProgramHeader;
use wild_records::abi::segment::PT_LOAD;
use wild_types::{Layout, Segment};
use wild_words::Items;

/// Where a segment is loaded.
#[derive(Clone, Copy)]
pub struct Load {
    pub address: u64,
    pub file_size: u64,
    pub mem_size: u64,
}

/// Where a segment of the layout is loaded.
fn layout_load(segment: &Segment) -> Option<Load>
    ensures { result ≡ layout_load segment.now }
{
    if segment.kind != PT_LOAD {
        return None;
    }
    Some(Load {
        address: segment.address,
        file_size: segment.file_size,
        mem_size: segment.mem_size,
    })
}

/// Where a segment of the image is loaded.
fn image_load(header: &ProgramHeader) -> Option<Load>
    ensures { result ≡ image_load header.now }
{
    if header.kind != PT_LOAD {
        return None;
    }
    Some(Load {
        address: header.address,
        file_size: header.file_size,
        mem_size: header.mem_size,
    })
}

/// The segments of the layout that are loaded.
fn layout_loads(alloc: Global, segments: &[Segment]) -> Result<Items<Load>, LoadFault>
    ensures { Gives result (Ok (layout_loads segments.now)) }
{
    let mut loads = Items::new(alloc);
    for segment in segments {
        if let Some(load) = layout_load(segment) {
            loads.push(load)?;
        }
    }
    Ok(loads)
}

/// The segments of the image that are loaded.
fn image_loads(alloc: Global, headers: &[ProgramHeader]) -> Result<Items<Load>, LoadFault>
    ensures { Gives result (Ok (image_loads headers.now)) }
{
    let mut loads = Items::new(alloc);
    for header in headers {
        if let Some(load) = image_load(header) {
            loads.push(load)?;
        }
    }
    Ok(loads)
}

/// Whether a load is at a position of a list.
fn is_at(loads: &[Load], i: usize, load: &Load) -> bool
    ensures { result ≡ is_at loads.now i load.now }
{
    match loads.get(i) {
        Some(other) => {
            other.address == load.address
                && other.file_size == load.file_size
                && other.mem_size == load.mem_size
        }
        None => false,
    }
}

/// The position of the first load that two lists do not both have.
fn first_different(a: &[Load], b: &[Load]) -> Option<usize>
    ensures { result ≡ first_different 0 a.now b.now }
{
    for (i, load) in a.iter().enumerate() {
        if !is_at(b, i, load) {
            return Some(i);
        }
    }
    if a.len() < b.len() {
        Some(a.len())
    } else {
        None
    }
}

/// The position of the first segment to load that layout and image do not both have.
#[tactic(auto, unfolding(crate::specs::Segments::segment_doubt))]
pub(crate) fn segment_doubt(
    alloc: Global,
    layout: &Layout,
    image: &[u8],
) -> Result<Option<usize>, LoadFault>
    ensures { Gives result (segment_doubt layout.now image.now) }
{
    let header = read_header(image)?;
    let start = header.program_offset as usize;
    let headers = read_programs(alloc, image, start, header.program_count)?;
    let asked = layout_loads(alloc, layout.segments.as_slice())?;
    let found = image_loads(alloc, headers.as_slice())?;
    Ok(first_different(asked.as_slice(), found.as_slice()))
}
