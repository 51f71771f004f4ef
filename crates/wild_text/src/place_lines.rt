//! The texts of the command `place`.
ghost use Rattle.std.specs.Prelude.{◌≡◌, ◌++◌, IfOk, OnOk, string_bytes};
ghost use Rattle.wild_text.specs.PlaceAnswer.{at_line, run_bytes, segment_text, place_text, not_placed_text};

use crate::answer::push_hex;
use crate::space_lines::LoadWords;
use std::alloc::{AllocError, Global};
use std::fmt::Write;
use wild_loader::{LoadFault, Run};
use wild_records::abi::segment::PT_LOAD;
use wild_types::Segment;

/// The line of a segment.
fn segment_line(alloc: Global, base: u64, segment: &Segment) -> Result<String, AllocError>
    ensures { IfOk result (λ s. string_bytes s ≡ at_line base segment.now) }
{
    let address = base as u128 + segment.address as u128;
    let size = segment.file_size;
    let mut line = String::new(alloc);
    writeln!(line, "at {address} {size}")?;
    Ok(line)
}

/// The bytes of the run at a place.
fn run_bytes(runs: &[Run], place: usize) -> &[u8]
    ensures { result.now ≡ run_bytes runs.now place }
{
    match runs.get(place) {
        Some(run) => run.bytes.as_slice(),
        None => &[],
    }
}

/// Appends a segment with its bytes; `bytes` are those that it has in memory.
fn push_segment(
    out: &mut Vec<u8>,
    alloc: Global,
    base: u64,
    segment: &Segment,
    bytes: &[u8],
) -> Result<(), AllocError>
    ensures { OnOk result (out.new.items ≡ out.old.items ++ segment_text base segment.now bytes.now) }
{
    let line = segment_line(alloc, base, segment)?;
    out.extend_from_slice(line.as_bytes())?;
    let size = (bytes.len() as u64).min(segment.file_size) as usize;
    push_hex(out, &bytes[..size])
}

/// The text for segments whose loaded bytes are in the runs: one for each segment with memory.
pub fn place_answer(
    alloc: Global,
    base: u64,
    segments: &[Segment],
    runs: &[Run],
) -> Result<Vec<u8>, AllocError>
    ensures { IfOk result (λ v. v.items ≡ place_text base segments.now runs.now) }
{
    let mut out = Vec::new(alloc);
    let mut place = 0;
    for segment in segments {
        if segment.kind == PT_LOAD {
            if segment.mem_size == 0 {
                push_segment(&mut out, alloc, base, segment, &[])?;
            } else {
                push_segment(&mut out, alloc, base, segment, run_bytes(runs, place))?;
                place += 1;
            }
        }
    }
    Ok(out)
}

/// The text for an image that the loader does not load.
pub fn place_refusal(alloc: Global, fault: LoadFault) -> Result<String, AllocError>
    ensures { IfOk result (λ s. string_bytes s ≡ not_placed_text fault) }
{
    let words = LoadWords(fault);
    let text = format!(in alloc; "not placed {words}\n")?;
    Ok(text)
}
