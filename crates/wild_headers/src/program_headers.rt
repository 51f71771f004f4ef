//! The program headers (gABI, "Program Header").
ghost use Rattle.std.specs.Prelude.{◌≡◌, ◌+◌, ◌*◌, ◌≤◌, length};
ghost use Rattle.wild_words.specs.Words.{place};
ghost use Rattle.wild_words.specs.Record.{spell};
ghost use Rattle.wild_records.specs.ProgramHeader.{program_header_size, program_header_fields};
ghost use Rattle.wild_table_formats.specs.Headers.{with_execute, program_header, program_header_bytes};

use wild_records::ProgramHeader;
use wild_records::abi::segment::{PF_X, PT_GNU_STACK, PT_LOAD};
use wild_types::{Layout, Segment};
use wild_words::put;

/// `p_flags` with `PF_X` set.
fn with_execute(flags: u32) -> u32
    ensures { result ≡ with_execute flags }
{
    if flags / PF_X % 2 == 0 {
        flags + PF_X
    } else {
        flags
    }
}

#[tactic(auto, unfolding(wild_table_formats::specs::Headers::program_header))]
fn program_header(layout: &Layout, segment: &Segment) -> ProgramHeader
    ensures { result ≡ program_header layout.now segment.now }
{
    let flags = if segment.kind == PT_GNU_STACK && layout.options.execstack {
        with_execute(segment.flags)
    } else {
        segment.flags
    };
    let align = match segment.kind {
        PT_LOAD => layout.page_size.max(segment.align),
        PT_GNU_STACK => 16,
        _ => segment.align,
    };
    ProgramHeader {
        kind: segment.kind,
        flags,
        offset: segment.offset,
        address: segment.address,
        physical: segment.physical,
        file_size: segment.file_size,
        mem_size: segment.mem_size,
        align,
    }
}

fn put_program_header(layout: &Layout, segment: &Segment, i: usize, out: &mut [u8])
    requires { program_header_size * i + program_header_size ≤ length out.old }
    ensures { out.new ≡ place (program_header_size * i) (spell (program_header_fields (program_header layout.now segment.now))) out.old }
{
    let mut header = [0; ProgramHeader::SIZE];
    program_header(layout, segment).put(&mut header);
    put(out, i * ProgramHeader::SIZE, &header);
}

/// Writes the program header table. `out` has exactly its length.
pub fn write_program_headers(layout: &Layout, out: &mut [u8])
    requires room { length out.old ≡ program_header_size * length layout.now.segments }
    ensures { out.new ≡ program_header_bytes layout.now }
{
    for (i, segment) in layout.segments.as_slice().iter().enumerate() {
        put_program_header(layout, segment, i, out);
    }
}
