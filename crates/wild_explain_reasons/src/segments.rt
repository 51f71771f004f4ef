//! Advice on segments: what a kernel, a dynamic linker or an unwinder does not find, or finds at another place.

use crate::headers::first_of;
use crate::hints::{ADVICE, push_expected};
use crate::items::Item;
use crate::names::push_section;
use crate::stores::{Barriers, segment_at};
use crate::text::Text;
use wild_records::abi::segment::{
    PF_W, PF_X, PT_GNU_EH_FRAME, PT_INTERP, PT_LOAD, PT_PHDR, PT_TLS,
};
use wild_types::{
    Layout, OutputKind, Role, Section, Segment, is_allocated, is_executable, is_there,
    is_thread_local, is_writable,
};

/// The first segment of a kind.
fn segment_of(layout: &Layout, kind: u32) -> Option<(usize, Segment)> {
    for (i, segment) in layout.segments.as_slice().iter().enumerate() {
        if segment.kind == kind {
            return Some((i, *segment));
        }
    }
    None
}

/// Adds the loaded segments that share a memory page with the one before them, where a kernel maps the page of the later one (gABI, "Program
/// Loading"): other bytes, or other permissions.
fn push_pages(out: &mut Text, layout: &Layout) {
    let page = layout.page_size.max(1);
    let mut before: Option<(usize, Segment)> = None;
    for (i, segment) in layout.segments.as_slice().iter().enumerate() {
        if segment.kind != PT_LOAD || segment.mem_size == 0 {
            continue;
        }
        if let Some((first, found)) = before {
            let end = found.address.saturating_add(found.mem_size);
            let is_even = found.address.saturating_add(segment.offset)
                == segment.address.saturating_add(found.offset);
            let is_shared = segment.address / page <= end.saturating_sub(1) / page;
            if is_shared && !is_even {
                writeln!(
                    out,
                    "advice: /segments/{i} begins in the last memory page of /segments/{first}, at another distance from the file: a kernel maps its page over the other's bytes"
                );
            } else if is_shared && segment.flags != found.flags {
                let (flags, other) = (segment.flags, found.flags);
                writeln!(
                    out,
                    "advice: /segments/{i} begins in the last memory page of /segments/{first}, with flags {flags}, not {other}: the page has the permissions of the later one; expected another page"
                );
            }
        }
        before = Some((i, *segment));
    }
}

/// Adds what is wrong with the segment of thread-local data.
fn push_thread_segment(out: &mut Text, layout: &Layout) {
    let (start, end, align) = (layout.tls.start, layout.tls.end, layout.tls.align);
    let size = end.saturating_sub(start);
    match segment_of(layout, PT_TLS) {
        None if size != 0 => out.push_str(
            "advice: /tls is given, and no segment is PT_TLS (kind 7): no thread gets its data\n",
        ),
        Some((i, found))
            if found.address != start || found.mem_size != size || found.align != align => {
            let (address, mem_size, other) = (found.address, found.mem_size, found.align);
            writeln!(
                out,
                "advice: /segments/{i} is PT_TLS with address {address}, mem_size {mem_size}, align {other}; /tls has start {start}, size {size}, align {align}"
            );
        }
        _ => {}
    }
}

/// Adds the segments that are missing, in lines that begin with a word.
pub(crate) fn push_missing(out: &mut Text, layout: &Layout, word: &str) {
    let is_dynamic = matches!(layout.kind, OutputKind::DynamicExecutable(_));
    if is_dynamic && segment_of(layout, PT_INTERP).is_none() {
        writeln!(
            out,
            "{word}: no segment is PT_INTERP (kind 3): a kernel starts the program without its dynamic linker"
        );
    }
    if is_dynamic && segment_of(layout, PT_PHDR).is_none() {
        writeln!(
            out,
            "{word}: no segment is PT_PHDR (kind 6): a dynamic linker takes base 0 for the program"
        );
    }
    let has_table = is_there(Role::EhFrameHdr, layout.parts.as_slice());
    if has_table && segment_of(layout, PT_GNU_EH_FRAME).is_none() {
        writeln!(
            out,
            "{word}: no segment is PT_GNU_EH_FRAME (kind 1685382480): an unwinder does not find the part eh_frame_hdr"
        );
    }
}

/// The kinds of segments that have the place of a part, its role, and what a line about them says.
const PLACED: [(u32, Role, &str); 3] = [
    (
        PT_INTERP,
        Role::Interp,
        "that of the part interp, as the segment is PT_INTERP: a kernel reads the path there",
    ),
    (
        PT_PHDR,
        Role::ProgramHeaders,
        "that of the part program_headers, as the segment is PT_PHDR: a dynamic linker takes the base from there",
    ),
    (
        PT_GNU_EH_FRAME,
        Role::EhFrameHdr,
        "that of the part eh_frame_hdr, as the segment is PT_GNU_EH_FRAME: an unwinder reads the table there",
    ),
];

/// Adds the segments that do not have the place of their part.
fn push_placed(out: &mut Text, layout: &Layout) {
    for row in &PLACED {
        let (kind, role, why) = *row;
        if let Some((i, segment)) = segment_of(layout, kind)
            && let Some((_, part)) = first_of(layout, role)
        {
            for (member, found, expected) in [
                ("/offset", segment.offset, part.offset),
                ("/address", segment.address, part.address),
                ("/file_size", segment.file_size, part.size),
            ] {
                if found != expected {
                    let numbers = (found, expected);
                    push_expected(out, ADVICE, Item::Segment(i), member, numbers, why);
                }
            }
        }
    }
}

/// Adds a section that may do what its segment may not: it is writable, or has code.
fn push_permission(
    out: &mut Text,
    layout: &Layout,
    index: usize,
    segment: (usize, Segment),
    wanted: (u32, &str),
) {
    let ((place, found), (flag, word)) = (segment, wanted);
    if found.flags & flag == 0 {
        let (flags, expected) = (found.flags, found.flags | flag);
        write!(
            out,
            "advice: /segments/{place}/flags is {flags}, expected {expected}: "
        );
        push_section(out, layout, index);
        writeln!(out, " is {word}");
    }
}

/// Whether a section has addresses of its own: a thread-local one without data has none.
pub(crate) fn has_addresses(section: &Section) -> bool {
    is_allocated(section.flags)
        && !(section.is_without_data() && is_thread_local(section.flags))
        && section.size != 0
}

/// Adds the sections that may do what their segments may not.
pub(crate) fn push_permissions(out: &mut Text, layout: &Layout, barriers: &Barriers) {
    for (i, section) in layout.sections.as_slice().iter().enumerate() {
        if has_addresses(section)
            && let Some(segment) = segment_at(barriers.loaded.as_slice(), section.address)
        {
            if is_writable(section.flags) {
                push_permission(
                    out,
                    layout,
                    i,
                    segment,
                    (PF_W, "writable (flag 1, SHF_WRITE)"),
                );
            }
            if is_executable(section.flags) {
                push_permission(
                    out,
                    layout,
                    i,
                    segment,
                    (PF_X, "code (flag 4, SHF_EXECINSTR)"),
                );
            }
        }
    }
}

/// Adds what is wrong with segments.
pub(crate) fn push_segments(out: &mut Text, layout: &Layout) {
    push_pages(out, layout);
    push_thread_segment(out, layout);
    push_missing(out, layout, ADVICE);
    push_placed(out, layout)
}
