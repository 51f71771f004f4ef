//! What each relocation of an image wrote.

use crate::faults::push_relocation;
use crate::items::{Item, SectionPlace, push_item};
use crate::names::push_resolution;
use crate::text::Text;
use wild_records::abi::relocation::R_AARCH64_TLSDESC_CALL;
use wild_reloc::RelocationSize;
use wild_slot::{Treatment, treatment_of};
use wild_types::{InputSection, Layout, Machine, field_bytes, row_of};

/// The byte at an offset; 0 past the end.
fn byte_at(bytes: &[u8], offset: u64) -> u8 {
    bytes.get(offset as usize).copied().unwrap_or(0)
}

/// Adds `count` bytes from an offset on, in hex.
fn push_bytes(out: &mut Text, bytes: &[u8], offset: u64, count: u64) {
    for i in 0..count {
        let byte = byte_at(bytes, offset.saturating_add(i));
        write!(out, "{byte:02x}");
    }
}

/// The word of 4 bytes at an offset.
pub(crate) fn word_at(bytes: &[u8], offset: u64) -> u32 {
    let mut word = [0; 4];
    for (i, byte) in word.iter_mut().enumerate() {
        *byte = byte_at(bytes, offset.saturating_add(i as u64));
    }
    u32::from_le_bytes(word)
}

/// Whether a byte is in the field of the relocation at an index.
fn is_in_field(layout: &Layout, section: &InputSection, index: usize, byte: u64) -> bool {
    match section.relocations.as_slice().get(index) {
        Some(relocation) => {
            let width = field_bytes(layout.machine, relocation.number) as u64;
            relocation.offset <= byte && byte < relocation.offset.saturating_add(width)
        }
        None => false,
    }
}

/// Whether one of the three bytes before a field differs in the image, other than in the field of the relocation before or after it.
fn is_changed_ahead(
    layout: &Layout,
    section: &InputSection,
    index: usize,
    image: &[u8],
    start: u64,
) -> bool {
    let Some(relocation) = section.relocations.as_slice().get(index) else {
        return false;
    };
    for i in relocation.offset.saturating_sub(3)..relocation.offset {
        let now = byte_at(image, start.saturating_add(i));
        if byte_at(section.bytes.as_slice(), i) != now
            && !is_in_field(layout, section, index.saturating_sub(1), i)
            && !is_in_field(layout, section, index.saturating_add(1), i)
        {
            return true;
        }
    }
    false
}

/// Whether the instruction of a relocation differs in the image, in which the section begins at `start`: on AArch64 its word outside the
/// field, on x86-64 one of the three bytes before the field.
fn is_rewritten(
    layout: &Layout,
    section: &InputSection,
    index: usize,
    image: &[u8],
    start: u64,
) -> bool {
    if let Machine::X86_64 = layout.machine {
        return is_changed_ahead(layout, section, index, image, start);
    }
    let Some(relocation) = section.relocations.as_slice().get(index) else {
        return false;
    };
    let (number, offset) = (relocation.number, relocation.offset);
    let old = word_at(section.bytes.as_slice(), offset);
    let new = word_at(image, start.saturating_add(offset));
    match row_of(Machine::AArch64, number) {
        Some(row) => match row.size {
            RelocationSize::BitMasking(field) => {
                field.instruction.insert(old, 0) != field.instruction.insert(new, 0)
            }
            RelocationSize::ByteSize(_) => number == R_AARCH64_TLSDESC_CALL && old != new,
        },
        None => false,
    }
}

/// What is done with a relocation of a section that begins at `start`.
fn done_word(
    layout: &Layout,
    section: &InputSection,
    index: usize,
    image: &[u8],
    start: u64,
) -> &'static str {
    if section.slot.is_debug() {
        return "a value as the output is linked";
    }
    if is_rewritten(layout, section, index, image, start) {
        return "its instruction was rewritten";
    }
    let Some(relocation) = section.relocations.as_slice().get(index) else {
        return "";
    };
    match treatment_of(layout, section.flags, relocation) {
        Treatment::Nothing => "nothing is written",
        Treatment::Value(_) => "a value in its field",
        Treatment::BaseRelative => "an address that moves with the base",
        Treatment::Symbolic(_) => "left to an entry with the symbol's address",
        Treatment::Indirect(_) => "left to an entry with a resolver's answer",
        Treatment::Extent(_, _) => "left to an entry with the symbol's size",
        Treatment::Recompile | Treatment::Unsupported => "refused",
    }
}

/// Adds what the relocations of a section wrote.
fn push_section_fields(
    out: &mut Text,
    layout: &Layout,
    at: SectionPlace,
    section: &InputSection,
    image: &[u8],
) {
    let start = match layout.parts.as_slice().get(section.part) {
        Some(part) => {
            let from_part = section.address.saturating_sub(part.address);
            part.offset.saturating_add(from_part)
        }
        None => 0,
    };
    for (i, relocation) in section.relocations.as_slice().iter().enumerate() {
        let offset = relocation.offset;
        let width = field_bytes(layout.machine, relocation.number) as u64;
        let word = done_word(layout, section, i, image, start);
        push_item(out, Item::Input(at));
        write!(out, "/relocations/{i}: ");
        push_relocation(out, layout, section, i);
        write!(out, "; {word}");
        if let Some(symbol) = relocation.symbol
            && let Some(found) = layout.symbols.as_slice().get(layout.canonical(symbol).0)
            && let Some(resolution) = found.resolution
        {
            push_resolution(out, resolution);
        }
        out.push_str("; field ");
        push_bytes(out, section.bytes.as_slice(), offset, width);
        out.push_str(" is now ");
        push_bytes(out, image, start.saturating_add(offset), width);
        out.push_str("\n");
    }
}

/// Adds what each relocation of an image wrote: what is done with it, the addresses of its symbol, and its field before and after. A
/// relocatable object keeps them in tables.
pub fn push_fields(out: &mut Text, layout: &Layout, image: &[u8]) {
    for (group, found) in layout.groups.as_slice().iter().enumerate() {
        for (file, held) in found.files.as_slice().iter().enumerate() {
            for (section, input) in held.sections.as_slice().iter().enumerate() {
                let is_here = input.has_written_relocations() && !input.is_omitted(layout);
                if is_here && !layout.kind.is_partial_link() {
                    let at = SectionPlace {
                        group,
                        file,
                        section,
                    };
                    push_section_fields(out, layout, at, input, image);
                }
            }
        }
    }
}
