//! Advice on what files have: symbols whose values are not those of their places, merged strings, sections for debuggers, and copies.

use crate::hints::{ADVICE, push_expected, push_hint};
use crate::items::{Item, SectionPlace, push_item};
use crate::text::Text;
use wild_types::{File, InputSection, Layout, Part, Place, Slot, Symbol, is_allocated};

/// The address of a symbol by its place and its value, if it is in an allocated input section of its file and no other symbol defines it.
fn placed_value(file: &File, symbol: &Symbol) -> Option<u64> {
    let Place::Section(index) = symbol.place else {
        return None;
    };
    let section = file.sections.as_slice().get(index)?;
    let is_placed = matches!(section.slot, Slot::Loaded | Slot::Sorted);
    let is_moved = symbol.flags.is_absolute() || symbol.flags.needs_canonical_plt();
    if is_placed && is_allocated(section.flags) && !is_moved && symbol.definition.is_none() {
        Some(section.address.wrapping_add(symbol.value))
    } else {
        None
    }
}

/// Adds the first symbol of a file whose `raw_value` is not the address of its place and value.
pub(crate) fn push_values(out: &mut Text, layout: &Layout, file: &File) {
    for (i, symbol) in layout.symbols_of(file).iter().enumerate() {
        if let Some(resolution) = symbol.resolution
            && let Some(address) = placed_value(file, symbol)
            && resolution.raw_value != address
        {
            let number = file.first_symbol.0.saturating_add(i);
            let numbers = (resolution.raw_value, address);
            let why = "the address of the symbol's place, and its value";
            let item = Item::Symbol(number);
            return push_expected(out, ADVICE, item, "/resolution/raw_value", numbers, why);
        }
    }
}

/// Adds the first string of a section that is out of order, or outside the part of the strings.
fn push_strings(out: &mut Text, at: SectionPlace, section: &InputSection, part: &Part) {
    let (start, end) = (part.address, part.address.saturating_add(part.size));
    let mut before = 0;
    for (i, string) in section.strings.as_slice().iter().enumerate() {
        let (offset, address) = (string.offset, string.address);
        if offset < before {
            out.push_str("advice: ");
            push_item(out, Item::Input(at));
            writeln!(
                out,
                "/strings/{i}/offset is {offset}, expected {before} or more: the items ascend, and others are not found"
            );
            return;
        }
        if address < start || end <= address {
            out.push_str("advice: ");
            push_item(out, Item::Input(at));
            writeln!(
                out,
                "/strings/{i}/address is {address}, expected from {start} to {end}: the part of the strings"
            );
            return;
        }
        before = offset;
    }
}

/// Adds what is wrong with the merged strings of a file, and its sections for debuggers without that slot.
pub(crate) fn push_sections(out: &mut Text, layout: &Layout, place: (usize, usize), file: &File) {
    let (group, number) = place;
    for (i, section) in file.sections.as_slice().iter().enumerate() {
        let at = SectionPlace {
            group,
            file: number,
            section: i,
        };
        match section.slot {
            Slot::Merge => {
                if let Some(part) = layout.parts.as_slice().get(section.part) {
                    push_strings(out, at, section, part);
                }
            }
            Slot::Loaded if section.name.as_slice().starts_with(b".debug_") => {
                let text =
                    "is `loaded`, expected `debug` for a section that debuggers read: code that was left out has a tombstone then";
                push_hint(out, ADVICE, Item::Input(at), "/slot", text);
            }
            _ => {}
        }
    }
}

/// The copies of a file that lie over an input section with bytes or zeros, which a loader overwrites.
fn push_over(
    out: &mut Text,
    layout: &Layout,
    copied: &File,
    at: SectionPlace,
    section: &InputSection,
) {
    for copy in copied.copied() {
        let definition = layout.canonical(*copy).0;
        if let Some(symbol) = layout.symbols.as_slice().get(definition)
            && let Some(resolution) = symbol.resolution
        {
            let (address, size) = (resolution.raw_value, symbol.size);
            let end = section.address.saturating_add(section.size);
            if address < end && section.address < address.saturating_add(size) {
                write!(
                    out,
                    "advice: /symbols/{definition}/resolution/raw_value is {address}, where "
                );
                push_item(out, Item::Input(at));
                writeln!(
                    out,
                    " is: a loader copies {size} bytes over it; expected a place of its own"
                );
            }
        }
    }
}

/// The addresses from the first copy of a file to the end of the last one.
fn copied_range(layout: &Layout, file: &File) -> (u64, u64) {
    let (mut low, mut high) = (u64::MAX, 0);
    for copy in file.copied() {
        if let Some(symbol) = layout.symbols.as_slice().get(layout.canonical(*copy).0)
            && let Some(resolution) = symbol.resolution
        {
            low = resolution.raw_value.min(low);
            high = resolution.raw_value.saturating_add(symbol.size).max(high);
        }
    }
    (low, high)
}

/// Adds the copies of a file that have no bytes, and those that lie over input sections.
pub(crate) fn push_copies_over(out: &mut Text, layout: &Layout, copied: &File) {
    if copied.copied().len() == 0 {
        return;
    }
    for copy in copied.copied() {
        let definition = layout.canonical(*copy).0;
        if let Some(symbol) = layout.symbols.as_slice().get(definition)
            && symbol.size == 0
        {
            let text =
                "is 0, and the symbol is copied: expected the size that the library has, as a loader copies so many bytes";
            push_hint(out, ADVICE, Item::Symbol(definition), "/size", text);
        }
    }
    let (low, high) = copied_range(layout, copied);
    for (group, found) in layout.groups.as_slice().iter().enumerate() {
        for (file, held) in found.files.as_slice().iter().enumerate() {
            for (section, input) in held.sections.as_slice().iter().enumerate() {
                let end = input.address.saturating_add(input.size);
                let is_placed = matches!(input.slot, Slot::Loaded | Slot::Sorted);
                if is_placed && is_allocated(input.flags) && input.address < high && low < end {
                    let at = SectionPlace {
                        group,
                        file,
                        section,
                    };
                    push_over(out, layout, copied, at, input);
                }
            }
        }
    }
}
