//! Why a symbol has no address, slot or stub: its file and section, and other symbols of its name.

use crate::hints::{LIKELY, push_hint};
use crate::items::{Item, SectionPlace, section_at};
use crate::text::Text;
use wild_types::{Fault, Layout, Missing, Place, Slot};

/// The input section that a symbol is in.
pub(crate) fn place_of_symbol(layout: &Layout, symbol: usize) -> Option<SectionPlace> {
    let Place::Section(section) = layout.symbols.as_slice().get(symbol)?.place else {
        return None;
    };
    for (group, found) in layout.groups.as_slice().iter().enumerate() {
        for (file, held) in found.files.as_slice().iter().enumerate() {
            let first = held.first_symbol.0;
            if first <= symbol && symbol < first.saturating_add(held.symbol_count) {
                return Some(SectionPlace {
                    group,
                    file,
                    section,
                });
            }
        }
    }
    None
}

/// Adds the symbol that has the name of another one and a resolution, if the other one names no definition.
fn push_namesake(out: &mut Text, layout: &Layout, symbol: usize) {
    let symbols = layout.symbols.as_slice();
    if let Some(own) = symbols.get(symbol)
        && own.definition.is_none()
        && own.name.len() != 0
    {
        for (i, other) in symbols.iter().enumerate() {
            if i != symbol
                && other.resolution.is_some()
                && other.name.as_slice() == own.name.as_slice()
            {
                write!(
                    out,
                    "likely: /symbols/{symbol}/definition is not given, expected {i}: "
                );
                out.push_str("that symbol has the same name and a resolution\n");
                return;
            }
        }
    }
}

/// Adds that the input section of a symbol has no place in the output for it.
fn push_symbol_without_place(out: &mut Text, layout: &Layout, symbol: usize) {
    if let Some(at) = place_of_symbol(layout, symbol)
        && let Some(section) = section_at(layout, at)
    {
        let item = Item::Input(at);
        match section.slot {
            Slot::Discard => {
                let text =
                    "is `discard`, and the symbol is in that input section, which is left out";
                return push_hint(out, LIKELY, item, "/slot", text);
            }
            Slot::Merge => {
                let text =
                    "has no item at or before the offset of the reference: the symbol is in that input section, whose strings are merged";
                return push_hint(out, LIKELY, item, "/strings", text);
            }
            _ => {}
        }
    }
}

/// Adds what likely made a symbol lack what a relocation takes.
pub(crate) fn push_lacking(out: &mut Text, layout: &Layout, fault: Fault) {
    let Fault::MissingResolution { what, symbol } = fault else {
        return;
    };
    push_namesake(out, layout, symbol);
    if let Missing::Address = what {
        push_symbol_without_place(out, layout, symbol);
    }
    if matches!(what, Missing::Stub | Missing::Slot) && !layout.options.relax {
        let text =
            "is false: with it, references to a symbol of the output need no stub and no slot";
        push_hint(out, LIKELY, Item::Plan, "/options/relax", text);
    }
}
