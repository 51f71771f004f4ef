//! What needs a table: the first item of a plan for which bytes are written in a part of a role, and the members on which that depends.

use crate::faults::push_relocation;
use crate::hints::{LIKELY, push_hint};
use crate::items::{Item, SectionPlace, push_decided, push_item, section_at};
use crate::names::role_at;
use crate::text::Text;
use wild_needs::total_share;
use wild_slot::{
    EntryPart, SymbolSlots, Treatment, WordPart, begins_relr_got, count_entries, count_relr_slots,
    count_words, treatment_of,
};
use wild_types::{
    InputRelocation, InputSection, Layout, Place, Role, Slot, Symbol, SymbolIndex, got_of, is_there,
};

/// The members on which the bytes of a role depend.
fn depends_on(role: Role) -> &'static str {
    match role {
        Role::ProgramHeaders => "/segments, which has items: a relocatable object has none",
        Role::Got | Role::GotRelr =>
            "the flags GOT, GOT_TLS_OFFSET, GOT_TLS_MODULE and GOT_TLS_DESCRIPTOR of its definition, and /tlsld",
        Role::PltGot => "the flag PLT of its definition",
        Role::RelaPlt => "the flags PLT and IFUNC of its definition",
        Role::RelaDynRelative =>
            "an address that moves with the base (not with the flag ABSOLUTE, nor with DYNAMIC where another module defines the symbol); with /options/relr one at an even place is packed in relr_dyn",
        Role::RelaDynGeneral =>
            "a symbol that another module may define (not with the flag NON_INTERPOSABLE at its definition)",
        Role::RelrDyn =>
            "/options/relr, and an address that moves with the base (not with the flag ABSOLUTE)",
        Role::Dynsym | Role::Dynstr | Role::Dynamic =>
            "/kind: an output that a loader relocates has dynamic tables",
        Role::GnuVersion => "/options/versions",
        Role::GnuVersionD => "/verdefs",
        Role::GnuVersionR => "`verneed` of a library",
        Role::SysvHash => "/sysv_hash",
        Role::GnuHash => "/gnu_hash",
        Role::EhFrame =>
            "an input section of slot `frame` (in a relocatable object frames have slot `loaded`), and /options/terminator",
        Role::EhFrameHdr => "/options/eh_frame_hdr",
        Role::Interp => "/interp",
        Role::BuildId => "/build_id",
        Role::Property => "/properties",
        Role::SymtabLocal | Role::SymtabGlobal | Role::Strtab =>
            "/options/strip_all: without it the output has a table of symbols, and a relocatable object has one in any case",
        Role::SymtabShndxLocal | Role::SymtabShndxGlobal =>
            "the number of sections, which is above 65279",
        _ => "each output has it",
    }
}

/// Whether a relocation needs bytes in a part of a role.
fn is_relocation_of(
    layout: &Layout,
    section: &InputSection,
    relocation: &InputRelocation,
    role: Role,
) -> bool {
    let place = relocation.place_from(section.address);
    match treatment_of(layout, section.flags, relocation) {
        Treatment::BaseRelative => match role {
            Role::RelaDynRelative => !layout.packs(place),
            Role::RelrDyn => layout.packs(place),
            _ => false,
        },
        Treatment::Symbolic(_) | Treatment::Indirect(_) | Treatment::Extent(_, _) => {
            matches!(role, Role::RelaDynGeneral)
        }
        _ => false,
    }
}

/// The first relocation of a section that needs bytes in a part of a role.
fn first_relocation(layout: &Layout, section: &InputSection, role: Role) -> Option<usize> {
    let is_read = matches!(section.slot, Slot::Loaded | Slot::Sorted) && !section.nobits;
    for (i, relocation) in section.relocations.as_slice().iter().enumerate() {
        if is_read && is_relocation_of(layout, section, relocation, role) {
            return Some(i);
        }
    }
    None
}

/// Whether the slots or the stub of a symbol need bytes in a part of a role.
fn is_symbol_of(layout: &Layout, symbol: &Symbol, role: Role) -> bool {
    if got_of(symbol).is_none() {
        return false;
    }
    let slots = SymbolSlots::of(layout, symbol);
    let (words, place) = (slots.words(), symbol.slots_address());
    let (relr, machine) = (layout.options.relr, layout.machine);
    match role {
        Role::Got => count_words(WordPart::Got, relr, place, words) != 0,
        Role::GotRelr => count_words(WordPart::RelrGot, relr, place, words) != 0,
        Role::PltGot => slots.has_stub(),
        Role::RelaPlt => count_entries(EntryPart::Plt, machine, relr, place, words) != 0,
        Role::RelaDynRelative => {
            count_entries(EntryPart::Relative, machine, relr, place, words) != 0
        }
        Role::RelaDynGeneral => count_entries(EntryPart::General, machine, relr, place, words) != 0,
        Role::RelrDyn => count_relr_slots(relr, place, words) != 0 || begins_relr_got(words),
        _ => false,
    }
}

/// The first item that needs bytes in a part of a role, with the number of its relocation.
fn first_demand(layout: &Layout, role: Role) -> Option<(Item, Option<usize>)> {
    for (group, found) in layout.groups.as_slice().iter().enumerate() {
        for (file, held) in found.files.as_slice().iter().enumerate() {
            for (section, input) in held.sections.as_slice().iter().enumerate() {
                let at = SectionPlace {
                    group,
                    file,
                    section,
                };
                let index = first_relocation(layout, input, role);
                if index.is_some() || matches!(role, Role::EhFrame) && input.slot.is_frame() {
                    return Some((Item::Input(at), index));
                }
            }
            if matches!(role, Role::RelaDynGeneral) && held.copied().len() != 0 {
                return Some((Item::File(group, file), None));
            }
            for (i, symbol) in layout.own_symbols(held).iter().enumerate() {
                if is_symbol_of(layout, symbol, role) {
                    let number = held.first_symbol.0.saturating_add(i);
                    return Some((Item::Symbol(number), None));
                }
            }
        }
    }
    None
}

/// Adds an item that needs bytes: its path, and a relocation or a symbol as it is.
fn push_demanding(out: &mut Text, layout: &Layout, item: Item, index: Option<usize>) {
    push_item(out, item);
    match (item, index) {
        (Item::Input(at), Some(index)) => {
            write!(out, "/relocations/{index}, ");
            if let Some(section) = section_at(layout, at) {
                push_relocation(out, layout, section, index);
            }
        }
        (Item::Symbol(symbol), _) => {
            out.push_str(", ");
            push_decided(out, layout, symbol);
        }
        (Item::File(_, _), _) => out.push_str("/copies"),
        _ => out.push_str("/slot"),
    }
}

/// Adds the option that a part of RELR words needs.
fn push_packed(out: &mut Text, layout: &Layout) {
    let parts = layout.parts.as_slice();
    let has_part = is_there(Role::RelrDyn, parts) || is_there(Role::GotRelr, parts);
    if has_part && !layout.options.relr {
        let text = "is false, expected true: a part has the role relr_dyn or got_relr";
        push_hint(out, LIKELY, Item::Plan, "/options/relr", text);
    }
}

/// The symbol that an item refers to: the symbol itself, or the definition of the symbol of its relocation.
fn symbol_of(layout: &Layout, item: Item, index: Option<usize>) -> Option<SymbolIndex> {
    match item {
        Item::Symbol(symbol) => Some(layout.canonical(SymbolIndex(symbol))),
        Item::Input(at) => {
            let section = section_at(layout, at)?;
            let relocation = section.relocations.as_slice().get(index?)?;
            Some(layout.canonical(relocation.symbol?))
        }
        _ => None,
    }
}

/// Adds the flag that the symbol of an item likely lacks.
fn push_flags(out: &mut Text, layout: &Layout, role: Role, item: Item, index: Option<usize>) {
    if let Some(symbol) = symbol_of(layout, item, index)
        && let Some(found) = layout.symbols.as_slice().get(symbol.0)
        && !found.flags.is_dynamic()
    {
        let item = Item::Symbol(symbol.0);
        if matches!(found.place, Place::Undefined) && !found.flags.is_undefined_weak() {
            let text =
                "is without DYNAMIC, and the symbol is undefined: expected where another module defines it";
            push_hint(out, LIKELY, item, "/flags", text);
        } else if matches!(role, Role::RelaDynGeneral) && found.flags.is_interposable() {
            let text =
                "is without NON_INTERPOSABLE: expected where no other module may define the symbol";
            push_hint(out, LIKELY, item, "/flags", text);
        }
    }
}

/// Adds the role of the part of frames, or their slot in a relocatable object.
fn push_frame_part(out: &mut Text, layout: &Layout, item: Item) {
    if let Item::Input(at) = item
        && let Some(section) = section_at(layout, at)
        && section.slot.is_frame()
    {
        if layout.kind.is_partial_link() {
            let text =
                "is `frame`, expected `loaded`: a relocatable object keeps frames as they are";
            return push_hint(out, LIKELY, item, "/slot", text);
        }
        let text = "is expected to be eh_frame: it is the part of a section of slot `frame`";
        return push_hint(out, LIKELY, Item::Part(section.part), "/role", text);
    }
}

/// Adds what needs a table that has no part: the first item, the members on which that depends, and the other tables without a part.
pub(crate) fn push_demand(out: &mut Text, layout: &Layout, index: usize) {
    let Some((_, role)) = role_at(index) else {
        return;
    };
    let text = depends_on(role);
    let demand = first_demand(layout, role);
    out.push_str("needed: ");
    if let Some((item, relocation)) = demand {
        out.push_str("for ");
        push_demanding(out, layout, item, relocation);
        out.push_str("; ");
    }
    writeln!(out, "it depends on {text}");
    if let Some((item, relocation)) = demand {
        push_flags(out, layout, role, item, relocation);
        push_frame_part(out, layout, item);
    }
    push_packed(out, layout);
    for i in index.saturating_add(1)..30 {
        if let Some((word, other)) = role_at(i)
            && !is_there(other, layout.parts.as_slice())
        {
            let needed = total_share(layout, other);
            if needed != 0 {
                writeln!(
                    out,
                    "also: no part has the role {word}, needed {needed} bytes"
                );
            }
        }
    }
}
