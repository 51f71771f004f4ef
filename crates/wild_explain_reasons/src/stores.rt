//! Places that a loader stores at, in memory that is not writable.

use crate::headers::first_of;
use crate::items::{Item, SectionPlace, push_item};
use crate::text::Text;
use std::alloc::{AllocError, Global};
use wild_records::abi::segment::{PF_W, PT_LOAD};
use wild_slot::{SlotWord, SymbolSlots, Treatment, begins_relr_got, treatment_of};
use wild_types::{File, InputSection, Layout, Role, SectionIndex, Segment, Slot, is_writable};

/// The loaded segments in their order, and what keeps a loader from storing in the parts `got` and `got_relr`.
#[derive(Drop)]
pub(crate) struct Barriers {
    pub(crate) loaded: Vec<(usize, Segment)>,
    got: Option<Item>,
    block: Option<Item>,
}

/// The last segment that begins at an address or before it. Segments ascend, so this is a binary search.
pub(crate) fn segment_at(loaded: &[(usize, Segment)], address: u64) -> Option<(usize, Segment)> {
    let mut found = None;
    let (mut low, mut high) = (0usize, loaded.len());
    for _ in 0..64 {
        if low >= high {
            break;
        }
        let middle = low.saturating_add(high.saturating_sub(low) / 2);
        match loaded.get(middle) {
            Some(segment) if segment.1.address <= address => {
                found = Some(*segment);
                low = middle.saturating_add(1);
            }
            _ => high = middle,
        }
    }
    found
}

/// The segment at an address of a section, or else the section, if it is not writable.
fn barrier_at(
    layout: &Layout,
    loaded: &[(usize, Segment)],
    section: SectionIndex,
    address: u64,
) -> Option<Item> {
    if let Some((i, segment)) = segment_at(loaded, address)
        && segment.flags & PF_W == 0
    {
        return Some(Item::Segment(i));
    }
    match layout.sections.as_slice().get(section.0) {
        Some(found) if !is_writable(found.flags) => Some(Item::Section(section.0)),
        _ => None,
    }
}

/// What keeps a loader from storing in the part of a role.
fn barrier_of(layout: &Layout, loaded: &[(usize, Segment)], role: Role) -> Option<Item> {
    let (_, part) = first_of(layout, role)?;
    barrier_at(layout, loaded, part.section, part.address)
}

impl Barriers {
    /// The barriers of a layout.
    pub(crate) fn of(alloc: Global, layout: &Layout) -> Result<Barriers, AllocError> {
        let mut loaded = Vec::new(alloc);
        for (i, segment) in layout.segments.as_slice().iter().enumerate() {
            if segment.kind == PT_LOAD {
                loaded.push((i, *segment))?;
            }
        }
        let got = barrier_of(layout, loaded.as_slice(), Role::Got);
        let block = barrier_of(layout, loaded.as_slice(), Role::GotRelr);
        Ok(Barriers { loaded, got, block })
    }
}

/// Adds what a loader stores, and what keeps it from that.
fn push_barrier(out: &mut Text, stored: Item, relocation: Option<usize>, barrier: Item) {
    out.push_str("advice: ");
    push_item(out, stored);
    match relocation {
        Some(index) => write!(out, "/relocations/{index}"),
        None => out.push_str("/resolution/got"),
    }
    out.push_str(" is stored at when the image is loaded, and ");
    push_item(out, barrier);
    let end = match barrier {
        Item::Segment(_) => "(flag 2, PF_W): that faults, but where /options/textrel is set",
        _ => "(flag 1, SHF_WRITE)",
    };
    writeln!(out, " is not writable {end}");
}

/// Adds the first symbol of a file with a slot that a loader stores in memory that is not writable.
pub(crate) fn push_slots(out: &mut Text, layout: &Layout, barriers: &Barriers, file: &File) {
    if layout.options.textrel || barriers.got.is_none() && barriers.block.is_none() {
        return;
    }
    for (i, symbol) in layout.own_symbols(file).iter().enumerate() {
        let slots = SymbolSlots::of(layout, symbol);
        let barrier = if begins_relr_got(slots.words()) {
            barriers.block
        } else {
            barriers.got
        };
        let mut is_stored = false;
        for word in slots.words() {
            is_stored = is_stored || !matches!(word, SlotWord::Number(_));
        }
        if let Some(barrier) = barrier
            && is_stored
        {
            let stored = Item::Symbol(file.first_symbol.0.saturating_add(i));
            return push_barrier(out, stored, None, barrier);
        }
    }
}

/// The first relocation of a section whose field a loader stores.
fn first_stored(layout: &Layout, section: &InputSection) -> Option<usize> {
    for (i, relocation) in section.relocations.as_slice().iter().enumerate() {
        if matches!(
            treatment_of(layout, section.flags, relocation),
            Treatment::BaseRelative
                | Treatment::Symbolic(_)
                | Treatment::Indirect(_)
                | Treatment::Extent(_, _)
        ) {
            return Some(i);
        }
    }
    None
}

/// Adds, for each section of a file except frames, the first relocation whose field a loader stores in memory that is not writable.
pub(crate) fn push_stores(
    out: &mut Text,
    layout: &Layout,
    barriers: &Barriers,
    at: (usize, usize),
    file: &File,
) {
    let (group, number) = at;
    for (i, section) in file.sections.as_slice().iter().enumerate() {
        let is_read = matches!(section.slot, Slot::Loaded | Slot::Sorted) && !section.nobits;
        let outer = layout.section_of(section.part);
        if is_read
            && !layout.options.textrel
            && let Some(barrier) = barrier_at(
                layout,
                barriers.loaded.as_slice(),
                outer,
                section.address,
            )
            && let Some(index) = first_stored(layout, section)
        {
            let stored = Item::Input(SectionPlace {
                group,
                file: number,
                section: i,
            });
            push_barrier(out, stored, Some(index), barrier);
        }
    }
}
