//! Tests of thunks and of their addresses.

use crate::items::{Item, SectionPlace};
use crate::tests::ThunkTest;
use crate::verdict::{Finding, due, plain};
use wild_slot::page_of;
use wild_types::{At, Group, Layout, Thunk};

/// The bytes of a thunk.
const THUNK_SIZE: u64 = 12;

/// Whether a layout has thunks.
pub(crate) fn has_thunks(layout: &Layout) -> bool {
    for block in layout.thunk_blocks.as_slice() {
        if block.len() != 0 {
            return true;
        }
    }
    false
}

/// The first thunk whose symbol is not there, or for the other test does not come after that of the one before.
fn first_wrong(layout: &Layout, thunks: &[Thunk], test: &ThunkTest) -> Option<usize> {
    let mut low: usize = 0;
    for (i, thunk) in thunks.iter().enumerate() {
        let is_wrong = match test {
            ThunkTest::Symbol => thunk.symbol.0 >= layout.symbols.len(),
            _ => thunk.symbol.0 < low,
        };
        if is_wrong {
            return Some(i);
        }
        low = thunk.symbol.0.saturating_add(1);
    }
    None
}

/// Whether a file owns the block of that number.
fn is_owned(layout: &Layout, block: usize) -> bool {
    for group in layout.groups.as_slice() {
        for file in group.files.as_slice() {
            if file.owns_thunk_block && file.thunk_block == block {
                return true;
            }
        }
    }
    false
}

/// The first thunk of a group that is not the next free place, or the first input section that begins before that; the group's range of
/// the primary part is from `start` to `end`.
fn misplaced_in(
    layout: &Layout,
    group: usize,
    held: &Group,
    start: u64,
    end: u64,
) -> Option<Finding> {
    let mut next = start;
    for (file, held) in held.files.as_slice().iter().enumerate() {
        for (section, input) in held.sections.as_slice().iter().enumerate() {
            if input.part == layout.primary_part && input.has_range_bytes(layout) {
                if input.address < next {
                    let item = Item::Input(SectionPlace {
                        group,
                        file,
                        section,
                    });
                    let verdict = due(true, next);
                    return Some(Finding { item, verdict });
                }
                next = input.address.saturating_add(input.size);
            }
        }
        for (i, thunk) in layout.thunks_of(held).iter().enumerate() {
            let place = next.saturating_add(3) / 4 * 4;
            next = place.saturating_add(THUNK_SIZE);
            if thunk.address != place || end < next {
                let item = Item::Thunk(held.thunk_block, i);
                let verdict = due(true, place);
                return Some(Finding { item, verdict });
            }
        }
    }
    None
}

/// The same for all groups.
fn first_misplaced(layout: &Layout) -> Option<Finding> {
    let part = layout.primary_part;
    let mut start = layout.parts.as_slice().get(part)?.address;
    for (i, group) in layout.groups.as_slice().iter().enumerate() {
        let end = start.saturating_add(group.given(part));
        let found = misplaced_in(layout, i, group, start, end);
        if found.is_some() {
            return found;
        }
        start = end;
    }
    None
}

/// The thunk, or the input section, that fails a test of a clause that fails at an index.
pub(crate) fn find_thunk(layout: &Layout, index: usize, test: &ThunkTest) -> Option<Finding> {
    if let ThunkTest::Place = test {
        return first_misplaced(layout);
    }
    let thunks = layout.thunk_blocks.as_slice().get(index)?.as_slice();
    let found = match test {
        ThunkTest::Symbol | ThunkTest::Order => first_wrong(layout, thunks, test)?,
        ThunkTest::BlockFile if is_owned(layout, index) => return None,
        ThunkTest::Any if !layout.kind.is_partial_link() || thunks.is_empty() => return None,
        _ => 0,
    };
    Some(Finding {
        item: Item::Thunk(index, found),
        verdict: plain(true),
    })
}

/// How far the page of a thunk's target is from its own, modulo 2^64. The target is the stub of its symbol, or without one its address.
fn pages_apart(layout: &Layout, thunk: &Thunk) -> Option<u64> {
    let definition = layout.canonical(thunk.symbol);
    let found = layout.symbols.as_slice().get(definition.0)?;
    let address = layout.raw_value(thunk.symbol);
    let target = match found.resolution {
        Some(resolution) => resolution.plt_address.or(address)?,
        None => address?,
    };
    Some(page_of(target).wrapping_sub(page_of(thunk.address)))
}

/// The first thunk that the file at a place writes whose target is so far away.
pub(crate) fn refused_thunk(layout: &Layout, at: At, value: u64) -> Option<Item> {
    let group = layout.groups.as_slice().get(at.group?)?;
    let file = group.files.as_slice().get(at.file?)?;
    for (i, thunk) in layout.thunks_of(file).iter().enumerate() {
        if pages_apart(layout, thunk) == Some(value) {
            return Some(Item::Thunk(file.thunk_block, i));
        }
    }
    None
}

/// The thunk of a group that has the address, and the offset of the address in it.
pub(crate) fn thunk_with(layout: &Layout, group: usize, address: u64) -> Option<(Item, u64)> {
    let found = layout.groups.as_slice().get(group)?;
    for file in found.files.as_slice() {
        for (i, thunk) in layout.thunks_of(file).iter().enumerate() {
            let behind = address.checked_sub(thunk.address);
            if let Some(byte) = behind
                && byte < THUNK_SIZE
            {
                return Some((Item::Thunk(file.thunk_block, i), byte));
            }
        }
    }
    None
}
