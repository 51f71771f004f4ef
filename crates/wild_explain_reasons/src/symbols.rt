//! Tests of symbols: their indexes, their slots and stubs, their positions in the dynamic symbol table, and their flags.

use crate::headers::first_of;
use crate::tests::SymbolTest;
use crate::verdict::{Verdict, due, plain};
use wild_needs::{dynsym_of, is_undefined_entry};
use wild_slot::{STUB_SIZE, SymbolSlots, WORD_SIZE, WordPart, begins_relr_got, count_words};
use wild_types::{Layout, Place, Role, Symbol, SymbolIndex, got_of, has_thread_slot, plt_of};

/// The address of the part of a role; 0 if there is none.
fn start_of(layout: &Layout, role: Role) -> u64 {
    match first_of(layout, role) {
        Some((_, part)) => part.address,
        None => 0,
    }
}

/// The address after the reserved words of `got`.
pub(crate) fn offset_after_reserved(layout: &Layout) -> u64 {
    start_of(layout, Role::Got).saturating_add(layout.got_header.saturating_mul(8))
}

/// The next free word of `got` and of `got_relr`, and the next free stub of `plt_got`, before a symbol's slots are assigned; none if no
/// file writes them.
fn free_at(layout: &Layout, index: usize) -> Option<(u64, u64, u64)> {
    let pair = if layout.tlsld.is_some() { 16 } else { 0 };
    let relr = layout.options.relr;
    let mut got = offset_after_reserved(layout).saturating_add(pair);
    let mut block = start_of(layout, Role::GotRelr);
    let mut stub = start_of(layout, Role::PltGot);
    for group in layout.groups.as_slice() {
        for file in group.files.as_slice() {
            let first = file.first_symbol.0;
            for (i, symbol) in layout.own_symbols(file).iter().enumerate() {
                if first.saturating_add(i) == index {
                    return Some((got, block, stub));
                }
                if got_of(symbol).is_some() {
                    let slots = SymbolSlots::of(layout, symbol);
                    let place = symbol.slots_address();
                    let words = count_words(WordPart::Got, relr, place, slots.words());
                    let packed = count_words(WordPart::RelrGot, relr, place, slots.words());
                    let size = if slots.has_stub() { STUB_SIZE } else { 0 };
                    got = got.saturating_add((WORD_SIZE * words) as u64);
                    block = block.saturating_add((WORD_SIZE * packed) as u64);
                    stub = stub.saturating_add(size as u64);
                }
            }
        }
    }
    None
}

/// Whether an address that a symbol has is not the expected one.
fn astray(found: Option<u64>, expected: u64) -> Verdict {
    match found {
        Some(address) => due(address != expected, expected),
        None => plain(false),
    }
}

/// Whether the slots and the stub of a symbol fail a test.
fn test_slots(layout: &Layout, index: usize, symbol: &Symbol, test: &SymbolTest) -> Verdict {
    let got = got_of(symbol);
    let Some((free_got, free_block, free_stub)) = free_at(layout, index) else {
        let unwritten = matches!(test, SymbolTest::UnwrittenSlot);
        return plain(unwritten && got.is_some());
    };
    match test {
        SymbolTest::Slot if begins_relr_got(SymbolSlots::of(layout, symbol).words()) => {
            astray(got, free_block)
        }
        SymbolTest::Slot => astray(got, free_got),
        SymbolTest::Stub => astray(plt_of(symbol), free_stub),
        _ => plain(false),
    }
}

/// How many undefined entries the dynamic symbol table has, and the position of that of one symbol.
pub(crate) fn undefined_entries(layout: &Layout, symbol: usize) -> (usize, Option<usize>) {
    let mut count: usize = 0;
    let mut position = None;
    for group in layout.groups.as_slice() {
        for file in group.files.as_slice() {
            let first = file.first_symbol.0;
            for (i, given) in layout.symbols_of(file).iter().enumerate() {
                if is_undefined_entry(file.role, given) {
                    count = count.saturating_add(1);
                    if first.saturating_add(i) == symbol {
                        position = Some(count);
                    }
                }
            }
        }
    }
    (count, position)
}

/// The position of a symbol's entry in the dynamic symbol table.
pub(crate) fn position_of(layout: &Layout, symbol: usize) -> Option<usize> {
    let (count, position) = undefined_entries(layout, symbol);
    for (i, listed) in layout.dynsyms.as_slice().iter().enumerate() {
        if position.is_none() && listed.symbol.0 == symbol {
            return Some(count.saturating_add(1).saturating_add(i));
        }
    }
    position
}

/// Whether a symbol's input section is not there, or the symbol in no file's range.
fn is_in_no_section(layout: &Layout, index: usize, section: usize) -> bool {
    for group in layout.groups.as_slice() {
        for file in group.files.as_slice() {
            let first = file.first_symbol.0;
            if first <= index && index < first.saturating_add(file.symbol_count) {
                return section >= file.sections.len();
            }
        }
    }
    true
}

/// Whether the flags of a symbol fail a test.
fn test_flags(layout: &Layout, symbol: &Symbol, test: &SymbolTest) -> bool {
    let flags = symbol.flags;
    let stub = plt_of(symbol);
    let thread = has_thread_slot(flags);
    let got = got_of(symbol).is_some();
    match test {
        SymbolTest::DynamicOwn => flags.is_dynamic() && !flags.is_interposable(),
        SymbolTest::StubWithoutGot => stub.is_some() && !got,
        SymbolTest::TwoSeconds => {
            flags.needs_ifunc_got_for_address() && flags.needs_canonical_plt_got_for_address()
        }
        SymbolTest::ThreadStub => thread && (flags.is_ifunc() || stub.is_some()),
        SymbolTest::IfuncDynamic => flags.is_ifunc() && flags.is_dynamic(),
        SymbolTest::SlotWithoutFlag => got && !flags.needs_got() && !thread,
        SymbolTest::NoSlot => !got && (flags.needs_got() || thread),
        SymbolTest::GotThread => flags.needs_got() && thread,
        SymbolTest::IfuncAbsolute => flags.is_ifunc() && flags.is_absolute(),
        SymbolTest::Second => layout.options.relr,
        _ => true,
    }
}

/// Whether a symbol fails a test.
pub(crate) fn test_symbol(
    layout: &Layout,
    index: usize,
    symbol: &Symbol,
    test: &SymbolTest,
) -> Verdict {
    match test {
        SymbolTest::Definition => plain(match symbol.definition {
            Some(definition) => definition.0 >= layout.symbols.len(),
            None => false,
        }),
        SymbolTest::Output => plain(match symbol.place {
            Place::Output(section) => section.0 >= layout.sections.len(),
            _ => false,
        }),
        SymbolTest::SymbolFile => plain(match symbol.place {
            Place::Section(section) => is_in_no_section(layout, index, section),
            _ => false,
        }),
        SymbolTest::FinalDefinition => {
            let definition = layout.canonical(SymbolIndex(index));
            let next = layout.canonical(definition);
            due(next != definition, next.0 as u64)
        }
        SymbolTest::UnwrittenSlot | SymbolTest::Slot | SymbolTest::Stub => {
            test_slots(layout, index, symbol, test)
        }
        SymbolTest::Even => plain(match got_of(symbol) {
            Some(got) => got % 8 != 0,
            None => false,
        }),
        SymbolTest::Position => match (dynsym_of(symbol), position_of(layout, index)) {
            (Some(found), Some(position)) => due(found != position as u64, position as u64),
            (found, _) => plain(found.is_some()),
        },
        SymbolTest::StubValue => match (symbol.resolution, plt_of(symbol)) {
            (Some(found), Some(stub)) => {
                let is_asked = symbol.flags.is_dynamic() && !symbol.flags.needs_copy_relocation();
                due(is_asked && found.raw_value != stub, stub)
            }
            _ => plain(false),
        },
        SymbolTest::PartialSlot => {
            let is_slotted = got_of(symbol).is_some() || plt_of(symbol).is_some();
            plain(layout.kind.is_partial_link() && is_slotted)
        }
        SymbolTest::PartialIndex => {
            plain(layout.kind.is_partial_link() && dynsym_of(symbol).is_some())
        }
        SymbolTest::Name => plain(symbol.name.as_slice().contains(&0)),
        _ => plain(test_flags(layout, symbol, test)),
    }
}
