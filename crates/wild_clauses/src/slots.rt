//! Clause 11: addresses of slots and stubs.
ghost use Rattle.std.specs.Prelude.{◌≡◌, ◌+◌, ◌-◌, ◌*◌, ◌^◌, ◌<◌, ◌≤◌, length, slice_range, Ok, IfOk};
ghost use Rattle.wild_types.specs.Lists.{first_failing};
ghost use Rattle.wild_plan_rules.specs.SlotPlaces.{start_of, IsBounded, first_free, is_free_place, has_next_places, free_after, walk, symbol_step, step_without_slot, slot_before, file_step, group_step, slots_astray, has_no_places};
ghost use Rattle.wild_slot.specs.SlotParts.{begins_relr_got};
ghost use Rattle.wild_types.specs.SymbolSlots.{lacks_slots};
ghost use Rattle.wild_clauses.specs.Survey.{are_simple};
ghost use Rattle.wild_plan_rules.specs.ClauseTests.{check_indexes, check_slots};

use crate::slot_parts::{BlockHasBase, BlockNeedsRelr, SlotIsEven};
use crate::survey::failing;
use crate::verdict::{fails, unless};
use wild_needs::pair_words;
use wild_plan_rules::SlotCursor;
use wild_slot::{
    STUB_SIZE, SlotWord, SymbolSlots, WORD_SIZE, WordPart, begins_relr_got, count_words,
};
use wild_types::{
    Clause, File, Group, LacksSlots, Layout, Role, Symbol, Test, all_pass, first_failing, got_of,
    lacks_slots, part_with, plt_of,
};

/// The address of the part of a role; 0 without such a part.
fn start_of(layout: &Layout, role: Role) -> u64
    ensures { result ≡ start_of layout.now role }
{
    match part_with(role, layout.parts.as_slice()) {
        Some(part) => part.address,
        None => 0,
    }
}

/// The place after a number of words from an address on.
fn address_after_words(address: u64, count: u64) -> u128
    ensures is { result ≡ address + 8 * count }
    ensures few { result ≤ 2 ^ 68 }
{
    u128::from(address) + WORD_SIZE as u128 * u128::from(count)
}

/// The free places after the reserved words and the module pair.
fn first_free(layout: &Layout) -> SlotCursor
    ensures is { result ≡ first_free layout.now }
    ensures small { IsBounded result }
{
    let reserved = address_after_words(start_of(layout, Role::Got), layout.got_header);
    SlotCursor {
        got: reserved + WORD_SIZE as u128 * u128::from(pair_words(layout)),
        block: u128::from(start_of(layout, Role::GotRelr)),
        stub: u128::from(start_of(layout, Role::PltGot)),
        symbol: 0,
    }
}

/// Whether an address, if there is one, is the free one.
fn is_free_place(free: u128, address: Option<u64>) -> bool
    ensures { result ≡ is_free_place free address }
{
    match address {
        Some(address) => u128::from(address) == free,
        None => true,
    }
}

/// Whether the slots of a symbol are the next free words, and its stub is the next free stub.
fn has_next_places(layout: &Layout, next: SlotCursor, symbol: &Symbol) -> bool
    ensures { result ≡ has_next_places layout.now next symbol.now }
{
    let free = if begins_relr_got(SymbolSlots::of(layout, symbol).words()) {
        next.block
    } else {
        next.got
    };
    is_free_place(free, got_of(symbol)) && is_free_place(next.stub, plt_of(symbol))
}

/// The free places after those of a symbol.
fn free_after(layout: &Layout, next: SlotCursor, symbol: &Symbol) -> SlotCursor
    requires small { IsBounded next }
    requires few { next.symbol < 2 ^ 64 - 1 }
    ensures is { result ≡ free_after layout.now next symbol.now }
    ensures small { IsBounded result }
{
    let slots = SymbolSlots::of(layout, symbol);
    let relr = layout.options.relr;
    let place = symbol.slots_address();
    let got = WORD_SIZE * count_words(WordPart::Got, relr, place, slots.words());
    let block = WORD_SIZE * count_words(WordPart::RelrGot, relr, place, slots.words());
    let stub = if slots.has_stub() { STUB_SIZE } else { 0 };
    SlotCursor {
        got: next.got + got as u128,
        block: next.block + block as u128,
        stub: next.stub + stub as u128,
        symbol: next.symbol + 1,
    }
}

/// The free places after a symbol without a slot, or its number if it has a stub that is not the next free one.
fn pass_without_slot(next: SlotCursor, symbol: &Symbol) -> Result<SlotCursor, usize>
    requires { next.symbol < 2 ^ 64 - 1 }
    ensures { result ≡ step_without_slot next symbol.now }
{
    if !is_free_place(next.stub, plt_of(symbol)) {
        return Err(next.symbol);
    }
    Ok(SlotCursor {
        symbol: next.symbol + 1,
        ..next
    })
}

/// The free places after a symbol, or its number if its slots or stub are not the next free ones.
#[tactic(auto, using(wild_plan_rules::proofs::SlotPlaceLemmas::step_without))]
fn symbol_step(layout: &Layout, next: SlotCursor, symbol: &Symbol) -> Result<SlotCursor, usize>
    requires small { IsBounded next }
    requires few { next.symbol < 2 ^ 64 - 1 }
    ensures is { result ≡ symbol_step layout.now next symbol.now }
    ensures small { IfOk result IsBounded }
    ensures next { IfOk result (λ n. n.symbol ≡ next.symbol + 1) }
{
    if lacks_slots(symbol) {
        pass_without_slot(next, symbol)
    } else if has_next_places(layout, next, symbol) {
        Ok(free_after(layout, next, symbol))
    } else {
        Err(next.symbol)
    }
}

/// The free places after some symbols, or the first whose slots or stub are not the next free ones.
#[tactic(auto, unfolding(wild_plan_rules::specs::SlotPlaces::walk))]
fn walk_symbols(layout: &Layout, next: SlotCursor, symbols: &[Symbol]) -> Result<SlotCursor, usize>
    requires small { IsBounded next }
    requires few { next.symbol + length symbols.now < 2 ^ 64 }
    ensures is { result ≡ walk (symbol_step layout.now) next symbols.now }
    ensures small { IfOk result IsBounded }
{
    let mut next = next;
    for symbol in symbols {
        next = symbol_step(layout, next, symbol)?;
    }
    Ok(next)
}

/// The first symbol with a slot, of those from number `from` to number `to`.
fn slot_before(layout: &Layout, from: usize, to: usize) -> Option<usize>
    ensures { result ≡ first_failing lacks_slots from (slice_range layout.now.symbols from to) }
{
    let symbols = layout.symbols_from(from, to.saturating_sub(from));
    let found = first_failing(&LacksSlots, symbols)?;
    Some(from + found)
}

/// The free places after the symbols of a file; or the first symbol whose slots or stub are not the next free ones, or that has a
/// slot that no file writes.
fn file_step(layout: &Layout, next: SlotCursor, file: &File) -> Result<SlotCursor, usize>
    requires small { IsBounded next }
    ensures is { result ≡ file_step layout.now next file.now }
    ensures small { IfOk result IsBounded }
{
    if !file.role.writes_slots() || file.symbol_count == 0 {
        return Ok(next);
    }
    let first = file.first_symbol.0;
    if first < next.symbol {
        return Err(first);
    }
    if let Some(index) = slot_before(layout, next.symbol, first) {
        return Err(index);
    }
    let next = SlotCursor {
        symbol: first,
        ..next
    };
    walk_symbols(layout, next, layout.own_symbols(file))
}

/// The same for the files of a group.
#[tactic(auto, unfolding(wild_plan_rules::specs::SlotPlaces::walk))]
fn group_step(layout: &Layout, next: SlotCursor, group: &Group) -> Result<SlotCursor, usize>
    requires small { IsBounded next }
    ensures is { result ≡ group_step layout.now next group.now }
    ensures small { IfOk result IsBounded }
{
    let mut next = next;
    for file in group.files.as_slice() {
        next = file_step(layout, next, file)?;
    }
    Ok(next)
}

/// The same for all groups.
#[tactic(auto, unfolding(wild_plan_rules::specs::SlotPlaces::walk))]
fn walk_groups(layout: &Layout) -> Result<SlotCursor, usize>
    ensures { result ≡ walk (group_step layout.now) (first_free layout.now) layout.now.groups }
{
    let mut next = first_free(layout);
    for group in layout.groups.as_slice() {
        next = group_step(layout, next, group)?;
    }
    Ok(next)
}

/// A symbol has neither a slot nor a stub.
struct HasNoPlaces;

impl Test<Symbol> for HasNoPlaces {
    ghost test = { λ t. has_no_places };

    fn passes(&self, symbol: &Symbol) -> bool {
        lacks_slots(symbol) && plt_of(symbol).is_none()
    }
}

/// The first symbol whose slots or stub are not the next free ones, or that has a slot that no file writes. Files are visited only
/// if a symbol has a slot or a stub.
#[tactic(auto, using(crate::proofs::PlacelessLemmas::none_astray, crate::proofs::SimpleLemmas::simple_astray))]
fn slots_astray(layout: &Layout, simple: bool) -> Option<usize>
    requires indexes { check_indexes layout.now ≡ Ok tt }
    requires simple { simple ≡ are_simple layout.now.symbols }
    ensures { result ≡ slots_astray layout.now }
{
    if simple {
        return None;
    }
    if all_pass(&HasNoPlaces, layout.symbols.as_slice()) {
        return None;
    }
    match walk_groups(layout) {
        Ok(last) => slot_before(layout, last.symbol, layout.symbols.len()),
        Err(index) => Some(index),
    }
}

/// Requires that the indexes fit. If all symbols are simple, none is tested.
#[tactic(auto, using(crate::proofs::SimpleLemmas::simple_even), unfolding(wild_plan_rules::specs::ClauseTests::check_slots))]
pub(crate) fn check_slots(layout: &Layout, simple: bool) -> Result<(), Clause>
    requires indexes { check_indexes layout.now ≡ Ok tt }
    requires simple { simple ≡ are_simple layout.now.symbols }
    ensures { result ≡ check_slots layout.now }
{
    let symbols = layout.symbols.as_slice();
    let parts = layout.parts.as_slice();
    let reserved = address_after_words(start_of(layout, Role::Got), layout.got_header);
    fails(11, slots_astray(layout, simple))?;
    fails(11, failing(simple, &SlotIsEven, symbols))?;
    fails(11, first_failing(&BlockNeedsRelr { layout }, parts))?;
    fails(11, unless(is_free_place(reserved, layout.tlsld)))?;
    fails(11, first_failing(&BlockHasBase, parts))
}
