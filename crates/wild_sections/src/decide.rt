//! Decides each relocation of an item: one whose instruction a row rewrites, the call that is part of a rewritten sequence (nothing is
//! written for it), and any other.
ghost use Rattle.std.specs.Prelude.{◌≡◌, ◌<◌, length, Ok};
ghost use Rattle.wild_layout.specs.Decide.{place_to, value_to, term_to, rewritten_decision, refused_sequence, decide};
ghost use Rattle.wild_types.specs.Item.{item_now};

use crate::choice::{choice, is_partner};
use crate::relocation::decided;
use crate::resolve::{term_at, value_in};
use crate::thunk::field_or_thunk;
use crate::values::Resolved;
use wild_layout::Decision;
use wild_relax::{Arch, Row, UnknownSequence};
use wild_reloc::{RelocationKind, RelocationKindInfo};
use wild_types::{Fault, InputRelocation, ItemRef};

/// P of a rewritten instruction, modulo 2^64: the address of its field. The row rewrites from `row.back()` bytes before the relocation's
/// offset, and its field begins `row.field()` bytes after that.
fn place_to(item: &ItemRef, relocation: &InputRelocation, row: Row) -> u64
    ensures { result ≡ place_to (item_now item.now) relocation.now row }
{
    let offset = relocation.offset.saturating_sub(row.back()) as u128 + row.field() as u128;
    ((item.address as u128 + offset) % (1 << 64)) as u64
}

/// Writes the row's value at the field's new place. A row that keeps the instruction's bytes writes the field only.
fn value_to<A: Arch>(
    resolved: &Resolved<A>,
    item: &ItemRef,
    relocation: &InputRelocation,
    row: Row,
    term: u64,
) -> Result<Decision, Fault>
    ensures { result ≡ value_to resolved.now.layout.now (item_now item.now) relocation.now row (Ok term) }
{
    let info = row.row_written();
    let value = value_in(
        resolved.layout,
        &info,
        term,
        row.addend_written(relocation.addend),
        place_to(item, relocation, row),
    );
    if row.keeps_bytes() {
        field_or_thunk(resolved, item, relocation, &info, value)
    } else if info.allows(value) {
        Ok(Decision::Rewritten { row, value })
    } else {
        Err(Fault::OutOfRange { value })
    }
}

/// The term of the written instruction's formula at that place; 0 if the formula has no value.
fn term_to<A: Arch>(
    resolved: &Resolved<A>,
    relocation: &InputRelocation,
    info: &RelocationKindInfo,
    place: u64,
) -> Result<u64, Fault>
    ensures { result ≡ term_to resolved.now.layout.now relocation.now info.now place }
{
    match info.kind {
        RelocationKind::None => Ok(0),
        _ => term_at(resolved, relocation, info, place),
    }
}

/// Decides a relocation whose instruction a row rewrites.
fn rewritten_decision<A: Arch>(
    resolved: &Resolved<A>,
    item: &ItemRef,
    relocation: &InputRelocation,
    row: Row,
) -> Result<Decision, Fault>
    ensures { result ≡ rewritten_decision resolved.now.layout.now (item_now item.now) relocation.now row }
{
    let place = place_to(item, relocation, row);
    let term = term_to(resolved, relocation, &row.row_written(), place)?;
    value_to(resolved, item, relocation, row, term)
}

/// Refuses a relocation whose sequence is unknown. A fault of the symbol is reported first.
fn refused_sequence<A: Arch>(
    resolved: &Resolved<A>,
    item: &ItemRef,
    relocation: &InputRelocation,
    unknown: UnknownSequence,
) -> Result<Decision, Fault>
    ensures { result ≡ refused_sequence resolved.now.layout.now (item_now item.now) relocation.now unknown }
{
    let place = relocation.place_from(item.address);
    term_to(resolved, relocation, &unknown.written, place)?;
    Err(Fault::UnknownSequence {
        number: unknown.number,
    })
}

/// Decides a relocation of an item.
#[tactic(auto, unfolding(wild_layout::specs::Decide::decide))]
pub(crate) fn decide<A: Arch>(
    resolved: &Resolved<A>,
    item: &ItemRef,
    index: usize,
) -> Result<Decision, Fault>
    requires index { index < length item.now.relocations.now }
    ensures { result ≡ decide resolved.now.layout.now (item_now item.now) index }
{
    if is_partner(resolved, item, index) {
        return Ok(Decision::Partner);
    }
    let relocations = item.relocations;
    let relocation = &relocations[index];
    match choice(resolved, item, index) {
        Ok(None) => decided(resolved, item, relocation),
        Ok(Some(row)) => rewritten_decision(resolved, item, relocation, row),
        Err(unknown) => refused_sequence(resolved, item, relocation, unknown),
    }
}
