//! Branches, which use thunks if their targets are out of range ("ELF for the Arm 64-bit Architecture", "Call and Jump
//! relocations").
ghost use Rattle.std.specs.Prelude.{◌≡◌, ◌<◌, ◌≤◌, All, length};
ghost use Rattle.wild_types.specs.Item.{item_now};
ghost use Rattle.wild_types.specs.Lookups.{place_of};
ghost use Rattle.wild_layout.specs.SymbolValues.{minus};
ghost use Rattle.wild_layout.specs.Thunks.{Ascend, thunk_of, uses_definition, thunk_for};
ghost use Rattle.wild_layout.specs.Decide.{thunk_field, field_by_thunk, field_or_thunk};

use crate::indirect::resolution_of;
use crate::relocation::{addend_bits, field};
use crate::resolve::minus;
use crate::values::Resolved;
use wild_layout::Decision;
use wild_relax::Arch;
use wild_reloc::RelocationKindInfo;
use wild_types::{Fault, InputRelocation, ItemRef, Layout, SymbolIndex, Thunk};

/// The half of two or more thunks that has the thunk of a symbol, if there is one.
fn half_of(thunks: &[Thunk], symbol: SymbolIndex) -> &[Thunk]
    requires some { 2 ≤ length thunks.now }
    requires order { Ascend thunks.now }
    ensures order { Ascend result.now }
    ensures same { thunk_of symbol result.now ≡ thunk_of symbol thunks.now }
    ensures shorter { length result.now < length thunks.now }
{
    let (front, back) = thunks.split_at(thunks.len() / 2);
    let middle = back[0];
    if middle.symbol.0 <= symbol.0 {
        back
    } else {
        front
    }
}

/// The thunk of a symbol among these.
fn thunk_of(thunks: &[Thunk], symbol: SymbolIndex) -> Option<Thunk>
    requires { Ascend thunks.now }
    ensures { result ≡ thunk_of symbol thunks.now }
{
    let mut rest = thunks;
    while rest.len() > 1 {
        rest = half_of(rest, symbol);
    }
    match rest.first() {
        Some(thunk) if thunk.symbol == symbol => Some(*thunk),
        _ => None,
    }
}

/// Whether references to a symbol use its definition's resolution.
fn uses_definition(layout: &Layout, symbol: SymbolIndex) -> bool
    ensures { result ≡ uses_definition layout.now symbol }
{
    layout.canonical(symbol) == symbol || resolution_of(layout, symbol).is_some()
}

/// The thunk of a block for branches to a symbol.
fn thunk_for(layout: &Layout, block: usize, symbol: Option<SymbolIndex>) -> Option<Thunk>
    requires { All Ascend layout.now.thunk_blocks }
    ensures { result ≡ thunk_for layout.now block symbol }
{
    let symbol = symbol?;
    if uses_definition(layout, symbol) {
        thunk_of(layout.block_of(block), layout.canonical(symbol))
    } else {
        None
    }
}

/// The distance to a thunk, in the field of a branch. An addend other than 0 is refused.
fn thunk_field(
    relocation: &InputRelocation,
    row: &RelocationKindInfo,
    distance: u64,
) -> Result<Decision, Fault>
    ensures { result ≡ thunk_field relocation.now row.now distance }
{
    if !row.range.contains(distance) {
        return Err(Fault::ThunkOutOfRange { value: distance });
    }
    if addend_bits(relocation) != 0 {
        return Err(Fault::ThunkAddend {
            addend: relocation.addend,
        });
    }
    field(row, distance)
}

/// The distance to the thunk of a branch whose target is out of range. Fails if there is no thunk.
#[inline(never)]
fn field_by_thunk(
    layout: &Layout,
    item: &ItemRef,
    relocation: &InputRelocation,
    row: &RelocationKindInfo,
    value: u64,
) -> Result<Decision, Fault>
    requires { All Ascend layout.now.thunk_blocks }
    ensures { result ≡ field_by_thunk relocation.now row.now (place_of item.now.address relocation.now) value (thunk_for layout.now item.now.thunk_block relocation.now.symbol) }
{
    match thunk_for(layout, item.thunk_block, relocation.symbol) {
        Some(thunk) => {
            let place = relocation.place_from(item.address);
            thunk_field(relocation, row, minus(thunk.address, place))
        }
        None => Err(Fault::NoThunk { value }),
    }
}

/// A value in the field of a row. A branch whose target is out of range uses a thunk.
#[inline]
#[tactic(auto, unfolding(wild_layout::specs::Decide::field_or_thunk))]
pub(crate) fn field_or_thunk<A: Arch>(
    resolved: &Resolved<A>,
    item: &ItemRef,
    relocation: &InputRelocation,
    row: &RelocationKindInfo,
    value: u64,
) -> Result<Decision, Fault>
    ensures { result ≡ field_or_thunk resolved.now.layout.now (item_now item.now) relocation.now row.now value }
{
    if row.thunkable && !row.range.contains(value) {
        field_by_thunk(resolved.layout, item, relocation, row, value)
    } else {
        field(row, value)
    }
}
