//! Decides a relocation whose instruction is not rewritten.
ghost use Rattle.std.specs.Prelude.{◌≡◌, true, false, None};
ghost use Rattle.wild_types.specs.Kinds.{is_position_independent};
ghost use Rattle.wild_types.specs.Rows.{row_of};
ghost use Rattle.wild_reloc.specs.declared.info.RelocationKind.TheVariants.{Relative};
ghost use Rattle.wild_layout.specs.SlotValues.{index_of, decided_address};
ghost use Rattle.wild_layout.specs.Merged.{address_for};
ghost use Rattle.wild_layout.specs.Values.{term_at};
ghost use Rattle.wild_types.specs.Lookups.{place_of};
ghost use Rattle.wild_slot.specs.Treatment.{row_that_accepts};
ghost use Rattle.wild_types.specs.declared.kind.Machine.TheVariants.{X86_64};
ghost use Rattle.wild_slot.specs.SlotParts.{type_of};
ghost use Rattle.wild_layout.specs.Decide.{field, field_or_thunk, field_for, relative_decision, dynamic_decision, size_decision, ifunc_decision, addend_bits, decided};
ghost use Rattle.wild_types.specs.Item.{item_now};

use crate::indirect::{decided_address, index_of};
use crate::resolve::{address_for, displacement, sum, symbol_size, term_at, value_in};
use crate::thunk::field_or_thunk;
use crate::values::Resolved;
use wild_layout::Decision;
use wild_relax::Arch;
use wild_reloc::{
    DynamicRelocationKind, RelocationKind, RelocationKindInfo, RelocationSize, Width,
};
use wild_slot::{Treatment, flags_at, is_replaceable, row_that_accepts, row_treatment, type_of};
use wild_types::{Fault, InputRelocation, ItemRef, Layout, Machine, Missing, SymbolIndex};

/// The field of an address in memory, 8 bytes.
pub(crate) const ADDRESS: RelocationSize = RelocationSize::ByteSize(Width::Eight);

/// A value in the field of a row, or the fault that it is out of range.
#[inline]
pub fn field(row: &RelocationKindInfo, value: u64) -> Result<Decision, Fault>
    ensures { result ≡ field row.now value }
{
    if row.allows(value) {
        Ok(Decision::Field {
            size: row.size,
            value,
        })
    } else {
        Err(Fault::OutOfRange { value })
    }
}

/// Computes the value of a row and puts it in the field.
#[inline]
fn field_for<A: Arch>(
    resolved: &Resolved<A>,
    item: &ItemRef,
    relocation: &InputRelocation,
    row: &RelocationKindInfo,
) -> Result<Decision, Fault>
    ensures { result ≡ field_for resolved.now.layout.now (item_now item.now) relocation.now row.now (term_at resolved.now.layout.now relocation.now row.now (place_of item.now.address relocation.now)) }
{
    let place = relocation.place_from(item.address);
    let term = term_at(resolved, relocation, row, place)?;
    let value = value_in(resolved.layout, row, term, relocation.addend, place);
    field_or_thunk(resolved, item, relocation, row, value)
}

/// An address that moves with the load bias: packed in `.relr.dyn`, or with a RELATIVE entry.
#[inline]
fn relative_decision<A: Arch>(
    resolved: &Resolved<A>,
    item: &ItemRef,
    relocation: &InputRelocation,
) -> Result<Decision, Fault>
    ensures { result ≡ relative_decision resolved.now.layout.now (item_now item.now) relocation.now (address_for resolved.now.layout.now relocation.now) }
{
    let address = address_for(resolved, relocation)?;
    Ok(Decision::RelativeAddress {
        value: sum(address, relocation.addend),
        packed: resolved.layout.packs(relocation.place_from(item.address)),
    })
}

/// The addend as a RELA entry has it, modulo 2^64.
pub fn addend_bits(relocation: &InputRelocation) -> u64
    ensures { result ≡ addend_bits relocation.now }
{
    relocation.addend.cast_unsigned()
}

/// The dynamic linker fills the field, by an entry of type `number` that names the symbol by its index in the dynamic symbol table.
fn dynamic_decision(
    layout: &Layout,
    size: RelocationSize,
    number: u32,
    relocation: &InputRelocation,
    symbol: SymbolIndex,
) -> Result<Decision, Fault>
    ensures { result ≡ dynamic_decision size number relocation.now symbol (index_of layout.now symbol) }
{
    match index_of(layout, symbol) {
        Some(index) => Ok(Decision::DynamicField {
            size,
            number,
            symbol: index,
            addend: addend_bits(relocation),
        }),
        None => Err(Fault::MissingResolution {
            what: Missing::DynamicSymbol,
            symbol: symbol.0,
        }),
    }
}

/// The dynamic linker fills the field with the symbol's size. If the symbol is not interposable, its size is known and must fit.
fn size_decision(
    layout: &Layout,
    relocation: &InputRelocation,
    row: &RelocationKindInfo,
    symbol: SymbolIndex,
) -> Result<Decision, Fault>
    ensures { result ≡ size_decision layout.now relocation.now row.now symbol (dynamic_decision row.now.size relocation.now.number relocation.now symbol (index_of layout.now symbol)) }
{
    let left = dynamic_decision(layout, row.size, relocation.number, relocation, symbol)?;
    let value = sum(symbol_size(layout, symbol), relocation.addend);
    if is_replaceable(layout.kind, flags_at(layout, symbol)) || row.allows(value) {
        Ok(left)
    } else {
        Err(Fault::OutOfRange { value })
    }
}

/// The dynamic linker fills the field by an IRELATIVE entry with the resolver's address. An addend other than 0 is refused.
fn ifunc_decision(
    layout: &Layout,
    relocation: &InputRelocation,
    symbol: SymbolIndex,
) -> Result<Decision, Fault>
    ensures { result ≡ ifunc_decision layout.now relocation.now (decided_address layout.now symbol) }
{
    let resolver = decided_address(layout, symbol)?;
    if addend_bits(relocation) != 0 {
        return Err(Fault::IfuncAddend {
            addend: relocation.addend,
        });
    }
    Ok(Decision::DynamicField {
        size: ADDRESS,
        number: type_of(layout.machine, DynamicRelocationKind::Irelative),
        symbol: 0,
        addend: resolver,
    })
}

/// The value S + A - P for a row of x86-64 without thunks.
#[inline]
#[tactic(auto, unfolding(wild_layout::specs::Decide::field_or_thunk))]
pub(crate) fn distance_for<A: Arch>(
    resolved: &Resolved<A>,
    item: &ItemRef,
    relocation: &InputRelocation,
    row: &RelocationKindInfo,
) -> Result<Decision, Fault>
    requires kind { row.now.kind ≡ Relative }
    requires whole { row.now.mask ≡ None }
    requires alone { row.now.thunkable ≡ false }
    requires machine { resolved.now.layout.now.machine ≡ X86_64 }
    ensures { result ≡ field_for resolved.now.layout.now (item_now item.now) relocation.now row.now (term_at resolved.now.layout.now relocation.now row.now (place_of item.now.address relocation.now)) }
{
    let address = address_for(resolved, relocation)?;
    let place = relocation.place_from(item.address);
    field(row, displacement(address, relocation.addend, place))
}

/// Whether the row is S + A - P of x86-64 in an output that is not position-independent: its value is written for every symbol.
#[inline]
pub(crate) fn is_fixed_distance(layout: &Layout, row: &RelocationKindInfo) -> bool
    ensures kind { result ≡ true → row.now.kind ≡ Relative }
    ensures whole { result ≡ true → row.now.mask ≡ None }
    ensures alone { result ≡ true → row.now.thunkable ≡ false }
    ensures machine { result ≡ true → layout.now.machine ≡ X86_64 }
    ensures fixed { result ≡ true → is_position_independent layout.now.kind ≡ false }
{
    matches!(row.kind, RelocationKind::Relative)
        && matches!(row.mask, None)
        && !row.thunkable
        && matches!(layout.machine, Machine::X86_64)
        && !layout.kind.is_position_independent()
}

/// Decides a relocation whose instruction is not rewritten.
#[inline(always)]
pub(crate) fn decided<A: Arch>(
    resolved: &Resolved<A>,
    item: &ItemRef,
    relocation: &InputRelocation,
) -> Result<Decision, Fault>
    ensures { result ≡ decided resolved.now.layout.now (item_now item.now) relocation.now }
{
    let row = A::relocation_from_raw(relocation.number);
    match &row {
        Some(found) if is_fixed_distance(resolved.layout, found) => {
            distance_for(resolved, item, relocation, found)
        }
        _ => {
            let row = row_that_accepts(resolved.layout.machine, relocation, row);
            decided_by(resolved, item, relocation, row)
        }
    }
}

/// The same, by the row of its type if that accepts the relocation.
#[tactic(auto, unfolding(wild_layout::specs::Decide::decided, wild_slot::specs::Treatment::treatment))]
fn decided_by<A: Arch>(
    resolved: &Resolved<A>,
    item: &ItemRef,
    relocation: &InputRelocation,
    row: Option<RelocationKindInfo>,
) -> Result<Decision, Fault>
    requires row { row ≡ row_that_accepts resolved.now.layout.now.machine relocation.now (row_of resolved.now.layout.now.machine relocation.now.number) }
    ensures { result ≡ decided resolved.now.layout.now (item_now item.now) relocation.now }
{
    match row_treatment(
        resolved.layout,
        item.flags,
        relocation.number,
        relocation.symbol,
        row,
    ) {
        Treatment::Nothing => Ok(Decision::Nothing),
        Treatment::Value(row) => field_for(resolved, item, relocation, &row),
        Treatment::BaseRelative => relative_decision(resolved, item, relocation),
        Treatment::Symbolic(symbol) => {
            let number = type_of(resolved.layout.machine, DynamicRelocationKind::Absolute);
            dynamic_decision(resolved.layout, ADDRESS, number, relocation, symbol)
        }
        Treatment::Indirect(symbol) => ifunc_decision(resolved.layout, relocation, symbol),
        Treatment::Extent(row, symbol) => size_decision(resolved.layout, relocation, &row, symbol),
        Treatment::Recompile => Err(Fault::RecompileWithPic {
            number: relocation.number,
        }),
        Treatment::Unsupported => Err(Fault::UnsupportedRelocation {
            number: relocation.number,
        }),
    }
}
