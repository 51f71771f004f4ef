//! Fast path for the distances of x86-64, R_X86_64_PC32.
ghost use Rattle.std.specs.Prelude.{◌≡◌, ℕ, true, false, Ok, Some, slice_get};
ghost use Rattle.wild_records.specs.Abi.Relocation.{r_x86_64_pc32};
ghost use Rattle.wild_reloc.specs.declared.info.RelocationSize.TheVariants.{ByteSize};
ghost use Rattle.wild_reloc.specs.declared.info.Width.TheVariants.{Four};
ghost use Rattle.wild_reloc.specs.declared.range.Sign.TheVariants.{Signed};
ghost use Rattle.wild_reloc.specs.Range.{of_bits, contains};
ghost use Rattle.wild_layout.specs.Choice.{may_be_partner, may_take_next};
ghost use Rattle.wild_layout.specs.SymbolValues.{displacement};
ghost use Rattle.wild_layout.specs.declared.decision.Decision.TheVariants.{Field};
ghost use Rattle.wild_layout.specs.Decide.{decided, decide};
ghost use Rattle.wild_types.specs.Lookups.{place_of};
ghost use Rattle.wild_types.specs.Item.{item_now};
ghost use Rattle.wild_sections.specs.Targets.{HasTargets};

use crate::relocation::{distance_for, is_fixed_distance};
use crate::resolve::displacement;
use crate::target::known_target;
use crate::values::Resolved;
use wild_layout::Decision;
use wild_records::abi::relocation::R_X86_64_PC32;
use wild_relax::Arch;
use wild_reloc::{RelocationSize, Width};
use wild_types::{Fault, InputRelocation, ItemRef};

/// A common type in x86-64 code. It is tested first, so that its row needs no search.
const PC32: u32 = R_X86_64_PC32;

/// The value of a decision that writes a four-byte field.
#[inline(always)]
fn four_byte_value(decided: Result<Decision, Fault>) -> Option<u64>
    ensures { (value : ℕ) → result ≡ Some value → decided ≡ Ok (Field (ByteSize Four) value) }
{
    match decided {
        Ok(
            Decision::Field {
                size: RelocationSize::ByteSize(Width::Four),
                value,
            },
        ) => Some(value),
        _ => None,
    }
}

/// The distance from a relocation to an address, if it fits in a signed four-byte field.
#[inline(always)]
pub(crate) fn near_distance(target: u64, start: u64, relocation: &InputRelocation) -> Option<u64>
    ensures is { (value : ℕ) → result ≡ Some value → value ≡ displacement target relocation.now.addend (place_of start relocation.now) }
    ensures fits { (value : ℕ) → result ≡ Some value → contains (of_bits 32 Signed) value ≡ true }
{
    let value = displacement(target, relocation.addend, relocation.place_from(start));
    if value < 1 << 31 || u64::MAX - value < 1 << 31 {
        Some(value)
    } else {
        None
    }
}

/// The value of a relocation of that type, if the address of its symbol is in the table of targets.
#[inline(always)]
fn value_to_target<A: Arch>(
    resolved: &Resolved<A>,
    targets: &[Option<u64>],
    item: &ItemRef,
    relocation: &InputRelocation,
) -> Option<u64>
    requires targets { HasTargets resolved.now.layout.now targets.now }
    requires number { relocation.now.number ≡ r_x86_64_pc32 }
    ensures { (value : ℕ) → result ≡ Some value → decided resolved.now.layout.now (item_now item.now) relocation.now ≡ Ok (Field (ByteSize Four) value) }
{
    let target = known_target(resolved, targets, relocation.symbol?)?;
    near_distance(target, item.address, relocation)
}

/// The value of a relocation of that type for any symbol, by the row of the type.
#[inline(never)]
fn value_by_row<A: Arch>(
    resolved: &Resolved<A>,
    item: &ItemRef,
    relocation: &InputRelocation,
) -> Option<u64>
    requires { relocation.now.number ≡ r_x86_64_pc32 }
    ensures { (value : ℕ) → result ≡ Some value → decided resolved.now.layout.now (item_now item.now) relocation.now ≡ Ok (Field (ByteSize Four) value) }
{
    let row = A::relocation_from_raw(PC32);
    match &row {
        Some(found) if is_fixed_distance(resolved.layout, found) => {
            four_byte_value(distance_for(resolved, item, relocation, found))
        }
        _ => None,
    }
}

/// The value of a relocation of that type, if it is written to a four-byte field.
#[inline(always)]
fn value_of_pc32<A: Arch>(
    resolved: &Resolved<A>,
    targets: &[Option<u64>],
    item: &ItemRef,
    relocation: &InputRelocation,
) -> Option<u64>
    requires targets { HasTargets resolved.now.layout.now targets.now }
    requires number { relocation.now.number ≡ r_x86_64_pc32 }
    ensures { (value : ℕ) → result ≡ Some value → decided resolved.now.layout.now (item_now item.now) relocation.now ≡ Ok (Field (ByteSize Four) value) }
{
    match value_to_target(resolved, targets, item, relocation) {
        Some(value) => Some(value),
        None => value_by_row(resolved, item, relocation),
    }
}

/// The value of a relocation of that type, for a four-byte field; None if the general path has to decide.
#[inline(always)]
pub(crate) fn pc32_value<A: Arch>(
    resolved: &Resolved<A>,
    targets: &[Option<u64>],
    item: &ItemRef,
    index: usize,
    relocation: &InputRelocation,
    partner: bool,
) -> Option<u64>
    requires targets { HasTargets resolved.now.layout.now targets.now }
    requires listed { slice_get item.now.relocations.now index ≡ Some relocation.now }
    requires partner { partner ≡ may_be_partner item.now.relocations.now index }
    ensures is { (value : ℕ) → result ≡ Some value → decide resolved.now.layout.now (item_now item.now) index ≡ Ok (Field (ByteSize Four) value) }
    ensures alone { (value : ℕ) → result ≡ Some value → may_take_next relocation.now.number ≡ false }
{
    if relocation.number == PC32 && !partner {
        value_of_pc32(resolved, targets, item, relocation)
    } else {
        None
    }
}
