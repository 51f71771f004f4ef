//! Fast path for the calls and jumps of x86-64, R_X86_64_PLT32, whose symbol this output defines. They go to the symbol, not to a stub.
ghost use Rattle.std.specs.Prelude.{◌≡◌, ℕ, false, Ok, Some, slice_get};
ghost use Rattle.wild_records.specs.Abi.Relocation.{r_x86_64_plt32};
ghost use Rattle.wild_reloc.specs.declared.info.RelocationSize.TheVariants.{ByteSize};
ghost use Rattle.wild_reloc.specs.declared.info.Width.TheVariants.{Four};
ghost use Rattle.wild_layout.specs.Choice.{may_be_partner, may_take_next};
ghost use Rattle.wild_layout.specs.declared.decision.Decision.TheVariants.{Field};
ghost use Rattle.wild_layout.specs.Decide.{decide};
ghost use Rattle.wild_types.specs.Item.{item_now};
ghost use Rattle.wild_sections.specs.Targets.{HasTargets};
ghost use Rattle.wild_sections.specs.Calls.{IsCalled};

use crate::pc32::{near_distance, pc32_value};
use crate::target::own_target;
use crate::values::Resolved;
use wild_records::abi::relocation::R_X86_64_PLT32;
use wild_relax::Arch;
use wild_types::{InputRelocation, ItemRef, Layout, SymbolIndex, is_executable};

/// The type of calls and jumps.
const PLT32: u32 = R_X86_64_PLT32;

/// The symbol of a call in code, if calls go to symbols directly: rewriting is on.
#[inline(always)]
#[tactic(auto, using(crate::proofs::CallLemmas::called_by))]
fn called_symbol(
    layout: &Layout,
    item: &ItemRef,
    relocation: &InputRelocation,
) -> Option<SymbolIndex>
    ensures { (i : ℕ) → result ≡ Some i → IsCalled layout.now (item_now item.now) relocation.now i }
{
    if layout.options.relax
        && is_executable(item.flags)
        && relocation.offset <= item.bytes.len() as u64
    {
        relocation.symbol
    } else {
        None
    }
}

/// The value of a call, if its symbol is in the table of targets and this output's definition is used.
#[inline(always)]
fn value_of_call<A: Arch>(
    resolved: &Resolved<A>,
    targets: &[Option<u64>],
    item: &ItemRef,
    index: usize,
    relocation: &InputRelocation,
) -> Option<u64>
    requires targets { HasTargets resolved.now.layout.now targets.now }
    requires listed { slice_get item.now.relocations.now index ≡ Some relocation.now }
    requires number { relocation.now.number ≡ r_x86_64_plt32 }
    requires alone { may_be_partner item.now.relocations.now index ≡ false }
    ensures { (value : ℕ) → result ≡ Some value → decide resolved.now.layout.now (item_now item.now) index ≡ Ok (Field (ByteSize Four) value) }
{
    let symbol = called_symbol(resolved.layout, item, relocation)?;
    let target = own_target(resolved, targets, symbol)?;
    near_distance(target, item.address, relocation)
}

/// The value of a relocation for a four-byte field, if it is such a call; None if the general path has to decide.
#[inline(always)]
fn call_value<A: Arch>(
    resolved: &Resolved<A>,
    targets: &[Option<u64>],
    item: &ItemRef,
    index: usize,
    relocation: &InputRelocation,
    partner: bool,
) -> Option<u64>
    requires targets { HasTargets resolved.now.layout.now targets.now }
    requires listed { slice_get item.now.relocations.now index ≡ Some relocation.now }
    requires partner { partner ≡ may_be_partner item.now.relocations.now index }
    ensures is { (value : ℕ) → result ≡ Some value → decide resolved.now.layout.now (item_now item.now) index ≡ Ok (Field (ByteSize Four) value) }
    ensures alone { (value : ℕ) → result ≡ Some value → may_take_next relocation.now.number ≡ false }
{
    if relocation.number == PLT32 && !partner {
        value_of_call(resolved, targets, item, index, relocation)
    } else {
        None
    }
}

/// The value of a distance or call for a four-byte field; None if the general path has to decide.
#[inline(always)]
pub(crate) fn near_value<A: Arch>(
    resolved: &Resolved<A>,
    targets: &[Option<u64>],
    item: &ItemRef,
    index: usize,
    relocation: &InputRelocation,
    partner: bool,
) -> Option<u64>
    requires targets { HasTargets resolved.now.layout.now targets.now }
    requires listed { slice_get item.now.relocations.now index ≡ Some relocation.now }
    requires partner { partner ≡ may_be_partner item.now.relocations.now index }
    ensures is { (value : ℕ) → result ≡ Some value → decide resolved.now.layout.now (item_now item.now) index ≡ Ok (Field (ByteSize Four) value) }
    ensures alone { (value : ℕ) → result ≡ Some value → may_take_next relocation.now.number ≡ false }
{
    match pc32_value(resolved, targets, item, index, relocation, partner) {
        Some(value) => Some(value),
        None => call_value(resolved, targets, item, index, relocation, partner),
    }
}
