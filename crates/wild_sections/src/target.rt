//! A table of symbol addresses for the fast paths of S + A - P, where the address depends on the symbol only.
ghost use Rattle.std.specs.Prelude.{◌≡◌, ℕ, ◌<◌, true, false, length, Some, IfOk};
ghost use Rattle.wild_sections.specs.DefiningFiles.{HasDefiningFiles};
ghost use Rattle.wild_slot.specs.Treatment.{is_barred};
ghost use Rattle.wild_sections.specs.Targets.{has_targets, target_of, HasTargets, IsTarget, IsKnownTarget, IsOwnTarget};
ghost use Rattle.wild_sections.specs.Values.{HasValues};

use crate::defining_file::DefiningFile;
use crate::indirect::symbol_is_ifunc;
use crate::merged_symbols::names_merged;
use crate::values::Resolved;
use std::alloc::{AllocError, Global};
use wild_relax::Arch;
use wild_slot::flags_at;
use wild_types::{Layout, Machine, SymbolIndex};

/// Whether the table of addresses is used: in outputs of x86-64.
fn has_targets(layout: &Layout) -> bool
    ensures { result ≡ has_targets layout.now }
{
    matches!(layout.machine, Machine::X86_64)
}

/// The address of a symbol; None for an IFUNC, and for the section symbol of a merged section.
#[tactic(auto, using(crate::proofs::ValueLemmas::table_values))]
fn target_of(
    layout: &Layout,
    values: &[Option<u64>],
    owners: &[Option<DefiningFile>],
    index: usize,
) -> Option<u64>
    requires owners { HasDefiningFiles layout.now owners.now }
    requires values { HasValues layout.now values.now }
    requires index { index < length values.now }
    ensures { result ≡ target_of layout.now index }
{
    let symbol = SymbolIndex(index);
    if symbol_is_ifunc(layout, symbol) || names_merged(layout, owners, symbol) {
        None
    } else {
        values[index]
    }
}

/// For each symbol its address, for the fast path of S + A - P, or None. Empty if the output has no such path.
#[tactic(auto, using(crate::proofs::TargetLemmas::no_table, crate::proofs::TargetLemmas::table_made))]
pub(crate) fn targets_of(
    alloc: Global,
    layout: &Layout,
    values: &[Option<u64>],
    owners: &[Option<DefiningFile>],
) -> Result<Vec<Option<u64>>, AllocError>
    requires owners { HasDefiningFiles layout.now owners.now }
    requires values { HasValues layout.now values.now }
    ensures { IfOk result (λ v. HasTargets layout.now v.items) }
{
    if !has_targets(layout) {
        return Ok(Vec::new(alloc));
    }
    let count = values.len();
    let mut targets = Vec::with_capacity(alloc, count)?;
    for i in 0..count {
        targets.push(target_of(layout, values, owners, i))?;
    }
    Ok(targets)
}

/// The address of a symbol in the table, if it has one there.
#[inline(always)]
#[tactic(auto, using(crate::proofs::TargetLemmas::target_at))]
fn target_in<A: Arch>(
    resolved: &Resolved<A>,
    targets: &[Option<u64>],
    symbol: SymbolIndex,
) -> Option<u64>
    requires { HasTargets resolved.now.layout.now targets.now }
    ensures { (a : ℕ) → result ≡ Some a → IsTarget resolved.now.layout.now symbol a }
{
    if symbol.0 < targets.len() {
        targets[symbol.0]
    } else {
        None
    }
}

/// Whether each field of a distance can hold the distance to a symbol: the output is at a fixed address, or the symbol is neither
/// interposable nor another module's.
#[inline(always)]
#[tactic(auto, using(crate::proofs::DistanceLemmas::fixed_is_known, crate::proofs::DistanceLemmas::own_is_known))]
fn is_known(layout: &Layout, symbol: SymbolIndex) -> bool
    ensures { result ≡ true → (flags n : ℕ) → is_barred layout.now flags n symbol ≡ false }
{
    if !layout.kind.is_position_independent() {
        return true;
    }
    let flags = flags_at(layout, symbol);
    !flags.is_interposable() && !flags.is_dynamic()
}

/// The address of a symbol in the table, if each field of a distance can hold the distance to it.
#[inline(always)]
#[tactic(auto, using(crate::proofs::TargetLemmas::known_by))]
pub(crate) fn known_target<A: Arch>(
    resolved: &Resolved<A>,
    targets: &[Option<u64>],
    symbol: SymbolIndex,
) -> Option<u64>
    requires { HasTargets resolved.now.layout.now targets.now }
    ensures { (a : ℕ) → result ≡ Some a → IsKnownTarget resolved.now.layout.now symbol a }
{
    let target = target_in(resolved, targets, symbol)?;
    if is_known(resolved.layout, symbol) {
        Some(target)
    } else {
        None
    }
}

/// The address of a symbol in the table, if this output's definition is used.
#[inline(always)]
#[tactic(auto, using(crate::proofs::TargetLemmas::own_by))]
pub(crate) fn own_target<A: Arch>(
    resolved: &Resolved<A>,
    targets: &[Option<u64>],
    symbol: SymbolIndex,
) -> Option<u64>
    requires { HasTargets resolved.now.layout.now targets.now }
    ensures { (a : ℕ) → result ≡ Some a → IsOwnTarget resolved.now.layout.now symbol a }
{
    let target = target_in(resolved, targets, symbol)?;
    if flags_at(resolved.layout, symbol).is_interposable() {
        None
    } else {
        Some(target)
    }
}
