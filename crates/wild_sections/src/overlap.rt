//! Detects relocations whose fields overlap in the input, and reports the lowest such byte.
ghost use Rattle.std.specs.Prelude.{◌≡◌, ◌<◌, length, IfOk, option_to_list};
ghost use Rattle.wild_words.specs.Extents.{least_extent};
ghost use Rattle.wild_sections.specs.WrittenDecisions.{field_extent, template_extent, decided_extent, extent_at, decided_extents, ascends};

use crate::fields::template_start;
use crate::relocation::ADDRESS;
use std::alloc::{AllocError, Global};
use wild_layout::Decision;
use wild_relax::Row;
use wild_reloc::RelocationSize;
use wild_types::InputRelocation;
use wild_words::{Extent, least_shared};

/// The bytes of a field.
#[inline]
fn field_extent(offset: u64, size: RelocationSize) -> Extent
    ensures { result ≡ field_extent offset size }
{
    Extent {
        start: offset,
        end: offset as u128 + size.width() as u128,
    }
}

/// The bytes of the instruction of a row, whose relocation is at that offset.
fn template_extent(offset: u64, relocation: &InputRelocation, row: Row) -> Extent
    ensures { result ≡ template_extent offset relocation.now row }
{
    let before = relocation.offset - template_start(row, relocation);
    let start = offset.saturating_sub(before);
    Extent {
        start,
        end: start as u128 + row.pattern_size() as u128,
    }
}

/// The bytes of the input that a relocation at that offset writes; None if it writes nothing.
#[inline]
fn extent_of(offset: u64, relocation: &InputRelocation, decision: Decision) -> Option<Extent>
    ensures { result ≡ decided_extent offset relocation.now decision }
{
    match decision {
        Decision::Nothing | Decision::Partner => None,
        Decision::Field { size, .. } | Decision::DynamicField { size, .. } => {
            Some(field_extent(offset, size))
        }
        Decision::RelativeAddress { .. } => Some(field_extent(offset, ADDRESS)),
        Decision::Rewritten { row, .. } => Some(template_extent(offset, relocation, row)),
    }
}

/// The bytes of the input that the relocation with that index writes.
#[inline]
fn extent_at(
    relocations: &[InputRelocation],
    origins: &[InputRelocation],
    decisions: &[Decision],
    index: usize,
) -> Option<Extent>
    requires count { length decisions.now ≡ length relocations.now }
    requires origins { length origins.now ≡ length relocations.now }
    requires index { index < length decisions.now }
    ensures { option_to_list result ≡ extent_at relocations.now origins.now decisions.now index }
{
    let origin = &origins[index];
    extent_of(origin.offset, &relocations[index], decisions[index])
}

/// Whether the fields are sorted and disjoint: each begins at the end of the previous ones or after it.
#[tactic(auto, unfolding(crate::specs::WrittenDecisions::ascends, crate::specs::WrittenDecisions::decided_extents))]
fn is_ascending(
    relocations: &[InputRelocation],
    origins: &[InputRelocation],
    decisions: &[Decision],
) -> bool
    requires count { length decisions.now ≡ length relocations.now }
    requires origins { length origins.now ≡ length relocations.now }
    ensures { result ≡ ascends 0 (decided_extents relocations.now origins.now decisions.now) }
{
    let mut reach: u128 = 0;
    for i in 0..decisions.len() {
        if let Some(extent) = extent_at(relocations, origins, decisions, i) {
            if (extent.start as u128) < reach {
                return false;
            }
            reach = reach.max(extent.end);
        }
    }
    true
}

/// The bytes of the input that the relocations write.
#[tactic(auto, unfolding(crate::specs::WrittenDecisions::decided_extents))]
fn extents_of(
    alloc: Global,
    relocations: &[InputRelocation],
    origins: &[InputRelocation],
    decisions: &[Decision],
) -> Result<Vec<Extent>, AllocError>
    requires count { length decisions.now ≡ length relocations.now }
    requires origins { length origins.now ≡ length relocations.now }
    ensures { IfOk result (λ v. v.items ≡ decided_extents relocations.now origins.now decisions.now) }
{
    let mut extents = Vec::with_capacity(alloc, decisions.len())?;
    for i in 0..decisions.len() {
        if let Some(extent) = extent_at(relocations, origins, decisions, i) {
            extents.push(extent)?;
        }
    }
    Ok(extents)
}

/// The lowest byte of the input that two relocations write. If the fields are sorted, one pass is enough; otherwise they are sorted.
#[tactic(auto, using(crate::proofs::DecidedLemmas::ascending_shares_none))]
pub(crate) fn shared_byte(
    alloc: Global,
    relocations: &[InputRelocation],
    origins: &[InputRelocation],
    decisions: &[Decision],
) -> Result<Option<u64>, AllocError>
    requires count { length decisions.now ≡ length relocations.now }
    requires origins { length origins.now ≡ length relocations.now }
    ensures { IfOk result (λ o. o ≡ least_extent (decided_extents relocations.now origins.now decisions.now)) }
{
    if is_ascending(relocations, origins, decisions) {
        return Ok(None);
    }
    let mut extents = extents_of(alloc, relocations, origins, decisions)?;
    Ok(least_shared(&mut extents))
}
