//! Relocation counts of a group.
ghost use Rattle.std.specs.Prelude.{◌≡◌, not, ◌&&◌, ℕ, ◌<◌, ◌-◌, ◌^◌, [], true, length, slice_get, IfOk, OnOk};
ghost use Rattle.std.specs.List.{flat_map};
ghost use Rattle.wild_types.specs.HeaderOnly.{is_omitted};
ghost use Rattle.wild_types.specs.Lookups.{section_of, is_counted};
ghost use Rattle.wild_image.specs.RelocationCounts.{with_more, with_pair, with_pairs};
ghost use Rattle.wild_image.specs.Pieces.{section_pairs, file_pairs, group_pairs};

use std::alloc::{AllocError, Global};
use wild_types::{File, Group, InputSection, Layout};

/// Whether the relocations of an input section are counted (`count` lines): those of a loaded, sorted or debug section with data
/// (`is_counted`), unless only the header of its output section is written.
fn adds_to_counts(layout: &Layout, section: &InputSection) -> bool
    ensures { result ≡ (is_counted section.now && not (is_omitted layout.now section.now)) }
{
    section.is_counted() && !section.is_omitted(layout)
}

/// The count of the last pair increased by `count`, if `join` is set, the pair is of the same section, and the sum is below 2^64.
fn with_more(join: bool, section: u32, count: u64, pairs: &[(u32, u64)]) -> Option<u64>
    ensures { result ≡ with_more join section count (slice_get pairs.now (length pairs.now - 1)) }
{
    match pairs.last() {
        Some(last) if join && last.0 == section => last.1.checked_add(count),
        _ => None,
    }
}

/// Adds a pair (section, count). If `join` is set, it is added to the last pair if that is of the same section and the sum is below 2^64.
#[tactic(auto, using(crate::proofs::PairLemmas::last_there), unfolding(crate::specs::RelocationCounts::with_pair))]
fn add_pair(
    section: u32,
    count: u64,
    join: bool,
    pairs: &mut Vec<(u32, u64)>,
) -> Result<(), AllocError>
    ensures { OnOk result (pairs.new.items ≡ with_pair join pairs.old.items (section, count)) }
{
    match with_more(join, section, count, pairs.as_slice()) {
        Some(sum) => {
            let last = pairs.len().saturating_sub(1);
            pairs[last] = (section, sum);
        }
        None => pairs.push((section, count))?,
    }
    Ok(())
}

/// Adds the pair of an input section whose relocations are counted.
fn count_section(
    layout: &Layout,
    section: &InputSection,
    join: bool,
    pairs: &mut Vec<(u32, u64)>,
) -> Result<(), AllocError>
    requires { (part : ℕ) → section_of layout.now part < 2 ^ 32 }
    ensures { OnOk result (pairs.new.items ≡ with_pairs join pairs.old.items (section_pairs layout.now section.now)) }
{
    if adds_to_counts(layout, section) {
        let index = layout.section_of(section.part).0 as u32;
        add_pair(index, section.relocations.len() as u64, join, pairs)?;
    }
    Ok(())
}

/// Adds the pairs of a file.
fn count_file(
    layout: &Layout,
    file: &File,
    join: bool,
    pairs: &mut Vec<(u32, u64)>,
) -> Result<(), AllocError>
    requires { (part : ℕ) → section_of layout.now part < 2 ^ 32 }
    ensures { OnOk result (pairs.new.items ≡ with_pairs join pairs.old.items (file_pairs layout.now file.now)) }
{
    for section in file.sections.as_slice() {
        count_section(layout, section, join, pairs)?;
    }
    Ok(())
}

/// Adds the pairs of a group: none in a relocatable output, which reads no relocation.
fn count_group(
    layout: &Layout,
    group: &Group,
    join: bool,
    pairs: &mut Vec<(u32, u64)>,
) -> Result<(), AllocError>
    requires { (part : ℕ) → section_of layout.now part < 2 ^ 32 }
    ensures { OnOk result (pairs.new.items ≡ with_pairs join pairs.old.items (group_pairs layout.now group.now)) }
{
    if layout.kind.is_partial_link() {
        return Ok(());
    }
    for file in group.files.as_slice() {
        count_file(layout, file, join, pairs)?;
    }
    Ok(())
}

/// A pair (section, count) for each input section of a group whose relocations are counted.
#[tactic(auto, using(crate::proofs::PairLemmas::pairs_behind))]
pub(crate) fn relocation_counts(
    alloc: Global,
    layout: &Layout,
    group: &Group,
) -> Result<Vec<(u32, u64)>, AllocError>
    requires { (part : ℕ) → section_of layout.now part < 2 ^ 32 }
    ensures { IfOk result (λ v. v.items ≡ group_pairs layout.now group.now) }
{
    let mut pairs = Vec::new(alloc);
    count_group(layout, group, false, &mut pairs)?;
    Ok(pairs)
}

/// The pairs of some groups, where consecutive pairs of one section are added up.
pub(crate) fn relocation_counts_of_groups(
    alloc: Global,
    layout: &Layout,
    groups: &[Group],
) -> Result<Vec<(u32, u64)>, AllocError>
    requires { (part : ℕ) → section_of layout.now part < 2 ^ 32 }
    ensures { IfOk result (λ v. v.items ≡ with_pairs true [] (flat_map (group_pairs layout.now) groups.now)) }
{
    let mut pairs = Vec::new(alloc);
    for group in groups {
        count_group(layout, group, true, &mut pairs)?;
    }
    Ok(pairs)
}
