//! Whether the input sections of each part are in its range of their group, in order and without overlap.
ghost use Rattle.std.specs.Prelude.{◌≡◌, ◌+◌, ◌^◌, ◌≤◌, ◌<◌, length, Ok, if◌then◌else◌, is_some, Some, None, ℕ, slice_index};
ghost use Rattle.wild_placement.specs.PlacedSections.{sorted_input};
ghost use Rattle.wild_plan_rules.specs.Contents.{addresses, ends_of, section_misplaced};
ghost use Rattle.wild_types.specs.FilePlaces.{given};
ghost use Rattle.wild_types.specs.Lists.{through, total};
ghost use Rattle.wild_plan_rules.specs.ClauseTests.{check_sizes, check_shares};
ghost use Rattle.wild_plan_rules.specs.MisplacedSections.{earlier, misplaced, all_placed, bytes_placed, file_all_placed, entry_group, own_all_placed, owner_in_part, owner_in_parts, misplaced_owner, misplaced_place};
ghost use Rattle.wild_clauses.specs.SortedOrder.{sorted_as_loaded, sections_of, sections_by_order};

use crate::sorted_sections::has_ordered_bytes;
use wild_placement::sorted_input;
use wild_types::{File, Group, InputSection, Layout, Part, SortedSection, wide_sum};

/// The smaller of two places, if both exist; else the one that does.
pub(crate) fn earlier(left: Option<usize>, right: Option<usize>) -> Option<usize>
    ensures { result ≡ earlier left right }
{
    match (left, right) {
        (Some(left), Some(right)) => Some(left.min(right)),
        (Some(left), None) => Some(left),
        (None, right) => right,
    }
}

/// Moves the cursor of a part after a section with bytes, if the section is in one of the parts from number `part` on; false if the
/// section is misplaced.
#[tactic(auto, using(wild_plan_rules::proofs::BlockLemmas::before_all, wild_plan_rules::proofs::BlockLemmas::behind_all))]
fn pass_bytes(part: usize, ends: &[u64], cursors: &mut [u64], section: &InputSection) -> bool
    requires { length ends.now ≡ length cursors.old }
    ensures { bytes_placed part ends.now cursors.old section.now ≡ (if result then Some cursors.new else None) }
{
    if section.part < part {
        return true;
    }
    let k = section.part - part;
    if cursors.len() <= k {
        return true;
    }
    let behind = wide_sum(section.address, section.size);
    if section.address < cursors[k] || u128::from(ends[k]) < behind {
        return false;
    }
    cursors[k] = section.address + section.size;
    true
}

/// The same for a section of a file, which has a place only if it has bytes.
#[tactic(auto, using(wild_plan_rules::proofs::BlockLemmas::filled, wild_plan_rules::proofs::BlockLemmas::unfilled))]
fn pass_section(
    layout: &Layout,
    part: usize,
    ends: &[u64],
    cursors: &mut [u64],
    section: &InputSection,
) -> bool
    requires { length ends.now ≡ length cursors.old }
    ensures { all_placed layout.now part ends.now cursors.old section.now ≡ (if result then Some cursors.new else None) }
{
    !section.has_range_bytes(layout) || pass_bytes(part, ends, cursors, section)
}

/// The same for a sorted section.
#[tactic(auto, using(crate::proofs::OrderedLemmas::ordered_placed, wild_plan_rules::proofs::BlockLemmas::unfilled))]
fn pass_ordered(
    layout: &Layout,
    part: usize,
    ends: &[u64],
    cursors: &mut [u64],
    section: &InputSection,
) -> bool
    requires { length ends.now ≡ length cursors.old }
    ensures { all_placed layout.now part ends.now cursors.old (sorted_as_loaded layout.now section.now) ≡ (if result then Some cursors.new else None) }
{
    !has_ordered_bytes(layout, section) || pass_bytes(part, ends, cursors, section)
}

fn pass_sections(
    layout: &Layout,
    part: usize,
    ends: &[u64],
    cursors: &mut [u64],
    sections: &[InputSection],
) -> bool
    requires { length ends.now ≡ length cursors.old }
    ensures { through (all_placed layout.now part ends.now) cursors.old sections.now ≡ (if result then Some cursors.new else None) }
{
    for section in sections {
        if !pass_section(layout, part, ends, cursors, section) {
            return false;
        }
    }
    true
}

/// The same for the section that an entry of the order names.
fn pass_entry(
    layout: &Layout,
    part: usize,
    ends: &[u64],
    cursors: &mut [u64],
    entry: SortedSection,
) -> bool
    requires { length ends.now ≡ length cursors.old }
    ensures { through (all_placed layout.now part ends.now) cursors.old (sections_of (sorted_input layout.now entry)) ≡ (if result then Some cursors.new else None) }
{
    match sorted_input(layout, entry) {
        Some(found) => pass_ordered(layout, part, ends, cursors, found.section),
        None => true,
    }
}

fn pass_order(
    layout: &Layout,
    part: usize,
    ends: &[u64],
    cursors: &mut [u64],
    order: &[SortedSection],
) -> bool
    requires { length ends.now ≡ length cursors.old }
    ensures { through (all_placed layout.now part ends.now) cursors.old (sections_by_order layout.now order.now) ≡ (if result then Some cursors.new else None) }
{
    for entry in order {
        if !pass_entry(layout, part, ends, cursors, *entry) {
            return false;
        }
    }
    true
}

/// The same for the sections of a file, and for the last file also the sorted ones.
fn pass_file(layout: &Layout, part: usize, ends: &[u64], cursors: &mut [u64], file: &File) -> bool
    requires { length ends.now ≡ length cursors.old }
    ensures { file_all_placed layout.now part ends.now cursors.old file.now ≡ (if result then Some cursors.new else None) }
{
    let order = layout.sorted.as_slice();
    pass_sections(layout, part, ends, cursors, file.sections.as_slice())
        && (!file.role.is_epilogue() || pass_order(layout, part, ends, cursors, order))
}

/// The same for the files of a group.
fn pass_files(
    layout: &Layout,
    part: usize,
    ends: &[u64],
    cursors: &mut [u64],
    files: &[File],
) -> bool
    requires { length ends.now ≡ length cursors.old }
    ensures { is_some (through (file_all_placed layout.now part ends.now) cursors.old files.now) ≡ result }
{
    for file in files {
        if !pass_file(layout, part, ends, cursors, file) {
            return false;
        }
    }
    true
}

/// Moves the starts of the parts from number `part` on to the end of the group's ranges, and the cursors to where these begin.
fn move_starts(starts: &mut [u64], cursors: &mut [u64], part: usize, group: &Group)
    requires same { length cursors.old ≡ length starts.old }
    requires numbers { part + length starts.old < 2 ^ 64 }
    requires room { (k : ℕ) → k < length starts.old → slice_index starts.old k + given (part + k) group.now < 2 ^ 64 }
    ensures ends { starts.new ≡ ends_of group.now part starts.old }
    ensures begins { cursors.new ≡ starts.old }
{
    for (k, start) in starts.iter_mut().enumerate() {
        cursors[k] = *start;
        *start += group.given(part + k);
    }
}

/// Writes where the parts begin.
fn first_starts(starts: &mut [u64], parts: &[Part])
    requires { length starts.old ≡ length parts.now }
    ensures { starts.new ≡ addresses parts.now }
{
    for (k, part) in parts.iter().enumerate() {
        starts[k] = part.address;
    }
}

/// The place of the first group with a misplaced input section, in the parts from number `part` on, which
/// begin at `starts`.
#[tactic(auto, using(wild_plan_rules::proofs::BlockLemmas::group_placed))]
fn misplaced_from(
    layout: &Layout,
    part: usize,
    starts: &mut [u64],
    cursors: &mut [u64],
) -> Option<usize>
    requires same { length cursors.old ≡ length starts.old }
    requires numbers { part + length starts.old < 2 ^ 64 }
    requires room { (k : ℕ) → k < length starts.old → slice_index starts.old k + total (given (part + k)) layout.now.groups < 2 ^ 64 }
    ensures { result ≡ misplaced layout.now part starts.old 0 layout.now.groups }
{
    for (i, group) in layout.groups.as_slice().iter().enumerate() {
        move_starts(starts, cursors, part, group);
        if !pass_files(layout, part, starts, cursors, group.files.as_slice()) {
            return Some(i);
        }
    }
    None
}

/// How many parts one pass over the input sections handles.
const BLOCK: usize = 512;

fn block_misplaced(layout: &Layout, part: usize, block: &[Part]) -> Option<usize>
    requires small { length block.now ≤ 512 }
    requires numbers { part + length block.now < 2 ^ 64 }
    requires room { (k : ℕ) → k < length block.now → slice_index (addresses block.now) k + total (given (part + k)) layout.now.groups < 2 ^ 64 }
    ensures { result ≡ misplaced layout.now part (addresses block.now) 0 layout.now.groups }
{
    let mut starts = [0u64; BLOCK];
    let mut cursors = [0u64; BLOCK];
    let starts = &mut starts[..block.len()];
    let cursors = &mut cursors[..block.len()];
    first_starts(starts, block);
    misplaced_from(layout, part, starts, cursors)
}

/// The first group in whose ranges an input section is misplaced. Requires that parts end below 2^62, and that shares add up to their
/// sizes.
fn section_misplaced(layout: &Layout) -> Option<usize>
    requires sizes { check_sizes layout.now ≡ Ok tt }
    requires shares { check_shares layout.now ≡ Ok tt }
    ensures { result ≡ section_misplaced layout.now (addresses layout.now.parts) 0 layout.now.groups }
{
    let parts = layout.parts.as_slice();
    let mut first = None;
    let mut part = 0;
    while part < parts.len() {
        let end = part.saturating_add(BLOCK).min(parts.len());
        first = earlier(first, block_misplaced(layout, part, &parts[part..end]));
        part = end;
    }
    first
}

/// The group of the first entry of the order whose section is misplaced.
fn entry_group(
    layout: &Layout,
    part: usize,
    ends: &[u64],
    cursors: &mut [u64],
    order: &[SortedSection],
) -> Option<usize>
    requires { length ends.now ≡ length cursors.old }
    ensures { result ≡ entry_group layout.now part ends.now cursors.old order.now }
{
    for entry in order {
        if !pass_entry(layout, part, ends, cursors, *entry) {
            return Some(entry.group);
        }
    }
    None
}

/// Moves the cursors after the files' own sections; false if one of these is misplaced.
fn pass_own(layout: &Layout, part: usize, ends: &[u64], cursors: &mut [u64], files: &[File]) -> bool
    requires { length ends.now ≡ length cursors.old }
    ensures { through (own_all_placed layout.now part ends.now) cursors.old files.now ≡ (if result then Some cursors.new else None) }
{
    for file in files {
        if !pass_sections(layout, part, ends, cursors, file.sections.as_slice()) {
            return false;
        }
    }
    true
}

/// The group of a section that is misplaced in the range of the last group, number `i`, in part number `k`.
fn owner_in_part(layout: &Layout, i: usize, group: &Group, k: usize, part: &Part) -> Option<usize>
    requires low { part.now.address + part.now.size < 2 ^ 64 }
    ensures { result ≡ owner_in_part layout.now i group.now k part.now }
{
    let end = part.address + part.size;
    let ends = [end];
    let mut cursors = [end.saturating_sub(group.given(k))];
    if !pass_own(layout, k, &ends, &mut cursors, group.files.as_slice()) {
        return Some(i);
    }
    entry_group(layout, k, &ends, &mut cursors, layout.sorted.as_slice())
}

/// The same in the first part that has one; else `i`. Time parts times sections of the last group.
fn owner_in_parts(layout: &Layout, i: usize, group: &Group) -> usize
    requires sizes { check_sizes layout.now ≡ Ok tt }
    ensures { result ≡ owner_in_parts layout.now i group.now 0 layout.now.parts }
{
    for (k, part) in layout.parts.as_slice().iter().enumerate() {
        if let Some(owner) = owner_in_part(layout, i, group, k, part) {
            return owner;
        }
    }
    i
}

/// The group of the misplaced section, if group `i` is the first in whose ranges one lies.
fn misplaced_owner(layout: &Layout, i: usize) -> usize
    requires sizes { check_sizes layout.now ≡ Ok tt }
    ensures { result ≡ misplaced_owner layout.now i }
{
    let groups = layout.groups.as_slice();
    match groups.get(i) {
        Some(group) if i + 1 == groups.len() => owner_in_parts(layout, i, group),
        _ => i,
    }
}

/// The group of the first misplaced input section: of a sorted section, its own group. Requires that parts end below 2^62, and that
/// shares add up to their sizes.
pub(crate) fn misplaced_place(layout: &Layout) -> Option<usize>
    requires sizes { check_sizes layout.now ≡ Ok tt }
    requires shares { check_shares layout.now ≡ Ok tt }
    ensures { result ≡ misplaced_place layout.now }
{
    match section_misplaced(layout) {
        Some(i) => Some(misplaced_owner(layout, i)),
        None => None,
    }
}
