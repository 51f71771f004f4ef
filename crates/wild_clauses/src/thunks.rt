//! Clause 12: addresses of thunks.
ghost use Rattle.std.specs.Prelude.{◌≡◌, ◌+◌, ◌*◌, ◌^◌, ◌<◌, ◌≤◌, length, IfOk, Some};
ghost use Rattle.std.specs.List.{list_any};
ghost use Rattle.wild_placement.specs.PlacedSections.{sorted_input};
ghost use Rattle.wild_clauses.specs.SortedOrder.{sorted_as_loaded, sections_of, sections_by_order};
ghost use Rattle.wild_plan_rules.specs.SlotPlaces.{walk};
ghost use Rattle.wild_plan_rules.specs.Thunks.{has_thunks, ascends_from, ascends, next_code, are_consecutive_from, end_of_thunks, block_step, section_step, bytes_step, sections_in_ranges, file_step, misplaced_from, misplaced_in, thunks_misplaced, owns, is_owned, block_lost, machine_takes};
ghost use Rattle.wild_plan_rules.specs.ClauseTests.{check_thunks};

use crate::sorted_sections::has_ordered_bytes;
use crate::verdict::fails;
use wild_placement::sorted_input;
use wild_types::{
    Clause, File, Group, InputSection, Layout, Machine, Part, SortedSection, Test, Thunk,
    first_failing, wide_sum,
};
use wild_words::Items;

/// The size of a thunk: three instructions.
const THUNK_SIZE: u128 = wild_types::THUNK_SIZE as u128;

/// Whether there are thunks.
pub(crate) fn has_thunks(layout: &Layout) -> bool
    ensures { result ≡ has_thunks layout.now }
{
    for block in layout.thunk_blocks.as_slice() {
        if block.len() != 0 {
            return true;
        }
    }
    false
}

fn symbols_ascend(thunks: &[Thunk]) -> bool
    ensures { result ≡ ascends thunks.now }
{
    let mut low: u128 = 0;
    for thunk in thunks {
        let symbol = thunk.symbol.0 as u128;
        if symbol < low {
            return false;
        }
        low = symbol + 1;
    }
    true
}

/// The thunks of a block ascend by their symbols.
struct Ascends;

impl Test<Items<Thunk>> for Ascends {
    ghost test = { λ t. ascends };

    fn passes(&self, block: &Items<Thunk>) -> bool {
        symbols_ascend(block.as_slice())
    }
}

/// Whether consecutive thunks begin at a place.
fn are_consecutive_from(at: u128, thunks: &[Thunk]) -> bool
    requires { at < 2 ^ 127 }
    ensures { result ≡ are_consecutive_from at thunks.now }
{
    let mut at = at;
    for thunk in thunks {
        if u128::from(thunk.address) != at {
            return false;
        }
        at += THUNK_SIZE;
    }
    true
}

/// The place after consecutive thunks that begin at a place and end at `end` or before; else the number of their block.
fn end_of_thunks(block: usize, end: u128, at: u128, thunks: &[Thunk]) -> Result<u128, usize>
    requires { at < 2 ^ 127 }
    ensures is { result ≡ end_of_thunks block end at thunks.now }
    ensures small { IfOk result (λ n. n ≤ end) }
{
    let behind = at + THUNK_SIZE * thunks.len() as u128;
    if are_consecutive_from(at, thunks) && behind <= end {
        Ok(behind)
    } else {
        Err(block)
    }
}

/// The place after the thunks of a block, which begin at the next place for an instruction.
fn block_step(block: usize, end: u128, at: u128, thunks: &[Thunk]) -> Result<u128, usize>
    requires small { at ≤ 2 ^ 65 }
    requires near { end ≤ 2 ^ 65 }
    ensures is { result ≡ block_step block end at thunks.now }
    ensures small { IfOk result (λ n. n ≤ 2 ^ 65) }
{
    if thunks.is_empty() {
        return Ok(at);
    }
    end_of_thunks(block, end, (at + 3) / 4 * 4, thunks)
}

/// The place after a section with bytes, if the section is in the primary part; the number of its group if the section begins
/// before the free place.
fn step_bytes(primary: usize, group: usize, at: u128, section: &InputSection) -> Result<u128, usize>
    requires { at ≤ 2 ^ 65 }
    ensures is { result ≡ bytes_step primary group at section.now }
    ensures small { IfOk result (λ n. n ≤ 2 ^ 65) }
{
    if section.part != primary {
        return Ok(at);
    }
    if u128::from(section.address) < at {
        return Err(group);
    }
    Ok(wide_sum(section.address, section.size))
}

/// The same for a section of a file, which has a place only if it has bytes.
#[tactic(auto, using(crate::proofs::OrderedLemmas::filled_step, crate::proofs::OrderedLemmas::unfilled_step))]
fn section_step(
    layout: &Layout,
    group: usize,
    at: u128,
    section: &InputSection,
) -> Result<u128, usize>
    requires { at ≤ 2 ^ 65 }
    ensures is { result ≡ section_step layout.now group at section.now }
    ensures small { IfOk result (λ n. n ≤ 2 ^ 65) }
{
    if !section.has_range_bytes(layout) {
        return Ok(at);
    }
    step_bytes(layout.primary_part, group, at, section)
}

/// The same for a sorted section.
#[tactic(auto, using(crate::proofs::OrderedLemmas::ordered_step, crate::proofs::OrderedLemmas::unfilled_step))]
fn ordered_step(
    layout: &Layout,
    group: usize,
    at: u128,
    section: &InputSection,
) -> Result<u128, usize>
    requires { at ≤ 2 ^ 65 }
    ensures is { result ≡ section_step layout.now group at (sorted_as_loaded layout.now section.now) }
    ensures small { IfOk result (λ n. n ≤ 2 ^ 65) }
{
    if !has_ordered_bytes(layout, section) {
        return Ok(at);
    }
    step_bytes(layout.primary_part, group, at, section)
}

/// The same for the section that an entry of the order names.
#[tactic(auto, using(crate::proofs::OrderedLemmas::then_ok), unfolding(wild_plan_rules::specs::SlotPlaces::walk))]
fn step_entry(layout: &Layout, group: usize, at: u128, entry: SortedSection) -> Result<u128, usize>
    requires { at ≤ 2 ^ 65 }
    ensures is { result ≡ walk (section_step layout.now group) at (sections_of (sorted_input layout.now entry)) }
    ensures small { IfOk result (λ n. n ≤ 2 ^ 65) }
{
    match sorted_input(layout, entry) {
        Some(found) => ordered_step(layout, group, at, found.section),
        None => Ok(at),
    }
}

/// The same for some entries of the order.
#[tactic(auto, unfolding(wild_plan_rules::specs::SlotPlaces::walk))]
fn walk_order(
    layout: &Layout,
    group: usize,
    at: u128,
    order: &[SortedSection],
) -> Result<u128, usize>
    requires { at ≤ 2 ^ 65 }
    ensures is { result ≡ walk (section_step layout.now group) at (sections_by_order layout.now order.now) }
    ensures small { IfOk result (λ n. n ≤ 2 ^ 65) }
{
    let mut at = at;
    for entry in order {
        at = step_entry(layout, group, at, *entry)?;
    }
    Ok(at)
}

/// The same for some sections.
#[tactic(auto, unfolding(wild_plan_rules::specs::SlotPlaces::walk))]
fn walk_sections(
    layout: &Layout,
    group: usize,
    at: u128,
    sections: &[InputSection],
) -> Result<u128, usize>
    requires { at ≤ 2 ^ 65 }
    ensures is { result ≡ walk (section_step layout.now group) at sections.now }
    ensures small { IfOk result (λ n. n ≤ 2 ^ 65) }
{
    let mut at = at;
    for section in sections {
        at = section_step(layout, group, at, section)?;
    }
    Ok(at)
}

/// The place after the sections of a file, and for the last file after the sorted ones.
#[tactic(auto, using(crate::proofs::OrderedLemmas::walk_sections_in_ranges), unfolding(wild_plan_rules::specs::SlotPlaces::walk))]
fn walk_sections_in_ranges(
    layout: &Layout,
    group: usize,
    at: u128,
    file: &File,
) -> Result<u128, usize>
    requires { at ≤ 2 ^ 65 }
    ensures is { result ≡ walk (section_step layout.now group) at (sections_in_ranges layout.now file.now) }
    ensures small { IfOk result (λ n. n ≤ 2 ^ 65) }
{
    let at = walk_sections(layout, group, at, file.sections.as_slice())?;
    if !file.role.is_epilogue() {
        return Ok(at);
    }
    walk_order(layout, group, at, layout.sorted.as_slice())
}

/// The place after the sections and the thunks of a file.
fn file_step(layout: &Layout, group: usize, end: u128, at: u128, file: &File) -> Result<u128, usize>
    requires small { at ≤ 2 ^ 65 }
    requires near { end ≤ 2 ^ 65 }
    ensures is { result ≡ file_step layout.now group end at file.now }
    ensures small { IfOk result (λ n. n ≤ 2 ^ 65) }
{
    let at = walk_sections_in_ranges(layout, group, at, file)?;
    block_step(file.thunk_block, end, at, layout.thunks_of(file))
}

/// The same for some files.
#[tactic(auto, unfolding(wild_plan_rules::specs::SlotPlaces::walk))]
fn walk_files(
    layout: &Layout,
    group: usize,
    end: u128,
    at: u128,
    files: &[File],
) -> Result<u128, usize>
    requires small { at ≤ 2 ^ 65 }
    requires near { end ≤ 2 ^ 65 }
    ensures { result ≡ walk (file_step layout.now group end) at files.now }
{
    let mut at = at;
    for file in files {
        at = file_step(layout, group, end, at, file)?;
    }
    Ok(at)
}

/// The first misplaced thunk or section, in a part that ends at `last`: the number of its block or group.
fn misplaced_from(layout: &Layout, start: u64, last: u128) -> Option<usize>
    requires { last ≤ 2 ^ 65 }
    ensures { result ≡ misplaced_from layout.now last start 0 layout.now.groups }
{
    let mut start = u128::from(start);
    for (i, group) in layout.groups.as_slice().iter().enumerate() {
        let end = start + u128::from(group.given(layout.primary_part));
        if last < end {
            return Some(i);
        }
        if let Err(place) = walk_files(layout, i, end, start, group.files.as_slice()) {
            return Some(place);
        }
        start = end;
    }
    None
}

fn misplaced_in(layout: &Layout, part: &Part) -> Option<usize>
    ensures { result ≡ misplaced_in layout.now (Some part.now) }
{
    misplaced_from(layout, part.address, wide_sum(part.address, part.size))
}

/// The same, if there are thunks.
fn thunks_misplaced(layout: &Layout) -> Option<usize>
    ensures { result ≡ thunks_misplaced layout.now }
{
    match layout.parts.as_slice().get(layout.primary_part) {
        Some(part) if has_thunks(layout) => misplaced_in(layout, part),
        _ => None,
    }
}

/// Whether one of the files owns the block of that number.
fn own(block: usize, files: &[File]) -> bool
    ensures { result ≡ list_any (owns block) files.now }
{
    for file in files {
        if file.owns_thunk_block && file.thunk_block == block {
            return true;
        }
    }
    false
}

fn is_owned(layout: &Layout, block: usize) -> bool
    ensures { result ≡ is_owned layout.now block }
{
    for group in layout.groups.as_slice() {
        if own(block, group.files.as_slice()) {
            return true;
        }
    }
    false
}

/// The first block with thunks that no file owns.
fn block_lost(layout: &Layout) -> Option<usize>
    ensures { result ≡ block_lost layout.now 0 layout.now.thunk_blocks }
{
    for (i, block) in layout.thunk_blocks.as_slice().iter().enumerate() {
        if block.len() != 0 && !is_owned(layout, i) {
            return Some(i);
        }
    }
    None
}

/// The machine has thunks, or the block has none.
#[derive(Clone, Copy)]
struct MachineTakes {
    machine: Machine,
}

impl Test<Items<Thunk>> for MachineTakes {
    ghost test = { λ t. machine_takes t.machine };

    fn passes(&self, block: &Items<Thunk>) -> bool {
        match self.machine {
            Machine::AArch64 => true,
            Machine::X86_64 => block.len() == 0,
        }
    }
}

#[tactic(auto, unfolding(wild_plan_rules::specs::ClauseTests::check_thunks))]
pub(crate) fn check_thunks(layout: &Layout) -> Result<(), Clause>
    ensures { result ≡ check_thunks layout.now }
{
    let blocks = layout.thunk_blocks.as_slice();
    let machine = layout.machine;
    fails(12, first_failing(&Ascends, blocks))?;
    fails(12, thunks_misplaced(layout))?;
    fails(12, block_lost(layout))?;
    fails(12, first_failing(&MachineTakes { machine }, blocks))
}
