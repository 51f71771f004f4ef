//! Writes items: input bytes with their relocations applied.
ghost use Rattle.std.specs.Prelude.{◌≡◌, [], length, Ok, None, OnOk, IfOk, IfErr, All, true, slice_get, ◌<◌, ◌^◌};
ghost use Rattle.std.specs.List.{flat_map, range_with_len};
ghost use Rattle.wild_words.specs.Overlay.{overlay, AreDisjoint};
ghost use Rattle.wild_words.specs.Extents.{least_extent};
ghost use Rattle.wild_types.specs.Faults.{Answers, Refuses};
ghost use Rattle.wild_types.specs.Item.{item_now};
ghost use Rattle.wild_layout.specs.Decide.{decide};
ghost use Rattle.wild_layout.specs.Sites.{item_bytes, shared_byte, MovesApart};
ghost use Rattle.wild_layout.specs.Image.{offset_in};
ghost use Rattle.wild_layout.specs.Faults.{at_section, relocation_errors, overlap_errors, relocations_errors, item_errors};
ghost use Rattle.wild_layout.specs.SectionPlaces.{FieldLies};
ghost use Rattle.wild_sections.specs.Origins.{ending_errors};
ghost use Rattle.wild_sections.specs.WrittenDecisions.{AreDecided, DecisionsLie, IsNext, decided_sites, decided_extents};

use crate::calls::near_value;
use crate::choice::may_take_next;
use crate::decide::decide;
use crate::fields::{write_ascending_decision, write_ascending_u32, write_decision};
use crate::origin::{Origin, check_ending};
use crate::overlap::shared_byte;
use crate::values::Resolved;
use std::alloc::Global;
use wild_layout::Decision;
use wild_relax::Arch;
use wild_types::{Error, Fault, ItemRef, Part};

/// Decides a relocation of an item of the section at that place, or returns its fault.
#[inline(always)]
fn decide_at<A: Arch>(
    resolved: &Resolved<A>,
    origin: &Origin,
    item: &ItemRef,
    index: usize,
) -> Result<Decision, Error>
    requires index { index < length item.now.relocations.now }
    requires origins { length origin.now.relocations.now ≡ length item.now.relocations.now }
    ensures faults { Answers result (relocation_errors resolved.now.layout.now origin.now.place.group origin.now.place.file origin.now.place.section (item_now item.now) origin.now.relocations.now index) }
    ensures decision { IfOk result (λ d. decide resolved.now.layout.now (item_now item.now) index ≡ Ok d) }
{
    let relocations = origin.relocations;
    let relocation = &relocations[index];
    match decide(resolved, item, index) {
        Ok(decision) => Ok(decision),
        Err(fault) => Err(Error {
            fault,
            at: origin.place.offset(relocation.offset),
        }),
    }
}

/// Decides all relocations of an item, or returns the first fault.
fn decide_all<A: Arch>(
    alloc: Global,
    resolved: &Resolved<A>,
    origin: &Origin,
    item: &ItemRef,
) -> Result<Vec<Decision>, Error>
    requires origins { length origin.now.relocations.now ≡ length item.now.relocations.now }
    ensures faults { Answers result (flat_map (relocation_errors resolved.now.layout.now origin.now.place.group origin.now.place.file origin.now.place.section (item_now item.now) origin.now.relocations.now) (range_with_len 0 (length item.now.relocations.now))) }
    ensures decisions { IfOk result (λ v. AreDecided resolved.now.layout.now (item_now item.now) v.items) }
{
    let count = item.relocations.len();
    let mut decisions = Vec::with_capacity(alloc, count)?;
    for index in 0..count {
        decisions.push(decide_at(resolved, origin, item, index)?)?;
    }
    Ok(decisions)
}

/// Refuses an item if two of its relocations write the same byte of the input.
fn check_overlap(
    alloc: Global,
    origin: &Origin,
    item: &ItemRef,
    decisions: &[Decision],
) -> Result<(), Error>
    requires count { length decisions.now ≡ length item.now.relocations.now }
    requires origins { length origin.now.relocations.now ≡ length item.now.relocations.now }
    ensures { Answers result (overlap_errors (at_section origin.now.place.group origin.now.place.file origin.now.place.section) (least_extent (decided_extents item.now.relocations.now origin.now.relocations.now decisions.now))) }
{
    match shared_byte(alloc, item.relocations, origin.relocations, decisions)? {
        Some(byte) => Err(Error {
            fault: Fault::OverlappingSites { byte },
            at: origin.place.section(),
        }),
        None => Ok(()),
    }
}

/// Writes the decided relocations of an item over its bytes. Their fields are disjoint, so each instruction is made from the item's own
/// bytes.
fn write_decisions(item: &ItemRef, decisions: &[Decision], room: &mut [u8])
    requires count { length decisions.now ≡ length item.now.relocations.now }
    requires bytes { room.old ≡ item.now.bytes.now }
    requires lie { DecisionsLie (length room.old) item.now.relocations.now decisions.now }
    requires apart { AreDisjoint (length room.old) (decided_sites (item_now item.now) item.now.relocations.now decisions.now) }
    ensures { room.new ≡ overlay (decided_sites (item_now item.now) item.now.relocations.now decisions.now) room.old }
{
    let relocations = item.relocations;
    for i in 0..decisions.len() {
        write_decision(&relocations[i], decisions[i], room);
    }
}

/// Decides a relocation and writes it if its bytes begin at `end_of_last_field` or after it; returns their end, otherwise None.
#[inline(never)]
fn write_decided<A: Arch>(
    resolved: &Resolved<A>,
    origin: &Origin,
    item: &ItemRef,
    index: usize,
    end_of_last_field: u64,
    room: &mut [u8],
) -> Result<Option<u64>, Error>
    requires index { index < length item.now.relocations.now }
    requires origins { length origin.now.relocations.now ≡ length item.now.relocations.now }
    requires lies { All (FieldLies resolved.now.layout.now.machine (length room.old)) item.now.relocations.now }
    requires whole { length room.old ≡ length item.now.bytes.now }
    ensures faults { Answers result (relocation_errors resolved.now.layout.now origin.now.place.group origin.now.place.file origin.now.place.section (item_now item.now) origin.now.relocations.now index) }
    ensures next { IfOk result (λ next. IsNext resolved.now.layout.now (item_now item.now) index end_of_last_field next room.old room.new) }
{
    let decision = decide_at(resolved, origin, item, index)?;
    let relocations = item.relocations;
    let relocation = &relocations[index];
    Ok(write_ascending_decision(end_of_last_field, relocation, decision, room))
}

/// Writes the relocations of an item over its bytes, as long as the bytes of each begin at the end of the previous ones or after it.
/// Returns whether all did, or the first fault of a relocation.
fn write_ascending<A: Arch>(
    resolved: &Resolved<A>,
    origin: &Origin,
    item: &ItemRef,
    room: &mut [u8],
) -> Result<bool, Error>
    requires lies { All (FieldLies resolved.now.layout.now.machine (length room.old)) item.now.relocations.now }
    requires bytes { room.old ≡ item.now.bytes.now }
    requires moves { MovesApart resolved.now.layout.now (item_now item.now) origin.now.relocations.now }
    ensures faults { IfErr result (λ e. Refuses e (relocations_errors resolved.now.layout.now origin.now.place.group origin.now.place.file origin.now.place.section (item_now item.now) origin.now.relocations.now)) }
    ensures none { IfOk result (λ all. all ≡ true → relocations_errors resolved.now.layout.now origin.now.place.group origin.now.place.file origin.now.place.section (item_now item.now) origin.now.relocations.now ≡ []) }
    ensures apart { IfOk result (λ all. all ≡ true → shared_byte resolved.now.layout.now (item_now item.now) origin.now.relocations.now ≡ None) }
    ensures bytes { IfOk result (λ all. all ≡ true → room.new ≡ item_bytes resolved.now.layout.now (item_now item.now)) }
{
    let relocations = item.relocations;
    let targets = resolved.targets();
    let mut end_of_last_field = 0;
    // Whether rows for the previous relocation's type may include this one.
    let mut partner = false;
    for index in 0..relocations.len() {
        let relocation = &relocations[index];
        let end = match near_value(resolved, targets, item, index, relocation, partner) {
            Some(value) => {
                partner = false;
                write_ascending_u32(end_of_last_field, relocation.offset, value, room)
            }
            None => {
                partner = may_take_next(relocation.number);
                write_decided(resolved, origin, item, index, end_of_last_field, room)?
            }
        };
        match end {
            Some(end) => end_of_last_field = end,
            None => return Ok(false),
        }
    }
    Ok(true)
}

/// Writes the bytes of an item whose relocations are in any order. Decides all relocations, and checks that their fields are disjoint,
/// before it writes one; returns the first fault.
fn write_apart<A: Arch>(
    alloc: Global,
    resolved: &Resolved<A>,
    origin: &Origin,
    item: &ItemRef,
    room: &mut [u8],
) -> Result<(), Error>
    requires lies { All (FieldLies resolved.now.layout.now.machine (length room.old)) item.now.relocations.now }
    requires room { length room.old ≡ length item.now.bytes.now }
    requires moves { MovesApart resolved.now.layout.now (item_now item.now) origin.now.relocations.now }
    ensures faults { Answers result (item_errors resolved.now.layout.now origin.now.place.group origin.now.place.file origin.now.place.section (item_now item.now) origin.now.relocations.now (ending_errors origin.now.place origin.now.ending)) }
    ensures bytes { OnOk result (room.new ≡ item_bytes resolved.now.layout.now (item_now item.now)) }
{
    let decisions = decide_all(alloc, resolved, origin, item)?;
    check_ending(origin)?;
    check_overlap(alloc, origin, item, &decisions)?;
    room.copy_from_slice(item.bytes);
    write_decisions(item, &decisions, room);
    Ok(())
}

/// Writes the bytes of an item with its relocations applied, or returns its first fault, with its place in the input. Relocations sorted
/// by offset are decided and written in one pass; only others allocate memory.
pub fn write_data<A: Arch>(
    alloc: Global,
    resolved: &Resolved<A>,
    origin: &Origin,
    item: &ItemRef,
    room: &mut [u8],
) -> Result<(), Error>
    requires lies { All (FieldLies resolved.now.layout.now.machine (length room.old)) item.now.relocations.now }
    requires room { length room.old ≡ length item.now.bytes.now }
    requires moves { MovesApart resolved.now.layout.now (item_now item.now) origin.now.relocations.now }
    ensures faults { Answers result (item_errors resolved.now.layout.now origin.now.place.group origin.now.place.file origin.now.place.section (item_now item.now) origin.now.relocations.now (ending_errors origin.now.place origin.now.ending)) }
    ensures bytes { OnOk result (room.new ≡ item_bytes resolved.now.layout.now (item_now item.now)) }
{
    room.copy_from_slice(item.bytes);
    if write_ascending(resolved, origin, item, room)? {
        return check_ending(origin);
    }
    write_apart(alloc, resolved, origin, item, room)
}

/// The file offset of an address in a part.
pub fn offset_of(parts: &[Part], part: usize, address: u64) -> u64
    requires { offset_in (slice_get parts.now part) address < 2 ^ 64 }
    ensures { result ≡ offset_in (slice_get parts.now part) address }
{
    match parts.get(part) {
        Some(part) => part.offset + address.saturating_sub(part.address),
        None => 0,
    }
}
