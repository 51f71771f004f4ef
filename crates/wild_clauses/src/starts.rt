//! Clause 16: where a group's strings, frames and symbols begin.
ghost use Rattle.std.specs.Prelude.{ℕ, true, ◌≡◌, ◌+◌, ◌-◌, ◌*◌, ◌^◌, ◌≤◌};
ghost use Rattle.wild_plan_rules.specs.GroupStarts.{AreBelow, group_share_at, place_with, start_places, no_starts, no_start_places, starts_after_group, begins_at, start_astray};
ghost use Rattle.wild_plan_rules.specs.ClauseTests.{check_starts};

use crate::verdict::fails;
use wild_plan_rules::Starts;
use wild_types::{Clause, Group, Layout, Part, Role, Test, first_failing, has_role};

/// The place of the part of a role.
fn place_with(role: Role, parts: &[Part]) -> Option<usize>
    ensures { result ≡ place_with role parts.now }
{
    for (i, part) in parts.iter().enumerate() {
        if has_role(role, part) {
            return Some(i);
        }
    }
    None
}

/// The places of the parts whose shares have a start.
fn start_places(parts: &[Part]) -> Starts<Option<usize>>
    ensures { result ≡ start_places parts.now }
{
    Starts {
        dynstr: place_with(Role::Dynstr, parts),
        strtab: place_with(Role::Strtab, parts),
        frames: place_with(Role::EhFrame, parts),
        locals: place_with(Role::SymtabLocal, parts),
        globals: place_with(Role::SymtabGlobal, parts),
    }
}

/// The group's bytes in the part at that place; 0 without a place.
fn group_share_at(part: Option<usize>, group: &Group) -> u64
    ensures { result ≡ group_share_at part group.now }
{
    match part {
        Some(part) => group.given(part),
        None => 0,
    }
}

/// Where the group's share of a part ends.
fn end_of_share(from: u128, part: Option<usize>, group: &Group) -> u128
    requires { from ≤ (2 ^ 64 - 1) * 2 ^ 64 }
    ensures is { result ≡ from + group_share_at part group.now }
    ensures small { result ≤ from + 2 ^ 64 }
{
    from + u128::from(group_share_at(part, group))
}

/// Where the group's shares end.
fn starts_after_group(
    places: Starts<Option<usize>>,
    from: Starts<u128>,
    group: &Group,
) -> Starts<u128>
    requires { AreBelow ((2 ^ 64 - 1) * 2 ^ 64) from }
    ensures is { result ≡ starts_after_group places from group.now }
    ensures small { (n : ℕ) → AreBelow (n * 2 ^ 64) from → AreBelow ((n + 1) * 2 ^ 64) result }
{
    Starts {
        dynstr: end_of_share(from.dynstr, places.dynstr, group),
        strtab: end_of_share(from.strtab, places.strtab, group),
        frames: end_of_share(from.frames, places.frames, group),
        locals: end_of_share(from.locals, places.locals, group),
        globals: end_of_share(from.globals, places.globals, group),
    }
}

/// Whether the group's shares begin there.
fn begins_at(from: Starts<u128>, group: &Group) -> bool
    ensures { result ≡ begins_at from group.now }
{
    u128::from(group.dynstr_start) == from.dynstr
        && u128::from(group.strtab_start) == from.strtab
        && u128::from(group.eh_frame_start) == from.frames
        && u128::from(group.symtab_local_start) == from.locals
        && u128::from(group.symtab_global_start) == from.globals
}

fn no_starts() -> Starts<u128>
    ensures { result ≡ no_starts }
{
    Starts {
        dynstr: 0,
        strtab: 0,
        frames: 0,
        locals: 0,
        globals: 0,
    }
}

/// The first group whose shares do not begin where those of earlier groups end.
fn start_astray(places: Starts<Option<usize>>, groups: &[Group]) -> Option<usize>
    ensures { result ≡ start_astray places no_starts 0 groups.now }
{
    let mut from = no_starts();
    for (i, group) in groups.iter().enumerate() {
        if !begins_at(from, group) {
            return Some(i);
        }
        from = starts_after_group(places, from, group);
    }
    None
}

/// Whether none of these parts exists.
fn has_no_start_place(places: Starts<Option<usize>>) -> bool
    ensures { result ≡ true → places ≡ no_start_places }
{
    match places {
        Starts {
            dynstr: None,
            strtab: None,
            frames: None,
            locals: None,
            globals: None,
        } => true,
        _ => false,
    }
}

/// The group's shares begin at 0.
struct BeginsAtFront;

impl Test<Group> for BeginsAtFront {
    ghost test = { λ t. begins_at no_starts };

    fn passes(&self, group: &Group) -> bool {
        begins_at(no_starts(), group)
    }
}

/// The first group whose shares do not begin where those of earlier groups end. If none of the parts exists, shares are not added
/// up.
#[tactic(auto, using(crate::proofs::StartLemmas::none_begins))]
fn first_astray(places: Starts<Option<usize>>, groups: &[Group]) -> Option<usize>
    ensures { result ≡ start_astray places no_starts 0 groups.now }
{
    if has_no_start_place(places) {
        first_failing(&BeginsAtFront, groups)
    } else {
        start_astray(places, groups)
    }
}

#[tactic(auto, unfolding(wild_plan_rules::specs::ClauseTests::check_starts))]
pub(crate) fn check_starts(layout: &Layout) -> Result<(), Clause>
    ensures { result ≡ check_starts layout.now }
{
    let places = start_places(layout.parts.as_slice());
    fails(16, first_astray(places, layout.groups.as_slice()))
}
