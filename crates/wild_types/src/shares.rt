//! A group's shares of the parts that hold tables.
ghost use Rattle.std.specs.Prelude.{◌≡◌};
ghost use Rattle.wild_types.specs.Shares.{part_of, share_of, insufficient, excessive};

use crate::fault::{At, Error, Fault};
use crate::layout::Layout;
use crate::part::{Role, has_role};

/// The index of the first part of a role; the number of parts if there is none.
pub fn part_of(layout: &Layout, role: Role) -> usize
    ensures { result ≡ part_of layout.now role }
{
    for (i, part) in layout.parts.as_slice().iter().enumerate() {
        if has_role(role, part) {
            return i;
        }
    }
    layout.parts.len()
}

/// The group's share of the part of a role; 0 if there is no such group.
pub fn share_of(layout: &Layout, group: usize, role: Role) -> u64
    ensures { result ≡ share_of layout.now group role }
{
    match layout.groups.as_slice().get(group) {
        Some(found) => found.given(part_of(layout, role)),
        None => 0,
    }
}

/// The error that a group's share of a part, in bytes, is smaller than the bytes that it has to hold.
pub fn insufficient(part: usize, group: usize, given: u64, needed: u64) -> Error
    ensures { result ≡ insufficient part group given needed }
{
    Error {
        fault: Fault::InsufficientAllocation {
            part,
            group,
            given,
            needed,
        },
        at: At::NO_PLACE,
    }
}

/// The error that a group's share of a part, in bytes, is larger than the bytes that it has to hold.
pub fn excessive(part: usize, group: usize, given: u64, needed: u64) -> Error
    ensures { result ≡ excessive part group given needed }
{
    Error {
        fault: Fault::ExcessiveAllocation {
            part,
            group,
            given,
            needed,
        },
        at: At::NO_PLACE,
    }
}
