//! Clause 7: shares, prelude and epilogue.
ghost use Rattle.std.specs.Prelude.{◌≡◌, true};
ghost use Rattle.wild_types.specs.Lists.{total};
ghost use Rattle.wild_types.specs.FilePlaces.{given, file_position_fits, later_positions_fit, group_positions_fit, first_misplaced_file};
ghost use Rattle.wild_needs.specs.Needs.{inner_groups_need_no_tables};
ghost use Rattle.wild_clauses.specs.Roles.{ends_misplaced};
ghost use Rattle.wild_plan_rules.specs.Contents.{share_mismatch, has_share_for_each_part};
ghost use Rattle.wild_plan_rules.specs.ClauseTests.{check_shares};
ghost use Rattle.wild_clauses.specs.FileTests.{groups_pass};

use crate::survey::failing;
use crate::verdict::fails;
use wild_types::{Clause, File, Group, Layout, Part, Test};

fn total_given(part: usize, groups: &[Group]) -> u128
    ensures { result ≡ total (given part) groups.now }
{
    let mut sum: u128 = 0;
    for group in groups {
        sum += u128::from(group.given(part));
    }
    sum
}

fn share_mismatch(groups: &[Group], parts: &[Part]) -> Option<usize>
    ensures { result ≡ share_mismatch groups.now 0 parts.now }
{
    for (i, part) in parts.iter().enumerate() {
        if total_given(i, groups) != u128::from(part.size) {
            return Some(i);
        }
    }
    None
}

/// A group has a share for each part.
#[derive(Clone, Copy)]
pub(crate) struct HasShareForEachPart {
    pub(crate) count: usize,
}

impl Test<Group> for HasShareForEachPart {
    ghost test = { λ t. has_share_for_each_part t.count };

    fn passes(&self, group: &Group) -> bool {
        group.part_sizes.len() == self.count
    }
}

fn file_position_fits(first: bool, last: bool, file: &File) -> bool
    ensures { result ≡ file_position_fits first last file.now }
{
    file.role.is_prelude() == first && file.role.is_epilogue() == last
}

fn later_positions_fit(last: bool, files: &[File]) -> bool
    ensures { result ≡ later_positions_fit last files.now }
{
    for (i, file) in files.iter().enumerate() {
        if !file_position_fits(false, last && i + 1 == files.len(), file) {
            return false;
        }
    }
    true
}

fn group_positions_fit(first: bool, last: bool, files: &[File]) -> bool
    ensures { result ≡ group_positions_fit first last files.now }
{
    match files {
        [] => !first && !last,
        [file, later @ ..] => {
            file_position_fits(first, last && later.is_empty(), file)
                && later_positions_fit(last, later)
        }
    }
}

fn first_misplaced_file(groups: &[Group]) -> Option<usize>
    ensures { result ≡ first_misplaced_file true 0 groups.now }
{
    for (i, group) in groups.iter().enumerate() {
        if !group_positions_fit(i == 0, i + 1 == groups.len(), group.files.as_slice()) {
            return Some(i);
        }
    }
    None
}

/// The same for the first and the last group; `place` is that of the last.
fn ends_misplaced(first: &Group, last: &Group, place: usize) -> Option<usize>
    ensures { result ≡ ends_misplaced first.now last.now place }
{
    if !group_positions_fit(true, false, first.files.as_slice()) {
        Some(0)
    } else if !group_positions_fit(false, true, last.files.as_slice()) {
        Some(place)
    } else {
        None
    }
}

/// The first group with a misplaced file. If `no_inner_tables` is set, no file of the inner groups must be the first or the last of all.
fn first_misplaced(layout: &Layout, no_inner_tables: bool) -> Option<usize>
    requires { no_inner_tables ≡ inner_groups_need_no_tables layout.now }
    ensures { result ≡ first_misplaced_file true 0 layout.now.groups }
{
    let groups = layout.groups.as_slice();
    match groups {
        [first, .., last] if no_inner_tables => ends_misplaced(first, last, groups.len() - 1),
        _ => first_misplaced_file(groups),
    }
}

#[tactic(auto, using(crate::proofs::PassedLemmas::shares_pass), unfolding(wild_plan_rules::specs::ClauseTests::check_shares))]
pub(crate) fn check_shares(
    layout: &Layout,
    tests_pass: bool,
    no_inner_tables: bool,
) -> Result<(), Clause>
    requires tests_pass { tests_pass ≡ groups_pass layout.now }
    requires no_inner_tables { no_inner_tables ≡ inner_groups_need_no_tables layout.now }
    ensures { result ≡ check_shares layout.now }
{
    let groups = layout.groups.as_slice();
    let count = layout.parts.len();
    fails(7, share_mismatch(groups, layout.parts.as_slice()))?;
    fails(
        7,
        failing(tests_pass, &HasShareForEachPart { count }, groups),
    )?;
    fails(7, first_misplaced(layout, no_inner_tables))
}
