//! Clause 18: versions, and how many there are.
ghost use Rattle.std.specs.Prelude.{◌≡◌, ◌-◌, ◌^◌, ◌&&◌, nat_le, length, min, IfSome, Ok};
ghost use Rattle.std.specs.List.{filter};
ghost use Rattle.wild_types.specs.Lists.{through, total};
ghost use Rattle.wild_needs.specs.DynamicPlaces.{need_number};
ghost use Rattle.wild_needs.specs.Versions.{has_needs, need_count, file_versions, group_versions, versions_needed, most_versions, versions_fit};
ghost use Rattle.wild_clauses.specs.Survey.{are_ordinary};
ghost use Rattle.wild_plan_rules.specs.VersionTables.{parent_is_there, parent_fits, parent_astray, some_definition, definition_astray, mark_step, mark_astray};
ghost use Rattle.wild_plan_rules.specs.ClauseTests.{check_counts, check_versions};

use crate::verdict::{fails, unless};
use wild_needs::{need_count, needs_of};
use wild_types::{Clause, File, Group, Layout, Role, Test, VersionDefinition, is_there};

/// An index of a version has 16 bits (LSB, `vd_ndx`, `vn_cnt`).
const MOST_VERSIONS: u64 = 65535;

/// From how many libraries versions are needed, at most 2^64 - 1. They are counted only if some file is not ordinary.
#[tactic(auto, using(crate::proofs::SurveyLemmas::none_needed))]
pub(crate) fn needed_libraries(layout: &Layout, has_no_copies_versions_or_sorting: bool) -> u64
    requires { has_no_copies_versions_or_sorting ≡ are_ordinary layout.now.groups }
    ensures { result ≡ need_number layout.now }
{
    if has_no_copies_versions_or_sorting {
        0
    } else {
        need_count(layout)
    }
}

/// How many versions are needed from a file.
fn file_versions(file: &File) -> u64
    ensures { result ≡ file_versions file.now }
{
    match needs_of(file) {
        Some(needs) => needs.versions.len() as u64,
        None => 0,
    }
}

/// At most 2^64 - 1.
fn versions_in(files: &[File]) -> u64
    ensures { result ≡ min (2 ^ 64 - 1) (total file_versions files.now) }
{
    let mut count: u64 = 0;
    for file in files {
        count = count.saturating_add(file_versions(file));
    }
    count
}

/// At most 2^64 - 1.
fn versions_of_groups(groups: &[Group]) -> u64
    ensures { result ≡ min (2 ^ 64 - 1) (total group_versions groups.now) }
{
    let mut count: u64 = 0;
    for group in groups {
        count = count.saturating_add(versions_in(group.files.as_slice()));
    }
    count
}

/// How many versions are needed from all libraries, at most 2^64 - 1.
#[tactic(auto, using(crate::proofs::VersionLemmas::all_versions))]
fn versions_needed(layout: &Layout) -> u64
    ensures { result ≡ min (2 ^ 64 - 1) (versions_needed layout.now) }
{
    versions_of_groups(layout.groups.as_slice())
}

/// Whether each needed version can have an index; `count` libraries have some. Versions are counted only if `count` is not 0.
#[tactic(auto, using(crate::proofs::VersionLemmas::none_needed), unfolding(wild_needs::specs::DynamicPlaces::need_number))]
fn needs_fit(layout: &Layout, count: u64) -> bool
    requires { count ≡ need_number layout.now }
    ensures { result ≡ (nat_le (need_count layout.now) most_versions && nat_le (versions_needed layout.now) most_versions) }
{
    count == 0 || count <= MOST_VERSIONS && versions_needed(layout) <= MOST_VERSIONS
}

/// Whether each version can have an index.
pub(crate) fn versions_fit(layout: &Layout, count: u64) -> bool
    requires { count ≡ need_number layout.now }
    ensures { result ≡ versions_fit layout.now }
{
    layout.verdefs.len() as u64 <= MOST_VERSIONS && needs_fit(layout, count)
}

/// A version's parent is in the list.
#[derive(Clone, Copy)]
pub(crate) struct ParentIsThere<'a> {
    pub(crate) layout: &'a Layout,
}

impl Test<VersionDefinition> for ParentIsThere<'_> {
    ghost test = { λ t. parent_is_there t.layout.now };

    fn passes(&self, definition: &VersionDefinition) -> bool {
        match definition.parent {
            Some(parent) => parent < self.layout.verdefs.len(),
            None => true,
        }
    }
}

/// The first version is the output's own name and has no parent; a later version's parent, if any, comes before it and is not the
/// first.
fn parent_fits(place: usize, parent: Option<usize>) -> bool
    ensures { result ≡ parent_fits place parent }
{
    match parent {
        Some(parent) => 0 < parent && parent < place,
        None => true,
    }
}

fn parent_astray(definitions: &[VersionDefinition]) -> Option<usize>
    ensures { result ≡ parent_astray 0 definitions.now }
{
    for (i, definition) in definitions.iter().enumerate() {
        if !parent_fits(i, definition.parent) {
            return Some(i);
        }
    }
    None
}

/// Place 0 if there is none.
fn some_definition(definitions: &[VersionDefinition]) -> Option<usize>
    ensures { result ≡ some_definition definitions.now }
{
    if definitions.is_empty() {
        Some(0)
    } else {
        parent_astray(definitions)
    }
}

/// The first version whose parent does not fit, if there is a part for versions.
fn definition_astray(layout: &Layout) -> Option<usize>
    ensures { result ≡ definition_astray layout.now }
{
    if is_there(Role::GnuVersionD, layout.parts.as_slice()) {
        some_definition(layout.verdefs.as_slice())
    } else {
        None
    }
}

/// How many libraries with versions remain after a file; none if its mark does not fit: only the last is marked.
fn mark_step(left: u64, file: &File) -> Option<u64>
    ensures { result ≡ mark_step left file.now }
{
    match needs_of(file) {
        Some(needs) if needs.last == (left == 1) => Some(left.saturating_sub(1)),
        Some(_) => None,
        None => Some(left),
    }
}

/// The same after files.
fn marks_left(left: u64, files: &[File]) -> Option<u64>
    ensures walk { result ≡ through mark_step left files.now }
    ensures fewer { IfSome result (λ next. next ≡ left - length (filter has_needs files.now)) }
{
    let mut left = left;
    for file in files {
        left = mark_step(left, file)?;
    }
    Some(left)
}

/// The first group with a mark that does not fit, if this many libraries have versions.
fn mark_astray(count: u64, groups: &[Group]) -> Option<usize>
    ensures { result ≡ mark_astray count 0 groups.now }
{
    let mut left = count;
    for (i, group) in groups.iter().enumerate() {
        match marks_left(left, group.files.as_slice()) {
            Some(next) => left = next,
            None => return Some(i),
        }
    }
    None
}

/// If the counts fit, the number of libraries with versions is exact.
#[tactic(auto, using(crate::proofs::VersionLemmas::few_needs), unfolding(wild_needs::specs::DynamicPlaces::need_number))]
fn exact_need_count(layout: &Layout, count: u64) -> u64
    requires needs { count ≡ need_number layout.now }
    requires counts { check_counts layout.now ≡ Ok tt }
    ensures { result ≡ need_count layout.now }
{
    count
}

/// The first group with a mark that does not fit. If no library has versions, none is searched.
#[tactic(auto, using(crate::proofs::VersionLemmas::nothing_marked))]
fn wrong_mark(layout: &Layout, count: u64) -> Option<usize>
    requires needs { count ≡ need_number layout.now }
    requires counts { check_counts layout.now ≡ Ok tt }
    ensures { result ≡ mark_astray (need_count layout.now) 0 layout.now.groups }
{
    let count = exact_need_count(layout, count);
    if count == 0 {
        return None;
    }
    mark_astray(count, layout.groups.as_slice())
}

/// Requires that the counts fit; `count` libraries have needed versions.
#[tactic(auto, unfolding(wild_plan_rules::specs::ClauseTests::check_versions))]
pub(crate) fn check_versions(layout: &Layout, count: u64) -> Result<(), Clause>
    requires needs { count ≡ need_number layout.now }
    requires counts { check_counts layout.now ≡ Ok tt }
    ensures { result ≡ check_versions layout.now }
{
    fails(18, definition_astray(layout))?;
    fails(18, wrong_mark(layout, count))?;
    let has_versions = is_there(Role::GnuVersion, layout.parts.as_slice());
    fails(18, unless(layout.options.versions == has_versions))
}
