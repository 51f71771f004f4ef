//! The faults of clauses and shares that a changed layout has, if it had none before the change. They depend on the changed section, its
//! file and its group only.
ghost use Rattle.std.specs.Prelude.{◌≡◌, ◌-◌, ◌^◌, ◌==◌, ◌||◌, not, ◌++◌, nat_lt};
ghost use Rattle.std.specs.List.{list_any};
ghost use Rattle.wild_types.specs.Faults.{Answers};
ghost use Rattle.wild_types.specs.Lists.{first_failing};
ghost use Rattle.wild_types.specs.Parts.{has_role};
ghost use Rattle.wild_placement.specs.PlacedSections.{placed_section};
ghost use Rattle.wild_plan_rules.specs.ClauseTests.{fails};
ghost use Rattle.wild_plan_rules.specs.Places.{relocation_count, roles};
ghost use Rattle.wild_layout.specs.Faults.{clause_errors};
ghost use Rattle.wild_outlines.specs.RefusalLaws.{place_unless, needs_no_part, changed_clause, has_counted_entries, changed_share, changed_shares};

use crate::find::NamedSection;
use wild_clauses::{
    fields_lie, file_tables_fit, relocations_are_read, reversed_fits, section_indexes_fit,
};
use wild_needs::{needs, section_counts};
use wild_types::{
    At, Clause, Error, Fault, File, Group, InputSection, Layout, Part, Role, excessive,
    insufficient, is_there, place_of,
};

/// Clause `clause` fails at place `index`, unless its test passes.
fn fails_unless(clause: u32, index: usize, passes: bool) -> Result<(), Clause>
    ensures { result ≡ fails clause (place_unless index passes) }
{
    if passes {
        Ok(())
    } else {
        Err(Clause { clause, index })
    }
}

/// Whether there is no part of a role, although `count` entries need one.
fn lacks_part(layout: &Layout, role: Role, count: u64) -> bool
    ensures { result ≡ not (list_any (has_role role) layout.now.parts || count == 0) }
{
    count != 0 && !is_there(role, layout.parts.as_slice())
}

/// The place of the first role that needs a part for the dynamic relocations of a section, if the layout has no such part.
fn role_without_part(layout: &Layout, file: &File, section: &InputSection) -> Option<usize>
    ensures { result ≡ first_failing (needs_no_part layout.now (placed_section layout.now file.now 0 section.now)) 0 roles }
{
    let counts = section_counts(layout, file, section);
    if lacks_part(layout, Role::RelaDynRelative, counts.listed) {
        return Some(place_of(Role::RelaDynRelative));
    }
    if lacks_part(layout, Role::RelaDynGeneral, counts.symbolic) {
        return Some(place_of(Role::RelaDynGeneral));
    }
    if lacks_part(layout, Role::RelrDyn, counts.packed) {
        return Some(place_of(Role::RelrDyn));
    }
    None
}

/// Clause 4 fails if a role has no part that the dynamic relocations of a section need.
fn check_roles(layout: &Layout, file: &File, section: &InputSection) -> Result<(), Clause>
    ensures { result ≡ fails 4 (first_failing (needs_no_part layout.now (placed_section layout.now file.now 0 section.now)) 0 roles) }
{
    match role_without_part(layout, file, section) {
        Some(index) => Err(Clause { clause: 4, index }),
        None => Ok(()),
    }
}

/// The first clause that a change of a section of group `index` breaks. `count_fits`: the layout has fewer than 2^32 - 1 relocations.
#[tactic(auto, unfolding(wild_outlines::specs::RefusalLaws::changed_clause))]
fn check_clauses(
    layout: &Layout,
    index: usize,
    found: NamedSection<'_>,
    count_fits: bool,
) -> Result<(), Clause>
    requires { count_fits ≡ nat_lt (relocation_count layout.now) (2 ^ 32 - 1) }
    ensures { result ≡ changed_clause layout.now index found.entry.file.now found.entry.section.now }
{
    let NamedSection { file, section, .. } = found;
    let machine = layout.machine;
    fails_unless(2, 0, count_fits)?;
    check_roles(layout, file, section)?;
    fails_unless(9, index, section_indexes_fit(layout, section))?;
    fails_unless(10, index, fields_lie(machine, section))?;
    fails_unless(10, index, relocations_are_read(section))?;
    fails_unless(20, index, reversed_fits(machine, section))?;
    fails_unless(21, index, file_tables_fit(file))
}

/// Whether the share of a part of that role depends on the number of dynamic relocations.
fn has_counted_entries(role: Role) -> bool
    ensures { result ≡ has_counted_entries role }
{
    matches!(
        role,
        Role::RelaDynRelative | Role::RelaDynGeneral | Role::RelrDyn
    )
}

/// Checks the share that group `index` has of part `i`, if it depends on the number of dynamic relocations.
fn check_share(
    layout: &Layout,
    index: usize,
    group: &Group,
    i: usize,
    part: &Part,
) -> Result<(), Error>
    ensures { Answers result (changed_share layout.now index group.now i part.now) }
{
    if !has_counted_entries(part.role) {
        return Ok(());
    }
    let given = group.given(i);
    let needed = needs(layout, i, index);
    if given < needed {
        return Err(insufficient(i, index, given, needed));
    }
    if needed < given {
        return Err(excessive(i, index, given, needed));
    }
    Ok(())
}

/// Checks the shares of group `index` that depend on the number of dynamic relocations.
#[tactic(auto, using(wild_sections::proofs::FaultLemmas::first_from))]
fn check_shares(layout: &Layout, index: usize, group: &Group) -> Result<(), Error>
    ensures { Answers result (changed_shares layout.now index group.now) }
{
    for (i, part) in layout.parts.as_slice().iter().enumerate() {
        check_share(layout, index, group, i, part)?;
    }
    Ok(())
}

/// Refuses a layout with the first fault of clauses and shares that a change of a section of group `index` causes. `count_fits`: the layout has
/// fewer than 2^32 - 1 relocations.
pub(crate) fn check_changed(
    layout: &Layout,
    index: usize,
    found: NamedSection<'_>,
    count_fits: bool,
) -> Result<(), Error>
    requires { count_fits ≡ nat_lt (relocation_count layout.now) (2 ^ 32 - 1) }
    ensures { Answers result (clause_errors (changed_clause layout.now index found.entry.file.now found.entry.section.now) ++ changed_shares layout.now index found.entry.group.now) }
{
    match check_clauses(layout, index, found, count_fits) {
        Ok(()) => check_shares(layout, index, found.group),
        Err(clause) => Err(Error {
            fault: Fault::MalformedLayout {
                clause: clause.clause,
                index: clause.index,
            },
            at: At::NO_PLACE,
        }),
    }
}
