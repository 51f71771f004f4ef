//! Whether a layout is well formed: its clauses, in their order.
ghost use Rattle.std.specs.Prelude.{◌≡◌};
ghost use Rattle.wild_types.specs.Lists.{unless};
ghost use Rattle.wild_plan_rules.specs.ClauseTests.{fails};
ghost use Rattle.wild_plan_rules.specs.WellFormed.{first_clause};
ghost use Rattle.wild_clauses.specs.LayoutSurvey.{IsLayoutSurvey};

use crate::counts::check_counts;
use crate::dynsyms::check_dynsyms;
use crate::fields::check_fields;
use crate::fronts::{check_fronts, check_reversed};
use crate::hashes::check_hashes;
use crate::indexes::check_indexes;
use crate::inputs::check_inputs;
use crate::layout_survey::LayoutSurvey;
use crate::names::check_names;
use crate::order::check_order;
use crate::partial::check_partial;
use crate::roles::check_roles;
use crate::sections::check_sections;
use crate::segments::check_segments;
use crate::shares::check_shares;
use crate::sizes::check_sizes;
use crate::slot_flags::{are_simple, check_slot_flags};
use crate::slots::check_slots;
use crate::starts::check_starts;
use crate::threads::check_tls;
use crate::thunks::check_thunks;
use crate::versions::{check_versions, needed_libraries};
use wild_types::{Clause, Layout};

/// Clause `clause` fails at that place, if there is one.
pub(crate) fn fails(clause: u32, place: Option<usize>) -> Result<(), Clause>
    ensures { result ≡ fails clause place }
{
    match place {
        Some(index) => Err(Clause { clause, index }),
        None => Ok(()),
    }
}

/// Place 0 if a test of the whole layout fails.
pub(crate) fn unless(ok: bool) -> Option<usize>
    ensures { result ≡ unless ok }
{
    if ok { None } else { Some(0) }
}

/// Whether the layout is well formed: if not, its first clause that fails, with the place of the first item that
/// fails it. It takes no memory.
pub fn well_formed(layout: &Layout) -> Result<(), Clause>
    ensures { result ≡ first_clause layout.now }
{
    well_formed_with(layout, LayoutSurvey::of(layout))
}

/// The same, with the properties of the layout that the caller has already computed.
#[tactic(auto, unfolding(wild_plan_rules::specs::WellFormed::first_clause))]
pub fn well_formed_with(layout: &Layout, seen: LayoutSurvey) -> Result<(), Clause>
    requires { IsLayoutSurvey layout.now seen }
    ensures { result ≡ first_clause layout.now }
{
    let LayoutSurvey {
        inner_groups_need_no_tables: no_inner_tables,
        ranges_in_order,
        tests_pass,
        has_no_copies_versions_or_sorting,
        relocations,
        ..
    } = seen;
    let needs = needed_libraries(layout, has_no_copies_versions_or_sorting);
    let simple = are_simple(layout);
    check_sizes(layout, tests_pass)?;
    check_counts(layout, ranges_in_order, needs, relocations)?;
    check_order(layout)?;
    check_roles(layout, no_inner_tables)?;
    check_sections(layout)?;
    check_segments(layout)?;
    check_shares(layout, tests_pass, no_inner_tables)?;
    check_inputs(layout, tests_pass, has_no_copies_versions_or_sorting)?;
    check_indexes(
        layout,
        tests_pass,
        ranges_in_order,
        has_no_copies_versions_or_sorting,
    )?;
    check_fields(layout, tests_pass)?;
    check_slots(layout, simple)?;
    check_thunks(layout)?;
    check_dynsyms(layout, simple)?;
    check_slot_flags(layout, simple)?;
    check_tls(layout)?;
    check_starts(layout)?;
    check_hashes(layout)?;
    check_versions(layout, needs)?;
    check_names(layout, tests_pass)?;
    check_reversed(layout, tests_pass)?;
    check_partial(layout, tests_pass)?;
    check_fronts(layout)
}
