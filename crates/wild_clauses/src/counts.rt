//! Clause 2: counts.
ghost use Rattle.std.specs.Prelude.{◌≡◌, ◌+◌, ◌-◌, ◌^◌, min, length, is_some};
ghost use Rattle.wild_needs.specs.Needs.{total_share};
ghost use Rattle.wild_needs.specs.DynamicPlaces.{need_number};
ghost use Rattle.wild_clauses.specs.SymbolIndexes.{all_ranges_lie};
ghost use Rattle.wild_plan_rules.specs.Counts.{symbols_of, table_fits, lists_fit, counts_fit};
ghost use Rattle.wild_plan_rules.specs.Places.{relocation_count};
ghost use Rattle.wild_types.specs.Lists.{total};
ghost use Rattle.wild_plan_rules.specs.ClauseTests.{check_counts};

use crate::verdict::{fails, unless};
use crate::versions::versions_fit;
use wild_needs::{name_bytes, table_length, total_share};
use wild_types::{Clause, Group, Layout, Role};

/// How many symbols the ranges of a group's files have, at most 2^64 - 1.
fn symbols_of_group(group: &Group) -> usize
    ensures { result ≡ min (2 ^ 64 - 1) (symbols_of group.now) }
{
    let mut count: usize = 0;
    for file in group.files.as_slice() {
        count = count.saturating_add(file.symbol_count);
    }
    count
}

/// At most 2^64 - 1.
fn symbols_of_groups(groups: &[Group]) -> usize
    ensures { result ≡ min (2 ^ 64 - 1) (total symbols_of groups.now) }
{
    let mut count: usize = 0;
    for group in groups {
        count = count.saturating_add(symbols_of_group(group));
    }
    count
}

/// An upper bound of the number of entries of the dynamic symbol table.
fn most_entries(layout: &Layout) -> usize
    ensures { result ≡ min (2 ^ 64 - 1) (min (2 ^ 64 - 1) (total symbols_of layout.now.groups) + length layout.now.dynsyms) }
{
    symbols_of_groups(layout.groups.as_slice()).saturating_add(layout.dynsyms.len())
}

/// Whether that table is not too long. If the files' ranges are in order, they have no more symbols than the layout, and its
/// entries need not be counted.
#[tactic(auto, using(crate::proofs::CountLemmas::few_in_order, crate::proofs::CountLemmas::few_entries))]
fn table_fits(layout: &Layout, ranges_in_order: bool) -> bool
    requires { ranges_in_order ≡ is_some (all_ranges_lie (length layout.now.symbols) 0 layout.now.groups) }
    ensures { result ≡ table_fits layout.now }
{
    let all = layout.symbols.len().saturating_add(layout.dynsyms.len());
    if ranges_in_order && all < (1 << 32) - 1 {
        return true;
    }
    most_entries(layout) < (1 << 32) - 1 || table_length(layout) < (1 << 32) - 1
}

/// Whether no list is too long.
fn lists_fit(layout: &Layout, ranges_in_order: bool, relocations: u64) -> bool
    requires ranges_in_order { ranges_in_order ≡ is_some (all_ranges_lie (length layout.now.symbols) 0 layout.now.groups) }
    requires relocations { min (2 ^ 64 - 1) relocations ≡ min (2 ^ 64 - 1) (relocation_count layout.now) }
    ensures { result ≡ lists_fit layout.now }
{
    let sections = layout.sections.len();
    let groups = layout.groups.len();
    1 <= sections
        && sections < 1 << 31
        && layout.segments.len() <= 65534
        && layout.symbols.len() < (1 << 32) - 1
        && table_fits(layout, ranges_in_order)
        && relocations < (1 << 32) - 1
        && 1 <= groups
        && groups < (1 << 32) - 1
}

/// Whether no list and no string table is too long, and each version can have an index.
fn counts_fit(layout: &Layout, ranges_in_order: bool, needs: u64, relocations: u64) -> bool
    requires ranges_in_order { ranges_in_order ≡ is_some (all_ranges_lie (length layout.now.symbols) 0 layout.now.groups) }
    requires needs { needs ≡ need_number layout.now }
    requires relocations { min (2 ^ 64 - 1) relocations ≡ min (2 ^ 64 - 1) (relocation_count layout.now) }
    ensures { result ≡ counts_fit layout.now }
{
    lists_fit(layout, ranges_in_order, relocations)
        && name_bytes(layout) < 1 << 32
        && total_share(layout, Role::Dynstr) < 1 << 32
        && total_share(layout, Role::Strtab) < 1 << 32
        && versions_fit(layout, needs)
}

/// The caller knows whether the files' symbol ranges are in order (`ranges_in_order`), and how many libraries with versions and relocations
/// there are.
#[tactic(auto, unfolding(wild_plan_rules::specs::ClauseTests::check_counts))]
pub(crate) fn check_counts(
    layout: &Layout,
    ranges_in_order: bool,
    needs: u64,
    relocations: u64,
) -> Result<(), Clause>
    requires ranges_in_order { ranges_in_order ≡ is_some (all_ranges_lie (length layout.now.symbols) 0 layout.now.groups) }
    requires needs { needs ≡ need_number layout.now }
    requires relocations { min (2 ^ 64 - 1) relocations ≡ min (2 ^ 64 - 1) (relocation_count layout.now) }
    ensures { result ≡ check_counts layout.now }
{
    fails(
        2,
        unless(counts_fit(layout, ranges_in_order, needs, relocations)),
    )
}
