//! Clause 3: the order of the parts.
ghost use Rattle.std.specs.Prelude.{◌≡◌};
ghost use Rattle.wild_plan_rules.specs.Places.{multiple_of, part_out_of_order};
ghost use Rattle.wild_plan_rules.specs.ClauseTests.{check_order};

use crate::verdict::fails;
use wild_types::{Clause, Layout, Part, wide_sum};

pub(crate) fn multiple_of(align: u64, number: u64) -> bool
    ensures { result ≡ multiple_of align number }
{
    align != 0 && number % align == 0
}

fn part_out_of_order(layout: &Layout, parts: &[Part]) -> Option<usize>
    ensures { result ≡ part_out_of_order layout.now 0 0 parts.now }
{
    let mut end: u128 = 0;
    for (i, part) in parts.iter().enumerate() {
        if layout.takes_file_bytes(part.section) {
            if u128::from(part.offset) < end || !multiple_of(part.align, part.offset) {
                return Some(i);
            }
            end = wide_sum(part.offset, part.size);
        }
    }
    None
}

#[tactic(auto, unfolding(wild_plan_rules::specs::ClauseTests::check_order))]
pub(crate) fn check_order(layout: &Layout) -> Result<(), Clause>
    ensures { result ≡ check_order layout.now }
{
    fails(3, part_out_of_order(layout, layout.parts.as_slice()))
}
