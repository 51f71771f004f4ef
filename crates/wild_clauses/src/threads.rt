//! Clause 15: thread-local data.
ghost use Rattle.std.specs.Prelude.{◌≡◌};
ghost use Rattle.wild_plan_rules.specs.ClauseTests.{check_tls};

use crate::order::multiple_of;
use crate::verdict::{fails, unless};
use wild_types::{Clause, Layout, Machine};

#[tactic(auto, unfolding(wild_plan_rules::specs::ClauseTests::check_tls))]
pub(crate) fn check_tls(layout: &Layout) -> Result<(), Clause>
    ensures { result ≡ check_tls layout.now }
{
    let tls = layout.tls;
    let fits = tls.start <= tls.end
        && multiple_of(tls.align, tls.start)
        && !matches!((layout.machine, layout.tlsld), (Machine::AArch64, Some(_)));
    fails(15, unless(fits))
}
