//! The input of the command `relink`: a plan, and a change of one of its input sections.
ghost use Rattle.wild_json.specs.Values.{view};
ghost use Rattle.wild_text.specs.Reads.{Gives};
ghost use Rattle.wild_text.specs.Relink.{change_in, plan_in, plan_change_in, relink_in};

use crate::fault::PlanFault;
use crate::members::{Planned, member, member_or_empty, members, object, without_other_members};
use json::Value;
use std::alloc::Global;
use wild_change::Change;
use wild_types::Layout;
use wild_words::{Bytes, Items};

/// A layout, and the change of one of its input sections.
#[derive(Drop)]
pub struct RelinkRequest {
    pub plan: Layout,
    pub change: Change,
}

impl Planned for Change {
    ghost reads = { change_in };

    #[tactic(auto, unfolding(crate::specs::Relink::change_in))]
    fn read(alloc: Global, json: &Value<'_>) -> std::result::Result<Change, PlanFault> {
        members!(alloc, json; Change {
            group: 0,
            file: 0,
            section: 0,
            bytes: Bytes::new(alloc),
            relocations: Items::new(alloc),
        })
    }
}

/// The plan of a request.
#[tactic(auto, unfolding(crate::specs::Relink::plan_in))]
pub(crate) fn read_plan_of(
    alloc: Global,
    json: &Value<'_>,
) -> std::result::Result<Layout, PlanFault>
    ensures { Gives result (plan_in (view json.now)) }
{
    member_or_empty(alloc, json, "plan")
}

/// The change of its plan.
#[tactic(auto, unfolding(crate::specs::Relink::plan_change_in))]
fn read_change_of(alloc: Global, json: &Value<'_>) -> std::result::Result<Change, PlanFault>
    ensures { Gives result (plan_change_in (view json.now)) }
{
    member_or_empty(alloc, json, "change")
}

impl Planned for RelinkRequest {
    ghost reads = { relink_in };

    #[tactic(auto, unfolding(crate::specs::Relink::relink_in))]
    fn read(alloc: Global, json: &Value<'_>) -> std::result::Result<RelinkRequest, PlanFault> {
        object(alloc, json)?;
        let plan = read_plan_of(alloc, json)?;
        match read_change_of(alloc, json) {
            Ok(change) => {
                let request = RelinkRequest { plan, change };
                without_other_members(alloc, json, &["plan", "change"], request)
            }
            Err(fault) => Err(fault),
        }
    }
}
