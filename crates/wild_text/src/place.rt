//! The input of the command `place`: a plan, and the world in which it is loaded.
ghost use Rattle.wild_json.specs.Values.{view};
ghost use Rattle.wild_text.specs.Reads.{Gives};
ghost use Rattle.wild_text.specs.Place.{answer_in, module_in, world_in, plan_world_in, place_in};

use crate::fault::PlanFault;
use crate::members::{Planned, member, member_or_empty, members, object, without_other_members};
use crate::relink::read_plan_of;
use json::Value;
use std::alloc::Global;
use wild_loader::{Answer, World};
use wild_types::Layout;
use wild_words::{Bytes, Items};

/// A layout, and the world in which it is loaded.
#[derive(Drop)]
pub struct PlaceRequest {
    pub plan: Layout,
    pub world: World,
}

impl Planned for Answer {
    ghost reads = { answer_in };

    #[tactic(auto, unfolding(crate::specs::Place::answer_in))]
    fn read(alloc: Global, json: &Value<'_>) -> std::result::Result<Answer, PlanFault> {
        members!(alloc, json; Answer {
            address: 0,
            module: 0,
            offset: 0,
            size: 0,
            bytes: Bytes::new(alloc),
        })
    }
}

impl Planned for (u64, i64) {
    ghost reads = { module_in };

    #[tactic(auto, unfolding(crate::specs::Place::module_in))]
    fn read(alloc: Global, json: &Value<'_>) -> std::result::Result<(u64, i64), PlanFault> {
        object(alloc, json)?;
        let number = member(alloc, json, "module", 0)?;
        let distance = member(alloc, json, "distance", 0)?;
        without_other_members(alloc, json, &["module", "distance"], (number, distance))
    }
}

impl Planned for World {
    ghost reads = { world_in };

    #[tactic(auto, unfolding(crate::specs::Place::world_in))]
    fn read(alloc: Global, json: &Value<'_>) -> std::result::Result<World, PlanFault> {
        members!(alloc, json; World {
            base: 0,
            symbols: Items::new(alloc),
            resolvers: Items::new(alloc),
            modules: Items::new(alloc),
            own_module: 0,
        })
    }
}

/// The world of a request.
#[tactic(auto, unfolding(crate::specs::Place::plan_world_in))]
fn read_world_of(alloc: Global, json: &Value<'_>) -> std::result::Result<World, PlanFault>
    ensures { Gives result (plan_world_in (view json.now)) }
{
    member_or_empty(alloc, json, "world")
}

impl Planned for PlaceRequest {
    ghost reads = { place_in };

    #[tactic(auto, unfolding(crate::specs::Place::place_in))]
    fn read(alloc: Global, json: &Value<'_>) -> std::result::Result<PlaceRequest, PlanFault> {
        object(alloc, json)?;
        let plan = read_plan_of(alloc, json)?;
        match read_world_of(alloc, json) {
            Ok(world) => {
                let request = PlaceRequest { plan, world };
                without_other_members(alloc, json, &["plan", "world"], request)
            }
            Err(fault) => Err(fault),
        }
    }
}
