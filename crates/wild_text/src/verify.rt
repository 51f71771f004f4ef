//! The input of the command `verify`: a plan, and an image of it.
ghost use Rattle.wild_json.specs.Values.{view};
ghost use Rattle.wild_text.specs.Reads.{Gives};
ghost use Rattle.wild_text.specs.Verify.{image_in, verify_in};

use crate::fault::PlanFault;
use crate::members::{Planned, member, object, without_other_members};
use crate::relink::read_plan_of;
use json::Value;
use std::alloc::Global;
use wild_types::Layout;
use wild_words::Bytes;

/// A layout, and the bytes of an image.
#[derive(Drop)]
pub struct VerifyRequest {
    pub plan: Layout,
    pub image: Bytes,
}

/// The image of a request.
#[tactic(auto, unfolding(crate::specs::Verify::image_in))]
fn read_image_of(alloc: Global, json: &Value<'_>) -> std::result::Result<Bytes, PlanFault>
    ensures { Gives result (image_in (view json.now)) }
{
    member(alloc, json, "image", Bytes::new(alloc))
}

impl Planned for VerifyRequest {
    ghost reads = { verify_in };

    #[tactic(auto, unfolding(crate::specs::Verify::verify_in))]
    fn read(alloc: Global, json: &Value<'_>) -> std::result::Result<VerifyRequest, PlanFault> {
        object(alloc, json)?;
        let plan = read_plan_of(alloc, json)?;
        match read_image_of(alloc, json) {
            Ok(image) => {
                let request = VerifyRequest { plan, image };
                without_other_members(alloc, json, &["plan", "image"], request)
            }
            Err(fault) => Err(fault),
        }
    }
}
