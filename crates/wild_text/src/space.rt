//! The input of the command `space`: images, and the answers of resolvers.
ghost use Rattle.wild_json.specs.Values.{view};
ghost use Rattle.wild_text.specs.Reads.{Gives};
ghost use Rattle.wild_text.specs.Space.{named_image_in, resolver_in, images_in, space_in};

use crate::fault::PlanFault;
use crate::members::{Planned, member, members, object, without_other_members};
use json::Value;
use std::alloc::Global;
use wild_space::NamedImage;
use wild_words::{Bytes, Items};

/// Images that are bound to each other, and for each resolver its loaded address and its answer.
#[derive(Drop)]
pub struct SpaceRequest {
    pub images: Items<NamedImage>,
    pub resolvers: Items<(u64, u64)>,
}

impl Planned for NamedImage {
    ghost reads = { named_image_in };

    #[tactic(auto, unfolding(crate::specs::Space::named_image_in))]
    fn read(alloc: Global, json: &Value<'_>) -> std::result::Result<NamedImage, PlanFault> {
        members!(alloc, json; NamedImage {
            name: Bytes::new(alloc),
            bytes: Bytes::new(alloc),
            base: 0,
            distance: 0,
        })
    }
}

impl Planned for (u64, u64) {
    ghost reads = { resolver_in };

    #[tactic(auto, unfolding(crate::specs::Space::resolver_in))]
    fn read(alloc: Global, json: &Value<'_>) -> std::result::Result<(u64, u64), PlanFault> {
        object(alloc, json)?;
        let address = member(alloc, json, "address", 0)?;
        let answer = member(alloc, json, "answer", 0)?;
        without_other_members(alloc, json, &["address", "answer"], (address, answer))
    }
}

/// The images; there has to be at least one.
#[tactic(auto, unfolding(crate::specs::Space::images_in))]
fn read_images(alloc: Global, json: &Value<'_>) -> std::result::Result<Items<NamedImage>, PlanFault>
    ensures { Gives result (images_in (view json.now)) }
{
    let images: Items<NamedImage> = member(alloc, json, "images", Items::new(alloc))?;
    if images.as_slice().is_empty() {
        return Err(PlanFault::At(String::from_str(alloc, "/images")?));
    }
    Ok(images)
}

impl Planned for SpaceRequest {
    ghost reads = { space_in };

    #[tactic(auto, unfolding(crate::specs::Space::space_in))]
    fn read(alloc: Global, json: &Value<'_>) -> std::result::Result<SpaceRequest, PlanFault> {
        object(alloc, json)?;
        let images = read_images(alloc, json)?;
        let resolvers = member(alloc, json, "resolvers", Items::new(alloc))?;
        let request = SpaceRequest { images, resolvers };
        without_other_members(alloc, json, &["images", "resolvers"], request)
    }
}
