//! Symbol versions: those that the output defines, and those needed from libraries.
ghost use Rattle.wild_text.specs.Versions.{version_definition_in, needed_version_in, version_needs_in};

use crate::fault::PlanFault;
use crate::members::{Planned, member, members, object, without_other_members};
use json::Value;
use std::alloc::Global;
use wild_types::{NeededVersion, VersionDefinition, VersionNeeds};
use wild_words::{Bytes, Items};

impl Planned for VersionDefinition {
    ghost reads = { version_definition_in };

    #[tactic(auto, unfolding(crate::specs::Versions::version_definition_in))]
    fn read(alloc: Global, json: &Value<'_>) -> std::result::Result<VersionDefinition, PlanFault> {
        members!(alloc, json; VersionDefinition {
            name: Bytes::new(alloc),
            parent: None,
        })
    }
}

impl Planned for NeededVersion {
    ghost reads = { needed_version_in };

    #[tactic(auto, unfolding(crate::specs::Versions::needed_version_in))]
    fn read(alloc: Global, json: &Value<'_>) -> std::result::Result<NeededVersion, PlanFault> {
        members!(alloc, json; NeededVersion {
            name: Bytes::new(alloc),
            index: 0,
        })
    }
}

impl Planned for VersionNeeds {
    ghost reads = { version_needs_in };

    #[tactic(auto, unfolding(crate::specs::Versions::version_needs_in))]
    fn read(alloc: Global, json: &Value<'_>) -> std::result::Result<VersionNeeds, PlanFault> {
        members!(alloc, json; VersionNeeds {
            last: false,
            versions: Items::new(alloc),
        })
    }
}
