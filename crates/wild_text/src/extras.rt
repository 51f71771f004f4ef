//! The order of sections, merged strings, the linker's identity string, properties.
ghost use Rattle.wild_json.specs.Values.{view};
ghost use Rattle.wild_text.specs.Reads.{Gives};
ghost use Rattle.wild_text.specs.Extras.{sorted_section_in, merged_in, identity_in, authentication_in, word_property_in, property_in};

use crate::fault::PlanFault;
use crate::members::{Planned, member, members, object, without_other_members};
use json::Value;
use std::alloc::Global;
use wild_types::{Identity, Merged, Property, PropertyValue, SortedSection};
use wild_words::{Bytes, Items};

impl Planned for SortedSection {
    ghost reads = { sorted_section_in };

    #[tactic(auto, unfolding(crate::specs::Extras::sorted_section_in))]
    fn read(alloc: Global, json: &Value<'_>) -> std::result::Result<SortedSection, PlanFault> {
        members!(alloc, json; SortedSection {
            group: 0,
            file: 0,
            section: 0,
        })
    }
}

impl Planned for Merged {
    ghost reads = { merged_in };

    #[tactic(auto, unfolding(crate::specs::Extras::merged_in))]
    fn read(alloc: Global, json: &Value<'_>) -> std::result::Result<Merged, PlanFault> {
        members!(alloc, json; Merged {
            part: 0,
            strings: Items::new(alloc),
        })
    }
}

impl Planned for Identity {
    ghost reads = { identity_in };

    #[tactic(auto, unfolding(crate::specs::Extras::identity_in))]
    fn read(alloc: Global, json: &Value<'_>) -> std::result::Result<Identity, PlanFault> {
        members!(alloc, json; Identity {
            part: 0,
            bytes: Bytes::new(alloc),
        })
    }
}

/// A property of pointer authentication (aaelf64, "Program Property").
#[tactic(auto, unfolding(crate::specs::Extras::authentication_in))]
fn read_authentication(alloc: Global, json: &Value<'_>) -> std::result::Result<Property, PlanFault>
    ensures { Gives result (authentication_in (view json.now)) }
{
    let ptype = member(alloc, json, "ptype", 0)?;
    let platform = member(alloc, json, "platform", 0)?;
    let version = member(alloc, json, "version", 0)?;
    let value = PropertyValue::PointerAuthentication { platform, version };
    without_other_members(
        alloc,
        json,
        &["ptype", "platform", "version"],
        Property { ptype, value },
    )
}

/// A property of four bytes (x86-64 psABI, "Program Property").
#[tactic(auto, unfolding(crate::specs::Extras::word_property_in))]
fn read_word_property(alloc: Global, json: &Value<'_>) -> std::result::Result<Property, PlanFault>
    ensures { Gives result (word_property_in (view json.now)) }
{
    let ptype = member(alloc, json, "ptype", 0)?;
    let word = member(alloc, json, "value", 0)?;
    let value = PropertyValue::Word(word);
    without_other_members(alloc, json, &["ptype", "value"], Property { ptype, value })
}

impl Planned for Property {
    ghost reads = { property_in };

    #[tactic(auto, unfolding(crate::specs::Extras::property_in))]
    fn read(alloc: Global, json: &Value<'_>) -> std::result::Result<Property, PlanFault> {
        object(alloc, json)?;
        if wild_json::member(json, "platform").is_some()
            || wild_json::member(json, "version").is_some()
        {
            read_authentication(alloc, json)
        } else {
            read_word_property(alloc, json)
        }
    }
}
