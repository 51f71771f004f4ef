//! A relocation of a debug section, as a step that shards apply.
ghost use Rattle.std.specs.Prelude.{◌≡◌, length};
ghost use Rattle.wild_layout.specs.Debug.{debug_field, at_offset_only};

use crate::decide::DebugStep;
use wild_layout::Decision;
use wild_relax::Arch;
use wild_shards::Step;
use wild_types::{At, Error, InputRelocation};

/// A place that has an offset only.
pub(crate) fn at_offset_only(offset: u64) -> At
    ensures { result ≡ at_offset_only offset }
{
    At {
        group: None,
        file: None,
        section: None,
        offset: Some(offset),
    }
}

/// Writes the bytes of a decided field.
#[tactic(auto, using(crate::proofs::FieldLemmas::whole_field))]
fn write_field(decision: Decision, room: &mut [u8])
    requires wide { length (debug_field decision room.old) ≡ length room.old }
    ensures { room.new ≡ debug_field decision room.old }
{
    match decision {
        Decision::Field { size, value } => size.write(value, room),
        _ => {}
    }
}

impl<A: Arch> Step for DebugStep<'_, '_, A> {
    ghost use Rattle.wild_layout.specs.Debug.{debug_rule, at_offset_only};
    ghost use Rattle.wild_debug.specs.Rules.{rule_small, rule_keeps};

    ghost rule = { λ t. debug_rule t.resolved.now.layout.now at_offset_only t.section.now };

    ghost small = { λ t r. rule_small t.resolved.now.layout.now t.section.now r };

    ghost keeps = { λ t r xs h. rule_keeps t.resolved.now.layout.now t.section.now r xs h };

    fn size(&self, relocation: &InputRelocation) -> Option<usize> {
        match self.row(relocation) {
            Some(row) => Some(row.width()),
            None => None,
        }
    }

    fn write(&self, relocation: &InputRelocation, field: &mut [u8]) -> Result<(), Error> {
        match self.decided(relocation) {
            Ok(decision) => {
                write_field(decision, field);
                Ok(())
            }
            Err(fault) => Err(Error {
                fault,
                at: at_offset_only(relocation.offset),
            }),
        }
    }
}
