//! Finds the first fault of the relocations of a debug section.
ghost use Rattle.std.specs.Prelude.{◌≡◌, ◌<◌, length};
ghost use Rattle.wild_types.specs.Faults.{Answers};
ghost use Rattle.wild_layout.specs.Faults.{debug_error, debug_errors};

use crate::decide::DebugStep;
use wild_relax::Arch;
use wild_sections::InputPlace;
use wild_types::{Error, InputRelocation};

/// The fault of a relocation, with its place in the input.
fn check<A: Arch>(
    step: &DebugStep<A>,
    place: InputPlace,
    origins: &[InputRelocation],
    index: usize,
) -> Result<(), Error>
    requires index { index < length step.now.section.now.relocations }
    requires origins { length origins.now ≡ length step.now.section.now.relocations }
    ensures { Answers result (debug_error step.now.resolved.now.layout.now place.group place.file place.section step.now.section.now origins.now index) }
{
    let relocations = step.section.relocations.as_slice();
    let relocation = &relocations[index];
    let origin = &origins[index];
    match step.decided(relocation) {
        Ok(_) => Ok(()),
        Err(fault) => Err(Error {
            fault,
            at: place.offset(origin.offset),
        }),
    }
}

/// The first fault of the relocations of a section.
#[tactic(auto, unfolding(wild_layout::specs::Faults::debug_errors))]
pub(crate) fn first_fault<A: Arch>(
    step: &DebugStep<A>,
    place: InputPlace,
    origins: &[InputRelocation],
) -> Result<(), Error>
    requires origins { length origins.now ≡ length step.now.section.now.relocations }
    ensures { Answers result (debug_errors step.now.resolved.now.layout.now place.group place.file place.section step.now.section.now origins.now) }
{
    for index in 0..step.section.relocations.len() {
        check(step, place, origins, index)?;
    }
    Ok(())
}
