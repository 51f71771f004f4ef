//! Where in the input an item comes from, for error messages.
ghost use Rattle.std.specs.Prelude.{◌≡◌};
ghost use Rattle.wild_layout.specs.Faults.{at_offset};
ghost use Rattle.wild_sections.specs.Origins.{ending_errors};
ghost use Rattle.wild_types.specs.Faults.{Answers};

use crate::place::InputPlace;
use wild_frames::BadFrame;
use wild_types::{Error, Fault, InputRelocation};

/// The input of an item: the section's place, its input relocations, one for each of the item's, and the fault at which its frames
/// end, if any (LSB, "The .eh_frame section").
#[derive(Clone, Copy)]
pub struct Origin<'a> {
    pub place: InputPlace,
    pub relocations: &'a [InputRelocation],
    pub ending: Option<BadFrame>,
}

/// Returns the fault at which the frames end, if there is one.
pub(crate) fn check_ending(origin: &Origin) -> Result<(), Error>
    ensures { Answers result (ending_errors origin.now.place origin.now.ending) }
{
    match origin.ending {
        None => Ok(()),
        Some(bad) => Err(Error {
            fault: Fault::BadFrameData { why: bad.why },
            at: origin.place.offset(bad.offset),
        }),
    }
}
