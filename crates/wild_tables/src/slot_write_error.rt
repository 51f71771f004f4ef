//! Why the slots of a symbol could not be written.
use wild_slot::SlotFault;
use wild_types::Error;

/// Why the slots of a symbol could not be written.
#[derive(Clone, Copy, Debug, PartialEq, Eq)]
pub enum SlotWriteError {
    /// The group's share of a part is too small.
    Room(Error),
    /// A slot has no valid content.
    Fault(SlotFault),
}

impl From<Error> for SlotWriteError {
    ghost use Rattle.std.specs.Prelude.{◌≡◌};
    ghost use Rattle.wild_tables.specs.declared.slot_write_error.SlotWriteError.TheVariants.{Room};

    ghost from_gives = { λ e r. r ≡ Room e };

    fn from(error: Error) -> SlotWriteError {
        SlotWriteError::Room(error)
    }
}
