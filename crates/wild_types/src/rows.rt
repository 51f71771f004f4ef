//! The rows of the relocation types, in the table of each machine.
ghost use Rattle.std.specs.Prelude.{◌≡◌};
ghost use Rattle.wild_types.specs.Rows.{row_of, row_width};

use crate::kind::Machine;
use wild_reloc::{RelocationKindInfo, aarch64, x86_64};

/// The row of a relocation type (x86-64 psABI, "Relocation Types"; aaelf64, "Relocation types"); none if the machine's table does not
/// have the type.
#[inline]
#[tactic(auto, unfolding(crate::specs::Rows::row_of))]
pub fn row_of(machine: Machine, number: u32) -> Option<RelocationKindInfo>
    ensures { result ≡ row_of machine number }
{
    match machine {
        Machine::X86_64 => x86_64::relocation_from_raw(number),
        Machine::AArch64 => aarch64::relocation_type_from_raw(number),
    }
}

/// The width in bytes of the field that a relocation of that type writes; 0 if it writes none, or has no row.
pub fn field_bytes(machine: Machine, number: u32) -> usize
    ensures { result ≡ row_width (row_of machine number) }
{
    match row_of(machine, number) {
        Some(row) => row.width(),
        None => 0,
    }
}
