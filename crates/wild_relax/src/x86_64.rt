//! x86-64 as a machine of the linker.
//!
//! Instructions differ in length, so a rewrite has to keep the length: it adds prefixes or `nop`, or leaves a byte that is never
//! reached.
//! Most fields are 32-bit distances to the end of the field, so compilers give them the addend -4.
//! A rewrite to an immediate moves the register from ModRM.reg to ModRM.rm, and a bit of the REX prefix moves with it.
//! There are no thunks: `call` and `jmp` reach 2 GiB.
//! Read x86-64 psABI, "Relocation Types" and "Linker Optimization", and "ELF Handling For Thread-Local Storage".
use crate::arch::Arch;
use crate::reference::{Reference, UnknownSequence};
use crate::relaxation::Relaxation;
use crate::row::{Row, choose, is_mandatory};
use wild_reloc::{RelName, x86_64};
use wild_types::Machine;

/// x86-64.
pub struct ElfX86_64;

impl Arch for ElfX86_64 {
    ghost use Rattle.std.specs.Prelude.{refl};
    ghost use Rattle.wild_types.specs.declared.kind.Machine.TheVariants.{X86_64};
    ghost use Rattle.wild_reloc.specs.declared.names.RelName.TheVariants as names;
    ghost use Rattle.wild_relax.specs.Rows.{chosen_row_x86_64};
    ghost use Rattle.wild_relax.specs.Relaxation.{relaxation_x86_64, rows_with_duty};

    type Relaxation = ElfX86_64Relaxation;

    ghost machine = { X86_64 };

    ghost name_of = { names.X86_64 };

    ghost relaxation = { relaxation_x86_64 };

    ghost same_machine = { refl };

    ghost same_rows = { λ q. rows_with_duty q (chosen_row_x86_64 q) };

    #[inline]
    fn arch_identifier() -> Machine {
        Machine::X86_64
    }

    fn rel_type_to_string(number: u32) -> RelName {
        x86_64::rel_type_to_string(number)
    }

    fn new_relaxation(
        reference: &Reference,
    ) -> Result<Option<ElfX86_64Relaxation>, UnknownSequence> {
        match choose(reference)? {
            None => Ok(None),
            Some(row) => Ok(Some(ElfX86_64Relaxation {
                row,
                mandatory: is_mandatory(row.duty, reference),
            })),
        }
    }
}

/// A rewrite of x86-64 instructions that applies to a relocation.
#[derive(Clone, Copy)]
pub struct ElfX86_64Relaxation {
    pub row: Row,
    /// Whether it is applied even if rewriting is off.
    pub mandatory: bool,
}

impl Relaxation for ElfX86_64Relaxation {
    ghost use Rattle.wild_types.specs.declared.kind.Machine.TheVariants.{X86_64};

    ghost as_row = { λ r. r.row };

    ghost mandatory = { λ r. r.mandatory };

    ghost machine = { X86_64 };

    fn row(&self) -> Row {
        self.row
    }

    fn is_mandatory(&self) -> bool {
        self.mandatory
    }
}
