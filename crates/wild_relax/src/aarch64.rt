//! AArch64 as a machine of the linker, with thunks.
//!
//! Every instruction is one word, so no rewrite changes a length; unneeded words become `nop`. An address needs two words, each
//! with its own relocation, and compilers may put other code between them.
//! So a sequence is rewritten only if its words and relocations are consecutive and use the same register, and then as a whole.
//! `b` and `bl` reach 128 MiB. A branch to a target further away goes through a thunk, which uses x16.
//! Bit STO_AARCH64_VARIANT_PCS of `st_other` marks functions with another calling convention.
//! Outputs with BTI need a landing pad at the start of each stub.
//! Read "ELF for the Arm 64-bit Architecture" (aaelf64): "Relocation types", "Call and Jump relocations", "Thread Local Storage",
//! "Program Property"; for the encodings C4.1 and C6.2 of the Arm Architecture Reference Manual.
ghost use Rattle.std.specs.Prelude.{◌≡◌, length, is_ok, IfErr, OnOk, OnErr};
ghost use Rattle.wild_relax.specs.ThunkAArch64.{thunk_words, thunk_aarch64, is_variant};

use crate::arch::Arch;
use crate::reference::{Reference, UnknownSequence};
use crate::relaxation::Relaxation;
use crate::row::{Row, is_mandatory};
use crate::rows_aarch64::choose_aarch64;
use wild_records::abi::symbol::STO_AARCH64_VARIANT_PCS;
use wild_reloc::{AArch64Instruction, RelName, aarch64};
use wild_slot::{page_of, put_words};
use wild_types::{Machine, THUNK_SIZE};

/// AArch64.
pub struct ElfAArch64;

impl Arch for ElfAArch64 {
    ghost use Rattle.std.specs.Prelude.{refl};
    ghost use Rattle.wild_types.specs.declared.kind.Machine.TheVariants.{AArch64};
    ghost use Rattle.wild_reloc.specs.declared.names.RelName.TheVariants as names;
    ghost use Rattle.wild_relax.specs.RowsAArch64.{chosen_row_aarch64};
    ghost use Rattle.wild_relax.specs.Relaxation.{relaxation_aarch64, words_with_duty};

    type Relaxation = ElfAArch64Relaxation;

    ghost machine = { AArch64 };

    ghost name_of = { names.AArch64 };

    ghost relaxation = { relaxation_aarch64 };

    ghost same_machine = { refl };

    ghost same_rows = { λ q. words_with_duty q (chosen_row_aarch64 q) };

    #[inline]
    fn arch_identifier() -> Machine {
        Machine::AArch64
    }

    fn rel_type_to_string(number: u32) -> RelName {
        aarch64::rel_type_to_string(number)
    }

    fn new_relaxation(
        reference: &Reference,
    ) -> Result<Option<ElfAArch64Relaxation>, UnknownSequence> {
        match choose_aarch64(reference)? {
            None => Ok(None),
            Some(row) => Ok(Some(ElfAArch64Relaxation {
                row,
                mandatory: is_mandatory(row.duty, reference),
            })),
        }
    }
}

/// A rewrite of AArch64 instructions that applies to a relocation.
#[derive(Clone, Copy)]
pub struct ElfAArch64Relaxation {
    pub row: Row,
    /// Whether it is applied even if rewriting is off.
    pub mandatory: bool,
}

impl Relaxation for ElfAArch64Relaxation {
    ghost use Rattle.wild_types.specs.declared.kind.Machine.TheVariants.{AArch64};

    ghost as_row = { λ r. r.row };

    ghost mandatory = { λ r. r.mandatory };

    ghost machine = { AArch64 };

    fn row(&self) -> Row {
        self.row
    }

    fn is_mandatory(&self) -> bool {
        self.mandatory
    }
}

const PAGE: u64 = 4096;

const ADRP_X16: u32 = 0x9000_0010;

// `add x16, x16, #0`; `br x16`.
const ADD_X16: u32 = 0x9100_0210;

const BR_X16: u32 = 0xd61f_0200;

/// The distance from the thunk's page to the target's does not fit in its field.
#[derive(Clone, Copy, Debug, PartialEq, Eq)]
pub struct ThunkOutOfRange {
    /// The distance of the pages, modulo 2^64.
    pub value: u64,
}

/// How a machine extends the range of branches.
#[derive(Clone, Copy, Debug, PartialEq, Eq)]
pub struct ThunkConfig {
    /// Every branch that may use a thunk reaches at least this many bytes.
    pub min_branch_range: u64,
    /// The size of a thunk in bytes.
    pub thunk_size: u64,
}

/// The shortest range of `b` and `bl` (C6.2: 26 bits, in words, signed).
pub const MIN_BRANCH_RANGE: u64 = 1 << 27;

/// Thunks of AArch64.
pub const THUNKS: ThunkConfig = ThunkConfig {
    min_branch_range: MIN_BRANCH_RANGE,
    thunk_size: THUNK_SIZE,
};

/// Writes the thunk at an address that jumps to the target. Fails exactly if their pages are too far apart; then nothing is
/// written.
pub fn write_thunk(
    thunk_address: u64,
    target_address: u64,
    buf: &mut [u8],
) -> Result<(), ThunkOutOfRange>
    requires room { length buf.old ≡ 12 }
    ensures accepted { is_ok result ≡ (thunk_aarch64 thunk_address target_address).reaches }
    ensures value { IfErr result (λ far. far.value ≡ (thunk_aarch64 thunk_address target_address).distance) }
    ensures written { OnOk result (buf.new ≡ (thunk_aarch64 thunk_address target_address).bytes) }
    ensures unchanged { OnErr result (buf.new ≡ buf.old) }
{
    let from = thunk_address / PAGE;
    let to = target_address / PAGE;
    let distance = page_of(target_address).wrapping_sub(page_of(thunk_address));
    if from > to + 0x10_0000 || to >= from + 0x10_0000 {
        return Err(ThunkOutOfRange { value: distance });
    }
    put_words(buf, &thunk_words(distance, target_address));
    Ok(())
}

fn thunk_words(distance: u64, target_address: u64) -> [u32; 3]
    ensures { result ≡ thunk_words distance target_address }
{
    let adrp = AArch64Instruction::Adr.insert(ADRP_X16, distance / PAGE % 0x20_0000);
    let add = AArch64Instruction::Imm12.insert(ADD_X16, target_address % PAGE);
    [adrp, add, BR_X16]
}

/// Whether a symbol with that `st_other` has another calling convention than the base standard's.
pub fn is_symbol_variant_pcs(st_other: u8) -> bool
    ensures { result ≡ is_variant st_other }
{
    st_other / STO_AARCH64_VARIANT_PCS % 2 == 1
}
