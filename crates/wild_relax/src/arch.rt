//! The differences between the machines.
ghost use Rattle.std.specs.Prelude.{◌≡◌, false, length, is_ok, IfErr, OnOk, OnErr};
ghost use Rattle.wild_slot.specs.MachineStub.{stub_of};
ghost use Rattle.wild_slot.specs.SlotParts.{type_of};
ghost use Rattle.wild_slot.specs.Storage.{thread_pointer};
ghost use Rattle.wild_slot.specs.Treatment.{is_barred_type, is_barred_in_shared};
ghost use Rattle.wild_relax.specs.Padding.{code_filling, filling, repeated_bytes};
ghost use Rattle.wild_relax.specs.Properties.{property_class};

use crate::padding::{code_filling, fill_over_and_over, filling};
use crate::property::{PropertyClass, property_class};
use crate::reference::{Reference, UnknownSequence};
use crate::relaxation::Relaxation;
use wild_reloc::{DynamicRelocationKind, RelName, RelocationKindInfo};
use wild_slot::{
    PltTooFar, is_barred_in_shared, is_barred_type, thread_pointer, type_of, write_stub,
};
use wild_types::{Layout, Machine, row_of};

/// A machine that images are written for.
pub trait Arch {
    ghost use Rattle.std.specs.Prelude.{ℕ, Bool, Option, ◌==◌};
    ghost use Rattle.wild_types.specs.declared.kind.Machine.{Machine};
    ghost use Rattle.wild_types.specs.Rows.{row_of};
    ghost use Rattle.wild_reloc.specs.declared.names.RelName.{RelName};
    ghost use Rattle.std.specs.Prelude.{Result, IfOk, IfSome};
    ghost use Rattle.wild_relax.specs.declared.reference.UnknownSequence.{UnknownSequence};
    ghost use Rattle.wild_relax.specs.Question.{Question, question, relocation_of};
    ghost use Rattle.wild_relax.specs.Rewrite.{HasRoom};
    ghost use Rattle.wild_relax.specs.RewriteX86_64.{rewrite_of};
    ghost use Rattle.wild_relax.specs.Relaxation.{rows_of, chosen_row_of};

    /// A rewrite of the machine's instructions.
    type Relaxation: Relaxation + Copy;

    /// The machine.
    ghost machine: { Machine };

    /// How a relocation type is printed.
    ghost name_of: { ℕ → RelName };

    /// The first rewrite that applies to a relocation; refused if the bytes or relocations that it needs besides are missing.
    ghost relaxation: { Question → Result (Option Self.Relaxation) UnknownSequence };

    /// The machine (gABI, `e_machine`).
    fn arch_identifier() -> Machine
        ensures { result ≡ Self.machine };

    /// The row of a relocation type; none if the table has none.
    fn relocation_from_raw(number: u32) -> Option<RelocationKindInfo>
        ensures { result ≡ row_of Self.machine number }
    {
        row_of(Self::arch_identifier(), number)
    }

    /// The name of a relocation type, for printing.
    fn rel_type_to_string(number: u32) -> RelName
        ensures { result ≡ Self.name_of number };

    /// Fills the padding of a section of code.
    fn fill_nop_padding(room: &mut [u8])
        ensures { room.new ≡ repeated_bytes (code_filling Self.machine) (length room.old) }
    {
        fill_over_and_over(room, code_filling(Self::arch_identifier()));
    }

    /// Fills the padding of a section with those flags (`sh_flags`).
    fn fill_section_padding(room: &mut [u8], section_flags: u64)
        ensures { room.new ≡ repeated_bytes (filling Self.machine section_flags) (length room.old) }
    {
        fill_over_and_over(room, filling(Self::arch_identifier(), section_flags));
    }

    /// How the values of a property of that type are joined; none if the machine has no such type (`pr_type`).
    fn get_property_class(ptype: u32) -> Option<PropertyClass>
        ensures { result ≡ property_class Self.machine ptype }
    {
        property_class(Self::arch_identifier(), ptype)
    }

    /// Whether a field of that type cannot hold the address of a symbol that another module may define.
    fn is_disallowed_for_interposable_symbols(number: u32) -> bool
        ensures { result ≡ is_barred_type Self.machine number }
    {
        is_barred_type(Self::arch_identifier(), number)
    }

    /// Whether a field of that type cannot hold an address of a shared object, because the loader chooses that address.
    fn is_disallowed_in_shared_object(number: u32) -> bool
        ensures { result ≡ is_barred_in_shared Self.machine number }
    {
        is_barred_in_shared(Self::arch_identifier(), number)
    }

    /// The type of a dynamic entry.
    fn get_dynamic_relocation_type(kind: DynamicRelocationKind) -> u32
        ensures { result ≡ type_of Self.machine kind }
    {
        type_of(Self::arch_identifier(), kind)
    }

    /// The address of the thread pointer, modulo 2^64.
    fn tp_offset_start(layout: &Layout) -> u64
        ensures { result ≡ thread_pointer Self.machine layout.now.tls }
    {
        thread_pointer(Self::arch_identifier(), layout.tls)
    }

    /// Writes the stub at `plt_address` that jumps to the address in the slot at `got_address`. Fails exactly if the slot is too
    /// far; then nothing is written.
    fn write_plt_entry(
        plt_entry: &mut [u8],
        got_address: u64,
        plt_address: u64,
    ) -> Result<(), PltTooFar>
        requires { length plt_entry.old ≡ 16 }
        ensures accepted { is_ok result ≡ (stub_of Self.machine false got_address plt_address).reaches }
        ensures value { IfErr result (λ far. far.value ≡ (stub_of Self.machine false got_address plt_address).distance) }
        ensures written { OnOk result (plt_entry.new ≡ (stub_of Self.machine false got_address plt_address).bytes) }
        ensures unchanged { OnErr result (plt_entry.new ≡ plt_entry.old) }
    {
        write_stub(
            Self::arch_identifier(),
            false,
            plt_entry,
            got_address,
            plt_address,
        )
    }

    /// The same for an output in which indirect branches may need a landing pad (`bti`).
    fn write_plt_entry_with_bti(
        plt_entry: &mut [u8],
        got_address: u64,
        plt_address: u64,
        bti: bool,
    ) -> Result<(), PltTooFar>
        requires { length plt_entry.old ≡ 16 }
        ensures accepted { is_ok result ≡ (stub_of Self.machine bti got_address plt_address).reaches }
        ensures value { IfErr result (λ far. far.value ≡ (stub_of Self.machine bti got_address plt_address).distance) }
        ensures written { OnOk result (plt_entry.new ≡ (stub_of Self.machine bti got_address plt_address).bytes) }
        ensures unchanged { OnErr result (plt_entry.new ≡ plt_entry.old) }
    {
        write_stub(
            Self::arch_identifier(),
            bti,
            plt_entry,
            got_address,
            plt_address,
        )
    }

    /// The first rewrite that applies to the relocation; none if no row applies. The bytes that it replaces are in the section.
    fn new_relaxation(reference: &Reference) -> Result<Option<Self::Relaxation>, UnknownSequence>
        ensures first { result ≡ Self.relaxation (question reference.now) }
        ensures room { IfOk result (λ found. IfSome found (λ r.
            HasRoom (rewrite_of (Self.Relaxation.as_row r)) (relocation_of (question reference.now)).offset (length reference.now.bytes.now))) };

    /// The rewrites are those of this machine.
    ghost same_machine: { Self.Relaxation.machine ≡ Self.machine };

    /// Their rows are the rows that apply.
    ghost same_rows: { (q : Question) → rows_of Self.Relaxation.as_row (Self.relaxation q) ≡ chosen_row_of Self.machine q };
}
