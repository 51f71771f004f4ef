//! The interface of a rewrite to the writer of a section.
ghost use Rattle.std.specs.Prelude.{◌≡◌, ◌+◌, ◌-◌, ◌≤◌, length};

use crate::rewrite;
use crate::row::Row;
use wild_reloc::RelocationKindInfo;

/// The change to an instruction, with the names that libwild uses; `n` is the number of its bytes before the field.
#[derive(Clone, Copy, PartialEq, Eq)]
pub enum RelaxationKind {
    /// Only the field changes.
    NoOp,
    /// `mov` of the word in a slot to `lea`.
    MovIndirectToLea,
    /// `mov` of the word in a slot to one of an immediate.
    MovIndirectToAbsolute,
    /// The same for an instruction with a prefix.
    RexMovIndirectToAbsolute(u8),
    /// `sub` of the word in a slot to one of an immediate, with a prefix.
    RexSubIndirectToAbsolute(u8),
    /// `cmp` with the word in a slot to one with an immediate, with a prefix.
    RexCmpIndirectToAbsolute(u8),
    /// `add` of the word in a slot to one of an immediate, with a prefix.
    RexAddIndirectToAbsolute(u8),
    /// `call` through a slot to a direct one.
    CallIndirectToRelative,
    /// `jmp` through a slot to a direct one.
    JmpIndirectToRelative,
    /// A call of `__tls_get_addr` for a symbol to the thread pointer and a number.
    TlsGdToLocalExec,
    /// The same, of a call to a distance of 64 bits.
    TlsGdToLocalExecLarge,
    /// A call of `__tls_get_addr` for a symbol to the thread pointer and the offset in a slot.
    TlsGdToInitialExec,
    /// A call of `__tls_get_addr` for the output's own data to the thread pointer.
    TlsLdToLocalExec,
    /// The same, of a call to a distance of 64 bits.
    TlsLdToLocalExec64,
    /// The same, of a call through a slot.
    TlsLdToLocalExecNoPlt,
    /// `lea` of a descriptor to `mov` of the offset from the thread pointer.
    TlsDescToLocalExec(u8),
    /// `lea` of a descriptor to `mov` of the offset in a slot.
    TlsDescToInitialExec,
    /// The call through a descriptor to nothing.
    SkipTlsDescCall,
    /// The word becomes `nop`.
    ReplaceWithNop,
    /// The third word of a descriptor call becomes `movz` of an offset's upper half.
    MovzX0Lsl16,
    /// The fourth word becomes `movk` of its lower half.
    MovkX0,
    /// The third word becomes `adrp` of the offset's slot.
    AdrpX0,
    /// The fourth word becomes `ldr` of that slot.
    LdrX0,
    /// `adrp` of an offset's slot becomes `movz` of its upper half.
    MovzXnLsl16,
    /// `ldr` of that slot becomes `movk` of its lower half.
    MovkXn,
    /// `adrp` and `add` of an address become `nop` and `adr`.
    AdrpAddToNopAdr,
}

/// How the relocation after a rewritten one is processed.
#[derive(Clone, Copy)]
pub enum RelocationModifier {
    /// On its own.
    Normal,
    /// It belongs to the same sequence, and writes nothing.
    SkipNextRelocation,
}

/// A rewrite of instructions that applies to a relocation: a row, and whether it is applied even if rewriting is off.
pub trait Relaxation {
    ghost use Rattle.std.specs.Prelude.{Bool};
    ghost use Rattle.wild_types.specs.declared.kind.Machine.{Machine};
    ghost use Rattle.wild_relax.specs.Rewrite.{rewritten_bytes};
    ghost use Rattle.wild_relax.specs.RewriteX86_64.{rewrite_of, info_written, is_number};
    ghost use Rattle.wild_relax.specs.declared.row.Row.{Row};

    /// Its row.
    ghost as_row: { Self → Row };

    /// Whether it is applied even if rewriting is off.
    ghost mandatory: { Self → Bool };

    /// The machine.
    ghost machine: { Machine };

    /// Its row.
    fn row(&self) -> Row
        ensures { result ≡ Self.as_row self.now };

    /// Whether it is applied even if rewriting is off.
    fn is_mandatory(&self) -> bool
        ensures { result ≡ Self.mandatory self.now };

    /// Writes the instructions, except for their field, into the bytes of the section, and updates the field's offset and its
    /// addend. All bytes that the rewrite replaces, before and after the field, are in the section; no others change.
    fn apply(&self, section_bytes: &mut [u8], offset_in_section: &mut u64, addend: &mut i64)
        requires before { (rewrite_of (Self.as_row self.now)).back ≤ offset_in_section.old }
        requires end_of_rewrite { offset_in_section.old - (rewrite_of (Self.as_row self.now)).back + (rewrite_of (Self.as_row self.now)).size ≤ length section_bytes.old }
        ensures bytes { section_bytes.new ≡ rewritten_bytes (rewrite_of (Self.as_row self.now)) offset_in_section.old section_bytes.old }
        ensures offset { offset_in_section.new ≡ offset_in_section.old - (rewrite_of (Self.as_row self.now)).back + (rewrite_of (Self.as_row self.now)).field }
        ensures addend { addend.new ≡ (rewrite_of (Self.as_row self.now)).addend addend.old }
    {
        let row = self.row();
        let start = *offset_in_section - row.back();
        rewrite::write(row.made, section_bytes, start as usize);
        *offset_in_section = start + row.field();
        *addend = row.addend_written(*addend);
    }

    /// How the field is written: its value, its size and its range.
    fn rel_info(&self) -> RelocationKindInfo
        ensures { result ≡ info_written (Self.as_row self.now) }
    {
        self.row().row_written()
    }

    /// The name of the change.
    fn debug_kind(&self) -> RelaxationKind
        ensures { result ≡ (Self.as_row self.now).kind }
    {
        self.row().kind
    }

    /// How the next relocation is processed.
    fn next_modifier(&self) -> RelocationModifier
        ensures { result ≡ (rewrite_of (Self.as_row self.now)).next }
    {
        self.row().next_modifier()
    }

    /// Whether the field holds the value itself, not a distance. If the value does not fit, the writer uses the slot after all.
    fn needs_got_fallback(&self) -> bool
        ensures { result ≡ is_number (Self.as_row self.now) }
    {
        self.row().is_number()
    }
}
