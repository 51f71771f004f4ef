//! The meaning of each dynamic relocation type.
ghost use Rattle.std.specs.Prelude.{◌≡◌};
ghost use Rattle.wild_loader.specs.Changes.{kind_of, kind_x86_64, kind_aarch64};

use crate::memory::Machine;
use wild_records::abi::relocation::{
    R_AARCH64_ABS64, R_AARCH64_COPY, R_AARCH64_GLOB_DAT, R_AARCH64_IRELATIVE, R_AARCH64_JUMP_SLOT,
    R_AARCH64_RELATIVE, R_AARCH64_TLS_DTPMOD, R_AARCH64_TLS_DTPREL, R_AARCH64_TLS_TPREL,
    R_AARCH64_TLSDESC, R_X86_64_64, R_X86_64_COPY, R_X86_64_DTPMOD64, R_X86_64_DTPOFF64,
    R_X86_64_GLOB_DAT, R_X86_64_IRELATIVE, R_X86_64_JUMP_SLOT, R_X86_64_RELATIVE, R_X86_64_SIZE32,
    R_X86_64_SIZE64, R_X86_64_TLSDESC, R_X86_64_TPOFF64,
};

/// The value that an entry of a relocation table sets. B is the base, S the address in its symbol's answer, A the addend.
#[derive(Clone, Copy)]
pub enum DynamicKind {
    /// B + A.
    Relative,
    /// S.
    Symbol,
    /// S + A.
    SymbolPlus,
    /// The answer of the resolver at B + A.
    Resolved,
    /// The symbol's module.
    Module,
    /// The symbol's offset in its module's thread-local data, plus A.
    ModuleOffset,
    /// The symbol's offset from the thread pointer, plus A.
    ThreadOffset,
    /// A descriptor of the symbol's offset from the thread pointer, plus A.
    Descriptor,
    /// The symbol's bytes.
    Copy,
    /// The symbol's size plus A, in four bytes.
    Size32,
    /// The symbol's size plus A, in eight bytes.
    Size64,
}

/// The kind of an x86-64 relocation type.
fn kind_of_x86_64(number: u32) -> Option<DynamicKind>
    ensures { result ≡ kind_x86_64 number }
{
    match number {
        R_X86_64_64 => Some(DynamicKind::SymbolPlus),
        R_X86_64_COPY => Some(DynamicKind::Copy),
        R_X86_64_GLOB_DAT => Some(DynamicKind::Symbol),
        R_X86_64_JUMP_SLOT => Some(DynamicKind::Symbol),
        R_X86_64_RELATIVE => Some(DynamicKind::Relative),
        R_X86_64_DTPMOD64 => Some(DynamicKind::Module),
        R_X86_64_DTPOFF64 => Some(DynamicKind::ModuleOffset),
        R_X86_64_TPOFF64 => Some(DynamicKind::ThreadOffset),
        R_X86_64_SIZE32 => Some(DynamicKind::Size32),
        R_X86_64_SIZE64 => Some(DynamicKind::Size64),
        R_X86_64_TLSDESC => Some(DynamicKind::Descriptor),
        R_X86_64_IRELATIVE => Some(DynamicKind::Resolved),
        _ => None,
    }
}

/// The kind of an AArch64 relocation type.
fn kind_of_aarch64(number: u32) -> Option<DynamicKind>
    ensures { result ≡ kind_aarch64 number }
{
    match number {
        R_AARCH64_ABS64 => Some(DynamicKind::SymbolPlus),
        R_AARCH64_COPY => Some(DynamicKind::Copy),
        R_AARCH64_GLOB_DAT => Some(DynamicKind::SymbolPlus),
        R_AARCH64_JUMP_SLOT => Some(DynamicKind::SymbolPlus),
        R_AARCH64_RELATIVE => Some(DynamicKind::Relative),
        R_AARCH64_TLS_DTPMOD => Some(DynamicKind::Module),
        R_AARCH64_TLS_DTPREL => Some(DynamicKind::ModuleOffset),
        R_AARCH64_TLS_TPREL => Some(DynamicKind::ThreadOffset),
        R_AARCH64_TLSDESC => Some(DynamicKind::Descriptor),
        R_AARCH64_IRELATIVE => Some(DynamicKind::Resolved),
        _ => None,
    }
}

/// The kind of a relocation type; none if the machine has no such dynamic entry.
#[tactic(auto, unfolding(crate::specs::Changes::kind_of))]
pub fn dynamic_kind(machine: Machine, number: u32) -> Option<DynamicKind>
    ensures { result ≡ kind_of machine number }
{
    match machine {
        Machine::X86_64 => kind_of_x86_64(number),
        Machine::AArch64 => kind_of_aarch64(number),
    }
}
