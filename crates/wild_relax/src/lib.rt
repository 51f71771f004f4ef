//! The differences between the machines, and the rewrites of instructions that do not need their slot or stub.
#![tactic(auto)]

pub mod aarch64;
mod arch;
mod laws;
mod laws_aarch64;
mod padding;
mod pattern;
mod property;
mod reference;
mod relaxation;
mod rewrite;
mod row;
mod rows_aarch64;
mod sequence;
pub mod table;
pub mod table_aarch64;
mod template;
mod x86_64;

pub use aarch64::{ElfAArch64, ElfAArch64Relaxation};
pub use arch::Arch;
pub use laws::{
    rewrites_keep_the_effect, rewrites_stay_in_their_patterns, rewrites_write_relocation_types,
    rewritten_fields_suit_symbols, rows_have_duties, stubs_jump_to_their_slots,
};
pub use laws_aarch64::{
    aarch64_code_reaches, aarch64_fields_agree, aarch64_rewrites_keep_the_effect,
    aarch64_rows_apply_together,
};
pub use padding::filling;
pub use pattern::{Cell, GeneralForm, LocalForm, Operation, Pattern, Prefix, Sequence};
pub use property::{PropertyClass, property_class};
pub use reference::{NO_RELOCATION, Reference, RelocationInfo, UnknownSequence};
pub use relaxation::{Relaxation, RelaxationKind, RelocationModifier};
pub use rewrite::Change;
pub use row::{Distance, Duty, Goal, Made, Partner, Row, SymbolTest, ValueTest, Word, Written};
pub use rows_aarch64::choose_aarch64;
pub use sequence::words_before;
pub use x86_64::{ElfX86_64, ElfX86_64Relaxation};
