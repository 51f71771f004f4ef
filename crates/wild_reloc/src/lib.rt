//! The relocation tables of x86-64 and AArch64, and writing of relocated fields.
#![tactic(auto)]

pub mod aarch64;
mod dynamic;
mod expression;
mod info;
mod instruction;
mod laws;
mod names;
mod names_aarch64;
mod names_x86_64;
mod range;
pub mod x86_64;

pub use dynamic::DynamicRelocationKind;
pub use expression::{Class, Expression, SlotSort, Subtrahend, Term};
pub use info::{OutOfRange, PageMask, RelocationKind, RelocationKindInfo, RelocationSize, Width};
pub use instruction::{AArch64Instruction, BitMask};
pub use laws::{
    fields_of_aarch64, fields_of_x86_64, narrow_fields_are_barred, rows_have_no_bias,
    widths_of_fields,
};
pub use names::{DisplayRelocation, RelName};
pub use range::{AllowedRange, Sign};
