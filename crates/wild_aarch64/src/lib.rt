//! The meaning of AArch64 code, as far as relocated fields and a linker's rewrites need it.
#![tactic(auto)]

mod code;
mod laws;
mod machine;
mod operand;
mod registers;
mod template;

pub use code::{Code, Shift, code_of};
pub use laws::{
    fields_are_written, hints_do_nothing, jumps_are_followed, longest_is_first,
    rewrites_keep_the_effect, stubs_are_steps, stubs_jump,
};
pub use machine::{NextStep, branch_of, meaning_of, step_of};
pub use operand::{Action, Deed, Operand};
pub use registers::{Entry, Registers};
pub use template::{Step, Template, longest_step, without_immediate};
