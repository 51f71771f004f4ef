//! A change of one input section: other bytes and other relocations, in a layout that is otherwise as before.
#![tactic(auto)]

mod change;

pub use change::Change;
