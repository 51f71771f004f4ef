//! The relocations of debug sections: each writes a value as the output is linked, or a tombstone.
#![tactic(auto)]

mod apply;
mod decide;
mod faults;
mod pass;
mod sharded;
mod step;

pub use apply::{DebugWriter, Workers, apply_debug_rela_relocations, apply_debug_relocations};
pub use decide::DebugStep;
