//! The program that explains a plan: `explain` says why a layout has no image, and where; `needs` says how many bytes of each part
//! each group needs. The caller chooses the source and the sink.
#![tactic(auto)]

mod answer;
mod command;
mod laws;
mod program;

pub use command::{Command, View, command_of};
pub use laws::link_line_is_first;
pub use program::explain;
