//! Places the code of layouts in memory, side by side.
#![tactic(auto)]

mod code;
mod fault;
mod index;
mod laws;
mod listed;
mod live;
mod placed;
mod plain;
mod shared;

pub use code::place_code;
pub use fault::PlaceFault;
pub use index::LoadedRun;
pub use laws::{placed_runs_are_separate, placements_are_sound, plain_layouts_are_loaded};
pub use placed::Placed;
