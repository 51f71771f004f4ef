//! What one image needs of others, and what it defines for them.
#![tactic(auto)]

mod copies;
mod count;
mod definitions;
mod needed;

pub use copies::copied_symbols;
pub use count::symbol_count;
pub use definitions::{find_definition, thread_start};
pub use needed::needed_offsets;
