//! The definitions of a well-formed layout: each clause as a test, and their order. The code that checks them is `wild_clauses`.
#![tactic(auto)]

mod group_starts;
mod side;
mod slot_places;

pub use group_starts::Starts;
pub use side::ImageOrMemory;
pub use slot_places::SlotCursor;
