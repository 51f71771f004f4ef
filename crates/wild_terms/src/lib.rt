//! Symbolic loading: the memory of an image in every world at once, with a term in place of each number that a world determines.
#![tactic(auto)]

mod laws;
mod load;
mod memory;
mod outline;
mod term;

pub use laws::{terms_are_loaded, terms_have_values};
pub use load::{TermPatch, load_terms};
pub use memory::TermMemory;
pub use outline::{KnownAnswer, Outline, TermChange};
pub use term::{Atom, Term};
