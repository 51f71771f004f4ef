//! Who runs a linker's work: the threads of a runtime, or the calling thread alone.
#![tactic(auto)]

mod executor;

pub use executor::{Alone, Executor, Threaded};
