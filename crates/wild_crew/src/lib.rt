//! Parallel work: workers claim groups by a shared counter, count relocations in other shared words, and their pieces are collected in
//! group order.
#![tactic(auto)]

mod crew;
mod gathering;
mod hand;
mod job;
mod log;
mod per_worker;
mod place;
mod rule;
mod steps;
mod work;

pub use gathering::{JobResults, gather, gather_alone};
pub use hand::{Hand, Shape};
pub use job::{Counted, Gate, Job, OpenGate};
pub use per_worker::PerWorker;
pub use rule::{Law, View};
pub use steps::{Core, Step, every_run_is_kept};
pub use work::{Board, Crew, Token, claim, count, join_in, split};
