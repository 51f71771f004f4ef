//! The words of packed relative relocations (RELR): how they are decoded, and a writer that encodes one place at a time.
#![tactic(auto)]

mod bits;
mod cases;
mod count;
mod laws;
mod run;
mod words;
mod writer;

pub use cases::choice;
pub use count::count_words;
pub use laws::{
    blocks_hold_their_slots, each_place_is_recorded, pieces_are_packed, pieces_are_recorded,
    places_are_even, relr_slot_is_a_run, rising_runs_keep_order, runs_are_counted,
    runs_are_recorded, words_are_read, words_fit,
};
pub use run::{Choice, Run};
pub use words::block_words;
pub use writer::{Full, RelrWriter};
