//! A group's tables for the loader: GOT words, PLT stubs, RELA entries, RELR words, and `.dynamic`.
#![tactic(auto)]

mod dynamic;
mod laws;
mod rela;
mod relr;
mod room;
mod slot_words;
mod slot_write_error;
mod stub;
mod verify;
mod word;
mod writer;

pub use dynamic::{write_dynamic, write_unused};
pub use laws::slots_are_filled;
pub use rela::RelaTable;
pub use relr::RelrTable;
pub use room::Room;
pub use slot_write_error::SlotWriteError;
pub use stub::StubTable;
pub use verify::{ROLES, verify_resolution_allocation};
pub use word::WordTable;
pub use writer::{TableWriter, relative_entry};
