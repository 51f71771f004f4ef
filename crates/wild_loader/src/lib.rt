//! A model of the loader and of the processor: the memory of a loaded image, and the effect of its code.
#![tactic(auto)]

mod aarch64;
mod answers;
mod change;
mod effect;
mod fault;
mod headers;
mod image;
mod index;
mod instruction;
mod kind;
mod laws;
mod memory;
mod places;
mod reach;
mod relocate;
mod runs;
mod segments;
mod table;
mod tables;
mod template;
mod world;

pub use aarch64::step_aarch64;
pub use change::{Change, Patch};
pub use effect::{Effect, Value, step, step_x86_64};
pub use fault::LoadFault;
pub use headers::{read_header, read_programs};
pub use image::{Image, load_image, read_image, read_machine_and_tables};
pub use index::IndexedMemory;
pub use instruction::{Action, Cell, Deed, Operand};
pub use kind::{DynamicKind, dynamic_kind};
pub use laws::{
    bytes_are_loaded, calls_are_read, dynamic_images_are_loaded, entries_make_changes,
    entries_store_words, images_are_moved, jumps_are_read, jumps_reach, linked_images_are_loaded,
    numbers_are_read, parts_are_put, relocated_tables_are_applied, runs_are_meant,
    slot_calls_are_read, slot_jumps_are_read, static_images_are_loaded, steps_are_meant,
    stubs_are_read, stubs_of_words_are_read, tables_are_applied, tables_are_filled,
    words_are_places,
};
pub use memory::{Machine, Memory, Run};
pub use places::read_places;
pub use reach::reaches;
pub use relocate::relocate_runs;
pub use runs::check_runs;
pub use table::template_x86_64;
pub use tables::{
    Span, Tables, contains_address, find_dynamic, find_tag, is_to_apply, read_dynamic, read_relas,
    read_words,
};
pub use template::{Operation, Place, Prefix, Register, Sort, Template};
pub use world::{Answer, World};
