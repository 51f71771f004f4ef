//! What each group contributes to each part: relocation entries, GOT words, PLT stubs, names, symbols, hash tables, versions and the
//! dynamic section, and the bytes of its input sections and thunks.
#![tactic(auto)]

mod copies;
mod dynamic;
mod dynamic_relocations;
mod exported;
mod file_tables;
mod frame_cursor;
mod hashes;
mod no_entries;
mod notes;
mod part_bytes;
mod placed_sections;
mod relative_entries;
mod relr_words;
mod search_table;
mod slot_faults;
mod slot_tables;
mod slot_words;
mod slots;
mod strings;
mod symbols;
mod symtab;
mod symtab_faults;
mod tables;
mod thunks;
mod versions;

pub use copies::check_entries;
pub use exported::check_symbol_tables;
pub use notes::{write_gnu_build_id_note, write_gnu_property_notes};
pub use part_bytes::PartBytes;
pub use placed_sections::address_after_frames;
pub use search_table::{SearchTable, make_search_table};
pub use tables::{FrameTables, add_content};
pub use thunks::add_thunks;
