//! What each group needs of each part: slots, entries, names, symbols, versions, the dynamic section; and the entry point.
#![tactic(auto)]

mod dynamic;
mod dynsyms;
mod entries;
mod entry;
mod no_tables;
mod rooms;
mod section_symbols;
mod share;
mod slot_shares;
mod strings;
mod table;
mod tally;
mod versions;
mod walk;

pub use dynamic::{DynamicTag, dynamic_count, dynamic_entries_fit, dynamic_entry};
pub use dynsyms::{dynsym_of, is_undefined_entry, table_length, undefined_count};
pub use entries::{
    entry_count, general_count, has_dynamic_entry, has_dynamic_entry_by, is_relative,
    is_relative_by, relr_place, relr_place_at, sorted_word_count, word_count,
};
pub use entry::elf_entry_address;
pub use no_tables::{has_no_dynamic_tables, inner_groups_need_no_tables};
pub use section_symbols::section_symbol_count;
pub use share::{
    bytes_per_image, has_last, is_plain_group, name_bytes, needs, needs_nothing_in, total_share,
    total_share_of,
};
pub use slot_shares::{RelrGot, group_relr_got, pair_words, words_in};
pub use strings::{
    dynstr_prefix, entry_name_count, entry_room, epilogue_string_bytes, needed_count, next_dynstr,
    string_start, strings_have_their_room, strings_room, text_room,
};
pub use table::{
    SymtabName, SymtabPass, SymtabSymbols, TablePart, global_count, has_long, is_local, is_on_side,
    local_count, passes, prefix, suffix, table_room,
};
pub use tally::{SectionCounts, section_counts};
pub use versions::{
    definition_size, definitions_size, need_count, need_size, needs_of, version_room,
};
pub use walk::{TableSink, give_table};
