//! The symbol tables of a group, `.symtab` and `.dynsym`, and their names.
#![tactic(auto)]

mod dynamic;
mod index_table;
mod laws;
mod map;
mod numbers;
mod prefix;
mod section_index;
mod section_walk;
mod strtab;
mod symbol_table;
mod table;
mod writer;

pub use dynamic::{entry_at, exported_symbol_fields, named_sections, no_fields, undefined_fields};
pub use index_table::IndexTable;
pub use laws::{
    entries_are_counted, names_are_strings, prefixes_are_the_writers, runs_are_read,
    sides_are_read, strings_are_at_offsets, symbols_are_read,
};
pub use map::{build_sym_index_map, named_index};
pub use prefix::{ReservedBytes, SymbolTablePrefix};
pub use section_walk::give_section_symbols;
pub use strtab::StrTabWriter;
pub use symbol_table::SymbolTable;
pub use table::{null_table_fields, section_fields, table_fields};
pub use wild_table_formats::{NamedSections, SymbolAttributes, SymbolFields, TableFields};
pub use writer::{SymbolTableWriter, dynstr_start, strtab_start};
