//! The tables of an image as definitions: relative entries, the dynamic section, symbols and their names, versions, headers. The code that writes them is
//! `wild_tables`, `wild_symbols`, `wild_versions` and `wild_headers`.
#![tactic(auto)]

mod laws;
mod section_info;
mod symbols;

pub use laws::{dynamic_sections_are_read, entries_are_read, loaders_agree, places_are_loaded};
pub use section_info::ComputedInfo;
pub use symbols::{NamedSections, SymbolAttributes, SymbolFields, TableFields};
