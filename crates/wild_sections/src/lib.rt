//! Applies the relocations of an input section: decides each, and writes its field.
#![tactic(auto)]

mod calls;
mod choice;
mod decide;
mod defining_file;
mod fields;
mod file_of_symbol;
mod indirect;
mod merged;
mod merged_symbols;
mod origin;
mod overlap;
mod partial;
mod pc32;
mod per_symbol;
mod place;
mod relocation;
mod resolve;
mod section;
mod target;
mod thunk;
mod values;

pub use file_of_symbol::{SymbolFile, section_in_file};
pub use indirect::{decided_address, index_of, stub_of};
pub use origin::Origin;
pub use partial::{write_group_section, write_rela_section};
pub use place::InputPlace;
pub use relocation::{addend_bits, field};
pub use resolve::{
    address_for, offset_from, pointer_offset, raw_address, relative_value, sum, value_or_0,
};
pub use section::{offset_of, write_data};
pub use values::{Resolved, SymbolTables};
