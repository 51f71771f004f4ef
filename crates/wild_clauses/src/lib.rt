//! Whether a layout is well formed: its clauses, in their order.
#![tactic(auto)]

mod copies;
mod counts;
mod dynsyms;
mod each_section;
mod entries;
mod fields;
mod front;
mod fronts;
mod hashes;
mod indexes;
mod inputs;
mod layout_survey;
mod listed_symbols;
mod loaded_bytes;
mod names;
mod order;
mod partial;
mod places;
mod roles;
mod sections;
mod segments;
mod shares;
mod sizes;
mod slot_flags;
mod slot_parts;
mod slots;
mod sorted_sections;
mod starts;
mod survey;
mod symbol_indexes;
mod threads;
mod thunks;
mod verdict;
mod versions;

pub use fields::{fields_lie, relocations_are_read};
pub use fronts::reversed_fits;
pub use indexes::section_indexes_fit;
pub use layout_survey::LayoutSurvey;
pub use partial::file_tables_fit;
pub use survey::section_passes;
pub use verdict::{well_formed, well_formed_with};
