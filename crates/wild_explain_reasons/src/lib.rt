//! Diagnoses of layouts: why one was refused and where, what each part needs, and what would go wrong when it is loaded.
#![tactic(auto)]

mod advice;
mod all;
mod clauses;
mod contents;
mod demands;
mod faults;
mod fields;
mod frames;
mod fronts;
mod headers;
mod hints;
mod items;
mod layout_rows;
mod likely;
mod linking;
mod lists;
mod members;
mod names;
mod needs;
mod owner;
mod partial;
mod plan;
mod reason;
mod segments;
mod shares;
mod stores;
mod symbol_places;
mod symbols;
mod table_rows;
mod tests;
mod text;
mod thunks;
mod verdict;

pub use advice::push_advice;
pub use all::push_all;
pub use faults::push_relocation;
pub use fields::push_fields;
pub use items::{Item, SectionPlace, push_item};
pub use members::push_no_plan;
pub use names::{part_word, push_resolution, push_type};
pub use needs::{push_image, push_needs};
pub use owner::push_owner;
pub use reason::push_reason;
pub use text::Text;
