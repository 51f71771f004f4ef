//! Replaces an input section of a linked layout, and writes only its group again.
#![tactic(auto)]

mod changed_faults;
mod changed_image;
mod fault;
mod find;
mod laws;
mod linked;
mod rewrite;
mod swap;

pub use fault::RelinkFault;
pub use laws::linked_images_are_sound;
pub use linked::Linked;
pub use rewrite::relink;
pub use wild_change::Change;
