//! The name space of several images: the order in which they are searched, the definition that each dynamic symbol is bound to, and
//! the world in which each image is loaded.
#![tactic(auto)]

mod answers;
mod binds;
mod copies;
mod fault;
mod image;
mod laws;
mod loading;
mod names;
mod order;
mod ordered;
mod overlaps;
mod space;
mod symbols;
mod worlds;

pub use binds::Definition;
pub use fault::BindFault;
pub use image::NamedImage;
pub use laws::{
    binds_are_first, definitions_are_one, least_overlaps_are_least, orders_are_breadth_first,
    spaces_are_made, spaces_overlap_nowhere,
};
pub use loading::Loaded;
pub use order::Growing;
pub use space::{Bound, bind_images};
pub use symbols::{Source, Symbols};
pub use worlds::Spaces;
