//! The texts of the program: which JSON value encodes which layout, and what the program writes.
#![tactic(auto)]

mod answer;
mod bytes;
mod extras;
mod fault;
mod input;
mod laws;
mod lists;
mod members;
mod options;
mod output;
mod place;
mod place_lines;
mod plan;
mod plan_members;
mod refusal;
mod relink;
mod shapes;
mod space;
mod space_lines;
mod symbol;
mod values;
mod verify;
mod verify_lines;
mod versions;
mod warning;

pub use answer::{
    image_answer, no_length_answer, no_plan_answer, no_section_answer, push_counts, relink_answer,
};
pub use bytes::{read_bytes, read_plan};
pub use fault::{InputFault, PlanFault};
pub use laws::{parts_are_read_again, plans_are_read, spaces_have_images};
pub use members::Planned;
pub use place::PlaceRequest;
pub use place_lines::{place_answer, place_refusal};
pub use refusal::refusal_answer;
pub use relink::RelinkRequest;
pub use space::SpaceRequest;
pub use space_lines::{space_answer, space_refusal};
pub use verify::VerifyRequest;
pub use verify_lines::{
    no_byte_answer, no_load_answer, no_partial_answer, no_reference_answer, no_segment_answer,
    yes_answer,
};
