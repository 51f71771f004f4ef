//! The headers of an image and the names of its sections: their definition, their length, what a reader finds in them,
//! and their writers.
#![tactic(auto)]

mod file_header;
mod laws;
mod numbers;
mod program_headers;
mod section_headers;
mod section_names;

pub use file_header::populate_file_header;
pub use laws::{headers_are_read, headers_have_their_lengths, large_numbers_are_read};
pub use program_headers::write_program_headers;
pub use section_headers::write_section_headers;
pub use section_names::write_section_names;
