//! Placed input sections: input sections in the form that they have in the output. Kept frames are consecutive, and the words of
//! reversed sections are in reverse order.
#![tactic(auto)]

mod counts;
mod frames;
mod give;
mod kept_frames;
mod laws;
mod placed;
mod sort_order;
mod tables;
mod words;

pub use counts::{all_fdes, fde_count, file_frames, frames_at, kept_size};
pub use frames::FileFrames;
pub use give::{give_relocations, give_reversed};
pub use kept_frames::frame_flags;
pub use laws::plain_files_are_unchanged;
pub use placed::{PlacedInput, place_input, place_sorted};
pub use sort_order::{SortedInput, sorted_input};
