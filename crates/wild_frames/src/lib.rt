//! The frames of `.eh_frame` that are kept, and the search table of `.eh_frame_hdr`.
#![tactic(auto)]

mod count;
mod entry;
mod frames;
mod laws;
mod pass;
mod relocations;
mod search;
mod sorter;
mod table;
mod walk;
mod write;

pub use count::{FrameCounts, count_frames};
pub use entry::{BadFrame, Cie, Found, FrameError, KeptEntry};
pub use frames::{FrameSource, Target};
pub use laws::kept_entries_are_read;
pub use pass::Pass;
pub use search::{check_order, look_up, tables_are_searched};
pub use sorter::{Sorter, sort_eh_frame_hdr_entries, sort_entries_alone};
pub use table::{Fde, TableError, write_eh_frame_hdr, write_search_table};
pub use walk::Walk;
pub use write::{
    add_found, walk_continues, write_eh_frame_data, write_eh_frame_terminator, write_entry,
};
