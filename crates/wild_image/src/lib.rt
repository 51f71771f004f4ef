//! Writes the image of a layout.
#![tactic(auto)]

mod append;
mod batch;
mod buffer;
mod clause_check;
mod group_writer;
mod job;
mod layout_facts;
mod marks;
mod output;
mod padding;
mod piece;
mod prefix;
mod prepared;
mod relocation_counts;
mod share_job;
mod shares;
mod split_by_part;
mod step_count;

pub use clause_check::ClauseChecker;
pub use group_writer::{GroupWriter, ImageWriter};
pub use job::{GroupJob, Outcome};
pub use output::{SizedOutput, write, write_gated, write_layout, write_prefix};
pub use padding::fill_padding_for_sections;
pub use piece::{GroupPiece, write_group, write_group_over};
pub use prepared::Prepared;
pub use share_job::{ShareCheck, ShareChecker, ShareJob};
pub use shares::check_shares;
pub use step_count::Steps;
pub use wild_contents::{PartBytes, write_gnu_build_id_note, write_gnu_property_notes};
pub use wild_crew::{Gate, OpenGate};
pub use wild_debug::{DebugWriter, Workers};
pub use wild_executor::{Alone, Executor, Threaded};
pub use wild_headers::{populate_file_header, write_program_headers, write_section_headers};
pub use wild_needs::elf_entry_address;
pub use wild_relax::{Arch, ElfAArch64, ElfX86_64};
