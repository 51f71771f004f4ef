//! The versions of dynamic symbols: `.gnu.version`, the versions that the output defines, and those that it needs of
//! libraries.
#![tactic(auto)]

mod definitions;
mod files;
mod laws;
mod names;
mod needs;
mod room;
mod symbols;
mod table;
mod writer;

pub use files::{file_definitions, file_versions, group_needs};
pub use laws::{
    definitions_are_read, needs_are_read, symbol_versions_are_read,
    version_tables_have_their_lengths,
};
pub use table::VersionTable;
pub use writer::VersionWriter;
