//! Hash tables of the defined dynamic symbols, and the look-up of a name in them.
#![tactic(auto)]

mod fault;
mod image;
mod laws;
mod lookup;
mod reading;
mod tables;
mod writers;

pub use fault::{ImageFault, LookupFault};
pub use image::{Part, Parts, Records, bytes_of, lookup_gnu, lookup_sysv, read_header};
pub use laws::{
    gnu_look_up_finds_the_first, hash_tables_have_their_lengths, neighbours_ascend,
    sysv_look_up_finds_the_first,
};
pub use lookup::{find_gnu_symbol, find_sysv_symbol};
pub use reading::{LookupTables, read_word};
pub use tables::{ImageTables, find_image_tables, find_name, symbol_at, text_at};
pub use writers::{write_gnu_hash_tables, write_sysv_hash_table};
