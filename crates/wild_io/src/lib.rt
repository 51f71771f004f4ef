//! Input and output: the traits that the program reads and writes by, and their adapters.
#![tactic(auto)]

mod adapters;
mod memory;
mod prefix;
mod sure;
mod traits;
mod whole_text;

pub use adapters::{ReaderSource, WriterSink};
pub use memory::{MemSink, MemSource};
pub use sure::{SureSink, SureSource};
pub use traits::{IoFailure, Sink, Source};
pub use whole_text::{ReadFault, read_whole, write_whole};
