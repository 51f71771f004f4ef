//! The program as a library: `link W` reads a plan and writes its image as text; `make N W` writes the summary of the
//! image of N groups; `verify` reads a plan and an image and writes the verdict on it; `relink W` reads a plan and a change of one input section; `place W` reads a plan and a world, and writes the
//! memory of the plan; `space` reads images and writes how a dynamic linker binds them. The caller chooses the source and the sink.
#![tactic(auto)]

mod command;
mod input;
mod making;
mod place;
mod program;
mod relink;
mod space;
mod status;
mod verify;
mod words;

pub use command::Command;
pub use input::LIMIT;
pub use program::{layout_answer, plan_answer, run, run_surely, write_answer};
pub use status::{
    CUT_SHORT, DOUBTED, LINKED, NO_MEMORY, NO_PLAN, NOT_BOUND, NOT_CHANGED, NOT_PLACED, READ_FAULT,
    REFUSED, TOO_LONG, USAGE, status_of,
};
pub use wild_io::{
    IoFailure, MemSink, MemSource, ReadFault, ReaderSource, Sink, Source, SureSink, SureSource,
    WriterSink,
};
pub use wild_text::{InputFault, read_plan};
pub use words::{command_of, words_of};
