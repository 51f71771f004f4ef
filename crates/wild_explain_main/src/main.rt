//! The program `explain` and `needs` over standard input and output.
#![tactic(auto)]

use std::process::ExitCode;
use std::{env, io};
use wild_explain::explain;
use wild_program::{ReaderSource, WriterSink, status_of, words_of};

fn main(rt: HostRuntime) -> ExitCode {
    let alloc = rt.alloc();
    let mut source = ReaderSource::new(rt.reader());
    let mut sink = WriterSink::new(io::writer(&rt));
    let outcome = match words_of(alloc, env::args(&rt)) {
        Ok(words) => explain(&rt, alloc, &words, &mut source, &mut sink),
        Err(e) => Err(e),
    };
    ExitCode::from(status_of(outcome))
}
