//! The program `link W`, `make N W`, `relink W` and `space` over standard input and output.
#![tactic(auto)]

use std::process::ExitCode;
use std::{env, io};
use wild_program::{ReaderSource, WriterSink, run, status_of, words_of};

fn main(rt: HostRuntime) -> ExitCode {
    let alloc = rt.alloc();
    let mut source = ReaderSource::new(rt.reader());
    let mut sink = WriterSink::new(io::writer(&rt));
    let outcome = match words_of(alloc, env::args(&rt)) {
        Ok(words) => run(&rt, alloc, &words, &mut source, &mut sink),
        Err(e) => Err(e),
    };
    ExitCode::from(status_of(outcome))
}
