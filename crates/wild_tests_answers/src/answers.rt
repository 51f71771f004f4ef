//! What the two programs print for an input in memory.
use std::alloc::{AllocError, Global};
use std::thread::Threads;
use wild_explain::explain;
use wild_program::{MemSink, MemSource, run};

/// The most bytes that one read or write moves.
const MOST: usize = 100_000;

fn source_of(alloc: Global, plan: &str) -> Result<MemSource, AllocError> {
    Ok(MemSource::new(plan.as_bytes().to_vec(alloc)?, Vec::new(alloc), MOST))
}

fn sink(alloc: Global) -> MemSink {
    MemSink::new(Vec::new(alloc), Vec::new(alloc), Vec::new(alloc), MOST)
}

fn words_of(alloc: Global, words: &[&str]) -> Result<Vec<String>, AllocError> {
    let mut owned = Vec::new(alloc);
    for word in words {
        owned.push(String::from_str(alloc, *word)?)?;
    }
    Ok(owned)
}

/// The status and the output of a command.
pub(crate) fn command_answer(
    rt: &(impl Threads + Sync),
    alloc: Global,
    words: &[&str],
    input: &str,
) -> Result<(u8, Vec<u8>), AllocError> {
    let words = words_of(alloc, words)?;
    let mut source = source_of(alloc, input)?;
    let mut sink = sink(alloc);
    let status = run(rt, alloc, &words, &mut source, &mut sink)?;
    Ok((status, sink.bytes().to_vec(alloc)?))
}

/// The status and the output of `explain`; an empty output if it is not UTF-8.
pub(crate) fn explain_answer(
    rt: &(impl Threads + Sync),
    alloc: Global,
    plan: &str,
) -> Result<(u8, String), AllocError> {
    let words = words_of(alloc, &["explain"])?;
    let mut source = source_of(alloc, plan)?;
    let mut sink = sink(alloc);
    let status = explain(rt, alloc, &words, &mut source, &mut sink)?;
    match String::from_utf8(sink.bytes().to_vec(alloc)?) {
        Ok(text) => Ok((status, text)),
        Err(_) => Ok((status, String::new(alloc))),
    }
}
