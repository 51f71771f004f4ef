//! The programs over input and output in memory.
use std::alloc::Global;
use std::test::Fail;
use std::thread::Threads;
use wild_explain::explain;
use wild_program::{MemSink, MemSource, run};

/// Which reads and writes fail, which writes take nothing, and how many bytes one of them moves at most.
#[derive(Clone, Copy)]
pub(crate) struct Io<'a> {
    pub(crate) failing_reads: &'a [u64],
    pub(crate) failing_writes: &'a [u64],
    pub(crate) empty_writes: &'a [u64],
    pub(crate) most: usize,
}

/// Input and output that never fail.
pub(crate) const CALM: Io<'static> = Io {
    failing_reads: &[],
    failing_writes: &[],
    empty_writes: &[],
    most: 100_000,
};

/// The words of a command.
pub(crate) fn words_of(alloc: Global, words: &[&str]) -> Result<Vec<String>, Fail> {
    let mut owned = Vec::new(alloc);
    for word in words {
        owned.push(String::from_str(alloc, *word)?)?;
    }
    Ok(owned)
}

/// The status and the output of the linking program for these words and this plan.
pub(crate) fn answer(
    rt: &(impl Threads + Sync),
    alloc: Global,
    words: &[&str],
    plan: &[u8],
    io: &Io<'_>,
) -> Result<(u8, Vec<u8>), Fail> {
    let owned = words_of(alloc, words)?;
    let most = io.most.max(1);
    let mut source = MemSource::new(plan.to_vec(alloc)?, io.failing_reads.to_vec(alloc)?, most);
    let mut sink = MemSink::new(
        Vec::new(alloc),
        io.failing_writes.to_vec(alloc)?,
        io.empty_writes.to_vec(alloc)?,
        most,
    );
    let status = run(rt, alloc, &owned, &mut source, &mut sink)?;
    Ok((status, sink.bytes().to_vec(alloc)?))
}

/// The status and the text of `explain` for these words and this plan.
pub(crate) fn explained(
    rt: &(impl Threads + Sync),
    alloc: Global,
    words: &[&str],
    plan: &str,
) -> Result<(u8, String), Fail> {
    let owned = words_of(alloc, words)?;
    let mut source = MemSource::new(plan.as_bytes().to_vec(alloc)?, Vec::new(alloc), CALM.most);
    let mut sink = MemSink::new(Vec::new(alloc), Vec::new(alloc), Vec::new(alloc), CALM.most);
    let status = explain(rt, alloc, &owned, &mut source, &mut sink)?;
    let text = String::from_utf8(sink.bytes().to_vec(alloc)?)
        .ok()
        .ok_or("no text")?;
    Ok((status, text))
}
