//! The whole program, over any source and sink.
ghost use Rattle.std.specs.Prelude.{◌≡◌, IfOk, OnErr};
ghost use Rattle.wild_program.specs.Program.{source_change, sink_change};
ghost use Rattle.wild_explain.specs.Explain.{Asks, IsAnswered};

use crate::answer::plan_answer;
use crate::command::{Command, command_of};
use std::alloc::{AllocError, Global};
use std::thread::Threads;
use wild_io::{ReadFault, Sink, Source, read_whole};
use wild_program::{LIMIT, READ_FAULT, TOO_LONG, USAGE, write_answer};

/// The list of the commands.
const USAGE_TEXT: &[u8; 73] =
    b"usage: explain [--first | --all] [--relocations] [--byte OFFSET] | needs\n";

/// Reads the plan and writes the command's answer.
fn run_command<S: Source, K: Sink>(
    rt: &(impl Threads + Sync),
    alloc: Global,
    words: &[String],
    command: Command,
    source: &mut S,
    sink: &mut K,
) -> Result<u8, AllocError>
    requires { Asks words.now command }
    ensures ok { IfOk result (λ said. IsAnswered words.now
        (source_change (S.unread_bytes source.old) (S.unread_bytes source.new) (S.faults source.old) (S.faults source.new))
        (sink_change (K.output_bytes sink.old) (K.output_bytes sink.new) (K.faults sink.old) (K.faults sink.new)) said) }
    ensures memory { OnErr result (K.output_bytes sink.new ≡ K.output_bytes sink.old) }
{
    let bytes = match read_whole(alloc, source, LIMIT) {
        Ok(bytes) => bytes,
        Err(ReadFault::Memory) => return Err(AllocError),
        Err(ReadFault::IoFailure) => return Ok(write_answer(sink, b"read fault\n", READ_FAULT)),
        Err(ReadFault::TooLong) => return Ok(write_answer(sink, b"plan too long\n", TOO_LONG)),
    };
    let (code, answer) = plan_answer(rt, alloc, &bytes, command)?;
    Ok(write_answer(sink, answer.as_bytes(), code))
}

/// The whole program: reads the plan, and says why its layout has no image, or what each group needs. The status is that of
/// `link`; `needs` returns 0 for every plan.
pub fn explain<S: Source, K: Sink>(
    rt: &(impl Threads + Sync),
    alloc: Global,
    words: &[String],
    source: &mut S,
    sink: &mut K,
) -> Result<u8, AllocError>
    // The status and the text are right for the input; the text for a plan begins with the first line of `link`'s answer.
    ensures answer { IfOk result (λ said. IsAnswered words.now
        (source_change (S.unread_bytes source.old) (S.unread_bytes source.new) (S.faults source.old) (S.faults source.new))
        (sink_change (K.output_bytes sink.old) (K.output_bytes sink.new) (K.faults sink.old) (K.faults sink.new)) said) }
    // If memory is refused, no byte has been written.
    ensures memory { OnErr result (K.output_bytes sink.new ≡ K.output_bytes sink.old) }
{
    match command_of(words) {
        None => Ok(write_answer(sink, USAGE_TEXT, USAGE)),
        Some(command) => run_command(rt, alloc, words, command, source, sink),
    }
}
