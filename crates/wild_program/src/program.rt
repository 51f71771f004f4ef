//! The whole program, over any source and sink.
ghost use Rattle.std.specs.Prelude.{◌≡◌, ◌≢◌, ◌≤◌, ℕ, List, Some, None, IfOk, OnErr, MatchResult};
ghost use Rattle.wild_io.specs.Memory.{sure_unread};
ghost use Rattle.wild_program.specs.Exit.{read_fault, cut_short};
ghost use Rattle.wild_program.specs.declared.command.Command.TheVariants.{Link};
ghost use Rattle.wild_program.specs.Program.{Asks, layout_status, layout_text, source_change, sink_change, IsWritten, IsAnswered};
ghost use Rattle.wild_program.specs.Clauses.{HasItsCause, NothingFailed, IsDetermined, IsComplete, IsHeadline, IsMadeBy, IsBoundBy, IsCheckedBy};
ghost use Rattle.wild_program.specs.Steps.{IsRefusal, HasRightNumbers, IsPlan, HasNoPlan, IsAnswerOf, IsAnsweredBy};
ghost use Rattle.wild_text.specs.Plan.{layout_in};

use crate::command::Command;
use crate::input::{layout_of, read_input};
use crate::making::made_answer;
use crate::place::loaded_answer;
use crate::relink::rewrite_answer;
use crate::space::bind_answer;
use crate::status::{CUT_SHORT, LINKED, NO_PLAN, READ_FAULT, REFUSED, TOO_LONG, USAGE};
use crate::verify::checked_answer;
use crate::words::command_of;
use std::alloc::{AllocError, Global};
use std::thread::Threads;
use wild_image::{ImageWriter, Threaded, write_layout};
use wild_io::{ReadFault, Sink, Source, SureSink, SureSource, write_whole};
use wild_laws::images_are_sound;
use wild_layout::numbers_fit;
use wild_placer::placements_are_sound;
use wild_plan::{Error, Fault, Layout};
use wild_space::{binds_are_first, orders_are_breadth_first, spaces_are_made};
use wild_text::{image_answer, plans_are_read, refusal_answer, spaces_have_images};

/// Writes the text, and returns the status, or the one for a failed write.
pub fn write_answer<K: Sink>(sink: &mut K, answer: &[u8], code: u8) -> u8
    ensures { IsWritten (sink_change (K.output_bytes sink.old) (K.output_bytes sink.new) (K.faults sink.old) (K.faults sink.new))
        code answer.now result }
{
    match write_whole(sink, answer) {
        Ok(()) => code,
        Err(_) => CUT_SHORT,
    }
}

/// The status and the text for a layout.
pub fn layout_answer<E: ImageWriter>(
    executor: &E,
    alloc: Global,
    layout: &Layout,
    workers: u8,
) -> Result<(u8, Vec<u8>), AllocError>
    requires ready { E.ready executor.now }
    requires workers { (1 ≤ workers) × (workers ≤ 64) }
    ensures { IfOk result (λ a. (a.0 ≡ layout_status layout.now) × (a.1.items ≡ layout_text layout.now)) }
{
    match write_layout(executor, alloc, layout, workers) {
        Ok(made) => {
            let text = image_answer(
                alloc,
                layout,
                made.out.as_slice(),
                made.warnings.as_slice(),
                made.counts.as_slice(),
            )?;
            Ok((LINKED, text))
        }
        Err(error) => refusal_of(alloc, error),
    }
}

/// The status and the text for a fault; out of memory has none.
pub(crate) fn refusal_of(alloc: Global, error: Error) -> Result<(u8, Vec<u8>), AllocError>
    ensures { IfOk result (λ a. IsRefusal error a.0 a.1.items) }
{
    match error.fault {
        Fault::OutOfMemory => Err(AllocError),
        _ => {
            let text = refusal_answer(alloc, error)?;
            Ok((REFUSED, text.into_bytes()))
        }
    }
}

/// The status and the text of `link` for what the bytes of a plan mean.
fn meaning_answer<E: ImageWriter>(
    executor: &E,
    alloc: Global,
    plan: Result<Layout, Vec<u8>>,
    workers: u8,
) -> Result<(u8, Vec<u8>), AllocError>
    requires ready { E.ready executor.now }
    requires workers { (1 ≤ workers) × (workers ≤ 64) }
    ensures { IfOk result (λ a. (bytes : List ℕ) → MatchResult plan (IsPlan layout_in bytes) (λ text. HasNoPlan layout_in bytes text.items) → IsAnswerOf (Link workers) bytes a.0 a.1.items) }
{
    let layout = match plan {
        Ok(layout) => layout,
        Err(text) => return Ok((NO_PLAN, text)),
    };
    numbers_fit(&layout);
    let answer = layout_answer(executor, alloc, &layout, workers)?;
    Ok(answer)
}

/// The status and the text of `link` for the bytes of a plan, which are dropped before anything is written.
fn link_answer<E: ImageWriter>(
    executor: &E,
    alloc: Global,
    bytes: Vec<u8>,
    workers: u8,
) -> Result<(u8, Vec<u8>), AllocError>
    requires ready { E.ready executor.now }
    requires workers { (1 ≤ workers) × (workers ≤ 64) }
    ensures { IfOk result (λ a. IsAnswerOf (Link workers) bytes.items a.0 a.1.items) }
{
    let plan = layout_of(alloc, bytes.as_slice())?;
    drop(bytes);
    let answer = meaning_answer(executor, alloc, plan, workers)?;
    Ok(answer)
}

/// The status and the text of `link` for the bytes of a plan.
pub fn plan_answer<E: ImageWriter>(
    executor: &E,
    alloc: Global,
    bytes: &[u8],
    workers: u8,
) -> Result<(u8, Vec<u8>), AllocError>
    requires ready { E.ready executor.now }
    requires workers { (1 ≤ workers) × (workers ≤ 64) }
    ensures { IfOk result (λ a. IsAnswerOf (Link workers) bytes.now a.0 a.1.items) }
{
    let plan = layout_of(alloc, bytes)?;
    let answer = meaning_answer(executor, alloc, plan, workers)?;
    Ok(answer)
}

/// The status and the text of a command, for the bytes of its input.
fn command_answer(
    rt: &(impl Threads + Sync),
    alloc: Global,
    command: Command,
    bytes: Vec<u8>,
) -> Result<(u8, Vec<u8>), AllocError>
    requires { HasRightNumbers command }
    ensures { IfOk result (λ a. IsAnswerOf command bytes.items a.0 a.1.items) }
{
    match command {
        Command::Link { workers } => link_answer(&Threaded(rt), alloc, bytes, workers),
        Command::Make { groups, workers } => {
            let summary = made_answer(rt, alloc, groups, workers)?;
            Ok((LINKED, summary))
        }
        Command::Verify => checked_answer(alloc, bytes),
        Command::Relink { workers } => rewrite_answer(rt, alloc, bytes, workers),
        Command::Place { workers } => loaded_answer(rt, alloc, bytes, workers),
        Command::Space => bind_answer(alloc, bytes),
    }
}

/// Reads the input of the command, if it has one, and writes the answer.
fn answer_command<S: Source, K: Sink>(
    rt: &(impl Threads + Sync),
    alloc: Global,
    words: &[String],
    command: Command,
    source: &mut S,
    sink: &mut K,
) -> Result<u8, AllocError>
    requires { Asks words.now command }
    ensures ok { IfOk result (λ said. IsAnsweredBy words.now
        (source_change (S.unread_bytes source.old) (S.unread_bytes source.new) (S.faults source.old) (S.faults source.new))
        (sink_change (K.output_bytes sink.old) (K.output_bytes sink.new) (K.faults sink.old) (K.faults sink.new)) said) }
    ensures memory { OnErr result (K.output_bytes sink.new ≡ K.output_bytes sink.old) }
{
    let bytes = match read_input(alloc, command, source) {
        Ok(bytes) => bytes,
        Err(ReadFault::Memory) => return Err(AllocError),
        Err(ReadFault::IoFailure) => return Ok(write_answer(sink, b"read fault\n", READ_FAULT)),
        Err(ReadFault::TooLong) => return Ok(write_answer(sink, b"plan too long\n", TOO_LONG)),
    };
    let (code, answer) = command_answer(rt, alloc, command, bytes)?;
    Ok(write_answer(sink, &answer, code))
}

/// Answers the command, if the words are one.
fn run_command<S: Source, K: Sink>(
    rt: &(impl Threads + Sync),
    alloc: Global,
    words: &[String],
    source: &mut S,
    sink: &mut K,
) -> Result<u8, AllocError>
    ensures ok { IfOk result (λ said. IsAnsweredBy words.now
        (source_change (S.unread_bytes source.old) (S.unread_bytes source.new) (S.faults source.old) (S.faults source.new))
        (sink_change (K.output_bytes sink.old) (K.output_bytes sink.new) (K.faults sink.old) (K.faults sink.new)) said) }
    ensures memory { OnErr result (K.output_bytes sink.new ≡ K.output_bytes sink.old) }
{
    match command_of(alloc, words)? {
        None => Ok(write_answer(
            sink,
            b"usage: link W | make N W | verify | relink W | place W | space\n",
            USAGE,
        )),
        Some(command) => answer_command(rt, alloc, words, command, source, sink),
    }
}

/// The whole program: reads the plan if the words need one, and writes the answer's text. The status is
/// - 0 (`LINKED`): an image, a summary, a memory or the binds of images were written, or the image is right;
/// - 1 (`REFUSED`): the layout has a fault;
/// - 2 (`USAGE`): the words are not a command;
/// - 3 (`NO_PLAN`): the bytes are not a plan;
/// - 4 (`READ_FAULT`): a read failed;
/// - 5 (`CUT_SHORT`): a write failed;
/// - 7 (`TOO_LONG`): the plan is too long;
/// - 8 (`DOUBTED`): the image is doubted;
/// - 9 (`NOT_CHANGED`): the change names no section that may be changed, or has bytes of another length;
/// - 10 (`NOT_PLACED`): the loader does not load the image in the world;
/// - 11 (`NOT_BOUND`): the images are not bound.
pub fn run<S: Source, K: Sink>(
    rt: &(impl Threads + Sync),
    alloc: Global,
    words: &[String],
    source: &mut S,
    sink: &mut K,
) -> Result<u8, AllocError>
    // The status and the text belong to an answer that is right for the input.
    ensures answer { IfOk result (λ said. IsAnswered words.now
        (source_change (S.unread_bytes source.old) (S.unread_bytes source.new) (S.faults source.old) (S.faults source.new))
        (sink_change (K.output_bytes sink.old) (K.output_bytes sink.new) (K.faults sink.old) (K.faults sink.new)) said) }
    // If an image of an executable or a shared object is written, also after a change, the loader accepts it in every legal world. There
    // each kept reference has the value or target that its relocation requires. If its memory is written, it has in that memory, where
    // the world is legal.
    ensures headline { IfOk result (λ said. IsHeadline words.now
        (source_change (S.unread_bytes source.old) (S.unread_bytes source.new) (S.faults source.old) (S.faults source.new))
        (sink_change (K.output_bytes sink.old) (K.output_bytes sink.new) (K.faults sink.old) (K.faults sink.new)) said) }
    // Each status is returned only for its cause.
    ensures causes { IfOk result (λ said. HasItsCause words.now
        (source_change (S.unread_bytes source.old) (S.unread_bytes source.new) (S.faults source.old) (S.faults source.new))
        (sink_change (K.output_bytes sink.old) (K.output_bytes sink.new) (K.faults sink.old) (K.faults sink.new)) said) }
    // If no read or write fails, the words and the plan determine the status and the text.
    ensures determined { IfOk result (λ said. NothingFailed
        (source_change (S.unread_bytes source.old) (S.unread_bytes source.new) (S.faults source.old) (S.faults source.new))
        (sink_change (K.output_bytes sink.old) (K.output_bytes sink.new) (K.faults sink.old) (K.faults sink.new))
        → IsDetermined words.now
        (source_change (S.unread_bytes source.old) (S.unread_bytes source.new) (S.faults source.old) (S.faults source.new))
        (sink_change (K.output_bytes sink.old) (K.output_bytes sink.new) (K.faults sink.old) (K.faults sink.new)) said) }
    // If no read or write fails, the image of a plan without faults is written.
    ensures complete { IfOk result (λ said. NothingFailed
        (source_change (S.unread_bytes source.old) (S.unread_bytes source.new) (S.faults source.old) (S.faults source.new))
        (sink_change (K.output_bytes sink.old) (K.output_bytes sink.new) (K.faults sink.old) (K.faults sink.new))
        → IsComplete words.now
        (source_change (S.unread_bytes source.old) (S.unread_bytes source.new) (S.faults source.old) (S.faults source.new)) said) }
    // `make N W` reads nothing, and writes the summary of the made plan's image.
    ensures made { IfOk result (λ said. IsMadeBy words.now
        (source_change (S.unread_bytes source.old) (S.unread_bytes source.new) (S.faults source.old) (S.faults source.new))
        (sink_change (K.output_bytes sink.old) (K.output_bytes sink.new) (K.faults sink.old) (K.faults sink.new)) said) }
    // If `space` writes binds, they are those of a dynamic linker: the order is breadth first, and each symbol is bound to itself or to
    // the first definition of its name.
    ensures bound { IfOk result (λ said. IsBoundBy words.now
        (source_change (S.unread_bytes source.old) (S.unread_bytes source.new) (S.faults source.old) (S.faults source.new))
        (sink_change (K.output_bytes sink.old) (K.output_bytes sink.new) (K.faults sink.old) (K.faults sink.new)) said) }
    // If `verify` ends with status 0, the loader accepts the image in every legal world of the plan, and each kept item holds there.
    ensures checked { IfOk result (λ said. IsCheckedBy words.now
        (source_change (S.unread_bytes source.old) (S.unread_bytes source.new) (S.faults source.old) (S.faults source.new)) said) }
    // If memory is refused, no byte has been written.
    ensures memory { OnErr result (K.output_bytes sink.new ≡ K.output_bytes sink.old) }
{
    plans_are_read();
    images_are_sound();
    placements_are_sound();
    spaces_have_images();
    spaces_are_made();
    orders_are_breadth_first();
    binds_are_first();
    run_command(rt, alloc, words, source, sink)
}

/// The program over a source and a sink that never fail: no status reports a failed read or write, and the words and
/// the plan determine the status.
pub fn run_surely(
    rt: &(impl Threads + Sync),
    alloc: Global,
    words: &[String],
    source: &mut SureSource,
    sink: &mut SureSink,
) -> Result<u8, AllocError>
    ensures read { IfOk result (λ said. said ≢ read_fault) }
    ensures written { IfOk result (λ said. said ≢ cut_short) }
    ensures determined { IfOk result (λ said. IsDetermined words.now
        (source_change (Some (sure_unread source.old)) (Some (sure_unread source.new)) 0 0) (sink_change None None 0 0) said) }
    ensures complete { IfOk result (λ said. IsComplete words.now
        (source_change (Some (sure_unread source.old)) (Some (sure_unread source.new)) 0 0) said) }
{
    run(rt, alloc, words, source, sink)
}
