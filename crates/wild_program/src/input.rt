//! The input of a command, and what it encodes.
ghost use Rattle.std.specs.Prelude.{◌≡◌, true, IfOk, IsErrOf, MatchResult};
ghost use Rattle.wild_io.specs.Causes.{CountRose};
ghost use Rattle.wild_program.specs.Program.{source_change, IsTooLong};
ghost use Rattle.wild_text.specs.Plan.{layout_in};
ghost use Rattle.wild_program.specs.Steps.{reads_input, IsInput, IsPlan, HasNoPlan, IsFaultText};

use crate::command::Command;
use std::alloc::{AllocError, Global};
use wild_io::{ReadFault, Source, read_whole};
use wild_text::{InputFault, Planned, no_plan_answer, read_bytes, read_plan};
use wild_types::Layout;

/// The maximal size of an input in bytes.
pub const LIMIT: usize = 1 << 31;

/// The bytes of the command's input; none if it reads nothing.
pub(crate) fn read_input<S: Source>(
    alloc: Global,
    command: Command,
    source: &mut S,
) -> Result<Vec<u8>, ReadFault>
    ensures read { IfOk result (λ v. IsInput command
        (source_change (S.unread_bytes source.old) (S.unread_bytes source.new) (S.faults source.old) (S.faults source.new)) v.items) }
    ensures failed { IsErrOf result ReadFault.IoFailure
        → (reads_input command ≡ true) × CountRose (S.faults source.old) (S.faults source.new) }
    ensures too_long { IsErrOf result ReadFault.TooLong → (reads_input command ≡ true) × IsTooLong
        (source_change (S.unread_bytes source.old) (S.unread_bytes source.new) (S.faults source.old) (S.faults source.new)) }
{
    match command {
        Command::Link { .. }
        | Command::Verify
        | Command::Relink { .. }
        | Command::Place { .. }
        | Command::Space => read_whole(alloc, source, LIMIT),
        Command::Make { .. } => Ok(Vec::new(alloc)),
    }
}

/// The text for bytes that are no plan; out of memory has none.
fn fault_text(alloc: Global, fault: InputFault) -> Result<Vec<u8>, AllocError>
    ensures { IfOk result (λ text. IsFaultText fault text.items) }
{
    match fault {
        InputFault::NoJson => b"not a plan: json\n".to_vec(alloc),
        InputFault::At(path) => {
            let text = no_plan_answer(alloc, path.as_str())?;
            Ok(text.into_bytes())
        }
        InputFault::OutOfMemory => Err(AllocError),
    }
}

/// The layout of a plan, or the text that the bytes are no plan.
pub(crate) fn layout_of(alloc: Global, bytes: &[u8]) -> Result<Result<Layout, Vec<u8>>, AllocError>
    ensures { IfOk result (λ plan. MatchResult plan (IsPlan layout_in bytes.now) (λ text. HasNoPlan layout_in bytes.now text.items)) }
{
    match read_plan(alloc, bytes) {
        Ok(layout) => Ok(Ok(layout)),
        Err(fault) => {
            let text = fault_text(alloc, fault)?;
            Ok(Err(text))
        }
    }
}

/// What the bytes encode, or the text that they are no plan. The bytes are dropped.
pub(crate) fn plan_of<T: Planned + Drop>(
    alloc: Global,
    bytes: Vec<u8>,
) -> Result<Result<T, Vec<u8>>, AllocError>
    ensures { IfOk result (λ plan. MatchResult plan (IsPlan T.reads bytes.items) (λ text. HasNoPlan T.reads bytes.items text.items)) }
{
    match read_bytes(alloc, bytes.as_slice()) {
        Ok(plan) => Ok(Ok(plan)),
        Err(fault) => {
            let text = fault_text(alloc, fault)?;
            Ok(Err(text))
        }
    }
}
