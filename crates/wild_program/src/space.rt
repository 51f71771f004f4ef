//! The answer of the command `space`.
ghost use Rattle.std.specs.Prelude.{◌≡◌, ◌≤◌, length, IfOk};
ghost use Rattle.wild_program.specs.declared.command.Command.TheVariants.{Space};
ghost use Rattle.wild_program.specs.Program.{space_status, space_answer_text};
ghost use Rattle.wild_program.specs.Steps.{IsNotBound, IsAnswerOf};

use crate::input::plan_of;
use crate::status::{LINKED, NO_PLAN, NOT_BOUND};
use std::alloc::{AllocError, Global};
use wild_space::{BindFault, bind_images};
use wild_text::{SpaceRequest, space_answer, space_refusal, spaces_have_images};

/// The status and the text for a fault; out of memory has none.
fn refusal_of(alloc: Global, fault: BindFault) -> Result<(u8, Vec<u8>), AllocError>
    ensures { IfOk result (λ a. IsNotBound fault a.0 a.1.items) }
{
    match fault {
        BindFault::OutOfMemory => Err(AllocError),
        _ => {
            let text = space_refusal(alloc, fault)?;
            Ok((NOT_BOUND, text.into_bytes()))
        }
    }
}

/// The status and the text for images and the answers of resolvers.
fn bound_answer(alloc: Global, request: &SpaceRequest) -> Result<(u8, Vec<u8>), AllocError>
    requires { 1 ≤ length request.now.images }
    ensures { IfOk result (λ a. (a.0 ≡ space_status request.now) × (a.1.items ≡ space_answer_text request.now)) }
{
    match bind_images(
        alloc,
        request.images.as_slice(),
        request.resolvers.as_slice(),
    ) {
        Ok(bound) => {
            let text = space_answer(alloc, bound.order.as_slice(), bound.binds.as_slice())?;
            Ok((LINKED, text.into_bytes()))
        }
        Err(fault) => refusal_of(alloc, fault),
    }
}

/// The status and the text of `space` for the bytes of its input.
pub(crate) fn bind_answer(alloc: Global, bytes: Vec<u8>) -> Result<(u8, Vec<u8>), AllocError>
    ensures { IfOk result (λ a. IsAnswerOf Space bytes.items a.0 a.1.items) }
{
    let request: SpaceRequest = match plan_of(alloc, bytes)? {
        Ok(request) => request,
        Err(text) => return Ok((NO_PLAN, text)),
    };
    spaces_have_images();
    let answer = bound_answer(alloc, &request)?;
    Ok(answer)
}
