//! The answer of the command `place`.
ghost use Rattle.std.specs.Prelude.{◌≡◌, ◌≤◌, IfOk};
ghost use Rattle.wild_program.specs.declared.command.Command.TheVariants.{Place};
ghost use Rattle.wild_program.specs.Program.{place_status, place_answer_text};
ghost use Rattle.wild_program.specs.Steps.{IsAnswerOf};

use crate::input::plan_of;
use crate::program::refusal_of;
use crate::status::{LINKED, NO_PLAN, NOT_PLACED};
use std::alloc::{AllocError, Global};
use std::thread::Threads;
use wild_image::{Arch, ElfAArch64, ElfX86_64, GroupWriter, OpenGate, Threaded};
use wild_layout::numbers_fit;
use wild_placer::{PlaceFault, place_code};
use wild_plan::Machine;
use wild_text::{PlaceRequest, place_answer, place_refusal};

/// The status and the text for a plan and its world, for the machine that the plan names.
fn machine_answer<A: Arch, E: GroupWriter<A, OpenGate>>(
    executor: &E,
    alloc: Global,
    request: &PlaceRequest,
    workers: u8,
) -> Result<(u8, Vec<u8>), AllocError>
    requires ready { E.ready executor.now }
    requires machine { request.now.plan.machine ≡ A.machine }
    requires workers { (1 ≤ workers) × (workers ≤ 64) }
    ensures { IfOk result (λ a. (a.0 ≡ place_status request.now) × (a.1.items ≡ place_answer_text request.now)) }
{
    match place_code::<A, E>(executor, alloc, &request.plan, &request.world, workers) {
        Ok(memory) => {
            let segments = request.plan.segments.as_slice();
            let text = place_answer(alloc, request.world.base, segments, memory.runs.as_slice())?;
            Ok((LINKED, text))
        }
        Err(PlaceFault::Write(error)) => refusal_of(alloc, error),
        Err(PlaceFault::Load(fault)) => {
            let text = place_refusal(alloc, fault)?;
            Ok((NOT_PLACED, text.into_bytes()))
        }
        Err(_) => Err(AllocError),
    }
}

/// The status and the text for a plan and its world.
fn request_answer(
    rt: &(impl Threads + Sync),
    alloc: Global,
    request: &PlaceRequest,
    workers: u8,
) -> Result<(u8, Vec<u8>), AllocError>
    requires { (1 ≤ workers) × (workers ≤ 64) }
    ensures { IfOk result (λ a. (a.0 ≡ place_status request.now) × (a.1.items ≡ place_answer_text request.now)) }
{
    match request.plan.machine {
        Machine::X86_64 => machine_answer::<ElfX86_64, _>(&Threaded(rt), alloc, request, workers),
        Machine::AArch64 => machine_answer::<ElfAArch64, _>(&Threaded(rt), alloc, request, workers),
    }
}

/// The status and the text of `place` for the bytes of its input.
pub(crate) fn loaded_answer(
    rt: &(impl Threads + Sync),
    alloc: Global,
    bytes: Vec<u8>,
    workers: u8,
) -> Result<(u8, Vec<u8>), AllocError>
    requires { (1 ≤ workers) × (workers ≤ 64) }
    ensures { IfOk result (λ a. IsAnswerOf (Place workers) bytes.items a.0 a.1.items) }
{
    let request: PlaceRequest = match plan_of(alloc, bytes)? {
        Ok(request) => request,
        Err(text) => return Ok((NO_PLAN, text)),
    };
    numbers_fit(&request.plan);
    let answer = request_answer(rt, alloc, &request, workers)?;
    Ok(answer)
}
