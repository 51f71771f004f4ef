//! The answer of the command `relink`.
ghost use Rattle.std.specs.Prelude.{◌≡◌, ◌≤◌, ◌<◌, IfOk, OnOk};
ghost use Rattle.wild_program.specs.declared.command.Command.TheVariants.{Relink};
ghost use Rattle.wild_program.specs.Program.{relink_status, relink_answer_text};
ghost use Rattle.wild_program.specs.Steps.{ChangeFits, IsChangeAnswer, IsAnswerOf};

use crate::input::plan_of;
use crate::program::refusal_of;
use crate::status::{LINKED, NO_PLAN, NOT_CHANGED};
use std::alloc::{AllocError, Global};
use std::marker::Brand;
use std::sync::ledger::{Blank, Ledger};
use std::thread::Threads;
use wild_image::{Arch, ElfAArch64, ElfX86_64, GroupWriter, OpenGate, Steps, Threaded};
use wild_layout::numbers_fit;
use wild_plan::Machine;
use wild_relinker::{Linked, RelinkFault, relink};
use wild_text::{RelinkRequest, no_length_answer, no_section_answer, relink_answer};

/// The status and the text for the answer to a change of a linked layout; out of memory has none.
fn change_answer(
    alloc: Global,
    linked: &Linked,
    change: Result<(), RelinkFault>,
) -> Result<(u8, Vec<u8>), AllocError>
    ensures { IfOk result (λ a. IsChangeAnswer change linked.now.layout a.0 a.1.items) }
{
    match change {
        Ok(()) => {
            let text = relink_answer(
                alloc,
                linked.layout(),
                linked.out(),
                linked.warnings(),
                linked.counts(),
            )?;
            Ok((LINKED, text))
        }
        Err(RelinkFault::NoSection) => {
            let text = no_section_answer(alloc)?;
            Ok((NOT_CHANGED, text.into_bytes()))
        }
        Err(RelinkFault::Length { given, needed }) => {
            let text = no_length_answer(alloc, given, needed)?;
            Ok((NOT_CHANGED, text.into_bytes()))
        }
        Err(RelinkFault::Write(error)) => refusal_of(alloc, error),
        Err(RelinkFault::OutOfMemory) => Err(AllocError),
    }
}

/// The status and the text for a plan and its change, for the machine that the plan names. `blank` names the ledger in which the
/// groups that are written are counted.
fn machine_answer<A: Arch, L: Ledger, E: GroupWriter<A, OpenGate>>(
    executor: &E,
    alloc: Global,
    request: RelinkRequest,
    workers: u8,
    blank: Blank,
) -> Result<(u8, Vec<u8>), AllocError>
    requires ready { E.ready executor.now }
    requires name { blank.name ≡ L.name }
    requires parts { blank.parts ≡ L.parts }
    requires some { 0 < blank.parts }
    requires machine { request.plan.machine ≡ A.machine }
    requires workers { (1 ≤ workers) × (workers ≤ 64) }
    ensures text { IfOk result (λ a. (a.0 ≡ relink_status request) × (a.1.items ≡ relink_answer_text request)) }
    ensures fits { OnOk result (ChangeFits request) }
{
    let RelinkRequest { plan, change } = request;
    let mut linked = match Linked::link::<A, E>(executor, alloc, plan, workers) {
        Ok(linked) => linked,
        Err(error) => return refusal_of(alloc, error),
    };
    let mut steps = Steps::<L>::new(blank);
    let result = relink::<A, E, L>(executor, alloc, &mut linked, change, &mut steps);
    numbers_fit(linked.layout());
    change_answer(alloc, &linked, result)
}

/// The status and the text for a plan and its change.
fn request_answer(
    rt: &(impl Threads + Sync),
    alloc: Global,
    request: RelinkRequest,
    workers: u8,
) -> Result<(u8, Vec<u8>), AllocError>
    requires { (1 ≤ workers) × (workers ≤ 64) }
    ensures text { IfOk result (λ a. (a.0 ≡ relink_status request) × (a.1.items ≡ relink_answer_text request)) }
    ensures fits { OnOk result (ChangeFits request) }
{
    match request.plan.machine {
        Machine::X86_64 => machine_answer::<ElfX86_64, Brand, _>(
            &Threaded(rt),
            alloc,
            request,
            workers,
            Blank::new(1),
        ),
        Machine::AArch64 => machine_answer::<ElfAArch64, Brand, _>(
            &Threaded(rt),
            alloc,
            request,
            workers,
            Blank::new(1),
        ),
    }
}

/// The status and the text of `relink` for the bytes of its input.
pub(crate) fn rewrite_answer(
    rt: &(impl Threads + Sync),
    alloc: Global,
    bytes: Vec<u8>,
    workers: u8,
) -> Result<(u8, Vec<u8>), AllocError>
    requires { (1 ≤ workers) × (workers ≤ 64) }
    ensures { IfOk result (λ a. IsAnswerOf (Relink workers) bytes.items a.0 a.1.items) }
{
    let request: RelinkRequest = match plan_of(alloc, bytes)? {
        Ok(request) => request,
        Err(text) => return Ok((NO_PLAN, text)),
    };
    let answer = request_answer(rt, alloc, request, workers)?;
    Ok(answer)
}
