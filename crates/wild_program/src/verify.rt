//! The answer of the command `verify`.
ghost use Rattle.std.specs.Prelude.{◌≡◌, [], ◌∷◌, Err, IfOk, string_bytes};
ghost use Rattle.wild_layout.specs.Faults.{clause_errors};
ghost use Rattle.wild_program.specs.declared.command.Command.TheVariants.{Verify};
ghost use Rattle.wild_program.specs.Program.{doubt_text, verdict_status, verdict_text};
ghost use Rattle.wild_program.specs.Steps.{IsVerified, IsAnswerOf};

use crate::input::plan_of;
use crate::program::refusal_of;
use crate::status::{DOUBTED, LINKED, NO_PLAN};
use std::alloc::{AllocError, Global};
use wild_checker::{Doubt, Verdict, verify_image};
use wild_plan::{At, Clause, Error, Fault, well_formed};
use wild_text::{
    VerifyRequest, no_byte_answer, no_load_answer, no_partial_answer, no_reference_answer,
    no_segment_answer, yes_answer,
};

/// The text of a doubt.
fn doubt_answer(alloc: Global, doubt: Doubt) -> Result<String, AllocError>
    ensures { IfOk result (λ s. string_bytes s ≡ doubt_text doubt) }
{
    match doubt {
        Doubt::Partial => no_partial_answer(alloc),
        Doubt::Load(fault) => no_load_answer(alloc, fault),
        Doubt::Segment { index } => no_segment_answer(alloc, index),
        Doubt::Byte(site) => {
            no_byte_answer(alloc, site.group, site.file, site.section, site.index)
        }
        Doubt::Reference(site) => {
            no_reference_answer(alloc, site.group, site.file, site.section, site.index)
        }
    }
}

/// The status and the text of a verdict.
fn verdict_answer(alloc: Global, verdict: Verdict) -> Result<(u8, Vec<u8>), AllocError>
    ensures { IfOk result (λ a. (a.0 ≡ verdict_status verdict) × (a.1.items ≡ verdict_text verdict)) }
{
    match verdict {
        Verdict::Yes => {
            let text = yes_answer(alloc)?;
            Ok((LINKED, text.into_bytes()))
        }
        Verdict::No(doubt) => {
            let text = doubt_answer(alloc, doubt)?;
            Ok((DOUBTED, text.into_bytes()))
        }
    }
}

/// The fault of a layout that is not well formed.
fn clause_fault(clause: Clause) -> Error
    ensures { clause_errors (Err clause) ≡ result ∷ [] }
{
    Error {
        fault: Fault::MalformedLayout {
            clause: clause.clause,
            index: clause.index,
        },
        at: At::NO_PLACE,
    }
}

/// The status and the text for a plan and an image.
fn request_answer(alloc: Global, request: &VerifyRequest) -> Result<(u8, Vec<u8>), AllocError>
    ensures { IfOk result (λ a. IsVerified request.now a.0 a.1.items) }
{
    match well_formed(&request.plan) {
        Ok(()) => {
            let verdict = verify_image(alloc, &request.plan, request.image.as_slice())?;
            verdict_answer(alloc, verdict)
        }
        Err(clause) => refusal_of(alloc, clause_fault(clause)),
    }
}

/// The status and the text of `verify` for the bytes of its input.
pub(crate) fn checked_answer(alloc: Global, bytes: Vec<u8>) -> Result<(u8, Vec<u8>), AllocError>
    ensures { IfOk result (λ a. IsAnswerOf Verify bytes.items a.0 a.1.items) }
{
    let request: VerifyRequest = match plan_of(alloc, bytes)? {
        Ok(request) => request,
        Err(text) => return Ok((NO_PLAN, text)),
    };
    let answer = request_answer(alloc, &request)?;
    Ok(answer)
}
