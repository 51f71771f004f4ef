//! The status and the text for the bytes of a plan.
ghost use Rattle.std.specs.Prelude.{◌≡◌, IfOk, string_bytes, length};
ghost use Rattle.wild_text.specs.Means.{plan};
ghost use Rattle.wild_text.specs.Answer.{image_line, no_plan_text};
ghost use Rattle.wild_explain.specs.Explain.{Begins, IsRightText, IsExplained, IsRefusedAs, IsAnswerOf};

use crate::command::{Command, View};
use serde_json::Value;
use std::alloc::{AllocError, Global};
use std::thread::Threads;
use wild_explain_reasons::{
    Text, push_advice, push_all, push_fields, push_image, push_needs, push_no_plan, push_owner,
    push_reason,
};
use wild_image::{Threaded, write_layout};
use wild_plan::{Error, Fault, Layout};
use wild_program::{LINKED, NO_PLAN, REFUSED};
use wild_text::{InputFault, no_plan_answer, read_plan, refusal_answer};

/// The status and the text for a fault, with its reason, and those of other faults if all are asked for; out of memory has none.
fn refusal_of(
    alloc: Global,
    layout: &Layout,
    error: Error,
    all: bool,
) -> Result<(u8, String), AllocError>
    ensures { IfOk result (λ a. IsRefusedAs error a.0 (string_bytes a.1)) }
{
    match error.fault {
        Fault::OutOfMemory => Err(AllocError),
        _ => {
            let line = refusal_answer(alloc, error)?;
            let mut reason = Text::new(alloc);
            push_reason(&mut reason, alloc, layout, error)?;
            if all {
                push_all(&mut reason, layout);
            }
            let reason = reason.finish()?;
            let text = format!(in alloc; "{line}{reason}")?;
            Ok((REFUSED, text))
        }
    }
}

/// The text about an image: the sizes of its parts and their users, advice about a loader, and what the command's options add. A
/// debug-only image is never loaded, so it gets no advice.
fn image_words(
    alloc: Global,
    layout: &Layout,
    image: &[u8],
    view: View,
) -> Result<String, AllocError> {
    let mut text = Text::new(alloc);
    push_image(&mut text, layout);
    if !layout.options.only_keep_debug {
        push_advice(&mut text, alloc, layout)?;
    }
    if let Some(offset) = view.byte {
        push_owner(&mut text, layout, offset);
    }
    if view.relocations {
        push_fields(&mut text, layout, image);
    }
    text.finish()
}

/// A line and the text after it.
fn join_lines(alloc: Global, line: &str, reason: &str) -> Result<String, AllocError>
    ensures { IfOk result (λ s. Begins line.now (string_bytes s)) }
{
    let text = format!(in alloc; "{line}{reason}")?;
    Ok(text)
}

/// The text about a layout with that image.
fn image_answer(
    alloc: Global,
    layout: &Layout,
    image: &[u8],
    view: View,
) -> Result<String, AllocError>
    ensures { IfOk result (λ s. Begins (image_line (length image.now)) (string_bytes s)) }
{
    let size = image.len();
    let line = format!(in alloc; "image {size}\n")?;
    let rest = image_words(alloc, layout, image, view)?;
    let text = join_lines(alloc, line.as_str(), rest.as_str())?;
    Ok(text)
}

/// The status and the text of `explain` for a layout.
fn explain_layout(
    rt: &(impl Threads + Sync),
    alloc: Global,
    layout: &Layout,
    view: View,
) -> Result<(u8, String), AllocError>
    ensures { IfOk result (λ a. IsExplained layout.now a.0 (string_bytes a.1)) }
{
    match write_layout(&Threaded(rt), alloc, layout, 1) {
        Ok(made) => {
            let text = image_answer(alloc, layout, made.out.as_slice(), view)?;
            Ok((LINKED, text))
        }
        Err(error) => refusal_of(alloc, layout, error, view.all),
    }
}

/// The status and the text of the command for a layout.
fn layout_answer(
    rt: &(impl Threads + Sync),
    alloc: Global,
    layout: &Layout,
    command: Command,
) -> Result<(u8, String), AllocError>
    ensures { IfOk result (λ a. IsRightText command (plan layout.now) a.0 (string_bytes a.1)) }
{
    match command {
        Command::Explain(view) => explain_layout(rt, alloc, layout, view),
        Command::Needs => {
            let mut text = Text::new(alloc);
            push_needs(&mut text, layout);
            Ok((LINKED, text.finish()?))
        }
    }
}

/// The longest text that is shown as it is.
const SHOWN: usize = 80;

/// What a plan has at a path: a short text, a number or a flag as it is, of anything else its type.
fn found_at(alloc: Global, bytes: &[u8], path: &str) -> Result<String, AllocError> {
    let Ok(value) = Value::from_slice(alloc, bytes) else {
        return Err(AllocError);
    };
    match value.pointer(path) {
        Some(Value::String(text)) if text.len() > SHOWN => String::from_str(alloc, "a longer text"),
        Some(found) if !found.is_array() && !found.is_object() => found.to_string(alloc),
        Some(found) if found.is_array() => String::from_str(alloc, "a list"),
        Some(_) => String::from_str(alloc, "an object"),
        None => String::from_str(alloc, "nothing"),
    }
}

/// The text for a plan whose first wrong member has that path.
fn no_plan_reason(alloc: Global, bytes: &[u8], path: &str) -> Result<String, AllocError>
    ensures { IfOk result (λ s. Begins (no_plan_text path.now) (string_bytes s)) }
{
    let line = no_plan_answer(alloc, path)?;
    let found = found_at(alloc, bytes, path)?;
    let mut reason = Text::new(alloc);
    push_no_plan(&mut reason, path, found.as_str());
    let reason = reason.finish()?;
    let text = join_lines(alloc, line.as_str(), reason.as_str())?;
    Ok(text)
}

/// Where a text is no JSON.
fn json_reason(alloc: Global, bytes: &[u8]) -> Result<String, AllocError> {
    match Value::from_slice(alloc, bytes) {
        Err(e) if !e.is_memory() => {
            let (line, column) = (e.line(), e.column());
            format!(in alloc; "what: the text is no JSON\nwhere: line {line}, column {column}\n")
        }
        _ => Err(AllocError),
    }
}

/// The status and the text for the bytes of a plan.
pub(crate) fn plan_answer(
    rt: &(impl Threads + Sync),
    alloc: Global,
    bytes: &[u8],
    command: Command,
) -> Result<(u8, String), AllocError>
    ensures { IfOk result (λ a. IsAnswerOf bytes.now command a.0 (string_bytes a.1)) }
{
    let layout = match read_plan(alloc, bytes) {
        Ok(layout) => layout,
        Err(InputFault::OutOfMemory) => return Err(AllocError),
        Err(InputFault::NoJson) => {
            let reason = json_reason(alloc, bytes)?;
            let text = join_lines(alloc, "not a plan: json\n", reason.as_str())?;
            return Ok((NO_PLAN, text));
        }
        Err(InputFault::At(path)) => {
            let text = no_plan_reason(alloc, bytes, path.as_str())?;
            return Ok((NO_PLAN, text));
        }
    };
    let answer = layout_answer(rt, alloc, &layout, command)?;
    Ok(answer)
}
