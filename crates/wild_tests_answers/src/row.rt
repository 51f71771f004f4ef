//! A row of the table: lines of a word and a text.
use crate::answers::{command_answer, explain_answer};
use std::alloc::{AllocError, Global};
use std::thread::Threads;
use wild_tests_plans::{FIRST_PLANS, OTHER_PLANS};

/// The plan of that name in a list.
fn plan_in(plans: &[(&'static str, &'static str)], name: &str) -> Option<&'static str> {
    for (known, plan) in plans {
        if *known == name {
            return Some(*plan);
        }
    }
    None
}

/// The plan of that name in the second list.
fn other_plan(name: &str) -> Option<&'static str> {
    plan_in(&OTHER_PLANS, name)
}

/// The plan of that name.
fn plan_named(name: &str) -> Option<&'static str> {
    match plan_in(&FIRST_PLANS, name) {
        Some(plan) => Some(plan),
        None => other_plan(name),
    }
}

/// The word at the start of a line, and the text after it.
fn parts_of(line: &str) -> (&str, &str) {
    match line.split_once(" ") {
        Some(parts) => parts,
        None => (line, ""),
    }
}

/// The command of a row.
fn command_of(row: &str) -> &'static str {
    for line in row.lines() {
        let (word, _) = parts_of(line);
        if word == "space" {
            return "space";
        }
        if word == "image" || word == "verify" {
            return "verify";
        }
        if word == "world" || word == "place" {
            return "place";
        }
        if word == "change" || word == "relink" {
            return "relink";
        }
    }
    "link"
}

/// Whether the text of a line is a whole input.
fn is_input(word: &str) -> bool {
    word == "text" || word == "space" || word == "relink" || word == "place" || word == "verify"
}

/// The input of a row: a plan by its name, or a text. Each `new` replaces the `old` before it, which has to occur in the input. A `change`,
/// a `world` or an `image` adds itself to the plan before it.
fn input_of(alloc: Global, row: &str) -> Result<Option<String>, AllocError> {
    let mut plan = String::new(alloc);
    let mut old = String::new(alloc);
    for line in row.lines() {
        let (word, text) = parts_of(line);
        if word == "plan" {
            let Some(known) = plan_named(text) else {
                return Ok(None);
            };
            plan = String::from_str(alloc, known)?;
        } else if is_input(word) {
            plan = String::from_str(alloc, text)?;
        } else if word == "change" {
            plan = format!(in alloc; "{{\"plan\":{plan},\"change\":{text}}}")?;
        } else if word == "world" {
            plan = format!(in alloc; "{{\"plan\":{plan},\"world\":{text}}}")?;
        } else if word == "image" {
            plan = format!(in alloc; "{{\"plan\":{plan},\"image\":\"{text}\"}}")?;
        } else if word == "old" {
            old = String::from_str(alloc, text)?;
        } else if word == "new" {
            if !plan.contains(old.as_str()) {
                return Ok(None);
            }
            plan = plan.replace(alloc, old.as_str(), text)?;
        }
    }
    Ok(Some(plan))
}

/// The first lines of the answer.
fn answer_of(alloc: Global, row: &str) -> Result<String, AllocError> {
    let mut answer = String::new(alloc);
    for line in row.lines() {
        let (word, text) = parts_of(line);
        if word == "says" {
            answer.push_str(text)?;
            answer.push_str("\n")?;
        }
    }
    Ok(answer)
}

/// The status of the programs with such an answer.
fn status_of(answer: &str) -> u8 {
    if answer.starts_with("image")
        || answer.starts_with("order")
        || answer.starts_with("rewritten")
        || answer.starts_with("at ")
        || answer.starts_with("yes")
    {
        0
    } else if answer.starts_with("refused") {
        1
    } else if answer.starts_with("no change") {
        9
    } else if answer.starts_with("no ") {
        8
    } else if answer.starts_with("not placed") {
        10
    } else if answer.starts_with("not bound") {
        11
    } else {
        3
    }
}

/// Whether `link`, `relink` or `place` gives the answer for the input, with one worker and with many. The whole answer of `place` is compared.
fn is_written(
    rt: &(impl Threads + Sync),
    alloc: Global,
    command: &str,
    input: &str,
    answer: &str,
) -> Result<bool, AllocError> {
    for workers in ["1", "2", "64"] {
        let (status, text) = command_answer(rt, alloc, &[command, workers], input)?;
        let is_whole = command != "place" || text.as_slice() == answer.as_bytes();
        if status != status_of(answer) || !text.starts_with(answer.as_bytes()) || !is_whole {
            return Ok(false);
        }
    }
    Ok(true)
}

/// Whether this is the whole answer for the input of a command without workers.
fn is_answered(
    rt: &(impl Threads + Sync),
    alloc: Global,
    command: &str,
    input: &str,
    answer: &str,
) -> Result<bool, AllocError> {
    let (status, text) = command_answer(rt, alloc, &[command], input)?;
    Ok(status == status_of(answer) && text.as_slice() == answer.as_bytes())
}

/// What the output of `explain` has to contain, or may not contain, by a line of the row.
fn text_of(alloc: Global, line: &str) -> Result<Option<(String, bool)>, AllocError> {
    let (word, text) = parts_of(line);
    if word == "where" {
        Ok(Some((format!(in alloc; "where: {text}")?, true)))
    } else if word == "line" {
        Ok(Some((format!(in alloc; "\n{text}\n")?, true)))
    } else if word == "without" {
        Ok(Some((String::from_str(alloc, text)?, false)))
    } else {
        Ok(None)
    }
}

/// Whether the output of `explain` begins as the answer does, and agrees with each line of the row.
fn is_explained(
    rt: &(impl Threads + Sync),
    alloc: Global,
    plan: &str,
    answer: &str,
    row: &str,
) -> Result<bool, AllocError> {
    for line in row.lines() {
        if let Some((text, wanted)) = text_of(alloc, line)? {
            let (status, output) = explain_answer(rt, alloc, plan)?;
            let begins = status == status_of(answer) && output.starts_with(answer);
            if !begins || output.contains(text.as_str()) != wanted {
                return Ok(false);
            }
        }
    }
    Ok(true)
}

/// Whether the programs print what the row says.
pub(crate) fn row_holds(
    rt: &(impl Threads + Sync),
    alloc: Global,
    row: &str,
) -> Result<bool, AllocError> {
    let answer = answer_of(alloc, row)?;
    let Some(input) = input_of(alloc, row)? else {
        return Ok(false);
    };
    let (input, answer) = (input.as_str(), answer.as_str());
    let command = command_of(row);
    if command == "space" || command == "verify" {
        return is_answered(rt, alloc, command, input, answer);
    }
    let is_right = is_written(rt, alloc, command, input, answer)?;
    Ok(is_right && is_explained(rt, alloc, input, answer, row)?)
}
