//! Parses the words of a command.
ghost use Rattle.std.specs.Prelude.{◌≡◌, ◌≤◌, ◌<◌, ◌^◌, ℕ, [], drop, IfOk, MatchOption, MatchResult, MatchBool, decimal};
ghost use Rattle.std.specs.Vec.Iter.{into_iter_items};
ghost use Rattle.std.specs.IoError.{error_kind};
ghost use Rattle.std.specs.declared.io.ErrorKind.TheVariants.{OutOfMemory};
ghost use Rattle.wild_program.specs.Program.{HasWorkers, IsWord, IsMakeCommand, IsCommand, Asks};

use crate::command::Command;
use std::alloc::{AllocError, Global};
use std::{env, io};

/// The words after the first.
fn words_after_first(alloc: Global, args: env::Args<Global>) -> Result<Vec<String>, AllocError>
    ensures { IfOk result (λ words. words.items ≡ drop 1 (into_iter_items args)) }
{
    let mut rest = args;
    let _ = rest.next();
    let mut words = Vec::new(alloc);
    for word in rest {
        words.push(word)?;
    }
    Ok(words)
}

/// The words of a command line after the first, which is the program's name; no words if the arguments are not valid text.
pub fn words_of(
    alloc: Global,
    args: io::Result<env::Args<Global>>,
) -> Result<Vec<String>, AllocError>
    ensures { MatchResult args
        (λ all. IfOk result (λ words. words.items ≡ drop 1 (into_iter_items all)))
        (λ e. IfOk result (λ words. (words.items ≡ []) × (error_kind e ≡ OutOfMemory → ⊥))) }
{
    match args {
        Ok(args) => words_after_first(alloc, args),
        Err(e) if e.kind() == io::ErrorKind::OutOfMemory => Err(AllocError),
        Err(_) => Ok(Vec::new(alloc)),
    }
}

/// The number from 1 to `most` that has these digits.
fn number_of(alloc: Global, digits: &str, most: u32) -> Result<Option<u32>, AllocError>
    ensures { IfOk result (λ o. MatchOption o ((n : ℕ) → 1 ≤ n → n ≤ most → digits.now ≡ decimal n → ⊥)
        (λ n. (digits.now ≡ decimal n) × (1 ≤ n) × (n ≤ most))) }
{
    let Ok(n) = digits.parse::<u32>() else {
        return Ok(None);
    };
    if n == 0 || n > most {
        return Ok(None);
    }
    let shown = n.to_string(alloc)?;
    if shown.as_str() == digits {
        Ok(Some(n))
    } else {
        Ok(None)
    }
}

/// The number of workers, if the words are this name and such a number.
fn workers_of(alloc: Global, words: &[String], name: &str) -> Result<Option<u8>, AllocError>
    ensures { IfOk result (λ o. MatchOption o ((n : ℕ) → HasWorkers name.now words.now n → ⊥) (HasWorkers name.now words.now)) }
{
    match words {
        [first, workers] => {
            if first.as_str() != name {
                return Ok(None);
            }
            let Some(workers) = number_of(alloc, workers.as_str(), 64)? else {
                return Ok(None);
            };
            Ok(Some(workers as u8))
        }
        _ => Ok(None),
    }
}

/// The command of the words that make a layout, if they are such.
fn make_of(alloc: Global, words: &[String]) -> Result<Option<Command>, AllocError>
    ensures { IfOk result (λ o. MatchOption o (IsMakeCommand words.now → ⊥) (Asks words.now)) }
{
    match words {
        [name, groups, workers] => {
            if name.as_str() != "make" {
                return Ok(None);
            }
            let Some(groups) = number_of(alloc, groups.as_str(), 65536)? else {
                return Ok(None);
            };
            let Some(workers) = number_of(alloc, workers.as_str(), 64)? else {
                return Ok(None);
            };
            Ok(Some(Command::Make {
                groups,
                workers: workers as u8,
            }))
        }
        _ => Ok(None),
    }
}

/// Whether the words are this name alone.
fn is_word(words: &[String], name: &str) -> bool
    ensures { MatchBool result (IsWord name.now words.now) (IsWord name.now words.now → ⊥) }
{
    match words {
        [word] => word.as_str() == name,
        _ => false,
    }
}

/// The command that the words are, if they are one.
pub fn command_of(alloc: Global, words: &[String]) -> Result<Option<Command>, AllocError>
    ensures { IfOk result (λ o. MatchOption o (IsCommand words.now → ⊥) (Asks words.now)) }
{
    if is_word(words, "space") {
        return Ok(Some(Command::Space));
    }
    if is_word(words, "verify") {
        return Ok(Some(Command::Verify));
    }
    if let Some(workers) = workers_of(alloc, words, "link")? {
        return Ok(Some(Command::Link { workers }));
    }
    if let Some(workers) = workers_of(alloc, words, "relink")? {
        return Ok(Some(Command::Relink { workers }));
    }
    if let Some(workers) = workers_of(alloc, words, "place")? {
        return Ok(Some(Command::Place { workers }));
    }
    make_of(alloc, words)
}
