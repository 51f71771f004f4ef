//! The dynamic linker's answers.
ghost use Rattle.std.specs.Prelude.{◌≡◌, ◌<◌, ◌≤◌, Ok, IfSome, length};
ghost use Rattle.wild_loader.specs.Changes.{first_value};
ghost use Rattle.wild_space.specs.Order.{AreOrdered};
ghost use Rattle.wild_space.specs.Binds.{address_of, offset_of, answer_of, answer_for, no_answer, source_at};

use crate::binds::{Definition, later_definition};
use crate::fault::BindFault;
use crate::ordered::OrderedImages;
use crate::symbols::Source;
use std::alloc::Global;
use wild_loader::Answer;
use wild_records::SymtabEntry;
use wild_records::abi::section::SHN_ABS;
use wild_records::abi::symbol::{STT_GNU_IFUNC, STT_TLS};
use wild_words::Bytes;

/// The value of the first pair with a key.
#[tactic(auto, unfolding(wild_loader::specs::Changes::first_value))]
fn first_value(pairs: &[(u64, u64)], key: u64) -> Option<u64>
    ensures { result ≡ first_value pairs.now key }
{
    for pair in pairs {
        if pair.0 == key {
            return Some(pair.1);
        }
    }
    None
}

/// The address of a symbol in an image with this base, whose thread-local data begins at `start`.
#[tactic(auto, unfolding(crate::specs::Binds::address_of))]
fn address_of(
    resolvers: &[(u64, u64)],
    base: u64,
    start: u64,
    entry: SymtabEntry,
) -> Result<u64, BindFault>
    ensures { result ≡ address_of resolvers.now base start entry }
{
    if entry.section == SHN_ABS {
        return Ok(entry.value);
    }
    let address = base.wrapping_add(entry.value);
    match entry.info % 16 {
        STT_GNU_IFUNC => match first_value(resolvers, address) {
            Some(answer) => Ok(answer),
            None => Err(BindFault::NoAnswer { value: address }),
        },
        STT_TLS => Ok(address.wrapping_add(start)),
        _ => Ok(address),
    }
}

/// The offset of a symbol in the thread-local data of its image, which begins at `start`.
fn offset_of(start: u64, entry: SymtabEntry) -> u64
    ensures { result ≡ offset_of start entry }
{
    if entry.info % 16 == STT_TLS && entry.section != SHN_ABS {
        entry.value
    } else {
        entry.value.wrapping_sub(start)
    }
}

/// The answer for a definition, without bytes.
#[tactic(auto, unfolding(crate::specs::Binds::answer_of))]
fn answer_of(
    alloc: Global,
    space: &OrderedImages<'_>,
    found: Definition,
) -> Result<Answer, BindFault>
    requires ordered { AreOrdered space.now.images.now space.now.order space.now.tables }
    requires inside { found.image < length space.now.order }
    ensures { result ≡ answer_of space.now.images.now space.now.order space.now.resolvers.now found }
{
    let n = found.image;
    let entry = space.symbol(n, found.index)?;
    let start = space.thread_start(n);
    let address = address_of(space.resolvers, space.base(n), start, entry)?;
    Ok(Answer {
        address,
        module: space.module(n),
        offset: offset_of(start, entry),
        size: entry.size,
        bytes: Bytes::new(alloc),
    })
}

/// The answer for a symbol without a definition, and for the null symbol.
pub(crate) fn no_answer(alloc: Global) -> Answer
    ensures { result ≡ no_answer }
{
    Answer {
        address: 0,
        module: 0,
        offset: 0,
        size: 0,
        bytes: Bytes::new(alloc),
    }
}

/// The answer for a symbol's definition, if it has one.
pub(crate) fn answer_for(
    alloc: Global,
    space: &OrderedImages<'_>,
    found: Option<Definition>,
) -> Result<Answer, BindFault>
    requires ordered { AreOrdered space.now.images.now space.now.order space.now.tables }
    requires inside { IfSome found (λ d. d.image < length space.now.order) }
    ensures { result ≡ answer_for space.now.images.now space.now.order space.now.resolvers.now found }
{
    match found {
        Some(found) => answer_of(alloc, space, found),
        None => Ok(no_answer(alloc)),
    }
}

/// The bytes that a copied symbol of the first image gets.
#[tactic(auto, unfolding(crate::specs::Binds::source_at))]
pub(crate) fn source_at(
    alloc: Global,
    space: &OrderedImages<'_>,
    index: u64,
) -> Result<Source, BindFault>
    requires ordered { AreOrdered space.now.images.now space.now.order space.now.tables }
    requires inside { 1 ≤ length space.now.order }
    ensures { result ≡ source_at space.now.images.now space.now.order space.now.resolvers.now index }
{
    let found = later_definition(space, index)?;
    let answer = answer_of(alloc, space, found)?;
    Ok(Source {
        image: found.image,
        address: answer.address,
        size: answer.size,
    })
}
