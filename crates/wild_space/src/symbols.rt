//! The binds and answers of the symbols of an image.
ghost use Rattle.std.specs.Prelude.{◌≡◌, ℕ, ◌<◌, ◌≤◌, List, Ok, MatchResult, length};
ghost use Rattle.wild_space.specs.Order.{AreOrdered};
ghost use Rattle.wild_space.specs.declared.fault.BindFault.TheVariants.{OutOfMemory};
ghost use Rattle.wild_space.specs.Given.{Gives};
ghost use Rattle.wild_space.specs.Binds.{source_of, null_alone, with_symbol, symbols_of};
ghost use Rattle.wild_space.specs.Copies.{IsCopySet};

use crate::answers::{answer_for, no_answer, source_at};
use crate::binds::{Definition, bind};
use crate::fault::BindFault;
use crate::ordered::OrderedImages;
use std::alloc::Global;
use std::collections::HashSet;
use wild_loader::Answer;
use wild_words::Items;

/// The bytes that a copied symbol gets: `size` bytes in the memory of the image at a place of the order.
#[derive(Clone, Copy)]
pub struct Source {
    pub image: usize,
    pub address: u64,
    pub size: u64,
}

/// The symbols of an image so far.
#[derive(Drop)]
pub struct Symbols {
    /// The definitions of symbols 1, 2, and so on; `None` for a weak symbol without one.
    pub binds: Items<Option<Definition>>,
    /// The answers for symbols 0, 1, and so on, without bytes.
    pub answers: Items<Answer>,
    /// The bytes of symbols 0, 1, and so on; only copied symbols have any.
    pub sources: Items<Option<Source>>,
}

/// The set of symbols that are copied.
fn copy_set(alloc: Global, copies: &[u32]) -> Result<HashSet<u64>, BindFault>
    ensures { MatchResult result (λ set. IsCopySet set copies.now) (λ e. e ≡ OutOfMemory) }
{
    let mut set: HashSet<u64> = HashSet::new(alloc);
    for index in copies {
        set.insert(*index as u64)?;
    }
    Ok(set)
}

/// The bytes that a symbol of the first image gets, if it is copied.
fn source_of(
    alloc: Global,
    space: &OrderedImages<'_>,
    copies: &HashSet<u64>,
    index: u64,
) -> Result<Option<Source>, BindFault>
    requires ordered { AreOrdered space.now.images.now space.now.order space.now.tables }
    requires inside { 1 ≤ length space.now.order }
    ensures { (ks : List ℕ) → IsCopySet copies.now ks → result ≡ source_of space.now.images.now space.now.order space.now.resolvers.now ks index }
{
    if !copies.contains(&index) {
        return Ok(None);
    }
    Ok(Some(source_at(alloc, space, index)?))
}

/// The null symbol.
fn null_alone(alloc: Global) -> Result<Symbols, BindFault>
    ensures { Gives result (Ok null_alone) }
{
    let mut answers = Items::new(alloc);
    answers.push(no_answer(alloc))?;
    let mut sources = Items::new(alloc);
    sources.push(None)?;
    Ok(Symbols {
        binds: Items::new(alloc),
        answers,
        sources,
    })
}

/// The symbols so far, with a symbol of the image at a place of the order.
#[tactic(auto, unfolding(crate::specs::Binds::with_symbol))]
fn with_symbol(
    alloc: Global,
    space: &OrderedImages<'_>,
    copies: &HashSet<u64>,
    n: usize,
    index: u64,
    mut symbols: Symbols,
) -> Result<Symbols, BindFault>
    requires ordered { AreOrdered space.now.images.now space.now.order space.now.tables }
    requires inside { n < length space.now.order }
    ensures { (ks : List ℕ) → IsCopySet copies.now ks → Gives result (with_symbol space.now.images.now space.now.order space.now.resolvers.now ks n index symbols) }
{
    let bound = bind(space, n, index)?;
    let answer = answer_for(alloc, space, bound)?;
    let source = source_of(alloc, space, copies, index)?;
    symbols.binds.push(bound)?;
    symbols.answers.push(answer)?;
    symbols.sources.push(source)?;
    Ok(symbols)
}

/// The binds and answers of the image at a place of the order; these symbols are copied.
#[tactic(auto, using(crate::proofs::Loops::all_steps), unfolding(crate::specs::Binds::symbols_of))]
pub(crate) fn symbols_of(
    alloc: Global,
    space: &OrderedImages<'_>,
    copies: &[u32],
    n: usize,
) -> Result<Symbols, BindFault>
    requires ordered { AreOrdered space.now.images.now space.now.order space.now.tables }
    requires inside { n < length space.now.order }
    ensures { Gives result (symbols_of space.now.images.now space.now.order space.now.resolvers.now copies.now n) }
{
    let count = space.count(n)?;
    let set = copy_set(alloc, copies)?;
    let mut symbols = null_alone(alloc)?;
    for index in 1..count {
        symbols = with_symbol(alloc, space, &set, n, index, symbols)?;
    }
    Ok(symbols)
}
