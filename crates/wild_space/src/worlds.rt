//! The worlds in which images are loaded.
ghost use Rattle.std.specs.Prelude.{◌<◌, [], Ok, length};
ghost use Rattle.wild_space.specs.Order.{AreOrdered};
ghost use Rattle.wild_space.specs.Given.{Gives};
ghost use Rattle.wild_space.specs.Binds.{modules_of, world_of};
ghost use Rattle.wild_space.specs.Bound.{with_image_bound, later_spaces};

use crate::binds::Definition;
use crate::fault::BindFault;
use crate::ordered::OrderedImages;
use crate::symbols::{Symbols, symbols_of};
use std::alloc::Global;
use wild_loader::{Answer, World};
use wild_words::Items;

/// The binds and worlds of images so far.
#[derive(Drop)]
pub struct Spaces {
    pub binds: Items<Items<Option<Definition>>>,
    pub worlds: Items<World>,
}

/// A copy of pairs.
fn copy_pairs(alloc: Global, pairs: &[(u64, u64)]) -> Result<Items<(u64, u64)>, BindFault>
    ensures { Gives result (Ok pairs.now) }
{
    let mut copy = Items::new(alloc);
    for pair in pairs {
        copy.push(*pair)?;
    }
    Ok(copy)
}

/// Module 0, and those of all images, with their distances.
#[tactic(auto, using(crate::proofs::Loops::modules_steps))]
fn modules_of(alloc: Global, space: &OrderedImages<'_>) -> Result<Items<(u64, i64)>, BindFault>
    requires ordered { AreOrdered space.now.images.now space.now.order space.now.tables }
    ensures { Gives result (Ok (modules_of space.now.images.now space.now.order)) }
{
    let mut modules = Items::new(alloc);
    modules.push((0, 0))?;
    for n in 0..space.order.len() {
        modules.push((n as u64 + 1, space.distance(n)))?;
    }
    Ok(modules)
}

/// The world of the image at a place of the order, with these answers.
#[tactic(auto, unfolding(crate::specs::Binds::world_of))]
pub(crate) fn world_of(
    alloc: Global,
    space: &OrderedImages<'_>,
    n: usize,
    answers: Items<Answer>,
) -> Result<World, BindFault>
    requires ordered { AreOrdered space.now.images.now space.now.order space.now.tables }
    requires inside { n < length space.now.order }
    ensures { Gives result (Ok (world_of space.now.images.now space.now.order space.now.resolvers.now n answers)) }
{
    Ok(World {
        base: space.base(n),
        symbols: answers,
        resolvers: copy_pairs(alloc, space.resolvers)?,
        modules: modules_of(alloc, space)?,
        own_module: space.module(n),
    })
}

/// The binds and worlds so far, with those of the image at a place of the order.
#[tactic(auto, unfolding(crate::specs::Bound::with_image_bound))]
fn with_image_bound(
    alloc: Global,
    space: &OrderedImages<'_>,
    n: usize,
    mut spaces: Spaces,
) -> Result<Spaces, BindFault>
    requires ordered { AreOrdered space.now.images.now space.now.order space.now.tables }
    requires inside { n < length space.now.order }
    ensures { Gives result (with_image_bound space.now.images.now space.now.order space.now.resolvers.now n spaces) }
{
    let Symbols { binds, answers, .. } = symbols_of(alloc, space, &[], n)?;
    let world = world_of(alloc, space, n, answers)?;
    spaces.binds.push(binds)?;
    spaces.worlds.push(world)?;
    Ok(spaces)
}

/// The binds of the first image, then the binds and worlds of the images after it.
#[tactic(auto, using(crate::proofs::Loops::all_steps))]
pub(crate) fn later_spaces(
    alloc: Global,
    space: &OrderedImages<'_>,
    binds: Items<Option<Definition>>,
) -> Result<Spaces, BindFault>
    requires ordered { AreOrdered space.now.images.now space.now.order space.now.tables }
    ensures { Gives result (later_spaces space.now.images.now space.now.order space.now.resolvers.now binds) }
{
    let mut spaces = Spaces {
        binds: Items::new(alloc),
        worlds: Items::new(alloc),
    };
    spaces.binds.push(binds)?;
    for n in 1..space.order.len() {
        spaces = with_image_bound(alloc, space, n, spaces)?;
    }
    Ok(spaces)
}
