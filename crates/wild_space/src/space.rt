//! Images bound to each other.
ghost use Rattle.std.specs.Prelude.{◌≤◌, Ok, length};
ghost use Rattle.wild_space.specs.Order.{AreOrdered};
ghost use Rattle.wild_space.specs.Given.{Gives};
ghost use Rattle.wild_space.specs.Overlaps.{check_disjoint, placed, least_in_two};
ghost use Rattle.wild_space.specs.Bound.{bound_in, bound};

use crate::binds::Definition;
use crate::copies::copies_of;
use crate::fault::BindFault;
use crate::image::NamedImage;
use crate::loading::{Loaded, load_images};
use crate::order::order_images;
use crate::ordered::OrderedImages;
use crate::overlaps::least_overlap;
use crate::symbols::{Symbols, symbols_of};
use crate::worlds::{Spaces, later_spaces};
use std::alloc::Global;
use wild_loader::{Memory, World};
use wild_words::Items;

/// Images bound to each other. `binds`, `worlds` and `memories` are in the order of `order`.
#[derive(Drop)]
pub struct Bound {
    /// The places of images in the input, in the order in which they are searched.
    pub order: Items<usize>,
    /// For each image the definitions of its dynamic symbols 1, 2, and so on; `None` for a weak symbol without one.
    pub binds: Items<Items<Option<Definition>>>,
    /// The world in which each image is loaded.
    pub worlds: Items<World>,
    /// The loaded images.
    pub memories: Items<Memory>,
}

/// Fails if two images share an address.
fn check_disjoint(alloc: Global, space: &OrderedImages<'_>) -> Result<(), BindFault>
    requires ordered { AreOrdered space.now.images.now space.now.order space.now.tables }
    ensures { Gives result (check_disjoint (least_in_two (placed space.now.images.now space.now.order))) }
{
    match least_overlap(alloc, space)? {
        Some(address) => Err(BindFault::Overlap { address }),
        None => Ok(()),
    }
}

/// A copy of an order.
fn copy_order(alloc: Global, order: &[usize]) -> Result<Items<usize>, BindFault>
    ensures { Gives result (Ok order.now) }
{
    let mut copy = Items::new(alloc);
    for image in order {
        copy.push(*image)?;
    }
    Ok(copy)
}

/// The images of a space bound to each other, and loaded.
#[tactic(auto, using(crate::proofs::BoundLemmas::later_worlds), unfolding(crate::specs::Bound::bound_in))]
fn bound_in(alloc: Global, space: &OrderedImages<'_>) -> Result<Bound, BindFault>
    requires ordered { AreOrdered space.now.images.now space.now.order space.now.tables }
    requires inside { 1 ≤ length space.now.order }
    ensures { Gives result (bound_in space.now.images.now space.now.resolvers.now space.now.order) }
{
    let copies = copies_of(alloc, space)?;
    let Symbols {
        binds,
        answers,
        sources,
    } = symbols_of(alloc, space, copies.as_slice(), 0)?;
    let Spaces { binds, worlds } = later_spaces(alloc, space, binds)?;
    check_disjoint(alloc, space)?;
    let Loaded { worlds, memories } = load_images(
        alloc,
        space,
        copies.as_slice(),
        answers,
        sources.as_slice(),
        worlds,
    )?;
    Ok(Bound {
        order: copy_order(alloc, space.order.as_slice())?,
        binds,
        worlds,
        memories,
    })
}

/// Binds images to each other as a dynamic linker does, and loads them. Image 0 is the program. The pairs are the answers of
/// resolvers.
#[tactic(auto, using(crate::proofs::OrderLemmas::order_some), unfolding(crate::specs::Bound::bound))]
pub fn bind_images(
    alloc: Global,
    images: &[NamedImage],
    resolvers: &[(u64, u64)],
) -> Result<Bound, BindFault>
    requires { 1 ≤ length images.now }
    ensures { Gives result (bound images.now resolvers.now) }
{
    let order = order_images(alloc, images)?;
    let space = OrderedImages::new(alloc, images, order, resolvers)?;
    bound_in(alloc, &space)
}
