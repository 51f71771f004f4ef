//! The symbols that images copy.
ghost use Rattle.std.specs.Prelude.{◌≡◌, ◌<◌, ◌≤◌, Ok, length, drop};
ghost use Rattle.wild_space.specs.Order.{AreOrdered};
ghost use Rattle.wild_space.specs.Given.{Gives, load};
ghost use Rattle.wild_space.specs.Binds.{place_of};
ghost use Rattle.wild_space.specs.Bound.{copies_in, none_copies, copies_of};

use crate::fault::{BindFault, load_fault};
use crate::ordered::OrderedImages;
use std::alloc::Global;
use wild_imports::copied_symbols;
use wild_loader::{LoadFault, read_machine_and_tables};
use wild_words::Items;

/// What the loader makes of an image, with a fault's place in the input.
pub(crate) fn load<T>(image: usize, read: Result<T, LoadFault>) -> Result<T, BindFault>
    ensures { result ≡ load image read }
{
    match read {
        Ok(value) => Ok(value),
        Err(fault) => Err(load_fault(image, fault)),
    }
}

/// The symbols of the COPY entries of the image at a place of the order.
#[tactic(auto, using(crate::proofs::Loops::load_gives), unfolding(crate::specs::Bound::copies_in))]
fn copies_in(alloc: Global, space: &OrderedImages<'_>, n: usize) -> Result<Items<u32>, BindFault>
    requires ordered { AreOrdered space.now.images.now space.now.order space.now.tables }
    requires inside { n < length space.now.order }
    ensures { Gives result (copies_in space.now.images.now (place_of space.now.order n)) }
{
    let read = read_machine_and_tables(alloc, space.bytes(n));
    let (machine, tables) = load(space.image(n), read)?;
    let symbols = copied_symbols(alloc, machine, &tables)?;
    Ok(symbols)
}

/// Whether no image after the first copies anything.
#[tactic(auto, using(crate::proofs::Loops::none_copies_steps))]
fn none_copies(alloc: Global, space: &OrderedImages<'_>) -> Result<(), BindFault>
    requires ordered { AreOrdered space.now.images.now space.now.order space.now.tables }
    ensures { Gives result (none_copies space.now.images.now (drop 1 space.now.order)) }
{
    for n in 1..space.order.len() {
        let symbols = copies_in(alloc, space, n)?;
        if let Some(index) = symbols.as_slice().first() {
            return Err(BindFault::CopyInLibrary {
                image: space.image(n),
                index: *index,
            });
        }
    }
    Ok(())
}

/// The symbols that the first image copies. Fails if a later image copies any.
#[tactic(auto, unfolding(crate::specs::Bound::copies_of))]
pub(crate) fn copies_of(alloc: Global, space: &OrderedImages<'_>) -> Result<Items<u32>, BindFault>
    requires ordered { AreOrdered space.now.images.now space.now.order space.now.tables }
    requires inside { 1 ≤ length space.now.order }
    ensures { Gives result (copies_of space.now.images.now space.now.order) }
{
    let symbols = copies_in(alloc, space, 0)?;
    none_copies(alloc, space)?;
    Ok(symbols)
}
