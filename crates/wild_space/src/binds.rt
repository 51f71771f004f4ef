//! The definition that each symbol is bound to.
ghost use Rattle.std.specs.Prelude.{◌≡◌, ◌<◌, ◌≤◌, Ok, IfOk, IfSome, length, drop};
ghost use Rattle.wild_space.specs.Order.{AreOrdered};
ghost use Rattle.wild_space.specs.Binds.{place_of, is_own, first_definition, definition_of_name, bind, later_definition};

use crate::fault::BindFault;
use crate::ordered::OrderedImages;
use wild_records::SymtabEntry;
use wild_records::abi::section::SHN_UNDEF;
use wild_records::abi::symbol::{STB_WEAK, STV_DEFAULT};

/// Entry `index` of the dynamic symbol table of the image at a place of the order.
#[derive(Clone, Copy, Debug, PartialEq, Eq, Drop)]
pub struct Definition {
    pub image: usize,
    pub index: u64,
}

/// Whether the symbol is defined, and no other definition replaces it.
fn is_own(entry: SymtabEntry) -> bool
    ensures { result ≡ is_own entry }
{
    entry.section != SHN_UNDEF && entry.other % 4 != STV_DEFAULT
}

/// The first definition of a name in the images from a place of the order on.
#[tactic(auto, using(crate::proofs::Loops::definition_steps))]
fn first_definition(
    space: &OrderedImages<'_>,
    start: usize,
    name: &[u8],
) -> Result<Option<Definition>, BindFault>
    requires ordered { AreOrdered space.now.images.now space.now.order space.now.tables }
    requires inside { start ≤ length space.now.order }
    ensures is { result ≡ first_definition space.now.images.now start (drop start space.now.order) name.now }
    ensures small { IfOk result (λ found. IfSome found (λ d. d.image < length space.now.order)) }
{
    for n in start..space.order.len() {
        if let Some(index) = space.find(n, name)? {
            return Ok(Some(Definition { image: n, index }));
        }
    }
    Ok(None)
}

/// The first definition of the name of a symbol of the image at place `n`, in the images from a place of the order on.
#[tactic(auto, unfolding(crate::specs::Binds::definition_of_name))]
fn definition_of_name(
    space: &OrderedImages<'_>,
    n: usize,
    entry: SymtabEntry,
    start: usize,
) -> Result<Option<Definition>, BindFault>
    requires ordered { AreOrdered space.now.images.now space.now.order space.now.tables }
    requires inside { n < length space.now.order }
    requires start { start ≤ length space.now.order }
    ensures is { result ≡ definition_of_name space.now.images.now (place_of space.now.order n) entry start (drop start space.now.order) }
    ensures small { IfOk result (λ found. IfSome found (λ d. d.image < length space.now.order)) }
{
    let name = space.name(n, entry)?;
    first_definition(space, start, name)
}

/// The definition of a symbol of the image at a place of the order; `None` for a weak symbol without one.
#[tactic(auto, unfolding(crate::specs::Binds::bind))]
pub(crate) fn bind(
    space: &OrderedImages<'_>,
    n: usize,
    index: u64,
) -> Result<Option<Definition>, BindFault>
    requires ordered { AreOrdered space.now.images.now space.now.order space.now.tables }
    requires inside { n < length space.now.order }
    ensures is { result ≡ bind space.now.images.now space.now.order n index }
    ensures small { IfOk result (λ found. IfSome found (λ d. d.image < length space.now.order)) }
{
    let entry = space.symbol(n, index)?;
    if is_own(entry) {
        return Ok(Some(Definition { image: n, index }));
    }
    match definition_of_name(space, n, entry, 0)? {
        Some(found) => Ok(Some(found)),
        None if entry.info / 16 == STB_WEAK => Ok(None),
        None => Err(BindFault::Undefined {
            image: space.image(n),
            index,
        }),
    }
}

/// The definition whose bytes a copied symbol of the first image gets.
#[tactic(auto, unfolding(crate::specs::Binds::later_definition))]
pub(crate) fn later_definition(
    space: &OrderedImages<'_>,
    index: u64,
) -> Result<Definition, BindFault>
    requires ordered { AreOrdered space.now.images.now space.now.order space.now.tables }
    requires inside { 1 ≤ length space.now.order }
    ensures is { result ≡ later_definition space.now.images.now space.now.order index }
    ensures small { IfOk result (λ d. d.image < length space.now.order) }
{
    let entry = space.symbol(0, index)?;
    match definition_of_name(space, 0, entry, 1)? {
        Some(found) => Ok(found),
        None => Err(BindFault::Undefined {
            image: space.image(0),
            index,
        }),
    }
}
