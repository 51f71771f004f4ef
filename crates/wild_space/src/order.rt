//! The order in which images are searched: breadth first, by the images that each needs.
ghost use Rattle.std.specs.Prelude.{◌≡◌, ◌<◌, ◌≤◌, [], ◌∷◌, Ok, All, IfOk, length};
ghost use Rattle.wild_hashes.specs.ImageTables.{AreTablesInside};
ghost use Rattle.wild_space.specs.Given.{Gives, GivesBy};
ghost use Rattle.wild_space.specs.Names.{IsNameTable};
ghost use Rattle.wild_space.specs.Order.{IsGrowing, bytes_at, tables_of, with_image, target, with_targets, with_needed, order_of};

use crate::fault::BindFault;
use crate::image::NamedImage;
use crate::names::{bytes_at, find_named, name_table};
use std::alloc::Global;
use std::collections::HashMap;
use wild_hashes::{ImageTables, find_image_tables, text_at};
use wild_imports::needed_offsets;
use wild_words::Items;

/// An order as it grows, with a mark for each image that it has.
#[derive(Drop)]
pub struct Growing {
    pub order: Items<usize>,
    pub present: Vec<bool>,
}

/// Where the tables of the image at a place of the input are.
#[tactic(auto, unfolding(crate::specs::Order::tables_of))]
pub(crate) fn tables_of(images: &[NamedImage], image: usize) -> Result<ImageTables, BindFault>
    requires { image < length images.now }
    ensures is { result ≡ tables_of images.now image }
    ensures inside { IfOk result (AreTablesInside (bytes_at images.now image)) }
{
    match find_image_tables(bytes_at(images, image)) {
        Ok(tables) => Ok(tables),
        Err(fault) => Err(BindFault::LookUp { image, fault }),
    }
}

/// The order of image 0 alone.
fn first_image(alloc: Global, count: usize) -> Result<Growing, BindFault>
    requires { 1 ≤ count }
    ensures is { GivesBy (λ g. g.order) result (Ok (0 ∷ [])) }
    ensures kept { IfOk result (IsGrowing count) }
{
    let mut order = Items::new(alloc);
    order.push(0)?;
    let mut present = vec![in alloc; false; count]?;
    present[0] = true;
    Ok(Growing { order, present })
}

/// The order with an image at its end, if the image is not in it yet.
fn with_image(growing: Growing, image: usize, count: usize) -> Result<Growing, BindFault>
    requires growing { IsGrowing count growing }
    requires small { image < count }
    ensures is { GivesBy (λ g. g.order) result (Ok (with_image growing.order image)) }
    ensures kept { IfOk result (IsGrowing count) }
{
    let Growing {
        mut order,
        mut present,
    } = growing;
    if !present[image] {
        order.push(image)?;
        present[image] = true;
    }
    Ok(Growing { order, present })
}

/// The image that an entry names.
#[tactic(auto, unfolding(crate::specs::Order::target))]
fn target(
    images: &[NamedImage],
    names: &HashMap<&[u8], usize>,
    image: usize,
    tables: &ImageTables,
    needed: usize,
    at: u64,
) -> Result<usize, BindFault>
    requires names { IsNameTable names.now images.now }
    requires small { image < length images.now }
    requires tables { AreTablesInside (bytes_at images.now image) tables.now }
    ensures is { result ≡ target images.now image tables.now needed at }
    ensures small { IfOk result (λ j. j < length images.now) }
{
    let name = match text_at(bytes_at(images, image), tables, at) {
        Ok(name) => name,
        Err(fault) => return Err(BindFault::LookUp { image, fault }),
    };
    match find_named(names, images, name) {
        Some(found) => Ok(found),
        None => Err(BindFault::Missing { image, needed }),
    }
}

/// The order with the images that entries name.
#[tactic(auto, using(crate::proofs::Loops::targets_steps))]
fn with_targets(
    images: &[NamedImage],
    names: &HashMap<&[u8], usize>,
    image: usize,
    tables: &ImageTables,
    offsets: &[u64],
    growing: Growing,
) -> Result<Growing, BindFault>
    requires names { IsNameTable names.now images.now }
    requires small { image < length images.now }
    requires tables { AreTablesInside (bytes_at images.now image) tables.now }
    requires growing { IsGrowing (length images.now) growing }
    ensures is { GivesBy (λ g. g.order) result (with_targets images.now image tables.now 0 offsets.now growing.order) }
    ensures kept { IfOk result (IsGrowing (length images.now)) }
{
    let mut growing = growing;
    for k in 0..offsets.len() {
        let found = target(images, names, image, tables, k, offsets[k])?;
        growing = with_image(growing, found, images.len())?;
    }
    Ok(growing)
}

/// The order with the images that an image needs.
#[tactic(auto, unfolding(crate::specs::Order::with_needed))]
fn with_needed(
    alloc: Global,
    images: &[NamedImage],
    names: &HashMap<&[u8], usize>,
    image: usize,
    growing: Growing,
) -> Result<Growing, BindFault>
    requires names { IsNameTable names.now images.now }
    requires small { image < length images.now }
    requires growing { IsGrowing (length images.now) growing }
    ensures is { GivesBy (λ g. g.order) result (with_needed images.now image growing.order) }
    ensures kept { IfOk result (IsGrowing (length images.now)) }
{
    let tables = tables_of(images, image)?;
    let offsets = needed_offsets(alloc, bytes_at(images, image), &tables)?;
    with_targets(images, names, image, &tables, offsets.as_slice(), growing)
}

/// Image 0; then, image by image in order, the images that it needs, each where it is not in the order yet.
#[tactic(auto, using(crate::proofs::Loops::walk_steps), unfolding(crate::specs::Order::order_of))]
pub(crate) fn order_images(alloc: Global, images: &[NamedImage]) -> Result<Items<usize>, BindFault>
    requires { 1 ≤ length images.now }
    ensures is { Gives result (order_of images.now) }
    ensures small { IfOk result (All (λ i. i < length images.now)) }
{
    let names = name_table(alloc, images)?;
    let mut growing = first_image(alloc, images.len())?;
    for p in 0..images.len() {
        if growing.order.len() <= p {
            return Ok(growing.order);
        }
        let image = growing.order.as_slice()[p];
        growing = with_needed(alloc, images, &names, image, growing)?;
    }
    Ok(growing.order)
}
