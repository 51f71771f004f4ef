//! The texts of the command `space`.
ghost use Rattle.std.specs.Prelude.{◌≡◌, ◌++◌, get_or, IfOk, OnOk, string_bytes};
ghost use Rattle.std.specs.List.{flat_map};
ghost use Rattle.wild_text.specs.SpaceAnswer.{order_line, bind_line, bind_lines, lines_from, space_text, not_bound_text};

use std::alloc::{AllocError, Global};
use std::fmt::{self, Write};
use wild_hashes::ImageFault;
use wild_loader::LoadFault;
use wild_space::{BindFault, Definition};
use wild_words::Items;

/// The place in the input of the image at a place of the order.
fn image_at(order: &[usize], place: usize) -> usize
    ensures { result ≡ get_or order.now place 0 }
{
    order.get(place).copied().unwrap_or(0)
}

/// Appends the line of the images in the order in which they are searched.
fn push_order(out: &mut String, order: &[usize]) -> Result<(), AllocError>
    ensures { OnOk result (string_bytes out.new ≡ string_bytes out.old ++ order_line order.now) }
{
    out.push_str("order")?;
    for image in order {
        write!(out, " {image}")?;
    }
    out.push_str("\n")
}

/// Appends the line of a symbol.
fn push_bind(
    out: &mut String,
    order: &[usize],
    image: usize,
    index: usize,
    definition: Option<Definition>,
) -> Result<(), AllocError>
    ensures { OnOk result (string_bytes out.new ≡ string_bytes out.old ++ bind_line order.now image index definition) }
{
    match definition {
        Some(definition) => {
            let target = image_at(order, definition.image);
            writeln!(out, "bind {image} {index} {target}")?;
        }
        None => writeln!(out, "bind {image} {index} none")?,
    }
    Ok(())
}

/// Appends the lines of the symbols of an image.
fn push_binds(
    out: &mut String,
    order: &[usize],
    image: usize,
    binds: &[Option<Definition>],
) -> Result<(), AllocError>
    ensures { OnOk result (string_bytes out.new ≡ string_bytes out.old ++ bind_lines order.now image 1 binds.now) }
{
    for (place, definition) in binds.iter().enumerate() {
        push_bind(out, order, image, place + 1, *definition)?;
    }
    Ok(())
}

/// The text for images that are bound: their order, and the definition of each of their symbols.
pub fn space_answer(
    alloc: Global,
    order: &[usize],
    binds: &[Items<Option<Definition>>],
) -> Result<String, AllocError>
    ensures { IfOk result (λ s. string_bytes s ≡ space_text order.now binds.now) }
{
    let mut out = String::new(alloc);
    push_order(&mut out, order)?;
    for (place, symbols) in binds.iter().enumerate() {
        push_binds(&mut out, order, image_at(order, place), symbols.as_slice())?;
    }
    Ok(out)
}

/// The printed form of a fault of the loader.
#[derive(Clone, Copy)]
pub(crate) struct LoadWords(pub(crate) LoadFault);

impl fmt::Display for LoadWords {
    ghost use Rattle.std.specs.Prelude.{Some};
    ghost use Rattle.wild_text.specs.SpaceAnswer.{load_fault_text};

    ghost output = { λ w. Some (load_fault_text w.0) };

    fn fmt<W: fmt::Write>(&self, f: &mut fmt::Formatter<W>) -> fmt::Result {
        match self.0 {
            LoadFault::NotElf => f.write_str("NotElf"),
            LoadFault::Cut { offset } => write!(f, "Cut offset={offset}"),
            LoadFault::NoTable { tag } => write!(f, "NoTable tag={tag}"),
            LoadFault::UnknownDynamic { number } => write!(f, "UnknownDynamic number={number}"),
            LoadFault::UnknownSymbol { index } => write!(f, "UnknownSymbol index={index}"),
            LoadFault::NoAnswer { value } => write!(f, "NoAnswer value={value}"),
            LoadFault::Unloaded { address } => write!(f, "Unloaded address={address}"),
            LoadFault::Wraps { address } => write!(f, "Wraps address={address}"),
            LoadFault::Overlap { address } => write!(f, "Overlap address={address}"),
            LoadFault::OutOfMemory => f.write_str("OutOfMemory"),
        }
    }
}

/// The printed form of a fault of a look-up.
#[derive(Clone, Copy)]
struct LookUpWords(ImageFault);

impl fmt::Display for LookUpWords {
    ghost use Rattle.std.specs.Prelude.{Some};
    ghost use Rattle.wild_text.specs.SpaceAnswer.{image_fault_text};

    ghost output = { λ w. Some (image_fault_text w.0) };

    fn fmt<W: fmt::Write>(&self, f: &mut fmt::Formatter<W>) -> fmt::Result {
        match self.0 {
            ImageFault::NotElf => f.write_str("NotElf"),
            ImageFault::Cut { offset } => write!(f, "Cut offset={offset}"),
            ImageFault::NoTable { tag } => write!(f, "NoTable tag={tag}"),
            ImageFault::Cycle { index } => write!(f, "Cycle index={index}"),
        }
    }
}

/// The printed form of a fault of images with its fields.
#[derive(Clone, Copy)]
struct BindWords(BindFault);

impl fmt::Display for BindWords {
    ghost use Rattle.std.specs.Prelude.{Some};
    ghost use Rattle.wild_text.specs.SpaceAnswer.{bind_fault_text};

    ghost output = { λ w. Some (bind_fault_text w.0) };

    fn fmt<W: fmt::Write>(&self, f: &mut fmt::Formatter<W>) -> fmt::Result {
        match self.0 {
            BindFault::Load { image, fault } => {
                let words = LoadWords(fault);
                write!(f, "Load image={image} {words}")
            }
            BindFault::LookUp { image, fault } => {
                let words = LookUpWords(fault);
                write!(f, "Load image={image} {words}")
            }
            BindFault::Missing { image, needed } => {
                write!(f, "Missing image={image} needed={needed}")
            }
            BindFault::CopyInLibrary { image, index } => {
                write!(f, "CopyInLibrary image={image} index={index}")
            }
            BindFault::Undefined { image, index } => {
                write!(f, "Undefined image={image} index={index}")
            }
            BindFault::NoAnswer { value } => write!(f, "NoAnswer value={value}"),
            BindFault::Overlap { address } => write!(f, "Overlap address={address}"),
            BindFault::OutOfMemory => f.write_str("OutOfMemory"),
        }
    }
}

/// The text for images that are not bound.
pub fn space_refusal(alloc: Global, fault: BindFault) -> Result<String, AllocError>
    ensures { IfOk result (λ s. string_bytes s ≡ not_bound_text fault) }
{
    let words = BindWords(fault);
    let text = format!(in alloc; "not bound {words}\n")?;
    Ok(text)
}
