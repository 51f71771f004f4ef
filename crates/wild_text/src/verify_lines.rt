//! The texts of the command `verify`.
ghost use Rattle.std.specs.Prelude.{◌≡◌, IfOk, string_bytes};
ghost use Rattle.wild_text.specs.VerifyAnswer.{yes_text, no_partial_text, no_load_text, no_segment_text, no_byte_text, no_reference_text};

use crate::space_lines::LoadWords;
use std::alloc::{AllocError, Global};
use std::fmt;
use wild_loader::LoadFault;

/// The text for an image that is right in every legal world.
pub fn yes_answer(alloc: Global) -> Result<String, AllocError>
    ensures { IfOk result (λ s. string_bytes s ≡ yes_text) }
{
    String::from_str(alloc, "yes\n")
}

/// The text for an image of a relocatable object.
pub fn no_partial_answer(alloc: Global) -> Result<String, AllocError>
    ensures { IfOk result (λ s. string_bytes s ≡ no_partial_text) }
{
    String::from_str(alloc, "no partial\n")
}

/// The text for an image that is not loaded.
pub fn no_load_answer(alloc: Global, fault: LoadFault) -> Result<String, AllocError>
    ensures { IfOk result (λ s. string_bytes s ≡ no_load_text fault) }
{
    let words = LoadWords(fault);
    let text = format!(in alloc; "no load {words}\n")?;
    Ok(text)
}

/// The text for a segment to load that layout and image do not both have.
pub fn no_segment_answer(alloc: Global, index: usize) -> Result<String, AllocError>
    ensures { IfOk result (λ s. string_bytes s ≡ no_segment_text index) }
{
    let text = format!(in alloc; "no segment index={index}\n")?;
    Ok(text)
}

/// The printed form of a byte of an input section.
#[derive(Clone, Copy)]
struct ByteWords {
    group: usize,
    file: usize,
    section: usize,
    offset: usize,
}

impl fmt::Display for ByteWords {
    ghost use Rattle.std.specs.Prelude.{Some};
    ghost use Rattle.wild_text.specs.VerifyAnswer.{byte_text};

    ghost output = { λ w. Some (byte_text w.group w.file w.section w.offset) };

    fn fmt<W: fmt::Write>(&self, f: &mut fmt::Formatter<W>) -> fmt::Result {
        let ByteWords {
            group,
            file,
            section,
            offset,
        } = *self;
        write!(
            f,
            "byte group={group} file={file} section={section} offset={offset}"
        )
    }
}

/// The printed form of a relocation of an input section.
#[derive(Clone, Copy)]
struct ReferenceWords {
    group: usize,
    file: usize,
    section: usize,
    index: usize,
}

impl fmt::Display for ReferenceWords {
    ghost use Rattle.std.specs.Prelude.{Some};
    ghost use Rattle.wild_text.specs.VerifyAnswer.{reference_text};

    ghost output = { λ w. Some (reference_text w.group w.file w.section w.index) };

    fn fmt<W: fmt::Write>(&self, f: &mut fmt::Formatter<W>) -> fmt::Result {
        let ReferenceWords {
            group,
            file,
            section,
            index,
        } = *self;
        write!(
            f,
            "reference group={group} file={file} section={section} index={index}"
        )
    }
}

/// The text for a byte that is not the input's.
pub fn no_byte_answer(
    alloc: Global,
    group: usize,
    file: usize,
    section: usize,
    offset: usize,
) -> Result<String, AllocError>
    ensures { IfOk result (λ s. string_bytes s ≡ no_byte_text group file section offset) }
{
    let words = ByteWords {
        group,
        file,
        section,
        offset,
    };
    let text = format!(in alloc; "no {words}\n")?;
    Ok(text)
}

/// The text for a reference that does not hold, or is not decided.
pub fn no_reference_answer(
    alloc: Global,
    group: usize,
    file: usize,
    section: usize,
    index: usize,
) -> Result<String, AllocError>
    ensures { IfOk result (λ s. string_bytes s ≡ no_reference_text group file section index) }
{
    let words = ReferenceWords {
        group,
        file,
        section,
        index,
    };
    let text = format!(in alloc; "no {words}\n")?;
    Ok(text)
}
