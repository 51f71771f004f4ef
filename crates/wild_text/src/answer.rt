//! The texts for an image, and for a value that is not a plan.
ghost use Rattle.std.specs.Prelude.{◌≡◌, ◌++◌, ◌*◌, IfOk, OnOk, string_bytes, length};
ghost use Rattle.hex.specs.Hex.{encode_lower};
ghost use Rattle.wild_text.specs.Answer.{image_text, count_lines, hex_text, no_plan_text};
ghost use Rattle.wild_text.specs.RelinkAnswer.{rewritten_text, no_section_text, no_length_text};

use crate::warning::push_warnings;
use std::alloc::{AllocError, Global};
use std::fmt::Write;
use wild_types::{EntryWarning, Layout};

/// How many bytes of an image one line shows.
const LINE: usize = 32;

/// Appends a line for each section that has relocations.
pub fn push_counts(out: &mut String, counts: &[u64]) -> Result<(), AllocError>
    ensures { OnOk result (string_bytes out.new ≡ string_bytes out.old ++ count_lines 0 counts.now) }
{
    for (section, count) in counts.iter().enumerate() {
        if *count > 0 {
            writeln!(out, "count {section} {count}")?;
        }
    }
    Ok(())
}

fn put_digits(bytes: &[u8], digits: &mut [u8])
    requires { length digits.old ≡ 2 * length bytes.now }
    ensures { digits.new ≡ encode_lower bytes.now }
{
    hex::encode_to_slice(bytes, digits).unwrap()
}

pub(crate) fn push_hex(out: &mut Vec<u8>, bytes: &[u8]) -> Result<(), AllocError>
    ensures { OnOk result (out.new.items ≡ out.old.items ++ hex_text bytes.now) }
{
    let mut line = [0u8; 2 * LINE];
    let mut rest = bytes;
    while !rest.is_empty() {
        let (front, after) = rest.split_at(rest.len().min(LINE));
        let digits = &mut line[..2 * front.len()];
        put_digits(front, digits);
        out.extend_from_slice(digits)?;
        out.push(b'\n')?;
        rest = after;
    }
    Ok(())
}

/// A first line, and the text for an image of a layout.
fn image_after(
    alloc: Global,
    first: &str,
    layout: &Layout,
    image: &[u8],
    warnings: &[EntryWarning],
    counts: &[u64],
) -> Result<Vec<u8>, AllocError>
    ensures { IfOk result (λ v. v.items ≡ first.now ++ image_text layout.now image.now warnings.now counts.now) }
{
    let size = image.len();
    let mut head = format!(in alloc; "{first}image {size}\n")?;
    push_warnings(&mut head, alloc, layout, warnings)?;
    push_counts(&mut head, counts)?;
    let mut out = head.into_bytes();
    out.reserve(size.saturating_mul(2).saturating_add(size.div_ceil(LINE)))?;
    push_hex(&mut out, image)?;
    Ok(out)
}

/// The text for an image of a layout, with its warnings and the number of relocations of each section.
pub fn image_answer(
    alloc: Global,
    layout: &Layout,
    image: &[u8],
    warnings: &[EntryWarning],
    counts: &[u64],
) -> Result<Vec<u8>, AllocError>
    ensures { IfOk result (λ v. v.items ≡ image_text layout.now image.now warnings.now counts.now) }
{
    image_after(alloc, "", layout, image, warnings, counts)
}

/// The text for the image of a layout with a changed section.
pub fn relink_answer(
    alloc: Global,
    layout: &Layout,
    image: &[u8],
    warnings: &[EntryWarning],
    counts: &[u64],
) -> Result<Vec<u8>, AllocError>
    ensures { IfOk result (λ v. v.items ≡ rewritten_text layout.now image.now warnings.now counts.now) }
{
    image_after(alloc, "rewritten 1\n", layout, image, warnings, counts)
}

/// The text for a change that names no section that may be changed.
pub fn no_section_answer(alloc: Global) -> Result<String, AllocError>
    ensures { IfOk result (λ s. string_bytes s ≡ no_section_text) }
{
    String::from_str(alloc, "no change section\n")
}

/// The text for new bytes of another length.
pub fn no_length_answer(alloc: Global, given: usize, needed: usize) -> Result<String, AllocError>
    ensures { IfOk result (λ s. string_bytes s ≡ no_length_text given needed) }
{
    let mut text = String::new(alloc);
    writeln!(text, "no change length given={given} needed={needed}")?;
    Ok(text)
}

/// The text for a value whose first wrong member has that path.
pub fn no_plan_answer(alloc: Global, path: &str) -> Result<String, AllocError>
    ensures { IfOk result (λ s. string_bytes s ≡ no_plan_text path.now) }
{
    let text = format!(in alloc; "not a plan: {path}\n")?;
    Ok(text)
}
