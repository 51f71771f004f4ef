//! The image writer for C: a static library whose functions read structs of the caller and write into the caller's buffers. No
//! function has a state or keeps a pointer. `c/wild.h` declares them.
#![tactic(auto)]

ghost use Rattle.std.specs.Prelude.{◌≡◌, ◌⊎◌, length};
ghost use Rattle.wild_layout.specs.Faults.{errors};
ghost use Rattle.wild_layout.specs.Image.{bytes, counts};
ghost use Rattle.wild_meaning.specs.LinkedImage.{IsSound};
ghost use Rattle.wild_types.specs.Lookups.{image_size};
ghost use Rattle.wild_layout.specs.Warnings.{warnings};
ghost use Rattle.wild_c_layout.specs.ErrorOf.{error_of};
ghost use Rattle.wild_c_layout.specs.LayoutOf.{layout_of};
ghost use Rattle.wild_c_layout.specs.Text.{put};
ghost use Rattle.wild_c_layout.specs.WarningOf.{warning_of};
ghost use Rattle.wild_c.specs.Answers.{IsAnswer, write_status, size_status, needs_status, AreNeeds, SaysFirst, error_text, text_status};
ghost use Rattle.wild_c.specs.Statuses.{written, refused, no_memory, wrong_size};

mod sizes;
mod write;

use std::alloc::Global;
use wild_c_layout::{
    CFault, CLayout, CWarning, decode_frame, decode_layout, error_of, frames_have_the_size,
    is_layout, put_text, resolutions_have_their_flags,
};
use wild_text::refusal_answer;

/// The call did what its name says.
const WRITTEN: u32 = 0;

/// The layout has a fault.
const REFUSED: u32 = 1;

/// The structs represent no layout.
const NO_LAYOUT: u32 = 3;

/// Out of memory.
const NO_MEMORY: u32 = 6;

/// The size of a buffer is not that of the output.
const WRONG_SIZE: u32 = 8;

/// Writes the image of the layout into `out`, and the number of relocations read for each section into `read_counts`. The status is
/// - 0: they were written;
/// - 1: the layout has faults; `fault` is the first of them;
/// - 3: the structs represent no layout;
/// - 6: out of memory;
/// - 8: `out` has not the image's size, or `read_counts` not the number of sections.
///
/// Only status 0 changes `out`, `read_counts` and `warning`, and only status 1 changes `fault`.
#[unsafe(no_mangle)]
pub extern "C" fn wild_write(
    alloc: Global,
    layout: &CLayout,
    out: &mut [u8],
    read_counts: &mut [u64],
    warning: &mut CWarning,
    fault: &mut CFault,
) -> u32
    ensures status { IsAnswer result (write_status layout.now (length out.old) (length read_counts.old)) }
    ensures image { result ≡ written → out.new ≡ bytes (layout_of layout.now) }
    ensures counts { result ≡ written → read_counts.new ≡ counts (layout_of layout.now) }
    ensures warning { result ≡ written → warning.new ≡ warning_of (warnings (layout_of layout.now)) }
    ensures fault { result ≡ refused → SaysFirst fault.new (errors (layout_of layout.now)) }
    ensures out_unchanged { (result ≡ written → ⊥) → out.new ≡ out.old }
    ensures counts_unchanged { (result ≡ written → ⊥) → read_counts.new ≡ read_counts.old }
    ensures warning_unchanged { (result ≡ written → ⊥) → warning.new ≡ warning.old }
    ensures fault_unchanged { (result ≡ refused → ⊥) → fault.new ≡ fault.old }
    // The loader accepts the image in every legal world, and each kept reference has the value or target that its relocation
    // requires.
    ensures headline { result ≡ written → IsSound (layout_of layout.now) out.new }
{
    let is_known = is_layout(layout);
    if !is_known {
        return NO_LAYOUT;
    }
    match decode_layout(alloc, layout) {
        Ok(decoded) => {
            resolutions_have_their_flags();
            write::write_into(alloc, &decoded, out, read_counts, warning, fault)
        }
        Err(_) => NO_MEMORY,
    }
}

/// The size of the layout's image in bytes. The status is
/// - 0: it was written into `size`;
/// - 3: the structs represent no layout;
/// - 6: out of memory;
/// - 8: it is 2^64 or more.
#[unsafe(no_mangle)]
pub extern "C" fn wild_image_size(alloc: Global, layout: &CLayout, size: &mut u64) -> u32
    ensures status { IsAnswer result (size_status layout.now) }
    ensures size { result ≡ written → size.new ≡ image_size (layout_of layout.now) }
    ensures unchanged { (result ≡ written → ⊥) → size.new ≡ size.old }
{
    if !is_layout(layout) {
        return NO_LAYOUT;
    }
    frames_have_the_size();
    let Ok(frame) = decode_frame(alloc, layout) else {
        return NO_MEMORY;
    };
    let end = frame.image_end();
    if end > u128::from(u64::MAX) {
        return WRONG_SIZE;
    }
    *size = end as u64;
    WRITTEN
}

/// How many bytes each group needs of each part: with P parts, number G * P + K is what group G needs of part K. The status is
/// - 0: the numbers were written into `sizes`;
/// - 3: the structs represent no layout;
/// - 6: out of memory;
/// - 8: `sizes` has not P numbers for each group.
#[unsafe(no_mangle)]
pub extern "C" fn wild_needs(alloc: Global, layout: &CLayout, sizes: &mut [u64]) -> u32
    ensures status { IsAnswer result (needs_status layout.now (length sizes.old)) }
    ensures sizes { result ≡ written → AreNeeds (layout_of layout.now) sizes.new }
    ensures unchanged { (result ≡ written → ⊥) → sizes.new ≡ sizes.old }
{
    if !is_layout(layout) {
        return NO_LAYOUT;
    }
    match decode_layout(alloc, layout) {
        Ok(decoded) => sizes::write_needs(&decoded, sizes),
        Err(_) => NO_MEMORY,
    }
}

/// Writes the line that `link` prints for a fault into the front of `out`, and its length into `used`. The status is
/// - 0: it was written;
/// - 3: a number of the struct is that of no fault;
/// - 6: out of memory;
/// - 8: `out` is shorter than the line; only `used` was written.
#[unsafe(no_mangle)]
pub extern "C" fn wild_fault_text(
    alloc: Global,
    fault: &CFault,
    out: &mut [u8],
    used: &mut usize,
) -> u32
    ensures status { IsAnswer result (text_status (error_of fault.now) out.old) }
    ensures text { result ≡ written → out.new ≡ put (error_text (error_of fault.now)) out.old }
    ensures text_unchanged { (result ≡ written → ⊥) → out.new ≡ out.old }
    ensures length { result ≡ written ⊎ result ≡ wrong_size → used.new ≡ length (error_text (error_of fault.now)) }
    ensures length_unchanged { (result ≡ written → ⊥) → (result ≡ wrong_size → ⊥) → used.new ≡ used.old }
{
    let Some(error) = error_of(fault) else {
        return NO_LAYOUT;
    };
    let Ok(line) = refusal_answer(alloc, error) else {
        return NO_MEMORY;
    };
    let text = line.into_bytes();
    *used = text.len();
    if put_text(&text, out) {
        WRITTEN
    } else {
        WRONG_SIZE
    }
}
