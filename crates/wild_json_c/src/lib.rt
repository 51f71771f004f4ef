//! The program's command `link` for C: a static library that reads a plan from the caller's memory and writes the answer into it.
//! `c/wild.h` declares its function.
#![tactic(auto)]

ghost use Rattle.std.specs.Prelude.{◌≡◌, ◌⊎◌};
ghost use Rattle.wild_json_c.specs.Answers.{IsLinked, IsSoundlyLinked, linked, no_memory};

use std::alloc::Global;
use wild_c_layout::put_text;
use wild_image::Alone;
use wild_laws::images_are_sound;
use wild_program::plan_answer;
use wild_text::plans_are_read;

/// Out of memory.
const NO_MEMORY: u32 = 6;

/// The text is longer than the buffer.
const WRONG_SIZE: u32 = 8;

/// Writes the text that `link 1` prints for a plan into the front of `out`, and its length into `used`.
fn write_answer(alloc: Global, plan: &[u8], out: &mut [u8], used: &mut usize) -> u32
    ensures { IsLinked plan.now out.old out.new used.new result
        ⊎ (result ≡ no_memory) × (out.new ≡ out.old) × (used.new ≡ used.old) }
{
    let Ok((code, text)) = plan_answer(&Alone, alloc, plan, 1) else {
        return NO_MEMORY;
    };
    *used = text.len();
    if put_text(&text, out) {
        u32::from(code)
    } else {
        WRONG_SIZE
    }
}

/// Writes the text that `link 1` prints for a plan into the front of `out`, and its length into `used`. The status is
/// - 0, 1 or 3: that of `link`;
/// - 6: out of memory; nothing was written;
/// - 8: `out` is shorter than the text; only `used` was written.
#[unsafe(no_mangle)]
pub extern "C" fn wild_link_json(
    alloc: Global,
    plan: &[u8],
    out: &mut [u8],
    used: &mut usize,
) -> u32
    ensures answer { IsLinked plan.now out.old out.new used.new result
        ⊎ (result ≡ no_memory) × (out.new ≡ out.old) × (used.new ≡ used.old) }
    // If an image of an executable or a shared object is written, the loader accepts it in every legal world, and each kept reference
    // has the value or target that its relocation requires.
    ensures headline { result ≡ linked → IsSoundlyLinked plan.now out.old out.new used.new }
{
    plans_are_read();
    images_are_sound();
    write_answer(alloc, plan, out, used)
}
