//! What the bytes of an input mean.
ghost use Rattle.wild_text.specs.Means.{IsReadAs};
ghost use Rattle.wild_text.specs.Plan.{layout_in};

use crate::fault::{InputFault, PlanFault};
use crate::members::Planned;
use crate::plan_members::{Stop, read_layout};
use json::Scratch;
use std::alloc::Global;
use wild_json::{TextFault, value_of};
use wild_types::Layout;

/// What the text means.
fn read_text<T: Planned + Drop>(
    alloc: Global,
    text: &str,
    scratch: &mut Scratch,
) -> Result<T, InputFault>
    ensures { IsReadAs T.reads text.now result }
{
    match value_of(alloc, text, scratch) {
        Ok(value) => match T::read(alloc, &value) {
            Ok(x) => Ok(x),
            Err(PlanFault::OutOfMemory) => Err(InputFault::OutOfMemory),
            Err(PlanFault::At(path)) => Err(InputFault::At(path)),
        },
        Err(TextFault::NoJson) => Err(InputFault::NoJson),
        Err(TextFault::OutOfMemory) => Err(InputFault::OutOfMemory),
    }
}

/// What the bytes mean: a value of the type, or why there is none.
pub fn read_bytes<T: Planned + Drop>(alloc: Global, bytes: &[u8]) -> Result<T, InputFault>
    ensures { IsReadAs T.reads bytes.now result }
{
    let Ok(text) = str::from_utf8(bytes) else {
        return Err(InputFault::NoJson);
    };
    let mut scratch = Scratch::new(alloc);
    read_text(alloc, text, &mut scratch)
}

/// The layout that the bytes of a plan describe, or why there is none. A plan without a fault is read member by member; where
/// something is wrong, the whole value is read.
pub fn read_plan(alloc: Global, bytes: &[u8]) -> Result<Layout, InputFault>
    ensures { IsReadAs layout_in bytes.now result }
{
    let Ok(text) = str::from_utf8(bytes) else {
        return Err(InputFault::NoJson);
    };
    let mut scratch = Scratch::new(alloc);
    match read_layout(alloc, text, &mut scratch) {
        Ok(layout) => Ok(layout),
        Err(Stop::OutOfMemory) => Err(InputFault::OutOfMemory),
        Err(Stop::Irregular) => read_text(alloc, text, &mut scratch),
    }
}
