//! Where execution continues.
ghost use Rattle.std.specs.Prelude.{◌≡◌, ◌↔◌, option_and_then, IsTrue};
ghost use Rattle.wild_loader.specs.Effect.{step};
ghost use Rattle.wild_loader.specs.Reach.{jump_target, Reaches};

use crate::effect::{Value, step};
use crate::instruction::Deed;
use crate::memory::Memory;

/// Where execution continues after a jump at an address.
fn next(memory: &Memory, address: u64) -> Option<u64>
    ensures { result ≡ option_and_then jump_target (step memory.now address) }
{
    let effect = step(memory, address)?;
    match (effect.deed, effect.value) {
        (Deed::Jump, Value::Number(target)) => Some(target),
        _ => None,
    }
}

/// Whether execution that starts at one address reaches another: with no jump, through a stub, or through a thunk and a stub.
pub fn reaches(memory: &Memory, from: u64, to: u64) -> bool
    ensures { IsTrue result ↔ Reaches memory.now from to }
{
    if from == to {
        return true;
    }
    let Some(after) = next(memory, from) else {
        return false;
    };
    after == to || next(memory, after) == Some(to)
}
