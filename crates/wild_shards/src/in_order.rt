//! Relocations applied in sequence.
ghost use Rattle.std.specs.Prelude.{◌≡◌, ◌+◌, ◌≤◌, length, All, true, false};
ghost use Rattle.wild_shards.specs.InOrder.{in_order, apply_step, width, ResultIs, FieldWithin, OthersStay};

use crate::step::{Step, steps_stay_in_fields};
use wild_types::{Error, InputRelocation};

/// Applies a relocation to bytes that begin at offset `base`.
fn apply<S: Step>(
    step: &S,
    relocation: &InputRelocation,
    base: u64,
    out: &mut [u8],
) -> Result<(), Error>
    requires { FieldWithin (S.rule step.now) base (base + length out.old) relocation.now }
    ensures { ResultIs result out.new (apply_step (S.rule step.now) base relocation.now out.old) }
{
    steps_stay_in_fields(step);
    let at = (relocation.offset - base) as usize;
    let width = step.size(relocation).unwrap_or(0);
    step.write(relocation, &mut out[at..at + width])
}

/// Applies relocations one by one to the bytes, which begin at offset `base`. Stops at the first fault and returns it.
pub fn apply_in_order<S: Step>(
    step: &S,
    relocations: &[InputRelocation],
    base: u64,
    out: &mut [u8],
) -> Result<(), Error>
    requires { All (FieldWithin (S.rule step.now) base (base + length out.old)) relocations.now }
    ensures { ResultIs result out.new (in_order (S.rule step.now) base relocations.now out.old) }
{
    for relocation in relocations {
        apply(step, relocation, base, out)?;
    }
    Ok(())
}

/// Whether each field is within an output of that length: true exactly if it is.
pub fn fields_lie<S: Step>(step: &S, relocations: &[InputRelocation], output: usize) -> bool
    ensures yes { result ≡ true → All (FieldWithin (S.rule step.now) 0 output) relocations.now }
    ensures no { result ≡ false → All (FieldWithin (S.rule step.now) 0 output) relocations.now → ⊥ }
{
    for relocation in relocations {
        let width = step.size(relocation).unwrap_or(0);
        if relocation.offset as u128 + width as u128 > output as u128 {
            return false;
        }
    }
    true
}

/// A byte outside all fields does not change.
pub fn other_bytes_stay()
    ensures { OthersStay }
{}
