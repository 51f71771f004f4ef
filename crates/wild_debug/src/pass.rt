//! Applies the relocations of a debug section one after another.
ghost use Rattle.std.specs.Prelude.{◌≡◌, ◌+◌, length, All, Ok, slice_range};
ghost use Rattle.wild_words.specs.Words.{place};
ghost use Rattle.wild_reloc.specs.Field.{size_width, size_written};
ghost use Rattle.wild_shards.specs.InOrder.{in_order, apply_step, ResultIs};
ghost use Rattle.wild_layout.specs.Debug.{debug_decided, debug_rule, at_offset_only};
ghost use Rattle.wild_debug.specs.Fields.{LiesAt, FieldLiesFrom};

use crate::decide::DebugStep;
use crate::step::at_offset_only;
use wild_layout::Decision;
use wild_relax::Arch;
use wild_reloc::RelocationSize;
use wild_types::{Error, InputRelocation};

/// Writes a value into a field, if the field has bytes.
#[inline]
fn write_sized(size: RelocationSize, value: u64, out: &mut [u8], offset: u64)
    requires lies { LiesAt offset (size_width size) (length out.old) }
    ensures { out.new ≡ place offset (size_written size value (slice_range out.old offset (offset + size_width size))) out.old }
{
    if size.width() != 0 {
        size.write_at(value, out, offset as usize);
    }
}

/// Writes the field of a decided relocation over bytes that begin at offset `base`.
#[inline]
fn write_decided<A: Arch>(
    _step: &DebugStep<A>,
    relocation: &InputRelocation,
    decision: Decision,
    base: u64,
    out: &mut [u8],
)
    requires decided { debug_decided _step.now.resolved.now.layout.now _step.now.section.now relocation.now ≡ Ok decision }
    requires lies { FieldLiesFrom _step.now.resolved.now.layout.now.machine base (length out.old) relocation.now }
    ensures written { apply_step (debug_rule _step.now.resolved.now.layout.now at_offset_only _step.now.section.now) base relocation.now out.old ≡ Ok out.new }
    ensures long { length out.new ≡ length out.old }
{
    match decision {
        Decision::Field { size, value } => {
            write_sized(size, value, out, relocation.offset - base)
        }
        _ => {}
    }
}

/// Applies a relocation over bytes that begin at offset `base`.
#[inline]
fn apply<A: Arch>(
    step: &DebugStep<A>,
    relocation: &InputRelocation,
    base: u64,
    out: &mut [u8],
) -> Result<(), Error>
    requires lies { FieldLiesFrom step.now.resolved.now.layout.now.machine base (length out.old) relocation.now }
    ensures came { ResultIs result out.new (apply_step (debug_rule step.now.resolved.now.layout.now at_offset_only step.now.section.now) base relocation.now out.old) }
    ensures long { length out.new ≡ length out.old }
{
    match step.decided(relocation) {
        Ok(decision) => {
            write_decided(step, relocation, decision, base, out);
            Ok(())
        }
        Err(fault) => Err(Error {
            fault,
            at: at_offset_only(relocation.offset),
        }),
    }
}

/// Applies relocations one after another over bytes that begin at offset `base`, or returns a fault.
pub(crate) fn apply_in_order<A: Arch>(
    step: &DebugStep<A>,
    relocations: &[InputRelocation],
    base: u64,
    out: &mut [u8],
) -> Result<(), Error>
    requires lies { All (FieldLiesFrom step.now.resolved.now.layout.now.machine base (length out.old)) relocations.now }
    ensures { ResultIs result out.new (in_order (debug_rule step.now.resolved.now.layout.now at_offset_only step.now.section.now) base relocations.now out.old) }
{
    for relocation in relocations {
        apply(step, relocation, base, out)?;
    }
    Ok(())
}
