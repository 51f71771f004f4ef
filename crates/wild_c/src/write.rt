//! The image of a layout, into buffers of the caller.
ghost use Rattle.std.specs.Prelude.{◌≡◌, length, IfOk, IfErr, OnOk};
ghost use Rattle.wild_layout.specs.Faults.{errors};
ghost use Rattle.wild_layout.specs.Image.{bytes, counts};
ghost use Rattle.wild_meaning.specs.LinkedImage.{IsSound};
ghost use Rattle.wild_types.specs.ResolvedFlags.{HaveTheirFlags};
ghost use Rattle.wild_layout.specs.Warnings.{warnings};
ghost use Rattle.wild_c_layout.specs.WarningOf.{warning_of};
ghost use Rattle.wild_c.specs.Answers.{IsAnswer, layout_status, fits, SaysFirst, IsOutput, IsRefusal};
ghost use Rattle.wild_c.specs.Statuses.{written, refused};

use crate::{NO_MEMORY, REFUSED, WRITTEN, WRONG_SIZE};
use std::alloc::Global;
use wild_c_layout::{CFault, CWarning, fault_of, warning_of};
use wild_image::{Alone, SizedOutput, write_layout};
use wild_laws::images_are_sound;
use wild_layout::numbers_fit;
use wild_types::{Fault, Layout};

/// The image of the layout; or the status, with the first fault, unless it is out of memory.
fn image_of(alloc: Global, layout: &Layout, fault: &mut CFault) -> Result<SizedOutput, u32>
    ensures made { IfOk result (IsOutput layout.now) }
    ensures refused { IfErr result (λ s. IsRefusal (errors layout.now) s fault.old fault.new) }
    ensures unchanged { OnOk result (fault.new ≡ fault.old) }
{
    match write_layout(&Alone, alloc, layout, 1) {
        Ok(made) => Ok(made),
        Err(error) => match error.fault {
            Fault::OutOfMemory => Err(NO_MEMORY),
            _ => {
                *fault = fault_of(error);
                Err(REFUSED)
            }
        },
    }
}

/// Writes the image of the layout, and the number of relocations read for each section.
pub(crate) fn write_into(
    alloc: Global,
    layout: &Layout,
    out: &mut [u8],
    read_counts: &mut [u64],
    warning: &mut CWarning,
    fault: &mut CFault,
) -> u32
    ensures status { IsAnswer result (layout_status (errors layout.now) (fits layout.now (length out.old) (length read_counts.old))) }
    ensures image { result ≡ written → out.new ≡ bytes layout.now }
    ensures counts { result ≡ written → read_counts.new ≡ counts layout.now }
    ensures warning { result ≡ written → warning.new ≡ warning_of (warnings layout.now) }
    ensures fault { result ≡ refused → SaysFirst fault.new (errors layout.now) }
    ensures out_unchanged { (result ≡ written → ⊥) → out.new ≡ out.old }
    ensures counts_unchanged { (result ≡ written → ⊥) → read_counts.new ≡ read_counts.old }
    ensures warning_unchanged { (result ≡ written → ⊥) → warning.new ≡ warning.old }
    ensures fault_unchanged { (result ≡ refused → ⊥) → fault.new ≡ fault.old }
    ensures headline { result ≡ written → HaveTheirFlags layout.now → IsSound layout.now out.new }
{
    numbers_fit(layout);
    images_are_sound();
    let made = match image_of(alloc, layout, fault) {
        Ok(made) => made,
        Err(status) => return status,
    };
    let image = made.out.as_slice();
    let read = made.counts.as_slice();
    if out.len() != image.len() || read_counts.len() != read.len() {
        return WRONG_SIZE;
    }
    out.copy_from_slice(image);
    read_counts.copy_from_slice(read);
    *warning = warning_of(made.warnings.as_slice());
    WRITTEN
}
