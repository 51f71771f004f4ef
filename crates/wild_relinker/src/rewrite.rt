//! Replaces an input section of a linked layout.
ghost use Rattle.std.specs.Prelude.{◌≡◌, ℕ, ◌≤◌, ◌+◌, ◌⊎◌, List, Err, OnOk, OnErr};
ghost use Rattle.wild_types.specs.declared.fault.Error.{Error};
ghost use Rattle.wild_types.specs.Faults.{Refuses, Answers};
ghost use Rattle.wild_layout.specs.Faults.{errors};
ghost use Rattle.wild_layout.specs.Warnings.{warnings};
ghost use Rattle.wild_change.specs.Change.{changed_layout};
ghost use Rattle.wild_relinker.specs.Answer.{unless_errors, Relinks, CountsNone};
ghost use Rattle.wild_relinker.specs.declared.fault.RelinkFault.TheVariants.{OutOfMemory};
ghost use Rattle.wild_relinker.specs.Changed.{KeepsLength};
ghost use Rattle.wild_relinker.specs.Linked.{IsImage};

use crate::changed_image::write_changed;
use crate::fault::RelinkFault;
use crate::find::{found_section, named_section};
use crate::linked::{Image, Linked};
use crate::swap::swap_contents;
use std::alloc::Global;
use std::sync::ledger::Ledger;
use wild_change::Change;
use wild_geometry::layouts_are_laid_out;
use wild_image::{Arch, DebugWriter, Steps, Workers};
use wild_outlines::{
    changed_bytes, changed_counts, changed_total, refusals_by_group, values_by_outline,
};
use wild_types::{Error, Fault};

/// Replaces a section that may be changed by one with as many bytes, and exchanges its contents with those of the change. Refused with the
/// first fault of the changed layout; then the layout is as before. The image is that of the layout in any case,
/// and the warnings stay.
fn change_section<A: Arch, E: DebugWriter<A>, L: Ledger>(
    by: &Workers<E>,
    image: &mut Image,
    change: &mut Change,
    steps: &mut Steps<L>,
) -> Result<(), Error>
    requires ready { E.ready by.now.executor.now }
    requires machine { image.old.layout.machine ≡ A.machine }
    requires image { IsImage image.old }
    requires found { KeepsLength image.old.layout change.old }
    ensures faults { Answers result (errors (changed_layout image.old.layout change.old)) }
    ensures layout { OnOk result (image.new.layout ≡ changed_layout image.old.layout change.old) }
    ensures image { IsImage image.new }
    ensures warnings { warnings image.new.layout ≡ warnings image.old.layout }
    ensures kept { OnErr result (image.new.layout ≡ image.old.layout) }
    ensures counted { OnOk result (steps.new ≡ steps.old + 1) }
    ensures most { steps.new ≤ steps.old + 1 }
{
    layouts_are_laid_out();
    refusals_by_group();
    changed_bytes();
    changed_counts();
    changed_total();
    values_by_outline();
    let before = named_section(&image.layout, change)
        .section
        .relocations
        .len() as u64;
    swap_contents(by.alloc, &mut image.layout, change);
    let found = named_section(&image.layout, change);
    match write_changed::<A, E, L>(
        by,
        &image.layout,
        &image.prepared,
        change.group,
        found,
        before,
        &mut image.written,
        steps,
    ) {
        Ok(()) => Ok(()),
        Err(error) => {
            swap_contents(by.alloc, &mut image.layout, change);
            Err(error)
        }
    }
}

/// Why a change is refused whose layout has that fault.
fn refusal(error: Error) -> RelinkFault
    ensures answered { (es : List Error) → Refuses error es → (Err result ≡ unless_errors es) ⊎ (result ≡ OutOfMemory) }
    ensures steps { (new old : ℕ) → CountsNone (Err result) new old }
{
    match error.fault {
        Fault::OutOfMemory => RelinkFault::OutOfMemory,
        _ => RelinkFault::Write(error),
    }
}

/// Replaces the bytes and the relocations of an input section, and writes its group again. If the change is refused, the layout is as
/// before. The image is that of the layout in any case, and the warnings stay.
fn relink_image<A: Arch, E: DebugWriter<A>, L: Ledger>(
    by: &Workers<E>,
    image: &mut Image,
    change: Change,
    steps: &mut Steps<L>,
) -> Result<(), RelinkFault>
    requires ready { E.ready by.now.executor.now }
    requires machine { image.old.layout.machine ≡ A.machine }
    requires image { IsImage image.old }
    ensures answered { Relinks result image.old.layout change }
    ensures changed { OnOk result (image.new.layout ≡ changed_layout image.old.layout change) }
    ensures image { IsImage image.new }
    ensures warnings { warnings image.new.layout ≡ warnings image.old.layout }
    ensures kept { OnErr result (image.new.layout ≡ image.old.layout) }
    ensures counted { OnOk result (steps.new ≡ steps.old + 1) }
    ensures most { steps.new ≤ steps.old + 1 }
    ensures no_step { CountsNone result steps.new steps.old }
{
    let Some(section) = found_section(&image.layout, &change) else {
        return Err(RelinkFault::NoSection);
    };
    let needed = section.bytes.len();
    let given = change.bytes.len();
    if given != needed {
        return Err(RelinkFault::Length { given, needed });
    }
    let mut change = change;
    match change_section::<A, E, L>(by, image, &mut change, steps) {
        Ok(()) => Ok(()),
        Err(error) => Err(refusal(error)),
    }
}

/// Replaces the bytes and the relocations of an input section, and writes its group again. If the change is refused, nothing changes.
pub fn relink<A: Arch, E: DebugWriter<A>, L: Ledger>(
    executor: &E,
    alloc: Global,
    linked: &mut Linked,
    change: Change,
    steps: &mut Steps<L>,
) -> Result<(), RelinkFault>
    requires ready { E.ready executor.now }
    requires machine { linked.old.layout.machine ≡ A.machine }
    ensures answered { Relinks result linked.old.layout change }
    ensures changed { OnOk result (linked.new.layout ≡ changed_layout linked.old.layout change) }
    ensures kept { OnErr result (linked.new ≡ linked.old) }
    ensures counted { OnOk result (steps.new ≡ steps.old + 1) }
    ensures most { steps.new ≤ steps.old + 1 }
    ensures no_step { CountsNone result steps.new steps.old }
{
    let by = Workers {
        executor,
        alloc,
        count: 1,
    };
    relink_image::<A, E, L>(&by, &mut linked.image, change, steps)
}
