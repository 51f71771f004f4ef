//! Images of plans with changes.
ghost use Rattle.std.specs.Prelude.{◌≡◌, IfOk};
ghost use Rattle.wild_types.specs.declared.kind.Machine.TheVariants as machine;

use std::alloc::Global;
use std::test::Fail;
use std::thread::Threads;
use wild_image::{ElfX86_64, Threaded, write};
use wild_plan::{Layout, Machine};
use wild_text::read_plan;

/// The layout of a plan.
pub(crate) fn layout_of(alloc: Global, plan: &str) -> Result<Layout, Fail>
    ensures { IfOk result (λ l. l.machine ≡ machine.X86_64) }
{
    let layout = read_plan(alloc, plan.as_bytes()).ok().ok_or("plan")?;
    match layout.machine {
        Machine::X86_64 => Ok(layout),
        Machine::AArch64 => Err("machine".into()),
    }
}

/// A text with the first of each pair replaced by the second. An error if the text does not have the first.
fn changed_text(alloc: Global, text: &str, changes: &[(&str, &str)]) -> Result<String, Fail> {
    let mut whole = String::from_str(alloc, text)?;
    for (old, new) in changes {
        if !whole.contains(*old) {
            return Err("nothing to change".into());
        }
        whole = whole.replace(alloc, *old, *new)?;
    }
    Ok(whole)
}

/// The layout of a plan with changes.
pub(crate) fn changed_layout(
    alloc: Global,
    plan: &str,
    changes: &[(&str, &str)],
) -> Result<Layout, Fail>
    ensures { IfOk result (λ l. l.machine ≡ machine.X86_64) }
{
    let plan = changed_text(alloc, plan, changes)?;
    layout_of(alloc, plan.as_str())
}

/// The image of a plan with changes.
pub(crate) fn image_of(
    rt: &(impl Threads + Sync),
    alloc: Global,
    plan: &str,
    changes: &[(&str, &str)],
) -> Result<Vec<u8>, Fail> {
    let layout = changed_layout(alloc, plan, changes)?;
    let image = write::<ElfX86_64, _>(&Threaded(rt), alloc, &layout, 1)?;
    Ok(image.out.as_slice().to_vec(alloc)?)
}
