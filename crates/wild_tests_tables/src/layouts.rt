//! Layouts, each by its plan.
ghost use Rattle.std.specs.Prelude.{◌≡◌, IfOk};
ghost use Rattle.wild_types.specs.declared.kind.Machine.TheVariants as machine;

use std::alloc::Global;
use std::test::Fail;
use wild_plan::{Layout, Machine, Resolution, Symbol};
use wild_text::read_plan;

/// The layout of a plan.
pub(crate) fn layout_of(alloc: Global, plan: &str) -> Result<Layout, Fail>
    ensures { IfOk result (λ l. l.machine ≡ machine.X86_64) }
{
    let layout = read_plan(alloc, plan.as_bytes()).ok().ok_or("plan")?;
    match layout.machine {
        Machine::X86_64 => Ok(layout),
        Machine::AArch64 => Err("machine".into()),
    }
}

/// The symbol of a layout with that index.
pub(crate) fn symbol_of(layout: &Layout, index: usize) -> Result<&Symbol, Fail> {
    let symbol = layout.symbols.as_slice().get(index).ok_or("no symbol")?;
    Ok(symbol)
}

/// The resolution of that symbol.
pub(crate) fn resolution_of(layout: &Layout, index: usize) -> Result<Resolution, Fail> {
    let resolution = symbol_of(layout, index)?.resolution.ok_or("none")?;
    Ok(resolution)
}
