//! The memory of a layout in a world, into a buffer of the caller.
ghost use Rattle.std.specs.Prelude.{◌≡◌, length, IfOk};
ghost use Rattle.std.specs.List.{flat_map};
ghost use Rattle.wild_placer.specs.Place.{Gives, layout_memory};
ghost use Rattle.wild_c_place.specs.Answers.{IsAnswer, run_bytes, memory_status, HasMemory, SaysFault, SaysLoadFault, written, refused, not_placed};

use crate::load_fault::{CLoadFault, load_fault_of};
use crate::{NO_MEMORY, NOT_PLACED, REFUSED, WRITTEN, WRONG_SIZE};
use std::alloc::{AllocError, Global};
use wild_c_layout::{CFault, fault_of};
use wild_image::{Alone, ElfAArch64, ElfX86_64};
use wild_loader::{Memory, Run, World};
use wild_placer::{PlaceFault, place_code};
use wild_types::{Layout, Machine};

/// The bytes of runs, one run after another.
fn bytes_of_runs(alloc: Global, runs: &[Run]) -> Result<Vec<u8>, AllocError>
    ensures { IfOk result (λ v. v.items ≡ flat_map run_bytes runs.now) }
{
    let mut bytes = Vec::new(alloc);
    for run in runs {
        bytes.extend_from_slice(run.bytes.as_slice())?;
    }
    Ok(bytes)
}

/// The memory of the layout for the machine that it names.
fn placed(alloc: Global, layout: &Layout, world: &World) -> Result<Memory, PlaceFault>
    ensures { Gives result (layout_memory layout.now world.now) }
{
    match layout.machine {
        Machine::X86_64 => place_code::<ElfX86_64, Alone>(&Alone, alloc, layout, world, 1),
        Machine::AArch64 => place_code::<ElfAArch64, Alone>(&Alone, alloc, layout, world, 1),
    }
}

/// Writes the memory of the layout, as the bytes of its loaded segments.
pub(crate) fn write_memory(
    alloc: Global,
    layout: &Layout,
    world: &World,
    out: &mut [u8],
    fault: &mut CFault,
    load_fault: &mut CLoadFault,
) -> u32
    ensures status { IsAnswer result (memory_status (layout_memory layout.now world.now) (length out.old)) }
    ensures memory { result ≡ written → HasMemory (layout_memory layout.now world.now) out.new }
    ensures fault { result ≡ refused → SaysFault fault.new (layout_memory layout.now world.now) }
    ensures load_fault { result ≡ not_placed → SaysLoadFault load_fault.new (layout_memory layout.now world.now) }
    ensures out_unchanged { (result ≡ written → ⊥) → out.new ≡ out.old }
    ensures fault_unchanged { (result ≡ refused → ⊥) → fault.new ≡ fault.old }
    ensures load_fault_unchanged { (result ≡ not_placed → ⊥) → load_fault.new ≡ load_fault.old }
{
    let memory = match placed(alloc, layout, world) {
        Ok(memory) => memory,
        Err(PlaceFault::Write(error)) => {
            *fault = fault_of(error);
            return REFUSED;
        }
        Err(PlaceFault::Load(reason)) => {
            *load_fault = load_fault_of(reason);
            return NOT_PLACED;
        }
        Err(_) => return NO_MEMORY,
    };
    let Ok(bytes) = bytes_of_runs(alloc, memory.runs.as_slice()) else {
        return NO_MEMORY;
    };
    if out.len() != bytes.len() {
        return WRONG_SIZE;
    }
    out.copy_from_slice(&bytes);
    WRITTEN
}
