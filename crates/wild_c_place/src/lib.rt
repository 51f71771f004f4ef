//! The memory of a layout in a world for C: a static library with one function, which a just-in-time compiler calls. `c/wild.h` declares
//! it.
#![tactic(auto)]

ghost use Rattle.std.specs.Prelude.{◌≡◌, ◌⊎◌, length};
ghost use Rattle.wild_meaning.specs.World.{IsLoadable, IsLegal};
ghost use Rattle.wild_c_layout.specs.LayoutOf.{layout_of};
ghost use Rattle.wild_c_place.specs.Answers.{IsAnswer, place_status, struct_memory, HasMemory, SaysFault, SaysLoadFault, IsSoundMemory, written, refused, not_placed};
ghost use Rattle.wild_c_place.specs.WorldOf.{world_of};

mod load_fault;
mod memory;
mod world;

pub use load_fault::CLoadFault;
use std::alloc::Global;
use wild_c_layout::{
    CFault, CLayout, Decode, decode_layout, is_layout, resolutions_have_their_flags,
};
use wild_layout::numbers_fit;
use wild_placer::placements_are_sound;
pub use world::{CAnswer, CModule, CResolver, CWorld};

/// The memory was written.
const WRITTEN: u32 = 0;

/// The layout has a fault.
const REFUSED: u32 = 1;

/// The structs represent no layout.
const NO_LAYOUT: u32 = 3;

/// Out of memory.
const NO_MEMORY: u32 = 6;

/// The size of the buffer is not that of the memory.
const WRONG_SIZE: u32 = 8;

/// The loader does not load the image.
const NOT_PLACED: u32 = 10;

/// Writes the memory of the layout in the world into `out`: the bytes of its loaded segments, one after another. The status is
/// - 0: they were written;
/// - 1: the layout has faults; `fault` is the first of them;
/// - 3: the structs represent no layout;
/// - 6: out of memory;
/// - 8: `out` has not the size of the memory;
/// - 10: the loader does not load the image; `load_fault` says why.
///
/// Only status 0 changes `out`, only status 1 changes `fault`, and only status 10 changes `load_fault`.
#[unsafe(no_mangle)]
pub extern "C" fn wild_place(
    alloc: Global,
    layout: &CLayout,
    world: &CWorld,
    out: &mut [u8],
    fault: &mut CFault,
    load_fault: &mut CLoadFault,
) -> u32
    ensures status { IsAnswer result (place_status layout.now world.now (length out.old)) }
    ensures memory { result ≡ written → HasMemory (struct_memory layout.now world.now) out.new }
    ensures fault { result ≡ refused → SaysFault fault.new (struct_memory layout.now world.now) }
    ensures load_fault { result ≡ not_placed → SaysLoadFault load_fault.new (struct_memory layout.now world.now) }
    ensures out_unchanged { (result ≡ written → ⊥) → out.new ≡ out.old }
    ensures fault_unchanged { (result ≡ refused → ⊥) → fault.new ≡ fault.old }
    ensures load_fault_unchanged { (result ≡ not_placed → ⊥) → load_fault.new ≡ load_fault.old }
    // In a legal world each kept reference of an executable or a shared object has the value or target that its relocation requires.
    ensures headline { result ≡ written → IsLoadable (layout_of layout.now).kind → IsLegal (layout_of layout.now) (world_of world.now)
        → IsSoundMemory (layout_of layout.now) (world_of world.now) out.new }
{
    if !is_layout(layout) {
        return NO_LAYOUT;
    }
    let Ok(decoded) = decode_layout(alloc, layout) else {
        return NO_MEMORY;
    };
    let Ok(place) = world.decode(alloc) else {
        return NO_MEMORY;
    };
    numbers_fit(&decoded);
    resolutions_have_their_flags();
    placements_are_sound();
    memory::write_memory(alloc, &decoded, &place, out, fault, load_fault)
}
