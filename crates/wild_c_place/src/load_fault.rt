//! Why an image is not loaded.
ghost use Rattle.std.specs.Prelude.{◌≡◌};
ghost use Rattle.wild_c_place.specs.LoadFaultOf.{numbered, load_fault_of};

use wild_loader::LoadFault;

/// Why an image is not loaded: the number of the fault, from 1 on, and what it has: an offset, a tag, a number, an index, a value or
/// an address. `docs/PLACER.md` lists the faults.
#[repr(C)]
#[derive(Clone, Copy)]
pub struct CLoadFault {
    pub fault: u32,
    pub value: u64,
}

fn numbered(fault: u32, value: u64) -> CLoadFault
    ensures { result ≡ numbered fault value }
{
    CLoadFault { fault, value }
}

/// The struct that says why an image is not loaded.
pub fn load_fault_of(fault: LoadFault) -> CLoadFault
    ensures { result ≡ load_fault_of fault }
{
    match fault {
        LoadFault::NotElf => numbered(1, 0),
        LoadFault::Cut { offset } => numbered(2, offset),
        LoadFault::NoTable { tag } => numbered(3, tag),
        LoadFault::UnknownDynamic { number } => numbered(4, u64::from(number)),
        LoadFault::UnknownSymbol { index } => numbered(5, u64::from(index)),
        LoadFault::NoAnswer { value } => numbered(6, value),
        LoadFault::Unloaded { address } => numbered(7, address),
        LoadFault::Wraps { address } => numbered(8, address),
        LoadFault::Overlap { address } => numbered(9, address),
        LoadFault::OutOfMemory => numbered(0, 0),
    }
}
