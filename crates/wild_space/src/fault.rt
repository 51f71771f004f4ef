//! Why images are not bound to each other.
ghost use Rattle.std.specs.Prelude.{◌≡◌};
ghost use Rattle.wild_space.specs.Given.{load_fault};

use std::alloc::{AllocError, AllocFailed};
use wild_hashes::ImageFault;
use wild_loader::LoadFault;

/// Why images are not bound to each other. `image` is a place in the input.
#[derive(Clone, Copy, Drop)]
pub enum BindFault {
    /// The loader does not load the image, or does not find its entries.
    Load { image: usize, fault: LoadFault },
    /// A table of the image is not found, or the look-up of a name in it fails.
    LookUp { image: usize, fault: ImageFault },
    /// No image has the name in this `DT_NEEDED` entry; the entries of an image count from 0.
    Missing { image: usize, needed: usize },
    /// An image other than the first has a COPY entry for this dynamic symbol.
    CopyInLibrary { image: usize, index: u32 },
    /// No image defines this dynamic symbol, which is not weak; or no later image defines a copied symbol.
    Undefined { image: usize, index: u64 },
    /// The resolver at that address has no answer.
    NoAnswer { value: u64 },
    /// Segments of two images share the byte at that address; it is the lowest such address.
    Overlap { address: u64 },
    /// Out of memory.
    OutOfMemory,
}

impl From<AllocError> for BindFault {
    ghost use Rattle.std.specs.Prelude.{◌≡◌};
    ghost use Rattle.wild_space.specs.declared.fault.BindFault.TheVariants.{OutOfMemory};

    ghost from_gives = { λ _ e. e ≡ OutOfMemory };

    fn from(_: AllocError) -> BindFault {
        BindFault::OutOfMemory
    }
}

impl<T: Drop> From<AllocFailed<T>> for BindFault {
    ghost use Rattle.std.specs.Prelude.{◌≡◌};
    ghost use Rattle.wild_space.specs.declared.fault.BindFault.TheVariants.{OutOfMemory};

    ghost from_gives = { λ _ e. e ≡ OutOfMemory };

    fn from(_: AllocFailed<T>) -> BindFault {
        BindFault::OutOfMemory
    }
}

/// A fault of the loader at an image.
pub(crate) fn load_fault(image: usize, fault: LoadFault) -> BindFault
    ensures { result ≡ load_fault image fault }
{
    match fault {
        LoadFault::OutOfMemory => BindFault::OutOfMemory,
        fault => BindFault::Load { image, fault },
    }
}
