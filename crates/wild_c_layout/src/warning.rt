//! Warnings.
ghost use Rattle.std.specs.Prelude.{◌≡◌};
ghost use Rattle.wild_c_layout.specs.WarningOf.{warning_of};

use wild_types::EntryWarning;

/// A warning about an image that is written nevertheless: the entry point is a symbol without an address.
#[repr(C)]
#[derive(Clone, Copy)]
pub struct CWarning {
    /// 0: none. 1: execution begins at `address`, the start of `.text`. 2: `.text` is empty, so the image has no entry point.
    pub warning: u32,
    /// The index of the symbol.
    pub symbol: usize,
    pub address: u64,
}

/// The first of the warnings.
pub fn warning_of(warnings: &[EntryWarning]) -> CWarning
    ensures { result ≡ warning_of warnings.now }
{
    match warnings {
        [] => CWarning {
            warning: 0,
            symbol: 0,
            address: 0,
        },
        [EntryWarning::Defaulted { symbol, address }, ..] => CWarning {
            warning: 1,
            symbol: symbol.0,
            address: *address,
        },
        [EntryWarning::EmptyText { symbol }, ..] => CWarning {
            warning: 2,
            symbol: symbol.0,
            address: 0,
        },
    }
}
