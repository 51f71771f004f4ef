//! Warnings about an image that is written nevertheless.
use crate::index::SymbolIndex;

/// The entry point is a symbol without an address. Symbols are indexes into the list of symbols.
#[derive(Clone, Copy, Debug, PartialEq, Eq)]
pub enum EntryWarning {
    /// Execution begins at the start of `.text` instead.
    Defaulted { symbol: SymbolIndex, address: u64 },
    /// `.text` is empty, so the image has no entry point.
    EmptyText { symbol: SymbolIndex },
}
