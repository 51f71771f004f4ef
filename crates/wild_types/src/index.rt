//! Indexes of output sections and of symbols. Contracts see both as plain numbers; in code they are distinct types.
use std::marker::Model;

/// A header index: the index of an output section in the section header table (gABI, "Section Header"). 0, `SHN_UNDEF`,
/// is no section.
#[derive(Clone, Copy, Debug, PartialEq, Eq)]
pub struct SectionIndex(pub usize);

impl Model for SectionIndex {
    ghost use Rattle.std.specs.Prelude.{ℕ};

    ghost Value = { ℕ };

    ghost view = { λ index. index.0 };

    ghost inverse = { λ number. record { 0 = number } };
}

/// The index of a symbol in the layout's list of symbols.
#[derive(Clone, Copy, Debug, PartialEq, Eq)]
pub struct SymbolIndex(pub usize);

impl Model for SymbolIndex {
    ghost use Rattle.std.specs.Prelude.{ℕ};

    ghost Value = { ℕ };

    ghost view = { λ index. index.0 };

    ghost inverse = { λ number. record { 0 = number } };
}
