//! The properties of a relocation on which rewrite rows depend.
ghost use Rattle.std.specs.Prelude.{◌≡◌, ◌+◌, slice_get};
ghost use Rattle.wild_relax.specs.Question.{question, relocation_of, next_of, is_known, is_own, minus_four, zero};

use wild_reloc::RelocationKindInfo;
use wild_types::{OutputKind, ValueFlags};

/// A relocation of an input section.
#[derive(Clone, Copy)]
pub struct RelocationInfo {
    /// The relocation type of the machine.
    pub number: u32,
    /// The offset of its field in the section, in bytes.
    pub offset: u64,
    /// The index of its symbol.
    pub symbol: Option<usize>,
    pub addend: i64,
    /// Whether the symbol's name is `__tls_get_addr`.
    pub names_tls_get_addr: bool,
}

/// A row applies to a relocation, but the bytes or the next relocation are not those that it needs.
#[derive(Clone, Copy)]
pub struct UnknownSequence {
    /// The relocation type of the input.
    pub number: u32,
    /// How the row's field would have been written.
    pub written: RelocationKindInfo,
}

/// A relocation that does nothing.
pub const NO_RELOCATION: RelocationInfo = RelocationInfo {
    number: 0,
    offset: 0,
    symbol: None,
    addend: 0,
    names_tls_get_addr: false,
};

/// A relocation, with all the properties that rows depend on. Relocations to merged strings are not rewritten, because their
/// symbol's value differs for each addend.
#[derive(Clone, Copy)]
pub struct Reference<'a> {
    /// Relocations of the section, including this one and the one after it.
    pub relocations: &'a [RelocationInfo],
    /// Its index in that list.
    pub at: usize,
    /// The section's bytes as in the input, never rewritten ones.
    pub bytes: &'a [u8],
    /// The symbol's flags.
    pub flags: ValueFlags,
    /// The kind of output.
    pub kind: OutputKind,
    /// The section's `sh_flags`.
    pub section_flags: u64,
    /// Whether instructions are rewritten.
    pub relax: bool,
    /// The symbol's address, if it has one.
    pub value: Option<u64>,
    /// The section's address.
    pub address: u64,
}

impl Reference<'_> {
    // The relocation; if there is none, a relocation that does nothing.
    pub(crate) fn relocation(&self) -> RelocationInfo
        ensures { result ≡ relocation_of (question self.now) }
    {
        match self.relocations.get(self.at) {
            Some(relocation) => *relocation,
            None => NO_RELOCATION,
        }
    }

    // The relocation after it.
    pub(crate) fn next(&self) -> Option<RelocationInfo>
        ensures { result ≡ next_of (question self.now) }
    {
        let next = self.at.checked_add(1)?;
        self.relocations.get(next).copied()
    }

    // Whether the value is known at link time.
    pub(crate) fn is_known(&self) -> bool
        ensures { result ≡ is_known (question self.now) }
    {
        self.flags.is_absolute()
            || self.flags.has_link_time_address() && self.kind.has_fixed_load_address()
    }

    // Whether the symbol is not interposable: this output's definition is used.
    pub(crate) fn is_own(&self) -> bool
        ensures { result ≡ is_own (question self.now) }
    {
        !self.flags.is_interposable()
    }
}

// Whether an addend is -4: the distance is relative to the end of the four-byte field.
#[tactic(auto, unfolding(crate::specs::Question::minus_four))]
pub(crate) fn is_minus_four(addend: i64) -> bool
    ensures { result ≡ minus_four addend }
{
    addend == -4
}

// Whether an addend is 0.
#[tactic(auto, unfolding(crate::specs::Question::zero))]
pub(crate) fn is_zero(addend: i64) -> bool
    ensures { result ≡ zero addend }
{
    addend == 0
}
