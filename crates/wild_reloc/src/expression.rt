//! The expression of a kind of relocation, as a term, what is subtracted from it, and a class.
ghost use Rattle.std.specs.Prelude.{◌≡◌};
ghost use Rattle.wild_reloc.specs.Expression.{paged, subtrahend_of, expression_of};

use crate::info::{PageMask, RelocationKind, RelocationKindInfo};

/// The contents of a GOT entry.
#[derive(Clone, Copy)]
pub enum SlotSort {
    /// The symbol's address.
    Address,
    /// The pair of the symbol's module ID and its offset there.
    TlsGd,
    /// The pair of the output's own module.
    TlsLd,
    /// The symbol's offset from the thread pointer.
    TpOff,
    /// The symbol's TLS descriptor.
    TlsDesc,
}

/// The term to which A is added.
#[derive(Clone, Copy)]
pub enum Term {
    /// No value.
    Nothing,
    /// S, the symbol's address.
    Symbol,
    /// L, the address of its PLT stub.
    Stub,
    /// G, the address of its GOT entry with these contents.
    Slot(SlotSort),
    /// GOT, the base of the GOT.
    GotBase,
    /// Z, the symbol's size.
    Size,
    /// Its offset from the thread pointer.
    PointerOffset,
    /// Its offset in its module's TLS block.
    ModuleOffset,
}

/// What is subtracted from the sum.
#[derive(Clone, Copy)]
pub enum Subtrahend {
    /// Nothing.
    Nothing,
    /// P, the place.
    Place,
    /// GOT, the base of the GOT.
    GotBase,
    /// Page(P), from the page of the sum.
    PageOfPlace,
    /// Page(GOT), from the sum itself.
    PageOfGot,
}

/// How a relocation is treated, as far as its expression decides.
#[derive(Clone, Copy)]
pub enum Class {
    /// Nothing is written.
    Nothing,
    /// Nothing is written, but a symbol is required: the call through a TLS descriptor.
    Mark,
    /// The value is written; no symbol is needed.
    Free,
    /// The value is written; a symbol is required.
    Plain,
    /// The value is an address.
    Address,
    /// The value is the distance from the place to an address.
    Distance,
    /// The value is an offset from the thread pointer.
    Pointer,
    /// The value is a size.
    Extent,
    /// The value is an address, and the field has only its offset in its page.
    Part,
}

/// An expression: term + A - subtrahend.
#[derive(Clone, Copy)]
pub struct Expression {
    /// The term to which A is added.
    pub term: Term,
    /// What is subtracted from the sum.
    pub subtrahend: Subtrahend,
    /// How it is treated.
    pub class: Class,
}

impl RelocationKind {
    /// The expression of the kind.
    #[inline]
    pub fn expression(self) -> Expression
        ensures { result ≡ expression_of self }
    {
        let (term, subtrahend, class) = match self {
            RelocationKind::None => (Term::Nothing, Subtrahend::Nothing, Class::Nothing),
            RelocationKind::Absolute => (Term::Symbol, Subtrahend::Nothing, Class::Address),
            RelocationKind::AbsoluteLowPart => (Term::Symbol, Subtrahend::Nothing, Class::Part),
            RelocationKind::Relative => (Term::Symbol, Subtrahend::Place, Class::Distance),
            RelocationKind::SymRelGotBase => (Term::Symbol, Subtrahend::GotBase, Class::Plain),
            RelocationKind::PltRelative => (Term::Stub, Subtrahend::Place, Class::Plain),
            RelocationKind::PltRelGotBase => (Term::Stub, Subtrahend::GotBase, Class::Plain),
            RelocationKind::GotBaseRelative => (Term::GotBase, Subtrahend::Place, Class::Free),
            RelocationKind::Got => (
                Term::Slot(SlotSort::Address),
                Subtrahend::Nothing,
                Class::Part,
            ),
            RelocationKind::GotRelative => (
                Term::Slot(SlotSort::Address),
                Subtrahend::Place,
                Class::Plain,
            ),
            RelocationKind::GotRelGotBase => (
                Term::Slot(SlotSort::Address),
                Subtrahend::GotBase,
                Class::Plain,
            ),
            RelocationKind::TlsGd => (Term::Slot(SlotSort::TlsGd), Subtrahend::Place, Class::Plain),
            RelocationKind::TlsGdGot => (
                Term::Slot(SlotSort::TlsGd),
                Subtrahend::Nothing,
                Class::Part,
            ),
            RelocationKind::TlsLd => (Term::Slot(SlotSort::TlsLd), Subtrahend::Place, Class::Plain),
            RelocationKind::DtpOff => (Term::ModuleOffset, Subtrahend::Nothing, Class::Plain),
            RelocationKind::GotTpOff => (
                Term::Slot(SlotSort::TpOff),
                Subtrahend::Place,
                Class::Plain,
            ),
            RelocationKind::GotTpOffGot => (
                Term::Slot(SlotSort::TpOff),
                Subtrahend::Nothing,
                Class::Part,
            ),
            RelocationKind::TpOff => (Term::PointerOffset, Subtrahend::Nothing, Class::Pointer),
            RelocationKind::TlsDesc => (
                Term::Slot(SlotSort::TlsDesc),
                Subtrahend::Place,
                Class::Plain,
            ),
            RelocationKind::TlsDescGot => (
                Term::Slot(SlotSort::TlsDesc),
                Subtrahend::Nothing,
                Class::Part,
            ),
            RelocationKind::TlsDescCall => (Term::Nothing, Subtrahend::Nothing, Class::Mark),
            RelocationKind::SymbolSize => (Term::Size, Subtrahend::Nothing, Class::Extent),
        };
        Expression {
            term,
            subtrahend,
            class,
        }
    }
}

/// What is subtracted if the row replaces terms by their pages.
#[inline]
fn paged(mask: Option<PageMask>, subtrahend: Subtrahend) -> Subtrahend
    ensures { result ≡ paged mask subtrahend }
{
    match mask {
        None => subtrahend,
        Some(PageMask::GotBase) => Subtrahend::PageOfGot,
        Some(_) => Subtrahend::PageOfPlace,
    }
}

impl RelocationKindInfo {
    /// What the row subtracts from the sum.
    #[inline]
    pub fn subtrahend(&self) -> Subtrahend
        ensures { result ≡ subtrahend_of self.now.kind self.now.mask }
    {
        paged(self.mask, self.kind.expression().subtrahend)
    }
}
