//! Numbers that depend on the world, as terms.
ghost use Rattle.std.specs.Prelude.{◌≡◌};
ghost use Rattle.wild_terms.specs.Terms.{same_atom};

/// The part of a term that the world determines.
#[derive(Clone, Copy, PartialEq, Eq)]
pub enum Atom {
    /// 0.
    Zero,
    /// The base.
    Base,
    /// The address in the answer for a dynamic symbol.
    Address(u32),
    /// The module in that answer.
    Module(u32),
    /// The offset in that module's thread-local data.
    Offset(u32),
    /// The distance of that module's thread-local data from the thread pointer, plus that offset.
    ThreadOffset(u32),
    /// The size in that answer.
    Size(u32),
    /// The image's own module.
    OwnModule,
    /// The distance of the own module's thread-local data from the thread pointer.
    OwnDistance,
    /// The answer of the resolver at the base plus this number.
    Resolver(u64),
}

/// An atom plus a number, modulo 2^64.
#[derive(Clone, Copy, PartialEq, Eq)]
pub struct Term {
    /// The part that the world determines.
    pub atom: Atom,
    /// The number that is added.
    pub plus: u64,
}

/// Whether two atoms are the same.
fn is_same(a: Atom, b: Atom) -> bool
    ensures { result ≡ same_atom a b }
{
    match (a, b) {
        (Atom::Zero, Atom::Zero) => true,
        (Atom::Base, Atom::Base) => true,
        (Atom::Address(i), Atom::Address(j)) => i == j,
        (Atom::Module(i), Atom::Module(j)) => i == j,
        (Atom::Offset(i), Atom::Offset(j)) => i == j,
        (Atom::ThreadOffset(i), Atom::ThreadOffset(j)) => i == j,
        (Atom::Size(i), Atom::Size(j)) => i == j,
        (Atom::OwnModule, Atom::OwnModule) => true,
        (Atom::OwnDistance, Atom::OwnDistance) => true,
        (Atom::Resolver(m), Atom::Resolver(n)) => m == n,
        _ => false,
    }
}

impl Term {
    ghost use Rattle.std.specs.Prelude.{◌≡◌};
    ghost use Rattle.wild_terms.specs.Terms.{number_term, atom_term, sum, difference, same_term};

    /// A number.
    pub fn number(n: u64) -> Term
        ensures { result ≡ number_term n }
    {
        Term {
            atom: Atom::Zero,
            plus: n,
        }
    }

    /// An atom.
    pub fn atom(atom: Atom) -> Term
        ensures { result ≡ atom_term atom }
    {
        Term { atom, plus: 0 }
    }

    /// The term plus a number.
    pub fn plus(self, n: u64) -> Term
        ensures { result ≡ sum self n }
    {
        Term {
            atom: self.atom,
            plus: self.plus.wrapping_add(n),
        }
    }

    /// The difference of two terms, if it is the same number in every world.
    pub fn minus(self, other: Term) -> Option<u64>
        ensures { result ≡ difference self other }
    {
        if is_same(self.atom, other.atom) {
            Some(self.plus.wrapping_sub(other.plus))
        } else {
            None
        }
    }

    /// Whether two terms have the same atom and the same number; then they are equal in every world.
    pub fn is(self, other: Term) -> bool
        ensures { result ≡ same_term self other }
    {
        is_same(self.atom, other.atom) && self.plus == other.plus
    }
}
