//! What symbolic loading knows of the world.
ghost use Rattle.std.specs.Prelude.{◌≡◌, ◌==◌};
ghost use Rattle.std.specs.List.{list_any};
ghost use Rattle.std.specs.List.Sorted.{IsNonDecreasing};
ghost use Rattle.wild_loader.specs.Outcome.{Gives};
ghost use Rattle.wild_terms.specs.Outline.{HasSortedResolvers, has_resolver, based, own_module, own_distance, answer_for, module_of, thread_offset_of, resolver_term, module_term, thread_offset_term, addend_of, change_terms};

use crate::term::{Atom, Term};
use wild_loader::{DynamicKind, LoadFault};
use wild_records::Rela;
use wild_words::Items;

/// What is known of the answer for a dynamic symbol.
#[derive(Clone, Copy)]
pub enum KnownAnswer {
    /// Nothing: another module may define the symbol.
    Foreign,
    /// The image's own definition: its address, its offset in the own thread-local data, and its size.
    Own {
        address: Term,
        offset: u64,
        size: u64,
    },
}

/// What symbolic loading knows of the world.
#[derive(Drop)]
pub struct Outline {
    /// Whether the base may differ from 0.
    pub movable: bool,
    /// For an executable, the distance of its thread-local data from the thread pointer.
    pub program: Option<u64>,
    /// What is known of each dynamic symbol's answer, by its index.
    pub symbols: Items<KnownAnswer>,
    /// The addresses of resolvers, without the base, in ascending order.
    pub resolvers: Items<u64>,
}

/// A change that an entry makes at its place, as terms.
#[derive(Clone, Copy)]
pub enum TermChange {
    /// Eight bytes are set to this word.
    Word(Term),
    /// Four bytes are set to the low half of this word.
    Half(Term),
    /// A thread-local descriptor of 16 bytes is noted with this offset; its bytes are unchanged.
    Descriptor(Term),
}

impl KnownAnswer {
    ghost use Rattle.std.specs.Prelude.{◌≡◌};
    ghost use Rattle.wild_terms.specs.Outline.{address_of, offset_of, size_of};

    /// The address in the answer with that index.
    pub fn address(self, index: u32) -> Term
        ensures { result ≡ address_of index self }
    {
        match self {
            KnownAnswer::Foreign => Term::atom(Atom::Address(index)),
            KnownAnswer::Own { address, .. } => address,
        }
    }

    /// The offset in thread-local data in the answer with that index.
    pub fn offset(self, index: u32) -> Term
        ensures { result ≡ offset_of index self }
    {
        match self {
            KnownAnswer::Foreign => Term::atom(Atom::Offset(index)),
            KnownAnswer::Own { offset, .. } => Term::number(offset),
        }
    }

    /// The size in the answer with that index.
    pub fn size(self, index: u32) -> Term
        ensures { result ≡ size_of index self }
    {
        match self {
            KnownAnswer::Foreign => Term::atom(Atom::Size(index)),
            KnownAnswer::Own { size, .. } => Term::number(size),
        }
    }
}

/// An entry's addend, modulo 2^64.
fn addend(entry: &Rela) -> u64
    ensures { result ≡ addend_of entry.now }
{
    entry.addend.cast_unsigned()
}

/// Whether a number is among ascending ones.
fn contains(numbers: &[u64], n: u64) -> bool
    requires { IsNonDecreasing numbers.now }
    ensures { result ≡ list_any (λ r. r == n) numbers.now }
{
    match numbers.binary_search(&n) {
        Ok(_) => true,
        Err(_) => false,
    }
}

impl Outline {
    ghost use Rattle.std.specs.Prelude.{◌≡◌};
    ghost use Rattle.wild_loader.specs.Outcome.{Gives};
    ghost use Rattle.wild_terms.specs.Outline.{HasSortedResolvers, has_resolver, based, own_module, own_distance, answer_for, module_of, thread_offset_of, resolver_term, module_term, thread_offset_term, change_terms};

    /// The base plus a number.
    pub fn based(&self, n: u64) -> Term
        ensures { result ≡ based self.now n }
    {
        if self.movable {
            Term {
                atom: Atom::Base,
                plus: n,
            }
        } else {
            Term::number(n)
        }
    }

    /// The image's own module; an executable is module 1.
    pub fn own_module(&self) -> Term
        ensures { result ≡ own_module self.now }
    {
        match self.program {
            Some(_) => Term::number(1),
            None => Term::atom(Atom::OwnModule),
        }
    }

    /// The distance of the own thread-local data from the thread pointer.
    pub fn own_distance(&self) -> Term
        ensures { result ≡ own_distance self.now }
    {
        match self.program {
            Some(distance) => Term::number(distance),
            None => Term::atom(Atom::OwnDistance),
        }
    }

    /// What is known of the answer for a dynamic symbol.
    fn answer(&self, index: u32) -> Result<KnownAnswer, LoadFault>
        ensures { Gives result (answer_for self.now index) }
    {
        match self.symbols.as_slice().get(index as usize) {
            Some(answer) => Ok(*answer),
            None => Err(LoadFault::UnknownSymbol { index }),
        }
    }

    /// The module in the answer with that index.
    pub fn module(&self, index: u32, answer: KnownAnswer) -> Term
        ensures { result ≡ module_of self.now index answer }
    {
        match answer {
            KnownAnswer::Foreign => Term::atom(Atom::Module(index)),
            KnownAnswer::Own { .. } => self.own_module(),
        }
    }

    /// The offset from the thread pointer in the answer with that index.
    pub fn thread_offset(&self, index: u32, answer: KnownAnswer) -> Term
        ensures { result ≡ thread_offset_of self.now index answer }
    {
        match answer {
            KnownAnswer::Foreign => Term::atom(Atom::ThreadOffset(index)),
            KnownAnswer::Own { offset, .. } => self.own_distance().plus(offset),
        }
    }

    /// Whether a resolver is at the base plus a number.
    fn has_resolver(&self, n: u64) -> bool
        requires { HasSortedResolvers self.now }
        ensures { result ≡ has_resolver self.now n }
    {
        contains(self.resolvers.as_slice(), n)
    }

    /// The answer of the resolver at the base plus a number.
    fn resolver(&self, n: u64) -> Result<Term, LoadFault>
        requires { HasSortedResolvers self.now }
        ensures { Gives result (resolver_term self.now n) }
    {
        if self.has_resolver(n) {
            Ok(Term::atom(Atom::Resolver(n)))
        } else {
            Err(LoadFault::NoAnswer { value: n })
        }
    }

    /// The module of a dynamic symbol; for symbol 0 the own module.
    fn module_at(&self, index: u32) -> Result<Term, LoadFault>
        ensures { Gives result (module_term self.now index) }
    {
        if index == 0 {
            return Ok(self.own_module());
        }
        Ok(self.module(index, self.answer(index)?))
    }

    /// The offset of a dynamic symbol from the thread pointer; for symbol 0 that of the own data.
    fn thread_offset_at(&self, index: u32) -> Result<Term, LoadFault>
        ensures { Gives result (thread_offset_term self.now index) }
    {
        if index == 0 {
            return Ok(self.own_distance());
        }
        Ok(self.thread_offset(index, self.answer(index)?))
    }

    /// The change of an entry of a kind. Copies are not followed.
    #[tactic(auto, unfolding(crate::specs::Outline::change_terms))]
    pub(crate) fn change(&self, kind: DynamicKind, entry: &Rela) -> Result<TermChange, LoadFault>
        requires { HasSortedResolvers self.now }
        ensures { Gives result (change_terms self.now kind entry.now) }
    {
        let index = entry.symbol;
        let a = addend(entry);
        match kind {
            DynamicKind::Relative => Ok(TermChange::Word(self.based(a))),
            DynamicKind::Symbol => Ok(TermChange::Word(self.answer(index)?.address(index))),
            DynamicKind::SymbolPlus => {
                Ok(TermChange::Word(self.answer(index)?.address(index).plus(a)))
            }
            DynamicKind::Resolved => Ok(TermChange::Word(self.resolver(a)?)),
            DynamicKind::Module => Ok(TermChange::Word(self.module_at(index)?)),
            DynamicKind::ModuleOffset => {
                Ok(TermChange::Word(self.answer(index)?.offset(index).plus(a)))
            }
            DynamicKind::ThreadOffset => {
                Ok(TermChange::Word(self.thread_offset_at(index)?.plus(a)))
            }
            DynamicKind::Descriptor => {
                Ok(TermChange::Descriptor(self.thread_offset_at(index)?.plus(a)))
            }
            DynamicKind::Copy => Err(LoadFault::Overlap {
                address: entry.offset,
            }),
            DynamicKind::Size32 => Ok(TermChange::Half(self.answer(index)?.size(index).plus(a))),
            DynamicKind::Size64 => Ok(TermChange::Word(self.answer(index)?.size(index).plus(a))),
        }
    }
}
