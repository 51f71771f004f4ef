//! Clause 14: a symbol's flags agree with its slots and its stub.
ghost use Rattle.std.specs.Prelude.{◌≡◌};
ghost use Rattle.wild_types.specs.SymbolSlots.{got_of, plt_of, has_dynamic_symbol, has_thread_slot};
ghost use Rattle.wild_plan_rules.specs.SlotFlags.{is_tested, first_tested_failing, dynamic_is_interposable, is_value, stub_is_value, stub_has_slot, one_slot_for_address, thread_slot_alone, resolver_is_own, slot_agrees, resolver_moves, takes_block_word, second_slot_fits, is_plain, agrees_in_all};
ghost use Rattle.wild_clauses.specs.Survey.{is_simple, are_simple};
ghost use Rattle.wild_plan_rules.specs.ClauseTests.{check_slot_flags};

use crate::verdict::fails;
use wild_needs::dynsym_of;
use wild_types::{
    Clause, Layout, Resolution, Symbol, SymbolIndex, Test, ValueFlags, all_pass, got_of,
    has_dynamic_symbol, has_thread_slot, plt_of,
};

/// A symbol that a loader looks up is interposable.
struct DynamicIsInterposable;

impl Test<Symbol> for DynamicIsInterposable {
    ghost test = { λ t. dynamic_is_interposable };

    fn passes(&self, symbol: &Symbol) -> bool {
        !symbol.flags.is_dynamic() || symbol.flags.is_interposable()
    }
}

/// Whether the stub, if there is one, is the symbol's canonical address.
fn is_value(resolution: Option<Resolution>) -> bool
    ensures { result ≡ is_value resolution }
{
    match resolution {
        Some(resolution) => match resolution.plt_address {
            Some(stub) => resolution.raw_value == stub,
            None => true,
        },
        None => true,
    }
}

/// The stub of a symbol that a loader looks up is its canonical address.
struct StubIsValue;

impl Test<Symbol> for StubIsValue {
    ghost test = { λ t. stub_is_value };

    fn passes(&self, symbol: &Symbol) -> bool {
        !symbol.flags.is_dynamic()
            || symbol.flags.needs_copy_relocation()
            || is_value(symbol.resolution)
    }
}

/// A stub has a slot.
struct StubHasSlot;

impl Test<Symbol> for StubHasSlot {
    ghost test = { λ t. stub_has_slot };

    fn passes(&self, symbol: &Symbol) -> bool {
        plt_of(symbol).is_none() || got_of(symbol).is_some()
    }
}

/// A symbol has one slot for its address.
struct OneSlotForAddress;

impl Test<Symbol> for OneSlotForAddress {
    ghost test = { λ t. one_slot_for_address };

    fn passes(&self, symbol: &Symbol) -> bool {
        !symbol.flags.needs_ifunc_got_for_address()
            || !symbol.flags.needs_canonical_plt_got_for_address()
    }
}

/// A thread-local symbol has no resolver and no stub.
struct ThreadSlotAlone;

impl Test<Symbol> for ThreadSlotAlone {
    ghost test = { λ t. thread_slot_alone };

    fn passes(&self, symbol: &Symbol) -> bool {
        !has_thread_slot(symbol.flags) || !symbol.flags.is_ifunc() && plt_of(symbol).is_none()
    }
}

/// A resolver is the output's own symbol.
struct ResolverIsOwn;

impl Test<Symbol> for ResolverIsOwn {
    ghost test = { λ t. resolver_is_own };

    fn passes(&self, symbol: &Symbol) -> bool {
        !symbol.flags.is_ifunc() || !symbol.flags.is_dynamic()
    }
}

/// There is a slot exactly if the flags require one, either for an address or for a thread-local symbol.
struct SlotAgrees;

impl Test<Symbol> for SlotAgrees {
    ghost test = { λ t. slot_agrees };

    fn passes(&self, symbol: &Symbol) -> bool {
        let for_address = symbol.flags.needs_got();
        let for_thread = has_thread_slot(symbol.flags);
        got_of(symbol).is_some() == (for_address || for_thread) && (!for_address || !for_thread)
    }
}

/// The address of a resolver is not absolute.
struct ResolverMoves;

impl Test<Symbol> for ResolverMoves {
    ghost test = { λ t. resolver_moves };

    fn passes(&self, symbol: &Symbol) -> bool {
        !symbol.flags.is_ifunc() || !symbol.flags.is_absolute()
    }
}

/// Whether the symbol's slot is in the block of slots that RELR relocates.
fn takes_block_word(layout: &Layout, symbol: &Symbol) -> bool
    ensures { result ≡ takes_block_word layout.now symbol.now }
{
    let flags = symbol.flags;
    got_of(symbol).is_some()
        && !has_thread_slot(flags)
        && !flags.needs_canonical_plt()
        && !has_dynamic_symbol(flags)
        && !flags.is_ifunc()
        && layout.options.relr
        && layout.kind.is_position_independent()
        && flags.has_link_time_address()
}

/// A symbol with a second slot for its address has no slot in the block.
#[derive(Clone, Copy)]
struct SecondSlotFits<'a> {
    layout: &'a Layout,
}

impl Test<Symbol> for SecondSlotFits<'_> {
    ghost test = { λ t. second_slot_fits t.layout.now };

    fn passes(&self, symbol: &Symbol) -> bool {
        !symbol.flags.needs_ifunc_got_for_address()
            && !symbol.flags.needs_canonical_plt_got_for_address()
            || !takes_block_word(self.layout, symbol)
    }
}

/// Whether a symbol has no slot and no stub, and no flag that requires one. It passes all tests.
fn is_plain(symbol: &Symbol) -> bool
    ensures { result ≡ is_plain symbol.now }
{
    let flags = symbol.flags;
    !flags.is_dynamic()
        && !flags.is_ifunc()
        && !flags.needs_got()
        && !has_thread_slot(flags)
        && !flags.needs_ifunc_got_for_address()
        && !flags.needs_canonical_plt_got_for_address()
        && got_of(symbol).is_none()
        && plt_of(symbol).is_none()
}

/// A symbol passes each of these tests.
#[derive(Clone, Copy)]
struct AgreesInAll<'a> {
    layout: &'a Layout,
}

impl Test<Symbol> for AgreesInAll<'_> {
    ghost test = { λ t. agrees_in_all t.layout.now };

    #[tactic(auto, using(crate::proofs::FlagLemmas::plain_agrees))]
    fn passes(&self, symbol: &Symbol) -> bool {
        if is_plain(symbol) {
            return true;
        }
        let layout = self.layout;
        DynamicIsInterposable.passes(symbol)
            && StubIsValue.passes(symbol)
            && StubHasSlot.passes(symbol)
            && OneSlotForAddress.passes(symbol)
            && ThreadSlotAlone.passes(symbol)
            && ResolverIsOwn.passes(symbol)
            && SlotAgrees.passes(symbol)
            && ResolverMoves.passes(symbol)
            && SecondSlotFits { layout }.passes(symbol)
    }
}

/// Whether the symbol of that number is tested: no other symbol defines it, or it has a resolution of its own.
fn is_tested(layout: &Layout, number: usize, symbol: &Symbol) -> bool
    ensures { result ≡ is_tested layout.now number symbol.now }
{
    layout.canonical(SymbolIndex(number)).0 == number || symbol.resolution.is_some()
}

/// The place of the first tested symbol that fails the test.
fn first_tested_failing<C: Test<Symbol>>(layout: &Layout, test: &C) -> Option<usize>
    ensures { result ≡ first_tested_failing layout.now (C.test test.now) 0 layout.now.symbols }
{
    for (i, symbol) in layout.symbols.as_slice().iter().enumerate() {
        if !test.passes(symbol) && is_tested(layout, i, symbol) {
            return Some(i);
        }
    }
    None
}

/// A plain symbol has no index of the dynamic symbol table.
struct IsSimple;

impl Test<Symbol> for IsSimple {
    ghost test = { λ t. is_simple };

    fn passes(&self, symbol: &Symbol) -> bool {
        is_plain(symbol) && dynsym_of(symbol).is_none()
    }
}

/// Whether all symbols are plain and have none.
#[tactic(auto, unfolding(crate::specs::Survey::are_simple))]
pub(crate) fn are_simple(layout: &Layout) -> bool
    ensures { result ≡ are_simple layout.now.symbols }
{
    all_pass(&IsSimple, layout.symbols.as_slice())
}

/// The tests run one by one only if a symbol fails one of them, and none runs if all symbols are simple.
#[tactic(auto, using(crate::proofs::FlagLemmas::flags_agree, crate::proofs::SimpleLemmas::simple_agree), unfolding(wild_plan_rules::specs::ClauseTests::check_slot_flags))]
pub(crate) fn check_slot_flags(layout: &Layout, simple: bool) -> Result<(), Clause>
    requires { simple ≡ are_simple layout.now.symbols }
    ensures { result ≡ check_slot_flags layout.now }
{
    if simple {
        return Ok(());
    }
    if first_tested_failing(layout, &AgreesInAll { layout }).is_none() {
        return Ok(());
    }
    fails(14, first_tested_failing(layout, &DynamicIsInterposable))?;
    fails(14, first_tested_failing(layout, &StubIsValue))?;
    fails(14, first_tested_failing(layout, &StubHasSlot))?;
    fails(14, first_tested_failing(layout, &OneSlotForAddress))?;
    fails(14, first_tested_failing(layout, &ThreadSlotAlone))?;
    fails(14, first_tested_failing(layout, &ResolverIsOwn))?;
    fails(14, first_tested_failing(layout, &SlotAgrees))?;
    fails(14, first_tested_failing(layout, &ResolverMoves))?;
    fails(14, first_tested_failing(layout, &SecondSlotFits { layout }))
}
