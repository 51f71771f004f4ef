//! What a layout says of the worlds in which its image may be loaded.
ghost use Rattle.std.specs.Prelude.{◌≡◌, ◌%◌, ◌^◌, replicate, IfOk};
ghost use Rattle.std.specs.List.{filter_map};
ghost use Rattle.std.specs.List.Sorted.{IsPermutation, IsNonDecreasing};
ghost use Rattle.wild_terms.specs.declared.outline.KnownAnswer.TheVariants.{Foreign};
ghost use Rattle.wild_checker.specs.Outline.{index_end, greatest_end, own_address, own_answer, is_own, with_answer, with_symbol, with_symbols, resolver_of, next_multiple, pointer_of, program_of, IsOutlineOf};

use crate::symbols::may_be_replaced;
use std::alloc::{AllocError, Global};
use wild_terms::{Atom, KnownAnswer, Outline, Term};
use wild_types::{Layout, Machine, Resolution, Symbol, SymbolIndex, Tls};
use wild_words::Items;

/// One more than the index of a symbol in the dynamic symbol table; 0 without one.
fn index_end(symbol: &Symbol) -> u64
    ensures { result ≡ index_end symbol.now }
{
    match &symbol.resolution {
        Some(resolution) => match resolution.dynamic_symbol_index {
            Some(index) => index.saturating_add(1),
            None => 0,
        },
        None => 0,
    }
}

/// The greatest of these numbers.
fn greatest_end(symbols: &[Symbol]) -> u64
    ensures { result ≡ greatest_end symbols.now }
{
    let mut greatest = 0;
    for symbol in symbols {
        greatest = index_end(symbol).max(greatest);
    }
    greatest
}

/// The address in the output of a symbol that is defined there.
fn own_address(layout: &Layout, symbol: &Symbol, address: u64) -> Term
    ensures { result ≡ own_address layout.now symbol.now address }
{
    if layout.kind.is_position_independent() && !symbol.flags.is_absolute() {
        Term {
            atom: Atom::Base,
            plus: address,
        }
    } else {
        Term::number(address)
    }
}

/// The answer for such a symbol.
fn own_answer(layout: &Layout, symbol: &Symbol, resolution: &Resolution) -> KnownAnswer
    ensures { result ≡ own_answer layout.now symbol.now resolution.now }
{
    let address = resolution.raw_value;
    KnownAnswer::Own {
        address: own_address(layout, symbol, address),
        offset: address.wrapping_sub(layout.tls.start),
        size: symbol.size,
    }
}

/// Whether a symbol is its own definition, no other module may define it, and it is no IFUNC.
fn is_own(layout: &Layout, index: usize, symbol: &Symbol) -> bool
    ensures { result ≡ is_own layout.now index symbol.now }
{
    layout.canonical(SymbolIndex(index)).0 == index
        && !may_be_replaced(layout.kind, symbol.flags)
        && !symbol.flags.is_ifunc()
}

/// Sets the answer with an index, if there is one.
fn set_answer(index: Option<u64>, answer: KnownAnswer, answers: &mut [KnownAnswer])
    ensures { answers.new ≡ with_answer index answer answers.old }
{
    if let Some(n) = index {
        if n < answers.len() as u64 {
            answers[n as usize] = answer;
        }
    }
}

/// Sets the answer for a symbol, if it is the output's own.
fn set_own_answer(layout: &Layout, index: usize, symbol: &Symbol, answers: &mut [KnownAnswer])
    ensures { answers.new ≡ with_symbol layout.now index symbol.now answers.old }
{
    if is_own(layout, index, symbol) {
        if let Some(resolution) = &symbol.resolution {
            let answer = own_answer(layout, symbol, resolution);
            set_answer(resolution.dynamic_symbol_index, answer, answers);
        }
    }
}

/// The answers for dynamic symbols as far as the layout fixes them, as many as `count`.
fn known_answers(
    alloc: Global,
    layout: &Layout,
    count: usize,
) -> Result<Items<KnownAnswer>, AllocError>
    ensures { IfOk result (λ answers. answers ≡ with_symbols layout.now 0 layout.now.symbols (replicate count Foreign)) }
{
    let mut answers = Vec::new(alloc);
    answers.resize(count, KnownAnswer::Foreign)?;
    for (i, symbol) in layout.symbols.as_slice().iter().enumerate() {
        set_own_answer(layout, i, symbol, answers.as_mut_slice());
    }
    Ok(Items::from_vec(answers))
}

/// The address of an IFUNC's resolver.
fn resolver(symbol: &Symbol) -> Option<u64>
    ensures { result ≡ resolver_of symbol.now }
{
    if !symbol.flags.is_ifunc() {
        return None;
    }
    match &symbol.resolution {
        Some(resolution) => Some(resolution.raw_value),
        None => None,
    }
}

/// The addresses of resolvers, in the order of symbols.
fn listed_resolvers(alloc: Global, symbols: &[Symbol]) -> Result<Vec<u64>, AllocError>
    ensures { IfOk result (λ v. v.items ≡ filter_map resolver_of symbols.now) }
{
    let mut addresses = Vec::new(alloc);
    for symbol in symbols {
        if let Some(address) = resolver(symbol) {
            addresses.push(address)?;
        }
    }
    Ok(addresses)
}

/// The addresses of resolvers, in ascending order.
fn resolvers(alloc: Global, symbols: &[Symbol]) -> Result<Items<u64>, AllocError>
    ensures listed { IfOk result (λ addresses. IsPermutation (filter_map resolver_of symbols.now) addresses) }
    ensures ascend { IfOk result (λ addresses. IsNonDecreasing addresses) }
{
    let mut addresses = listed_resolvers(alloc, symbols)?;
    addresses.sort_unstable();
    Ok(Items::from_vec(addresses))
}

/// The lowest multiple of an alignment that is at least a number; 0 is no alignment.
fn next_multiple(number: u64, align: u64) -> u128
    ensures { result ≡ next_multiple number align }
{
    if align == 0 {
        return number as u128;
    }
    let gap = (align - number % align) % align;
    number as u128 + gap as u128
}

/// The value of the thread pointer, modulo 2^64, if the initial data are used as a thread's own.
fn pointer_of(machine: Machine, tls: Tls) -> u64
    ensures { result ≡ pointer_of machine tls % 2 ^ 64 }
{
    let pointer = match machine {
        Machine::X86_64 => next_multiple(tls.end, tls.align),
        Machine::AArch64 => {
            let block = next_multiple(16, tls.align);
            let back = if block < 1 << 64 {
                (1 << 64) - block
            } else {
                0
            };
            tls.start as u128 + back
        }
    };
    (pointer % (1 << 64)) as u64
}

/// The distance of an executable's thread-local data from the thread pointer.
fn program_of(layout: &Layout) -> Option<u64>
    ensures { result ≡ program_of layout.now }
{
    if layout.kind.is_executable() {
        let pointer = pointer_of(layout.machine, layout.tls);
        Some(layout.tls.start.wrapping_sub(pointer))
    } else {
        None
    }
}

/// The outline of a layout.
pub fn outline_of(alloc: Global, layout: &Layout) -> Result<Outline, AllocError>
    ensures { IfOk result (λ o. IsOutlineOf layout.now o) }
{
    let symbols = layout.symbols.as_slice();
    let most = (symbols.len() as u64).saturating_add(1);
    let count = greatest_end(symbols).min(most);
    Ok(Outline {
        movable: layout.kind.is_position_independent(),
        program: program_of(layout),
        symbols: known_answers(alloc, layout, count as usize)?,
        resolvers: resolvers(alloc, symbols)?,
    })
}
