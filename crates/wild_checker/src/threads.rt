//! Thread-local offsets as terms.
ghost use Rattle.std.specs.Prelude.{◌≡◌};
ghost use Rattle.wild_checker.specs.Loaded.{loaded_now};
ghost use Rattle.wild_checker.specs.Threads.{in_data, own_offset, own_thread_term, module_term, offset_term, thread_term, is_undefined, may_be_zero, pointer_term, counts_from_pointer, relative_term, begin_offset};

use crate::loaded::LoadedRef;
use crate::symbols::{known_answer, may_be_replaced, raw_in};
use wild_terms::Term;
use wild_types::{File, Machine, OutputKind, Place, Symbol, SymbolIndex};

/// An address as an offset in the output's initial thread-local data.
fn in_data(loaded: &LoadedRef, address: u64) -> u64
    ensures { result ≡ in_data (loaded_now loaded.now) address }
{
    address.wrapping_sub(loaded.layout.tls.start)
}

/// A symbol's offset in the output's own thread-local data.
fn own_offset(
    loaded: &LoadedRef,
    file: &File,
    symbol: SymbolIndex,
    definition: &Symbol,
) -> Option<u64>
    ensures { result ≡ own_offset (loaded_now loaded.now) file.now symbol definition.now }
{
    let address = raw_in(loaded, file, symbol, definition.resolution)?;
    Some(in_data(loaded, address))
}

/// The same from the thread pointer.
fn own_thread_term(
    loaded: &LoadedRef,
    file: &File,
    symbol: SymbolIndex,
    definition: &Symbol,
) -> Option<Term>
    ensures { result ≡ own_thread_term (loaded_now loaded.now) file.now symbol definition.now }
{
    let offset = own_offset(loaded, file, symbol, definition)?;
    Some(loaded.outline.own_distance().plus(offset))
}

/// A symbol's module.
pub(crate) fn module_term(loaded: &LoadedRef, definition: &Symbol) -> Option<Term>
    ensures { result ≡ module_term (loaded_now loaded.now) definition.now }
{
    if may_be_replaced(loaded.layout.kind, definition.flags) {
        let found = known_answer(loaded.outline, definition)?;
        return Some(loaded.outline.module(found.index, found.answer));
    }
    Some(loaded.outline.own_module())
}

/// A symbol's offset in its module.
pub(crate) fn offset_term(
    loaded: &LoadedRef,
    file: &File,
    symbol: SymbolIndex,
    definition: &Symbol,
) -> Option<Term>
    ensures { result ≡ offset_term (loaded_now loaded.now) file.now symbol definition.now }
{
    if may_be_replaced(loaded.layout.kind, definition.flags) {
        let found = known_answer(loaded.outline, definition)?;
        return Some(found.answer.offset(found.index));
    }
    Some(Term::number(own_offset(loaded, file, symbol, definition)?))
}

/// A symbol's offset from the thread pointer.
pub(crate) fn thread_term(
    loaded: &LoadedRef,
    file: &File,
    symbol: SymbolIndex,
    definition: &Symbol,
) -> Option<Term>
    ensures { result ≡ thread_term (loaded_now loaded.now) file.now symbol definition.now }
{
    if may_be_replaced(loaded.layout.kind, definition.flags) {
        let found = known_answer(loaded.outline, definition)?;
        return Some(loaded.outline.thread_offset(found.index, found.answer));
    }
    own_thread_term(loaded, file, symbol, definition)
}

/// Whether a place is none.
fn is_undefined(place: Place) -> bool
    ensures { result ≡ is_undefined place }
{
    match place {
        Place::Undefined => true,
        _ => false,
    }
}

/// Whether a symbol is the output's own, and undefined or at address 0, so that its offset may be 0.
pub(crate) fn may_be_zero(
    loaded: &LoadedRef,
    file: &File,
    symbol: SymbolIndex,
    definition: &Symbol,
) -> bool
    ensures { result ≡ may_be_zero (loaded_now loaded.now) file.now symbol definition.now }
{
    let at_zero = match raw_in(loaded, file, symbol, definition.resolution) {
        Some(address) => address == 0,
        None => false,
    };
    !may_be_replaced(loaded.layout.kind, definition.flags)
        && (is_undefined(definition.place) || at_zero)
}

/// A symbol's offset from the thread pointer, if no other module may define the symbol.
pub(crate) fn pointer_term(
    loaded: &LoadedRef,
    file: &File,
    symbol: Option<SymbolIndex>,
) -> Option<Term>
    ensures { result ≡ pointer_term (loaded_now loaded.now) file.now symbol }
{
    let symbol = symbol?;
    let symbols = loaded.layout.symbols.as_slice();
    let definition = symbols.get(loaded.layout.canonical(symbol).0)?;
    if may_be_replaced(loaded.layout.kind, definition.flags) {
        None
    } else if is_undefined(definition.place) {
        Some(Term::number(0))
    } else {
        own_thread_term(loaded, file, symbol, definition)
    }
}

/// Whether offsets in the own module are relative to the thread pointer.
fn counts_from_pointer(machine: Machine, kind: OutputKind) -> bool
    ensures { result ≡ counts_from_pointer machine kind }
{
    match machine {
        Machine::X86_64 => kind.is_executable(),
        Machine::AArch64 => false,
    }
}

/// A symbol's offset from what offsets in the own module are relative to, if no other module may define the symbol.
pub(crate) fn relative_term(
    loaded: &LoadedRef,
    file: &File,
    symbol: Option<SymbolIndex>,
) -> Option<Term>
    ensures { result ≡ relative_term (loaded_now loaded.now) file.now symbol }
{
    let symbol = symbol?;
    let symbols = loaded.layout.symbols.as_slice();
    let definition = symbols.get(loaded.layout.canonical(symbol).0)?;
    if may_be_replaced(loaded.layout.kind, definition.flags) {
        return None;
    }
    if counts_from_pointer(loaded.layout.machine, loaded.layout.kind) {
        return own_thread_term(loaded, file, symbol, definition);
    }
    Some(Term::number(own_offset(loaded, file, symbol, definition)?))
}

/// The offset in the own module of what offsets there are relative to.
pub(crate) fn begin_offset(loaded: &LoadedRef) -> Option<u64>
    ensures { result ≡ begin_offset (loaded_now loaded.now) }
{
    if counts_from_pointer(loaded.layout.machine, loaded.layout.kind) {
        Term::number(0).minus(loaded.outline.own_distance())
    } else {
        Some(0)
    }
}
