//! Which rewrite (relaxation) applies to the instruction of a relocation. A row sees at most four relocations, which are on the stack.
ghost use Rattle.std.specs.Prelude.{◌≡◌, ◌<◌, ◌+◌, length, slice_get};
ghost use Rattle.wild_relax.specs.Relaxation.{chosen_row_of};
ghost use Rattle.wild_layout.specs.Choice.{same_names, is_getter, info_of, nameless, question_for, infos_of, info_at, question_around, is_thread_type, merged_on, choice, takes_next, is_partner, may_take_next, may_be_partner};
ghost use Rattle.wild_types.specs.Item.{item_now};

use crate::values::Resolved;
use wild_records::abi::relocation::{
    R_X86_64_CODE_4_GOTPC32_TLSDESC, R_X86_64_GOTPC32_TLSDESC, R_X86_64_PC32,
    R_X86_64_TLSDESC_CALL, R_X86_64_TLSGD, R_X86_64_TLSLD,
};
use wild_relax::table::DESCRIPTOR_CALL;
use wild_relax::{
    Arch, NO_RELOCATION, Reference, Relaxation, RelocationInfo, Row, UnknownSequence, words_before,
};
use wild_slot::flags_at;
use wild_types::{InputRelocation, ItemRef, Layout, Machine, SymbolIndex};

/// The function that returns the address of a thread-local symbol ("ELF Handling For Thread-Local Storage", "Run-Time Handling
/// of TLS").
const GETTER: [u8; 14] = *b"__tls_get_addr";

/// Whether two names are equal.
fn same_names(one: &[u8], other: &[u8]) -> bool
    ensures { result ≡ same_names one.now other.now }
{
    match (one.split_first(), other.split_first()) {
        (None, None) => true,
        (Some((a, one)), Some((b, other))) => *a == *b && same_names(one, other),
        _ => false,
    }
}

/// Whether a relocation's symbol is that function.
fn is_getter(layout: &Layout, symbol: Option<SymbolIndex>) -> bool
    ensures { result ≡ is_getter layout.now symbol }
{
    let Some(symbol) = symbol else {
        return false;
    };
    match layout.symbols.as_slice().get(symbol.0) {
        Some(found) => same_names(found.name.as_slice(), &GETTER),
        None => false,
    }
}

/// What the rows check of a relocation, without its symbol's name.
#[inline]
fn nameless(relocation: &InputRelocation) -> RelocationInfo
    ensures { result ≡ nameless relocation.now }
{
    RelocationInfo {
        number: relocation.number,
        offset: relocation.offset,
        symbol: match relocation.symbol {
            Some(symbol) => Some(symbol.0),
            None => None,
        },
        addend: relocation.addend,
        names_tls_get_addr: false,
    }
}

/// What the rows check of a relocation.
fn info_of(layout: &Layout, relocation: &InputRelocation) -> RelocationInfo
    ensures { result ≡ info_of layout.now relocation.now }
{
    RelocationInfo {
        names_tls_get_addr: is_getter(layout, relocation.symbol),
        ..nameless(relocation)
    }
}

/// What they check of the relocation with that index; if there is none, of a relocation that does nothing.
fn info_at(relocations: &[InputRelocation], index: usize) -> RelocationInfo
    ensures { result ≡ info_at relocations.now index }
{
    match relocations.get(index) {
        Some(relocation) => nameless(relocation),
        None => NO_RELOCATION,
    }
}

/// The row that applies to the relocation at `at` of `relocations`, or why it is refused.
fn row_that_applies<A: Arch>(
    resolved: &Resolved<A>,
    item: &ItemRef,
    symbol: SymbolIndex,
    relocations: &[RelocationInfo],
    at: usize,
) -> Result<Option<Row>, UnknownSequence>
    ensures { result ≡ chosen_row_of resolved.now.layout.now.machine (question_for resolved.now.layout.now (item_now item.now) symbol relocations.now at) }
{
    let layout = resolved.layout;
    let reference = Reference {
        relocations,
        at,
        bytes: item.bytes,
        flags: flags_at(layout, symbol),
        kind: layout.kind,
        section_flags: item.flags,
        relax: layout.options.relax,
        value: resolved.address(symbol),
        address: item.address,
    };
    match A::new_relaxation(&reference) {
        Ok(None) => Ok(None),
        Ok(Some(relaxation)) => Ok(Some(relaxation.row())),
        Err(unknown) => Err(unknown),
    }
}

/// Whether rows of that relocation type may rewrite a whole sequence, including the call of the next relocation.
#[inline(always)]
pub(crate) fn may_take_next(number: u32) -> bool
    ensures { result ≡ may_take_next number }
{
    number == R_X86_64_TLSGD || number == R_X86_64_TLSLD
}

/// The row that applies to a relocation, which may depend on the next one.
fn choice_with_next<A: Arch>(
    resolved: &Resolved<A>,
    item: &ItemRef,
    index: usize,
    symbol: SymbolIndex,
) -> Result<Option<Row>, UnknownSequence>
    requires index { index < length item.now.relocations.now }
    ensures { result ≡ chosen_row_of resolved.now.layout.now.machine (question_for resolved.now.layout.now (item_now item.now) symbol
        (infos_of resolved.now.layout.now (slice_get item.now.relocations.now index) (slice_get item.now.relocations.now (index + 1))) 0) }
{
    let relocations = item.relocations;
    let own = info_of(resolved.layout, &relocations[index]);
    match relocations.get(index + 1) {
        Some(next) => {
            row_that_applies(
                resolved,
                item,
                symbol,
                &[own, info_of(resolved.layout, next)],
                0,
            )
        }
        None => row_that_applies(resolved, item, symbol, &[own], 0),
    }
}

/// The row that applies to a relocation of a sequence. The row sees the sequence from its first relocation on, so that each of its
/// relocations is checked in the same way.
fn choice_around<A: Arch>(
    resolved: &Resolved<A>,
    item: &ItemRef,
    index: usize,
    relocation: &InputRelocation,
    symbol: SymbolIndex,
) -> Result<Option<Row>, UnknownSequence>
    requires index { index < length item.now.relocations.now }
    ensures { result ≡ chosen_row_of resolved.now.layout.now.machine (question_around resolved.now.layout.now (item_now item.now) index relocation.now symbol) }
{
    let relocations = item.relocations;
    let first = index.saturating_sub(words_before(relocation.number));
    let infos = [
        info_at(relocations, first),
        info_at(relocations, first + 1),
        info_at(relocations, first + 2),
        info_at(relocations, first + 3),
    ];
    row_that_applies(resolved, item, symbol, &infos, index - first)
}

/// Whether references of that type to thread-local storage are rewritten in each executable.
fn is_thread_type(number: u32) -> bool
    ensures { result ≡ is_thread_type number }
{
    number == R_X86_64_TLSGD
        || number == R_X86_64_TLSLD
        || number == R_X86_64_GOTPC32_TLSDESC
        || number == R_X86_64_CODE_4_GOTPC32_TLSDESC
        || number == R_X86_64_TLSDESC_CALL
}

/// The answer for a merged string: no row applies, as the row's addend would find another string. Thread-local types of x86-64 are
/// refused.
fn choice_merged(
    machine: Machine,
    relocation: &InputRelocation,
) -> Result<Option<Row>, UnknownSequence>
    ensures { result ≡ merged_on machine relocation.now }
{
    match machine {
        Machine::X86_64 if is_thread_type(relocation.number) => {
            Err(UnknownSequence {
                number: relocation.number,
                written: DESCRIPTOR_CALL.row_written(),
            })
        }
        Machine::X86_64 | Machine::AArch64 => Ok(None),
    }
}

/// The row that applies to a relocation of an item, or why it is refused. Reads other relocations and names only if a row of the type
/// depends on them.
pub(crate) fn choice<A: Arch>(
    resolved: &Resolved<A>,
    item: &ItemRef,
    index: usize,
) -> Result<Option<Row>, UnknownSequence>
    requires index { index < length item.now.relocations.now }
    ensures { result ≡ choice resolved.now.layout.now (item_now item.now) index }
{
    let relocations = item.relocations;
    let relocation = &relocations[index];
    let Some(symbol) = relocation.symbol else {
        return Ok(None);
    };
    if relocation.number == R_X86_64_PC32 {
        return Ok(None);
    }
    if resolved.names_merged(symbol) {
        return choice_merged(resolved.layout.machine, relocation);
    }
    match resolved.layout.machine {
        Machine::AArch64 => choice_around(resolved, item, index, relocation, symbol),
        Machine::X86_64 if may_take_next(relocation.number) => {
            choice_with_next(resolved, item, index, symbol)
        }
        Machine::X86_64 => row_that_applies(resolved, item, symbol, &[nameless(relocation)], 0),
    }
}

/// Whether a row rewrites a whole sequence.
fn takes_next(choice: Result<Option<Row>, UnknownSequence>) -> bool
    ensures { result ≡ takes_next choice }
{
    match choice {
        Ok(Some(row)) => row.takes_next(),
        Ok(None) | Err(_) => false,
    }
}

/// Whether rows for the previous relocation's type may include this relocation.
#[inline(always)]
pub(crate) fn may_be_partner(relocations: &[InputRelocation], index: usize) -> bool
    requires index { index < length relocations.now }
    ensures { result ≡ may_be_partner relocations.now index }
{
    index > 0 && may_take_next(relocations[index - 1].number)
}

/// Whether a relocation of an item is the call of the previous relocation's sequence, which is rewritten as a whole.
pub(crate) fn is_partner<A: Arch>(resolved: &Resolved<A>, item: &ItemRef, index: usize) -> bool
    requires index { index < length item.now.relocations.now }
    ensures { result ≡ is_partner resolved.now.layout.now (item_now item.now) index }
{
    may_be_partner(item.relocations, index) && takes_next(choice(resolved, item, index - 1))
}
