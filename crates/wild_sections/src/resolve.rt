//! Computes the value that a relocation writes.
ghost use Rattle.std.specs.Prelude.{◌≡◌};
ghost use Rattle.wild_layout.specs.SymbolValues.{sum, displacement, minus, storage_start, is_undefined, symbol_size, raw_address};
ghost use Rattle.wild_layout.specs.SlotValues.{address_of};
ghost use Rattle.wild_layout.specs.Values.{offset_from, pointer_offset, size_of, term_value, subtract, term_by, value_in, is_undefined_weak_without_stub, subtracts_place, adds_symbol, weak_resolves_to_place, undefined_weak_target, term_at};
ghost use Rattle.wild_layout.specs.Merged.{merged_byte, address_for};
ghost use Rattle.wild_layout.specs.RelativeRelocations.{value_or_0, relative_value};

use crate::indirect::{resolved_address, slot_address, stub_address, symbol_is_ifunc};
use crate::values::Resolved;
use wild_relax::Arch;
use wild_reloc::aarch64::is_branch;
use wild_reloc::{RelocationKindInfo, Subtrahend, Term};
use wild_slot::{flags_at, page_of, thread_pointer};
use wild_types::{Fault, InputRelocation, Layout, Machine, Missing, Place, SymbolIndex};

/// The address of a relocation's symbol: by its resolution, or by its place in its section; 0 without a symbol. Fails if the symbol has
/// no address.
#[inline]
pub fn raw_address<A: Arch>(
    resolved: &Resolved<A>,
    symbol: Option<SymbolIndex>,
) -> Result<u64, Fault>
    ensures { result ≡ raw_address resolved.now.layout.now symbol }
{
    match symbol {
        Some(symbol) => resolved_address(Missing::Address, symbol, resolved.address(symbol)),
        None => Ok(0),
    }
}

/// The address of a relocation's symbol, that of its PLT stub for an IFUNC; 0 without a symbol. Fails if the symbol has neither.
#[inline]
pub(crate) fn address_of<A: Arch>(
    resolved: &Resolved<A>,
    symbol: Option<SymbolIndex>,
) -> Result<u64, Fault>
    ensures { result ≡ address_of resolved.now.layout.now symbol }
{
    match symbol {
        Some(named) if symbol_is_ifunc(resolved.layout, named) => stub_address(
            resolved.layout,
            symbol,
        ),
        _ => raw_address(resolved, symbol),
    }
}

/// The offset in a merged section that a section symbol and an addend name.
fn merged_byte(layout: &Layout, symbol: SymbolIndex, relocation: &InputRelocation) -> u64
    ensures { result ≡ merged_byte layout.now symbol relocation.now }
{
    let value = match layout.symbols.as_slice().get(symbol.0) {
        Some(found) => found.value,
        None => 0,
    };
    sum(value, relocation.addend)
}

/// S of a relocation in a layout with merged sections. For the section symbol of a merged section, S is the string's address minus A, so
/// that S + A is the address.
#[inline(never)]
#[tactic(auto, unfolding(wild_layout::specs::Merged::address_for))]
fn address_with_merged_strings<A: Arch>(
    resolved: &Resolved<A>,
    relocation: &InputRelocation,
) -> Result<u64, Fault>
    ensures { result ≡ address_for resolved.now.layout.now relocation.now }
{
    let Some(symbol) = relocation.symbol else {
        return Ok(0);
    };
    let byte = merged_byte(resolved.layout, symbol, relocation);
    match resolved.string_place(symbol, byte) {
        Some(place) => {
            let place = resolved_address(Missing::Address, symbol, place)?;
            Ok(place.wrapping_sub(relocation.addend.cast_unsigned()))
        }
        None => address_of(resolved, relocation.symbol),
    }
}

/// S of a relocation.
#[inline]
#[tactic(auto, using(wild_layout::proofs::MergedLemmas::address_plain))]
pub fn address_for<A: Arch>(
    resolved: &Resolved<A>,
    relocation: &InputRelocation,
) -> Result<u64, Fault>
    ensures { result ≡ address_for resolved.now.layout.now relocation.now }
{
    if resolved.has_strings() {
        address_with_merged_strings(resolved, relocation)
    } else {
        address_of(resolved, relocation.symbol)
    }
}

/// S + A.
#[inline]
pub fn sum(symbol: u64, addend: i64) -> u64
    ensures { result ≡ sum symbol addend }
{
    symbol.wrapping_add_signed(addend)
}

/// The address, or 0 if there is none.
#[inline]
pub fn value_or_0(address: Result<u64, Fault>) -> u64
    ensures { result ≡ value_or_0 address }
{
    match address {
        Ok(address) => address,
        Err(_) => 0,
    }
}

/// S + A of a relocation whose address moves with the load bias; A if the symbol has no address.
#[inline]
pub fn relative_value<A: Arch>(resolved: &Resolved<A>, relocation: &InputRelocation) -> u64
    ensures { result ≡ relative_value resolved.now.layout.now relocation.now }
{
    sum(
        value_or_0(address_for(resolved, relocation)),
        relocation.addend,
    )
}

/// S + A - P.
#[inline]
pub(crate) fn displacement(symbol: u64, addend: i64, place: u64) -> u64
    ensures { result ≡ displacement symbol addend place }
{
    sum(symbol, addend).wrapping_sub(place)
}

/// The difference of two addresses.
#[inline]
pub(crate) fn minus(address: u64, start: u64) -> u64
    ensures { result ≡ minus address start }
{
    address.wrapping_sub(start)
}

/// The address that DTPOFF values count from: the start of the TLS segment. In x86-64 executables it is the thread pointer, since
/// local-dynamic code is rewritten to local-exec.
fn storage_start(layout: &Layout) -> u64
    ensures { result ≡ storage_start layout.now }
{
    if matches!(layout.machine, Machine::X86_64) && layout.kind.is_executable() {
        thread_pointer(layout.machine, layout.tls)
    } else {
        layout.tls.start
    }
}

/// Whether the symbol is undefined, once aliases are followed to their definition.
fn is_undefined(layout: &Layout, symbol: SymbolIndex) -> bool
    ensures { result ≡ is_undefined layout.now symbol }
{
    match layout.symbols.as_slice().get(layout.canonical(symbol).0) {
        Some(found) => matches!(found.place, Place::Undefined),
        None => false,
    }
}

/// The size of the symbol's definition in bytes, 0 if there is none.
pub(crate) fn symbol_size(layout: &Layout, symbol: SymbolIndex) -> u64
    ensures { result ≡ symbol_size layout.now symbol }
{
    match layout.symbols.as_slice().get(layout.canonical(symbol).0) {
        Some(found) => found.size,
        None => 0,
    }
}

/// The size of a relocation's symbol in bytes.
fn size_of(layout: &Layout, symbol: Option<SymbolIndex>) -> u64
    ensures { result ≡ size_of layout.now symbol }
{
    match symbol {
        Some(symbol) => symbol_size(layout, symbol),
        None => 0,
    }
}

/// The offset of an address from a start, or the fault that there is no address.
#[inline]
pub fn offset_from(start: u64, address: Result<u64, Fault>) -> Result<u64, Fault>
    ensures { result ≡ offset_from start address }
{
    match address {
        Ok(address) => Ok(minus(address, start)),
        Err(fault) => Err(fault),
    }
}

/// The offset of a symbol from the thread pointer; 0 for an undefined symbol, which has none.
pub fn pointer_offset<A: Arch>(
    resolved: &Resolved<A>,
    symbol: Option<SymbolIndex>,
) -> Result<u64, Fault>
    ensures { result ≡ pointer_offset resolved.now.layout.now symbol }
{
    let Some(named) = symbol else {
        return Ok(0);
    };
    if is_undefined(resolved.layout, named) {
        return Ok(0);
    }
    let pointer = thread_pointer(resolved.layout.machine, resolved.layout.tls);
    offset_from(pointer, raw_address(resolved, symbol))
}

/// The term of a row's formula that A is added to: GOT, Z, S, L, G, or an offset. Fails if the symbol lacks it.
#[inline]
fn term_value<A: Arch>(
    resolved: &Resolved<A>,
    symbol: Option<SymbolIndex>,
    term: Term,
) -> Result<u64, Fault>
    ensures { result ≡ term_value resolved.now.layout.now symbol term }
{
    match term {
        Term::GotBase => Ok(resolved.layout.got_base),
        Term::Size => Ok(size_of(resolved.layout, symbol)),
        Term::PointerOffset => pointer_offset(resolved, symbol),
        Term::ModuleOffset => {
            offset_from(
                storage_start(resolved.layout),
                raw_address(resolved, symbol),
            )
        }
        Term::Stub => stub_address(resolved.layout, symbol),
        Term::Slot(sort) => slot_address(resolved.layout, sort, symbol),
        Term::Symbol | Term::Nothing => address_of(resolved, symbol),
    }
}

/// The term of a relocation. For a merged string, the addend of S selects the string.
#[inline]
fn term_by<A: Arch>(
    resolved: &Resolved<A>,
    relocation: &InputRelocation,
    term: Term,
) -> Result<u64, Fault>
    ensures { result ≡ term_by resolved.now.layout.now relocation.now term }
{
    match term {
        Term::Symbol => address_for(resolved, relocation),
        _ => term_value(resolved, relocation.symbol, term),
    }
}

/// The term plus A, minus what the formula subtracts (P, GOT, or a page).
#[inline]
fn subtract(layout: &Layout, subtrahend: Subtrahend, term: u64, addend: i64, place: u64) -> u64
    ensures { result ≡ subtract layout.now subtrahend term addend place }
{
    match subtrahend {
        Subtrahend::Nothing => sum(term, addend),
        Subtrahend::Place => displacement(term, addend, place),
        Subtrahend::GotBase => displacement(term, addend, layout.got_base),
        Subtrahend::PageOfPlace => minus(page_of(sum(term, addend)), page_of(place)),
        Subtrahend::PageOfGot => displacement(term, addend, page_of(layout.got_base)),
    }
}

/// The value that a row writes: term + addend, from which P, GOT or GOT's page is subtracted if the row says so; or the distance
/// between the page of that sum and the page of P.
#[inline]
pub(crate) fn value_in(
    layout: &Layout,
    row: &RelocationKindInfo,
    term: u64,
    addend: i64,
    place: u64,
) -> u64
    ensures { result ≡ value_in layout.now row.now term addend place }
{
    subtract(layout, row.subtrahend(), term, addend, place)
}

/// Whether the symbol is weak and undefined, and has no PLT stub that another module's definition might serve.
fn is_undefined_weak_without_stub(layout: &Layout, symbol: Option<SymbolIndex>) -> bool
    ensures { result ≡ is_undefined_weak_without_stub layout.now symbol }
{
    let Some(symbol) = symbol else {
        return false;
    };
    let flags = flags_at(layout, symbol);
    flags.is_undefined_weak() && !flags.needs_plt()
}

/// Whether the formula subtracts P, or its page.
fn subtracts_place(subtrahend: Subtrahend) -> bool
    ensures { result ≡ subtracts_place subtrahend }
{
    matches!(subtrahend, Subtrahend::Place | Subtrahend::PageOfPlace)
}

/// Whether A is added to S or L.
fn adds_symbol(term: Term) -> bool
    ensures { result ≡ adds_symbol term }
{
    matches!(term, Term::Symbol | Term::Stub)
}

/// Whether an undefined weak symbol resolves to the place itself (AArch64).
#[inline]
fn weak_resolves_to_place(
    layout: &Layout,
    relocation: &InputRelocation,
    row: &RelocationKindInfo,
) -> bool
    ensures { result ≡ weak_resolves_to_place layout.now.machine layout.now relocation.now row.now }
{
    match layout.machine {
        Machine::X86_64 => false,
        Machine::AArch64 => {
            adds_symbol(row.kind.expression().term)
                && subtracts_place(row.subtrahend())
                && is_undefined_weak_without_stub(layout, relocation.symbol)
        }
    }
}

/// The address used for an undefined weak symbol at that place: the distance is then A, and a branch goes to the next instruction.
fn undefined_weak_target(number: u32, place: u64) -> u64
    ensures { result ≡ undefined_weak_target number place }
{
    place.wrapping_add(if is_branch(number) { 4 } else { 0 })
}

/// The term of a row's expression, such as S or the address of a GOT entry. An undefined weak symbol that resolves to the place
/// (AArch64) has the place, of a branch the next instruction. Fails if the symbol lacks what the term needs.
#[inline]
pub(crate) fn term_at<A: Arch>(
    resolved: &Resolved<A>,
    relocation: &InputRelocation,
    row: &RelocationKindInfo,
    place: u64,
) -> Result<u64, Fault>
    ensures { result ≡ term_at resolved.now.layout.now relocation.now row.now place }
{
    if weak_resolves_to_place(resolved.layout, relocation, row) {
        Ok(undefined_weak_target(relocation.number, place))
    } else {
        term_by(resolved, relocation, row.kind.expression().term)
    }
}
