//! The treatment of each relocation, as far as the layout alone decides it: no value is computed.
ghost use Rattle.std.specs.Prelude.{◌≡◌};
ghost use Rattle.wild_slot.specs.Treatment.{flags_at, needs_symbolic, has_no_local_address, is_barred_type, is_barred_in_shared, is_barred, is_narrow, needs_irelative, irelative_treatment, moves, relative_treatment, address_treatment, distance_treatment, pointer_treatment, is_sized, size_treatment, if_defined, class_treatment, row_treatment, is_slot, row_accepts, row_that_accepts, treatment};

use wild_reloc::{Class, RelocationKindInfo, Term, aarch64, x86_64};
use wild_types::{
    InputRelocation, Layout, Machine, SymbolIndex, ValueFlags, is_allocated, is_writable, row_of,
};

/// How a relocation is treated.
#[derive(Clone, Copy)]
pub enum Treatment {
    /// Nothing is written.
    Nothing,
    /// A value is written into the field of this row.
    Value(RelocationKindInfo),
    /// An 8-byte address to which the loader adds the load bias, by a relative relocation.
    BaseRelative,
    /// The address of this interposable symbol is filled in by a dynamic relocation against it.
    Symbolic(SymbolIndex),
    /// The result of this IFUNC's resolver is filled in by an `IRELATIVE` relocation.
    Indirect(SymbolIndex),
    /// The size of this interposable symbol is filled in by a dynamic relocation against it, in the field of this row.
    Extent(RelocationKindInfo, SymbolIndex),
    /// The code must be compiled as position-independent: the field cannot hold an address that is known only at load time.
    Recompile,
    /// The type is unknown, or needs a symbol and the relocation has none.
    Unsupported,
}

/// The flags of the symbol that defines a symbol.
pub fn flags_at(layout: &Layout, symbol: SymbolIndex) -> ValueFlags
    ensures { result ≡ flags_at layout.now symbol }
{
    match layout.symbols.as_slice().get(layout.canonical(symbol).0) {
        Some(found) => found.flags,
        None => ValueFlags(0),
    }
}

/// Whether a dynamic relocation against the symbol fills in its address.
#[inline]
fn needs_symbolic(
    layout: &Layout,
    section_flags: u64,
    row: &RelocationKindInfo,
    symbol: SymbolIndex,
) -> bool
    ensures { result ≡ needs_symbolic layout.now section_flags row.now symbol }
{
    is_allocated(section_flags)
        && is_writable(section_flags)
        && row.width() == 8
        && flags_at(layout, symbol).is_interposable()
}

/// Whether another module may define the symbol, and neither a copy relocation nor a stub gives it an address in this output.
fn has_no_local_address(flags: ValueFlags) -> bool
    ensures { result ≡ has_no_local_address flags }
{
    (flags.is_interposable() || flags.is_dynamic())
        && !(flags.needs_copy_relocation() || flags.needs_plt())
}

/// Whether a field of that type cannot hold the address of an interposable symbol, or the distance to it.
#[inline]
pub fn is_barred_type(machine: Machine, number: u32) -> bool
    ensures { result ≡ is_barred_type machine number }
{
    match machine {
        Machine::X86_64 => x86_64::is_barred(number),
        Machine::AArch64 => aarch64::is_barred(number),
    }
}

/// Whether a field of that type cannot hold an address of a shared object.
#[inline]
pub fn is_barred_in_shared(machine: Machine, number: u32) -> bool
    ensures { result ≡ is_barred_in_shared machine number }
{
    match machine {
        Machine::X86_64 => x86_64::is_barred_in_shared(number),
        Machine::AArch64 => aarch64::is_barred_in_shared(number),
    }
}

/// Whether the field cannot hold the symbol's address or distance, because another module may define the symbol.
#[inline]
fn is_barred(layout: &Layout, section_flags: u64, number: u32, symbol: SymbolIndex) -> bool
    ensures { result ≡ is_barred layout.now section_flags number symbol }
{
    is_allocated(section_flags)
        && layout.kind.is_position_independent()
        && is_barred_type(layout.machine, number)
        && has_no_local_address(flags_at(layout, symbol))
}

/// Whether the output is a shared object, and a field of that type cannot hold an address in it.
#[inline]
fn is_narrow(layout: &Layout, section_flags: u64, number: u32) -> bool
    ensures { result ≡ is_narrow layout.now section_flags number }
{
    is_allocated(section_flags)
        && layout.kind.is_shared_object()
        && is_barred_in_shared(layout.machine, number)
}

/// Whether the address of the symbol changes with the load bias.
#[inline]
fn moves(layout: &Layout, symbol: SymbolIndex) -> bool
    ensures { result ≡ moves layout.now symbol }
{
    layout.kind.is_position_independent() && !flags_at(layout, symbol).is_absolute()
}

/// The treatment of an address that changes with the load bias.
#[inline]
fn relative_treatment(row: &RelocationKindInfo) -> Treatment
    ensures { result ≡ relative_treatment row.now }
{
    if row.width() == 8 {
        Treatment::BaseRelative
    } else {
        Treatment::Recompile
    }
}

/// Whether the symbol is an IFUNC whose address a loader stores.
#[inline]
fn needs_irelative(layout: &Layout, section_flags: u64, symbol: SymbolIndex) -> bool
    ensures { result ≡ needs_irelative layout.now section_flags symbol }
{
    is_allocated(section_flags)
        && is_writable(section_flags)
        && layout.kind.is_position_independent()
        && flags_at(layout, symbol).is_ifunc()
}

/// The treatment of an IFUNC's address that a loader stores.
#[inline]
fn irelative_treatment(row: &RelocationKindInfo, symbol: SymbolIndex) -> Treatment
    ensures { result ≡ irelative_treatment row.now symbol }
{
    if row.width() != 8 {
        Treatment::Recompile
    } else {
        Treatment::Indirect(symbol)
    }
}

/// The treatment of a relocation that writes S + A of that symbol.
#[inline]
fn address_treatment(
    layout: &Layout,
    section_flags: u64,
    number: u32,
    row: RelocationKindInfo,
    symbol: SymbolIndex,
) -> Treatment
    ensures { result ≡ address_treatment layout.now section_flags number row symbol }
{
    if is_barred(layout, section_flags, number, symbol)
        || is_narrow(layout, section_flags, number)
    {
        Treatment::Recompile
    } else if needs_symbolic(layout, section_flags, &row, symbol) {
        Treatment::Symbolic(symbol)
    } else if needs_irelative(layout, section_flags, symbol) {
        irelative_treatment(&row, symbol)
    } else if is_allocated(section_flags) && moves(layout, symbol) {
        relative_treatment(&row)
    } else {
        Treatment::Value(row)
    }
}

/// The treatment of a relocation that writes S + A - P.
#[inline]
fn distance_treatment(
    layout: &Layout,
    section_flags: u64,
    number: u32,
    row: RelocationKindInfo,
    symbol: Option<SymbolIndex>,
) -> Treatment
    ensures { result ≡ distance_treatment layout.now section_flags number row symbol }
{
    let refused = match symbol {
        Some(symbol) => is_barred(layout, section_flags, number, symbol),
        None => is_allocated(section_flags) && layout.kind.is_position_independent(),
    };
    if refused {
        Treatment::Recompile
    } else {
        Treatment::Value(row)
    }
}

/// The treatment of a relocation that writes an offset from the thread pointer, which is known at link time only in an executable.
#[inline]
fn pointer_treatment(layout: &Layout, section_flags: u64, row: RelocationKindInfo) -> Treatment
    ensures { result ≡ pointer_treatment layout.now section_flags row }
{
    if is_allocated(section_flags) && layout.kind.is_shared_object() {
        Treatment::Recompile
    } else {
        Treatment::Value(row)
    }
}

/// Whether a dynamic relocation against the symbol fills in its size.
#[inline]
fn is_sized(layout: &Layout, section_flags: u64, symbol: SymbolIndex) -> bool
    ensures { result ≡ is_sized layout.now section_flags symbol }
{
    let flags = flags_at(layout, symbol);
    is_allocated(section_flags)
        && flags.is_interposable()
        && (flags.is_dynamic() || layout.kind.is_shared_object())
}

/// The treatment of a relocation that writes the size of that symbol.
#[inline]
fn size_treatment(
    layout: &Layout,
    section_flags: u64,
    row: RelocationKindInfo,
    symbol: SymbolIndex,
) -> Treatment
    ensures { result ≡ size_treatment layout.now section_flags row symbol }
{
    if is_sized(layout, section_flags, symbol) {
        Treatment::Extent(row, symbol)
    } else {
        Treatment::Value(row)
    }
}

/// The treatment, if the symbol's definition is in the list of symbols. Else a value is written, which the symbol does not have, so
/// that the relocation is refused later.
#[inline]
fn if_defined(
    layout: &Layout,
    row: RelocationKindInfo,
    symbol: SymbolIndex,
    treatment: Treatment,
) -> Treatment
    ensures { result ≡ if_defined layout.now row symbol treatment }
{
    if layout.canonical(symbol).0 < layout.symbols.len() {
        treatment
    } else {
        Treatment::Value(row)
    }
}

/// The treatment of a relocation of that type and symbol, by the class of its expression.
#[inline]
fn class_treatment(
    layout: &Layout,
    section_flags: u64,
    number: u32,
    symbol: Option<SymbolIndex>,
    row: RelocationKindInfo,
    class: Class,
) -> Treatment
    ensures { result ≡ class_treatment layout.now section_flags number symbol row class }
{
    match (class, symbol) {
        (Class::Nothing, _) | (Class::Mark, Some(_)) => Treatment::Nothing,
        (Class::Free, _) | (Class::Plain, Some(_)) => Treatment::Value(row),
        (Class::Address, Some(symbol)) => {
            if_defined(
                layout,
                row,
                symbol,
                address_treatment(layout, section_flags, number, row, symbol),
            )
        }
        (Class::Distance, symbol) => distance_treatment(layout, section_flags, number, row, symbol),
        (Class::Part, Some(_)) => distance_treatment(layout, section_flags, number, row, symbol),
        (Class::Pointer, Some(_)) => pointer_treatment(layout, section_flags, row),
        (Class::Extent, Some(symbol)) => {
            if_defined(
                layout,
                row,
                symbol,
                size_treatment(layout, section_flags, row, symbol),
            )
        }
        _ => Treatment::Unsupported,
    }
}

/// The treatment by the row of the relocation type.
#[inline]
#[tactic(auto, unfolding(crate::specs::Treatment::row_treatment))]
pub fn row_treatment(
    layout: &Layout,
    section_flags: u64,
    number: u32,
    symbol: Option<SymbolIndex>,
    row: Option<RelocationKindInfo>,
) -> Treatment
    ensures { result ≡ row_treatment layout.now section_flags number symbol row }
{
    match row {
        Some(row) => class_treatment(
            layout,
            section_flags,
            number,
            symbol,
            row,
            row.kind.expression().class,
        ),
        None => Treatment::Unsupported,
    }
}

/// Whether the term is the address of a slot.
#[inline]
fn is_slot(term: Term) -> bool
    ensures { result ≡ is_slot term }
{
    matches!(term, Term::Slot(_))
}

/// Whether the row accepts the relocation's symbol and addend. On AArch64 the address of a slot has no addend, and a page is that of a
/// symbol.
#[inline]
fn row_accepts(machine: Machine, relocation: &InputRelocation, row: &RelocationKindInfo) -> bool
    ensures { result ≡ row_accepts machine relocation.now row.now }
{
    match machine {
        Machine::X86_64 => true,
        Machine::AArch64 => {
            (relocation.addend.cast_unsigned() == 0 || !is_slot(row.kind.expression().term))
                && !(relocation.symbol.is_none() && row.mask.is_some())
        }
    }
}

/// The row, if it accepts the relocation's symbol and addend.
#[inline]
pub fn row_that_accepts(
    machine: Machine,
    relocation: &InputRelocation,
    row: Option<RelocationKindInfo>,
) -> Option<RelocationKindInfo>
    ensures { result ≡ row_that_accepts machine relocation.now row }
{
    match row {
        Some(row) if row_accepts(machine, relocation, &row) => Some(row),
        _ => None,
    }
}

/// The treatment of a relocation in a section with these flags (`sh_flags`).
#[tactic(auto, unfolding(crate::specs::Treatment::treatment))]
pub fn treatment_of(layout: &Layout, section_flags: u64, relocation: &InputRelocation) -> Treatment
    ensures { result ≡ treatment layout.now section_flags relocation.now }
{
    let row = row_of(layout.machine, relocation.number);
    let row = row_that_accepts(layout.machine, relocation, row);
    row_treatment(
        layout,
        section_flags,
        relocation.number,
        relocation.symbol,
        row,
    )
}
