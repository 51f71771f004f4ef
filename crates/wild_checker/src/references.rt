//! Whether the field of a reference has the value of its formula in every world.
ghost use Rattle.std.specs.Prelude.{◌≡◌, true, length, take};
ghost use Rattle.wild_reloc.specs.Field.{field_width, written};
ghost use Rattle.wild_checker.specs.Loaded.{loaded_now};
ghost use Rattle.wild_checker.specs.References.{plain_referent, is_x86_64, address_by, address_referent, referent_term, addend_of, place_term, table_term, distance_term, page_term, page_distance, less, branch_term, slot_referent, named_slot, knows_offsets, has_offset_mode, slot_less, size_term, term_less, value_by_parts, is_nothing, is_symbol, is_word, foreign_term, word_term, value_term, is_eight, is_whole, number_holds, is_part, value_holds, is_inside, is_mark, mark_holds, field_holds, reference_holds};

use crate::bytes::has_bytes;
use crate::files::file_for;
use crate::loaded::LoadedRef;
use crate::slots::{is_at_stub, is_known, slot_term, stub_term};
use crate::symbols::{
    answered_term, known_answer, may_be_replaced, names_no_strings, own_term, symbol_term,
};
use crate::threads::{pointer_term, relative_term};
use wild_records::abi::section::{SHF_EXECINSTR, SHF_WRITE};
use wild_reloc::{
    Class, RelocationKindInfo, RelocationSize, SlotSort, Subtrahend, Width, widths_of_fields,
};
use wild_terms::{Atom, Term, TermMemory};
use wild_types::{
    File, InputRelocation, InputSection, Layout, Machine, OutputKind, Symbol, SymbolIndex, row_of,
};
use wild_words::put;

/// The value of the reference's symbol; 0 without a symbol.
fn plain_referent(loaded: &LoadedRef, file: &File, symbol: Option<SymbolIndex>) -> Option<Term>
    ensures { result ≡ plain_referent (loaded_now loaded.now) file.now symbol }
{
    match symbol {
        Some(symbol) if names_no_strings(loaded, file, symbol) => {
            symbol_term(loaded, file, symbol)
        }
        Some(_) => None,
        None => Some(Term::number(0)),
    }
}

/// Whether a machine is x86-64.
fn is_x86_64(machine: Machine) -> bool
    ensures { result ≡ is_x86_64 machine }
{
    match machine {
        Machine::X86_64 => true,
        Machine::AArch64 => false,
    }
}

/// The address that the output uses for a symbol: its stub's, or the answer of its resolver.
fn address_by(
    loaded: &LoadedRef,
    file: &File,
    symbol: SymbolIndex,
    definition: &Symbol,
) -> Option<Term>
    ensures { result ≡ address_by (loaded_now loaded.now) file.now symbol (Some definition.now) }
{
    let layout = loaded.layout;
    if is_at_stub(loaded, file, symbol, definition) {
        stub_term(loaded, file, symbol)
    } else if is_x86_64(layout.machine) && !may_be_replaced(layout.kind, definition.flags) {
        own_term(loaded, file, symbol, definition)
    } else {
        None
    }
}

/// The same for the symbol of a reference.
fn address_referent(loaded: &LoadedRef, file: &File, symbol: Option<SymbolIndex>) -> Option<Term>
    ensures { result ≡ address_referent (loaded_now loaded.now) file.now symbol }
{
    let symbol = symbol?;
    if !names_no_strings(loaded, file, symbol) {
        return None;
    }
    let symbols = loaded.layout.symbols.as_slice();
    let definition = symbols.get(loaded.layout.canonical(symbol).0)?;
    address_by(loaded, file, symbol, definition)
}

/// S.
fn referent_term(loaded: &LoadedRef, file: &File, relocation: &InputRelocation) -> Option<Term>
    ensures { result ≡ referent_term (loaded_now loaded.now) file.now relocation.now.symbol }
{
    match plain_referent(loaded, file, relocation.symbol) {
        Some(x) => Some(x),
        None => address_referent(loaded, file, relocation.symbol),
    }
}

/// A, modulo 2^64.
pub(crate) fn addend(relocation: &InputRelocation) -> u64
    ensures { result ≡ addend_of relocation.now }
{
    relocation.addend.cast_unsigned()
}

/// P.
fn place_term(loaded: &LoadedRef, section: &InputSection, relocation: &InputRelocation) -> Term
    ensures { result ≡ place_term (loaded_now loaded.now) section.now relocation.now }
{
    let place = section.address.wrapping_add(relocation.offset);
    loaded.outline.based(place)
}

/// GOT.
fn table_term(loaded: &LoadedRef) -> Term
    ensures { result ≡ table_term (loaded_now loaded.now) }
{
    loaded.outline.based(loaded.layout.got_base)
}

/// The difference of two terms, if it is the same number in every world.
fn distance_term(x: Term, y: Term) -> Option<Term>
    ensures { result ≡ distance_term x y }
{
    Some(Term::number(x.minus(y)?))
}

/// The page of 4096 bytes of an address.
fn page_term(layout: &Layout, x: Term) -> Option<Term>
    ensures { result ≡ page_term layout.now x }
{
    let page = x.plus - x.plus % 4096;
    match x.atom {
        Atom::Zero => Some(Term::number(page)),
        Atom::Base if layout.page_size % 4096 == 0 => Some(Term {
            atom: Atom::Base,
            plus: page,
        }),
        _ => None,
    }
}

/// The difference of the pages of two terms.
fn page_distance(layout: &Layout, x: Term, y: Term) -> Option<Term>
    ensures { result ≡ page_distance layout.now x y }
{
    let a = page_term(layout, x)?;
    let b = page_term(layout, y)?;
    distance_term(a, b)
}

/// The value of a formula by what is subtracted, where the sum of its term and A is known.
fn less(
    loaded: &LoadedRef,
    section: &InputSection,
    relocation: &InputRelocation,
    subtrahend: Subtrahend,
    x: Term,
) -> Option<Term>
    ensures { result ≡ less (loaded_now loaded.now) section.now relocation.now subtrahend x }
{
    match subtrahend {
        Subtrahend::Nothing => Some(x),
        Subtrahend::Place => distance_term(x, place_term(loaded, section, relocation)),
        Subtrahend::GotBase => distance_term(x, table_term(loaded)),
        Subtrahend::PageOfPlace => {
            page_distance(loaded.layout, x, place_term(loaded, section, relocation))
        }
        Subtrahend::PageOfGot => { distance_term(x, page_term(loaded.layout, table_term(loaded))?) }
    }
}

/// L: S where that is known, else the symbol's stub.
fn branch_term(loaded: &LoadedRef, file: &File, relocation: &InputRelocation) -> Option<Term>
    ensures { result ≡ branch_term (loaded_now loaded.now) file.now relocation.now }
{
    match plain_referent(loaded, file, relocation.symbol) {
        Some(x) => Some(x),
        None => stub_term(loaded, file, relocation.symbol?),
    }
}

/// G, for a slot of a sort.
fn slot_referent(
    loaded: &LoadedRef,
    file: &File,
    sort: SlotSort,
    symbol: Option<SymbolIndex>,
) -> Option<Term>
    ensures { result ≡ slot_referent (loaded_now loaded.now) file.now sort symbol }
{
    slot_term(loaded, file, sort, symbol?)
}

/// The same in an expression that does not add A.
fn named_slot(
    loaded: &LoadedRef,
    file: &File,
    relocation: &InputRelocation,
    sort: SlotSort,
) -> Option<Term>
    ensures { result ≡ named_slot (loaded_now loaded.now) file.now relocation.now sort }
{
    if addend(relocation) == 0 {
        slot_referent(loaded, file, sort, relocation.symbol)
    } else {
        None
    }
}

/// Whether code of an output holds offsets in place of references to descriptors.
pub(crate) fn knows_offsets(machine: Machine, kind: OutputKind, relax: bool) -> bool
    ensures { result ≡ knows_offsets machine kind relax }
{
    match (machine, kind) {
        (Machine::X86_64, OutputKind::StaticExecutable(_)) => true,
        (Machine::X86_64, OutputKind::DynamicExecutable(_)) => relax,
        _ => false,
    }
}

/// Whether in a section's code a reference to a descriptor holds the offset itself.
fn has_offset_mode(layout: &Layout, section: &InputSection) -> bool
    ensures { result ≡ has_offset_mode layout.now section.now }
{
    knows_offsets(layout.machine, layout.kind, layout.options.relax)
        && section.flags / SHF_EXECINSTR % 2 == 1
}

/// G by what is subtracted.
fn slot_less(
    loaded: &LoadedRef,
    file: &File,
    section: &InputSection,
    relocation: &InputRelocation,
    sort: SlotSort,
    subtrahend: Subtrahend,
) -> Option<Term>
    ensures { result ≡ slot_less (loaded_now loaded.now) file.now section.now relocation.now sort subtrahend }
{
    match (sort, subtrahend) {
        (SlotSort::TlsDesc, Subtrahend::Place) => {
            if has_offset_mode(loaded.layout, section) {
                return None;
            }
            slot_referent(loaded, file, SlotSort::TlsDesc, relocation.symbol)
        }
        (_, Subtrahend::Place) => slot_referent(loaded, file, sort, relocation.symbol),
        (SlotSort::Address, Subtrahend::GotBase) => {
            slot_referent(loaded, file, SlotSort::Address, relocation.symbol)
        }
        (_, Subtrahend::GotBase) => None,
        (SlotSort::Address, Subtrahend::PageOfGot) => {
            named_slot(loaded, file, relocation, SlotSort::Address)
        }
        (_, Subtrahend::PageOfGot) => None,
        (_, Subtrahend::Nothing) => named_slot(loaded, file, relocation, sort),
        (_, Subtrahend::PageOfPlace) => named_slot(loaded, file, relocation, sort),
    }
}

/// Z.
fn size_term(loaded: &LoadedRef, symbol: Option<SymbolIndex>) -> Option<Term>
    ensures { result ≡ size_term (loaded_now loaded.now) symbol }
{
    let symbols = loaded.layout.symbols.as_slice();
    let definition = symbols.get(loaded.layout.canonical(symbol?).0)?;
    if may_be_replaced(loaded.layout.kind, definition.flags) {
        let found = known_answer(loaded.outline, definition)?;
        return Some(found.answer.size(found.index));
    }
    Some(Term::number(definition.size))
}

/// The term of a formula, if its value is decided.
fn term_less(
    loaded: &LoadedRef,
    file: &File,
    section: &InputSection,
    relocation: &InputRelocation,
    term: wild_reloc::Term,
    subtrahend: Subtrahend,
) -> Option<Term>
    ensures { result ≡ term_less (loaded_now loaded.now) file.now section.now relocation.now term subtrahend }
{
    match (term, subtrahend) {
        (wild_reloc::Term::Symbol, Subtrahend::PageOfGot) => None,
        (wild_reloc::Term::Symbol, _) => referent_term(loaded, file, relocation),
        (wild_reloc::Term::Stub, Subtrahend::Place) => branch_term(loaded, file, relocation),
        (wild_reloc::Term::Stub, Subtrahend::GotBase) => {
            if is_x86_64(loaded.layout.machine) {
                branch_term(loaded, file, relocation)
            } else {
                plain_referent(loaded, file, relocation.symbol)
            }
        }
        (wild_reloc::Term::Slot(sort), _) => {
            slot_less(loaded, file, section, relocation, sort, subtrahend)
        }
        (wild_reloc::Term::GotBase, Subtrahend::Place) => Some(table_term(loaded)),
        (wild_reloc::Term::Size, Subtrahend::Nothing) => size_term(loaded, relocation.symbol),
        (wild_reloc::Term::PointerOffset, Subtrahend::Nothing) => {
            pointer_term(loaded, file, relocation.symbol)
        }
        (wild_reloc::Term::ModuleOffset, Subtrahend::Nothing) => {
            relative_term(loaded, file, relocation.symbol)
        }
        _ => None,
    }
}

/// The value of a formula by its term and what is subtracted.
fn value_by_parts(
    loaded: &LoadedRef,
    file: &File,
    section: &InputSection,
    relocation: &InputRelocation,
    term: wild_reloc::Term,
    subtrahend: Subtrahend,
) -> Option<Term>
    ensures { result ≡ value_by_parts (loaded_now loaded.now) file.now section.now relocation.now term subtrahend }
{
    let x = term_less(loaded, file, section, relocation, term, subtrahend)?;
    less(
        loaded,
        section,
        relocation,
        subtrahend,
        x.plus(addend(relocation)),
    )
}

/// Whether a field has eight whole bytes.
fn is_eight(size: RelocationSize) -> bool
    ensures { result ≡ is_eight size }
{
    match size {
        RelocationSize::ByteSize(Width::Eight) => true,
        _ => false,
    }
}

/// Whether nothing is subtracted.
fn is_nothing(subtrahend: Subtrahend) -> bool
    ensures { result ≡ is_nothing subtrahend }
{
    match subtrahend {
        Subtrahend::Nothing => true,
        _ => false,
    }
}

/// Whether a term is S.
fn is_symbol(term: wild_reloc::Term) -> bool
    ensures { result ≡ is_symbol term }
{
    match term {
        wild_reloc::Term::Symbol => true,
        _ => false,
    }
}

/// Whether a field has eight bytes of S + A, in a section that the program may write to.
fn is_word(section: &InputSection, row: &RelocationKindInfo) -> bool
    ensures { result ≡ is_word section.now row.now }
{
    section.flags / SHF_WRITE % 2 == 1
        && is_eight(row.size)
        && is_symbol(row.kind.expression().term)
        && is_nothing(row.subtrahend())
}

/// The address in the answer for a symbol that another module may define and that is interposable.
fn foreign_term(loaded: &LoadedRef, symbol: Option<SymbolIndex>) -> Option<Term>
    ensures { result ≡ foreign_term (loaded_now loaded.now) symbol }
{
    let symbols = loaded.layout.symbols.as_slice();
    let definition = symbols.get(loaded.layout.canonical(symbol?).0)?;
    let flags = definition.flags;
    if may_be_replaced(loaded.layout.kind, flags) && flags.is_interposable() {
        answered_term(loaded.outline, definition)
    } else {
        None
    }
}

/// S + A, from the world's answer, in a word that a loader fills.
fn word_term(
    loaded: &LoadedRef,
    section: &InputSection,
    relocation: &InputRelocation,
    row: &RelocationKindInfo,
) -> Option<Term>
    ensures { result ≡ word_term (loaded_now loaded.now) section.now relocation.now row.now }
{
    if !is_word(section, row) {
        return None;
    }
    let x = foreign_term(loaded, relocation.symbol)?;
    Some(x.plus(addend(relocation)))
}

/// The value of the reference's formula.
fn value_term(
    loaded: &LoadedRef,
    file: &File,
    section: &InputSection,
    relocation: &InputRelocation,
    row: &RelocationKindInfo,
) -> Option<Term>
    ensures { result ≡ value_term (loaded_now loaded.now) file.now section.now relocation.now row.now }
{
    value_by_parts(
        loaded,
        file,
        section,
        relocation,
        row.kind.expression().term,
        row.subtrahend(),
    )
}

/// Whether a field has all 64 bits of any value.
fn is_whole(row: &RelocationKindInfo) -> bool
    ensures { result ≡ is_whole row.now }
{
    is_eight(row.size)
        && row.alignment <= 1
        && row.range.below == 1 << 63
        && row.range.above == 1 << 63
}

/// The bytes of a field after a number is written over the input's, and zeros.
fn written_field(row: &RelocationKindInfo, value: u64, old: &[u8]) -> [u8; 8]
    requires whole { length old.now ≡ field_width row.now }
    ensures written { take (field_width row.now) result ≡ written row.now value old.now }
    ensures long { length result ≡ 8 }
{
    widths_of_fields();
    let _width = row.width();
    let mut field = [0; 8];
    put(&mut field, 0, old);
    row.size.write(value, &mut field);
    field
}

/// Whether the field has a number.
fn number_holds(
    memory: &TermMemory,
    section: &InputSection,
    relocation: &InputRelocation,
    row: &RelocationKindInfo,
    value: u64,
) -> bool
    requires inside { is_inside section.now relocation.now row.now ≡ true }
    ensures { result ≡ number_holds memory.now section.now relocation.now row.now value }
{
    let width = row.width();
    let start = relocation.offset as usize;
    let place = section.address + relocation.offset;
    let old = &section.bytes.as_slice()[start..start + width];
    let field = written_field(row, value, old);
    row.allows(value) && has_bytes(memory, place, &field[..width])
}

/// Whether a field has the offset of an address in its page.
fn is_part(class: Class) -> bool
    ensures { result ≡ is_part class }
{
    match class {
        Class::Part => true,
        _ => false,
    }
}

/// Whether the field has a value. A term that depends on the world needs a field of 64 bits. The offset in its page of an address that
/// moves by pages does not depend on it.
fn value_holds(
    loaded: &LoadedRef,
    section: &InputSection,
    relocation: &InputRelocation,
    row: &RelocationKindInfo,
    x: Term,
) -> bool
    requires inside { is_inside section.now relocation.now row.now ≡ true }
    ensures { result ≡ value_holds (loaded_now loaded.now) section.now relocation.now row.now x }
{
    let memory = loaded.memory;
    if is_whole(row) {
        return is_known(memory.term(section.address + relocation.offset, 8), x);
    }
    match x.atom {
        Atom::Zero => number_holds(memory, section, relocation, row, x.plus),
        Atom::Base => {
            is_part(row.kind.expression().class)
                && loaded.layout.page_size % 4096 == 0
                && number_holds(memory, section, relocation, row, x.plus % 4096)
        }
        _ => false,
    }
}

/// Whether there is a field, and it is in the section.
fn is_inside(section: &InputSection, relocation: &InputRelocation, row: &RelocationKindInfo) -> bool
    ensures { result ≡ is_inside section.now relocation.now row.now }
{
    let width = row.width();
    let end = relocation.offset as u128 + width as u128;
    width > 0
        && end <= section.bytes.len() as u128
        && section.address as u128 + (relocation.offset as u128) < 1 << 64
}

/// Whether the field has a value, if that is known.
fn field_holds(
    loaded: &LoadedRef,
    section: &InputSection,
    relocation: &InputRelocation,
    row: &RelocationKindInfo,
    value: Option<Term>,
) -> bool
    ensures { result ≡ field_holds (loaded_now loaded.now) section.now relocation.now row.now value }
{
    match value {
        Some(x) => {
            is_inside(section, relocation, row) && value_holds(loaded, section, relocation, row, x)
        }
        None => false,
    }
}

/// Whether a relocation only marks an instruction.
fn is_mark(term: wild_reloc::Term) -> bool
    ensures { result ≡ is_mark term }
{
    match term {
        wild_reloc::Term::Nothing => true,
        _ => false,
    }
}

/// Whether a mark is in the section and has no field, and references to descriptors do not hold offsets.
fn mark_holds(
    loaded: &LoadedRef,
    section: &InputSection,
    relocation: &InputRelocation,
    row: &RelocationKindInfo,
) -> bool
    ensures { result ≡ mark_holds (loaded_now loaded.now) section.now relocation.now row.now }
{
    row.width() == 0
        && relocation.offset <= section.bytes.len() as u64
        && row.allows(0)
        && !has_offset_mode(loaded.layout, section)
}

/// Whether the field of a reference has the value of its formula in every world.
#[tactic(auto, unfolding(crate::specs::References::reference_holds))]
pub(crate) fn reference_holds(
    loaded: &LoadedRef,
    file: &File,
    section: &InputSection,
    relocation: &InputRelocation,
) -> bool
    ensures { result ≡ reference_holds (loaded_now loaded.now) file.now section.now relocation.now }
{
    match row_of(loaded.layout.machine, relocation.number) {
        Some(row) => {
            if is_mark(row.kind.expression().term) {
                return mark_holds(loaded, section, relocation, &row);
            }
            let file = file_for(loaded, file, relocation.symbol);
            let value = value_term(loaded, file, section, relocation, &row);
            if field_holds(loaded, section, relocation, &row, value) {
                return true;
            }
            let word = word_term(loaded, section, relocation, &row);
            field_holds(loaded, section, relocation, &row, word)
        }
        None => false,
    }
}
