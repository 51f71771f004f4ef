//! A rewrite row: its conditions on a relocation, and the bytes that it writes, as data; and which row applies to a relocation.
//! The first row that applies is chosen.
ghost use Rattle.std.specs.Prelude.{◌≡◌, ◌+◌};
ghost use Rattle.wild_relax.specs.Question.{question, relocation_of};
ghost use Rattle.wild_relax.specs.FirstRow.{first_standing};
ghost use Rattle.wild_relax.specs.RowSymbols.{is_held, is_near, takes_value, takes_symbol, is_mandatory};
ghost use Rattle.wild_relax.specs.RowSequences.{is_call_number, is_call_addend, is_partner, has_partner, has_its_sequence};
ghost use Rattle.wild_relax.specs.Rows.{applies, first_row_x86_64, chosen_row_x86_64};

use crate::pattern::{GeneralForm, LocalForm, Operation, Pattern, Prefix, is_pattern_at};
use crate::reference::{Reference, RelocationInfo, UnknownSequence, is_minus_four, is_zero};
use crate::relaxation::RelaxationKind;
use crate::table::rows_with;
use wild_records::abi::relocation::{
    R_X86_64_GOTPCREL, R_X86_64_GOTPCRELX, R_X86_64_PC32, R_X86_64_PLT32, R_X86_64_PLTOFF64,
    R_X86_64_REX_GOTPCRELX,
};
use wild_reloc::{AllowedRange, Sign};
use wild_types::is_executable;

/// The symbols to which a row applies.
#[derive(Clone, Copy)]
pub enum SymbolTest {
    /// Its address is the answer of a resolver (`STT_GNU_IFUNC`).
    Ifunc,
    /// Any other symbol.
    Plain,
    /// A weak symbol other than an IFUNC that nothing defines.
    UndefinedWeak,
    /// Every symbol.
    Any,
}

/// The values of the symbol that a row accepts, in that output.
#[derive(Clone, Copy)]
pub enum ValueTest {
    /// Every value.
    Any,
    /// A value of this output's own definition.
    Own,
    /// An own value, known at link time, that fits in a signed field of 32 bits.
    OwnSigned,
    /// The same for an unsigned field.
    OwnUnsigned,
    /// An own value that is not known at link time.
    OwnMoving,
    /// An own value in an output with a fixed base, or an own address of the output.
    OwnFixed,
    /// An own address of the output that `adr` reaches from that many bytes after the relocation (C6.2: 21 bits, signed).
    OwnNear(u64),
    /// A value that another module may define.
    Interposable,
}

/// When a row is applied even if rewriting is off, because no loader fills the slot or there is no slot.
#[derive(Clone, Copy)]
pub enum Duty {
    Never,
    /// In a static executable.
    Static,
    /// In a static executable, if the symbol is absolute.
    StaticAbsolute,
    /// In a static executable that is position-independent.
    StaticMovable,
    Always,
}

/// The call of a sequence, which has the next relocation.
#[derive(Clone, Copy)]
pub struct Partner {
    /// The distance from the row's field to the call's field.
    pub distance: u64,
    /// The form of the call.
    pub form: GeneralForm,
}

/// The new word of AArch64, except for its field.
#[derive(Clone, Copy)]
pub enum Word {
    /// `nop`.
    Nop,
    /// `movz x0, #0, lsl #16`.
    MovzX0,
    /// `movk x0, #0`.
    MovkX0,
    /// `adrp x0`.
    AdrpX0,
    /// `ldr x0, [x0]`.
    LdrX0,
    /// `movz`, shifted by 16, to the register that the old word sets.
    Movz,
    /// `movk` to that register.
    Movk,
    /// `adr` to that register.
    Adr,
}

/// The bytes that replace the input's.
#[derive(Clone, Copy)]
pub enum Made {
    /// Only the field changes.
    Kept,
    /// The opcode of `lea`.
    Lea,
    /// The opcode of `mov` of the word in a slot.
    Load,
    /// The operation over an immediate.
    Immediate(Prefix, Operation),
    /// `mov` of an immediate of 32 bits.
    MovImmediate,
    /// `call`.
    DirectCall,
    /// `jmp`, and a byte that is never reached.
    DirectJump,
    /// Instructions that do nothing.
    Nop,
    /// The thread pointer and a number.
    LocalExec,
    /// The same, for a longer sequence.
    LocalExecLarge,
    /// The thread pointer and the offset in a slot.
    InitialExec,
    /// The thread pointer, for that sequence.
    ThreadPointer(LocalForm),
    /// A word of AArch64.
    Code(Word),
}

/// A relocation type of AArch64 that holds a code distance.
#[derive(Clone, Copy)]
pub enum Distance {
    Jump26,
    Call26,
    CondBr19,
    TstBr14,
    Plt32,
}

/// The target of a code distance.
#[derive(Clone, Copy)]
pub enum Goal {
    /// The symbol itself.
    Symbol,
    /// Its stub.
    Stub,
}

/// The relocation type with which the field is written.
#[derive(Clone, Copy)]
pub enum Written {
    Nothing,
    Pc32,
    Plt32,
    Unsigned32,
    Signed32,
    GotTpOff,
    TpOff32,
    GotOff64,
    /// The type of the input, with its target changed.
    Code(Distance, Goal),
    TlsLeMovwTprelG1,
    TlsLeMovwTprelG0Nc,
    TlsIeAdrGotTprelPage21,
    TlsIeLd64GotTprelLo12Nc,
    AdrPrelLo21,
}

/// A row, for one variant of its bytes.
#[derive(Clone, Copy)]
pub struct Row {
    /// The relocation type to which it applies.
    pub number: u32,
    /// Whether it applies only in executable sections.
    pub in_code: bool,
    pub symbol: SymbolTest,
    pub value: ValueTest,
    /// Whether it is about thread-local storage; only an executable knows offsets from the thread pointer.
    pub thread_local: bool,
    /// Whether it applies only if the addend is -4, for the field's own four bytes.
    pub ends: bool,
    pub duty: Duty,
    /// Whether it applies whatever the bytes at its relocation are.
    pub ignores_bytes: bool,
    /// The bytes without which it does not apply.
    pub required_bytes: Pattern,
    /// The bytes that it needs if it applies.
    pub needed: Pattern,
    /// Whether it then needs the addend to be -4, for the field's own four bytes.
    pub needs_end: bool,
    /// The call that it needs and rewrites with it.
    pub partner: Option<Partner>,
    pub made: Made,
    pub written: Written,
    /// Its name.
    pub kind: RelaxationKind,
}

// Whether the value is known at link time and a field of 32 bits can hold it.
fn is_held(sign: Sign, reference: &Reference) -> bool
    ensures { result ≡ is_held sign (question reference.now) }
{
    match reference.value {
        Some(value) if reference.is_known() => {
            AllowedRange::from_bit_size(32, sign).contains(value)
        }
        _ => false,
    }
}

// Whether the value is not 0, and `adr` reaches it from that many bytes after the relocation.
fn is_near(behind: u64, reference: &Reference) -> bool
    ensures { result ≡ is_near behind (question reference.now) }
{
    let Some(value) = reference.value else {
        return false;
    };
    let offset = reference.relocation().offset;
    let place = reference.address.wrapping_add(offset).wrapping_add(behind);
    value != 0 && AllowedRange::from_bit_size(21, Sign::Signed).contains(value.wrapping_sub(place))
}

// Whether the symbol's value passes the test in that output.
fn takes_value(test: ValueTest, reference: &Reference) -> bool
    ensures { result ≡ takes_value test (question reference.now) }
{
    match test {
        ValueTest::Any => true,
        ValueTest::Own => reference.is_own(),
        ValueTest::OwnSigned => reference.is_own() && is_held(Sign::Signed, reference),
        ValueTest::OwnUnsigned => reference.is_own() && is_held(Sign::Unsigned, reference),
        ValueTest::OwnMoving => reference.is_own() && !reference.is_known(),
        ValueTest::OwnFixed => {
            reference.is_own()
                && (reference.flags.has_link_time_address()
                    || reference.kind.has_fixed_load_address())
        }
        ValueTest::OwnNear(behind) => {
            reference.is_own()
                && reference.flags.has_link_time_address()
                && !reference.flags.is_undefined_weak()
                && is_near(behind, reference)
        }
        ValueTest::Interposable => !reference.is_own(),
    }
}

// Whether the symbol passes the test.
fn takes_symbol(test: SymbolTest, reference: &Reference) -> bool
    ensures { result ≡ takes_symbol test (question reference.now) }
{
    match test {
        SymbolTest::Ifunc => reference.flags.is_ifunc(),
        SymbolTest::Plain => !reference.flags.is_ifunc(),
        SymbolTest::UndefinedWeak => {
            !reference.flags.is_ifunc() && reference.flags.is_undefined_weak()
        }
        SymbolTest::Any => true,
    }
}

/// Whether a row is applied even if rewriting is off.
pub(crate) fn is_mandatory(duty: Duty, reference: &Reference) -> bool
    ensures { result ≡ is_mandatory duty (question reference.now) }
{
    let by_itself = reference.kind.is_static_executable();
    match duty {
        Duty::Never => false,
        Duty::Static => by_itself,
        Duty::StaticAbsolute => by_itself && reference.flags.is_absolute(),
        Duty::StaticMovable => by_itself && reference.kind.is_position_independent(),
        Duty::Always => true,
    }
}

/// Whether the row applies to the relocation.
#[tactic(auto, unfolding(crate::specs::Rows::applies))]
pub(crate) fn is_applied(row: &Row, reference: &Reference) -> bool
    ensures { result ≡ applies (question reference.now) row.now }
{
    let relocation = reference.relocation();
    relocation.number == row.number
        && (reference.relax || is_mandatory(row.duty, reference))
        && (!row.in_code || is_executable(reference.section_flags))
        && takes_symbol(row.symbol, reference)
        && (!row.thread_local || reference.kind.is_executable())
        && takes_value(row.value, reference)
        && (!row.ends || is_minus_four(relocation.addend))
        && (row.ignores_bytes
            || is_pattern_at(reference.bytes, relocation.offset, row.required_bytes))
}

// Whether a call of that form has a relocation of that type.
fn is_call_number(form: GeneralForm, number: u32) -> bool
    ensures { result ≡ is_call_number form number }
{
    match form {
        GeneralForm::Regular => number == R_X86_64_PC32 || number == R_X86_64_PLT32,
        GeneralForm::NoPlt => {
            number == R_X86_64_GOTPCREL
                || number == R_X86_64_GOTPCRELX
                || number == R_X86_64_REX_GOTPCRELX
        }
        GeneralForm::Large => number == R_X86_64_PLTOFF64,
    }
}

// Whether a call of that form has that addend.
fn is_call_addend(form: GeneralForm, addend: i64) -> bool
    ensures { result ≡ is_call_addend form addend }
{
    match form {
        GeneralForm::Large => is_zero(addend),
        _ => is_minus_four(addend),
    }
}

// Whether the next relocation is that of the sequence's call.
#[tactic(auto, unfolding(crate::specs::RowSequences::is_partner))]
fn is_partner(partner: &Partner, offset: u64, next: RelocationInfo) -> bool
    ensures { result ≡ is_partner partner.now.form (offset + partner.now.distance) next }
{
    next.offset >= offset
        && next.offset - offset == partner.distance
        && next.names_tls_get_addr
        && is_call_number(partner.form, next.number)
        && is_call_addend(partner.form, next.addend)
}

// Whether the sequence is whole, by the field's addend and the next relocation.
fn has_partner(row: &Row, reference: &Reference) -> bool
    ensures { result ≡ has_partner row.now (question reference.now) }
{
    match (&row.partner, reference.next()) {
        (None, _) => true,
        (Some(_), None) => false,
        (Some(partner), Some(next)) => {
            let relocation = reference.relocation();
            is_minus_four(relocation.addend) && is_partner(partner, relocation.offset, next)
        }
    }
}

/// Whether the row, if it applies, has all that it needs.
#[tactic(auto, unfolding(crate::specs::RowSequences::has_its_sequence))]
pub(crate) fn has_its_sequence(row: &Row, reference: &Reference) -> bool
    ensures { result ≡ has_its_sequence (question reference.now) row.now }
{
    let relocation = reference.relocation();
    is_pattern_at(reference.bytes, relocation.offset, row.needed)
        && (!row.needs_end || is_minus_four(relocation.addend))
        && has_partner(row, reference)
}

// The first of the rows that applies.
fn first_of(rows: &[Row], reference: &Reference) -> Option<Row>
    ensures { result ≡ first_standing (applies (question reference.now)) rows.now }
{
    match rows.split_first() {
        None => None,
        Some((row, rest)) => {
            if is_applied(row, reference) {
                Some(*row)
            } else {
                first_of(rest, reference)
            }
        }
    }
}

// The first row that applies, among those of the relocation's type.
fn first_row(reference: &Reference) -> Option<Row>
    ensures { result ≡ first_row_x86_64 (question reference.now) }
{
    first_of(rows_with(reference.relocation().number), reference)
}

/// The first row that applies; refused if its sequence is missing.
#[tactic(auto, unfolding(crate::specs::Rows::chosen_row_x86_64))]
pub(crate) fn choose(reference: &Reference) -> Result<Option<Row>, UnknownSequence>
    ensures { result ≡ chosen_row_x86_64 (question reference.now) }
{
    let Some(row) = first_row(reference) else {
        return Ok(None);
    };
    if has_its_sequence(&row, reference) {
        Ok(Some(row))
    } else {
        Err(UnknownSequence {
            number: reference.relocation().number,
            written: row.row_written(),
        })
    }
}
