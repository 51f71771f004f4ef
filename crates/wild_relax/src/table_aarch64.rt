//! The rewrite rows of AArch64 as data, grouped by relocation type. Definitions read this table.
//!
//! Each word of a sequence has its own relocation, so a rewrite of a sequence is one row for each word.
//! The conditions of a sequence's rows agree, so that either all of them apply or none.
//! Four words of a descriptor call become two `nop` and two words that compute the offset; the first two are the `nop`.
//! `adrp` and `add` become `nop` and `adr` if the target is within 1 MiB.
//! Branch rows change no bytes: only the target changes, from symbol to stub or back.
//! Read aaelf64, "Relocation types", "Thread Local Storage", "Call and Jump relocations".
ghost use Rattle.std.specs.Prelude.{◌≡◌};
ghost use Rattle.wild_relax.specs.RowsAArch64.{rows_with_aarch64};

use crate::pattern::{Pattern, Sequence};
use crate::relaxation::RelaxationKind;
use crate::row::{Distance, Duty, Goal, Made, Row, SymbolTest, ValueTest, Word, Written};
use wild_records::abi::relocation::{
    R_AARCH64_ADD_ABS_LO12_NC, R_AARCH64_ADR_PREL_PG_HI21, R_AARCH64_CALL26, R_AARCH64_CONDBR19,
    R_AARCH64_JUMP26, R_AARCH64_PLT32, R_AARCH64_TLSDESC_ADD_LO12, R_AARCH64_TLSDESC_ADR_PAGE21,
    R_AARCH64_TLSDESC_CALL, R_AARCH64_TLSDESC_LD64_LO12, R_AARCH64_TLSIE_ADR_GOTTPREL_PAGE21,
    R_AARCH64_TLSIE_LD64_GOTTPREL_LO12_NC, R_AARCH64_TSTBR14,
};

// The distance to a stub, as data, becomes that to the symbol. This row also has the defaults of the other rows.
const PLT: Row = Row {
    number: R_AARCH64_PLT32,
    in_code: false,
    symbol: SymbolTest::Plain,
    value: ValueTest::Own,
    thread_local: false,
    ends: false,
    duty: Duty::Static,
    ignores_bytes: false,
    required_bytes: Pattern::Nothing,
    needed: Pattern::Nothing,
    needs_end: false,
    partner: None,
    made: Made::Kept,
    written: Written::Code(Distance::Plt32, Goal::Symbol),
    kind: RelaxationKind::NoOp,
};

// A branch to an IFUNC goes to its stub.
const IFUNC_JUMP: Row = Row {
    number: R_AARCH64_JUMP26,
    symbol: SymbolTest::Ifunc,
    value: ValueTest::Any,
    duty: Duty::Always,
    written: Written::Code(Distance::Jump26, Goal::Stub),
    ..PLT
};

const IFUNC_CALL: Row = Row {
    number: R_AARCH64_CALL26,
    written: Written::Code(Distance::Call26, Goal::Stub),
    ..IFUNC_JUMP
};

// A branch to a stub goes to the symbol.
const JUMP: Row = Row {
    number: R_AARCH64_JUMP26,
    in_code: true,
    written: Written::Code(Distance::Jump26, Goal::Symbol),
    ..PLT
};

const CALL: Row = Row {
    number: R_AARCH64_CALL26,
    written: Written::Code(Distance::Call26, Goal::Symbol),
    ..JUMP
};

// A conditional branch to a weak symbol that another module may define goes to its stub.
const CONDITION: Row = Row {
    number: R_AARCH64_CONDBR19,
    in_code: true,
    symbol: SymbolTest::UndefinedWeak,
    value: ValueTest::Interposable,
    duty: Duty::Always,
    written: Written::Code(Distance::CondBr19, Goal::Stub),
    ..PLT
};

const TEST: Row = Row {
    number: R_AARCH64_TSTBR14,
    written: Written::Code(Distance::TstBr14, Goal::Stub),
    ..CONDITION
};

/// The call of a descriptor's function becomes an offset from the thread pointer, in the last two words; this is its first word.
pub const CALL_FIRST: Row = Row {
    number: R_AARCH64_TLSDESC_ADR_PAGE21,
    in_code: true,
    value: ValueTest::Any,
    thread_local: true,
    ignores_bytes: true,
    needed: Pattern::Among(Sequence::DescriptorCall, 0),
    made: Made::Code(Word::Nop),
    written: Written::Nothing,
    kind: RelaxationKind::ReplaceWithNop,
    ..PLT
};

/// The second word.
pub const CALL_SECOND: Row = Row {
    number: R_AARCH64_TLSDESC_LD64_LO12,
    needed: Pattern::Among(Sequence::DescriptorCall, 1),
    ..CALL_FIRST
};

/// The third.
pub const CALL_THIRD: Row = Row {
    number: R_AARCH64_TLSDESC_ADD_LO12,
    value: ValueTest::Own,
    needed: Pattern::Among(Sequence::DescriptorCall, 2),
    made: Made::Code(Word::MovzX0),
    written: Written::TlsLeMovwTprelG1,
    kind: RelaxationKind::MovzX0Lsl16,
    ..CALL_FIRST
};

/// The fourth.
pub const CALL_FOURTH: Row = Row {
    number: R_AARCH64_TLSDESC_CALL,
    value: ValueTest::Own,
    needed: Pattern::Among(Sequence::DescriptorCall, 3),
    made: Made::Code(Word::MovkX0),
    written: Written::TlsLeMovwTprelG0Nc,
    kind: RelaxationKind::MovkX0,
    ..CALL_FIRST
};

/// For symbols that other modules may define, it becomes the offset in a slot.
pub const CALL_THIRD_SLOT: Row = Row {
    value: ValueTest::Interposable,
    made: Made::Code(Word::AdrpX0),
    written: Written::TlsIeAdrGotTprelPage21,
    kind: RelaxationKind::AdrpX0,
    ..CALL_THIRD
};

/// The fourth word in that case.
pub const CALL_FOURTH_SLOT: Row = Row {
    value: ValueTest::Interposable,
    made: Made::Code(Word::LdrX0),
    written: Written::TlsIeLd64GotTprelLo12Nc,
    kind: RelaxationKind::LdrX0,
    ..CALL_FOURTH
};

/// The offset in a slot becomes a number.
pub const SLOT_FIRST: Row = Row {
    number: R_AARCH64_TLSIE_ADR_GOTTPREL_PAGE21,
    in_code: true,
    thread_local: true,
    duty: Duty::Never,
    required_bytes: Pattern::Among(Sequence::OffsetSlot, 0),
    made: Made::Code(Word::Movz),
    written: Written::TlsLeMovwTprelG1,
    kind: RelaxationKind::MovzXnLsl16,
    ..PLT
};

/// Its second word.
pub const SLOT_SECOND: Row = Row {
    number: R_AARCH64_TLSIE_LD64_GOTTPREL_LO12_NC,
    required_bytes: Pattern::Among(Sequence::OffsetSlot, 1),
    made: Made::Code(Word::Movk),
    written: Written::TlsLeMovwTprelG0Nc,
    kind: RelaxationKind::MovkXn,
    ..SLOT_FIRST
};

/// A near address becomes its distance, in the second word; this is the first word.
pub const ADDRESS_FIRST: Row = Row {
    number: R_AARCH64_ADR_PREL_PG_HI21,
    in_code: true,
    value: ValueTest::OwnNear(4),
    duty: Duty::Never,
    required_bytes: Pattern::Among(Sequence::Address, 0),
    made: Made::Code(Word::Nop),
    written: Written::Nothing,
    kind: RelaxationKind::AdrpAddToNopAdr,
    ..PLT
};

/// Its second word.
pub const ADDRESS_SECOND: Row = Row {
    number: R_AARCH64_ADD_ABS_LO12_NC,
    value: ValueTest::OwnNear(0),
    required_bytes: Pattern::Among(Sequence::Address, 1),
    made: Made::Code(Word::Adr),
    written: Written::AdrPrelLo21,
    ..ADDRESS_FIRST
};

const WITH_PLT32: [Row; 1] = [PLT];

const WITH_TSTBR14: [Row; 1] = [TEST];

const WITH_CONDBR19: [Row; 1] = [CONDITION];

const WITH_JUMP26: [Row; 2] = [IFUNC_JUMP, JUMP];

const WITH_CALL26: [Row; 2] = [IFUNC_CALL, CALL];

const WITH_TLSDESC_ADR_PAGE21: [Row; 1] = [CALL_FIRST];

const WITH_TLSDESC_LD64_LO12: [Row; 1] = [CALL_SECOND];

const WITH_TLSDESC_ADD_LO12: [Row; 2] = [CALL_THIRD, CALL_THIRD_SLOT];

const WITH_TLSDESC_CALL: [Row; 2] = [CALL_FOURTH, CALL_FOURTH_SLOT];

const WITH_TLSIE_ADR_GOTTPREL_PAGE21: [Row; 1] = [SLOT_FIRST];

const WITH_TLSIE_LD64_GOTTPREL_LO12_NC: [Row; 1] = [SLOT_SECOND];

const WITH_ADR_PREL_PG_HI21: [Row; 1] = [ADDRESS_FIRST];

const WITH_ADD_ABS_LO12_NC: [Row; 1] = [ADDRESS_SECOND];

const NO_ROWS: [Row; 0] = [];

/// The rows of a relocation type.
#[tactic(auto, unfolding(crate::specs::RowsAArch64::rows_with_aarch64, crate::specs::RowsAArch64::rows_aarch64))]
pub(crate) fn rows_with_aarch64(number: u32) -> &'static [Row]
    ensures { result.now ≡ rows_with_aarch64 number }
{
    match number {
        R_AARCH64_ADR_PREL_PG_HI21 => &WITH_ADR_PREL_PG_HI21,
        R_AARCH64_ADD_ABS_LO12_NC => &WITH_ADD_ABS_LO12_NC,
        R_AARCH64_TSTBR14 => &WITH_TSTBR14,
        R_AARCH64_CONDBR19 => &WITH_CONDBR19,
        R_AARCH64_JUMP26 => &WITH_JUMP26,
        R_AARCH64_CALL26 => &WITH_CALL26,
        R_AARCH64_PLT32 => &WITH_PLT32,
        R_AARCH64_TLSIE_ADR_GOTTPREL_PAGE21 => &WITH_TLSIE_ADR_GOTTPREL_PAGE21,
        R_AARCH64_TLSIE_LD64_GOTTPREL_LO12_NC => &WITH_TLSIE_LD64_GOTTPREL_LO12_NC,
        R_AARCH64_TLSDESC_ADR_PAGE21 => &WITH_TLSDESC_ADR_PAGE21,
        R_AARCH64_TLSDESC_LD64_LO12 => &WITH_TLSDESC_LD64_LO12,
        R_AARCH64_TLSDESC_ADD_LO12 => &WITH_TLSDESC_ADD_LO12,
        R_AARCH64_TLSDESC_CALL => &WITH_TLSDESC_CALL,
        _ => &NO_ROWS,
    }
}
