//! The rewrite rows of x86-64 as data, grouped by relocation type. Definitions read this table.
//!
//! An instruction that loads from a GOT slot becomes one with the address or number itself, of the same length. A shorter
//! sequence is filled up with prefixes or `nop`.
//! The GOTPCRELX types promise an instruction that may be rewritten, but not which one, so the bytes are still compared.
//! GOTPCREL promises nothing: its row only applies if the bytes match.
//! General and local dynamic sequences span two relocations. The row of the first also covers the call of the second, which is
//! then skipped.
//! With REX2 (Intel APX) the same instructions have longer prefixes and relocation types of their own.
//! Read x86-64 psABI, "Linker Optimization", and "ELF Handling For Thread-Local Storage", "Linker Relaxations".
ghost use Rattle.std.specs.Prelude.{◌≡◌};
ghost use Rattle.wild_relax.specs.RowsOfType.{rows_with};

use crate::pattern::{GeneralForm, LocalForm, Operation, Pattern, Prefix};
use crate::relaxation::RelaxationKind;
use crate::row::{Duty, Made, Partner, Row, SymbolTest, ValueTest, Written};
use wild_records::abi::relocation::{
    R_X86_64_CODE_4_GOTPC32_TLSDESC, R_X86_64_CODE_4_GOTPCRELX, R_X86_64_CODE_4_GOTTPOFF,
    R_X86_64_GOTPC32_TLSDESC, R_X86_64_GOTPCREL, R_X86_64_GOTPCRELX, R_X86_64_GOTTPOFF,
    R_X86_64_PC32, R_X86_64_PLT32, R_X86_64_PLTOFF64, R_X86_64_REX_GOTPCRELX,
    R_X86_64_TLSDESC_CALL, R_X86_64_TLSGD, R_X86_64_TLSLD,
};

/// The distance from the global offset table to a stub becomes that to the symbol. This row also has the defaults of the other
/// rows.
pub const PLT_OFF: Row = Row {
    number: R_X86_64_PLTOFF64,
    in_code: true,
    symbol: SymbolTest::Plain,
    value: ValueTest::Own,
    thread_local: false,
    ends: false,
    duty: Duty::Static,
    ignores_bytes: false,
    required_bytes: Pattern::Nothing,
    needed: Pattern::Nothing,
    needs_end: false,
    partner: None,
    made: Made::Kept,
    written: Written::GotOff64,
    kind: RelaxationKind::NoOp,
};

// A distance to an IFUNC goes to its stub.
const IFUNC: Row = Row {
    number: R_X86_64_PC32,
    in_code: false,
    symbol: SymbolTest::Ifunc,
    value: ValueTest::Any,
    duty: Duty::Always,
    written: Written::Plt32,
    ..PLT_OFF
};

/// A distance to a stub goes to the symbol.
pub const PLT: Row = Row {
    number: R_X86_64_PLT32,
    written: Written::Pc32,
    ..PLT_OFF
};

// `mov` of a value in a slot becomes one of an immediate, of 64 bits.
const NUMBER: Row = Row {
    number: R_X86_64_REX_GOTPCRELX,
    value: ValueTest::OwnSigned,
    ends: true,
    duty: Duty::StaticAbsolute,
    required_bytes: Pattern::Wide(Prefix::Rex, Operation::Mov),
    made: Made::Immediate(Prefix::Rex, Operation::Mov),
    written: Written::Signed32,
    kind: RelaxationKind::RexMovIndirectToAbsolute(3),
    ..PLT_OFF
};

/// The same for `cmp`.
pub const COMPARISON: Row = Row {
    required_bytes: Pattern::Wide(Prefix::Rex, Operation::Cmp),
    made: Made::Immediate(Prefix::Rex, Operation::Cmp),
    kind: RelaxationKind::RexCmpIndirectToAbsolute(3),
    ..NUMBER
};

// `mov` of an address in a slot becomes `lea`, of 64 bits.
const LEA: Row = Row {
    number: R_X86_64_REX_GOTPCRELX,
    value: ValueTest::OwnMoving,
    ends: true,
    required_bytes: Pattern::Wide(Prefix::Rex, Operation::Mov),
    made: Made::Lea,
    written: Written::Pc32,
    kind: RelaxationKind::MovIndirectToLea,
    ..PLT_OFF
};

/// The same with the longer prefix.
pub const LEA_2: Row = Row {
    number: R_X86_64_CODE_4_GOTPCRELX,
    required_bytes: Pattern::Wide(Prefix::Rex2, Operation::Mov),
    ..LEA
};

/// The same for a relocation type that does not promise such an instruction.
pub const PLAIN_LEA: Row = Row {
    number: R_X86_64_GOTPCREL,
    value: ValueTest::OwnFixed,
    duty: Duty::Never,
    ..LEA
};

// `call` through a slot becomes a direct one.
const CALL: Row = Row {
    number: R_X86_64_GOTPCRELX,
    ends: true,
    duty: Duty::StaticMovable,
    required_bytes: Pattern::Call,
    made: Made::DirectCall,
    written: Written::Pc32,
    kind: RelaxationKind::CallIndirectToRelative,
    ..PLT_OFF
};

/// `jmp` through a slot becomes a direct one.
pub const JUMP: Row = Row {
    required_bytes: Pattern::Jump,
    made: Made::DirectJump,
    kind: RelaxationKind::JmpIndirectToRelative,
    ..CALL
};

// `mov` of the thread-pointer offset in a slot becomes `mov` of an immediate.
const OFFSET: Row = Row {
    number: R_X86_64_GOTTPOFF,
    thread_local: true,
    ends: true,
    required_bytes: Pattern::Wide(Prefix::Rex, Operation::Mov),
    made: Made::Immediate(Prefix::Rex, Operation::Mov),
    written: Written::TpOff32,
    kind: RelaxationKind::RexMovIndirectToAbsolute(3),
    ..PLT_OFF
};

// The same for `add`, only if rewriting is on: the code works without it.
const ADDED: Row = Row {
    duty: Duty::Never,
    required_bytes: Pattern::Wide(Prefix::Rex, Operation::Add),
    made: Made::Immediate(Prefix::Rex, Operation::Add),
    kind: RelaxationKind::RexAddIndirectToAbsolute(3),
    ..OFFSET
};

// A call of `__tls_get_addr` for a symbol becomes the thread pointer and a number.
const GENERAL: Row = Row {
    number: R_X86_64_TLSGD,
    thread_local: true,
    required_bytes: Pattern::General(GeneralForm::Regular),
    partner: Some(Partner {
        distance: 8,
        form: GeneralForm::Regular,
    }),
    made: Made::LocalExec,
    written: Written::TpOff32,
    kind: RelaxationKind::TlsGdToLocalExec,
    ..PLT_OFF
};

/// The same for a call through a slot.
pub const GENERAL_NO_PLT: Row = Row {
    required_bytes: Pattern::General(GeneralForm::NoPlt),
    partner: Some(Partner {
        distance: 8,
        form: GeneralForm::NoPlt,
    }),
    ..GENERAL
};

/// It becomes the offset in a slot, for symbols that other modules may define.
pub const GENERAL_NO_PLT_SLOT: Row = Row {
    value: ValueTest::Interposable,
    duty: Duty::Never,
    made: Made::InitialExec,
    written: Written::GotTpOff,
    kind: RelaxationKind::TlsGdToInitialExec,
    ..GENERAL_NO_PLT
};

/// A call of `__tls_get_addr` for the output's own data becomes the thread pointer.
pub const LOCAL: Row = Row {
    number: R_X86_64_TLSLD,
    value: ValueTest::Any,
    thread_local: true,
    required_bytes: Pattern::LocalStart(LocalForm::Regular),
    needed: Pattern::Local(LocalForm::Regular),
    partner: Some(Partner {
        distance: 5,
        form: GeneralForm::Regular,
    }),
    made: Made::ThreadPointer(LocalForm::Regular),
    written: Written::Nothing,
    kind: RelaxationKind::TlsLdToLocalExec,
    ..PLT_OFF
};

/// The same for a call through a slot.
pub const LOCAL_NO_PLT: Row = Row {
    required_bytes: Pattern::LocalStart(LocalForm::NoPlt),
    needed: Pattern::Local(LocalForm::NoPlt),
    partner: Some(Partner {
        distance: 6,
        form: GeneralForm::NoPlt,
    }),
    made: Made::ThreadPointer(LocalForm::NoPlt),
    kind: RelaxationKind::TlsLdToLocalExecNoPlt,
    ..LOCAL
};

/// `lea` of a descriptor becomes `mov` of the offset from the thread pointer.
pub const DESCRIPTOR: Row = Row {
    number: R_X86_64_GOTPC32_TLSDESC,
    thread_local: true,
    needed: Pattern::Lea(Prefix::Rex),
    needs_end: true,
    made: Made::Immediate(Prefix::Rex, Operation::Mov),
    written: Written::TpOff32,
    kind: RelaxationKind::TlsDescToLocalExec(3),
    ..PLT_OFF
};

/// `lea` of a descriptor becomes `mov` of the offset in a slot.
pub const DESCRIPTOR_SLOT: Row = Row {
    value: ValueTest::Interposable,
    made: Made::Load,
    written: Written::GotTpOff,
    kind: RelaxationKind::TlsDescToInitialExec,
    ..DESCRIPTOR
};

/// `lea` of a descriptor with the longer prefix becomes `mov` of the offset.
pub const DESCRIPTOR_2: Row = Row {
    number: R_X86_64_CODE_4_GOTPC32_TLSDESC,
    needed: Pattern::Lea(Prefix::Rex2),
    made: Made::Immediate(Prefix::Rex2, Operation::Mov),
    kind: RelaxationKind::TlsDescToLocalExec(4),
    ..DESCRIPTOR
};

/// `lea` of a descriptor with the longer prefix becomes `mov` of the offset in a slot.
pub const DESCRIPTOR_SLOT_2: Row = Row {
    number: R_X86_64_CODE_4_GOTPC32_TLSDESC,
    needed: Pattern::Lea(Prefix::Rex2),
    ..DESCRIPTOR_SLOT
};

/// The call through a descriptor is removed.
pub const DESCRIPTOR_CALL: Row = Row {
    number: R_X86_64_TLSDESC_CALL,
    symbol: SymbolTest::Any,
    value: ValueTest::Any,
    thread_local: true,
    ignores_bytes: true,
    needed: Pattern::DescriptorCall,
    made: Made::Nop,
    written: Written::Nothing,
    kind: RelaxationKind::SkipTlsDescCall,
    ..PLT_OFF
};

const WITH_PC32: [Row; 1] = [IFUNC];

const WITH_REX_GOTPCRELX: [Row; 4] = [
    NUMBER,
    Row {
        required_bytes: Pattern::Wide(Prefix::Rex, Operation::Sub),
        made: Made::Immediate(Prefix::Rex, Operation::Sub),
        kind: RelaxationKind::RexSubIndirectToAbsolute(3),
        ..NUMBER
    },
    COMPARISON,
    LEA,
];

const WITH_CODE_4_GOTPCRELX: [Row; 4] = [
    Row {
        number: R_X86_64_CODE_4_GOTPCRELX,
        required_bytes: Pattern::Wide(Prefix::Rex2, Operation::Mov),
        made: Made::Immediate(Prefix::Rex2, Operation::Mov),
        kind: RelaxationKind::RexMovIndirectToAbsolute(4),
        ..NUMBER
    },
    Row {
        number: R_X86_64_CODE_4_GOTPCRELX,
        required_bytes: Pattern::Wide(Prefix::Rex2, Operation::Sub),
        made: Made::Immediate(Prefix::Rex2, Operation::Sub),
        kind: RelaxationKind::RexSubIndirectToAbsolute(4),
        ..NUMBER
    },
    Row {
        number: R_X86_64_CODE_4_GOTPCRELX,
        required_bytes: Pattern::Wide(Prefix::Rex2, Operation::Cmp),
        made: Made::Immediate(Prefix::Rex2, Operation::Cmp),
        kind: RelaxationKind::RexCmpIndirectToAbsolute(4),
        ..NUMBER
    },
    LEA_2,
];

// Rows for a 32-bit `mov`, `call` and `jmp`.
const WITH_GOTPCRELX: [Row; 4] = [
    Row {
        number: R_X86_64_GOTPCRELX,
        value: ValueTest::OwnUnsigned,
        duty: Duty::Static,
        required_bytes: Pattern::Mov,
        made: Made::MovImmediate,
        written: Written::Unsigned32,
        kind: RelaxationKind::MovIndirectToAbsolute,
        ..NUMBER
    },
    Row {
        number: R_X86_64_GOTPCRELX,
        required_bytes: Pattern::Mov,
        ..LEA
    },
    CALL,
    JUMP,
];

const WITH_GOTPCREL: [Row; 1] = [PLAIN_LEA];

const WITH_GOTTPOFF: [Row; 2] = [OFFSET, ADDED];

const WITH_CODE_4_GOTTPOFF: [Row; 2] = [
    Row {
        number: R_X86_64_CODE_4_GOTTPOFF,
        required_bytes: Pattern::Wide(Prefix::Rex2, Operation::Mov),
        made: Made::Immediate(Prefix::Rex2, Operation::Mov),
        kind: RelaxationKind::RexMovIndirectToAbsolute(4),
        ..OFFSET
    },
    Row {
        number: R_X86_64_CODE_4_GOTTPOFF,
        required_bytes: Pattern::Wide(Prefix::Rex2, Operation::Add),
        made: Made::Immediate(Prefix::Rex2, Operation::Add),
        kind: RelaxationKind::RexAddIndirectToAbsolute(4),
        ..ADDED
    },
];

const WITH_PLT32: [Row; 1] = [PLT];

const WITH_PLTOFF64: [Row; 1] = [PLT_OFF];

// To a number and, for symbols that other modules may define, to the offset in a slot.
const WITH_TLSGD: [Row; 5] = [
    GENERAL,
    GENERAL_NO_PLT,
    Row {
        required_bytes: Pattern::General(GeneralForm::Large),
        partner: Some(Partner {
            distance: 6,
            form: GeneralForm::Large,
        }),
        made: Made::LocalExecLarge,
        kind: RelaxationKind::TlsGdToLocalExecLarge,
        ..GENERAL
    },
    Row {
        value: ValueTest::Interposable,
        duty: Duty::Never,
        made: Made::InitialExec,
        written: Written::GotTpOff,
        kind: RelaxationKind::TlsGdToInitialExec,
        ..GENERAL
    },
    GENERAL_NO_PLT_SLOT,
];

const WITH_TLSLD: [Row; 3] = [
    LOCAL,
    Row {
        duty: Duty::Never,
        required_bytes: Pattern::LocalStart(LocalForm::Large),
        needed: Pattern::Local(LocalForm::Large),
        partner: Some(Partner {
            distance: 6,
            form: GeneralForm::Large,
        }),
        made: Made::ThreadPointer(LocalForm::Large),
        kind: RelaxationKind::TlsLdToLocalExec64,
        ..LOCAL
    },
    LOCAL_NO_PLT,
];

const WITH_GOTPC32_TLSDESC: [Row; 2] = [DESCRIPTOR, DESCRIPTOR_SLOT];

const WITH_CODE_4_GOTPC32_TLSDESC: [Row; 2] = [DESCRIPTOR_2, DESCRIPTOR_SLOT_2];

const WITH_TLSDESC_CALL: [Row; 1] = [DESCRIPTOR_CALL];

const NO_ROWS: [Row; 0] = [];

/// The rows of a relocation type.
#[tactic(auto, unfolding(crate::specs::RowsOfType::rows_with, crate::specs::Rows::rows_x86_64))]
pub(crate) fn rows_with(number: u32) -> &'static [Row]
    ensures { result.now ≡ rows_with number }
{
    match number {
        R_X86_64_PC32 => &WITH_PC32,
        R_X86_64_PLT32 => &WITH_PLT32,
        R_X86_64_GOTPCREL => &WITH_GOTPCREL,
        R_X86_64_TLSGD => &WITH_TLSGD,
        R_X86_64_TLSLD => &WITH_TLSLD,
        R_X86_64_GOTTPOFF => &WITH_GOTTPOFF,
        R_X86_64_PLTOFF64 => &WITH_PLTOFF64,
        R_X86_64_GOTPC32_TLSDESC => &WITH_GOTPC32_TLSDESC,
        R_X86_64_TLSDESC_CALL => &WITH_TLSDESC_CALL,
        R_X86_64_GOTPCRELX => &WITH_GOTPCRELX,
        R_X86_64_REX_GOTPCRELX => &WITH_REX_GOTPCRELX,
        R_X86_64_CODE_4_GOTPCRELX => &WITH_CODE_4_GOTPCRELX,
        R_X86_64_CODE_4_GOTTPOFF => &WITH_CODE_4_GOTTPOFF,
        R_X86_64_CODE_4_GOTPC32_TLSDESC => &WITH_CODE_4_GOTPC32_TLSDESC,
        _ => &NO_ROWS,
    }
}
