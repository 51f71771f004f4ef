//! The bytes that rows write.
ghost use Rattle.std.specs.Prelude.{◌≡◌, ◌+◌, ◌≤◌, length, slice_range};
ghost use Rattle.wild_words.specs.Words.{place};
ghost use Rattle.wild_relax.specs.RewriteX86_64.{immediate_prefix, immediate_opcode, immediate_digit, immediate_modrm, immediate_bytes, mov_immediate_bytes, word_made, change_of, made_bytes, distance_type, number_written, kind_to, is_aarch64, type_row, going, rewrite_of, info_written, is_number};

use crate::pattern::{LocalForm, Operation, Prefix};
use crate::relaxation::RelocationModifier;
use crate::row::{Distance, Goal, Made, Row, Word, Written};
use wild_records::abi::relocation::{
    R_AARCH64_ADR_PREL_LO21, R_AARCH64_CALL26, R_AARCH64_CONDBR19, R_AARCH64_JUMP26,
    R_AARCH64_PLT32, R_AARCH64_TLSIE_ADR_GOTTPREL_PAGE21, R_AARCH64_TLSIE_LD64_GOTTPREL_LO12_NC,
    R_AARCH64_TLSLE_MOVW_TPREL_G0_NC, R_AARCH64_TLSLE_MOVW_TPREL_G1, R_AARCH64_TSTBR14,
    R_X86_64_32, R_X86_64_32S, R_X86_64_GOTOFF64, R_X86_64_GOTTPOFF, R_X86_64_NONE, R_X86_64_PC32,
    R_X86_64_PLT32, R_X86_64_TPOFF32,
};
use wild_reloc::{RelocationKind, RelocationKindInfo, aarch64, x86_64};
use wild_words::{put, put_u32, read_u32};

const DIRECT_CALL: [u8; 2] = [0x67, 0xe8];

const DIRECT_JUMP: [u8; 6] = [0xe9, 0, 0, 0, 0, 0x90];

const NOP: [u8; 2] = [0x66, 0x90];

// `mov rax, fs:0; lea rax, [rax + number]`.
const LOCAL_EXEC: [u8; 16] = [
    0x64, 0x48, 0x8b, 0x04, 0x25, 0, 0, 0, 0, 0x48, 0x8d, 0x80, 0, 0, 0, 0,
];

// The same, and six `nop`.
const LOCAL_EXEC_LARGE: [u8; 22] = [
    0x64, 0x48, 0x8b, 0x04, 0x25, 0, 0, 0, 0, 0x48, 0x8d, 0x80, 0, 0, 0, 0, 0x90, 0x90, 0x90, 0x90,
    0x90, 0x90,
];

// `mov rax, fs:0; add rax, [rip + slot]`.
const INITIAL_EXEC: [u8; 16] = [
    0x64, 0x48, 0x8b, 0x04, 0x25, 0, 0, 0, 0, 0x48, 0x03, 0x05, 0, 0, 0, 0,
];

// `mov rax, fs:0`, with three further prefixes.
const THREAD_POINTER: [u8; 12] = [0x66, 0x66, 0x66, 0x64, 0x48, 0x8b, 0x04, 0x25, 0, 0, 0, 0];

// `mov rax, fs:0` and thirteen `nop`.
const THREAD_POINTER_LARGE: [u8; 22] = [
    0x64, 0x48, 0x8b, 0x04, 0x25, 0, 0, 0, 0, 0x90, 0x90, 0x90, 0x90, 0x90, 0x90, 0x90, 0x90, 0x90,
    0x90, 0x90, 0x90, 0x90,
];

// `mov rax, fs:0` and four `nop`.
const THREAD_POINTER_NO_PLT: [u8; 13] = [
    0x64, 0x48, 0x8b, 0x04, 0x25, 0, 0, 0, 0, 0x90, 0x90, 0x90, 0x90,
];

/// Which bytes are replaced, and the offset of their field afterwards.
#[derive(Clone, Copy)]
pub struct Change {
    /// The number of bytes from their start to the field.
    pub back: u64,
    /// The number of bytes.
    pub size: u64,
    /// The offset of the field from their start, after the rewrite.
    pub field: u64,
    /// Whether the field keeps the input's addend; otherwise it has addend 0.
    pub keeps_addend: bool,
}

const KEPT: Change = Change {
    back: 0,
    size: 0,
    field: 0,
    keeps_addend: true,
};

const AT_OPCODE: Change = Change {
    back: 2,
    size: 1,
    field: 2,
    keeps_addend: true,
};

const AT_PREFIX: Change = Change {
    back: 3,
    size: 3,
    field: 3,
    keeps_addend: false,
};

const AT_MOV: Change = Change {
    back: 2,
    size: 2,
    field: 2,
    keeps_addend: false,
};

const AT_CALL: Change = Change {
    back: 2,
    size: 2,
    field: 2,
    keeps_addend: true,
};

// The field moves one byte towards the start.
const AT_JUMP: Change = Change {
    back: 2,
    size: 6,
    field: 1,
    keeps_addend: true,
};

const LEFT_OUT: Change = Change {
    back: 0,
    size: 2,
    field: 0,
    keeps_addend: true,
};

const AT_PAIR: Change = Change {
    back: 4,
    size: 16,
    field: 12,
    keeps_addend: false,
};

const AT_LONG_PAIR: Change = Change {
    back: 3,
    size: 22,
    field: 12,
    keeps_addend: false,
};

const TO_SLOT: Change = Change {
    keeps_addend: true,
    ..AT_PAIR
};

// No field is written.
const AT_OWN_PAIR: Change = Change {
    back: 3,
    size: 12,
    field: 3,
    keeps_addend: true,
};

const AT_LONG_OWN_PAIR: Change = Change {
    size: 22,
    ..AT_OWN_PAIR
};

const AT_OWN_PAIR_BY_SLOT: Change = Change {
    size: 13,
    ..AT_OWN_PAIR
};

// The field is in the word.
const WHOLE_WORD: Change = Change {
    back: 0,
    size: 4,
    field: 0,
    keeps_addend: true,
};

/// Which bytes it replaces.
pub(crate) fn change_of(made: Made) -> Change
    ensures change { result ≡ change_of made }
    ensures small { result.back + (result.size + result.field) ≤ 64 }
{
    match made {
        Made::Kept => KEPT,
        Made::Lea | Made::Load => AT_OPCODE,
        Made::Immediate(_, _) => AT_PREFIX,
        Made::MovImmediate => AT_MOV,
        Made::DirectCall => AT_CALL,
        Made::DirectJump => AT_JUMP,
        Made::Nop => LEFT_OUT,
        Made::LocalExec => AT_PAIR,
        Made::LocalExecLarge => AT_LONG_PAIR,
        Made::InitialExec => TO_SLOT,
        Made::ThreadPointer(LocalForm::Regular) => AT_OWN_PAIR,
        Made::ThreadPointer(LocalForm::Large) => AT_LONG_OWN_PAIR,
        Made::ThreadPointer(LocalForm::NoPlt) => AT_OWN_PAIR_BY_SLOT,
        Made::Code(_) => WHOLE_WORD,
    }
}

// The relocation type of a code distance.
fn distance_type(distance: Distance) -> u32
    ensures { result ≡ distance_type distance }
{
    match distance {
        Distance::Jump26 => R_AARCH64_JUMP26,
        Distance::Call26 => R_AARCH64_CALL26,
        Distance::CondBr19 => R_AARCH64_CONDBR19,
        Distance::TstBr14 => R_AARCH64_TSTBR14,
        Distance::Plt32 => R_AARCH64_PLT32,
    }
}

fn number_written(written: Written) -> u32
    ensures { result ≡ number_written written }
{
    match written {
        Written::Nothing => R_X86_64_NONE,
        Written::Pc32 => R_X86_64_PC32,
        Written::Plt32 => R_X86_64_PLT32,
        Written::Unsigned32 => R_X86_64_32,
        Written::Signed32 => R_X86_64_32S,
        Written::GotTpOff => R_X86_64_GOTTPOFF,
        Written::TpOff32 => R_X86_64_TPOFF32,
        Written::GotOff64 => R_X86_64_GOTOFF64,
        Written::Code(distance, _) => distance_type(distance),
        Written::TlsLeMovwTprelG1 => R_AARCH64_TLSLE_MOVW_TPREL_G1,
        Written::TlsLeMovwTprelG0Nc => R_AARCH64_TLSLE_MOVW_TPREL_G0_NC,
        Written::TlsIeAdrGotTprelPage21 => R_AARCH64_TLSIE_ADR_GOTTPREL_PAGE21,
        Written::TlsIeLd64GotTprelLo12Nc => R_AARCH64_TLSIE_LD64_GOTTPREL_LO12_NC,
        Written::AdrPrelLo21 => R_AARCH64_ADR_PREL_LO21,
    }
}

fn kind_to(goal: Goal) -> RelocationKind
    ensures { result ≡ kind_to goal }
{
    match goal {
        Goal::Symbol => RelocationKind::Relative,
        Goal::Stub => RelocationKind::PltRelative,
    }
}

// Whether it is a relocation type of AArch64.
fn is_aarch64(written: Written) -> bool
    ensures { result ≡ is_aarch64 written }
{
    matches!(
        written,
        Written::Code(_, _)
            | Written::TlsLeMovwTprelG1
            | Written::TlsLeMovwTprelG0Nc
            | Written::TlsIeAdrGotTprelPage21
            | Written::TlsIeLd64GotTprelLo12Nc
            | Written::AdrPrelLo21
    )
}

// The row of the relocation type in the machine's table.
fn type_row(written: Written) -> Option<RelocationKindInfo>
    ensures { result ≡ type_row written }
{
    if is_aarch64(written) {
        aarch64::relocation_type_from_raw(number_written(written))
    } else {
        x86_64::relocation_from_raw(number_written(written))
    }
}

fn going(written: Written, info: RelocationKindInfo) -> RelocationKindInfo
    ensures { result ≡ going written info }
{
    match written {
        Written::Code(_, goal) => RelocationKindInfo {
            kind: kind_to(goal),
            ..info
        },
        _ => info,
    }
}

impl Row {
    /// The distance from the start of the row's bytes to the field in the input.
    pub fn back(self) -> u64
        ensures { result ≡ (rewrite_of self).back }
    {
        change_of(self.made).back
    }

    /// The offset of the field from that start, after the rewrite.
    pub fn field(self) -> u64
        ensures { result ≡ (rewrite_of self).field }
    {
        change_of(self.made).field
    }

    /// The relocation type by which the field is written.
    pub fn number_written(self) -> u32
        ensures { result ≡ (rewrite_of self).number }
    {
        number_written(self.written)
    }

    /// How the field is written: its value, its size and its range.
    pub fn row_written(self) -> RelocationKindInfo
        ensures { result ≡ info_written self }
    {
        going(self.written, type_row(self.written).unwrap())
    }

    /// The addend with which the field is written.
    pub fn addend_written(self, addend: i64) -> i64
        ensures { result ≡ (rewrite_of self).addend addend }
    {
        if change_of(self.made).keeps_addend {
            addend
        } else {
            0
        }
    }

    // Whether the field holds the value itself.
    pub(crate) fn is_number(self) -> bool
        ensures { result ≡ is_number self }
    {
        matches!(self.written, Written::Signed32 | Written::Unsigned32)
    }

    // How the next relocation is processed.
    pub(crate) fn next_modifier(self) -> RelocationModifier
        ensures { result ≡ (rewrite_of self).next }
    {
        match self.partner {
            Some(_) => RelocationModifier::SkipNextRelocation,
            None => RelocationModifier::Normal,
        }
    }
}

// The last byte of a prefix, for a register that moves from ModRM.reg to ModRM.rm.
fn immediate_prefix(prefix: Prefix, byte: u8) -> u8
    ensures { result ≡ immediate_prefix prefix byte }
{
    match (prefix, byte) {
        (Prefix::Rex, 0x4c) => 0x49,
        (Prefix::Rex2, 0x48) => 0x18,
        (Prefix::Rex2, 0x4c) => 0x19,
        (Prefix::Rex2, 0x0c) => 0x09,
        _ => byte,
    }
}

// The opcode of an operation with an immediate.
fn immediate_opcode(operation: Operation) -> u8
    ensures { result ≡ immediate_opcode operation }
{
    match operation {
        Operation::Mov => 0xc7,
        Operation::Sub | Operation::Cmp | Operation::Add => 0x81,
    }
}

// The digit of an operation with an immediate.
fn immediate_digit(operation: Operation) -> u8
    ensures digit { result ≡ immediate_digit operation }
    ensures small { result ≤ 7 }
{
    match operation {
        Operation::Mov | Operation::Add => 0,
        Operation::Sub => 5,
        Operation::Cmp => 7,
    }
}

// The ModRM byte of a digit and the register of another ModRM byte.
fn immediate_modrm(digit: u8, modrm: u8) -> u8
    requires { digit ≤ 7 }
    ensures { result ≡ immediate_modrm digit modrm }
{
    0xc0 + 8 * digit + modrm / 8 % 8
}

// Writes the instruction at `start` with an immediate; of its prefixes only the last byte changes.
fn write_immediate(bytes: &mut [u8], start: usize, prefix: Prefix, operation: Operation)
    requires { start + 3 ≤ length bytes.old }
    ensures { bytes.new ≡ place start (immediate_bytes prefix operation (slice_range bytes.old start (start + 3))) bytes.old }
{
    let old = &bytes[start..start + 3];
    let part = [
        immediate_prefix(prefix, old[0]),
        immediate_opcode(operation),
        immediate_modrm(immediate_digit(operation), old[2]),
    ];
    put(bytes, start, &part);
}

// `mov` of an immediate to the register of the instruction at `start`.
fn write_mov_immediate(bytes: &mut [u8], start: usize)
    requires { start + 2 ≤ length bytes.old }
    ensures { bytes.new ≡ place start (mov_immediate_bytes (slice_range bytes.old start (start + 2))) bytes.old }
{
    let old = &bytes[start..start + 2];
    let part = [0xc7, immediate_modrm(0, old[1])];
    put(bytes, start, &part);
}

// The word, except for its field.
fn word_made(made: Word, old: u32) -> u32
    ensures { result ≡ word_made made old }
{
    let register = old % 0x20;
    match made {
        Word::Nop => 0xd503_201f,
        Word::MovzX0 => 0xd2a0_0000,
        Word::MovkX0 => 0xf280_0000,
        Word::AdrpX0 => 0x9000_0000,
        Word::LdrX0 => 0xf940_0000,
        Word::Movz => 0xd2a0_0000 + register,
        Word::Movk => 0xf280_0000 + register,
        Word::Adr => 0x1000_0000 + register,
    }
}

/// Writes the bytes of a rewrite from `start` on.
pub(crate) fn write(made: Made, bytes: &mut [u8], start: usize)
    requires { start + (change_of made).size ≤ length bytes.old }
    ensures { bytes.new ≡ place start (made_bytes made (slice_range bytes.old start (start + (change_of made).size))) bytes.old }
{
    match made {
        Made::Kept => put(bytes, start, &[]),
        Made::Lea => put(bytes, start, &[0x8d]),
        Made::Load => put(bytes, start, &[0x8b]),
        Made::Immediate(prefix, operation) => write_immediate(bytes, start, prefix, operation),
        Made::MovImmediate => write_mov_immediate(bytes, start),
        Made::DirectCall => put(bytes, start, &DIRECT_CALL),
        Made::DirectJump => put(bytes, start, &DIRECT_JUMP),
        Made::Nop => put(bytes, start, &NOP),
        Made::LocalExec => put(bytes, start, &LOCAL_EXEC),
        Made::LocalExecLarge => put(bytes, start, &LOCAL_EXEC_LARGE),
        Made::InitialExec => put(bytes, start, &INITIAL_EXEC),
        Made::ThreadPointer(LocalForm::Regular) => put(bytes, start, &THREAD_POINTER),
        Made::ThreadPointer(LocalForm::Large) => put(bytes, start, &THREAD_POINTER_LARGE),
        Made::ThreadPointer(LocalForm::NoPlt) => put(bytes, start, &THREAD_POINTER_NO_PLT),
        Made::Code(word) => put_u32(bytes, start, word_made(word, read_u32(bytes, start))),
    }
}
