//! The bytes that rows match in the input: those of x86-64 (Intel SDM; x86-64 psABI, "Linker Optimization"; "ELF Handling For
//! Thread-Local Storage", "Linker Relaxations"), and the position of AArch64's words.
ghost use Rattle.std.specs.Prelude.{◌≡◌, ◌≤◌, length};
ghost use Rattle.wild_relax.specs.Pattern.{fits, matches_cells, pattern_cells, field_of, pattern_matches_before};

/// The prefix of a 64-bit instruction.
#[derive(Clone, Copy)]
pub enum Prefix {
    /// One byte, for 16 registers (Intel SDM, "REX Prefixes").
    Rex,
    /// Two bytes, for 32 registers (Intel APX, "REX2").
    Rex2,
}

/// The operation of an instruction on its register and the word in a slot.
#[derive(Clone, Copy)]
pub enum Operation {
    Mov,
    Sub,
    Cmp,
    Add,
}

/// A sequence that calls `__tls_get_addr` for the address of a symbol.
#[derive(Clone, Copy)]
pub enum GeneralForm {
    /// By a call.
    Regular,
    /// By a call through a slot.
    NoPlt,
    /// By a call to a distance of 64 bits.
    Large,
}

/// A sequence that calls `__tls_get_addr` for the start of the output's own thread-local data.
#[derive(Clone, Copy)]
pub enum LocalForm {
    /// By a call.
    Regular,
    /// By a call to a distance of 64 bits.
    Large,
    /// By a call through a slot.
    NoPlt,
}

/// Consecutive words of AArch64, each with a relocation.
#[derive(Clone, Copy)]
pub enum Sequence {
    /// The call of a descriptor's function: `adrp x0`, `ldr xN, [x0]`, `add x0, x0`, `blr xN`.
    DescriptorCall,
    /// The offset in a slot: `adrp xN`, `ldr xN, [xN]`.
    OffsetSlot,
    /// An address: `adrp xN`, `add xN, xN`.
    Address,
}

/// Bytes of the input that contain a relocation's field.
#[derive(Clone, Copy)]
pub enum Pattern {
    /// No bytes.
    Nothing,
    /// A 64-bit instruction on a register and the word in a slot.
    Wide(Prefix, Operation),
    /// A 32-bit `mov` of the word in a slot.
    Mov,
    /// `call` through a slot.
    Call,
    /// `jmp` through a slot.
    Jump,
    /// A whole sequence for a symbol.
    General(GeneralForm),
    /// A sequence for the own data, up to the opcode of its call.
    LocalStart(LocalForm),
    /// A whole sequence for the own data.
    Local(LocalForm),
    /// `lea` of a descriptor.
    Lea(Prefix),
    /// `call` through a descriptor.
    DescriptorCall,
    /// A word of a sequence; the number is how many words are before it.
    Among(Sequence, u64),
}

/// The values that one byte may have: a fixed one; a REX prefix, or the payload of a REX2 prefix, for 64 bits without an index or
/// a base; a ModRM byte of `[rip + displacement]`; or any.
#[derive(Clone, Copy)]
pub enum Cell {
    Is(u8),
    RexWide,
    Rex2Wide,
    Slot,
    Any,
}

use Cell::{Any, Is, Rex2Wide, RexWide, Slot};

const NO_CELLS: [Cell; 0] = [];

const WORD: [Cell; 4] = [Any, Any, Any, Any];

const REX_MOV: [Cell; 7] = [RexWide, Is(0x8b), Slot, Any, Any, Any, Any];

const REX_SUB: [Cell; 7] = [RexWide, Is(0x2b), Slot, Any, Any, Any, Any];

const REX_CMP: [Cell; 7] = [RexWide, Is(0x3b), Slot, Any, Any, Any, Any];

const REX_ADD: [Cell; 7] = [RexWide, Is(0x03), Slot, Any, Any, Any, Any];

const REX_LEA: [Cell; 7] = [RexWide, Is(0x8d), Slot, Any, Any, Any, Any];

const REX2_MOV: [Cell; 8] = [Is(0xd5), RexWide, Is(0x8b), Slot, Any, Any, Any, Any];

const REX2_SUB: [Cell; 8] = [Is(0xd5), RexWide, Is(0x2b), Slot, Any, Any, Any, Any];

const REX2_CMP: [Cell; 8] = [Is(0xd5), RexWide, Is(0x3b), Slot, Any, Any, Any, Any];

const REX2_ADD: [Cell; 8] = [Is(0xd5), RexWide, Is(0x03), Slot, Any, Any, Any, Any];

const REX2_LEA: [Cell; 8] = [Is(0xd5), Rex2Wide, Is(0x8d), Slot, Any, Any, Any, Any];

const MOV: [Cell; 6] = [Is(0x8b), Slot, Any, Any, Any, Any];

const CALL: [Cell; 6] = [Is(0xff), Is(0x15), Any, Any, Any, Any];

const JUMP: [Cell; 6] = [Is(0xff), Is(0x25), Any, Any, Any, Any];

const DESCRIPTOR_CALL: [Cell; 2] = [Is(0xff), Is(0x10)];

// `lea rdi, [rip + symbol]; call __tls_get_addr`, with prefixes that make it 16 bytes.
const GENERAL: [Cell; 16] = [
    Is(0x66),
    Is(0x48),
    Is(0x8d),
    Is(0x3d),
    Any,
    Any,
    Any,
    Any,
    Is(0x66),
    Is(0x66),
    Is(0x48),
    Is(0xe8),
    Any,
    Any,
    Any,
    Any,
];

// The same with `call [rip + slot]`.
const GENERAL_NO_PLT: [Cell; 16] = [
    Is(0x66),
    Is(0x48),
    Is(0x8d),
    Is(0x3d),
    Any,
    Any,
    Any,
    Any,
    Is(0x66),
    Is(0x48),
    Is(0xff),
    Is(0x15),
    Any,
    Any,
    Any,
    Any,
];

// `lea rdi, [rip + symbol]; movabs rax, distance; add rax, rbx; call rax`.
const LARGE: [Cell; 22] = [
    Is(0x48),
    Is(0x8d),
    Is(0x3d),
    Any,
    Any,
    Any,
    Any,
    Is(0x48),
    Is(0xb8),
    Any,
    Any,
    Any,
    Any,
    Any,
    Any,
    Any,
    Any,
    Is(0x48),
    Is(0x01),
    Is(0xd8),
    Is(0xff),
    Is(0xd0),
];

// `lea rdi, [rip + symbol]; call __tls_get_addr`.
const LOCAL: [Cell; 12] = [
    Is(0x48),
    Is(0x8d),
    Is(0x3d),
    Any,
    Any,
    Any,
    Any,
    Is(0xe8),
    Any,
    Any,
    Any,
    Any,
];

// The same with `call [rip + slot]`.
const LOCAL_NO_PLT: [Cell; 13] = [
    Is(0x48),
    Is(0x8d),
    Is(0x3d),
    Any,
    Any,
    Any,
    Any,
    Is(0xff),
    Is(0x15),
    Any,
    Any,
    Any,
    Any,
];

const LOCAL_START: [Cell; 8] = [Is(0x48), Is(0x8d), Is(0x3d), Any, Any, Any, Any, Is(0xe8)];

const LARGE_START: [Cell; 9] = [
    Is(0x48),
    Is(0x8d),
    Is(0x3d),
    Any,
    Any,
    Any,
    Any,
    Is(0x48),
    Is(0xb8),
];

const LOCAL_NO_PLT_START: [Cell; 9] = [
    Is(0x48),
    Is(0x8d),
    Is(0x3d),
    Any,
    Any,
    Any,
    Any,
    Is(0xff),
    Is(0x15),
];

fn wide_cells(prefix: Prefix, operation: Operation) -> &'static [Cell]
    ensures value { result.now ≡ pattern_cells (Pattern.Wide prefix operation) }
    ensures short { length result.now ≤ 22 }
{
    match (prefix, operation) {
        (Prefix::Rex, Operation::Mov) => &REX_MOV,
        (Prefix::Rex, Operation::Sub) => &REX_SUB,
        (Prefix::Rex, Operation::Cmp) => &REX_CMP,
        (Prefix::Rex, Operation::Add) => &REX_ADD,
        (Prefix::Rex2, Operation::Mov) => &REX2_MOV,
        (Prefix::Rex2, Operation::Sub) => &REX2_SUB,
        (Prefix::Rex2, Operation::Cmp) => &REX2_CMP,
        (Prefix::Rex2, Operation::Add) => &REX2_ADD,
    }
}

/// The bytes of a pattern.
pub(crate) fn cells(pattern: Pattern) -> &'static [Cell]
    ensures value { result.now ≡ pattern_cells pattern }
    ensures short { length result.now ≤ 22 }
{
    match pattern {
        Pattern::Nothing => &NO_CELLS,
        Pattern::Wide(prefix, operation) => wide_cells(prefix, operation),
        Pattern::Mov => &MOV,
        Pattern::Call => &CALL,
        Pattern::Jump => &JUMP,
        Pattern::General(GeneralForm::Regular) => &GENERAL,
        Pattern::General(GeneralForm::NoPlt) => &GENERAL_NO_PLT,
        Pattern::General(GeneralForm::Large) => &LARGE,
        Pattern::LocalStart(LocalForm::Regular) => &LOCAL_START,
        Pattern::LocalStart(LocalForm::Large) => &LARGE_START,
        Pattern::LocalStart(LocalForm::NoPlt) => &LOCAL_NO_PLT_START,
        Pattern::Local(LocalForm::Regular) => &LOCAL,
        Pattern::Local(LocalForm::Large) => &LARGE,
        Pattern::Local(LocalForm::NoPlt) => &LOCAL_NO_PLT,
        Pattern::Lea(Prefix::Rex) => &REX_LEA,
        Pattern::Lea(Prefix::Rex2) => &REX2_LEA,
        Pattern::DescriptorCall => &DESCRIPTOR_CALL,
        Pattern::Among(_, _) => &WORD,
    }
}

/// The offset of the field in the pattern.
pub(crate) fn field(pattern: Pattern) -> u64
    ensures value { result ≡ field_of pattern }
    ensures low { result ≤ 4 }
{
    match pattern {
        Pattern::Nothing | Pattern::DescriptorCall | Pattern::Among(_, _) => 0,
        Pattern::Mov | Pattern::Call | Pattern::Jump => 2,
        Pattern::General(GeneralForm::Large)
        | Pattern::LocalStart(_)
        | Pattern::Local(_)
        | Pattern::Wide(Prefix::Rex, _)
        | Pattern::Lea(Prefix::Rex) => 3,
        Pattern::General(_) | Pattern::Wide(Prefix::Rex2, _) | Pattern::Lea(Prefix::Rex2) => 4,
    }
}

fn is_cell_match(cell: Cell, byte: u8) -> bool
    ensures { result ≡ fits cell byte }
{
    match cell {
        Is(fixed) => byte == fixed,
        RexWide => byte == 0x48 || byte == 0x4c,
        Rex2Wide => byte == 0x08 || byte == 0x0c || byte == 0x48 || byte == 0x4c,
        Slot => byte & 0xc7 == 5,
        Any => true,
    }
}

// Whether the bytes start with values that the cells allow.
fn is_match(cells: &[Cell], bytes: &[u8]) -> bool
    ensures { result ≡ matches_cells cells.now bytes.now }
{
    match cells.split_first() {
        None => true,
        Some((cell, cells)) => match bytes.split_first() {
            None => false,
            Some((byte, bytes)) => is_cell_match(*cell, *byte) && is_match(cells, bytes),
        },
    }
}

/// Whether the whole pattern is in the bytes with its field at the offset.
#[tactic(auto, unfolding(crate::specs::Pattern::pattern_matches_before, crate::specs::Pattern::cells_match_at))]
pub(crate) fn is_pattern_at(bytes: &[u8], offset: u64, pattern: Pattern) -> bool
    ensures { result ≡ pattern_matches_before bytes.now offset pattern }
{
    let field = field(pattern);
    if offset < field {
        return false;
    }
    let start = (offset - field) as usize;
    let cells = cells(pattern);
    if bytes.len() < cells.len() || bytes.len() - cells.len() < start {
        return false;
    }
    is_match(cells, &bytes[start..start + cells.len()])
}
