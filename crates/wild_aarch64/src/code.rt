//! Decodes AArch64 instructions from their words.
//!
//! Read the Arm Architecture Reference Manual, C4.1 ("A64 instruction set encoding"), and the page of each instruction in C6.2 (general
//! registers) or C7.2 (vector registers). Which forms relocations fill is in "ELF for the Arm 64-bit Architecture" (aaelf64), "Static
//! AArch64 relocations". Only these forms, `br`, `blr`, `nop` and `bti c` are decoded; everything else is `None`.
//!
//! Bits 26 to 28 select the class, and each function below decodes a few forms of one class, as `specs/Forms` has them. What surprises:
//! `adr` and `adrp` have their immediate in two parts (2 bits at 29, 19 bits at 5). Offsets of loads and stores count in units of the
//! access size, those of branches in 4-byte instructions. Register 31 is the zero register or the stack pointer, depending on the
//! instruction. Instructions are little-endian even if data is big-endian (B2.6.2).
ghost use Rattle.std.specs.Prelude.{◌≡◌, ◌^◌, ◌*◌, ◌<◌, ◌≤◌, ◌==◌};
ghost use Rattle.wild_aarch64.specs.Slice.{bits, signed};
ghost use Rattle.wild_aarch64.specs.Forms.{hw};
ghost use Rattle.wild_aarch64.specs.Code.{read, read_address, read_access, read_vector_access, read_literal, read_transfer, read_condition};
ghost use Rattle.wild_aarch64.specs.Immediate.{immediate, bits_outside, Imm12, Imm14, Imm16, Imm19, Imm21};

/// The left shift of the immediate of `movz`, `movk` or `movn`, in bits.
#[derive(Clone, Copy, Debug, PartialEq, Eq, Drop)]
pub enum Shift {
    By0,
    By16,
    By32,
    By48,
}

/// An instruction: its registers, then its immediate. A distance is in bytes, sign-extended, modulo 2^64.
#[derive(Clone, Copy, Debug, PartialEq, Eq, Drop)]
pub enum Code {
    /// `adr`: sets the register to the place plus the distance.
    Adr(u32, u64),
    /// `adrp`: sets the register to the page of the place plus the distance.
    Adrp(u32, u64),
    /// `movz`: sets the register to the shifted immediate.
    Movz(u32, Shift, u16),
    /// `movk`: sets the 16 bits from the shift on to the immediate and keeps the others.
    Movk(u32, Shift, u16),
    /// `movn`: sets the register to the complement of the shifted immediate.
    Movn(u32, Shift, u16),
    /// `add`: sets the first register to the second plus the immediate.
    Add(u32, u32, u64),
    /// `ldr` of 64 bits: loads the first register from the second plus the immediate.
    Ldr(u32, u32, u64),
    /// Another load or store at a register plus the immediate; the first number is the other bits of the word.
    Access(u32, u64),
    /// A PC-relative load from the distance; the first number is the other bits of the word.
    Literal(u32, u64),
    /// `b`: jumps to the place plus the distance.
    B(u64),
    /// `bl`: calls the place plus the distance.
    Bl(u64),
    /// A conditional branch by the distance; the first number is the other bits of the word, which encode the condition.
    BranchIf(u32, u64),
    /// `br`: jumps to the address in the register.
    Br(u32),
    /// `blr`: calls the address in the register.
    Blr(u32),
    /// `nop` or `bti c`: does nothing.
    Hint,
}

// The `count` bits of the word from bit `low` on.
fn bits_of(word: u32, low: u32, count: u32) -> u32
    requires low { low < 32 }
    requires count { count < 32 }
    ensures { result ≡ bits low count word }
{
    word / (1 << low) % (1 << count)
}

// Whether the `count` bits from bit `low` on equal the value.
fn has(word: u32, low: u32, count: u32, value: u32) -> bool
    requires low { low < 32 }
    requires count { count < 32 }
    ensures { result ≡ (bits low count word == value) }
{
    bits_of(word, low, count) == value
}

// Sign-extends a number of `count` bits to 64 bits.
fn signed_number(count: u32, number: u64) -> u64
    requires some { 1 ≤ count }
    requires below { count < 64 }
    requires small { number < 2 ^ count }
    ensures { result ≡ signed count number }
{
    if number < 1 << (count - 1) {
        number
    } else {
        number + (u64::MAX - (1 << count) + 1)
    }
}

// The immediate of `adr` and `adrp`.
fn immediate_21(word: u32) -> u64
    ensures value { result ≡ immediate Imm21 word }
    ensures small { result < 2 ^ 21 }
{
    u64::from(word / 0x2000_0000 % 4) + u64::from(word / 0x20 % 0x8_0000) * 4
}

// The 16-bit immediate of `movz`, `movk` and `movn`.
fn immediate_16(word: u32) -> u16
    ensures { result ≡ immediate Imm16 word }
{
    (word / 0x20 % 0x1_0000) as u16
}

// The 19-bit distance, from words to bytes.
fn distance_19(word: u32) -> u64
    ensures { result ≡ signed 21 (immediate Imm19 word * 4) }
{
    signed_number(21, u64::from(bits_of(word, 5, 19)) * 4)
}

fn shift_of(word: u32) -> Shift
    ensures { result ≡ hw word }
{
    match bits_of(word, 21, 2) {
        0 => Shift::By0,
        1 => Shift::By16,
        2 => Shift::By32,
        _ => Shift::By48,
    }
}

// The bits of the word outside its 12-bit immediate.
fn kept_12(word: u32) -> u32
    ensures { result ≡ bits_outside Imm12 word }
{
    word % 0x400 + word / 0x40_0000 * 0x400
}

fn kept_14(word: u32) -> u32
    ensures { result ≡ bits_outside Imm14 word }
{
    word % 0x20 + word / 0x8_0000 * 0x20
}

fn kept_19(word: u32) -> u32
    ensures { result ≡ bits_outside Imm19 word }
{
    word % 0x20 + word / 0x100_0000 * 0x20
}

// `adr`, `adrp`, `add` and the wide moves.
#[tactic(auto, unfolding(crate::specs::Code::read_address))]
fn address_code(word: u32) -> Option<Code>
    ensures { result ≡ read_address word }
{
    let class = has(word, 26, 3, 4);
    let to = word % 32;
    let from = word / 32 % 32;
    if class && has(word, 24, 5, 16) && has(word, 31, 1, 1) {
        return Some(Code::Adrp(to, signed_number(33, immediate_21(word) * 4096)));
    }
    if class && has(word, 24, 5, 16) && has(word, 31, 1, 0) {
        return Some(Code::Adr(to, signed_number(21, immediate_21(word))));
    }
    if class && has(word, 24, 5, 17) && has(word, 22, 10, 0x244) {
        return Some(Code::Add(to, from, u64::from(bits_of(word, 10, 12))));
    }
    if class && has(word, 24, 5, 17) && has(word, 22, 10, 0x245) {
        return Some(Code::Add(to, from, u64::from(bits_of(word, 10, 12)) * 4096));
    }
    if class && has(word, 24, 5, 18) && has(word, 23, 9, 0x1a5) {
        return Some(Code::Movz(to, shift_of(word), immediate_16(word)));
    }
    if class && has(word, 24, 5, 18) && has(word, 23, 9, 0x1e5) {
        return Some(Code::Movk(to, shift_of(word), immediate_16(word)));
    }
    if class && has(word, 24, 5, 18) && has(word, 23, 9, 0x125) {
        return Some(Code::Movn(to, shift_of(word), immediate_16(word)));
    }
    None
}

// A load or store other than `ldr` of 64 bits; its immediate counts in units of `unit` bytes.
fn access(word: u32, unit: u64) -> Code
    requires { unit ≤ 16 }
    ensures { result ≡ Code.Access (bits_outside Imm12 word) (immediate Imm12 word * unit) }
{
    Code::Access(kept_12(word), u64::from(bits_of(word, 10, 12)) * unit)
}

// A load or store of a general register.
#[tactic(auto, unfolding(crate::specs::Code::read_access))]
fn access_code(word: u32) -> Option<Code>
    ensures { result ≡ read_access word }
{
    let class = has(word, 26, 3, 6) && has(word, 24, 2, 1);
    if class && has(word, 29, 3, 7) && has(word, 22, 2, 1) {
        let offset = u64::from(bits_of(word, 10, 12)) * 8;
        return Some(Code::Ldr(word % 32, word / 32 % 32, offset));
    }
    if class && has(word, 29, 3, 1) {
        return Some(access(word, 1));
    }
    if class && has(word, 29, 3, 3) {
        return Some(access(word, 2));
    }
    if class && has(word, 29, 3, 5) && (has(word, 23, 1, 0) || has(word, 22, 2, 2)) {
        return Some(access(word, 4));
    }
    if class && has(word, 29, 3, 7) && (has(word, 22, 2, 0) || has(word, 22, 2, 2)) {
        return Some(access(word, 8));
    }
    None
}

// A load or store of a vector register.
#[tactic(auto, unfolding(crate::specs::Code::read_vector_access))]
fn vector_access_code(word: u32) -> Option<Code>
    ensures { result ≡ read_vector_access word }
{
    let class = has(word, 26, 3, 7) && has(word, 24, 2, 1);
    if class && has(word, 29, 3, 1) && has(word, 23, 1, 0) {
        return Some(access(word, 1));
    }
    if class && has(word, 29, 3, 1) && has(word, 23, 1, 1) {
        return Some(access(word, 16));
    }
    if class && has(word, 29, 3, 3) && has(word, 23, 1, 0) {
        return Some(access(word, 2));
    }
    if class && has(word, 29, 3, 5) && has(word, 23, 1, 0) {
        return Some(access(word, 4));
    }
    if class && has(word, 29, 3, 7) && has(word, 23, 1, 0) {
        return Some(access(word, 8));
    }
    None
}

// A PC-relative load.
#[tactic(auto, unfolding(crate::specs::Code::read_literal))]
fn literal_code(word: u32) -> Option<Code>
    ensures { result ≡ read_literal word }
{
    let code = Code::Literal(kept_19(word), distance_19(word));
    if has(word, 26, 3, 6) && has(word, 24, 2, 0) && has(word, 29, 1, 0) {
        return Some(code);
    }
    if has(word, 26, 3, 7) && has(word, 24, 2, 0) && has(word, 29, 1, 0) && has(word, 31, 1, 0) {
        return Some(code);
    }
    if has(word, 26, 3, 7) && has(word, 24, 2, 0) && has(word, 29, 3, 4) {
        return Some(code);
    }
    None
}

// Branches without a condition, `nop` and `bti c`.
#[tactic(auto, unfolding(crate::specs::Code::read_transfer))]
fn transfer_code(word: u32) -> Option<Code>
    ensures { result ≡ read_transfer word }
{
    let class = has(word, 26, 3, 5);
    let from = word / 32 % 32;
    if class && has(word, 26, 6, 53) && has(word, 10, 22, 0x35_87c0) && has(word, 0, 5, 0) {
        return Some(Code::Br(from));
    }
    if class && has(word, 26, 6, 53) && has(word, 10, 22, 0x35_8fc0) && has(word, 0, 5, 0) {
        return Some(Code::Blr(from));
    }
    if class && has(word, 26, 6, 53) && word == 0xd503_201f {
        return Some(Code::Hint);
    }
    if class && has(word, 26, 6, 53) && word == 0xd503_245f {
        return Some(Code::Hint);
    }
    if class && has(word, 26, 6, 5) {
        return Some(Code::B(signed_number(28, u64::from(bits_of(word, 0, 26)) * 4)));
    }
    if class && has(word, 26, 6, 37) {
        return Some(Code::Bl(signed_number(28, u64::from(bits_of(word, 0, 26)) * 4)));
    }
    None
}

// A conditional branch.
#[tactic(auto, unfolding(crate::specs::Code::read_condition))]
fn condition_code(word: u32) -> Option<Code>
    ensures { result ≡ read_condition word }
{
    let class = has(word, 26, 3, 5);
    let near = Code::BranchIf(
        kept_14(word),
        signed_number(16, u64::from(bits_of(word, 5, 14)) * 4),
    );
    let far = Code::BranchIf(kept_19(word), distance_19(word));
    if class && has(word, 26, 6, 21) && has(word, 24, 2, 0) && has(word, 4, 1, 0) {
        return Some(far);
    }
    if class && has(word, 26, 6, 13) && has(word, 25, 1, 0) {
        return Some(far);
    }
    if class && has(word, 26, 6, 45) && has(word, 25, 1, 0) {
        return Some(far);
    }
    if class && has(word, 26, 6, 13) && has(word, 25, 1, 1) {
        return Some(near);
    }
    if class && has(word, 26, 6, 45) && has(word, 25, 1, 1) {
        return Some(near);
    }
    None
}

/// The instruction of a word; `None` if no known form matches.
#[tactic(auto, unfolding(crate::specs::Code::read))]
pub fn code_of(word: u32) -> Option<Code>
    ensures { result ≡ read word }
{
    if let Some(code) = address_code(word) {
        return Some(code);
    }
    if let Some(code) = access_code(word) {
        return Some(code);
    }
    if let Some(code) = vector_access_code(word) {
        return Some(code);
    }
    if let Some(code) = literal_code(word) {
        return Some(code);
    }
    if let Some(code) = transfer_code(word) {
        return Some(code);
    }
    condition_code(word)
}
