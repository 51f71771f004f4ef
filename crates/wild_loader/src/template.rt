//! Templates as data: the bytes of an instruction, and where they encode its operand.
ghost use Rattle.std.specs.Prelude.{◌≡◌, ◌^◌, ◌<◌, slice_index, take};
ghost use Rattle.wild_words.specs.Words.{number_at};
ghost use Rattle.wild_loader.specs.Instruction.{fits, matches_cells, signed_at};
ghost use Rattle.wild_loader.specs.Rows.{template_of, deed_of, register_of, width_of, operand_at, high_reg_of, high_rm_of, prefix_length};

use crate::instruction::{Action, Cell, Deed, Operand};

/// The length of the longest template in bytes.
pub const LONGEST: usize = 22;

/// The prefix of an opcode, which gives the number of bits that the instruction works on.
#[derive(Clone, Copy)]
pub enum Prefix {
    /// No prefix: 32 bits.
    NoPrefix,
    /// One byte, for 16 registers (Intel SDM, "REX Prefixes").
    Rex,
    /// Two bytes, for 32 registers (Intel APX, "REX2").
    Rex2,
}

/// Where an instruction names its register.
#[derive(Clone, Copy)]
pub enum Register {
    /// Nowhere: it is `rax`, all 64 bits, if the instruction has a register.
    Accumulator,
    /// In ModRM.reg, with bits of the prefix.
    Reg(Prefix),
    /// In ModRM.rm, with bits of the prefix.
    Rm(Prefix),
}

/// The operation on a register and an operand.
#[derive(Clone, Copy)]
pub enum Operation {
    Set,
    Add,
    Subtract,
    Compare,
    Call,
    Jump,
    SetThreadAddress,
    CallDescriptor,
    Nothing,
}

/// How the operand follows from the address that a displacement names.
#[derive(Clone, Copy)]
pub enum Sort {
    /// The address itself.
    Address,
    /// The word there.
    Word,
    /// The pair of a module and an offset there.
    Pair,
}

/// Where the bytes of an instruction encode its operand, in signed fields of 32 bits.
#[derive(Clone, Copy)]
#[non_exhaustive]
pub enum Place {
    /// The displacement in the bytes from `field` on is relative to the byte `end`; it leads to the operand's address.
    Relative { sort: Sort, field: u8, end: u8 },
    /// The number in the bytes from `field` on.
    Immediate { field: u8 },
    /// Nowhere: it is 0.
    Absent,
}

/// The bytes of an instruction, or of a sequence of instructions, and its action.
#[derive(Clone, Copy)]
pub struct Template {
    /// The number of bytes.
    pub length: u8,
    /// The values that each byte may have.
    pub cells: [Cell; 22],
    /// The operation.
    pub operation: Operation,
    /// Its register.
    pub register: Register,
    /// Its operand.
    pub operand: Place,
}

/// The first items, at most `count`.
pub(crate) fn front<T>(items: &[T], count: usize) -> &[T]
    ensures { result.now ≡ take count items.now }
{
    if count < items.len() {
        &items[..count]
    } else {
        items
    }
}

fn is_cell_match(cell: Cell, byte: u8) -> bool
    ensures { result ≡ fits cell byte }
{
    match cell {
        Cell::Is(fixed) => byte == fixed,
        Cell::From(low, high) => low <= byte && byte <= high,
        Cell::Slot => byte & 0xc7 == 5,
        Cell::Digit(digit) => byte as u16 / 8 == 24 + digit as u16,
        Cell::Any => true,
    }
}

/// Whether the bytes start with values that the cells allow.
fn is_match(cells: &[Cell], bytes: &[u8]) -> bool
    ensures { result ≡ matches_cells cells.now bytes.now }
{
    match cells.split_first() {
        None => true,
        Some((cell, cells)) => match bytes.split_first() {
            None => false,
            Some((byte, bytes)) => is_cell_match(*cell, *byte) && is_match(cells, bytes),
        },
    }
}

/// The byte at an offset; 0 past the end.
fn byte_at(bytes: &[u8], offset: usize) -> u8
    ensures { result ≡ slice_index bytes.now offset }
{
    match bytes.get(offset) {
        Some(byte) => *byte,
        None => 0,
    }
}

/// The number in four bytes; bytes past the end count as 0.
fn number(bytes: &[u8], offset: u8) -> u64
    ensures number { result ≡ number_at bytes.now offset 4 }
    ensures short { result < 2 ^ 32 }
{
    let at = offset as usize;
    let low = byte_at(bytes, at) as u64 + 256 * byte_at(bytes, at + 1) as u64;
    let high = byte_at(bytes, at + 2) as u64 + 256 * byte_at(bytes, at + 3) as u64;
    low + (1 << 16) * high
}

/// The signed number in four bytes, as a 64-bit one.
fn signed(bytes: &[u8], offset: u8) -> u64
    ensures { result ≡ signed_at bytes.now offset }
{
    let number = number(bytes, offset);
    if number < 1 << 31 {
        number
    } else {
        number + 0xffff_ffff_0000_0000
    }
}

impl Prefix {
    fn length(self) -> usize
        ensures { result ≡ prefix_length self }
    {
        match self {
            Prefix::NoPrefix => 0,
            Prefix::Rex => 1,
            Prefix::Rex2 => 2,
        }
    }

    /// The value that it adds to the register number in ModRM.reg.
    fn high_reg(self, bytes: &[u8]) -> u8
        ensures value { result ≡ high_reg_of self bytes.now }
        ensures low { result < 32 }
    {
        match self {
            Prefix::NoPrefix => 0,
            Prefix::Rex => 8 * (byte_at(bytes, 0) / 4 % 2),
            Prefix::Rex2 => 8 * (byte_at(bytes, 1) / 4 % 2) + 16 * (byte_at(bytes, 1) / 64 % 2),
        }
    }

    /// The value that it adds to the register number in ModRM.rm.
    fn high_rm(self, bytes: &[u8]) -> u8
        ensures value { result ≡ high_rm_of self bytes.now }
        ensures low { result < 32 }
    {
        match self {
            Prefix::NoPrefix => 0,
            Prefix::Rex => 8 * (byte_at(bytes, 0) % 2),
            Prefix::Rex2 => 8 * (byte_at(bytes, 1) % 2) + 16 * (byte_at(bytes, 1) / 16 % 2),
        }
    }
}

impl Register {
    /// Its number.
    fn number(self, bytes: &[u8]) -> u8
        ensures { result ≡ register_of self bytes.now }
    {
        match self {
            Register::Accumulator => 0,
            Register::Reg(prefix) => {
                byte_at(bytes, prefix.length() + 1) / 8 % 8 + prefix.high_reg(bytes)
            }
            Register::Rm(prefix) => byte_at(bytes, prefix.length() + 1) % 8 + prefix.high_rm(bytes),
        }
    }

    /// The number of bits that the instruction works on.
    fn width(self, bytes: &[u8]) -> u64
        ensures { result ≡ width_of self bytes.now }
    {
        match self {
            Register::Reg(Prefix::NoPrefix) | Register::Rm(Prefix::NoPrefix) => 32,
            Register::Reg(Prefix::Rex2) | Register::Rm(Prefix::Rex2) => {
                32 + 32 * (byte_at(bytes, 1) as u64 / 8 % 2)
            }
            _ => 64,
        }
    }
}

/// The deed of an operation on a register.
fn deed(operation: Operation, register: u8) -> Deed
    ensures { result ≡ deed_of operation register }
{
    let register = u32::from(register);
    match operation {
        Operation::Set => Deed::Set(register),
        Operation::Add => Deed::Add(register),
        Operation::Subtract => Deed::Subtract(register),
        Operation::Compare => Deed::Compare(register),
        Operation::Call => Deed::Call,
        Operation::Jump => Deed::Jump,
        Operation::SetThreadAddress => Deed::SetThreadAddress(register),
        Operation::CallDescriptor => Deed::CallDescriptor(register),
        Operation::Nothing => Deed::Nothing,
    }
}

/// The operand that the bytes encode, at an address.
fn operand(place: Place, address: u64, bytes: &[u8]) -> Operand
    ensures { result ≡ operand_at place address bytes.now }
{
    match place {
        Place::Relative { sort, field, end } => {
            let named = address
                .wrapping_add(end as u64)
                .wrapping_add(signed(bytes, field));
            match sort {
                Sort::Address => Operand::Number(named),
                Sort::Word => Operand::Word(named),
                Sort::Pair => Operand::Pair(named),
            }
        }
        Place::Immediate { field } => Operand::Number(signed(bytes, field)),
        Place::Absent => Operand::Number(0),
    }
}

impl Template {
    /// The values that each byte may have.
    pub fn cells(&self) -> &[Cell]
        ensures { result.now ≡ (template_of self.now).cells }
    {
        front(&self.cells, self.length as usize)
    }

    /// Whether it matches the start of the bytes.
    pub fn is_match(&self, bytes: &[u8]) -> bool
        ensures { result ≡ matches_cells (template_of self.now).cells bytes.now }
    {
        is_match(self.cells(), bytes)
    }

    /// The action of its bytes at an address.
    pub fn action(&self, address: u64, bytes: &[u8]) -> Action
        ensures { result ≡ (template_of self.now).action address bytes.now }
    {
        Action {
            deed: deed(self.operation, self.register.number(bytes)),
            width: self.register.width(bytes),
            operand: operand(self.operand, address, bytes),
        }
    }
}
