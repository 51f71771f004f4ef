//! The x86-64 instructions that use a GOT slot, as data: those with one field, which ends the instruction.
//!
//! The relocation type gives the prefix, except for R_X86_64_GOTPCREL, so the longest instruction is looked for first.
//! Read x86-64 psABI, "Linker Optimization", and "ELF Handling For Thread-Local Storage".
ghost use Rattle.std.specs.Prelude.{◌≡◌, ◌≤◌, map, length, option_map};
ghost use Rattle.wild_checker.specs.Rewritten.{shape_of, ends_at, first_shape, shape_before, shapes};

use wild_loader::{Cell, Operation, Place, Register, Template};
use wild_records::abi::relocation::{
    R_X86_64_CODE_4_GOTPC32_TLSDESC, R_X86_64_CODE_4_GOTPCRELX, R_X86_64_CODE_4_GOTTPOFF,
    R_X86_64_GOTPC32_TLSDESC, R_X86_64_GOTPCREL, R_X86_64_GOTPCRELX, R_X86_64_GOTTPOFF,
    R_X86_64_REX_GOTPCRELX,
};

/// What is done with the value in a slot.
#[derive(Clone, Copy)]
pub enum SlotUse {
    /// It is called or jumped to.
    Branch,
    /// It is an address for a register.
    Address,
    /// It is an offset from the thread pointer for a register.
    Offset,
    /// The slot is a descriptor, whose address goes to a register.
    Descriptor,
}

/// An instruction that uses a slot.
#[derive(Clone, Copy)]
pub struct SlotInstruction {
    /// The type of its relocation.
    pub number: u32,
    /// Its bytes; the last four are its field.
    pub template: Template,
    /// What is done with the value.
    pub slot_use: SlotUse,
}

/// The bytes of an instruction: cells, and a field.
macro_rules! bytes {
    ($length:literal, $a:expr, $b:expr, $c:expr, $d:expr) => {
        Template {
            length: $length,
            cells: [
                $a,
                $b,
                $c,
                $d,
                Cell::Any,
                Cell::Any,
                Cell::Any,
                Cell::Any,
                Cell::Any,
                Cell::Any,
                Cell::Any,
                Cell::Any,
                Cell::Any,
                Cell::Any,
                Cell::Any,
                Cell::Any,
                Cell::Any,
                Cell::Any,
                Cell::Any,
                Cell::Any,
                Cell::Any,
                Cell::Any,
            ],
            operation: Operation::Nothing,
            register: Register::Accumulator,
            operand: Place::Absent,
        }
    };
}

/// A prefix, an opcode and a register.
macro_rules! row {
    ($number:ident, $use:ident, Rex2 $opcode:literal) => {
        SlotInstruction {
            number: $number,
            template: bytes!(
                8,
                Cell::Is(0xd5),
                Cell::From(0, 0x7f),
                Cell::Is($opcode),
                Cell::Slot
            ),
            slot_use: SlotUse::$use,
        }
    };
    ($number:ident, $use:ident, Rex $opcode:literal) => {
        SlotInstruction {
            number: $number,
            template: bytes!(
                7,
                Cell::From(0x48, 0x4f),
                Cell::Is($opcode),
                Cell::Slot,
                Cell::Any
            ),
            slot_use: SlotUse::$use,
        }
    };
    ($number:ident, $use:ident, NoPrefix $opcode:literal) => {
        SlotInstruction {
            number: $number,
            template: bytes!(6, Cell::Is($opcode), Cell::Slot, Cell::Any, Cell::Any),
            slot_use: SlotUse::$use,
        }
    };
    ($number:ident, $use:ident, $opcode:literal $digit:literal) => {
        SlotInstruction {
            number: $number,
            template: bytes!(
                6,
                Cell::Is($opcode),
                Cell::Is($digit),
                Cell::Any,
                Cell::Any
            ),
            slot_use: SlotUse::$use,
        }
    };
}

// The longest first.
const ROWS: [SlotInstruction; 24] = [
    row!(R_X86_64_CODE_4_GOTPCRELX, Address, Rex2 0x8b),
    row!(R_X86_64_CODE_4_GOTPCRELX, Address, Rex2 0x03),
    row!(R_X86_64_CODE_4_GOTPCRELX, Address, Rex2 0x2b),
    row!(R_X86_64_CODE_4_GOTPCRELX, Address, Rex2 0x3b),
    row!(R_X86_64_CODE_4_GOTTPOFF, Offset, Rex2 0x8b),
    row!(R_X86_64_CODE_4_GOTTPOFF, Offset, Rex2 0x03),
    row!(R_X86_64_GOTPCREL, Address, Rex2 0x8b),
    row!(R_X86_64_CODE_4_GOTPC32_TLSDESC, Descriptor, Rex2 0x8d),
    row!(R_X86_64_REX_GOTPCRELX, Address, Rex 0x8b),
    row!(R_X86_64_REX_GOTPCRELX, Address, Rex 0x03),
    row!(R_X86_64_REX_GOTPCRELX, Address, Rex 0x2b),
    row!(R_X86_64_REX_GOTPCRELX, Address, Rex 0x3b),
    row!(R_X86_64_GOTTPOFF, Offset, Rex 0x8b),
    row!(R_X86_64_GOTTPOFF, Offset, Rex 0x03),
    row!(R_X86_64_GOTPCREL, Address, Rex 0x8b),
    row!(R_X86_64_GOTPC32_TLSDESC, Descriptor, Rex 0x8d),
    row!(R_X86_64_GOTPCREL, Branch, 0xff 0x15),
    row!(R_X86_64_GOTPCRELX, Branch, 0xff 0x15),
    row!(R_X86_64_GOTPCREL, Branch, 0xff 0x25),
    row!(R_X86_64_GOTPCRELX, Branch, 0xff 0x25),
    row!(R_X86_64_GOTPCRELX, Address, NoPrefix 0x8b),
    row!(R_X86_64_GOTPCRELX, Address, NoPrefix 0x03),
    row!(R_X86_64_GOTPCRELX, Address, NoPrefix 0x2b),
    row!(R_X86_64_GOTPCRELX, Address, NoPrefix 0x3b),
];

impl SlotInstruction {
    ghost use Rattle.std.specs.Prelude.{◌≡◌, ◌≤◌, length};
    ghost use Rattle.wild_checker.specs.Rewritten.{shape_of, ends_at};

    /// The number of its bytes.
    pub(crate) fn size(&self) -> usize
        ensures { result ≡ length (shape_of self.now).cells }
    {
        self.template.cells().len()
    }

    /// Whether it is the instruction of that relocation type, in the bytes up to an offset.
    fn ends_at(&self, number: u32, bytes: &[u8], end: usize) -> bool
        requires { end ≤ length bytes.now }
        ensures { result ≡ ends_at (shape_of self.now) number bytes.now end }
    {
        let size = self.size();
        self.number == number && size <= end && self.template.is_match(&bytes[end - size..end])
    }
}

/// The first of these instructions that ends at an offset.
fn first_of(
    rows: &[SlotInstruction],
    number: u32,
    bytes: &[u8],
    end: usize,
) -> Option<SlotInstruction>
    requires { end ≤ length bytes.now }
    ensures { option_map shape_of result ≡ first_shape number bytes.now end (map shape_of rows.now) }
{
    for row in rows {
        if row.ends_at(number, bytes, end) {
            return Some(*row);
        }
    }
    None
}

/// The longest instruction of a relocation type that ends at an offset.
pub(crate) fn instruction_before(number: u32, bytes: &[u8], end: usize) -> Option<SlotInstruction>
    requires { end ≤ length bytes.now }
    ensures { option_map shape_of result ≡ shape_before number bytes.now end }
{
    first_of(&ROWS, number, bytes, end)
}
