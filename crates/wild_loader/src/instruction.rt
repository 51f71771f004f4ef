//! Instructions: the values that their bytes may have, and their effects.

/// The values that one byte of an instruction may have.
#[derive(Clone, Copy)]
pub enum Cell {
    /// This byte.
    Is(u8),
    /// A byte from the first to the second, both included.
    From(u8, u8),
    /// A ModRM byte of `[rip + displacement]` and any register (Intel SDM, "ModR/M and SIB Bytes").
    Slot,
    /// A ModRM byte of a register, with that digit in place of the other register.
    Digit(u8),
    /// Any byte.
    Any,
}

/// The operand of an action.
#[derive(Clone, Copy, PartialEq, Eq)]
#[non_exhaustive]
pub enum Operand {
    /// A number.
    Number(u64),
    /// The word at that address.
    Word(u64),
    /// The thread-pointer offset denoted by the pair of a module and an offset at that address.
    Pair(u64),
    /// The offset from the thread pointer that the descriptor at that address gives.
    Offset(u64),
}

/// What is done with an operand `x`. Registers are given by their numbers.
#[derive(Clone, Copy, PartialEq, Eq)]
#[non_exhaustive]
pub enum Deed {
    /// Sets the register to `x`.
    Set(u32),
    /// Sets the first register to the sum of the second and `x`.
    SetSum(u32, u32),
    /// Sets the first register to the word at the second register's address plus `x`.
    Load(u32, u32),
    /// Adds `x` to the register.
    Add(u32),
    /// Subtracts `x` from the register.
    Subtract(u32),
    /// Compares the register with `x`.
    Compare(u32),
    /// Calls the code at address `x`.
    Call,
    /// Jumps to address `x`.
    Jump,
    /// Jumps to address `x` on a condition; the number holds the other bits of the branch.
    MayJump(u32),
    /// Sets the register to the thread pointer plus `x`.
    SetThreadAddress(u32),
    /// Calls the function of the descriptor that the register points to; the offset is returned in the register.
    CallDescriptor(u32),
    /// Does nothing.
    Nothing,
}

/// The action of an instruction, or of a sequence of instructions.
#[derive(Clone, Copy, PartialEq, Eq)]
pub struct Action {
    /// What is done.
    pub deed: Deed,
    /// The number of bits that it works on.
    pub width: u64,
    /// Its operand.
    pub operand: Operand,
}
