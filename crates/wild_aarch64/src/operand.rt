//! The effect of code: an operand, and what is done with it.

/// The symbolic value of a register or a branch target.
#[derive(Clone, Copy, Debug, PartialEq, Eq, Drop)]
pub enum Operand {
    /// A number.
    Number(u64),
    /// The 64-bit word at the address.
    Word(u64),
    /// The offset from the thread pointer that the TLS descriptor at the address gives.
    Offset(u64),
    /// The register's value before the run, plus the number.
    Register(u32, u64),
    /// The 64-bit word at the register's value before the run, plus the number.
    WordOf(u32, u64),
}

/// What is done with an operand.
#[derive(Clone, Copy, Debug, PartialEq, Eq, Drop)]
pub enum Deed {
    /// The register is set to it.
    Sets(u32),
    /// Execution continues there.
    Jumps,
    /// The code there is called.
    Calls,
    /// Execution continues there on a condition; the number is the bits of the branch outside its distance.
    MayJump(u32),
    /// Nothing is done.
    Nothing,
}

/// The effect of code.
#[derive(Clone, Copy, Debug, PartialEq, Eq, Drop)]
pub struct Action {
    /// What is done.
    pub deed: Deed,
    /// The operand.
    pub operand: Operand,
}
