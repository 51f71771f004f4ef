//! The registers that a run has set, as far as addresses need them, with the last one first.
ghost use Rattle.std.specs.Prelude.{◌≡◌, ◌<◌, if◌then◌else◌, ◌==◌, ◌||◌, ◌∷◌};
ghost use Rattle.wild_aarch64.specs.Machine.{register_value, only_set, outcome, does};
ghost use Rattle.wild_aarch64.specs.Registers.{entries_of, count};
ghost use Rattle.wild_aarch64.specs.declared.operand.Deed.TheVariants.{Sets};

use crate::operand::{Action, Deed, Operand};

/// A register that was set.
#[derive(Clone, Copy, Debug, PartialEq, Eq, Drop)]
pub struct Entry {
    /// Its number.
    pub register: u32,
    /// Its value.
    pub operand: Operand,
}

/// The registers that were set, the last one first.
#[derive(Clone, Copy, Debug, PartialEq, Eq, Drop)]
pub enum Registers {
    Empty,
    One(Entry),
    Two(Entry, Entry),
    Three(Entry, Entry, Entry),
    Four(Entry, Entry, Entry, Entry),
}

fn first_of(entry: Entry, register: u32, other: Operand) -> Operand
    ensures { result ≡ (if entry.register == register then entry.operand else other) }
{
    if entry.register == register {
        entry.operand
    } else {
        other
    }
}

fn is_one_of(entry: Entry, first: u32, second: u32) -> bool
    ensures { result ≡ (entry.register == first || entry.register == second) }
{
    entry.register == first || entry.register == second
}

impl Registers {
    /// The value of the register.
    pub fn operand_of(self, register: u32) -> Operand
        ensures { result ≡ register_value register (entries_of self) }
    {
        let start = Operand::Register(register, 0);
        match self {
            Registers::Empty => start,
            Registers::One(a) => first_of(a, register, start),
            Registers::Two(a, b) => first_of(a, register, first_of(b, register, start)),
            Registers::Three(a, b, c) => {
                let rest = first_of(b, register, first_of(c, register, start));
                first_of(a, register, rest)
            }
            Registers::Four(a, b, c, d) => {
                let rest = first_of(c, register, first_of(d, register, start));
                first_of(a, register, first_of(b, register, rest))
            }
        }
    }

    /// The registers after one more is set.
    pub fn with(self, register: u32, operand: Operand) -> Registers
        requires { count self < 4 }
        ensures { entries_of result ≡ (register, operand) ∷ entries_of self }
    {
        let new = Entry { register, operand };
        match self {
            Registers::Empty => Registers::One(new),
            Registers::One(a) => Registers::Two(new, a),
            Registers::Two(a, b) => Registers::Three(new, a, b),
            Registers::Three(a, b, c) => Registers::Four(new, a, b, c),
            Registers::Four(a, b, c, _) => Registers::Four(new, a, b, c),
        }
    }

    /// Whether no register other than these two was set.
    pub fn are_only(self, first: u32, second: u32) -> bool
        ensures { result ≡ only_set first second (entries_of self) }
    {
        match self {
            Registers::Empty => true,
            Registers::One(a) => is_one_of(a, first, second),
            Registers::Two(a, b) => is_one_of(a, first, second) && is_one_of(b, first, second),
            Registers::Three(a, b, c) => {
                is_one_of(a, first, second)
                    && (is_one_of(b, first, second) && is_one_of(c, first, second))
            }
            Registers::Four(a, b, c, d) => {
                is_one_of(a, first, second)
                    && (is_one_of(b, first, second)
                        && (is_one_of(c, first, second) && is_one_of(d, first, second)))
            }
        }
    }

    /// The effect of a run that does not branch: nothing, or one register that was set; `None` if several were.
    pub fn outcome(self) -> Option<Action>
        ensures { result ≡ outcome (entries_of self) }
    {
        let last = match self {
            Registers::Empty => {
                return Some(Action {
                    deed: Deed::Nothing,
                    operand: Operand::Number(0),
                });
            }
            Registers::One(a) => a,
            Registers::Two(a, _) => a,
            Registers::Three(a, _, _) => a,
            Registers::Four(a, _, _, _) => a,
        };
        if self.are_only(last.register, last.register) {
            Some(set_by(last))
        } else {
            None
        }
    }
}

fn set_by(entry: Entry) -> Action
    ensures { result ≡ does (Sets entry.register) entry.operand }
{
    Action {
        deed: Deed::Sets(entry.register),
        operand: entry.operand,
    }
}
