//! Runs a few instructions symbolically and gives their one effect.
//!
//! This is not a processor. It follows only the registers that were set, as symbols (see `Operand`). It keeps neither memory nor flags;
//! `movn`, stores and all loads but `ldr` of 64 bits make it stop. Read the Arm Architecture Reference Manual, C6.2, for each
//! instruction, and the Procedure Call Standard (aapcs64), "General-purpose Registers", for the registers that linkers may use. Veneers
//! and stubs may change x16 and x17 (IP0, IP1), so a jump or call may have set these and no others.
//!
//! What surprises: `adrp` adds to the page of its own place, so a run means something only at a given address. Setting register 31 is
//! unknown, because it is either lost or sets the stack pointer. A TLS descriptor's call (aaelf64, "TLS descriptors") is the only
//! `blr` with a meaning: it sets x0 to the offset that the descriptor gives.
ghost use Rattle.std.specs.Prelude.{◌≡◌, ◌+◌, ◌*◌, ◌^◌, ◌<◌, ◌≤◌, [], length, map};
ghost use Rattle.wild_aarch64.specs.Machine.{sum_64, register_value, plus, word_at_operand, shifted_immediate, with_bits, with_bits_changed, step, sets, leaves, leaves_if, goes, descriptor_result, all_hints, meaning};
ghost use Rattle.wild_aarch64.specs.Registers.{entries_of, next_of, count, next_count, follow_words};
ghost use Rattle.wild_aarch64.specs.Code.{read};

use crate::code::{Code, Shift, code_of};
use crate::operand::{Action, Deed, Operand};
use crate::registers::{Entry, Registers};

const PAGE: u64 = 4096;

/// The state of a run after an instruction.
#[derive(Clone, Copy, Debug, PartialEq, Eq, Drop)]
pub enum NextStep {
    /// It continues with these registers.
    On(Registers),
    /// It ends in a branch.
    End(Action),
    /// The effect is unknown.
    Stuck,
}

// The operand plus a number; `None` if the sum cannot be represented.
fn sum_of(operand: Operand, number: u64) -> Option<Operand>
    ensures { result ≡ plus number operand }
{
    match operand {
        Operand::Number(x) => Some(Operand::Number(x.wrapping_add(number))),
        Operand::Register(r, k) => Some(Operand::Register(r, k.wrapping_add(number))),
        _ => None,
    }
}

// The word at the address.
fn word_at(address: Option<Operand>) -> Option<Operand>
    ensures { result ≡ word_at_operand address }
{
    match address {
        Some(Operand::Number(x)) => Some(Operand::Word(x)),
        Some(Operand::Register(r, k)) => Some(Operand::WordOf(r, k)),
        _ => None,
    }
}

fn shifted_immediate(shift: Shift, number: u16) -> u64
    ensures { result ≡ shifted_immediate shift number }
{
    let number = u64::from(number);
    match shift {
        Shift::By0 => number,
        Shift::By16 => number * 0x1_0000,
        Shift::By32 => number * 0x1_0000_0000,
        Shift::By48 => number * 0x1_0000_0000_0000,
    }
}

// `x` with 16 of its bits replaced by the number.
fn with_bits(shift: Shift, number: u16, x: u64) -> u64
    ensures { result ≡ with_bits shift number x }
{
    let number = u64::from(number);
    match shift {
        Shift::By0 => x / 0x1_0000 * 0x1_0000 + number,
        Shift::By16 => x / 0x1_0000_0000 * 0x1_0000_0000 + number * 0x1_0000 + x % 0x1_0000,
        Shift::By32 => {
            x / 0x1_0000_0000_0000 * 0x1_0000_0000_0000 + number * 0x1_0000_0000 + x % 0x1_0000_0000
        }
        Shift::By48 => number * 0x1_0000_0000_0000 + x % 0x1_0000_0000_0000,
    }
}

fn with_bits_changed(shift: Shift, number: u16, operand: Operand) -> Option<Operand>
    ensures { result ≡ with_bits_changed shift number operand }
{
    match operand {
        Operand::Number(x) => Some(Operand::Number(with_bits(shift, number, x))),
        _ => None,
    }
}

// Setting register 31 is unknown.
fn set_to(registers: Registers, register: u32, operand: Option<Operand>) -> NextStep
    requires { count registers < 4 }
    ensures is { next_of result ≡ sets register (entries_of registers) operand }
    ensures small { next_count result ≤ count registers + 1 }
{
    match operand {
        None => NextStep::Stuck,
        Some(_) if register == 31 => NextStep::Stuck,
        Some(operand) => NextStep::On(registers.with(register, operand)),
    }
}

// A jump or call may have set registers 16 and 17 and no others.
fn leaves(registers: Registers, deed: Deed, operand: Operand) -> NextStep
    ensures is { next_of result ≡ leaves (entries_of registers) deed operand }
    ensures small { next_count result ≡ 0 }
{
    if registers.are_only(16, 17) {
        NextStep::End(Action { deed, operand })
    } else {
        NextStep::Stuck
    }
}

// The condition may depend on any register, so none may have been set.
fn leaves_if(key: u32, registers: Registers, operand: Operand) -> NextStep
    ensures is { next_of result ≡ leaves_if key (entries_of registers) operand }
    ensures small { next_count result ≡ 0 }
{
    match registers {
        Registers::Empty => NextStep::End(Action {
            deed: Deed::MayJump(key),
            operand,
        }),
        _ => NextStep::Stuck,
    }
}

fn goes_to(registers: Registers, target: Operand) -> NextStep
    ensures is { next_of result ≡ goes (entries_of registers) target }
    ensures small { next_count result ≡ 0 }
{
    match target {
        Operand::Number(_) | Operand::Word(_) => leaves(registers, Deed::Jumps, target),
        _ => NextStep::Stuck,
    }
}

fn descriptor_call(register: u32, registers: Registers) -> NextStep
    ensures is { next_of result ≡ descriptor_result register (entries_of registers) (register_value register (entries_of registers)) (register_value 0 (entries_of registers)) }
    ensures small { next_count result ≤ 1 }
{
    let Operand::Word(function) = registers.operand_of(register) else {
        return NextStep::Stuck;
    };
    let Operand::Number(descriptor) = registers.operand_of(0) else {
        return NextStep::Stuck;
    };
    if function == descriptor && registers.are_only(0, register) {
        NextStep::On(Registers::One(Entry {
            register: 0,
            operand: Operand::Offset(function),
        }))
    } else {
        NextStep::Stuck
    }
}

// The address at a distance.
fn at_distance(address: u64, distance: u64) -> Operand
    ensures { result ≡ Operand.Number (sum_64 address distance) }
{
    Operand::Number(address.wrapping_add(distance))
}

/// What the instruction at a place does; `Stuck` if the word is no known instruction.
pub fn step_of(place: u64, registers: Registers, code: Option<Code>) -> NextStep
    requires { count registers < 4 }
    ensures is { next_of result ≡ step place (entries_of registers) code }
    ensures small { next_count result ≤ count registers + 1 }
{
    let Some(code) = code else {
        return NextStep::Stuck;
    };
    match code {
        Code::Adr(r, j) => set_to(registers, r, Some(at_distance(place, j))),
        Code::Adrp(r, j) => set_to(registers, r, Some(at_distance(place / PAGE * PAGE, j))),
        Code::Movz(r, s, i) => set_to(registers, r, Some(Operand::Number(shifted_immediate(s, i)))),
        Code::Movk(r, s, i) => set_to(
            registers,
            r,
            with_bits_changed(s, i, registers.operand_of(r)),
        ),
        Code::Add(r, q, j) => set_to(registers, r, sum_of(registers.operand_of(q), j)),
        Code::Ldr(r, q, j) => set_to(registers, r, word_at(sum_of(registers.operand_of(q), j))),
        Code::Movn(_, _, _) | Code::Access(_, _) | Code::Literal(_, _) => NextStep::Stuck,
        Code::B(j) => leaves(registers, Deed::Jumps, at_distance(place, j)),
        Code::Bl(j) => leaves(registers, Deed::Calls, at_distance(place, j)),
        Code::BranchIf(key, j) => leaves_if(key, registers, at_distance(place, j)),
        Code::Br(q) => goes_to(registers, registers.operand_of(q)),
        Code::Blr(q) => descriptor_call(q, registers),
        Code::Hint => NextStep::On(registers),
    }
}

/// The first jump, call or conditional branch of the words at a place; `None` if there is none or an earlier effect is unknown.
pub fn branch_of(words: &[u32], place: u64) -> Option<Action>
    requires few { length words.now ≤ 4 }
    requires top { place + 4 * length words.now ≤ 2 ^ 64 }
    ensures { result ≡ follow_words words.now place [] }
{
    let mut registers = Registers::Empty;
    for i in 0..words.len() {
        match step_of(place + 4 * i as u64, registers, code_of(words[i])) {
            NextStep::On(next) => registers = next,
            NextStep::End(action) => return Some(action),
            NextStep::Stuck => return None,
        }
    }
    None
}

fn do_nothing(words: &[u32]) -> bool
    ensures { result ≡ all_hints (map read words.now) }
{
    for &word in words {
        if code_of(word) != Some(Code::Hint) {
            return false;
        }
    }
    true
}

/// The one effect of the words at a place; `None` if they have several effects or an unknown one.
pub fn meaning_of(words: &[u32], place: u64) -> Option<Action>
    requires few { length words.now ≤ 4 }
    requires top { place + 4 * length words.now ≤ 2 ^ 64 }
    ensures { result ≡ meaning place words.now }
{
    let mut registers = Registers::Empty;
    for i in 0..words.len() {
        match step_of(place + 4 * i as u64, registers, code_of(words[i])) {
            NextStep::On(next) => registers = next,
            NextStep::End(action) if do_nothing(&words[i + 1..]) => return Some(action),
            _ => return None,
        }
    }
    registers.outcome()
}
