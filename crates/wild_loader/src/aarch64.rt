//! The effect of AArch64 code in memory.
//!
//! Every instruction is one word of 32 bits, so few of them hold a whole address. An address, a slot's content or a thread
//! offset is formed by a run of two to four words.
//! `wild_aarch64` knows these runs (Arm Architecture Reference Manual, C6.2). This file reads at most four words and translates
//! the result to the terms of both machines.
//! The longest run that matches is taken. A single `adrp` has a meaning of its own, that of `adrp` and `ldr` is another.
//! `adrp` works with pages of 4096 bytes, so code has the same effect only at bases that are multiples of the page size.
//! See aaelf64, "Relocation types", for which word has which field, and "Call and Jump relocations" for stubs and thunks.
ghost use Rattle.std.specs.Prelude.{◌≡◌, ◌+◌, ◌^◌, ◌<◌, ◌≤◌, IfSome};
ghost use Rattle.wild_aarch64.specs.Template as longest;
ghost use Rattle.wild_loader.specs.Memory.{number_in};
ghost use Rattle.wild_loader.specs.InstructionAArch64.{does, action_with};
ghost use Rattle.wild_loader.specs.Effect.{words_at, step_aarch64};

use crate::effect::{Effect, code_effect};
use crate::instruction::{Action, Deed, Operand};
use crate::memory::Memory;
use wild_aarch64::{Deed as Does, Operand as Has, Step, longest_step};

fn full(deed: Deed, operand: Operand) -> Option<Action>
    ensures { result ≡ does deed operand }
{
    Some(Action {
        deed,
        width: 64,
        operand,
    })
}

/// The action of a run of words on an operand, in the terms of both machines.
fn action(deed: Does, operand: Has) -> Option<Action>
    ensures { result ≡ action_with deed operand }
{
    match (deed, operand) {
        (Does::Sets(r), Has::Number(x)) => full(Deed::Set(r), Operand::Number(x)),
        (Does::Sets(r), Has::Word(x)) => full(Deed::Set(r), Operand::Word(x)),
        (Does::Sets(r), Has::Offset(x)) => full(Deed::Set(r), Operand::Offset(x)),
        (Does::Sets(r), Has::Register(q, k)) => full(Deed::SetSum(r, q), Operand::Number(k)),
        (Does::Sets(r), Has::WordOf(q, k)) => full(Deed::Load(r, q), Operand::Number(k)),
        (Does::Jumps, Has::Number(x)) => full(Deed::Jump, Operand::Number(x)),
        (Does::Jumps, Has::Word(x)) => full(Deed::Jump, Operand::Word(x)),
        (Does::Calls, Has::Number(x)) => full(Deed::Call, Operand::Number(x)),
        (Does::MayJump(key), Has::Number(x)) => full(Deed::MayJump(key), Operand::Number(x)),
        (Does::Nothing, Has::Number(x)) => full(Deed::Nothing, Operand::Number(x)),
        _ => None,
    }
}

/// The word of code at an address; none if it is not loaded.
#[tactic(auto, using(crate::proofs::TopLemmas::loaded_below))]
fn word_at(memory: &Memory, address: u128) -> Option<u32>
    requires { address + 4 < 2 ^ 65 }
    ensures word { result ≡ number_in memory.now address 4 }
    ensures top { IfSome result (λ w. address + 4 ≤ 2 ^ 64) }
{
    let word = memory.number(address, 4)?;
    Some(word as u32)
}

/// The effect of the longest known run of words at an address.
#[tactic(auto, unfolding(crate::specs::Effect::words_at))]
fn run_at(memory: &Memory, address: u64) -> Option<Step>
    ensures is { result ≡ longest.step_of address (words_at memory.now address 4) }
    ensures small { IfSome result (λ s. s.words ≤ 4) }
{
    let at = address as u128;
    let first = word_at(memory, at)?;
    let Some(second) = word_at(memory, at + 4) else {
        return longest_step(address, &[first]);
    };
    let Some(third) = word_at(memory, at + 4 + 4) else {
        return longest_step(address, &[first, second]);
    };
    match word_at(memory, at + 4 + 4 + 4) {
        Some(fourth) => longest_step(address, &[first, second, third, fourth]),
        None => longest_step(address, &[first, second, third]),
    }
}

/// The effect of the AArch64 code at an address: that of the longest known run of words there.
/// None if no known run is there, if the address is not loaded, or if the run reads a word that is not loaded.
#[tactic(auto, unfolding(crate::specs::Effect::step_aarch64))]
pub fn step_aarch64(memory: &Memory, address: u64) -> Option<Effect>
    ensures { result ≡ step_aarch64 memory.now address }
{
    let step = run_at(memory, address)?;
    let done = action(step.action.deed, step.action.operand)?;
    code_effect(memory, 4 * step.words, done)
}
