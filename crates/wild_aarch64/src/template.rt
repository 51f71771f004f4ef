//! The instruction sequences that a linker reads or writes, and the effect of the longest one at a place.
//!
//! A template is a sequence of instructions without their immediates. Stubs and thunks are the linker's own; `adrp` with `ldr` or `add`,
//! and the descriptor's call, come from compilers and are rewritten in place. Read "ELF for the Arm 64-bit Architecture" (aaelf64),
//! "Relocation", for the sequences and their rewrites, and "TLS descriptors" for the call of four words.
//!
//! What surprises: the longest template must come first, because a thunk begins with the two words of an address pair. The pairs may use
//! any register R, which is taken from the second word. Rewrites keep the number of words: `nop` replaces those that are not needed.
ghost use Rattle.std.specs.Prelude.{◌≡◌, ◌+◌, ◌*◌, ◌^◌, ◌<◌, ◌≤◌, IfSome, length, map};
ghost use Rattle.wild_aarch64.specs.Code.{read};
ghost use Rattle.wild_aarch64.specs.Effect.{without_immediate};
ghost use Rattle.wild_aarch64.specs.Template.{codes_of, size_of, same, fits, begins, register_in, template_step, single_step, first_step, step_of};

use crate::code::{Code, Shift, code_of};
use crate::machine::meaning_of;
use crate::operand::Action;

/// The kinds of sequence that a linker reads or writes; R is any register.
#[derive(Clone, Copy, Debug, PartialEq, Eq, Drop)]
pub enum Template {
    /// `adrp x16; ldr x17, [x16]; br x17; nop`.
    Stub,
    /// `bti c; adrp x16; ldr x17, [x16]; br x17`.
    MarkedStub,
    /// `adrp x0; ldr xR, [x0]; add x0, x0; blr xR`.
    DescriptorCall,
    /// `nop; nop; movz x0, lsl 16; movk x0`.
    OffsetForCall,
    /// `nop; nop; adrp x0; ldr x0, [x0]`.
    SlotForCall,
    /// `adrp x16; add x16, x16; br x16`.
    Thunk,
    /// `adrp xR; ldr xR, [xR]`.
    SlotPair,
    /// `movz xR, lsl 16; movk xR`.
    OffsetPair,
    /// `adrp xR; add xR, xR`.
    AddressPair,
    /// `nop; adr xR`.
    NearAddress,
}

// The longest is first.
const TEMPLATES: [Template; 10] = [
    Template::Stub,
    Template::MarkedStub,
    Template::DescriptorCall,
    Template::OffsetForCall,
    Template::SlotForCall,
    Template::Thunk,
    Template::SlotPair,
    Template::OffsetPair,
    Template::AddressPair,
    Template::NearAddress,
];

/// The effect of the first words at a place.
#[derive(Clone, Copy, Debug, PartialEq, Eq, Drop)]
pub struct Step {
    /// The number of these words.
    pub words: usize,
    /// Their effect.
    pub action: Action,
}

/// The instruction with its immediate set to 0.
pub fn without_immediate(code: Code) -> Code
    ensures { result ≡ without_immediate code }
{
    match code {
        Code::Adr(r, _) => Code::Adr(r, 0),
        Code::Adrp(r, _) => Code::Adrp(r, 0),
        Code::Movz(r, s, _) => Code::Movz(r, s, 0),
        Code::Movk(r, s, _) => Code::Movk(r, s, 0),
        Code::Movn(r, s, _) => Code::Movn(r, s, 0),
        Code::Add(r, q, _) => Code::Add(r, q, 0),
        Code::Ldr(r, q, _) => Code::Ldr(r, q, 0),
        Code::Access(key, _) => Code::Access(key, 0),
        Code::Literal(key, _) => Code::Literal(key, 0),
        Code::B(_) => Code::B(0),
        Code::Bl(_) => Code::Bl(0),
        Code::BranchIf(key, _) => Code::BranchIf(key, 0),
        Code::Br(_) | Code::Blr(_) | Code::Hint => code,
    }
}

fn is_same(a: Code, b: Code) -> bool
    ensures { result ≡ same a b }
{
    a == b
}

fn is_cell_match(wanted: Code, code: Option<Code>) -> bool
    ensures { result ≡ fits wanted code }
{
    match code {
        None => false,
        Some(code) => is_same(wanted, without_immediate(code)),
    }
}

// Whether the words begin with these instructions; immediates are not compared.
fn begins_with(wanted: &[Code], words: &[u32]) -> bool
    ensures { result ≡ begins wanted.now (map read words.now) }
{
    match wanted.split_first() {
        None => true,
        Some((code, wanted)) => match words.split_first() {
            None => false,
            Some((word, words)) => is_cell_match(*code, code_of(*word))
                && begins_with(wanted, words),
        },
    }
}

impl Template {
    fn size(self) -> usize
        ensures is { result ≡ size_of self }
        ensures small { result ≤ 4 }
    {
        match self {
            Template::Stub
            | Template::MarkedStub
            | Template::DescriptorCall
            | Template::OffsetForCall
            | Template::SlotForCall => 4,
            Template::Thunk => 3,
            Template::SlotPair
            | Template::OffsetPair
            | Template::AddressPair
            | Template::NearAddress => 2,
        }
    }

    // Whether the words begin with the template's instructions for that register.
    fn matches_words(self, r: u32, words: &[u32]) -> bool
        ensures { result ≡ begins (codes_of self r) (map read words.now) }
    {
        use Code::{Add, Adr, Adrp, Blr, Br, Hint, Ldr, Movk, Movz};
        let high = Shift::By16;
        let low = Shift::By0;
        match self {
            Template::Stub => begins_with(&[Adrp(16, 0), Ldr(17, 16, 0), Br(17), Hint], words),
            Template::MarkedStub => begins_with(
                &[Hint, Adrp(16, 0), Ldr(17, 16, 0), Br(17)],
                words,
            ),
            Template::DescriptorCall => {
                begins_with(&[Adrp(0, 0), Ldr(r, 0, 0), Add(0, 0, 0), Blr(r)], words)
            }
            Template::OffsetForCall => {
                begins_with(&[Hint, Hint, Movz(0, high, 0), Movk(0, low, 0)], words)
            }
            Template::SlotForCall => begins_with(&[Hint, Hint, Adrp(0, 0), Ldr(0, 0, 0)], words),
            Template::Thunk => begins_with(&[Adrp(16, 0), Add(16, 16, 0), Br(16)], words),
            Template::SlotPair => begins_with(&[Adrp(r, 0), Ldr(r, r, 0)], words),
            Template::OffsetPair => begins_with(&[Movz(r, high, 0), Movk(r, low, 0)], words),
            Template::AddressPair => begins_with(&[Adrp(r, 0), Add(r, r, 0)], words),
            Template::NearAddress => begins_with(&[Hint, Adr(r, 0)], words),
        }
    }

    // The effect of the template's words; `None` if the words do not begin with the template.
    fn step(self, place: u64, words: &[u32]) -> Option<Step>
        requires { place + 4 * length words.now ≤ 2 ^ 64 }
        ensures is { result ≡ template_step self place words.now }
        ensures small { IfSome result (λ s. s.words ≤ 4) }
    {
        let size = self.size();
        if !self.matches_words(register_in(words), words) || words.len() < size {
            return None;
        }
        Some(Step {
            words: size,
            action: meaning_of(&words[..size], place)?,
        })
    }
}

// The register that the second word sets.
fn register_in(words: &[u32]) -> u32
    ensures { result ≡ register_in words.now }
{
    if words.len() < 2 {
        return 0;
    }
    words[1] % 32
}

fn single_step(place: u64, words: &[u32]) -> Option<Step>
    requires { place + 4 * length words.now ≤ 2 ^ 64 }
    ensures is { result ≡ single_step place words.now }
    ensures small { IfSome result (λ s. s.words ≤ 4) }
{
    if words.is_empty() {
        return None;
    }
    Some(Step {
        words: 1,
        action: meaning_of(&words[..1], place)?,
    })
}

// The effect of the first template that matches; if none does, that of the first word.
fn first_step(templates: &[Template], place: u64, words: &[u32]) -> Option<Step>
    requires { place + 4 * length words.now ≤ 2 ^ 64 }
    ensures is { result ≡ first_step templates.now place words.now }
    ensures small { IfSome result (λ s. s.words ≤ 4) }
{
    match templates.split_first() {
        None => single_step(place, words),
        Some((template, templates)) => match template.step(place, words) {
            Some(step) => Some(step),
            None => first_step(templates, place, words),
        },
    }
}

/// The effect of the longest template at the front of the words at a place; `None` if no known code is there.
pub fn longest_step(place: u64, words: &[u32]) -> Option<Step>
    requires { place + 4 * length words.now ≤ 2 ^ 64 }
    ensures is { result ≡ step_of place words.now }
    ensures small { IfSome result (λ s. s.words ≤ 4) }
{
    first_step(&TEMPLATES, place, words)
}
