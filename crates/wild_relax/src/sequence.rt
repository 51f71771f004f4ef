//! Consecutive words of AArch64, each with a relocation.
ghost use Rattle.std.specs.Prelude.{◌≡◌, ◌+◌, ◌-◌, ◌*◌, ◌≤◌, ◌^◌, ◌<◌, length, drop};
ghost use Rattle.wild_relax.specs.Question.{question, relocation_of};
ghost use Rattle.wild_relax.specs.RewriteX86_64.{register_set};
ghost use Rattle.wild_relax.specs.SequenceAArch64.{types_of, words_before, same_symbol, relocations_match, words_at, register_read, is_adrp, is_ldr, is_add, is_blr, words_match, is_among, has_around};

use crate::pattern::{Pattern, Sequence};
use crate::reference::{Reference, RelocationInfo, is_zero};
use wild_records::abi::relocation::{
    R_AARCH64_ADD_ABS_LO12_NC, R_AARCH64_ADR_PREL_PG_HI21, R_AARCH64_TLSDESC_ADD_LO12,
    R_AARCH64_TLSDESC_ADR_PAGE21, R_AARCH64_TLSDESC_CALL, R_AARCH64_TLSDESC_LD64_LO12,
    R_AARCH64_TLSIE_ADR_GOTTPREL_PAGE21, R_AARCH64_TLSIE_LD64_GOTTPREL_LO12_NC,
};
use wild_words::read_u32;

const OF_CALLS: [u32; 4] = [
    R_AARCH64_TLSDESC_ADR_PAGE21,
    R_AARCH64_TLSDESC_LD64_LO12,
    R_AARCH64_TLSDESC_ADD_LO12,
    R_AARCH64_TLSDESC_CALL,
];

const OF_SLOTS: [u32; 2] = [
    R_AARCH64_TLSIE_ADR_GOTTPREL_PAGE21,
    R_AARCH64_TLSIE_LD64_GOTTPREL_LO12_NC,
];

const OF_ADDRESSES: [u32; 2] = [R_AARCH64_ADR_PREL_PG_HI21, R_AARCH64_ADD_ABS_LO12_NC];

// The relocation types of the words.
fn types_of(sequence: Sequence) -> &'static [u32]
    ensures value { result.now ≡ types_of sequence }
    ensures short { length result.now ≤ 4 }
{
    match sequence {
        Sequence::DescriptorCall => &OF_CALLS,
        Sequence::OffsetSlot => &OF_SLOTS,
        Sequence::Address => &OF_ADDRESSES,
    }
}

/// The number of words of its sequence before that of a relocation type; 0 if it belongs to no sequence.
pub fn words_before(number: u32) -> usize
    ensures value { result ≡ words_before number }
    ensures few { result ≤ 3 }
{
    match number {
        R_AARCH64_TLSDESC_LD64_LO12
        | R_AARCH64_TLSIE_LD64_GOTTPREL_LO12_NC
        | R_AARCH64_ADD_ABS_LO12_NC => 1,
        R_AARCH64_TLSDESC_ADD_LO12 => 2,
        R_AARCH64_TLSDESC_CALL => 3,
        _ => 0,
    }
}

fn same_symbol(one: Option<usize>, other: Option<usize>) -> bool
    ensures { result ≡ same_symbol one other }
{
    match (one, other) {
        (Some(one), Some(other)) => one == other,
        _ => false,
    }
}

// Whether these relocations have those types, that symbol, addend 0 and offsets 4 bytes apart, from a start on.
fn is_following(
    symbol: Option<usize>,
    place: u64,
    types: &[u32],
    relocations: &[RelocationInfo],
) -> bool
    requires { place + 4 * length types.now < 2 ^ 64 }
    ensures { result ≡ relocations_match symbol place types.now relocations.now }
{
    match types.split_first() {
        None => true,
        Some((number, types)) => match relocations.split_first() {
            None => false,
            Some((relocation, relocations)) => {
                relocation.number == *number
                    && relocation.offset == place
                    && same_symbol(relocation.symbol, symbol)
                    && is_zero(relocation.addend)
                    && is_following(symbol, place + 4, types, relocations)
            }
        },
    }
}

fn register_set(word: u32) -> u32
    ensures { result ≡ register_set word }
{
    word % 0x20
}

fn register_read(word: u32) -> u32
    ensures { result ≡ register_read word }
{
    word / 0x20 % 0x20
}

fn is_adrp(register: u32, word: u32) -> bool
    ensures { result ≡ is_adrp register word }
{
    word / 0x8000_0000 == 1 && word / 0x100_0000 % 0x20 == 16 && register_set(word) == register
}

fn is_ldr(register: u32, from: u32, word: u32) -> bool
    ensures { result ≡ is_ldr register from word }
{
    word / 0x40_0000 == 0x3e5 && register_set(word) == register && register_read(word) == from
}

fn is_add(register: u32, to: u32, word: u32) -> bool
    ensures { result ≡ is_add register to word }
{
    word / 0x40_0000 == 0x244 && register_set(word) == register && register_read(word) == to
}

fn is_blr(register: u32, word: u32) -> bool
    ensures { result ≡ is_blr register word }
{
    word / 0x400 == 0x35_8fc0 && register_set(word) == 0 && register_read(word) == register
}

// Whether the words from a place on are those of the sequence.
fn are_words_of(sequence: Sequence, bytes: &[u8], start: usize) -> bool
    requires { start + 4 * length (types_of sequence) ≤ length bytes.now }
    ensures { result ≡ words_match sequence (words_at bytes.now start (length (types_of sequence))) }
{
    let first = read_u32(bytes, start);
    let second = read_u32(bytes, start + 4);
    let register = register_set(second);
    if register >= 31 {
        return false;
    }
    match sequence {
        Sequence::DescriptorCall => {
            let third = read_u32(bytes, start + 8);
            let fourth = read_u32(bytes, start + 12);
            register >= 1
                && is_adrp(0, first)
                && is_ldr(register, 0, second)
                && is_add(0, 0, third)
                && is_blr(register, fourth)
        }
        Sequence::OffsetSlot => is_adrp(register, first) && is_ldr(register, register, second),
        Sequence::Address => is_adrp(register, first) && is_add(register, register, second),
    }
}

// Whether the relocation is that of the word with `before` words before it, and the others are around it.
#[tactic(auto, unfolding(crate::specs::SequenceAArch64::is_among))]
fn is_among(reference: &Reference, sequence: Sequence, before: u64) -> bool
    ensures { result ≡ is_among (question reference.now) sequence before }
{
    let own = reference.relocation();
    let types = types_of(sequence);
    let size = 4 * types.len() as u64;
    let at = reference.at;
    if before > at as u64 || at > reference.relocations.len() || before > own.offset / 4 {
        return false;
    }
    let start = own.offset - 4 * before;
    let from_first = &reference.relocations[at - before as usize..];
    let length = reference.bytes.len() as u64;
    if length < size || length - size < start {
        return false;
    }
    is_following(own.symbol, start, types, from_first)
        && are_words_of(sequence, reference.bytes, start as usize)
}

/// Whether, if a pattern is a word of a sequence, the relocation is that of this word.
pub(crate) fn has_around(reference: &Reference, pattern: Pattern) -> bool
    ensures { result ≡ has_around (question reference.now) pattern }
{
    match pattern {
        Pattern::Among(sequence, before) => is_among(reference, sequence, before),
        _ => true,
    }
}
