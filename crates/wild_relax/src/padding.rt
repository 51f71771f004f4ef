//! The filling of padding bytes in a section.
ghost use Rattle.std.specs.Prelude.{◌≡◌, length};
ghost use Rattle.wild_relax.specs.Padding.{code_filling, filling, repeated_bytes};

use wild_types::{Machine, is_executable};

/// Four bytes between pieces of code: `int3`, which is not meant to be executed, or a `nop`.
pub fn code_filling(machine: Machine) -> [u8; 4]
    ensures { result ≡ code_filling machine }
{
    match machine {
        Machine::X86_64 => [0xcc, 0xcc, 0xcc, 0xcc],
        Machine::AArch64 => [0x1f, 0x20, 0x03, 0xd5],
    }
}

/// Four bytes that are repeated to fill the padding of a section with those flags (`sh_flags`).
pub fn filling(machine: Machine, section_flags: u64) -> [u8; 4]
    ensures { result ≡ filling machine section_flags }
{
    if is_executable(section_flags) {
        code_filling(machine)
    } else {
        [0, 0, 0, 0]
    }
}

/// Fills a range with four bytes repeated, cut at the end.
#[tactic(auto, using(std::proofs::lemmas::List::Edits::fill_by_more, std::proofs::lemmas::List::FromFn::fill_by_all))]
pub fn fill_over_and_over(room: &mut [u8], bytes: [u8; 4])
    ensures { room.new ≡ repeated_bytes bytes (length room.old) }
{
    for i in 0..room.len() {
        room[i] = bytes[i % 4];
    }
}
