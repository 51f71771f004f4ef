//! PLT stubs of AArch64 ("ELF for the Arm 64-bit Architecture", "Program Linkage Table"; Arm Architecture Reference Manual, C6.2).
//!
//! The stub is `adrp x16`, `ldr x17, [x16, #lo12]`, `br x17` and a `nop`. With BTI it is `bti c` and the first three.
//! - The ABI's stub also sets x16 to the slot's address, for lazy binding. Here all slots are bound at load time, so that
//!   instruction is left out.
//! - `adrp` counts from its own page. With BTI it is at offset 4, which may be in the page after that of the stub's start.
//! - The slot must be at or after that page and less than 2^32 bytes after it: a GOT before the stubs is refused.
//! - `ldr` scales its offset by 8, so the low three bits of a slot's address are ignored. Slots are 8-byte aligned.
ghost use Rattle.std.specs.Prelude.{◌≡◌, ◌*◌, length};
ghost use Rattle.wild_slot.specs.StubAArch64.{spelled, page_of, stub_page, stub_words, stub_aarch64};

use wild_reloc::AArch64Instruction;
use wild_words::put_u32;

const PAGE: u64 = 4096;

const NOP: u32 = 0xd503_201f;

const BTI_C: u32 = 0xd503_245f;

const ADRP_X16: u32 = 0x9000_0010;

// `ldr x17, [x16]`; `br x17`.
const LDR_X17: u32 = 0xf940_0211;

const BR_X17: u32 = 0xd61f_0220;

/// The first byte of the page that contains an address.
pub fn page_of(address: u64) -> u64
    ensures { result ≡ page_of address }
{
    address / PAGE * PAGE
}

/// Writes instruction words over all of `out`.
#[tactic(auto, using(crate::proofs::StubLemmas::spelled_more))]
pub fn put_words(out: &mut [u8], words: &[u32])
    requires { length out.old ≡ 4 * length words.now }
    ensures { out.new ≡ spelled words.now }
{
    for i in 0..words.len() {
        put_u32(out, 4 * i, words[i]);
    }
}

fn stub_words(distance: u64, bti: bool) -> [u32; 4]
    ensures { result ≡ stub_words bti distance }
{
    let adrp = AArch64Instruction::Adr.insert(ADRP_X16, distance / PAGE);
    let ldr = AArch64Instruction::Imm12.insert(LDR_X17, distance % PAGE / 8);
    if bti {
        [BTI_C, adrp, ldr, BR_X17]
    } else {
        [adrp, ldr, BR_X17, NOP]
    }
}

/// The page from which the stub's distance to its slot is counted: that of `adrp`.
pub(crate) fn stub_page(plt_address: u64, bti: bool) -> u64
    ensures { result ≡ stub_page plt_address bti }
{
    page_of(if bti {
        plt_address.wrapping_add(4)
    } else {
        plt_address
    })
}

/// Writes the stub at `plt_address`; a distance out of range is truncated.
pub(crate) fn put_stub(plt_entry: &mut [u8], got_address: u64, plt_address: u64, bti: bool)
    requires { length plt_entry.old ≡ 16 }
    ensures { plt_entry.new ≡ (stub_aarch64 got_address plt_address bti).bytes }
{
    let distance = got_address.saturating_sub(stub_page(plt_address, bti));
    put_words(plt_entry, &stub_words(distance, bti));
}
