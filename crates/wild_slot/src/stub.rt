//! PLT stubs: code that jumps to the address in a GOT slot (x86-64 psABI, "Procedure Linkage Table"; aaelf64, "Program Linkage Table").
//!
//! This file has the stub of x86-64 and the choice by machine; `stub_aarch64.rt` has the other. Both stubs have 16 bytes.
//! - The output is bound at load time (`DF_BIND_NOW`). So there is no PLT header, no lazy binding, and a stub pushes no index.
//! - The x86-64 stub is `endbr64`, `bnd jmp [rip + disp32]` and a `nop` of five bytes, whatever properties the output has.
//! - The displacement is at offset 7, and relative to the end of the jump, at offset 11. Its range is that of signed 32 bits.
//! - `put_stub` writes any distance and truncates one that does not fit; `write_stub` refuses it and changes nothing.
//! - A distance is modulo 2^64, so that a slot before the stub has a large one.
ghost use Rattle.std.specs.Prelude.{◌≡◌, length, is_ok, IfErr, OnOk, OnErr};
ghost use Rattle.wild_slot.specs.Stub.{displacement_x86_64, stub_x86_64};
ghost use Rattle.wild_slot.specs.MachineStub.{stub_of, distance_if_too_far};

use crate::stub_aarch64;
use wild_reloc::{AllowedRange, RelocationSize, Sign, Width};
use wild_types::{Layout, Machine, Resolution};

/// The slot is out of the stub's range.
#[derive(Clone, Copy, Debug, PartialEq, Eq)]
pub struct PltTooFar {
    /// The distance from the stub to the slot, as the machine counts it, modulo 2^64.
    pub value: u64,
}

/// The size of a stub in bytes.
pub const STUB_SIZE: usize = 16;

// `endbr64`; `bnd jmp [rip + displacement]`; `nop` of five bytes.
const STUB: [u8; STUB_SIZE] = [
    0xf3, 0x0f, 0x1e, 0xfa, 0xf2, 0xff, 0x25, 0x00, 0x00, 0x00, 0x00, 0x0f, 0x1f, 0x44, 0x00, 0x00,
];

// The offset of the displacement in the stub. It is relative to the end of the jump, which is the second offset.
const DISPLACEMENT: usize = 7;

const JUMP_END: u64 = 11;

/// The distance from the end of the jump to the slot, modulo 2^64.
fn displacement(got_address: u64, plt_address: u64) -> u64
    ensures { result ≡ displacement_x86_64 got_address plt_address }
{
    got_address.wrapping_sub(plt_address.wrapping_add(JUMP_END))
}

fn put_x86_64(plt_entry: &mut [u8], got_address: u64, plt_address: u64)
    requires { length plt_entry.old ≡ 16 }
    ensures { plt_entry.new ≡ (stub_x86_64 got_address plt_address).bytes }
{
    let value = displacement(got_address, plt_address);
    plt_entry.copy_from_slice(&STUB);
    RelocationSize::ByteSize(Width::Four).write_at(value, plt_entry, DISPLACEMENT);
}

/// The distance from the stub to the slot, as the machine counts it, modulo 2^64.
fn distance(machine: Machine, bti: bool, got_address: u64, plt_address: u64) -> u64
    ensures { result ≡ (stub_of machine bti got_address plt_address).distance }
{
    match machine {
        Machine::X86_64 => displacement(got_address, plt_address),
        Machine::AArch64 => { got_address.wrapping_sub(stub_aarch64::stub_page(plt_address, bti)) }
    }
}

/// Whether the slot is within the stub's range.
fn reaches(machine: Machine, bti: bool, got_address: u64, plt_address: u64) -> bool
    ensures { result ≡ (stub_of machine bti got_address plt_address).reaches }
{
    let value = distance(machine, bti, got_address, plt_address);
    match machine {
        Machine::X86_64 => AllowedRange::from_bit_size(32, Sign::Signed).contains(value),
        Machine::AArch64 => {
            stub_aarch64::stub_page(plt_address, bti) <= got_address && value < 1 << 32
        }
    }
}

/// Writes the stub at `plt_address` that jumps to the address in the slot; a distance out of range is truncated. With `bti` (AArch64)
/// the stub begins with a landing pad for indirect branches.
pub fn put_stub(
    machine: Machine,
    bti: bool,
    plt_entry: &mut [u8],
    got_address: u64,
    plt_address: u64,
)
    requires { length plt_entry.old ≡ 16 }
    ensures { plt_entry.new ≡ (stub_of machine bti got_address plt_address).bytes }
{
    match machine {
        Machine::X86_64 => put_x86_64(plt_entry, got_address, plt_address),
        Machine::AArch64 => stub_aarch64::put_stub(plt_entry, got_address, plt_address, bti),
    }
}

/// As `put_stub`, but refuses a slot that is too far; a refused call changes nothing.
pub fn write_stub(
    machine: Machine,
    bti: bool,
    plt_entry: &mut [u8],
    got_address: u64,
    plt_address: u64,
) -> Result<(), PltTooFar>
    requires room { length plt_entry.old ≡ 16 }
    ensures accepted { is_ok result ≡ (stub_of machine bti got_address plt_address).reaches }
    ensures value { IfErr result (λ far. far.value ≡ (stub_of machine bti got_address plt_address).distance) }
    ensures written { OnOk result (plt_entry.new ≡ (stub_of machine bti got_address plt_address).bytes) }
    ensures unchanged { OnErr result (plt_entry.new ≡ plt_entry.old) }
{
    if !reaches(machine, bti, got_address, plt_address) {
        return Err(PltTooFar {
            value: distance(machine, bti, got_address, plt_address),
        });
    }
    put_stub(machine, bti, plt_entry, got_address, plt_address);
    Ok(())
}

/// The distance of a resolution's stub from its slot if that is too large.
pub fn distance_if_too_far(layout: &Layout, resolution: &Resolution) -> Option<u64>
    ensures { result ≡ distance_if_too_far layout.now resolution.now }
{
    let bti = layout.options.bti;
    match (resolution.got_address, resolution.plt_address) {
        (Some(slot), Some(stub)) if !reaches(layout.machine, bti, slot, stub) => {
            Some(distance(layout.machine, bti, slot, stub))
        }
        _ => None,
    }
}
