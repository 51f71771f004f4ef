//! Rewrites as other tools write them.

use std::alloc::Global;
use std::test::Fail;
use wild_relax::{Arch, ElfX86_64, Reference, Relaxation, RelaxationKind, RelocationInfo};
use wild_reloc::RelocationKind;
use wild_types::{OutputKind, RelocationModel, ValueFlags};

/// The flags of sections of code.
const CODE: u64 = 6;

/// At fixed addresses.
pub const FIXED: OutputKind = OutputKind::StaticExecutable(RelocationModel::NonRelocatable);

/// At addresses that are chosen when it is loaded.
pub const MOVABLE: OutputKind = OutputKind::StaticExecutable(RelocationModel::Relocatable);

/// The same, with a dynamic linker.
pub const DYNAMIC: OutputKind = OutputKind::DynamicExecutable(RelocationModel::Relocatable);

/// A shared object.
pub const SHARED: OutputKind = OutputKind::SharedObject;

/// A symbol of the output.
pub const OWN: ValueFlags = ValueFlags::NON_INTERPOSABLE;

/// One that is a number.
pub const ABSOLUTE: ValueFlags = ValueFlags(
    ValueFlags::NON_INTERPOSABLE.0 | ValueFlags::ABSOLUTE.0,
);

/// One whose address a resolver returns.
pub const IFUNC: ValueFlags = ValueFlags(ValueFlags::NON_INTERPOSABLE.0 | ValueFlags::IFUNC.0);

/// One that another module may define.
pub const OTHERS: ValueFlags = ValueFlags::DYNAMIC;

/// An instruction in an output, and its symbol.
#[derive(Clone, Copy)]
pub struct Setting {
    pub kind: OutputKind,
    pub flags: ValueFlags,
    pub relax: bool,
    pub address: u64,
    pub symbol: Option<u64>,
    /// What the field's value is taken from: the symbol's address, its offset from the thread pointer, or its slot.
    pub target: u64,
}

/// A relocation whose field is the last four bytes of an instruction.
pub fn relocation_at_the_end(number: u32, instruction: &[u8]) -> RelocationInfo {
    RelocationInfo {
        number,
        offset: instruction.len().saturating_sub(4) as u64,
        symbol: Some(0),
        addend: -4,
        names_tls_get_addr: false,
    }
}

/// What becomes of the first relocation, whose field is written: nothing, a rewrite of a kind, or what it needs is not
/// there.
pub fn link(
    bytes: &mut [u8],
    relocations: &[RelocationInfo],
    setting: Setting,
) -> Result<Result<Option<RelaxationKind>, u32>, Fail> {
    let first = relocations.get(0).ok_or("no relocation")?;
    let found = ElfX86_64::new_relaxation(&Reference {
        relocations,
        at: 0,
        bytes,
        flags: setting.flags,
        kind: setting.kind,
        section_flags: CODE,
        relax: setting.relax,
        value: setting.symbol,
        address: setting.address,
    });
    let relaxation = match found {
        Err(unknown) => return Ok(Err(unknown.number)),
        Ok(None) => return Ok(Ok(None)),
        Ok(Some(relaxation)) => relaxation,
    };
    let mut offset = first.offset;
    let mut addend = first.addend;
    relaxation.apply(bytes, &mut offset, &mut addend);
    let row = relaxation.rel_info();
    let place = setting.address.wrapping_add(offset);
    let sum = setting.target.wrapping_add_signed(addend);
    let value = match row.kind {
        RelocationKind::Absolute | RelocationKind::TpOff => sum,
        _ => sum.wrapping_sub(place),
    };
    let field = offset as usize;
    if bytes.len() < row.width() || bytes.len() - row.width() < field {
        Err("the field is not in the bytes")?;
    }
    row.write_at(value, bytes, field)
        .ok()
        .ok_or("out of range")?;
    Ok(Ok(Some(relaxation.debug_kind())))
}

// The bytes of an instruction that is rewritten.
fn rewritten_bytes(
    alloc: Global,
    relocations: &[RelocationInfo],
    input: &[u8],
    setting: Setting,
) -> Result<Vec<u8>, Fail> {
    let mut bytes = input.to_vec(alloc)?;
    match link(&mut bytes, relocations, setting)? {
        Ok(Some(_)) => Ok(bytes),
        _ => Err("not rewritten")?,
    }
}

/// The output, the symbol's flags, the instruction's address and the symbol's, the relocation, the instruction, and what
/// becomes of it.
type Instruction = (
    OutputKind,
    ValueFlags,
    u64,
    u64,
    u32,
    &'static [u8],
    &'static [u8],
);

#[rattlefmt::skip]
const OF_ADDRESSES: &[Instruction] = &[
    // R_X86_64_REX_GOTPCRELX and R_X86_64_GOTPCRELX, as GNU `ld -static -pie` 2.40 wrote them at these addresses.
    (MOVABLE, OWN, 0x1007, 0x3008, 42, b"\x48\x8b\x2d\0\0\0\0", b"\x48\x8d\x2d\xfa\x1f\0\0"),
    (MOVABLE, ABSOLUTE, 0x104b, 0x1234, 42, b"\x48\x8b\x2d\0\0\0\0", b"\x48\xc7\xc5\x34\x12\0\0"),
    (MOVABLE, OWN, 0x1007, 0x3008, 41, b"\x8b\x2d\0\0\0\0", b"\x8d\x2d\xfb\x1f\0\0"),
    (MOVABLE, ABSOLUTE, 0x104b, 0x1234, 41, b"\x8b\x2d\0\0\0\0", b"\xc7\xc5\x34\x12\0\0"),
    // R_X86_64_CODE_4_GOTPCRELX. As lld 22 wrote the first. It keeps the slot of an absolute symbol: no linker here writes
    // that immediate.
    (MOVABLE, OWN, 0x1000, 0x3008, 43, b"\xd5\x48\x8b\x2d\0\0\0\0", b"\xd5\x48\x8d\x2d\0\x20\0\0"),
    (MOVABLE, ABSOLUTE, 0x1000, 0x1234, 43, b"\xd5\x48\x8b\x2d\0\0\0\0", b"\xd5\x18\xc7\xc5\x34\x12\0\0"),
    // `call *f@GOTPCREL(%rip)`, `jmp *f@GOTPCREL(%rip)`, as GNU `ld -no-pie` 2.40 and lld 22 wrote them.
    (FIXED, OWN, 0x401000, 0x401100, 41, b"\xff\x15\0\0\0\0", b"\x67\xe8\xfa\0\0\0"),
    (FIXED, OWN, 0x401000, 0x401100, 41, b"\xff\x25\0\0\0\0", b"\xe9\xfb\0\0\0\x90"),
    // `movq`, `movl`, `subq`, `cmpq` of `x@GOTPCREL(%rip)`, `call *f@GOTPCREL(%rip)`, `jmp *f@GOTPCREL(%rip)`, `call f@PLT`, as
    // GNU `ld -no-pie` 2.40 wrote them at these addresses.
    (FIXED, OWN, 0x401007, 0x402008, 42, b"\x48\x8b\x2d\0\0\0\0", b"\x48\xc7\xc5\x08\x20\x40\0"),
    (FIXED, OWN, 0x40100e, 0x402008, 42, b"\x4c\x8b\x2d\0\0\0\0", b"\x49\xc7\xc5\x08\x20\x40\0"),
    (FIXED, OWN, 0x401015, 0x402008, 41, b"\x8b\x2d\0\0\0\0", b"\xc7\xc5\x08\x20\x40\0"),
    (FIXED, OWN, 0x401022, 0x402008, 42, b"\x4c\x2b\x2d\0\0\0\0", b"\x49\x81\xed\x08\x20\x40\0"),
    (FIXED, OWN, 0x401029, 0x402008, 42, b"\x48\x3b\x2d\0\0\0\0", b"\x48\x81\xfd\x08\x20\x40\0"),
    (FIXED, OWN, 0x401030, 0x40106d, 41, b"\xff\x15\0\0\0\0", b"\x67\xe8\x37\0\0\0"),
    (FIXED, OWN, 0x401036, 0x40106d, 41, b"\xff\x25\0\0\0\0", b"\xe9\x32\0\0\0\x90"),
    (FIXED, OWN, 0x40103c, 0x40106d, 4, b"\xe8\0\0\0\0", b"\xe8\x2c\0\0\0"),
    // The same by `ld -pie`, and of an absolute symbol.
    (DYNAMIC, OWN, 0x1007, 0x3008, 42, b"\x48\x8b\x2d\0\0\0\0", b"\x48\x8d\x2d\xfa\x1f\0\0"),
    (DYNAMIC, OWN, 0x100e, 0x3008, 42, b"\x4c\x8b\x2d\0\0\0\0", b"\x4c\x8d\x2d\xf3\x1f\0\0"),
    (DYNAMIC, OWN, 0x1015, 0x3008, 41, b"\x8b\x2d\0\0\0\0", b"\x8d\x2d\xed\x1f\0\0"),
    (DYNAMIC, OWN, 0x1030, 0x106d, 41, b"\xff\x15\0\0\0\0", b"\x67\xe8\x37\0\0\0"),
    (DYNAMIC, OWN, 0x1036, 0x106d, 41, b"\xff\x25\0\0\0\0", b"\xe9\x32\0\0\0\x90"),
    (DYNAMIC, ABSOLUTE, 0x104b, 0x1234, 42, b"\x48\x8b\x2d\0\0\0\0", b"\x48\xc7\xc5\x34\x12\0\0"),
    (DYNAMIC, ABSOLUTE, 0x1052, 0x1234, 42, b"\x4c\x8b\x2d\0\0\0\0", b"\x49\xc7\xc5\x34\x12\0\0"),
    (DYNAMIC, ABSOLUTE, 0x1059, 0x1234, 41, b"\x8b\x2d\0\0\0\0", b"\xc7\xc5\x34\x12\0\0"),
    // R_X86_64_GOTPCREL, as GNU `ld` 2.40 wrote it at these addresses with `-no-pie`, `-pie`, and of a hidden symbol with
    // `-shared`. It does so with `movl` too, which stays here.
    (FIXED, OWN, 0x401020, 0x402008, 9, b"\x48\x8b\x05\0\0\0\0", b"\x48\x8d\x05\xe1\x0f\0\0"),
    (FIXED, OWN, 0x401020, 0x402008, 9, b"\x4c\x8b\x05\0\0\0\0", b"\x4c\x8d\x05\xe1\x0f\0\0"),
    (DYNAMIC, OWN, 0x1020, 0x3008, 9, b"\x48\x8b\x05\0\0\0\0", b"\x48\x8d\x05\xe1\x1f\0\0"),
    (DYNAMIC, OWN, 0x1020, 0x3008, 9, b"\x4c\x8b\x05\0\0\0\0", b"\x4c\x8d\x05\xe1\x1f\0\0"),
    (SHARED, OWN, 0x1020, 0x3008, 9, b"\x48\x8b\x05\0\0\0\0", b"\x48\x8d\x05\xe1\x1f\0\0"),
    (SHARED, OWN, 0x1020, 0x3008, 9, b"\x4c\x8b\x05\0\0\0\0", b"\x4c\x8d\x05\xe1\x1f\0\0"),
    // R_X86_64_GOTPCRELX, R_X86_64_REX_GOTPCRELX, as GNU `ld` 2.40 wrote them: an immediate with `-no-pie`, and of absolute
    // symbols; a distance with `-pie`, and of a hidden symbol with `-shared`. Of an absolute symbol with `-pie` it leaves
    // `sub` and `cmp` unchanged; here they become immediates.
    (FIXED, OWN, 0x401020, 0x402008, 41, b"\x8b\x05\0\0\0\0", b"\xc7\xc0\x08\x20\x40\0"),
    (DYNAMIC, OWN, 0x1020, 0x3008, 41, b"\x8b\x05\0\0\0\0", b"\x8d\x05\xe2\x1f\0\0"),
    (SHARED, OWN, 0x1020, 0x3008, 41, b"\x8b\x05\0\0\0\0", b"\x8d\x05\xe2\x1f\0\0"),
    (FIXED, ABSOLUTE, 0x401020, 0x1234, 41, b"\x8b\x05\0\0\0\0", b"\xc7\xc0\x34\x12\0\0"),
    (DYNAMIC, ABSOLUTE, 0x1020, 0x1234, 41, b"\x8b\x05\0\0\0\0", b"\xc7\xc0\x34\x12\0\0"),
    (FIXED, ABSOLUTE, 0x401020, 0x8000_1234, 41, b"\x8b\x05\0\0\0\0", b"\xc7\xc0\x34\x12\0\x80"),
    (FIXED, OWN, 0x401020, 0x402008, 42, b"\x48\x2b\x05\0\0\0\0", b"\x48\x81\xe8\x08\x20\x40\0"),
    (FIXED, OWN, 0x401020, 0x402008, 42, b"\x4c\x2b\x2d\0\0\0\0", b"\x49\x81\xed\x08\x20\x40\0"),
    (FIXED, OWN, 0x401020, 0x402008, 42, b"\x48\x3b\x05\0\0\0\0", b"\x48\x81\xf8\x08\x20\x40\0"),
    (FIXED, OWN, 0x401020, 0x402008, 42, b"\x48\x3b\x2d\0\0\0\0", b"\x48\x81\xfd\x08\x20\x40\0"),
    (FIXED, ABSOLUTE, 0x401020, 0x1234, 42, b"\x4c\x2b\x2d\0\0\0\0", b"\x49\x81\xed\x34\x12\0\0"),
    (FIXED, ABSOLUTE, 0x401020, 0x1234, 42, b"\x48\x3b\x2d\0\0\0\0", b"\x48\x81\xfd\x34\x12\0\0"),
    // R_X86_64_CODE_4_GOTPCRELX, as lld 22 wrote it with `-pie`, and `sub` and `cmp` with `-no-pie`. Its `mov` becomes `lea`
    // with `-no-pie` too, where there is an immediate here.
    (DYNAMIC, OWN, 0x1265, 0x3318, 43, b"\xd5\x48\x8b\x05\0\0\0\0", b"\xd5\x48\x8d\x05\xab\x20\0\0"),
    (DYNAMIC, OWN, 0x1265, 0x3318, 43, b"\xd5\x4c\x8b\x05\0\0\0\0", b"\xd5\x4c\x8d\x05\xab\x20\0\0"),
    (DYNAMIC, OWN, 0x1265, 0x3318, 43, b"\xd5\x48\x8b\x2d\0\0\0\0", b"\xd5\x48\x8d\x2d\xab\x20\0\0"),
    (FIXED, OWN, 0x201178, 0x202198, 43, b"\xd5\x48\x2b\x05\0\0\0\0", b"\xd5\x18\x81\xe8\x98\x21\x20\0"),
    (FIXED, OWN, 0x201178, 0x202198, 43, b"\xd5\x4c\x3b\x2d\0\0\0\0", b"\xd5\x19\x81\xfd\x98\x21\x20\0"),
];

#[test]
fn rewrites_of_addresses(rt: HostRuntime) -> Result<(), Fail> {
    for (kind, flags, address, symbol, number, input, output) in OF_ADDRESSES {
        let setting = Setting {
            kind: *kind,
            flags: *flags,
            relax: true,
            address: *address,
            symbol: Some(*symbol),
            target: *symbol,
        };
        let found = rewritten_bytes(
            rt.alloc(),
            &[relocation_at_the_end(*number, input)],
            input,
            setting,
        )?;
        assert!(rt; found.as_slice() == *output, "{number} at {address:x}");
    }
    Ok(())
}

/// Eight bytes below the end of the output's own thread-local data.
pub const LAST: u64 = 0xffff_ffff_ffff_fff8;

/// The same, with the symbol's offset from the thread pointer, or the address of the slot that has it, in place of its
/// address.
#[rattlefmt::skip]
const OF_THREADS: &[Instruction] = &[
    // `leaq x@tlsdesc(%rip), %rax` in an executable at fixed addresses.
    (FIXED, OWN, 0x401000, LAST, 34, b"\x48\x8d\x05\0\0\0\0", b"\x48\xc7\xc0\xf8\xff\xff\xff"),
    // `movq x@gottpoff(%rip)` to `%rbp` and `%r13`, `leaq x@tlsdesc(%rip), %r13`, as `ld -pie` wrote them.
    (DYNAMIC, OWN, 0x1000, LAST, 22, b"\x48\x8b\x2d\0\0\0\0", b"\x48\xc7\xc5\xf8\xff\xff\xff"),
    (DYNAMIC, OWN, 0x1000, LAST, 22, b"\x4c\x8b\x2d\0\0\0\0", b"\x49\xc7\xc5\xf8\xff\xff\xff"),
    (DYNAMIC, OWN, 0x1000, LAST, 34, b"\x4c\x8d\x2d\0\0\0\0", b"\x49\xc7\xc5\xf8\xff\xff\xff"),
    // `leaq x@tlsdesc(%rip), %r13`, as `ld -pie` wrote it where a shared object has x.
    (DYNAMIC, OTHERS, 0x1030, 0x2fe0, 34, b"\x4c\x8d\x2d\0\0\0\0", b"\x4c\x8b\x2d\xa9\x1f\0\0"),
    // R_X86_64_GOTTPOFF, as GNU `ld` 2.40 wrote it with `-pie`. It makes `lea` of an `add` but of `%rsp` and `%r12`: `48 03 05`
    // becomes `48 8d 80` there, and `48 81 c0` here.
    (DYNAMIC, OWN, 0x1020, LAST, 22, b"\x48\x03\x25\0\0\0\0", b"\x48\x81\xc4\xf8\xff\xff\xff"),
    (DYNAMIC, OWN, 0x1020, LAST, 22, b"\x4c\x03\x25\0\0\0\0", b"\x49\x81\xc4\xf8\xff\xff\xff"),
    (DYNAMIC, OWN, 0x1020, LAST, 22, b"\x48\x8b\x25\0\0\0\0", b"\x48\xc7\xc4\xf8\xff\xff\xff"),
    (DYNAMIC, OWN, 0x1020, LAST, 22, b"\x4c\x8b\x25\0\0\0\0", b"\x49\xc7\xc4\xf8\xff\xff\xff"),
    (DYNAMIC, OWN, 0x1020, LAST, 22, b"\x48\x03\x05\0\0\0\0", b"\x48\x81\xc0\xf8\xff\xff\xff"),
    // R_X86_64_CODE_4_GOTTPOFF and R_X86_64_CODE_4_GOTPC32_TLSDESC, as lld 22 wrote them with `-pie`.
    (DYNAMIC, OWN, 0x129d, LAST, 44, b"\xd5\x48\x8b\x05\0\0\0\0", b"\xd5\x18\xc7\xc0\xf8\xff\xff\xff"),
    (DYNAMIC, OWN, 0x129d, LAST, 44, b"\xd5\x4c\x8b\x05\0\0\0\0", b"\xd5\x19\xc7\xc0\xf8\xff\xff\xff"),
    (DYNAMIC, OWN, 0x129d, LAST, 44, b"\xd5\x48\x8b\x2d\0\0\0\0", b"\xd5\x18\xc7\xc5\xf8\xff\xff\xff"),
    (DYNAMIC, OWN, 0x129d, LAST, 44, b"\xd5\x48\x03\x05\0\0\0\0", b"\xd5\x18\x81\xc0\xf8\xff\xff\xff"),
    (DYNAMIC, OWN, 0x129d, LAST, 44, b"\xd5\x4c\x03\x2d\0\0\0\0", b"\xd5\x19\x81\xc5\xf8\xff\xff\xff"),
    (DYNAMIC, OWN, 0x129d, LAST, 44, b"\xd5\x48\x03\x25\0\0\0\0", b"\xd5\x18\x81\xc4\xf8\xff\xff\xff"),
    (DYNAMIC, OWN, 0x129d, LAST, 45, b"\xd5\x48\x8d\x05\0\0\0\0", b"\xd5\x18\xc7\xc0\xf8\xff\xff\xff"),
    (DYNAMIC, OWN, 0x129d, LAST, 45, b"\xd5\x4c\x8d\x05\0\0\0\0", b"\xd5\x19\xc7\xc0\xf8\xff\xff\xff"),
    (DYNAMIC, OWN, 0x129d, LAST, 45, b"\xd5\x48\x8d\x2d\0\0\0\0", b"\xd5\x18\xc7\xc5\xf8\xff\xff\xff"),
    (DYNAMIC, OTHERS, 0x12b0, 0x2398, 45, b"\xd5\x48\x8d\x05\0\0\0\0", b"\xd5\x48\x8b\x05\xe0\x10\0\0"),
    (DYNAMIC, OTHERS, 0x12b0, 0x2398, 45, b"\xd5\x4c\x8d\x05\0\0\0\0", b"\xd5\x4c\x8b\x05\xe0\x10\0\0"),
    (DYNAMIC, OTHERS, 0x12b0, 0x2398, 45, b"\xd5\x48\x8d\x2d\0\0\0\0", b"\xd5\x48\x8b\x2d\xe0\x10\0\0"),
    // `leaq x@tlsdesc(%rip), %rax` and then `call *x@tlscall(%rax)`, as GNU `ld` 2.40 wrote them with `-pie` where a shared
    // object has x, and the call in an executable at fixed addresses.
    (DYNAMIC, OTHERS, 0x1020, 0x2fe0, 34, b"\x48\x8d\x05\0\0\0\0", b"\x48\x8b\x05\xb9\x1f\0\0"),
    (DYNAMIC, OTHERS, 0x1027, 0, 35, b"\xff\x10", b"\x66\x90"),
    (FIXED, OWN, 0x401000, LAST, 35, b"\xff\x10", b"\x66\x90"),
];

#[test]
fn rewrites_of_thread_local_references(rt: HostRuntime) -> Result<(), Fail> {
    for (kind, flags, address, target, number, input, output) in OF_THREADS {
        let setting = Setting {
            kind: *kind,
            flags: *flags,
            relax: true,
            address: *address,
            symbol: None,
            target: *target,
        };
        let found = rewritten_bytes(
            rt.alloc(),
            &[relocation_at_the_end(*number, input)],
            input,
            setting,
        )?;
        assert!(rt; found.as_slice() == *output, "{number} at {address:x}");
    }
    Ok(())
}
