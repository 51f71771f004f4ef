//! Sequences of two relocations as other tools write them, and what is rewritten at all.

use crate::rewrites::{
    ABSOLUTE, DYNAMIC, FIXED, IFUNC, LAST, MOVABLE, OTHERS, OWN, SHARED, Setting, link,
    relocation_at_the_end,
};
use std::test::Fail;
use wild_relax::{RelaxationKind, RelocationInfo};
use wild_types::{OutputKind, ValueFlags};

// The kinds by their own names.
use RelaxationKind::{
    CallIndirectToRelative, JmpIndirectToRelative, MovIndirectToAbsolute, MovIndirectToLea, NoOp,
    RexMovIndirectToAbsolute, SkipTlsDescCall, TlsDescToLocalExec, TlsGdToInitialExec,
    TlsGdToLocalExec, TlsGdToLocalExecLarge, TlsLdToLocalExec, TlsLdToLocalExec64,
    TlsLdToLocalExecNoPlt,
};

/// The output, the symbol's flags, the address of the sequence, what its value is taken from, number and offset of the
/// first relocation, number, offset and addend of the call's, the sequence, and what becomes of it.
type Sequence = (
    OutputKind,
    ValueFlags,
    u64,
    u64,
    (u32, u64),
    (u32, u64, i64),
    &'static [u8],
    RelaxationKind,
    &'static [u8],
);

#[rattlefmt::skip]
const SEQUENCES: &[Sequence] = &[
    // `leaq x@tlsgd(%rip), %rdi` with `call __tls_get_addr@PLT`, as GNU `ld -no-pie` 2.40 wrote it.
    (FIXED, OWN, 0x401000, LAST, (19, 4), (4, 12, -4),
        b"\x66\x48\x8d\x3d\0\0\0\0\x66\x66\x48\xe8\0\0\0\0", TlsGdToLocalExec,
        b"\x64\x48\x8b\x04\x25\0\0\0\0\x48\x8d\x80\xf8\xff\xff\xff"),
    // The same with `call *__tls_get_addr@GOTPCREL(%rip)`, and `leaq x@tlsld(%rip), %rdi` with `call __tls_get_addr@PLT`, as
    // `ld -pie` wrote them where x is 8 bytes below the end of its own thread-local data.
    (DYNAMIC, OWN, 0x1000, LAST, (19, 4), (41, 12, -4),
        b"\x66\x48\x8d\x3d\0\0\0\0\x66\x48\xff\x15\0\0\0\0", TlsGdToLocalExec,
        b"\x64\x48\x8b\x04\x25\0\0\0\0\x48\x8d\x80\xf8\xff\xff\xff"),
    (DYNAMIC, OWN, 0x1000, LAST, (20, 3), (4, 8, -4),
        b"\x48\x8d\x3d\0\0\0\0\xe8\0\0\0\0", TlsLdToLocalExec,
        b"\x66\x66\x66\x64\x48\x8b\x04\x25\0\0\0\0"),
    // The first two as GNU `ld` 2.40 wrote them with `-pie` where a shared object has x; and with R_X86_64_GOTPCREL at the
    // call, as lld 22 did.
    (DYNAMIC, OTHERS, 0x1020, 0x2fe0, (19, 4), (4, 12, -4),
        b"\x66\x48\x8d\x3d\0\0\0\0\x66\x66\x48\xe8\0\0\0\0", TlsGdToInitialExec,
        b"\x64\x48\x8b\x04\x25\0\0\0\0\x48\x03\x05\xb0\x1f\0\0"),
    (DYNAMIC, OTHERS, 0x1020, 0x2fd8, (19, 4), (41, 12, -4),
        b"\x66\x48\x8d\x3d\0\0\0\0\x66\x48\xff\x15\0\0\0\0", TlsGdToInitialExec,
        b"\x64\x48\x8b\x04\x25\0\0\0\0\x48\x03\x05\xa8\x1f\0\0"),
    (DYNAMIC, OTHERS, 0x12e0, 0x23d0, (19, 4), (9, 12, -4),
        b"\x66\x48\x8d\x3d\0\0\0\0\x66\x48\xff\x15\0\0\0\0", TlsGdToInitialExec,
        b"\x64\x48\x8b\x04\x25\0\0\0\0\x48\x03\x05\xe0\x10\0\0"),
    // The sequences that are longer than their replacement, filled with `nop`. GNU `ld` 2.40 writes the same
    // instructions, with `66 0f 1f 44 00 00` after the first, and in the others with `66 66 66 66 2e 0f 1f 84 00 00 00 00 00`,
    // or four prefixes `66`, before them; lld 22 writes the third as GNU `ld` does.
    (DYNAMIC, OWN, 0x1040, LAST, (19, 3), (31, 9, 0),
        b"\x48\x8d\x3d\0\0\0\0\x48\xb8\0\0\0\0\0\0\0\0\x48\x01\xd8\xff\xd0", TlsGdToLocalExecLarge,
        b"\x64\x48\x8b\x04\x25\0\0\0\0\x48\x8d\x80\xf8\xff\xff\xff\x90\x90\x90\x90\x90\x90"),
    (DYNAMIC, OWN, 0x1040, LAST, (20, 3), (31, 9, 0),
        b"\x48\x8d\x3d\0\0\0\0\x48\xb8\0\0\0\0\0\0\0\0\x48\x01\xd8\xff\xd0", TlsLdToLocalExec64,
        b"\x64\x48\x8b\x04\x25\0\0\0\0\x90\x90\x90\x90\x90\x90\x90\x90\x90\x90\x90\x90\x90"),
    (DYNAMIC, OWN, 0x1040, LAST, (20, 3), (41, 9, -4),
        b"\x48\x8d\x3d\0\0\0\0\xff\x15\0\0\0\0", TlsLdToLocalExecNoPlt,
        b"\x64\x48\x8b\x04\x25\0\0\0\0\x90\x90\x90\x90"),
];

/// The first relocation of a sequence.
fn first_of(number: u32, offset: u64) -> RelocationInfo {
    RelocationInfo {
        number,
        offset,
        symbol: Some(0),
        addend: -4,
        names_tls_get_addr: false,
    }
}

/// The relocation of its call.
fn call_of(number: u32, offset: u64, addend: i64) -> RelocationInfo {
    RelocationInfo {
        number,
        offset,
        symbol: Some(1),
        addend,
        names_tls_get_addr: true,
    }
}

#[test]
fn sequences_with_two_relocations(rt: HostRuntime) -> Result<(), Fail> {
    for (kind, flags, address, target, first, call, input, made, output) in SEQUENCES {
        let setting = Setting {
            kind: *kind,
            flags: *flags,
            relax: true,
            address: *address,
            symbol: None,
            target: *target,
        };
        let relocation = first_of(first.0, first.1);
        let of_call = call_of(call.0, call.1, call.2);
        let mut bytes = input.to_vec(rt.alloc())?;
        let alone = link(&mut bytes, &[relocation], setting)?;
        assert!(rt; alone == Err(first.0), "alone at {address:x}");
        let found = link(&mut bytes, &[relocation, of_call], setting)?;
        let is_so = found == Ok(Some(*made)) && bytes.as_slice() == *output;
        assert!(rt; is_so, "{} at {address:x}", first.0);
    }
    Ok(())
}

/// The output, the symbol's flags, the relocation, the instruction, and what becomes of it; the number where what it
/// needs is not there.
type Instruction = (
    OutputKind,
    ValueFlags,
    u32,
    &'static [u8],
    Result<Option<RelaxationKind>, u32>,
);

#[rattlefmt::skip]
const INSTRUCTIONS: &[Instruction] = &[
    (MOVABLE, OWN, 42, b"\x48\x8b\x2d\0\0\0\0", Ok(Some(MovIndirectToLea))),
    (MOVABLE, ABSOLUTE, 42, b"\x48\x8b\x2d\0\0\0\0", Ok(Some(RexMovIndirectToAbsolute(3)))),
    (MOVABLE, OWN, 41, b"\x8b\x2d\0\0\0\0", Ok(Some(MovIndirectToLea))),
    (MOVABLE, ABSOLUTE, 41, b"\x8b\x2d\0\0\0\0", Ok(Some(MovIndirectToAbsolute))),
    (MOVABLE, OWN, 43, b"\xd5\x48\x8b\x2d\0\0\0\0", Ok(Some(MovIndirectToLea))),
    (MOVABLE, ABSOLUTE, 43, b"\xd5\x48\x8b\x2d\0\0\0\0", Ok(Some(RexMovIndirectToAbsolute(4)))),
    (FIXED, OWN, 41, b"\xff\x15\0\0\0\0", Ok(Some(CallIndirectToRelative))),
    (FIXED, OWN, 41, b"\xff\x25\0\0\0\0", Ok(Some(JmpIndirectToRelative))),
    (FIXED, OWN, 34, b"\x48\x8d\x05\0\0\0\0", Ok(Some(TlsDescToLocalExec(3)))),
    (FIXED, OWN, 35, b"\xff\x10", Ok(Some(SkipTlsDescCall))),
    // No REX2 prefix, and no opcode; `movl` by R_X86_64_GOTPCREL.
    (MOVABLE, ABSOLUTE, 43, b"\x00\x48\x8b\x2d\0\0\0\0", Ok(None)),
    (FIXED, OWN, 41, b"\x15\0\0\0\0", Ok(None)),
    (FIXED, OWN, 9, b"\x8b\x05\0\0\0\0", Ok(None)),
    // An interposable symbol, a shared object's thread-local data, and a relocation that is no row's.
    (MOVABLE, OTHERS, 42, b"\x48\x8b\x2d\0\0\0\0", Ok(None)),
    (SHARED, OWN, 22, b"\x48\x8b\x2d\0\0\0\0", Ok(None)),
    (DYNAMIC, OWN, 64, b"\x48\x8b\x2d\0\0\0\0", Ok(None)),
    // A call through another register.
    (FIXED, OWN, 35, b"\xff\x11", Err(35)),
];

#[test]
fn rewritten_sequences(rt: HostRuntime) -> Result<(), Fail> {
    for (kind, flags, number, input, wanted) in INSTRUCTIONS {
        let setting = Setting {
            kind: *kind,
            flags: *flags,
            relax: true,
            address: 0x1000,
            symbol: Some(0x3008),
            target: 0x3008,
        };
        let mut bytes = input.to_vec(rt.alloc())?;
        let found = link(
            &mut bytes,
            &[relocation_at_the_end(*number, input)],
            setting,
        )?;
        let is_changed = bytes.as_slice() != *input;
        let is_so = found == *wanted && is_changed == matches!(wanted, Ok(Some(_)));
        assert!(rt; is_so, "{number} of {input:?}");
    }
    Ok(())
}

#[test]
fn unchanged_sequences(rt: HostRuntime) -> Result<(), Fail> {
    let mut bytes = *b"\x48\x8b\x2d\0\0\0\0";
    let relocation = relocation_at_the_end(42, &bytes);
    let off = Setting {
        kind: DYNAMIC,
        flags: OWN,
        relax: false,
        address: 0x1000,
        symbol: Some(0x3008),
        target: 0x3008,
    };
    assert!(rt; link(&mut bytes, &[relocation], off)? == Ok(None));
    assert!(rt; bytes == *b"\x48\x8b\x2d\0\0\0\0");
    Ok(())
}

#[rattlefmt::skip]
const MANDATORY: &[Instruction] = &[
    // `mov` of an address: in a static executable, but of an address known at link time only by the form of 32 bits, or for an
    // absolute symbol.
    (FIXED, OWN, 42, b"\x48\x8b\x2d\0\0\0\0", Ok(None)),
    (FIXED, ABSOLUTE, 42, b"\x48\x8b\x2d\0\0\0\0", Ok(Some(RexMovIndirectToAbsolute(3)))),
    (MOVABLE, OWN, 42, b"\x48\x8b\x2d\0\0\0\0", Ok(Some(MovIndirectToLea))),
    (MOVABLE, ABSOLUTE, 42, b"\x48\x8b\x2d\0\0\0\0", Ok(Some(RexMovIndirectToAbsolute(3)))),
    (DYNAMIC, OWN, 42, b"\x48\x8b\x2d\0\0\0\0", Ok(None)),
    (DYNAMIC, ABSOLUTE, 42, b"\x48\x8b\x2d\0\0\0\0", Ok(None)),
    (MOVABLE, OWN, 43, b"\xd5\x48\x8b\x2d\0\0\0\0", Ok(Some(MovIndirectToLea))),
    (DYNAMIC, OWN, 43, b"\xd5\x48\x8b\x2d\0\0\0\0", Ok(None)),
    (FIXED, OWN, 41, b"\x8b\x2d\0\0\0\0", Ok(Some(MovIndirectToAbsolute))),
    (MOVABLE, OWN, 41, b"\x8b\x2d\0\0\0\0", Ok(Some(MovIndirectToLea))),
    (DYNAMIC, OWN, 41, b"\x8b\x2d\0\0\0\0", Ok(None)),
    (MOVABLE, OWN, 9, b"\x48\x8b\x05\0\0\0\0", Ok(None)),
    // `call` and `jmp` through a slot: in a static executable that is position-independent.
    (FIXED, OWN, 41, b"\xff\x15\0\0\0\0", Ok(None)),
    (MOVABLE, OWN, 41, b"\xff\x15\0\0\0\0", Ok(Some(CallIndirectToRelative))),
    (DYNAMIC, OWN, 41, b"\xff\x15\0\0\0\0", Ok(None)),
    (FIXED, OWN, 41, b"\xff\x25\0\0\0\0", Ok(None)),
    (MOVABLE, OWN, 41, b"\xff\x25\0\0\0\0", Ok(Some(JmpIndirectToRelative))),
    (DYNAMIC, OWN, 41, b"\xff\x25\0\0\0\0", Ok(None)),
    // A call of a stub: in a static executable; of an IFUNC in every output.
    (FIXED, OWN, 4, b"\xe8\0\0\0\0", Ok(Some(NoOp))),
    (DYNAMIC, OWN, 4, b"\xe8\0\0\0\0", Ok(None)),
    (DYNAMIC, IFUNC, 2, b"\xe8\0\0\0\0", Ok(Some(NoOp))),
    // Thread-local `mov`, `add`, `lea` of a descriptor, and its call: all but `add` in a static executable.
    (FIXED, OWN, 22, b"\x48\x8b\x2d\0\0\0\0", Ok(Some(RexMovIndirectToAbsolute(3)))),
    (MOVABLE, OWN, 44, b"\xd5\x48\x8b\x2d\0\0\0\0", Ok(Some(RexMovIndirectToAbsolute(4)))),
    (DYNAMIC, OWN, 44, b"\xd5\x48\x8b\x2d\0\0\0\0", Ok(None)),
    (FIXED, OWN, 22, b"\x48\x03\x2d\0\0\0\0", Ok(None)),
    (MOVABLE, OWN, 34, b"\x48\x8d\x05\0\0\0\0", Ok(Some(TlsDescToLocalExec(3)))),
    (DYNAMIC, OWN, 34, b"\x48\x8d\x05\0\0\0\0", Ok(None)),
    (MOVABLE, OWN, 35, b"\xff\x10", Ok(Some(SkipTlsDescCall))),
    (DYNAMIC, OWN, 35, b"\xff\x10", Ok(None)),
];

#[test]
fn rewrites_that_are_mandatory(rt: HostRuntime) -> Result<(), Fail> {
    for (kind, flags, number, input, wanted) in MANDATORY {
        let setting = Setting {
            kind: *kind,
            flags: *flags,
            relax: false,
            address: 0x1000,
            symbol: Some(0x3008),
            target: 0x3008,
        };
        let mut bytes = input.to_vec(rt.alloc())?;
        let found = link(
            &mut bytes,
            &[relocation_at_the_end(*number, input)],
            setting,
        )?;
        let is_changed = bytes.as_slice() != *input;
        let is_so = found == *wanted && is_changed == matches!(wanted, Ok(Some(_)));
        assert!(rt; is_so, "{number} of {input:?}");
    }
    Ok(())
}

#[test]
fn sequences_that_are_mandatory(rt: HostRuntime) -> Result<(), Fail> {
    for (_kind, flags, address, target, first, call, input, made, _output) in SEQUENCES {
        let relocations = [first_of(first.0, first.1), call_of(call.0, call.1, call.2)];
        for kind in [FIXED, MOVABLE, DYNAMIC] {
            let setting = Setting {
                kind,
                flags: *flags,
                relax: false,
                address: *address,
                symbol: None,
                target: *target,
            };
            let mut bytes = input.to_vec(rt.alloc())?;
            let found = link(&mut bytes, &relocations, setting)?;
            // Not the offset in a slot, and not the call of 64 bits for the output's own data.
            let is_optional = matches!(made, TlsGdToInitialExec | TlsLdToLocalExec64);
            let wanted = if kind == DYNAMIC || is_optional {
                None
            } else {
                Some(*made)
            };
            assert!(rt; found == Ok(wanted), "{} at {address:x}", first.0);
        }
    }
    Ok(())
}
