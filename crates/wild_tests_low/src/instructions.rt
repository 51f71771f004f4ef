//! What instructions do.

use std::alloc::Global;
use std::test::Fail;
use wild_loader::{
    Deed, Effect, Machine, Memory, Run, Value, reaches, step, step_x86_64, template_x86_64,
};
use wild_words::{Bytes, Items};

/// Memory of an image: bytes at addresses.
fn memory_of(alloc: Global, machine: Machine, pieces: &[(u64, &[u8])]) -> Result<Memory, Fail> {
    let mut runs = Vec::new(alloc);
    for (start, bytes) in pieces {
        runs.push(Run {
            start: *start,
            bytes: Bytes::from_vec(bytes.to_vec(alloc)?),
        })?;
    }
    Ok(Memory {
        machine,
        runs: Items::from_vec(runs),
        descriptors: Items::new(alloc),
    })
}

// The word at 0x3000.
const WORD: u64 = 0x5566_7788_0040_1234;

// Bytes at 0x1000, how many bits they work on, and what they do, as `objdump` (GNU Binutils 2.40) prints the bytes there. Those that begin
// with d5 are read by hand (Intel APX, "REX2").
const VECTORS: [(&[u8], u64, Deed, Value); 37] = [
    // mov eax, [rip + 0x1ffa]; mov r8, .. add rax, .. sub r9, .. cmp rax, [rip + 0x1ff9]
    (
        b"\x8b\x05\xfa\x1f\0\0",
        32,
        Deed::Set(0),
        Value::Number(0x0040_1234),
    ),
    (
        b"\x4c\x8b\x05\xf9\x1f\0\0",
        64,
        Deed::Set(8),
        Value::Number(WORD),
    ),
    (
        b"\x48\x03\x05\xf9\x1f\0\0",
        64,
        Deed::Add(0),
        Value::Number(WORD),
    ),
    (
        b"\x4c\x2b\x0d\xf9\x1f\0\0",
        64,
        Deed::Subtract(9),
        Value::Number(WORD),
    ),
    (
        b"\x48\x3b\x05\xf9\x1f\0\0",
        64,
        Deed::Compare(0),
        Value::Number(WORD),
    ),
    // mov r16, [rip + 0x1ff8]; add r8d, [rip + 0x1ff8]
    (
        b"\xd5\x48\x8b\x05\xf8\x1f\0\0",
        64,
        Deed::Set(16),
        Value::Number(WORD),
    ),
    (
        b"\xd5\x04\x03\x05\xf8\x1f\0\0",
        32,
        Deed::Add(8),
        Value::Number(0x0040_1234),
    ),
    // lea r8, [rip + 0x1ff9]; lea ebx, [rip - 6]
    (
        b"\x4d\x8d\x05\xf9\x1f\0\0",
        64,
        Deed::Set(8),
        Value::Number(0x3000),
    ),
    (
        b"\x8d\x1d\xfa\xff\xff\xff",
        32,
        Deed::Set(3),
        Value::Number(0x1000),
    ),
    // mov r8, 0x11223344; add r10, -1; sub rbx, -16; cmp r15, 16
    (
        b"\x49\xc7\xc0\x44\x33\x22\x11",
        64,
        Deed::Set(8),
        Value::Number(0x1122_3344),
    ),
    (
        b"\x49\x81\xc2\xff\xff\xff\xff",
        64,
        Deed::Add(10),
        Value::Number(u64::MAX),
    ),
    (
        b"\x48\x81\xeb\xf0\xff\xff\xff",
        64,
        Deed::Subtract(3),
        Value::Number(u64::MAX - 15),
    ),
    (
        b"\x49\x81\xff\x10\0\0\0",
        64,
        Deed::Compare(15),
        Value::Number(16),
    ),
    // mov ecx, 0x12345678; add ebx, 0xffffffff; sub edx, 1; cmp esi, 2
    (
        b"\xc7\xc1\x78\x56\x34\x12",
        32,
        Deed::Set(1),
        Value::Number(0x1234_5678),
    ),
    (
        b"\x81\xc3\xff\xff\xff\xff",
        32,
        Deed::Add(3),
        Value::Number(0xffff_ffff),
    ),
    (
        b"\x81\xea\x01\0\0\0",
        32,
        Deed::Subtract(2),
        Value::Number(1),
    ),
    (
        b"\x81\xfe\x02\0\0\0",
        32,
        Deed::Compare(6),
        Value::Number(2),
    ),
    // mov r19, 5
    (
        b"\xd5\x18\xc7\xc3\x05\0\0\0",
        64,
        Deed::Set(19),
        Value::Number(5),
    ),
    // addr32 call 0x2000; call 0x2000; jmp 0x1000; call, jmp [rip + 0x1ffa]
    (
        b"\x67\xe8\xfa\x0f\0\0",
        64,
        Deed::Call,
        Value::Number(0x2000),
    ),
    (b"\xe8\xfb\x0f\0\0", 64, Deed::Call, Value::Number(0x2000)),
    (
        b"\xe9\xfb\xff\xff\xff",
        64,
        Deed::Jump,
        Value::Number(0x1000),
    ),
    (b"\xff\x15\xfa\x1f\0\0", 64, Deed::Call, Value::Number(WORD)),
    (b"\xff\x25\xfa\x1f\0\0", 64, Deed::Jump, Value::Number(WORD)),
    // call [rax]; xchg ax, ax; nop
    (b"\xff\x10", 64, Deed::CallDescriptor(0), Value::Number(0)),
    (b"\x66\x90", 64, Deed::Nothing, Value::Number(0)),
    (b"\x90", 64, Deed::Nothing, Value::Number(0)),
    // mov rax, fs:0, and lea rax, [rax - 0x10], alone and with six nops, or add rax, [rip + 0x1ff0]
    (
        b"\x64\x48\x8b\x04\x25\0\0\0\0\x48\x8d\x80\xf0\xff\xff\xff",
        64,
        Deed::SetThreadAddress(0),
        Value::Number(u64::MAX - 15),
    ),
    (
        b"\x64\x48\x8b\x04\x25\0\0\0\0\x48\x8d\x80\x10\0\0\0\x90\x90\x90\x90\x90\x90",
        64,
        Deed::SetThreadAddress(0),
        Value::Number(16),
    ),
    (
        b"\x64\x48\x8b\x04\x25\0\0\0\0\x48\x03\x05\xf0\x1f\0\0",
        64,
        Deed::SetThreadAddress(0),
        Value::Number(WORD),
    ),
    // data16 data16 data16 mov rax, fs:0; mov rax, fs:0 and nops
    (
        b"\x66\x66\x66\x64\x48\x8b\x04\x25\0\0\0\0",
        64,
        Deed::SetThreadAddress(0),
        Value::Number(0),
    ),
    (
        b"\x64\x48\x8b\x04\x25\0\0\0\0\x90\x90\x90\x90",
        64,
        Deed::SetThreadAddress(0),
        Value::Number(0),
    ),
    // data16 lea rdi, [rip + 0x2008], and data16 data16 rex.W call, or data16 rex.W call [rip + 0]
    (
        b"\x66\x48\x8d\x3d\x08\x20\0\0\x66\x66\x48\xe8\0\0\0\0",
        64,
        Deed::SetThreadAddress(0),
        Value::Pair(0x3010),
    ),
    (
        b"\x66\x48\x8d\x3d\x08\x20\0\0\x66\x48\xff\x15\0\0\0\0",
        64,
        Deed::SetThreadAddress(0),
        Value::Pair(0x3010),
    ),
    // lea rdi, [rip + 0x2009], and call, call [rip + 0], or movabs rax, 0; add rax, rbx; call rax
    (
        b"\x48\x8d\x3d\x09\x20\0\0\xe8\0\0\0\0",
        64,
        Deed::SetThreadAddress(0),
        Value::Pair(0x3010),
    ),
    (
        b"\x48\x8d\x3d\x09\x20\0\0\xff\x15\0\0\0\0",
        64,
        Deed::SetThreadAddress(0),
        Value::Pair(0x3010),
    ),
    (
        b"\x48\x8d\x3d\x09\x20\0\0\x48\xb8\0\0\0\0\0\0\0\0\x48\x01\xd8\xff\xd0",
        64,
        Deed::SetThreadAddress(0),
        Value::Pair(0x3010),
    ),
    // endbr64; bnd jmp [rip + 0x1ff5]; nop dword [rax + rax]
    (
        b"\xf3\x0f\x1e\xfa\xf2\xff\x25\xf5\x1f\0\0\x0f\x1f\x44\0\0",
        64,
        Deed::Jump,
        Value::Number(WORD),
    ),
];

#[test]
fn effects(rt: HostRuntime) -> Result<(), Fail> {
    for (bytes, width, deed, value) in &VECTORS {
        let memory = memory_of(
            rt.alloc(),
            Machine::X86_64,
            &[(0x1000, *bytes), (0x3000, &WORD.to_le_bytes())],
        )?;
        let effect = Effect {
            length: bytes.len() as u64,
            width: *width,
            deed: *deed,
            value: *value,
        };
        assert!(rt; step_x86_64(&memory, 0x1000) == Some(effect), "{bytes:?}");
        let template = template_x86_64(bytes).ok_or("no template")?;
        let action = template.action(0x1000, bytes);
        assert!(rt;
            action.deed == *deed && action.width == *width && template.cells().len() == bytes.len()
        );
    }
    Ok(())
}

/// A stub; `call` and `jmp` through its slot; `jmp` to the stub, and one through a word that is not loaded.
#[test]
fn branches(rt: HostRuntime) -> Result<(), Fail> {
    let stub = b"\xf3\x0f\x1e\xfa\xf2\xff\x25\xf5\x1f\0\0\x0f\x1f\x44\0\0";
    let code = b"\xff\x15\xea\x1f\0\0\xff\x25\xe4\x1f\0\0\xe9\xdf\xff\xff\xff\xff\x25\0\0\0\0";
    let memory = memory_of(
        rt.alloc(),
        Machine::X86_64,
        &[
            (0x1000, stub),
            (0x1010, code),
            (0x3000, &WORD.to_le_bytes()),
        ],
    )?;
    let wanted = [
        (0x1000, 16, Deed::Jump, WORD),
        (0x1005, 6, Deed::Jump, WORD),
        (0x1010, 6, Deed::Call, WORD),
        (0x1016, 6, Deed::Jump, WORD),
        (0x101c, 5, Deed::Jump, 0x1000),
    ];
    for (address, length, deed, target) in wanted {
        let effect = Effect {
            length,
            width: 64,
            deed,
            value: Value::Number(target),
        };
        assert!(rt;
            step_x86_64(&memory, address) == Some(effect),
            "at {address}"
        );
    }
    assert!(rt; step_x86_64(&memory, 0x1004).is_none());
    assert!(rt; step_x86_64(&memory, 0x1021).is_none());
    assert!(rt; reaches(&memory, 0x101c, WORD) && reaches(&memory, 0x1005, 0x1005));
    assert!(rt; !reaches(&memory, 0x1010, WORD) && !reaches(&memory, 0x1021, 0));
    Ok(())
}

/// Words of AArch64: a thunk to a stub, the stub, `b` to the thunk, `add x0, x1, #8`, `ldr x2, [x3, #16]` and `b.eq`.
#[test]
fn words(rt: HostRuntime) -> Result<(), Fail> {
    let thunk = b"\x30\0\0\x90\x10\xe2\x19\x91\0\x02\x1f\xd6";
    let stub = b"\xf0\xff\xff\xf0\x11\x0a\x40\xf9\x20\x02\x1f\xd6\x1f\x20\x03\xd5";
    let code = b"\xfd\xff\xff\x17\x20\x20\0\x91\x62\x08\x40\xf9\x40\0\0\x54";
    let memory = memory_of(
        rt.alloc(),
        Machine::AArch64,
        &[
            (0x1000, thunk),
            (0x100c, code),
            (0x4010, &WORD.to_le_bytes()),
            (0x5678, stub),
        ],
    )?;
    let wanted = [
        (0x1000, 12, Deed::Jump, 0x5678),
        (0x100c, 4, Deed::Jump, 0x1000),
        (0x1010, 4, Deed::SetSum(0, 1), 8),
        (0x1014, 4, Deed::Load(2, 3), 16),
        (0x1018, 4, Deed::MayJump(0xa80), 0x1020),
        (0x5678, 16, Deed::Jump, WORD),
    ];
    for (address, length, deed, target) in wanted {
        let effect = Effect {
            length,
            width: 64,
            deed,
            value: Value::Number(target),
        };
        assert!(rt; step(&memory, address) == Some(effect), "at {address}");
    }
    assert!(rt; step(&memory, 0x101c).is_none() && step(&memory, 0x5680).is_none());
    assert!(rt; reaches(&memory, 0x1000, WORD) && !reaches(&memory, 0x100c, WORD));
    Ok(())
}
