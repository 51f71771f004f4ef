//! AArch64: what words are and do, as another assembler writes them.

use wild_aarch64::{
    Action, Code, Deed, Operand, Shift, Step, branch_of, code_of, longest_step, meaning_of,
};
use wild_relax::aarch64::{THUNKS, ThunkOutOfRange, is_symbol_variant_pcs, write_thunk};
use wild_relax::{Arch, ElfAArch64};
use wild_slot::{PltTooFar, write_stub};
use wild_types::Machine;

// What `as` 2.40 (aarch64-linux-gnu) makes of the line beside it; of loads, stores and conditions the number in front is the word
// without its field.
const CODES: [(u32, Code); 58] = [
    (0x9000_0090, Code::Adrp(16, 0x1_0000)), // adrp x16,.+0x10000
    (0x1000_0823, Code::Adr(3, 0x104)), // adr x3, .+0x104
    (0x10ff_ffe3, Code::Adr(3, 0xffff_ffff_ffff_fffc)), // adr x3, .-4
    (0x912a_f041, Code::Add(1, 2, 0xabc)), // add x1, x2, #0xabc
    (0x916a_f041, Code::Add(1, 2, 0xab_c000)), // add x1, x2, #0xabc, lsl #12
    (0xd2a2_4681, Code::Movz(1, Shift::By16, 0x1234)), // movz x1, #0x1234, lsl #16
    (0xd2e2_4681, Code::Movz(1, Shift::By48, 0x1234)), // movz x1, #0x1234, lsl #48
    (0xf28a_cf01, Code::Movk(1, Shift::By0, 0x5678)), // movk x1, #0x5678
    (0xf2ca_cf01, Code::Movk(1, Shift::By32, 0x5678)), // movk x1, #0x5678, lsl #32
    (0x9280_00a1, Code::Movn(1, Shift::By0, 0x5)), // movn x1, #5
    (0xf97f_fc41, Code::Ldr(1, 2, 0x7ff8)), // ldr x1, [x2, #0x7ff8]
    (0x3940_0c41, Code::Access(0x3_9441, 0x3)), // ldrb w1, [x2, #3]
    (0x3980_0c41, Code::Access(0x3_9841, 0x3)), // ldrsb x1, [x2, #3]
    (0x3900_0c41, Code::Access(0x3_9041, 0x3)), // strb w1, [x2, #3]
    (0x7940_0c41, Code::Access(0x7_9441, 0x6)), // ldrh w1, [x2, #6]
    (0x79c0_0c41, Code::Access(0x7_9c41, 0x6)), // ldrsh w1, [x2, #6]
    (0x7900_0c41, Code::Access(0x7_9041, 0x6)), // strh w1, [x2, #6]
    (0xb940_0c41, Code::Access(0xb_9441, 0xc)), // ldr w1, [x2, #12]
    (0xb980_0c41, Code::Access(0xb_9841, 0xc)), // ldrsw x1, [x2, #12]
    (0xb900_0c41, Code::Access(0xb_9041, 0xc)), // str w1, [x2, #12]
    (0xf900_0c41, Code::Access(0xf_9041, 0x18)), // str x1, [x2, #24]
    (0xf980_0c40, Code::Access(0xf_9840, 0x18)), // prfm pldl1keep, [x2, #24]
    (0x3d40_0c41, Code::Access(0x3_d441, 0x3)), // ldr b1, [x2, #3]
    (0x3d00_0c41, Code::Access(0x3_d041, 0x3)), // str b1, [x2, #3]
    (0x7d40_0c41, Code::Access(0x7_d441, 0x6)), // ldr h1, [x2, #6]
    (0x7d00_0c41, Code::Access(0x7_d041, 0x6)), // str h1, [x2, #6]
    (0xbd40_0c41, Code::Access(0xb_d441, 0xc)), // ldr s1, [x2, #12]
    (0xbd00_0c41, Code::Access(0xb_d041, 0xc)), // str s1, [x2, #12]
    (0xfd40_0c41, Code::Access(0xf_d441, 0x18)), // ldr d1, [x2, #24]
    (0xfd00_0c41, Code::Access(0xf_d041, 0x18)), // str d1, [x2, #24]
    (0x3dc0_0c41, Code::Access(0x3_dc41, 0x30)), // ldr q1, [x2, #48]
    (0x3d80_0c41, Code::Access(0x3_d841, 0x30)), // str q1, [x2, #48]
    (0x5800_0805, Code::Literal(0xb05, 0x100)), // ldr x5, .+0x100
    (0x1800_0805, Code::Literal(0x305, 0x100)), // ldr w5, .+0x100
    (0x98ff_ffe5, Code::Literal(0x1305, 0xffff_ffff_ffff_fffc)), // ldrsw x5, .-4
    (0xd800_0040, Code::Literal(0x1b00, 0x8)), // prfm pldl1keep, .+8
    (0x1c00_0805, Code::Literal(0x385, 0x100)), // ldr s5, .+0x100
    (0x5c00_0805, Code::Literal(0xb85, 0x100)), // ldr d5, .+0x100
    (0x9cff_ff85, Code::Literal(0x1385, 0xffff_ffff_ffff_fff0)), // ldr q5, .-16
    (0x1400_0002, Code::B(0x8)), // b .+8
    (0x97ff_ffff, Code::Bl(0xffff_ffff_ffff_fffc)), // bl .-4
    (0x5400_0201, Code::BranchIf(0xa81, 0x40)), // b.ne .+0x40
    (0x3400_0207, Code::BranchIf(0x687, 0x40)), // cbz w7, .+0x40
    (0xb5ff_fe07, Code::BranchIf(0x16a7, 0xffff_ffff_ffff_ffc0)), // cbnz x7, .-0x40
    (0x3618_0207, Code::BranchIf(0xd867, 0x40)), // tbz w7, #3, .+0x40
    (0xb747_fe07, Code::BranchIf(0x2_dd07, 0xffff_ffff_ffff_ffc0)), // tbnz x7, #40, .-0x40
    (0xd61f_0220, Code::Br(17)), // br x17
    (0xd63f_0020, Code::Blr(1)), // blr x1
    (0xd503_201f, Code::Hint), // nop
    (0xd503_245f, Code::Hint), // bti c
    (0x9080_0003, Code::Adrp(3, 0xffff_ffff_0000_0000)), // adrp x3,.-0x100000000
    (0xf07f_ffe3, Code::Adrp(3, 0xffff_f000)), // adrp x3,.+0xfffff000
    (0x1080_0003, Code::Adr(3, 0xffff_ffff_fff0_0000)), // adr x3,.-0x100000
    (0x707f_ffe3, Code::Adr(3, 0xf_ffff)), // adr x3,.+0xfffff
    (0x9600_0000, Code::Bl(0xffff_ffff_f800_0000)), // bl .-0x8000000
    (0x95ff_ffff, Code::Bl(0x7ff_fffc)), // bl .+0x7fffffc
    (0x361c_0007, Code::BranchIf(0xd867, 0xffff_ffff_ffff_8000)), // tbz w7,#3,.-0x8000
    (0x361b_ffe7, Code::BranchIf(0xd867, 0x7ffc)), // tbz w7,#3,.+0x7ffc
];

// Words of no form: other widths, sums with flags, other ways to name an address, other branches and landing pads.
const OTHERS: [u32; 10] = [
    0x1100_1041, // add w1, w2, #4
    0x5280_0061, // movz w1, #3
    0xb100_1041, // adds x1, x2, #4
    0xd100_1041, // sub x1, x2, #4
    0xa940_0861, // ldp x1, x2, [x3]
    0xf863_6841, // ldr x1, [x2, x3]
    0xf85f_8041, // ldur x1, [x2, #-8]
    0xd65f_03c0, // ret
    0x5400_0211, // bc.ne .+0x40
    0xd503_249f, // bti j
];

#[test]
fn words_of_code(rt: HostRuntime) {
    for (word, code) in CODES {
        assert!(rt; code_of(word) == Some(code), "{word:x}");
    }
    for word in OTHERS {
        assert!(rt; code_of(word).is_none(), "{word:x}");
    }
}

fn sets(register: u32, operand: Operand) -> Option<Action> {
    Some(Action {
        deed: Deed::Sets(register),
        operand,
    })
}

fn jumps(operand: Operand) -> Option<Action> {
    Some(Action {
        deed: Deed::Jumps,
        operand,
    })
}

// `adrp x0; ldr x1, [x0]; add x0, x0; blr x1`, and `nop; nop; movz x0, lsl 16; movk x0` of the offset 0x18 in its place.
#[test]
fn descriptor(rt: HostRuntime) {
    let call = [0x9000_0000, 0xf940_0001, 0x9100_0000, 0xd63f_0020];
    assert!(rt; meaning_of(&call, 0x10010) == sets(0, Operand::Offset(0x10000)));
    let offset = [0xd503_201f, 0xd503_201f, 0xd2a0_0000, 0xf280_0300];
    assert!(rt; meaning_of(&offset, 0x10010) == sets(0, Operand::Number(0x18)));
    assert!(rt; meaning_of(&call[..3], 0x10010).is_none());
}

// `nop; adr x0, .+0x100` in place of `adrp x0; add x0, x0`; if `adrp` sets register 31 the result is not known.
#[test]
fn addresses(rt: HostRuntime) {
    let near = [0xd503_201f, 0x1000_0800];
    assert!(rt; meaning_of(&near, 0x10000) == sets(0, Operand::Number(0x10104)));
    let farthest = [0xd503_201f, 0x707f_ffe0];
    assert!(rt; meaning_of(&farthest, 0x10000) == sets(0, Operand::Number(0x110003)));
    let pair = [0x9000_0000, 0x9104_1000];
    assert!(rt; meaning_of(&pair, 0x10000) == sets(0, Operand::Number(0x10104)));
    assert!(rt; meaning_of(&[0x9000_001f, 0x9104_13ff], 0x10000).is_none());
    assert!(rt; meaning_of(&[0xf940_0441], 0) == sets(1, Operand::WordOf(2, 8)));
}

// Stubs and a thunk, followed by other words. The longest run is taken; an incomplete one is not.
#[test]
fn longest_runs(rt: HostRuntime) {
    let stub = [
        0x9000_0090,
        0xf940_0a11,
        0xd61f_0220,
        0xd503_201f,
        0xd503_201f,
    ];
    let marked = [0xd503_245f, 0x9000_0090, 0xf940_0a11, 0xd61f_0220];
    let thunk = [0x9000_0030, 0x9119_e210, 0xd61f_0200, 0xd503_201f];
    let wanted = jumps(Operand::Word(0x20010));
    for step in [longest_step(0x10000, &stub), longest_step(0x10000, &marked)] {
        let Some(Step { words, action }) = step else {
            panic!(rt; "no step");
        };
        assert!(rt; words == 4 && Some(action) == wanted);
    }
    let Some(step) = longest_step(0x1000, &thunk) else {
        panic!(rt; "no step");
    };
    assert!(rt; step.words == 3 && Some(step.action) == jumps(Operand::Number(0x5678)));
    assert!(rt; branch_of(&thunk, 0x1000) == jumps(Operand::Number(0x5678)));
    let Some(step) = longest_step(0x10000, &stub[..3]) else {
        panic!(rt; "no step");
    };
    assert!(rt; step.words == 1 && Some(step.action) == sets(16, Operand::Number(0x20000)));
    assert!(rt; longest_step(0, &[]).is_none());
    assert!(rt; longest_step(0, &[0x5800_0805]).is_none());
}

// As `as` 2.40 assembles `adrp x16; ldr x17, [x16, #16]; br x17; nop`, and the same after `bti c`.
#[test]
fn stubs(rt: HostRuntime) {
    let mut bytes = [0xcc; 16];
    assert!(rt; write_stub(Machine::AArch64, false, &mut bytes, 0x20010, 0x10000).is_ok());
    assert!(rt; bytes == *b"\x90\0\0\x90\x11\x0a\x40\xf9\x20\x02\x1f\xd6\x1f\x20\x03\xd5");
    assert!(rt; write_stub(Machine::AArch64, true, &mut bytes, 0x20010, 0x10000).is_ok());
    let marked = *b"\x5f\x24\x03\xd5\x90\0\0\x90\x11\x0a\x40\xf9\x20\x02\x1f\xd6";
    assert!(rt; bytes == marked);
    assert!(rt; write_stub(Machine::AArch64, false, &mut bytes, 0x1_0000_fff8, 0x10ff8).is_ok());
    let after = write_stub(Machine::AArch64, false, &mut bytes, 0x1_0001_0000, 0x10ffc);
    assert!(rt; after == Err(PltTooFar { value: 1 << 32 }));
    assert!(rt; write_stub(Machine::AArch64, true, &mut bytes, 0x1_0001_0000, 0x10ffc).is_ok());
    let before = write_stub(Machine::AArch64, false, &mut bytes, 0xfff8, 0x10000);
    assert!(rt;
        before
            == Err(PltTooFar {
                value: u64::MAX - 7
            })
    );
}

// As `as` 2.40 assembles `adrp x16; add x16, x16, #0x678; br x16`; the edges of 21 bits of pages.
#[test]
fn thunks(rt: HostRuntime) {
    let wanted = *b"\x30\0\0\x90\x10\xe2\x19\x91\0\x02\x1f\xd6";
    let mut bytes = [0xcc; 12];
    assert!(rt; write_thunk(0x1000, 0x5678, &mut bytes).is_ok() && bytes == wanted);
    let far = write_thunk(0x1000, 0x1_0000_1000, &mut bytes);
    assert!(rt; far == Err(ThunkOutOfRange { value: 1 << 32 }) && bytes == wanted);
    assert!(rt; write_thunk(0x1000, 0x1_0000_0fff, &mut bytes).is_ok());
    assert!(rt; write_thunk(0x1_0000_0ffc, 0, &mut bytes).is_ok());
    assert!(rt; write_thunk(0x1_0000_1000, 0, &mut bytes).is_err());
    assert!(rt; THUNKS.min_branch_range == 134217728 && THUNKS.thunk_size == 12);
}

// `nop`, cut at the end; the bit of `st_other`.
#[test]
fn padding(rt: HostRuntime) {
    let mut room = [0xcc; 6];
    ElfAArch64::fill_nop_padding(&mut room);
    assert!(rt; room == *b"\x1f\x20\x03\xd5\x1f\x20");
    assert!(rt; is_symbol_variant_pcs(0x82) && !is_symbol_variant_pcs(0x02));
}
