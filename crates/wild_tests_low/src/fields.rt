//! Fields as other tools write them.

use std::test::Fail;
use wild_reloc::{AllowedRange, DynamicRelocationKind, RelocationKindInfo, Sign, aarch64, x86_64};

// Whether the value is taken; it is written into the field at the front of the bytes.
fn is_put(row: &RelocationKindInfo, value: u64, bytes: &mut [u8]) -> bool {
    row.width() <= bytes.len() && row.write_to_buffer(value, bytes).is_ok()
}

// The 8 bytes after a write of the field at their front; None where the value is refused.
fn bytes_after_write(row: &RelocationKindInfo, value: u64, before: u64) -> Option<u64> {
    let mut bytes = before.to_le_bytes();
    if is_put(row, value, &mut bytes) {
        Some(u64::from_le_bytes(bytes))
    } else {
        None
    }
}

const PLAIN: u64 = 0xaaaa_aaaa_aaaa_aaaa;

// Number, value, and the field that `ld.lld` 14 wrote, before bytes `aa`, for `.byte`,
// `.word`, `.long`, `.quad` and `movq` of `sym` and of `sym - .`; None where it said "out of range".
const X86_64: [(u32, u64, Option<u64>); 29] = [
    (14, 0xff, Some(0xaaaa_aaaa_aaaa_aaff)),
    (14, 0x100, None),
    (14, 0xffff_ffff_ffff_ff80, Some(0xaaaa_aaaa_aaaa_aa80)),
    (14, 0xffff_ffff_ffff_ff7f, None),
    (12, 0xffff, Some(0xaaaa_aaaa_aaaa_ffff)),
    (12, 0x1_0000, None),
    (12, 0xffff_ffff_ffff_8000, Some(0xaaaa_aaaa_aaaa_8000)),
    (12, 0xffff_ffff_ffff_7fff, None),
    (10, 0xffff_ffff, Some(0xaaaa_aaaa_ffff_ffff)),
    (10, 0x1_0000_0000, None),
    (10, 0xffff_ffff_ffff_ffff, None),
    (11, 0x7fff_ffff, Some(0xaaaa_aaaa_7fff_ffff)),
    (11, 0x8000_0000, None),
    (11, 0xffff_ffff_8000_0000, Some(0xaaaa_aaaa_8000_0000)),
    (11, 0xffff_ffff_7fff_ffff, None),
    (1, 0xffff_ffff_ffff_fffe, Some(0xffff_ffff_ffff_fffe)),
    (15, 0x7f, Some(0xaaaa_aaaa_aaaa_aa7f)),
    (15, 0x80, None),
    (15, 0xffff_ffff_ffff_ff80, Some(0xaaaa_aaaa_aaaa_aa80)),
    (15, 0xffff_ffff_ffff_ff7f, None),
    (13, 0x7fff, Some(0xaaaa_aaaa_aaaa_7fff)),
    (13, 0x8000, None),
    (13, 0xffff_ffff_ffff_8000, Some(0xaaaa_aaaa_aaaa_8000)),
    (13, 0xffff_ffff_ffff_7fff, None),
    (2, 0x7fff_ffff, Some(0xaaaa_aaaa_7fff_ffff)),
    (2, 0x8000_0000, None),
    (2, 0xffff_ffff_8000_0000, Some(0xaaaa_aaaa_8000_0000)),
    (2, 0xffff_ffff_7fff_ffff, None),
    (24, 0xffff_fffe_dcba_9877, Some(0xffff_fffe_dcba_9877)),
];

// Number, value, the instruction as `llvm-mc` 14 assembled it with 0, and as `ld.lld` 14 linked it; where the
// comment has no `sym` or `v`, as `llvm-mc` assembled it with the number in its place.
const INSTRUCTIONS_OF_AARCH64: [(u32, u64, u32, u32); 51] = [
    (263, 0x0, 0xd280_0003, 0xd280_0003), // movz x3,#:abs_g0:sym
    (263, 0x1234, 0xd280_0003, 0xd282_4683), // movz x3,#:abs_g0:sym
    (263, 0xffff, 0xd280_0003, 0xd29f_ffe3), // movz x3,#:abs_g0:sym
    (264, 0x1234_abcd_5678, 0xf280_0003, 0xf28a_cf03), // movk x3,#:abs_g0_nc:sym
    (265, 0xffff_ffff, 0xd2a0_0003, 0xd2bf_ffe3), // movz x3,#:abs_g1:sym
    (265, 0x1234_5678, 0xd2a0_0003, 0xd2a2_4683), // movz x3,#:abs_g1:sym
    (266, 0x1234_abcd_5678, 0xf2a0_0003, 0xf2b5_79a3), // movk x3,#:abs_g1_nc:sym
    (267, 0xffff_ffff_ffff, 0xd2c0_0003, 0xd2df_ffe3), // movz x3,#:abs_g2:sym
    (267, 0x1234_5678_9abc, 0xd2c0_0003, 0xd2c2_4683), // movz x3,#:abs_g2:sym
    (268, 0xfedc_ba98_7654_3210, 0xf2c0_0003, 0xf2d7_5303), // movk x3,#:abs_g2_nc:sym
    (269, 0xfedc_ba98_7654_3210, 0xd2e0_0003, 0xd2ff_db83), // movz x3,#:abs_g3:sym
    (273, 0xffff_ffff_fff0_0000, 0x5800_0005, 0x5880_0005), // ldr x5,sym
    (273, 0xf_fffc, 0x5800_0005, 0x587f_ffe5), // ldr x5,sym
    (274, 0xffff_ffff_fff0_0000, 0x1000_0003, 0x1080_0003), // adr x3,sym
    (274, 0xf_ffff, 0x1000_0003, 0x707f_ffe3), // adr x3,sym
    (274, 0x5, 0x1000_0003, 0x3000_0023), // adr x3,sym
    (275, 0xffff_ffff_0000_0000, 0x9000_0003, 0x9080_0003), // adrp x3,sym
    (275, 0xffff_f000, 0x9000_0003, 0xf07f_ffe3), // adrp x3,sym
    (276, 0x76_5432_1000, 0x9000_0003, 0xb02a_1903), // adrp x3,:pg_hi21_nc:sym
    (277, 0x1234_5abc, 0x9100_0041, 0x912a_f041), // add x1,x2,:lo12:sym
    (278, 0x1234_5abd, 0x3940_0041, 0x396a_f441), // ldrb w1,[x2,:lo12:sym]
    (279, 0xffff_ffff_ffff_8000, 0x3618_0007, 0x361c_0007), // tbz w7,#3,sym
    (279, 0x7ffc, 0x3618_0007, 0x361b_ffe7), // tbz w7,#3,sym
    (280, 0xffff_ffff_fff0_0000, 0x5400_0001, 0x5480_0001), // b.ne sym
    (280, 0xf_fffc, 0x5400_0001, 0x547f_ffe1), // b.ne sym
    (282, 0x1234, 0x1400_0000, 0x1400_048d), // b sym
    (283, 0xffff_ffff_f800_0000, 0x9400_0000, 0x9600_0000), // bl sym
    (283, 0x7ff_fffc, 0x9400_0000, 0x95ff_ffff), // bl sym
    (284, 0x1234_5abe, 0x7940_0041, 0x7955_7c41), // ldrh w1,[x2,:lo12:sym]
    (285, 0x1234_5abc, 0xb940_0041, 0xb94a_bc41), // ldr w1,[x2,:lo12:sym]
    (286, 0x1234_5ab8, 0xf940_0041, 0xf945_5c41), // ldr x1,[x2,:lo12:sym]
    (299, 0x1234_5ab0, 0x3dc0_0041, 0x3dc2_ac41), // ldr q1,[x2,:lo12:sym]
    (312, 0x22_0008, 0xf940_0041, 0xf940_0441), // ldr x1,[x2,#8]
    (313, 0x7ff8, 0xf940_0041, 0xf97f_fc41), // ldr x1,[x2,#0x7ff8]
    (544, 0x1234_5678_9abc, 0xd2c0_0001, 0xd2c2_4681), // movz x1,#0x1234,lsl #32
    (545, 0x1234_5678, 0xd2a0_0001, 0xd2a2_4681), // movz x1,#0x1234,lsl #16
    (545, 0xffff_ffff, 0xd2a0_0001, 0xd2bf_ffe1), // movz x1,#0xffff,lsl #16
    (546, 0x1234_5678, 0xf2a0_0001, 0xf2a2_4681), // movk x1,#:tprel_g1_nc:v
    (548, 0x1234_5678, 0xf280_0001, 0xf28a_cf01), // movk x1,#:tprel_g0_nc:v
    (549, 0x12_3456, 0x9140_0041, 0x9144_8c41), // add x1,x2,:tprel_hi12:v
    (549, 0xff_ffff, 0x9140_0041, 0x917f_fc41), // add x1,x2,:tprel_hi12:v
    (550, 0xfff, 0x9100_0041, 0x913f_fc41), // add x1,x2,#0xfff
    (551, 0x12_3456, 0x9100_0041, 0x9111_5841), // add x1,x2,:tprel_lo12_nc:v
    (552, 0xfff, 0x3940_0041, 0x397f_fc41), // ldrb w1,[x2,#0xfff]
    (553, 0x12_3457, 0x3940_0041, 0x3951_5c41), // ldrb w1,[x2,:tprel_lo12_nc:v]
    (554, 0xffe, 0x7940_0041, 0x795f_fc41), // ldrh w1,[x2,#0xffe]
    (555, 0x12_3456, 0x7940_0041, 0x7948_ac41), // ldrh w1,[x2,:tprel_lo12_nc:v]
    (556, 0xffc, 0xb940_0041, 0xb94f_fc41), // ldr w1,[x2,#0xffc]
    (557, 0x12_3458, 0xb940_0041, 0xb944_5841), // ldr w1,[x2,:tprel_lo12_nc:v]
    (558, 0xff8, 0xf940_0041, 0xf947_fc41), // ldr x1,[x2,#0xff8]
    (559, 0x12_3458, 0xf940_0041, 0xf942_2c41), // ldr x1,[x2,:tprel_lo12_nc:v]
];

// Number, value, and the field over bytes `aa`, with the ranges that `ld.lld` 14 has for ABS and PREL.
const WORDS_OF_AARCH64: [(u32, u64, u64); 8] = [
    (258, 0xffff_ffff, 0xaaaa_aaaa_ffff_ffff),
    (258, 0xffff_ffff_8000_0000, 0xaaaa_aaaa_8000_0000),
    (259, 0xffff, 0xaaaa_aaaa_aaaa_ffff),
    (259, 0xffff_ffff_ffff_8000, 0xaaaa_aaaa_aaaa_8000),
    (261, 0xffff_ffff, 0xaaaa_aaaa_ffff_ffff),
    (261, 0xffff_ffff_8000_0000, 0xaaaa_aaaa_8000_0000),
    (262, 0xffff, 0xaaaa_aaaa_aaaa_ffff),
    (262, 0xffff_ffff_ffff_8000, 0xaaaa_aaaa_aaaa_8000),
];

// Number and value that `ld.lld` 14 refused as out of range or not aligned, or reached by a thunk.
const REFUSED_OF_AARCH64: [(u32, u64); 30] = [
    (258, 0x1_0000_0000),
    (258, 0xffff_ffff_7fff_ffff),
    (259, 0x1_0000),
    (259, 0xffff_ffff_ffff_7fff),
    (261, 0x1_0000_0000),
    (261, 0xffff_ffff_7fff_ffff),
    (262, 0x1_0000),
    (262, 0xffff_ffff_ffff_7fff),
    (263, 0x1_0000),
    (265, 0x1_0000_0000),
    (267, 0x1_0000_0000_0000),
    (273, 0x6),
    (273, 0x10_0000),
    (273, 0xffff_ffff_ffef_fffc),
    (274, 0x10_0000),
    (274, 0xffff_ffff_ffef_ffff),
    (275, 0x1_0000_0000),
    (275, 0xffff_fffe_ffff_f000),
    (279, 0x8000),
    (279, 0xffff_ffff_ffff_7ffc),
    (280, 0x10_0000),
    (280, 0xffff_ffff_ffef_fffc),
    (283, 0x800_0000),
    (283, 0xffff_ffff_f7ff_fffc),
    (284, 0x1234_5abd),
    (285, 0x1234_5abe),
    (286, 0x1234_5abc),
    (299, 0x1234_5ab8),
    (545, 0x1_0000_0000),
    (549, 0x100_0000),
];

#[test]
fn fields(rt: HostRuntime) -> Result<(), Fail> {
    for (number, value, field) in &X86_64 {
        let row = x86_64::relocation_from_raw(*number).ok_or("no row")?;
        assert!(rt;
            bytes_after_write(&row, *value, PLAIN) == *field,
            "{number} of {value:x}"
        );
    }
    for (number, value, field) in &WORDS_OF_AARCH64 {
        let row = aarch64::relocation_type_from_raw(*number).ok_or("no row")?;
        let found = bytes_after_write(&row, *value, PLAIN);
        assert!(rt; found == Some(*field), "{number} of {value:x}");
    }
    for (number, value) in &REFUSED_OF_AARCH64 {
        let row = aarch64::relocation_type_from_raw(*number).ok_or("no row")?;
        let found = bytes_after_write(&row, *value, PLAIN);
        assert!(rt; found.is_none(), "{number} of {value:x}");
    }
    for (number, value, before, after) in &INSTRUCTIONS_OF_AARCH64 {
        let row = aarch64::relocation_type_from_raw(*number).ok_or("no row")?;
        let found = bytes_after_write(&row, *value, u64::from(*before));
        assert!(rt; found == Some(u64::from(*after)), "{number} of {value:x}");
    }
    Ok(())
}

/// Whether the range of 16 bits with a sign ends where these values do.
fn is_overrun() -> bool {
    let range = AllowedRange::from_bit_size(16, Sign::Signed);
    range.overrun(0x7fff) == 0
        && range.overrun(0x8002) == 3
        && range.overrun(u64::MAX - 0x8000) == 1
}

#[test]
fn ranges_and_dynamic_numbers(rt: HostRuntime) {
    assert!(rt; is_overrun());
    assert!(rt; DynamicRelocationKind::Irelative.x86_64_r_type() == 37);
    assert!(rt; DynamicRelocationKind::Irelative.aarch64_r_type() == 1032);
}
