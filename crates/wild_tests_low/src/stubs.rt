//! Stubs, and whole instructions, as other tools write them.

use wild_relax::table::{COMPARISON, JUMP, LOCAL, PLT};
use wild_relax::{Arch, ElfX86_64, Row};
use wild_slot::PltTooFar;

// As `as` 2.40 assembles `endbr64; bnd jmp *0x1ff5(%rip); {disp8} nopl 0(%rax,%rax,1)`. GNU `ld` 2.40 (`-z ibtplt`) and lld 22
// (`-z force-ibt`) write the stub without `bnd`, and one byte more of the `nop`.
#[test]
fn stubs(rt: HostRuntime) {
    let wanted = *b"\xf3\x0f\x1e\xfa\xf2\xff\x25\xf5\x1f\0\0\x0f\x1f\x44\0\0";
    let mut bytes = [0xcc; 16];
    let written = ElfX86_64::write_plt_entry(&mut bytes, 0x3000, 0x1000);
    assert!(rt; written.is_ok() && bytes == wanted);
    let mut marked = [0xcc; 16];
    let written = ElfX86_64::write_plt_entry_with_bti(&mut marked, 0x3000, 0x1000, true);
    assert!(rt; written.is_ok() && marked == wanted);
    let far = ElfX86_64::write_plt_entry(&mut bytes, 0x8000_100b, 0x1000);
    assert!(rt; matches!(far, Err(PltTooFar { value: 2147483648 })) && bytes == wanted);
}

/// Whether the row writes `size` bytes, with the field at `field`, over those of the input.
fn is_whole(row: Row, size: u64, field: u64) -> bool {
    row.pattern_size() == size
        && row.pattern_field() == field
        && !row.keeps_bytes()
        && !row.takes_next()
}

// A whole instruction, written over the bytes of the input by its row.
#[test]
#[tactic(auto, unfolding(wild_reloc::specs::TableX86_64::x86_64_row))]
fn templates(rt: HostRuntime) {
    let row = JUMP;
    let mut room = *b"\xcc\xff\x25\0\0\0\0\xcc";
    row.write_template(0x1234, &mut room, 1);
    assert!(rt; is_whole(row, 6, 2) && room == *b"\xcc\xe9\x34\x12\0\0\x90\xcc");
    let row = COMPARISON;
    let mut room = *b"\x4c\x3b\x2d\0\0\0\0";
    row.write_template(0x1234, &mut room, 0);
    assert!(rt; room == *b"\x49\x81\xfd\x34\x12\0\0");
    assert!(rt; LOCAL.takes_next() && PLT.keeps_bytes());
}
