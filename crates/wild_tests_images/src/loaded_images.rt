//! LoadedImage images: for each kind of output, words that relocations and dynamic entries fill.
use crate::plans::image_of;
use std::alloc::Global;
use std::test::*;
use wild_hashes::{lookup_gnu, lookup_sysv};
use wild_loader::{Answer, Deed, LoadFault, Memory, Value, World, load_image, step_x86_64};
use wild_tests_plans::{LINKED, MOVED, PACKED, SLOTTED, VERSIONED, WIDE};
use wild_words::{Bytes, Items};

/// A plan with changes, a base, and what memory has when its image is loaded there: pairs of an address and a word.
struct LoadedImage {
    plan: &'static str,
    changes: &'static [(&'static str, &'static str)],
    base: u64,
    words: &'static [(u64, u64)],
}

const IMAGES: [LoadedImage; 10] = [
    // static: the call's distance, and the function's address
    LoadedImage {
        plan: WIDE,
        changes: &[(
            r#""addend":-4}"#,
            r#""addend":-4},{"offset":8,"number":1,"symbol":0}"#,
        )],
        base: 0,
        words: &[(0x40_0080, 0x90c3_c300_0000_01e8), (0x40_0088, 0x40_0086)],
    },
    // `mov %fs:0,%rax; lea x@tpoff(%rax),%rax`, written over a sequence with its call, whatever that lacks ("ELF Handling For
    // Thread-Local Storage", General Dynamic To Local Exec); 8 bytes of data begin at 0x400088
    LoadedImage {
        plan: WIDE,
        changes: &[
            (
                "e800000000c3c3909090909090909090",
                "66488d3d00000000666648e800000000",
            ),
            (r#""offset":1,"number":2,"#, r#""offset":4,"number":19,"#),
            (
                r#""addend":-4}"#,
                r#""addend":-4},{"offset":12,"number":4,"symbol":1,"addend":-4}"#,
            ),
            (
                r#""raw_value":4194438}}"#,
                r#""raw_value":4194440}},{"name":"5f5f746c735f6765745f61646472"}"#,
            ),
            (r#""symbol_count":1"#, r#""symbol_count":2"#),
            (
                r#""symbols""#,
                r#""tls":{"start":4194440,"end":4194448,"align":8},"symbols""#,
            ),
        ],
        base: 0,
        words: &[
            (0x40_0080, 0x0000_0025_048b_4864),
            (0x40_0088, 0xffff_fff8_808d_4800),
        ],
    },
    // the slots as the psABI has them: the resolver's answer, the address of the stub, that of `v`; the offset of `t` from the
    // thread pointer at 0x402010, its module and its offset there; module 1 and the thread pointer less the data's start
    LoadedImage {
        plan: SLOTTED,
        changes: &[],
        base: 0,
        words: &[
            (0x40_2010, 0),
            (0x40_2018, 1),
            (0x40_2020, 16),
            (0x40_2028, 0x5000),
            (0x40_2030, 0x40_0140),
            (0x40_2038, 0x40_013e),
            (0x40_2040, 0xffff_ffff_ffff_fff8),
            (0x40_2048, 1),
            (0x40_2050, 8),
        ],
    },
    // static_pie: both pointers have the variable's loaded address; no other byte beside them changes
    LoadedImage {
        plan: MOVED,
        changes: &[],
        base: 0,
        words: &[
            (0x3000, 0x10_4055),
            (0x3001, 0x1040),
            (0x3009, 0x4055_5555_5555_5555),
            (0x3010, 0x1040),
        ],
    },
    LoadedImage {
        plan: MOVED,
        changes: &[],
        base: 0x1_0000,
        words: &[
            (0x1_3000, 0x110_4055),
            (0x1_3001, 0x1_1040),
            (0x1_3009, 0x4055_5555_5555_5555),
            (0x1_3010, 0x1_1040),
        ],
    },
    // places are packed section by section (gABI, "Relative Relocation Table")
    LoadedImage {
        plan: PACKED,
        changes: &[],
        base: 0x1_0000,
        words: &[
            (0x1_0140, 0x3000),
            (0x1_0148, 0x8000_0000_0000_0005),
            (0x1_0150, 3),
            (0x1_0158, 0x3208),
            (0x1_3000, 0x1_1040),
            (0x1_3008, 0x5555_5555_5555_5555),
            (0x1_3010, 0x1_1040),
            (0x1_31f8, 0x1_1040),
            (0x1_3200, 0x1_1040),
            (0x1_3208, 0x1_1040),
        ],
    },
    LoadedImage {
        plan: LINKED,
        changes: &[],
        base: 0x1_0000,
        words: &[(0x41_3008, 0x7005), (0x41_3010, 0x41_1042)],
    },
    LoadedImage {
        plan: LINKED,
        changes: &[(r#""dynamic_pie""#, r#""shared""#)],
        base: 0x2_0000,
        words: &[(0x42_3008, 0x7005), (0x42_3010, 0x42_1042)],
    },
    LoadedImage {
        plan: LINKED,
        changes: &[
            (r#""dynamic_pie""#, r#""dynamic""#),
            (r#""relr":true,"#, ""),
            (
                r#""address":4194672,"size":8,"align":8},{"role""#,
                r#""address":4194672,"size":0,"align":8},{"role""#,
            ),
            ("5,24,8,8", "5,24,0,8"),
        ],
        base: 0,
        words: &[(0x40_3008, 0x7005), (0x40_3010, 0x40_1042)],
    },
    // the versions of symbols, those that are defined and those that are needed, as `readelf -V` reads them (gABI and LSB,
    // "Symbol Versioning")
    LoadedImage {
        plan: VERSIONED,
        changes: &[],
        base: 0x1_0000,
        words: &[
            (0x1_0178, 0x2_0003_0000),
            (0x1_0180, 0x1_0001_0001_0001),
            (0x1_0188, 0x14_0000_006d),
            (0x1_0190, 0x9_0000_001c),
            (0x1_0198, 0x1_0000_0000),
            (0x1_01a0, 0x57_0001_0002),
            (0x1_01a8, 0x14),
            (0x1_01b0, 0xd),
            (0x1_01b8, 0x5_0001_0001),
            (0x1_01c0, 0x10),
            (0x1_01c8, 0x3_0000_0000_0056),
            (0x1_01d0, 7),
            (0x1_3008, 0x7005),
        ],
    },
];

/// The answer for the symbol at an address.
fn answer(alloc: Global, address: u64) -> Answer {
    Answer {
        address,
        module: 2,
        offset: 0,
        size: 0,
        bytes: Bytes::new(alloc),
    }
}

/// Answers for the null symbol and symbol 1.
fn answers(alloc: Global) -> Result<Vec<Answer>, Fail> {
    let mut symbols = Vec::new(alloc);
    symbols.push(answer(alloc, 0))?;
    symbols.push(answer(alloc, 0x7000))?;
    Ok(symbols)
}

/// A world with symbol 1 at 0x7000, module 1's data 16 bytes before the thread pointer, and these answers of resolvers.
pub(crate) fn world(alloc: Global, base: u64, resolvers: &[(u64, u64)]) -> Result<World, Fail> {
    let resolvers = Vec::from_slice(alloc, resolvers)?;
    let modules = Vec::from_slice(alloc, &[(1, -16)])?;
    Ok(World {
        base,
        symbols: Items::from_vec(answers(alloc)?),
        resolvers: Items::from_vec(resolvers),
        modules: Items::from_vec(modules),
        own_module: 1,
    })
}

/// An image in that world, where the resolver at 0x40013c answers 0x5000.
fn memory_of(alloc: Global, image: &[u8], base: u64) -> Result<Memory, Fail> {
    let world = world(alloc, base, &[(0x40_013c, 0x5000)])?;
    let memory = load_image(alloc, image, &world).ok().ok_or("refused")?;
    Ok(memory)
}

/// Whether memory has these words at these places.
fn has_words(memory: &Memory, words: &[(u64, u64)]) -> bool {
    for (place, word) in words {
        if memory.word(*place) != Some(*word) {
            return false;
        }
    }
    true
}

#[test]
fn loaded_words(rt: HostRuntime) -> Result<(), Fail> {
    for (row, case) in IMAGES.iter().enumerate() {
        let image = image_of(&rt, rt.alloc(), case.plan, case.changes)?;
        let memory = memory_of(rt.alloc(), image.as_slice(), case.base)?;
        assert!(rt; has_words(&memory, case.words), "row {row}");
    }
    Ok(())
}

/// A call of the stub, which goes on to the resolver's answer, and a call of `v` through its slot.
const EFFECTS: [(u64, Deed, u64); 3] = [
    (0x40_0100, Deed::Call, 0x40_0140),
    (0x40_0140, Deed::Jump, 0x5000),
    (0x40_010c, Deed::Call, 0x40_013e),
];

#[test]
fn effects_of_code(rt: HostRuntime) -> Result<(), Fail> {
    let image = image_of(&rt, rt.alloc(), SLOTTED, &[])?;
    let memory = memory_of(rt.alloc(), image.as_slice(), 0)?;
    for (place, deed, target) in &EFFECTS {
        let effect = step_x86_64(&memory, *place);
        assert!(rt;
            matches!(effect, Some(found) if found.deed == *deed && found.value == Value::Number(*target)),
            "{place}"
        );
    }
    Ok(())
}

/// A loader that has no answer of the resolver does not load the image.
#[test]
fn a_resolver_without_answer(rt: HostRuntime) -> Result<(), Fail> {
    let image = image_of(&rt, rt.alloc(), SLOTTED, &[])?;
    let world = world(rt.alloc(), 0, &[])?;
    let fault = load_image(rt.alloc(), image.as_slice(), &world).err();
    assert!(rt; matches!(fault, Some(LoadFault::NoAnswer { .. })));
    Ok(())
}

/// Whether both hash tables have the name of that symbol, or neither has the name.
fn has_name(image: &[u8], name: &[u8], index: Option<u64>) -> bool {
    lookup_sysv(image, name).ok() == Some(index) && lookup_gnu(image, name).ok() == Some(index)
}

/// Both hash tables have the defined symbols alone.
#[test]
fn names_in_an_image(rt: HostRuntime) -> Result<(), Fail> {
    let image = image_of(&rt, rt.alloc(), VERSIONED, &[])?;
    let image = image.as_slice();
    assert!(rt; has_name(image, b"v", Some(2)) && has_name(image, b"x", None));
    assert!(rt; has_name(image, b"w", None));
    Ok(())
}
