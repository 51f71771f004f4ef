//! Outputs that a dynamic linker loads, at two bases: slots, symbols of other modules, thread-local data and a copy, with the
//! references to them.
use crate::plans::image_of;
use std::alloc::Global;
use std::test::*;
use wild_loader::{Answer, Memory, World, load_image};
use wild_tests_plans::{LIBRARY, PROGRAM};
use wild_words::{Bytes, Items};

/// A plan; the number of its module and the distance of that module's thread-local data from the thread pointer; the address of symbol 2 and
/// whether it moves with the base; and words: their places, their values, and whether a value moves with the base.
struct LinkedOutput {
    plan: &'static str,
    own: (u64, i64),
    second: (u64, bool),
    words: &'static [(u64, u64, bool)],
}

/// By the formulas of the x86-64 psABI ("Relocation Types"; "ELF Handling For Thread-Local Storage", "TLS Access Models").
const OUTPUTS: [LinkedOutput; 2] = [
    LinkedOutput {
        plan: LIBRARY,
        own: (3, -0x40),
        second: (0x8000, false),
        words: &[
            (0x220, 0x8b48_0000_1e02_15ff, false),
            (0x228, 0x058b_4800_001e_0b05, false),
            (0x230, 0x0505_8b48_0000_1dfc, false),
            (0x238, 0xc3c3_c3c3_c300_001e, false),
            (0x2000, 0x1111_1111_1111_1111, false),
            (0x2010, 0x8000, false),
            (0x2018, 0x23b, true),
            (0x2020, 0x5555_5555_5555_5555, false),
            (0x2028, 0x23b, true),
            (0x2030, 0x8000, false),
            (0x2038, 0x7000, false),
            (0x2040, 0xffff_ffff_ffff_ffc8, false),
            (0x2048, 3, false),
            (0x2050, 8, false),
            (0x2178, 0, false),
        ],
    },
    LinkedOutput {
        plan: PROGRAM,
        own: (1, -16),
        second: (0x2158, true),
        words: &[
            (0x1f0, 0x8b48_0000_1e2a_15ff, false),
            (0x1f8, 0x058b_4800_001e_2b05, false),
            (0x200, 0xc3c3_c3c3_0000_1e2c, false),
            (0x2010, 0x204, true),
            (0x2018, 0x2158, true),
            (0x2020, 0x204, true),
            (0x2028, 0x7000, false),
            (0x2030, 0xffff_ffff_ffff_fff8, false),
            (0x2158, 0x0807_0605_0403_0201, false),
        ],
    },
];

/// Page-aligned bases.
const BASES: [u64; 2] = [0x1_0000, 0x5555_5555_4000];

/// A number that moves with the base, or does not.
fn at_base(base: u64, number: u64, moves: bool) -> u64 {
    if moves {
        base.wrapping_add(number)
    } else {
        number
    }
}

/// The answer for the symbol at an address of another module, with the bytes 1 to 8.
fn answer(alloc: Global, address: u64) -> Result<Answer, Fail> {
    Ok(Answer {
        address,
        module: 2,
        offset: 0,
        size: 8,
        bytes: Bytes::from_vec(Vec::from_slice(alloc, &[1, 2, 3, 4, 5, 6, 7, 8])?),
    })
}

/// The memory of an image at a base, where symbol 1 is at 0x7000.
fn memory_of(alloc: Global, image: &[u8], case: &LinkedOutput, base: u64) -> Result<Memory, Fail> {
    let mut symbols = Vec::new(alloc);
    symbols.push(answer(alloc, 0)?)?;
    symbols.push(answer(alloc, 0x7000)?)?;
    symbols.push(answer(alloc, at_base(base, case.second.0, case.second.1))?)?;
    let world = World {
        base,
        symbols: Items::from_vec(symbols),
        resolvers: Items::from_vec(Vec::new(alloc)),
        modules: Items::from_vec(Vec::from_slice(alloc, &[case.own, (2, -0x1000)])?),
        own_module: case.own.0,
    };
    Ok(load_image(alloc, image, &world).ok().ok_or("refused")?)
}

#[test]
fn words_of_linked_outputs(rt: HostRuntime) -> Result<(), Fail> {
    for (row, case) in OUTPUTS.iter().enumerate() {
        let image = image_of(&rt, rt.alloc(), case.plan, &[])?;
        for base in &BASES {
            let memory = memory_of(rt.alloc(), image.as_slice(), case, *base)?;
            for (place, word, moves) in case.words {
                let there = memory.word(at_base(*base, *place, true));
                assert!(rt;
                    there == Some(at_base(*base, *word, *moves)),
                    "row {row}, {place}"
                );
            }
        }
    }
    Ok(())
}
