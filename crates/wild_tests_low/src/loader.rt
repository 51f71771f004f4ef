//! A small executable, and images that are refused.

use std::alloc::Global;
use std::test::Fail;
use wild_loader::{
    Answer, Deed, Effect, LoadFault, Machine, Memory, Value, World, load_image, read_image,
    step_x86_64,
};
use wild_words::{Bytes, Items};

/// A fixed x86-64 executable: a call and two returns at 0x400080, loaded with the headers before them.
const IMAGE: [u8; 344] =
    *b"\x7fELF\x02\x01\x01\0\0\0\0\0\0\0\0\0\x02\0>\0\x01\0\0\0\x80\0@\0\0\0\0\0\
    @\0\0\0\0\0\0\0\x98\0\0\0\0\0\0\0\0\0\0\0@\08\0\x01\0@\0\x03\0\x02\0\
    \x01\0\0\0\x05\0\0\0\0\0\0\0\0\0\0\0\0\0@\0\0\0\0\0\0\0@\0\0\0\0\0\
    \x87\0\0\0\0\0\0\0\x87\0\0\0\0\0\0\0\0\x10\0\0\0\0\0\0\0\0\0\0\0\0\0\0\
    \xe8\x01\0\0\0\xc3\xc3\0.text\0.shstrtab\0\0\0\0\0\0\0\0\0\
    \0\0\0\0\0\0\0\0\0\0\0\0\0\0\0\0\0\0\0\0\0\0\0\0\0\0\0\0\0\0\0\0\
    \0\0\0\0\0\0\0\0\0\0\0\0\0\0\0\0\0\0\0\0\0\0\0\0\x01\0\0\0\x01\0\0\0\
    \x06\0\0\0\0\0\0\0\x80\0@\0\0\0\0\0\x80\0\0\0\0\0\0\0\x07\0\0\0\0\0\0\0\
    \0\0\0\0\0\0\0\0\x10\0\0\0\0\0\0\0\0\0\0\0\0\0\0\0\x07\0\0\0\x03\0\0\0\
    \0\0\0\0\0\0\0\0\0\0\0\0\0\0\0\0\x87\0\0\0\0\0\0\0\x11\0\0\0\0\0\0\0\
    \0\0\0\0\0\0\0\0\x01\0\0\0\0\0\0\0\0\0\0\0\0\0\0\0";

/// The answer for the symbol at an address.
fn answer(address: u64, bytes: Vec<u8>) -> Answer {
    Answer {
        address,
        module: 2,
        offset: 0x30,
        size: 3,
        bytes: Bytes::from_vec(bytes),
    }
}

/// Answers for the null symbol and symbol 1.
fn answers(alloc: Global) -> Result<Vec<Answer>, Fail> {
    let mut symbols = Vec::new(alloc);
    symbols.push(answer(0, b"abc".to_vec(alloc)?))?;
    symbols.push(answer(0x7000, b"abc".to_vec(alloc)?))?;
    Ok(symbols)
}

/// A world with an answer for symbol 1, a resolver and two modules.
pub fn world(alloc: Global, base: u64) -> Result<World, Fail> {
    let resolvers = Vec::from_slice(alloc, &[(0x10020, 0x9999)])?;
    let modules = Vec::from_slice(alloc, &[(2, -0x40), (1, -0x80)])?;
    Ok(World {
        base,
        symbols: Items::from_vec(answers(alloc)?),
        resolvers: Items::from_vec(resolvers),
        modules: Items::from_vec(modules),
        own_module: 1,
    })
}

/// The image with this many more copies of its program header after it, and some bytes replaced.
fn changed_image(alloc: Global, more: u8, edits: &[(usize, u8)]) -> Result<Vec<u8>, Fail> {
    let mut image = IMAGE.to_vec(alloc)?;
    for _ in 0..more {
        image.extend_from_slice(&IMAGE[64..120])?;
    }
    for (at, byte) in edits {
        *image.get_mut(*at).ok_or("no such byte")? = *byte;
    }
    Ok(image)
}

/// Addresses above the base, and the bytes there.
const BYTES: &[(u64, Option<u8>)] = &[
    (0x3fffff, None),
    (0x400000, Some(0x7f)),
    (0x400081, Some(1)),
    (0x400086, Some(0xc3)),
    (0x400087, None),
];

/// Whether memory has the image at that base.
fn is_loaded(memory: &Memory, base: u64) -> bool {
    for (address, byte) in BYTES {
        if memory.byte(base.wrapping_add(*address)) != *byte {
            return false;
        }
    }
    matches!(memory.machine, Machine::X86_64)
        && memory.word(base.wrapping_add(0x400000)) == Some(0x0001_0102_464c_457f)
        && memory.word(base.wrapping_add(0x400080)).is_none()
}

/// Whether the image at that base calls, and does nothing else.
fn calls(memory: &Memory, base: u64) -> bool {
    let call = Effect {
        length: 5,
        width: 64,
        deed: Deed::Call,
        value: Value::Number(base.wrapping_add(0x400086)),
    };
    step_x86_64(memory, base.wrapping_add(0x400080)) == Some(call)
        && step_x86_64(memory, base.wrapping_add(0x400081)).is_none()
        && step_x86_64(memory, base.wrapping_add(0x400087)).is_none()
}

/// An image in that world.
pub fn load(alloc: Global, image: &[u8], base: u64) -> Result<Result<Memory, LoadFault>, Fail> {
    let world = world(alloc, base)?;
    Ok(load_image(alloc, image, &world))
}

#[test]
fn loads(rt: HostRuntime) -> Result<(), Fail> {
    for base in [0, 0x1000] {
        let memory = load(rt.alloc(), &IMAGE, base)?.ok().ok_or("refused")?;
        assert!(rt; is_loaded(&memory, base) && calls(&memory, base), "{base}");
        let read = read_image(rt.alloc(), base, &IMAGE).ok().ok_or("refused")?;
        let starts = read.runs.as_slice().iter().map(|run| run.start);
        assert!(rt; starts.eq([base + 0x400000]) && read.tables.entries.as_slice().is_empty());
    }
    Ok(())
}

/// The base at which the image ends at the last address.
const HIGHEST: u64 = 0xffff_ffff_ffbf_ff79;

/// How many more program headers are after the image, which bytes of it are changed, its base, and why it is not loaded.
const IMAGES: &[(u8, &[(usize, u8)], u64, Option<LoadFault>)] = &[
    // No magic number, the class of 32-bit files, the high byte first, a relocatable file, and EM_386.
    (0, &[(0, 0)], 0, Some(LoadFault::NotElf)),
    (0, &[(4, 1)], 0, Some(LoadFault::NotElf)),
    (0, &[(5, 2)], 0, Some(LoadFault::NotElf)),
    (0, &[(16, 1)], 0, Some(LoadFault::NotElf)),
    (0, &[(18, 3)], 0, Some(LoadFault::NotElf)),
    // The program headers, the file bytes of the segment, and the section headers.
    (
        0,
        &[(32, 0x21), (33, 1)],
        0,
        Some(LoadFault::Cut { offset: 0x121 }),
    ),
    (
        0,
        &[(96, 0x59), (97, 1)],
        0,
        Some(LoadFault::Cut { offset: 0 }),
    ),
    (0, &[(40, 0x99)], 0, Some(LoadFault::Cut { offset: 0x99 })),
    // Section header 0 tells that there are four sections, and there is room for three.
    (
        0,
        &[(60, 0), (184, 4)],
        0,
        Some(LoadFault::Cut { offset: 152 }),
    ),
    (0, &[(60, 0), (184, 3)], 0, None),
    (0, &[], HIGHEST, None),
    (
        0,
        &[],
        HIGHEST + 1,
        Some(LoadFault::Wraps { address: 0x400000 }),
    ),
    // Two program headers are after the image; the second has another low byte of its address.
    (
        2,
        &[(32, 0x58), (33, 1), (56, 2), (416, 0x86)],
        0x1000,
        Some(LoadFault::Overlap { address: 0x401086 }),
    ),
    (
        2,
        &[(32, 0x58), (33, 1), (56, 2), (416, 0x87)],
        0x1000,
        None,
    ),
    // A memory size of more than 2^62 bytes.
    (0, &[(111, 0x40)], 0, Some(LoadFault::OutOfMemory)),
    // A section of entries with 7 bytes: no whole entry. Then with 24 bytes, of the number `.tex`.
    (0, &[(220, 4)], 0, None),
    (
        0,
        &[(220, 4), (248, 24)],
        0,
        Some(LoadFault::UnknownDynamic {
            number: 0x7865_742e,
        }),
    ),
];

#[test]
fn refused_images(rt: HostRuntime) -> Result<(), Fail> {
    for (more, edits, base, fault) in IMAGES {
        let image = changed_image(rt.alloc(), *more, edits)?;
        let found = load(rt.alloc(), image.as_slice(), *base)?.err();
        assert!(rt; found == *fault, "{edits:?} at {base}");
    }
    for count in [0, 63usize] {
        let found = load(rt.alloc(), &IMAGE[..count], 0)?.err();
        assert!(rt; found == Some(LoadFault::NotElf));
    }
    Ok(())
}
