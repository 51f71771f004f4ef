//! Layouts placed in memory: numbers, faults and bytes.
use crate::loaded_images::world;
use crate::plans::{changed_layout, image_of};
use std::alloc::Global;
use std::test::*;
use std::thread::Threads;
use wild_image::{ElfX86_64, Threaded, write_prefix};
use wild_loader::{Answer, LoadFault, Memory, World, load_image};
use wild_placer::{PlaceFault, Placed, place_code};
use wild_tests_plans::{DEBUGGED, PACKED, PROGRAM, RELOCATABLE, SLOTTED, WIDE};
use wild_types::Fault;
use wild_words::Bytes;

/// Whether two memories have the same runs.
fn has_same_runs(left: &Memory, right: &Memory) -> bool {
    let (left, right) = (left.runs.as_slice(), right.runs.as_slice());
    if left.len() != right.len() {
        return false;
    }
    for i in 0..left.len() {
        if left[i].start != right[i].start
            || left[i].bytes.as_slice() != right[i].bytes.as_slice()
        {
            return false;
        }
    }
    true
}

/// Plans with bases.
const PLACES: [(&'static str, u64); 5] = [
    (DEBUGGED, 0),
    (WIDE, 0),
    (WIDE, 0x10_0000),
    (PACKED, 0),
    (PACKED, 0x10000),
];

/// The memory of a layout is that of its image.
#[test]
fn memory_of_a_layout(rt: HostRuntime) -> Result<(), Fail> {
    let alloc = rt.alloc();
    for (plan, base) in &PLACES {
        let layout = changed_layout(alloc, *plan, &[])?;
        let image = image_of(&rt, alloc, *plan, &[])?;
        let world = world(alloc, *base, &[])?;
        let loaded = load_image(alloc, image.as_slice(), &world)
            .ok()
            .ok_or("loaded")?;
        let placed = place_code::<ElfX86_64, _>(&Threaded(&rt), alloc, &layout, &world, 1);
        assert!(rt;
            has_same_runs(&placed.ok().ok_or("placed")?, &loaded),
            "{base}"
        );
    }
    Ok(())
}

/// The first bytes of an image, fewer than it has and more.
#[test]
fn first_bytes(rt: HostRuntime) -> Result<(), Fail> {
    let alloc = rt.alloc();
    let layout = changed_layout(alloc, PROGRAM, &[])?;
    let image = image_of(&rt, alloc, PROGRAM, &[])?;
    let all = image.len();
    for size in [0, 1, 63, 0x158, all.saturating_sub(1), all, usize::MAX] {
        let executor = Threaded(&rt);
        let output = write_prefix::<ElfX86_64, _>(&executor, alloc, &layout, 1, size as u64)
            .ok()
            .ok_or("written")?;
        assert!(rt;
            output.out.as_slice() == &image.as_slice()[..size.min(all)],
            "{size}"
        );
    }
    Ok(())
}

/// The fault of a plan with changes in a world.
fn fault_in(
    rt: &(impl Threads + Sync),
    alloc: Global,
    plan: &str,
    changes: &[(&str, &str)],
    world: &World,
) -> Result<Option<PlaceFault>, Fail> {
    let layout = changed_layout(alloc, plan, changes)?;
    Ok(place_code::<ElfX86_64, _>(&Threaded(rt), alloc, &layout, world, 1).err())
}

/// The same in a world with a base alone.
fn fault_of(
    rt: &(impl Threads + Sync),
    alloc: Global,
    plan: &str,
    changes: &[(&str, &str)],
    base: u64,
) -> Result<Option<PlaceFault>, Fail> {
    fault_in(rt, alloc, plan, changes, &world(alloc, base, &[])?)
}

/// A fault of the layout comes before one of the loader.
#[test]
fn faults_in_order(rt: HostRuntime) -> Result<(), Fail> {
    let alloc = rt.alloc();
    let changes = &[(r#""number":2,"#, r#""number":200,"#)];
    let fault = fault_of(&rt, alloc, WIDE, changes, u64::MAX)?;
    assert!(rt;
        matches!(
        fault,
        Some(PlaceFault::Write(error)) if matches!(error.fault, Fault::UnsupportedRelocation { .. })
    )
    );
    let fault = fault_of(&rt, alloc, WIDE, &[], u64::MAX)?;
    assert!(rt;
        matches!(
            fault,
            Some(PlaceFault::Load(LoadFault::Wraps { address: 0x40_0000 }))
        )
    );
    let fault = fault_of(&rt, alloc, RELOCATABLE, &[], 0)?;
    assert!(rt; matches!(fault, Some(PlaceFault::Load(LoadFault::NotElf))));
    let fault = fault_of(&rt, alloc, SLOTTED, &[], 0)?;
    assert!(rt; matches!(fault, Some(PlaceFault::Load(LoadFault::NoAnswer { .. }))));
    Ok(())
}

/// A world with so many bytes of a copied symbol.
fn with_copied(alloc: Global, size: usize) -> Result<World, Fail> {
    let mut world = world(alloc, 0, &[])?;
    let bytes = vec![in alloc; 0u8; size]?;
    world.symbols.push(Answer {
        address: 0x2158,
        module: 2,
        offset: 0,
        size: 8,
        bytes: Bytes::from_vec(bytes),
    })?;
    Ok(world)
}

/// A world without an answer for symbol 2, which is copied; and worlds that have 8 bytes for it, and more than there is room for.
#[test]
fn answers_for_a_copy(rt: HostRuntime) -> Result<(), Fail> {
    let alloc = rt.alloc();
    let fault = fault_of(&rt, alloc, PROGRAM, &[], 0)?;
    assert!(rt;
        matches!(
            fault,
            Some(PlaceFault::Load(LoadFault::UnknownSymbol { index: 2 }))
        )
    );
    let fault = fault_in(&rt, alloc, PROGRAM, &[], &with_copied(alloc, 8)?)?;
    assert!(rt; fault.is_none());
    let fault = fault_in(&rt, alloc, PROGRAM, &[], &with_copied(alloc, 0x2000)?)?;
    assert!(rt;
        matches!(
            fault,
            Some(PlaceFault::Load(LoadFault::Unloaded { address: 0x2160 }))
        )
    );
    Ok(())
}

/// Two layouts at one address: the second is refused until the first is removed, and has the next number then.
#[test]
fn two_placements(rt: HostRuntime) -> Result<(), Fail> {
    let alloc = rt.alloc();
    let layout = changed_layout(alloc, WIDE, &[])?;
    let world = world(alloc, 0, &[])?;
    let mut placed = Placed::new(alloc);
    assert!(rt; placed.byte(0x40_0080).is_none());
    let first = placed.place::<ElfX86_64, _>(&Threaded(&rt), alloc, &layout, &world, 1);
    assert!(rt; matches!(first, Ok(0)));
    assert!(rt; placed.byte(0x40_0080) == Some(0xe8));
    let second = placed.place::<ElfX86_64, _>(&Threaded(&rt), alloc, &layout, &world, 1);
    assert!(rt; matches!(second, Err(PlaceFault::Taken { address: 0x40_0000 })));
    assert!(rt; placed.remove(0).is_ok());
    assert!(rt; placed.byte(0x40_0080).is_none());
    assert!(rt; matches!(placed.remove(0), Err(PlaceFault::NoSuch { number: 0 })));
    let third = placed.place::<ElfX86_64, _>(&Threaded(&rt), alloc, &layout, &world, 1);
    assert!(rt; matches!(third, Ok(1)));
    Ok(())
}

/// Placements at different bases, of which one is removed.
#[test]
fn placements_side_by_side(rt: HostRuntime) -> Result<(), Fail> {
    let alloc = rt.alloc();
    let layout = changed_layout(alloc, WIDE, &[])?;
    let mut placed = Placed::new(alloc);
    for number in 0..8u32 {
        let world = world(alloc, u64::from(number) * 0x1000, &[])?;
        let answer = placed.place::<ElfX86_64, _>(&Threaded(&rt), alloc, &layout, &world, 1);
        assert!(rt; matches!(answer, Ok(found) if found == number), "{number}");
    }
    assert!(rt; placed.remove(3).is_ok());
    for number in 0..8u64 {
        let found = placed.byte(number * 0x1000 + 0x40_0080);
        assert!(rt;
            found == if number == 3 { None } else { Some(0xe8) },
            "{number}"
        );
    }
    Ok(())
}
