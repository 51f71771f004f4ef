//! Changes of a linked layout, each compared with the image of the layout after it.
ghost use Rattle.std.specs.Prelude.{◌≡◌, ◌<◌};
ghost use Rattle.wild_types.specs.declared.kind.Machine.TheVariants as machine;

use std::alloc::Global;
use std::marker::Brand;
use std::sync::ledger::{Blank, Ledger};
use std::test::*;
use std::thread::Threads;
use wild_image::{ElfX86_64, Steps, Threaded, write};
use wild_plan::{At, Error, Fault, InputRelocation, Machine, SymbolIndex};
use wild_relinker::{Change, Linked, RelinkFault, relink};
use wild_sample_layouts::make_plan;
use wild_words::{Bytes, Items};

/// A change: the place of the section, how many bytes it gets and their value, how many calls it has, the offset and the type of one more
/// relocation, and the answer.
struct Row {
    place: (usize, usize, usize),
    length: usize,
    byte: u8,
    calls: u64,
    last: Option<(u64, u32)>,
    answer: Result<(), RelinkFault>,
}

/// A change of the second group's code.
const SECOND: Row = Row {
    place: (1, 0, 0),
    length: 64,
    byte: 0x90,
    calls: 2,
    last: None,
    answer: Ok(()),
};

/// The code of the second group.
const SECOND_CODE: At = At {
    group: Some(1),
    file: Some(0),
    section: Some(0),
    offset: None,
};

/// Changes that are accepted, and refusals of each kind between them.
const ROWS: &[Row] = &[
    Row {
        place: (0, 1, 0),
        byte: 0x91,
        calls: 8,
        ..SECOND
    },
    Row {
        place: (4, 0, 0),
        answer: Err(RelinkFault::NoSection),
        ..SECOND
    },
    Row {
        place: (3, 0, 0),
        byte: 0x92,
        calls: 3,
        ..SECOND
    },
    Row {
        length: 63,
        answer: Err(RelinkFault::Length {
            given: 63,
            needed: 64,
        }),
        ..SECOND
    },
    Row {
        byte: 0x93,
        calls: 0,
        ..SECOND
    },
    Row {
        last: Some((57, 99)),
        answer: Err(RelinkFault::Write(Error {
            fault: Fault::UnsupportedRelocation { number: 99 },
            at: At {
                offset: Some(57),
                ..SECOND_CODE
            },
        })),
        ..SECOND
    },
    Row {
        byte: 0x94,
        calls: 8,
        ..SECOND
    },
    Row {
        last: Some((61, 2)),
        answer: Err(RelinkFault::Write(Error {
            fault: Fault::MalformedLayout {
                clause: 10,
                index: 1,
            },
            at: At::NO_PLACE,
        })),
        ..SECOND
    },
    Row {
        place: (2, 0, 0),
        byte: 0x95,
        calls: 1,
        ..SECOND
    },
    Row {
        place: (0, 0, 0),
        answer: Err(RelinkFault::NoSection),
        ..SECOND
    },
    Row {
        place: (0, 1, 0),
        byte: 0x96,
        calls: 7,
        ..SECOND
    },
    Row {
        last: Some((12, 2)),
        answer: Err(RelinkFault::Write(Error {
            fault: Fault::OverlappingSites { byte: 12 },
            at: SECOND_CODE,
        })),
        ..SECOND
    },
    Row {
        place: (3, 0, 0),
        byte: 0x97,
        calls: 8,
        ..SECOND
    },
    Row {
        place: (0, 1, 0),
        length: 65,
        answer: Err(RelinkFault::Length {
            given: 65,
            needed: 64,
        }),
        ..SECOND
    },
    Row {
        place: (3, 0, 0),
        byte: 0x97,
        calls: 8,
        ..SECOND
    },
    Row {
        place: (2, 0, 1),
        answer: Err(RelinkFault::NoSection),
        ..SECOND
    },
    Row {
        place: (2, 0, 0),
        byte: 0x98,
        calls: 0,
        ..SECOND
    },
    Row {
        byte: 0x99,
        calls: 7,
        last: Some((57, 10)),
        ..SECOND
    },
    Row {
        place: (3, 0, 0),
        length: 0,
        answer: Err(RelinkFault::Length {
            given: 0,
            needed: 64,
        }),
        ..SECOND
    },
    Row {
        place: (0, 1, 0),
        byte: 0x9a,
        calls: 8,
        ..SECOND
    },
];

/// The relocation of a call, or of another type.
fn relocation(offset: u64, number: u32) -> InputRelocation {
    InputRelocation {
        offset,
        number,
        symbol: Some(SymbolIndex(2)),
        addend: -4,
        malformed: false,
    }
}

/// The change of a row.
fn change_of(alloc: Global, row: &Row) -> Result<Change, Fail> {
    let (group, file, section) = row.place;
    let bytes = vec![in alloc; row.byte; row.length]?;
    let mut relocations = Vec::new(alloc);
    for call in 0..row.calls {
        let offset = call.saturating_mul(8).saturating_add(1);
        relocations.extend_from_slice(&[relocation(offset, 2)])?;
    }
    if let Some((offset, number)) = row.last {
        relocations.extend_from_slice(&[relocation(offset, number)])?;
    }
    Ok(Change {
        group,
        file,
        section,
        bytes: Bytes::from_vec(bytes),
        relocations: Items::from_vec(relocations),
    })
}

/// Whether the image, its warnings and its counts are those that `write` gives for the layout.
fn is_as_written(rt: &(impl Threads + Sync), alloc: Global, linked: &Linked) -> Result<bool, Fail>
    requires { linked.now.layout.machine ≡ machine.X86_64 }
{
    let image = write::<ElfX86_64, _>(&Threaded(rt), alloc, linked.layout(), 1)?;
    Ok(
        linked.out() == image.out.as_slice()
            && linked.warnings() == image.warnings.as_slice()
            && linked.counts() == image.counts.as_slice(),
    )
}

/// Whether the section of the row has its bytes.
fn has_bytes(linked: &Linked, row: &Row) -> bool {
    let (group, file, section) = row.place;
    let Some(group) = linked.layout().groups.as_slice().get(group) else {
        return false;
    };
    let Some(file) = group.files.as_slice().get(file) else {
        return false;
    };
    let Some(section) = file.sections.as_slice().get(section) else {
        return false;
    };
    section
        .bytes
        .as_slice()
        .iter()
        .all(|byte| *byte == row.byte)
}

/// Changes the layout. `blank` names the ledger in which the groups that are written are counted.
fn relinked<L: Ledger, R: Threads + Sync>(
    rt: &R,
    alloc: Global,
    linked: &mut Linked,
    change: Change,
    blank: Blank,
) -> Result<(), RelinkFault>
    requires machine { linked.old.layout.machine ≡ machine.X86_64 }
    requires name { blank.name ≡ L.name }
    requires parts { blank.parts ≡ L.parts }
    requires some { 0 < blank.parts }
    ensures { linked.new.layout.machine ≡ machine.X86_64 }
{
    let mut steps = Steps::<L>::new(blank);
    relink::<ElfX86_64, _, L>(&Threaded(rt), alloc, linked, change, &mut steps)
}

/// Whether the row has its answer, and the image is that of the layout after it.
fn row_holds<R: Threads + Sync>(
    rt: &R,
    alloc: Global,
    linked: &mut Linked,
    row: &Row,
) -> Result<bool, Fail> {
    match linked.layout().machine {
        Machine::X86_64 => {
            let before = linked.out().to_vec(alloc)?;
            let change = change_of(alloc, row)?;
            let answer = relinked::<Brand, R>(rt, alloc, linked, change, Blank::new(1));
            let is_right = if answer.is_ok() {
                has_bytes(linked, row)
            } else {
                linked.out() == before.as_slice()
            };
            Ok(answer == row.answer && is_right && is_as_written(rt, alloc, linked)?)
        }
        Machine::AArch64 => Err("machine".into()),
    }
}

#[test]
fn changes_of_a_layout(rt: HostRuntime) -> Result<(), Fail> {
    let layout = make_plan(rt.alloc(), 4)?;
    let mut linked = Linked::link::<ElfX86_64, _>(&Threaded(&rt), rt.alloc(), layout, 2)?;
    for (index, row) in ROWS.iter().enumerate() {
        assert!(rt; row_holds(&rt, rt.alloc(), &mut linked, row)?, "{index}");
    }
    Ok(())
}
