//! The linking program over input and output that fail, and over those that never do.
use crate::io::{CALM, Io, answer, words_of};
use std::alloc::Global;
use std::test::*;
use std::thread::Threads;
use wild_program::{SureSink, SureSource, run_surely};
use wild_tests_plans::SMALLEST;

/// Computed by hand from the definitions.
const SMALLEST_TEXT: &str = "image 344
count 1 1
7f454c4602010100000000000000000002003e00010000008000400000000000
4000000000000000980000000000000000000000400038000100400003000200
0100000005000000000000000000000000004000000000000000400000000000
8700000000000000870000000000000000100000000000000000000000000000
e801000000c3c3002e74657874002e7368737472746162000000000000000000
0000000000000000000000000000000000000000000000000000000000000000
0000000000000000000000000000000000000000000000000100000001000000
0600000000000000800040000000000080000000000000000700000000000000
0000000000000000100000000000000000000000000000000700000003000000
0000000000000000000000000000000087000000000000001100000000000000
000000000000000001000000000000000000000000000000
";

/// A shared object without segments, so without symbols (gABI, "ELF Header").
const SPACE: &str =
    r#"{"images":[{"bytes":"7f454c4602010100000000000000000003003e000100000000000000000000004000000000000000000000000000000000000000400038000000400000000000"}]}"#;

/// Words that are no command.
const NO_COMMANDS: &[&[&str]] = &[
    &[],
    &["link"],
    &["link", "0"],
    &["link", "65"],
    &["link", "01"],
    &["make", "1"],
    &["make", "0", "1"],
    &["make", "01", "1"],
    &["make", "1", "01"],
    &["make", "65537", "1"],
    &["relink"],
    &["relink", "0"],
    &["relink", "65"],
    &["relink", "1", "1"],
    &["place"],
    &["place", "01"],
    &["place", "65"],
    &["space", "1"],
    &["verify", "1"],
    &["--help"],
];

#[test]
fn words_that_are_no_command(rt: HostRuntime) -> Result<(), Fail> {
    for words in NO_COMMANDS {
        let (status, text) = answer(&rt, rt.alloc(), words, b"{}", &CALM)?;
        let usage = b"usage: link W | make N W | verify | relink W | place W | space\n".as_slice();
        assert!(rt; status == 2 && text.as_slice() == usage, "{words:?}");
    }
    Ok(())
}

/// How many bytes a read returns at most, and how many reads the smallest plan takes then: the last one finds its end.
const READS: &[(usize, u64)] = &[(700, 3), (7, 172)];

/// Each read fails in turn; after the last there is none.
#[test]
fn failing_reads(rt: HostRuntime) -> Result<(), Fail> {
    let plan = SMALLEST.as_bytes();
    for (most, count) in READS {
        for call in 0..*count {
            let io = Io {
                failing_reads: &[call],
                most: *most,
                ..CALM
            };
            let (status, text) = answer(&rt, rt.alloc(), &["link", "1"], plan, &io)?;
            assert!(rt;
                status == 4 && text.as_slice() == b"read fault\n".as_slice(),
                "{most} {call}"
            );
        }
        let calm = Io {
            failing_reads: &[*count],
            most: *most,
            ..CALM
        };
        let (status, text) = answer(&rt, rt.alloc(), &["link", "1"], plan, &calm)?;
        assert!(rt;
            status == 0 && text.as_slice() == SMALLEST_TEXT.as_bytes(),
            "{most}"
        );
    }
    Ok(())
}

#[test]
fn plans_without_their_end(rt: HostRuntime) -> Result<(), Fail> {
    let plan = SMALLEST.as_bytes();
    for end in 0..plan.len() {
        let (status, text) = answer(&rt, rt.alloc(), &["link", "64"], &plan[..end], &CALM)?;
        let is_so = status == 3 && text.as_slice() == b"not a plan: json\n".as_slice();
        assert!(rt; is_so, "{end}");
    }
    Ok(())
}

/// Whether exactly so many bytes, the first ones of the text, were written.
fn is_prefix(text: &str, taken: &[u8], count: usize) -> bool {
    taken.len() == count && text.as_bytes().starts_with(taken)
}

/// Outputs of each kind: the words, the input, the text that is written, and how many bytes a write takes at most.
const TEXTS: &[(&[&str], &str, &str, usize)] = &[
    (&["link", "1"], SMALLEST, SMALLEST_TEXT, 8),
    (
        &["link", "1"],
        "{}",
        "refused MalformedLayout clause=1 index=0\n",
        1,
    ),
    (&["link", "1"], "", "not a plan: json\n", 1),
    (
        &["make", "1", "1"],
        "",
        "groups 1\nimage 408\ncount 1 8\nsum 16871\n",
        1,
    ),
    (
        &["relink", "1"],
        "{}",
        "refused MalformedLayout clause=1 index=0\n",
        1,
    ),
    (
        &["relink", "1"],
        r#"{"change":0}"#,
        "not a plan: /change\n",
        1,
    ),
    (
        &["place", "1"],
        "{}",
        "refused MalformedLayout clause=1 index=0\n",
        1,
    ),
    (&["place", "1"], r#"{"world":0}"#, "not a plan: /world\n", 1),
    (
        &["verify"],
        "{}",
        "refused MalformedLayout clause=1 index=0\n",
        1,
    ),
    (&["verify"], r#"{"image":"0"}"#, "not a plan: /image\n", 1),
    (&["space"], "{}", "not a plan: /images\n", 1),
    (&["space"], SPACE, "order 0\n", 1),
    (
        &["space"],
        r#"{"images":[{}]}"#,
        "not bound Load image=0 NotElf\n",
        1,
    ),
    (
        &[],
        "",
        "usage: link W | make N W | verify | relink W | place W | space\n",
        1,
    ),
];

/// Each write fails in turn, or takes nothing.
#[test]
fn failing_writes(rt: HostRuntime) -> Result<(), Fail> {
    for (words, plan, text, most) in TEXTS {
        for call in 0..text.len().div_ceil((*most).max(1)) {
            let fails = Io {
                failing_writes: &[call as u64],
                most: *most,
                ..CALM
            };
            let takes_none = Io {
                empty_writes: &[call as u64],
                most: *most,
                ..CALM
            };
            for io in &[fails, takes_none] {
                let (status, taken) = answer(&rt, rt.alloc(), words, plan.as_bytes(), io)?;
                let is_so = status == 5
                    && is_prefix(text, taken.as_slice(), most.saturating_mul(call));
                assert!(rt; is_so, "{words:?} {plan} {call}");
            }
        }
    }
    Ok(())
}

/// The text is the same if each read returns one byte and each write takes one. If a read and the first write fail, nothing is
/// written.
#[test]
fn small_writes(rt: HostRuntime) -> Result<(), Fail> {
    let small = Io { most: 1, ..CALM };
    for (words, plan, text, _) in TEXTS {
        let (_, taken) = answer(&rt, rt.alloc(), words, plan.as_bytes(), &small)?;
        assert!(rt; taken.as_slice() == text.as_bytes(), "{words:?} {plan}");
    }
    let both = Io {
        failing_reads: &[0],
        failing_writes: &[0],
        ..CALM
    };
    let (status, taken) = answer(&rt, rt.alloc(), &["link", "1"], b"{}", &both)?;
    assert!(rt; status == 5 && taken.is_empty());
    Ok(())
}

/// A plan of more than 4,096 bytes, with a list of more than 1,000 items, is linked like any other. A relocation of type 0 writes
/// nothing, and is counted.
#[test]
fn long_plans(rt: HostRuntime) -> Result<(), Fail> {
    let alloc = rt.alloc();
    let last = r#""addend":-4}"#;
    let mut items = String::from_str(alloc, last)?;
    for _ in 0..1200 {
        items.push_str(r#",{"number":0}"#)?;
    }
    let plan = SMALLEST.replace(alloc, last, items.as_str())?;
    let text = SMALLEST_TEXT.replace(alloc, "count 1 1\n", "count 1 1201\n")?;
    let (status, said) = answer(&rt, alloc, &["link", "2"], plan.as_bytes(), &CALM)?;
    assert!(rt; status == 0 && said.as_slice() == text.as_bytes());
    Ok(())
}

/// `make` commands, and their summaries.
const MADE: &[(&[&str], &str)] = &[
    (
        &["make", "1", "1"],
        "groups 1\nimage 408\ncount 1 8\nsum 16871\n",
    ),
    (
        &["make", "2", "1"],
        "groups 2\nimage 472\ncount 1 16\nsum 25303\n",
    ),
    (
        &["make", "2", "2"],
        "groups 2\nimage 472\ncount 1 16\nsum 25303\n",
    ),
];

#[test]
fn summaries_of_make(rt: HostRuntime) -> Result<(), Fail> {
    // No plan is read.
    let unread = Io {
        failing_reads: &[0],
        ..CALM
    };
    for (words, text) in MADE {
        let (status, said) = answer(&rt, rt.alloc(), words, b"", &unread)?;
        assert!(rt;
            status == 0 && said.as_slice() == text.as_bytes(),
            "{words:?}"
        );
    }
    Ok(())
}

/// The status of `link` for a plan, over input and output that cannot fail.
fn status_of(rt: &(impl Threads + Sync), alloc: Global, plan: &str) -> Result<u8, Fail> {
    let words = words_of(alloc, &["link", "1"])?;
    let mut source = SureSource::new(plan.as_bytes().to_vec(alloc)?);
    let mut sink = SureSink;
    Ok(run_surely(rt, alloc, &words, &mut source, &mut sink)?)
}

#[test]
fn runs_that_cannot_fail(rt: HostRuntime) -> Result<(), Fail> {
    let plan = SMALLEST.replace(rt.alloc(), r#""number":2,"#, r#""number":6,"#)?;
    let whole = status_of(&rt, rt.alloc(), SMALLEST)?;
    let broken = status_of(&rt, rt.alloc(), plan.as_str())?;
    let other = status_of(&rt, rt.alloc(), "[]")?;
    assert!(rt; whole == 0 && broken == 1 && other == 3);
    Ok(())
}
