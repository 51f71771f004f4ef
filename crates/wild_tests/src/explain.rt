//! The program that explains plans: commands, and plans that have an image.
use crate::io::explained;
use std::test::*;
use wild_tests_plans::SMALLEST;

#[test]
fn words_that_are_no_command(rt: HostRuntime) -> Result<(), Fail> {
    for words in [&[][..], &["explained"], &["needs", "needs"], &["link", "1"]] {
        let (status, text) = explained(&rt, rt.alloc(), words, SMALLEST)?;
        let usage = "usage: explain [--first | --all] [--relocations] [--byte OFFSET] | needs\n";
        assert!(rt; status == 2 && text.as_str() == usage, "{words:?}");
    }
    Ok(())
}

/// `needs` takes a plan whose `part_sizes` is empty.
#[test]
fn needs_of_groups(rt: HostRuntime) -> Result<(), Fail> {
    let sizes = r#""part_sizes":[64,56,7,17,192]"#;
    let plan = SMALLEST.replace(rt.alloc(), sizes, r#""part_sizes":[]"#)?;
    let (status, text) = explained(&rt, rt.alloc(), &["needs"], plan.as_str())?;
    let line = "/groups/0/part_sizes [64,56,0,17,192]\n";
    assert!(rt; status == 0 && text.contains(line));
    Ok(())
}

/// Options of `explain`: the words, a text of the smallest plan and its replacement, and a line that is printed.
const OPTIONS: &[(&[&str], &str, &str, &str)] = &[
    (
        &["explain", "--byte", "344"],
        "\"page_size\":4096",
        "\"page_size\":4096",
        "no byte: the image has 344 bytes\n",
    ),
    (
        &["explain", "--byte", "343"],
        "\"page_size\":4096",
        "\"page_size\":4096",
        "part: byte 191 of /parts/4 (section_headers), address 191\n",
    ),
    (
        &["explain", "--first"],
        "[64,56,7,17,192]",
        "[64,56,7,18,192]",
        "found: offset 135, address 0, size 17, align 1, in section 2 `.shstrtab`; expected 18\n",
    ),
    (
        &["explain", "--all"],
        "[64,56,7,17,192]",
        "[64,56,7,18,193]",
        "fails: clause 7, index 4\n",
    ),
    (
        &["explain", "--all"],
        "[64,56,7,17,192]",
        "[64,56,7,18,193]",
        "fails: /groups/0/part_sizes/4 (section_headers) is 193, expected 192\n",
    ),
];

#[test]
fn options_of_explain(rt: HostRuntime) -> Result<(), Fail> {
    for (words, old, new, line) in OPTIONS {
        let plan = SMALLEST.replace(rt.alloc(), *old, *new)?;
        let (_, text) = explained(&rt, rt.alloc(), *words, plan.as_str())?;
        assert!(rt; text.contains(*line), "{words:?}");
    }
    Ok(())
}
