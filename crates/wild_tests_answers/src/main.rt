//! Inputs and their answers. Each block of lines of the standard input is a row: a plan with changes or another input, and what the
//! programs print for it. Rows that differ are printed, and then the number of rows.
#![tactic(auto)]

mod answers;
mod row;

use crate::row::row_holds;
use std::alloc::{AllocError, Global};
use std::io;

/// A row in which `plan base` is the plan of the last block `base`.
fn row_of(alloc: Global, row: &str, base: &str) -> Result<String, AllocError> {
    let line = format!(in alloc; "text {base}\n")?;
    row.replace(alloc, "plan base\n", line.as_str())
}

fn main(rt: HostRuntime) -> io::Result<()> {
    let alloc = rt.alloc();
    let text = io::read_to_string(alloc, rt.reader())?;
    let mut count = 0u64;
    let mut base = String::new(alloc);
    for block in text.as_str().split("\n\n") {
        if let Some(plan) = block.strip_prefix("base ") {
            base = String::from_str(alloc, plan)?;
            continue;
        }
        let row = row_of(alloc, block, base.as_str())?;
        if !row_holds(&rt, alloc, row.as_str())? {
            println!(rt; "differs:\n{row}")?;
        }
        count = count.saturating_add(1);
    }
    println!(rt; "{count} rows")
}
