//! Why a layout was refused.

use crate::clauses::push_clause;
use crate::faults::push_fault;
use crate::hints::LIKELY;
use crate::items::Item;
use crate::linking::{push_library, push_path};
use crate::names::part_word;
use crate::shares::push_share_causes;
use crate::text::Text;
use std::alloc::{AllocError, Global};
use wild_types::{Error, Fault, Layout};

/// Adds the reason for a share that is smaller or larger than needed.
fn push_share(out: &mut Text, layout: &Layout, part: usize, group: usize, given: u64, needed: u64) {
    let word = part_word(layout, part);
    let (what, remedy) = if given < needed {
        (
            "smaller than what it has to write there",
            "give the part more bytes, and move what stands behind it",
        )
    } else {
        (
            "larger than what it has to write there",
            "take the bytes away: they would be nobody's; or give what they were for (a symbol with its flags, a library with its role)",
        )
    };
    writeln!(
        out,
        "what: a group's share of a part is {what}\nwhere: /groups/{group}/part_sizes/{part} ({word})\nfound: part_sizes: {word} {given}, needed {needed}\nremedy: {remedy}"
    );
}

/// Adds why a layout was refused: what is wrong, its path, what the plan has there, and the remedy.
pub fn push_reason(
    out: &mut Text,
    alloc: Global,
    layout: &Layout,
    error: Error,
) -> Result<(), AllocError> {
    match error.fault {
        Fault::MalformedLayout { clause, index } => {
            push_clause(out, layout, clause, index);
        }
        Fault::InsufficientAllocation {
            part,
            group,
            given,
            needed,
        }
        | Fault::ExcessiveAllocation {
            part,
            group,
            given,
            needed,
        } => {
            push_share(out, layout, part, group, given, needed);
            push_share_causes(out, alloc, layout, part)?;
        }
        fault => {
            push_fault(out, layout, fault, error.at);
            return Ok(());
        }
    }
    // Members that are likely missing: the path of the dynamic linker, and names of libraries.
    push_path(out, layout, LIKELY);
    for (i, group) in layout.groups.as_slice().iter().enumerate() {
        for (j, file) in group.files.as_slice().iter().enumerate() {
            push_library(out, layout, LIKELY, Item::File(i, j), file);
        }
    }
    Ok(())
}
