//! The first group that copies a symbol again. Definitions are marked in windows of symbols, so that the marks fit on the stack.
//! One pass over the copies counts the windows, and one pass for each window marks its definitions.
ghost use Rattle.std.specs.Prelude.{◌≡◌, ◌≤◌, ◌+◌, ◌^◌, [], map, Some, None, if◌then◌else◌};
ghost use Rattle.std.specs.List.{flat_map};
ghost use Rattle.wild_clauses.specs.Copies.{copied_of, windows_of, with_mark, first_marked, repeated_copy_between};
ghost use Rattle.wild_clauses.specs.Survey.{are_ordinary};
ghost use Rattle.wild_types.specs.FileSymbols.{copied_definitions, first_double_copy};
ghost use Rattle.wild_types.specs.Lists.{through};
ghost use Rattle.wild_types.specs.Lookups.{canonical};

use crate::places::earlier;
use wild_types::{File, Group, Layout, SymbolIndex};

/// How many symbols one window has.
const WINDOW: usize = 1 << 16;

/// How many windows there are up to the last definition of these copies, at least `windows`.
fn windows_of_copies(layout: &Layout, windows: usize, copies: &[SymbolIndex]) -> usize
    requires few { windows ≤ 2 ^ 48 }
    ensures is { result ≡ windows_of windows (map (canonical layout.now) copies.now) }
    ensures few { result ≤ 2 ^ 48 }
{
    let mut windows = windows;
    for copy in copies {
        windows = windows.max(layout.canonical(*copy).0 / WINDOW + 1);
    }
    windows
}

/// The same for the copies of files.
fn windows_of_files(layout: &Layout, windows: usize, files: &[File]) -> usize
    requires few { windows ≤ 2 ^ 48 }
    ensures is { result ≡ windows_of windows (flat_map (copied_of layout.now) files.now) }
    ensures few { result ≤ 2 ^ 48 }
{
    let mut windows = windows;
    for file in files {
        windows = windows_of_copies(layout, windows, file.copies.as_slice());
    }
    windows
}

/// How many windows there are up to the last definition of the copies of groups; 0 without copies.
fn windows_of_groups(layout: &Layout, groups: &[Group]) -> usize
    ensures is { result ≡ windows_of 0 (flat_map (copied_definitions layout.now) groups.now) }
    ensures few { result ≤ 2 ^ 48 }
{
    let mut windows = 0;
    for group in groups {
        windows = windows_of_files(layout, windows, group.files.as_slice());
    }
    windows
}

/// Marks a definition that lies in the window from number `start` on; false if it was marked.
fn mark(start: usize, symbol: SymbolIndex, marks: &mut [bool]) -> bool
    ensures { with_mark start marks.old symbol ≡ (if result then Some marks.new else None) }
{
    if symbol.0 < start || symbol.0 - start >= marks.len() {
        return true;
    }
    let free = !marks[symbol.0 - start];
    marks[symbol.0 - start] = true;
    free
}

/// The same for the definitions of consecutive copies.
fn mark_copies(layout: &Layout, start: usize, copies: &[SymbolIndex], marks: &mut [bool]) -> bool
    ensures { through (with_mark start) marks.old (map (canonical layout.now) copies.now) ≡ (if result then Some marks.new else None) }
{
    for copy in copies {
        if !mark(start, layout.canonical(*copy), marks) {
            return false;
        }
    }
    true
}

/// The same for the copies of files.
fn mark_files(layout: &Layout, start: usize, files: &[File], marks: &mut [bool]) -> bool
    ensures { through (with_mark start) marks.old (flat_map (copied_of layout.now) files.now) ≡ (if result then Some marks.new else None) }
{
    for file in files {
        if !mark_copies(layout, start, file.copies.as_slice(), marks) {
            return false;
        }
    }
    true
}

/// The place of the first group with a definition that was marked before.
fn first_marked(
    layout: &Layout,
    groups: &[Group],
    start: usize,
    marks: &mut [bool],
) -> Option<usize>
    ensures { result ≡ first_marked layout.now start marks.old 0 groups.now }
{
    for (i, group) in groups.iter().enumerate() {
        if !mark_files(layout, start, group.files.as_slice(), marks) {
            return Some(i);
        }
    }
    None
}

/// The place of the first group that copies a symbol of the window again.
fn repeated_copy_in_window(layout: &Layout, groups: &[Group], start: usize) -> Option<usize>
    ensures { result ≡ repeated_copy_between layout.now start (start + 2 ^ 16) [] 0 groups.now }
{
    let mut marks = [false; WINDOW];
    first_marked(layout, groups, start, &mut marks)
}

/// The place of the first group with a copy whose definition an earlier copy has.
#[tactic(auto, using(crate::proofs::CopyLemmas::no_window, crate::proofs::CopyLemmas::next_window, crate::proofs::CopyLemmas::all_windows))]
fn first_double_copy(layout: &Layout, groups: &[Group]) -> Option<usize>
    ensures { result ≡ first_double_copy layout.now [] 0 groups.now }
{
    let mut first = None;
    for window in 0..windows_of_groups(layout, groups) {
        first = earlier(
            first,
            repeated_copy_in_window(layout, groups, window * WINDOW),
        );
    }
    first
}

/// The same; if all files are ordinary, there are no copies to search.
#[tactic(auto, using(crate::proofs::SurveyLemmas::none_copied))]
pub(crate) fn first_copied_again(
    layout: &Layout,
    has_no_copies_versions_or_sorting: bool,
) -> Option<usize>
    requires { has_no_copies_versions_or_sorting ≡ are_ordinary layout.now.groups }
    ensures { result ≡ first_double_copy layout.now [] 0 layout.now.groups }
{
    if has_no_copies_versions_or_sorting {
        None
    } else {
        first_double_copy(layout, layout.groups.as_slice())
    }
}
