//! Clause 13: positions in the dynamic symbol table. Since the files' symbol ranges ascend, one walk over files and symbols counts
//! the undefined entries.
ghost use Rattle.std.specs.Prelude.{◌≡◌, ◌+◌, ◌-◌, ◌^◌, ◌<◌, ◌≤◌, length, slice_get, Ok};
ghost use Rattle.std.specs.List.{list_all};
ghost use Rattle.std.specs.Result.{IfOk};
ghost use Rattle.wild_needs.specs.DynamicSymbols.{is_undefined_entry, dynsym_of, undefined_entries, dynamic_symbols, misplaced};
ghost use Rattle.wild_types.specs.Lookups.{files_of};
ghost use Rattle.wild_clauses.specs.Positions.{lists, is_at, fits_at, run_walk, file_walk, files_walk, groups_walk, whole_walk, is_unlisted};
ghost use Rattle.wild_needs.specs.UndefinedCounts.{undefined_count};
ghost use Rattle.wild_clauses.specs.Survey.{are_simple};
ghost use Rattle.wild_plan_rules.specs.ClauseTests.{check_indexes, check_dynsyms};

use crate::listed_symbols::first_misplaced_listed;
use crate::verdict::fails;
use wild_needs::{dynsym_of, is_undefined_entry, undefined_count};
use wild_types::{
    Clause, File, FileRole, Group, Layout, Symbol, Test, ValueFlags, all_pass, symbols_in_range,
};

/// Whether the entry at that place lists the symbol of that number.
fn lists(layout: &Layout, symbol: usize, place: usize) -> bool
    ensures { result ≡ lists symbol (slice_get layout.now.dynsyms place) }
{
    match layout.dynsyms.as_slice().get(place) {
        Some(found) => found.symbol.0 == symbol,
        None => false,
    }
}

/// Whether the position is that of the symbol: of its undefined entry, which comes next after `count` others, or of its listed
/// entry after all `undefined` ones.
fn is_at(
    layout: &Layout,
    undefined: usize,
    entry: bool,
    count: usize,
    symbol: usize,
    position: u64,
) -> bool
    ensures { result ≡ is_at layout.now.dynsyms undefined entry count symbol position }
{
    let position = position as usize;
    entry && position != 0 && position - 1 == count
        || undefined < position && lists(layout, symbol, position - 1 - undefined)
}

fn fits_at(
    layout: &Layout,
    undefined: usize,
    entry: bool,
    count: usize,
    number: usize,
    symbol: &Symbol,
) -> bool
    ensures { result ≡ fits_at layout.now.dynsyms undefined entry count number (dynsym_of symbol.now) }
{
    match dynsym_of(symbol) {
        Some(position) => is_at(layout, undefined, entry, count, number, position),
        None => true,
    }
}

/// The number of undefined entries after these symbols of a file of that role; `count` of them come before, and the first symbol
/// has number `first`. Else the first symbol whose index is not its position.
fn walk_run(
    layout: &Layout,
    undefined: usize,
    role: FileRole,
    first: usize,
    count: usize,
    symbols: &[Symbol],
) -> Result<usize, usize>
    requires few { count ≤ first }
    requires room { first + length symbols.now < 2 ^ 64 }
    ensures walk { result ≡ run_walk layout.now.dynsyms undefined role first count symbols.now }
    ensures few { IfOk result (λ behind. behind ≤ count + length symbols.now) }
{
    let mut count = count;
    for (i, symbol) in symbols.iter().enumerate() {
        let entry = is_undefined_entry(role, symbol);
        if !fits_at(layout, undefined, entry, count, first + i, symbol) {
            return Err(first + i);
        }
        if entry {
            count += 1;
        }
    }
    Ok(count)
}

/// The next symbol after the file's range, and the number of undefined entries before that symbol; else the first symbol whose
/// index is not its position.
fn walk_file(
    layout: &Layout,
    undefined: usize,
    at: (usize, usize),
    file: &File,
) -> Result<(usize, usize), usize>
    requires few { at.1 ≤ at.0 }
    requires within { at.0 ≤ length layout.now.symbols }
    ensures walk { result ≡ file_walk layout.now undefined at file.now }
    ensures few { IfOk result (λ next. (next.1 ≤ next.0) × (next.0 ≤ length layout.now.symbols)) }
{
    if file.symbol_count == 0 {
        return Ok(at);
    }
    let symbols = layout.symbols.as_slice();
    let (next, count) = at;
    let gap = symbols_in_range(symbols, next, file.first_symbol.0.saturating_sub(next));
    let count = walk_run(layout, undefined, FileRole::NotLoaded, next, count, gap)?;
    let first = next + gap.len();
    let range = symbols_in_range(symbols, first, file.symbol_count);
    let count = walk_run(layout, undefined, file.role, first, count, range)?;
    Ok((first + range.len(), count))
}

fn walk_files(
    layout: &Layout,
    undefined: usize,
    at: (usize, usize),
    files: &[File],
) -> Result<(usize, usize), usize>
    requires few { at.1 ≤ at.0 }
    requires within { at.0 ≤ length layout.now.symbols }
    ensures walk { result ≡ files_walk layout.now undefined at files.now }
    ensures few { IfOk result (λ next. (next.1 ≤ next.0) × (next.0 ≤ length layout.now.symbols)) }
{
    let mut at = at;
    for file in files {
        at = walk_file(layout, undefined, at, file)?;
    }
    Ok(at)
}

fn walk_groups(layout: &Layout, undefined: usize) -> Result<(usize, usize), usize>
    ensures walk { result ≡ groups_walk layout.now undefined (0, 0) layout.now.groups }
    ensures few { IfOk result (λ next. (next.1 ≤ next.0) × (next.0 ≤ length layout.now.symbols)) }
{
    let mut at = (0, 0);
    for group in layout.groups.as_slice() {
        at = walk_files(layout, undefined, at, group.files.as_slice())?;
    }
    Ok(at)
}

/// The first symbol whose index is not its position, given the number of undefined entries.
fn walk(layout: &Layout, undefined: usize) -> Option<usize>
    ensures { result ≡ whole_walk layout.now undefined }
{
    match walk_groups(layout, undefined) {
        Ok((next, count)) => {
            let symbols = layout.symbols.as_slice();
            let rest = symbols_in_range(symbols, next, symbols.len());
            walk_run(layout, undefined, FileRole::NotLoaded, next, count, rest).err()
        }
        Err(symbol) => Some(symbol),
    }
}

/// How many undefined entries all files contribute.
#[tactic(auto, using(crate::proofs::DynsymLemmas::count_is_exact))]
pub(crate) fn exact_count(layout: &Layout) -> usize
    requires indexes { check_indexes layout.now ≡ Ok tt }
    ensures { result ≡ length (undefined_entries layout.now.symbols (files_of layout.now.groups)) }
{
    let _number = layout.symbols.len();
    undefined_count(layout)
}

/// The first symbol whose index is not its position.
#[tactic(auto, using(crate::proofs::DynsymLemmas::walk_finds_misplaced))]
fn misplaced(layout: &Layout, undefined: usize) -> Option<usize>
    requires indexes { check_indexes layout.now ≡ Ok tt }
    requires count { undefined ≡ length (undefined_entries layout.now.symbols (files_of layout.now.groups)) }
    ensures { result ≡ misplaced (dynamic_symbols layout.now) 0 layout.now.symbols }
{
    walk(layout, undefined)
}

/// A symbol has no index of the table.
struct IsUnlisted;

impl Test<Symbol> for IsUnlisted {
    ghost test = { λ t. is_unlisted };

    fn passes(&self, symbol: &Symbol) -> bool {
        dynsym_of(symbol).is_none()
    }
}

/// Whether no symbol has one; true without a search if all are simple.
#[tactic(auto, using(crate::proofs::SimpleLemmas::simple_unlisted))]
fn are_unlisted(layout: &Layout, simple: bool) -> bool
    requires { simple ≡ are_simple layout.now.symbols }
    ensures { result ≡ list_all is_unlisted layout.now.symbols }
{
    if simple {
        true
    } else {
        all_pass(&IsUnlisted, layout.symbols.as_slice())
    }
}

/// Requires that the indexes fit. Entries are counted only if a symbol is listed or has an index.
#[tactic(auto, using(crate::proofs::UnlistedLemmas::unlisted_fit), unfolding(wild_plan_rules::specs::ClauseTests::check_dynsyms))]
pub(crate) fn check_dynsyms(layout: &Layout, simple: bool) -> Result<(), Clause>
    requires indexes { check_indexes layout.now ≡ Ok tt }
    requires simple { simple ≡ are_simple layout.now.symbols }
    ensures { result ≡ check_dynsyms layout.now }
{
    if layout.dynsyms.len() == 0 && are_unlisted(layout, simple) {
        return Ok(());
    }
    let undefined = exact_count(layout);
    fails(13, misplaced(layout, undefined))?;
    fails(13, first_misplaced_listed(layout, undefined))
}
