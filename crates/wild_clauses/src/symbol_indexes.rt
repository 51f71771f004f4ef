//! The first symbol whose definition or place does not exist. If the files' symbol ranges ascend, one parallel pass over symbols
//! and files finds it; else the file of each symbol is searched for.
ghost use Rattle.std.specs.Prelude.{◌≡◌, ◌+◌, ◌^◌, ◌<◌, None, is_some, length, true};
ghost use Rattle.wild_clauses.specs.SymbolIndexes.{range_lies, ranges_lie, all_ranges_lie, gap_astray, range_astray, file_walk, files_walk, groups_walk, walk_end, count_in};
ghost use Rattle.wild_plan_rules.specs.Indexes.{index_fits, place_fits, symbol_indexes_fit, section_count, symbol_misfit};
ghost use Rattle.wild_types.specs.Lists.{first_failing};
ghost use Rattle.wild_types.specs.Lookups.{files_of, file_of};

use wild_types::{File, Group, Layout, Place, Symbol, SymbolIndex, symbols_in_range};

/// Whether the index, if there is one, is below `count`.
pub(crate) fn index_fits(count: usize, index: Option<SymbolIndex>) -> bool
    ensures { result ≡ index_fits count index }
{
    match index {
        Some(index) => index.0 < count,
        None => true,
    }
}

/// `count` is the number of input sections of the symbol's own file.
fn place_fits(layout: &Layout, count: usize, place: Place) -> bool
    ensures { result ≡ place_fits layout.now count place }
{
    match place {
        Place::Output(section) => section.0 < layout.sections.len(),
        Place::Section(section) => section < count,
        _ => true,
    }
}

fn symbol_indexes_fit(layout: &Layout, count: usize, symbol: &Symbol) -> bool
    ensures { result ≡ symbol_indexes_fit layout.now count symbol.now }
{
    index_fits(layout.symbols.len(), symbol.definition) && place_fits(layout, count, symbol.place)
}

/// The first symbol, counted from `first` on, that has an index that does not fit; its file has `count` input
/// sections.
fn astray_in(layout: &Layout, count: usize, first: usize, symbols: &[Symbol]) -> Option<usize>
    requires { first + length symbols.now < 2 ^ 64 }
    ensures { result ≡ first_failing (symbol_indexes_fit layout.now count) first symbols.now }
{
    for (i, symbol) in symbols.iter().enumerate() {
        if !symbol_indexes_fit(layout, count, symbol) {
            return Some(first + i);
        }
    }
    None
}

#[tactic(auto, using(crate::proofs::AstrayLemmas::no_gap))]
fn gap_astray(layout: &Layout, next: usize, file: &File) -> Option<usize>
    ensures { result ≡ gap_astray layout.now next file.now }
{
    if file.first_symbol.0 <= next {
        return None;
    }
    let symbols = layout.symbols.as_slice();
    let gap = symbols_in_range(symbols, next, file.first_symbol.0.saturating_sub(next));
    astray_in(layout, 0, next, gap)
}

fn range_astray(layout: &Layout, file: &File) -> Option<usize>
    ensures { result ≡ range_astray layout.now file.now }
{
    let symbols = layout.symbols.as_slice();
    let range = symbols_in_range(symbols, file.first_symbol.0, file.symbol_count);
    astray_in(layout, file.sections.len(), file.first_symbol.0, range)
}

/// The next symbol after the file's range; else the place of the first symbol whose index does not fit.
fn walk_file(layout: &Layout, next: usize, file: &File) -> Result<usize, usize>
    ensures { result ≡ file_walk layout.now next file.now }
{
    if file.symbol_count == 0 {
        return Ok(next);
    }
    let symbols = layout.symbols.as_slice();
    let range = symbols_in_range(symbols, file.first_symbol.0, file.symbol_count);
    if let Some(i) = gap_astray(layout, next, file) {
        return Err(i);
    }
    match range_astray(layout, file) {
        Some(i) => Err(i),
        None => Ok(file.first_symbol.0 + range.len()),
    }
}

fn walk_files(layout: &Layout, next: usize, files: &[File]) -> Result<usize, usize>
    ensures { result ≡ files_walk layout.now next files.now }
{
    let mut next = next;
    for file in files {
        next = walk_file(layout, next, file)?;
    }
    Ok(next)
}

fn walk_groups(layout: &Layout, groups: &[Group]) -> Result<usize, usize>
    ensures { result ≡ groups_walk layout.now 0 groups.now }
{
    let mut next = 0;
    for group in groups {
        next = walk_files(layout, next, group.files.as_slice())?;
    }
    Ok(next)
}

fn walk(layout: &Layout) -> Option<usize>
    ensures { result ≡ walk_end layout.now (groups_walk layout.now 0 layout.now.groups) }
{
    let symbols = layout.symbols.as_slice();
    match walk_groups(layout, layout.groups.as_slice()) {
        Ok(next) => astray_in(
            layout,
            0,
            next,
            symbols_in_range(symbols, next, symbols.len()),
        ),
        Err(i) => Some(i),
    }
}

/// Where the ranges of later files may begin; none if the file's begins before `end` or ends after `count`.
fn range_lies(count: usize, end: usize, file: &File) -> Option<usize>
    ensures { result ≡ range_lies count end file.now }
{
    if file.symbol_count == 0 {
        return Some(end);
    }
    let next = file.first_symbol.0.checked_add(file.symbol_count)?;
    if file.first_symbol.0 < end || count < next {
        return None;
    }
    Some(next)
}

fn ranges_lie(count: usize, end: usize, files: &[File]) -> Option<usize>
    ensures { result ≡ ranges_lie count end files.now }
{
    let mut end = end;
    for file in files {
        end = range_lies(count, end, file)?;
    }
    Some(end)
}

/// Whether the files' ranges ascend without overlap, within `count` symbols.
pub(crate) fn all_ranges_lie(count: usize, groups: &[Group]) -> bool
    ensures { result ≡ is_some (all_ranges_lie count 0 groups.now) }
{
    let mut end = 0;
    for group in groups {
        match ranges_lie(count, end, group.files.as_slice()) {
            Some(next) => end = next,
            None => return false,
        }
    }
    true
}

/// How many input sections the first file has whose range contains the symbol.
fn count_in(files: &[File], symbol: SymbolIndex) -> Option<usize>
    ensures { result ≡ count_in files.now symbol }
{
    for file in files {
        let end = file.first_symbol.0 as u128 + file.symbol_count as u128;
        if file.first_symbol.0 <= symbol.0 && (symbol.0 as u128) < end {
            return Some(file.sections.len());
        }
    }
    None
}

fn section_count(groups: &[Group], symbol: SymbolIndex) -> usize
    ensures { result ≡ section_count (file_of (files_of groups.now) symbol) }
{
    for group in groups {
        match count_in(group.files.as_slice(), symbol) {
            Some(count) => return count,
            None => {}
        }
    }
    0
}

fn search(layout: &Layout) -> Option<usize>
    ensures { result ≡ symbol_misfit layout.now (files_of layout.now.groups) 0 layout.now.symbols }
{
    let groups = layout.groups.as_slice();
    for (i, symbol) in layout.symbols.as_slice().iter().enumerate() {
        if !symbol_indexes_fit(layout, section_count(groups, SymbolIndex(i)), symbol) {
            return Some(i);
        }
    }
    None
}

/// The place of the first symbol whose definition or place does not exist.
pub(crate) fn symbol_misfit(layout: &Layout, ranges_in_order: bool) -> Option<usize>
    requires { ranges_in_order ≡ is_some (all_ranges_lie (length layout.now.symbols) 0 layout.now.groups) }
    ensures { result ≡ symbol_misfit layout.now (files_of layout.now.groups) 0 layout.now.symbols }
{
    if ranges_in_order {
        walk(layout)
    } else {
        search(layout)
    }
}
