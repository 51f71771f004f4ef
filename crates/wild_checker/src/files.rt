//! Which file has a symbol: the table that leads from a symbol to its file.
//!
//! A symbol without a resolution has the address of its place, in the file whose range of symbols has it. The table is filled only if the
//! ranges ascend, so that the time is linear. Whoever takes a file from it tests that the file has the symbol.
ghost use Rattle.std.specs.Prelude.{◌≡◌, IfOk, option_copied};
ghost use Rattle.wild_checker.specs.Loaded.{loaded_now};
ghost use Rattle.wild_checker.specs.Files.{with_file, with_files, with_groups, file_table, site_of, file_at, find_file, file_for};

use crate::loaded::{FileSite, LoadedRef};
use std::alloc::{AllocError, Global};
use wild_types::{File, Group, Layout, SymbolIndex};
use wild_words::Items;

/// Enters a file for its symbols. The table ends after them, or after `count` symbols.
fn add_file(
    table: &mut Vec<Option<FileSite>>,
    count: usize,
    site: FileSite,
    file: &File,
) -> Result<(), AllocError>
    ensures { IfOk result (λ u. table.new.items ≡ with_file count site file.now table.old.items) }
{
    if file.symbol_count == 0 {
        return Ok(());
    }
    let first = file.first_symbol.0;
    let end = first.saturating_add(file.symbol_count);
    table.resize(first.min(count), None)?;
    table.resize(end.min(count), Some(site))
}

/// Enters the files of a group.
fn add_files(
    table: &mut Vec<Option<FileSite>>,
    count: usize,
    group: usize,
    files: &[File],
) -> Result<(), AllocError>
    ensures { IfOk result (λ u. table.new.items ≡ with_files count group 0 files.now table.old.items) }
{
    for (n, file) in files.iter().enumerate() {
        add_file(table, count, FileSite { group, file: n }, file)?;
    }
    Ok(())
}

/// Enters the files of groups.
fn add_groups(
    table: &mut Vec<Option<FileSite>>,
    count: usize,
    groups: &[Group],
) -> Result<(), AllocError>
    ensures { IfOk result (λ u. table.new.items ≡ with_groups count 0 groups.now table.old.items) }
{
    for (n, group) in groups.iter().enumerate() {
        add_files(table, count, n, group.files.as_slice())?;
    }
    Ok(())
}

/// The files of all symbols; empty if the files' ranges of symbols do not ascend.
pub(crate) fn file_table(
    alloc: Global,
    layout: &Layout,
    ordered: bool,
) -> Result<Items<Option<FileSite>>, AllocError>
    ensures { IfOk result (λ table. table ≡ file_table layout.now ordered) }
{
    let mut table = Vec::new(alloc);
    if ordered {
        add_groups(&mut table, layout.symbols.len(), layout.groups.as_slice())?;
    }
    Ok(Items::from_vec(table))
}

/// The entry of a symbol.
fn site_of(files: &[Option<FileSite>], symbol: SymbolIndex) -> Option<FileSite>
    ensures { result ≡ site_of files.now symbol }
{
    match files.get(symbol.0) {
        Some(site) => *site,
        None => None,
    }
}

/// The file at a position.
fn file_at(layout: &Layout, site: Option<FileSite>) -> Option<&File>
    ensures { option_copied result ≡ file_at layout.now site }
{
    let site = site?;
    let group = layout.groups.as_slice().get(site.group)?;
    group.files.as_slice().get(site.file)
}

/// The file in which a symbol is looked for: that of the table, else that of the reference.
pub(crate) fn file_for<'a>(
    loaded: &LoadedRef<'a>,
    file: &'a File,
    symbol: Option<SymbolIndex>,
) -> &'a File
    ensures { result.now ≡ file_for (loaded_now loaded.now) file.now symbol }
{
    let Some(symbol) = symbol else {
        return file;
    };
    match file_at(loaded.layout, site_of(loaded.files, symbol)) {
        Some(found) => found,
        None => file,
    }
}
