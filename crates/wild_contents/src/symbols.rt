//! The entries of a group in the dynamic symbol table (gABI, "Symbol Table"): the null symbol, file by file the undefined symbols,
//! and in the last file the exported symbols. Their names are consecutive in the string table, from the start of the group's
//! strings.
ghost use Rattle.std.specs.Prelude.{◌≡◌, ◌++◌, [], ◌∷◌, List, map, true, OnOk, IfOk};
ghost use Rattle.std.specs.List.{filter};
ghost use Rattle.wild_needs.specs.DynamicStrings.{offset_after_string, undefined_symbols};
ghost use Rattle.wild_needs.specs.DynamicSymbols.{is_undefined_entry};
ghost use Rattle.wild_types.specs.Kinds.{needs_dynsym};
ghost use Rattle.wild_table_formats.specs.Symbols.{symbol_bytes};
ghost use Rattle.wild_table_formats.specs.DynamicEntries.{NamedFields, undefined, listed, file_symbols, entry_at, entries_at, null_entries, offset_after_lead, file_entries, group_symbols};

use crate::exported::exported_fields;
use crate::part_bytes::PartBytes;
use std::alloc::AllocError;
use wild_needs::{dynstr_prefix, is_undefined_entry, next_dynstr};
use wild_records::SymtabEntry;
use wild_relax::Arch;
use wild_sections::Resolved;
use wild_symbols::{SymbolFields, entry_at, no_fields, undefined_fields};
use wild_types::{DynamicSymbol, File, FileRole, Group, Layout, Symbol};

/// Appends an entry.
pub(crate) fn add_entry(entry: SymtabEntry, bytes: &mut PartBytes) -> Result<(), AllocError>
    ensures { OnOk result (bytes.new ≡ bytes.old ++ symbol_bytes (entry ∷ [])) }
{
    let mut room = [0; SymtabEntry::SIZE];
    entry.put(&mut room);
    bytes.extend(&room)
}

/// The offset after a string and its zero, at most 2^64 - 1.
pub(crate) fn offset_after_string(at: u64, text: &[u8]) -> u64
    ensures { result ≡ offset_after_string at text.now }
{
    at.saturating_add((text.len() as u64).saturating_add(1))
}

/// Appends the entry of a symbol whose name is at an offset; returns the offset after the name.
fn add_symbol(
    at: u64,
    name: &[u8],
    fields: SymbolFields,
    bytes: &mut PartBytes,
) -> Result<u64, AllocError>
    ensures entry { OnOk result (bytes.new ≡ bytes.old ++ symbol_bytes (entry_at at fields ∷ [])) }
    ensures next { IfOk result (λ next. next ≡ offset_after_string at name.now) }
{
    add_entry(entry_at(at, fields), bytes)?;
    Ok(offset_after_string(at, name))
}

/// Appends the entries of the undefined symbols among some symbols of a file of that role.
fn add_undefined(
    role: FileRole,
    symbols: &[Symbol],
    at: u64,
    bytes: &mut PartBytes,
) -> Result<(), AllocError>
    ensures { OnOk result (bytes.new ≡ bytes.old ++ symbol_bytes (entries_at at (map (undefined role) (filter (is_undefined_entry role) symbols.now)))) }
{
    let mut at = at;
    for symbol in symbols {
        if is_undefined_entry(role, symbol) {
            let fields = undefined_fields(role, symbol);
            at = add_symbol(at, symbol.name.as_slice(), fields, bytes)?;
        }
    }
    Ok(())
}

/// Appends the entries of the exported symbols.
fn add_listed<A: Arch>(
    resolved: &Resolved<A>,
    symbols: &[DynamicSymbol],
    at: u64,
    bytes: &mut PartBytes,
) -> Result<(), AllocError>
    requires table { needs_dynsym resolved.now.layout.now.kind ≡ true }
    ensures { OnOk result (bytes.new ≡ bytes.old ++ symbol_bytes (entries_at at (map (listed resolved.now.layout.now) symbols.now))) }
{
    let mut at = at;
    for symbol in symbols {
        let fields = exported_fields(resolved, symbol);
        at = add_symbol(at, symbol.name.as_slice(), fields, bytes)?;
    }
    Ok(())
}

/// Appends the entries of the symbols of a file, whose names begin at an offset.
fn add_symbols<A: Arch>(
    resolved: &Resolved<A>,
    file: &File,
    at: u64,
    bytes: &mut PartBytes,
) -> Result<(), AllocError>
    requires table { needs_dynsym resolved.now.layout.now.kind ≡ true }
    ensures { OnOk result (bytes.new ≡ bytes.old ++ symbol_bytes (entries_at at (file_symbols resolved.now.layout.now file.now))) }
{
    let layout = resolved.layout;
    if file.role.is_epilogue() {
        add_listed(resolved, layout.dynsyms.as_slice(), at, bytes)
    } else {
        add_undefined(file.role, layout.symbols_of(file), at, bytes)
    }
}

/// Appends the null symbol, if the file is the first one.
fn add_null(file: &File, bytes: &mut PartBytes) -> Result<(), AllocError>
    ensures { OnOk result (bytes.new ≡ bytes.old ++ symbol_bytes (null_entries file.now)) }
{
    if file.role.is_prelude() {
        add_entry(entry_at(0, no_fields()), bytes)?;
    }
    Ok(())
}

/// The offset after the strings of a file that are no symbol's name; the file's strings begin at `at`.
fn offset_after_lead(layout: &Layout, at: u64, file: &File) -> u64
    ensures { result ≡ offset_after_lead layout.now at file.now }
{
    at.saturating_add(dynstr_prefix(layout, file))
}

/// Appends the entries of a file whose strings begin at an offset.
#[tactic(auto, using(crate::proofs::SymbolLemmas::file_joined))]
fn add_file<A: Arch>(
    resolved: &Resolved<A>,
    file: &File,
    at: u64,
    bytes: &mut PartBytes,
) -> Result<(), AllocError>
    requires table { needs_dynsym resolved.now.layout.now.kind ≡ true }
    ensures { OnOk result (bytes.new ≡ bytes.old ++ symbol_bytes (file_entries resolved.now.layout.now at file.now)) }
{
    add_null(file, bytes)?;
    add_symbols(
        resolved,
        file,
        offset_after_lead(resolved.layout, at, file),
        bytes,
    )
}

/// Appends the entries of a group.
#[tactic(auto, unfolding(wild_table_formats::specs::DynamicEntries::group_symbols))]
pub(crate) fn add_group_symbols<A: Arch>(
    resolved: &Resolved<A>,
    group: &Group,
    bytes: &mut PartBytes,
) -> Result<(), AllocError>
    ensures { OnOk result (bytes.new ≡ bytes.old ++ symbol_bytes (group_symbols resolved.now.layout.now group.now)) }
{
    if !resolved.layout.kind.needs_dynsym() {
        return Ok(());
    }
    let mut at = group.dynstr_start;
    for file in group.files.as_slice() {
        add_file(resolved, file, at, bytes)?;
        at = next_dynstr(resolved.layout, at, file);
    }
    Ok(())
}
