//! What each file and each group contributes to the tables of versions.
ghost use Rattle.std.specs.Prelude.{◌≡◌, ◌^◌, ◌<◌, ◌++◌, All, length, map, IfOk, OnOk};
ghost use Rattle.std.specs.List.{filter};
ghost use Rattle.wild_types.specs.declared.file.File.{File};
ghost use Rattle.wild_needs.specs.DynamicSymbols.{is_undefined_entry};
ghost use Rattle.wild_needs.specs.Versions.{length_of, needs_of};
ghost use Rattle.wild_table_formats.specs.VersionNeeds.{need_bytes};
ghost use Rattle.wild_table_formats.specs.VersionRoom.{IsFull};
ghost use Rattle.wild_table_formats.specs.SymbolVersions.{spelled, version_bytes, version_of, exported_version, null_versions, entry_versions};
ghost use Rattle.wild_table_formats.specs.VersionNames.{symbol_versions, file_definitions, need_of, group_needs};

use crate::definitions::push_definitions;
use crate::names::{
    definition_offsets, needed_offsets, offset_after_entry_names, offset_after_string, offset_u32,
};
use crate::needs::push_need;
use crate::room::FilledRoom;
use crate::symbols::{push_version, version_of};
use std::alloc::{AllocError, Global};
use wild_needs::{definitions_size, is_undefined_entry, need_size, needs_of, next_dynstr};
use wild_records::Versym;
use wild_records::abi::version::VER_NDX_LOCAL;
use wild_types::{DynamicSymbol, File, FileRole, Group, Layout, Symbol, VersionNeeds};

/// Appends the version of a symbol.
fn add_version(version: u16, filled: &mut FilledRoom) -> Result<(), AllocError>
    requires { IsFull filled.old }
    ensures full { OnOk result (IsFull filled.new) }
    ensures added { OnOk result (filled.new.bytes ≡ filled.old.bytes ++ spelled version) }
{
    filled.make_room(Versym::SIZE)?;
    push_version(filled, version);
    Ok(())
}

/// Appends the versions of the exported symbols.
#[tactic(auto, using(crate::proofs::NameLemmas::version_steps))]
fn add_listed(symbols: &[DynamicSymbol], filled: &mut FilledRoom) -> Result<(), AllocError>
    requires { IsFull filled.old }
    ensures full { OnOk result (IsFull filled.new) }
    ensures added { OnOk result (filled.new.bytes ≡ filled.old.bytes ++ version_bytes (map exported_version symbols.now)) }
{
    for symbol in symbols {
        add_version(symbol.version, filled)?;
    }
    Ok(())
}

/// Appends the versions of the undefined entries among some symbols of a file with that role.
#[tactic(auto, using(crate::proofs::NameLemmas::version_steps))]
fn add_undefined(
    role: FileRole,
    symbols: &[Symbol],
    filled: &mut FilledRoom,
) -> Result<(), AllocError>
    requires { IsFull filled.old }
    ensures full { OnOk result (IsFull filled.new) }
    ensures added { OnOk result (filled.new.bytes ≡ filled.old.bytes ++ version_bytes (map (version_of role) (filter (is_undefined_entry role) symbols.now))) }
{
    for symbol in symbols {
        if is_undefined_entry(role, symbol) {
            add_version(version_of(role, symbol), filled)?;
        }
    }
    Ok(())
}

/// Appends the version of symbol 0 if the file is the first.
#[tactic(auto, using(crate::proofs::NameLemmas::version_steps))]
fn add_null(file: &File, filled: &mut FilledRoom) -> Result<(), AllocError>
    requires { IsFull filled.old }
    ensures full { OnOk result (IsFull filled.new) }
    ensures added { OnOk result (filled.new.bytes ≡ filled.old.bytes ++ version_bytes (null_versions file.now)) }
{
    if file.role.is_prelude() {
        add_version(VER_NDX_LOCAL, filled)?;
    }
    Ok(())
}

/// Appends the versions of the entries of a file, without symbol 0.
fn add_entries(layout: &Layout, file: &File, filled: &mut FilledRoom) -> Result<(), AllocError>
    requires { IsFull filled.old }
    ensures full { OnOk result (IsFull filled.new) }
    ensures added { OnOk result (filled.new.bytes ≡ filled.old.bytes ++ version_bytes (entry_versions layout.now file.now)) }
{
    if file.role.is_epilogue() {
        add_listed(layout.dynsyms.as_slice(), filled)
    } else {
        add_undefined(file.role, layout.symbols_of(file), filled)
    }
}

/// The versions of a file's entries in `.dynsym`; empty if the option for versions is not set.
#[tactic(auto, using(crate::proofs::NameLemmas::versions_joined))]
pub fn file_versions(alloc: Global, layout: &Layout, file: &File) -> Result<Vec<u8>, AllocError>
    ensures { IfOk result (λ bytes. bytes.items ≡ version_bytes (symbol_versions layout.now file.now)) }
{
    let mut filled = FilledRoom::new(alloc, 0)?;
    if layout.options.versions && layout.kind.needs_dynsym() {
        add_null(file, &mut filled)?;
        add_entries(layout, file, &mut filled)?;
    }
    Ok(filled.into_bytes())
}

/// The versions that the output defines. They belong to the last file, and only if the output has a `.dynsym`.
#[tactic(auto, unfolding(wild_table_formats::specs::VersionNames::file_definitions), using(crate::proofs::NameLemmas::sizes))]
pub fn file_definitions(alloc: Global, layout: &Layout, file: &File) -> Result<Vec<u8>, AllocError>
    requires few { length layout.now.verdefs < 2 ^ 16 }
    ensures { IfOk result (λ bytes. bytes.items ≡ file_definitions layout.now file.now) }
{
    let definitions = layout.verdefs.as_slice();
    let soname = &layout.options.soname;
    if !(layout.kind.needs_dynsym() && file.role.is_epilogue()) {
        return Ok(Vec::new(alloc));
    }
    let names = definition_offsets(alloc, layout, file)?;
    let mut filled = FilledRoom::new(alloc, definitions_size(definitions))?;
    push_definitions(&mut filled, names.as_slice(), soname, definitions);
    Ok(filled.into_bytes())
}

/// Appends the record of a library and those of the versions that are needed of it.
fn add_library(
    file: u32,
    names: &[u32],
    needs: &VersionNeeds,
    filled: &mut FilledRoom,
) -> Result<(), AllocError>
    requires few { length needs.now.versions < 2 ^ 16 }
    requires full { IsFull filled.old }
    ensures full { OnOk result (IsFull filled.new) }
    ensures added { OnOk result (filled.new.bytes ≡ filled.old.bytes ++ need_bytes file names.now needs.now) }
{
    filled.make_room(need_size(needs))?;
    push_need(filled, file, names, needs);
    Ok(())
}

/// Appends the versions that are needed of a file, whose strings begin at offset `at` of `.dynstr`.
fn add_need(
    alloc: Global,
    layout: &Layout,
    at: u64,
    file: &File,
    filled: &mut FilledRoom,
) -> Result<(), AllocError>
    requires few { length_of (needs_of file.now) < 2 ^ 16 }
    requires full { IsFull filled.old }
    ensures full { OnOk result (IsFull filled.new) }
    ensures added { OnOk result (filled.new.bytes ≡ filled.old.bytes ++ need_of layout.now at file.now) }
{
    if let Some(needs) = needs_of(file) {
        let at = offset_after_entry_names(layout, at, file);
        let versions = needs.versions.as_slice();
        let names = needed_offsets(alloc, offset_after_string(at, &file.lib_name), versions)?;
        add_library(offset_u32(at), names.as_slice(), needs, filled)?;
    }
    Ok(())
}

/// The versions that are needed of a group's libraries; empty if the output has no `.dynsym`.
#[tactic(auto, unfolding(wild_table_formats::specs::VersionNames::group_needs), using(crate::proofs::NameLemmas::need_steps))]
pub fn group_needs(alloc: Global, layout: &Layout, group: &Group) -> Result<Vec<u8>, AllocError>
    requires few { All (λ (f : File). length_of (needs_of f) < 2 ^ 16) group.now.files }
    ensures { IfOk result (λ bytes. bytes.items ≡ group_needs layout.now group.now) }
{
    let mut filled = FilledRoom::new(alloc, 0)?;
    if layout.kind.needs_dynsym() {
        let mut at = group.dynstr_start;
        for file in group.files.as_slice() {
            add_need(alloc, layout, at, file, &mut filled)?;
            at = next_dynstr(layout, at, file);
        }
    }
    Ok(filled.into_bytes())
}
