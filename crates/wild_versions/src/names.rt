//! The offsets of version names in `.dynstr`.
ghost use Rattle.std.specs.Prelude.{◌≡◌, ◌∷◌, [], ◌++◌, true, IfOk, OnOk};
ghost use Rattle.wild_needs.specs.DynamicStrings.{offset_after_string};
ghost use Rattle.wild_types.specs.FileRoles.{is_epilogue};
ghost use Rattle.wild_needs.specs.Versions.{definition_names, needed_names};
ghost use Rattle.wild_table_formats.specs.VersionNames.{offset_u32, offsets_from, offset_after_entry_names, offset_after_search_path, definition_offsets};

use std::alloc::{AllocError, Global};
use wild_needs::{dynstr_prefix, entry_room, string_start};
use wild_types::{File, Layout, NeededVersion, VersionDefinition};
use wild_words::Bytes;

/// An offset of `.dynstr` as a record has it, in 32 bits.
pub(crate) fn offset_u32(at: u64) -> u32
    ensures { result ≡ offset_u32 at }
{
    (at % 0x1_0000_0000) as u32
}

/// The offset after a string and the zero that ends it, at most 2^64 - 1.
pub(crate) fn offset_after_string(at: u64, text: &Bytes) -> u64
    ensures { result ≡ offset_after_string at text.now }
{
    at.saturating_add((text.len() as u64).saturating_add(1))
}

/// The offset after the names of a file's entries, at most 2^64 - 1. The file's strings begin at `at`.
pub(crate) fn offset_after_entry_names(layout: &Layout, at: u64, file: &File) -> u64
    ensures { result ≡ offset_after_entry_names layout.now at file.now }
{
    at.saturating_add(dynstr_prefix(layout, file))
        .saturating_add(entry_room(layout, file))
}

/// The offset after the search path; `at` itself without one.
fn offset_after_search_path(at: u64, path: &Option<Bytes>) -> u64
    ensures { result ≡ offset_after_search_path at path.now }
{
    match path {
        Some(path) => offset_after_string(at, path),
        None => at,
    }
}

/// Appends the offset of a name, and returns the offset after that name.
fn add_name(names: &mut Vec<u32>, at: u64, name: &Bytes) -> Result<u64, AllocError>
    ensures added { OnOk result (names.new.items ≡ names.old.items ++ offset_u32 at ∷ []) }
    ensures next { IfOk result (λ next. next ≡ offset_after_string at name.now) }
{
    names.push(offset_u32(at))?;
    Ok(offset_after_string(at, name))
}

/// The offsets of the names of needed versions. The first name is at `at`.
pub(crate) fn needed_offsets(
    alloc: Global,
    at: u64,
    versions: &[NeededVersion],
) -> Result<Vec<u32>, AllocError>
    ensures { IfOk result (λ names. names.items ≡ offsets_from at (needed_names versions.now)) }
{
    let mut names = Vec::with_capacity(alloc, versions.len())?;
    let mut at = at;
    for version in versions {
        at = add_name(&mut names, at, &version.name)?;
    }
    Ok(names)
}

/// Appends the offsets of the names of defined versions. The first name is at `at`.
fn add_defined(
    names: &mut Vec<u32>,
    at: u64,
    definitions: &[VersionDefinition],
) -> Result<(), AllocError>
    ensures { OnOk result (names.new.items ≡ names.old.items ++ offsets_from at (definition_names definitions.now)) }
{
    let mut at = at;
    for definition in definitions {
        at = add_name(names, at, &definition.name)?;
    }
    Ok(())
}

/// The offsets of the names of the versions that the output defines. With a soname, the first version's name is the
/// soname's string.
#[tactic(auto, unfolding(wild_table_formats::specs::VersionNames::definition_offsets))]
pub(crate) fn definition_offsets(
    alloc: Global,
    layout: &Layout,
    file: &File,
) -> Result<Vec<u32>, AllocError>
    requires last { is_epilogue file.now.role ≡ true }
    ensures { IfOk result (λ names. names.items ≡ definition_offsets layout.now file.now) }
{
    let start = string_start(layout);
    let mut names = Vec::with_capacity(alloc, layout.verdefs.len())?;
    let mut named = layout.verdefs.as_slice();
    if layout.options.soname.is_some() {
        names.push(offset_u32(offset_after_search_path(start, &layout.options.rpath)))?;
        named = &named[named.len().min(1)..];
    }
    add_defined(
        &mut names,
        offset_after_entry_names(layout, start, file),
        named,
    )?;
    Ok(names)
}
