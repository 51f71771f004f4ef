//! The sizes of version tables and of their strings (LSB, "Symbol Versioning").
ghost use Rattle.std.specs.Prelude.{◌≡◌, ◌+◌, ◌*◌, ◌-◌, ◌^◌, ◌≤◌, length, min};
ghost use Rattle.std.specs.List.{filter};
ghost use Rattle.std.specs.Option.{option_copied};
ghost use Rattle.wild_needs.specs.DynamicPlaces.{need_number};
ghost use Rattle.wild_needs.specs.DynamicStrings.{text_room};
ghost use Rattle.wild_types.specs.Lists.{total};
ghost use Rattle.wild_needs.specs.Versions.{definition_size, definitions_size, definitions_room, need_size, needs_of, needs_room, has_needs, needed_names, definition_names, own_names, version_names};

use crate::strings::text_room;
use wild_records::{Verdaux, Verdef, Vernaux, Verneed};
use wild_types::{File, Layout, NeededVersion, VersionDefinition, VersionNeeds};

/// The size of the record of a version that the output defines, with its names, in bytes.
pub fn definition_size(definition: &VersionDefinition) -> usize
    ensures size { result ≡ definition_size definition.now }
    ensures small { result ≤ 36 }
{
    match definition.parent {
        None => Verdef::SIZE + Verdaux::SIZE,
        Some(_) => Verdef::SIZE + (Verdaux::SIZE + Verdaux::SIZE),
    }
}

/// The size of the records of versions that the output defines, in bytes, at most 2^64 - 1.
pub fn definitions_size(definitions: &[VersionDefinition]) -> usize
    ensures size { result ≡ min (2 ^ 64 - 1) (definitions_size definitions.now) }
    ensures small { result ≤ 36 * length definitions.now }
{
    let mut size: usize = 0;
    for definition in definitions {
        size = size.saturating_add(definition_size(definition));
    }
    size
}

/// The bytes of version definitions that a file writes, at most 2^64 - 1.
pub(crate) fn definitions_room(layout: &Layout, file: &File) -> u64
    ensures { result ≡ min (2 ^ 64 - 1) (definitions_room layout.now file.now) }
{
    if layout.kind.needs_dynsym() && file.role.is_epilogue() {
        definitions_size(layout.verdefs.as_slice()) as u64
    } else {
        0
    }
}

/// The size of a library's record, with the versions that are needed from it, in bytes, at most 2^64 - 1.
pub fn need_size(needs: &VersionNeeds) -> usize
    ensures { result ≡ min (2 ^ 64 - 1) (need_size needs.now) }
{
    Vernaux::SIZE
        .saturating_mul(needs.versions.len())
        .saturating_add(Verneed::SIZE)
}

/// The versions that are needed from a file, if it is a library.
pub fn needs_of(file: &File) -> Option<&VersionNeeds>
    ensures { option_copied result ≡ needs_of file.now }
{
    if file.role.is_library() {
        file.verneed.as_ref()
    } else {
        None
    }
}

/// The bytes that a file writes for the versions needed from it, at most 2^64 - 1.
pub(crate) fn needs_room(layout: &Layout, file: &File) -> u64
    ensures { result ≡ min (2 ^ 64 - 1) (needs_room layout.now file.now) }
{
    if !layout.kind.needs_dynsym() {
        return 0;
    }
    match needs_of(file) {
        Some(needs) => need_size(needs) as u64,
        None => 0,
    }
}

/// Whether versions are needed from a file.
pub(crate) fn has_needs(file: &File) -> bool
    ensures { result ≡ has_needs file.now }
{
    file.role.is_library() && file.verneed.is_some()
}

/// The number of these files from which versions are needed, at most 2^64 - 1.
fn needed_among(files: &[File]) -> u64
    ensures { result ≡ min (2 ^ 64 - 1) (length (filter has_needs files.now)) }
{
    let mut count: u64 = 0;
    for file in files {
        if has_needs(file) {
            count = count.saturating_add(1);
        }
    }
    count
}

/// The number of libraries from which versions are needed, at most 2^64 - 1.
#[tactic(auto, unfolding(crate::specs::DynamicPlaces::need_number), using(crate::proofs::StringLemmas::length_needed))]
pub fn need_count(layout: &Layout) -> u64
    ensures { result ≡ need_number layout.now }
{
    let mut count: u64 = 0;
    for group in layout.groups.as_slice() {
        count = count.saturating_add(needed_among(group.files.as_slice()));
    }
    count
}

// ---- their strings

/// The size of the names of needed versions, at most 2^64 - 1.
fn needed_room(versions: &[NeededVersion]) -> u64
    ensures { result ≡ min (2 ^ 64 - 1) (total text_room (needed_names versions.now)) }
{
    let mut room: u64 = 0;
    for version in versions {
        room = room.saturating_add(text_room(&version.name));
    }
    room
}

/// The size of the names of versions that the output defines, at most 2^64 - 1.
fn defined_room(definitions: &[VersionDefinition]) -> u64
    ensures { result ≡ min (2 ^ 64 - 1) (total text_room (definition_names definitions.now)) }
{
    let mut room: u64 = 0;
    for definition in definitions {
        room = room.saturating_add(text_room(&definition.name));
    }
    room
}

/// The versions whose names have strings of their own: not the first, if the output's soname is already its string.
fn named_definitions(layout: &Layout) -> &[VersionDefinition]
    ensures { definition_names result.now ≡ own_names layout.now.options.soname layout.now.verdefs }
{
    let definitions = layout.verdefs.as_slice();
    if layout.options.soname.is_some() && definitions.len() > 0 {
        &definitions[1..]
    } else {
        definitions
    }
}

/// The size of the strings of a file's versions, at most 2^64 - 1.
pub fn version_room(layout: &Layout, file: &File) -> u64
    ensures { result ≡ min (2 ^ 64 - 1) (total text_room (version_names layout.now file.now)) }
{
    if file.role.is_epilogue() {
        return defined_room(named_definitions(layout));
    }
    match needs_of(file) {
        Some(needs) => {
            text_room(&file.lib_name).saturating_add(needed_room(needs.versions.as_slice()))
        }
        None => 0,
    }
}
