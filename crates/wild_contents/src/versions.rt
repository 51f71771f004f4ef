//! The versions of dynamic symbols, those that the output defines, and those that it needs of libraries (LSB, "Symbol
//! Versioning").
ghost use Rattle.std.specs.Prelude.{◌≡◌, ◌++◌, OnOk};
ghost use Rattle.wild_table_formats.specs.SymbolVersions.{version_bytes};
ghost use Rattle.wild_table_formats.specs.VersionNames.{symbol_versions, file_definitions, group_needs};
ghost use Rattle.wild_contents.specs.VersionCounts.{NeedsFit};

use crate::part_bytes::PartBytes;
use std::alloc::{AllocError, Global};
use wild_relax::Arch;
use wild_sections::Resolved;
use wild_types::{File, Group, Layout};
use wild_versions::{file_definitions, file_versions, group_needs};

/// Appends the versions of a file's dynamic symbols.
pub(crate) fn add_versions(
    alloc: Global,
    layout: &Layout,
    file: &File,
    bytes: &mut PartBytes,
) -> Result<(), AllocError>
    ensures { OnOk result (bytes.new ≡ bytes.old ++ version_bytes (symbol_versions layout.now file.now)) }
{
    let versions = file_versions(alloc, layout, file)?;
    bytes.extend(&versions)
}

/// Appends the versions that the output defines, if the file is the last one.
pub(crate) fn add_definitions<A: Arch>(
    alloc: Global,
    resolved: &Resolved<A>,
    file: &File,
    bytes: &mut PartBytes,
) -> Result<(), AllocError>
    ensures { OnOk result (bytes.new ≡ bytes.old ++ file_definitions resolved.now.layout.now file.now) }
{
    let definitions = file_definitions(alloc, resolved.layout, file)?;
    bytes.extend(&definitions)
}

/// Appends the versions that are needed of a group's libraries.
pub(crate) fn add_needs(
    alloc: Global,
    layout: &Layout,
    group: &Group,
    bytes: &mut PartBytes,
) -> Result<(), AllocError>
    requires { NeedsFit group.now }
    ensures { OnOk result (bytes.new ≡ bytes.old ++ group_needs layout.now group.now) }
{
    let needs = group_needs(alloc, layout, group)?;
    bytes.extend(&needs)
}
