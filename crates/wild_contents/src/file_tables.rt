//! What a file contributes to parts that do not depend on its sections: dynamic tables, `.symtab` and notes.
ghost use Rattle.std.specs.Prelude.{◌≡◌, ◌++◌, false, OnOk};
ghost use Rattle.wild_layout.specs.Content.{file_part_bytes};
ghost use Rattle.wild_contents.specs.PlacedSections.{is_applied, is_apart};

use crate::hashes::{add_gnu, add_sysv};
use crate::notes::{add_build_id, add_properties};
use crate::part_bytes::PartBytes;
use crate::strings::add_file_strings;
use crate::symtab::{add_file_indexes, add_file_names};
use crate::versions::{add_definitions, add_versions};
use std::alloc::{AllocError, Global};
use wild_relax::Arch;
use wild_sections::Resolved;
use wild_types::{File, Role};

/// Appends what a file contributes to a part of that role that does not depend on its sections.
pub(crate) fn add_file_table<A: Arch>(
    alloc: Global,
    resolved: &Resolved<A>,
    role: Role,
    file: &File,
    bytes: &mut PartBytes,
) -> Result<(), AllocError>
    requires plain { is_applied role ≡ false }
    requires here { is_apart role ≡ false }
    ensures { OnOk result (bytes.new ≡ bytes.old ++ file_part_bytes resolved.now.layout.now role file.now) }
{
    match role {
        Role::Dynstr => add_file_strings(resolved.layout, file, bytes),
        Role::GnuVersion => add_versions(alloc, resolved.layout, file, bytes),
        Role::GnuVersionD => add_definitions(alloc, resolved, file, bytes),
        Role::SysvHash => add_sysv(alloc, resolved, file, bytes),
        Role::GnuHash => add_gnu(alloc, resolved, file, bytes),
        Role::SymtabShndxLocal => add_file_indexes(alloc, resolved, role, true, file, bytes),
        Role::SymtabShndxGlobal => add_file_indexes(alloc, resolved, role, false, file, bytes),
        Role::Strtab => add_file_names(alloc, resolved, file, bytes),
        Role::BuildId => add_build_id(alloc, resolved.layout, file, bytes),
        Role::Property => add_properties(alloc, resolved.layout, file, bytes),
        _ => Ok(()),
    }
}
