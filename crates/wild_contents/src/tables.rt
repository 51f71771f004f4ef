//! What the groups contribute to the parts. The first file contributes headers and section names, which the image has once. Each file
//! contributes to the dynamic tables, and its GOT and PLT entries do.
ghost use Rattle.std.specs.Prelude.{◌≡◌, [], ◌++◌, if◌then◌else◌, false, length, IfOk, OnOk};
ghost use Rattle.std.specs.List.{flat_map};
ghost use Rattle.wild_needs.specs.Needs.{bytes_per_image};
ghost use Rattle.wild_types.specs.FileRoles.{is_prelude};
ghost use Rattle.wild_placement.specs.PlacedSections.{placed_files};
ghost use Rattle.wild_layout.specs.Content.{unique_table, file_content, group_bytes, content};
ghost use Rattle.wild_layout.specs.SlotBytes.{header_bytes};
ghost use Rattle.wild_types.specs.declared.part.Role.TheVariants.{RelrDyn, EhFrame, EhFrameHdr};
ghost use Rattle.wild_contents.specs.VersionCounts.{NeedsFit};
ghost use Rattle.wild_contents.specs.PlacedSections.{is_applied, is_apart, first_given, group_frames, HaveSearchTable};

use crate::dynamic::add_group_dynamic;
use crate::file_tables::add_file_table;
use crate::part_bytes::PartBytes;
use crate::placed_sections::{add_placed_files, add_sorted};
use crate::slot_tables::{add_block, add_header};
use crate::slots::add_slots;
use crate::symbols::add_group_symbols;
use crate::symtab::add_group_table;
use crate::versions::add_needs;
use std::alloc::{AllocError, Global};
use wild_headers::{
    populate_file_header, write_program_headers, write_section_headers, write_section_names,
};
use wild_needs::{bytes_per_image, has_last};
use wild_relax::Arch;
use wild_sections::Resolved;
use wild_types::{File, Group, Role};

/// Frame tables of a group, computed before its other tables.
#[derive(Clone, Copy)]
pub struct FrameTables<'a> {
    /// The `.eh_frame` bytes of the group, relocated.
    pub frames: &'a [u8],
    /// The search table of the frames of all groups, if the group has the first file.
    pub table: &'a [u8],
}

/// Writes a table that the image has once, into its room; not the search table.
fn fill_unique_table<A: Arch>(resolved: &Resolved<A>, role: Role, room: &mut [u8])
    requires here { is_apart role ≡ false }
    requires room { length room.old ≡ bytes_per_image resolved.now.layout.now role }
    ensures { room.new ≡ unique_table resolved.now.layout.now role }
{
    match role {
        Role::FileHeader => populate_file_header(resolved.layout, room),
        Role::ProgramHeaders => write_program_headers(resolved.layout, room),
        Role::SectionHeaders => write_section_headers(resolved.layout, room),
        Role::Shstrtab => write_section_names(resolved.layout, room),
        Role::Interp => room.copy_from_slice(resolved.layout.interp.as_slice()),
        _ => {}
    }
}

/// A table that the image has once, by role.
pub(crate) fn unique_table<A: Arch>(
    alloc: Global,
    resolved: &Resolved<A>,
    role: Role,
) -> Result<Vec<u8>, AllocError>
    requires { is_apart role ≡ false }
    ensures { IfOk result (λ v. v.items ≡ unique_table resolved.now.layout.now role) }
{
    let mut room = vec![in alloc; 0u8; bytes_per_image(resolved.layout, role) as usize]?;
    fill_unique_table(resolved, role, &mut room);
    Ok(room)
}

/// Appends a table that the image has once, if the file is the first one.
pub(crate) fn add_unique_table<A: Arch>(
    alloc: Global,
    resolved: &Resolved<A>,
    role: Role,
    file: &File,
    bytes: &mut PartBytes,
) -> Result<(), AllocError>
    requires { is_apart role ≡ false }
    ensures { OnOk result (bytes.new ≡ bytes.old ++ (if is_prelude file.now.role then unique_table resolved.now.layout.now role ++ header_bytes resolved.now.layout.now role else [])) }
{
    if file.role.is_prelude() {
        let whole = unique_table(alloc, resolved, role)?;
        bytes.extend(&whole)?;
        add_header(resolved.layout, role, bytes)?;
    }
    Ok(())
}

/// Appends what a file contributes to a part of that role.
fn add_file_content<A: Arch>(
    alloc: Global,
    resolved: &Resolved<A>,
    role: Role,
    file: &File,
    bytes: &mut PartBytes,
) -> Result<(), AllocError>
    requires plain { is_applied role ≡ false }
    requires here { is_apart role ≡ false }
    ensures { OnOk result (bytes.new ≡ bytes.old ++ file_content resolved.now.layout.now role file.now) }
{
    add_unique_table(alloc, resolved, role, file, bytes)?;
    add_file_table(alloc, resolved, role, file, bytes)?;
    add_slots(resolved.layout, role, file, bytes)
}

/// Appends what files contribute to a part that does not depend on their sections.
fn add_plain<A: Arch>(
    alloc: Global,
    resolved: &Resolved<A>,
    role: Role,
    files: &[File],
    bytes: &mut PartBytes,
) -> Result<(), AllocError>
    requires plain { is_applied role ≡ false }
    requires here { is_apart role ≡ false }
    ensures { OnOk result (bytes.new ≡ bytes.old ++ flat_map (file_content resolved.now.layout.now role) files.now) }
{
    for file in files {
        add_file_content(alloc, resolved, role, file, bytes)?;
    }
    Ok(())
}

/// Appends the search table, if one of the files is the first one.
fn add_search_table(files: &[File], table: &[u8], bytes: &mut PartBytes) -> Result<(), AllocError>
    ensures { OnOk result (bytes.new ≡ bytes.old ++ flat_map (first_given table.now) files.now) }
{
    for file in files {
        if file.role.is_prelude() {
            bytes.extend(table)?;
        }
    }
    Ok(())
}

/// Appends what the files of a group contribute to a part of that role.
#[tactic(auto, using(crate::proofs::FileLemmas::files_frames, crate::proofs::FileLemmas::files_table, crate::proofs::FileLemmas::files_plain))]
fn add_files<A: Arch>(
    alloc: Global,
    resolved: &Resolved<A>,
    role: Role,
    group: &Group,
    beside: &FrameTables<'_>,
    bytes: &mut PartBytes,
) -> Result<(), AllocError>
    requires frames { role ≡ EhFrame → beside.now.frames.now ≡ group_frames resolved.now.layout.now group.now }
    requires table { role ≡ EhFrameHdr → HaveSearchTable resolved.now.layout.now beside.now.table.now group.now.files }
    ensures { OnOk result (bytes.new ≡ bytes.old ++ flat_map (file_content resolved.now.layout.now role) (placed_files resolved.now.layout.now group.now)) }
{
    match role {
        Role::EhFrame => bytes.extend(beside.frames),
        Role::EhFrameHdr => add_search_table(group.files.as_slice(), beside.table, bytes),
        Role::RelaDynRelative | Role::RelaDynGeneral | Role::RelrDyn => {
            add_placed_files(alloc, resolved, role, group, bytes)
        }
        _ => add_plain(alloc, resolved, role, group.files.as_slice(), bytes),
    }
}

/// Appends the RELR words of a group's run of GOT words, and then those of the sorted input sections, if the group has the last file.
#[tactic(auto, using(crate::proofs::PlacedLemmas::words_added, crate::proofs::PlacedLemmas::words_not_last))]
fn add_group_words<A: Arch>(
    alloc: Global,
    resolved: &Resolved<A>,
    group: &Group,
    bytes: &mut PartBytes,
) -> Result<(), AllocError>
    ensures { OnOk result (bytes.new ≡ bytes.old ++ group_bytes resolved.now.layout.now RelrDyn group.now) }
{
    add_block(resolved.layout, Role::RelrDyn, group, bytes)?;
    if has_last(group) {
        add_sorted(alloc, resolved, Role::RelrDyn, bytes)?;
    }
    Ok(())
}

/// Appends to a part of that role what depends on all files of the group together.
fn add_group<A: Arch>(
    alloc: Global,
    resolved: &Resolved<A>,
    role: Role,
    group: &Group,
    bytes: &mut PartBytes,
) -> Result<(), AllocError>
    requires { NeedsFit group.now }
    ensures { OnOk result (bytes.new ≡ bytes.old ++ group_bytes resolved.now.layout.now role group.now) }
{
    match role {
        Role::Dynsym => add_group_symbols(resolved, group, bytes),
        Role::GnuVersionR => add_needs(alloc, resolved.layout, group, bytes),
        Role::Dynamic => add_group_dynamic(alloc, resolved.layout, group, bytes),
        Role::SymtabLocal => add_group_table(alloc, resolved, true, group, bytes),
        Role::SymtabGlobal => add_group_table(alloc, resolved, false, group, bytes),
        Role::RelrDyn => add_group_words(alloc, resolved, group, bytes),
        _ => add_block(resolved.layout, role, group, bytes),
    }
}

/// Appends what a group contributes to a part of that role.
pub fn add_content<A: Arch>(
    alloc: Global,
    resolved: &Resolved<A>,
    role: Role,
    group: &Group,
    beside: &FrameTables<'_>,
    bytes: &mut PartBytes,
) -> Result<(), AllocError>
    requires few { NeedsFit group.now }
    requires frames { role ≡ EhFrame → beside.now.frames.now ≡ group_frames resolved.now.layout.now group.now }
    requires table { role ≡ EhFrameHdr → HaveSearchTable resolved.now.layout.now beside.now.table.now group.now.files }
    ensures { OnOk result (bytes.new ≡ bytes.old ++ content resolved.now.layout.now role group.now) }
{
    add_files(alloc, resolved, role, group, beside, bytes)?;
    add_group(alloc, resolved, role, group, bytes)
}
