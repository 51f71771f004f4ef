//! The entries of a group in the dynamic section (gABI, "Dynamic Section"): DT_NEEDED for its libraries, and all other entries for the
//! group of the last file.
ghost use Rattle.std.specs.Prelude.{◌≡◌, ◌++◌, Some, OnOk};
ghost use Rattle.wild_needs.specs.DynamicStrings.{needed_of, needed_entries, needed_count};
ghost use Rattle.wild_types.specs.declared.file.File.{File};
ghost use Rattle.wild_types.specs.Lists.{total};
ghost use Rattle.wild_table_formats.specs.DynamicSection.{entries_bytes, dynamic_bytes};
ghost use Rattle.wild_layout.specs.Content.{last_file_room, dynamic_room, dynamic_of};

use crate::part_bytes::PartBytes;
use std::alloc::{AllocError, Global};
use wild_needs::{dynamic_count, has_last, needed_count, next_dynstr};
use wild_records::DynamicEntry;
use wild_records::abi::dynamic::DT_NEEDED;
use wild_tables::write_dynamic;
use wild_types::{File, Group, Layout, Role, share_of};

/// Appends the DT_NEEDED entry of a library whose name is at an offset of the string table.
fn add_library(file: &File, at: u64, bytes: &mut PartBytes) -> Result<(), AllocError>
    ensures { OnOk result (bytes.new ≡ bytes.old ++ entries_bytes (needed_of at file.now)) }
{
    if file.role.is_library() {
        let entry = DynamicEntry {
            tag: DT_NEEDED,
            value: at,
        };
        let mut room = [0; DynamicEntry::SIZE];
        entry.put(&mut room);
        bytes.extend(&room)?;
    }
    Ok(())
}

/// Appends the DT_NEEDED entries of a group's libraries, each with the offset of its name in the string table.
#[tactic(auto, unfolding(wild_needs::specs::DynamicStrings::needed_entries))]
fn add_libraries(layout: &Layout, group: &Group, bytes: &mut PartBytes) -> Result<(), AllocError>
    ensures { OnOk result (bytes.new ≡ bytes.old ++ entries_bytes (needed_entries layout.now group.now)) }
{
    if !layout.kind.needs_dynamic() {
        return Ok(());
    }
    let mut at = group.dynstr_start;
    for file in group.files.as_slice() {
        add_library(file, at, bytes)?;
        at = next_dynstr(layout, at, file);
    }
    Ok(())
}

/// The number of DT_NEEDED entries of some files.
fn needed_of_files(layout: &Layout, files: &[File]) -> usize
    ensures { result ≡ total (needed_count layout.now) files.now }
{
    let mut count = 0;
    for file in files {
        count += needed_count(layout, file);
    }
    count
}

/// The size of the last file's room in the dynamic section, if that file is in this group.
#[tactic(auto, using(wild_needs::proofs::DynamicLemmas::length_needed_entries))]
fn last_file_room(layout: &Layout, group: &Group) -> u64
    ensures { result ≡ last_file_room layout.now (Some group.now) }
{
    let needed = needed_of_files(layout, group.files.as_slice()) as u64;
    let last = layout.groups.len().saturating_sub(1);
    share_of(layout, last, Role::Dynamic).saturating_sub(needed.saturating_mul(
        DynamicEntry::SIZE as u64,
    ))
}

/// The size of the last file's room in the dynamic section, in bytes.
fn dynamic_room(layout: &Layout) -> u64
    ensures { result ≡ dynamic_room layout.now }
{
    let groups = layout.groups.as_slice();
    match groups.get(groups.len().saturating_sub(1)) {
        Some(group) => last_file_room(layout, group),
        None => 0,
    }
}

/// Appends the entries of the last file, in its room. The room is large enough if the shares are correct.
#[tactic(auto, using(crate::proofs::DynamicLemmas::dynamic_by))]
fn add_last(alloc: Global, layout: &Layout, bytes: &mut PartBytes) -> Result<(), AllocError>
    ensures { OnOk result (bytes.new ≡ bytes.old ++ dynamic_bytes layout.now (dynamic_room layout.now)) }
{
    let needed = dynamic_count(layout).saturating_mul(DynamicEntry::SIZE);
    let size = needed.max(dynamic_room(layout) as usize);
    let mut room = vec![in alloc; 0u8; size]?;
    write_dynamic(layout, &mut room);
    bytes.extend(&room)
}

/// Appends the entries of a group.
#[tactic(auto, using(crate::proofs::DynamicLemmas::group_joined, crate::proofs::DynamicLemmas::group_without))]
pub(crate) fn add_group_dynamic(
    alloc: Global,
    layout: &Layout,
    group: &Group,
    bytes: &mut PartBytes,
) -> Result<(), AllocError>
    ensures { OnOk result (bytes.new ≡ bytes.old ++ dynamic_of layout.now group.now) }
{
    add_libraries(layout, group, bytes)?;
    if has_last(group) {
        add_last(alloc, layout, bytes)?;
    }
    Ok(())
}
