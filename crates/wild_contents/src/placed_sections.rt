//! What placed sections contribute to dynamic relocation tables: `.rela.dyn` and `.relr.dyn`.
ghost use Rattle.std.specs.Prelude.{◌≡◌, ℕ, ◌++◌, true, OnOk};
ghost use Rattle.std.specs.List.{flat_map};
ghost use Rattle.wild_needs.specs.Needs.{frame_room};
ghost use Rattle.wild_types.specs.declared.file.File.{File};
ghost use Rattle.wild_placement.specs.FrameInputs.{kept_size};
ghost use Rattle.wild_placement.specs.PlacedSections.{placed_section, placed_sections, placed_file, placed_files, file_frames, address_after, sorted_sections};
ghost use Rattle.wild_layout.specs.Content.{file_part_bytes, file_content};
ghost use Rattle.wild_contents.specs.PlacedSections.{is_applied, section_given, sorted_given, copy_entries_before, entries_after};

use crate::dynamic_relocations::{add_copies, add_section_dynamic_relocations};
use crate::frame_cursor::FrameCursor;
use crate::no_entries::needs_no_entry;
use crate::part_bytes::PartBytes;
use crate::relative_entries::add_section_entries;
use crate::relr_words::add_section_words;
use crate::slots::add_slots;
use crate::tables::add_unique_table;
use std::alloc::{AllocError, Global};
use wild_placement::{FileFrames, place_input, place_sorted, sorted_input};
use wild_relax::Arch;
use wild_sections::Resolved;
use wild_types::{File, Group, InputSection, Layout, Role, SortedSection};

/// The address after a placed section's frames, which begin at `at`. Only frames take room there.
pub fn address_after_frames(at: u64, section: &InputSection) -> u64
    ensures { result ≡ address_after at (frame_room section.now) }
{
    if section.slot.is_frame() {
        at.wrapping_add(section.size)
    } else {
        at
    }
}

/// Appends what a placed section contributes to the part of that role.
fn add_placed<A: Arch>(
    alloc: Global,
    resolved: &Resolved<A>,
    role: Role,
    section: &InputSection,
    bytes: &mut PartBytes,
) -> Result<(), AllocError>
    ensures { OnOk result (bytes.new ≡ bytes.old ++ section_given role resolved.now.layout.now section.now) }
{
    match role {
        Role::RelaDynRelative => add_section_entries(resolved, section, bytes),
        Role::RelaDynGeneral => add_section_dynamic_relocations(resolved.layout, section, bytes),
        Role::RelrDyn => add_section_words(alloc, resolved.layout, section, bytes),
        _ => Ok(()),
    }
}

/// Whether a section is placed as the plan has it.
#[tactic(auto, using(crate::proofs::PlacedLemmas::placed_unchanged))]
fn is_placed_unchanged(layout: &Layout, section: &InputSection) -> bool
    ensures { result ≡ true → (f : File) (at : ℕ) → placed_section layout.now f at section.now ≡ section.now }
{
    section.slot.is_loaded() && !section.reversed && !layout.kind.is_partial_link()
}

/// Appends what a section of a file contributes to the part of that role. The file's next frames begin at the address of `cursor`.
#[tactic(auto, using(crate::proofs::NoEntryLemmas::nothing_needed, crate::proofs::PlacedLemmas::given_unchanged))]
fn add_unpassed<A: Arch>(
    alloc: Global,
    resolved: &Resolved<A>,
    role: Role,
    file: &File,
    section: &InputSection,
    cursor: &mut FrameCursor<'_>,
    bytes: &mut PartBytes,
) -> Result<(), AllocError>
    ensures bytes { OnOk result (bytes.new ≡ bytes.old ++ section_given role resolved.now.layout.now (placed_section resolved.now.layout.now file.now cursor.old section.now)) }
    ensures cursor { cursor.new ≡ cursor.old }
{
    if needs_no_entry(section) {
        return Ok(());
    }
    if is_placed_unchanged(resolved.layout, section) {
        add_placed(alloc, resolved, role, section, bytes)?;
        return Ok(());
    }
    let laid = place_input(alloc, resolved.layout, file, cursor.address(), section)?;
    add_placed(alloc, resolved, role, laid.section(), bytes)
}

/// Appends what a section of a file contributes to the part of that role, and moves `cursor` past the section.
fn add_section<'a, A: Arch>(
    alloc: Global,
    resolved: &Resolved<'a, A>,
    role: Role,
    file: &'a File,
    section: &'a InputSection,
    cursor: &mut FrameCursor<'a>,
    bytes: &mut PartBytes,
) -> Result<(), AllocError>
    ensures bytes { OnOk result (bytes.new ≡ bytes.old ++ section_given role resolved.now.layout.now (placed_section resolved.now.layout.now file.now cursor.old section.now)) }
    ensures next { OnOk result (cursor.new ≡ address_after cursor.old (kept_size resolved.now.layout.now file.now section.now)) }
{
    add_unpassed(alloc, resolved, role, file, section, cursor, bytes)?;
    cursor.pass(FileFrames {
        layout: resolved.layout,
        file,
        section,
    });
    Ok(())
}

/// Appends what the sections of a file contribute, and moves `cursor` past the file.
#[tactic(auto, using(crate::proofs::PlacedLemmas::placed_sections_more, crate::proofs::PlacedLemmas::placed_sections_done, crate::proofs::PlacedLemmas::reach_more, crate::proofs::PlacedLemmas::reach_done))]
fn add_sections<'a, A: Arch>(
    alloc: Global,
    resolved: &Resolved<'a, A>,
    role: Role,
    file: &'a File,
    cursor: &mut FrameCursor<'a>,
    bytes: &mut PartBytes,
) -> Result<(), AllocError>
    ensures bytes { OnOk result (bytes.new ≡ bytes.old ++ flat_map (section_given role resolved.now.layout.now) (placed_sections resolved.now.layout.now file.now cursor.old file.now.sections)) }
    ensures next { OnOk result (cursor.new ≡ address_after cursor.old (file_frames resolved.now.layout.now file.now)) }
{
    for section in file.sections.as_slice() {
        add_section(alloc, resolved, role, file, section, cursor, bytes)?;
    }
    cursor.fits();
    Ok(())
}

/// Appends what one sorted input section contributes.
fn add_sorted_section<A: Arch>(
    alloc: Global,
    resolved: &Resolved<A>,
    role: Role,
    entry: SortedSection,
    bytes: &mut PartBytes,
) -> Result<(), AllocError>
    ensures { OnOk result (bytes.new ≡ bytes.old ++ sorted_given role resolved.now.layout.now entry) }
{
    match sorted_input(resolved.layout, entry) {
        Some(input) => {
            let laid = place_sorted(alloc, resolved.layout, input.section)?;
            add_placed(alloc, resolved, role, laid.section(), bytes)
        }
        None => Ok(()),
    }
}

/// Appends what the sorted input sections contribute.
#[tactic(auto, using(crate::proofs::PlacedLemmas::sorted_joined))]
pub(crate) fn add_sorted<A: Arch>(
    alloc: Global,
    resolved: &Resolved<A>,
    role: Role,
    bytes: &mut PartBytes,
) -> Result<(), AllocError>
    ensures { OnOk result (bytes.new ≡ bytes.old ++ flat_map (section_given role resolved.now.layout.now) (sorted_sections resolved.now.layout.now)) }
{
    for entry in resolved.layout.sorted.as_slice() {
        add_sorted_section(alloc, resolved, role, *entry, bytes)?;
    }
    Ok(())
}

/// Appends a file's entries that come before those of its sections: the COPY relocations of its copied symbols.
fn add_entries_before<A: Arch>(
    resolved: &Resolved<A>,
    role: Role,
    file: &File,
    bytes: &mut PartBytes,
) -> Result<(), AllocError>
    ensures { OnOk result (bytes.new ≡ bytes.old ++ copy_entries_before role resolved.now.layout.now file.now) }
{
    match role {
        Role::RelaDynGeneral => add_copies(resolved, file, bytes),
        _ => Ok(()),
    }
}

/// Appends a file's entries that come after those of its sections: those of the sorted input sections, for the last file.
fn add_entries_after<A: Arch>(
    alloc: Global,
    resolved: &Resolved<A>,
    role: Role,
    file: &File,
    bytes: &mut PartBytes,
) -> Result<(), AllocError>
    ensures { OnOk result (bytes.new ≡ bytes.old ++ entries_after role resolved.now.layout.now file.now) }
{
    match role {
        Role::RelaDynRelative | Role::RelaDynGeneral if file.role.is_epilogue() => {
            add_sorted(alloc, resolved, role, bytes)
        }
        _ => Ok(()),
    }
}

/// Appends the dynamic relocations of a file's sections and copied symbols, and moves `cursor` past the file.
#[tactic(auto, using(crate::proofs::PlacedLemmas::own_joined))]
fn add_placed_file<'a, A: Arch>(
    alloc: Global,
    resolved: &Resolved<'a, A>,
    role: Role,
    file: &'a File,
    cursor: &mut FrameCursor<'a>,
    bytes: &mut PartBytes,
) -> Result<(), AllocError>
    requires { is_applied role ≡ true }
    ensures bytes { OnOk result (bytes.new ≡ bytes.old ++ file_part_bytes resolved.now.layout.now role (placed_file resolved.now.layout.now cursor.old file.now)) }
    ensures next { OnOk result (cursor.new ≡ address_after cursor.old (file_frames resolved.now.layout.now file.now)) }
{
    add_entries_before(resolved, role, file, bytes)?;
    add_sections(alloc, resolved, role, file, cursor, bytes)?;
    add_entries_after(alloc, resolved, role, file, bytes)
}

/// Appends all that a file contributes to such a part, and moves `cursor` past the file.
#[tactic(auto, using(crate::proofs::PlacedLemmas::file_given))]
fn add_file_relocations<'a, A: Arch>(
    alloc: Global,
    resolved: &Resolved<'a, A>,
    role: Role,
    file: &'a File,
    cursor: &mut FrameCursor<'a>,
    bytes: &mut PartBytes,
) -> Result<(), AllocError>
    requires { is_applied role ≡ true }
    ensures bytes { OnOk result (bytes.new ≡ bytes.old ++ file_content resolved.now.layout.now role (placed_file resolved.now.layout.now cursor.old file.now)) }
    ensures next { OnOk result (cursor.new ≡ address_after cursor.old (file_frames resolved.now.layout.now file.now)) }
{
    add_unique_table(alloc, resolved, role, file, bytes)?;
    add_placed_file(alloc, resolved, role, file, cursor, bytes)?;
    add_slots(resolved.layout, role, file, bytes)
}

/// Appends what the files of a group contribute to the part of that role, a table of dynamic relocations.
#[tactic(auto, using(crate::proofs::PlacedLemmas::files_more, crate::proofs::PlacedLemmas::files_done), unfolding(wild_placement::specs::PlacedSections::placed_files))]
pub(crate) fn add_placed_files<'a, A: Arch>(
    alloc: Global,
    resolved: &Resolved<'a, A>,
    role: Role,
    group: &'a Group,
    bytes: &mut PartBytes,
) -> Result<(), AllocError>
    requires { is_applied role ≡ true }
    ensures { OnOk result (bytes.new ≡ bytes.old ++ flat_map (file_content resolved.now.layout.now role) (placed_files resolved.now.layout.now group.now)) }
{
    let mut cursor = FrameCursor::new(resolved.layout, group);
    for file in group.files.as_slice() {
        add_file_relocations(alloc, resolved, role, file, &mut cursor, bytes)?;
    }
    Ok(())
}
