//! Splits all bytes of a group by part.
ghost use Rattle.std.specs.Prelude.{◌≡◌, ◌<◌, ◌≤◌, ◌++◌, ℕ, true, false, if◌then◌else◌, [], length, take, drop, map, All, IfOk, OnOk, slice_index_or};
ghost use Rattle.wild_types.specs.declared.file.File.{File};
ghost use Rattle.wild_types.specs.FileThunks.{thunks_of};
ghost use Rattle.wild_types.specs.Lookups.{is_header_only_part};
ghost use Rattle.wild_layout.specs.SectionPlaces.{FrontLies};
ghost use Rattle.wild_layout.specs.ThunkPlaces.{ThunkLies};
ghost use Rattle.wild_layout.specs.Thunks.{thunk_bytes, file_thunks};
ghost use Rattle.std.specs.List.{flat_map};
ghost use Rattle.wild_types.specs.FileRoles.{is_prelude, is_epilogue};
ghost use Rattle.wild_placement.specs.PlacedSections.{of_last_file};
ghost use Rattle.wild_layout.specs.Image.{unless_omitted, merged_bytes, of_first_file};
ghost use Rattle.wild_image.specs.Append.{BeginsWith, HasRest, GivesItsShares, RangedLies, SortedLies, SomeLies, MergedLies, FileLies};
ghost use Rattle.wild_image.specs.Pieces.{table_given, front_in, file_sections, sorted_owned, all_sorted, merged_and_identity_bytes, trailer_bytes, file_bytes, group_tables, group_files, in_part, sections_owned, sorted_in, all_sorted_in, merged_in, merged_and_identity_in, trailer_in, thunk_in, thunks_in, file_owned, group_owned, group_parts};

use crate::append::{merged_size, owns_range, owns_room, writes_front, written_size};
use crate::buffer::GroupBytes;
use std::alloc::{AllocError, Global};
use wild_contents::PartBytes;
use wild_placement::sorted_input;
use wild_types::{File, Group, InputSection, Layout, Merged, SortedSection, THUNK_SIZE, Thunk};
use wild_words::Items;

/// Splits the table bytes of a group, which are consecutive, by part.
fn split_tables(
    alloc: Global,
    layout: &Layout,
    group: &Group,
    bytes: &[u8],
    parts: &mut Vec<PartBytes>,
) -> Result<(), AllocError>
    requires gives { GivesItsShares layout.now group.now }
    requires own { BeginsWith (group_tables layout.now group.now) bytes.now }
    requires none { parts.old.items ≡ [] }
    ensures { OnOk result (parts.new.items ≡ map (table_given layout.now group.now) layout.now.parts) }
{
    let mut rest = bytes;
    for (i, part) in layout.parts.as_slice().iter().enumerate() {
        let (own, behind) = rest.split_at(written_size(layout, part, group, i) as usize);
        let mut piece = PartBytes::with_room(alloc, own.len())?;
        piece.extend(own)?;
        parts.push(piece)?;
        rest = behind;
    }
    Ok(())
}

/// Appends the bytes of a section, the first of `bytes`, to its part if the section has some; returns the rest.
fn split_own<'b>(
    section: &InputSection,
    owns: bool,
    bytes: &'b [u8],
    parts: &mut [PartBytes],
) -> Result<&'b [u8], AllocError>
    requires own { owns ≡ true → section.now.size ≤ length bytes.now }
    requires part { owns ≡ true → section.now.part < length parts.old }
    ensures owned { OnOk result ((k : ℕ) → k < length parts.old → slice_index_or parts.new k [] ≡ slice_index_or parts.old k [] ++ (if owns then in_part k section.now.part (take section.now.size bytes.now) else [])) }
    ensures rest { IfOk result (λ r. r.now ≡ (if owns then drop section.now.size bytes.now else bytes.now)) }
{
    if !owns {
        return Ok(bytes);
    }
    let (own, rest) = bytes.split_at(section.size as usize);
    parts[section.part].extend(own)?;
    Ok(rest)
}

/// Appends the bytes of the sections of a file to their parts; returns the rest.
fn split_sections<'b>(
    layout: &Layout,
    file: &File,
    bytes: &'b [u8],
    parts: &mut [PartBytes],
) -> Result<&'b [u8], AllocError>
    requires lies { All (RangedLies layout.now file.now) file.now.sections }
    requires room { length parts.old ≡ length layout.now.parts }
    requires own { BeginsWith (file_sections layout.now file.now) bytes.now }
    ensures owned { OnOk result ((k : ℕ) → k < length parts.old → slice_index_or parts.new k [] ≡ slice_index_or parts.old k [] ++ sections_owned layout.now k file.now) }
    ensures rest { IfOk result (λ r. HasRest (file_sections layout.now file.now) bytes.now r.now) }
{
    let mut rest = bytes;
    for section in file.sections.as_slice() {
        rest = split_own(section, owns_range(layout, section), rest, parts)?;
    }
    Ok(rest)
}

/// Appends the bytes of one sorted input section to its part; returns the rest.
fn split_sorted_section<'b>(
    layout: &Layout,
    entry: &SortedSection,
    bytes: &'b [u8],
    parts: &mut [PartBytes],
) -> Result<&'b [u8], AllocError>
    requires lies { SortedLies layout.now entry.now }
    requires room { length parts.old ≡ length layout.now.parts }
    requires own { BeginsWith (sorted_owned layout.now entry.now) bytes.now }
    ensures owned { OnOk result ((k : ℕ) → k < length parts.old → slice_index_or parts.new k [] ≡ slice_index_or parts.old k [] ++ sorted_in layout.now k entry.now) }
    ensures rest { IfOk result (λ r. HasRest (sorted_owned layout.now entry.now) bytes.now r.now) }
{
    match sorted_input(layout, *entry) {
        Some(input) => {
            let owns = owns_room(layout, input.section);
            split_own(input.section, owns, bytes, parts)
        }
        None => Ok(bytes),
    }
}

/// Appends the bytes of the sorted input sections to their parts; returns the rest.
fn split_sorted<'b>(
    layout: &Layout,
    bytes: &'b [u8],
    parts: &mut [PartBytes],
) -> Result<&'b [u8], AllocError>
    requires lies { All (SortedLies layout.now) layout.now.sorted }
    requires room { length parts.old ≡ length layout.now.parts }
    requires own { BeginsWith (all_sorted layout.now) bytes.now }
    ensures owned { OnOk result ((k : ℕ) → k < length parts.old → slice_index_or parts.new k [] ≡ slice_index_or parts.old k [] ++ all_sorted_in layout.now k) }
    ensures rest { IfOk result (λ r. HasRest (all_sorted layout.now) bytes.now r.now) }
{
    let mut rest = bytes;
    for entry in layout.sorted.as_slice() {
        rest = split_sorted_section(layout, entry, rest, parts)?;
    }
    Ok(rest)
}

/// Appends at least one byte to a part.
#[tactic(auto, using(crate::proofs::FrontLemmas::front_part))]
fn add_some(
    layout: &Layout,
    part: usize,
    own: &[u8],
    parts: &mut [PartBytes],
) -> Result<(), AllocError>
    requires lies { FrontLies layout.now part own.now }
    requires room { length parts.old ≡ length layout.now.parts }
    ensures { OnOk result ((k : ℕ) → k < length parts.old → slice_index_or parts.new k [] ≡ slice_index_or parts.old k [] ++ in_part k part own.now) }
{
    parts[part].extend(own)?;
    Ok(())
}

/// Appends bytes to a part, if there are some and the part is written.
fn add_front(
    layout: &Layout,
    part: usize,
    own: &[u8],
    parts: &mut [PartBytes],
) -> Result<(), AllocError>
    requires lies { SomeLies layout.now part own.now }
    requires room { length parts.old ≡ length layout.now.parts }
    ensures { OnOk result ((k : ℕ) → k < length parts.old → slice_index_or parts.new k [] ≡ slice_index_or parts.old k [] ++ front_in layout.now k part own.now) }
{
    if !writes_front(layout, part, own) {
        return Ok(());
    }
    add_some(layout, part, own, parts)
}

/// Appends merged strings, the first of `bytes`, to their part; returns the rest.
fn split_merged<'b>(
    layout: &Layout,
    merged: &Merged,
    bytes: &'b [u8],
    parts: &mut [PartBytes],
) -> Result<&'b [u8], AllocError>
    requires lies { MergedLies layout.now merged.now }
    requires room { length parts.old ≡ length layout.now.parts }
    requires own { BeginsWith (merged_bytes merged.now) bytes.now }
    ensures owned { OnOk result ((k : ℕ) → k < length parts.old → slice_index_or parts.new k [] ≡ slice_index_or parts.old k [] ++ merged_in layout.now k merged.now) }
    ensures rest { IfOk result (λ r. HasRest (merged_bytes merged.now) bytes.now r.now) }
{
    let (own, rest) = bytes.split_at(merged_size(merged));
    add_front(layout, merged.part, own, parts)?;
    Ok(rest)
}

/// Appends all merged strings to their parts; returns the rest.
fn split_strings<'b>(
    layout: &Layout,
    bytes: &'b [u8],
    parts: &mut [PartBytes],
) -> Result<&'b [u8], AllocError>
    requires lies { All (MergedLies layout.now) layout.now.merged }
    requires room { length parts.old ≡ length layout.now.parts }
    requires own { BeginsWith (flat_map merged_bytes layout.now.merged) bytes.now }
    ensures owned { OnOk result ((k : ℕ) → k < length parts.old → slice_index_or parts.new k [] ≡ slice_index_or parts.old k [] ++ flat_map (merged_in layout.now k) layout.now.merged) }
    ensures rest { IfOk result (λ r. HasRest (flat_map merged_bytes layout.now.merged) bytes.now r.now) }
{
    let mut rest = bytes;
    for merged in layout.merged.as_slice() {
        rest = split_merged(layout, merged, rest, parts)?;
    }
    Ok(rest)
}

/// Appends the output's identity, the first of `bytes`, to its part; returns the rest.
fn split_identity<'b>(
    layout: &Layout,
    bytes: &'b [u8],
    parts: &mut [PartBytes],
) -> Result<&'b [u8], AllocError>
    requires lies { SomeLies layout.now layout.now.identity.part layout.now.identity.bytes }
    requires room { length parts.old ≡ length layout.now.parts }
    requires own { BeginsWith layout.now.identity.bytes bytes.now }
    ensures owned { OnOk result ((k : ℕ) → k < length parts.old → slice_index_or parts.new k [] ≡ slice_index_or parts.old k [] ++ front_in layout.now k layout.now.identity.part layout.now.identity.bytes) }
    ensures rest { IfOk result (λ r. HasRest layout.now.identity.bytes bytes.now r.now) }
{
    let (own, rest) = bytes.split_at(layout.identity.bytes.len());
    add_front(layout, layout.identity.part, own, parts)?;
    Ok(rest)
}

/// Appends merged strings and the output's identity, which are written once, to their parts; returns the rest.
fn split_merged_and_identity<'b>(
    layout: &Layout,
    bytes: &'b [u8],
    parts: &mut [PartBytes],
) -> Result<&'b [u8], AllocError>
    requires merged { All (MergedLies layout.now) layout.now.merged }
    requires identity { SomeLies layout.now layout.now.identity.part layout.now.identity.bytes }
    requires room { length parts.old ≡ length layout.now.parts }
    requires own { BeginsWith (merged_and_identity_bytes layout.now) bytes.now }
    ensures owned { OnOk result ((k : ℕ) → k < length parts.old → slice_index_or parts.new k [] ≡ slice_index_or parts.old k [] ++ merged_and_identity_in layout.now k) }
    ensures rest { IfOk result (λ r. HasRest (merged_and_identity_bytes layout.now) bytes.now r.now) }
{
    let rest = split_strings(layout, bytes, parts)?;
    split_identity(layout, rest, parts)
}

/// Appends what only the last file writes to its parts; returns the rest.
fn split_last_file<'b>(
    layout: &Layout,
    file: &File,
    bytes: &'b [u8],
    parts: &mut [PartBytes],
) -> Result<&'b [u8], AllocError>
    requires lies { is_epilogue file.now.role ≡ true → All (SortedLies layout.now) layout.now.sorted }
    requires room { length parts.old ≡ length layout.now.parts }
    requires own { BeginsWith (of_last_file file.now (all_sorted layout.now)) bytes.now }
    ensures owned { OnOk result ((k : ℕ) → k < length parts.old → slice_index_or parts.new k [] ≡ slice_index_or parts.old k [] ++ of_last_file file.now (all_sorted_in layout.now k)) }
    ensures rest { IfOk result (λ r. HasRest (of_last_file file.now (all_sorted layout.now)) bytes.now r.now) }
{
    if file.role.is_epilogue() {
        return split_sorted(layout, bytes, parts);
    }
    Ok(bytes)
}

/// Appends what only the first file writes to its parts; returns the rest.
fn split_first_file<'b>(
    layout: &Layout,
    file: &File,
    bytes: &'b [u8],
    parts: &mut [PartBytes],
) -> Result<&'b [u8], AllocError>
    requires merged { is_prelude file.now.role ≡ true → All (MergedLies layout.now) layout.now.merged }
    requires identity { is_prelude file.now.role ≡ true → SomeLies layout.now layout.now.identity.part layout.now.identity.bytes }
    requires room { length parts.old ≡ length layout.now.parts }
    requires own { BeginsWith (of_first_file file.now (merged_and_identity_bytes layout.now)) bytes.now }
    ensures owned { OnOk result ((k : ℕ) → k < length parts.old → slice_index_or parts.new k [] ≡ slice_index_or parts.old k [] ++ of_first_file file.now (merged_and_identity_in layout.now k)) }
    ensures rest { IfOk result (λ r. HasRest (of_first_file file.now (merged_and_identity_bytes layout.now)) bytes.now r.now) }
{
    if file.role.is_prelude() {
        return split_merged_and_identity(layout, bytes, parts);
    }
    Ok(bytes)
}

/// Appends what only the last or only the first file writes to its parts; returns the rest.
fn split_trailer<'b>(
    layout: &Layout,
    file: &File,
    bytes: &'b [u8],
    parts: &mut [PartBytes],
) -> Result<&'b [u8], AllocError>
    requires lies { FileLies layout.now file.now }
    requires room { length parts.old ≡ length layout.now.parts }
    requires own { BeginsWith (trailer_bytes layout.now file.now) bytes.now }
    ensures owned { OnOk result ((k : ℕ) → k < length parts.old → slice_index_or parts.new k [] ≡ slice_index_or parts.old k [] ++ trailer_in layout.now k file.now) }
    ensures rest { IfOk result (λ r. HasRest (trailer_bytes layout.now file.now) bytes.now r.now) }
{
    let rest = split_last_file(layout, file, bytes, parts)?;
    split_first_file(layout, file, rest, parts)
}

/// Appends a thunk, the first of `bytes`, to the primary part; returns the rest.
fn split_thunk<'b>(
    layout: &Layout,
    thunk: &Thunk,
    bytes: &'b [u8],
    parts: &mut [PartBytes],
) -> Result<&'b [u8], AllocError>
    requires lies { ThunkLies layout.now thunk.now }
    requires room { length parts.old ≡ length layout.now.parts }
    requires own { BeginsWith (thunk_bytes layout.now thunk.now) bytes.now }
    ensures owned { OnOk result ((k : ℕ) → k < length parts.old → slice_index_or parts.new k [] ≡ slice_index_or parts.old k [] ++ thunk_in layout.now k thunk.now) }
    ensures rest { IfOk result (λ r. HasRest (thunk_bytes layout.now thunk.now) bytes.now r.now) }
{
    let (own, rest) = bytes.split_at(THUNK_SIZE as usize);
    parts[layout.primary_part].extend(own)?;
    Ok(rest)
}

/// Appends the thunks of a file to the primary part; returns the rest.
fn split_all_thunks<'b>(
    layout: &Layout,
    file: &File,
    bytes: &'b [u8],
    parts: &mut [PartBytes],
) -> Result<&'b [u8], AllocError>
    requires lies { All (ThunkLies layout.now) (thunks_of layout.now file.now) }
    requires room { length parts.old ≡ length layout.now.parts }
    requires own { BeginsWith (file_thunks layout.now file.now) bytes.now }
    ensures owned { OnOk result ((k : ℕ) → k < length parts.old → slice_index_or parts.new k [] ≡ slice_index_or parts.old k [] ++ flat_map (thunk_in layout.now k) (thunks_of layout.now file.now)) }
    ensures rest { IfOk result (λ r. HasRest (file_thunks layout.now file.now) bytes.now r.now) }
{
    let mut rest = bytes;
    for thunk in layout.thunks_of(file) {
        rest = split_thunk(layout, thunk, rest, parts)?;
    }
    Ok(rest)
}

/// Appends the thunks of a file to the primary part, unless its section is omitted; returns the rest.
fn split_thunks<'b>(
    layout: &Layout,
    file: &File,
    bytes: &'b [u8],
    parts: &mut [PartBytes],
) -> Result<&'b [u8], AllocError>
    requires lies { is_header_only_part layout.now layout.now.primary_part ≡ false → All (ThunkLies layout.now) (thunks_of layout.now file.now) }
    requires room { length parts.old ≡ length layout.now.parts }
    requires own { BeginsWith (unless_omitted layout.now layout.now.primary_part (file_thunks layout.now file.now)) bytes.now }
    ensures owned { OnOk result ((k : ℕ) → k < length parts.old → slice_index_or parts.new k [] ≡ slice_index_or parts.old k [] ++ thunks_in layout.now k file.now) }
    ensures rest { IfOk result (λ r. HasRest (unless_omitted layout.now layout.now.primary_part (file_thunks layout.now file.now)) bytes.now r.now) }
{
    if layout.is_header_only_part(layout.primary_part) {
        return Ok(bytes);
    }
    split_all_thunks(layout, file, bytes, parts)
}

/// Appends the sections of a file and its thunks to their parts; returns the rest.
fn split_file<'b>(
    layout: &Layout,
    file: &File,
    bytes: &'b [u8],
    parts: &mut [PartBytes],
) -> Result<&'b [u8], AllocError>
    requires lies { FileLies layout.now file.now }
    requires room { length parts.old ≡ length layout.now.parts }
    requires own { BeginsWith (file_bytes layout.now file.now) bytes.now }
    ensures owned { OnOk result ((k : ℕ) → k < length parts.old → slice_index_or parts.new k [] ≡ slice_index_or parts.old k [] ++ file_owned layout.now k file.now) }
    ensures rest { IfOk result (λ r. HasRest (file_bytes layout.now file.now) bytes.now r.now) }
{
    let behind = split_sections(layout, file, bytes, parts)?;
    let rest = split_trailer(layout, file, behind, parts)?;
    split_thunks(layout, file, rest, parts)
}

/// Appends the bytes of a group's files to their parts.
#[tactic(auto, unfolding(crate::specs::Pieces::group_files, crate::specs::Pieces::group_owned))]
fn split_files(
    layout: &Layout,
    group: &Group,
    bytes: &[u8],
    parts: &mut [PartBytes],
) -> Result<(), AllocError>
    requires lies { All (FileLies layout.now) group.now.files }
    requires room { length parts.old ≡ length layout.now.parts }
    requires own { BeginsWith (group_files layout.now group.now) bytes.now }
    ensures owned { OnOk result ((k : ℕ) → k < length parts.old → slice_index_or parts.new k [] ≡ slice_index_or parts.old k [] ++ group_owned layout.now k group.now) }
{
    let mut rest = bytes;
    for file in group.files.as_slice() {
        rest = split_file(layout, file, rest, parts)?;
    }
    Ok(())
}

/// Appends the bytes of a group's files to its contributions to the tables, part by part; the result is complete.
fn fill_parts(
    layout: &Layout,
    group: &Group,
    bytes: &[u8],
    parts: &mut [PartBytes],
) -> Result<(), AllocError>
    requires lies { All (FileLies layout.now) group.now.files }
    requires tables { parts.old ≡ map (table_given layout.now group.now) layout.now.parts }
    requires own { BeginsWith (group_files layout.now group.now) bytes.now }
    ensures { OnOk result (parts.new ≡ group_parts layout.now group.now) }
{
    split_files(layout, group, bytes, parts)?;
    Ok(())
}

/// Splits all bytes of a group by part.
pub(crate) fn split_by_part(
    alloc: Global,
    layout: &Layout,
    group: &Group,
    bytes: &GroupBytes,
) -> Result<Items<PartBytes>, AllocError>
    requires inputs { All (FileLies layout.now) group.now.files }
    requires gives { GivesItsShares layout.now group.now }
    requires tables { bytes.now.tables ≡ group_tables layout.now group.now }
    requires files { bytes.now.files ≡ group_files layout.now group.now }
    ensures { IfOk result (λ v. v ≡ group_parts layout.now group.now) }
{
    let mut parts = Vec::with_capacity(alloc, layout.parts.len())?;
    split_tables(alloc, layout, group, bytes.tables.as_slice(), &mut parts)?;
    fill_parts(layout, group, bytes.files.as_slice(), &mut parts)?;
    Ok(Items::from_vec(parts))
}
