//! All bytes of a group: what it contributes to the tables, part by part, and its input sections and thunks in the order of
//! processing.
ghost use Rattle.std.specs.Prelude.{◌≡◌, ◌&&◌, ◌+◌, ◌<◌, ◌^◌, ◌++◌, [], true, false, List, ℕ, length, replicate, Some, slice_get, option_to_list, IfOk, OnOk, All};
ghost use Rattle.std.specs.List.{flat_map};
ghost use Rattle.wild_types.specs.FileRoles.{is_epilogue};
ghost use Rattle.wild_types.specs.Faults.{Answers};
ghost use Rattle.wild_types.specs.FilePlaces.{given};
ghost use Rattle.wild_types.specs.Lists.{total};
ghost use Rattle.wild_types.specs.declared.file.File.{File};
ghost use Rattle.wild_types.specs.declared.part.Role.TheVariants.{EhFrame, EhFrameHdr};
ghost use Rattle.wild_types.specs.HeaderOnly.{is_header_only_role, is_omitted};
ghost use Rattle.wild_types.specs.Lookups.{has_range_bytes, is_read, is_frame, is_debug, is_rela};
ghost use Rattle.wild_layout.specs.Sites.{section_bytes};
ghost use Rattle.wild_placement.specs.FrameInputs.{kept_size};
ghost use Rattle.wild_placement.specs.PlacedSections.{placed_section, placed_sections, placed_file, file_frames, frames_at, address_after, of_last_file};
ghost use Rattle.wild_layout.specs.Faults.{section_errors, sections_errors, sorted_errors, first_errors, file_errors, files_errors, group_errors};
ghost use Rattle.wild_layout.specs.Content.{frame_bytes_of, end_of_frames, frames_bytes};
ghost use Rattle.wild_layout.specs.Image.{of_first_file};
ghost use Rattle.wild_layout.specs.SectionPlaces.{SectionLies};
ghost use Rattle.wild_contents.specs.VersionCounts.{NeedsFit};
ghost use Rattle.wild_contents.specs.PlacedSections.{group_frames, HaveSearchTable};
ghost use Rattle.wild_contents.specs.SearchTable.{IsTableFor, IsSearchTable};
ghost use Rattle.wild_image.specs.Append.{GivesItsShares, HasRolesOnce, CanBeReversed, IsOfKind, SortedStands, FileStands, GroupStands};
ghost use Rattle.wild_image.specs.LayoutFacts.{AreFactsOf, GiveNothing};
ghost use Rattle.wild_image.specs.Pieces.{table_given, written, section_owned, sorted_owned, all_sorted, merged_and_identity_bytes, file_bytes, group_files, group_tables};
ghost use Rattle.wild_image.specs.Placed.{kept_section_faults, placed_section_faults, PlacedApart, HasOrigins, IsRelaOrGroup, IsWhole, zeros_of, is_written_unchanged, unchanged_errors, unchanged_bytes, file_trailer_errors, file_trailer_bytes, is_plain_object};
ghost use Rattle.wild_image.specs.Batches.{HasBatch, IsWithin, batch_errors};

use crate::append::written_size;
use crate::batch::Batch;
use crate::layout_facts::LayoutFacts;
use std::alloc::{AllocError, Global};
use wild_contents::{
    FrameTables, PartBytes, SearchTable, add_content, add_thunks, address_after_frames,
    check_entries, check_symbol_tables,
};
use wild_debug::{DebugWriter, Workers};
use wild_placement::{PlacedInput, place_input, place_sorted, sorted_input};
use wild_relax::Arch;
use wild_sections::{InputPlace, Origin, Resolved, write_data};
use wild_types::{
    Error, File, FileRole, Group, InputSection, Layout, Part, Role, Slot, SortedSection, has_role,
};
use wild_words::Bytes;

/// All bytes that some groups contribute to an image.
#[derive(Drop)]
pub(crate) struct GroupBytes {
    /// Their contributions to the tables, part by part.
    pub(crate) tables: PartBytes,
    /// The bytes of their files.
    pub(crate) files: PartBytes,
    /// The frames (CIEs and FDEs) of the last group.
    pub(crate) frames: PartBytes,
}

/// Appends what a group contributes to part i, unless the part's section is omitted. Computes nothing if the
/// group writes nothing there.
fn add_table<A: Arch>(
    alloc: Global,
    resolved: &Resolved<A>,
    group: &Group,
    i: usize,
    part: &Part,
    beside: &FrameTables<'_>,
    bytes: &mut PartBytes,
) -> Result<(), AllocError>
    requires part { slice_get resolved.now.layout.now.parts i ≡ Some part.now }
    requires gives { GivesItsShares resolved.now.layout.now group.now }
    requires few { NeedsFit group.now }
    requires once { HasRolesOnce resolved.now.layout.now }
    requires frames { is_header_only_role resolved.now.layout.now EhFrame ≡ false → beside.now.frames.now ≡ group_frames resolved.now.layout.now group.now }
    requires table { is_header_only_role resolved.now.layout.now EhFrameHdr ≡ false → HaveSearchTable resolved.now.layout.now beside.now.table.now group.now.files }
    ensures { OnOk result (bytes.new ≡ bytes.old ++ table_given resolved.now.layout.now group.now part.now) }
{
    if written_size(resolved.layout, part, group, i) == 0 {
        return Ok(());
    }
    add_content(alloc, resolved, part.role, group, beside, bytes)
}

/// Appends what a group contributes to the tables, part by part.
fn add_group_tables<A: Arch>(
    alloc: Global,
    resolved: &Resolved<A>,
    group: &Group,
    beside: &FrameTables<'_>,
    bytes: &mut PartBytes,
) -> Result<(), AllocError>
    requires gives { GivesItsShares resolved.now.layout.now group.now }
    requires few { NeedsFit group.now }
    requires once { HasRolesOnce resolved.now.layout.now }
    requires frames { is_header_only_role resolved.now.layout.now EhFrame ≡ false → beside.now.frames.now ≡ group_frames resolved.now.layout.now group.now }
    requires table { is_header_only_role resolved.now.layout.now EhFrameHdr ≡ false → HaveSearchTable resolved.now.layout.now beside.now.table.now group.now.files }
    ensures { OnOk result (bytes.new ≡ bytes.old ++ group_tables resolved.now.layout.now group.now) }
{
    for (i, part) in resolved.layout.parts.as_slice().iter().enumerate() {
        add_table(alloc, resolved, group, i, part, beside, bytes)?;
    }
    Ok(())
}

/// Where in the input the relocations of a placed section are, for error messages.
fn origin_of<'a>(place: InputPlace, placed_input: &'a PlacedInput<'_>) -> Origin<'a>
    ensures place { result.place ≡ place }
    ensures relocations { result.relocations.now ≡ placed_input.now.origins }
    ensures ending { option_to_list result.ending ≡ placed_input.now.faults }
{
    Origin {
        place,
        relocations: placed_input.origins(),
        ending: placed_input.fault(),
    }
}

/// Checks the relocations of a loaded section that is empty, and writes nothing; returns their first fault.
#[tactic(auto, unfolding(crate::specs::Placed::kept_section_faults))]
fn check_data<A: Arch>(
    alloc: Global,
    resolved: &Resolved<A>,
    place: InputPlace,
    file: &File,
    placed_input: &PlacedInput<'_>,
) -> Result<(), Error>
    requires read { is_read placed_input.now.section ≡ true }
    requires moves { PlacedApart resolved.now.layout.now file.now placed_input.now }
    requires none { has_range_bytes resolved.now.layout.now placed_input.now.section ≡ false }
    requires loaded { is_frame placed_input.now.section.slot ≡ false }
    requires lies { SectionLies resolved.now.layout.now placed_input.now.section }
    ensures faults { Answers result (kept_section_faults resolved.now.layout.now place.group place.file place.section file.now placed_input.now) }
{
    let mut room = [0; 0];
    let item = placed_input.section().item(resolved.layout, file);
    write_data(
        alloc,
        resolved,
        &origin_of(place, placed_input),
        &item,
        &mut room,
    )
}

/// A vector of `count` zeros.
fn zeros(alloc: Global, count: usize) -> Result<Vec<u8>, AllocError>
    ensures { IfOk result (λ v. v.items ≡ replicate count 0) }
{
    Ok(vec![in alloc; 0u8; count]?)
}

/// Appends as many zeros as a section has bytes, if it has bytes in the image.
fn add_zeros(
    alloc: Global,
    layout: &Layout,
    section: &InputSection,
    bytes: &mut PartBytes,
) -> Result<(), AllocError>
    ensures { OnOk result (bytes.new ≡ bytes.old ++ zeros_of layout.now section.now) }
{
    if section.is_filled(layout) {
        let zeros = zeros(alloc, section.size as usize)?;
        bytes.extend(&zeros)?;
    }
    Ok(())
}

/// Appends the bytes of a placed section with data: to the file's sections, or to its frames. Fails with the section's first
/// fault.
#[tactic(auto, using(crate::proofs::PlacedLemmas::frames_own_none), unfolding(crate::specs::Placed::kept_section_faults, wild_layout::specs::Sites::section_bytes, wild_layout::specs::Content::frame_bytes_of))]
fn add_read<A: Arch>(
    alloc: Global,
    resolved: &Resolved<A>,
    place: InputPlace,
    file: &File,
    placed_input: &PlacedInput<'_>,
    bytes: &mut GroupBytes,
) -> Result<(), Error>
    requires read { is_read placed_input.now.section ≡ true }
    requires moves { PlacedApart resolved.now.layout.now file.now placed_input.now }
    requires written { is_omitted resolved.now.layout.now placed_input.now.section ≡ false }
    requires lies { SectionLies resolved.now.layout.now placed_input.now.section }
    ensures faults { Answers result (kept_section_faults resolved.now.layout.now place.group place.file place.section file.now placed_input.now) }
    ensures files { OnOk result (bytes.new.files ≡ bytes.old.files ++ section_owned resolved.now.layout.now file.now placed_input.now.section) }
    ensures frames { OnOk result (bytes.new.frames ≡ bytes.old.frames ++ frame_bytes_of resolved.now.layout.now file.now placed_input.now.section) }
    ensures tables { bytes.new.tables ≡ bytes.old.tables }
{
    let section = placed_input.section();
    let item = section.item(resolved.layout, file);
    let origin = origin_of(place, placed_input);
    if section.slot.is_frame() {
        return bytes.frames.add_data(alloc, resolved, &origin, &item);
    }
    if section.is_filled(resolved.layout) {
        return bytes.files.add_data(alloc, resolved, &origin, &item);
    }
    check_data(alloc, resolved, place, file, placed_input)
}

/// Appends a placed debug section to `bytes`, or returns its first fault.
#[tactic(auto, using(crate::proofs::RelaOrGroupLemmas::debug_answers, crate::proofs::RelaOrGroupLemmas::debug_added))]
fn add_debug<A: Arch, E: DebugWriter<A>>(
    by: &Workers<E>,
    resolved: &Resolved<A>,
    place: InputPlace,
    placed_input: &PlacedInput<'_>,
    bytes: &mut PartBytes,
) -> Result<(), Error>
    requires ready { E.ready by.now.executor.now }
    requires debug { is_debug placed_input.now.section.slot ≡ true }
    requires written { is_omitted resolved.now.layout.now placed_input.now.section ≡ false }
    requires whole { placed_input.now.section.nobits ≡ false }
    requires origins { HasOrigins placed_input.now }
    requires lies { SectionLies resolved.now.layout.now placed_input.now.section }
    ensures faults { (f : File) → Answers result (kept_section_faults resolved.now.layout.now place.group place.file place.section f placed_input.now) }
    ensures bytes { OnOk result ((f : File) → bytes.new ≡ bytes.old ++ section_owned resolved.now.layout.now f placed_input.now.section) }
{
    bytes.add_debug(
        by,
        resolved,
        &origin_of(place, placed_input),
        placed_input.section(),
    )
}

/// Whether a section is a relocation table.
fn is_rela(slot: Slot) -> bool
    ensures { result ≡ is_rela slot }
{
    matches!(slot, Slot::Rela)
}

/// Appends the bytes computed for a relocation table or section group, as placed, which has bytes in the image.
#[tactic(auto, using(crate::proofs::RelaOrGroupLemmas::rela_size, crate::proofs::RelaOrGroupLemmas::group_size, crate::proofs::RelaOrGroupLemmas::rela_added, crate::proofs::RelaOrGroupLemmas::group_added))]
fn add_rela_or_group<A: Arch>(
    alloc: Global,
    resolved: &Resolved<A>,
    section: &InputSection,
    bytes: &mut PartBytes,
) -> Result<(), AllocError>
    requires made { IsRelaOrGroup resolved.now.layout.now section.now }
    requires kind { IsOfKind resolved.now.layout.now section.now }
    requires long { (f : File) × (length (section_bytes resolved.now.layout.now f section.now) ≡ section.now.size) }
    ensures { OnOk result ((f : File) → bytes.new ≡ bytes.old ++ section_owned resolved.now.layout.now f section.now) }
{
    if is_rela(section.slot) {
        bytes.add_rela(alloc, resolved, section)
    } else {
        bytes.add_group(alloc, section)
    }
}

/// Appends a placed section that is not loaded to `bytes`, or returns its first fault: a debug section, a relocation table or a
/// section group.
#[tactic(auto, using(crate::proofs::RelaOrGroupLemmas::no_faults, crate::proofs::RelaOrGroupLemmas::nothing_added))]
fn add_unread<A: Arch, E: DebugWriter<A>>(
    by: &Workers<E>,
    resolved: &Resolved<A>,
    place: InputPlace,
    file: &File,
    placed_input: &PlacedInput<'_>,
    bytes: &mut PartBytes,
) -> Result<(), Error>
    requires ready { E.ready by.now.executor.now }
    requires unread { is_read placed_input.now.section ≡ false }
    requires written { is_omitted resolved.now.layout.now placed_input.now.section ≡ false }
    requires whole { placed_input.now.section.nobits ≡ false }
    requires kind { IsOfKind resolved.now.layout.now placed_input.now.section }
    requires origins { HasOrigins placed_input.now }
    requires lies { SectionLies resolved.now.layout.now placed_input.now.section }
    ensures faults { Answers result (kept_section_faults resolved.now.layout.now place.group place.file place.section file.now placed_input.now) }
    ensures bytes { OnOk result (bytes.new ≡ bytes.old ++ section_owned resolved.now.layout.now file.now placed_input.now.section) }
{
    let section = placed_input.section();
    if section.slot.is_debug() {
        return add_debug(by, resolved, place, placed_input, bytes);
    }
    if section.is_filled(resolved.layout) {
        add_rela_or_group(by.alloc, resolved, section, bytes)?;
    }
    Ok(())
}

/// Appends the bytes of a placed section of the file, or returns its first fault; appends nothing if it is omitted.
#[tactic(auto, using(crate::proofs::PlacedLemmas::zeros_owned), unfolding(crate::specs::Placed::kept_section_faults, crate::specs::Placed::placed_section_faults))]
fn add_placed<A: Arch, E: DebugWriter<A>>(
    by: &Workers<E>,
    resolved: &Resolved<A>,
    place: InputPlace,
    file: &File,
    placed_input: &PlacedInput<'_>,
    bytes: &mut GroupBytes,
) -> Result<(), Error>
    requires ready { E.ready by.now.executor.now }
    requires whole { IsWhole placed_input.now.section }
    requires moves { is_read placed_input.now.section ≡ true → PlacedApart resolved.now.layout.now file.now placed_input.now }
    requires kind { IsOfKind resolved.now.layout.now placed_input.now.section }
    requires origins { HasOrigins placed_input.now }
    requires lies { SectionLies resolved.now.layout.now placed_input.now.section }
    ensures faults { Answers result (placed_section_faults resolved.now.layout.now place.group place.file place.section file.now placed_input.now) }
    ensures files { OnOk result (bytes.new.files ≡ bytes.old.files ++ section_owned resolved.now.layout.now file.now placed_input.now.section) }
    ensures frames { OnOk result (is_header_only_role resolved.now.layout.now EhFrame ≡ false → bytes.new.frames ≡ bytes.old.frames ++ frame_bytes_of resolved.now.layout.now file.now placed_input.now.section) }
    ensures plain { OnOk result (is_frame placed_input.now.section.slot ≡ false → bytes.new.frames ≡ bytes.old.frames) }
    ensures tables { bytes.new.tables ≡ bytes.old.tables }
{
    let section = placed_input.section();
    if section.is_omitted(resolved.layout) {
        return Ok(());
    }
    if section.is_read() {
        return add_read(by.alloc, resolved, place, file, placed_input, bytes);
    }
    if section.nobits {
        return Ok(add_zeros(by.alloc, resolved.layout, section, &mut bytes.files)?);
    }
    add_unread(by, resolved, place, file, placed_input, &mut bytes.files)
}

/// Whether a section is loaded and has the plan's bytes, unchanged except for its relocations.
#[tactic(auto, unfolding(crate::specs::Placed::is_written_unchanged))]
fn is_written_unchanged(layout: &Layout, section: &InputSection) -> bool
    ensures { result ≡ is_written_unchanged layout.now section.now }
{
    section.slot.is_loaded()
        && !section.nobits
        && !section.reversed
        && !layout.kind.is_partial_link()
        && section.bytes.len() != 0
        && !layout.is_header_only_part(section.part)
}

/// Appends an input section whose bytes are the plan's with its relocations applied: it is not reversed, and nothing is dropped or
/// generated. Or returns its first fault.
fn add_unchanged<A: Arch>(
    alloc: Global,
    resolved: &Resolved<A>,
    place: InputPlace,
    file: &File,
    section: &InputSection,
    bytes: &mut PartBytes,
) -> Result<(), Error>
    requires so { is_written_unchanged resolved.now.layout.now section.now ≡ true }
    requires lies { SectionLies resolved.now.layout.now section.now }
    ensures faults { Answers result (unchanged_errors resolved.now.layout.now place.group place.file place.section file.now section.now) }
    ensures bytes { OnOk result (bytes.new ≡ bytes.old ++ unchanged_bytes resolved.now.layout.now file.now section.now) }
{
    let origin = Origin {
        place,
        relocations: section.relocations.as_slice(),
        ending: None,
    };
    bytes.add_data(
        alloc,
        resolved,
        &origin,
        &section.item(resolved.layout, file),
    )
}

/// Places a section of the file and appends its bytes, or returns its first fault. The file's next frames begin at address `at`;
/// returns the address after this section's frames.
#[inline(never)]
#[tactic(auto, using(crate::proofs::PlacedLemmas::section_placed, crate::proofs::PlacedLemmas::placed_section_whole, crate::proofs::PlacedLemmas::placed_content_apart, wild_contents::proofs::PlacedLemmas::room_of_placed))]
fn add_section<A: Arch, E: DebugWriter<A>>(
    by: &Workers<E>,
    resolved: &Resolved<A>,
    place: InputPlace,
    file: &File,
    at: u64,
    section: &InputSection,
    bytes: &mut GroupBytes,
) -> Result<u64, Error>
    requires ready { E.ready by.now.executor.now }
    requires lies { SectionLies resolved.now.layout.now (placed_section resolved.now.layout.now file.now at section.now) }
    requires reversed_section { CanBeReversed resolved.now.layout.now section.now }
    requires kind { IsOfKind resolved.now.layout.now section.now }
    ensures faults { Answers result (section_errors resolved.now.layout.now place.group place.file file.now at place.section section.now) }
    ensures next { IfOk result (λ n. n ≡ address_after at (kept_size resolved.now.layout.now file.now section.now)) }
    ensures files { OnOk result (bytes.new.files ≡ bytes.old.files ++ section_owned resolved.now.layout.now file.now (placed_section resolved.now.layout.now file.now at section.now)) }
    ensures frames { OnOk result (is_header_only_role resolved.now.layout.now EhFrame ≡ false → bytes.new.frames ≡ bytes.old.frames ++ frame_bytes_of resolved.now.layout.now file.now (placed_section resolved.now.layout.now file.now at section.now)) }
    ensures tables { bytes.new.tables ≡ bytes.old.tables }
{
    let placed_input = place_input(by.alloc, resolved.layout, file, at, section)?;
    add_placed(by, resolved, place, file, &placed_input, bytes)?;
    Ok(address_after_frames(at, placed_input.section()))
}

/// Appends the sections of a file, whose frames begin at address `at`, or returns their first fault. Returns the address after its
/// frames. A section that only has its relocations applied needs no placing.
#[tactic(auto, using(crate::proofs::PlacedLemmas::faults_refuse, crate::proofs::PlacedLemmas::faults_done, crate::proofs::PlacedLemmas::given_done, wild_contents::proofs::PlacedLemmas::reach_done))]
fn add_file_sections<A: Arch, E: DebugWriter<A>>(
    by: &Workers<E>,
    resolved: &Resolved<A>,
    place: InputPlace,
    file: &File,
    at: u64,
    bytes: &mut GroupBytes,
) -> Result<u64, Error>
    requires ready { E.ready by.now.executor.now }
    requires lies { All (SectionLies resolved.now.layout.now) (placed_sections resolved.now.layout.now file.now at file.now.sections) }
    requires reversed_section { All (CanBeReversed resolved.now.layout.now) file.now.sections }
    requires kinds { All (IsOfKind resolved.now.layout.now) file.now.sections }
    ensures faults { Answers result (sections_errors resolved.now.layout.now place.group place.file file.now at 0 file.now.sections) }
    ensures next { IfOk result (λ n. n ≡ address_after at (file_frames resolved.now.layout.now file.now)) }
    ensures files { OnOk result (bytes.new.files ≡ bytes.old.files ++ flat_map (section_owned resolved.now.layout.now file.now) (placed_sections resolved.now.layout.now file.now at file.now.sections)) }
    ensures frames { OnOk result (is_header_only_role resolved.now.layout.now EhFrame ≡ false → bytes.new.frames ≡ bytes.old.frames ++ flat_map (frame_bytes_of resolved.now.layout.now file.now) (placed_sections resolved.now.layout.now file.now at file.now.sections)) }
    ensures tables { bytes.new.tables ≡ bytes.old.tables }
{
    let mut next = at;
    for (i, section) in file.sections.as_slice().iter().enumerate() {
        let here = InputPlace {
            section: i,
            ..place
        };
        if is_written_unchanged(resolved.layout, section) {
            add_unchanged(by.alloc, resolved, here, file, section, &mut bytes.files)?;
        } else {
            next = add_section(by, resolved, here, file, next, section, bytes)?;
        }
    }
    Ok(next)
}

/// Appends the input section that an entry of the sort order names, or returns its first fault, which names the section's own place in
/// the input. An entry that names no section adds nothing.
#[tactic(auto, using(crate::proofs::PlacedLemmas::sorted_stood, crate::proofs::StandingLemmas::one_owned))]
fn add_sorted_section<A: Arch, E: DebugWriter<A>>(
    by: &Workers<E>,
    resolved: &Resolved<A>,
    entry: &SortedSection,
    bytes: &mut GroupBytes,
) -> Result<(), Error>
    requires ready { E.ready by.now.executor.now }
    requires stands { SortedStands resolved.now.layout.now entry.now }
    ensures faults { Answers result (sorted_errors resolved.now.layout.now entry.now) }
    ensures files { OnOk result (bytes.new.files ≡ bytes.old.files ++ sorted_owned resolved.now.layout.now entry.now) }
    ensures frames { OnOk result (bytes.new.frames ≡ bytes.old.frames) }
    ensures tables { bytes.new.tables ≡ bytes.old.tables }
{
    let place = InputPlace {
        group: entry.group,
        file: entry.file,
        section: entry.section,
    };
    match sorted_input(resolved.layout, *entry) {
        Some(input) => {
            let placed_input = place_sorted(by.alloc, resolved.layout, input.section)?;
            add_placed(by, resolved, place, input.file, &placed_input, bytes)
        }
        None => Ok(()),
    }
}

/// Appends the sorted input sections, or returns their first fault.
#[tactic(auto, using(wild_sections::proofs::FaultLemmas::first_faults))]
fn add_sorted<A: Arch, E: DebugWriter<A>>(
    by: &Workers<E>,
    resolved: &Resolved<A>,
    bytes: &mut GroupBytes,
) -> Result<(), Error>
    requires ready { E.ready by.now.executor.now }
    requires stands { All (SortedStands resolved.now.layout.now) resolved.now.layout.now.sorted }
    ensures faults { Answers result (flat_map (sorted_errors resolved.now.layout.now) resolved.now.layout.now.sorted) }
    ensures files { OnOk result (bytes.new.files ≡ bytes.old.files ++ all_sorted resolved.now.layout.now) }
    ensures frames { OnOk result (bytes.new.frames ≡ bytes.old.frames) }
    ensures tables { bytes.new.tables ≡ bytes.old.tables }
{
    for entry in resolved.layout.sorted.as_slice() {
        add_sorted_section(by, resolved, entry, bytes)?;
    }
    Ok(())
}

/// Appends the terminator of the output's frames.
fn add_end(layout: &Layout, frames: &mut PartBytes) -> Result<(), AllocError>
    ensures { OnOk result (frames.new ≡ frames.old ++ end_of_frames layout.now) }
{
    if layout.options.terminator {
        frames.end_frames()?;
    }
    Ok(())
}

/// Appends what only the last file writes: the sorted input sections, and the terminator of the frames.
fn add_last<A: Arch, E: DebugWriter<A>>(
    by: &Workers<E>,
    resolved: &Resolved<A>,
    file: &File,
    bytes: &mut GroupBytes,
) -> Result<(), Error>
    requires ready { E.ready by.now.executor.now }
    requires stands { is_epilogue file.now.role ≡ true → All (SortedStands resolved.now.layout.now) resolved.now.layout.now.sorted }
    ensures faults { Answers result (of_last_file file.now (flat_map (sorted_errors resolved.now.layout.now) resolved.now.layout.now.sorted)) }
    ensures files { OnOk result (bytes.new.files ≡ bytes.old.files ++ of_last_file file.now (all_sorted resolved.now.layout.now)) }
    ensures frames { OnOk result (bytes.new.frames ≡ bytes.old.frames ++ of_last_file file.now (end_of_frames resolved.now.layout.now)) }
    ensures tables { bytes.new.tables ≡ bytes.old.tables }
{
    if file.role.is_epilogue() {
        add_sorted(by, resolved, bytes)?;
        add_end(resolved.layout, &mut bytes.frames)?;
    }
    Ok(())
}

/// Appends strings consecutively.
fn add_strings(strings: &[Bytes], bytes: &mut PartBytes) -> Result<(), AllocError>
    ensures { OnOk result (bytes.new ≡ bytes.old ++ flat_map (λ (s : List ℕ). s) strings.now) }
{
    for string in strings {
        bytes.extend(string.as_slice())?;
    }
    Ok(())
}

/// Appends merged strings and the output's identity, which are written once.
fn add_merged_and_identity(layout: &Layout, bytes: &mut PartBytes) -> Result<(), AllocError>
    ensures { OnOk result (bytes.new ≡ bytes.old ++ merged_and_identity_bytes layout.now) }
{
    for merged in layout.merged.as_slice() {
        add_strings(merged.strings.as_slice(), bytes)?;
    }
    bytes.extend(layout.identity.bytes.as_slice())
}

/// Appends what only the first file writes: merged strings and the output's identity.
fn add_first(layout: &Layout, file: &File, bytes: &mut PartBytes) -> Result<(), AllocError>
    ensures { OnOk result (bytes.new ≡ bytes.old ++ of_first_file file.now (merged_and_identity_bytes layout.now)) }
{
    if file.role.is_prelude() {
        add_merged_and_identity(layout, bytes)?;
    }
    Ok(())
}

/// Refuses the first file if a frame is too far from the `.eh_frame_hdr` search table.
fn check_search_table(
    layout: &Layout,
    place: InputPlace,
    file: &File,
    table: &SearchTable,
) -> Result<(), Error>
    requires { IsTableFor layout.now table.now file.now }
    ensures { Answers result (first_errors layout.now place.group place.file file.now) }
{
    match table.fault {
        Some(fault) if file.role.is_prelude() => Err(Error {
            fault,
            at: place.file(),
        }),
        _ => Ok(()),
    }
}

/// Appends the part of a file that follows its sections: what only the last or the first file writes, and its thunks. Fails with the
/// first fault of these, of the file's copied symbols and GOT and PLT entries, and of the search table.
#[inline(never)]
#[tactic(auto, using(wild_sections::proofs::FaultLemmas::first_of_both), unfolding(crate::specs::Placed::file_trailer_errors, crate::specs::Placed::file_trailer_bytes))]
fn add_file_trailer<A: Arch, E: DebugWriter<A>>(
    by: &Workers<E>,
    resolved: &Resolved<A>,
    place: InputPlace,
    file: &File,
    table: &SearchTable,
    bytes: &mut GroupBytes,
) -> Result<(), Error>
    requires ready { E.ready by.now.executor.now }
    requires stands { is_epilogue file.now.role ≡ true → All (SortedStands resolved.now.layout.now) resolved.now.layout.now.sorted }
    requires table { IsTableFor resolved.now.layout.now table.now file.now }
    ensures faults { Answers result (file_trailer_errors resolved.now.layout.now place.group place.file file.now) }
    ensures files { OnOk result (bytes.new.files ≡ bytes.old.files ++ file_trailer_bytes resolved.now.layout.now file.now) }
    ensures frames { OnOk result (bytes.new.frames ≡ bytes.old.frames ++ of_last_file file.now (end_of_frames resolved.now.layout.now)) }
    ensures tables { bytes.new.tables ≡ bytes.old.tables }
{
    add_last(by, resolved, file, bytes)?;
    check_entries(resolved, place, file)?;
    add_first(resolved.layout, file, &mut bytes.files)?;
    add_thunks(resolved, place, file, &mut bytes.files)?;
    check_search_table(resolved.layout, place, file, table)
}

/// Fast test whether a file has nothing after its sections: an object without thunks, in an output without dynamic tables.
fn has_no_trailer(facts: LayoutFacts, file: &File) -> bool
    ensures { result ≡ (facts.needs_no_dynamic_tables && is_plain_object file.now) }
{
    facts.needs_no_dynamic_tables && matches!(file.role, FileRole::Object) && !file.owns_thunk_block
}

/// Appends the sections of a file, whose frames begin at address `at`, and what follows them; or returns its first fault. Returns the
/// address at which the frames of the next file begin.
#[tactic(auto, using(wild_sections::proofs::FaultLemmas::first_of_both, crate::proofs::PlacedLemmas::file_faults_by, crate::proofs::PlacedLemmas::file_owned_by, crate::proofs::PlacedLemmas::file_frames_by))]
fn add_file<A: Arch, E: DebugWriter<A>>(
    by: &Workers<E>,
    resolved: &Resolved<A>,
    place: InputPlace,
    file: &File,
    at: u64,
    facts: LayoutFacts,
    table: &SearchTable,
    bytes: &mut GroupBytes,
) -> Result<u64, Error>
    requires ready { E.ready by.now.executor.now }
    requires facts { AreFactsOf resolved.now.layout.now facts }
    requires stands { FileStands resolved.now.layout.now at file.now }
    requires table { IsTableFor resolved.now.layout.now table.now file.now }
    ensures faults { Answers result (file_errors resolved.now.layout.now place.group at place.file file.now) }
    ensures next { IfOk result (λ n. n ≡ address_after at (file_frames resolved.now.layout.now file.now)) }
    ensures files { OnOk result (bytes.new.files ≡ bytes.old.files ++ file_bytes resolved.now.layout.now file.now) }
    ensures frames { OnOk result (is_header_only_role resolved.now.layout.now EhFrame ≡ false → bytes.new.frames ≡ bytes.old.frames ++ frames_bytes resolved.now.layout.now (placed_file resolved.now.layout.now at file.now)) }
    ensures tables { bytes.new.tables ≡ bytes.old.tables }
{
    let next = add_file_sections(by, resolved, place, file, at, bytes)?;
    if has_no_trailer(facts, file) {
        return Ok(next);
    }
    add_file_trailer(by, resolved, place, file, table, bytes)?;
    Ok(next)
}

/// Appends the bytes of a group's files, or returns their first fault.
#[tactic(auto, using(crate::proofs::PlacedLemmas::files_refuse, crate::proofs::PlacedLemmas::files_done, crate::proofs::PlacedLemmas::framed_done), unfolding(crate::specs::Append::GroupStands, crate::specs::Pieces::group_files, wild_contents::specs::PlacedSections::group_frames, wild_placement::specs::PlacedSections::placed_files))]
fn add_files<A: Arch, E: DebugWriter<A>>(
    by: &Workers<E>,
    resolved: &Resolved<A>,
    index: usize,
    group: &Group,
    facts: LayoutFacts,
    table: &SearchTable,
    bytes: &mut GroupBytes,
) -> Result<(), Error>
    requires ready { E.ready by.now.executor.now }
    requires facts { AreFactsOf resolved.now.layout.now facts }
    requires stands { GroupStands resolved.now.layout.now group.now }
    requires table { All (IsTableFor resolved.now.layout.now table.now) group.now.files }
    ensures faults { Answers result (files_errors resolved.now.layout.now index (frames_at resolved.now.layout.now group.now) 0 group.now.files) }
    ensures files { OnOk result (bytes.new.files ≡ bytes.old.files ++ group_files resolved.now.layout.now group.now) }
    ensures frames { OnOk result (is_header_only_role resolved.now.layout.now EhFrame ≡ false → bytes.new.frames ≡ bytes.old.frames ++ group_frames resolved.now.layout.now group.now) }
    ensures tables { bytes.new.tables ≡ bytes.old.tables }
{
    let mut next = facts.frames_at(group);
    for (i, file) in group.files.as_slice().iter().enumerate() {
        let place = InputPlace {
            group: index,
            file: i,
            section: 0,
        };
        next = add_file(by, resolved, place, file, next, facts, table, bytes)?;
    }
    Ok(())
}

/// Appends the bytes of a group's files. Fails with the first fault of the files, or else of the group's dynamic symbols. An output
/// without dynamic tables has no symbol table to check.
#[tactic(auto, using(wild_sections::proofs::FaultLemmas::first_of_both), unfolding(wild_layout::specs::Faults::group_errors))]
fn add_group_files<A: Arch, E: DebugWriter<A>>(
    by: &Workers<E>,
    resolved: &Resolved<A>,
    index: usize,
    group: &Group,
    facts: LayoutFacts,
    table: &SearchTable,
    bytes: &mut GroupBytes,
) -> Result<(), Error>
    requires ready { E.ready by.now.executor.now }
    requires facts { AreFactsOf resolved.now.layout.now facts }
    requires stands { GroupStands resolved.now.layout.now group.now }
    requires table { All (IsTableFor resolved.now.layout.now table.now) group.now.files }
    ensures faults { Answers result (group_errors resolved.now.layout.now index group.now) }
    ensures files { OnOk result (bytes.new.files ≡ bytes.old.files ++ group_files resolved.now.layout.now group.now) }
    ensures frames { OnOk result (is_header_only_role resolved.now.layout.now EhFrame ≡ false → bytes.new.frames ≡ bytes.old.frames ++ group_frames resolved.now.layout.now group.now) }
    ensures tables { bytes.new.tables ≡ bytes.old.tables }
{
    add_files(by, resolved, index, group, facts, table, bytes)?;
    if facts.needs_no_dynamic_tables {
        return Ok(());
    }
    check_symbol_tables(resolved, index, group.files.as_slice())
}

/// The sum of some groups' shares of part i, in bytes, at most 2^64 - 1.
fn total_given(i: usize, groups: &[Group]) -> u64
    ensures { result ≡ 0 → total (given i) groups.now ≡ 0 }
{
    let mut sum: u64 = 0;
    for group in groups {
        sum = sum.saturating_add(group.given(i));
    }
    sum
}

/// The number of bytes that some groups have in raw parts: the capacity of their buffer, allocated once.
fn room_of_files(layout: &Layout, groups: &[Group]) -> u64 {
    let mut room: u64 = 0;
    for (i, part) in layout.parts.as_slice().iter().enumerate() {
        if has_role(Role::Raw, part) && layout.takes_file_bytes(part.section) {
            room = room.saturating_add(total_given(i, groups));
        }
    }
    room
}

/// The bytes that some groups give to part i if it is a table with file bytes, at most 2^64 - 1; 0 for the part of input sections and in
/// an omitted section.
#[tactic(auto, using(crate::proofs::TableLemmas::written_hollow, crate::proofs::TableLemmas::written_raw, crate::proofs::TableLemmas::written_all))]
fn total_written(layout: &Layout, i: usize, part: &Part, groups: &[Group]) -> u64
    ensures { result ≡ 0 → written layout.now part.now (total (given i) groups.now) ≡ 0 }
{
    if has_role(Role::Raw, part) || layout.is_header_only_at(part.section) {
        0
    } else {
        total_given(i, groups)
    }
}

/// The number of bytes that a batch writes of tables: the capacity of their buffer, allocated once.
fn room_of_tables(layout: &Layout, facts: LayoutFacts, batch: &Batch) -> u64
    requires facts { AreFactsOf layout.now facts }
    requires within { IsWithin layout.now.groups batch.now }
    ensures { result ≡ 0 → GiveNothing layout.now batch.now.groups.now }
{
    if facts.only_first_group_has_tables && batch.first != 0 {
        return 0;
    }
    let mut room: u64 = 0;
    for (i, part) in layout.parts.as_slice().iter().enumerate() {
        room = room.saturating_add(total_written(layout, i, part, batch.groups));
    }
    room
}

impl GroupBytes {
    /// No bytes yet, with capacity for `tables` bytes of tables and `files` bytes of files.
    pub(crate) fn with_room(alloc: Global, tables: usize, files: usize) -> Result<Self, AllocError>
        ensures tables { IfOk result (λ b. b.tables ≡ []) }
        ensures files { IfOk result (λ b. b.files ≡ []) }
    {
        Ok(GroupBytes {
            tables: PartBytes::with_room(alloc, tables)?,
            files: PartBytes::with_room(alloc, files)?,
            frames: PartBytes::empty(alloc),
        })
    }
}

/// Appends all bytes of a group, or returns its first fault.
#[inline(never)]
pub(crate) fn add_group<A: Arch, E: DebugWriter<A>>(
    by: &Workers<E>,
    resolved: &Resolved<A>,
    index: usize,
    group: &Group,
    facts: LayoutFacts,
    table: &SearchTable,
    bytes: &mut GroupBytes,
) -> Result<(), Error>
    requires ready { E.ready by.now.executor.now }
    requires facts { AreFactsOf resolved.now.layout.now facts }
    requires stands { GroupStands resolved.now.layout.now group.now }
    requires gives { GivesItsShares resolved.now.layout.now group.now }
    requires few { NeedsFit group.now }
    requires once { HasRolesOnce resolved.now.layout.now }
    requires table { All (IsTableFor resolved.now.layout.now table.now) group.now.files }
    ensures faults { Answers result (group_errors resolved.now.layout.now index group.now) }
    ensures tables { OnOk result (bytes.new.tables ≡ bytes.old.tables ++ group_tables resolved.now.layout.now group.now) }
    ensures files { OnOk result (bytes.new.files ≡ bytes.old.files ++ group_files resolved.now.layout.now group.now) }
{
    bytes.frames = PartBytes::empty(by.alloc);
    add_group_files(by, resolved, index, group, facts, table, bytes)?;
    let beside = FrameTables {
        frames: bytes.frames.as_slice(),
        table: table.bytes.as_slice(),
    };
    add_group_tables(by.alloc, resolved, group, &beside, &mut bytes.tables)?;
    Ok(())
}

/// Appends all bytes of a group, or returns its first fault. `has_tables` may be false only if the group has no bytes of tables.
fn add_batch_group<A: Arch, E: DebugWriter<A>>(
    by: &Workers<E>,
    resolved: &Resolved<A>,
    index: usize,
    group: &Group,
    facts: LayoutFacts,
    table: &SearchTable,
    has_tables: bool,
    bytes: &mut GroupBytes,
) -> Result<(), Error>
    requires ready { E.ready by.now.executor.now }
    requires facts { AreFactsOf resolved.now.layout.now facts }
    requires stands { GroupStands resolved.now.layout.now group.now }
    requires gives { GivesItsShares resolved.now.layout.now group.now }
    requires few { NeedsFit group.now }
    requires once { HasRolesOnce resolved.now.layout.now }
    requires table { All (IsTableFor resolved.now.layout.now table.now) group.now.files }
    requires none { has_tables ≡ false → group_tables resolved.now.layout.now group.now ≡ [] }
    ensures faults { Answers result (group_errors resolved.now.layout.now index group.now) }
    ensures tables { OnOk result (bytes.new.tables ≡ bytes.old.tables ++ group_tables resolved.now.layout.now group.now) }
    ensures files { OnOk result (bytes.new.files ≡ bytes.old.files ++ group_files resolved.now.layout.now group.now) }
{
    if has_tables {
        return add_group(by, resolved, index, group, facts, table, bytes);
    }
    add_group_files(by, resolved, index, group, facts, table, bytes)
}

/// All bytes of a batch, or its first fault.
pub(crate) fn bytes_of_batch<A: Arch, E: DebugWriter<A>>(
    by: &Workers<E>,
    resolved: &Resolved<A>,
    batch: &Batch,
    facts: LayoutFacts,
    table: &SearchTable,
) -> Result<GroupBytes, Error>
    requires ready { E.ready by.now.executor.now }
    requires facts { AreFactsOf resolved.now.layout.now facts }
    requires stands { All (GroupStands resolved.now.layout.now) batch.now.groups.now }
    requires gives { All (GivesItsShares resolved.now.layout.now) batch.now.groups.now }
    requires few { All NeedsFit batch.now.groups.now }
    requires once { HasRolesOnce resolved.now.layout.now }
    requires table { IsSearchTable resolved.now.layout.now table.now }
    requires small { batch.now.first + length batch.now.groups.now < 2 ^ 64 }
    requires within { IsWithin resolved.now.layout.now.groups batch.now }
    ensures faults { Answers result (batch_errors resolved.now.layout.now batch.now) }
    ensures bytes { IfOk result (HasBatch resolved.now.layout.now batch.now) }
{
    let tables = room_of_tables(resolved.layout, facts, batch);
    let files = room_of_files(resolved.layout, batch.groups);
    let mut bytes = GroupBytes::with_room(by.alloc, tables as usize, files as usize)?;
    for (i, group) in batch.groups.iter().enumerate() {
        let index = batch.first + i;
        add_batch_group(
            by,
            resolved,
            index,
            group,
            facts,
            table,
            tables != 0,
            &mut bytes,
        )?;
    }
    Ok(bytes)
}
