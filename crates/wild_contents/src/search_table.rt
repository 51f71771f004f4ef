//! The `.eh_frame_hdr` search table of the frames of all files (LSB, "The .eh_frame_hdr section").
ghost use Rattle.std.specs.Prelude.{◌≡◌, not, ◌&&◌, ◌<◌, ◌+◌, ◌^◌, ◌++◌, true, false, None, [], length, IfOk, OnOk};
ghost use Rattle.std.specs.List.{flat_map};
ghost use Rattle.wild_types.specs.declared.part.Role.TheVariants as role;
ghost use Rattle.wild_types.specs.HeaderOnly.{is_header_only_role};
ghost use Rattle.wild_types.specs.Parts.{part_with};
ghost use Rattle.wild_frames.specs.Frames.{start, rest_of};
ghost use Rattle.wild_frames.specs.Walks.{IsAtStart, AreOwn};
ghost use Rattle.wild_placement.specs.FrameInputs.{frames_of, kept_size};
ghost use Rattle.wild_placement.specs.PlacedSections.{file_frames, address_after, part_address};
ghost use Rattle.wild_layout.specs.SearchTable.{code_at, section_fdes, sections_fdes, group_fdes, layout_fdes, address_of_role};
ghost use Rattle.wild_contents.specs.SearchTable.{found_fdes, IsSearchTable};

use crate::frame_cursor::FrameCursor;
use crate::part_bytes::PartBytes;
use std::alloc::{AllocError, Global};
use wild_frames::{
    Fde, Found, FrameSource, Sorter, TableError, Walk, walk_continues, write_search_table,
};
use wild_placement::FileFrames;
use wild_records::{EhFrameHdr, EhFrameHdrEntry};
use wild_relax::Arch;
use wild_sections::{Resolved, raw_address, value_or_0};
use wild_types::{
    Fault, File, Group, InputRelocation, InputSection, Layout, Part, Role, part_with,
};

/// The search table, or the fault that a frame is too far from it.
#[derive(Drop)]
pub struct SearchTable {
    pub bytes: PartBytes,
    pub fault: Option<Fault>,
}

impl SearchTable {
    /// No table.
    pub fn none(alloc: Global) -> Self
        ensures bytes { result.bytes ≡ [] }
        ensures fault { result.fault ≡ None }
    {
        SearchTable {
            bytes: PartBytes::empty(alloc),
            fault: None,
        }
    }
}

/// The start address of the code that an FDE describes: S + A of the FDE's first relocation.
fn code_at<A: Arch>(resolved: &Resolved<A>, own: &[InputRelocation]) -> u64
    ensures { result ≡ code_at resolved.now.layout.now own.now }
{
    match own.first() {
        Some(first) => {
            value_or_0(raw_address(resolved, first.symbol)).wrapping_add_signed(first.addend)
        }
        None => 0,
    }
}

/// Appends a record found in frames that begin at an address, with its relocations, if it is an FDE that is kept.
fn add_found<A: Arch>(
    resolved: &Resolved<A>,
    frames: &FileFrames<'_>,
    at: u64,
    found: &Found,
    own: &[InputRelocation],
    fdes: &mut Vec<Fde>,
) -> Result<(), AllocError>
    requires own { AreOwn (frames_of frames.now.layout.now frames.now.file.now frames.now.section.now) own.now found.now }
    ensures { OnOk result (fdes.new.items ≡ fdes.old.items ++ found_fdes resolved.now.layout.now (frames_of frames.now.layout.now frames.now.file.now frames.now.section.now) at found.now) }
{
    match found {
        Found::Kept { entry } if entry.id != 0 => {
            fdes.push(Fde {
                code: code_at(resolved, own),
                address: at.wrapping_add(entry.to),
            })?;
            Ok(())
        }
        _ => Ok(()),
    }
}

/// Appends the FDEs from the start of a walk on.
#[tactic(auto, using(crate::proofs::SearchTableLemmas::found_more, crate::proofs::SearchTableLemmas::found_last))]
fn add_from<A: Arch>(
    resolved: &Resolved<A>,
    frames: &FileFrames<'_>,
    at: u64,
    first: Walk,
    fdes: &mut Vec<Fde>,
) -> Result<(), AllocError>
    requires first { IsAtStart (frames_of frames.now.layout.now frames.now.file.now frames.now.section.now) first }
    ensures { OnOk result (fdes.new.items ≡ fdes.old.items ++ flat_map (found_fdes resolved.now.layout.now (frames_of frames.now.layout.now frames.now.file.now frames.now.section.now) at) (rest_of (frames_of frames.now.layout.now frames.now.file.now frames.now.section.now) start)) }
{
    let mut walk = first;
    loop {
        let from = walk.relocation;
        let found = walk.step(frames)?;
        let own = &frames.relocations()[from..walk.relocation];
        add_found(resolved, frames, at, &found, own, fdes)?;
        if !walk_continues(&found) {
            return Ok(());
        }
    }
}

/// Appends the FDEs of a section. If it is one of frames, they begin at the address of `cursor`.
#[tactic(auto, using(crate::proofs::SearchTableLemmas::frames_added, crate::proofs::SearchTableLemmas::frames_bad, crate::proofs::SearchTableLemmas::frames_none))]
fn add_frames<A: Arch>(
    alloc: Global,
    resolved: &Resolved<A>,
    file: &File,
    section: &InputSection,
    cursor: &mut FrameCursor<'_>,
    fdes: &mut Vec<Fde>,
) -> Result<(), AllocError>
    ensures fdes { OnOk result (fdes.new.items ≡ fdes.old.items ++ section_fdes resolved.now.layout.now file.now cursor.old section.now) }
    ensures cursor { cursor.new ≡ cursor.old }
{
    if !section.slot.is_frame() {
        return Ok(());
    }
    let at = cursor.address();
    let frames = FileFrames {
        layout: resolved.layout,
        file,
        section,
    };
    match Walk::start(alloc, &frames) {
        Ok(walk) => add_from(resolved, &frames, at, walk, fdes),
        Err(_) => Ok(()),
    }
}

/// Appends the FDEs of a section, and moves `cursor` past it.
fn add_section<'a, A: Arch>(
    alloc: Global,
    resolved: &Resolved<'a, A>,
    file: &'a File,
    section: &'a InputSection,
    cursor: &mut FrameCursor<'a>,
    fdes: &mut Vec<Fde>,
) -> Result<(), AllocError>
    ensures fdes { OnOk result (fdes.new.items ≡ fdes.old.items ++ section_fdes resolved.now.layout.now file.now cursor.old section.now) }
    ensures next { OnOk result (cursor.new ≡ address_after cursor.old (kept_size resolved.now.layout.now file.now section.now)) }
{
    add_frames(alloc, resolved, file, section, cursor, fdes)?;
    cursor.pass(FileFrames {
        layout: resolved.layout,
        file,
        section,
    });
    Ok(())
}

/// Appends the FDEs of a file, and moves `cursor` past it.
#[tactic(auto, using(crate::proofs::SearchTableLemmas::section_more, crate::proofs::SearchTableLemmas::section_done, crate::proofs::PlacedLemmas::reach_more, crate::proofs::PlacedLemmas::reach_done))]
fn add_file<'a, A: Arch>(
    alloc: Global,
    resolved: &Resolved<'a, A>,
    file: &'a File,
    cursor: &mut FrameCursor<'a>,
    fdes: &mut Vec<Fde>,
) -> Result<(), AllocError>
    ensures fdes { OnOk result (fdes.new.items ≡ fdes.old.items ++ sections_fdes resolved.now.layout.now file.now cursor.old file.now.sections) }
    ensures next { OnOk result (cursor.new ≡ address_after cursor.old (file_frames resolved.now.layout.now file.now)) }
{
    for section in file.sections.as_slice() {
        add_section(alloc, resolved, file, section, cursor, fdes)?;
    }
    cursor.fits();
    Ok(())
}

/// Appends the FDEs of a group.
#[tactic(auto, using(crate::proofs::SearchTableLemmas::file_more, crate::proofs::SearchTableLemmas::file_done))]
fn add_group<'a, A: Arch>(
    alloc: Global,
    resolved: &Resolved<'a, A>,
    group: &'a Group,
    fdes: &mut Vec<Fde>,
) -> Result<(), AllocError>
    ensures { OnOk result (fdes.new.items ≡ fdes.old.items ++ group_fdes resolved.now.layout.now group.now) }
{
    let mut cursor = FrameCursor::new(resolved.layout, group);
    for file in group.files.as_slice() {
        add_file(alloc, resolved, file, &mut cursor, fdes)?;
    }
    Ok(())
}

/// The FDEs that are kept, in the order of the files.
#[tactic(auto, unfolding(wild_layout::specs::SearchTable::layout_fdes))]
fn fdes_of<A: Arch>(alloc: Global, resolved: &Resolved<A>) -> Result<Vec<Fde>, AllocError>
    ensures { IfOk result (λ v. v.items ≡ layout_fdes resolved.now.layout.now) }
{
    let mut fdes = Vec::new(alloc);
    for group in resolved.layout.groups.as_slice() {
        add_group(alloc, resolved, group, &mut fdes)?;
    }
    Ok(fdes)
}

/// The address of the part of a role.
fn address_of(role: Role, parts: &[Part]) -> u64
    ensures { result ≡ part_address (part_with role parts.now) }
{
    match part_with(role, parts) {
        Some(part) => part.address,
        None => 0,
    }
}

/// The table of these FDEs, fewer than its 32-bit count can hold.
fn table_of<A: Arch, S: Sorter>(
    sorter: &S,
    alloc: Global,
    resolved: &Resolved<A>,
    fdes: &[Fde],
) -> Result<SearchTable, AllocError>
    requires ready { S.ready sorter.now }
    requires asked { (resolved.now.layout.now.options.eh_frame_hdr && not (is_header_only_role resolved.now.layout.now role.EhFrameHdr)) ≡ true }
    requires fdes { fdes.now ≡ layout_fdes resolved.now.layout.now }
    requires few { length fdes.now < 2 ^ 32 }
    requires place { address_of_role resolved.now.layout.now role.EhFrameHdr + 4 < 2 ^ 64 }
    ensures { IfOk result (IsSearchTable resolved.now.layout.now) }
{
    let parts = resolved.layout.parts.as_slice();
    let header = address_of(Role::EhFrameHdr, parts);
    let eh_frame = address_of(Role::EhFrame, parts);
    let size = EhFrameHdr::SIZE + EhFrameHdrEntry::SIZE * fdes.len();
    let mut room = vec![in alloc; 0u8; size]?;
    match write_search_table(sorter, alloc, header, eh_frame, fdes, &mut room) {
        Ok(()) => Ok(SearchTable {
            bytes: PartBytes::from_vec(room),
            fault: None,
        }),
        Err(TableError::FrameOffsetOverflow { value }) => Ok(SearchTable {
            bytes: PartBytes::empty(alloc),
            fault: Some(Fault::FrameOffsetOverflow { value }),
        }),
        Err(TableError::OutOfMemory) => Err(AllocError),
    }
}

/// Whether the option requires the search table, and it is written.
fn is_asked(layout: &Layout) -> bool
    ensures { result ≡ (layout.now.options.eh_frame_hdr && not (is_header_only_role layout.now role.EhFrameHdr)) }
{
    layout.options.eh_frame_hdr && !layout.is_header_only_role(Role::EhFrameHdr)
}

/// The search table of all frames, if the option requires one and it is written; or the fault of a frame too far from it. One pass over
/// all frames, and a sort of their FDEs. More FDEs than the table can count, 2^32, do not fit in memory.
pub fn make_search_table<A: Arch, S: Sorter>(
    sorter: &S,
    alloc: Global,
    resolved: &Resolved<A>,
) -> Result<SearchTable, AllocError>
    requires ready { S.ready sorter.now }
    requires place { address_of_role resolved.now.layout.now role.EhFrameHdr + 4 < 2 ^ 64 }
    ensures { IfOk result (IsSearchTable resolved.now.layout.now) }
{
    if !is_asked(resolved.layout) {
        return Ok(SearchTable::none(alloc));
    }
    let fdes = fdes_of(alloc, resolved)?;
    if fdes.len() >= 1 << 32 {
        return Err(AllocError);
    }
    table_of(sorter, alloc, resolved, fdes.as_slice())
}
