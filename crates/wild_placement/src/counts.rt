//! The sizes of kept frames, computed without writing them.
ghost use Rattle.std.specs.Prelude.{◌≡◌, ◌-◌, ◌%◌, ◌^◌, min};
ghost use Rattle.wild_types.specs.Lists.{total};
ghost use Rattle.wild_types.specs.declared.part.Role.TheVariants as role;
ghost use Rattle.wild_types.specs.Parts.{part_with};
ghost use Rattle.wild_placement.specs.FrameInputs.{kept_size, fde_count};
ghost use Rattle.wild_placement.specs.PlacedSections.{file_frames, part_address, frames_at, all_fdes};

use crate::frames::FileFrames;
use wild_frames::count_frames;
use wild_types::{File, Group, InputSection, Layout, Role, part_with};

/// The bytes that are kept of a section of frames; 0 for another section. Time linear in the section; allocates no memory.
#[tactic(auto, unfolding(crate::specs::FrameInputs::kept_size))]
pub fn kept_size(layout: &Layout, file: &File, section: &InputSection) -> u64
    ensures { result ≡ kept_size layout.now file.now section.now }
{
    if section.slot.is_frame() {
        let frames = FileFrames {
            layout,
            file,
            section,
        };
        count_frames(&frames).bytes
    } else {
        0
    }
}

/// The number of FDEs that are kept of a section of frames; 0 for another section.
#[tactic(auto, unfolding(crate::specs::FrameInputs::fde_count))]
pub fn fde_count(layout: &Layout, file: &File, section: &InputSection) -> u64
    ensures { result ≡ fde_count layout.now file.now section.now }
{
    if section.slot.is_frame() {
        let frames = FileFrames {
            layout,
            file,
            section,
        };
        count_frames(&frames).fdes
    } else {
        0
    }
}

/// The bytes of frames that a file keeps, modulo 2^64.
pub fn file_frames(layout: &Layout, file: &File) -> u64
    ensures { result ≡ file_frames layout.now file.now % 2 ^ 64 }
{
    let mut bytes = 0u64;
    for section in file.sections.as_slice() {
        bytes = bytes.wrapping_add(kept_size(layout, file, section));
    }
    bytes
}

/// The number of FDEs that a file keeps; 2^64 - 1 if there are more.
fn file_fdes(layout: &Layout, file: &File) -> u64
    ensures { result ≡ min (2 ^ 64 - 1) (total (fde_count layout.now file.now) file.now.sections) }
{
    let mut count = 0u64;
    for section in file.sections.as_slice() {
        count = count.saturating_add(fde_count(layout, file, section));
    }
    count
}

/// The number of FDEs that a group keeps; 2^64 - 1 if there are more.
fn group_fdes(layout: &Layout, group: &Group) -> u64
    ensures { result ≡ min (2 ^ 64 - 1) (total (λ f. total (fde_count layout.now f) f.sections) group.now.files) }
{
    let mut count = 0u64;
    for file in group.files.as_slice() {
        count = count.saturating_add(file_fdes(layout, file));
    }
    count
}

/// The number of FDEs that all files keep; 2^64 - 1 if there are more.
pub fn all_fdes(layout: &Layout) -> u64
    ensures { result ≡ min (2 ^ 64 - 1) (all_fdes layout.now) }
{
    let mut count = 0u64;
    for group in layout.groups.as_slice() {
        count = count.saturating_add(group_fdes(layout, group));
    }
    count
}

/// The address at which the frames of a group begin, modulo 2^64.
pub fn frames_at(layout: &Layout, group: &Group) -> u64
    ensures { result ≡ frames_at layout.now group.now }
{
    let address = match part_with(Role::EhFrame, layout.parts.as_slice()) {
        Some(part) => part.address,
        None => 0,
    };
    address.wrapping_add(group.eh_frame_start)
}
