//! The sizes of frames, of their search table and of notes (LSB, "The .eh_frame section", "The .eh_frame_hdr section"; gABI, "Note
//! Section").
ghost use Rattle.std.specs.Prelude.{◌≡◌, ℕ, ◌+◌, ◌-◌, ◌^◌, ◌≤◌, min, if◌then◌else◌};
ghost use Rattle.wild_types.specs.Lists.{total};
ghost use Rattle.wild_placement.specs.PlacedSections.{file_frames, placed_file};
ghost use Rattle.wild_needs.specs.Needs.{search_table_room, build_id_room, value_room, property_room, properties_room, bytes_if_last, frames_room};

use wild_placement::{all_fdes, kept_size};
use wild_records::{EhFrameHdr, EhFrameHdrEntry, NoteHeader};
use wild_types::{File, Layout, Property, PropertyValue};

/// The size in bytes of the header of a GNU note, with its zero-terminated name.
const GNU_NOTE_SIZE: usize = NoteHeader::SIZE + 4;

/// The size in bytes of the zero length that ends the frames.
const TERMINATOR_SIZE: u64 = 4;

/// The size of the search table of frames in bytes, at most 2^64 - 1.
pub(crate) fn search_table_room(layout: &Layout) -> u64
    ensures { result ≡ min (2 ^ 64 - 1) (search_table_room layout.now) }
{
    if layout.options.eh_frame_hdr {
        all_fdes(layout)
            .saturating_mul(EhFrameHdrEntry::SIZE as u64)
            .saturating_add(EhFrameHdr::SIZE as u64)
    } else {
        0
    }
}

/// The bytes of frames that a file keeps, at most 2^64 - 1.
fn kept_of(layout: &Layout, file: &File) -> u64
    ensures { result ≡ min (2 ^ 64 - 1) (file_frames layout.now file.now) }
{
    let mut sum: u64 = 0;
    for section in file.sections.as_slice() {
        sum = sum.saturating_add(kept_size(layout, file, section));
    }
    sum
}

/// The size of the zero length that ends all frames, if the file writes it; else 0.
fn end_of(layout: &Layout, file: &File) -> u64
    ensures is { result ≡ (if layout.now.options.terminator then bytes_if_last file.now.role 4 else 0) }
    ensures few { result ≤ 4 }
{
    if layout.options.terminator && file.role.is_epilogue() {
        TERMINATOR_SIZE
    } else {
        0
    }
}

/// The bytes of frames that a file writes, at most 2^64 - 1.
#[tactic(auto, using(crate::proofs::RoomLemmas::frames_kept))]
pub(crate) fn frames_room(layout: &Layout, file: &File) -> u64
    ensures { (at : ℕ) → result ≡ min (2 ^ 64 - 1) (frames_room layout.now (placed_file layout.now at file.now)) }
{
    kept_of(layout, file).saturating_add(end_of(layout, file))
}

/// The size of the build id's note in bytes, at most 2^64 - 1.
fn build_id_room(layout: &Layout) -> u64
    ensures { result ≡ min (2 ^ 64 - 1) (build_id_room layout.now.build_id) }
{
    match &layout.build_id {
        Some(id) => (id.len() as u64).saturating_add(GNU_NOTE_SIZE as u64),
        None => 0,
    }
}

/// The bytes of the build id's note that a file writes, at most 2^64 - 1.
pub(crate) fn build_id_share(layout: &Layout, file: &File) -> u64
    ensures { result ≡ min (2 ^ 64 - 1) (bytes_if_last file.now.role (build_id_room layout.now.build_id)) }
{
    if file.role.is_epilogue() {
        build_id_room(layout)
    } else {
        0
    }
}

/// The size of a property in bytes, with its type and size.
fn property_room(property: &Property) -> u64
    ensures is { result ≡ property_room property.now }
    ensures few { result ≤ 24 }
{
    match property.value {
        PropertyValue::Word(_) => 16,
        PropertyValue::PointerAuthentication { .. } => 24,
    }
}

/// The size of the note of these properties in bytes, at most 2^64 - 1.
fn properties_room(properties: &[Property]) -> u64
    ensures { result ≡ min (2 ^ 64 - 1) (properties_room properties.now) }
{
    if properties.len() == 0 {
        return 0;
    }
    let mut room: u64 = GNU_NOTE_SIZE as u64;
    for property in properties {
        room = room.saturating_add(property_room(property));
    }
    room
}

/// The bytes of the note of properties that a file writes, at most 2^64 - 1.
pub(crate) fn property_share(layout: &Layout, file: &File) -> u64
    ensures { result ≡ min (2 ^ 64 - 1) (bytes_if_last file.now.role (properties_room layout.now.properties)) }
{
    if file.role.is_epilogue() {
        properties_room(layout.properties.as_slice())
    } else {
        0
    }
}
