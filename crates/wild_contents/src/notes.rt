//! GNU notes (gABI, "Note Section"; the Linux Extensions to gABI, "Program Property").
ghost use Rattle.std.specs.Prelude.{◌≡◌, ◌+◌, ◌-◌, ◌^◌, ◌≤◌, ◌++◌, min, length, take, OnOk};
ghost use Rattle.std.specs.List.{flat_map};
ghost use Rattle.wild_types.specs.Lists.{total};
ghost use Rattle.wild_needs.specs.Needs.{gnu_note_size, build_id_room, property_room, properties_room};
ghost use Rattle.wild_placement.specs.PlacedSections.{of_last_file};
ghost use Rattle.wild_layout.specs.Notes.{gnu_note, build_id_note, property_bytes, property_note};
ghost use Rattle.wild_contents.specs.Notes.{gnu_front, word_property, signed_property};

use crate::part_bytes::PartBytes;
use std::alloc::{AllocError, Global};
use wild_records::NoteHeader;
use wild_records::abi::note::{NT_GNU_BUILD_ID, NT_GNU_PROPERTY_TYPE_0};
use wild_types::{File, Layout, Property, PropertyValue};
use wild_words::{put, put_u32, put_u64};

/// The name "GNU" with its zero, as a little-endian number.
const NAME: u32 = 0x0055_4e47;

/// The offset of a GNU note's descriptor: the size of the note's header and the name.
const FRONT_SIZE: usize = NoteHeader::SIZE + 4;

/// Writes the header of a GNU note whose descriptor has `size` bytes, and the name.
#[tactic(auto, using(crate::proofs::NoteLemmas::front_put))]
fn put_front(kind: u32, size: usize, out: &mut [u8])
    requires { gnu_note_size ≤ length out.old }
    ensures { take gnu_note_size out.new ≡ gnu_front kind size }
{
    put_u32(out, 0, 4);
    put_u32(out, 4, (size % (1 << 32)) as u32);
    put_u32(out, 8, kind);
    put_u32(out, 12, NAME);
}

/// Writes a note of that type with its descriptor.
#[tactic(auto, using(crate::proofs::NoteLemmas::note_put))]
fn put_note(kind: u32, descriptor: &[u8], out: &mut [u8])
    requires { length out.old ≡ gnu_note_size + length descriptor.now }
    ensures { out.new ≡ gnu_note kind descriptor.now }
{
    put_front(kind, descriptor.len(), out);
    put(out, FRONT_SIZE, descriptor);
}

/// Writes the build id note into its room; writes nothing if the layout has no build id.
pub fn write_gnu_build_id_note(layout: &Layout, out: &mut [u8])
    requires { length out.old ≡ build_id_room layout.now.build_id }
    ensures { out.new ≡ build_id_note layout.now.build_id }
{
    if let Some(id) = &layout.build_id {
        put_note(NT_GNU_BUILD_ID, id.as_slice(), out);
    }
}

/// Writes a property whose value is a word: its type, the value's size, the value, and zeros up to a multiple of 8 bytes.
#[tactic(auto, using(crate::proofs::NoteLemmas::four_put))]
fn put_word_property(kind: u32, value: u32, at: usize, out: &mut [u8])
    requires { at + 16 ≤ length out.old }
    ensures { take (at + 16) out.new ≡ take at out.old ++ word_property kind value }
{
    put_u32(out, at, kind);
    put_u32(out, at + 4, 4);
    put_u32(out, at + 8, value);
    put_u32(out, at + 12, 0);
}

/// Writes the pointer authentication property, which says how addresses are signed.
#[tactic(auto, using(crate::proofs::NoteLemmas::four_put))]
fn put_signed_property(kind: u32, platform: u64, version: u64, at: usize, out: &mut [u8])
    requires { at + 24 ≤ length out.old }
    ensures { take (at + 24) out.new ≡ take at out.old ++ signed_property kind platform version }
{
    put_u32(out, at, kind);
    put_u32(out, at + 4, 16);
    put_u64(out, at + 8, platform);
    put_u64(out, at + 16, version);
}

/// Writes a property at an offset.
fn put_property(property: &Property, at: usize, out: &mut [u8])
    requires { at + property_room property.now ≤ length out.old }
    ensures { take (at + property_room property.now) out.new ≡ take at out.old ++ property_bytes property.now }
{
    match property.value {
        PropertyValue::Word(value) => put_word_property(property.ptype, value, at, out),
        PropertyValue::PointerAuthentication { platform, version } => {
            put_signed_property(property.ptype, platform, version, at, out);
        }
    }
}

/// The size of a property in bytes.
fn property_size(property: &Property) -> usize
    ensures { result ≡ property_room property.now }
{
    match property.value {
        PropertyValue::Word(_) => 16,
        PropertyValue::PointerAuthentication { .. } => 24,
    }
}

/// Writes properties consecutively, after the header and name of their note.
fn put_properties(properties: &[Property], out: &mut [u8])
    requires { length out.old ≡ gnu_note_size + total property_room properties.now }
    ensures { out.new ≡ take gnu_note_size out.old ++ flat_map property_bytes properties.now }
{
    let mut at = FRONT_SIZE;
    for property in properties {
        put_property(property, at, out);
        at += property_size(property);
    }
}

/// Writes the note of the output's properties into its room; writes nothing if there are none.
#[tactic(auto, using(crate::proofs::NoteLemmas::properties_put))]
pub fn write_gnu_property_notes(layout: &Layout, out: &mut [u8])
    requires { length out.old ≡ properties_room layout.now.properties }
    ensures { out.new ≡ property_note layout.now.properties }
{
    let properties = layout.properties.as_slice();
    if properties.is_empty() {
        return;
    }
    put_front(NT_GNU_PROPERTY_TYPE_0, out.len() - FRONT_SIZE, out);
    put_properties(properties, out);
}

/// The size of the build id note in bytes, at most 2^64 - 1.
fn build_id_room(layout: &Layout) -> usize
    ensures { result ≡ min (2 ^ 64 - 1) (build_id_room layout.now.build_id) }
{
    match &layout.build_id {
        Some(id) => id.len().saturating_add(FRONT_SIZE),
        None => 0,
    }
}

/// The size of the property note in bytes, at most 2^64 - 1.
fn properties_room(properties: &[Property]) -> usize
    ensures { result ≡ min (2 ^ 64 - 1) (properties_room properties.now) }
{
    if properties.is_empty() {
        return 0;
    }
    let mut room = FRONT_SIZE;
    for property in properties {
        room = room.saturating_add(property_size(property));
    }
    room
}

/// Appends the build id note, if the file is the last one.
pub(crate) fn add_build_id(
    alloc: Global,
    layout: &Layout,
    file: &File,
    bytes: &mut PartBytes,
) -> Result<(), AllocError>
    ensures { OnOk result (bytes.new ≡ bytes.old ++ of_last_file file.now (build_id_note layout.now.build_id)) }
{
    if file.role.is_epilogue() {
        let mut room = vec![in alloc; 0u8; build_id_room(layout)]?;
        write_gnu_build_id_note(layout, &mut room);
        bytes.extend(&room)?;
    }
    Ok(())
}

/// Appends the property note, if the file is the last one.
pub(crate) fn add_properties(
    alloc: Global,
    layout: &Layout,
    file: &File,
    bytes: &mut PartBytes,
) -> Result<(), AllocError>
    ensures { OnOk result (bytes.new ≡ bytes.old ++ of_last_file file.now (property_note layout.now.properties)) }
{
    if file.role.is_epilogue() {
        let mut room = vec![in alloc; 0u8; properties_room(layout.properties.as_slice())]?;
        write_gnu_property_notes(layout, &mut room);
        bytes.extend(&room)?;
    }
    Ok(())
}
