//! The memory that a loader makes of the image of a laid out layout, before and after its entries are applied.
#![tactic(auto)]

ghost use Rattle.wild_loaded.specs.Laws.{BlanksAreStored, CopiesAreThere, DynamicSectionsAreThere, DynamicSectionsInformLinker, EntriesHaveChanges, FileBytesAreStored, HeadersAreThere, HeadersDescribeOutput, OwnersAreKnown, PartsAreStored, SectionTablesAreFound, SectionsAreInSegments, SectionsAreStored, SegmentsAreLoadable, SlotsAreStored, SlotsAreThere, TablesAreFound, TextsAreStored, ThunksAreThere, ZerosAreStored};
ghost use Rattle.wild_loaded.specs.FilledLaws.{TablesAreMade};
ghost use Rattle.wild_loaded.specs.LoadedMemoryLaws.{DebugImagesAreLoaded, ImagesAreLoaded, MemoryHasChanges};

use wild_geometry::tables_are_placed;
use wild_loader::{
    bytes_are_loaded, dynamic_images_are_loaded, entries_make_changes, entries_store_words,
    numbers_are_read, static_images_are_loaded, tables_are_applied,
};
use wild_records::{
    dynamic_entry_is_read, file_header_is_read, program_header_is_read, rela_is_read, relr_is_read,
    section_header_is_read,
};
use wild_relr::{relr_slot_is_a_run, words_fit};
use wild_slots::{
    blocks_are_whole, each_word_is_placed, entries_are_known, fixed_outputs_move_nothing,
    pair_is_placed, places_ascend, slots_are_placed, stubs_are_there,
};
use wild_table_formats::{dynamic_sections_are_read, entries_are_read, places_are_loaded};

/// Each piece is in the image, no byte belongs to two pieces, and a byte outside all pieces is padding.
pub fn owners_are_known()
    ensures { OwnersAreKnown }
{}

/// A reader finds each header at its offset in the file header, and a loader accepts them. They have the output's type and entry,
/// and describe the layout's segments and sections.
pub fn headers_are_present()
    ensures stand { HeadersAreThere }
    ensures tell { HeadersDescribeOutput }
{
    file_header_is_read();
    program_header_is_read();
    section_header_is_read();
}

/// In a legal world the segments can be loaded.
pub fn segments_are_loadable()
    ensures { SegmentsAreLoadable }
{}

/// A kept section with bytes, as placed, has them in the file, and loaded segments have each at its address.
pub fn sections_are_in_segments()
    ensures { SectionsAreInSegments }
{}

/// The memory of the loaded segments has each kept section as the file has it. It is zero after the file bytes and in sections
/// without data.
pub fn sections_are_stored()
    ensures sections { SectionsAreStored }
    ensures zeros { ZerosAreStored }
    ensures blanks { BlanksAreStored }
{
    bytes_are_loaded();
    parts_are_stored();
}

/// In a layout without faults the slots of symbols are completely written.
pub fn slots_are_there()
    ensures { SlotsAreThere }
{}

/// The memory of the loaded segments has the tables that a program reads.
pub fn parts_are_stored()
    ensures { PartsAreStored }
{
    bytes_are_loaded();
    tables_are_placed();
}

/// It has each word of a slot as the file has it, and each stub.
pub fn slots_are_stored()
    ensures { SlotsAreStored }
{
    parts_are_stored();
    slots_are_placed();
    each_word_is_placed();
    stubs_are_there();
    pair_is_placed();
}

/// It has the merged strings, and the path of the interpreter.
pub fn texts_are_stored()
    ensures { TextsAreStored }
{
    bytes_are_loaded();
    tables_are_placed();
}

/// It has the file bytes of segments.
pub fn file_bytes_are_stored()
    ensures { FileBytesAreStored }
{
    bytes_are_loaded();
}

/// In a layout without faults it has each thunk.
pub fn thunks_are_there()
    ensures { ThunksAreThere }
{
    bytes_are_loaded();
}

/// The image of an output with a dynamic section has it: the entries of libraries, those of the last file, and zeros after them.
pub fn dynamic_sections_are_there()
    ensures { DynamicSectionsAreThere }
{
    tables_are_placed();
    dynamic_sections_are_read();
}

/// A loader finds the tables that fill addresses and slots, through the dynamic section or through sections.
pub fn tables_are_found()
    ensures found { TablesAreFound }
    ensures sections { SectionTablesAreFound }
{
    tables_are_placed();
    dynamic_sections_are_read();
    entries_are_read();
    words_fit();
    pair_is_placed();
    fixed_outputs_move_nothing();
}

/// The dynamic section requires a dynamic linker to bind each symbol at load time, and describes the entries of the tables.
pub fn dynamic_sections_inform_linker()
    ensures { DynamicSectionsInformLinker }
{
    file_header_is_read();
    program_header_is_read();
    dynamic_entry_is_read();
    rela_is_read();
    relr_is_read();
    dynamic_sections_are_read();
    dynamic_sections_are_there();
    tables_are_found();
}

/// In a legal world each entry of a slot, of a field and of a copy makes the change that the symbol's answer, or its resolver's,
/// gives.
pub fn entries_have_changes()
    ensures { EntriesHaveChanges }
{
    entries_are_known();
}

/// In a layout without faults each copied symbol has an address and an answer.
pub fn copies_are_there()
    ensures { CopiesAreThere }
{}

/// Over the loaded segments each packed place and each entry makes a known change, and no two share a byte.
pub fn tables_are_made()
    ensures { TablesAreMade }
{
    sections_are_in_segments();
    sections_are_stored();
    segments_are_loadable();
    slots_are_stored();
    entries_have_changes();
    copies_are_there();
    numbers_are_read();
    entries_make_changes();
    tables_are_applied();
    entries_store_words();
    relr_slot_is_a_run();
    places_are_loaded();
    places_ascend();
    blocks_are_whole();
}

/// After the tables were applied, the base is added to each address, whether its place is packed or has an entry. Each field that
/// is left to an entry and each slot has the value that the entry gives it. Each copy has the bytes of its answer, and every
/// other byte is as before.
pub fn memory_has_changes()
    ensures { MemoryHasChanges }
{
    sections_are_in_segments();
    sections_are_stored();
    segments_are_loadable();
    slots_are_stored();
    texts_are_stored();
    file_bytes_are_stored();
    thunks_are_there();
    entries_have_changes();
    copies_are_there();
    numbers_are_read();
    entries_make_changes();
    tables_are_applied();
    entries_store_words();
    relr_slot_is_a_run();
    places_are_loaded();
    places_ascend();
    blocks_are_whole();
    slots_are_placed();
}

/// The loader accepts the image of an output in every legal world, and memory has each kept section as decided, the slots, and
/// the copies.
pub fn images_are_loaded()
    ensures { ImagesAreLoaded }
{
    headers_are_present();
    segments_are_loadable();
    tables_are_found();
    tables_are_made();
    tables_are_applied();
    memory_has_changes();
    dynamic_images_are_loaded();
    static_images_are_loaded();
}

/// The loader accepts an image only for debuggers in every legal world, without tables to apply, and memory has each kept section
/// as the file has it.
pub fn debug_images_are_loaded()
    ensures { DebugImagesAreLoaded }
{
    headers_are_present();
    sections_are_stored();
    texts_are_stored();
    file_bytes_are_stored();
    segments_are_loadable();
    dynamic_images_are_loaded();
    static_images_are_loaded();
}
