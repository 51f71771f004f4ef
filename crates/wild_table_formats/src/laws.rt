//! What a reader and a loader find in these tables.
ghost use Rattle.wild_table_formats.specs.EntryLaws.{LengthsOfEntries, EntriesAreRead, LoadersAgree, PlacesAreLoaded};
ghost use Rattle.wild_table_formats.specs.DynamicSection.{NeededAreOfLibraries, LengthsOfRecords, LengthsOfDynamic, RecordsAreInOrder, RecordsFit, NothingAfterNullIsRead, EntriesAreFound, TablesAreNamed};

use wild_records::rela_is_read;
use wild_relr::pieces_are_recorded;

/// A RELA entry has 24 bytes, and entry k is read at offset 24 k.
pub fn entries_are_read()
    ensures lengths { LengthsOfEntries }
    ensures read { EntriesAreRead }
{
    rela_is_read();
}

/// A loader decodes RELR words to the places that `wild_relr` says.
pub fn loaders_agree()
    ensures { LoadersAgree }
{}

/// A loader finds each place that was recorded in RELR words, and no other.
pub fn places_are_loaded()
    ensures { PlacesAreLoaded }
{
    pieces_are_recorded();
    loaders_agree();
}

/// The entries of libraries are `DT_NEEDED` entries. After them come the last file's entries and zeros, which fill their
/// share exactly. A reader finds these entries there, ignores all after `DT_NULL`, and finds by each tag its entry's value.
pub fn dynamic_sections_are_read()
    ensures needed { NeededAreOfLibraries }
    ensures records { LengthsOfRecords }
    ensures lengths { LengthsOfDynamic }
    ensures stand { RecordsAreInOrder }
    ensures fit { RecordsFit }
    ensures nothing_after_null { NothingAfterNullIsRead }
    ensures found { EntriesAreFound }
    ensures named { TablesAreNamed }
{}
