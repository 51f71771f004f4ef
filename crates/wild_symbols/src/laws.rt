//! Laws of the symbol tables.
ghost use Rattle.wild_symbols.specs.Runs.{RunsAreRead, RunsCount, RunsKeepEarlierContent, RunsKeepIndexes, RunsWithRoomAreWhole, RunsAreEntries, RunsAreTables, PrefixesAreTheWriters};
ghost use Rattle.wild_table_formats.specs.SymbolLaws.{LengthsOfSymbols, SymbolsAreRead, LengthsOfStrings, StringsAreAppended, StringsAreAtOffsets};
ghost use Rattle.wild_symbols.specs.SlotNames.{SlotNamesAreItems};
ghost use Rattle.wild_table_formats.specs.TableLaws.{LengthsOfSides, SidesOfFiles, SidesOfGroups, LengthsOfIndexes, IndexesHave4Bytes, NamesOfFiles, NamesOfGroups, LengthsOfTexts, SideEntriesAreAtOffsets, SidesAreRead};

use wild_records::symtab_entry_is_read;

/// A symbol table entry has 24 bytes, and symbol k is read at offset 24 k.
pub fn symbols_are_read()
    ensures lengths { LengthsOfSymbols }
    ensures read { SymbolsAreRead }
{
    symtab_entry_is_read();
}

/// A string has its bytes and a zero. Strings are written consecutively, and each is at the offset that was returned for
/// it.
pub fn strings_are_at_offsets()
    ensures lengths { LengthsOfStrings }
    ensures last_string { StringsAreAppended }
    ensures stand { StringsAreAtOffsets }
{}

/// For any list of calls of `define_symbol` and `undefined_symbol`, each successful call appends one symbol. That symbol is
/// read with the fields of the call, and its `st_name` is the offset of the call's name. Extended section indexes are
/// consecutive. If there is room for all symbols, each call succeeds.
pub fn runs_are_read()
    ensures read { RunsAreRead }
    ensures count { RunsCount }
    ensures earlier_content { RunsKeepEarlierContent }
    ensures indexes { RunsKeepIndexes }
    ensures whole { RunsWithRoomAreWhole }
    ensures entries { RunsAreEntries }
    ensures tables { RunsAreTables }
{
    symtab_entry_is_read();
}

/// Calls through a prefix that has room for them write what the same calls of the writer write. When the prefix is dropped,
/// the writer has all its room again.
pub fn prefixes_are_the_writers()
    ensures { PrefixesAreTheWriters }
{}

/// A file has as many local and as many other entries in `.symtab` as `wild_needs` counts for it, and a group as many as its
/// files. There are as many extended section indexes, of 4 bytes each.
pub fn entries_are_counted()
    ensures sides { LengthsOfSides }
    ensures files { SidesOfFiles }
    ensures groups { SidesOfGroups }
    ensures indexes { LengthsOfIndexes }
    ensures bytes { IndexesHave4Bytes }
{}

/// The names of a file's entries are the file's strings, each with its bytes and a zero, and those of a group are its files'.
/// The names of slots and stubs that are written are among those of the file's entries.
pub fn names_are_strings()
    ensures files { NamesOfFiles }
    ensures groups { NamesOfGroups }
    ensures lengths { LengthsOfTexts }
    ensures slots { SlotNamesAreItems }
{}

/// Local entry k, and other entry k, is read at offset 24 k of its list, and its `st_name` is the offset of its name.
pub fn sides_are_read()
    ensures stand { SideEntriesAreAtOffsets }
    ensures read { SidesAreRead }
{
    symtab_entry_is_read();
}
