//! Reading an image's symbol tables and their strings.
#![tactic(auto)]

ghost use Rattle.wild_names.specs.FieldLaws.{ListedSymbolsHaveFields, LocalSymbolsAreCounted, TableSymbolsHaveFields};
ghost use Rattle.wild_names.specs.IndexLaws.{LongIndexesAreWritten};
ghost use Rattle.wild_names.specs.Laws.{LibrariesAreNamed, SymbolTablesAreThere, SymbolsAreInTable, TableSymbolsAreInParts};
ghost use Rattle.wild_names.specs.VersionLaws.{DefinitionsAreWritten, NeedsAreWritten, VersionsAreWritten};
ghost use Rattle.wild_names.specs.LowerLaws.{ImageLaws, NameLaws};
ghost use Rattle.wild_names.specs.NoteLaws.{NotesAreWritten, SearchTablesAreWritten};
ghost use Rattle.wild_names.specs.ReadLaws.{DynamicSymbolsAreRead};
ghost use Rattle.wild_names.specs.LookUpLaws.{GnuLookUpsFind, LookUpsWithoutTable, SysvLookUpsFind};

use wild_geometry::{layouts_are_laid_out, tables_are_placed};
use wild_hashes::{gnu_look_up_finds_the_first, neighbours_ascend, sysv_look_up_finds_the_first};
use wild_headers::headers_are_read;
use wild_loaded::{dynamic_sections_are_there, headers_are_present};
use wild_records::{dynamic_entry_is_read, file_header_is_read, program_header_is_read};
use wild_symbols::{entries_are_counted, names_are_strings};
use wild_table_formats::dynamic_sections_are_read;
use wild_versions::{definitions_are_read, needs_are_read, symbol_versions_are_read};
use wild_words::fields_of_records;

mod numbers;
mod objects;
mod versions;

pub use numbers::version_numbers_fit;
pub use objects::{object_tables_are_read, relinking_is_faithful};
pub use versions::{entries_have_versions, versions_are_named};

/// There are a dynamic symbol table and its strings. If both are written, each symbol has its entry, in order, and its name is at
/// the offset in the entry.
pub fn dynamic_symbols_are_in_table()
    ensures there { SymbolTablesAreThere }
    ensures stand { SymbolsAreInTable }
{
    tables_are_placed();
}

/// Each local symbol of .symtab has its entry in one part, each other symbol in the other part, in order. Its name is at the
/// offset in the entry, if the entries and the names are written.
pub fn table_symbols_are_in_parts()
    ensures { TableSymbolsAreInParts }
{
    tables_are_placed();
    names_are_strings();
}

/// If there is a part for them that is written, each entry of .symtab has its extended section index, in order. The index is 0 if
/// the entry itself has the section's index.
pub fn long_indexes_are_written()
    ensures { LongIndexesAreWritten }
{
    tables_are_placed();
    entries_are_counted();
}

/// The path of the interpreter, the note of the build id and that of the properties are in their parts, if these are written. So
/// is the search table of the frames of all files.
pub fn notes_are_written()
    ensures notes { NotesAreWritten }
    ensures search { SearchTablesAreWritten }
{
    tables_are_placed();
}

/// Each library has its entry in the dynamic section, and its name is at the offset in the entry, if both are written.
pub fn libraries_are_named()
    ensures { LibrariesAreNamed }
{
    tables_are_placed();
}

/// In a layout without faults each symbol of both tables has its fields, and its entry has them.
pub fn symbols_have_fields()
    ensures table { TableSymbolsHaveFields }
    ensures listed { ListedSymbolsHaveFields }
{
    layouts_are_laid_out();
}

/// The section header of the local symbols has their number, including the null symbol: one greater than the index of the last
/// one.
pub fn local_symbols_are_counted()
    ensures { LocalSymbolsAreCounted }
{
    entries_are_counted();
    names_are_strings();
    headers_are_read();
    fields_of_records();
}

/// The version of each dynamic symbol is read at the symbol's position. A reader of versions finds exactly those that the output
/// defines, and those that it needs from libraries. Each name is at the offset in its record, if these tables and their names are
/// written.
pub fn versions_are_written()
    ensures versions { VersionsAreWritten }
    ensures definitions { DefinitionsAreWritten }
    ensures needs { NeedsAreWritten }
{
    tables_are_placed();
    symbol_versions_are_read();
    definitions_are_read();
    needs_are_read();
    versions_are_named();
}

/// An image contains the headers, the dynamic section, symbols and their names, and they are read back as they were written.
fn tables_are_read()
    ensures images { ImageLaws }
    ensures names { NameLaws }
{
    layouts_are_laid_out();
    tables_are_placed();
    headers_are_present();
    dynamic_sections_are_there();
    dynamic_sections_are_read();
    dynamic_symbols_are_in_table();
    file_header_is_read();
    program_header_is_read();
    dynamic_entry_is_read();
}

/// In an image with a System V table, of which all is written, the look-up of any name finds the first symbol of that name, or
/// none.
pub fn sysv_names_are_found()
    ensures { SysvLookUpsFind }
{
    tables_are_read();
    sysv_look_up_finds_the_first();
}

/// In an image with a GNU table, of which all is written, the look-up of any name finds the first symbol of that name, or none.
pub fn gnu_names_are_found()
    ensures { GnuLookUpsFind }
{
    tables_are_read();
    gnu_look_up_finds_the_first();
    neighbours_ascend();
}

/// Without the part of a table a look-up in it finds none.
pub fn names_without_a_table()
    ensures { LookUpsWithoutTable }
{
    tables_are_read();
}

/// In an image with a hash table, of which all is written, each dynamic symbol and its name are read back through the tables that the
/// dynamic section names.
pub fn dynamic_symbols_are_read()
    ensures { DynamicSymbolsAreRead }
{
    tables_are_read();
    fields_of_records();
}
