//! What the dynamic symbol table needs to know of a symbol's file and section.
ghost use Rattle.std.specs.Prelude.{◌≡◌, None, Some, slice_get};
ghost use Rattle.wild_needs.specs.DynamicSymbols.{section_of_input, output_section};
ghost use Rattle.wild_sections.specs.SymbolFiles.{symbol_file_of, symbol_file_in};

use crate::per_symbol::PerSymbol;
use wild_types::{File, FileRole, Layout, Place, SectionIndex};

/// The role of a symbol's file, and the header index of the output section that the symbol is in, 0 if there is none.
#[derive(Clone, Copy)]
pub struct SymbolFile {
    pub role: FileRole,
    pub section: SectionIndex,
}

/// The header index of the output section of an input section; 0 if there is none.
fn section_of_input(layout: &Layout, file: &File, place: usize) -> SectionIndex
    ensures { result ≡ section_of_input layout.now (slice_get file.now.sections place) }
{
    match file.sections.as_slice().get(place) {
        Some(section) => layout.section_of(section.part),
        None => SectionIndex(0),
    }
}

/// The header index of the output section of a place in a file; 0 if there is none.
pub fn section_in_file(layout: &Layout, file: &File, place: Place) -> SectionIndex
    ensures { result ≡ output_section layout.now (Some file.now) place }
{
    match place {
        Place::Output(section) => section,
        Place::Section(index) => section_of_input(layout, file, index),
        _ => SectionIndex(0),
    }
}

impl SymbolFile {
    /// These of a symbol of a file.
    fn in_file(layout: &Layout, file: &File, place: Place) -> SymbolFile
        ensures { result ≡ symbol_file_of layout.now place (Some file.now) }
    {
        SymbolFile {
            role: file.role,
            section: section_in_file(layout, file, place),
        }
    }

    /// These of a symbol that is in no file.
    pub(crate) fn without_file(place: Place) -> SymbolFile
        ensures { (layout : Layout) → result ≡ symbol_file_of layout place None }
    {
        let section = match place {
            Place::Output(section) => section,
            _ => SectionIndex(0),
        };
        SymbolFile {
            role: FileRole::Object,
            section,
        }
    }
}

impl PerSymbol for SymbolFile {
    ghost use Rattle.wild_sections.specs.SymbolFiles.{symbol_file_in};

    ghost recorded = { symbol_file_in };

    fn record_symbol(layout: &Layout, index: usize, file: &File) -> SymbolFile {
        match layout.symbols.as_slice().get(index) {
            Some(symbol) => SymbolFile::in_file(layout, file, symbol.place),
            None => SymbolFile::in_file(layout, file, Place::Undefined),
        }
    }
}
