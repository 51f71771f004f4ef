//! The addresses of symbols (gABI, "Symbol Table").
ghost use Rattle.std.specs.Prelude.{◌≡◌, Some, option_and_then, option_copied, option_map, slice_get};
ghost use Rattle.wild_types.specs.Addresses.{address_in_section, address_in_file, placed_value, raw_value};
ghost use Rattle.wild_types.specs.Lookups.{canonical, files_of, file_of};

use crate::file::File;
use crate::index::SymbolIndex;
use crate::input::InputSection;
use crate::layout::Layout;
use crate::symbol::Place;

/// The first file whose range of symbols contains the symbol.
fn find_file(files: &[File], symbol: SymbolIndex) -> Option<&File>
    ensures { option_copied result ≡ file_of files.now symbol }
{
    for file in files {
        let end = file.first_symbol.0 as u128 + file.symbol_count as u128;
        if file.first_symbol.0 <= symbol.0 && (symbol.0 as u128) < end {
            return Some(file);
        }
    }
    None
}

/// The address `value` bytes after the start of an input section; none if the section has no address.
fn address_in_section(layout: &Layout, section: &InputSection, value: u64) -> Option<u64>
    ensures { result ≡ address_in_section layout.now value (Some section.now) }
{
    if section.has_address(layout) {
        Some(section.address.wrapping_add(value))
    } else {
        None
    }
}

/// As `address_in_section`, for the file's input section number `place`.
fn address_in_file(layout: &Layout, file: &File, place: usize, value: u64) -> Option<u64>
    ensures { result ≡ address_in_file layout.now place value (Some file.now) }
{
    match file.sections.as_slice().get(place) {
        Some(section) => address_in_section(layout, section, value),
        None => None,
    }
}

impl Layout {
    /// The first file whose range of symbols contains the symbol.
    fn file_of(&self, symbol: SymbolIndex) -> Option<&File>
        ensures { option_copied result ≡ file_of (files_of self.now.groups) symbol }
    {
        for group in self.groups.as_slice() {
            match find_file(group.files.as_slice(), symbol) {
                Some(file) => return Some(file),
                None => {}
            }
        }
        None
    }

    /// The symbol's address by its place: its value counted from the address of its input section.
    fn placed_value(&self, symbol: SymbolIndex) -> Option<u64>
        ensures { result ≡ placed_value self.now symbol }
    {
        let found = self.symbols.as_slice().get(symbol.0)?;
        match found.place {
            Place::Section(place) => {
                let file = self.file_of(symbol)?;
                address_in_file(self, file, place, found.value)
            }
            _ => None,
        }
    }

    /// The resolved value of the symbol's definition.
    fn decided_value(&self, symbol: SymbolIndex) -> Option<u64>
        ensures { result ≡ option_and_then (λ s. option_map (λ r. r.raw_value) s.resolution) (slice_get self.now.symbols (canonical self.now symbol)) }
    {
        let found = self.symbols.as_slice().get(self.canonical(symbol).0)?;
        Some(found.resolution?.raw_value)
    }

    /// The address of a symbol, if it has one: the resolved value of its definition, else the address of its place. Searches all files
    /// for the symbol's file.
    #[tactic(auto, unfolding(crate::specs::Addresses::raw_value))]
    pub fn raw_value(&self, symbol: SymbolIndex) -> Option<u64>
        ensures { result ≡ raw_value self.now symbol }
    {
        match self.decided_value(symbol) {
            Some(value) => Some(value),
            None => self.placed_value(symbol),
        }
    }
}
