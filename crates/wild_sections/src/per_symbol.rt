//! Tables of what the first file with a symbol says of it, for all symbols. If the files' symbol ranges ascend, each symbol is visited
//! once.
ghost use Rattle.std.specs.Prelude.{◌≡◌, ℕ, ◌<◌, [], ◌∷◌, length, None, slice_index_or};
ghost use Rattle.std.specs.Option.{option_or};
ghost use Rattle.wild_types.specs.Lookups.{files_of};
ghost use Rattle.wild_symbols.specs.SymbolNumbers.{found};
ghost use Rattle.wild_sections.specs.SymbolAddresses.{file_symbol_address};

use wild_types::{File, Layout, Place, Symbol};

/// A property of a symbol in a file.
pub(crate) trait PerSymbol: Copy {
    ghost use Rattle.std.specs.Prelude.{◌≡◌, ℕ};
    ghost use Rattle.wild_types.specs.declared.file.File.{File};
    ghost use Rattle.wild_types.specs.declared.layout.Layout.{Layout};

    // The property of symbol `index` in a file
    ghost recorded: { Layout → ℕ → File → Self };

    /// The property of symbol `index` in a file.
    fn record_symbol(layout: &Layout, index: usize, file: &File) -> Self
        ensures { result ≡ recorded layout.now index file.now };
}

/// The address of a symbol of a file.
fn file_symbol_address(layout: &Layout, file: &File, symbol: &Symbol) -> Option<u64>
    ensures { result ≡ file_symbol_address layout.now symbol.now.place symbol.now.value file.now }
{
    let Place::Section(index) = symbol.place else {
        return None;
    };
    match file.sections.as_slice().get(index) {
        Some(section) if section.has_address(layout) => {
            Some(section.address.wrapping_add(symbol.value))
        }
        _ => None,
    }
}

/// The property "address": None if the symbol has no address in the file.
impl PerSymbol for Option<u64> {
    ghost use Rattle.wild_sections.specs.SymbolAddresses.{address_in};

    ghost recorded = { address_in };

    #[inline]
    fn record_symbol(layout: &Layout, index: usize, file: &File) -> Option<u64> {
        match layout.symbols.as_slice().get(index) {
            Some(symbol) => file_symbol_address(layout, file, symbol),
            None => None,
        }
    }
}

/// Records the symbols of a file that no earlier file has.
fn place_file<T: PerSymbol>(layout: &Layout, file: &File, placed: &mut [Option<T>])
    ensures { (k : ℕ) → k < length placed.old → slice_index_or placed.new k None
        ≡ option_or (slice_index_or placed.old k None) (found (T.recorded layout.now) (file.now ∷ []) k) }
{
    let first = file.first_symbol.0;
    let end = first.saturating_add(file.symbol_count).min(placed.len());
    for i in first..end {
        placed[i] = placed[i].or(Some(T::record_symbol(layout, i, file)));
    }
}

/// Records the symbols of some files.
fn place_files<T: PerSymbol>(layout: &Layout, files: &[File], placed: &mut [Option<T>])
    ensures { (k : ℕ) → k < length placed.old → slice_index_or placed.new k None
        ≡ option_or (slice_index_or placed.old k None) (found (T.recorded layout.now) files.now k) }
{
    for file in files {
        place_file(layout, file, placed);
    }
}

/// Records the symbols of all files.
pub(crate) fn place_groups<T: PerSymbol>(layout: &Layout, placed: &mut [Option<T>])
    ensures { (k : ℕ) → k < length placed.old → slice_index_or placed.new k None
        ≡ option_or (slice_index_or placed.old k None) (found (T.recorded layout.now) (files_of layout.now.groups) k) }
{
    for group in layout.groups.as_slice() {
        place_files(layout, group.files.as_slice(), placed);
    }
}
