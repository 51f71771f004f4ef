//! The frames of input sections (LSB, "The .eh_frame section").
ghost use Rattle.std.specs.Prelude.{◌≡◌, option_copied};
ghost use Rattle.wild_types.specs.Lookups.{files_of, file_of};
ghost use Rattle.wild_placement.specs.FrameInputs.{section_target, has_symbol, defining_file_of, target_in, target_by, target_of, frames_of};

use wild_frames::{FrameSource, Target};
use wild_types::{
    File, InputRelocation, InputSection, Layout, Place, Symbol, SymbolIndex, field_bytes,
};

/// The frames of an input section of a file.
#[derive(Clone, Copy)]
pub struct FileFrames<'a> {
    pub layout: &'a Layout,
    pub file: &'a File,
    pub section: &'a InputSection,
}

/// Where a symbol in that input section is defined, as far as it decides which FDEs are kept.
fn section_target(layout: &Layout, section: &InputSection) -> Target
    ensures { result ≡ section_target layout.now (Some section.now) }
{
    if section.has_address(layout) && section.size != 0 {
        Target::Loaded
    } else {
        Target::Discarded
    }
}

/// As `section_target`, for the file's section number `place`.
fn target_in(layout: &Layout, place: usize, file: &File) -> Target
    ensures { result ≡ target_in layout.now place (Some file.now) }
{
    match file.sections.as_slice().get(place) {
        Some(section) => section_target(layout, section),
        None => Target::NoSection,
    }
}

/// Whether the file's range of symbols contains the symbol.
fn has_symbol(file: &File, symbol: SymbolIndex) -> bool
    ensures { result ≡ has_symbol file.now symbol }
{
    let end = file.first_symbol.0 as u128 + file.symbol_count as u128;
    file.first_symbol.0 <= symbol.0 && (symbol.0 as u128) < end
}

/// The first of the files whose range of symbols contains the symbol.
fn find_file(files: &[File], symbol: SymbolIndex) -> Option<&File>
    ensures { option_copied result ≡ file_of files.now symbol }
{
    for file in files {
        if has_symbol(file, symbol) {
            return Some(file);
        }
    }
    None
}

/// The first file of the layout whose range of symbols contains the symbol.
fn file_of(layout: &Layout, symbol: SymbolIndex) -> Option<&File>
    ensures { option_copied result ≡ file_of (files_of layout.now.groups) symbol }
{
    for group in layout.groups.as_slice() {
        match find_file(group.files.as_slice(), symbol) {
            Some(file) => return Some(file),
            None => {}
        }
    }
    None
}

/// The target for a symbol of another file, in section number `place` of that file.
fn target_in_other_file(layout: &Layout, symbol: SymbolIndex, place: usize) -> Target
    ensures { result ≡ target_in layout.now place (file_of (files_of layout.now.groups) symbol) }
{
    match file_of(layout, symbol) {
        Some(file) => target_in(layout, place, file),
        None => Target::NoSection,
    }
}

/// The target for a symbol in section number `place` of its file. If the symbol is not the file's own, all files are searched.
fn target_of_place(layout: &Layout, file: &File, symbol: SymbolIndex, place: usize) -> Target
    ensures { result ≡ target_in layout.now place (defining_file_of layout.now file.now symbol) }
{
    if has_symbol(file, symbol) {
        target_in(layout, place, file)
    } else {
        target_in_other_file(layout, symbol, place)
    }
}

/// The target for a symbol.
fn target_by(layout: &Layout, file: &File, symbol: SymbolIndex) -> Target
    ensures { result ≡ target_by layout.now file.now (Some symbol) }
{
    match layout.symbols.as_slice().get(symbol.0) {
        Some(found) => match found.place {
            Place::Section(place) => target_of_place(layout, file, symbol, place),
            _ => Target::NoSection,
        },
        None => Target::NoSection,
    }
}

impl FrameSource for FileFrames<'_> {
    ghost frames = { λ s. frames_of s.layout.now s.file.now s.section.now };

    fn bytes(&self) -> &[u8] {
        if self.section.nobits {
            &[]
        } else {
            self.section.bytes.as_slice()
        }
    }

    fn relocations(&self) -> &[InputRelocation] {
        if self.section.nobits {
            &[]
        } else {
            self.section.relocations.as_slice()
        }
    }

    fn width(&self, relocation: &InputRelocation) -> usize {
        field_bytes(self.layout.machine, relocation.number)
    }

    #[tactic(auto, unfolding(crate::specs::FrameInputs::target_of))]
    fn target(&self, relocation: &InputRelocation) -> Target {
        match relocation.symbol {
            Some(symbol) => target_by(self.layout, self.file, symbol),
            None => Target::NoSection,
        }
    }
}
