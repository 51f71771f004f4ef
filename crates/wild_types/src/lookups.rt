//! Look-ups in a layout: sections, parts, symbols, and the bytes of each input section.
ghost use Rattle.std.specs.Prelude.{◌≡◌, ◌+◌, ◌^◌, ◌%◌, ◌<◌, true, length, drop, take, slice_range};
ghost use Rattle.wild_types.specs.FileSymbols.{range_of, own_symbols, loaded_symbols};
ghost use Rattle.wild_types.specs.FileThunks.{block_of, thunks_of};
ghost use Rattle.wild_types.specs.Lookups.{place_of, packs, may_have_relative, writable, allocated, executable, thread_local, kind_at, section_of, is_allocated_section, is_allocated_part, is_without_data, is_header_only, is_header_only_at, is_header_only_part, fills_file, has_data, takes_file_bytes, is_loaded, is_discarded, has_range_bytes, is_filled, is_read, has_written_relocations, is_frame, is_debug, is_counted, has_range, has_counted, has_bytes, brings_bytes, owns_bytes, has_address, canonical, has_symtab, has_many_sections};
ghost use Rattle.wild_types.specs.HeaderOnly.{is_header_only_role, is_omitted};
ghost use Rattle.wild_types.specs.SymbolSlots.{names_slot, names_stub};

use crate::file::File;
use crate::index::{SectionIndex, SymbolIndex};
use crate::input::{InputRelocation, InputSection, Slot};
use crate::layout::{Layout, Thunk};
use crate::part::{Role, part_with};
use crate::section::Section;
use crate::symbol::{Symbol, got_of, is_own, plt_of};
use wild_records::abi::section::{
    SHF_ALLOC, SHF_EXECINSTR, SHF_TLS, SHF_WRITE, SHN_LORESERVE, SHT_NOBITS, SHT_NOTE, SHT_NULL,
};

/// Whether the flags have `SHF_WRITE`.
#[tactic(auto, unfolding(crate::specs::Lookups::bit))]
pub fn is_writable(flags: u64) -> bool
    ensures { result ≡ writable flags }
{
    flags & SHF_WRITE == SHF_WRITE
}

/// Whether the flags have `SHF_ALLOC`.
#[tactic(auto, unfolding(crate::specs::Lookups::bit))]
pub fn is_allocated(flags: u64) -> bool
    ensures { result ≡ allocated flags }
{
    flags & SHF_ALLOC == SHF_ALLOC
}

/// Whether the flags have `SHF_EXECINSTR`.
#[tactic(auto, unfolding(crate::specs::Lookups::bit))]
pub fn is_executable(flags: u64) -> bool
    ensures { result ≡ executable flags }
{
    flags & SHF_EXECINSTR == SHF_EXECINSTR
}

/// Whether the flags have `SHF_TLS`.
#[tactic(auto, unfolding(crate::specs::Lookups::bit))]
pub fn is_thread_local(flags: u64) -> bool
    ensures { result ≡ thread_local flags }
{
    flags & SHF_TLS == SHF_TLS
}

impl Slot {
    /// Whether the section is a loaded one, placed in file order.
    pub fn is_loaded(self) -> bool
        ensures { result ≡ is_loaded self }
    {
        matches!(self, Slot::Loaded)
    }

    /// Whether the section is an `.eh_frame` section.
    pub fn is_frame(self) -> bool
        ensures { result ≡ is_frame self }
    {
        matches!(self, Slot::Frame)
    }

    /// Whether the section is one that debuggers read.
    pub fn is_debug(self) -> bool
        ensures { result ≡ is_debug self }
    {
        matches!(self, Slot::Debug)
    }

    /// Whether the section is placed in its part in the order of the files.
    pub fn has_range(self) -> bool
        ensures { result ≡ has_range self }
    {
        matches!(self, Slot::Loaded | Slot::Debug | Slot::Rela | Slot::Group)
    }

    /// Whether its relocations are counted, if it has data.
    fn has_counted(self) -> bool
        ensures { result ≡ has_counted self }
    {
        matches!(self, Slot::Loaded | Slot::Sorted | Slot::Debug)
    }

    /// Whether the section is discarded.
    pub fn is_discarded(self) -> bool
        ensures { result ≡ is_discarded self }
    {
        matches!(self, Slot::Discard)
    }
}

impl Layout {
    /// The type of the section with that header index; `SHT_NULL` if there is none.
    pub fn kind_at(&self, index: SectionIndex) -> u32
        ensures { result ≡ kind_at self.now index }
    {
        match self.sections.as_slice().get(index.0) {
            Some(section) => section.kind,
            None => SHT_NULL,
        }
    }

    /// The header index of the section that contains a part; 0 if there is none.
    pub fn section_of(&self, part: usize) -> SectionIndex
        ensures { result ≡ section_of self.now part }
    {
        match self.parts.as_slice().get(part) {
            Some(part) => part.section,
            None => SectionIndex(0),
        }
    }

    /// Whether the section is not section 0 and has `SHF_ALLOC`.
    pub fn is_allocated_section(&self, index: SectionIndex) -> bool
        ensures { result ≡ is_allocated_section self.now index }
    {
        let flags = match self.sections.as_slice().get(index.0) {
            Some(section) => section.flags,
            None => 0,
        };
        index.0 != 0 && is_allocated(flags)
    }

    /// Whether a part is in an allocated section.
    pub fn is_allocated_part(&self, part: usize) -> bool
        ensures { result ≡ is_allocated_part self.now part }
    {
        self.is_allocated_section(self.section_of(part))
    }

    /// Whether only the section's header is written: the image is a debug file (`--only-keep-debug`), and the section is allocated. Notes
    /// are written nevertheless, because debuggers identify the image by them.
    pub fn is_header_only(&self, section: &Section) -> bool
        ensures { result ≡ is_header_only self.now section.now }
    {
        self.options.only_keep_debug && is_allocated(section.flags) && section.kind != SHT_NOTE
    }

    /// Whether only the header is written of the section with that index; false for section 0. The section is looked up only for a debug
    /// file.
    #[tactic(auto, using(crate::proofs::LookupLemmas::not_hollow_at))]
    pub fn is_header_only_at(&self, index: SectionIndex) -> bool
        ensures { result ≡ is_header_only_at self.now index }
    {
        if !self.options.only_keep_debug {
            return false;
        }
        match self.sections.as_slice().get(index.0) {
            Some(section) => index.0 != 0 && self.is_header_only(section),
            None => false,
        }
    }

    /// Whether a part is in a section of which only the header is written.
    #[tactic(auto, using(crate::proofs::LookupLemmas::not_hollow_part))]
    pub fn is_header_only_part(&self, part: usize) -> bool
        ensures { result ≡ is_header_only_part self.now part }
    {
        self.options.only_keep_debug && self.is_header_only_at(self.section_of(part))
    }

    /// Whether the first part of a role is in a section of which only the header is written.
    #[tactic(auto, using(crate::proofs::LookupLemmas::not_hollow_role))]
    pub fn is_header_only_role(&self, role: Role) -> bool
        ensures { result ≡ is_header_only_role self.now role }
    {
        if !self.options.only_keep_debug {
            return false;
        }
        match part_with(role, self.parts.as_slice()) {
            Some(part) => self.is_header_only_at(part.section),
            None => false,
        }
    }

    /// Whether a section other than section 0 has bytes in the file.
    pub fn fills_file(&self, section: &Section) -> bool
        ensures { result ≡ fills_file self.now section.now }
    {
        !section.is_without_data() && !self.is_header_only(section)
    }

    /// Whether the section with that header index has data: its type is not `SHT_NOBITS`. The file has these bytes unless only the section's
    /// header is written.
    pub fn has_data(&self, index: SectionIndex) -> bool
        ensures { result ≡ has_data self.now index }
    {
        match self.sections.as_slice().get(index.0) {
            Some(section) => !section.is_without_data(),
            None => true,
        }
    }

    /// Whether the contents of that section take bytes of the file.
    pub fn takes_file_bytes(&self, index: SectionIndex) -> bool
        ensures { result ≡ takes_file_bytes self.now index }
    {
        self.has_data(index) && !self.is_header_only_at(index)
    }

    /// The symbol that defines a symbol.
    pub fn canonical(&self, symbol: SymbolIndex) -> SymbolIndex
        ensures { result ≡ canonical self.now symbol }
    {
        match self.symbols.as_slice().get(symbol.0) {
            Some(found) => found.definition.unwrap_or(symbol),
            None => symbol,
        }
    }

    /// The symbols from number `first` on, at most `count` of them.
    pub fn symbols_from(&self, first: usize, count: usize) -> &[Symbol]
        ensures are { result.now ≡ slice_range self.now.symbols first (first + count) }
        ensures few { first + length result.now < 2 ^ 64 }
    {
        let symbols = self.symbols.as_slice();
        let start = first.min(symbols.len());
        let end = start + count.min(symbols.len() - start);
        &symbols[start..end]
    }

    /// The symbols whose slots a file writes.
    pub fn own_symbols(&self, file: &File) -> &[Symbol]
        ensures are { result.now ≡ own_symbols self.now file.now }
        ensures few { file.now.first_symbol + length result.now < 2 ^ 64 }
    {
        let first = file.first_symbol.0;
        if file.role.writes_slots() {
            self.symbols_from(first, file.symbol_count)
        } else {
            &[]
        }
    }

    /// The thunks of a block; empty if there is no such block.
    pub fn block_of(&self, block: usize) -> &[Thunk]
        ensures { result.now ≡ block_of self.now block }
    {
        match self.thunk_blocks.as_slice().get(block) {
            Some(thunks) => thunks.as_slice(),
            None => &[],
        }
    }

    /// The thunks that a file writes after its sections: all thunks of its block if it owns the block.
    pub fn thunks_of(&self, file: &File) -> &[Thunk]
        ensures { result.now ≡ thunks_of self.now file.now }
    {
        if file.owns_thunk_block {
            self.block_of(file.thunk_block)
        } else {
            &[]
        }
    }

    /// The symbols of a file.
    pub fn symbols_of(&self, file: &File) -> &[Symbol]
        ensures are { result.now ≡ range_of self.now.symbols file.now }
        ensures few { file.now.first_symbol + length result.now < 2 ^ 64 }
    {
        symbols_in_range(
            self.symbols.as_slice(),
            file.first_symbol.0,
            file.symbol_count,
        )
    }

    /// Whether the output has a `.symtab`.
    pub fn has_symtab(&self) -> bool
        ensures { result ≡ has_symtab self.now }
    {
        self.kind.is_partial_link() || !self.options.strip_all
    }

    /// The symbols of a file, if it is loaded.
    pub fn loaded_symbols(&self, file: &File) -> &[Symbol]
        ensures are { result.now ≡ loaded_symbols self.now file.now }
        ensures few { file.now.first_symbol + length result.now < 2 ^ 64 }
    {
        let symbols = self.symbols_of(file);
        if file.role.is_loaded() { symbols } else { &[] }
    }

    /// Whether a relative relocation of that place is packed as RELR: the option is set, and the place is even.
    pub fn packs(&self, place: u64) -> bool
        ensures is { result ≡ packs self.now place }
        ensures even { result ≡ true → place % 2 ≡ 0 }
    {
        self.options.relr && place % 2 == 0
    }

    /// Whether a section may hold addresses that need relative relocations: the output is position-independent, and the section's
    /// relocations are read.
    pub fn may_have_relative(&self, section: &InputSection) -> bool
        ensures { result ≡ may_have_relative self.now section.now }
    {
        self.kind.is_position_independent() && section.is_read()
    }

    /// Whether the slot of the symbol with that number has a name in `.symtab`.
    pub fn names_slot(&self, index: usize, symbol: &Symbol) -> bool
        ensures { result ≡ names_slot self.now index symbol.now }
    {
        self.options.got_plt_syms
            && is_own(symbol, index)
            && symbol.flags.needs_got()
            && got_of(symbol).is_some()
    }

    /// Whether its stub has a name in `.symtab`.
    pub fn names_stub(&self, index: usize, symbol: &Symbol) -> bool
        ensures { result ≡ names_stub self.now index symbol.now }
    {
        self.names_slot(index, symbol) && symbol.flags.needs_plt() && plt_of(symbol).is_some()
    }

    /// Whether there are more sections than a 16-bit index can number.
    pub fn has_many_sections(&self) -> bool
        ensures { result ≡ has_many_sections self.now }
    {
        self.sections.len() > SHN_LORESERVE as usize
    }
}

impl Section {
    /// Whether the section is `SHT_NOBITS`: it takes memory, but no bytes in the file.
    pub fn is_without_data(&self) -> bool
        ensures { result ≡ is_without_data self.now }
    {
        self.kind == SHT_NOBITS
    }
}

impl InputSection {
    /// Whether the section contributes bytes. A section without data contributes zeros if its output section has data; the bytes of a
    /// table of relocations are generated.
    pub fn has_bytes(&self, layout: &Layout) -> bool
        ensures { result ≡ has_bytes layout.now self.now }
    {
        if self.nobits {
            self.slot.has_counted()
                && self.size != 0
                && layout.has_data(layout.section_of(self.part))
        } else if matches!(self.slot, Slot::Rela) {
            self.size != 0
        } else {
            self.bytes.len() != 0
        }
    }

    /// Whether the section is placed in its part in file order and contributes bytes: its own, zeros, or generated ones.
    pub fn has_range_bytes(&self, layout: &Layout) -> bool
        ensures { result ≡ has_range_bytes layout.now self.now }
    {
        self.slot.has_range() && self.has_bytes(layout)
    }

    /// As `has_range_bytes`, and these bytes are in the image.
    pub fn is_filled(&self, layout: &Layout) -> bool
        ensures { result ≡ is_filled layout.now self.now }
    {
        self.has_range_bytes(layout) && !layout.is_header_only_part(self.part)
    }

    /// Whether the section is placed, in file order or in sort order, and contributes bytes.
    pub fn brings_bytes(&self, layout: &Layout) -> bool
        ensures { result ≡ brings_bytes layout.now self.now }
    {
        (self.slot.has_range() || self.slot.has_counted()) && self.has_bytes(layout)
    }

    /// As `brings_bytes`, and these bytes are in the image.
    pub fn owns_bytes(&self, layout: &Layout) -> bool
        ensures { result ≡ owns_bytes layout.now self.now }
    {
        self.brings_bytes(layout) && !layout.is_header_only_part(self.part)
    }

    /// Whether the input section is omitted: only the header is written of the section that contains its part. Frames belong to the part
    /// of frames.
    pub fn is_omitted(&self, layout: &Layout) -> bool
        ensures { result ≡ is_omitted layout.now self.now }
    {
        if self.slot.is_frame() {
            layout.is_header_only_role(Role::EhFrame)
        } else {
            layout.is_header_only_part(self.part)
        }
    }

    /// Whether the relocations are read: those of a loaded section or of frames, if it has data.
    pub fn is_read(&self) -> bool
        ensures { result ≡ is_read self.now }
    {
        matches!(self.slot, Slot::Loaded | Slot::Frame) && !self.nobits
    }

    /// Whether the relocations are applied to the section's bytes: those of a loaded section, of frames or of a debug section, if it has
    /// data.
    pub fn has_written_relocations(&self) -> bool
        ensures { result ≡ has_written_relocations self.now }
    {
        matches!(self.slot, Slot::Loaded | Slot::Frame | Slot::Debug) && !self.nobits
    }

    /// Whether the relocations are counted for the output section: those of a loaded section, of a sorted one or of a debug section, if
    /// it has data.
    pub fn is_counted(&self) -> bool
        ensures { result ≡ is_counted self.now }
    {
        self.slot.has_counted() && !self.nobits
    }

    /// Whether the section has an address: it is not discarded, and its address is not 0 or its part is not allocated.
    pub fn has_address(&self, layout: &Layout) -> bool
        ensures { result ≡ has_address layout.now self.now }
    {
        !self.slot.is_discarded() && (self.address != 0 || !layout.is_allocated_part(self.part))
    }
}

impl InputRelocation {
    /// The address of the relocated field if the section's bytes are at `address`, modulo 2^64.
    pub fn place_from(&self, address: u64) -> u64
        ensures { result ≡ place_of address self.now }
    {
        address.wrapping_add(self.offset)
    }
}

/// At most `count` symbols from `first` on.
pub fn symbols_in_range(symbols: &[Symbol], first: usize, count: usize) -> &[Symbol]
    ensures { result.now ≡ take count (drop first symbols.now) }
{
    let later = if first < symbols.len() {
        &symbols[first..]
    } else {
        &[]
    };
    if count < later.len() {
        &later[..count]
    } else {
        later
    }
}
