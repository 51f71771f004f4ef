//! The content of relocation tables and section groups of a relocatable output (gABI, "Relocation", "Section Groups").
ghost use Rattle.std.specs.Prelude.{◌≡◌, ◌+◌, ◌*◌, ◌<◌, ◌≤◌, true, length, take, option_and_then, option_copied};
ghost use Rattle.wild_words.specs.Words.{place, word};
ghost use Rattle.wild_words.specs.Record.{spell};
ghost use Rattle.wild_records.specs.Relocations.{rela_fields, rela_size};
ghost use Rattle.wild_types.specs.Kinds.{is_partial_link};
ghost use Rattle.wild_types.specs.Lookups.{file_of, files_of};
ghost use Rattle.wild_placement.specs.PlacedSections.{base_of};
ghost use Rattle.wild_table_formats.specs.SectionSymbols.{symbol_section, section_at, is_section_type};
ghost use Rattle.wild_layout.specs.Partial.{shift_of, shift, rela_of, rela_bytes_of, group_words};

use crate::resolve::sum;
use crate::values::Resolved;
use wild_records::Rela;
use wild_records::abi::symbol::STT_SECTION;
use wild_relax::Arch;
use wild_symbols::named_index;
use wild_types::{File, InputRelocation, InputSection, Place, SectionIndex, Symbol, SymbolIndex};
use wild_words::put;

/// The offset of an input section in its output section; 0 for a section that is kept as an output section of its own.
fn base_of(section: &InputSection) -> u64
    ensures { result ≡ base_of section.now }
{
    match section.singleton {
        Some(_) => 0,
        None => section.address,
    }
}

/// The offset in its output section of a section symbol's section; 0 if there is none.
fn shift_of(section: Option<&InputSection>) -> u64
    ensures { result ≡ shift_of (option_copied section.entry) }
{
    match section {
        Some(section) => base_of(section),
        None => 0,
    }
}

/// The input section of a file at a place.
fn section_at(place: Place, file: &File) -> Option<&InputSection>
    ensures { option_copied result ≡ section_at place file.now }
{
    match place {
        Place::Section(index) => file.sections.as_slice().get(index),
        _ => None,
    }
}

/// Whether a symbol is a section symbol (STT_SECTION).
fn is_section_type(symbol: &Symbol) -> bool
    ensures { result ≡ is_section_type symbol.now }
{
    symbol.info % 16 == STT_SECTION
}

impl<'a, A: Arch> Resolved<'a, A> {
    /// The input section at a place in the symbol's file, for a relocatable output.
    fn section_in_its_file(&self, index: SymbolIndex, place: Place) -> Option<&'a InputSection>
        requires partial { is_partial_link self.now.layout.now.kind ≡ true }
        requires known { index < length self.now.layout.now.symbols }
        ensures { option_copied result ≡ option_and_then (section_at place) (file_of (files_of self.now.layout.now.groups) index) }
    {
        match self.file(index) {
            Some(file) => section_at(place, file),
            None => None,
        }
    }

    /// The input section that a symbol is in, for a relocatable output.
    fn symbol_section(&self, index: SymbolIndex) -> Option<&'a InputSection>
        requires { is_partial_link self.now.layout.now.kind ≡ true }
        ensures { option_copied result ≡ symbol_section self.now.layout.now index }
    {
        match self.layout.symbols.as_slice().get(index.0) {
            Some(symbol) => self.section_in_its_file(index, symbol.place),
            None => None,
        }
    }

    /// The input section that a symbol is in, if the output is relocatable.
    pub fn section_within(&self, index: SymbolIndex) -> Option<&'a InputSection>
        ensures { is_partial_link self.now.layout.now.kind ≡ true → option_copied result ≡ symbol_section self.now.layout.now index }
    {
        if self.layout.kind.is_partial_link() {
            self.symbol_section(index)
        } else {
            None
        }
    }

    /// What is added to a relocation's addend if it is redirected from the input's section symbol to the output's; otherwise 0.
    fn shift(&self, symbol: Option<SymbolIndex>) -> u64
        requires { is_partial_link self.now.layout.now.kind ≡ true }
        ensures { result ≡ shift self.now.layout.now symbol }
    {
        let Some(index) = symbol else {
            return 0;
        };
        match self.layout.symbols.as_slice().get(index.0) {
            Some(found) if is_section_type(found) => shift_of(self.symbol_section(index)),
            _ => 0,
        }
    }

    /// The RELA entry of a relocation in a relocatable output. Its offset is that of the relocation, already in the output section.
    pub fn rela_of(&self, relocation: &InputRelocation) -> Rela
        requires { is_partial_link self.now.layout.now.kind ≡ true }
        ensures { result ≡ rela_of self.now.layout.now relocation.now }
    {
        let index = named_index(self.indexes(), self.layout, relocation.symbol);
        let addend = sum(self.shift(relocation.symbol), relocation.addend);
        Rela {
            offset: relocation.offset,
            number: relocation.number,
            symbol: (index as u64 % (1 << 32)) as u32,
            addend: addend.cast_signed(),
        }
    }
}

/// Writes an entry at an offset.
fn put_rela(out: &mut [u8], at: usize, entry: Rela)
    requires { at + rela_size ≤ length out.old }
    ensures { out.new ≡ place at (spell (rela_fields entry)) out.old }
{
    let mut bytes = [0; Rela::SIZE];
    entry.put(&mut bytes);
    put(out, at, &bytes);
}

/// Writes a relocation table that is placed with the relocations of its target section. Allocates nothing.
#[tactic(auto, using(crate::proofs::PartialLemmas::entries))]
pub fn write_rela_section<A: Arch>(resolved: &Resolved<A>, section: &InputSection, out: &mut [u8])
    requires partial { is_partial_link resolved.now.layout.now.kind ≡ true }
    requires room { length out.old ≡ rela_size * length section.now.relocations }
    ensures { out.new ≡ rela_bytes_of resolved.now.layout.now section.now }
{
    for (i, relocation) in section.relocations.as_slice().iter().enumerate() {
        put_rela(out, Rela::SIZE * i, resolved.rela_of(relocation));
    }
}

/// The first bytes, as many as a flag word has.
fn flags_of(bytes: &[u8]) -> &[u8]
    ensures { result.now ≡ take 4 bytes.now }
{
    &bytes[..bytes.len().min(4)]
}

/// Writes the header index of a group member at an offset.
#[tactic(auto, using(wild_words::proofs::WordLemmas::low_word_4))]
fn put_member(out: &mut [u8], at: usize, member: SectionIndex)
    requires { at + 4 ≤ length out.old }
    ensures { out.new ≡ place at (word 4 member) out.old }
{
    let bytes = (member.0 as u64).to_le_bytes();
    put(out, at, &bytes[..4]);
}

/// Writes a section group: its flags, copied, and the header indexes of its members' output sections.
#[tactic(auto, using(crate::proofs::PartialLemmas::members), unfolding(wild_layout::specs::Partial::group_words))]
pub fn write_group_section(section: &InputSection, out: &mut [u8])
    requires { length out.old ≡ length (group_words section.now) }
    ensures { out.new ≡ group_words section.now }
{
    let flags = flags_of(section.bytes.as_slice());
    put(out, 0, flags);
    for (i, member) in section.members.as_slice().iter().enumerate() {
        put_member(out, flags.len() + 4 * i, *member);
    }
}
