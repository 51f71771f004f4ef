//! The symbol indexes in the relocations of a relocatable object (gABI, "Relocation": `r_info`).
ghost use Rattle.std.specs.Prelude.{◌≡◌, ℕ, ◌<◌, [], ◌∷◌, map, length, IfOk, OnOk, None, replicate, slice_index_or};
ghost use Rattle.std.specs.List.{range_with_len};
ghost use Rattle.std.specs.Option.{option_or};
ghost use Rattle.wild_types.specs.Lookups.{files_of};
ghost use Rattle.wild_table_formats.specs.SectionSymbols.{symbol_index, named_index, front_count};
ghost use Rattle.wild_symbols.specs.SymbolNumbers.{HasOwnNumbers, section_symbol_number_at, found};

use crate::numbers::own_numbers;
use crate::section_index::SectionNumbers;
use std::alloc::{AllocError, Global};
use wild_types::{File, Layout, SymbolIndex};

impl SectionNumbers<'_> {
    /// For a section symbol of the input, the index of the symbol of its output section. `index` is its number in the layout.
    fn section_symbol_number_at(
        &self,
        index: usize,
        file: &File,
    ) -> Result<Option<usize>, AllocError>
        ensures { IfOk result (λ n. n ≡ section_symbol_number_at self.now.layout.now index file.now) }
    {
        match self.layout.symbols.as_slice().get(index) {
            Some(symbol) => self.section_symbol_number(file, symbol),
            None => Ok(None),
        }
    }

    /// Notes the index of each symbol of a file, unless an earlier file has the symbol.
    fn note_file(&self, file: &File, notes: &mut [Option<Option<usize>>]) -> Result<(), AllocError>
        ensures { OnOk result ((k : ℕ) → k < length notes.old → slice_index_or notes.new k None
            ≡ option_or (slice_index_or notes.old k None) (found (section_symbol_number_at self.now.layout.now) (file.now ∷ []) k)) }
    {
        let first = file.first_symbol.0;
        let end = first.saturating_add(file.symbol_count).min(notes.len());
        for i in first..end {
            notes[i] = notes[i].or(Some(self.section_symbol_number_at(i, file)?));
        }
        Ok(())
    }

    /// Notes the indexes of the symbols of several files.
    fn note_files(
        &self,
        files: &[File],
        notes: &mut [Option<Option<usize>>],
    ) -> Result<(), AllocError>
        ensures { OnOk result ((k : ℕ) → k < length notes.old → slice_index_or notes.new k None
            ≡ option_or (slice_index_or notes.old k None) (found (section_symbol_number_at self.now.layout.now) files.now k)) }
    {
        for file in files {
            self.note_file(file, notes)?;
        }
        Ok(())
    }

    /// Notes the indexes of the symbols of all files.
    fn note_groups(&self, notes: &mut [Option<Option<usize>>]) -> Result<(), AllocError>
        ensures { OnOk result ((k : ℕ) → k < length notes.old → slice_index_or notes.new k None
            ≡ option_or (slice_index_or notes.old k None) (found (section_symbol_number_at self.now.layout.now) (files_of self.now.layout.now.groups) k)) }
    {
        for group in self.layout.groups.as_slice() {
            self.note_files(group.files.as_slice(), notes)?;
        }
        Ok(())
    }
}

/// The index of each symbol: that of its own entry, otherwise the noted one.
fn join_indexes(
    alloc: Global,
    layout: &Layout,
    own: &[Option<usize>],
    notes: &[Option<Option<usize>>],
) -> Result<Vec<Option<usize>>, AllocError>
    requires own { HasOwnNumbers layout.now own.now }
    requires count { length notes.now ≡ length layout.now.symbols }
    requires notes { (k : ℕ) → k < length notes.now → slice_index_or notes.now k None ≡ found (section_symbol_number_at layout.now) (files_of layout.now.groups) k }
    ensures { IfOk result (λ v. v.items ≡ map (symbol_index layout.now) (range_with_len 0 (length layout.now.symbols))) }
{
    let mut numbers = Vec::with_capacity(alloc, own.len())?;
    for i in 0..own.len() {
        numbers.push(own[i].or(notes[i].flatten()))?;
    }
    Ok(numbers)
}

/// The index in `.symtab` of each symbol of a relocatable object: that of its own entry, or for a section symbol of the
/// input that of its output section's symbol. This takes one walk over the entries, and one over the files' symbols.
///
/// # Errors
///
/// Only if out of memory. This includes more than 2^64 - 1 entries, which no memory could hold.
pub fn build_sym_index_map(alloc: Global, layout: &Layout) -> Result<Vec<Option<usize>>, AllocError>
    ensures { IfOk result (λ v. v.items ≡ map (symbol_index layout.now) (range_with_len 0 (length layout.now.symbols))) }
{
    let sections = SectionNumbers::of(alloc, layout)?;
    let own = own_numbers(alloc, layout, sections.front_count())?;
    let mut notes = vec![in alloc; None; layout.symbols.len()]?;
    sections.note_groups(&mut notes)?;
    join_indexes(alloc, layout, &own, &notes)
}

/// The index of a symbol, looked up in the map.
#[tactic(auto, using(crate::proofs::NoteLemmas::looked_up))]
fn number_of(numbers: &[Option<usize>], layout: &Layout, symbol: SymbolIndex) -> Option<usize>
    requires { numbers.now ≡ map (symbol_index layout.now) (range_with_len 0 (length layout.now.symbols)) }
    ensures { result ≡ symbol_index layout.now symbol }
{
    match numbers.get(symbol.0) {
        Some(number) => *number,
        None => None,
    }
}

/// The symbol index in a relocation: that of its symbol, otherwise that of the symbol's definition, otherwise 0.
pub fn named_index(numbers: &[Option<usize>], layout: &Layout, symbol: Option<SymbolIndex>) -> usize
    requires { numbers.now ≡ map (symbol_index layout.now) (range_with_len 0 (length layout.now.symbols)) }
    ensures { result ≡ named_index layout.now symbol }
{
    let Some(symbol) = symbol else {
        return 0;
    };
    number_of(numbers, layout, symbol)
        .or(number_of(numbers, layout, layout.canonical(symbol)))
        .unwrap_or(0)
}
