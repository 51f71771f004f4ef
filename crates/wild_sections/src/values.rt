//! Properties of all symbols, computed once for a layout: their values, and the files of those that may be in the dynamic symbol
//! table.
ghost use Rattle.std.specs.Prelude.{◌≡◌, ℕ, ◌<◌, true, false, List, [], length, map, Option, IfOk, IfSome, Some, None, replicate, slice_get, option_copied, option_map, option_and_then};
ghost use Rattle.std.specs.List.{range_with_len};
ghost use Rattle.wild_types.specs.Kinds.{needs_dynsym, is_partial_link};
ghost use Rattle.wild_table_formats.specs.SectionSymbols.{symbol_index};
ghost use Rattle.wild_types.specs.Lookups.{files_of, file_of};
ghost use Rattle.wild_table_formats.specs.DynamicFields.{named_sections};
ghost use Rattle.wild_sections.specs.SymbolAddresses.{address_in, decided};
ghost use Rattle.wild_sections.specs.SymbolFiles.{symbol_file_of, HasSymbolFiles};
ghost use Rattle.wild_types.specs.Addresses.{raw_value};
ghost use Rattle.wild_sections.specs.Values.{HasValues};
ghost use Rattle.wild_sections.specs.Fits.{FieldsFit};
ghost use Rattle.wild_layout.specs.Merged.{merged_strings, names_merged, string_place};
ghost use Rattle.wild_types.specs.declared.input.MergedString.{MergedString};
ghost use Rattle.wild_sections.specs.Strings.{all_ascend, section_ascends};
ghost use Rattle.wild_plan_rules.specs.MergedSections.{are_unmerged};
ghost use Rattle.wild_sections.specs.DefiningFiles.{HasDefiningFiles, defining_file_among, layout_needs_owner_files};
ghost use Rattle.wild_sections.specs.Targets.{HasTargets};
ghost use Rattle.wild_sections.specs.Indexes.{HasIndexes};
ghost use Rattle.wild_sections.specs.SymbolTables.{HasSymbolTables};

use crate::defining_file::{DefiningFile, find_defining_files};
use crate::file_of_symbol::SymbolFile;
use crate::merged::{IsUnmerged, StringsAscend, string_place};
use crate::merged_symbols::{file_of, names_merged, section_of_merged};
use crate::per_symbol::place_groups;
use crate::target::targets_of;
use std::alloc::{AllocError, Global};
use std::marker::PhantomData;
use wild_relax::Arch;
use wild_symbols::{NamedSections, build_sym_index_map, named_sections};
use wild_types::{File, Layout, Symbol, SymbolIndex, all_pass};

/// The value in the resolution of the symbol's definition.
fn decided(layout: &Layout, symbol: SymbolIndex) -> Option<u64>
    ensures { result ≡ decided layout.now symbol }
{
    match layout.symbols.as_slice().get(layout.canonical(symbol).0) {
        Some(found) => found.resolution.map(|resolution| resolution.raw_value),
        None => None,
    }
}

/// The values of all symbols, computed in a table without entries.
fn values_by(
    alloc: Global,
    layout: &Layout,
    placed: &mut [Option<Option<u64>>],
) -> Result<Vec<Option<u64>>, AllocError>
    requires { placed.old ≡ replicate (length layout.now.symbols) None }
    ensures { IfOk result (λ v. HasValues layout.now v.items) }
{
    place_groups(layout, placed);
    let mut values = Vec::with_capacity(alloc, placed.len())?;
    for i in 0..placed.len() {
        values.push(decided(layout, SymbolIndex(i)).or(placed[i].flatten()))?;
    }
    Ok(values)
}

/// The values of all symbols by their resolutions; None if one has no value there.
fn decided_values(alloc: Global, layout: &Layout) -> Result<Option<Vec<Option<u64>>>, AllocError>
    ensures { IfOk result (λ o. IfSome o (λ v. HasValues layout.now v.items)) }
{
    let count = layout.symbols.len();
    let mut values = Vec::with_capacity(alloc, count)?;
    for i in 0..count {
        let Some(value) = decided(layout, SymbolIndex(i)) else {
            return Ok(None);
        };
        values.push(Some(value))?;
    }
    Ok(Some(values))
}

/// The values of all symbols. Walks the files only if a symbol's resolution has no value.
fn values_of(alloc: Global, layout: &Layout) -> Result<Vec<Option<u64>>, AllocError>
    ensures { IfOk result (λ v. HasValues layout.now v.items) }
{
    if let Some(values) = decided_values(alloc, layout)? {
        return Ok(values);
    }
    let mut placed = vec![in alloc; None; layout.symbols.len()]?;
    values_by(alloc, layout, &mut placed)
}

/// The files and sections of the symbols of an output with a dynamic symbol table; empty for other outputs.
fn symbol_files_of(alloc: Global, layout: &Layout) -> Result<Vec<Option<SymbolFile>>, AllocError>
    ensures { IfOk result (λ v. HasSymbolFiles layout.now v.items) }
{
    let count = if layout.kind.needs_dynsym() {
        layout.symbols.len()
    } else {
        0
    };
    let mut symbol_files = vec![in alloc; None; count]?;
    if layout.kind.needs_dynsym() {
        place_groups(layout, &mut symbol_files);
    }
    Ok(symbol_files)
}

/// Whether no section of the layout consists of merged strings.
fn are_unmerged(layout: &Layout) -> bool
    ensures { result ≡ are_unmerged layout.now }
{
    all_pass(&IsUnmerged, layout.groups.as_slice())
}

/// Whether the strings of each section are sorted by offset.
fn all_ascend(layout: &Layout) -> bool
    ensures { result ≡ all_ascend layout.now }
{
    all_pass(&StringsAscend, layout.groups.as_slice())
}

/// Whether relocations depend on the file that defines a symbol: if there are merged sections, and in a relocatable output.
fn layout_needs_owner_files(layout: &Layout) -> bool
    ensures { result ≡ layout_needs_owner_files layout.now }
{
    layout.kind.is_partial_link() || !are_unmerged(layout)
}

/// The files of all symbols; empty if relocations do not depend on them.
fn defining_files_of(
    alloc: Global,
    layout: &Layout,
    needs_owner_files: bool,
) -> Result<Vec<Option<DefiningFile>>, AllocError>
    requires { needs_owner_files ≡ layout_needs_owner_files layout.now }
    ensures { IfOk result (λ v. HasDefiningFiles layout.now v.items) }
{
    if !needs_owner_files {
        return Ok(Vec::new(alloc));
    }
    let mut owners = vec![in alloc; None; layout.symbols.len()]?;
    find_defining_files(layout.groups.as_slice(), &mut owners);
    Ok(owners)
}

/// The indexes of all symbols in the `.symtab` of a relocatable output; empty for other outputs.
fn indexes_of(alloc: Global, layout: &Layout) -> Result<Vec<Option<usize>>, AllocError>
    ensures { IfOk result (λ v. HasIndexes layout.now v.items) }
{
    if layout.kind.is_partial_link() {
        build_sym_index_map(alloc, layout)
    } else {
        Ok(Vec::new(alloc))
    }
}

/// The properties of a layout's symbols, computed once.
#[derive(Drop)]
pub struct SymbolTables {
    named: NamedSections,
    values: Vec<Option<u64>>,
    targets: Vec<Option<u64>>,
    symbol_files: Vec<Option<SymbolFile>>,
    owners: Vec<Option<DefiningFile>>,
    indexes: Vec<Option<usize>>,
    ascend: bool,
}

impl SymbolTables {
    /// Computes the properties of a layout's symbols.
    pub fn new(alloc: Global, layout: &Layout) -> Result<Self, AllocError>
        ensures { IfOk result (λ t. HasSymbolTables layout.now t) }
    {
        Self::with_survey(alloc, layout, layout_needs_owner_files(layout))
    }

    /// The same; the caller knows whether relocations depend on the file that defines a symbol.
    pub fn with_survey(
        alloc: Global,
        layout: &Layout,
        needs_owner_files: bool,
    ) -> Result<Self, AllocError>
        requires { needs_owner_files ≡ layout_needs_owner_files layout.now }
        ensures { IfOk result (λ t. HasSymbolTables layout.now t) }
    {
        let values = values_of(alloc, layout)?;
        let owners = defining_files_of(alloc, layout, needs_owner_files)?;
        let targets = targets_of(alloc, layout, &values, &owners)?;
        let symbol_files = symbol_files_of(alloc, layout)?;
        let indexes = indexes_of(alloc, layout)?;
        Ok(SymbolTables {
            named: named_sections(layout),
            values,
            targets,
            symbol_files,
            owners,
            indexes,
            ascend: needs_owner_files && all_ascend(layout),
        })
    }
}

/// A layout for machine `A` with the properties of its symbols, as all steps of the writer use it.
#[derive(Drop)]
pub struct Resolved<'a, A: Arch> {
    pub layout: &'a Layout,
    /// Header indexes for exported symbols that are in no input section.
    pub named: NamedSections,
    values: &'a [Option<u64>],
    targets: &'a [Option<u64>],
    symbol_files: &'a [Option<SymbolFile>],
    owners: &'a [Option<DefiningFile>],
    indexes: &'a [Option<usize>],
    ascend: bool,
    arch: PhantomData<A>,
    ghost machine: { layout.now.machine ≡ A.machine },
    ghost named_are: { named ≡ named_sections layout.now },
    ghost values_are: { HasValues layout.now values.now },
    ghost targets_are: { HasTargets layout.now targets.now },
    ghost symbol_files_are: { HasSymbolFiles layout.now symbol_files.now },
    ghost owners_are: { HasDefiningFiles layout.now owners.now },
    ghost indexes_are: { HasIndexes layout.now indexes.now },
    ghost ascend_is: { ascend ≡ true → all_ascend layout.now ≡ true },
    ghost fits: { FieldsFit layout.now },
}

impl<'a, A: Arch> Resolved<'a, A> {
    /// A layout with the properties of its symbols.
    pub fn new(layout: &'a Layout, tables: &'a SymbolTables) -> Self
        requires machine { layout.now.machine ≡ A.machine }
        requires fits { FieldsFit layout.now }
        requires tables { HasSymbolTables layout.now tables.now }
        ensures { result.layout.now ≡ layout.now }
    {
        Resolved {
            layout,
            named: tables.named,
            values: &tables.values,
            targets: &tables.targets,
            symbol_files: &tables.symbol_files,
            owners: &tables.owners,
            indexes: &tables.indexes,
            ascend: tables.ascend,
            arch: PhantomData,
        }
    }

    /// The address of a symbol.
    #[inline]
    #[tactic(auto, using(crate::proofs::ValueLemmas::table_values))]
    pub fn address(&self, symbol: SymbolIndex) -> Option<u64>
        ensures { result ≡ raw_value self.now.layout.now symbol }
    {
        if symbol.0 < self.values.len() {
            self.values[symbol.0]
        } else {
            None
        }
    }

    /// The table of symbol addresses for S + A - P.
    #[inline(always)]
    pub(crate) fn targets(&self) -> &[Option<u64>]
        ensures { HasTargets self.now.layout.now result.now }
    {
        self.targets
    }

    /// Whether relocations may name merged strings.
    #[inline]
    #[tactic(auto, using(crate::proofs::DefiningFileLemmas::nothing_merged))]
    pub(crate) fn has_strings(&self) -> bool
        ensures { result ≡ false → (o : Option ℕ) → names_merged self.now.layout.now o ≡ false }
    {
        self.owners.len() != 0
    }

    /// The file whose range of symbols has a symbol, by one table access.
    pub(crate) fn file(&self, symbol: SymbolIndex) -> Option<&'a File>
        requires { symbol < length self.now.owners.now }
        ensures { option_copied result ≡ file_of (files_of self.now.layout.now.groups) symbol }
    {
        file_of(self.layout, self.owners, symbol)
    }

    /// The indexes of all symbols in the `.symtab` of a relocatable output.
    pub(crate) fn indexes(&self) -> &[Option<usize>]
        requires { is_partial_link self.now.layout.now.kind ≡ true }
        ensures { result.now ≡ map (symbol_index self.now.layout.now) (range_with_len 0 (length self.now.layout.now.symbols)) }
    {
        self.indexes
    }

    /// Whether a symbol is the section symbol of a merged section.
    pub fn names_merged(&self, symbol: SymbolIndex) -> bool
        ensures { result ≡ names_merged self.now.layout.now (Some symbol) }
    {
        names_merged(self.layout, self.owners, symbol)
    }

    /// The address of a byte of the merged section whose section symbol this is; None if it is no such symbol.
    #[tactic(auto, using(crate::proofs::DefiningFileLemmas::its_strings_ascend))]
    pub(crate) fn string_place(&self, symbol: SymbolIndex, byte: u64) -> Option<Option<u64>>
        ensures { result ≡ option_map (λ (ss : List MergedString). string_place ss byte) (merged_strings self.now.layout.now symbol) }
    {
        match section_of_merged(self.layout, self.owners, symbol) {
            Some(section) => Some(string_place(section.strings.as_slice(), self.ascend, byte)),
            None => None,
        }
    }

    /// The file role and output section of a symbol, in an output with a dynamic symbol table.
    #[tactic(auto, using(crate::proofs::SymbolFileLemmas::symbol_file_below, crate::proofs::SymbolFileLemmas::symbol_file_there, crate::proofs::SymbolFileLemmas::symbol_file_missing))]
    pub fn symbol_file(&self, index: usize, symbol: &Symbol) -> SymbolFile
        requires table { needs_dynsym self.now.layout.now.kind ≡ true }
        requires symbol { slice_get self.now.layout.now.symbols index ≡ Some symbol.now }
        ensures { result ≡ symbol_file_of self.now.layout.now symbol.now.place (file_of (files_of self.now.layout.now.groups) index) }
    {
        match self.symbol_files[index] {
            Some(symbol_file) => symbol_file,
            None => SymbolFile::without_file(symbol.place),
        }
    }
}
