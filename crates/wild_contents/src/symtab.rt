//! The parts of `.symtab` (gABI, "Symbol Table"): local entries, other entries, extended section indexes, and names. One walk over the
//! symbols of a file passes each to a sink, which computes what its part has for it.
ghost use Rattle.std.specs.Prelude.{◌≡◌, ◌++◌, ℕ, OnOk, IfOk};
ghost use Rattle.wild_types.specs.declared.file.File.{File};
ghost use Rattle.wild_types.specs.declared.layout.Layout.{Layout};
ghost use Rattle.wild_needs.specs.declared.table.TablePart.TheVariants.{Entries, Long};
ghost use Rattle.wild_words.specs.Words.{word};
ghost use Rattle.wild_needs.specs.DynamicStrings.{offset_after_string};
ghost use Rattle.wild_needs.specs.TableSymbols.{full_name, table_strings};
ghost use Rattle.wild_table_formats.specs.Strings.{string, string_bytes};
ghost use Rattle.wild_table_formats.specs.Symbols.{symbol_bytes};
ghost use Rattle.wild_table_formats.specs.TableEntries.{is_side, null_entry, section_entry, null_entries, file_table, fields_of, table_entries};
ghost use Rattle.wild_layout.specs.Content.{indexes_of};
ghost use Rattle.wild_contents.specs.Walks.{entry_of, taken_bytes, with_entry, Walks};

use crate::part_bytes::PartBytes;
use crate::symbols::{add_entry, offset_after_string};
use std::alloc::{AllocError, Global};
use std::marker::Model;
use std::mem::replace;
use wild_needs::{
    SymtabName, TablePart, TableSink, give_table, has_long, is_on_side, prefix, suffix,
};
use wild_relax::Arch;
use wild_sections::{Resolved, section_in_file};
use wild_symbols::{
    TableFields, entry_at, give_section_symbols, names_are_strings, no_fields, null_table_fields,
    section_fields, table_fields,
};
use wild_types::{Fault, File, Group, Role, Symbol, SymbolIndex};
use wild_words::Sink;

/// The fields of the entry of a symbol of a file, or of the symbol that names its GOT entry, its stub or a thunk to it; or a fault.
pub(crate) fn fields_of<A: Arch>(
    resolved: &Resolved<A>,
    file: &File,
    named: SymtabName,
    index: usize,
    symbol: &Symbol,
) -> Result<TableFields, Fault>
    ensures { result ≡ fields_of resolved.now.layout.now file.now named index symbol.now }
{
    let layout = resolved.layout;
    let section = section_in_file(layout, file, symbol.place);
    let address = resolved.address(SymbolIndex(index));
    table_fields(
        layout,
        file,
        named,
        index,
        symbol,
        section.0,
        address,
        resolved.section_within(SymbolIndex(index)),
        &resolved.named,
    )
}

/// The same fields, of a symbol without a fault.
#[tactic(auto, unfolding(wild_table_formats::specs::TableEntries::table_fields))]
fn fields_or_none<A: Arch>(
    resolved: &Resolved<A>,
    file: &File,
    named: SymtabName,
    index: usize,
    symbol: &Symbol,
) -> TableFields
    ensures { result ≡ (entry_of resolved.now.layout.now file.now named index symbol.now).fields }
{
    match fields_of(resolved, file, named, index, symbol) {
        Ok(fields) => fields,
        Err(_) => null_table_fields(),
    }
}

/// Whether such an entry is among the local ones, or with `local` false among the others.
fn is_side(local: bool, named: SymtabName, symbol: &Symbol) -> bool
    ensures { (l : Layout) (f : File) (i : ℕ) → result ≡ is_side local (entry_of l f named i symbol.now) }
{
    is_on_side(local, named, symbol)
}

/// Appends an extended section index, 32 bits.
#[tactic(auto, using(wild_words::proofs::WordLemmas::word_4))]
fn add_index(index: u32, bytes: &mut PartBytes) -> Result<(), AllocError>
    ensures { OnOk result (bytes.new ≡ bytes.old ++ word 4 index) }
{
    bytes.extend(&index.to_le_bytes())
}

/// Appends the name of a symbol, of its GOT entry, its stub or a thunk to it, and a zero.
fn add_name(named: SymtabName, symbol: &Symbol, bytes: &mut PartBytes) -> Result<(), AllocError>
    ensures { OnOk result (bytes.new ≡ bytes.old ++ string (full_name named symbol.now.name)) }
{
    bytes.extend(prefix(named))?;
    bytes.extend(symbol.name.as_slice())?;
    bytes.extend(suffix(named))?;
    bytes.extend(&[0])
}

/// The offset after that name and its zero, at most 2^64 - 1.
fn offset_after_name(at: u64, named: SymtabName, symbol: &Symbol) -> u64
    ensures { result ≡ offset_after_string at (full_name named symbol.now.name) }
{
    let affixes = prefix(named).len() + suffix(named).len();
    let room = (symbol.name.len() as u64).saturating_add(affixes as u64);
    at.saturating_add(room.saturating_add(1))
}

/// The sink for a part of `.symtab`, for one file.
#[derive(Drop)]
struct TableBytes<'r, 'l, 'f, A: Arch> {
    resolved: &'r Resolved<'l, A>,
    file: &'f File,
    part: TablePart,
    at: u64,
    bytes: PartBytes,
}

impl<'r, 'l, 'f, A: Arch> Model for TableBytes<'r, 'l, 'f, A> {
    ghost use Rattle.wild_contents.specs.Walks.{SymtabState};

    ghost Value = { SymtabState };

    ghost view = { λ w. record { layout = w.resolved.now.layout.now; file = w.file.now; part = w.part; at = w.at; bytes = w.bytes } };
}

impl<'r, 'l, 'f, A: Arch> TableSink for TableBytes<'r, 'l, 'f, A> {
    ghost use Rattle.wild_contents.specs.Walks.{Writes};

    type Error = AllocError;

    ghost goes = { Writes };

    ghost refuses = { λ a x e b. Unit {0} };

    #[inline(always)]
    #[tactic(auto, using(crate::proofs::WalkLemmas::writes))]
    fn take(&mut self, named: SymtabName, index: usize, symbol: &Symbol) -> Result<(), AllocError> {
        self.add(named, index, symbol)?;
        self.at = offset_after_name(self.at, named, symbol);
        Ok(())
    }
}

impl<'r, 'l, 'f, A: Arch> Sink<usize> for TableBytes<'r, 'l, 'f, A> {
    ghost use Rattle.wild_contents.specs.Walks.{WritesSection};

    type Error = AllocError;

    ghost goes = { WritesSection };

    ghost refuses = { λ a k e b. Unit {0} };

    fn take(&mut self, header: usize) -> Result<(), AllocError> {
        self.add_section(header)
    }
}

impl<'r, 'l, 'f, A: Arch> TableBytes<'r, 'l, 'f, A> {
    /// The bytes, and the offset of the next name.
    fn into_parts(self) -> (PartBytes, u64)
        ensures bytes { result.0 ≡ self.entry.bytes }
        ensures at { result.1 ≡ self.entry.at }
    {
        (self.bytes, self.at)
    }

    /// Appends the entry of a symbol, or of the name of its GOT entry, its stub or a thunk to it, if it is local as `local` says.
    fn add_side(
        &mut self,
        local: bool,
        named: SymtabName,
        index: usize,
        symbol: &Symbol,
    ) -> Result<(), AllocError>
        ensures { OnOk result (self.new ≡ record self.old { bytes = self.old.bytes ++ taken_bytes (Entries local) self.old.at (entry_of self.old.layout self.old.file named index symbol.now) }) }
    {
        if is_side(local, named, symbol) {
            let fields = fields_or_none(self.resolved, self.file, named, index, symbol);
            add_entry(entry_at(self.at, fields.fields), &mut self.bytes)?;
        }
        Ok(())
    }

    /// Appends its extended section index, if it is local as `local` says.
    fn add_long(
        &mut self,
        local: bool,
        named: SymtabName,
        index: usize,
        symbol: &Symbol,
    ) -> Result<(), AllocError>
        ensures { OnOk result (self.new ≡ record self.old { bytes = self.old.bytes ++ taken_bytes (Long local) self.old.at (entry_of self.old.layout self.old.file named index symbol.now) }) }
    {
        if is_side(local, named, symbol) {
            let fields = fields_or_none(self.resolved, self.file, named, index, symbol);
            add_index(fields.long, &mut self.bytes)?;
        }
        Ok(())
    }

    /// Appends what the part has for it.
    fn add(&mut self, named: SymtabName, index: usize, symbol: &Symbol) -> Result<(), AllocError>
        ensures { OnOk result (self.new ≡ record self.old { bytes = self.old.bytes ++ taken_bytes self.old.part self.old.at (entry_of self.old.layout self.old.file named index symbol.now) }) }
    {
        match self.part {
            TablePart::Entries(local) => self.add_side(local, named, index, symbol),
            TablePart::Long(local) => self.add_long(local, named, index, symbol),
            TablePart::Strings => add_name(named, symbol, &mut self.bytes),
        }
    }

    /// Appends what the part has for the null symbol, whose name is empty.
    fn add_zeros(&mut self) -> Result<(), AllocError>
        ensures { OnOk result (self.new ≡ with_entry null_entry self.old) }
    {
        match self.part {
            TablePart::Entries(true) => add_entry(entry_at(self.at, no_fields()), &mut self.bytes)?,
            TablePart::Long(true) => add_index(0, &mut self.bytes)?,
            TablePart::Strings => self.bytes.extend(&[0])?,
            _ => {}
        }
        self.at = offset_after_string(self.at, &[]);
        Ok(())
    }

    /// Appends what the part has for a section symbol, which has no name.
    fn add_section(&mut self, section: usize) -> Result<(), AllocError>
        ensures { OnOk result (self.new ≡ with_entry (section_entry section) self.old) }
    {
        let fields = section_fields(section);
        match self.part {
            TablePart::Entries(true) => add_entry(entry_at(0, fields.fields), &mut self.bytes),
            TablePart::Long(true) => add_index(fields.long, &mut self.bytes),
            _ => Ok(()),
        }
    }

    /// Appends what the part has for the null symbol and section symbols, if the file is the first one of an output with a `.symtab`.
    #[tactic(auto, using(crate::proofs::WalkLemmas::prelude_walks))]
    fn add_null(&mut self) -> Result<(), AllocError>
        ensures walks { OnOk result (Walks self.old.part self.old.bytes self.old.at self.new.bytes self.new.at (null_entries self.old.layout self.old.file)) }
        ensures kept { OnOk result ((self.new.layout ≡ self.old.layout) × (self.new.file ≡ self.old.file) × (self.new.part ≡ self.old.part)) }
    {
        if self.resolved.layout.has_symtab() && self.file.role.is_prelude() {
            self.add_zeros()?;
            give_section_symbols(self.resolved.layout, self)?;
        }
        Ok(())
    }
}

/// The bytes followed by what a part has for a file, whose names begin at an offset; and the offset after these names.
fn with_file<A: Arch>(
    resolved: &Resolved<A>,
    part: TablePart,
    file: &File,
    at: u64,
    bytes: PartBytes,
) -> Result<(PartBytes, u64), AllocError>
    ensures { IfOk result (λ r. Walks part bytes at r.0 r.1 (file_table resolved.now.layout.now file.now)) }
{
    let mut table = TableBytes {
        resolved,
        file,
        part,
        at,
        bytes,
    };
    table.add_null()?;
    give_table(resolved.layout, file, &mut table)?;
    Ok(table.into_parts())
}

/// Appends what a part has for a file; returns the offset after its names.
fn add_file<A: Arch>(
    alloc: Global,
    resolved: &Resolved<A>,
    part: TablePart,
    file: &File,
    at: u64,
    bytes: &mut PartBytes,
) -> Result<u64, AllocError>
    ensures { IfOk result (λ next. Walks part bytes.old at bytes.new next (file_table resolved.now.layout.now file.now)) }
{
    let before = replace(bytes, PartBytes::empty(alloc));
    let (written, next) = with_file(resolved, part, file, at, before)?;
    *bytes = written;
    Ok(next)
}

/// Appends a group's local entries, or its other entries.
#[tactic(auto, using(crate::proofs::WalkLemmas::walk_files))]
pub(crate) fn add_group_table<A: Arch>(
    alloc: Global,
    resolved: &Resolved<A>,
    local: bool,
    group: &Group,
    bytes: &mut PartBytes,
) -> Result<(), AllocError>
    ensures { OnOk result (bytes.new ≡ bytes.old ++ symbol_bytes (table_entries resolved.now.layout.now local group.now)) }
{
    let mut at = group.strtab_start;
    for file in group.files.as_slice() {
        at = add_file(alloc, resolved, TablePart::Entries(local), file, at, bytes)?;
    }
    Ok(())
}

/// Appends the extended section indexes of a file's local symbols, or of the others, if the part of that role has them.
#[tactic(auto, using(crate::proofs::WalkLemmas::walk_indexes))]
pub(crate) fn add_file_indexes<A: Arch>(
    alloc: Global,
    resolved: &Resolved<A>,
    role: Role,
    local: bool,
    file: &File,
    bytes: &mut PartBytes,
) -> Result<(), AllocError>
    ensures { OnOk result (bytes.new ≡ bytes.old ++ indexes_of resolved.now.layout.now role local file.now) }
{
    if has_long(resolved.layout, role) {
        add_file(alloc, resolved, TablePart::Long(local), file, 0, bytes)?;
    }
    Ok(())
}

/// Appends the names of a file, each with a zero.
#[tactic(auto, using(crate::proofs::WalkLemmas::names_walked))]
pub(crate) fn add_file_names<A: Arch>(
    alloc: Global,
    resolved: &Resolved<A>,
    file: &File,
    bytes: &mut PartBytes,
) -> Result<(), AllocError>
    ensures { OnOk result (bytes.new ≡ bytes.old ++ string_bytes (table_strings resolved.now.layout.now file.now)) }
{
    names_are_strings();
    add_file(alloc, resolved, TablePart::Strings, file, 0, bytes)?;
    Ok(())
}
