//! The writer of a group's symbol tables.
ghost use Rattle.std.specs.Prelude.{false, ◌≡◌, ℕ, ◌+◌, ◌*◌, ◌^◌, ◌<◌, ◌≤◌, true, ◌++◌, length, take, OnOk, OnErr, IfOk, Some, None, slice_index_or};
ghost use Rattle.wild_types.specs.declared.part.Role.TheVariants.{Dynstr, Strtab};
ghost use Rattle.wild_records.specs.SymtabEntry.{symtab_entry_size, symtab_entry_at};
ghost use Rattle.wild_records.specs.declared.symtab_entry.SymtabEntry.{SymtabEntry as Entry};
ghost use Rattle.wild_types.specs.Shares.{share_of};
ghost use Rattle.wild_needs.specs.TableSymbols.{has_long};
ghost use Rattle.wild_records.specs.declared.symbol_section.SymbolSection.TheVariants.{Raw, Index};
ghost use Rattle.wild_records.specs.Abi.Section.{shn_abs, shn_undef};
ghost use Rattle.wild_table_formats.specs.Symbols.{symbol_bytes, symbols_used};
ghost use Rattle.wild_symbols.specs.Indexes.{index_room};
ghost use Rattle.wild_symbols.specs.Tables.{dynstr_start, entry_with_name, strtab_start, symbols_with, indexes_with, no_dynamic_symbols, no_symbols, section_number, long_of, fields_in_section, list_of, indexes_of, with_listed, with_fields, with_symbol, with_undefined, is_local, copied_attributes, with_copied};
ghost use Rattle.wild_symbols.specs.TableRoom.{room_in_lists, room_for_fields, room_for_symbol, tables_full_or_fault};
ghost use Rattle.wild_table_formats.specs.DynamicFields.{named_sections};
ghost use Rattle.wild_symbols.specs.SlotNames.{slot_entry, slot_names, entry_result, after_entry, entries_result, after_entries};
ghost use Rattle.wild_symbols.specs.SectionCalls.{section_calls};
ghost use Rattle.wild_symbols.specs.Runs.{defined, undefined, after_call};

use crate::index_table::IndexTable;
use crate::section_walk::give_section_symbols;
use crate::strtab::StrTabWriter;
use crate::symbol_table::SymbolTable;
use crate::table::{section_fields, slot_fields};
use std::alloc::{AllocError, Global};
use wild_needs::{SymtabName, has_long, suffix};
use wild_records::abi::section::{SHN_ABS, SHN_UNDEF};
use wild_records::abi::symbol::STB_LOCAL;
use wild_records::{SymbolSection, SymtabEntry};
use wild_table_formats::{NamedSections, SymbolAttributes, SymbolFields, TableFields};
use wild_types::{At, Error, Layout, Role, SectionIndex, Symbol, part_of, share_of};
use wild_words::Sink;

/// A group's symbols and their names. Each table is written from the start of the group's share. All memory is allocated by
/// `new` or `new_dynamic`.
#[derive(Drop)]
pub struct SymbolTableWriter {
    /// The local symbols, which come before the global ones. A dynamic table has none.
    pub locals: SymbolTable,
    /// The global symbols.
    pub globals: SymbolTable,
    /// The extended section indexes of the local symbols.
    pub local_indexes: IndexTable,
    /// The extended section indexes of the global symbols.
    pub global_indexes: IndexTable,
    /// The names.
    pub strtab: StrTabWriter,
}

/// The offset of the group's strings in `.dynstr`; 0 without such a group.
pub fn dynstr_start(layout: &Layout, group: usize) -> u64
    ensures { result ≡ dynstr_start layout.now group }
{
    match layout.groups.as_slice().get(group) {
        Some(found) => found.dynstr_start,
        None => 0,
    }
}

/// The offset of the group's strings in `.strtab`; 0 without such a group.
pub fn strtab_start(layout: &Layout, group: usize) -> u64
    ensures { result ≡ strtab_start layout.now group }
{
    match layout.groups.as_slice().get(group) {
        Some(found) => found.strtab_start,
        None => 0,
    }
}

/// The extended section index, if `st_shndx` has no room for the header index; otherwise 0.
fn long_of(section: SymbolSection) -> u32
    ensures { result ≡ long_of section }
{
    match section {
        SymbolSection::Raw(_) => 0,
        SymbolSection::Index(index) => SymbolSection::split(index).1,
    }
}

/// The fields of a symbol with this value in a section.
fn fields_in_section(
    section: SymbolSection,
    value: u64,
    attributes: SymbolAttributes,
) -> TableFields
    ensures { result ≡ fields_in_section section value attributes }
{
    TableFields {
        fields: SymbolFields {
            section: section_number(section),
            value,
            attributes,
        },
        long: long_of(section),
    }
}

/// `st_shndx` for a section.
fn section_number(section: SymbolSection) -> u16
    ensures { result ≡ section_number section }
{
    match section {
        SymbolSection::Raw(number) => number,
        SymbolSection::Index(index) => SymbolSection::split(index).0,
    }
}

/// The entry of a symbol whose name is at offset `name` of the string table.
fn entry_with_name(name: u32, fields: SymbolFields) -> SymtabEntry
    ensures { result ≡ entry_with_name name fields }
{
    SymtabEntry {
        name,
        info: fields.attributes.info,
        other: fields.attributes.other,
        section: fields.section,
        value: fields.value,
        size: fields.attributes.size,
    }
}

/// Whether a symbol is local in the table: by its binding, or because it was made local.
fn is_local(symbol: &Symbol) -> bool
    ensures { result ≡ is_local symbol.now }
{
    symbol.info / 16 == STB_LOCAL || symbol.flags.is_downgraded_to_local()
}

/// The layout's attributes of a symbol, with binding `STB_LOCAL` if it was made local.
fn copied_attributes(symbol: &Symbol) -> SymbolAttributes
    ensures { result ≡ copied_attributes symbol.now }
{
    let info = if symbol.flags.is_downgraded_to_local() {
        symbol.info % 16
    } else {
        symbol.info
    };
    SymbolAttributes {
        info,
        other: symbol.other,
        size: symbol.size,
    }
}

/// An empty symbol table with the size of the group's share of the part with this role.
fn symbols_of(
    alloc: Global,
    layout: &Layout,
    role: Role,
    group: usize,
) -> Result<SymbolTable, AllocError>
    ensures { IfOk result (λ t. t ≡ symbols_with layout.now group role (share_of layout.now group role)) }
{
    let room = share_of(layout, group, role) as usize;
    SymbolTable::new(alloc, part_of(layout, role), group, room)
}

/// An empty table of extended section indexes with the size of the group's share of the part with this role.
fn indexes_of(
    alloc: Global,
    layout: &Layout,
    role: Role,
    group: usize,
) -> Result<IndexTable, AllocError>
    ensures { IfOk result (λ t. t ≡ indexes_with layout.now group role (share_of layout.now group role) (has_long layout.now role)) }
{
    let room = share_of(layout, group, role) as usize;
    IndexTable::new(
        alloc,
        part_of(layout, role),
        group,
        room,
        has_long(layout, role),
    )
}

/// A table of extended section indexes without any room.
fn no_indexes(
    alloc: Global,
    layout: &Layout,
    role: Role,
    group: usize,
) -> Result<IndexTable, AllocError>
    ensures { IfOk result (λ t. t ≡ indexes_with layout.now group role 0 false) }
{
    IndexTable::new(alloc, part_of(layout, role), group, 0, false)
}

/// Writes the symbol of each section as a local symbol without a name.
impl Sink<usize> for SymbolTableWriter {
    ghost use Rattle.wild_symbols.specs.SectionCalls.{SectionWritten, SectionRefused};

    type Error = Error;

    ghost goes = { SectionWritten };

    ghost refuses = { SectionRefused };

    #[tactic(auto, using(crate::proofs::SectionRunLemmas::one_section))]
    fn take(&mut self, header: usize) -> Result<(), Error> {
        self.write_unnamed(true, section_fields(header))
    }
}

impl SymbolTableWriter {
    /// An empty `.dynsym` with the sizes of the group's shares of `dynsym` and `dynstr`, and without room for extended section
    /// indexes. Nothing else is allocated, here or later.
    pub fn new_dynamic(alloc: Global, layout: &Layout, group: usize) -> Result<Self, AllocError>
        requires strings { dynstr_start layout.now group + share_of layout.now group Dynstr < 2 ^ 32 }
        ensures { IfOk result (λ w. w ≡ no_dynamic_symbols layout.now group) }
    {
        let start = dynstr_start(layout, group) as u32;
        let symbols = share_of(layout, group, Role::Dynsym) as usize;
        let strings = share_of(layout, group, Role::Dynstr) as usize;
        Ok(SymbolTableWriter {
            locals: SymbolTable::new(alloc, part_of(layout, Role::SymtabLocal), group, 0)?,
            globals: SymbolTable::new(alloc, part_of(layout, Role::Dynsym), group, symbols)?,
            local_indexes: no_indexes(alloc, layout, Role::SymtabShndxLocal, group)?,
            global_indexes: no_indexes(alloc, layout, Role::SymtabShndxGlobal, group)?,
            strtab: StrTabWriter::new(alloc, part_of(layout, Role::Dynstr), group, start, strings)?,
        })
    }

    /// An empty `.symtab` with the sizes of the group's shares of `symtab_local`, `symtab_global` and `strtab`, and of
    /// `symtab_shndx_local` and `symtab_shndx_global` if the layout has these. Nothing else is allocated, here or later.
    pub fn new(alloc: Global, layout: &Layout, group: usize) -> Result<Self, AllocError>
        requires strings { strtab_start layout.now group + share_of layout.now group Strtab < 2 ^ 32 }
        ensures { IfOk result (λ w. w ≡ no_symbols layout.now group) }
    {
        let start = strtab_start(layout, group) as u32;
        let strings = share_of(layout, group, Role::Strtab) as usize;
        Ok(SymbolTableWriter {
            locals: symbols_of(alloc, layout, Role::SymtabLocal, group)?,
            globals: symbols_of(alloc, layout, Role::SymtabGlobal, group)?,
            local_indexes: indexes_of(alloc, layout, Role::SymtabShndxLocal, group)?,
            global_indexes: indexes_of(alloc, layout, Role::SymtabShndxGlobal, group)?,
            strtab: StrTabWriter::new(alloc, part_of(layout, Role::Strtab), group, start, strings)?,
        })
    }

    /// Checks that one more symbol and its extended section index fit.
    fn check_room(&self, is_local: bool, long: u32) -> Result<(), Error>
        ensures { result ≡ room_in_lists is_local long self.now }
    {
        if is_local {
            self.locals.check_room()?;
            self.local_indexes.check_room(long)
        } else {
            self.globals.check_room()?;
            self.global_indexes.check_room(long)
        }
    }

    /// Appends a symbol and its extended section index to their lists.
    fn push(&mut self, is_local: bool, entry: SymtabEntry, long: u32)
        requires symbol { symbols_used (list_of is_local self.old) + symtab_entry_size ≤ (list_of is_local self.old).room }
        requires index { length (indexes_of is_local self.old).bytes + index_room (indexes_of is_local self.old).each long ≤ (indexes_of is_local self.old).room }
        ensures { self.new ≡ with_listed is_local entry long self.old }
    {
        if is_local {
            self.locals.push(entry);
            self.local_indexes.push(long);
        } else {
            self.globals.push(entry);
            self.global_indexes.push(long);
        }
    }

    /// Appends a symbol with these fields, and its name with a short suffix.
    fn write_named(
        &mut self,
        is_local: bool,
        name: &[u8],
        suffix: &[u8],
        told: TableFields,
    ) -> Result<(), Error>
        requires { length suffix.now ≤ 4 }
        ensures answered { result ≡ room_for_fields is_local (Some (name.now ++ suffix.now)) told.long self.old }
        ensures written { OnOk result (self.new ≡ with_fields is_local (Some (name.now ++ suffix.now)) told self.old) }
        ensures kept { OnErr result (self.new ≡ self.old) }
    {
        self.check_room(is_local, told.long)?;
        let entry = entry_with_name(self.strtab.write_joined(name, suffix)?, told.fields);
        self.push(is_local, entry, told.long);
        Ok(())
    }

    /// Appends a symbol with these fields to its list, and its name to the strings. Its extended section index is appended if
    /// every symbol has one or its section needs it.
    ///
    /// # Errors
    ///
    /// `InsufficientAllocation` exactly if the symbol does not fit in the rest of its share, or otherwise its extended section
    /// index, or otherwise its name. Then nothing changes.
    #[tactic(auto, using(wild_table_formats::proofs::StringLemmas::joined_with_none))]
    pub fn write_entry(
        &mut self,
        is_local: bool,
        name: &[u8],
        told: TableFields,
    ) -> Result<(), Error>
        ensures answered { result ≡ room_for_fields is_local (Some name.now) told.long self.old }
        ensures written { OnOk result (self.new ≡ with_fields is_local (Some name.now) told self.old) }
        ensures kept { OnErr result (self.new ≡ self.old) }
        ensures call { self.new ≡ after_call (record { name = Some name.now; local = is_local; fields = told }) self.old }
    {
        self.write_named(is_local, name, b"", told)
    }

    /// Appends a symbol without a name. Its extended section index is appended if every symbol has one or its section needs
    /// it. `st_name` is 0, the offset of the empty string at the start of the string table.
    ///
    /// # Errors
    ///
    /// `InsufficientAllocation` exactly if the symbol does not fit in the rest of its share, or otherwise its extended section
    /// index. Then nothing changes.
    pub fn write_unnamed(&mut self, is_local: bool, told: TableFields) -> Result<(), Error>
        ensures answered { result ≡ room_for_fields is_local None told.long self.old }
        ensures written { OnOk result (self.new ≡ with_fields is_local None told self.old) }
        ensures kept { OnErr result (self.new ≡ self.old) }
        ensures call { self.new ≡ after_call (record { name = None; local = is_local; fields = told }) self.old }
    {
        self.check_room(is_local, told.long)?;
        self.push(is_local, entry_with_name(0, told.fields), told.long);
        Ok(())
    }

    /// Writes the section symbols of a relocatable object in order, as local symbols without names. Nothing is allocated.
    ///
    /// # Errors
    ///
    /// `InsufficientAllocation` exactly if a symbol does not fit in the rest of its share, or otherwise its extended section
    /// index. Only the symbols before it are then written.
    #[tactic(auto, using(crate::proofs::SectionRunLemmas::sections_written))]
    pub fn write_section_symbols(&mut self, layout: &Layout) -> Result<(), Error>
        ensures answered { result ≡ entries_result (section_calls layout.now) self.old }
        ensures left { self.new ≡ after_entries (section_calls layout.now) self.old }
    {
        give_section_symbols(layout, self)
    }

    /// Writes a local symbol that names a symbol's PLT stub, or otherwise its slot.
    fn write_slot_name(
        &mut self,
        layout: &Layout,
        sections: &NamedSections,
        index: usize,
        symbol: &Symbol,
        named: SymtabName,
    ) -> Result<(), Error>
        requires { sections.now ≡ named_sections layout.now }
        ensures answered { result ≡ entry_result (slot_entry layout.now index symbol.now named) self.old }
        ensures left { self.new ≡ after_entry (slot_entry layout.now index symbol.now named) self.old }
        ensures kept { OnErr result (self.new ≡ self.old) }
    {
        match slot_fields(layout, sections, index, symbol, named) {
            Ok(told) => self.write_named(true, symbol.name.as_slice(), suffix(named), told),
            Err(fault) => Err(Error {
                fault,
                at: At::NO_PLACE,
            }),
        }
    }

    /// Writes local symbols that name the slot and the stub of the symbol with this index, if the options and the symbol
    /// request them. `NAME$got` and `NAME$plt` have the address as their value, and the section of its part.
    ///
    /// # Errors
    ///
    /// `MissingResolution` exactly if the part has no section. `InsufficientAllocation` exactly if a symbol does not fit in
    /// the rest of its share, or otherwise its extended section index, or otherwise its name. Only the symbols before it are
    /// then written.
    pub fn write_got_plt_syms(
        &mut self,
        layout: &Layout,
        sections: &NamedSections,
        index: usize,
        symbol: &Symbol,
    ) -> Result<(), Error>
        requires { sections.now ≡ named_sections layout.now }
        ensures answered { result ≡ entries_result (slot_names layout.now index symbol.now) self.old }
        ensures left { self.new ≡ after_entries (slot_names layout.now index symbol.now) self.old }
    {
        if layout.names_slot(index, symbol) {
            self.write_slot_name(layout, sections, index, symbol, SymtabName::Slot)?;
        }
        if layout.names_stub(index, symbol) {
            self.write_slot_name(layout, sections, index, symbol, SymtabName::Stub)?;
        }
        Ok(())
    }

    /// Appends a symbol to its list, and its name to the strings. Its extended section index is appended if every symbol has
    /// one or `st_shndx` has no room for its section.
    ///
    /// # Errors
    ///
    /// `InsufficientAllocation` exactly if the symbol does not fit in the rest of its share, or otherwise its extended section
    /// index, or otherwise its name. Then nothing changes.
    pub fn define_symbol(
        &mut self,
        is_local: bool,
        name: &[u8],
        section: SymbolSection,
        value: u64,
        attributes: SymbolAttributes,
    ) -> Result<(), Error>
        ensures answered { result ≡ room_for_symbol is_local name.now section self.old }
        ensures written { OnOk result (self.new ≡ with_symbol is_local name.now section value attributes self.old) }
        ensures kept { OnErr result (self.new ≡ self.old) }
        ensures call { self.new ≡ after_call (defined is_local name.now section value attributes) self.old }
    {
        self.write_entry(
            is_local,
            name,
            fields_in_section(section, value, attributes),
        )
    }

    /// Appends an undefined symbol (`SHN_UNDEF`, value 0) and its name.
    ///
    /// # Errors
    ///
    /// `InsufficientAllocation` exactly if the symbol does not fit in the rest of its share, or otherwise its extended section
    /// index, or otherwise its name. Then nothing changes.
    pub fn undefined_symbol(
        &mut self,
        is_local: bool,
        name: &[u8],
        attributes: SymbolAttributes,
    ) -> Result<(), Error>
        ensures answered { result ≡ room_for_symbol is_local name.now (Raw shn_undef) self.old }
        ensures written { OnOk result (self.new ≡ with_undefined is_local name.now attributes self.old) }
        ensures kept { OnErr result (self.new ≡ self.old) }
        ensures call { self.new ≡ after_call (undefined is_local name.now attributes) self.old }
    {
        self.define_symbol(is_local, name, SymbolSection::Raw(SHN_UNDEF), 0, attributes)
    }

    /// Appends a symbol of the layout under a name, with this `st_shndx` and value. It is local by its binding, or because it
    /// was made local.
    ///
    /// # Errors
    ///
    /// `InsufficientAllocation` exactly if the symbol does not fit in the rest of its share, or otherwise its extended section
    /// index, or otherwise its name. Then nothing changes.
    pub fn copy_symbol_shndx(
        &mut self,
        symbol: &Symbol,
        name: &[u8],
        shndx: u16,
        value: u64,
    ) -> Result<(), Error>
        ensures answered { result ≡ room_for_symbol (is_local symbol.now) name.now (Raw shndx) self.old }
        ensures written { OnOk result (self.new ≡ with_copied name.now (Raw shndx) value symbol.now self.old) }
        ensures kept { OnErr result (self.new ≡ self.old) }
        ensures call { self.new ≡ after_call (defined (is_local symbol.now) name.now (Raw shndx) value (copied_attributes symbol.now)) self.old }
    {
        let attributes = copied_attributes(symbol);
        self.define_symbol(
            is_local(symbol),
            name,
            SymbolSection::Raw(shndx),
            value,
            attributes,
        )
    }

    /// Appends a symbol of the layout under a name, with this value, in the section with this header index. It is local by its
    /// binding, or because it was made local.
    ///
    /// # Errors
    ///
    /// `InsufficientAllocation` exactly if the symbol does not fit in the rest of its share, or otherwise its extended section
    /// index, or otherwise its name. Then nothing changes.
    pub fn copy_symbol(
        &mut self,
        symbol: &Symbol,
        name: &[u8],
        section: SectionIndex,
        value: u64,
    ) -> Result<(), Error>
        requires section { section < 2 ^ 32 }
        ensures answered { result ≡ room_for_symbol (is_local symbol.now) name.now (Index section) self.old }
        ensures written { OnOk result (self.new ≡ with_copied name.now (Index section) value symbol.now self.old) }
        ensures kept { OnErr result (self.new ≡ self.old) }
        ensures call { self.new ≡ after_call (defined (is_local symbol.now) name.now (Index section) value (copied_attributes symbol.now)) self.old }
    {
        let attributes = copied_attributes(symbol);
        let section = SymbolSection::Index(section.0 as u32);
        self.define_symbol(is_local(symbol), name, section, value, attributes)
    }

    /// Appends an absolute symbol of the layout under a name, with its own value. It is local by its binding, or because it
    /// was made local.
    ///
    /// # Errors
    ///
    /// `InsufficientAllocation` exactly if the symbol does not fit in the rest of its share, or otherwise its extended section
    /// index, or otherwise its name. Then nothing changes.
    pub fn copy_absolute_symbol(&mut self, symbol: &Symbol, name: &[u8]) -> Result<(), Error>
        ensures answered { result ≡ room_for_symbol (is_local symbol.now) name.now (Raw shn_abs) self.old }
        ensures written { OnOk result (self.new ≡ with_copied name.now (Raw shn_abs) symbol.now.value symbol.now self.old) }
        ensures kept { OnErr result (self.new ≡ self.old) }
        ensures call { self.new ≡ after_call (defined (is_local symbol.now) name.now (Raw shn_abs) symbol.now.value (copied_attributes symbol.now)) self.old }
    {
        self.copy_symbol_shndx(symbol, name, SHN_ABS, symbol.value)
    }

    /// Checks that every table is full.
    ///
    /// # Errors
    ///
    /// `ExcessiveAllocation` for the first table with unwritten bytes, in the order of the roles of parts.
    pub fn check_exhausted(&self) -> Result<(), Error>
        ensures { result ≡ tables_full_or_fault self.now }
    {
        self.locals.check_exhausted()?;
        self.globals.check_exhausted()?;
        self.local_indexes.check_exhausted()?;
        self.global_indexes.check_exhausted()?;
        self.strtab.check_exhausted()
    }

    /// The bytes of the group's share of the global symbols: those of the symbols, then the unwritten rest. Symbol k is read at
    /// offset 24 k.
    pub fn symbols(&self) -> &[u8]
        ensures written { take (symbols_used self.now.globals) result.now ≡ symbol_bytes self.now.globals.symbols }
        ensures read { (k : ℕ) (d : Entry) → k < length self.now.globals.symbols → symtab_entry_at result.now (symtab_entry_size * k) ≡ slice_index_or self.now.globals.symbols k d }
        ensures room { length result.now ≡ self.now.globals.room + self.now.globals.reserved }
    {
        self.globals.bytes()
    }

    /// The bytes of the group's share of the local symbols: those of the symbols, then the unwritten rest. Symbol k is read at
    /// offset 24 k.
    pub fn local_symbols(&self) -> &[u8]
        ensures written { take (symbols_used self.now.locals) result.now ≡ symbol_bytes self.now.locals.symbols }
        ensures read { (k : ℕ) (d : Entry) → k < length self.now.locals.symbols → symtab_entry_at result.now (symtab_entry_size * k) ≡ slice_index_or self.now.locals.symbols k d }
        ensures room { length result.now ≡ self.now.locals.room + self.now.locals.reserved }
    {
        self.locals.bytes()
    }

    /// The bytes of the group's share of the strings: those of the strings, then the unwritten rest.
    pub fn strings(&self) -> &[u8]
        ensures written { take (length self.now.strtab.bytes) result.now ≡ self.now.strtab.bytes }
        ensures room { length result.now ≡ self.now.strtab.room + self.now.strtab.reserved }
    {
        self.strtab.bytes()
    }
}
