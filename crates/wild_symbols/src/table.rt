//! The fields of the entries of `.symtab` (gABI, "Symbol Table").
ghost use Rattle.std.specs.Prelude.{◌≡◌, ℕ, ◌%◌, ◌^◌, true, Some, slice_get, option_copied};
ghost use Rattle.wild_records.specs.SymbolSections.{split_index};
ghost use Rattle.wild_types.specs.declared.layout.Layout.{Layout};
ghost use Rattle.wild_types.specs.Addresses.{raw_value};
ghost use Rattle.wild_types.specs.Kinds.{is_partial_link};
ghost use Rattle.wild_table_formats.specs.SectionSymbols.{symbol_section};
ghost use Rattle.wild_needs.specs.DynamicSymbols.{output_section};
ghost use Rattle.wild_slot.specs.SlotParts.{begins_relr_got};
ghost use Rattle.wild_slot.specs.SymbolWords.{slots_of};
ghost use Rattle.wild_types.specs.SymbolSlots.{got_of, plt_of};
ghost use Rattle.wild_types.specs.Parts.{part_with};
ghost use Rattle.wild_table_formats.specs.DynamicFields.{named_sections, part_section};
ghost use Rattle.wild_table_formats.specs.TableEntries.{table_info, table_attributes, with_function, short, in_table_section, counted_from, at_address, offset_within, offset_by, table_value, table_placed, undefined_attributes, section_fields, first_or, table_at, table_canonical, table_by, no_attributes, slot_role, thunk_attributes, thunk_fields, fields_of, no_table_fields};
ghost use Rattle.wild_symbols.specs.SlotNames.{slot_fields};

use crate::dynamic::{
    common_section, has_stub_address, is_thread_symbol, no_fields, section_number, some_section,
    stub_of, undefined_with, with_type,
};
use wild_needs::SymtabName;
use wild_records::abi::section::{SHN_ABS, SHN_LORESERVE, SHN_UNDEF};
use wild_records::abi::symbol::{STT_FUNC, STT_SECTION};
use wild_slot::{SlotWord, SymbolSlots};
use wild_table_formats::{NamedSections, SymbolAttributes, SymbolFields, TableFields};
use wild_types::{Fault, File, FileRole, InputSection, Layout, Missing, Place, Symbol, THUNK_SIZE};

/// `st_info`, with binding `STB_LOCAL` for a symbol that was made local.
fn table_info(symbol: &Symbol) -> u8
    ensures { result ≡ table_info symbol.now }
{
    if symbol.flags.is_downgraded_to_local() {
        symbol.info % 16
    } else {
        symbol.info
    }
}

/// Type, binding, visibility and size of a symbol of a file with this role. A library's symbol has no visibility.
fn table_attributes(role: FileRole, symbol: &Symbol) -> SymbolAttributes
    ensures { result ≡ table_attributes role symbol.now }
{
    SymbolAttributes {
        info: table_info(symbol),
        other: if role.is_library() { 0 } else { symbol.other },
        size: symbol.size,
    }
}

fn with_function(attributes: SymbolAttributes) -> SymbolAttributes
    ensures { result ≡ with_function attributes }
{
    SymbolAttributes {
        info: with_type(attributes.info, STT_FUNC),
        ..attributes
    }
}

/// Fields without an extended section index.
fn short(fields: SymbolFields) -> TableFields
    ensures { result ≡ short fields }
{
    TableFields { fields, long: 0 }
}

/// The extended section index of a header index, modulo 2^32; 0 if `st_shndx` has room for it.
fn long_index(section: usize) -> u32
    ensures { result ≡ (split_index section).1 % 2 ^ 32 }
{
    if section < SHN_LORESERVE as usize {
        0
    } else {
        (section % 0x1_0000_0000) as u32
    }
}

/// The fields of a symbol with this value in a section. Fails without a section.
fn in_table_section(
    index: usize,
    section: Option<usize>,
    value: u64,
    attributes: SymbolAttributes,
) -> Result<TableFields, Fault>
    ensures { result ≡ in_table_section index section value attributes }
{
    match section {
        Some(section) => Ok(TableFields {
            fields: SymbolFields {
                section: section_number(section),
                value,
                attributes,
            },
            long: long_index(section),
        }),
        None => Err(Fault::MissingResolution {
            what: Missing::Section,
            symbol: index,
        }),
    }
}

/// `st_value` of an address: for a thread-local symbol its offset from the start of the TLS segment.
fn counted_from(layout: &Layout, symbol: &Symbol, address: u64) -> u64
    ensures { result ≡ counted_from layout.now symbol.now address }
{
    if is_thread_symbol(symbol) {
        address.wrapping_sub(layout.tls.start)
    } else {
        address
    }
}

/// The section of a symbol that the linker defines. One in the headers, before all sections, gets section 1.
fn first_or(section: usize) -> usize
    ensures { result ≡ first_or section }
{
    if section == 0 { 1 } else { section }
}

/// Whether the first slot of a symbol is in `got_relr`.
fn begins_relr_got(layout: &Layout, symbol: &Symbol) -> bool
    ensures { result ≡ begins_relr_got (slots_of layout.now symbol.now).words }
{
    matches!(
        SymbolSlots::of(layout, symbol).words().first(),
        Some(SlotWord::InRelrGot(_))
    )
}

/// The address of the first slot of a symbol.
fn slot_of(symbol: &Symbol) -> Option<u64>
    ensures { result ≡ got_of symbol.now }
{
    match symbol.resolution {
        Some(resolution) => resolution.got_address,
        None => None,
    }
}

/// The attributes of the entry of a slot or a stub, all 0.
fn no_attributes() -> SymbolAttributes
    ensures { result ≡ no_attributes }
{
    SymbolAttributes {
        info: 0,
        other: 0,
        size: 0,
    }
}

/// The offset in its output section, in a relocatable object, of a symbol at `value` of an input section.
fn offset_within(section: &InputSection, value: u64, raw: Option<u64>) -> Option<u64>
    ensures { (l : Layout) (i : ℕ) → raw ≡ raw_value l i → result ≡ offset_within l i value section.now }
{
    if section.singleton.is_some() {
        Some(value)
    } else if section.slot.is_discarded() {
        raw
    } else {
        raw.or(Some(section.address.wrapping_add(value)))
    }
}

/// A symbol with an entry in the table, and what the entry depends on.
#[derive(Drop)]
struct Subject<'a> {
    layout: &'a Layout,
    sections: &'a NamedSections,
    role: FileRole,
    index: usize,
    symbol: &'a Symbol,
    raw: Option<u64>,
    within: Option<&'a InputSection>,
    ghost sections_are: { sections.now ≡ named_sections layout.now },
    ghost raw_is: { raw ≡ raw_value layout.now index },
    ghost within_is: { is_partial_link layout.now.kind ≡ true → option_copied within ≡ symbol_section layout.now index },
}

impl Subject<'_> {
    /// Its type, binding, visibility and size.
    fn attributes(&self) -> SymbolAttributes
        ensures { result ≡ table_attributes self.now.role self.now.symbol.now }
    {
        table_attributes(self.role, self.symbol)
    }

    /// The same if it is undefined: in a relocatable object the size is then 0.
    fn undefined_attributes(&self) -> SymbolAttributes
        ensures { result ≡ undefined_attributes self.now.layout.now self.now.role self.now.symbol.now }
    {
        let attributes = self.attributes();
        if self.layout.kind.is_partial_link() {
            SymbolAttributes {
                size: 0,
                ..attributes
            }
        } else {
            attributes
        }
    }

    /// Its offset in its output section, in a relocatable object.
    fn offset(&self) -> Option<u64>
        ensures { option_copied self.now.within ≡ symbol_section self.now.layout.now self.now.index → result ≡ offset_by self.now.layout.now self.now.index self.now.symbol.now.value (symbol_section self.now.layout.now self.now.index) }
    {
        match self.within {
            Some(section) => offset_within(section, self.symbol.value, self.raw),
            None => self.raw,
        }
    }

    /// Its offset in a relocatable object, otherwise its address.
    fn value(&self) -> Option<u64>
        ensures { result ≡ table_value self.now.layout.now self.now.index self.now.symbol.now }
    {
        if self.layout.kind.is_partial_link() {
            self.offset()
        } else {
            self.raw
        }
    }

    /// Its fields with this value in a section. Fails without a value.
    fn at(&self, value: Option<u64>, section: Option<usize>) -> Result<TableFields, Fault>
        ensures { result ≡ at_address self.now.layout.now self.now.index self.now.symbol.now section value (table_attributes self.now.role self.now.symbol.now) }
    {
        match value {
            Some(address) => in_table_section(
                self.index,
                section,
                counted_from(self.layout, self.symbol, address),
                self.attributes(),
            ),
            None => Err(Fault::MissingResolution {
                what: Missing::Address,
                symbol: self.index,
            }),
        }
    }

    /// Its fields in its section, or those of its PLT stub if it is an ifunc at a fixed load address.
    fn placed(&self, section: Option<usize>) -> Result<TableFields, Fault>
        ensures { result ≡ table_placed self.now.layout.now self.now.index self.now.role self.now.symbol.now section }
    {
        if has_stub_address(self.layout, self.symbol) {
            let stub = stub_of(self.symbol).unwrap_or(0);
            in_table_section(
                self.index,
                self.sections.stubs,
                stub,
                with_function(self.attributes()),
            )
        } else {
            self.at(self.value(), section)
        }
    }

    /// Its fields if this output defines it, or if it is undefined. `section` is the output section of its input section.
    fn by_place(&self, section: usize) -> Result<TableFields, Fault>
        ensures { result ≡ table_at self.now.layout.now self.now.index self.now.role self.now.symbol.now section self.now.symbol.now.place }
    {
        match self.symbol.place {
            Place::Undefined => Ok(short(undefined_with(self.undefined_attributes()))),
            Place::Absolute => Ok(short(SymbolFields {
                section: SHN_ABS,
                value: self.symbol.value,
                attributes: self.attributes(),
            })),
            Place::Common => self.placed(common_section(*self.sections, self.layout, self.symbol)),
            Place::Output(output) => self.placed(Some(first_or(output.0))),
            Place::Section(_) => self.placed(some_section(section)),
        }
    }

    /// Its fields if it is a library's function with a canonical PLT entry.
    fn canonical(&self) -> Result<TableFields, Fault>
        ensures { result ≡ table_canonical self.now.index self.now.role self.now.symbol.now self.now.symbol.now.place (plt_of self.now.symbol.now) }
    {
        match (self.symbol.place, stub_of(self.symbol)) {
            (Place::Undefined, _) => Ok(short(undefined_with(self.attributes()))),
            (_, Some(stub)) => Ok(short(SymbolFields {
                section: SHN_UNDEF,
                value: stub,
                attributes: with_function(self.attributes()),
            })),
            (_, None) => Err(Fault::MissingResolution {
                what: Missing::Stub,
                symbol: self.index,
            }),
        }
    }

    /// Its fields. `section` is the header index of the output section of its input section.
    fn fields(&self, section: usize) -> Result<TableFields, Fault>
        ensures { result ≡ table_by self.now.layout.now self.now.index self.now.role self.now.symbol.now section }
    {
        if self.role.is_library() && self.symbol.flags.needs_canonical_plt() {
            self.canonical()
        } else if self.role.is_library() && self.symbol.flags.needs_copy_relocation() {
            self.at(self.raw, self.sections.bss)
        } else {
            self.by_place(section)
        }
    }
}

/// The section of the part that contains the first slot of a symbol.
fn slot_section(layout: &Layout, sections: &NamedSections, symbol: &Symbol) -> Option<usize>
    requires { sections.now ≡ named_sections layout.now }
    ensures { result ≡ part_section (part_with (slot_role layout.now symbol.now) layout.now.parts) }
{
    if begins_relr_got(layout, symbol) {
        sections.block
    } else {
        sections.got
    }
}

/// The fields of the entry of a symbol's PLT stub, or otherwise of its slot.
pub(crate) fn slot_fields(
    layout: &Layout,
    sections: &NamedSections,
    index: usize,
    symbol: &Symbol,
    named: SymtabName,
) -> Result<TableFields, Fault>
    requires { sections.now ≡ named_sections layout.now }
    ensures { result ≡ slot_fields layout.now index symbol.now named }
{
    let (section, address) = match named {
        SymtabName::Stub => (sections.stubs, stub_of(symbol)),
        _ => (slot_section(layout, sections, symbol), slot_of(symbol)),
    };
    in_table_section(index, section, address.unwrap_or(0), no_attributes())
}

/// The attributes of the entry of a thunk: a local function.
fn thunk_attributes() -> SymbolAttributes
    ensures { result ≡ thunk_attributes }
{
    SymbolAttributes {
        info: STT_FUNC,
        other: 0,
        size: THUNK_SIZE,
    }
}

/// The section of the part that contains the thunks.
fn thunk_section(layout: &Layout) -> Option<usize>
    ensures { result ≡ part_section (slice_get layout.now.parts layout.now.primary_part) }
{
    match layout.parts.as_slice().get(layout.primary_part) {
        Some(part) => some_section(part.section.0),
        None => None,
    }
}

/// The fields of the entry of a thunk at this address, which jumps to the symbol with this index.
fn thunk_fields(layout: &Layout, index: usize, address: u64) -> Result<TableFields, Fault>
    ensures { result ≡ thunk_fields layout.now index address }
{
    in_table_section(index, thunk_section(layout), address, thunk_attributes())
}

/// The fields of a section symbol: local, with the value 0, since it is at the start of its section.
pub fn section_fields(section: usize) -> TableFields
    ensures { result ≡ section_fields section }
{
    let attributes = SymbolAttributes {
        info: STT_SECTION,
        other: 0,
        size: 0,
    };
    TableFields {
        fields: SymbolFields {
            section: section_number(section),
            value: 0,
            attributes,
        },
        long: long_index(section),
    }
}

/// The fields of the entry of a symbol, or of the entry that names its slot, its stub or a thunk to it. `index` is the
/// symbol's number in the layout, `section` the header index of its output section (0 if it has none), and `raw` its
/// address. In a relocatable object `within` is its input section.
///
/// # Errors
///
/// `MissingResolution` exactly if the symbol has no address (`Address`), or no output section (`Section`), or needs a
/// canonical PLT entry and has no stub (`Stub`).
pub fn table_fields(
    layout: &Layout,
    file: &File,
    named: SymtabName,
    index: usize,
    symbol: &Symbol,
    section: usize,
    raw: Option<u64>,
    within: Option<&InputSection>,
    sections: &NamedSections,
) -> Result<TableFields, Fault>
    requires section { section ≡ output_section layout.now (Some file.now) symbol.now.place }
    requires address { raw ≡ raw_value layout.now index }
    requires within { is_partial_link layout.now.kind ≡ true → option_copied within ≡ symbol_section layout.now index }
    requires sections { sections.now ≡ named_sections layout.now }
    ensures { result ≡ fields_of layout.now file.now named index symbol.now }
{
    match named {
        SymtabName::Itself => {
            let subject = Subject {
                layout,
                sections,
                role: file.role,
                index,
                symbol,
                raw,
                within,
            };
            subject.fields(section)
        }
        SymtabName::Slot | SymtabName::Stub => slot_fields(layout, sections, index, symbol, named),
        SymtabName::Thunk(address) => thunk_fields(layout, index, address),
    }
}

/// The fields of the null symbol, which also replace those of a symbol with a fault.
pub fn null_table_fields() -> TableFields
    ensures { result ≡ no_table_fields }
{
    short(no_fields())
}
