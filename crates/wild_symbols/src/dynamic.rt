//! The fields of the entries of `.dynsym` (gABI, "Symbol Table").
ghost use Rattle.std.specs.Prelude.{◌≡◌, ◌<◌};
ghost use Rattle.wild_records.specs.SymbolSections.{split_index};
ghost use Rattle.wild_types.specs.Parts.{part_with};
ghost use Rattle.wild_types.specs.SymbolSlots.{plt_of};
ghost use Rattle.wild_table_formats.specs.DynamicFields.{own_attributes, with_type, library_info, library_attributes, undefined_with, undefined_fields, section_named, some_section, part_section, named_sections, in_section, resolved_value, is_thread_symbol, value_in, has_stub_address, as_function, common_section, placed_fields, fields_at, canonical_fields, copied_fields, exported_fields_in};
ghost use Rattle.wild_table_formats.specs.DynamicEntries.{no_fields, entry_at};

use wild_records::SymtabEntry;
use wild_records::abi::section::{SHN_ABS, SHN_LORESERVE, SHN_UNDEF, SHN_XINDEX};
use wild_records::abi::symbol::{STT_FUNC, STT_GNU_IFUNC, STT_TLS};
use wild_table_formats::{NamedSections, SymbolAttributes, SymbolFields};
use wild_types::{Fault, FileRole, Layout, Missing, Part, Place, Role, Symbol, has_role};

/// Type, binding, visibility and size that the layout has for a symbol.
fn own_attributes(symbol: &Symbol) -> SymbolAttributes
    ensures { result ≡ own_attributes symbol.now }
{
    SymbolAttributes {
        info: symbol.info,
        other: symbol.other,
        size: symbol.size,
    }
}

/// `st_info` with its binding kept and its type replaced.
pub(crate) fn with_type(info: u8, kind: u8) -> u8
    requires { kind < 16 }
    ensures { result ≡ with_type info kind }
{
    info / 16 * 16 + kind
}

/// `st_info` of a library's symbol: an ifunc of the library is an ordinary function for this output.
fn library_info(info: u8) -> u8
    ensures { result ≡ library_info info }
{
    if info % 16 == STT_GNU_IFUNC {
        with_type(info, STT_FUNC)
    } else {
        info
    }
}

/// The attributes of a library's symbol, without visibility and size.
fn library_attributes(info: u8) -> SymbolAttributes
    ensures { result ≡ library_attributes info }
{
    SymbolAttributes {
        info,
        other: 0,
        size: 0,
    }
}

/// The fields of an undefined symbol: `SHN_UNDEF`, and the value 0.
pub(crate) fn undefined_with(attributes: SymbolAttributes) -> SymbolFields
    ensures { result ≡ undefined_with attributes }
{
    SymbolFields {
        section: SHN_UNDEF,
        value: 0,
        attributes,
    }
}

/// The fields of a symbol that another module defines. The entry belongs to a file with this role.
pub fn undefined_fields(role: FileRole, symbol: &Symbol) -> SymbolFields
    ensures { result ≡ undefined_fields role symbol.now }
{
    if role.is_library() {
        undefined_with(library_attributes(library_info(symbol.info)))
    } else {
        undefined_with(own_attributes(symbol))
    }
}

/// The header index of the first section with a name.
fn section_named(layout: &Layout, name: &[u8]) -> Option<usize>
    ensures { result ≡ section_named layout.now name.now }
{
    layout
        .sections
        .as_slice()
        .iter()
        .position(|section| section.name.as_slice() == name)
}

/// A header index, or `None` for section 0.
pub(crate) fn some_section(index: usize) -> Option<usize>
    ensures { result ≡ some_section index }
{
    if index == 0 { None } else { Some(index) }
}

/// The header index of the section of the first part with a role.
fn section_of_role(role: Role, parts: &[Part]) -> Option<usize>
    ensures { result ≡ part_section (part_with role parts.now) }
{
    for part in parts {
        if has_role(role, part) {
            return some_section(part.section.0);
        }
    }
    None
}

/// Finds the sections in a layout.
pub fn named_sections(layout: &Layout) -> NamedSections
    ensures { result ≡ named_sections layout.now }
{
    NamedSections {
        bss: section_named(layout, b".bss"),
        tbss: section_named(layout, b".tbss"),
        stubs: section_of_role(Role::PltGot, layout.parts.as_slice()),
        got: section_of_role(Role::Got, layout.parts.as_slice()),
        block: section_of_role(Role::GotRelr, layout.parts.as_slice()),
    }
}

/// `st_shndx` for a header index: `SHN_XINDEX` from `SHN_LORESERVE` on.
pub(crate) fn section_number(index: usize) -> u16
    ensures { result ≡ (split_index index).0 }
{
    match u16::try_from(index) {
        Ok(low) if low < SHN_LORESERVE => low,
        _ => SHN_XINDEX,
    }
}

/// The fields of a symbol with this value in a section. Fails without a section.
fn in_section(
    index: usize,
    section: Option<usize>,
    value: u64,
    attributes: SymbolAttributes,
) -> Result<SymbolFields, Fault>
    ensures { result ≡ in_section index section value attributes }
{
    match section {
        Some(section) => Ok(SymbolFields {
            section: section_number(section),
            value,
            attributes,
        }),
        None => Err(Fault::MissingResolution {
            what: Missing::Section,
            symbol: index,
        }),
    }
}

/// The address of a symbol's PLT stub.
pub(crate) fn stub_of(symbol: &Symbol) -> Option<u64>
    ensures { result ≡ plt_of symbol.now }
{
    match symbol.resolution {
        Some(resolution) => resolution.plt_address,
        None => None,
    }
}

/// The resolved address of a symbol; 0 if it has none.
fn resolved_value(symbol: &Symbol) -> u64
    ensures { result ≡ resolved_value symbol.now }
{
    match symbol.resolution {
        Some(resolution) => resolution.raw_value,
        None => 0,
    }
}

pub(crate) fn is_thread_symbol(symbol: &Symbol) -> bool
    ensures { result ≡ is_thread_symbol symbol.now }
{
    symbol.info % 16 == STT_TLS
}

/// `st_value`: for a thread-local symbol its offset from the start of the TLS segment, otherwise its address.
fn value_in(layout: &Layout, symbol: &Symbol) -> u64
    ensures { result ≡ value_in layout.now symbol.now }
{
    let value = resolved_value(symbol);
    if is_thread_symbol(symbol) {
        value.wrapping_sub(layout.tls.start)
    } else {
        value
    }
}

/// Whether the entry of an ifunc has the address of its PLT stub. This is so in an output with a fixed load address, where
/// pointers to the function must compare equal in all modules.
pub(crate) fn has_stub_address(layout: &Layout, symbol: &Symbol) -> bool
    ensures { result ≡ has_stub_address layout.now symbol.now }
{
    symbol.flags.is_ifunc() && (stub_of(symbol).is_some() && layout.kind.has_fixed_load_address())
}

fn as_function(symbol: &Symbol) -> SymbolAttributes
    ensures { result ≡ as_function symbol.now }
{
    SymbolAttributes {
        info: with_type(symbol.info, STT_FUNC),
        other: symbol.other,
        size: symbol.size,
    }
}

pub(crate) fn common_section(
    named: NamedSections,
    layout: &Layout,
    symbol: &Symbol,
) -> Option<usize>
    requires { named ≡ named_sections layout.now }
    ensures { result ≡ common_section layout.now symbol.now }
{
    if is_thread_symbol(symbol) {
        named.tbss
    } else {
        named.bss
    }
}

/// The fields of a symbol in its section, or of its PLT stub if it is an ifunc at a fixed load address.
fn placed_fields(
    layout: &Layout,
    named: NamedSections,
    index: usize,
    symbol: &Symbol,
    section: Option<usize>,
) -> Result<SymbolFields, Fault>
    requires { named ≡ named_sections layout.now }
    ensures { result ≡ placed_fields layout.now index symbol.now section }
{
    if has_stub_address(layout, symbol) {
        let stub = stub_of(symbol).unwrap_or(0);
        in_section(index, named.stubs, stub, as_function(symbol))
    } else {
        let value = value_in(layout, symbol);
        in_section(index, section, value, own_attributes(symbol))
    }
}

/// The fields of a symbol that this output defines, and of an undefined one.
fn fields_at(
    layout: &Layout,
    named: NamedSections,
    index: usize,
    symbol: &Symbol,
    section: usize,
) -> Result<SymbolFields, Fault>
    requires { named ≡ named_sections layout.now }
    ensures { result ≡ fields_at layout.now index symbol.now section symbol.now.place }
{
    match symbol.place {
        Place::Undefined => Ok(undefined_with(own_attributes(symbol))),
        Place::Absolute => Ok(SymbolFields {
            section: SHN_ABS,
            value: symbol.value,
            attributes: own_attributes(symbol),
        }),
        Place::Common => {
            let section = common_section(named, layout, symbol);
            placed_fields(layout, named, index, symbol, section)
        }
        Place::Section(_) | Place::Output(_) => {
            placed_fields(layout, named, index, symbol, some_section(section))
        }
    }
}

/// The fields of a library's function with a canonical PLT entry: undefined (`SHN_UNDEF`), with the stub's address as its
/// value.
fn canonical_fields(index: usize, symbol: &Symbol) -> Result<SymbolFields, Fault>
    ensures { result ≡ canonical_fields index symbol.now symbol.now.place (plt_of symbol.now) }
{
    match (symbol.place, stub_of(symbol)) {
        (Place::Undefined, _) => Ok(undefined_with(library_attributes(symbol.info))),
        (_, Some(stub)) => Ok(SymbolFields {
            section: SHN_UNDEF,
            value: stub,
            attributes: library_attributes(with_type(symbol.info, STT_FUNC)),
        }),
        (_, None) => Err(Fault::MissingResolution {
            what: Missing::Stub,
            symbol: index,
        }),
    }
}

/// The fields of a symbol with a `COPY` relocation, which is in `.bss`.
fn copied_fields(
    named: NamedSections,
    layout: &Layout,
    index: usize,
    symbol: &Symbol,
) -> Result<SymbolFields, Fault>
    requires { named ≡ named_sections layout.now }
    ensures { result ≡ copied_fields layout.now index symbol.now }
{
    in_section(
        index,
        named.bss,
        resolved_value(symbol),
        own_attributes(symbol),
    )
}

/// The fields of an exported symbol, which has this index. `role` is that of its file (`Object` if it has none), and
/// `section` is the header index of its output section (0 if it has none).
///
/// # Errors
///
/// `MissingResolution` exactly if the symbol has no output section (`Section`), or needs a canonical PLT entry and has no
/// stub (`Stub`).
pub fn exported_symbol_fields(
    layout: &Layout,
    named: NamedSections,
    index: usize,
    role: FileRole,
    section: usize,
    symbol: &Symbol,
) -> Result<SymbolFields, Fault>
    requires { named ≡ named_sections layout.now }
    ensures { result ≡ exported_fields_in layout.now index role symbol.now section }
{
    if role.is_library() && symbol.flags.needs_canonical_plt() {
        canonical_fields(index, symbol)
    } else if role.is_library() && symbol.flags.needs_copy_relocation() {
        copied_fields(named, layout, index, symbol)
    } else {
        fields_at(layout, named, index, symbol, section)
    }
}

/// The fields of the null symbol, which also replace those of a symbol with a fault.
pub fn no_fields() -> SymbolFields
    ensures { result ≡ no_fields }
{
    undefined_with(library_attributes(0))
}

/// The entry of a symbol whose name is at `offset` of the string table. `st_name` is the offset modulo 2^32.
pub fn entry_at(offset: u64, fields: SymbolFields) -> SymtabEntry
    ensures { result ≡ entry_at offset fields }
{
    SymtabEntry {
        name: (offset % 0x1_0000_0000) as u32,
        info: fields.attributes.info,
        other: fields.attributes.other,
        section: fields.section,
        value: fields.value,
        size: fields.attributes.size,
    }
}
