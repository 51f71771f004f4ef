//! The dynamic string table (gABI, "String Table"; LSB, "Symbol Versioning"). Each file has, in this order, strings that are no symbol's
//! name, the names of its dynamic symbols, and the names of its versions.
ghost use Rattle.std.specs.Prelude.{◌≡◌, ◌++◌, option_to_list, OnOk};
ghost use Rattle.std.specs.List.{flat_map, filter};
ghost use Rattle.wild_needs.specs.DynamicStrings.{epilogue_strings, dynstr_prefix_strings, listed_names, symbol_names, entry_names, file_strings};
ghost use Rattle.wild_needs.specs.DynamicSymbols.{is_undefined_entry};
ghost use Rattle.wild_needs.specs.Versions.{needs_of, needed_names, need_names, definition_names, own_names, version_names};
ghost use Rattle.wild_table_formats.specs.Strings.{string, string_bytes};

use crate::part_bytes::PartBytes;
use std::alloc::AllocError;
use wild_needs::{is_undefined_entry, needs_of};
use wild_types::{DynamicSymbol, File, FileRole, Layout, NeededVersion, Symbol, VersionDefinition};
use wild_words::Bytes;

/// Appends a string and a zero.
fn add_string(text: &[u8], bytes: &mut PartBytes) -> Result<(), AllocError>
    ensures { OnOk result (bytes.new ≡ bytes.old ++ string text.now) }
{
    bytes.extend(text)?;
    bytes.extend(&[0])
}

/// Appends an optional string.
fn add_option(text: &Option<Bytes>, bytes: &mut PartBytes) -> Result<(), AllocError>
    ensures { OnOk result (bytes.new ≡ bytes.old ++ flat_map string (option_to_list text.now)) }
{
    match text {
        Some(text) => add_string(text.as_slice(), bytes),
        None => Ok(()),
    }
}

/// Appends strings.
fn add_strings(texts: &[Bytes], bytes: &mut PartBytes) -> Result<(), AllocError>
    ensures { OnOk result (bytes.new ≡ bytes.old ++ string_bytes texts.now) }
{
    for text in texts {
        add_string(text.as_slice(), bytes)?;
    }
    Ok(())
}

/// Appends the strings of the dynamic section's entries.
#[tactic(auto, using(crate::proofs::StringLemmas::strings_are, crate::proofs::StringLemmas::no_strings))]
fn add_dynamic_strings(layout: &Layout, bytes: &mut PartBytes) -> Result<(), AllocError>
    ensures { OnOk result (bytes.new ≡ bytes.old ++ epilogue_strings layout.now) }
{
    if layout.kind.needs_dynamic() {
        add_option(&layout.options.rpath, bytes)?;
        add_option(&layout.options.soname, bytes)?;
        add_strings(layout.options.auxiliary.as_slice(), bytes)?;
    }
    Ok(())
}

/// Appends the strings of a file that are no symbol's name.
fn add_leads(layout: &Layout, file: &File, bytes: &mut PartBytes) -> Result<(), AllocError>
    ensures { OnOk result (bytes.new ≡ bytes.old ++ string_bytes (dynstr_prefix_strings layout.now file.now)) }
{
    match file.role {
        FileRole::Prelude => add_string(&[], bytes),
        FileRole::Dynamic => add_string(file.lib_name.as_slice(), bytes),
        FileRole::Epilogue => add_dynamic_strings(layout, bytes),
        _ => Ok(()),
    }
}

/// Appends the names of exported symbols.
fn add_exported_names(listed: &[DynamicSymbol], bytes: &mut PartBytes) -> Result<(), AllocError>
    ensures { OnOk result (bytes.new ≡ bytes.old ++ string_bytes (listed_names listed.now)) }
{
    for symbol in listed {
        add_string(symbol.name.as_slice(), bytes)?;
    }
    Ok(())
}

/// Appends the names of undefined dynamic symbols among some symbols of a file of that role.
fn add_undefined_names(
    role: FileRole,
    symbols: &[Symbol],
    bytes: &mut PartBytes,
) -> Result<(), AllocError>
    ensures { OnOk result (bytes.new ≡ bytes.old ++ string_bytes (symbol_names (filter (is_undefined_entry role) symbols.now))) }
{
    for symbol in symbols {
        if is_undefined_entry(role, symbol) {
            add_string(symbol.name.as_slice(), bytes)?;
        }
    }
    Ok(())
}

/// Appends the names of a file's dynamic symbols.
fn add_entry_names(layout: &Layout, file: &File, bytes: &mut PartBytes) -> Result<(), AllocError>
    ensures { OnOk result (bytes.new ≡ bytes.old ++ string_bytes (entry_names layout.now file.now)) }
{
    if file.role.is_epilogue() {
        add_exported_names(layout.dynsyms.as_slice(), bytes)
    } else {
        add_undefined_names(file.role, layout.symbols_of(file), bytes)
    }
}

/// Appends the names of needed versions.
fn add_needed_names(versions: &[NeededVersion], bytes: &mut PartBytes) -> Result<(), AllocError>
    ensures { OnOk result (bytes.new ≡ bytes.old ++ string_bytes (needed_names versions.now)) }
{
    for version in versions {
        add_string(version.name.as_slice(), bytes)?;
    }
    Ok(())
}

/// Appends the names of versions that the output defines.
fn add_defined_names(
    definitions: &[VersionDefinition],
    bytes: &mut PartBytes,
) -> Result<(), AllocError>
    ensures { OnOk result (bytes.new ≡ bytes.old ++ string_bytes (definition_names definitions.now)) }
{
    for definition in definitions {
        add_string(definition.name.as_slice(), bytes)?;
    }
    Ok(())
}

/// Appends those of them that need a string of their own: not the first if the output has a soname, whose string it shares.
fn add_own_names(layout: &Layout, bytes: &mut PartBytes) -> Result<(), AllocError>
    ensures { OnOk result (bytes.new ≡ bytes.old ++ string_bytes (own_names layout.now.options.soname layout.now.verdefs)) }
{
    let definitions = layout.verdefs.as_slice();
    match layout.options.soname {
        Some(_) => add_defined_names(&definitions[definitions.len().min(1)..], bytes),
        None => add_defined_names(definitions, bytes),
    }
}

/// Appends the name of a library, which is stored a second time for its versions, and the names of the versions needed of it.
fn add_need_names(file: &File, bytes: &mut PartBytes) -> Result<(), AllocError>
    ensures { OnOk result (bytes.new ≡ bytes.old ++ string_bytes (need_names file.now.lib_name (needs_of file.now))) }
{
    match needs_of(file) {
        Some(needs) => {
            add_string(file.lib_name.as_slice(), bytes)?;
            add_needed_names(needs.versions.as_slice(), bytes)
        }
        None => Ok(()),
    }
}

/// Appends the names of a file's versions.
fn add_version_names(layout: &Layout, file: &File, bytes: &mut PartBytes) -> Result<(), AllocError>
    ensures { OnOk result (bytes.new ≡ bytes.old ++ string_bytes (version_names layout.now file.now)) }
{
    if file.role.is_epilogue() {
        add_own_names(layout, bytes)
    } else {
        add_need_names(file, bytes)
    }
}

/// Appends the strings of a file.
#[tactic(auto, using(crate::proofs::StringLemmas::file_strings_joined, crate::proofs::StringLemmas::no_file_strings))]
pub(crate) fn add_file_strings(
    layout: &Layout,
    file: &File,
    bytes: &mut PartBytes,
) -> Result<(), AllocError>
    ensures { OnOk result (bytes.new ≡ bytes.old ++ string_bytes (file_strings layout.now file.now)) }
{
    if layout.kind.needs_dynsym() {
        add_leads(layout, file, bytes)?;
        add_entry_names(layout, file, bytes)?;
        add_version_names(layout, file, bytes)?;
    }
    Ok(())
}
