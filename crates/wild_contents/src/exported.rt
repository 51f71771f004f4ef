//! The dynamic symbols that the output exports: the fields of their entries, and what these entries may lack.
ghost use Rattle.std.specs.Prelude.{◌≡◌, ◌++◌, true, slice_get};
ghost use Rattle.std.specs.List.{flat_map};
ghost use Rattle.wild_types.specs.Faults.{Answers};
ghost use Rattle.wild_types.specs.Kinds.{needs_dynsym};
ghost use Rattle.wild_table_formats.specs.DynamicEntries.{listed_of, or_none};
ghost use Rattle.wild_layout.specs.Faults.{at_file, flat_map_from, exported_error, exported_errors, table_errors};

use crate::symtab_faults::check_table;
use wild_relax::Arch;
use wild_sections::{InputPlace, Resolved};
use wild_symbols::{SymbolFields, exported_symbol_fields, no_fields};
use wild_types::{DynamicSymbol, Error, Fault, File};

/// The fields of an exported symbol's entry, or why it has none.
fn fields_of<A: Arch>(resolved: &Resolved<A>, listed: &DynamicSymbol) -> Result<SymbolFields, Fault>
    requires table { needs_dynsym resolved.now.layout.now.kind ≡ true }
    ensures { result ≡ listed_of resolved.now.layout.now listed.now.symbol (slice_get resolved.now.layout.now.symbols listed.now.symbol) }
{
    let index = listed.symbol.0;
    match resolved.layout.symbols.as_slice().get(index) {
        Some(symbol) => {
            let symbol_file = resolved.symbol_file(index, symbol);
            exported_symbol_fields(
                resolved.layout,
                resolved.named,
                index,
                symbol_file.role,
                symbol_file.section.0,
                symbol,
            )
        }
        None => Ok(no_fields()),
    }
}

/// The fields of an exported symbol's entry; zeros if it has a fault.
pub(crate) fn exported_fields<A: Arch>(
    resolved: &Resolved<A>,
    listed: &DynamicSymbol,
) -> SymbolFields
    requires table { needs_dynsym resolved.now.layout.now.kind ≡ true }
    ensures { result ≡ or_none (listed_of resolved.now.layout.now listed.now.symbol (slice_get resolved.now.layout.now.symbols listed.now.symbol)) }
{
    fields_of(resolved, listed).unwrap_or(no_fields())
}

/// Refuses an exported symbol whose entry has a fault.
fn check_symbol<A: Arch>(
    resolved: &Resolved<A>,
    place: InputPlace,
    listed: &DynamicSymbol,
) -> Result<(), Error>
    requires table { needs_dynsym resolved.now.layout.now.kind ≡ true }
    ensures { Answers result (exported_error resolved.now.layout.now (at_file place.group place.file) listed.now) }
{
    match fields_of(resolved, listed) {
        Ok(_) => Ok(()),
        Err(fault) => Err(Error {
            fault,
            at: place.file(),
        }),
    }
}

/// Checks exported symbols; returns the first fault in their order.
#[tactic(auto, using(wild_sections::proofs::FaultLemmas::first_faults))]
fn check_symbols<A: Arch>(
    resolved: &Resolved<A>,
    place: InputPlace,
    listed: &[DynamicSymbol],
) -> Result<(), Error>
    requires table { needs_dynsym resolved.now.layout.now.kind ≡ true }
    ensures { Answers result (flat_map (exported_error resolved.now.layout.now (at_file place.group place.file)) listed.now) }
{
    for symbol in listed {
        check_symbol(resolved, place, symbol)?;
    }
    Ok(())
}

/// Checks the exported symbols, if the file is the last one.
#[tactic(auto, unfolding(wild_layout::specs::Faults::exported_errors))]
fn check_file<A: Arch>(resolved: &Resolved<A>, place: InputPlace, file: &File) -> Result<(), Error>
    ensures { Answers result (exported_errors resolved.now.layout.now place.group place.file file.now) }
{
    let layout = resolved.layout;
    if file.role.is_epilogue() && layout.kind.needs_dynsym() {
        check_symbols(resolved, place, layout.dynsyms.as_slice())?;
    }
    Ok(())
}

/// Checks the exported symbols, if one of the files is the last one.
#[tactic(auto, using(wild_sections::proofs::FaultLemmas::first_from))]
fn check_exported<A: Arch>(
    resolved: &Resolved<A>,
    group: usize,
    files: &[File],
) -> Result<(), Error>
    ensures { Answers result (flat_map_from (exported_errors resolved.now.layout.now group) 0 files.now) }
{
    for (i, file) in files.iter().enumerate() {
        let place = InputPlace {
            group,
            file: i,
            section: 0,
        };
        check_file(resolved, place, file)?;
    }
    Ok(())
}

/// Checks the symbol table entries of a group's files: first the exported dynamic symbols, then `.symtab`.
#[tactic(auto, using(wild_sections::proofs::FaultLemmas::first_of_both))]
pub fn check_symbol_tables<A: Arch>(
    resolved: &Resolved<A>,
    group: usize,
    files: &[File],
) -> Result<(), Error>
    ensures { Answers result (flat_map_from (exported_errors resolved.now.layout.now group) 0 files.now ++ flat_map_from (table_errors resolved.now.layout.now group) 0 files.now) }
{
    check_exported(resolved, group, files)?;
    check_table(resolved, group, files)
}
