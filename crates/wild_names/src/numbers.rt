//! The numbers of versions in a layout are in the ranges of their types. The laws are about unbounded numbers, so they need this
//! fact about a layout in memory.
ghost use Rattle.std.specs.Prelude.{All, ◌^◌, ◌<◌};
ghost use Rattle.wild_types.specs.declared.file.Group.{Group};
ghost use Rattle.wild_types.specs.declared.file.NeededVersion.{NeededVersion};
ghost use Rattle.wild_types.specs.declared.layout.DynamicSymbol.{DynamicSymbol};
ghost use Rattle.wild_types.specs.declared.symbol.Symbol.{Symbol};
ghost use Rattle.wild_names.specs.VersionLaws.{IndexesFit, VersionNumbersFit};

use wild_types::{DynamicSymbol, File, Group, Layout, NeededVersion, Symbol};

fn symbol_fits(symbol: &Symbol)
    ensures { symbol.now.version < 2 ^ 16 }
{
    let _version = symbol.version;
}

fn symbols_fit(symbols: &[Symbol])
    ensures { All (λ (s : Symbol). s.version < 2 ^ 16) symbols.now }
{
    for symbol in symbols {
        symbol_fits(symbol);
    }
}

fn listed_symbol_fits(symbol: &DynamicSymbol)
    ensures { symbol.now.version < 2 ^ 16 }
{
    let _version = symbol.version;
}

fn listed_fit(symbols: &[DynamicSymbol])
    ensures { All (λ (d : DynamicSymbol). d.version < 2 ^ 16) symbols.now }
{
    for symbol in symbols {
        listed_symbol_fits(symbol);
    }
}

fn index_fits(version: &NeededVersion)
    ensures { version.now.index < 2 ^ 16 }
{
    let _index = version.index;
}

fn indexes_fit(versions: &[NeededVersion])
    ensures { All (λ (v : NeededVersion). v.index < 2 ^ 16) versions.now }
{
    for version in versions {
        index_fits(version);
    }
}

fn file_fits(file: &File)
    ensures { IndexesFit file.now }
{
    if let Some(needs) = &file.verneed {
        indexes_fit(needs.versions.as_slice());
    }
}

fn files_fit(files: &[File])
    ensures { All IndexesFit files.now }
{
    for file in files {
        file_fits(file);
    }
}

fn group_fits(group: &Group)
    ensures { All IndexesFit group.now.files }
{
    files_fit(group.files.as_slice());
}

fn groups_fit(groups: &[Group])
    ensures { All (λ (g : Group). All IndexesFit g.files) groups.now }
{
    for group in groups {
        group_fits(group);
    }
}

/// The versions of a layout's symbols, those of its list of dynamic symbols, and the indexes of the versions that are needed from
/// its files are in the range of their type.
pub fn version_numbers_fit(layout: &Layout)
    ensures { VersionNumbersFit layout.now }
{
    symbols_fit(layout.symbols.as_slice());
    listed_fit(layout.dynsyms.as_slice());
    groups_fit(layout.groups.as_slice());
}
