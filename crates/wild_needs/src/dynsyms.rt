//! The undefined entries of the dynamic symbol table, and its length.
ghost use Rattle.std.specs.Prelude.{◌≡◌, ◌-◌, ◌^◌, ◌≤◌, min, length};
ghost use Rattle.wild_needs.specs.DynamicSymbols.{writes_undefined_entry, is_undefined_entry, dynsym_of, dynamic_symbols};
ghost use Rattle.wild_needs.specs.UndefinedCounts.{count_in, undefined_of, undefined_of_group, undefined_count};

use wild_types::{File, FileRole, Group, Layout, Symbol, ValueFlags, symbols_in_range};

/// Whether a file of that role writes an undefined entry for a resolution with these flags.
fn writes_undefined_entry(role: FileRole, flags: ValueFlags) -> bool
    ensures { result ≡ writes_undefined_entry role flags }
{
    match role {
        FileRole::Object => flags.is_dynamic(),
        FileRole::Dynamic => !flags.needs_copy_relocation() && !flags.needs_canonical_plt(),
        _ => false,
    }
}

/// Whether a symbol of a file of that role has an undefined entry in the dynamic symbol table.
pub fn is_undefined_entry(role: FileRole, symbol: &Symbol) -> bool
    ensures { result ≡ is_undefined_entry role symbol.now }
{
    writes_undefined_entry(role, symbol.flags) && symbol.resolution.is_some()
}

/// The symbol's index in the dynamic symbol table.
pub fn dynsym_of(symbol: &Symbol) -> Option<u64>
    ensures { result ≡ dynsym_of symbol.now }
{
    symbol.resolution?.dynamic_symbol_index
}

/// The number of a file's symbols with an undefined entry.
pub fn count_in(role: FileRole, symbols: &[Symbol]) -> usize
    ensures count { result ≡ count_in role symbols.now }
    ensures few { result ≤ length symbols.now }
{
    let mut count = 0;
    for symbol in symbols {
        if is_undefined_entry(role, symbol) {
            count += 1;
        }
    }
    count
}

fn undefined_of(layout: &Layout, file: &File) -> usize
    ensures { result ≡ undefined_of layout.now.symbols file.now }
{
    let symbols = layout.symbols.as_slice();
    count_in(
        file.role,
        symbols_in_range(symbols, file.first_symbol.0, file.symbol_count),
    )
}

/// The number of undefined entries of a group, at most 2^64 - 1.
pub fn undefined_of_group(layout: &Layout, group: &Group) -> usize
    ensures { result ≡ min (2 ^ 64 - 1) (undefined_of_group layout.now.symbols group.now) }
{
    let mut count: usize = 0;
    for file in group.files.as_slice() {
        count = count.saturating_add(undefined_of(layout, file));
    }
    count
}

/// The number of undefined entries of all files, at most 2^64 - 1.
pub fn undefined_count(layout: &Layout) -> usize
    ensures { result ≡ min (2 ^ 64 - 1) (undefined_count layout.now) }
{
    let mut count: usize = 0;
    for group in layout.groups.as_slice() {
        count = count.saturating_add(undefined_of_group(layout, group));
    }
    count
}

/// The number of symbols in the table after the null symbol, at most 2^64 - 1.
#[tactic(auto, using(crate::proofs::UndefinedLemmas::table_length))]
pub fn table_length(layout: &Layout) -> usize
    ensures { result ≡ min (2 ^ 64 - 1) (length (dynamic_symbols layout.now)) }
{
    undefined_count(layout).saturating_add(layout.dynsyms.len())
}
