//! The symbols whose bytes an image copies.
ghost use Rattle.std.specs.Prelude.{◌≡◌, ◌++◌, IfOk};
ghost use Rattle.wild_loader.specs.Changes.{kind_of};
ghost use Rattle.wild_imports.specs.Imports.{is_copy_kind, copies_among, copied_symbols};

use std::alloc::{AllocError, Global};
use wild_loader::{DynamicKind, Machine, Tables, dynamic_kind};
use wild_records::Rela;
use wild_words::Items;

/// Whether entries of a relocation type copy a symbol's bytes.
fn is_copy(machine: Machine, number: u32) -> bool
    ensures { result ≡ is_copy_kind (kind_of machine number) }
{
    matches!(dynamic_kind(machine, number), Some(DynamicKind::Copy))
}

/// The symbols, followed by those of the COPY entries among these.
#[tactic(auto, unfolding(crate::specs::Imports::copies_among))]
fn add_copies(
    machine: Machine,
    entries: &[Rela],
    mut symbols: Items<u32>,
) -> Result<Items<u32>, AllocError>
    ensures { IfOk result (λ more. more ≡ symbols ++ copies_among machine entries.now) }
{
    for entry in entries {
        if is_copy(machine, entry.number) {
            symbols.push(entry.symbol)?;
        }
    }
    Ok(symbols)
}

/// The symbols of all COPY entries, in the order in which entries are applied. Fails only if memory runs out.
pub fn copied_symbols(
    alloc: Global,
    machine: Machine,
    tables: &Tables,
) -> Result<Items<u32>, AllocError>
    ensures { IfOk result (λ symbols. symbols ≡ copied_symbols machine tables.now) }
{
    let symbols = add_copies(machine, tables.entries.as_slice(), Items::new(alloc))?;
    add_copies(machine, tables.jumps.as_slice(), symbols)
}
