//! The names of the images that an image needs.
ghost use Rattle.std.specs.Prelude.{◌≡◌, ◌∷◌, ◌++◌, [], IfOk};
ghost use Rattle.wild_hashes.specs.ImageTables.{AreTablesInside};
ghost use Rattle.wild_imports.specs.Imports.{needed_values, needed_offsets};

use std::alloc::{AllocError, Global};
use wild_hashes::ImageTables;
use wild_records::DynamicEntry;
use wild_records::abi::dynamic::{DT_NEEDED, DT_NULL};
use wild_words::Items;

/// The offsets, followed by that of an entry of type `DT_NEEDED`.
fn add_needed(entry: DynamicEntry, mut offsets: Items<u64>) -> Result<Items<u64>, AllocError>
    ensures { IfOk result (λ more. more ≡ offsets ++ needed_values (entry ∷ [])) }
{
    if entry.tag == DT_NEEDED {
        offsets.push(entry.value)?;
    }
    Ok(offsets)
}

/// The string table offsets of the names that the image needs. Fails only if memory runs out.
#[tactic(auto, unfolding(crate::specs::Imports::needed_offsets))]
pub fn needed_offsets(
    alloc: Global,
    image: &[u8],
    tables: &ImageTables,
) -> Result<Items<u64>, AllocError>
    requires { AreTablesInside image.now tables.now }
    ensures { IfOk result (λ offsets. offsets ≡ needed_offsets image.now tables.now) }
{
    let mut offsets = Items::new(alloc);
    for i in 0..tables.entries.count {
        let entry = DynamicEntry::read(image, tables.entries.start + DynamicEntry::SIZE * i);
        if entry.tag == DT_NULL {
            return Ok(offsets);
        }
        offsets = add_needed(entry, offsets)?;
    }
    Ok(offsets)
}
