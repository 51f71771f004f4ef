//! What an image defines for others.
ghost use Rattle.std.specs.Prelude.{◌≡◌};
ghost use Rattle.wild_hashes.specs.ImageTables.{AreTablesInside};
ghost use Rattle.wild_imports.specs.Imports.{thread_start, find_definition};

use wild_hashes::{ImageFault, ImageTables, find_name, symbol_at};
use wild_records::ProgramHeader;
use wild_records::abi::section::SHN_UNDEF;
use wild_records::abi::segment::PT_TLS;

/// The address of the image's thread-local data; 0 without any.
#[tactic(auto, using(crate::proofs::Loops::thread_steps))]
pub fn thread_start(image: &[u8], tables: &ImageTables) -> u64
    requires { AreTablesInside image.now tables.now }
    ensures { result ≡ thread_start image.now tables.now }
{
    for i in 0..tables.headers.count {
        let header = ProgramHeader::read(image, tables.headers.start + ProgramHeader::SIZE * i);
        if header.kind == PT_TLS {
            return header.address;
        }
    }
    0
}

/// The index of the defined dynamic symbol that the look-up of a name finds.
#[tactic(auto, unfolding(crate::specs::Imports::find_definition))]
pub fn find_definition(
    image: &[u8],
    tables: &ImageTables,
    name: &[u8],
) -> Result<Option<u64>, ImageFault>
    requires { AreTablesInside image.now tables.now }
    ensures { result ≡ find_definition image.now tables.now name.now }
{
    let Some(index) = find_name(image, tables, name)? else {
        return Ok(None);
    };
    let entry = symbol_at(image, tables, index)?;
    if entry.section == SHN_UNDEF {
        Ok(None)
    } else {
        Ok(Some(index))
    }
}
