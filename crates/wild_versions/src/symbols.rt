//! The versions of dynamic symbols (LSB, "Symbol Version Table").
ghost use Rattle.std.specs.Prelude.{◌≡◌, ◌+◌, ◌≤◌, length};
ghost use Rattle.wild_records.specs.Versyms.{versym_size};
ghost use Rattle.wild_table_formats.specs.VersionRoom.{with_bytes};
ghost use Rattle.wild_table_formats.specs.SymbolVersions.{spelled, version_of};

use crate::room::FilledRoom;
use wild_records::Versym;
use wild_records::abi::version::VER_NDX_GLOBAL;
use wild_types::{FileRole, Symbol};

/// The version of a symbol in an entry of a file with that role: for a library the version that is needed of it, otherwise
/// `VER_NDX_GLOBAL`.
pub(crate) fn version_of(role: FileRole, symbol: &Symbol) -> u16
    ensures { result ≡ version_of role symbol.now }
{
    if role.is_library() {
        symbol.version
    } else {
        VER_NDX_GLOBAL
    }
}

/// Appends the version of a symbol.
pub(crate) fn push_version(table: &mut FilledRoom, version: u16)
    requires { length table.old.bytes + versym_size ≤ table.old.room }
    ensures { table.new ≡ with_bytes (spelled version) table.old }
{
    let mut bytes = [0; Versym::SIZE];
    Versym { version }.put(&mut bytes);
    table.push(&bytes);
}
