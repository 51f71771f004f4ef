//! What a relocatable object's tables of relocations and groups hold, and that a link that uses the object relocates as the input requires.
ghost use Rattle.wild_names.specs.ObjectTables.{ObjectTablesAreWritten};
ghost use Rattle.wild_names.specs.Links.{RelinkingIsFaithful};

use crate::symbols_have_fields;
use wild_geometry::layouts_are_laid_out;
use wild_loaded::owners_are_known;

/// In the image of a relocatable object without faults each relocation of a table's target has its entry, with its offset in the
/// output section, the number of its symbol and its addend. Each group has its flags and its members' sections.
pub fn object_tables_are_read()
    ensures { ObjectTablesAreWritten }
{
    layouts_are_laid_out();
    owners_are_known();
}

/// Whatever addresses a link gives to the object's sections and to the names that the object does not define, each entry gives
/// the same value, at the same place, as the input's relocation.
pub fn relinking_is_faithful()
    ensures { RelinkingIsFaithful }
{
    layouts_are_laid_out();
    symbols_have_fields();
}
