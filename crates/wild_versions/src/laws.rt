//! What a reader finds in the tables of versions.
ghost use Rattle.wild_table_formats.specs.VersionLaws.{LengthsOfSymbolVersions, LengthsOfFileDefinitions, LengthsOfGroupNeeds, LengthsOfVersions, LengthsOfDefinitions, LengthsOfNeeds, VersionsAreRead, DefinitionsAreRead, NeedsAreRead};

use wild_records::{
    verdaux_is_read, verdef_is_read, vernaux_is_read, verneed_is_read, versym_is_read,
};

/// The version of a symbol has 2 bytes, and that of symbol k is read at offset 2 k. A group has one for each of its entries
/// in `.dynsym`.
pub fn symbol_versions_are_read()
    ensures lengths { LengthsOfVersions }
    ensures read { VersionsAreRead }
{
    versym_is_read();
}

/// A version that is defined has 28 bytes, or 36 with a parent. A reader who follows the offsets from record to record
/// finds exactly these versions, with their indexes, hashes and name offsets.
pub fn definitions_are_read()
    ensures lengths { LengthsOfDefinitions }
    ensures read { DefinitionsAreRead }
{
    verdef_is_read();
    verdaux_is_read();
}

/// The record of a library has 16 bytes, and so has that of each version that is needed of it. A reader who follows the
/// offsets from record to record finds exactly these libraries and their versions, in order.
pub fn needs_are_read()
    ensures lengths { LengthsOfNeeds }
    ensures read { NeedsAreRead }
{
    verneed_is_read();
    vernaux_is_read();
}

/// What each file and group contributes has exactly the length that `wild_needs` computes.
pub fn version_tables_have_their_lengths()
    ensures symbols { LengthsOfSymbolVersions }
    ensures definitions { LengthsOfFileDefinitions }
    ensures needs { LengthsOfGroupNeeds }
{}
