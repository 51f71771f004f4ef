//! Where the names of versions are in the string table, and that each entry of the dynamic symbol table has a version.
ghost use Rattle.wild_names.specs.VersionNames.{DefinitionsAreNamed, NeedsAreNamed, EachEntryHasAVersion};

/// A group has a version for each entry of its dynamic symbol table.
pub fn entries_have_versions()
    ensures { EachEntryHasAVersion }
{}

/// If the strings of a file are in `.dynstr` where the layout places them, the name offsets in the records of its
/// versions point to the names.
pub fn versions_are_named()
    ensures definitions { DefinitionsAreNamed }
    ensures needs { NeedsAreNamed }
{}
