//! Properties of placed sections.
ghost use Rattle.wild_placement.specs.Plain.{PlainFileIsUnchanged, PlainFilesAreUnchanged};

/// Files without frames, tables of relocations and reversed sections are placed unchanged, unless the output is a relocatable object.
pub fn plain_files_are_unchanged()
    ensures file { PlainFileIsUnchanged }
    ensures files { PlainFilesAreUnchanged }
{}
