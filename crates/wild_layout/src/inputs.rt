//! Proves that the bytes of a layout's input sections, and the addends of their relocations, are in their types' ranges.
ghost use Rattle.std.specs.Prelude.{All, ℕ, ◌^◌, ◌<◌};
ghost use Rattle.wild_types.specs.declared.file.File.{File};
ghost use Rattle.wild_layout.specs.Numbers.{AddendFits, InputNumbers, InputsFit};

use wild_types::{File, Group, InputRelocation, InputSection, Layout};

fn addend_fits(relocation: &InputRelocation)
    ensures { AddendFits relocation.now }
{
    let _addend = relocation.addend;
}

fn relocations_fit(relocations: &[InputRelocation])
    ensures { All AddendFits relocations.now }
{
    for relocation in relocations {
        addend_fits(relocation);
    }
}

fn bytes_fit(bytes: &[u8])
    ensures { All (λ (b : ℕ). b < 2 ^ 8) bytes.now }
{}

fn section_fits(section: &InputSection)
    ensures { InputNumbers section.now }
{
    bytes_fit(section.bytes.as_slice());
    relocations_fit(section.relocations.as_slice());
}

fn sections_fit(sections: &[InputSection])
    ensures { All InputNumbers sections.now }
{
    for section in sections {
        section_fits(section);
    }
}

fn file_fits(file: &File)
    ensures { All InputNumbers file.now.sections }
{
    sections_fit(file.sections.as_slice());
}

fn files_fit(files: &[File])
    ensures { All (λ (f : File). All InputNumbers f.sections) files.now }
{
    for file in files {
        file_fits(file);
    }
}

fn group_fits(group: &Group)
    ensures { All (λ (f : File). All InputNumbers f.sections) group.now.files }
{
    files_fit(group.files.as_slice());
}

fn groups_fit(groups: &[Group])
    ensures { InputsFit groups.now }
{
    for group in groups {
        group_fits(group);
    }
}

/// The bytes of input sections are below 256, and addends are signed numbers of 64 bits.
pub(crate) fn inputs_fit(layout: &Layout)
    ensures { InputsFit layout.now.groups }
{
    groups_fit(layout.groups.as_slice());
}
