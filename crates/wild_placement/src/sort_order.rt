//! Sections that are placed in sort order.
ghost use Rattle.std.specs.Prelude.{◌≡◌, Some};
ghost use Rattle.wild_types.specs.declared.input.Slot.TheVariants as slot;
ghost use Rattle.wild_placement.specs.PlacedSections.{sorted_in_group, sorted_in_file, sorted_input};
ghost use Rattle.wild_placement.specs.PlacedInputs.{inputs};

use wild_types::{File, InputSection, Layout, Slot, SortedSection};

/// A sorted section with its file.
#[derive(Clone, Copy)]
pub struct SortedInput<'a> {
    pub file: &'a File,
    pub section: &'a InputSection,
}

/// The file's section number `section`, if it is a sorted one.
fn sorted_in_file<'a>(layout: &Layout, file: &'a File, section: usize) -> Option<SortedInput<'a>>
    ensures { inputs layout.now result ≡ sorted_in_group layout.now (Some file.now) section }
{
    let found = file.sections.as_slice().get(section)?;
    match found.slot {
        Slot::Sorted => Some(SortedInput {
            file,
            section: found,
        }),
        _ => None,
    }
}

/// The section to which an entry of the sort order refers, if it is a sorted one.
#[tactic(auto, unfolding(crate::specs::PlacedSections::sorted_input))]
pub fn sorted_input(layout: &Layout, entry: SortedSection) -> Option<SortedInput<'_>>
    ensures { inputs layout.now result ≡ sorted_input layout.now entry }
{
    let group = layout.groups.as_slice().get(entry.group)?;
    let file = group.files.as_slice().get(entry.file)?;
    sorted_in_file(layout, file, entry.section)
}
