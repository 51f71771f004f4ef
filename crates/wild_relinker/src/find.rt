//! Finds the section that a change names.
ghost use Rattle.std.specs.Prelude.{◌≡◌, true, is_some, option_copied};
ghost use Rattle.wild_change.specs.Change.{is_changeable, found_section};
ghost use Rattle.wild_relinker.specs.Find.{section_at, IsNamed};

use wild_change::Change;
use wild_types::{File, Group, InputSection, Layout, Slot};

/// The section at the place that a change names, with its file and its group.
#[derive(Clone, Copy)]
pub(crate) struct NamedSection<'a> {
    pub(crate) group: &'a Group,
    pub(crate) file: &'a File,
    pub(crate) section: &'a InputSection,
}

/// Whether sections of that slot may be changed.
fn is_changeable(slot: Slot) -> bool
    ensures { result ≡ is_changeable slot }
{
    matches!(slot, Slot::Loaded | Slot::Debug)
}

/// The section that a change names, if it is there and may be changed.
pub(crate) fn found_section<'a>(layout: &'a Layout, change: &Change) -> Option<&'a InputSection>
    ensures { option_copied result ≡ found_section layout.now change.now }
{
    let group = layout.groups.as_slice().get(change.group)?;
    let file = group.files.as_slice().get(change.file)?;
    let section = file.sections.as_slice().get(change.section)?;
    if is_changeable(section.slot) {
        Some(section)
    } else {
        None
    }
}

/// The section that a change names, whatever its slot.
pub(crate) fn named_section<'a>(layout: &'a Layout, change: &Change) -> NamedSection<'a>
    requires { is_some (section_at layout.now change.now) ≡ true }
    ensures { IsNamed layout.now change.now result }
{
    let group = &layout.groups.as_slice()[change.group];
    let file = &group.files.as_slice()[change.file];
    let section = &file.sections.as_slice()[change.section];
    NamedSection {
        group,
        file,
        section,
    }
}
