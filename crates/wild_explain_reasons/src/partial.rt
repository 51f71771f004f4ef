//! Tests of what only relocatable objects have.

use crate::tests::InputTest;
use crate::verdict::{Verdict, due, plain};
use wild_records::Rela;
use wild_types::{File, InputSection, Layout, Slot};

/// Whether the `singleton` or one of the `members` of an input section is no output section.
pub(crate) fn names_no_section(layout: &Layout, section: &InputSection, test: &InputTest) -> bool {
    if let (InputTest::Singleton, Some(index)) = (test, section.singleton) {
        return index.0 >= layout.sections.len();
    }
    if let InputTest::Members = test {
        for member in section.members.as_slice() {
            if member.0 >= layout.sections.len() {
                return true;
            }
        }
    }
    false
}

/// Whether an input section has a member that this kind of output does not take, or lacks its data.
pub(crate) fn is_of_other(layout: &Layout, section: &InputSection, test: &InputTest) -> bool {
    let is_partial = layout.kind.is_partial_link();
    let is_made = matches!(section.slot, Slot::Rela | Slot::Group);
    match test {
        InputTest::Debug => is_partial && section.slot.is_debug(),
        InputTest::Partial => !is_partial && (is_made || section.singleton.is_some()),
        _ => is_made && section.nobits,
    }
}

/// Whether the size of a relocation table or a group differs from the size of its content.
pub(crate) fn test_made(file: &File, section: &InputSection, test: &InputTest) -> Verdict {
    match (section.slot, test) {
        (Slot::Rela, InputTest::Target) => {
            let Some(target) = file.sections.as_slice().get(section.target) else {
                return plain(true);
            };
            let count = target.relocations.len() as u64;
            let size = count.saturating_mul(Rela::SIZE as u64);
            due(section.size != size, size)
        }
        (Slot::Group, InputTest::Group) => {
            let count = section.members.len() as u64;
            let size = count.saturating_mul(4).saturating_add(4);
            due(section.size != size, size)
        }
        _ => plain(false),
    }
}
