//! Clause 8: the parts of merged strings and of the linker's identity string contain no other bytes of the first group.
ghost use Rattle.std.specs.Prelude.{◌≡◌, ◌==◌, slice_get};
ghost use Rattle.std.specs.List.{list_any, list_all};
ghost use Rattle.wild_types.specs.declared.layout.Merged.{Merged};
ghost use Rattle.wild_placement.specs.PlacedSections.{sorted_input};
ghost use Rattle.wild_plan_rules.specs.Contents.{has_front, takes_bytes, leaves_front, file_leaves_front, group_leaves_front, front_is_free};
ghost use Rattle.wild_clauses.specs.SortedOrder.{sorted_as_loaded, sections_of, sections_by_order};

use crate::sorted_sections::has_ordered_bytes;
use wild_placement::sorted_input;
use wild_types::{File, InputSection, Layout, Merged, SortedSection, Test, all_pass};

/// Whether the part begins with some of the merged strings.
fn any_is_in_part(part: usize, merged: &[Merged]) -> bool
    ensures { result ≡ list_any (λ (m : Merged). m.part == part) merged.now }
{
    for strings in merged {
        if strings.part == part {
            return true;
        }
    }
    false
}

/// Whether the part begins with merged strings or with the linker's identity string.
fn has_front(layout: &Layout, part: usize) -> bool
    ensures { result ≡ has_front layout.now part }
{
    let identity = &layout.identity;
    any_is_in_part(part, layout.merged.as_slice())
        || identity.bytes.len() != 0 && identity.part == part
}

/// The part of a section with bytes does not begin with those strings.
#[derive(Clone, Copy)]
struct LeavesFront<'a> {
    layout: &'a Layout,
}

impl Test<InputSection> for LeavesFront<'_> {
    ghost test = { λ t. leaves_front t.layout.now };

    fn passes(&self, section: &InputSection) -> bool {
        let takes_bytes = section.bytes.len() != 0 || section.brings_bytes(self.layout);
        !takes_bytes || !has_front(self.layout, section.part)
    }
}

/// The same for a sorted section.
fn ordered_leaves_front(layout: &Layout, section: &InputSection) -> bool
    ensures { result ≡ leaves_front layout.now (sorted_as_loaded layout.now section.now) }
{
    let takes_bytes = section.bytes.len() != 0 || has_ordered_bytes(layout, section);
    !takes_bytes || !has_front(layout, section.part)
}

impl Test<SortedSection> for LeavesFront<'_> {
    ghost test = { λ t x. list_all (leaves_front t.layout.now) (sections_of (sorted_input t.layout.now x)) };

    fn passes(&self, entry: &SortedSection) -> bool {
        match sorted_input(self.layout, *entry) {
            Some(found) => ordered_leaves_front(self.layout, found.section),
            None => true,
        }
    }
}

impl Test<File> for LeavesFront<'_> {
    ghost test = { λ t. file_leaves_front t.layout.now };

    #[tactic(auto, using(crate::proofs::OrderedLemmas::standing_all, crate::proofs::OrderedLemmas::standing_rest))]
    fn passes(&self, file: &File) -> bool {
        let layout = self.layout;
        all_pass(self, file.sections.as_slice())
            && (!file.role.is_epilogue() || all_pass(self, layout.sorted.as_slice()))
            && (layout.thunks_of(file).is_empty() || !has_front(layout, layout.primary_part))
    }
}

/// Whether no other bytes of the first group are in the parts of merged strings and the linker's identity string.
pub(crate) fn front_is_free(layout: &Layout) -> bool
    ensures { result ≡ front_is_free layout.now }
{
    match layout.groups.as_slice().get(0) {
        Some(group) => all_pass(&LeavesFront { layout }, group.files.as_slice()),
        None => true,
    }
}
