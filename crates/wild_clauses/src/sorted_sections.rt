//! Clause 8: each sorted section is named exactly once in the order, and the order names no others.
ghost use Rattle.std.specs.Prelude.{◌≡◌};
ghost use Rattle.wild_types.specs.Lookups.{has_bytes};
ghost use Rattle.wild_clauses.specs.SortedOrder.{sorted_as_loaded};
ghost use Rattle.wild_clauses.specs.Survey.{are_ordinary};
ghost use Rattle.wild_plan_rules.specs.Contents.{times_named, is_named_once, sections_named_once, files_named_once, sorted_named_once, names_sorted};

use wild_placement::sorted_input;
use wild_types::{File, InputSection, Layout, Slot, SortedSection, Test};

/// How many entries name that section.
fn times_named(order: &[SortedSection], named: SortedSection) -> usize
    ensures { result ≡ times_named order.now named.group named.file named.section }
{
    let mut times = 0;
    for entry in order {
        if entry.group == named.group
            && entry.file == named.file
            && entry.section == named.section
        {
            times += 1;
        }
    }
    times
}

/// Whether a section, if it is a sorted one, is named exactly once.
fn is_named_once(layout: &Layout, named: SortedSection, section: &InputSection) -> bool
    ensures { result ≡ is_named_once layout.now named.group named.file named.section section.now }
{
    match section.slot {
        Slot::Sorted => times_named(layout.sorted.as_slice(), named) == 1,
        _ => true,
    }
}

/// The same for the sections of the file with those numbers.
fn sections_named_once(
    layout: &Layout,
    group: usize,
    file: usize,
    sections: &[InputSection],
) -> bool
    ensures { result ≡ sections_named_once layout.now group file 0 sections.now }
{
    for (k, found) in sections.iter().enumerate() {
        let named = SortedSection {
            group,
            file,
            section: k,
        };
        if !is_named_once(layout, named, found) {
            return false;
        }
    }
    true
}

fn files_named_once(layout: &Layout, group: usize, files: &[File]) -> bool
    ensures { result ≡ files_named_once layout.now group 0 files.now }
{
    for (k, file) in files.iter().enumerate() {
        if !sections_named_once(layout, group, k, file.sections.as_slice()) {
            return false;
        }
    }
    true
}

/// The first group with a sorted section that is not named exactly once. If all files are ordinary, there are none to search.
#[tactic(auto, using(crate::proofs::SurveyLemmas::none_sorted))]
pub(crate) fn sorted_named_once(
    layout: &Layout,
    has_no_copies_versions_or_sorting: bool,
) -> Option<usize>
    requires { has_no_copies_versions_or_sorting ≡ are_ordinary layout.now.groups }
    ensures { result ≡ sorted_named_once layout.now 0 layout.now.groups }
{
    if has_no_copies_versions_or_sorting {
        return None;
    }
    for (i, group) in layout.groups.as_slice().iter().enumerate() {
        if !files_named_once(layout, i, group.files.as_slice()) {
            return Some(i);
        }
    }
    None
}

/// An entry of the order names a sorted section.
#[derive(Clone, Copy)]
pub(crate) struct NamesSorted<'a> {
    pub layout: &'a Layout,
}

impl Test<SortedSection> for NamesSorted<'_> {
    ghost test = { λ t. names_sorted t.layout.now };

    fn passes(&self, entry: &SortedSection) -> bool {
        sorted_input(self.layout, *entry).is_some()
    }
}

/// Whether there are bytes of a sorted section, which is written like a loaded one.
pub(crate) fn has_ordered_bytes(layout: &Layout, section: &InputSection) -> bool
    ensures { result ≡ has_bytes layout.now (sorted_as_loaded layout.now section.now) }
{
    if section.nobits {
        section.size != 0 && layout.has_data(layout.section_of(section.part))
    } else {
        section.bytes.len() != 0
    }
}
