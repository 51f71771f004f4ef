//! One pass over all groups that evaluates every test on a single file. If all pass, clauses 1, 7 to 10 and 19 to 21 need not
//! repeat these tests. The same pass computes what other clauses need of all files.
ghost use Rattle.std.specs.Prelude.{◌≡◌, ◌-◌, ◌^◌, true, None, min};
ghost use Rattle.wild_types.specs.Lists.{first_failing};
ghost use Rattle.wild_clauses.specs.FileTests.{relocation_passes, section_passes, groups_pass};
ghost use Rattle.wild_plan_rules.specs.Places.{relocation_count};
ghost use Rattle.wild_plan_rules.specs.MergedSections.{is_unmerged, are_unmerged};
ghost use Rattle.wild_clauses.specs.Survey.{is_unsorted, has_no_copies_or_versions, are_ordinary, section_step, file_passes_without_sections, survey_before_sections, file_step, survey_before_files, group_step, survey_of};

use crate::fields::FieldPasses;
use crate::fronts::ReversedFits;
use crate::indexes::IndexesFit;
use crate::inputs::PassesAll;
use crate::names::NamesFit;
use crate::partial::IsOfKind;
use crate::shares::HasShareForEachPart;
use crate::sizes::SizesFit;
use wild_types::{
    File, Group, InputRelocation, InputSection, Layout, Slot, Test, all_pass, first_failing,
};

/// A relocation of a section passes each test.
#[derive(Clone, Copy)]
struct RelocationPasses<'a> {
    layout: &'a Layout,
    section: &'a InputSection,
}

impl Test<InputRelocation> for RelocationPasses<'_> {
    ghost test = { λ t. relocation_passes t.layout.now t.section.now };

    #[tactic(auto, unfolding(crate::specs::FileTests::relocation_passes))]
    fn passes(&self, relocation: &InputRelocation) -> bool {
        let RelocationPasses { layout, section } = *self;
        let machine = layout.machine;
        IndexesFit { layout }.passes(relocation)
            && FieldPasses { machine, section }.passes(relocation)
    }
}

/// A section and its relocations pass each test.
#[derive(Clone, Copy)]
struct SectionPasses<'a> {
    layout: &'a Layout,
}

impl Test<InputSection> for SectionPasses<'_> {
    ghost test = { λ t. section_passes t.layout.now };

    #[tactic(auto, unfolding(crate::specs::FileTests::section_passes))]
    fn passes(&self, section: &InputSection) -> bool {
        let layout = self.layout;
        let machine = layout.machine;
        let relocations = section.relocations.as_slice();
        SizesFit.passes(section)
            && PassesAll { layout }.passes(section)
            && IndexesFit { layout }.headers_are_there(section)
            && all_pass(&RelocationPasses { layout, section }, relocations)
            && NamesFit.passes(section)
            && ReversedFits { machine }.passes(section)
            && IsOfKind { layout }.passes(section)
    }
}

/// Whether a section and its relocations pass each test on a section or a relocation.
pub fn section_passes(layout: &Layout, section: &InputSection) -> bool
    ensures { result ≡ section_passes layout.now section.now }
{
    SectionPasses { layout }.passes(section)
}

/// What one pass over groups computes: whether each group passes, whether each file is ordinary, whether no section has merged
/// strings, and the number of relocations, at most 2^64 - 1. A file is ordinary if it has no copies and no sorted section, and no
/// versions are needed from it.
#[derive(Clone, Copy)]
pub struct Survey {
    pub tests_pass: bool,
    pub has_no_copies_versions_or_sorting: bool,
    pub unmerged: bool,
    pub relocations: u64,
}

fn is_unsorted(section: &InputSection) -> bool
    ensures { result ≡ is_unsorted section.now }
{
    !matches!(section.slot, Slot::Sorted)
}

fn is_unmerged(section: &InputSection) -> bool
    ensures { result ≡ is_unmerged section.now }
{
    !matches!(section.slot, Slot::Merge)
}

/// The survey after a section.
#[tactic(auto, unfolding(crate::specs::Survey::section_step))]
fn section_step(layout: &Layout, before: Survey, section: &InputSection) -> Survey
    ensures { result ≡ section_step layout.now before section.now }
{
    Survey {
        tests_pass: before.tests_pass && SectionPasses { layout }.passes(section),
        has_no_copies_versions_or_sorting: before.has_no_copies_versions_or_sorting
            && is_unsorted(section),
        unmerged: before.unmerged && is_unmerged(section),
        relocations: before
            .relocations
            .saturating_add(section.relocations.len() as u64),
    }
}

/// Whether a file passes the tests that need none of its sections.
#[tactic(auto, unfolding(crate::specs::Survey::file_passes_without_sections))]
fn file_passes_without_sections(layout: &Layout, file: &File) -> bool
    ensures { result ≡ file_passes_without_sections layout.now file.now }
{
    IndexesFit { layout }.symbols_are_there(file) && NamesFit.library_names_fit(file)
}

/// Whether it has no copies and needs no versions: then it is ordinary if it has no sorted section.
#[tactic(auto, unfolding(crate::specs::Survey::has_no_copies_or_versions))]
fn has_no_copies_or_versions(file: &File) -> bool
    ensures { result ≡ has_no_copies_or_versions file.now }
{
    file.copies.len() == 0 && file.verneed.is_none()
}

/// The survey before a file's sections.
#[tactic(auto, unfolding(crate::specs::Survey::survey_before_sections))]
fn survey_before_sections(layout: &Layout, before: Survey, file: &File) -> Survey
    ensures { result ≡ survey_before_sections layout.now before file.now }
{
    Survey {
        tests_pass: before.tests_pass && file_passes_without_sections(layout, file),
        has_no_copies_versions_or_sorting: before.has_no_copies_versions_or_sorting
            && has_no_copies_or_versions(file),
        unmerged: before.unmerged,
        relocations: before.relocations,
    }
}

/// The survey after a file.
#[tactic(auto, unfolding(crate::specs::Survey::fold_steps, crate::specs::Survey::file_step))]
fn file_step(layout: &Layout, before: Survey, file: &File) -> Survey
    ensures { result ≡ file_step layout.now before file.now }
{
    let mut known = survey_before_sections(layout, before, file);
    for section in file.sections.as_slice() {
        known = section_step(layout, known, section);
    }
    known
}

/// The survey before a group's files.
#[tactic(auto, unfolding(crate::specs::Survey::survey_before_files))]
fn survey_before_files(layout: &Layout, before: Survey, group: &Group) -> Survey
    ensures { result ≡ survey_before_files layout.now before group.now }
{
    let count = layout.parts.len();
    Survey {
        tests_pass: before.tests_pass && HasShareForEachPart { count }.passes(group),
        has_no_copies_versions_or_sorting: before.has_no_copies_versions_or_sorting,
        unmerged: before.unmerged,
        relocations: before.relocations,
    }
}

/// The survey after a group.
#[tactic(auto, unfolding(crate::specs::Survey::fold_steps, crate::specs::Survey::group_step))]
fn group_step(layout: &Layout, before: Survey, group: &Group) -> Survey
    ensures { result ≡ group_step layout.now before group.now }
{
    let mut known = survey_before_files(layout, before, group);
    for file in group.files.as_slice() {
        known = file_step(layout, known, file);
    }
    known
}

/// The survey after all groups.
#[tactic(auto, unfolding(crate::specs::Survey::fold_steps, crate::specs::Survey::survey_of))]
fn survey_of(layout: &Layout) -> Survey
    ensures { result ≡ survey_of layout.now }
{
    let mut known = Survey {
        tests_pass: true,
        has_no_copies_versions_or_sorting: true,
        unmerged: true,
        relocations: 0,
    };
    for group in layout.groups.as_slice() {
        known = group_step(layout, known, group);
    }
    known
}

/// The survey of all groups, in one pass.
#[tactic(auto, using(crate::proofs::SurveyLemmas::passed_told, crate::proofs::SurveyLemmas::ordinary_told, crate::proofs::SurveyLemmas::unmerged_told, crate::proofs::SurveyLemmas::relocations_told))]
pub(crate) fn survey_groups(layout: &Layout) -> Survey
    ensures tests_pass { result.tests_pass ≡ groups_pass layout.now }
    ensures ordinary { result.has_no_copies_versions_or_sorting ≡ are_ordinary layout.now.groups }
    ensures unmerged { result.unmerged ≡ are_unmerged layout.now }
    ensures relocations { min (2 ^ 64 - 1) result.relocations ≡ min (2 ^ 64 - 1) (relocation_count layout.now) }
{
    survey_of(layout)
}

/// The place of the first item that fails a test; if `tests_pass` is set, all pass and none is searched.
pub(crate) fn failing<T, C: Test<T>>(tests_pass: bool, test: &C, items: &[T]) -> Option<usize>
    requires { tests_pass ≡ true → first_failing (C.test test.now) 0 items.now ≡ None }
    ensures { result ≡ first_failing (C.test test.now) 0 items.now }
{
    if tests_pass {
        None
    } else {
        first_failing(test, items)
    }
}
