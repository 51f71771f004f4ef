//! Clause 1: sizes and alignments.
ghost use Rattle.std.specs.Prelude.{◌≡◌};
ghost use Rattle.std.specs.List.{list_all};
ghost use Rattle.wild_types.specs.Lists.{first_failing};
ghost use Rattle.wild_plan_rules.specs.Places.{ends_low, zero_or_power, part_fits, section_fits, first_section_fits, section_misfit, segment_fits, group_fits};
ghost use Rattle.wild_types.specs.declared.file.File.{File};
ghost use Rattle.wild_types.specs.declared.input.InputSection.{InputSection};
ghost use Rattle.wild_plan_rules.specs.ClauseTests.{check_sizes};
ghost use Rattle.wild_clauses.specs.FileTests.{groups_pass};

use crate::survey::failing;
use crate::verdict::{fails, unless};
use wild_types::{
    Clause, File, Group, InputSection, Layout, Part, Section, Segment, Test, all_but_first,
    all_pass, first_failing, wide_sum,
};

fn ends_low(start: u64, size: u64) -> bool
    ensures { result ≡ ends_low start size }
{
    wide_sum(start, size) <= 1 << 62
}

fn zero_or_power(align: u64) -> bool
    ensures { result ≡ zero_or_power align }
{
    align == 0 || align.is_power_of_two()
}

/// An item ends below 2^62 in memory and in the file, and its alignment is a power of two.
pub(crate) struct SizesFit;

impl Test<Part> for SizesFit {
    ghost test = { λ t. part_fits };

    fn passes(&self, part: &Part) -> bool {
        part.align.is_power_of_two()
            && ends_low(part.address, part.size)
            && ends_low(part.offset, part.size)
    }
}

fn section_fits(section: &Section) -> bool
    ensures { result ≡ section_fits section.now }
{
    section.align.is_power_of_two()
        && ends_low(section.address, section.size)
        && ends_low(section.offset, section.size)
}

fn first_section_fits(section: &Section) -> bool
    ensures { result ≡ first_section_fits section.now }
{
    zero_or_power(section.align)
        && ends_low(section.address, section.size)
        && ends_low(section.offset, section.size)
}

impl Test<Segment> for SizesFit {
    ghost test = { λ t. segment_fits };

    fn passes(&self, segment: &Segment) -> bool {
        zero_or_power(segment.align)
            && ends_low(segment.address, segment.mem_size)
            && ends_low(segment.offset, segment.file_size)
    }
}

impl Test<InputSection> for SizesFit {
    ghost test = { λ t. λ (s : InputSection). ends_low s.address s.size };

    fn passes(&self, section: &InputSection) -> bool {
        ends_low(section.address, section.size)
    }
}

impl Test<File> for SizesFit {
    ghost test = { λ t. λ (f : File). list_all (λ (s : InputSection). ends_low s.address s.size) f.sections };

    fn passes(&self, file: &File) -> bool {
        all_pass(self, file.sections.as_slice())
    }
}

impl Test<Group> for SizesFit {
    ghost test = { λ t. group_fits };

    fn passes(&self, group: &Group) -> bool {
        all_pass(self, group.files.as_slice())
    }
}

fn later_section_misfit(later: &[Section]) -> Option<usize>
    ensures { result ≡ first_failing section_fits 1 later.now }
{
    for (i, section) in later.iter().enumerate() {
        if !section_fits(section) {
            return Some(i + 1);
        }
    }
    None
}

fn section_misfit(sections: &[Section]) -> Option<usize>
    ensures { result ≡ section_misfit sections.now }
{
    match sections {
        [first, ..] if !first_section_fits(first) => Some(0),
        _ => later_section_misfit(all_but_first(sections)),
    }
}

#[tactic(auto, using(crate::proofs::PassedLemmas::sizes_pass), unfolding(wild_plan_rules::specs::ClauseTests::check_sizes))]
pub(crate) fn check_sizes(layout: &Layout, tests_pass: bool) -> Result<(), Clause>
    requires tests_pass { tests_pass ≡ groups_pass layout.now }
    ensures { result ≡ check_sizes layout.now }
{
    let page = layout.page_size;
    fails(
        1,
        unless(page.is_power_of_two() && 4096 <= page && page <= 65536),
    )?;
    fails(1, first_failing(&SizesFit, layout.parts.as_slice()))?;
    fails(1, section_misfit(layout.sections.as_slice()))?;
    fails(1, first_failing(&SizesFit, layout.segments.as_slice()))?;
    fails(1, unless(layout.tls.align.is_power_of_two()))?;
    fails(1, failing(tests_pass, &SizesFit, layout.groups.as_slice()))
}
