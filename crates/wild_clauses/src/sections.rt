//! Clause 5: parts in sections.
ghost use Rattle.std.specs.Prelude.{◌≡◌};
ghost use Rattle.wild_plan_rules.specs.Places.{first_section_is_null, within, lies_in, part_lies, is_in_loaded_section, takes_room};
ghost use Rattle.wild_plan_rules.specs.ClauseTests.{check_sections};

use crate::verdict::{fails, unless};
use wild_records::abi::section::SHT_NULL;
use wild_types::{
    Clause, Layout, Part, Role, Section, Test, first_failing, has_role, is_allocated, place_of,
    wide_sum,
};

fn first_section_is_null(sections: &[Section]) -> bool
    ensures { result ≡ first_section_is_null sections.now }
{
    match sections {
        [first, ..] => first.kind == SHT_NULL && first.name.len() == 0,
        [] => true,
    }
}

/// Whether `inner_size` bytes from `inner` on lie in `size` bytes from `start` on.
pub(crate) fn within(start: u64, size: u64, inner: u64, inner_size: u64) -> bool
    ensures { result ≡ within start size inner inner_size }
{
    start <= inner && wide_sum(inner, inner_size) <= wide_sum(start, size)
}

/// Whether the part lies in the section: in an allocated one with the same address minus offset, in one without file bytes by its
/// addresses.
fn lies_in(layout: &Layout, section: &Section, part: &Part) -> bool
    ensures { result ≡ lies_in layout.now section.now part.now }
{
    if !layout.fills_file(section) {
        return within(section.address, section.size, part.address, part.size);
    }
    within(section.offset, section.size, part.offset, part.size)
        && (!is_allocated(section.flags)
            || section.address <= part.address
                && wide_sum(part.address, section.offset) == wide_sum(part.offset, section.address))
}

/// A part lies in its section.
#[derive(Clone, Copy)]
struct PartLies<'a> {
    layout: &'a Layout,
}

impl Test<Part> for PartLies<'_> {
    ghost test = { λ t. part_lies t.layout.now };

    fn passes(&self, part: &Part) -> bool {
        match self.layout.sections.as_slice().get(part.section.0) {
            Some(section) if part.section.0 != 0 => lies_in(self.layout, section, part),
            _ => true,
        }
    }
}

/// A part that a loader or the program reads is in an allocated section with data.
#[derive(Clone, Copy)]
struct IsInLoadedSection<'a> {
    layout: &'a Layout,
}

impl Test<Part> for IsInLoadedSection<'_> {
    ghost test = { λ t. is_in_loaded_section t.layout.now };

    fn passes(&self, part: &Part) -> bool {
        let layout = self.layout;
        let place = place_of(part.role);
        let is_read = place_of(Role::Got) <= place && place <= place_of(Role::Dynamic);
        layout.kind.is_partial_link()
            || !is_read
            || layout.is_allocated_section(part.section) && layout.has_data(part.section)
    }
}

/// A part is raw, or in no section without data.
#[derive(Clone, Copy)]
struct TakesRoom<'a> {
    layout: &'a Layout,
}

impl Test<Part> for TakesRoom<'_> {
    ghost test = { λ t. takes_room t.layout.now };

    fn passes(&self, part: &Part) -> bool {
        has_role(Role::Raw, part) || self.layout.has_data(part.section)
    }
}

#[tactic(auto, unfolding(wild_plan_rules::specs::ClauseTests::check_sections))]
pub(crate) fn check_sections(layout: &Layout) -> Result<(), Clause>
    ensures { result ≡ check_sections layout.now }
{
    let parts = layout.parts.as_slice();
    fails(5, unless(first_section_is_null(layout.sections.as_slice())))?;
    fails(5, first_failing(&PartLies { layout }, parts))?;
    fails(5, first_failing(&IsInLoadedSection { layout }, parts))?;
    fails(5, first_failing(&TakesRoom { layout }, parts))
}
