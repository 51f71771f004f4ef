//! The first group with an input section that fails a test.
ghost use Rattle.std.specs.Prelude.{◌≡◌};
ghost use Rattle.wild_plan_rules.specs.Contents.{each_in, each_section};
ghost use Rattle.wild_types.specs.Lists.{first_failing};

use wild_types::{File, Group, InputSection, Test, all_pass, first_failing};

/// Each input section passes the test.
#[derive(Clone, Copy)]
struct EachSection<'a, C> {
    test: &'a C,
}

impl<C: Test<InputSection>> Test<File> for EachSection<'_, C> {
    ghost test = { λ t. each_in (C.test t.test.now) };

    fn passes(&self, file: &File) -> bool {
        all_pass(self.test, file.sections.as_slice())
    }
}

impl<C: Test<InputSection>> Test<Group> for EachSection<'_, C> {
    ghost test = { λ t. each_section (C.test t.test.now) };

    fn passes(&self, group: &Group) -> bool {
        all_pass(self, group.files.as_slice())
    }
}

/// The place of the first group with an input section that fails the test.
pub(crate) fn failing_group<C: Test<InputSection>>(test: &C, groups: &[Group]) -> Option<usize>
    ensures { result ≡ first_failing (each_section (C.test test.now)) 0 groups.now }
{
    first_failing(&EachSection { test }, groups)
}
