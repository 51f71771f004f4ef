//! Clause 10: fields.
ghost use Rattle.std.specs.Prelude.{◌≡◌, ◌&&◌};
ghost use Rattle.wild_plan_rules.specs.Contents.{field_lies, fields_lie, is_read_well, relocations_are_read};
ghost use Rattle.wild_types.specs.Rows.{field_bytes};
ghost use Rattle.wild_clauses.specs.FileTests.{groups_pass};
ghost use Rattle.wild_plan_rules.specs.ClauseTests.{check_fields};

use crate::each_section::failing_group;
use crate::verdict::fails;
use wild_records::abi::relocation::R_X86_64_PC32;
use wild_types::{
    Clause, InputRelocation, InputSection, Layout, Machine, Test, all_pass, field_bytes, wide_sum,
};

/// The size of the widest field.
const WIDEST: u64 = 8;

/// The size of the field of a relocation of that type. The most common type of x86-64 code is tested first.
#[inline(always)]
#[tactic(auto, using(crate::proofs::FieldLemmas::common_field))]
fn field_size(machine: Machine, number: u32) -> u64
    ensures { result ≡ field_bytes machine number }
{
    match machine {
        Machine::X86_64 if number == R_X86_64_PC32 => 4,
        _ => field_bytes(machine, number) as u64,
    }
}

/// The field of a relocation lies in its section.
#[derive(Clone, Copy)]
struct FieldLies<'a> {
    machine: Machine,
    section: &'a InputSection,
}

impl Test<InputRelocation> for FieldLies<'_> {
    ghost test = { λ t. field_lies t.machine t.section.now };

    #[tactic(auto, using(crate::proofs::FieldLemmas::field_lies_early))]
    fn passes(&self, relocation: &InputRelocation) -> bool {
        let size = self.section.size;
        if relocation.offset < size.saturating_sub(WIDEST - 1) {
            return true;
        }
        let bytes = field_size(self.machine, relocation.number);
        bytes == 0 || wide_sum(relocation.offset, bytes) <= u128::from(size)
    }
}

/// The fields of a section's relocations lie in it.
#[derive(Clone, Copy)]
struct FieldsLie {
    machine: Machine,
}

impl Test<InputSection> for FieldsLie {
    ghost test = { λ t. fields_lie t.machine };

    fn passes(&self, section: &InputSection) -> bool {
        let machine = self.machine;
        all_pass(
            &FieldLies { machine, section },
            section.relocations.as_slice(),
        )
    }
}

/// Whether the fields of a section's relocations lie in it.
pub fn fields_lie(machine: Machine, section: &InputSection) -> bool
    ensures { result ≡ fields_lie machine section.now }
{
    FieldsLie { machine }.passes(section)
}

/// The reader of the input failed at no relocation; in frames the frames' own check reports that.
struct IsRead;

impl Test<InputRelocation> for IsRead {
    ghost test = { λ t. is_read_well };

    fn passes(&self, relocation: &InputRelocation) -> bool {
        !relocation.malformed
    }
}

impl Test<InputSection> for IsRead {
    ghost test = { λ t. relocations_are_read };

    fn passes(&self, section: &InputSection) -> bool {
        section.slot.is_frame() || all_pass(self, section.relocations.as_slice())
    }
}

/// Whether the reader of the input failed at no relocation of a section, or the section has frames.
pub fn relocations_are_read(section: &InputSection) -> bool
    ensures { result ≡ relocations_are_read section.now }
{
    IsRead.passes(section)
}

/// A relocation passes both tests.
#[derive(Clone, Copy)]
pub(crate) struct FieldPasses<'a> {
    pub(crate) machine: Machine,
    pub(crate) section: &'a InputSection,
}

impl Test<InputRelocation> for FieldPasses<'_> {
    ghost test = { λ t r. field_lies t.machine t.section.now r && is_read_well r };

    fn passes(&self, relocation: &InputRelocation) -> bool {
        let FieldPasses { machine, section } = *self;
        FieldLies { machine, section }.passes(relocation) && IsRead.passes(relocation)
    }
}

/// The tests run one by one only if a group fails one of them.
#[tactic(auto, using(crate::proofs::PassedLemmas::fields_pass), unfolding(wild_plan_rules::specs::ClauseTests::check_fields))]
pub(crate) fn check_fields(layout: &Layout, tests_pass: bool) -> Result<(), Clause>
    requires tests_pass { tests_pass ≡ groups_pass layout.now }
    ensures { result ≡ check_fields layout.now }
{
    let machine = layout.machine;
    let groups = layout.groups.as_slice();
    if tests_pass {
        return Ok(());
    }
    fails(10, failing_group(&FieldsLie { machine }, groups))?;
    fails(10, failing_group(&IsRead, groups))
}
