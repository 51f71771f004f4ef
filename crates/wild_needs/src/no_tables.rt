//! A fast test for a common case. If no symbol has a slot and none is another module's, a file's role and section flags show that it
//! needs nothing.
ghost use Rattle.std.specs.Prelude.{◌≡◌, true};
ghost use Rattle.wild_types.specs.declared.part.Role.{Role};
ghost use Rattle.wild_needs.specs.Needs.{lacks_slots_and_import, has_no_dynamic_tables, is_read_only_input, file_needs_no_tables, group_needs_no_tables, inner_groups, inner_groups_need_no_tables, group_share};

use wild_types::{
    File, Group, InputSection, Layout, Symbol, Test, all_pass, is_writable, lacks_slots,
};

/// The test that a symbol has no slot and no other module defines it.
struct LacksSlotsAndImport;

impl Test<Symbol> for LacksSlotsAndImport {
    ghost test = { λ t. lacks_slots_and_import };

    fn passes(&self, symbol: &Symbol) -> bool {
        lacks_slots(symbol) && !symbol.flags.is_dynamic()
    }
}

/// Whether an output has no dynamic section, no `.symtab`, and no symbol that has a slot or that another module defines.
pub fn has_no_dynamic_tables(layout: &Layout) -> bool
    ensures { result ≡ has_no_dynamic_tables layout.now }
{
    !layout.kind.needs_dynamic()
        && !layout.has_symtab()
        && all_pass(&LacksSlotsAndImport, layout.symbols.as_slice())
}

/// The test that a section is read-only and holds no frames. A file passes if all its sections do, it has no copy relocations, and it is
/// neither the first nor the last file.
struct ReadOnlyInput;

impl Test<InputSection> for ReadOnlyInput {
    ghost test = { λ t. is_read_only_input };

    fn passes(&self, section: &InputSection) -> bool {
        !section.slot.is_frame() && !is_writable(section.flags)
    }
}

impl Test<File> for ReadOnlyInput {
    ghost test = { λ t. file_needs_no_tables };

    fn passes(&self, file: &File) -> bool {
        !file.role.is_prelude()
            && !file.role.is_epilogue()
            && file.copied().len() == 0
            && all_pass(self, file.sections.as_slice())
    }
}

impl Test<Group> for ReadOnlyInput {
    ghost test = { λ t. group_needs_no_tables };

    fn passes(&self, group: &Group) -> bool {
        all_pass(self, group.files.as_slice())
    }
}

/// The groups between the first and the last.
fn inner_groups(groups: &[Group]) -> &[Group]
    ensures { result.now ≡ inner_groups groups.now }
{
    match groups {
        [_, inner_groups @ .., _] => inner_groups,
        _ => &[],
    }
}

/// Whether `has_no_dynamic_tables` holds for an output, and all files between the first and the last group pass that test. Then these groups need
/// nothing.
pub fn inner_groups_need_no_tables(layout: &Layout) -> bool
    ensures { result ≡ inner_groups_need_no_tables layout.now }
{
    has_no_dynamic_tables(layout)
        && all_pass(&ReadOnlyInput, inner_groups(layout.groups.as_slice()))
}

/// Whether all files of a group pass that test. If `has_no_dynamic_tables` holds for the output, the group then needs nothing.
#[tactic(auto, using(crate::proofs::NoTableLemmas::bare_needs))]
pub(crate) fn group_needs_no_tables(group: &Group) -> bool
    ensures { (l : Layout) → has_no_dynamic_tables l ≡ true → result ≡ true → (r : Role) → group_share l r group.now ≡ 0 }
{
    all_pass(&ReadOnlyInput, group.files.as_slice())
}
