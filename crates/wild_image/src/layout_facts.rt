//! Properties of a layout that are computed once and used for each group.
ghost use Rattle.std.specs.Prelude.{◌≡◌, true};
ghost use Rattle.wild_types.specs.declared.layout.Layout.{Layout};
ghost use Rattle.wild_placement.specs.PlacedSections.{frames_at};
ghost use Rattle.wild_needs.specs.Needs.{inner_groups_need_no_tables};
ghost use Rattle.wild_image.specs.LayoutFacts.{AreFactsOf};
ghost use Rattle.wild_image.specs.Steps.{OthersHaveNone};

use wild_needs::has_no_dynamic_tables;
use wild_types::{Group, Layout, Role, part_with};

/// Properties of a layout, by field:
/// - `needs_no_dynamic_tables`: no .dynamic, no .symtab, and no symbol has a GOT or PLT entry or is imported.
/// - `inner_groups_have_no_tables`: `needs_no_dynamic_tables`, and only the first and the last group need tables.
/// - `only_first_group_has_tables`: only the first group has shares of parts that are not raw.
/// - `frames`: the address of .eh_frame, 0 without one.
#[derive(Clone, Copy)]
pub(crate) struct LayoutFacts {
    pub(crate) needs_no_dynamic_tables: bool,
    pub(crate) inner_groups_have_no_tables: bool,
    pub(crate) only_first_group_has_tables: bool,
    frames: u64,
}

impl LayoutFacts {
    /// Computes these properties. The caller passes `inner_groups_have_no_tables` and `only_first_group_has_tables`.
    /// Each may be false although the property holds.
    #[tactic(auto, using(wild_needs::proofs::NoTableLemmas::bare_by_inside))]
    pub(crate) fn of(
        layout: &Layout,
        inner_groups_have_no_tables: bool,
        only_first_group_has_tables: bool,
    ) -> Self
        requires inner_groups_have_no_tables { inner_groups_have_no_tables ≡ true → inner_groups_need_no_tables layout.now ≡ true }
        requires only_first_group_has_tables { only_first_group_has_tables ≡ true → OthersHaveNone layout.now }
        ensures { AreFactsOf layout.now result }
    {
        let frames = match part_with(Role::EhFrame, layout.parts.as_slice()) {
            Some(part) => part.address,
            None => 0,
        };
        let needs_no_dynamic_tables = inner_groups_have_no_tables || has_no_dynamic_tables(layout);
        LayoutFacts {
            needs_no_dynamic_tables,
            inner_groups_have_no_tables,
            only_first_group_has_tables,
            frames,
        }
    }

    /// The address at which the frames of a group begin, modulo 2^64.
    pub(crate) fn frames_at(self, group: &Group) -> u64
        ensures { (l : Layout) → AreFactsOf l self → result ≡ frames_at l group.now }
    {
        self.frames.wrapping_add(group.eh_frame_start)
    }
}
