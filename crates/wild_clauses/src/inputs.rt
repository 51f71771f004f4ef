//! Clause 8: input sections in their parts.
ghost use Rattle.std.specs.Prelude.{◌≡◌, Ok, slice_get};
ghost use Rattle.wild_plan_rules.specs.Contents.{length_fits, may_lack_bytes, is_frames_part, frames_part_fits, discarded_is_empty, is_raw, part_is_raw, holds_bytes, merged_is_raw, identity_is_raw, holds_thunks, primary_fits, has_room, allocation_agrees, has_or_gets_bytes, bytes_take_room};
ghost use Rattle.wild_clauses.specs.FileTests.{passes_all, parts_fit, groups_pass};
ghost use Rattle.wild_types.specs.Lookups.{section_of};
ghost use Rattle.wild_clauses.specs.Survey.{are_ordinary};
ghost use Rattle.wild_plan_rules.specs.ClauseTests.{merged_and_identity_fit, check_sizes, check_shares, check_inputs};

use crate::each_section::failing_group;
use crate::front::front_is_free;
use crate::fronts::has_size;
use crate::places::misplaced_place;
use crate::sorted_sections::{NamesSorted, sorted_named_once};
use crate::thunks::has_thunks;
use crate::verdict::{fails, unless};
use wild_types::{
    Clause, InputSection, Layout, Merged, Role, SectionIndex, Slot, Test, all_pass, first_failing,
    has_role, is_allocated,
};

/// Whether a section of that slot may have no bytes: merged strings are written elsewhere, and a relocation table is generated.
fn may_lack_bytes(slot: Slot) -> bool
    ensures { result ≡ may_lack_bytes slot }
{
    matches!(slot, Slot::Merge | Slot::Rela)
}

/// The number of bytes is the section's size; a section without data has none.
struct LengthFits;

impl Test<InputSection> for LengthFits {
    ghost test = { λ t. length_fits };

    fn passes(&self, section: &InputSection) -> bool {
        let length = section.bytes.len() as u64;
        section.slot.is_discarded()
            || if section.nobits {
                length == 0
            } else {
                length == section.size || may_lack_bytes(section.slot) && length == 0
            }
    }
}

/// A section that is discarded has no address and no bytes.
struct DiscardedIsEmpty;

impl Test<InputSection> for DiscardedIsEmpty {
    ghost test = { λ t. discarded_is_empty };

    fn passes(&self, section: &InputSection) -> bool {
        !section.slot.is_discarded() || section.address == 0 && section.bytes.len() == 0
    }
}

/// Whether the part of that number is a raw one.
fn is_raw(layout: &Layout, part: usize) -> bool
    ensures { result ≡ is_raw (slice_get layout.now.parts part) }
{
    match layout.parts.as_slice().get(part) {
        Some(part) => matches!(part.role, Role::Raw),
        None => false,
    }
}

/// Whether the part of that number is the part of frames.
fn is_frames_part(layout: &Layout, part: usize) -> bool
    ensures { result ≡ is_frames_part (slice_get layout.now.parts part) }
{
    match layout.parts.as_slice().get(part) {
        Some(part) => has_role(Role::EhFrame, part),
        None => false,
    }
}

/// Frames lie in the part of frames.
#[derive(Clone, Copy)]
struct FramesPartFits<'a> {
    layout: &'a Layout,
}

impl Test<InputSection> for FramesPartFits<'_> {
    ghost test = { λ t. frames_part_fits t.layout.now };

    fn passes(&self, section: &InputSection) -> bool {
        !section.slot.is_frame() || is_frames_part(self.layout, section.part)
    }
}

/// Whether the part of that number can contain bytes: it is raw, and in a section with data unless `none` says that there are no
/// bytes.
fn holds_bytes(layout: &Layout, none: bool, part: usize) -> bool
    ensures { result ≡ holds_bytes layout.now none (slice_get layout.now.parts part) }
{
    match layout.parts.as_slice().get(part) {
        Some(part) => { matches!(part.role, Role::Raw) && (none || layout.has_data(part.section)) }
        None => false,
    }
}

/// Every section that is neither discarded nor of frames is in a raw part. So are merged strings, in a section with data if they
/// have bytes.
#[derive(Clone, Copy)]
struct PartIsRaw<'a> {
    layout: &'a Layout,
}

impl Test<InputSection> for PartIsRaw<'_> {
    ghost test = { λ t. part_is_raw t.layout.now };

    fn passes(&self, section: &InputSection) -> bool {
        section.slot.is_discarded() || section.slot.is_frame() || is_raw(self.layout, section.part)
    }
}

impl Test<Merged> for PartIsRaw<'_> {
    ghost test = { λ t. merged_is_raw t.layout.now };

    fn passes(&self, merged: &Merged) -> bool {
        holds_bytes(self.layout, has_size(merged, 0), merged.part)
    }
}

/// Whether the linker's identity string, if it has bytes, is in a raw part of a section with data.
fn identity_is_raw(layout: &Layout) -> bool
    ensures { result ≡ identity_is_raw layout.now }
{
    layout.identity.bytes.len() == 0 || holds_bytes(layout, false, layout.identity.part)
}

fn merged_and_identity_fit(layout: &Layout) -> Result<(), Clause>
    ensures { result ≡ merged_and_identity_fit layout.now }
{
    let merged = layout.merged.as_slice();
    fails(8, first_failing(&PartIsRaw { layout }, merged))?;
    fails(8, unless(identity_is_raw(layout)))
}

/// Whether the part of that number can contain code that the linker generates: it is raw and in an allocated section with data.
fn holds_thunks(layout: &Layout, part: usize) -> bool
    ensures { result ≡ holds_thunks layout.now (slice_get layout.now.parts part) }
{
    match layout.parts.as_slice().get(part) {
        Some(part) => {
            matches!(part.role, Role::Raw)
                && layout.has_data(part.section)
                && layout.is_allocated_section(part.section)
        }
        None => false,
    }
}

/// Whether thunks, if there are any, are in such a part.
fn primary_fits(layout: &Layout) -> bool
    ensures { result ≡ primary_fits layout.now }
{
    !has_thunks(layout) || holds_thunks(layout, layout.primary_part)
}

/// Whether a section of that slot is written.
fn has_room(slot: Slot) -> bool
    ensures { result ≡ has_room slot }
{
    matches!(slot, Slot::Loaded | Slot::Sorted | Slot::Frame)
}

/// Whether a section that is written is allocated exactly if its part's section, of index `output_section`, is.
/// Relocatable objects pass: they have no addresses.
fn allocation_agrees(layout: &Layout, output_section: SectionIndex, section: &InputSection) -> bool
    requires { output_section ≡ section_of layout.now section.now.part }
    ensures { result ≡ allocation_agrees layout.now section.now }
{
    layout.kind.is_partial_link()
        || !has_room(section.slot)
        || is_allocated(section.flags) == layout.is_allocated_section(output_section)
}

/// An input section is allocated exactly if it has to be.
#[derive(Clone, Copy)]
struct AllocationAgrees<'a> {
    layout: &'a Layout,
}

impl Test<InputSection> for AllocationAgrees<'_> {
    ghost test = { λ t. allocation_agrees t.layout.now };

    fn passes(&self, section: &InputSection) -> bool {
        let layout = self.layout;
        allocation_agrees(layout, layout.section_of(section.part), section)
    }
}

/// Whether the section has bytes, or bytes are generated for it.
fn has_or_gets_bytes(section: &InputSection) -> bool
    ensures { result ≡ has_or_gets_bytes section.now }
{
    section.bytes.len() != 0 || matches!(section.slot, Slot::Rela) && section.size != 0
}

/// Whether the section has no bytes, or its part's section, of index `output_section`, has data.
fn bytes_take_room(layout: &Layout, output_section: SectionIndex, section: &InputSection) -> bool
    requires { output_section ≡ section_of layout.now section.now.part }
    ensures { result ≡ bytes_take_room layout.now section.now }
{
    !has_or_gets_bytes(section) || layout.has_data(output_section)
}

/// No bytes are placed in a section without data.
#[derive(Clone, Copy)]
struct BytesTakeRoom<'a> {
    layout: &'a Layout,
}

impl Test<InputSection> for BytesTakeRoom<'_> {
    ghost test = { λ t. bytes_take_room t.layout.now };

    fn passes(&self, section: &InputSection) -> bool {
        let layout = self.layout;
        bytes_take_room(layout, layout.section_of(section.part), section)
    }
}

/// A section passes each of these tests.
#[derive(Clone, Copy)]
pub(crate) struct PassesAll<'a> {
    pub(crate) layout: &'a Layout,
}

impl Test<InputSection> for PassesAll<'_> {
    ghost test = { λ t. passes_all t.layout.now };

    fn passes(&self, section: &InputSection) -> bool {
        let layout = self.layout;
        let output_section = layout.section_of(section.part);
        LengthFits.passes(section)
            && FramesPartFits { layout }.passes(section)
            && DiscardedIsEmpty.passes(section)
            && PartIsRaw { layout }.passes(section)
            && allocation_agrees(layout, output_section, section)
            && bytes_take_room(layout, output_section, section)
    }
}

/// Whether merged strings, the linker's identity string and thunks are in such parts, and nothing else is where they begin.
fn parts_fit(layout: &Layout) -> bool
    ensures { result ≡ parts_fit layout.now }
{
    all_pass(&PartIsRaw { layout }, layout.merged.as_slice())
        && identity_is_raw(layout)
        && primary_fits(layout)
        && front_is_free(layout)
}

/// Requires that sizes and shares fit. The tests run one by one only if a group or a part fails one of them.
#[tactic(auto, using(crate::proofs::PassedLemmas::inputs_pass), unfolding(wild_plan_rules::specs::ClauseTests::check_inputs))]
pub(crate) fn check_inputs(
    layout: &Layout,
    tests_pass: bool,
    has_no_copies_versions_or_sorting: bool,
) -> Result<(), Clause>
    requires sizes { check_sizes layout.now ≡ Ok tt }
    requires shares { check_shares layout.now ≡ Ok tt }
    requires tests_pass { tests_pass ≡ groups_pass layout.now }
    requires ordinary { has_no_copies_versions_or_sorting ≡ are_ordinary layout.now.groups }
    ensures { result ≡ check_inputs layout.now }
{
    let groups = layout.groups.as_slice();
    fails(8, misplaced_place(layout))?;
    fails(
        8,
        sorted_named_once(layout, has_no_copies_versions_or_sorting),
    )?;
    fails(
        8,
        first_failing(&NamesSorted { layout }, layout.sorted.as_slice()),
    )?;
    if tests_pass && parts_fit(layout) {
        return Ok(());
    }
    fails(8, failing_group(&LengthFits, groups))?;
    fails(8, failing_group(&FramesPartFits { layout }, groups))?;
    fails(8, failing_group(&DiscardedIsEmpty, groups))?;
    fails(8, failing_group(&PartIsRaw { layout }, groups))?;
    merged_and_identity_fit(layout)?;
    fails(8, unless(primary_fits(layout)))?;
    fails(8, unless(front_is_free(layout)))?;
    fails(8, failing_group(&AllocationAgrees { layout }, groups))?;
    fails(8, failing_group(&BytesTakeRoom { layout }, groups))
}
