//! Clauses 20 and 22: reversed sections, the front of a part in the first group, properties, debug-only images.
ghost use Rattle.std.specs.Prelude.{◌≡◌, ◌==◌, not, ◌&&◌, [], drop, slice_get};
ghost use Rattle.std.specs.List.{list_any};
ghost use Rattle.wild_plan_rules.specs.Fronts.{is_whole_word, reversed_fits, given_by, fills_front, merged_size, merged_fits, identity_fills, has_bytes_in_part, front_shared, identity_is_alone, has_type, properties_differ, keeps_tables, dynamic_is_dropped, is_header_role, headers_are_kept};
ghost use Rattle.wild_plan_rules.specs.ClauseTests.{check_reversed, check_fronts};
ghost use Rattle.wild_clauses.specs.FileTests.{groups_pass};

use crate::each_section::failing_group;
use crate::verdict::{fails, unless};
use wild_records::abi::section::SHT_NOTE;
use wild_types::{
    Clause, InputRelocation, InputSection, Layout, Machine, Merged, Part, Property, Role, Test,
    all_pass, field_bytes, first_failing, has_role,
};

/// The size of a word of a reversed section.
const WORD: u64 = 8;

/// A section whose words are reversed has only whole words, and relocations of whole words.
#[derive(Clone, Copy)]
pub(crate) struct ReversedFits {
    pub(crate) machine: Machine,
}

impl Test<InputRelocation> for ReversedFits {
    ghost test = { λ t. is_whole_word t.machine };

    fn passes(&self, relocation: &InputRelocation) -> bool {
        relocation.offset % WORD == 0 && field_bytes(self.machine, relocation.number) as u64 == WORD
    }
}

impl Test<InputSection> for ReversedFits {
    ghost test = { λ t. reversed_fits t.machine };

    fn passes(&self, section: &InputSection) -> bool {
        !section.reversed
            || section.size % WORD == 0 && all_pass(self, section.relocations.as_slice())
    }
}

/// Whether a section whose words are reversed has only whole words, and relocations of whole words.
pub fn reversed_fits(machine: Machine, section: &InputSection) -> bool
    ensures { result ≡ reversed_fits machine section.now }
{
    ReversedFits { machine }.passes(section)
}

#[tactic(auto, using(crate::proofs::PassedLemmas::reversed_pass), unfolding(wild_plan_rules::specs::ClauseTests::check_reversed))]
pub(crate) fn check_reversed(layout: &Layout, tests_pass: bool) -> Result<(), Clause>
    requires tests_pass { tests_pass ≡ groups_pass layout.now }
    ensures { result ≡ check_reversed layout.now }
{
    if tests_pass {
        return Ok(());
    }
    let machine = layout.machine;
    let groups = layout.groups.as_slice();
    fails(20, failing_group(&ReversedFits { machine }, groups))
}

/// The size of the part's share of the first group.
fn room_in_front(layout: &Layout, part: usize) -> u64
    ensures { result ≡ given_by part (slice_get layout.now.groups 0) }
{
    match layout.groups.as_slice().get(0) {
        Some(group) => group.given(part),
        None => 0,
    }
}

/// Whether merged strings have that many bytes.
pub(crate) fn has_size(merged: &Merged, size: u64) -> bool
    ensures { result ≡ (size == merged_size merged.now) }
{
    let mut left = size;
    for string in merged.strings.as_slice() {
        let length = string.len() as u64;
        if left < length {
            return false;
        }
        left -= length;
    }
    left == 0
}

/// Merged strings fill their part's share of the first group.
#[derive(Clone, Copy)]
struct MergedFits<'a> {
    layout: &'a Layout,
}

impl Test<Merged> for MergedFits<'_> {
    ghost test = { λ t. merged_fits t.layout.now };

    fn passes(&self, merged: &Merged) -> bool {
        has_size(merged, room_in_front(self.layout, merged.part))
    }
}

/// Whether the linker's identity string, if it has bytes, fills its part's share of the first group.
fn identity_fills(layout: &Layout) -> bool
    ensures { result ≡ identity_fills layout.now }
{
    let length = layout.identity.bytes.len();
    length == 0 || room_in_front(layout, layout.identity.part) == length as u64
}

/// Whether the part contains the merged strings, and these have bytes.
fn has_bytes_in_part(part: usize, merged: &Merged) -> bool
    ensures { result ≡ has_bytes_in_part part merged.now }
{
    merged.part == part && !has_size(merged, 0)
}

fn any_has_bytes_in_part(part: usize, merged: &[Merged]) -> bool
    ensures { result ≡ list_any (has_bytes_in_part part) merged.now }
{
    for other in merged {
        if has_bytes_in_part(part, other) {
            return true;
        }
    }
    false
}

/// The first merged strings with bytes whose part also contains later ones of the list.
fn front_shared(merged: &[Merged]) -> Option<usize>
    ensures { result ≡ front_shared 0 merged.now }
{
    for (i, strings) in merged.iter().enumerate() {
        if has_bytes_in_part(strings.part, strings)
            && any_has_bytes_in_part(strings.part, &merged[i + 1..])
        {
            return Some(i);
        }
    }
    None
}

/// Whether the linker's identity string, if it has bytes, shares its part with no merged strings.
fn identity_is_alone(layout: &Layout) -> bool
    ensures { result ≡ identity_is_alone layout.now }
{
    let identity = &layout.identity;
    identity.bytes.len() == 0 || !any_has_bytes_in_part(identity.part, layout.merged.as_slice())
}

fn any_has_type(ptype: u32, properties: &[Property]) -> bool
    ensures { result ≡ list_any (has_type ptype) properties.now }
{
    for property in properties {
        if property.ptype == ptype {
            return true;
        }
    }
    false
}

/// The first property with the type of an earlier one.
fn repeated_property(properties: &[Property]) -> Option<usize>
    ensures { result ≡ properties_differ [] 0 properties.now }
{
    for (i, property) in properties.iter().enumerate() {
        if any_has_type(property.ptype, &properties[..i]) {
            return Some(i);
        }
    }
    None
}

/// Whether the output is not both a relocatable object and a debug-only image.
fn keeps_tables(layout: &Layout) -> bool
    ensures { result ≡ keeps_tables layout.now }
{
    !(layout.options.only_keep_debug && layout.kind.is_partial_link())
}

/// In a debug-only image the dynamic section is in no section of notes, since those are written.
#[derive(Clone, Copy)]
struct DynamicIsDropped<'a> {
    layout: &'a Layout,
}

impl Test<Part> for DynamicIsDropped<'_> {
    ghost test = { λ t. dynamic_is_dropped t.layout.now };

    fn passes(&self, part: &Part) -> bool {
        let layout = self.layout;
        !(layout.options.only_keep_debug
            && has_role(Role::Dynamic, part)
            && layout.kind_at(part.section) == SHT_NOTE)
    }
}

/// Whether a part of the role contains headers or section names.
fn is_header_role(role: Role) -> bool
    ensures { result ≡ is_header_role role }
{
    matches!(
        role,
        Role::FileHeader | Role::ProgramHeaders | Role::SectionHeaders | Role::Shstrtab
    )
}

/// Headers and section names are in no section that is omitted.
#[derive(Clone, Copy)]
struct HeadersAreKept<'a> {
    layout: &'a Layout,
}

impl Test<Part> for HeadersAreKept<'_> {
    ghost test = { λ t. headers_are_kept t.layout.now };

    fn passes(&self, part: &Part) -> bool {
        !(is_header_role(part.role) && self.layout.is_header_only_at(part.section))
    }
}

#[tactic(auto, unfolding(wild_plan_rules::specs::ClauseTests::check_fronts))]
pub(crate) fn check_fronts(layout: &Layout) -> Result<(), Clause>
    ensures { result ≡ check_fronts layout.now }
{
    let merged = layout.merged.as_slice();
    let parts = layout.parts.as_slice();
    fails(22, first_failing(&MergedFits { layout }, merged))?;
    fails(22, unless(identity_fills(layout)))?;
    fails(22, repeated_property(layout.properties.as_slice()))?;
    fails(22, unless(keeps_tables(layout)))?;
    fails(22, first_failing(&DynamicIsDropped { layout }, parts))?;
    fails(22, front_shared(merged))?;
    fails(22, unless(identity_is_alone(layout)))?;
    fails(22, first_failing(&HeadersAreKept { layout }, parts))
}
