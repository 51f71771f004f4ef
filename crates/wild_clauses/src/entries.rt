//! Clause 6: what a loader finds through the dynamic section, or through the section headers if there is none.
ghost use Rattle.std.specs.Prelude.{◌≡◌};
ghost use Rattle.std.specs.List.{list_any};
ghost use Rattle.wild_types.specs.Lists.{first_failing, total};
ghost use Rattle.wild_plan_rules.specs.Segments.{size_in_file, is_segment_of, dynamic_astray};
ghost use Rattle.wild_types.specs.Parts.{part_with, entry_parts, bytes_in, is_hash_role, has_hashes};
ghost use Rattle.wild_plan_rules.specs.LoadedTables.{holds_entries, entries_astray, is_in_entries_section, is_read_from_one_segment, holds_part, carries_part, carries_table, rest_of_table, table_is_loaded};
ghost use Rattle.wild_plan_rules.specs.ClauseTests.{check_entries};

use crate::roles::is_fixed_static;
use crate::sections::within;
use crate::verdict::fails;
use wild_records::abi::section::SHT_RELA;
use wild_records::abi::segment::{PT_DYNAMIC, PT_LOAD};
use wild_types::{
    Clause, Layout, Part, Role, Section, SectionIndex, Segment, Test, all_but_first, first_failing,
    has_role, is_allocated, part_with, wide_sum,
};

/// The file size of the part's segment: 0 if the part's section is omitted.
fn size_in_file(layout: &Layout, part: &Part) -> u64
    ensures { result ≡ size_in_file layout.now part.now }
{
    if layout.is_header_only_at(part.section) {
        0
    } else {
        part.size
    }
}

/// Whether the segment has the place and the size of the part.
fn is_segment_of(layout: &Layout, part: Option<Part>, segment: &Segment) -> bool
    ensures { result ≡ is_segment_of layout.now part segment.now }
{
    match part {
        Some(part) => {
            segment.offset == part.offset
                && segment.address == part.address
                && segment.file_size == size_in_file(layout, &part)
                && segment.mem_size == part.size
        }
        None => false,
    }
}

/// The place of the first `PT_DYNAMIC` segment that is not that of the dynamic section, or is a second one.
pub(crate) fn dynamic_astray(layout: &Layout, segments: &[Segment]) -> Option<usize>
    ensures { result ≡ dynamic_astray layout.now (part_with Role.Dynamic layout.now.parts) 0 segments.now }
{
    let mut part = part_with(Role::Dynamic, layout.parts.as_slice());
    for (i, segment) in segments.iter().enumerate() {
        if segment.kind == PT_DYNAMIC {
            if !is_segment_of(layout, part, segment) {
                return Some(i);
            }
            part = None;
        }
    }
    part.and(Some(0))
}

/// The parts with relocation entries.
fn entry_parts(parts: &[Part]) -> [Option<Part>; 3]
    ensures { result ≡ entry_parts parts.now }
{
    [
        part_with(Role::RelaPlt, parts),
        part_with(Role::RelaDynRelative, parts),
        part_with(Role::RelaDynGeneral, parts),
    ]
}

/// The size of a part if it is in that section, else 0.
fn bytes_in(section: SectionIndex, part: Option<Part>) -> u64
    ensures { result ≡ bytes_in section part }
{
    match part {
        Some(part) if part.section == section => part.size,
        _ => 0,
    }
}

/// The sum of the sizes of those parts that are in that section.
fn all_bytes_in(section: SectionIndex, parts: &[Option<Part>; 3]) -> u128
    ensures { result ≡ total (bytes_in section) parts.now }
{
    let [first, second, third] = *parts;
    let last = u128::from(bytes_in(section, third));
    wide_sum(bytes_in(section, first), bytes_in(section, second)) + last
}

fn holds_entries(parts: &[Option<Part>; 3], index: SectionIndex, section: &Section) -> bool
    ensures { result ≡ holds_entries parts.now index section.now }
{
    !(is_allocated(section.flags) && section.kind == SHT_RELA)
        || all_bytes_in(index, parts) == u128::from(section.size)
}

/// `later` are the sections after section 0.
fn entries_astray(parts: &[Option<Part>; 3], later: &[Section]) -> Option<usize>
    ensures { result ≡ entries_astray parts.now 1 later.now }
{
    for (i, section) in later.iter().enumerate() {
        if !holds_entries(parts, SectionIndex(i + 1), section) {
            return Some(i + 1);
        }
    }
    None
}

/// A part with entries is in an allocated section of entries.
#[derive(Clone, Copy)]
struct IsInEntriesSection<'a> {
    layout: &'a Layout,
}

impl Test<Part> for IsInEntriesSection<'_> {
    ghost test = { λ t. is_in_entries_section t.layout.now };

    fn passes(&self, part: &Part) -> bool {
        let layout = self.layout;
        !matches!(
            part.role,
            Role::RelaPlt | Role::RelaDynRelative | Role::RelaDynGeneral
        ) || layout.is_allocated_section(part.section) && layout.kind_at(part.section) == SHT_RELA
    }
}

#[tactic(auto, unfolding(wild_plan_rules::specs::ClauseTests::check_entries))]
pub(crate) fn check_entries(layout: &Layout) -> Result<(), Clause>
    ensures { result ≡ check_entries layout.now }
{
    if !is_fixed_static(layout.kind) {
        return Ok(());
    }
    let parts = layout.parts.as_slice();
    let later = all_but_first(layout.sections.as_slice());
    fails(6, entries_astray(&entry_parts(parts), later))?;
    fails(6, first_failing(&IsInEntriesSection { layout }, parts))
}

fn is_hash_role(role: Role) -> bool
    ensures { result ≡ is_hash_role role }
{
    matches!(role, Role::SysvHash | Role::GnuHash)
}

/// Whether the output has a hash table.
fn has_hashes(layout: &Layout) -> bool
    ensures { result ≡ has_hashes layout.now }
{
    for part in layout.parts.as_slice() {
        if is_hash_role(part.role) {
            return true;
        }
    }
    false
}

/// Whether the table is read from one segment: relocation entries, or, if names are looked up, a hash table, the dynamic symbols or
/// their strings.
fn is_read_from_one_segment(layout: &Layout, hashes: bool, role: Role) -> bool
    requires hashes { hashes ≡ has_hashes layout.now }
    ensures { result ≡ is_read_from_one_segment layout.now role }
{
    let has_entries = matches!(
        role,
        Role::RelaPlt | Role::RelaDynRelative | Role::RelaDynGeneral | Role::RelrDyn
    );
    let is_looked_up = is_hash_role(role) || matches!(role, Role::Dynsym | Role::Dynstr);
    has_entries || is_looked_up && hashes
}

/// Whether the segment includes the bytes of the part, with the same address minus offset; if the part's section is omitted,
/// whether it includes the part's addresses.
fn holds_part(layout: &Layout, part: &Part, segment: &Segment) -> bool
    ensures { result ≡ holds_part layout.now part.now segment.now }
{
    if layout.is_header_only_at(part.section) {
        return within(segment.address, segment.mem_size, part.address, part.size);
    }
    within(segment.offset, segment.file_size, part.offset, part.size)
        && wide_sum(part.offset, segment.address) == wide_sum(part.address, segment.offset)
}

/// Whether the segment is loaded and includes the part.
fn carries_part(layout: &Layout, part: &Part, segment: &Segment) -> bool
    ensures { result ≡ carries_part layout.now part.now segment.now }
{
    segment.kind == PT_LOAD && holds_part(layout, part, segment)
}

/// Whether it includes the part, and the rest of its table.
fn carries_table(layout: &Layout, part: &Part, rest: &Option<Part>, segment: &Segment) -> bool
    ensures { result ≡ carries_table layout.now part.now rest.now segment.now }
{
    carries_part(layout, part, segment)
        && match rest {
            Some(rest) => rest.size == 0 || carries_part(layout, rest, segment),
            None => true,
        }
}

/// Whether some segment loads the table.
fn is_carried(layout: &Layout, part: &Part, rest: &Option<Part>) -> bool
    ensures { result ≡ list_any (carries_table layout.now part.now rest.now) layout.now.segments }
{
    for segment in layout.segments.as_slice() {
        if carries_table(layout, part, rest, segment) {
            return true;
        }
    }
    false
}

/// The part that follows in the same table: after the relative entries, the others.
fn rest_of_table(parts: &[Part], part: &Part) -> Option<Part>
    ensures { result ≡ rest_of_table parts.now part.now }
{
    if has_role(Role::RelaDynRelative, part) {
        part_with(Role::RelaDynGeneral, parts)
    } else {
        None
    }
}

/// Whether one segment loads the table that begins with the part, at its addresses, if it has entries.
fn table_is_loaded(layout: &Layout, hashes: bool, part: &Part) -> bool
    requires hashes { hashes ≡ has_hashes layout.now }
    ensures { result ≡ table_is_loaded layout.now part.now }
{
    !layout.kind.needs_dynamic()
        || !is_read_from_one_segment(layout, hashes, part.role)
        || part.size == 0
        || is_carried(layout, part, &rest_of_table(layout.parts.as_slice(), part))
}

pub(crate) fn table_not_loaded(layout: &Layout, parts: &[Part]) -> Option<usize>
    ensures { result ≡ first_failing (table_is_loaded layout.now) 0 parts.now }
{
    let hashes = has_hashes(layout);
    for (i, part) in parts.iter().enumerate() {
        if !table_is_loaded(layout, hashes, part) {
            return Some(i);
        }
    }
    None
}
