//! Marks the bytes of an image that a part, an input section, a thunk or a merged string owns. The others are padding.
ghost use Rattle.std.specs.Prelude.{◌≡◌, ◌≤◌, not, ◌&&◌, ◌-◌, ◌^◌, ℕ, List, min, nat_le, nat_lt, length, slice_get};
ghost use Rattle.std.specs.List.{flat_map, list_any};
ghost use Rattle.wild_types.specs.FileThunks.{thunks_of};
ghost use Rattle.wild_types.specs.Lookups.{is_header_only_part};
ghost use Rattle.wild_layout.specs.Image.{offset_in, offset_of_part, is_within, part_owns, section_owns, thunk_owns, file_owns, group_owns, merged_bytes, front_owns, merged_and_identity_owns, is_owned};
ghost use Rattle.wild_image.specs.Padding.{Marks};

use wild_types::{
    File, Group, InputSection, Layout, Merged, Part, Role, THUNK_SIZE, Thunk, has_role, wide_sum,
};
use wild_words::Bytes;

/// Marks the bytes from `at` to `end`.
fn mark_range(at: usize, end: usize, taken: &mut [bool])
    requires { (at ≤ end) × (end ≤ length taken.old) }
    ensures { Marks (λ (k : ℕ). nat_le at k && nat_lt k end) taken.old taken.new }
{
    for k in at..end {
        taken[k] = true;
    }
}

/// Marks `size` bytes from file offset `at`, as far as the image has them.
fn mark(at: u128, size: u64, taken: &mut [bool])
    ensures { Marks (is_within at size) taken.old taken.new }
{
    let all = taken.len() as u128;
    let start = at.min(all) as usize;
    let end = at.saturating_add(u128::from(size)).min(all) as usize;
    mark_range(start, end, taken);
}

/// The file offset of an address in a part, which may be 2^64 or more.
fn offset_in(parts: &[Part], part: usize, address: u64) -> u128
    ensures { result ≡ offset_in (slice_get parts.now part) address }
{
    match parts.get(part) {
        Some(part) => wide_sum(part.offset, address.saturating_sub(part.address)),
        None => 0,
    }
}

/// Marks the bytes that a part owns itself.
fn mark_part(layout: &Layout, part: &Part, taken: &mut [bool])
    ensures { Marks (λ (k : ℕ). part_owns layout.now k part.now) taken.old taken.new }
{
    if !has_role(Role::Raw, part) && layout.takes_file_bytes(part.section) {
        mark(part.offset as u128, part.size, taken);
    }
}

/// Marks the bytes of an input section.
fn mark_section(layout: &Layout, section: &InputSection, taken: &mut [bool])
    ensures { Marks (λ (k : ℕ). section_owns layout.now k section.now) taken.old taken.new }
{
    if section.owns_bytes(layout) {
        let at = offset_in(layout.parts.as_slice(), section.part, section.address);
        mark(at, section.size, taken);
    }
}

/// Marks the bytes of a thunk, unless its section is omitted.
fn mark_thunk(layout: &Layout, thunk: &Thunk, taken: &mut [bool])
    ensures { Marks (λ (k : ℕ). thunk_owns layout.now k thunk.now) taken.old taken.new }
{
    if !layout.is_header_only_part(layout.primary_part) {
        let at = offset_in(layout.parts.as_slice(), layout.primary_part, thunk.address);
        mark(at, THUNK_SIZE, taken);
    }
}

/// Marks the bytes of a file's input sections.
fn mark_sections(layout: &Layout, file: &File, taken: &mut [bool])
    ensures { Marks (λ (k : ℕ). list_any (section_owns layout.now k) file.now.sections) taken.old taken.new }
{
    for section in file.sections.as_slice() {
        mark_section(layout, section, taken);
    }
}

/// Marks the bytes of a file's input sections and of its thunks.
fn mark_file(layout: &Layout, file: &File, taken: &mut [bool])
    ensures { Marks (λ (k : ℕ). file_owns layout.now k file.now) taken.old taken.new }
{
    mark_sections(layout, file, taken);
    for thunk in layout.thunks_of(file) {
        mark_thunk(layout, thunk, taken);
    }
}

/// Marks the bytes of a group's files.
fn mark_group(layout: &Layout, group: &Group, taken: &mut [bool])
    ensures { Marks (λ (k : ℕ). group_owns layout.now k group.now) taken.old taken.new }
{
    for file in group.files.as_slice() {
        mark_file(layout, file, taken);
    }
}

/// Marks the bytes that the parts own themselves.
fn mark_parts(layout: &Layout, taken: &mut [bool])
    ensures { Marks (λ (k : ℕ). list_any (part_owns layout.now k) layout.now.parts) taken.old taken.new }
{
    for part in layout.parts.as_slice() {
        mark_part(layout, part, taken);
    }
}

/// The file offset of a part.
fn offset_of_part(parts: &[Part], part: usize) -> u64
    ensures { result ≡ offset_of_part (slice_get parts.now part) }
{
    match parts.get(part) {
        Some(part) => part.offset,
        None => 0,
    }
}

/// The total length of strings in bytes, at most 2^64 - 1.
pub(crate) fn strings_size(strings: &[Bytes]) -> u64
    ensures { result ≡ min (2 ^ 64 - 1) (length (flat_map (λ (s : List ℕ). s) strings.now)) }
{
    let mut size: u64 = 0;
    for string in strings {
        size = size.saturating_add(string.len() as u64);
    }
    size
}

/// Marks `size` bytes at the front of a part, unless its section is omitted.
fn mark_front(layout: &Layout, part: usize, size: u64, taken: &mut [bool])
    ensures { Marks (λ (k : ℕ). not (is_header_only_part layout.now part) && is_within (offset_of_part (slice_get layout.now.parts part)) size k) taken.old taken.new }
{
    if !layout.is_header_only_part(part) {
        let at = offset_of_part(layout.parts.as_slice(), part);
        mark(at as u128, size, taken);
    }
}

/// Marks the bytes of merged strings.
#[tactic(auto, using(crate::proofs::PaddingLemmas::marks_capped))]
fn mark_merged(layout: &Layout, merged: &Merged, taken: &mut [bool])
    ensures { Marks (λ (k : ℕ). front_owns layout.now k merged.now.part (merged_bytes merged.now)) taken.old taken.new }
{
    let size = strings_size(merged.strings.as_slice());
    let _all = taken.len();
    mark_front(layout, merged.part, size, taken);
}

/// Marks what is written once: merged strings and the output's identity.
#[tactic(auto, using(crate::proofs::PaddingLemmas::marks_both))]
fn mark_merged_and_identity(layout: &Layout, taken: &mut [bool])
    ensures { Marks (merged_and_identity_owns layout.now) taken.old taken.new }
{
    for merged in layout.merged.as_slice() {
        mark_merged(layout, merged, taken);
    }
    let identity = &layout.identity;
    mark_front(layout, identity.part, identity.bytes.len() as u64, taken);
}

/// Marks the bytes of the files of all groups.
fn mark_groups(layout: &Layout, taken: &mut [bool])
    ensures { Marks (λ (k : ℕ). list_any (group_owns layout.now k) layout.now.groups) taken.old taken.new }
{
    for group in layout.groups.as_slice() {
        mark_group(layout, group, taken);
    }
}

/// Marks each byte that has an owner.
pub(crate) fn mark_owned(layout: &Layout, taken: &mut [bool])
    ensures { Marks (is_owned layout.now) taken.old taken.new }
{
    mark_parts(layout, taken);
    mark_groups(layout, taken);
    mark_merged_and_identity(layout, taken);
}
