//! The bytes that a group needs of a part: its share.
ghost use Rattle.std.specs.Prelude.{◌≡◌, ℕ, ◌+◌, ◌-◌, ◌^◌, min, true, false, if◌then◌else◌};
ghost use Rattle.std.specs.List.{list_all};
ghost use Rattle.wild_types.specs.declared.part.Role.{Role};
ghost use Rattle.wild_needs.specs.Needs.{total_share, name_bytes, bytes_per_image, dynsym_count, version_count, bytes_if_last, sysv_room, gnu_room, last_dynamic, reads_sections, reads_places, file_table_bytes, is_static, first_share, share, has_last, last_share, group_share, needs_of, needs, is_plain, has_no_dynamic_tables, inner_groups_need_no_tables};
ghost use Rattle.wild_placement.specs.PlacedSections.{address_after, file_frames, placed_file, placed_files};
ghost use Rattle.wild_types.specs.Lists.{total};
ghost use Rattle.wild_needs.specs.Dynamic.{dynamic_count};
ghost use Rattle.wild_needs.specs.DynamicStrings.{needed_count};
ghost use Rattle.wild_types.specs.FileRoles.{is_prelude};

use crate::dynamic::dynamic_count;
use crate::dynsyms::table_length;
use crate::entries::{entry_count, general_count, sorted_word_count, word_count};
use crate::no_tables::{group_needs_no_tables, has_no_dynamic_tables};
use crate::rooms::{build_id_share, frames_room, property_share, search_table_room};
use crate::slot_shares::{header_share, relr_got_share, slot_share, slots_need_nothing};
use crate::strings::{entry_name_count, needed_count, strings_room};
use crate::table::{global_count, has_long, local_count, table_room};
use crate::versions::{definitions_room, needs_room};
use wild_placement::{file_frames, frames_at};
use wild_records::{
    DynamicEntry, FileHeader, GnuHashHeader, ProgramHeader, Rela, Relr, SectionHeader, SymtabEntry,
    Versym,
};
use wild_types::{File, GnuHash, Group, LacksSlots, Layout, Role, SysvHash, Test, all_pass};

/// The size of a 32-bit section index in bytes.
const LONG_INDEX_SIZE: u64 = 4;

/// The size of the section names in bytes, each with its terminating zero.
pub fn name_bytes(layout: &Layout) -> u128
    ensures { result ≡ name_bytes layout.now }
{
    let mut sum: u128 = 0;
    for section in layout.sections.as_slice() {
        sum += section.name.len() as u128 + 1;
    }
    sum
}

/// The bytes of a role that appear once in an image, at most 2^64 - 1.
pub fn bytes_per_image(layout: &Layout, role: Role) -> u64
    ensures { result ≡ min (2 ^ 64 - 1) (bytes_per_image layout.now role) }
{
    let bytes = match role {
        Role::FileHeader => FileHeader::SIZE as u128,
        Role::ProgramHeaders => ProgramHeader::SIZE as u128 * layout.segments.len() as u128,
        Role::SectionHeaders => SectionHeader::SIZE as u128 * layout.sections.len() as u128,
        Role::Shstrtab => name_bytes(layout),
        Role::EhFrameHdr => u128::from(search_table_room(layout)),
        Role::Interp => layout.interp.len() as u128,
        _ => 0,
    };
    u128::from(u64::MAX).min(bytes) as u64
}

/// The number of entries of a file in the dynamic symbol table, at most 2^64 - 1.
fn dynsym_count(layout: &Layout, file: &File) -> u64
    ensures { result ≡ min (2 ^ 64 - 1) (dynsym_count layout.now file.now) }
{
    if layout.kind.needs_dynsym() {
        let null = u64::from(file.role.is_prelude());
        null.saturating_add(entry_name_count(layout, file) as u64)
    } else {
        0
    }
}

/// The number of entries of the dynamic section that the last file writes, at most 2^64 - 1; 0 for another file.
fn last_count(layout: &Layout, file: &File) -> u64
    ensures { result ≡ min (2 ^ 64 - 1) (bytes_if_last file.now.role (dynamic_count layout.now)) }
{
    if file.role.is_epilogue() {
        dynamic_count(layout) as u64
    } else {
        0
    }
}

/// The number of entries of a file in the dynamic section, at most 2^64 - 1.
fn section_count(layout: &Layout, file: &File) -> u64
    ensures { result ≡ min (2 ^ 64 - 1) (needed_count layout.now file.now + bytes_if_last file.now.role (dynamic_count layout.now)) }
{
    let needed = needed_count(layout, file) as u64;
    needed.saturating_add(last_count(layout, file))
}

/// The number of symbols of a file that have a version, at most 2^64 - 1.
fn version_count(layout: &Layout, file: &File) -> u64
    ensures { result ≡ min (2 ^ 64 - 1) (version_count layout.now file.now) }
{
    if layout.options.versions {
        dynsym_count(layout, file)
    } else {
        0
    }
}

/// The size of a hash table of that shape in bytes, at most 2^64 - 1.
fn sysv_room(layout: &Layout, shape: Option<SysvHash>) -> u64
    ensures { result ≡ min (2 ^ 64 - 1) (sysv_room layout.now shape) }
{
    match shape {
        Some(shape) => (table_length(layout) as u64)
            .saturating_mul(4)
            .saturating_add(12 + 4 * u64::from(shape.buckets)),
        None => 0,
    }
}

/// The size of a GNU hash table of that shape in bytes, at most 2^64 - 1.
fn gnu_room(layout: &Layout, shape: Option<GnuHash>) -> u64
    ensures { result ≡ min (2 ^ 64 - 1) (gnu_room layout.now shape) }
{
    match shape {
        Some(shape) => {
            let table = 8 * u64::from(shape.bloom_count) + 4 * u64::from(shape.buckets);
            (layout.dynsyms.len() as u64)
                .saturating_mul(4)
                .saturating_add(GnuHashHeader::SIZE as u64 + table)
        }
        None => 0,
    }
}

/// Whether the file is the last one, and the output has dynamic symbols.
fn ends_symbols(layout: &Layout, file: &File) -> bool
    ensures { (n : ℕ) → (if result then n else 0) ≡ last_dynamic layout.now file.now.role n }
{
    layout.kind.needs_dynsym() && file.role.is_epilogue()
}

/// The bytes of the hash table that a file writes, at most 2^64 - 1.
fn sysv_share(layout: &Layout, file: &File) -> u64
    ensures { result ≡ min (2 ^ 64 - 1) (last_dynamic layout.now file.now.role (sysv_room layout.now layout.now.sysv_hash)) }
{
    if ends_symbols(layout, file) {
        sysv_room(layout, layout.sysv_hash)
    } else {
        0
    }
}

/// The bytes of the GNU hash table that a file writes, at most 2^64 - 1.
fn gnu_share(layout: &Layout, file: &File) -> u64
    ensures { result ≡ min (2 ^ 64 - 1) (last_dynamic layout.now file.now.role (gnu_room layout.now layout.now.gnu_hash)) }
{
    if ends_symbols(layout, file) {
        gnu_room(layout, layout.gnu_hash)
    } else {
        0
    }
}

/// Whether the share of a file in parts of that role depends on its sections.
fn reads_sections(role: Role) -> bool
    ensures { result ≡ reads_sections role }
{
    matches!(
        role,
        Role::RelaDynRelative | Role::RelaDynGeneral | Role::RelrDyn | Role::EhFrame
    )
}

/// Whether it depends on the addresses of the sections.
fn reads_places(layout: &Layout, role: Role) -> bool
    ensures { result ≡ reads_places layout.now role }
{
    match role {
        Role::RelaDynRelative | Role::RelrDyn => {
            layout.kind.is_position_independent() && layout.options.relr
        }
        _ => false,
    }
}

/// The share of a file that depends on its sections, at most 2^64 - 1. The file's frames begin at address `at`.
fn share_by_sections(layout: &Layout, at: u64, role: Role, file: &File) -> u64
    ensures { reads_sections role ≡ true → result ≡ min (2 ^ 64 - 1) (file_table_bytes layout.now role (placed_file layout.now at file.now)) }
{
    match role {
        Role::RelaDynRelative => entry_count(layout, at, file).saturating_mul(Rela::SIZE as u64),
        Role::RelaDynGeneral => general_count(layout, at, file).saturating_mul(Rela::SIZE as u64),
        Role::RelrDyn => word_count(layout, at, file).saturating_mul(Relr::SIZE as u64),
        Role::EhFrame => frames_room(layout, file),
        _ => 0,
    }
}

/// The share of a file in tables for a loader and in `.symtab` that does not depend on its sections, at most 2^64 - 1.
fn share_without_sections(layout: &Layout, role: Role, file: &File) -> u64
    ensures { reads_sections role ≡ false → result ≡ min (2 ^ 64 - 1) (file_table_bytes layout.now role file.now) }
{
    match role {
        Role::Dynsym => dynsym_count(layout, file).saturating_mul(SymtabEntry::SIZE as u64),
        Role::Dynstr => strings_room(layout, file),
        Role::GnuVersion => version_count(layout, file).saturating_mul(Versym::SIZE as u64),
        Role::GnuVersionD => definitions_room(layout, file),
        Role::GnuVersionR => needs_room(layout, file),
        Role::SysvHash => sysv_share(layout, file),
        Role::GnuHash => gnu_share(layout, file),
        Role::Dynamic => section_count(layout, file).saturating_mul(DynamicEntry::SIZE as u64),
        Role::SymtabLocal => local_count(layout, file).saturating_mul(SymtabEntry::SIZE as u64),
        Role::SymtabGlobal => global_count(layout, file).saturating_mul(SymtabEntry::SIZE as u64),
        Role::SymtabShndxLocal if has_long(layout, role) => {
            local_count(layout, file).saturating_mul(LONG_INDEX_SIZE)
        }
        Role::SymtabShndxGlobal if has_long(layout, role) => {
            global_count(layout, file).saturating_mul(LONG_INDEX_SIZE)
        }
        Role::Strtab => table_room(layout, file),
        Role::BuildId => build_id_share(layout, file),
        Role::Property => property_share(layout, file),
        _ => 0,
    }
}

/// The share of a file in tables for a loader and other readers, at most 2^64 - 1. The file's frames begin at address `at`.
#[tactic(auto, using(crate::proofs::StandingShares::own_stands))]
fn file_table_bytes(layout: &Layout, at: u64, role: Role, file: &File) -> u64
    ensures { result ≡ min (2 ^ 64 - 1) (file_table_bytes layout.now role (placed_file layout.now at file.now)) }
{
    if reads_sections(role) {
        share_by_sections(layout, at, role, file)
    } else {
        share_without_sections(layout, role, file)
    }
}

/// The test that a file writes only input sections. It passes if:
/// - the file is neither the first nor the last,
/// - the output has no dynamic section and no `.symtab`,
/// - the file writes no slots, no entries and no frames.
///
/// Relocations are read only if the other conditions hold. The address of the file's frames does not matter.
#[derive(Clone, Copy)]
struct IsPlain<'a> {
    layout: &'a Layout,
}

impl Test<File> for IsPlain<'_> {
    ghost test = { λ t f. is_plain t.layout.now (placed_file t.layout.now 0 f) };

    fn passes(&self, file: &File) -> bool {
        let layout = self.layout;
        !layout.kind.needs_dynamic()
            && !layout.has_symtab()
            && !file.role.is_prelude()
            && !file.role.is_epilogue()
            && all_pass(&LacksSlots, layout.own_symbols(file))
            && general_count(layout, 0, file) == 0
            && frames_room(layout, file) == 0
    }
}

/// Whether a group is known to need nothing. `bare` is true only if `has_no_dynamic_tables` holds for the output; then relocations of files that pass
/// the fast test are not read.
pub fn needs_nothing_in(layout: &Layout, bare: bool, group: &Group) -> bool
    requires { bare ≡ true → has_no_dynamic_tables layout.now ≡ true }
    ensures { result ≡ true → (r : Role) → group_share layout.now r group.now ≡ 0 }
{
    bare && group_needs_no_tables(group) || is_plain_group(layout, group)
}

/// Whether all files of a group, with their sections as placed, write only input sections. Then the group needs nothing.
pub fn is_plain_group(layout: &Layout, group: &Group) -> bool
    ensures plain { result ≡ list_all (is_plain layout.now) (placed_files layout.now group.now) }
    ensures none { result ≡ true → (r : Role) → group_share layout.now r group.now ≡ 0 }
{
    all_pass(&IsPlain { layout }, group.files.as_slice())
}

/// The bytes that appear once in an image, if the file is the first one, at most 2^64 - 1.
fn first_share(layout: &Layout, role: Role, file: &File) -> u64
    ensures { result ≡ min (2 ^ 64 - 1) (if is_prelude file.now.role then first_share layout.now role else 0) }
{
    if file.role.is_prelude() {
        bytes_per_image(layout, role).saturating_add(header_share(layout, role))
    } else {
        0
    }
}

/// The share of a file in a part of that role, at most 2^64 - 1. The file's frames begin at address `at`.
#[tactic(auto, using(crate::proofs::StandingShares::slots_are_placed))]
fn share(layout: &Layout, at: u64, role: Role, file: &File) -> u64
    ensures { result ≡ min (2 ^ 64 - 1) (share layout.now role (placed_file layout.now at file.now)) }
{
    first_share(layout, role, file)
        .saturating_add(file_table_bytes(layout, at, role, file))
        .saturating_add(slot_share(layout, role, file))
}

/// The address of the frames after those of a file, if the share in parts of that role depends on it.
fn address_after_frames(layout: &Layout, at: u64, role: Role, file: &File) -> u64
    ensures { reads_places layout.now role ≡ true → result ≡ address_after at (file_frames layout.now file.now) }
{
    if reads_places(layout, role) {
        at.wrapping_add(file_frames(layout, file))
    } else {
        at
    }
}

/// The sum of the shares of a group's files, at most 2^64 - 1.
#[tactic(auto, unfolding(wild_placement::specs::PlacedSections::placed_files), using(crate::proofs::StandingShares::file_loops))]
fn total_of(layout: &Layout, role: Role, group: &Group) -> u64
    ensures { result ≡ min (2 ^ 64 - 1) (total (share layout.now role) (placed_files layout.now group.now)) }
{
    let mut sum: u64 = 0;
    let mut at = frames_at(layout, group);
    for file in group.files.as_slice() {
        sum = sum.saturating_add(share(layout, at, role, file));
        at = address_after_frames(layout, at, role, file);
    }
    sum
}

/// Whether the group contains the last file.
pub fn has_last(group: &Group) -> bool
    ensures { result ≡ has_last group.now }
{
    group
        .files
        .as_slice()
        .iter()
        .any(|file| file.role.is_epilogue())
}

/// The bytes that follow all else of the group with the last file, at most 2^64 - 1.
fn last_share(layout: &Layout, role: Role, group: &Group) -> u64
    ensures { result ≡ min (2 ^ 64 - 1) (last_share layout.now role group.now) }
{
    match role {
        Role::RelrDyn if has_last(group) => {
            sorted_word_count(layout).saturating_mul(Relr::SIZE as u64)
        }
        _ => 0,
    }
}

/// The share of a group in a part of that role, at most 2^64 - 1.
pub(crate) fn group_share(layout: &Layout, role: Role, group: &Group) -> u64
    ensures { result ≡ min (2 ^ 64 - 1) (group_share layout.now role group.now) }
{
    total_of(layout, role, group)
        .saturating_add(relr_got_share(layout, role, group))
        .saturating_add(last_share(layout, role, group))
}

fn needs_of(layout: &Layout, role: Role, part: usize, group: &Group) -> u64
    ensures { result ≡ needs_of layout.now role part group.now }
{
    match role {
        Role::Raw => group.given(part),
        _ => group_share(layout, role, group),
    }
}

/// The bytes that a group needs of a part, at most 2^64 - 1; 0 if there is no such part or group.
#[tactic(auto, unfolding(crate::specs::Needs::needs))]
pub fn needs(layout: &Layout, part: usize, group: usize) -> u64
    ensures { result ≡ needs layout.now part group }
{
    let Some(found) = layout.parts.as_slice().get(part) else {
        return 0;
    };
    match layout.groups.as_slice().get(group) {
        Some(group) => needs_of(layout, found.role, part, group),
        None => 0,
    }
}

/// Whether an output that no loader relocates may need bytes of that role besides slots: entries for resolvers, frames, which depend on
/// the sections, or notes.
fn is_static(layout: &Layout, role: Role) -> bool
    ensures { result ≡ is_static layout.now role }
{
    match role {
        Role::RelaDynGeneral | Role::EhFrame => true,
        Role::BuildId => layout.build_id.is_some(),
        Role::Property => layout.properties.len() != 0,
        _ => false,
    }
}

/// Whether no group has a share in a part of that role, as far as this is known without reading the files. `bare` is true only if
/// `has_no_dynamic_tables` holds for the output.
#[tactic(auto, using(crate::proofs::ShareLemmas::no_share))]
fn needs_nothing(layout: &Layout, bare: bool, role: Role) -> bool
    requires { bare ≡ true → has_no_dynamic_tables layout.now ≡ true }
    ensures { result ≡ true → total_share layout.now role ≡ 0 }
{
    !layout.kind.needs_dynamic()
        && !layout.has_symtab()
        && !is_static(layout, role)
        && slots_need_nothing(layout, bare, role)
        && bytes_per_image(layout, role) == 0
}

/// The share of a group in a part of that role, at most 2^64 - 1. `bare` is true only if `has_no_dynamic_tables` holds for the output.
fn share_of_group(layout: &Layout, bare: bool, role: Role, group: &Group) -> u64
    requires { bare ≡ true → has_no_dynamic_tables layout.now ≡ true }
    ensures { result ≡ min (2 ^ 64 - 1) (group_share layout.now role group.now) }
{
    if bare && group_needs_no_tables(group) {
        0
    } else {
        group_share(layout, role, group)
    }
}

/// The shares of all groups, if those between the first and the last need nothing.
fn share_of_ends(layout: &Layout, role: Role) -> u64
    requires { inner_groups_need_no_tables layout.now ≡ true }
    ensures { result ≡ min (2 ^ 64 - 1) (total_share layout.now role) }
{
    match layout.groups.as_slice() {
        [first, .., last] => {
            group_share(layout, role, first).saturating_add(group_share(layout, role, last))
        }
        [one] => group_share(layout, role, one),
        [] => 0,
    }
}

/// The sum of the shares of all groups in a part of that role, at most 2^64 - 1. `inside` is true only if `inner_groups_need_no_tables` holds for the
/// output.
#[tactic(auto, using(crate::proofs::NoTableLemmas::bare_by_inside))]
pub fn total_share_of(layout: &Layout, inside: bool, role: Role) -> u64
    requires { inside ≡ true → inner_groups_need_no_tables layout.now ≡ true }
    ensures { result ≡ min (2 ^ 64 - 1) (total_share layout.now role) }
{
    if needs_nothing(layout, inside, role) {
        return 0;
    }
    if inside {
        return share_of_ends(layout, role);
    }
    let bare = has_no_dynamic_tables(layout);
    let mut sum: u64 = 0;
    for group in layout.groups.as_slice() {
        sum = sum.saturating_add(share_of_group(layout, bare, role, group));
    }
    sum
}

/// The sum of the shares of all groups in a part of that role, at most 2^64 - 1.
pub fn total_share(layout: &Layout, role: Role) -> u64
    ensures { result ≡ min (2 ^ 64 - 1) (total_share layout.now role) }
{
    total_share_of(layout, false, role)
}
