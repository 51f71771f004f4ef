//! Clause 4: the roles.
ghost use Rattle.std.specs.Prelude.{◌≡◌, true, []};
ghost use Rattle.wild_needs.specs.Needs.{inner_groups_need_no_tables};
ghost use Rattle.wild_plan_rules.specs.Counts.{role_has_needed_part};
ghost use Rattle.wild_types.specs.Parts.{has_role};
ghost use Rattle.wild_plan_rules.specs.Places.{repeated_role, role_missing, role_not_at, program_headers_astray, unexpected_dynamic};
ghost use Rattle.wild_types.specs.Kinds.{is_fixed_static};
ghost use Rattle.wild_plan_rules.specs.LoadedTables.{begins_at_end_of, entries_follow};
ghost use Rattle.wild_plan_rules.specs.ClauseTests.{check_roles};

use crate::verdict::fails;
use wild_needs::total_share_of;
use wild_records::FileHeader;
use wild_types::{
    Clause, Layout, OutputKind, Part, Role, Test, first_failing, has_role, is_there, part_with,
    place_of, wide_sum,
};

/// All roles, each at its place.
const ROLES: [Role; 30] = [
    Role::Raw,
    Role::FileHeader,
    Role::ProgramHeaders,
    Role::SectionHeaders,
    Role::Shstrtab,
    Role::Got,
    Role::GotRelr,
    Role::PltGot,
    Role::RelaPlt,
    Role::RelaDynRelative,
    Role::RelaDynGeneral,
    Role::RelrDyn,
    Role::Dynsym,
    Role::Dynstr,
    Role::GnuVersion,
    Role::GnuVersionD,
    Role::GnuVersionR,
    Role::SysvHash,
    Role::GnuHash,
    Role::EhFrame,
    Role::EhFrameHdr,
    Role::Dynamic,
    Role::SymtabLocal,
    Role::SymtabGlobal,
    Role::SymtabShndxLocal,
    Role::SymtabShndxGlobal,
    Role::Strtab,
    Role::Interp,
    Role::BuildId,
    Role::Property,
];

fn repeated_role(parts: &[Part]) -> Option<usize>
    ensures { result ≡ repeated_role [] 0 parts.now }
{
    for (i, part) in parts.iter().enumerate() {
        if !has_role(Role::Raw, part) && is_there(part.role, &parts[..i]) {
            return Some(i);
        }
    }
    None
}

fn role_missing(role: Role, parts: &[Part]) -> Option<usize>
    ensures { result ≡ role_missing role parts.now }
{
    if is_there(role, parts) {
        None
    } else {
        Some(place_of(role))
    }
}

fn role_not_at(role: Role, offset: u64, parts: &[Part]) -> Option<usize>
    ensures { result ≡ role_not_at role offset 0 parts.now }
{
    for (i, part) in parts.iter().enumerate() {
        if has_role(role, part) {
            return if part.offset == offset { None } else { Some(i) };
        }
    }
    Some(place_of(role))
}

/// The place of the part of program headers, or of its role, if they do not follow the file header; a relocatable object has none.
fn program_headers_astray(layout: &Layout) -> Option<usize>
    ensures { result ≡ program_headers_astray layout.now }
{
    if layout.kind.is_partial_link() {
        return None;
    }
    let behind = FileHeader::SIZE as u64;
    role_not_at(Role::ProgramHeaders, behind, layout.parts.as_slice())
}

/// A part of a role exists, or no bytes have to be written in one. If `no_inner_tables` is set, the inner groups contribute to no table.
#[derive(Drop)]
struct RoleHasNeededPart<'a> {
    layout: &'a Layout,
    no_inner_tables: bool,
    ghost no_inner_tables_is: { no_inner_tables ≡ true → inner_groups_need_no_tables layout.now ≡ true },
}

impl Test<Role> for RoleHasNeededPart<'_> {
    ghost test = { λ t. role_has_needed_part t.layout.now };

    fn passes(&self, role: &Role) -> bool {
        is_there(*role, self.layout.parts.as_slice())
            || total_share_of(self.layout, self.no_inner_tables, *role) == 0
    }
}

/// Whether the output has fixed addresses and no dynamic linker.
pub(crate) fn is_fixed_static(kind: OutputKind) -> bool
    ensures { result ≡ is_fixed_static kind }
{
    kind.is_static_executable() && kind.has_fixed_load_address()
}

/// The place of the dynamic section's role, if there is such a part and must be none.
fn unexpected_dynamic(layout: &Layout) -> Option<usize>
    ensures { result ≡ unexpected_dynamic layout.now }
{
    if is_fixed_static(layout.kind) && is_there(Role::Dynamic, layout.parts.as_slice()) {
        Some(place_of(Role::Dynamic))
    } else {
        None
    }
}

/// Whether a part begins where another ends, in the file and in memory.
fn begins_at_end_of(before: Option<Part>, part: &Part) -> bool
    ensures { result ≡ begins_at_end_of before part.now }
{
    match before {
        Some(before) => {
            u128::from(part.offset) == wide_sum(before.offset, before.size)
                && u128::from(part.address) == wide_sum(before.address, before.size)
        }
        None => true,
    }
}

/// A part of other entries begins where that of the relative ones ends: both are one table (LSB, "Dynamic Entries",
/// `DT_RELACOUNT`).
#[derive(Clone, Copy)]
struct EntriesFollow<'a> {
    parts: &'a [Part],
}

impl Test<Part> for EntriesFollow<'_> {
    ghost test = { λ t. entries_follow t.parts.now };

    fn passes(&self, part: &Part) -> bool {
        !has_role(Role::RelaDynGeneral, part)
            || begins_at_end_of(part_with(Role::RelaDynRelative, self.parts), part)
    }
}

/// If `no_inner_tables` is set, the inner groups contribute to no table.
#[tactic(auto, unfolding(wild_plan_rules::specs::ClauseTests::check_roles))]
pub(crate) fn check_roles(layout: &Layout, no_inner_tables: bool) -> Result<(), Clause>
    requires { no_inner_tables ≡ inner_groups_need_no_tables layout.now }
    ensures { result ≡ check_roles layout.now }
{
    let parts = layout.parts.as_slice();
    fails(4, repeated_role(parts))?;
    fails(4, role_not_at(Role::FileHeader, 0, parts))?;
    fails(4, role_missing(Role::SectionHeaders, parts))?;
    fails(4, role_missing(Role::Shstrtab, parts))?;
    fails(4, program_headers_astray(layout))?;
    fails(4, first_failing(&EntriesFollow { parts }, parts))?;
    fails(
        4,
        first_failing(
            &RoleHasNeededPart {
                layout,
                no_inner_tables,
            },
            &ROLES,
        ),
    )?;
    fails(4, unexpected_dynamic(layout))
}
