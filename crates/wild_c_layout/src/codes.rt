//! Numbers that represent one of several choices.
ghost use Rattle.std.specs.Prelude.{◌≡◌};
ghost use Rattle.wild_c_layout.specs.Codes.{slot_of, file_role_of, roles, role_of, machine_of, kind_of, is_machine, is_kind, has_known_role, has_known_slot, has_known_place, has_known_sections, has_known_files};

use crate::input::{CFile, CGroup, CInputSection};
use crate::output::CPart;
use crate::symbol::CSymbol;
use wild_types::{FileRole, Machine, OutputKind, RelocationModel, Role, Slot, Test, all_pass};

const SLOTS: [Slot; 8] = [
    Slot::Discard,
    Slot::Loaded,
    Slot::Sorted,
    Slot::Debug,
    Slot::Frame,
    Slot::Merge,
    Slot::Rela,
    Slot::Group,
];

const FILE_ROLES: [FileRole; 7] = [
    FileRole::Object,
    FileRole::Prelude,
    FileRole::Dynamic,
    FileRole::Script,
    FileRole::Synthetic,
    FileRole::Epilogue,
    FileRole::NotLoaded,
];

const ROLES: [Role; 30] = [
    Role::Raw,
    Role::FileHeader,
    Role::ProgramHeaders,
    Role::SectionHeaders,
    Role::Shstrtab,
    Role::Got,
    Role::GotRelr,
    Role::PltGot,
    Role::RelaPlt,
    Role::RelaDynRelative,
    Role::RelaDynGeneral,
    Role::RelrDyn,
    Role::Dynsym,
    Role::Dynstr,
    Role::GnuVersion,
    Role::GnuVersionD,
    Role::GnuVersionR,
    Role::SysvHash,
    Role::GnuHash,
    Role::EhFrame,
    Role::EhFrameHdr,
    Role::Dynamic,
    Role::SymtabLocal,
    Role::SymtabGlobal,
    Role::SymtabShndxLocal,
    Role::SymtabShndxGlobal,
    Role::Strtab,
    Role::Interp,
    Role::BuildId,
    Role::Property,
];

const KINDS: [OutputKind; 6] = [
    OutputKind::StaticExecutable(RelocationModel::NonRelocatable),
    OutputKind::StaticExecutable(RelocationModel::Relocatable),
    OutputKind::DynamicExecutable(RelocationModel::NonRelocatable),
    OutputKind::DynamicExecutable(RelocationModel::Relocatable),
    OutputKind::SharedObject,
    OutputKind::PartialObject,
];

/// The number of places that a symbol may have.
const PLACES: u32 = 5;

/// `EM_X86_64` (gABI, "ELF Header", `e_machine`).
const X86_64: u32 = 62;

/// `EM_AARCH64`.
const AARCH64: u32 = 183;

/// The slot with that number.
pub(crate) fn slot_of(code: u32) -> Slot
    ensures { result ≡ slot_of code }
{
    SLOTS.get(code as usize).copied().unwrap_or(Slot::Discard)
}

/// The role of a file with that number.
pub(crate) fn file_role_of(code: u32) -> FileRole
    ensures { result ≡ file_role_of code }
{
    FILE_ROLES
        .get(code as usize)
        .copied()
        .unwrap_or(FileRole::Object)
}

/// All roles, each at its number.
#[tactic(auto, unfolding(crate::specs::Codes::roles))]
fn roles<'a>() -> &'a [Role]
    ensures { result.now ≡ roles }
{
    &ROLES
}

/// The role of a part with that number.
pub(crate) fn role_of(code: u32) -> Role
    ensures { result ≡ role_of code }
{
    roles().get(code as usize).copied().unwrap_or(Role::Raw)
}

/// The kind of output with that number.
pub(crate) fn kind_of(code: u32) -> OutputKind
    ensures { result ≡ kind_of code }
{
    KINDS.get(code as usize).copied().unwrap_or(KINDS[0])
}

/// The machine with that number.
pub(crate) fn machine_of(code: u32) -> Machine
    ensures { result ≡ machine_of code }
{
    if code == AARCH64 {
        Machine::AArch64
    } else {
        Machine::X86_64
    }
}

/// Whether there is a machine with that number.
pub(crate) fn is_machine(code: u32) -> bool
    ensures { result ≡ is_machine code }
{
    code == X86_64 || code == AARCH64
}

/// Whether there is a kind of output with that number.
pub(crate) fn is_kind(code: u32) -> bool
    ensures { result ≡ is_kind code }
{
    (code as usize) < KINDS.len()
}

/// The test that each number represents a choice.
pub struct KnownCodes;

impl Test<CPart> for KnownCodes {
    ghost test = { λ _. has_known_role };

    fn passes(&self, part: &CPart) -> bool {
        (part.role as usize) < ROLES.len()
    }
}

impl<'a> Test<CSymbol<'a>> for KnownCodes {
    ghost test = { λ _. has_known_place };

    fn passes(&self, symbol: &CSymbol<'a>) -> bool {
        symbol.place < PLACES
    }
}

impl<'a> Test<CInputSection<'a>> for KnownCodes {
    ghost test = { λ _. has_known_slot };

    fn passes(&self, section: &CInputSection<'a>) -> bool {
        (section.slot as usize) < SLOTS.len()
    }
}

impl<'a> Test<CFile<'a>> for KnownCodes {
    ghost test = { λ _. has_known_sections };

    fn passes(&self, file: &CFile<'a>) -> bool {
        (file.role as usize) < FILE_ROLES.len() && all_pass(self, file.sections)
    }
}

impl<'a> Test<CGroup<'a>> for KnownCodes {
    ghost test = { λ _. has_known_files };

    fn passes(&self, group: &CGroup<'a>) -> bool {
        all_pass(self, group.files)
    }
}
