//! The parts of an image.
ghost use Rattle.std.specs.Prelude.{◌≡◌};
ghost use Rattle.std.specs.List.{list_any};
ghost use Rattle.wild_types.specs.Parts.{role_place, has_role, part_with};

use crate::index::SectionIndex;

/// The contents of a part.
#[derive(Clone, Copy, Debug, PartialEq, Eq)]
pub enum Role {
    /// Input sections.
    Raw,
    FileHeader,
    ProgramHeaders,
    SectionHeaders,
    /// The names of the sections.
    Shstrtab,
    Got,
    /// GOT words whose relative relocations are packed as RELR.
    GotRelr,
    PltGot,
    RelaPlt,
    RelaDynRelative,
    RelaDynGeneral,
    RelrDyn,
    Dynsym,
    Dynstr,
    GnuVersion,
    GnuVersionD,
    GnuVersionR,
    SysvHash,
    GnuHash,
    EhFrame,
    EhFrameHdr,
    Dynamic,
    SymtabLocal,
    SymtabGlobal,
    SymtabShndxLocal,
    SymtabShndxGlobal,
    Strtab,
    Interp,
    BuildId,
    Property,
}

/// A part of the image: a range of file bytes, of addresses or of both, which the groups fill consecutively.
#[derive(Clone, Copy)]
pub struct Part {
    pub role: Role,
    /// The header index of the section that contains it; 0 for a part outside all sections.
    pub section: SectionIndex,
    pub offset: u64,
    pub address: u64,
    pub size: u64,
    pub align: u64,
}

/// The index of the role in the list of roles.
pub fn place_of(role: Role) -> usize
    ensures { result ≡ role_place role }
{
    role as usize
}

/// Whether the part has that role.
pub fn has_role(role: Role, part: &Part) -> bool
    ensures { result ≡ has_role role part.now }
{
    place_of(part.role) == place_of(role)
}

/// The first part of a role.
pub fn part_with(role: Role, parts: &[Part]) -> Option<Part>
    ensures { result ≡ part_with role parts.now }
{
    for part in parts {
        if has_role(role, part) {
            return Some(*part);
        }
    }
    None
}

#[tactic(auto, using(crate::proofs::PartLemmas::there_by_part))]
pub fn is_there(role: Role, parts: &[Part]) -> bool
    ensures { result ≡ list_any (has_role role) parts.now }
{
    part_with(role, parts).is_some()
}
