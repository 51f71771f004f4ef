//! The entries of the dynamic section that the last file writes (gABI, "Dynamic Section").
ghost use Rattle.std.specs.Prelude.{◌≡◌, ◌<◌, length, option_map, All};
ghost use Rattle.wild_records.specs.Dynamic.{DynamicEntryFits};
ghost use Rattle.wild_needs.specs.Dynamic.{dynamic_number, only, flag, dynamic_flags, dynamic_flags_1, dynamic_entry, all_tags, TagFits, tag_entries, dynamic_entries, dynamic_count};
ghost use Rattle.wild_needs.specs.DynamicPlaces.{section_named, section_address, section_size, part_address, part_size, if_present, filled_part, first_entries, bytes_of, entries_bytes, relative_count, bti_stubs};

use crate::strings::{string_count, string_start};
use crate::versions::need_count;
use wild_records::abi::dynamic::{
    DF_1_INTERPOSE, DF_1_NODELETE, DF_1_NOW, DF_1_ORIGIN, DF_1_PIE, DF_BIND_NOW, DF_ORIGIN,
    DF_STATIC_TLS, DF_TEXTREL, DT_AARCH64_BTI_PLT, DT_AARCH64_VARIANT_PCS, DT_DEBUG, DT_FINI,
    DT_FINI_ARRAY, DT_FINI_ARRAYSZ, DT_FLAGS, DT_FLAGS_1, DT_GNU_HASH, DT_HASH, DT_INIT,
    DT_INIT_ARRAY, DT_INIT_ARRAYSZ, DT_JMPREL, DT_NULL, DT_PLTGOT, DT_PLTREL, DT_PLTRELSZ,
    DT_PREINIT_ARRAY, DT_PREINIT_ARRAYSZ, DT_RELA, DT_RELACOUNT, DT_RELAENT, DT_RELASZ, DT_RELR,
    DT_RELRENT, DT_RELRSZ, DT_STRSZ, DT_STRTAB, DT_SYMENT, DT_SYMTAB, DT_TEXTREL, DT_VERDEF,
    DT_VERDEFNUM, DT_VERNEED, DT_VERNEEDNUM, DT_VERSYM,
};
use wild_records::{Rela, Relr, SymtabEntry};
use wild_types::{Layout, Machine, Options, OutputKind, Part, Role, Section, part_with};

/// An entry of the last file other than those for strings, in the order in which they are written.
#[derive(Clone, Copy)]
pub enum DynamicTag {
    /// The address of `.init`.
    Init,
    /// The address of `.fini`.
    Fini,
    InitArray,
    InitArraySize,
    FiniArray,
    FiniArraySize,
    PreinitArray,
    PreinitArraySize,
    StringTable,
    StringSize,
    SymbolTable,
    /// The size of a symbol in bytes: `DT_SYMENT`.
    SymbolSize,
    /// The address of the global offset table, if stubs have entries.
    PltGot,
    /// The size of the entries of stubs, in bytes.
    PltRelSize,
    /// That these entries have addends: `DT_RELA`.
    PltRel,
    JmpRel,
    Rela,
    RelaSize,
    /// The size of one entry with an addend, in bytes.
    RelaEntry,
    /// The number of relative entries.
    RelaCount,
    Relr,
    RelrSize,
    /// The size of one RELR word, in bytes.
    RelrEntry,
    SysvHash,
    GnuHash,
    /// The versions of the dynamic symbols.
    SymbolVersions,
    VersionDefinitions,
    VersionDefinitionCount,
    VersionNeeds,
    /// The number of libraries from which versions are needed.
    VersionNeedCount,
    /// A word for debuggers.
    Debug,
    Textrel,
    Flags,
    Flags1,
    /// Stubs begin with a landing pad for indirect branches (AArch64).
    BtiPlt,
    /// Some function has a variant calling convention (AArch64).
    VariantPcs,
    /// The end of the entries.
    Null,
}

impl DynamicTag {
    /// All entries, in their order.
    #[tactic(auto, unfolding(crate::specs::Dynamic::all_tags))]
    pub fn all() -> [DynamicTag; 37]
        ensures { result ≡ all_tags }
    {
        [
            DynamicTag::Init,
            DynamicTag::Fini,
            DynamicTag::InitArray,
            DynamicTag::InitArraySize,
            DynamicTag::FiniArray,
            DynamicTag::FiniArraySize,
            DynamicTag::PreinitArray,
            DynamicTag::PreinitArraySize,
            DynamicTag::StringTable,
            DynamicTag::StringSize,
            DynamicTag::SymbolTable,
            DynamicTag::SymbolSize,
            DynamicTag::PltGot,
            DynamicTag::PltRelSize,
            DynamicTag::PltRel,
            DynamicTag::JmpRel,
            DynamicTag::Rela,
            DynamicTag::RelaSize,
            DynamicTag::RelaEntry,
            DynamicTag::RelaCount,
            DynamicTag::Relr,
            DynamicTag::RelrSize,
            DynamicTag::RelrEntry,
            DynamicTag::SysvHash,
            DynamicTag::GnuHash,
            DynamicTag::SymbolVersions,
            DynamicTag::VersionDefinitions,
            DynamicTag::VersionDefinitionCount,
            DynamicTag::VersionNeeds,
            DynamicTag::VersionNeedCount,
            DynamicTag::Debug,
            DynamicTag::Textrel,
            DynamicTag::Flags,
            DynamicTag::Flags1,
            DynamicTag::BtiPlt,
            DynamicTag::VariantPcs,
            DynamicTag::Null,
        ]
    }

    /// The number of the entry (`d_tag`).
    #[tactic(auto, unfolding(crate::specs::Dynamic::dynamic_number))]
    pub fn number(self) -> u64
        ensures { result ≡ dynamic_number self }
    {
        match self {
            DynamicTag::Init => DT_INIT,
            DynamicTag::Fini => DT_FINI,
            DynamicTag::InitArray => DT_INIT_ARRAY,
            DynamicTag::InitArraySize => DT_INIT_ARRAYSZ,
            DynamicTag::FiniArray => DT_FINI_ARRAY,
            DynamicTag::FiniArraySize => DT_FINI_ARRAYSZ,
            DynamicTag::PreinitArray => DT_PREINIT_ARRAY,
            DynamicTag::PreinitArraySize => DT_PREINIT_ARRAYSZ,
            DynamicTag::StringTable => DT_STRTAB,
            DynamicTag::StringSize => DT_STRSZ,
            DynamicTag::SymbolTable => DT_SYMTAB,
            DynamicTag::SymbolSize => DT_SYMENT,
            DynamicTag::PltGot => DT_PLTGOT,
            DynamicTag::PltRelSize => DT_PLTRELSZ,
            DynamicTag::PltRel => DT_PLTREL,
            DynamicTag::JmpRel => DT_JMPREL,
            DynamicTag::Rela => DT_RELA,
            DynamicTag::RelaSize => DT_RELASZ,
            DynamicTag::RelaEntry => DT_RELAENT,
            DynamicTag::RelaCount => DT_RELACOUNT,
            DynamicTag::Relr => DT_RELR,
            DynamicTag::RelrSize => DT_RELRSZ,
            DynamicTag::RelrEntry => DT_RELRENT,
            DynamicTag::SysvHash => DT_HASH,
            DynamicTag::GnuHash => DT_GNU_HASH,
            DynamicTag::SymbolVersions => DT_VERSYM,
            DynamicTag::VersionDefinitions => DT_VERDEF,
            DynamicTag::VersionDefinitionCount => DT_VERDEFNUM,
            DynamicTag::VersionNeeds => DT_VERNEED,
            DynamicTag::VersionNeedCount => DT_VERNEEDNUM,
            DynamicTag::Debug => DT_DEBUG,
            DynamicTag::Textrel => DT_TEXTREL,
            DynamicTag::Flags => DT_FLAGS,
            DynamicTag::Flags1 => DT_FLAGS_1,
            DynamicTag::BtiPlt => DT_AARCH64_BTI_PLT,
            DynamicTag::VariantPcs => DT_AARCH64_VARIANT_PCS,
            DynamicTag::Null => DT_NULL,
        }
    }
}

/// The address and the size of a range in memory.
#[derive(Clone, Copy)]
struct Run {
    address: u64,
    size: u64,
}

/// The address and the size of the first section with that name that has bytes in the file.
#[tactic(auto, unfolding(crate::specs::DynamicPlaces::section_named))]
fn section_named(layout: &Layout, name: &[u8]) -> Option<Run>
    ensures address { option_map (λ r. r.address) result ≡ section_address layout.now name.now }
    ensures size { option_map (λ r. r.size) result ≡ section_size layout.now name.now }
{
    for section in layout.sections.as_slice() {
        let has_bytes = !section.is_without_data() && section.size != 0;
        if section.name.as_slice() == name && has_bytes {
            return Some(Run {
                address: section.address,
                size: section.size,
            });
        }
    }
    None
}

fn section_address(layout: &Layout, name: &[u8]) -> Option<u64>
    ensures { result ≡ section_address layout.now name.now }
{
    Some(section_named(layout, name)?.address)
}

fn section_size(layout: &Layout, name: &[u8]) -> Option<u64>
    ensures { result ≡ section_size layout.now name.now }
{
    Some(section_named(layout, name)?.size)
}

fn part_address(part: Option<Part>) -> Option<u64>
    ensures { result ≡ part_address part }
{
    Some(part?.address)
}

fn part_size(part: Option<Part>) -> Option<u64>
    ensures { result ≡ part_size part }
{
    Some(part?.size)
}

/// The number, if the part exists.
fn if_present(number: u64, part: Option<Part>) -> Option<u64>
    ensures { result ≡ if_present number part }
{
    part.and(Some(number))
}

/// The part of a role, if it is not empty.
fn filled_part(layout: &Layout, role: Role) -> Option<Part>
    ensures { result ≡ filled_part layout.now role }
{
    match part_with(role, layout.parts.as_slice()) {
        Some(part) if part.size != 0 => Some(part),
        _ => None,
    }
}

/// The part at whose start the entries with addends begin.
#[tactic(auto, unfolding(crate::specs::DynamicPlaces::first_entries))]
fn first_entries(layout: &Layout) -> Option<Part>
    ensures { result ≡ first_entries layout.now }
{
    filled_part(layout, Role::RelaDynRelative).or(filled_part(layout, Role::RelaDynGeneral))
}

fn bytes_of(part: Option<Part>) -> u64
    ensures { result ≡ bytes_of part }
{
    match part {
        Some(part) => part.size,
        None => 0,
    }
}

/// The size of all entries with addends in bytes, at most 2^64 - 1.
#[tactic(auto, unfolding(crate::specs::DynamicPlaces::entries_bytes))]
fn entries_bytes(layout: &Layout) -> u64
    ensures { result ≡ entries_bytes layout.now }
{
    let relative = bytes_of(part_with(Role::RelaDynRelative, layout.parts.as_slice()));
    let general = bytes_of(part_with(Role::RelaDynGeneral, layout.parts.as_slice()));
    relative.saturating_add(general)
}

/// The number of relative entries; none if there are none.
fn relative_count(layout: &Layout) -> Option<u64>
    ensures { result ≡ relative_count layout.now }
{
    Some(filled_part(layout, Role::RelaDynRelative)?.size / Rela::SIZE as u64)
}

/// The part of AArch64's stubs, if they begin with a landing pad and there are any.
fn bti_stubs(layout: &Layout) -> Option<Part>
    ensures { result ≡ bti_stubs layout.now layout.now.machine }
{
    match layout.machine {
        Machine::AArch64 if layout.options.bti => filled_part(layout, Role::PltGot),
        _ => None,
    }
}

fn only(ok: bool, value: u64) -> Option<u64>
    ensures { result ≡ only ok value }
{
    if ok { Some(value) } else { None }
}

fn flag(ok: bool, bit: u64) -> u64
    ensures { result ≡ flag ok bit }
{
    if ok { bit } else { 0 }
}

/// The flags of `DT_FLAGS`.
#[tactic(auto, unfolding(crate::specs::Dynamic::dynamic_flags))]
fn dynamic_flags(kind: OutputKind, options: &Options) -> u64
    ensures { result ≡ dynamic_flags kind options.now }
{
    let static_tls = !kind.is_executable() && options.static_tls;
    DF_BIND_NOW
        | flag(static_tls, DF_STATIC_TLS)
        | flag(options.textrel, DF_TEXTREL)
        | flag(options.origin, DF_ORIGIN)
}

/// The flags of `DT_FLAGS_1`.
#[tactic(auto, unfolding(crate::specs::Dynamic::dynamic_flags_1))]
fn dynamic_flags_1(kind: OutputKind, options: &Options) -> u64
    ensures { result ≡ dynamic_flags_1 kind options.now }
{
    let movable = kind.is_executable() && kind.is_position_independent();
    let shared = kind.is_shared_object();
    DF_1_NOW
        | flag(movable, DF_1_PIE)
        | flag(options.origin, DF_1_ORIGIN)
        | flag(shared && options.nodelete, DF_1_NODELETE)
        | flag(shared && options.interpose, DF_1_INTERPOSE)
}

/// The value of an entry; none if it is left out.
#[tactic(auto, unfolding(crate::specs::Dynamic::dynamic_entry))]
pub fn dynamic_entry(layout: &Layout, tag: DynamicTag) -> Option<u64>
    ensures { result ≡ dynamic_entry layout.now tag }
{
    match tag {
        DynamicTag::Init => section_address(layout, b".init"),
        DynamicTag::Fini => section_address(layout, b".fini"),
        DynamicTag::InitArray => section_address(layout, b".init_array"),
        DynamicTag::InitArraySize => section_size(layout, b".init_array"),
        DynamicTag::FiniArray => section_address(layout, b".fini_array"),
        DynamicTag::FiniArraySize => section_size(layout, b".fini_array"),
        DynamicTag::PreinitArray => section_address(layout, b".preinit_array"),
        DynamicTag::PreinitArraySize => section_size(layout, b".preinit_array"),
        DynamicTag::StringTable => part_address(part_with(Role::Dynstr, layout.parts.as_slice())),
        DynamicTag::StringSize => part_size(part_with(Role::Dynstr, layout.parts.as_slice())),
        DynamicTag::SymbolTable => part_address(part_with(Role::Dynsym, layout.parts.as_slice())),
        DynamicTag::SymbolSize => {
            if_present(
                SymtabEntry::SIZE as u64,
                part_with(Role::Dynsym, layout.parts.as_slice()),
            )
        }
        DynamicTag::PltGot => if_present(layout.got_base, filled_part(layout, Role::RelaPlt)),
        DynamicTag::PltRelSize => part_size(filled_part(layout, Role::RelaPlt)),
        DynamicTag::PltRel => if_present(DT_RELA, filled_part(layout, Role::RelaPlt)),
        DynamicTag::JmpRel => part_address(filled_part(layout, Role::RelaPlt)),
        DynamicTag::Rela => part_address(first_entries(layout)),
        DynamicTag::RelaSize => if_present(entries_bytes(layout), first_entries(layout)),
        DynamicTag::RelaEntry => if_present(Rela::SIZE as u64, first_entries(layout)),
        DynamicTag::RelaCount => relative_count(layout),
        DynamicTag::Relr => part_address(part_with(Role::RelrDyn, layout.parts.as_slice())),
        DynamicTag::RelrSize => part_size(part_with(Role::RelrDyn, layout.parts.as_slice())),
        DynamicTag::RelrEntry => if_present(
            Relr::SIZE as u64,
            part_with(Role::RelrDyn, layout.parts.as_slice()),
        ),
        DynamicTag::SysvHash => part_address(filled_part(layout, Role::SysvHash)),
        DynamicTag::GnuHash => part_address(filled_part(layout, Role::GnuHash)),
        DynamicTag::SymbolVersions => {
            part_address(part_with(Role::GnuVersion, layout.parts.as_slice()))
        }
        DynamicTag::VersionDefinitions => {
            part_address(part_with(Role::GnuVersionD, layout.parts.as_slice()))
        }
        DynamicTag::VersionDefinitionCount => if_present(
            layout.verdefs.len() as u64,
            part_with(Role::GnuVersionD, layout.parts.as_slice()),
        ),
        DynamicTag::VersionNeeds => {
            part_address(part_with(Role::GnuVersionR, layout.parts.as_slice()))
        }
        DynamicTag::VersionNeedCount => if_present(
            need_count(layout),
            part_with(Role::GnuVersionR, layout.parts.as_slice()),
        ),
        DynamicTag::Debug => only(layout.kind.is_executable(), 0),
        DynamicTag::Textrel => only(layout.options.textrel, 0),
        DynamicTag::Flags => Some(dynamic_flags(layout.kind, &layout.options)),
        DynamicTag::Flags1 => Some(dynamic_flags_1(layout.kind, &layout.options)),
        DynamicTag::BtiPlt => if_present(0, bti_stubs(layout)),
        DynamicTag::VariantPcs => only(layout.options.variant_pcs, 0),
        DynamicTag::Null => Some(0),
    }
}

/// The number of entries other than those for strings.
#[tactic(auto, unfolding(crate::specs::Dynamic::tag_entries, crate::specs::Dynamic::all_tags), using(crate::proofs::DynamicLemmas::length_entry))]
fn tag_count(layout: &Layout) -> usize
    ensures count { result ≡ length (tag_entries layout.now) }
    ensures few { result < 38 }
{
    if !layout.kind.needs_dynamic() {
        return 0;
    }
    let mut count = 0;
    for tag in DynamicTag::all() {
        if dynamic_entry(layout, tag).is_some() {
            count += 1;
        }
    }
    count
}

/// The number of entries of the last file; 0 if the output has no entries for dynamic linking.
#[tactic(auto, using(crate::proofs::DynamicLemmas::length_dynamic_entries))]
pub fn dynamic_count(layout: &Layout) -> usize
    ensures { result ≡ dynamic_count layout.now }
{
    string_count(layout) + tag_count(layout)
}

/// The fields of a tag's entry are in their ranges.
#[tactic(auto, using(crate::proofs::DynamicLemmas::entry_fits))]
fn entry_fits(layout: &Layout, tag: DynamicTag)
    ensures { TagFits layout.now tag }
{
    let _number = tag.number();
    let _value = dynamic_entry(layout, tag);
}

/// The fields of each entry other than those for strings are in their ranges.
fn tags_fit(layout: &Layout)
    ensures { All (TagFits layout.now) all_tags }
{
    for tag in DynamicTag::all() {
        entry_fits(layout, tag);
    }
}

/// The fields of each entry are in their ranges.
#[tactic(auto, using(crate::proofs::DynamicLemmas::all_fit, crate::proofs::DynamicLemmas::no_tags_fit, crate::proofs::DynamicLemmas::tags_fit))]
pub fn dynamic_entries_fit(layout: &Layout)
    ensures { All DynamicEntryFits (dynamic_entries layout.now) }
{
    let _start = string_start(layout);
    if layout.kind.needs_dynamic() {
        tags_fit(layout);
    }
}
