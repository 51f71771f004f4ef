//! One group of a made plan.
ghost use Rattle.std.specs.Prelude.{◌≡◌, ◌<◌, [], ◌∷◌, map, IfOk};
ghost use Rattle.std.specs.List.{range_with_len};
ghost use Rattle.wild_types.specs.declared.file.FileRole.TheVariants as file_role;
ghost use Rattle.wild_sample_layouts.specs.PlanOfGroups.{made_symbol, made_relocation, made_section, file_with, plain_file, made_object, made_files, made_sizes, made_group, code};

use std::alloc::{AllocError, Global};
use wild_records::abi::relocation::R_X86_64_PC32;
use wild_records::abi::symbol::STT_FUNC;
use wild_types::{
    File, FileRole, Group, InputRelocation, InputSection, Place, Resolution, Slot, Symbol,
    SymbolIndex, ValueFlags,
};
use wild_words::{Bytes, Items};

/// The address of the first group's code.
const START: u64 = 4194432;

/// The size of a group's code.
const CODE_SIZE: u64 = 64;

/// `SHF_ALLOC` and `SHF_EXECINSTR`.
const TEXT_FLAGS: u64 = 6;

/// Eight calls, each with three `nop`s after it.
#[rattlefmt::skip]
const CODE: [u8; 64] = [
    0xe8, 0, 0, 0, 0, 0x90, 0x90, 0x90, 0xe8, 0, 0, 0, 0, 0x90, 0x90, 0x90,
    0xe8, 0, 0, 0, 0, 0x90, 0x90, 0x90, 0xe8, 0, 0, 0, 0, 0x90, 0x90, 0x90,
    0xe8, 0, 0, 0, 0, 0x90, 0x90, 0x90, 0xe8, 0, 0, 0, 0, 0x90, 0x90, 0x90,
    0xe8, 0, 0, 0, 0, 0x90, 0x90, 0x90, 0xe8, 0, 0, 0, 0, 0x90, 0x90, 0x90,
];

/// The symbol of a group.
pub(crate) fn symbol(alloc: Global, index: u32) -> Symbol
    requires { index < 65536 }
    ensures { result ≡ made_symbol index }
{
    Symbol {
        name: Bytes::new(alloc),
        definition: None,
        info: STT_FUNC,
        other: 0,
        size: 0,
        value: 0,
        place: Place::Section(0),
        flags: ValueFlags::NON_INTERPOSABLE,
        version: 0,
        emit: false,
        resolution: Some(Resolution {
            raw_value: START + CODE_SIZE * u64::from(index),
            flags: ValueFlags::NON_INTERPOSABLE,
            dynamic_symbol_index: None,
            got_address: None,
            plt_address: None,
        }),
    }
}

/// The relocation of a call of a group.
fn relocation(groups: u32, group: u32, call: u32) -> InputRelocation
    requires { (0 < groups) × (group < 65536) × (call < 8) }
    ensures { result ≡ made_relocation groups group call }
{
    InputRelocation {
        offset: 8 * u64::from(call) + 1,
        number: R_X86_64_PC32,
        symbol: Some(SymbolIndex(((5 * (8 * group + call) + 3) % groups) as usize)),
        addend: -4,
        malformed: false,
    }
}

#[inline(always)]
fn relocations(alloc: Global, groups: u32, group: u32) -> Result<Items<InputRelocation>, AllocError>
    requires { (0 < groups) × (group < 65536) }
    ensures { IfOk result (λ v. v ≡ map (made_relocation groups group) (range_with_len 0 8)) }
{
    let all = vec![in alloc;
        relocation(groups, group, 0),
        relocation(groups, group, 1),
        relocation(groups, group, 2),
        relocation(groups, group, 3),
        relocation(groups, group, 4),
        relocation(groups, group, 5),
        relocation(groups, group, 6),
        relocation(groups, group, 7),
    ]?;
    Ok(Items::from_vec(all))
}

/// The eight calls of a group.
#[inline(always)]
fn code(alloc: Global) -> Result<Bytes, AllocError>
    ensures { IfOk result (λ v. v ≡ code) }
{
    Ok(Bytes::from_vec(Vec::from_slice(alloc, &CODE)?))
}

/// The code of a group, with these bytes and relocations.
#[inline(always)]
#[tactic(auto, unfolding(crate::specs::PlanOfGroups::made_section))]
fn section(
    alloc: Global,
    groups: u32,
    group: u32,
    bytes: Bytes,
    relocations: Items<InputRelocation>,
) -> InputSection
    requires range { (0 < groups) × (group < 65536) }
    requires bytes { bytes ≡ code }
    requires relocations { relocations ≡ map (made_relocation groups group) (range_with_len 0 8) }
    ensures { result ≡ made_section groups group }
{
    InputSection {
        slot: Slot::Loaded,
        name: Bytes::new(alloc),
        part: 2,
        address: START + CODE_SIZE * u64::from(group),
        size: CODE_SIZE,
        flags: TEXT_FLAGS,
        nobits: false,
        reversed: false,
        singleton: None,
        target: 0,
        members: Items::new(alloc),
        bytes,
        strings: Items::new(alloc),
        relocations,
    }
}

/// A file with these symbols and sections.
#[inline(always)]
fn file(
    role: FileRole,
    first: u32,
    count: usize,
    sections: Items<InputSection>,
    alloc: Global,
) -> File
    ensures { result ≡ file_with role first count sections }
{
    File {
        role,
        first_symbol: SymbolIndex(first as usize),
        symbol_count: count,
        sections,
        thunk_block: 0,
        owns_thunk_block: false,
        lib_name: Bytes::new(alloc),
        copies: Items::new(alloc),
        verneed: None,
    }
}

#[inline(always)]
fn sections(alloc: Global, groups: u32, group: u32) -> Result<Items<InputSection>, AllocError>
    requires { (0 < groups) × (group < 65536) }
    ensures { IfOk result (λ v. v ≡ made_section groups group ∷ []) }
{
    let bytes = code(alloc)?;
    let relocations = relocations(alloc, groups, group)?;
    let all = vec![in alloc; section(alloc, groups, group, bytes, relocations)]?;
    Ok(Items::from_vec(all))
}

/// A file without symbols and sections.
fn plain_file(alloc: Global, role: FileRole) -> File
    ensures { result ≡ plain_file role }
{
    file(role, 0, 0, Items::new(alloc), alloc)
}

/// The files of the first or of the last group, with this object.
#[inline(never)]
fn files_at_an_end(
    alloc: Global,
    groups: u32,
    group: u32,
    object: File,
) -> Result<Items<File>, AllocError>
    requires range { (0 < groups) × (group < 65536) }
    requires object { object ≡ made_object groups group }
    ensures { IfOk result (λ v. v ≡ made_files groups group) }
{
    let mut all = Items::new(alloc);
    if group == 0 {
        all.push(plain_file(alloc, FileRole::Prelude))?;
    }
    all.push(object)?;
    if group + 1 == groups {
        all.push(plain_file(alloc, FileRole::Epilogue))?;
    }
    Ok(all)
}

#[inline(always)]
fn files(alloc: Global, groups: u32, group: u32) -> Result<Items<File>, AllocError>
    requires { (0 < groups) × (group < 65536) }
    ensures { IfOk result (λ v. v ≡ made_files groups group) }
{
    let sections = sections(alloc, groups, group)?;
    let object = file(FileRole::Object, group, 1, sections, alloc);
    if group == 0 || group + 1 == groups {
        return files_at_an_end(alloc, groups, group, object);
    }
    Ok(Items::from_vec(vec![in alloc; object]?))
}

fn sizes(alloc: Global, group: u32) -> Result<Items<u64>, AllocError>
    ensures { IfOk result (λ v. v ≡ made_sizes group) }
{
    let sizes = if group == 0 {
        vec![in alloc; 64, 56, 64, 17, 192]?
    } else {
        vec![in alloc; 0, 0, 64, 0, 0]?
    };
    Ok(Items::from_vec(sizes))
}

/// A group of a made plan.
#[inline(always)]
pub(crate) fn group(alloc: Global, groups: u32, group: u32) -> Result<Group, AllocError>
    requires { (0 < groups) × (group < 65536) }
    ensures { IfOk result (λ g. g ≡ made_group groups group) }
{
    Ok(Group {
        files: files(alloc, groups, group)?,
        part_sizes: sizes(alloc, group)?,
        dynstr_start: 0,
        strtab_start: 0,
        eh_frame_start: 0,
        symtab_local_start: 0,
        symtab_global_start: 0,
    })
}
