//! The whole of a made plan.
ghost use Rattle.std.specs.Prelude.{◌≡◌, ◌≤◌, true, [], ◌∷◌, map, IfOk};
ghost use Rattle.wild_types.specs.Defaults.{no_options};
ghost use Rattle.wild_types.specs.declared.kind.Machine.TheVariants as machine;
ghost use Rattle.std.specs.List.{range_with_len};
ghost use Rattle.wild_sample_layouts.specs.PlanOfGroups.{made_parts, made_sections, made_segment, made_symbol, made_group, section_with, part_with, plan_of_groups};

use crate::group::{group, symbol};
use std::alloc::{AllocError, Global};
use wild_records::abi::section::{SHT_NULL, SHT_PROGBITS, SHT_STRTAB};
use wild_records::abi::segment::PT_LOAD;
use wild_types::{
    Entry, Group, Layout, Machine, Options, OutputKind, Part, RelocationModel, Role, Section,
    SectionIndex, Segment, Symbol,
};
use wild_words::{Bytes, Items};

/// The header index of a part that is in no section.
const NO_SECTION: SectionIndex = SectionIndex(0);

fn part(role: Role, section: SectionIndex, offset: u64, address: u64, size: u64, align: u64) -> Part
    ensures { result ≡ part_with role section offset address size align }
{
    Part {
        role,
        section,
        offset,
        address,
        size,
        align,
    }
}

fn parts(alloc: Global, groups: u32) -> Result<Items<Part>, AllocError>
    requires { groups ≤ 65536 }
    ensures { IfOk result (λ v. v ≡ made_parts groups) }
{
    let size = 64 * u64::from(groups);
    let all = vec![in alloc;
        part(Role::FileHeader, NO_SECTION, 0, 4194304, 64, 8),
        part(Role::ProgramHeaders, NO_SECTION, 64, 4194368, 56, 8),
        part(Role::Raw, SectionIndex(1), 128, 4194432, size, 16),
        part(Role::Shstrtab, SectionIndex(2), 128 + size, 0, 17, 1),
        part(Role::SectionHeaders, NO_SECTION, 152 + size, 0, 192, 8),
    ]?;
    Ok(Items::from_vec(all))
}

fn section(
    alloc: Global,
    name: &[u8],
    kind: u32,
    flags: u64,
    address: u64,
    offset: u64,
    size: u64,
    align: u64,
) -> Result<Section, AllocError>
    ensures { IfOk result (λ s. s ≡ section_with name.now kind flags address offset size align) }
{
    Ok(Section {
        name: Bytes::from_vec(Vec::from_slice(alloc, name)?),
        kind,
        flags,
        address,
        offset,
        size,
        link: 0,
        info: 0,
        align,
        entsize: 0,
        fill: None,
        section_symbol: false,
    })
}

fn sections(alloc: Global, groups: u32) -> Result<Items<Section>, AllocError>
    requires { groups ≤ 65536 }
    ensures { IfOk result (λ v. v ≡ made_sections groups) }
{
    let size = 64 * u64::from(groups);
    let mut all = Items::new(alloc);
    all.push(section(alloc, b"", SHT_NULL, 0, 0, 0, 0, 0)?)?;
    all.push(section(alloc, b".text", SHT_PROGBITS, 6, 4194432, 128, size, 16)?)?;
    all.push(section(alloc, b".shstrtab", SHT_STRTAB, 0, 0, 128 + size, 17, 1)?)?;
    Ok(all)
}

fn segments(alloc: Global, groups: u32) -> Result<Items<Segment>, AllocError>
    requires { groups ≤ 65536 }
    ensures { IfOk result (λ v. v ≡ made_segment groups ∷ []) }
{
    let size = 128 + 64 * u64::from(groups);
    let all = vec![in alloc;
        Segment {
            kind: PT_LOAD,
            flags: 5,
            offset: 0,
            address: 4194304,
            physical: 4194304,
            file_size: size,
            mem_size: size,
            align: 4096,
        },
    ]?;
    Ok(Items::from_vec(all))
}

fn symbols(alloc: Global, groups: u32) -> Result<Items<Symbol>, AllocError>
    requires { groups ≤ 65536 }
    ensures { IfOk result (λ v. v ≡ map made_symbol (range_with_len 0 groups)) }
{
    let mut all = Vec::with_capacity(alloc, groups as usize)?;
    for i in 0..groups {
        all.push(symbol(alloc, i))?;
    }
    Ok(Items::from_vec(all))
}

fn groups(alloc: Global, count: u32) -> Result<Items<Group>, AllocError>
    requires { count ≤ 65536 }
    ensures { IfOk result (λ v. v ≡ map (made_group count) (range_with_len 0 count)) }
{
    let mut all = Vec::with_capacity(alloc, count as usize)?;
    for i in 0..count {
        all.push(group(alloc, count, i)?)?;
    }
    Ok(Items::from_vec(all))
}

/// The options of a made plan.
fn options(alloc: Global) -> Options
    ensures { result ≡ record no_options { relax = true; strip_all = true } }
{
    Options {
        relax: true,
        strip_all: true,
        ..Options::none(alloc)
    }
}

/// A layout of `count` groups, whose code calls that of other groups.
#[tactic(auto, unfolding(crate::specs::PlanOfGroups::plan_of_groups))]
pub fn make_plan(alloc: Global, count: u32) -> Result<Layout, AllocError>
    requires { (1 ≤ count) × (count ≤ 65536) }
    ensures layout { IfOk result (λ l. l ≡ plan_of_groups count) }
    ensures machine { IfOk result (λ l. l.machine ≡ machine.X86_64) }
{
    Ok(Layout {
        machine: Machine::X86_64,
        kind: OutputKind::StaticExecutable(RelocationModel::NonRelocatable),
        options: options(alloc),
        page_size: 4096,
        parts: parts(alloc, count)?,
        sections: sections(alloc, count)?,
        segments: segments(alloc, count)?,
        symbols: symbols(alloc, count)?,
        groups: groups(alloc, count)?,
        entry: Some(Entry::Address(4194432)),
        ..Layout::empty(alloc)
    })
}
