//! The section headers (gABI, "Section Header").
ghost use Rattle.std.specs.Prelude.{◌≡◌, ◌+◌, ◌*◌, ◌^◌, ◌<◌, ◌≤◌, ◌==◌, if◌then◌else◌, length};
ghost use Rattle.wild_words.specs.Words.{place};
ghost use Rattle.wild_words.specs.Record.{spell};
ghost use Rattle.wild_records.specs.SectionHeader.{section_header_size, section_header_fields};
ghost use Rattle.wild_needs.specs.Needs.{name_bytes};
ghost use Rattle.wild_table_formats.specs.Headers.{name_table, computed_info, local_symbols, computed_infos, null_header, uncompressed_flags, info_at, section_type, section_header, section_header_bytes};

use crate::numbers::{need_count, or_none, section_of_role, size_of_role, zero_if_partial};
use wild_records::abi::section::{SHF_COMPRESSED, SHT_NOBITS, SHT_NULL};
use wild_records::{SectionHeader, SymtabEntry};
use wild_table_formats::ComputedInfo;
use wild_types::{Layout, Role, Section, SectionIndex};
use wild_words::put;

#[tactic(auto, unfolding(wild_table_formats::specs::Headers::null_header))]
fn null_header(layout: &Layout) -> SectionHeader
    requires { name_table layout.now < 2 ^ 32 }
    ensures { result ≡ null_header layout.now }
{
    SectionHeader {
        name: 0,
        kind: SHT_NULL,
        flags: 0,
        address: 0,
        offset: 0,
        size: or_none(layout.sections.len()) as u64,
        link: or_none(section_of_role(Role::Shstrtab, layout.parts.as_slice()).0) as u32,
        info: 0,
        align: 0,
        entry_size: 0,
    }
}

/// `sh_flags` with `SHF_COMPRESSED` cleared.
#[tactic(auto, unfolding(wild_types::specs::Lookups::bit))]
fn uncompressed_flags(flags: u64) -> u64
    ensures { result ≡ uncompressed_flags flags }
{
    if flags & SHF_COMPRESSED == SHF_COMPRESSED {
        flags - SHF_COMPRESSED
    } else {
        flags
    }
}

/// `sh_info` of the section that holds the part with this role: a number, modulo 2^32.
fn computed_info(layout: &Layout, role: Role, number: u64) -> ComputedInfo
    ensures { result ≡ computed_info layout.now role number }
{
    ComputedInfo {
        section: section_of_role(role, layout.parts.as_slice()),
        info: (number % 0x1_0000_0000) as u32,
    }
}

/// The number of local symbols in `.symtab`.
fn local_symbols(layout: &Layout) -> u64
    ensures { result ≡ local_symbols layout.now }
{
    size_of_role(Role::SymtabLocal, layout.parts.as_slice()) / SymtabEntry::SIZE as u64
}

/// Every computed `sh_info`: for `.dynsym` and `.symtab` the number of local symbols, which come first; for `.rela.plt`
/// the section of the GOT words; for `.gnu.version_d` and `.gnu.version_r` the number of their records.
#[tactic(auto, unfolding(wild_table_formats::specs::Headers::computed_infos))]
fn computed_infos(layout: &Layout) -> [ComputedInfo; 5]
    ensures { result ≡ computed_infos layout.now }
{
    let table = section_of_role(Role::Got, layout.parts.as_slice());
    [
        computed_info(layout, Role::Dynsym, 1),
        computed_info(layout, Role::RelaPlt, table.0 as u64),
        computed_info(layout, Role::SymtabLocal, local_symbols(layout)),
        computed_info(layout, Role::GnuVersionD, layout.verdefs.len() as u64),
        computed_info(layout, Role::GnuVersionR, need_count(layout) as u64),
    ]
}

/// `sh_info` of section i: the first computed value for it, otherwise the layout's.
fn info_at(infos: &[ComputedInfo], i: SectionIndex, given: u32) -> u32
    ensures { result ≡ info_at infos.now i given }
{
    for number in infos {
        if i == number.section {
            return number.info;
        }
    }
    given
}

/// `sh_type`: `SHT_NOBITS` for a section of which only the header is written, otherwise the layout's.
fn section_type(layout: &Layout, section: &Section) -> u32
    ensures { result ≡ section_type layout.now section.now }
{
    if layout.is_header_only(section) {
        SHT_NOBITS
    } else {
        section.kind
    }
}

/// The header of a section other than section 0. In a relocatable object `sh_addr` is 0.
#[tactic(auto, unfolding(wild_table_formats::specs::Headers::section_header))]
fn section_header(layout: &Layout, info: u32, name: u32, section: &Section) -> SectionHeader
    ensures { result ≡ section_header layout.now info name section.now }
{
    SectionHeader {
        name,
        kind: section_type(layout, section),
        flags: uncompressed_flags(section.flags),
        address: zero_if_partial(layout.kind, section.address),
        offset: section.offset,
        size: section.size,
        link: section.link,
        info,
        align: section.align,
        entry_size: section.entsize,
    }
}

/// The header of section i, whose name begins at offset `name` of `.shstrtab`.
fn header_of(
    layout: &Layout,
    infos: &[ComputedInfo],
    i: SectionIndex,
    name: u64,
    section: &Section,
) -> SectionHeader
    requires name { name < 2 ^ 32 }
    requires name_table { name_table layout.now < 2 ^ 32 }
    ensures { result ≡ (if i == 0 then null_header layout.now else section_header layout.now (info_at infos.now i section.now.info) name section.now) }
{
    if i.0 == 0 {
        null_header(layout)
    } else {
        section_header(
            layout,
            info_at(infos, i, section.info),
            name as u32,
            section,
        )
    }
}

fn put_section_header(
    layout: &Layout,
    infos: &[ComputedInfo],
    section: &Section,
    i: usize,
    name: u64,
    out: &mut [u8],
)
    requires room { section_header_size * i + section_header_size ≤ length out.old }
    requires infos { infos.now ≡ computed_infos layout.now }
    requires name { name < 2 ^ 32 }
    requires name_table { name_table layout.now < 2 ^ 32 }
    ensures { out.new ≡ place (section_header_size * i) (spell (section_header_fields (if i == 0 then null_header layout.now else section_header layout.now (info_at (computed_infos layout.now) i section.now.info) name section.now))) out.old }
{
    let mut header = [0; SectionHeader::SIZE];
    header_of(layout, infos, SectionIndex(i), name, section).put(&mut header);
    put(out, i * SectionHeader::SIZE, &header);
}

/// Writes the section header table. `out` has exactly its length.
pub fn write_section_headers(layout: &Layout, out: &mut [u8])
    requires room { length out.old ≡ section_header_size * length layout.now.sections }
    requires names { name_bytes layout.now < 2 ^ 32 }
    requires name_table { name_table layout.now < 2 ^ 32 }
    ensures { out.new ≡ section_header_bytes layout.now }
{
    let infos = computed_infos(layout);
    let mut name = 0;
    for (i, section) in layout.sections.as_slice().iter().enumerate() {
        put_section_header(layout, &infos, section, i, name, out);
        name += section.name.len() as u64 + 1;
    }
}
