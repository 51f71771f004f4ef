//! The numbers in the headers that are computed from the parts and the libraries of the layout.
ghost use Rattle.std.specs.Prelude.{◌≡◌, ◌%◌, ◌^◌};
ghost use Rattle.wild_table_formats.specs.Headers.{offset_of_role, section_of_role, size_of_role, number_or_escape, or_none, zero_if_partial};
ghost use Rattle.wild_types.specs.Parts.{has_role};
ghost use Rattle.wild_needs.specs.Versions.{has_needs, need_count};
ghost use Rattle.wild_types.specs.declared.part.Role.TheVariants.{SectionHeaders};

use wild_records::abi::section::{SHN_LORESERVE, SHN_UNDEF};
use wild_types::{File, Layout, OutputKind, Part, Role, SectionIndex, has_role};

/// `e_shnum` or `e_shstrndx`: the number, or the escape if the number is `SHN_LORESERVE` or more.
pub(crate) fn number_or_escape(n: usize, escape: u16) -> u16
    ensures { result ≡ number_or_escape n escape }
{
    if n < SHN_LORESERVE as usize {
        n as u16
    } else {
        escape
    }
}

/// The same number in section header 0: 0 if it is below `SHN_LORESERVE`.
pub(crate) fn or_none(n: usize) -> usize
    ensures { result ≡ or_none n }
{
    if n < SHN_LORESERVE as usize { 0 } else { n }
}

/// The value of a header field that is 0 in a relocatable object.
pub(crate) fn zero_if_partial(kind: OutputKind, n: u64) -> u64
    ensures { result ≡ zero_if_partial kind n }
{
    if kind.is_partial_link() { 0 } else { n }
}

fn has_section_headers(part: &Part) -> bool
    ensures { result ≡ has_role SectionHeaders part.now }
{
    matches!(part.role, Role::SectionHeaders)
}

/// `e_shoff`: the file offset of the section header table; 0 without one.
pub(crate) fn section_headers_offset(parts: &[Part]) -> u64
    ensures { result ≡ offset_of_role SectionHeaders parts.now }
{
    for part in parts {
        if has_section_headers(part) {
            return part.offset;
        }
    }
    0
}

/// The header index of the output section that holds the first part with this role; 0 without such a part.
pub(crate) fn section_of_role(role: Role, parts: &[Part]) -> SectionIndex
    ensures { result ≡ section_of_role role parts.now }
{
    for part in parts {
        if has_role(role, part) {
            return part.section;
        }
    }
    SectionIndex(SHN_UNDEF as usize)
}

/// The size of the first part with this role; 0 without such a part.
pub(crate) fn size_of_role(role: Role, parts: &[Part]) -> u64
    ensures { result ≡ size_of_role role parts.now }
{
    for part in parts {
        if has_role(role, part) {
            return part.size;
        }
    }
    0
}

/// Whether the output needs symbol versions of this file, which is then a shared library.
fn has_needs(file: &File) -> bool
    ensures { result ≡ has_needs file.now }
{
    file.role.is_library() && file.verneed.is_some()
}

/// The number of libraries of which the output needs versions, modulo 2^32.
pub(crate) fn need_count(layout: &Layout) -> u32
    ensures { result ≡ need_count layout.now % 2 ^ 32 }
{
    let mut count: u32 = 0;
    for group in layout.groups.as_slice() {
        for file in group.files.as_slice() {
            if has_needs(file) {
                count = count.wrapping_add(1);
            }
        }
    }
    count
}
