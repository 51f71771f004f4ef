//! How roles, flags and names are written.

use crate::text::Text;
use wild_reloc::{aarch64, x86_64};
use wild_types::{Layout, Machine, Resolution, Role, place_of};

/// The roles with their words in plans, in the order of `Role`.
const ROLES: [(&str, Role); 30] = [
    ("raw", Role::Raw),
    ("file_header", Role::FileHeader),
    ("program_headers", Role::ProgramHeaders),
    ("section_headers", Role::SectionHeaders),
    ("shstrtab", Role::Shstrtab),
    ("got", Role::Got),
    ("got_relr", Role::GotRelr),
    ("plt_got", Role::PltGot),
    ("rela_plt", Role::RelaPlt),
    ("rela_dyn_relative", Role::RelaDynRelative),
    ("rela_dyn_general", Role::RelaDynGeneral),
    ("relr_dyn", Role::RelrDyn),
    ("dynsym", Role::Dynsym),
    ("dynstr", Role::Dynstr),
    ("gnu_version", Role::GnuVersion),
    ("gnu_version_d", Role::GnuVersionD),
    ("gnu_version_r", Role::GnuVersionR),
    ("sysv_hash", Role::SysvHash),
    ("gnu_hash", Role::GnuHash),
    ("eh_frame", Role::EhFrame),
    ("eh_frame_hdr", Role::EhFrameHdr),
    ("dynamic", Role::Dynamic),
    ("symtab_local", Role::SymtabLocal),
    ("symtab_global", Role::SymtabGlobal),
    ("symtab_shndx_local", Role::SymtabShndxLocal),
    ("symtab_shndx_global", Role::SymtabShndxGlobal),
    ("strtab", Role::Strtab),
    ("interp", Role::Interp),
    ("build_id", Role::BuildId),
    ("property", Role::Property),
];

/// The role of that number, with its word.
pub(crate) fn role_at(place: usize) -> Option<(&'static str, Role)> {
    ROLES.get(place).copied()
}

/// The word of a role.
pub(crate) fn role_word(role: Role) -> &'static str {
    match role_at(place_of(role)) {
        Some((word, _)) => word,
        None => "unknown",
    }
}

/// The word of the role of a part.
pub fn part_word(layout: &Layout, part: usize) -> &'static str {
    match layout.parts.as_slice().get(part) {
        Some(part) => role_word(part.role),
        None => "no part",
    }
}

/// Adds a name: as it is if it is UTF-8 without ASCII control characters, else in hex.
pub(crate) fn push_name(out: &mut Text, name: &[u8]) {
    if name.is_empty() {
        out.push_str("(no name)");
        return;
    }
    let mut is_plain = true;
    for byte in name {
        is_plain = is_plain && b' ' <= *byte && *byte != 0x7f;
    }
    match str::from_utf8(name) {
        Ok(text) if is_plain => write!(out, "`{text}`"),
        _ => {
            for byte in name {
                write!(out, "{byte:02x}");
            }
        }
    }
}

/// Adds the name of an output section.
pub(crate) fn push_section(out: &mut Text, layout: &Layout, section: usize) {
    write!(out, "section {section}");
    if let Some(found) = layout.sections.as_slice().get(section) {
        out.push_str(" ");
        push_name(out, found.name.as_slice());
    }
}

/// Adds the name of a symbol.
pub(crate) fn push_symbol(out: &mut Text, layout: &Layout, symbol: usize) {
    write!(out, "symbol {symbol}");
    if let Some(found) = layout.symbols.as_slice().get(symbol) {
        out.push_str(" ");
        push_name(out, found.name.as_slice());
    }
}

/// Adds the name of a relocation type of a machine.
pub fn push_type(out: &mut Text, machine: Machine, number: u32) {
    let name = match machine {
        Machine::X86_64 => x86_64::rel_type_to_string(number),
        Machine::AArch64 => aarch64::rel_type_to_string(number),
    };
    match name.name() {
        Some(name) => write!(out, "{name} ({number})"),
        None => write!(out, "type {number}"),
    }
}

/// Adds the resolution of a symbol.
pub fn push_resolution(out: &mut Text, resolution: Resolution) {
    let value = resolution.raw_value;
    write!(out, "; symbol at {value}");
    if let Some(slot) = resolution.got_address {
        write!(out, ", slot at {slot}");
    }
    if let Some(stub) = resolution.plt_address {
        write!(out, ", stub at {stub}");
    }
    if let Some(index) = resolution.dynamic_symbol_index {
        write!(out, ", dynsym {index}");
    }
}
