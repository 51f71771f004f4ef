//! The file header (gABI, "ELF Header").
ghost use Rattle.std.specs.Prelude.{◌≡◌, ◌^◌, ◌<◌, length};
ghost use Rattle.wild_records.specs.FileHeader.{file_header_size};
ghost use Rattle.wild_table_formats.specs.Headers.{file_type, machine_number, file_header, file_header_bytes};

use crate::numbers::{number_or_escape, section_headers_offset, section_of_role, zero_if_partial};
use wild_needs::elf_entry_address;
use wild_records::abi::header::{
    ELFCLASS64, ELFDATA2LSB, ELFMAG, ELFOSABI_NONE, EM_AARCH64, EM_X86_64, ET_DYN, ET_EXEC, ET_REL,
    EV_CURRENT,
};
use wild_records::abi::section::{SHN_UNDEF, SHN_XINDEX};
use wild_records::{FileHeader, ProgramHeader, SectionHeader};
use wild_types::{Layout, Machine, OutputKind, RelocationModel, Role};

/// `e_type` of a kind of output.
fn file_type(kind: OutputKind) -> u16
    ensures { result ≡ file_type kind }
{
    match kind {
        OutputKind::PartialObject => ET_REL,
        OutputKind::SharedObject
        | OutputKind::StaticExecutable(RelocationModel::Relocatable)
        | OutputKind::DynamicExecutable(RelocationModel::Relocatable) => ET_DYN,
        _ => ET_EXEC,
    }
}

/// `e_machine` of a machine.
fn machine_number(machine: Machine) -> u16
    ensures { result ≡ machine_number machine }
{
    match machine {
        Machine::X86_64 => EM_X86_64,
        Machine::AArch64 => EM_AARCH64,
    }
}

#[tactic(auto, unfolding(wild_table_formats::specs::Headers::file_header))]
fn file_header(layout: &Layout) -> FileHeader
    requires { length layout.now.segments < 2 ^ 16 }
    ensures { result ≡ file_header layout.now }
{
    FileHeader {
        magic: ELFMAG,
        class: ELFCLASS64,
        encoding: ELFDATA2LSB,
        ident_version: EV_CURRENT,
        os_abi: ELFOSABI_NONE,
        abi_version: 0,
        file_type: file_type(layout.kind),
        machine: machine_number(layout.machine),
        version: EV_CURRENT as u32,
        entry: elf_entry_address(layout).0,
        program_offset: zero_if_partial(layout.kind, FileHeader::SIZE as u64),
        section_offset: section_headers_offset(layout.parts.as_slice()),
        flags: 0,
        header_size: FileHeader::SIZE as u16,
        program_entry_size: zero_if_partial(layout.kind, ProgramHeader::SIZE as u64) as u16,
        program_count: layout.segments.len() as u16,
        section_entry_size: SectionHeader::SIZE as u16,
        section_count: number_or_escape(layout.sections.len(), SHN_UNDEF),
        name_table: number_or_escape(
            section_of_role(Role::Shstrtab, layout.parts.as_slice()).0,
            SHN_XINDEX,
        ),
    }
}

/// Writes the file header. `out` has exactly its length.
pub fn populate_file_header(layout: &Layout, out: &mut [u8])
    requires room { length out.old ≡ file_header_size }
    requires segments { length layout.now.segments < 2 ^ 16 }
    ensures { out.new ≡ file_header_bytes layout.now }
{
    file_header(layout).put(out);
}
