//! Input files and their sections.
ghost use Rattle.std.specs.Prelude.{◌≡◌, map, IfOk};
ghost use Rattle.wild_c_layout.specs.Codes.{slot_of, file_role_of};
ghost use Rattle.wild_c_layout.specs.Input.{relocation_of, merged_string_of, input_section_of, needed_version_of, version_needs_of, file_of, group_of};

use crate::codes::{file_role_of, slot_of};
use crate::decode::{Decode, DecodePlain, decode_all, decode_plain};
use crate::values::{bytes_of, is_set, numbers_of, present_section, present_symbol};
use std::alloc::{AllocError, Global};
use wild_types::{
    File, Group, InputRelocation, InputSection, MergedString, NeededVersion, SymbolIndex,
    VersionNeeds,
};

/// A relocation of an input section (gABI, "Relocation").
#[repr(C)]
#[derive(Clone, Copy)]
pub struct CRelocation {
    pub offset: u64,
    pub addend: i64,
    /// An index, or `ABSENT`.
    pub symbol: usize,
    pub number: u32,
    pub malformed: u8,
}

/// Where a string of a merged section was placed.
#[repr(C)]
#[derive(Clone, Copy)]
pub struct CMergedString {
    pub offset: u64,
    pub address: u64,
}

/// A section of an input file.
#[repr(C)]
#[derive(Drop)]
pub struct CInputSection<'a> {
    /// The index in the list of slots.
    pub slot: u32,
    pub nobits: u8,
    pub reversed: u8,
    pub name: &'a [u8],
    pub part: usize,
    pub address: u64,
    pub size: u64,
    pub flags: u64,
    /// An index, or `ABSENT`.
    pub singleton: usize,
    pub target: usize,
    pub members: &'a [usize],
    pub bytes: &'a [u8],
    pub strings: &'a [CMergedString],
    pub relocations: &'a [CRelocation],
}

/// A version that the output needs from a library.
#[repr(C)]
#[derive(Drop)]
pub struct CNeededVersion<'a> {
    pub name: &'a [u8],
    pub index: u16,
}

/// An input file.
#[repr(C)]
#[derive(Drop)]
pub struct CFile<'a> {
    /// The index in the list of roles of files.
    pub role: u32,
    pub owns_thunk_block: u8,
    pub has_verneed: u8,
    pub verneed_last: u8,
    pub first_symbol: usize,
    pub symbol_count: usize,
    pub thunk_block: usize,
    pub lib_name: &'a [u8],
    pub sections: &'a [CInputSection<'a>],
    pub copies: &'a [usize],
    pub verneed: &'a [CNeededVersion<'a>],
}

/// Files that are written together.
#[repr(C)]
#[derive(Drop)]
pub struct CGroup<'a> {
    pub files: &'a [CFile<'a>],
    pub part_sizes: &'a [u64],
    pub dynstr_start: u64,
    pub strtab_start: u64,
    pub eh_frame_start: u64,
    pub symtab_local_start: u64,
    pub symtab_global_start: u64,
}

impl DecodePlain<InputRelocation> for CRelocation {
    ghost value_of = { relocation_of };

    #[tactic(auto, unfolding(crate::specs::Input::relocation_of))]
    fn value(&self) -> InputRelocation {
        InputRelocation {
            offset: self.offset,
            number: self.number,
            symbol: present_symbol(self.symbol),
            addend: self.addend,
            malformed: is_set(self.malformed),
        }
    }
}

impl DecodePlain<MergedString> for CMergedString {
    ghost value_of = { merged_string_of };

    fn value(&self) -> MergedString {
        MergedString {
            offset: self.offset,
            address: self.address,
        }
    }
}

impl Decode<InputSection> for CInputSection<'_> {
    ghost value_of = { input_section_of };

    #[tactic(auto, unfolding(crate::specs::Input::input_section_of))]
    fn decode(&self, alloc: Global) -> Result<InputSection, AllocError> {
        let name = bytes_of(alloc, self.name)?;
        let members = decode_plain(alloc, self.members)?;
        let bytes = bytes_of(alloc, self.bytes)?;
        let strings = decode_plain(alloc, self.strings)?;
        let relocations = decode_plain(alloc, self.relocations)?;
        Ok(InputSection {
            slot: slot_of(self.slot),
            name,
            part: self.part,
            address: self.address,
            size: self.size,
            flags: self.flags,
            nobits: is_set(self.nobits),
            reversed: is_set(self.reversed),
            singleton: present_section(self.singleton),
            target: self.target,
            members,
            bytes,
            strings,
            relocations,
        })
    }
}

impl Decode<NeededVersion> for CNeededVersion<'_> {
    ghost value_of = { needed_version_of };

    fn decode(&self, alloc: Global) -> Result<NeededVersion, AllocError> {
        let name = bytes_of(alloc, self.name)?;
        Ok(NeededVersion {
            name,
            index: self.index,
        })
    }
}

/// The versions that the output needs from the library.
fn version_needs_of(alloc: Global, file: &CFile) -> Result<Option<VersionNeeds>, AllocError>
    ensures { IfOk result (λ v. v ≡ version_needs_of file.now) }
{
    if !is_set(file.has_verneed) {
        return Ok(None);
    }
    let versions = decode_all(alloc, file.verneed)?;
    Ok(Some(VersionNeeds {
        last: is_set(file.verneed_last),
        versions,
    }))
}

impl Decode<File> for CFile<'_> {
    ghost value_of = { file_of };

    #[tactic(auto, unfolding(crate::specs::Input::file_of))]
    fn decode(&self, alloc: Global) -> Result<File, AllocError> {
        let sections = decode_all(alloc, self.sections)?;
        let lib_name = bytes_of(alloc, self.lib_name)?;
        let copies = decode_plain(alloc, self.copies)?;
        let verneed = version_needs_of(alloc, self)?;
        Ok(File {
            role: file_role_of(self.role),
            first_symbol: SymbolIndex(self.first_symbol),
            symbol_count: self.symbol_count,
            sections,
            thunk_block: self.thunk_block,
            owns_thunk_block: is_set(self.owns_thunk_block),
            lib_name,
            copies,
            verneed,
        })
    }
}

impl Decode<Group> for CGroup<'_> {
    ghost value_of = { group_of };

    #[tactic(auto, unfolding(crate::specs::Input::group_of))]
    fn decode(&self, alloc: Global) -> Result<Group, AllocError> {
        let files = decode_all(alloc, self.files)?;
        let part_sizes = numbers_of(alloc, self.part_sizes)?;
        Ok(Group {
            files,
            part_sizes,
            dynstr_start: self.dynstr_start,
            strtab_start: self.strtab_start,
            eh_frame_start: self.eh_frame_start,
            symtab_local_start: self.symtab_local_start,
            symtab_global_start: self.symtab_global_start,
        })
    }
}
