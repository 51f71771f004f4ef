//! What loaders read besides symbols, thunks, and what an output has once.
ghost use Rattle.std.specs.Prelude.{◌≡◌, map};
ghost use Rattle.wild_c_layout.specs.Extras.{dynamic_symbol_of, version_definition_of, thunk_of, thunks_of, sorted_section_of, merged_of, property_value_of, property_of};

use crate::decode::{Decode, DecodePlain, decode_all, decode_plain};
use crate::values::{CBytes, bytes_of, is_set, present_index};
use std::alloc::{AllocError, Global};
use wild_types::{
    DynamicSymbol, Merged, Property, PropertyValue, SortedSection, SymbolIndex, Thunk,
    VersionDefinition,
};
use wild_words::Items;

/// A defined symbol of the dynamic symbol table.
#[repr(C)]
#[derive(Drop)]
pub struct CDynamicSymbol<'a> {
    pub symbol: usize,
    pub name: &'a [u8],
    pub version: u16,
}

/// A version that the output defines.
#[repr(C)]
#[derive(Drop)]
pub struct CVersionDefinition<'a> {
    pub name: &'a [u8],
    /// An index, or `ABSENT`.
    pub parent: usize,
}

/// A thunk.
#[repr(C)]
#[derive(Clone, Copy)]
pub struct CThunk {
    pub symbol: usize,
    pub address: u64,
}

/// The thunks of a block.
#[repr(C)]
#[derive(Drop)]
pub struct CThunkBlock<'a> {
    pub thunks: &'a [CThunk],
}

/// An input section that is placed by sort order.
#[repr(C)]
#[derive(Clone, Copy)]
pub struct CSortedSection {
    pub group: usize,
    pub file: usize,
    pub section: usize,
}

/// The merged strings of a part.
#[repr(C)]
#[derive(Drop)]
pub struct CMerged<'a> {
    pub part: usize,
    pub strings: &'a [CBytes<'a>],
}

/// A program property. Its value is `platform` and `version` if `is_pointer_authentication` is set, else `word`.
#[repr(C)]
#[derive(Clone, Copy)]
pub struct CProperty {
    pub ptype: u32,
    pub word: u32,
    pub platform: u64,
    pub version: u64,
    pub is_pointer_authentication: u8,
}

impl Decode<DynamicSymbol> for CDynamicSymbol<'_> {
    ghost value_of = { dynamic_symbol_of };

    fn decode(&self, alloc: Global) -> Result<DynamicSymbol, AllocError> {
        let name = bytes_of(alloc, self.name)?;
        Ok(DynamicSymbol {
            symbol: SymbolIndex(self.symbol),
            name,
            version: self.version,
        })
    }
}

impl Decode<VersionDefinition> for CVersionDefinition<'_> {
    ghost value_of = { version_definition_of };

    fn decode(&self, alloc: Global) -> Result<VersionDefinition, AllocError> {
        let name = bytes_of(alloc, self.name)?;
        Ok(VersionDefinition {
            name,
            parent: present_index(self.parent),
        })
    }
}

impl DecodePlain<Thunk> for CThunk {
    ghost value_of = { thunk_of };

    fn value(&self) -> Thunk {
        Thunk {
            symbol: SymbolIndex(self.symbol),
            address: self.address,
        }
    }
}

impl Decode<Items<Thunk>> for CThunkBlock<'_> {
    ghost value_of = { thunks_of };

    fn decode(&self, alloc: Global) -> Result<Items<Thunk>, AllocError> {
        decode_plain(alloc, self.thunks)
    }
}

impl DecodePlain<SortedSection> for CSortedSection {
    ghost value_of = { sorted_section_of };

    fn value(&self) -> SortedSection {
        SortedSection {
            group: self.group,
            file: self.file,
            section: self.section,
        }
    }
}

impl Decode<Merged> for CMerged<'_> {
    ghost value_of = { merged_of };

    fn decode(&self, alloc: Global) -> Result<Merged, AllocError> {
        let strings = decode_all(alloc, self.strings)?;
        Ok(Merged {
            part: self.part,
            strings,
        })
    }
}

/// The value of a property.
fn property_value_of(property: &CProperty) -> PropertyValue
    ensures { result ≡ property_value_of property.now }
{
    if is_set(property.is_pointer_authentication) {
        PropertyValue::PointerAuthentication {
            platform: property.platform,
            version: property.version,
        }
    } else {
        PropertyValue::Word(property.word)
    }
}

impl DecodePlain<Property> for CProperty {
    ghost value_of = { property_of };

    fn value(&self) -> Property {
        Property {
            ptype: self.ptype,
            value: property_value_of(self),
        }
    }
}
