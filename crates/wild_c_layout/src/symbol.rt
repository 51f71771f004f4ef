//! Symbols.
ghost use Rattle.std.specs.Prelude.{◌≡◌};
ghost use Rattle.wild_c_layout.specs.Symbols.{place_of, resolution_of, symbol_of};

use crate::decode::Decode;
use crate::values::{bytes_of, is_set, present, present_symbol};
use std::alloc::{AllocError, Global};
use wild_types::{Place, Resolution, SectionIndex, Symbol, ValueFlags};

/// A symbol of an input file, or of the linker. The last four members count if `has_resolution` is set.
#[repr(C)]
#[derive(Drop)]
pub struct CSymbol<'a> {
    pub name: &'a [u8],
    /// An index, or `ABSENT`.
    pub definition: usize,
    pub size: u64,
    pub value: u64,
    /// 0: undefined. 1: absolute. 2: common. 3: in input section `place_index` of its file. 4: in output section `place_index`.
    pub place: u32,
    pub flags: u32,
    pub place_index: usize,
    pub info: u8,
    pub other: u8,
    pub emit: u8,
    pub has_resolution: u8,
    pub version: u16,
    pub raw_value: u64,
    /// An index in the dynamic symbol table, or `ABSENT`.
    pub dynamic_symbol_index: u64,
    /// An address, or `ABSENT`.
    pub got_address: u64,
    /// An address, or `ABSENT`.
    pub plt_address: u64,
}

/// Where the symbol is defined.
fn place_of(symbol: &CSymbol) -> Place
    ensures { result ≡ place_of symbol.now.place symbol.now.place_index }
{
    match symbol.place {
        1 => Place::Absolute,
        2 => Place::Common,
        3 => Place::Section(symbol.place_index),
        4 => Place::Output(SectionIndex(symbol.place_index)),
        _ => Place::Undefined,
    }
}

/// The resolution of the symbol, if it has one.
fn resolution_of(symbol: &CSymbol) -> Option<Resolution>
    ensures { result ≡ resolution_of symbol.now }
{
    if !is_set(symbol.has_resolution) {
        return None;
    }
    Some(Resolution {
        raw_value: symbol.raw_value,
        flags: ValueFlags(symbol.flags),
        dynamic_symbol_index: present(symbol.dynamic_symbol_index),
        got_address: present(symbol.got_address),
        plt_address: present(symbol.plt_address),
    })
}

impl Decode<Symbol> for CSymbol<'_> {
    ghost value_of = { symbol_of };

    #[tactic(auto, unfolding(crate::specs::Symbols::symbol_of))]
    fn decode(&self, alloc: Global) -> Result<Symbol, AllocError> {
        let name = bytes_of(alloc, self.name)?;
        Ok(Symbol {
            name,
            definition: present_symbol(self.definition),
            info: self.info,
            other: self.other,
            size: self.size,
            value: self.value,
            place: place_of(self),
            flags: ValueFlags(self.flags),
            version: self.version,
            emit: is_set(self.emit),
            resolution: resolution_of(self),
        })
    }
}
