//! The entries of a file in `.rela.dyn` that name a symbol or a resolver: COPY relocations, and those of fields whose value the dynamic
//! linker computes (gABI, "Relocation"; x86-64 psABI, "Relocation Types").
ghost use Rattle.std.specs.Prelude.{◌≡◌, ◌++◌, OnOk};
ghost use Rattle.std.specs.List.{flat_map};
ghost use Rattle.wild_types.specs.FileSymbols.{copies_of};
ghost use Rattle.wild_slot.specs.Treatment.{treatment};
ghost use Rattle.wild_table_formats.specs.RelativeEntries.{rela_bytes};
ghost use Rattle.wild_layout.specs.DynamicRelocations.{entry_for, index_or_zero, copy_entry};
ghost use Rattle.wild_contents.specs.General.{dynamic_relocation_in, dynamic_relocation_bytes, section_general_bytes, copy_bytes};

use crate::part_bytes::PartBytes;
use crate::relative_entries::add_entry;
use std::alloc::AllocError;
use wild_needs::has_dynamic_entry;
use wild_records::Rela;
use wild_relax::Arch;
use wild_reloc::DynamicRelocationKind;
use wild_sections::{Resolved, addend_bits, decided_address, index_of, raw_address, value_or_0};
use wild_slot::{Treatment, treatment_of, type_of};
use wild_types::{File, InputRelocation, InputSection, Layout, SymbolIndex};

/// An entry for a place, with the low 32 bits of an index in the dynamic symbol table and an addend modulo 2^64.
fn entry_for(place: u64, number: u32, symbol: u64, addend: u64) -> Rela
    ensures { result ≡ entry_for place number symbol addend }
{
    Rela {
        offset: place,
        number,
        symbol: (symbol % (1 << 32)) as u32,
        addend: addend.cast_signed(),
    }
}

/// The index of a symbol in the dynamic symbol table; 0 if it is not there.
fn index_or_zero(layout: &Layout, symbol: SymbolIndex) -> u64
    ensures { result ≡ index_or_zero layout.now symbol }
{
    index_of(layout, symbol).unwrap_or(0)
}

/// The entry of a relocation, if its treatment is one that the dynamic linker computes.
#[tactic(auto, unfolding(crate::specs::General::dynamic_relocation_in))]
fn entry_by_treatment(
    layout: &Layout,
    section: &InputSection,
    relocation: &InputRelocation,
) -> Option<Rela>
    ensures { result ≡ dynamic_relocation_in layout.now section.now relocation.now }
{
    let place = relocation.place_from(section.address);
    match treatment_of(layout, section.flags, relocation) {
        Treatment::Symbolic(symbol) => {
            let number = type_of(layout.machine, DynamicRelocationKind::Absolute);
            let index = index_or_zero(layout, symbol);
            Some(entry_for(place, number, index, addend_bits(relocation)))
        }
        Treatment::Indirect(symbol) => {
            let number = type_of(layout.machine, DynamicRelocationKind::Irelative);
            let resolver = value_or_0(decided_address(layout, symbol));
            Some(entry_for(place, number, 0, resolver))
        }
        Treatment::Extent(_, symbol) => {
            let index = index_or_zero(layout, symbol);
            Some(entry_for(place, relocation.number, index, addend_bits(relocation)))
        }
        _ => None,
    }
}

/// The entry of a relocation, if the dynamic linker computes its field. Most relocations have none by their type or symbol.
#[tactic(auto, unfolding(crate::specs::General::dynamic_relocation_in))]
fn dynamic_relocation(
    layout: &Layout,
    section: &InputSection,
    relocation: &InputRelocation,
) -> Option<Rela>
    ensures { result ≡ dynamic_relocation_in layout.now section.now relocation.now }
{
    if !has_dynamic_entry(layout, section, relocation) {
        return None;
    }
    entry_by_treatment(layout, section, relocation)
}

/// Appends the entry of a relocation, if the dynamic linker computes its field.
#[tactic(auto, unfolding(crate::specs::General::dynamic_relocation_bytes))]
fn add_dynamic_relocation(
    layout: &Layout,
    section: &InputSection,
    relocation: &InputRelocation,
    bytes: &mut PartBytes,
) -> Result<(), AllocError>
    ensures { OnOk result (bytes.new ≡ bytes.old ++ dynamic_relocation_bytes layout.now section.now relocation.now) }
{
    match dynamic_relocation(layout, section, relocation) {
        Some(entry) => add_entry(entry, bytes),
        None => Ok(()),
    }
}

/// Appends the entries of the relocations of a section.
fn add_all_dynamic_relocations(
    layout: &Layout,
    section: &InputSection,
    bytes: &mut PartBytes,
) -> Result<(), AllocError>
    ensures { OnOk result (bytes.new ≡ bytes.old ++ flat_map (dynamic_relocation_bytes layout.now section.now) section.now.relocations) }
{
    for relocation in section.relocations.as_slice() {
        add_dynamic_relocation(layout, section, relocation, bytes)?;
    }
    Ok(())
}

/// Appends the entries of a section.
#[tactic(auto, using(crate::proofs::GeneralLemmas::section_left, crate::proofs::GeneralLemmas::none_left))]
pub(crate) fn add_section_dynamic_relocations(
    layout: &Layout,
    section: &InputSection,
    bytes: &mut PartBytes,
) -> Result<(), AllocError>
    ensures { OnOk result (bytes.new ≡ bytes.old ++ section_general_bytes layout.now section.now) }
{
    if section.is_read() {
        add_all_dynamic_relocations(layout, section, bytes)?;
    }
    Ok(())
}

/// The COPY entry for a symbol's address.
fn copy_entry<A: Arch>(resolved: &Resolved<A>, symbol: SymbolIndex) -> Rela
    ensures { result ≡ copy_entry resolved.now.layout.now symbol }
{
    let layout = resolved.layout;
    entry_for(
        value_or_0(raw_address(resolved, Some(symbol))),
        type_of(layout.machine, DynamicRelocationKind::Copy),
        index_or_zero(layout, symbol),
        0,
    )
}

/// Appends the COPY entries of a file.
#[tactic(auto, unfolding(crate::specs::General::copy_bytes))]
pub(crate) fn add_copies<A: Arch>(
    resolved: &Resolved<A>,
    file: &File,
    bytes: &mut PartBytes,
) -> Result<(), AllocError>
    ensures { OnOk result (bytes.new ≡ bytes.old ++ flat_map (copy_bytes resolved.now.layout.now) (copies_of file.now)) }
{
    for symbol in file.copied() {
        add_entry(copy_entry(resolved, *symbol), bytes)?;
    }
    Ok(())
}
