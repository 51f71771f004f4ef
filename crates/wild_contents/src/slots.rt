//! What the GOT and PLT entries of a file's symbols contribute to the parts (x86-64 psABI, "Global Offset Table (GOT)", "Procedure
//! Linkage Table").
ghost use Rattle.std.specs.Prelude.{◌≡◌, ◌++◌, unwrap_or, OnOk};
ghost use Rattle.std.specs.List.{flat_map};
ghost use Rattle.wild_types.specs.FileSymbols.{own_symbols};
ghost use Rattle.wild_types.specs.SymbolSlots.{plt_of};
ghost use Rattle.wild_layout.specs.SlotBytes.{stub_bytes, slot_bytes};
ghost use Rattle.wild_contents.specs.FileTables.{slot_part, symbol_slot_bytes};

use crate::part_bytes::PartBytes;
use crate::slot_words::{add_flat_places, add_slot_entries, add_slot_words};
use std::alloc::AllocError;
use wild_slot::{EntryPart, STUB_SIZE, SymbolSlots, WordPart, put_stub};
use wild_types::{File, Layout, Role, Symbol};

/// What a part has for the GOT and PLT entries of symbols.
#[derive(Clone, Copy)]
enum SlotPart {
    /// The GOT words.
    Words(WordPart),
    /// The dynamic relocations of GOT words.
    Entries(EntryPart),
    /// The places of GOT words that have a RELR word of their own.
    Places,
    /// The PLT stubs.
    Stubs,
}

/// Which of these the part of a role has, if any.
fn slot_part(role: Role) -> Option<SlotPart>
    ensures { result ≡ slot_part role }
{
    match role {
        Role::Got => Some(SlotPart::Words(WordPart::Got)),
        Role::GotRelr => Some(SlotPart::Words(WordPart::RelrGot)),
        Role::PltGot => Some(SlotPart::Stubs),
        Role::RelaPlt => Some(SlotPart::Entries(EntryPart::Plt)),
        Role::RelaDynRelative => Some(SlotPart::Entries(EntryPart::Relative)),
        Role::RelaDynGeneral => Some(SlotPart::Entries(EntryPart::General)),
        Role::RelrDyn => Some(SlotPart::Places),
        _ => None,
    }
}

/// The address of a symbol's PLT stub; 0 if it has none.
fn stub_at(symbol: &Symbol) -> u64
    ensures { result ≡ unwrap_or (plt_of symbol.now) 0 }
{
    match symbol.resolution {
        Some(resolution) => resolution.plt_address.unwrap_or(0),
        None => 0,
    }
}

/// Appends the PLT stub of a symbol, if it has one.
fn add_stub(layout: &Layout, symbol: &Symbol, bytes: &mut PartBytes) -> Result<(), AllocError>
    ensures { OnOk result (bytes.new ≡ bytes.old ++ stub_bytes layout.now symbol.now) }
{
    if SymbolSlots::of(layout, symbol).has_stub() {
        let mut stub = [0; STUB_SIZE];
        let bti = layout.options.bti;
        put_stub(
            layout.machine,
            bti,
            &mut stub,
            symbol.slots_address(),
            stub_at(symbol),
        );
        bytes.extend(&stub)?;
    }
    Ok(())
}

/// Appends what a part has for a symbol's GOT and PLT entries.
#[tactic(auto, unfolding(crate::specs::FileTables::symbol_slot_bytes))]
fn add_symbol(
    part: SlotPart,
    layout: &Layout,
    symbol: &Symbol,
    bytes: &mut PartBytes,
) -> Result<(), AllocError>
    ensures { OnOk result (bytes.new ≡ bytes.old ++ symbol_slot_bytes part layout.now symbol.now) }
{
    let slots = SymbolSlots::of(layout, symbol);
    let relr = layout.options.relr;
    let place = symbol.slots_address();
    match part {
        SlotPart::Words(part) => add_slot_words(part, relr, place, slots.words(), bytes),
        SlotPart::Entries(part) => {
            add_slot_entries(part, layout.machine, relr, place, slots.words(), bytes)
        }
        SlotPart::Places => add_flat_places(relr, place, slots.words(), bytes),
        SlotPart::Stubs => add_stub(layout, symbol, bytes),
    }
}

/// Appends what a part has for the GOT and PLT entries of a file's symbols.
fn add_symbols(
    part: SlotPart,
    layout: &Layout,
    file: &File,
    bytes: &mut PartBytes,
) -> Result<(), AllocError>
    ensures { OnOk result (bytes.new ≡ bytes.old ++ flat_map (symbol_slot_bytes part layout.now) (own_symbols layout.now file.now)) }
{
    for symbol in layout.own_symbols(file) {
        add_symbol(part, layout, symbol, bytes)?;
    }
    Ok(())
}

/// Appends what a file's GOT and PLT entries contribute to a part of that role.
#[tactic(auto, using(crate::proofs::SlotLemmas::slots_joined))]
pub(crate) fn add_slots(
    layout: &Layout,
    role: Role,
    file: &File,
    bytes: &mut PartBytes,
) -> Result<(), AllocError>
    ensures { OnOk result (bytes.new ≡ bytes.old ++ slot_bytes layout.now role file.now) }
{
    match slot_part(role) {
        Some(part) => add_symbols(part, layout, file, bytes),
        None => Ok(()),
    }
}
