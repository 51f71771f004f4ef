//! Why GOT and PLT entries of a file's symbols cannot be written.
ghost use Rattle.std.specs.Prelude.{◌≡◌, Some};
ghost use Rattle.wild_types.specs.Faults.{Answers};
ghost use Rattle.wild_slot.specs.SymbolWords.{slots_of};
ghost use Rattle.wild_layout.specs.Faults.{at_file, slot_fault, slot_refusal, slot_role, symbol_errors, slot_errors};

use wild_sections::InputPlace;
use wild_slot::{SlotFault, SymbolSlots, begins_relr_got};
use wild_types::{Error, Fault, File, Layout, Missing, Resolution, Role, Symbol};

/// The fault of the GOT and PLT entries of the symbol with that index.
fn fault_of(index: usize, fault: SlotFault) -> Fault
    ensures { result ≡ slot_fault index fault }
{
    match fault {
        SlotFault::NoDynamicSymbol => Fault::MissingResolution {
            what: Missing::DynamicSymbol,
            symbol: index,
        },
        SlotFault::NoStub => Fault::MissingResolution {
            what: Missing::Stub,
            symbol: index,
        },
        SlotFault::PltTooFar { value } => Fault::PltTooFar { value },
        SlotFault::TlsOutOfSegment { value } => Fault::TlsOutOfSegment { value },
        SlotFault::StaticTlsDesc => Fault::StaticTlsDesc { symbol: index },
    }
}

/// Why a symbol's GOT and PLT entries cannot be written; None for a symbol without a GOT entry.
#[tactic(auto, unfolding(wild_slot::specs::SymbolWords::slots_of, wild_slot::specs::Slots::slot))]
fn fault_in(layout: &Layout, symbol: &Symbol) -> Option<SlotFault>
    ensures { result ≡ (slots_of layout.now symbol.now).fault }
{
    match symbol.resolution {
        Some(
            Resolution {
                got_address: Some(_),
                ..
            },
        ) => SymbolSlots::of(layout, symbol).fault(),
        _ => None,
    }
}

/// The role of the part that has the GOT entries of a symbol.
fn slot_role(layout: &Layout, symbol: &Symbol) -> Role
    ensures { result ≡ slot_role layout.now symbol.now }
{
    let slots = SymbolSlots::of(layout, symbol);
    if begins_relr_got(slots.words()) {
        Role::GotRelr
    } else {
        Role::Got
    }
}

/// Refuses the symbol with that index if its GOT and PLT entries cannot be written and their section is not omitted.
fn check_symbol(
    layout: &Layout,
    place: InputPlace,
    index: usize,
    symbol: &Symbol,
) -> Result<(), Error>
    ensures { Answers result (symbol_errors layout.now place.group place.file index symbol.now) }
{
    match fault_in(layout, symbol) {
        Some(fault) if !layout.is_header_only_role(slot_role(layout, symbol)) => Err(Error {
            fault: fault_of(index, fault),
            at: place.file(),
        }),
        _ => Ok(()),
    }
}

/// Checks the GOT and PLT entries of a file's symbols; returns the first fault in the order of the symbols.
#[tactic(auto, using(wild_sections::proofs::FaultLemmas::first_behind), unfolding(wild_layout::specs::Faults::slot_errors))]
pub(crate) fn check_slots(layout: &Layout, place: InputPlace, file: &File) -> Result<(), Error>
    ensures { Answers result (slot_errors layout.now place.group place.file file.now) }
{
    for (i, symbol) in layout.own_symbols(file).iter().enumerate() {
        check_symbol(layout, place, file.first_symbol.0 + i, symbol)?;
    }
    Ok(())
}
