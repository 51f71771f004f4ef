//! Checks symbols that are copied into the output by COPY relocations.
ghost use Rattle.std.specs.Prelude.{◌≡◌, Some};
ghost use Rattle.std.specs.List.{flat_map};
ghost use Rattle.wild_types.specs.Faults.{Answers};
ghost use Rattle.wild_layout.specs.Faults.{copy_fault, copy_errors, entry_errors};
ghost use Rattle.wild_layout.specs.SymbolValues.{raw_address};
ghost use Rattle.wild_layout.specs.SlotValues.{index_of};

use crate::slot_faults::check_slots;
use wild_relax::Arch;
use wild_sections::{InputPlace, Resolved, index_of, raw_address};
use wild_types::{Error, Fault, File, Missing, SymbolIndex};

/// The fault of a copied symbol: it has no address, or no entry in the dynamic symbol table.
fn copy_fault<A: Arch>(resolved: &Resolved<A>, symbol: SymbolIndex) -> Option<Fault>
    ensures { result ≡ copy_fault symbol (index_of resolved.now.layout.now symbol) (raw_address resolved.now.layout.now (Some symbol)) }
{
    match (
        raw_address(resolved, Some(symbol)),
        index_of(resolved.layout, symbol),
    ) {
        (Err(fault), _) => Some(fault),
        (Ok(_), None) => Some(Fault::MissingResolution {
            what: Missing::DynamicSymbol,
            symbol: symbol.0,
        }),
        (Ok(_), Some(_)) => None,
    }
}

/// Refuses a copied symbol without an address or an entry in the dynamic symbol table.
fn check_copy<A: Arch>(
    resolved: &Resolved<A>,
    place: InputPlace,
    symbol: SymbolIndex,
) -> Result<(), Error>
    ensures { Answers result (copy_errors resolved.now.layout.now place.group place.file symbol) }
{
    match copy_fault(resolved, symbol) {
        Some(fault) => Err(Error {
            fault,
            at: place.file(),
        }),
        None => Ok(()),
    }
}

/// Checks copied symbols; returns the first fault in their order.
#[tactic(auto, using(wild_sections::proofs::FaultLemmas::first_faults))]
fn check_copies<A: Arch>(
    resolved: &Resolved<A>,
    place: InputPlace,
    copies: &[SymbolIndex],
) -> Result<(), Error>
    ensures { Answers result (flat_map (copy_errors resolved.now.layout.now place.group place.file) copies.now) }
{
    for symbol in copies {
        check_copy(resolved, place, *symbol)?;
    }
    Ok(())
}

/// Checks the copied symbols of a file, and the GOT and PLT entries of its symbols.
#[tactic(auto, using(wild_sections::proofs::FaultLemmas::first_of_both))]
pub fn check_entries<A: Arch>(
    resolved: &Resolved<A>,
    place: InputPlace,
    file: &File,
) -> Result<(), Error>
    ensures { Answers result (entry_errors resolved.now.layout.now place.group place.file file.now) }
{
    check_copies(resolved, place, file.copied())?;
    check_slots(resolved.layout, place, file)
}
