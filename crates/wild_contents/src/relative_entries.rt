//! The entries of an input section in `.rela.dyn` that depend on the load bias only (gABI, "Relocation"). Each address that needs one
//! and is not packed in `.relr.dyn` has one; the loader stores load bias plus addend there.
ghost use Rattle.std.specs.Prelude.{◌≡◌, [], ◌∷◌, ◌++◌, OnOk};
ghost use Rattle.std.specs.List.{flat_map};
ghost use Rattle.wild_needs.specs.Entries.{rela_place};
ghost use Rattle.wild_table_formats.specs.RelativeEntries.{rela_bytes};
ghost use Rattle.wild_contents.specs.FileTables.{entry_bytes, section_entry_bytes};

use crate::part_bytes::PartBytes;
use std::alloc::AllocError;
use wild_needs::is_relative;
use wild_records::Rela;
use wild_relax::Arch;
use wild_sections::{Resolved, relative_value};
use wild_tables::relative_entry;
use wild_types::{InputRelocation, InputSection, Layout};

/// The place of a relocation, if it has such an entry.
fn rela_place(layout: &Layout, section: &InputSection, relocation: &InputRelocation) -> Option<u64>
    ensures { result ≡ rela_place layout.now section.now relocation.now }
{
    let place = relocation.place_from(section.address);
    if is_relative(layout, section, relocation) && !layout.packs(place) {
        Some(place)
    } else {
        None
    }
}

/// Appends an entry.
pub(crate) fn add_entry(entry: Rela, bytes: &mut PartBytes) -> Result<(), AllocError>
    ensures { OnOk result (bytes.new ≡ bytes.old ++ rela_bytes (entry ∷ [])) }
{
    let mut room = [0; Rela::SIZE];
    entry.put(&mut room);
    bytes.extend(&room)
}

/// Appends the entry of a relocation, if it needs one.
#[tactic(auto, unfolding(crate::specs::FileTables::entry_bytes))]
fn add_listed<A: Arch>(
    resolved: &Resolved<A>,
    section: &InputSection,
    relocation: &InputRelocation,
    bytes: &mut PartBytes,
) -> Result<(), AllocError>
    ensures { OnOk result (bytes.new ≡ bytes.old ++ entry_bytes resolved.now.layout.now section.now relocation.now) }
{
    match rela_place(resolved.layout, section, relocation) {
        Some(place) => {
            let value = relative_value(resolved, relocation);
            add_entry(relative_entry(resolved.layout, place, value), bytes)
        }
        None => Ok(()),
    }
}

/// Appends the entries of the relocations of a section.
fn add_all_listed<A: Arch>(
    resolved: &Resolved<A>,
    section: &InputSection,
    bytes: &mut PartBytes,
) -> Result<(), AllocError>
    ensures { OnOk result (bytes.new ≡ bytes.old ++ flat_map (entry_bytes resolved.now.layout.now section.now) section.now.relocations) }
{
    for relocation in section.relocations.as_slice() {
        add_listed(resolved, section, relocation, bytes)?;
    }
    Ok(())
}

/// Appends the entries of a section.
#[tactic(auto, using(crate::proofs::FileTableLemmas::listed_entries, crate::proofs::FileTableLemmas::no_entries))]
pub(crate) fn add_section_entries<A: Arch>(
    resolved: &Resolved<A>,
    section: &InputSection,
    bytes: &mut PartBytes,
) -> Result<(), AllocError>
    ensures { OnOk result (bytes.new ≡ bytes.old ++ section_entry_bytes resolved.now.layout.now section.now) }
{
    if resolved.layout.may_have_relative(section) {
        add_all_listed(resolved, section, bytes)?;
    }
    Ok(())
}
