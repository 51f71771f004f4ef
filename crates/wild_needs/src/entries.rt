//! Counts the dynamic relocations of input sections: relative ones, and those that name a symbol or a resolver.
ghost use Rattle.std.specs.Prelude.{◌≡◌, ℕ, ◌+◌, ◌-◌, ◌^◌, ◌%◌, ◌≤◌, min, List, length, ◌++◌, is_some, option_to_list, IfSome};
ghost use Rattle.wild_relr.specs.RunWords.{counted};
ghost use Rattle.wild_placement.specs.PlacedSections.{placed_file};
ghost use Rattle.wild_needs.specs.Entries.{may_be_relative, is_relative_by, is_relative, listed_at, relr_place_at, relr_place, entry_count, word_count, sorted_words, has_dynamic_entry, may_have_dynamic_entry, may_have_entry, general_count};
ghost use Rattle.wild_slot.specs.Treatment.{treatment};

use crate::tally::{Counted, count_of_file, count_sections, count_sorted};
use wild_records::abi::relocation::{
    R_AARCH64_ABS64, R_X86_64_64, R_X86_64_SIZE32, R_X86_64_SIZE64,
};
use wild_relr::{Choice, Run, choice};
use wild_slot::{Treatment, flags_at, treatment_of};
use wild_types::{File, InputRelocation, InputSection, Layout, SymbolIndex, is_writable};

/// Whether a relocation of that type can write an address that changes with the load bias: only an 8-byte address can.
#[inline]
pub(crate) fn may_be_relative(number: u32) -> bool
    ensures { result ≡ may_be_relative number }
{
    matches!(number, R_X86_64_64 | R_AARCH64_ABS64)
}

/// Whether the treatment of a relocation is such an address.
fn has_relative_treatment(layout: &Layout, flags: u64, relocation: &InputRelocation) -> bool
    ensures { result ≡ is_relative_by layout.now flags relocation.now }
{
    matches!(
        treatment_of(layout, flags, relocation),
        Treatment::BaseRelative
    )
}

/// Whether a relocation writes an address that changes with the load bias, in a section with such flags. The treatment is computed
/// only if the type allows it.
#[inline]
#[tactic(auto, using(crate::proofs::EntryLemmas::others_fixed))]
pub fn is_relative_by(layout: &Layout, flags: u64, relocation: &InputRelocation) -> bool
    ensures { result ≡ is_relative_by layout.now flags relocation.now }
{
    may_be_relative(relocation.number) && has_relative_treatment(layout, flags, relocation)
}

/// Whether a relocation of a section writes an address that changes with the load bias.
pub fn is_relative(layout: &Layout, section: &InputSection, relocation: &InputRelocation) -> bool
    ensures { result ≡ is_relative layout.now section.now relocation.now }
{
    is_relative_by(layout, section.flags, relocation)
}

/// The place of a relocation if it is packed as RELR, in a section with such flags at an address.
pub fn relr_place_at(
    layout: &Layout,
    flags: u64,
    address: u64,
    relocation: &InputRelocation,
) -> Option<u64>
    ensures is { result ≡ relr_place_at layout.now flags address relocation.now }
    ensures even { IfSome result (λ place. place % 2 ≡ 0) }
{
    let place = relocation.place_from(address);
    if is_relative_by(layout, flags, relocation) && layout.packs(place) {
        Some(place)
    } else {
        None
    }
}

/// The place of a relocation if it is packed as RELR.
pub fn relr_place(
    layout: &Layout,
    section: &InputSection,
    relocation: &InputRelocation,
) -> Option<u64>
    ensures is { result ≡ relr_place layout.now section.now relocation.now }
    ensures even { IfSome result (λ place. place % 2 ≡ 0) }
{
    relr_place_at(layout, section.flags, section.address, relocation)
}

/// Whether the place of a relocation has a relative entry with an addend, in a section with such flags at an address.
pub(crate) fn is_rela_at(
    layout: &Layout,
    flags: u64,
    address: u64,
    relocation: &InputRelocation,
) -> bool
    ensures { result ≡ is_some (listed_at layout.now flags address relocation.now) }
{
    is_relative_by(layout, flags, relocation) && !layout.packs(relocation.place_from(address))
}

/// The number of RELR words that a place adds to a run, and the run after it.
#[tactic(auto, using(crate::proofs::EntryLemmas::counted_more))]
pub(crate) fn count_place(run: Run, place: Option<u64>) -> (usize, Run)
    ensures rest { (ps : List ℕ) → result.0 + counted result.1 ps ≡ counted run (option_to_list place ++ ps) }
    ensures few { result.0 ≤ 1 }
{
    match place {
        Some(place) => match choice(run, place) {
            Choice::Adds(_, next) => (1, next),
            Choice::Joins(_) => (0, run),
        },
        None => (0, run),
    }
}

/// Whether an entry that names a symbol or a resolver can fill the field of a relocation of that type, in a section with such
/// flags.
#[inline]
pub(crate) fn may_have_dynamic_entry(flags: u64, number: u32) -> bool
    ensures { result ≡ may_have_dynamic_entry flags number }
{
    match number {
        R_X86_64_64 | R_AARCH64_ABS64 => is_writable(flags),
        R_X86_64_SIZE32 | R_X86_64_SIZE64 => true,
        _ => false,
    }
}

/// Whether such an entry can name the symbol, or its resolver.
#[inline]
fn may_have_entry(layout: &Layout, symbol: Option<SymbolIndex>) -> bool
    ensures { result ≡ may_have_entry layout.now symbol }
{
    match symbol {
        Some(symbol) => {
            let flags = flags_at(layout, symbol);
            flags.is_interposable() || flags.is_ifunc()
        }
        None => false,
    }
}

/// Whether the treatment of a relocation is such an entry.
fn has_dynamic_treatment(layout: &Layout, flags: u64, relocation: &InputRelocation) -> bool
    ensures { result ≡ has_dynamic_entry (treatment layout.now flags relocation.now) }
{
    matches!(
        treatment_of(layout, flags, relocation),
        Treatment::Symbolic(_) | Treatment::Indirect(_) | Treatment::Extent(_, _)
    )
}

/// Whether an entry that names a symbol or a resolver fills the field of a relocation, in a section with such flags. The treatment is
/// computed only if the type and the symbol allow such an entry.
#[inline]
#[tactic(auto, using(crate::proofs::EntryLemmas::others_stay, crate::proofs::EntryLemmas::plain_stay))]
pub fn has_dynamic_entry_by(layout: &Layout, flags: u64, relocation: &InputRelocation) -> bool
    ensures { result ≡ has_dynamic_entry (treatment layout.now flags relocation.now) }
{
    may_have_dynamic_entry(flags, relocation.number)
        && may_have_entry(layout, relocation.symbol)
        && has_dynamic_treatment(layout, flags, relocation)
}

/// Whether an entry that names a symbol or a resolver fills the field of a section's relocation.
#[inline]
pub fn has_dynamic_entry(
    layout: &Layout,
    section: &InputSection,
    relocation: &InputRelocation,
) -> bool
    ensures { result ≡ has_dynamic_entry (treatment layout.now section.now.flags relocation.now) }
{
    has_dynamic_entry_by(layout, section.flags, relocation)
}

/// The number of relative entries with addends of a file, at most 2^64 - 1. The file's frames begin at address `at`.
pub fn entry_count(layout: &Layout, at: u64, file: &File) -> u64
    ensures { result ≡ min (2 ^ 64 - 1) (entry_count layout.now (placed_file layout.now at file.now)) }
{
    count_of_file(Counted::Listed, layout, at, file)
}

/// The number of RELR words of a file, at most 2^64 - 1. The file's frames begin at address `at`.
pub fn word_count(layout: &Layout, at: u64, file: &File) -> u64
    ensures { result ≡ min (2 ^ 64 - 1) (word_count layout.now (placed_file layout.now at file.now)) }
{
    count_sections(Counted::Packed, layout, at, file)
}

/// The number of RELR words of the sorted sections, at most 2^64 - 1.
#[tactic(auto, using(crate::proofs::TallyLemmas::length_words))]
pub fn sorted_word_count(layout: &Layout) -> u64
    ensures { result ≡ min (2 ^ 64 - 1) (length (sorted_words layout.now)) }
{
    count_sorted(Counted::Packed, layout)
}

/// The number of entries of a file that name a symbol or a resolver, and of its copy relocations, at most 2^64 - 1. The file's frames
/// begin at address `at`.
#[tactic(auto, unfolding(crate::specs::Entries::general_count))]
pub fn general_count(layout: &Layout, at: u64, file: &File) -> u64
    ensures { result ≡ min (2 ^ 64 - 1) (general_count layout.now (placed_file layout.now at file.now)) }
{
    let copied = file.copied().len() as u64;
    copied.saturating_add(count_of_file(Counted::Dynamic, layout, at, file))
}
