//! Which symbols are section symbols of merged sections, by the files that define the symbols.
ghost use Rattle.std.specs.Prelude.{◌≡◌, ◌<◌, true, Some, length, slice_get, option_copied, option_map};
ghost use Rattle.wild_types.specs.Lookups.{files_of, file_of};
ghost use Rattle.wild_types.specs.declared.input.InputSection.{InputSection};
ghost use Rattle.wild_slot.specs.Treatment.{flags_at};
ghost use Rattle.wild_layout.specs.Merged.{is_plain_own, merged_strings, names_merged};
ghost use Rattle.wild_sections.specs.DefiningFiles.{HasDefiningFiles};

use crate::defining_file::{DefiningFile, file_at};
use crate::merged::{is_plain_own, is_section_symbol, merged_section};
use wild_slot::flags_at;
use wild_types::{File, InputSection, Layout, Symbol, SymbolIndex};

/// The file whose range of symbols has a symbol, by one table access.
#[tactic(auto, using(crate::proofs::DefiningFileLemmas::owner_there, crate::proofs::DefiningFileLemmas::owner_missing))]
pub(crate) fn file_of<'a>(
    layout: &'a Layout,
    owners: &[Option<DefiningFile>],
    symbol: SymbolIndex,
) -> Option<&'a File>
    requires owners { HasDefiningFiles layout.now owners.now }
    requires known { symbol < length owners.now }
    ensures { option_copied result ≡ file_of (files_of layout.now.groups) symbol }
{
    match owners[symbol.0] {
        Some(owner) => file_at(layout, owner),
        None => None,
    }
}

/// The merged section of which a symbol, which the output defines, is the section symbol. Only section symbols read their file.
#[tactic(auto, using(crate::proofs::DefiningFileLemmas::merged_is, crate::proofs::DefiningFileLemmas::merged_fileless, crate::proofs::DefiningFileLemmas::merged_other))]
fn section_in<'a>(
    layout: &'a Layout,
    owners: &[Option<DefiningFile>],
    index: SymbolIndex,
    symbol: &Symbol,
) -> Option<&'a InputSection>
    requires owners { HasDefiningFiles layout.now owners.now }
    requires known { index < length owners.now }
    requires plain { is_plain_own (flags_at layout.now index) ≡ true }
    requires symbol { slice_get layout.now.symbols index ≡ Some symbol.now }
    ensures { option_map (λ (s : InputSection). s.strings) (option_copied result) ≡ merged_strings layout.now index }
{
    if !is_section_symbol(symbol) {
        return None;
    }
    match file_of(layout, owners, index) {
        Some(file) => merged_section(file, symbol),
        None => None,
    }
}

/// The same for any symbol whose file is known.
#[tactic(auto, using(crate::proofs::DefiningFileLemmas::merged_plain, crate::proofs::DefiningFileLemmas::merged_missing))]
fn section_of<'a>(
    layout: &'a Layout,
    owners: &[Option<DefiningFile>],
    symbol: SymbolIndex,
) -> Option<&'a InputSection>
    requires owners { HasDefiningFiles layout.now owners.now }
    requires known { symbol < length owners.now }
    ensures { option_map (λ (s : InputSection). s.strings) (option_copied result) ≡ merged_strings layout.now symbol }
{
    if !is_plain_own(flags_at(layout, symbol)) {
        return None;
    }
    match layout.symbols.as_slice().get(symbol.0) {
        Some(found) => section_in(layout, owners, symbol, found),
        None => None,
    }
}

/// The merged section of which a symbol is the section symbol.
#[tactic(auto, using(crate::proofs::DefiningFileLemmas::merged_past))]
pub(crate) fn section_of_merged<'a>(
    layout: &'a Layout,
    owners: &[Option<DefiningFile>],
    symbol: SymbolIndex,
) -> Option<&'a InputSection>
    requires { HasDefiningFiles layout.now owners.now }
    ensures { option_map (λ (s : InputSection). s.strings) (option_copied result) ≡ merged_strings layout.now symbol }
{
    if symbol.0 < owners.len() {
        section_of(layout, owners, symbol)
    } else {
        None
    }
}

/// Whether a symbol is the section symbol of a merged section.
pub(crate) fn names_merged(
    layout: &Layout,
    owners: &[Option<DefiningFile>],
    symbol: SymbolIndex,
) -> bool
    requires { HasDefiningFiles layout.now owners.now }
    ensures { result ≡ names_merged layout.now (Some symbol) }
{
    section_of_merged(layout, owners, symbol).is_some()
}
