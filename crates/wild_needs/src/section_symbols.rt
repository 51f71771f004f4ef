//! Counts the section symbols of a relocatable object (gABI, "Symbol Table": `STT_SECTION`).
ghost use Rattle.std.specs.Prelude.{◌≡◌, ◌-◌, ◌^◌, ◌≤◌, min, length};
ghost use Rattle.wild_needs.specs.TableSymbols.{marked_sections, section_symbols};
ghost use Rattle.wild_needs.specs.SectionSymbols.{singletons_of, singletons_of_group, singleton_count};

use wild_types::{File, Group, Layout, Section};

/// The number of sections that have a section symbol by the layout.
fn marked_section_count(sections: &[Section]) -> usize
    ensures { result ≡ length (marked_sections 0 sections.now) }
{
    let mut count = 0;
    for section in sections {
        if section.section_symbol {
            count += 1;
        }
    }
    count
}

/// The number of input sections of a file that the object keeps as sections of their own.
fn singletons_of(file: &File) -> usize
    ensures { result ≡ singletons_of file.now }
{
    let mut count = 0;
    for section in file.sections.as_slice() {
        if section.singleton.is_some() {
            count += 1;
        }
    }
    count
}

/// The number of such sections of a group, at most 2^64 - 1.
fn singletons_of_group(group: &Group) -> usize
    ensures { result ≡ min (2 ^ 64 - 1) (singletons_of_group group.now) }
{
    let mut count: usize = 0;
    for file in group.files.as_slice() {
        count = count.saturating_add(singletons_of(file));
    }
    count
}

/// The number of such sections of all files, at most 2^64 - 1.
fn singleton_count(layout: &Layout) -> usize
    ensures { result ≡ min (2 ^ 64 - 1) (singleton_count layout.now) }
{
    let mut count: usize = 0;
    for group in layout.groups.as_slice() {
        count = count.saturating_add(singletons_of_group(group));
    }
    count
}

/// The number of section symbols of a relocatable object, at most 2^64 - 1.
#[tactic(auto, unfolding(crate::specs::TableSymbols::section_symbols), using(crate::proofs::SectionSymbolLemmas::section_symbols_counted))]
pub fn section_symbol_count(layout: &Layout) -> usize
    ensures { result ≡ min (2 ^ 64 - 1) (length (section_symbols layout.now)) }
{
    if !layout.kind.is_partial_link() {
        return 0;
    }
    marked_section_count(layout.sections.as_slice()).saturating_add(singleton_count(layout))
}
