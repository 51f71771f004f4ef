//! Counts the dynamic relocations and RELR words of a file's placed sections.
ghost use Rattle.std.specs.Prelude.{◌≡◌, ℕ, ◌+◌, ◌-◌, ◌^◌, ◌≤◌, ◌∷◌, true, not, length, min, map, List};
ghost use Rattle.wild_types.specs.declared.file.File.{File};
ghost use Rattle.wild_types.specs.declared.input.InputRelocation.{InputRelocation};
ghost use Rattle.wild_types.specs.declared.layout.Layout.{Layout};
ghost use Rattle.wild_types.specs.Lists.{total};
ghost use Rattle.wild_placement.specs.PlacedSections.{Input, sorted_input, address_after, placed_section, placed_sections, placed_file, sorted_sections, as_loaded, unread, of_last_file, processed_sections};
ghost use Rattle.wild_placement.specs.FrameInputs.{kept_size};
ghost use Rattle.wild_placement.specs.ReversedWords.{with_word_order};
ghost use Rattle.wild_needs.specs.Entries.{rela_places, words_of, dynamic_relocations};
ghost use Rattle.wild_needs.specs.Tallies.{section_facts, counted_in, may_have_items, type_allows, types_exclude, reads_places, rest_of, tallied};
ghost use Rattle.wild_relr.specs.declared.run.Run.TheVariants.{Closed};

use crate::entries::{
    count_place, has_dynamic_entry_by, is_rela_at, may_be_relative, may_have_dynamic_entry,
    relr_place_at,
};
use std::convert::Infallible;
use wild_placement::{frame_flags, give_relocations, give_reversed, kept_size, sorted_input};
use wild_relr::{Run, runs_are_counted};
use wild_types::{
    File, InputRelocation, InputSection, Layout, SortedSection, Test, all_pass, is_allocated,
};
use wild_words::Sink;

/// The kind of item that is counted.
#[derive(Clone, Copy)]
pub(crate) enum Counted {
    /// Relative entries with addends.
    Listed,
    /// RELR words, which pack the other relative relocations.
    Packed,
    /// Entries that name a symbol or a resolver.
    Dynamic,
}

impl Counted {
    /// Whether the count depends on the addresses of sections: with RELR even places are packed, and odd ones have an entry.
    fn reads_places(self, layout: &Layout) -> bool
        ensures { result ≡ reads_places self layout.now }
    {
        match self {
            Counted::Listed | Counted::Packed => {
                layout.kind.is_position_independent() && layout.options.relr
            }
            Counted::Dynamic => false,
        }
    }
}

/// The properties of a placed section on which the count depends.
#[derive(Clone, Copy)]
struct SectionFacts {
    flags: u64,
    address: u64,
    is_read: bool,
}

impl SectionFacts {
    /// The properties of a section of a file whose next frames begin at an address.
    #[tactic(auto, using(crate::proofs::TallyLemmas::stands))]
    fn of(at: u64, section: &InputSection) -> SectionFacts
        ensures { (l : Layout) (f : File) → result ≡ section_facts (placed_section l f at section.now) }
    {
        if section.slot.is_frame() {
            SectionFacts {
                flags: frame_flags(section.flags),
                address: at,
                is_read: true,
            }
        } else {
            SectionFacts {
                flags: section.flags,
                address: section.address,
                is_read: section.is_read(),
            }
        }
    }

    /// The properties of a sorted section.
    #[tactic(auto, using(crate::proofs::TallyLemmas::stands))]
    fn sorted(section: &InputSection) -> SectionFacts
        ensures { (l : Layout) → result ≡ section_facts (with_word_order (as_loaded (unread l section.now))) }
    {
        SectionFacts {
            flags: section.flags,
            address: section.address,
            is_read: !section.nobits,
        }
    }
}

/// Whether a section may have items of that kind. Without the option no place is packed as RELR.
#[inline(always)]
fn may_have_items(kind: Counted, layout: &Layout, standing: SectionFacts) -> bool
    ensures { result ≡ may_have_items kind layout.now standing }
{
    match kind {
        Counted::Listed => layout.kind.is_position_independent() && standing.is_read,
        Counted::Packed => {
            layout.kind.is_position_independent() && standing.is_read && layout.options.relr
        }
        Counted::Dynamic => standing.is_read && is_allocated(standing.flags),
    }
}

/// Whether a relocation of that type can be an item of that kind, in a section with such flags.
#[inline(always)]
fn type_allows(kind: Counted, flags: u64, number: u32) -> bool
    ensures { result ≡ type_allows kind flags number }
{
    match kind {
        Counted::Listed | Counted::Packed => may_be_relative(number),
        Counted::Dynamic => may_have_dynamic_entry(flags, number),
    }
}

/// The test that a relocation cannot be an item of that kind, by its type and the flags of its section.
#[derive(Clone, Copy)]
struct TypeExcludes {
    kind: Counted,
    flags: u64,
}

impl Test<InputRelocation> for TypeExcludes {
    ghost test = { λ t r. not (type_allows t.kind t.flags r.number) };

    #[inline(always)]
    fn passes(&self, relocation: &InputRelocation) -> bool {
        !type_allows(self.kind, self.flags, relocation.number)
    }
}

/// Whether no relocation of an input section can be an item of that kind, by its type. Then the entries of its frames are not walked.
fn types_exclude(kind: Counted, flags: u64, section: &InputSection) -> bool
    ensures { result ≡ types_exclude kind flags section.now.relocations }
{
    all_pass(
        &TypeExcludes { kind, flags },
        section.relocations.as_slice(),
    )
}

/// The count of the relocations of a section, at most 2^64 - 1.
#[derive(Drop)]
struct Tally<'a> {
    layout: &'a Layout,
    kind: Counted,
    standing: SectionFacts,
    /// The state of the RELR run that packs the section's places.
    run: Run,
    count: u64,
}

impl<'a> Tally<'a> {
    /// A count of 0.
    #[inline(always)]
    fn new(kind: Counted, layout: &'a Layout, standing: SectionFacts) -> Tally<'a>
        ensures none { result.count ≡ 0 }
        ensures first { (rs : List InputRelocation) → tallied result rs ≡ min (2 ^ 64 - 1) (rest_of kind layout.now standing Closed rs) }
    {
        Tally {
            layout,
            kind,
            standing,
            run: Run::Closed,
            count: 0,
        }
    }

    /// The amount that a relocation adds, and the RELR run after it.
    #[inline(always)]
    #[tactic(auto, using(crate::proofs::TallyLemmas::steps))]
    fn step(&self, relocation: &InputRelocation) -> (usize, Run)
        ensures { (rs : List InputRelocation) → result.0 + rest_of self.now.kind self.now.layout.now self.now.standing result.1 rs ≡ rest_of self.now.kind self.now.layout.now self.now.standing self.now.run (relocation.now ∷ rs) }
    {
        let SectionFacts { flags, address, .. } = self.standing;
        match self.kind {
            Counted::Listed => {
                let is_listed = is_rela_at(self.layout, flags, address, relocation);
                (usize::from(is_listed), self.run)
            }
            Counted::Packed => {
                count_place(
                    self.run,
                    relr_place_at(self.layout, flags, address, relocation),
                )
            }
            Counted::Dynamic => {
                let needs_symbolic = has_dynamic_entry_by(self.layout, flags, relocation);
                (usize::from(needs_symbolic), self.run)
            }
        }
    }
}

impl Sink<InputRelocation> for Tally<'_> {
    ghost use Rattle.wild_needs.specs.Entries.{rela_places, words_of, dynamic_relocations};
    ghost use Rattle.wild_needs.specs.Tallies.{Tallies};

    type Error = Infallible;

    ghost goes = { Tallies };

    ghost refuses = { λ a x e b. ⊥ };

    #[inline(always)]
    #[tactic(auto, using(crate::proofs::TallyLemmas::tallies))]
    fn take(&mut self, relocation: InputRelocation) -> Result<(), Infallible> {
        let (more, run) = self.step(&relocation);
        self.count = self.count.saturating_add(more as u64);
        self.run = run;
        Ok(())
    }
}

/// The number of items of that kind in a section, at most 2^64 - 1.
#[inline(always)]
#[tactic(auto, using(crate::proofs::TallyLemmas::tallies, crate::proofs::TypeLemmas::excluded_section))]
fn count_section(
    kind: Counted,
    layout: &Layout,
    at: u64,
    file: &File,
    section: &InputSection,
) -> u64
    ensures { result ≡ min (2 ^ 64 - 1) (counted_in kind layout.now (placed_section layout.now file.now at section.now)) }
{
    let standing = SectionFacts::of(at, section);
    if !may_have_items(kind, layout, standing) {
        return 0;
    }
    if types_exclude(kind, standing.flags, section) {
        return 0;
    }
    runs_are_counted();
    let mut tally = Tally::new(kind, layout, standing);
    match give_relocations(layout, file, section, &mut tally) {
        Ok(()) => tally.count,
        Err(never) => match never {},
    }
}

/// The numbers of dynamic relocations and RELR words of a section, each at most 2^64 - 1.
#[derive(Clone, Copy, Debug, PartialEq, Eq)]
pub struct SectionCounts {
    /// Relative entries with addends.
    pub listed: u64,
    /// RELR words.
    pub packed: u64,
    /// Entries that name a symbol or a resolver.
    pub symbolic: u64,
}

/// The numbers of dynamic relocations and RELR words of a section of a file, as placed, where the file's frames begin at address 0.
pub fn section_counts(layout: &Layout, file: &File, section: &InputSection) -> SectionCounts
    ensures listed { result.listed ≡ min (2 ^ 64 - 1) (length (rela_places layout.now (placed_section layout.now file.now 0 section.now))) }
    ensures packed { result.packed ≡ min (2 ^ 64 - 1) (length (words_of layout.now (placed_section layout.now file.now 0 section.now))) }
    ensures symbolic { result.symbolic ≡ min (2 ^ 64 - 1) (length (dynamic_relocations layout.now (placed_section layout.now file.now 0 section.now))) }
{
    SectionCounts {
        listed: count_section(Counted::Listed, layout, 0, file, section),
        packed: count_section(Counted::Packed, layout, 0, file, section),
        symbolic: count_section(Counted::Dynamic, layout, 0, file, section),
    }
}

/// The number of items of that kind in a sorted section, at most 2^64 - 1.
#[tactic(auto, using(crate::proofs::TallyLemmas::tallies))]
fn count_sorted_section(kind: Counted, layout: &Layout, section: &InputSection) -> u64
    ensures { result ≡ min (2 ^ 64 - 1) (counted_in kind layout.now (with_word_order (as_loaded (unread layout.now section.now)))) }
{
    let standing = SectionFacts::sorted(section);
    if !may_have_items(kind, layout, standing) {
        return 0;
    }
    runs_are_counted();
    let mut tally = Tally::new(kind, layout, standing);
    match give_reversed(layout, section, &mut tally) {
        Ok(()) => tally.count,
        Err(never) => match never {},
    }
}

/// The address of the frames after those of a section, if the count depends on the addresses of sections.
#[inline(always)]
fn next_frames_at(
    kind: Counted,
    layout: &Layout,
    at: u64,
    file: &File,
    section: &InputSection,
) -> u64
    ensures { reads_places kind layout.now ≡ true → result ≡ address_after at (kept_size layout.now file.now section.now) }
{
    if kind.reads_places(layout) {
        at.wrapping_add(kept_size(layout, file, section))
    } else {
        at
    }
}

/// The sum over the sections of a file, at most 2^64 - 1. The file's frames begin at address `at`.
#[inline(always)]
#[tactic(auto, using(crate::proofs::TallyLemmas::section_loops))]
pub(crate) fn count_sections(kind: Counted, layout: &Layout, at: u64, file: &File) -> u64
    ensures { result ≡ min (2 ^ 64 - 1) (total (counted_in kind layout.now) (placed_sections layout.now file.now at file.now.sections)) }
{
    let mut sum: u64 = 0;
    let mut at = at;
    for section in file.sections.as_slice() {
        sum = sum.saturating_add(count_section(kind, layout, at, file, section));
        at = next_frames_at(kind, layout, at, file, section);
    }
    sum
}

/// The number of items for an entry of the sort order, if it refers to a sorted section.
fn count_sort_entry(kind: Counted, layout: &Layout, entry: SortedSection) -> u64
    ensures { result ≡ min (2 ^ 64 - 1) (total (counted_in kind layout.now) (map (λ (x : Input). with_word_order x.section) (sorted_input layout.now entry))) }
{
    match sorted_input(layout, entry) {
        Some(input) => count_sorted_section(kind, layout, input.section),
        None => 0,
    }
}

/// The sum over the sorted sections, at most 2^64 - 1.
#[tactic(auto, using(crate::proofs::TallyLemmas::sorted_loops))]
pub(crate) fn count_sorted(kind: Counted, layout: &Layout) -> u64
    ensures { result ≡ min (2 ^ 64 - 1) (total (counted_in kind layout.now) (sorted_sections layout.now)) }
{
    let mut sum: u64 = 0;
    for entry in layout.sorted.as_slice() {
        sum = sum.saturating_add(count_sort_entry(kind, layout, *entry));
    }
    sum
}

/// The number of items of that kind in a file, at most 2^64 - 1. The file's frames begin at address `at`. The last file also has those of
/// the sorted sections.
#[inline(always)]
#[tactic(auto, using(crate::proofs::TallyLemmas::sums))]
pub(crate) fn count_of_file(kind: Counted, layout: &Layout, at: u64, file: &File) -> u64
    ensures { result ≡ min (2 ^ 64 - 1) (total (counted_in kind layout.now) (processed_sections layout.now (placed_file layout.now at file.now))) }
{
    let own = count_sections(kind, layout, at, file);
    if file.role.is_epilogue() {
        own.saturating_add(count_sorted(kind, layout))
    } else {
        own
    }
}
