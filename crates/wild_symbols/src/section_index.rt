//! The indexes of section symbols in the `.symtab` of a relocatable object (gABI, "Symbol Table": `STT_SECTION`).
ghost use Rattle.std.specs.Prelude.{◌≡◌, ℕ, ◌+◌, ◌<◌, ◌==◌, IfOk, Some, None, if◌then◌else◌, unwrap_or, length, slice_index_or};
ghost use Rattle.std.specs.Option.{option_or};
ghost use Rattle.wild_types.specs.Kinds.{is_partial_link};
ghost use Rattle.wild_needs.specs.TableSymbols.{marked_sections, singleton_sections};
ghost use Rattle.wild_table_formats.specs.SectionSymbols.{number_from, section_at, section_index, section_number, front_count};
ghost use Rattle.wild_symbols.specs.SymbolNumbers.{SectionNumbered, SectionSought, HasFlaggedNumbers, HasSingletonNumbers, section_symbol_number};

use crate::numbers::note;
use crate::section_walk::{give_flagged_sections, give_singletons};
use std::alloc::{AllocError, Global};
use wild_records::abi::symbol::STT_SECTION;
use wild_types::{File, InputSection, Layout, Place, Symbol};
use wild_words::Sink;

/// The number plus 1. Fails on overflow, since no memory could hold so many entries.
fn next_number(number: usize) -> Result<usize, AllocError>
    ensures { IfOk result (λ n. n ≡ number + 1) }
{
    number.checked_add(1).ok_or(AllocError)
}

/// The symbol index of each section so far, by header index, and the next symbol index.
#[derive(Drop)]
struct SectionTable {
    numbers: Vec<Option<usize>>,
    next: usize,
}

impl SectionTable {
    /// Stores the next symbol index for a section, unless it has one.
    fn note(&mut self, header: usize)
        ensures noted { (k : ℕ) → k < length self.old.numbers.items → slice_index_or self.new.numbers.items k None
            ≡ option_or (slice_index_or self.old.numbers.items k None) (if header == k then Some self.old.next else None) }
        ensures count { length self.new.numbers.items ≡ length self.old.numbers.items }
        ensures next { self.new.next ≡ self.old.next }
    {
        note(true, header, self.next, &mut self.numbers);
    }

    /// Advances to the next symbol index.
    fn step(&mut self) -> Result<(), AllocError>
        ensures numbers { self.new.numbers ≡ self.old.numbers }
        ensures next { IfOk result (λ u. self.new.next ≡ self.old.next + 1) }
    {
        self.next = next_number(self.next)?;
        Ok(())
    }
}

impl Sink<usize> for SectionTable {
    ghost use Rattle.wild_symbols.specs.SymbolNumbers.{SectionNumbered};

    type Error = AllocError;

    ghost goes = { SectionNumbered };

    ghost refuses = { λ a x e b. Unit {0} };

    fn take(&mut self, header: usize) -> Result<(), AllocError> {
        self.note(header);
        self.step()
    }
}

/// The index of the first symbol of the section with this header index, if found so far, and the next symbol index.
#[derive(Drop)]
struct SectionSearch {
    header: usize,
    found: Option<usize>,
    next: usize,
}

impl SectionSearch {
    /// What has been found after one more section symbol.
    fn found_with(&self, header: usize) -> Option<usize>
        ensures { result ≡ (if header == self.now.header then option_or self.now.found (Some self.now.next) else self.now.found) }
    {
        if header == self.header {
            self.found.or(Some(self.next))
        } else {
            self.found
        }
    }

    /// Advances to the next symbol index.
    fn step(&mut self, found: Option<usize>) -> Result<(), AllocError>
        ensures found { self.new.found ≡ found }
        ensures header { self.new.header ≡ self.old.header }
        ensures next { IfOk result (λ u. self.new.next ≡ self.old.next + 1) }
    {
        self.found = found;
        self.next = next_number(self.next)?;
        Ok(())
    }
}

impl Sink<usize> for SectionSearch {
    ghost use Rattle.wild_symbols.specs.SymbolNumbers.{SectionSought};

    type Error = AllocError;

    ghost goes = { SectionSought };

    ghost refuses = { λ a x e b. Unit {0} };

    fn take(&mut self, header: usize) -> Result<(), AllocError> {
        let found = self.found_with(header);
        self.step(found)
    }
}

/// The symbol indexes of the output sections with the flag `section_symbol`, and the index after them.
#[tactic(auto, using(crate::proofs::NumberLemmas::flagged_numbers))]
fn flagged_numbers(
    alloc: Global,
    layout: &Layout,
) -> Result<(Vec<Option<usize>>, usize), AllocError>
    ensures numbers { IfOk result (λ r. HasFlaggedNumbers layout.now r.0.items) }
    ensures next { IfOk result (λ r. r.1 ≡ 1 + length (marked_sections 0 layout.now.sections)) }
{
    let sections = layout.sections.as_slice();
    let mut table = SectionTable {
        numbers: vec![in alloc; None; sections.len()]?,
        next: 1,
    };
    give_flagged_sections(sections, &mut table)?;
    Ok((table.numbers, table.next))
}

/// The symbol indexes of the input sections that the object keeps as sections of their own, and the index after them.
#[tactic(auto, using(crate::proofs::NumberLemmas::singleton_numbers))]
fn singleton_numbers(
    alloc: Global,
    layout: &Layout,
    front: usize,
) -> Result<(Vec<Option<usize>>, usize), AllocError>
    ensures numbers { IfOk result (λ r. HasSingletonNumbers layout.now front r.0.items) }
    ensures next { IfOk result (λ r. r.1 ≡ front + length (singleton_sections layout.now)) }
{
    let mut table = SectionTable {
        numbers: vec![in alloc; None; layout.sections.len()]?,
        next: front,
    };
    give_singletons(layout, &mut table)?;
    Ok((table.numbers, table.next))
}

/// The index of each section's symbol, by the section's header index.
#[derive(Drop)]
pub(crate) struct SectionNumbers<'a> {
    pub(crate) layout: &'a Layout,
    flagged: Vec<Option<usize>>,
    singletons: Vec<Option<usize>>,
    first_singleton: usize,
    first_after_singletons: usize,
    ghost flagged_are: { HasFlaggedNumbers layout.now flagged.items },
    ghost first_singleton_is: { first_singleton ≡ 1 + length (marked_sections 0 layout.now.sections) },
    ghost singletons_are: { HasSingletonNumbers layout.now first_singleton singletons.items },
    ghost first_after_is: { first_after_singletons ≡ first_singleton + length (singleton_sections layout.now) },
}

impl<'a> SectionNumbers<'a> {
    /// Computes the indexes for a layout.
    pub(crate) fn of(alloc: Global, layout: &'a Layout) -> Result<SectionNumbers<'a>, AllocError>
        ensures { IfOk result (λ n. n.layout.now ≡ layout.now) }
    {
        let (flagged, first_singleton) = flagged_numbers(alloc, layout)?;
        let (singletons, first_after_singletons) = singleton_numbers(
            alloc,
            layout,
            first_singleton,
        )?;
        Ok(SectionNumbers {
            layout,
            flagged,
            singletons,
            first_singleton,
            first_after_singletons,
        })
    }

    /// The number of entries before the named ones: the null symbol, and in a relocatable object the section symbols.
    #[tactic(auto, unfolding(wild_needs::specs::TableSymbols::section_symbols), using(crate::proofs::NumberLemmas::front_counted))]
    pub(crate) fn front_count(&self) -> usize
        ensures { result ≡ front_count self.now.layout.now }
    {
        if self.layout.kind.is_partial_link() {
            self.first_after_singletons
        } else {
            1
        }
    }

    /// The symbol index of an output section with the flag `section_symbol`.
    #[tactic(auto, using(crate::proofs::NumberLemmas::asked_looked_up))]
    fn flagged_number(&self, header: usize) -> Option<usize>
        ensures { result ≡ number_from header 1 (marked_sections 0 self.now.layout.now.sections) }
    {
        match self.flagged.get(header) {
            Some(number) => *number,
            None => None,
        }
    }

    /// The symbol index of a section that the object keeps as one of its own, found by a walk over all of them.
    #[tactic(auto, using(crate::proofs::NumberLemmas::sought))]
    fn sought_number(&self, header: usize) -> Result<Option<usize>, AllocError>
        ensures { IfOk result (λ n. n ≡ number_from header self.now.first_singleton (singleton_sections self.now.layout.now)) }
    {
        let mut search = SectionSearch {
            header,
            found: None,
            next: self.first_singleton,
        };
        give_singletons(self.layout, &mut search)?;
        Ok(search.found)
    }

    /// The same from the table. Only for a header index that is not in the table a walk is needed.
    #[tactic(auto, using(crate::proofs::NumberLemmas::alone_looked_up))]
    fn singleton_number(&self, header: usize) -> Result<Option<usize>, AllocError>
        ensures { IfOk result (λ n. n ≡ number_from header self.now.first_singleton (singleton_sections self.now.layout.now)) }
    {
        match self.singletons.get(header) {
            Some(number) => Ok(*number),
            None => self.sought_number(header),
        }
    }

    /// The index of the symbol of the output section that contains an input section; 0 if it has no symbol.
    fn section_index(&self, section: &InputSection) -> Result<usize, AllocError>
        ensures { IfOk result (λ n. n ≡ section_index self.now.layout.now section.now) }
    {
        let number = match section.singleton {
            Some(header) => self.singleton_number(header.0)?,
            None => self.flagged_number(self.layout.section_of(section.part).0),
        };
        Ok(number.unwrap_or(0))
    }

    /// The same; `None` for a discarded section.
    fn section_number(&self, section: &InputSection) -> Result<Option<usize>, AllocError>
        ensures { IfOk result (λ n. n ≡ section_number self.now.layout.now section.now) }
    {
        if section.slot.is_discarded() {
            return Ok(None);
        }
        Ok(Some(self.section_index(section)?))
    }

    /// For a section symbol of an input file, the index of the symbol of its output section; otherwise `None`.
    pub(crate) fn section_symbol_number(
        &self,
        file: &File,
        symbol: &Symbol,
    ) -> Result<Option<usize>, AllocError>
        ensures { IfOk result (λ n. n ≡ section_symbol_number self.now.layout.now file.now symbol.now) }
    {
        let Place::Section(index) = symbol.place else {
            return Ok(None);
        };
        match file.sections.as_slice().get(index) {
            Some(section) if symbol.info % 16 == STT_SECTION => self.section_number(section),
            _ => Ok(None),
        }
    }
}
