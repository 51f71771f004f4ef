//! The indexes of symbols' own entries in `.symtab` (gABI, "Symbol Table").
ghost use Rattle.std.specs.Prelude.{◌≡◌, ℕ, ◌+◌, ◌<◌, ◌&&◌, ◌==◌, length, IfOk, true, Some, None, if◌then◌else◌, slice_index_or};
ghost use Rattle.std.specs.List.{flat_map};
ghost use Rattle.std.specs.Option.{option_or};
ghost use Rattle.wild_types.specs.declared.symbol.Symbol.{Symbol};
ghost use Rattle.wild_words.specs.Runs.{SinkRun};
ghost use Rattle.wild_needs.specs.TableSymbols.{file_items, item, side};
ghost use Rattle.wild_table_formats.specs.SectionSymbols.{all_items, is_own_entry, front_count};
ghost use Rattle.wild_symbols.specs.SymbolNumbers.{number_at, local_after, other_after, Numbered, HasOwnNumbers};

use std::alloc::{AllocError, Global};
use wild_needs::{SymtabName, TableSink, give_table, is_local};
use wild_types::{Group, Layout, Symbol};

/// Stores a number at position `at` if `asked` is set and no number is there.
pub(crate) fn note(asked: bool, at: usize, number: usize, table: &mut [Option<usize>])
    ensures { (k : ℕ) → k < length table.old → slice_index_or table.new k None
        ≡ option_or (slice_index_or table.old k None) (if asked && at == k then Some number else None) }
{
    if asked && at < table.len() {
        table[at] = table[at].or(Some(number));
    }
}

/// Whether an entry is a symbol's own, not one for its slot, stub or thunk.
fn is_itself(named: SymtabName) -> bool
    ensures { (i k : ℕ) (s : Symbol) → is_own_entry k (item named i s) ≡ (result && i == k) }
{
    matches!(named, SymtabName::Itself)
}

/// The indexes of the entries so far, and the indexes of the next local and the next other entry.
#[derive(Drop)]
struct Numbers {
    numbers: Vec<Option<usize>>,
    local: usize,
    other: usize,
}

impl Numbers {
    /// The index of the next entry.
    fn number(&self, local: bool) -> usize
        ensures { result ≡ number_at local self.now.local self.now.other }
    {
        if local { self.local } else { self.other }
    }

    /// Stores the index of a symbol's own entry, unless it has one.
    fn note(&mut self, own: bool, index: usize, number: usize)
        ensures noted { (k : ℕ) → k < length self.old.numbers.items → slice_index_or self.new.numbers.items k None
            ≡ option_or (slice_index_or self.old.numbers.items k None) (if own && index == k then Some number else None) }
        ensures count { length self.new.numbers.items ≡ length self.old.numbers.items }
        ensures local { self.new.local ≡ self.old.local }
        ensures other { self.new.other ≡ self.old.other }
    {
        note(own, index, number, &mut self.numbers);
    }

    /// Advances to the next index. Fails on overflow, since no memory could hold so many entries.
    fn step(&mut self, local: bool) -> Result<(), AllocError>
        ensures numbers { self.new.numbers ≡ self.old.numbers }
        ensures local { IfOk result (λ u. self.new.local ≡ local_after local self.old.local) }
        ensures other { IfOk result (λ u. self.new.other ≡ other_after local self.old.other) }
    {
        if local {
            self.local = self.local.checked_add(1).ok_or(AllocError)?;
        } else {
            self.other = self.other.checked_add(1).ok_or(AllocError)?;
        }
        Ok(())
    }
}

impl TableSink for Numbers {
    ghost use Rattle.wild_symbols.specs.SymbolNumbers.{Numbered};

    type Error = AllocError;

    ghost goes = { Numbered };

    ghost refuses = { λ a x e b. Unit {0} };

    fn take(&mut self, named: SymtabName, index: usize, symbol: &Symbol) -> Result<(), AllocError> {
        let local = is_local(named, symbol);
        let number = self.number(local);
        self.note(is_itself(named), index, number);
        self.step(local)
    }
}

/// Passes the entries of a group to the sink.
#[tactic(auto, using(wild_words::proofs::RunLemmas::listed_loops))]
fn give_group<S: TableSink>(layout: &Layout, group: &Group, sink: &mut S) -> Result<(), S::Error>
    ensures { SinkRun S.goes S.refuses sink.old (flat_map (file_items layout.now) group.now.files) result sink.new }
{
    for file in group.files.as_slice() {
        give_table(layout, file, sink)?;
    }
    Ok(())
}

/// Passes the entries of all groups to the sink.
#[tactic(auto, using(wild_words::proofs::RunLemmas::listed_loops))]
fn give_groups<S: TableSink>(layout: &Layout, sink: &mut S) -> Result<(), S::Error>
    ensures { SinkRun S.goes S.refuses sink.old (flat_map (λ (g : Group). flat_map (file_items layout.now) g.files) layout.now.groups) result sink.new }
{
    for group in layout.groups.as_slice() {
        give_group(layout, group, sink)?;
    }
    Ok(())
}

/// Passes all entries to the sink.
fn give_all<S: TableSink>(layout: &Layout, sink: &mut S) -> Result<(), S::Error>
    ensures { SinkRun S.goes S.refuses sink.old (all_items layout.now) result sink.new }
{
    give_groups(layout, sink)
}

/// The index after all local entries. The first counted entry has index `front`.
#[tactic(auto, using(crate::proofs::NumberLemmas::counted))]
fn end_of_locals(alloc: Global, layout: &Layout, front: usize) -> Result<usize, AllocError>
    ensures { IfOk result (λ n. n ≡ front + length (side true (all_items layout.now))) }
{
    let mut count = Numbers {
        numbers: Vec::new(alloc),
        local: front,
        other: 0,
    };
    give_all(layout, &mut count)?;
    Ok(count.local)
}

/// The index of each symbol's own entry.
#[tactic(auto, using(crate::proofs::NumberLemmas::own_numbers))]
pub(crate) fn own_numbers(
    alloc: Global,
    layout: &Layout,
    front: usize,
) -> Result<Vec<Option<usize>>, AllocError>
    requires { front ≡ front_count layout.now }
    ensures { IfOk result (λ v. HasOwnNumbers layout.now v.items) }
{
    let mut table = Numbers {
        numbers: vec![in alloc; None; layout.symbols.len()]?,
        local: front,
        other: end_of_locals(alloc, layout, front)?,
    };
    give_all(layout, &mut table)?;
    Ok(table.numbers)
}
