//! The one walk over the symbols of a file for `.symtab` (gABI, "Symbol Table"). It passes each symbol to a sink, which counts, writes or
//! checks it.
ghost use Rattle.std.specs.Prelude.{[], if◌then◌else◌};
ghost use Rattle.std.specs.List.{flat_map};
ghost use Rattle.wild_types.specs.FileSymbols.{loaded_symbols};
ghost use Rattle.wild_needs.specs.TableSymbols.{item, item_if, slot_items, own_item, symbol_items, pass_items, passes, items_of, thunk_item, thunk_items, file_items};
ghost use Rattle.wild_words.specs.Runs.{SinkRun};

use crate::table::{SymtabName, SymtabPass, passes};
use wild_types::{File, Layout, Symbol, Thunk};

/// A sink for the symbols of `.symtab`, which arrive one by one.
pub trait TableSink {
    ghost use Rattle.std.specs.Prelude.{[], ◌∷◌};
    ghost use Rattle.wild_needs.specs.TableSymbols.{TableSymbol, item};
    ghost use Rattle.wild_words.specs.Runs.{SinkRun};

    /// Why a symbol is refused.
    type Error: Drop;

    /// The relation between the state before and after a symbol is accepted.
    ghost goes: { Self → TableSymbol → Self → Type 0 };

    /// The relation between the state before a symbol is refused, the reason, and the state after it.
    ghost refuses: { Self → TableSymbol → Self.Error → Self → Type 0 };

    /// Accepts or refuses the symbol with that number, or the name of its slot, its stub or a thunk to it.
    fn take(&mut self, named: SymtabName, index: usize, symbol: &Symbol) -> Result<(), Self::Error>
        ensures { SinkRun goes refuses self.old (item named index symbol.now ∷ []) result self.new };
}

/// Passes a symbol, or the name of its slot or its stub, if `.symtab` contains it.
#[inline(always)]
#[tactic(auto, using(wild_words::proofs::RunLemmas::runs))]
fn give_if<S: TableSink>(
    asked: bool,
    named: SymtabName,
    index: usize,
    symbol: &Symbol,
    sink: &mut S,
) -> Result<(), S::Error>
    ensures { SinkRun S.goes S.refuses sink.old (item_if asked (item named index symbol.now)) result sink.new }
{
    if asked {
        sink.take(named, index, symbol)
    } else {
        Ok(())
    }
}

/// Passes the names of a symbol's slot and its stub.
#[inline(always)]
#[tactic(auto, using(wild_words::proofs::RunLemmas::runs))]
fn give_slots<S: TableSink>(
    layout: &Layout,
    index: usize,
    symbol: &Symbol,
    sink: &mut S,
) -> Result<(), S::Error>
    ensures { SinkRun S.goes S.refuses sink.old (slot_items layout.now index symbol.now) result sink.new }
{
    let slot = layout.names_slot(index, symbol);
    let stub = layout.names_stub(index, symbol);
    give_if(slot, SymtabName::Slot, index, symbol, sink)?;
    give_if(stub, SymtabName::Stub, index, symbol, sink)
}

/// As `give_slots`, if the pass takes them.
#[inline(always)]
#[tactic(auto, using(wild_words::proofs::RunLemmas::runs))]
fn give_slots_in<S: TableSink>(
    layout: &Layout,
    pass: SymtabPass,
    index: usize,
    symbol: &Symbol,
    sink: &mut S,
) -> Result<(), S::Error>
    ensures { SinkRun S.goes S.refuses sink.old (if pass.slots then slot_items layout.now index symbol.now else []) result sink.new }
{
    if pass.slots {
        give_slots(layout, index, symbol, sink)
    } else {
        Ok(())
    }
}

/// Passes the symbol itself, if the pass takes it.
#[inline(always)]
#[tactic(auto, using(wild_words::proofs::RunLemmas::runs))]
fn give_own_in<S: TableSink>(
    pass: SymtabPass,
    index: usize,
    symbol: &Symbol,
    sink: &mut S,
) -> Result<(), S::Error>
    ensures { SinkRun S.goes S.refuses sink.old (own_item pass.own index symbol.now) result sink.new }
{
    let asked = pass.own.takes(symbol) && symbol.emit;
    give_if(asked, SymtabName::Itself, index, symbol, sink)
}

/// Passes all names of a symbol that a pass takes.
#[inline(always)]
#[tactic(auto, using(wild_words::proofs::RunLemmas::runs))]
fn give_symbol<S: TableSink>(
    layout: &Layout,
    pass: SymtabPass,
    index: usize,
    symbol: &Symbol,
    sink: &mut S,
) -> Result<(), S::Error>
    ensures { SinkRun S.goes S.refuses sink.old (symbol_items layout.now pass index symbol.now) result sink.new }
{
    give_slots_in(layout, pass, index, symbol, sink)?;
    give_own_in(pass, index, symbol, sink)
}

/// Passes all names of a file's symbols that a pass takes.
#[inline(always)]
#[tactic(auto, using(wild_words::proofs::RunLemmas::numbered_loops))]
fn give_pass<S: TableSink>(
    layout: &Layout,
    pass: SymtabPass,
    file: &File,
    sink: &mut S,
) -> Result<(), S::Error>
    ensures { SinkRun S.goes S.refuses sink.old (pass_items layout.now pass file.now.first_symbol (loaded_symbols layout.now file.now)) result sink.new }
{
    let first = file.first_symbol.0;
    let symbols = layout.loaded_symbols(file);
    for (i, symbol) in symbols.iter().enumerate() {
        give_symbol(layout, pass, first + i, symbol, sink)?;
    }
    Ok(())
}

/// Passes all names of a file's symbols, pass by pass.
#[inline(always)]
#[tactic(auto, using(wild_words::proofs::RunLemmas::runs, wild_words::proofs::RunLemmas::copied_loops))]
fn give_symbols<S: TableSink>(layout: &Layout, file: &File, sink: &mut S) -> Result<(), S::Error>
    ensures { SinkRun S.goes S.refuses sink.old (items_of layout.now (passes layout.now.kind file.now.role) file.now) result sink.new }
{
    for pass in passes(layout.kind, file.role) {
        give_pass(layout, *pass, file, sink)?;
    }
    Ok(())
}

/// Passes the name of a thunk, if its symbol is in the list of symbols.
#[tactic(auto, using(wild_words::proofs::RunLemmas::runs))]
fn give_thunk<S: TableSink>(layout: &Layout, thunk: Thunk, sink: &mut S) -> Result<(), S::Error>
    ensures { SinkRun S.goes S.refuses sink.old (thunk_item layout.now thunk) result sink.new }
{
    match layout.symbols.as_slice().get(thunk.symbol.0) {
        Some(symbol) => { sink.take(SymtabName::Thunk(thunk.address), thunk.symbol.0, symbol) }
        None => Ok(()),
    }
}

/// Passes the names of the thunks that a file writes.
#[tactic(auto, using(wild_words::proofs::RunLemmas::runs, wild_words::proofs::RunLemmas::listed_loops))]
fn give_thunks<S: TableSink>(layout: &Layout, file: &File, sink: &mut S) -> Result<(), S::Error>
    ensures { SinkRun S.goes S.refuses sink.old (thunk_items layout.now file.now) result sink.new }
{
    for thunk in layout.thunks_of(file) {
        give_thunk(layout, *thunk, sink)?;
    }
    Ok(())
}

/// Passes the symbols of a file for `.symtab`, until one is refused.
#[inline]
#[tactic(auto, using(wild_words::proofs::RunLemmas::runs), unfolding(crate::specs::TableSymbols::file_items))]
pub fn give_table<S: TableSink>(layout: &Layout, file: &File, sink: &mut S) -> Result<(), S::Error>
    ensures { SinkRun S.goes S.refuses sink.old (file_items layout.now file.now) result sink.new }
{
    if !layout.has_symtab() {
        return Ok(());
    }
    give_symbols(layout, file, sink)?;
    give_thunks(layout, file, sink)
}
