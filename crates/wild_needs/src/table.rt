//! The symbols of `.symtab`, and the size of its parts (gABI, "Symbol Table").
ghost use Rattle.std.specs.Prelude.{◌≡◌, ℕ, ◌-◌, ◌^◌, ◌≤◌, length, min};
ghost use Rattle.wild_needs.specs.DynamicStrings.{text_room};
ghost use Rattle.wild_types.specs.Lists.{total};
ghost use Rattle.wild_needs.specs.TableCounts.{taken};
ghost use Rattle.wild_needs.specs.TableSymbols.{is_of_pass, passes, file_items, prefix, suffix, is_local_symbol, is_local_by, item, is_on_side, null_count, local_count, global_count, table_strings, has_long};

use crate::section_symbols::section_symbol_count;
use crate::strings::text_room;
use crate::walk::{TableSink, give_table};
use std::convert::Infallible;
use wild_records::abi::section::SHN_LORESERVE;
use wild_records::abi::symbol::STB_LOCAL;
use wild_types::{File, FileRole, Layout, OutputKind, Place, Role, Symbol, is_there};

/// The kind of a name in `.symtab` that a symbol of the layout has.
#[derive(Clone, Copy)]
pub enum SymtabName {
    /// The symbol itself.
    Itself,
    /// Its slot: `NAME$got`.
    Slot,
    /// Its stub: `NAME$plt`.
    Stub,
    /// A thunk to it, at this address: `__wild_thunk_NAME`.
    Thunk(u64),
}

/// The symbols that a pass takes under their own names.
#[derive(Clone, Copy)]
pub enum SymtabSymbols {
    Every,
    Defined,
    Undefined,
    Nothing,
}

impl SymtabSymbols {
    /// Whether the pass takes the symbol.
    pub fn takes(self, symbol: &Symbol) -> bool
        ensures { result ≡ is_of_pass self symbol.now }
    {
        match self {
            SymtabSymbols::Every => true,
            SymtabSymbols::Defined => !matches!(symbol.place, Place::Undefined),
            SymtabSymbols::Undefined => matches!(symbol.place, Place::Undefined),
            SymtabSymbols::Nothing => false,
        }
    }
}

/// One pass over the symbols of a file, for `.symtab`.
#[derive(Clone, Copy)]
pub struct SymtabPass {
    /// Whether it takes the names of slots and stubs.
    pub slots: bool,
    /// The symbols that it takes under their own names.
    pub own: SymtabSymbols,
}

/// The passes over the symbols of a file of that role, in order. In a relocatable object undefined symbols follow the others.
pub fn passes(kind: OutputKind, role: FileRole) -> &'static [SymtabPass]
    ensures { result.now ≡ passes kind role }
{
    if kind.is_partial_link() {
        return &[
            SymtabPass {
                slots: false,
                own: SymtabSymbols::Defined,
            },
            SymtabPass {
                slots: false,
                own: SymtabSymbols::Undefined,
            },
        ];
    }
    match role {
        FileRole::Object | FileRole::Dynamic => {
            &[SymtabPass {
                slots: true,
                own: SymtabSymbols::Every,
            }]
        }
        _ => &[
            SymtabPass {
                slots: false,
                own: SymtabSymbols::Every,
            },
            SymtabPass {
                slots: true,
                own: SymtabSymbols::Nothing,
            },
        ],
    }
}

/// Whether parts of that role have a 32-bit section index for each symbol.
pub fn has_long(layout: &Layout, role: Role) -> bool
    ensures { result ≡ has_long layout.now role }
{
    is_there(role, layout.parts.as_slice()) || layout.sections.len() > SHN_LORESERVE as usize
}

/// Whether the symbol's binding is local, or was downgraded to local.
fn is_local_symbol(symbol: &Symbol) -> bool
    ensures { result ≡ is_local_symbol symbol.now }
{
    symbol.info / 16 == STB_LOCAL || symbol.flags.is_downgraded_to_local()
}

/// Whether that name of a symbol is a local symbol of `.symtab`.
pub fn is_local(named: SymtabName, symbol: &Symbol) -> bool
    ensures { result ≡ is_local_by named symbol.now }
{
    match named {
        SymtabName::Itself => is_local_symbol(symbol),
        SymtabName::Slot | SymtabName::Stub | SymtabName::Thunk(_) => true,
    }
}

/// Whether that name of a symbol is a local symbol, or with `local` false, a global one.
pub fn is_on_side(local: bool, named: SymtabName, symbol: &Symbol) -> bool
    ensures { (i : ℕ) → result ≡ is_on_side local (item named i symbol.now) }
{
    if local {
        is_local(named, symbol)
    } else {
        !is_local(named, symbol)
    }
}

/// The text before the symbol's name.
pub fn prefix(named: SymtabName) -> &'static [u8]
    ensures is { result.now ≡ prefix named }
    ensures few { length result.now ≤ 13 }
{
    match named {
        SymtabName::Thunk(_) => b"__wild_thunk_",
        SymtabName::Itself | SymtabName::Slot | SymtabName::Stub => b"",
    }
}

/// The text after the symbol's name.
pub fn suffix(named: SymtabName) -> &'static [u8]
    ensures is { result.now ≡ suffix named }
    ensures few { length result.now ≤ 4 }
{
    match named {
        SymtabName::Slot => b"$got",
        SymtabName::Stub => b"$plt",
        SymtabName::Itself | SymtabName::Thunk(_) => b"",
    }
}

/// A part of `.symtab`.
#[derive(Clone, Copy)]
pub enum TablePart {
    /// The entries of the local symbols, or those of the global ones.
    Entries(bool),
    /// The 32-bit section indexes of the same.
    Long(bool),
    /// The names.
    Strings,
}

/// The amount that a part needs for a symbol: 1 entry or index, or the bytes of the name. At most 2^64 - 1.
#[tactic(auto, using(crate::proofs::TableLemmas::name_room))]
fn taken(part: TablePart, named: SymtabName, symbol: &Symbol) -> u64
    ensures { (i : ℕ) → result ≡ min (2 ^ 64 - 1) (taken part (item named i symbol.now)) }
{
    match part {
        TablePart::Entries(local) | TablePart::Long(local) => {
            u64::from(is_on_side(local, named, symbol))
        }
        TablePart::Strings => {
            let affixes = prefix(named).len() + suffix(named).len();
            text_room(&symbol.name).saturating_add(affixes as u64)
        }
    }
}

/// The amount that a part needs for symbols, at most 2^64 - 1.
#[derive(Drop)]
struct Count {
    part: TablePart,
    sum: u64,
}

impl TableSink for Count {
    ghost use Rattle.wild_needs.specs.TableCounts.{Counts};

    type Error = Infallible;

    ghost goes = { Counts };

    ghost refuses = { λ a x e b. ⊥ };

    #[inline(always)]
    #[tactic(auto, using(crate::proofs::TableLemmas::counts))]
    fn take(&mut self, named: SymtabName, index: usize, symbol: &Symbol) -> Result<(), Infallible> {
        self.sum = self.sum.saturating_add(taken(self.part, named, symbol));
        Ok(())
    }
}

/// The amount that a part needs for a file's symbols, at most 2^64 - 1.
#[tactic(auto, using(crate::proofs::TableLemmas::counts))]
fn count_of(layout: &Layout, part: TablePart, file: &File) -> u64
    ensures { result ≡ min (2 ^ 64 - 1) (total (taken part) (file_items layout.now file.now)) }
{
    let mut count = Count { part, sum: 0 };
    match give_table(layout, file, &mut count) {
        Ok(()) => count.sum,
        Err(never) => match never {},
    }
}

/// The number of the null symbol and the section symbols, with which the first file's entries begin, at most 2^64 - 1; 0 for another file.
fn null_count(layout: &Layout, file: &File) -> u64
    ensures { result ≡ min (2 ^ 64 - 1) (null_count layout.now file.now) }
{
    if layout.has_symtab() && file.role.is_prelude() {
        (section_symbol_count(layout) as u64).saturating_add(1)
    } else {
        0
    }
}

/// The number of local symbols of a file, at most 2^64 - 1.
#[tactic(auto, using(crate::proofs::TableLemmas::sides_taken))]
pub fn local_count(layout: &Layout, file: &File) -> u64
    ensures { result ≡ min (2 ^ 64 - 1) (local_count layout.now file.now) }
{
    null_count(layout, file).saturating_add(count_of(layout, TablePart::Entries(true), file))
}

/// The number of global symbols of a file, at most 2^64 - 1.
#[tactic(auto, using(crate::proofs::TableLemmas::sides_taken))]
pub fn global_count(layout: &Layout, file: &File) -> u64
    ensures { result ≡ min (2 ^ 64 - 1) (global_count layout.now file.now) }
{
    count_of(layout, TablePart::Entries(false), file)
}

/// The size of a file's strings in `.strtab`, at most 2^64 - 1.
#[tactic(auto, unfolding(crate::specs::TableSymbols::table_strings), using(crate::proofs::TableLemmas::strings_taken))]
pub fn table_room(layout: &Layout, file: &File) -> u64
    ensures { result ≡ min (2 ^ 64 - 1) (total text_room (table_strings layout.now file.now)) }
{
    let null = u64::from(layout.has_symtab() && file.role.is_prelude());
    null.saturating_add(count_of(layout, TablePart::Strings, file))
}
