//! What the slots and stubs of symbols need of the parts (x86-64 psABI, "Global Offset Table (GOT)", "Procedure Linkage
//! Table").
ghost use Rattle.std.specs.Prelude.{◌≡◌, ℕ, ◌+◌, ◌-◌, ◌*◌, ◌^◌, ◌≤◌, List, [], ◌∷◌, ◌++◌, length, min, ◌&&◌, true};
ghost use Rattle.std.specs.List.{flat_map, list_all};
ghost use Rattle.wild_types.specs.FileSymbols.{own_symbols};
ghost use Rattle.wild_slot.specs.SymbolWords.{slots_of};
ghost use Rattle.wild_types.specs.SymbolSlots.{slots_address, lacks_slots};
ghost use Rattle.wild_needs.specs.SlotShares.{words_in, entries_in, header_words, header_entries, symbol_share, is_slot_role, slot_share, header_share, slots_need_nothing, relr_got_places, group_relr_got, block_of, relr_got_share};
ghost use Rattle.wild_needs.specs.Needs.{has_no_dynamic_tables};
ghost use Rattle.wild_types.specs.Kinds.{is_position_independent};
ghost use Rattle.wild_slot.specs.SlotParts.{relr_slot_places, begins_relr_got};
ghost use Rattle.wild_types.specs.declared.part.Role.TheVariants.{PltGot};

use wild_records::{Rela, Relr};
use wild_relr::block_words;
use wild_slot::{
    EntryPart, STUB_SIZE, Setting, SymbolSlots, WORD_SIZE, WordPart, begins_relr_got,
    count_entries, count_relr_slots, count_words, storage_pair,
};
use wild_types::{File, Group, LacksSlots, Layout, Role, Symbol, all_pass, lacks_slots};

/// The number of words of a symbol in a part.
pub fn words_in(part: WordPart, layout: &Layout, symbol: &Symbol) -> usize
    ensures is { result ≡ length (words_in part layout.now symbol.now) }
    ensures few { result ≤ 5 }
{
    let slots = SymbolSlots::of(layout, symbol);
    count_words(
        part,
        layout.options.relr,
        symbol.slots_address(),
        slots.words(),
    )
}

/// The number of entries of a symbol in a part.
fn entries_in(part: EntryPart, layout: &Layout, symbol: &Symbol) -> usize
    ensures is { result ≡ entries_in part layout.now symbol.now }
    ensures few { result ≤ 5 }
{
    let slots = SymbolSlots::of(layout, symbol);
    let relr = layout.options.relr;
    count_entries(
        part,
        layout.machine,
        relr,
        symbol.slots_address(),
        slots.words(),
    )
}

/// The number of RELR words that a symbol's slots have of their own.
fn relr_slots_in(layout: &Layout, symbol: &Symbol) -> usize
    ensures is { result ≡ length (relr_slot_places layout.now.options.relr (slots_address symbol.now) (slots_of layout.now symbol.now).words) }
    ensures few { result ≤ 5 }
{
    let slots = SymbolSlots::of(layout, symbol);
    count_relr_slots(layout.options.relr, symbol.slots_address(), slots.words())
}

/// The size of a symbol's stub in bytes; 0 without one.
fn stub_in(layout: &Layout, symbol: &Symbol) -> usize
    ensures is { result ≡ symbol_share layout.now PltGot symbol.now }
    ensures few { result ≤ 16 }
{
    if SymbolSlots::of(layout, symbol).has_stub() {
        STUB_SIZE
    } else {
        0
    }
}

/// The bytes that a symbol needs of the part of a role.
#[tactic(auto, using(crate::proofs::SlotShareLemmas::share_without))]
fn symbol_share(layout: &Layout, role: Role, symbol: &Symbol) -> u64
    ensures is { result ≡ symbol_share layout.now role symbol.now }
    ensures few { result ≤ 120 }
{
    if lacks_slots(symbol) {
        return 0;
    }
    let bytes = match role {
        Role::Got => WORD_SIZE * words_in(WordPart::Got, layout, symbol),
        Role::GotRelr => WORD_SIZE * words_in(WordPart::RelrGot, layout, symbol),
        Role::PltGot => stub_in(layout, symbol),
        Role::RelaPlt => Rela::SIZE * entries_in(EntryPart::Plt, layout, symbol),
        Role::RelaDynRelative => Rela::SIZE * entries_in(EntryPart::Relative, layout, symbol),
        Role::RelaDynGeneral => Rela::SIZE * entries_in(EntryPart::General, layout, symbol),
        Role::RelrDyn => Relr::SIZE * relr_slots_in(layout, symbol),
        _ => 0,
    };
    bytes as u64
}

/// Whether parts of that role hold slots or stubs, or entries for them.
pub(crate) fn is_slot_role(role: Role) -> bool
    ensures { result ≡ is_slot_role role }
{
    matches!(
        role,
        Role::Got
            | Role::GotRelr
            | Role::PltGot
            | Role::RelaPlt
            | Role::RelaDynRelative
            | Role::RelaDynGeneral
            | Role::RelrDyn
    )
}

/// The bytes that the slots of a file's symbols need of the part of a role, at most 2^64 - 1.
#[tactic(auto, unfolding(crate::specs::SlotShares::slot_share))]
pub(crate) fn slot_share(layout: &Layout, role: Role, file: &File) -> u64
    ensures { result ≡ min (2 ^ 64 - 1) (slot_share layout.now role file.now) }
{
    let mut sum: u64 = 0;
    if is_slot_role(role) {
        for symbol in layout.own_symbols(file) {
            sum = sum.saturating_add(symbol_share(layout, role, symbol));
        }
    }
    sum
}

/// The number of words of the module pair for the output's own thread-local data.
#[tactic(auto, using(crate::proofs::SlotShareLemmas::header_length))]
pub fn pair_words(layout: &Layout) -> u64
    ensures is { length (header_words layout.now) ≡ layout.now.got_header + result }
    ensures few { result ≤ 2 }
{
    if layout.tlsld.is_some() { 2 } else { 0 }
}

/// The size of the GOT words that appear once, at most 2^64 - 1.
fn header_bytes(layout: &Layout) -> u64
    ensures { result ≡ min (2 ^ 64 - 1) (8 * length (header_words layout.now)) }
{
    layout
        .got_header
        .saturating_add(pair_words(layout))
        .saturating_mul(WORD_SIZE as u64)
}

/// The number of entries for the module pair of the output's own thread-local data.
fn header_entries(layout: &Layout) -> usize
    ensures is { result ≡ header_entries layout.now }
    ensures few { result ≤ 2 }
{
    match layout.tlsld {
        Some(place) => count_entries(
            EntryPart::General,
            layout.machine,
            layout.options.relr,
            place,
            &storage_pair(&Setting::of(layout)),
        ),
        None => 0,
    }
}

/// The bytes of the part of a role that appear once, at most 2^64 - 1.
pub(crate) fn header_share(layout: &Layout, role: Role) -> u64
    ensures { result ≡ min (2 ^ 64 - 1) (header_share layout.now role) }
{
    match role {
        Role::Got => header_bytes(layout),
        Role::RelaDynGeneral => (Rela::SIZE * header_entries(layout)) as u64,
        _ => 0,
    }
}

/// Whether no symbol has a slot. `bare` is true only if `has_no_dynamic_tables` holds for the output.
#[tactic(auto, using(crate::proofs::NoTableLemmas::bare_without))]
fn have_no_slots(layout: &Layout, bare: bool) -> bool
    requires { bare ≡ true → has_no_dynamic_tables layout.now ≡ true }
    ensures { result ≡ list_all lacks_slots layout.now.symbols }
{
    bare || all_pass(&LacksSlots, layout.symbols.as_slice())
}

/// Whether slots need no bytes of parts of that role, as far as this is known without reading the files. `bare` is true only if
/// `has_no_dynamic_tables` holds for the output.
pub(crate) fn slots_need_nothing(layout: &Layout, bare: bool, role: Role) -> bool
    requires { bare ≡ true → has_no_dynamic_tables layout.now ≡ true }
    ensures { result ≡ slots_need_nothing layout.now role }
{
    !is_slot_role(role) || (header_share(layout, role) == 0 && have_no_slots(layout, bare))
}

/// A group's run of consecutive GOT words that are packed as RELR together.
#[derive(Clone, Copy)]
pub struct RelrGot {
    /// The address of the first word; 0 if there is none.
    pub base: u64,
    /// The number of words, at most 2^64 - 1.
    pub count: u64,
}

impl RelrGot {
    /// The block with one more slot, at `place`.
    fn with(self, place: u64) -> RelrGot
        ensures { (ps : List ℕ) → self ≡ block_of ps → result ≡ block_of (ps ++ place ∷ []) }
    {
        RelrGot {
            base: if self.count == 0 { place } else { self.base },
            count: self.count.saturating_add(1),
        }
    }
}

/// Whether the first slot of a symbol belongs to the block.
#[tactic(auto, using(crate::proofs::SlotShareLemmas::no_slots))]
fn is_in_relr_got(layout: &Layout, symbol: &Symbol) -> bool
    ensures { result ≡ begins_relr_got (slots_of layout.now symbol.now).words }
{
    !lacks_slots(symbol) && begins_relr_got(SymbolSlots::of(layout, symbol).words())
}

/// The block with the word of a symbol added, if it has one there.
fn with_symbol(layout: &Layout, block: RelrGot, symbol: &Symbol) -> RelrGot
    ensures { (ps : List ℕ) → block ≡ block_of ps → result ≡ block_of (ps ++ relr_got_places layout.now symbol.now) }
{
    if is_in_relr_got(layout, symbol) {
        block.with(symbol.slots_address())
    } else {
        block
    }
}

/// The block with the words of a file's symbols added.
fn with_file(layout: &Layout, block: RelrGot, file: &File) -> RelrGot
    ensures { (ps : List ℕ) → block ≡ block_of ps → result ≡ block_of (ps ++ flat_map (relr_got_places layout.now) (own_symbols layout.now file.now)) }
{
    let mut block = block;
    for symbol in layout.own_symbols(file) {
        block = with_symbol(layout, block, symbol);
    }
    block
}

/// Whether addresses that change with the load bias are packed, so that slots may be in a block.
fn packs_slots(layout: &Layout) -> bool
    ensures { result ≡ (layout.now.options.relr && is_position_independent layout.now.kind) }
{
    layout.options.relr && layout.kind.is_position_independent()
}

/// The block of a group.
#[tactic(auto, unfolding(crate::specs::SlotShares::group_relr_got))]
pub fn group_relr_got(layout: &Layout, group: &Group) -> RelrGot
    ensures { result ≡ block_of (group_relr_got layout.now group.now) }
{
    let mut block = RelrGot { base: 0, count: 0 };
    if packs_slots(layout) {
        for file in group.files.as_slice() {
            block = with_file(layout, block, file);
        }
    }
    block
}

/// The size of the RELR words for a group's block, in the part of a role, at most 2^64 - 1.
pub(crate) fn relr_got_share(layout: &Layout, role: Role, group: &Group) -> u64
    ensures { result ≡ min (2 ^ 64 - 1) (relr_got_share layout.now role group.now) }
{
    if !matches!(role, Role::RelrDyn) {
        return 0;
    }
    let block = group_relr_got(layout, group);
    block_words(block.base, block.count).saturating_mul(Relr::SIZE as u64)
}
