//! Writes slots, the start of the GOT, and the RELA entries of places in data.
ghost use Rattle.std.specs.Prelude.{◌≡◌, ◌≢◌, ◌++◌, ◌%◌, ◌≤◌, unwrap_or, length, OnOk, OnErr};
ghost use Rattle.std.specs.Int.{cast_signed, w64};
ghost use Rattle.wild_reloc.specs.declared.dynamic.DynamicRelocationKind.TheVariants.{Irelative};
ghost use Rattle.wild_types.specs.declared.fault.Fault.TheVariants.{MissingResolution};
ghost use Rattle.wild_relr.specs.Places.{places};
ghost use Rattle.wild_relr.specs.RunWords.{slots};
ghost use Rattle.wild_needs.specs.SlotShares.{storage_words};
ghost use Rattle.wild_tables.specs.SlotTables.{with_content, with_slot, content_of, with_header, with_block, with_general, symbol_entry, resolution_of, copy_entry_of, with_copy};
ghost use Rattle.wild_tables.specs.Rooms.{rooms, room_for_all, Fit, room_for_header, HeaderFits, room_for_block, room_for_general, slot_answer, copy_answer};

use super::{TABLES, TableWriter};
use crate::room::{
    Room, entries_room_with, first_too_small, packed_room_with, stubs_room_with, words_room_with,
};
use crate::slot_words::{add_entries, add_relr_slots, add_words, add_zeros};
use crate::slot_write_error::SlotWriteError;
use wild_records::Rela;
use wild_reloc::DynamicRelocationKind;
use wild_relr::block_words;
use wild_slot::{
    EntryPart, STUB_SIZE, Setting, SlotEntry, SlotWord, WORD_SIZE, WordPart, count_entries,
    count_relr_slots, count_words, entry_at, slot_of, storage_pair, type_of,
};
use wild_types::{
    At, Error, Fault, Layout, Missing, Resolution, Role, SymbolIndex, insufficient, part_of,
};

impl TableWriter {
    /// Sizes and uses of the tables, with the words of a slot at `place` and a stub added.
    #[tactic(auto, using(crate::proofs::SlotLemmas::length_after_flats))]
    fn rooms_with(
        &self,
        layout: &Layout,
        place: u64,
        words: &[SlotWord],
        stub: &[u8],
    ) -> [Room; TABLES]
        requires words { length words.now ≤ 5 }
        requires stub { length stub.now ≤ 16 }
        ensures { result ≡ rooms (with_content layout.now place words.now stub.now self.now) }
    {
        let relr = layout.options.relr;
        let machine = layout.machine;
        let got = count_words(WordPart::Got, relr, place, words);
        let block = count_words(WordPart::RelrGot, relr, place, words);
        let plt = count_entries(EntryPart::Plt, machine, relr, place, words);
        let relative = count_entries(EntryPart::Relative, machine, relr, place, words);
        let general = count_entries(EntryPart::General, machine, relr, place, words);
        [
            words_room_with(Role::Got, &self.got, got),
            words_room_with(Role::GotRelr, &self.block, block),
            stubs_room_with(&self.stubs, stub.len()),
            entries_room_with(Role::RelaPlt, &self.plt, plt),
            entries_room_with(Role::RelaDynRelative, &self.relative, relative),
            entries_room_with(Role::RelaDynGeneral, &self.general, general),
            packed_room_with(&self.packed, count_relr_slots(relr, place, words)),
        ]
    }

    /// `InsufficientAllocation` for the first table in which the words of a slot at `place` and a stub do not fit.
    #[tactic(auto, using(crate::proofs::SlotLemmas::answer_fits))]
    fn room_for_content(
        &self,
        layout: &Layout,
        place: u64,
        words: &[SlotWord],
        stub: &[u8],
    ) -> Result<(), Error>
        requires words { length words.now ≤ 5 }
        requires stub { length stub.now ≤ 16 }
        ensures answered { result ≡ room_for_all layout.now (with_content layout.now place words.now stub.now self.now) }
        ensures fit { OnOk result (Fit (with_content layout.now place words.now stub.now self.now)) }
    {
        let rooms = self.rooms_with(layout, place, words, stub);
        first_too_small(layout, self.group, &rooms)
    }

    /// Writes the words of a slot at `place`, their entries and a stub, each into its table.
    #[tactic(auto, using(crate::proofs::SlotLemmas::length_after_flats))]
    fn put_content(&mut self, layout: &Layout, place: u64, words: &[SlotWord], stub: &[u8])
        requires { Fit (with_content layout.now place words.now stub.now self.old) }
        ensures { self.new ≡ with_content layout.now place words.now stub.now self.old }
    {
        let relr = layout.options.relr;
        let machine = layout.machine;
        add_words(&mut self.got, WordPart::Got, relr, place, words);
        add_words(&mut self.block, WordPart::RelrGot, relr, place, words);
        self.stubs.push(stub);
        add_entries(&mut self.plt, EntryPart::Plt, machine, relr, place, words);
        add_entries(
            &mut self.relative,
            EntryPart::Relative,
            machine,
            relr,
            place,
            words,
        );
        add_entries(
            &mut self.general,
            EntryPart::General,
            machine,
            relr,
            place,
            words,
        );
        add_relr_slots(&mut self.packed, relr, place, words);
    }

    /// Writes the slots of a resolution: its words from the slot's place on, the RELA entries that fill them, the RELR words
    /// of addresses outside `got_relr`, and its stub. `stub` has the stub's bytes, or its distance from the slot if that is
    /// out of range.
    ///
    /// # Errors
    ///
    /// `SlotWriteError::Room` if a part has too little room for what comes before a fault. Otherwise `SlotWriteError::Fault` if the slots
    /// have a fault. In both cases nothing changes.
    pub fn process_resolution(
        &mut self,
        layout: &Layout,
        resolution: &Resolution,
        stub: Result<[u8; STUB_SIZE], u64>,
    ) -> Result<(), SlotWriteError>
        ensures answered { result ≡ slot_answer (room_for_all layout.now (with_slot layout.now resolution.now stub self.old)) (content_of layout.now resolution.now stub).fault }
        ensures written { OnOk result (self.new ≡ with_slot layout.now resolution.now stub self.old) }
        ensures kept { OnErr result (self.new ≡ self.old) }
    {
        let far = match stub {
            Ok(_) => None,
            Err(distance) => Some(distance),
        };
        let slot = slot_of(&Setting::of(layout), far, resolution);
        let bytes: &[u8] = match &stub {
            Ok(bytes) if slot.has_stub() => bytes,
            _ => &[],
        };
        let place = resolution.got_address.unwrap_or(0);
        self.room_for_content(layout, place, slot.words(), bytes)?;
        if let Some(fault) = slot.fault() {
            return Err(SlotWriteError::Fault(fault));
        }
        self.put_content(layout, place, slot.words(), bytes);
        Ok(())
    }

    /// `InsufficientAllocation` for the first table in which the reserved words and the module pair do not fit.
    #[tactic(auto, using(crate::proofs::SlotLemmas::header_fits))]
    fn room_for_header(&self, layout: &Layout, place: u64, pair: &[SlotWord]) -> Result<(), Error>
        requires place { place ≡ unwrap_or layout.now.tlsld 0 }
        requires pair { pair.now ≡ storage_words layout.now }
        ensures answered { result ≡ room_for_header layout.now (with_header layout.now self.now) }
        ensures fit { OnOk result (HeaderFits (with_header layout.now self.now)) }
    {
        let relr = layout.options.relr;
        let words = count_words(WordPart::Got, relr, place, pair);
        let entries = count_entries(EntryPart::General, layout.machine, relr, place, pair);
        let zeros = (layout.got_header as usize).saturating_mul(WORD_SIZE);
        let given = self.got.room();
        let got = Room {
            role: Role::Got,
            used: (self.got.used() + WORD_SIZE * words).saturating_add(zeros),
            given,
        };
        let general = entries_room_with(Role::RelaDynGeneral, &self.general, entries);
        first_too_small(layout, self.group, &[got, general])
    }

    /// Writes the reserved words and the module pair.
    fn put_header(&mut self, layout: &Layout, place: u64, pair: &[SlotWord])
        requires place { place ≡ unwrap_or layout.now.tlsld 0 }
        requires pair { pair.now ≡ storage_words layout.now }
        requires fit { HeaderFits (with_header layout.now self.old) }
        ensures { self.new ≡ with_header layout.now self.old }
    {
        let relr = layout.options.relr;
        add_zeros(&mut self.got, layout.got_header as usize);
        add_words(&mut self.got, WordPart::Got, relr, place, pair);
        let general = &mut self.general;
        add_entries(
            general,
            EntryPart::General,
            layout.machine,
            relr,
            place,
            pair,
        );
    }

    /// Writes the start of the GOT: the reserved words, and the pair of module and offset for the output's own TLS segment
    /// (local dynamic).
    ///
    /// # Errors
    ///
    /// `InsufficientAllocation` exactly if a part has too little room; then nothing changes.
    pub fn write_plt_got_entries(&mut self, layout: &Layout) -> Result<(), Error>
        ensures answered { result ≡ room_for_header layout.now (with_header layout.now self.old) }
        ensures written { OnOk result (self.new ≡ with_header layout.now self.old) }
        ensures kept { OnErr result (self.new ≡ self.old) }
    {
        let both = storage_pair(&Setting::of(layout));
        let pair: &[SlotWord] = match layout.tlsld {
            Some(_) => &both,
            None => &[],
        };
        let place = layout.tlsld.unwrap_or(0);
        self.room_for_header(layout, place, pair)?;
        self.put_header(layout, place, pair);
        Ok(())
    }

    /// Records the group's words of `got_relr` in RELR: `n` places, 8 bytes after each other from `base`, by one address word
    /// and its bitmaps. Nothing is recorded if `n` or `base` is 0.
    ///
    /// # Errors
    ///
    /// `InsufficientAllocation` exactly if the RELR words do not fit; then nothing changes.
    pub fn write_got_relr_bitmap(&mut self, base: u64, n: u64) -> Result<(), Error>
        requires { base % 2 ≡ 0 }
        ensures answered { result ≡ room_for_block (with_block base n self.old) }
        ensures written { OnOk result (self.new ≡ with_block base n self.old) }
        ensures recorded { OnOk result (base ≢ 0 → places self.new.packed.state.words ≡ places self.old.packed.state.words ++ slots base n) }
        ensures kept { OnErr result (self.new ≡ self.old) }
    {
        match self.packed.write_block(base, n) {
            Ok(()) => Ok(()),
            Err(_) => {
                let given = self.packed.room();
                let needed = self.packed.used() as u64 + 8 * block_words(base, n);
                Err(insufficient(self.packed_part, self.group, given as u64, needed))
            }
        }
    }

    /// Appends an entry to `rela_dyn_general`.
    fn add_general_entry(&mut self, layout: &Layout, entry: Rela) -> Result<(), Error>
        ensures answered { result ≡ room_for_general layout.now (with_general entry self.old) }
        ensures written { OnOk result (self.new ≡ with_general entry self.old) }
        ensures kept { OnErr result (self.new ≡ self.old) }
    {
        match self.general.write(entry) {
            Ok(()) => Ok(()),
            Err(_) => {
                let given = self.general.room();
                let needed = self.general.used() + Rela::SIZE;
                Err(insufficient(
                    part_of(layout, Role::RelaDynGeneral),
                    self.group,
                    given as u64,
                    needed as u64,
                ))
            }
        }
    }

    /// Appends the RELA entry with which a loader fills a place from a symbol of `.dynsym`.
    ///
    /// # Errors
    ///
    /// `InsufficientAllocation` exactly if the entry does not fit in `rela_dyn_general`; then nothing changes.
    pub fn write_dynamic_symbol_relocation(
        &mut self,
        layout: &Layout,
        place: u64,
        addend: i64,
        symbol: u32,
        kind: DynamicRelocationKind,
    ) -> Result<(), Error>
        ensures answered { result ≡ room_for_general layout.now (with_general (symbol_entry layout.now place addend symbol kind) self.old) }
        ensures written { OnOk result (self.new ≡ with_general (symbol_entry layout.now place addend symbol kind) self.old) }
        ensures kept { OnErr result (self.new ≡ self.old) }
    {
        let entry = Rela {
            offset: place,
            number: type_of(layout.machine, kind),
            symbol,
            addend,
        };
        self.add_general_entry(layout, entry)
    }

    /// Appends the `IRELATIVE` entry with which a loader stores the result of a resolver at a place.
    ///
    /// # Errors
    ///
    /// `InsufficientAllocation` exactly if the entry does not fit in `rela_dyn_general`; then nothing changes.
    pub fn write_ifunc_relocation_for_data(
        &mut self,
        layout: &Layout,
        place: u64,
        resolver: u64,
    ) -> Result<(), Error>
        ensures answered { result ≡ room_for_general layout.now (with_general (symbol_entry layout.now place (cast_signed w64 resolver) 0 Irelative) self.old) }
        ensures written { OnOk result (self.new ≡ with_general (symbol_entry layout.now place (cast_signed w64 resolver) 0 Irelative) self.old) }
        ensures kept { OnErr result (self.new ≡ self.old) }
    {
        let kind = DynamicRelocationKind::Irelative;
        self.write_dynamic_symbol_relocation(layout, place, resolver.cast_signed(), 0, kind)
    }

    /// Appends the `COPY` entry with which a loader copies a symbol's bytes to its address in this output.
    ///
    /// # Errors
    ///
    /// `MissingResolution` if the symbol has no resolution (`Address`) or no index in `.dynsym` (`DynamicSymbol`). Otherwise
    /// `InsufficientAllocation` exactly if the entry does not fit in `rela_dyn_general`. Nothing changes then.
    pub fn write_copy_relocation(
        &mut self,
        layout: &Layout,
        symbol: SymbolIndex,
    ) -> Result<(), Error>
        ensures answered { result ≡ copy_answer (copy_entry_of layout.now symbol) (room_for_general layout.now (with_copy layout.now symbol self.old)) }
        ensures written { OnOk result (self.new ≡ with_copy layout.now symbol self.old) }
        ensures kept { OnErr result (self.new ≡ self.old) }
    {
        match copy_entry_of(layout, symbol) {
            Ok(entry) => self.add_general_entry(layout, entry),
            Err(fault) => Err(Error {
                fault,
                at: At::NO_PLACE,
            }),
        }
    }
}

/// The fault of a symbol that has no address or no dynamic symbol index.
fn missing_resolution(what: Missing, symbol: SymbolIndex) -> Fault
    ensures { result ≡ MissingResolution what symbol }
{
    Fault::MissingResolution {
        what,
        symbol: symbol.0,
    }
}

/// The resolution of the symbol that defines this one.
fn resolution_of(layout: &Layout, symbol: SymbolIndex) -> Option<Resolution>
    ensures { result ≡ resolution_of layout.now symbol }
{
    match layout.symbols.as_slice().get(layout.canonical(symbol).0) {
        Some(found) => found.resolution,
        None => None,
    }
}

/// The `COPY` entry of a symbol. Fails if the symbol has no resolution or no dynamic symbol index.
fn copy_entry_of(layout: &Layout, symbol: SymbolIndex) -> Result<Rela, Fault>
    ensures { result ≡ copy_entry_of layout.now symbol }
{
    let Some(resolution) = resolution_of(layout, symbol) else {
        return Err(missing_resolution(Missing::Address, symbol));
    };
    let Some(index) = resolution.dynamic_symbol_index else {
        return Err(missing_resolution(Missing::DynamicSymbol, symbol));
    };
    let copy = SlotEntry {
        kind: DynamicRelocationKind::Copy,
        symbol: index,
        addend: 0,
    };
    Ok(entry_at(layout.machine, resolution.raw_value, copy))
}
