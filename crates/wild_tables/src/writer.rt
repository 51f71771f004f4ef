//! The writer of a group's tables.
ghost use Rattle.std.specs.Prelude.{◌≡◌, ◌*◌, ◌+◌, ◌%◌, ◌≤◌, ◌<◌, ◌==◌, true, length, take, Contains, OnOk, OnErr, IfOk};
ghost use Rattle.wild_words.specs.Words.{word};
ghost use Rattle.wild_records.specs.Relocations.{rela_size, relr_size};
ghost use Rattle.wild_relr.specs.Places.{places};
ghost use Rattle.wild_relr.specs.Encoding.{after, Records};
ghost use Rattle.wild_relr.specs.RunWords.{after_relr_slot, reset};
ghost use Rattle.wild_relr.specs.WriterState.{word_bytes};
ghost use Rattle.wild_table_formats.specs.RelativeEntries.{rela_bytes};
ghost use Rattle.wild_table_formats.specs.GroupTables.{no_entries, relative_used, packed_used, relative_entry, with_entry, with_words, with_address, with_relr_slot, site_word, room_for_entries, room_for_words, room_for};
ghost use Rattle.wild_tables.specs.Rooms.{rooms, tables_full_or_fault};
ghost use Rattle.wild_types.specs.Lookups.{packs};
ghost use Rattle.wild_types.specs.Shares.{part_of, insufficient};
ghost use Rattle.wild_types.specs.declared.part.Role.TheVariants.{RelrDyn};

mod slots;

use crate::rela::RelaTable;
use crate::relr::RelrTable;
use crate::room::{Room, entries_room, first_too_large, words_room};
use crate::stub::StubTable;
use crate::word::WordTable;
use std::alloc::{AllocError, Global};
use std::marker::Model;
use wild_records::{Rela, Relr};
use wild_slot::address_entry;
use wild_types::{Error, Layout, Role, insufficient, part_of, share_of};
use wild_words::put_u64;

/// The number of tables.
const TABLES: usize = 7;

/// A group's tables: words of `got` and `got_relr`, stubs of `plt_got`, RELA entries of `rela_plt`, `rela_dyn_relative` and
/// `rela_dyn_general`, and RELR words of `relr_dyn`. Each table has the size of the group's share of its part, and is
/// written from its start. All memory is allocated by `new`.
#[derive(Drop)]
pub struct TableWriter {
    group: usize,
    got: WordTable,
    block: WordTable,
    stubs: StubTable,
    plt: RelaTable,
    relative: RelaTable,
    general: RelaTable,
    packed: RelrTable,
    packed_part: usize,
}

impl Model for TableWriter {
    ghost use Rattle.wild_table_formats.specs.GroupTables.{Tables};

    ghost Value = { Tables };

    ghost view = { λ t. record { group = t.group; got = t.got; block = t.block; stubs = t.stubs; plt = t.plt; relative = t.relative; general = t.general; packed = t.packed; packed_part = t.packed_part } };
}

/// The `RELATIVE` entry with which a loader stores base plus value at a place.
pub fn relative_entry(layout: &Layout, place: u64, value: u64) -> Rela
    ensures { result ≡ relative_entry layout.now place value }
{
    address_entry(layout.machine, place, value)
}

impl TableWriter {
    /// Empty tables with the sizes of the group's shares. Nothing else is allocated, here or later.
    pub fn new(alloc: Global, layout: &Layout, group: usize) -> Result<TableWriter, AllocError>
        requires { group < length layout.now.groups }
        ensures { IfOk result (λ t. t ≡ no_entries layout.now group) }
    {
        let room = |role| share_of(layout, group, role) as usize;
        Ok(TableWriter {
            group,
            got: WordTable::new(alloc, room(Role::Got))?,
            block: WordTable::new(alloc, room(Role::GotRelr))?,
            stubs: StubTable::new(alloc, room(Role::PltGot))?,
            plt: RelaTable::new(alloc, room(Role::RelaPlt))?,
            relative: RelaTable::new(alloc, room(Role::RelaDynRelative))?,
            general: RelaTable::new(alloc, room(Role::RelaDynGeneral))?,
            packed: RelrTable::new(alloc, room(Role::RelrDyn))?,
            packed_part: part_of(layout, Role::RelrDyn),
        })
    }

    /// Appends a `RELATIVE` entry.
    fn list(&mut self, layout: &Layout, place: u64, value: u64) -> Result<(), Error>
        ensures answered { result ≡ room_for_entries layout.now (with_entry layout.now place value self.old) }
        ensures written { OnOk result (self.new ≡ with_entry layout.now place value self.old) }
        ensures kept { OnErr result (self.new ≡ self.old) }
    {
        match self.relative.write(relative_entry(layout, place, value)) {
            Ok(()) => Ok(()),
            Err(_) => {
                let given = self.relative.room();
                let needed = self.relative.used() + Rela::SIZE;
                Err(insufficient(
                    part_of(layout, Role::RelaDynRelative),
                    self.group,
                    given as u64,
                    needed as u64,
                ))
            }
        }
    }

    /// The fault of `relr_dyn` if one more word does not fit.
    fn no_room_for_word(&self, layout: &Layout) -> Error
        ensures is { result ≡ insufficient (part_of layout.now RelrDyn) self.now.group self.now.packed.room (packed_used self.now + relr_size) }
        ensures fits { packed_used self.now ≤ self.now.packed.room }
    {
        let given = self.packed.room();
        let needed = self.packed.used() + Relr::SIZE;
        insufficient(
            part_of(layout, Role::RelrDyn),
            self.group,
            given as u64,
            needed as u64,
        )
    }

    /// Records a place in RELR.
    #[tactic(auto, using(crate::proofs::TableLemmas::after_short))]
    fn pack(&mut self, layout: &Layout, place: u64) -> Result<(), Error>
        requires { place % 2 ≡ 0 }
        ensures answered { result ≡ room_for_words layout.now (with_words (after self.old.packed.state place) self.old) }
        ensures written { OnOk result (self.new ≡ with_words (after self.old.packed.state place) self.old) }
        ensures recorded { OnOk result ((Contains (places self.old.packed.state.words) place → ⊥) → Records self.old.packed.state.words self.new.packed.state.words place) }
        ensures kept { OnErr result (self.new ≡ self.old) }
    {
        match self.packed.write(place) {
            Ok(()) => Ok(()),
            Err(_) => Err(self.no_room_for_word(layout)),
        }
    }

    /// Records a place in RELR by its own address word.
    fn pack_relr_slot(&mut self, layout: &Layout, place: u64) -> Result<(), Error>
        requires { place % 2 ≡ 0 }
        ensures answered { result ≡ room_for_words layout.now (with_words (after_relr_slot self.old.packed.state place) self.old) }
        ensures written { OnOk result (self.new ≡ with_words (after_relr_slot self.old.packed.state place) self.old) }
        ensures recorded { OnOk result ((Contains (places self.old.packed.state.words) place → ⊥) → Records self.old.packed.state.words self.new.packed.state.words place) }
        ensures kept { OnErr result (self.new ≡ self.old) }
    {
        match self.packed.write_relr_slot(place) {
            Ok(()) => Ok(()),
            Err(_) => Err(self.no_room_for_word(layout)),
        }
    }

    /// Records the address `value` at `place` of an output with relative relocations, and writes the file's content of the
    /// place into `site`. In RELR the file has the value, since a loader adds the base to it. With a RELA entry it has 0.
    ///
    /// # Errors
    ///
    /// `InsufficientAllocation` exactly if the table of this place has no room for it; then nothing changes.
    pub fn write_address_relocation(
        &mut self,
        layout: &Layout,
        place: u64,
        value: u64,
        site: &mut [u8],
    ) -> Result<(), Error>
        requires { length site.old ≡ 8 }
        ensures answered { result ≡ room_for layout.now place (with_address layout.now place value self.old) }
        ensures written { OnOk result (self.new ≡ with_address layout.now place value self.old) }
        ensures recorded { OnOk result (packs layout.now place ≡ true → (Contains (places self.old.packed.state.words) place → ⊥) → Records self.old.packed.state.words self.new.packed.state.words place) }
        ensures site { OnOk result (site.new ≡ word 8 (site_word layout.now place value)) }
        ensures kept { OnErr result (self.new ≡ self.old) }
        ensures site_kept { OnErr result (site.new ≡ site.old) }
    {
        if layout.packs(place) {
            self.pack(layout, place)?;
            put_site(site, value);
        } else {
            self.list(layout, place, value)?;
            put_site(site, 0);
        }
        Ok(())
    }

    /// Records the address `value` at `place` of an output with relative relocations: in RELR by its own address word, which
    /// ends the run, otherwise by a RELA entry.
    ///
    /// # Errors
    ///
    /// `InsufficientAllocation` exactly if the table of this place has no room for it; then nothing changes.
    pub fn write_relr_entry_flat(
        &mut self,
        layout: &Layout,
        place: u64,
        value: u64,
    ) -> Result<(), Error>
        ensures answered { result ≡ room_for layout.now place (with_relr_slot layout.now place value self.old) }
        ensures written { OnOk result (self.new ≡ with_relr_slot layout.now place value self.old) }
        ensures recorded { OnOk result (packs layout.now place ≡ true → (Contains (places self.old.packed.state.words) place → ⊥) → Records self.old.packed.state.words self.new.packed.state.words place) }
        ensures kept { OnErr result (self.new ≡ self.old) }
    {
        if layout.packs(place) {
            self.pack_relr_slot(layout, place)
        } else {
            self.list(layout, place, value)
        }
    }

    /// Ends the run of RELR places, as at the start of each input section. No word changes.
    pub fn reset_relr_run(&mut self)
        ensures { self.new ≡ with_words (reset self.old.packed.state) self.old }
    {
        self.packed.reset_run();
    }

    /// Sizes and uses of the tables.
    fn rooms(&self) -> [Room; TABLES]
        ensures { result ≡ rooms self.now }
    {
        [
            words_room(Role::Got, &self.got),
            words_room(Role::GotRelr, &self.block),
            Room {
                role: Role::PltGot,
                used: self.stubs.used(),
                given: self.stubs.room(),
            },
            entries_room(Role::RelaPlt, &self.plt),
            entries_room(Role::RelaDynRelative, &self.relative),
            entries_room(Role::RelaDynGeneral, &self.general),
            Room {
                role: Role::RelrDyn,
                used: self.packed.used(),
                given: self.packed.room(),
            },
        ]
    }

    /// Checks that every table is full.
    ///
    /// # Errors
    ///
    /// `ExcessiveAllocation` for the first table with unwritten bytes, in the order of the roles of parts.
    pub fn validate_empty(&self, layout: &Layout) -> Result<(), Error>
        ensures { result ≡ tables_full_or_fault layout.now self.now }
    {
        first_too_large(layout, self.group, &self.rooms())
    }

    /// The bytes of the group's share of `got`: those of the words, then the unwritten rest.
    pub fn got_words(&self) -> &[u8]
        ensures written { take (8 * length self.now.got.words) result.now ≡ word_bytes self.now.got.words }
        ensures room { length result.now ≡ self.now.got.room }
    {
        self.got.bytes()
    }

    /// The bytes of the group's share of `got_relr`.
    pub fn block_words(&self) -> &[u8]
        ensures written { take (8 * length self.now.block.words) result.now ≡ word_bytes self.now.block.words }
        ensures room { length result.now ≡ self.now.block.room }
    {
        self.block.bytes()
    }

    /// The bytes of the group's share of `plt_got`.
    pub fn stubs(&self) -> &[u8]
        ensures written { take (length self.now.stubs.bytes) result.now ≡ self.now.stubs.bytes }
        ensures room { length result.now ≡ self.now.stubs.room }
    {
        self.stubs.bytes()
    }

    /// The bytes of the group's share of `rela_plt`.
    pub fn plt_entries(&self) -> &[u8]
        ensures written { take (rela_size * length self.now.plt.entries) result.now ≡ rela_bytes self.now.plt.entries }
        ensures room { length result.now ≡ self.now.plt.room }
    {
        self.plt.bytes()
    }

    /// The bytes of the group's share of `rela_dyn_general`.
    pub fn general_entries(&self) -> &[u8]
        ensures written { take (rela_size * length self.now.general.entries) result.now ≡ rela_bytes self.now.general.entries }
        ensures room { length result.now ≡ self.now.general.room }
    {
        self.general.bytes()
    }

    /// The bytes of the group's share of `rela_dyn_relative`: those of the entries, then the unwritten rest.
    pub fn relative_entries(&self) -> &[u8]
        ensures written { take (relative_used self.now) result.now ≡ rela_bytes self.now.relative.entries }
        ensures room { length result.now ≡ self.now.relative.room }
    {
        self.relative.bytes()
    }

    /// The bytes of the group's share of `relr_dyn`: those of the words, then the unwritten rest.
    pub fn relr_words(&self) -> &[u8]
        ensures written { take (packed_used self.now) result.now ≡ word_bytes self.now.packed.state.words }
        ensures room { length result.now ≡ self.now.packed.room }
    {
        self.packed.bytes()
    }
}

/// Writes a word of 8 bytes over the whole of `site`.
fn put_site(site: &mut [u8], value: u64)
    requires { length site.old ≡ 8 }
    ensures { site.new ≡ word 8 value }
{
    put_u64(site, 0, value);
}
