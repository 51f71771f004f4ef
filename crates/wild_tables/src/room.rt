//! Sizes and uses of a group's shares of parts, and the faults of shares that are too small or too large.
ghost use Rattle.std.specs.Prelude.{◌≡◌, ℕ, ◌≤◌, List, length};
ghost use Rattle.wild_records.specs.declared.relocations.Rela.{Rela};
ghost use Rattle.wild_table_formats.specs.GroupTables.{more_words, more_stubs, more_entries};
ghost use Rattle.wild_tables.specs.SlotTables.{more_places};
ghost use Rattle.wild_tables.specs.Rooms.{words_room, stubs_room, entries_room, packed_room, first_too_small, first_too_large};

use crate::rela::RelaTable;
use crate::relr::RelrTable;
use crate::stub::StubTable;
use crate::word::WordTable;
use wild_records::{Rela, Relr};
use wild_slot::WORD_SIZE;
use wild_types::{Error, Layout, Role, excessive, insufficient, part_of};

/// The size of a group's share of a part, and how many bytes are used or needed.
#[derive(Clone, Copy)]
pub struct Room {
    pub role: Role,
    pub used: usize,
    pub given: usize,
}

/// `InsufficientAllocation` for the first share that is too small.
pub(crate) fn first_too_small(layout: &Layout, group: usize, rooms: &[Room]) -> Result<(), Error>
    ensures { result ≡ first_too_small layout.now group rooms.now }
{
    for room in rooms {
        if room.given < room.used {
            return Err(insufficient(
                part_of(layout, room.role),
                group,
                room.given as u64,
                room.used as u64,
            ));
        }
    }
    Ok(())
}

/// `ExcessiveAllocation` for the first share that is too large.
pub(crate) fn first_too_large(layout: &Layout, group: usize, rooms: &[Room]) -> Result<(), Error>
    ensures { result ≡ first_too_large layout.now group rooms.now }
{
    for room in rooms {
        if room.used < room.given {
            return Err(excessive(
                part_of(layout, room.role),
                group,
                room.given as u64,
                room.used as u64,
            ));
        }
    }
    Ok(())
}

/// Size and use of a table of GOT words.
pub(crate) fn words_room(role: Role, table: &WordTable) -> Room
    ensures { result ≡ words_room role table.now }
{
    Room {
        role,
        used: table.used(),
        given: table.room(),
    }
}

/// Size and use of a RELA table.
pub(crate) fn entries_room(role: Role, table: &RelaTable) -> Room
    ensures { result ≡ entries_room role table.now }
{
    Room {
        role,
        used: table.used(),
        given: table.room(),
    }
}

/// Size and use of a table of GOT words with `more` words added.
pub(crate) fn words_room_with(role: Role, table: &WordTable, more: usize) -> Room
    requires { more ≤ 5 }
    ensures { (ws : List ℕ) → length ws ≡ more → result ≡ words_room role (more_words ws table.now) }
{
    let given = table.room();
    Room {
        role,
        used: table.used() + WORD_SIZE * more,
        given,
    }
}

/// Size and use of the stubs with `more` bytes added.
pub(crate) fn stubs_room_with(table: &StubTable, more: usize) -> Room
    requires { more ≤ 16 }
    ensures { (bytes : List ℕ) → length bytes ≡ more → result ≡ stubs_room (more_stubs bytes table.now) }
{
    let given = table.room();
    Room {
        role: Role::PltGot,
        used: table.used() + more,
        given,
    }
}

/// Size and use of a RELA table with `more` entries added.
pub(crate) fn entries_room_with(role: Role, table: &RelaTable, more: usize) -> Room
    requires { more ≤ 5 }
    ensures { (es : List Rela) → length es ≡ more → result ≡ entries_room role (more_entries es table.now) }
{
    let given = table.room();
    Room {
        role,
        used: table.used() + Rela::SIZE * more,
        given,
    }
}

/// Size and use of the RELR table with `more` words added.
#[tactic(auto, using(crate::proofs::SlotLemmas::length_after_flats))]
pub(crate) fn packed_room_with(table: &RelrTable, more: usize) -> Room
    requires { more ≤ 5 }
    ensures { (ps : List ℕ) → length ps ≡ more → result ≡ packed_room (more_places ps table.now) }
{
    let given = table.room();
    Room {
        role: Role::RelrDyn,
        used: table.used() + Relr::SIZE * more,
        given,
    }
}
