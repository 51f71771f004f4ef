//! The versions that the output defines (LSB, "Version Definitions").
ghost use Rattle.std.specs.Prelude.{◌≡◌, ℕ, ◌+◌, ◌*◌, ◌^◌, ◌<◌, ◌≤◌, length, None, Some};
ghost use Rattle.wild_words.specs.Record.{spell};
ghost use Rattle.wild_records.specs.Hashes.{sysv_hash};
ghost use Rattle.wild_records.specs.Verdefs.{verdef_size, verdaux_size, verdef_fields, verdaux_fields};
ghost use Rattle.wild_table_formats.specs.VersionRoom.{with_bytes};
ghost use Rattle.wild_table_formats.specs.VersionChain.{next_of, name_at};
ghost use Rattle.wild_table_formats.specs.VersionDefinitions.{names_of, version_name, verdef_of, verdauxes_of, verdaux_bytes, definition_bytes, definition_table};
ghost use Rattle.wild_needs.specs.Versions.{definition_size, definitions_size};

use crate::room::FilledRoom;
use wild_needs::definition_size;
use wild_records::abi::version::{VER_DEF_CURRENT, VER_FLG_BASE};
use wild_records::{Verdaux, Verdef, sysv_hash};
use wild_types::VersionDefinition;
use wild_words::Bytes;

/// `vd_next`, `vda_next` and their like: the distance to the next record, 0 for the last.
pub(crate) fn next_of(last: bool, size: u32) -> u32
    ensures { result ≡ next_of last size }
{
    if last { 0 } else { size }
}

/// The offset of string k; 0 if the list has no string k.
pub(crate) fn name_at(names: &[u32], k: usize) -> u32
    ensures { result ≡ name_at names.now k }
{
    if k < names.len() { names[k] } else { 0 }
}

/// `vd_cnt`: the number of names of a version.
fn names_of(parent: Option<usize>) -> u16
    ensures { result ≡ names_of parent }
{
    match parent {
        None => 1,
        Some(_) => 2,
    }
}

/// `vd_hash` of version i: the hash of its name. Version 0 has the soname as its name, if there is one.
fn hash_of(soname: &Option<Bytes>, i: usize, name: &Bytes) -> u32
    ensures { result ≡ sysv_hash (version_name soname.now i name.now) }
{
    match soname {
        Some(own) if i == 0 => sysv_hash(own.as_slice()),
        _ => sysv_hash(name.as_slice()),
    }
}

/// The record of version i.
fn verdef_of(soname: &Option<Bytes>, i: usize, last: bool, definition: &VersionDefinition) -> Verdef
    requires { i + 1 < 2 ^ 16 }
    ensures { result ≡ verdef_of soname.now i last definition.now }
{
    Verdef {
        version: VER_DEF_CURRENT,
        flags: if i == 0 { VER_FLG_BASE } else { 0 },
        index: i as u16 + 1,
        count: names_of(definition.parent),
        hash: hash_of(soname, i, &definition.name),
        aux: Verdef::SIZE as u32,
        next: next_of(last, definition_size(definition) as u32),
    }
}

/// Appends the record of a version.
fn push_verdef(table: &mut FilledRoom, entry: Verdef)
    requires { length table.old.bytes + verdef_size ≤ table.old.room }
    ensures added { table.new ≡ with_bytes (spell (verdef_fields entry)) table.old }
    ensures used { length table.new.bytes ≡ length table.old.bytes + verdef_size }
{
    let mut bytes = [0; Verdef::SIZE];
    entry.put(&mut bytes);
    table.push(&bytes);
}

/// Appends the record of a name.
fn push_verdaux(table: &mut FilledRoom, entry: Verdaux)
    requires { length table.old.bytes + verdaux_size ≤ table.old.room }
    ensures added { table.new ≡ with_bytes (spell (verdaux_fields entry)) table.old }
    ensures used { length table.new.bytes ≡ length table.old.bytes + verdaux_size }
{
    let mut bytes = [0; Verdaux::SIZE];
    entry.put(&mut bytes);
    table.push(&bytes);
}

/// Appends the records of the names of version i: its own, then its parent's.
#[tactic(auto, using(wild_table_formats::proofs::VersionChains::name_steps))]
fn push_names(table: &mut FilledRoom, names: &[u32], i: usize, definition: &VersionDefinition)
    requires { length table.old.bytes + definition_size definition.now ≤ table.old.room + verdef_size }
    ensures added { table.new ≡ with_bytes (verdaux_bytes (verdauxes_of names.now i definition.now)) table.old }
    ensures used { length table.new.bytes + verdef_size ≡ length table.old.bytes + definition_size definition.now }
{
    let name = name_at(names, i);
    match definition.parent {
        None => push_verdaux(table, Verdaux { name, next: 0 }),
        Some(parent) => {
            let next = Verdaux::SIZE as u32;
            push_verdaux(table, Verdaux { name, next });
            let name = name_at(names, parent);
            push_verdaux(table, Verdaux { name, next: 0 });
        }
    }
}

/// Appends version i with its names.
#[tactic(auto, using(wild_table_formats::proofs::VersionChains::with_bytes_append))]
fn push_definition(
    table: &mut FilledRoom,
    names: &[u32],
    soname: &Option<Bytes>,
    i: usize,
    last: bool,
    definition: &VersionDefinition,
)
    requires few { i + 1 < 2 ^ 16 }
    requires room { length table.old.bytes + definition_size definition.now ≤ table.old.room }
    ensures added { table.new ≡ with_bytes (definition_bytes names.now soname.now i last definition.now) table.old }
    ensures used { length table.new.bytes ≡ length table.old.bytes + definition_size definition.now }
{
    push_verdef(table, verdef_of(soname, i, last, definition));
    push_names(table, names, i, definition);
}

/// Appends all versions, each with its names.
#[tactic(auto, using(wild_table_formats::proofs::VersionChains::definition_steps))]
pub(crate) fn push_definitions(
    table: &mut FilledRoom,
    names: &[u32],
    soname: &Option<Bytes>,
    definitions: &[VersionDefinition],
)
    requires few { length definitions.now < 2 ^ 16 }
    requires room { length table.old.bytes + definitions_size definitions.now ≤ table.old.room }
    ensures { table.new ≡ with_bytes (definition_table names.now soname.now definitions.now) table.old }
{
    for (i, definition) in definitions.iter().enumerate() {
        let last = i + 1 == definitions.len();
        push_definition(table, names, soname, i, last, definition);
    }
}
