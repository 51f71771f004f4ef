//! The versions that are needed of libraries (LSB, "Version Requirements").
ghost use Rattle.std.specs.Prelude.{◌≡◌, ℕ, ◌+◌, ◌*◌, ◌^◌, ◌<◌, ◌≤◌, length};
ghost use Rattle.wild_words.specs.Record.{spell};
ghost use Rattle.wild_records.specs.Verneeds.{verneed_size, vernaux_size, verneed_fields, vernaux_fields};
ghost use Rattle.wild_table_formats.specs.VersionRoom.{with_bytes};
ghost use Rattle.wild_table_formats.specs.VersionChain.{chain};
ghost use Rattle.wild_table_formats.specs.VersionNeeds.{verneed_of, vernaux_of, needed_bytes, need_bytes};
ghost use Rattle.wild_needs.specs.Versions.{need_size};

use crate::definitions::{name_at, next_of};
use crate::room::FilledRoom;
use wild_needs::need_size;
use wild_records::abi::version::VER_NEED_CURRENT;
use wild_records::{Vernaux, Verneed, sysv_hash};
use wild_types::{NeededVersion, VersionNeeds};

/// The record of a library.
fn verneed_of(file: u32, needs: &VersionNeeds) -> Verneed
    requires few { length needs.now.versions < 2 ^ 16 }
    ensures { result ≡ verneed_of file needs.now }
{
    Verneed {
        version: VER_NEED_CURRENT,
        count: needs.versions.len() as u16,
        file,
        aux: Verneed::SIZE as u32,
        next: next_of(needs.last, need_size(needs) as u32),
    }
}

/// The record of version i that is needed.
fn vernaux_of(names: &[u32], i: usize, last: bool, version: &NeededVersion) -> Vernaux
    ensures { result ≡ vernaux_of names.now i last version.now }
{
    Vernaux {
        hash: sysv_hash(version.name.as_slice()),
        flags: 0,
        index: version.index,
        name: name_at(names, i),
        next: next_of(last, Vernaux::SIZE as u32),
    }
}

/// Appends the record of a library.
fn push_verneed(table: &mut FilledRoom, entry: Verneed)
    requires { length table.old.bytes + verneed_size ≤ table.old.room }
    ensures added { table.new ≡ with_bytes (spell (verneed_fields entry)) table.old }
    ensures used { length table.new.bytes ≡ length table.old.bytes + verneed_size }
{
    let mut bytes = [0; Verneed::SIZE];
    entry.put(&mut bytes);
    table.push(&bytes);
}

/// Appends the record of a version.
fn push_vernaux(table: &mut FilledRoom, entry: Vernaux)
    requires { length table.old.bytes + vernaux_size ≤ table.old.room }
    ensures added { table.new ≡ with_bytes (spell (vernaux_fields entry)) table.old }
    ensures used { length table.new.bytes ≡ length table.old.bytes + vernaux_size }
{
    let mut bytes = [0; Vernaux::SIZE];
    entry.put(&mut bytes);
    table.push(&bytes);
}

/// Appends the records of the versions that are needed of a library.
#[tactic(auto, using(wild_table_formats::proofs::VersionChains::need_steps))]
fn push_versions(table: &mut FilledRoom, names: &[u32], versions: &[NeededVersion])
    requires room { length table.old.bytes + vernaux_size * length versions.now ≤ table.old.room }
    ensures { table.new ≡ with_bytes (chain (needed_bytes names.now) 0 versions.now) table.old }
{
    for (i, version) in versions.iter().enumerate() {
        let last = i + 1 == versions.len();
        push_vernaux(table, vernaux_of(names, i, last, version));
    }
}

/// Appends the record of a library and those of the versions that are needed of it.
#[tactic(auto, using(wild_table_formats::proofs::VersionChains::with_bytes_append))]
pub(crate) fn push_need(table: &mut FilledRoom, file: u32, names: &[u32], needs: &VersionNeeds)
    requires few { length needs.now.versions < 2 ^ 16 }
    requires room { length table.old.bytes + need_size needs.now ≤ table.old.room }
    ensures { table.new ≡ with_bytes (need_bytes file names.now needs.now) table.old }
{
    push_verneed(table, verneed_of(file, needs));
    push_versions(table, names, needs.versions.as_slice());
}
