//! The hash tables of the symbols that the output defines, which the last file writes (gABI, "Hash Table"; GNU, "DT_GNU_HASH").
ghost use Rattle.std.specs.Prelude.{◌≡◌, ◌+◌, ◌-◌, ◌^◌, ◌<◌, ◌++◌, [], ℕ, List, if◌then◌else◌, map, min, OnOk, IfOk};
ghost use Rattle.wild_hashes.specs.Tables.{sysv_hash_of, gnu_hash_of, gnu_header, sysv_table, gnu_table};
ghost use Rattle.wild_needs.specs.DynamicSymbols.{is_undefined_entry, first_listed};
ghost use Rattle.wild_types.specs.Lists.{total};
ghost use Rattle.wild_layout.specs.Content.{sysv_bytes, gnu_bytes, of_last};
ghost use Rattle.wild_contents.specs.Hashes.{symbol_undefined, file_undefined, group_undefined};
ghost use Rattle.wild_sections.specs.Fits.{SysvStands, GnuStands};

use crate::part_bytes::PartBytes;
use std::alloc::{AllocError, Global};
use wild_hashes::{write_gnu_hash_tables, write_sysv_hash_table};
use wild_needs::is_undefined_entry;
use wild_records::GnuHashHeader;
use wild_relax::Arch;
use wild_sections::Resolved;
use wild_types::{File, FileRole, GnuHash, Group, Layout, Symbol, SysvHash};

/// The number of undefined dynamic symbols among some symbols of a file of that role, at most 2^64 - 1.
fn count_undefined(role: FileRole, symbols: &[Symbol]) -> u64
    ensures { result ≡ min (2 ^ 64 - 1) (total (symbol_undefined role) symbols.now) }
{
    let mut count: u64 = 0;
    for symbol in symbols {
        if is_undefined_entry(role, symbol) {
            count = count.saturating_add(1);
        }
    }
    count
}

/// The number of undefined dynamic symbols of some files, at most 2^64 - 1.
fn count_in_files(layout: &Layout, files: &[File]) -> u64
    ensures { result ≡ min (2 ^ 64 - 1) (total (file_undefined layout.now) files.now) }
{
    let mut count: u64 = 0;
    for file in files {
        count = count.saturating_add(count_undefined(file.role, layout.symbols_of(file)));
    }
    count
}

/// The number of undefined dynamic symbols of all files, at most 2^64 - 1.
fn count_in_groups(layout: &Layout) -> u64
    ensures { result ≡ min (2 ^ 64 - 1) (total (group_undefined layout.now) layout.now.groups) }
{
    let mut count: u64 = 0;
    for group in layout.groups.as_slice() {
        count = count.saturating_add(count_in_files(layout, group.files.as_slice()));
    }
    count
}

/// The index in the dynamic symbol table of the first symbol that the output defines: after the null symbol and the undefined ones.
#[tactic(auto, using(crate::proofs::HashLemmas::first_is))]
fn first_listed(layout: &Layout) -> u32
    requires { first_listed layout.now < 2 ^ 32 }
    ensures { result ≡ first_listed layout.now }
{
    (count_in_groups(layout) + 1) as u32
}

/// The hash table of the gABI, with that number of buckets.
fn sysv_table(alloc: Global, layout: &Layout, shape: &SysvHash) -> Result<Vec<u8>, AllocError>
    requires { SysvStands layout.now shape.now }
    ensures { IfOk result (λ v. v.items ≡ sysv_table shape.now.buckets (first_listed layout.now) (map sysv_hash_of layout.now.dynsyms)) }
{
    let first = first_listed(layout);
    let definitions = layout.dynsyms.as_slice();
    let size = 8 + 4 * shape.buckets as usize + 4 * first as usize + 4 * definitions.len();
    let mut room = vec![in alloc; 0u8; size]?;
    write_sysv_hash_table(&mut room, shape.buckets, first, definitions);
    Ok(room)
}

/// GNU's hash table, with the parameters that the plan gives.
fn gnu_table(alloc: Global, layout: &Layout, shape: &GnuHash) -> Result<Vec<u8>, AllocError>
    requires { GnuStands layout.now shape.now }
    ensures { IfOk result (λ v. v.items ≡ gnu_table (gnu_header shape.now) (map gnu_hash_of layout.now.dynsyms)) }
{
    let definitions = layout.dynsyms.as_slice();
    let filter = 8 * shape.bloom_count as usize;
    let size = GnuHashHeader::SIZE + filter + 4 * shape.buckets as usize + 4 * definitions.len();
    let mut room = vec![in alloc; 0u8; size]?;
    write_gnu_hash_tables(&mut room, shape, definitions);
    Ok(room)
}

/// Whether the file writes hash tables: the last file of an output with dynamic symbols.
fn has_hashes(layout: &Layout, file: &File) -> bool
    ensures { (bytes : List ℕ) → of_last layout.now file.now bytes ≡ (if result then bytes else []) }
{
    layout.kind.needs_dynsym() && file.role.is_epilogue()
}

/// Appends the hash table of the gABI, if the file is the last one.
pub(crate) fn add_sysv<A: Arch>(
    alloc: Global,
    resolved: &Resolved<A>,
    file: &File,
    bytes: &mut PartBytes,
) -> Result<(), AllocError>
    ensures { OnOk result (bytes.new ≡ bytes.old ++ of_last resolved.now.layout.now file.now (sysv_bytes resolved.now.layout.now resolved.now.layout.now.sysv_hash)) }
{
    let layout = resolved.layout;
    if has_hashes(layout, file) {
        if let Some(shape) = &layout.sysv_hash {
            let table = sysv_table(alloc, layout, shape)?;
            bytes.extend(&table)?;
        }
    }
    Ok(())
}

/// Appends GNU's hash table, if the file is the last one.
pub(crate) fn add_gnu<A: Arch>(
    alloc: Global,
    resolved: &Resolved<A>,
    file: &File,
    bytes: &mut PartBytes,
) -> Result<(), AllocError>
    ensures { OnOk result (bytes.new ≡ bytes.old ++ of_last resolved.now.layout.now file.now (gnu_bytes resolved.now.layout.now resolved.now.layout.now.gnu_hash)) }
{
    let layout = resolved.layout;
    if has_hashes(layout, file) {
        if let Some(shape) = &layout.gnu_hash {
            let table = gnu_table(alloc, layout, shape)?;
            bytes.extend(&table)?;
        }
    }
    Ok(())
}
