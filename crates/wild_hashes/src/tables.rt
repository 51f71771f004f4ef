//! The tables that the dynamic section of an image names, found once; and what is read through them. Nothing is allocated.
ghost use Rattle.std.specs.Prelude.{◌≡◌, ◌+◌, ◌*◌, ◌≤◌, length, IfOk, MatchResult, Ok, Err};
ghost use Rattle.wild_records.specs.Dynamic.{dynamic_entry_size};
ghost use Rattle.wild_records.specs.ProgramHeader.{program_header_size};
ghost use Rattle.wild_hashes.specs.ImageTables.{image_tables, hash_part, tables_at, headers_of, AreTablesInside, IsHashInside, text_at, symbol_in, symbol_at, find_sysv, find_name};

use crate::fault::ImageFault;
use crate::image::{
    Part, Parts, Records, bytes_or_none, fault_in_part, find_dynamic, find_entries, find_part,
    find_table, find_tag, look_up_gnu, look_up_sysv, missing_symbol_fault, read_header,
};
use crate::reading::string_at;
use wild_records::SymtabEntry;
use wild_records::abi::dynamic::{DT_GNU_HASH, DT_HASH, DT_STRTAB, DT_SYMTAB};

/// Where the tables of an image are. A fault of a table is kept until the table is needed.
#[derive(Clone, Copy)]
pub struct ImageTables {
    /// The program headers.
    pub headers: Records,
    /// The dynamic entries, with those from the first `DT_NULL` on.
    pub entries: Records,
    /// The dynamic symbol table, up to the end of its segment's file bytes.
    pub symbols: Result<Part, ImageFault>,
    /// The string table of the dynamic symbols, up to the end of its segment's file bytes.
    pub strings: Result<Part, ImageFault>,
    /// The GNU hash table; `None` without `DT_GNU_HASH`.
    pub gnu_hash: Option<Result<Part, ImageFault>>,
    /// The System V hash table; `None` without `DT_HASH`.
    pub sysv_hash: Option<Result<Part, ImageFault>>,
}

/// The hash table whose address a dynamic entry has.
fn find_hash_part(
    image: &[u8],
    headers: Records,
    address: Option<u64>,
) -> Option<Result<Part, ImageFault>>
    requires { headers.start + program_header_size * headers.count ≤ length image.now }
    ensures is { result ≡ hash_part image.now (headers_of image.now headers) address }
    ensures room { IsHashInside image.now result }
{
    match address {
        Some(address) => Some(find_part(image, headers, address)),
        None => None,
    }
}

/// The tables that these dynamic entries name.
#[tactic(auto, unfolding(crate::specs::ImageTables::tables_at))]
fn find_named_tables(image: &[u8], headers: Records, entries: Records) -> ImageTables
    requires headers { headers.start + program_header_size * headers.count ≤ length image.now }
    requires entries { entries.start + dynamic_entry_size * entries.count ≤ length image.now }
    ensures is { result ≡ tables_at image.now headers entries }
    ensures room { AreTablesInside image.now result }
{
    let symbols_at = find_tag(image, entries, DT_SYMTAB);
    let strings_at = find_tag(image, entries, DT_STRTAB);
    let gnu_at = find_tag(image, entries, DT_GNU_HASH);
    let sysv_at = find_tag(image, entries, DT_HASH);
    ImageTables {
        headers,
        entries,
        symbols: find_table(image, headers, DT_SYMTAB, symbols_at),
        strings: find_table(image, headers, DT_STRTAB, strings_at),
        gnu_hash: find_hash_part(image, headers, gnu_at),
        sysv_hash: find_hash_part(image, headers, sysv_at),
    }
}

/// The tables of an image. Fails if the file header is not one of a loadable image, or if the program headers or the dynamic
/// section go past the image's end.
#[tactic(auto, unfolding(crate::specs::ImageTables::image_tables))]
pub fn find_image_tables(image: &[u8]) -> Result<ImageTables, ImageFault>
    ensures is { result ≡ image_tables image.now }
    ensures room { IfOk result (AreTablesInside image.now) }
{
    let header = read_header(image)?;
    let headers = Records {
        start: header.program_offset as usize,
        count: header.program_count as usize,
    };
    let entries = find_entries(image, find_dynamic(image, headers))?;
    Ok(find_named_tables(image, headers, entries))
}

/// The string at an offset of the string table.
#[tactic(auto, unfolding(crate::specs::ImageTables::text_at))]
pub fn text_at<'a>(image: &'a [u8], tables: &ImageTables, at: u64) -> Result<&'a [u8], ImageFault>
    requires { AreTablesInside image.now tables.now }
    ensures { MatchResult result (λ t. text_at image.now tables.now at ≡ Ok t.now) (λ e. text_at image.now tables.now at ≡ Err e) }
{
    match string_at(bytes_or_none(image, tables.strings), at) {
        Ok(text) => Ok(text),
        Err(_) => Err(fault_in_part(tables.strings, at)),
    }
}

/// The symbol with an index in a symbol table; `None` if the table ends before it.
#[tactic(auto, unfolding(crate::specs::ImageTables::symbol_in))]
fn symbol_in(symbols: &[u8], index: u64) -> Option<SymtabEntry>
    ensures { result ≡ symbol_in symbols.now index }
{
    if symbols.len() as u64 / SymtabEntry::SIZE as u64 <= index {
        return None;
    }
    Some(SymtabEntry::read(symbols, SymtabEntry::SIZE * index as usize))
}

/// The dynamic symbol with an index.
#[tactic(auto, unfolding(crate::specs::ImageTables::symbol_at))]
pub fn symbol_at(image: &[u8], tables: &ImageTables, index: u64) -> Result<SymtabEntry, ImageFault>
    requires { AreTablesInside image.now tables.now }
    ensures { result ≡ symbol_at image.now tables.now index }
{
    match symbol_in(bytes_or_none(image, tables.symbols), index) {
        Some(entry) => Ok(entry),
        None => Err(missing_symbol_fault(tables.symbols, index)),
    }
}

/// Looks a name up in the System V hash table, if there is one.
fn find_sysv(image: &[u8], tables: &ImageTables, name: &[u8]) -> Result<Option<u64>, ImageFault>
    requires { AreTablesInside image.now tables.now }
    ensures { result ≡ find_sysv image.now tables.now name.now tables.now.sysv_hash }
{
    let Some(hashes) = tables.sysv_hash else {
        return Ok(None);
    };
    let parts = Parts {
        hashes: hashes?,
        symbols: tables.symbols,
        strings: tables.strings,
    };
    look_up_sysv(image, parts, name)
}

/// Looks a name up in the GNU hash table of an image or, without one, in the System V hash table, and returns the index of the
/// dynamic symbol. `None` if no symbol has the name, or if the image has neither table.
#[tactic(auto, unfolding(crate::specs::ImageTables::find_name))]
pub fn find_name(image: &[u8], tables: &ImageTables, name: &[u8]) -> Result<Option<u64>, ImageFault>
    requires { AreTablesInside image.now tables.now }
    ensures { result ≡ find_name image.now tables.now name.now }
{
    let Some(hashes) = tables.gnu_hash else {
        return find_sysv(image, tables, name);
    };
    let parts = Parts {
        hashes: hashes?,
        symbols: tables.symbols,
        strings: tables.strings,
    };
    look_up_gnu(image, parts, name)
}
