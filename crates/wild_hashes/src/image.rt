//! The look-up of a name in an image. Nothing is allocated.
ghost use Rattle.std.specs.Prelude.{◌≡◌, ◌+◌, ◌*◌, ◌/◌, ◌≤◌, ◌<◌, [], length, IfOk, IfErr, IfSome, Some, Ok, Err};
ghost use Rattle.wild_records.specs.Dynamic.{dynamic_entry_size};
ghost use Rattle.wild_records.specs.FileHeader.{file_header_at};
ghost use Rattle.wild_records.specs.ProgramHeader.{program_header_size};
ghost use Rattle.wild_records.specs.SymtabEntry.{symtab_entry_size};
ghost use Rattle.wild_loader.specs.Headers.{is_loadable_header, program_headers};
ghost use Rattle.wild_loader.specs.Tables.{dynamic_entries, first_dynamic, value_of_tag, has_in_memory};
ghost use Rattle.wild_hashes.specs.Image.{image_header, dynamic_in, dynamic_records, part_in, part_at, part_of, sized_part, strings_of, parts_by, tables_of, IsInside, AreInside, bytes_of, bytes_or_none, fault_in_part, fault_in_image, result_in_image, gnu_by, sysv_by, gnu_lookup_in, sysv_lookup_in};

use crate::fault::{ImageFault, LookupFault};
use crate::lookup::{find_gnu_symbol, find_sysv_symbol};
use crate::reading::LookupTables;
use wild_records::abi::dynamic::{DT_GNU_HASH, DT_HASH, DT_NULL, DT_STRSZ, DT_STRTAB, DT_SYMTAB};
use wild_records::abi::header::{
    ELFCLASS64, ELFDATA2LSB, ELFMAG, EM_AARCH64, EM_X86_64, ET_DYN, ET_EXEC,
};
use wild_records::abi::segment::{PT_DYNAMIC, PT_LOAD};
use wild_records::{DynamicEntry, FileHeader, ProgramHeader, SymtabEntry};

/// The file bytes of a segment from some address to the end of its file bytes, or fewer.
#[derive(Clone, Copy)]
pub struct Part {
    /// Their file offset modulo 2^64, for faults. It may lie past the end of the image.
    pub offset: u64,
    /// The index of the first of them in the image, at most the image's length.
    pub start: usize,
    /// The number of these bytes in the image.
    pub size: usize,
}

/// The tables of an image that a look-up reads. The symbol and string tables are only needed once a name is compared, so a
/// fault of theirs is kept until then.
#[derive(Clone, Copy)]
pub struct Parts {
    pub hashes: Part,
    pub symbols: Result<Part, ImageFault>,
    pub strings: Result<Part, ImageFault>,
}

/// `count` consecutive records of an image.
#[derive(Clone, Copy)]
pub struct Records {
    /// The index of the first byte of the first record.
    pub start: usize,
    pub count: usize,
}

/// Whether the header is that of an ELF64 little-endian executable or shared object for a known machine.
fn is_loadable(header: &FileHeader) -> bool
    ensures { result ≡ is_loadable_header header.now }
{
    header.magic == ELFMAG
        && header.class == ELFCLASS64
        && header.encoding == ELFDATA2LSB
        && (header.file_type == ET_EXEC || header.file_type == ET_DYN)
        && (header.machine == EM_X86_64 || header.machine == EM_AARCH64)
}

/// The file header. Fails if it is not one of a loadable image, or if the program headers go past the image's end.
#[tactic(auto, unfolding(crate::specs::Image::image_header))]
pub fn read_header(image: &[u8]) -> Result<FileHeader, ImageFault>
    ensures is { result ≡ image_header image.now }
    ensures room { IfOk result (λ h. h.program_offset + program_header_size * h.program_count ≤ length image.now) }
{
    let Some(header) = FileHeader::get(image) else {
        return Err(ImageFault::NotElf);
    };
    if !is_loadable(&header) {
        return Err(ImageFault::NotElf);
    }
    let size = ProgramHeader::SIZE as u128 * header.program_count as u128;
    if header.program_offset as u128 + size <= image.len() as u128 {
        Ok(header)
    } else {
        Err(ImageFault::Cut {
            offset: header.program_offset,
        })
    }
}

/// The first program header of type `PT_DYNAMIC`.
#[tactic(auto, using(crate::proofs::ImageLemmas::dynamic_steps))]
pub(crate) fn find_dynamic(image: &[u8], headers: Records) -> Option<ProgramHeader>
    requires { headers.start + program_header_size * headers.count ≤ length image.now }
    ensures { result ≡ first_dynamic (program_headers image.now headers.count headers.start) }
{
    for i in 0..headers.count {
        let header = ProgramHeader::read(image, headers.start + ProgramHeader::SIZE * i);
        if header.kind == PT_DYNAMIC {
            return Some(header);
        }
    }
    None
}

/// The value of the first dynamic entry with a tag, before the first `DT_NULL`.
#[tactic(auto, using(crate::proofs::ImageLemmas::tag_steps))]
pub(crate) fn find_tag(image: &[u8], entries: Records, tag: u64) -> Option<u64>
    requires { entries.start + dynamic_entry_size * entries.count ≤ length image.now }
    ensures { result ≡ value_of_tag tag (dynamic_entries image.now entries.count entries.start) }
{
    for i in 0..entries.count {
        let entry = DynamicEntry::read(image, entries.start + DynamicEntry::SIZE * i);
        if entry.tag == DT_NULL {
            return None;
        }
        if entry.tag == tag {
            return Some(entry.value);
        }
    }
    None
}

/// Whether a program header is a `PT_LOAD` that contains an address in memory.
fn segment_contains(header: &ProgramHeader, address: u64) -> bool
    ensures { result ≡ has_in_memory header.now address }
{
    header.kind == PT_LOAD
        && header.address <= address
        && (address as u128) < header.address as u128 + header.mem_size as u128
}

/// The file bytes of a segment from an address on.
fn part_within(image: &[u8], header: &ProgramHeader, address: u64) -> Part
    requires { header.now.address ≤ address }
    ensures is { result ≡ part_in image.now header.now address }
    ensures room { IsInside image.now result }
{
    let distance = address - header.address;
    let offset = header.offset as u128 + distance as u128;
    let file_end = header.address as u128 + header.file_size as u128;
    let start = offset.min(image.len() as u128) as usize;
    let left = image.len() - start;
    let size = file_end.saturating_sub(address as u128).min(left as u128) as usize;
    Part {
        offset: header.offset.wrapping_add(distance),
        start,
        size,
    }
}

/// The file bytes from an address on, in the first `PT_LOAD` that contains the address.
#[tactic(auto, using(crate::proofs::ImageLemmas::part_steps))]
pub(crate) fn find_part(image: &[u8], headers: Records, address: u64) -> Result<Part, ImageFault>
    requires { headers.start + program_header_size * headers.count ≤ length image.now }
    ensures is { result ≡ part_at image.now (program_headers image.now headers.count headers.start) address }
    ensures room { IfOk result (λ p. IsInside image.now p) }
{
    for i in 0..headers.count {
        let header = ProgramHeader::read(image, headers.start + ProgramHeader::SIZE * i);
        if segment_contains(&header, address) {
            return Ok(part_within(image, &header, address));
        }
    }
    Err(ImageFault::Cut { offset: address })
}

/// The file bytes of the table whose address the dynamic entry with this tag has.
#[tactic(auto, unfolding(crate::specs::Image::part_of))]
pub(crate) fn find_table(
    image: &[u8],
    headers: Records,
    tag: u64,
    address: Option<u64>,
) -> Result<Part, ImageFault>
    requires { headers.start + program_header_size * headers.count ≤ length image.now }
    ensures is { result ≡ part_of image.now (program_headers image.now headers.count headers.start) tag address }
    ensures room { IfOk result (λ p. IsInside image.now p) }
{
    match address {
        Some(address) => find_part(image, headers, address),
        None => Err(ImageFault::NoTable { tag }),
    }
}

/// The first `size` bytes of a part. Fails if it has fewer.
fn sized_part(part: Part, size: u64) -> Result<Part, ImageFault>
    ensures { result ≡ sized_part size part }
{
    if size <= part.size as u64 {
        Ok(Part {
            offset: part.offset,
            start: part.start,
            size: size as usize,
        })
    } else {
        Err(ImageFault::Cut {
            offset: part.offset,
        })
    }
}

/// The string table, from `DT_STRTAB` and `DT_STRSZ`.
#[tactic(auto, unfolding(crate::specs::Image::strings_of))]
fn find_strings(
    image: &[u8],
    headers: Records,
    address: Option<u64>,
    size: Option<u64>,
) -> Result<Part, ImageFault>
    requires { headers.start + program_header_size * headers.count ≤ length image.now }
    ensures is { result ≡ strings_of image.now (program_headers image.now headers.count headers.start) address size }
    ensures room { IfOk result (λ p. IsInside image.now p) }
{
    match (address, size) {
        (Some(address), Some(size)) => sized_part(find_part(image, headers, address)?, size),
        (None, Some(_)) => Err(ImageFault::NoTable { tag: DT_STRSZ }),
        _ => Err(ImageFault::NoTable { tag: DT_STRTAB }),
    }
}

/// The entries of the dynamic section; none if the image has no `PT_DYNAMIC` or an empty one.
#[tactic(auto, unfolding(wild_loader::specs::Tables::dynamic_entries))]
pub(crate) fn find_entries(
    image: &[u8],
    segment: Option<ProgramHeader>,
) -> Result<Records, ImageFault>
    ensures is { IfOk result (λ r. dynamic_in image.now segment ≡ Ok (dynamic_entries image.now r.count r.start)) }
    ensures refused { IfErr result (λ e. dynamic_in image.now segment ≡ Err e) }
    ensures records { result ≡ dynamic_records image.now segment }
    ensures room { IfOk result (λ r. r.start + dynamic_entry_size * r.count ≤ length image.now) }
{
    let Some(segment) = segment else {
        return Ok(Records { start: 0, count: 0 });
    };
    if segment.file_size == 0 {
        return Ok(Records { start: 0, count: 0 });
    }
    let end = segment.offset as u128 + segment.file_size as u128;
    if end > image.len() as u128 {
        return Err(ImageFault::Cut {
            offset: segment.offset,
        });
    }
    Ok(Records {
        start: segment.offset as usize,
        count: segment.file_size as usize / DynamicEntry::SIZE,
    })
}

/// The tables for a look-up in the hash table with this tag; `None` if no dynamic entry has the tag.
fn find_parts(
    image: &[u8],
    headers: Records,
    entries: Records,
    tag: u64,
) -> Result<Option<Parts>, ImageFault>
    requires headers { headers.start + program_header_size * headers.count ≤ length image.now }
    requires entries { entries.start + dynamic_entry_size * entries.count ≤ length image.now }
    ensures is { let ds = dynamic_entries image.now entries.count entries.start in result ≡ parts_by image.now (program_headers image.now headers.count headers.start) ds (value_of_tag tag ds) }
    ensures room { IfOk result (λ found. IfSome found (λ ps. AreInside image.now ps)) }
{
    let Some(address) = find_tag(image, entries, tag) else {
        return Ok(None);
    };
    let hashes = find_part(image, headers, address)?;
    let symbols_at = find_tag(image, entries, DT_SYMTAB);
    let symbols = find_table(image, headers, DT_SYMTAB, symbols_at);
    let strings_at = find_tag(image, entries, DT_STRTAB);
    let strings_size = find_tag(image, entries, DT_STRSZ);
    let strings = find_strings(image, headers, strings_at, strings_size);
    Ok(Some(Parts {
        hashes,
        symbols,
        strings,
    }))
}

/// The tables for a look-up in the hash table with this tag, found from the file header.
#[tactic(auto, unfolding(crate::specs::Image::tables_of))]
fn find_tables(image: &[u8], tag: u64) -> Result<Option<Parts>, ImageFault>
    ensures is { result ≡ tables_of image.now tag }
    ensures room { IfOk result (λ found. IfSome found (λ ps. AreInside image.now ps)) }
{
    let header = read_header(image)?;
    let headers = Records {
        start: header.program_offset as usize,
        count: header.program_count as usize,
    };
    let entries = find_entries(image, find_dynamic(image, headers))?;
    find_parts(image, headers, entries, tag)
}

/// The bytes of a part.
pub fn bytes_of(image: &[u8], part: Part) -> &[u8]
    requires { IsInside image.now part }
    ensures { result.now ≡ bytes_of image.now part }
{
    &image[part.start..part.start + part.size]
}

/// The bytes of a part; none if it was not found.
pub(crate) fn bytes_or_none(image: &[u8], part: Result<Part, ImageFault>) -> &[u8]
    requires { IfOk part (λ p. IsInside image.now p) }
    ensures { result.now ≡ bytes_or_none image.now part }
{
    match part {
        Ok(part) => bytes_of(image, part),
        Err(_) => &image[..0],
    }
}

/// The fault at an offset of a part, or the fault because of which the part was not found.
pub(crate) fn fault_in_part(part: Result<Part, ImageFault>, at: u64) -> ImageFault
    ensures { result ≡ fault_in_part part at }
{
    match part {
        Ok(part) => ImageFault::Cut {
            offset: part.offset.wrapping_add(at),
        },
        Err(fault) => fault,
    }
}

/// The fault of a symbol past the end of the symbol table.
#[tactic(auto, using(crate::proofs::ImageLemmas::wrapped_once))]
pub(crate) fn missing_symbol_fault(symbols: Result<Part, ImageFault>, index: u64) -> ImageFault
    ensures { result ≡ fault_in_part symbols (symtab_entry_size * index) }
{
    match symbols {
        Ok(part) => {
            let distance = index.wrapping_mul(SymtabEntry::SIZE as u64);
            ImageFault::Cut {
                offset: part.offset.wrapping_add(distance),
            }
        }
        Err(fault) => fault,
    }
}

/// A fault of the look-up in tables, with its offset in the image.
fn fault_in_image(parts: Parts, fault: LookupFault) -> ImageFault
    ensures { result ≡ fault_in_image parts fault }
{
    match fault {
        LookupFault::Cut { offset } => fault_in_part(Ok(parts.hashes), offset),
        LookupFault::NoSymbol { index } => missing_symbol_fault(parts.symbols, index),
        LookupFault::NoString { offset } => fault_in_part(parts.strings, offset),
        LookupFault::Cycle { index } => ImageFault::Cycle { index },
    }
}

/// The result of the look-up in tables, with a fault's offset in the image.
fn result_in_image(
    parts: Parts,
    found: Result<Option<u64>, LookupFault>,
) -> Result<Option<u64>, ImageFault>
    ensures { result ≡ result_in_image parts found }
{
    match found {
        Ok(index) => Ok(index),
        Err(fault) => Err(fault_in_image(parts, fault)),
    }
}

/// The bytes of these parts.
fn lookup_tables(image: &[u8], parts: Parts) -> LookupTables<'_>
    requires { AreInside image.now parts }
    ensures hashes { result.hashes.now ≡ bytes_of image.now parts.hashes }
    ensures symbols { result.symbols.now ≡ bytes_or_none image.now parts.symbols }
    ensures strings { result.strings.now ≡ bytes_or_none image.now parts.strings }
{
    LookupTables {
        hashes: bytes_of(image, parts.hashes),
        symbols: bytes_or_none(image, parts.symbols),
        strings: bytes_or_none(image, parts.strings),
    }
}

/// Looks a name up in a GNU hash table of an image.
pub(crate) fn look_up_gnu(
    image: &[u8],
    parts: Parts,
    name: &[u8],
) -> Result<Option<u64>, ImageFault>
    requires { AreInside image.now parts }
    ensures { result ≡ gnu_by image.now name.now (Some parts) }
{
    let tables = lookup_tables(image, parts);
    result_in_image(parts, find_gnu_symbol(&tables, name))
}

/// Looks a name up in a System V hash table of an image.
pub(crate) fn look_up_sysv(
    image: &[u8],
    parts: Parts,
    name: &[u8],
) -> Result<Option<u64>, ImageFault>
    requires { AreInside image.now parts }
    ensures { result ≡ sysv_by image.now name.now (Some parts) }
{
    let tables = lookup_tables(image, parts);
    result_in_image(parts, find_sysv_symbol(&tables, name))
}

/// Looks a name up in the GNU hash table of an image, and returns the index of the dynamic symbol. `None` if no symbol has
/// the name, or if the image has no such table, or one without buckets or without a Bloom filter.
#[tactic(auto, unfolding(crate::specs::Image::gnu_lookup_in))]
pub fn lookup_gnu(image: &[u8], name: &[u8]) -> Result<Option<u64>, ImageFault>
    ensures { result ≡ gnu_lookup_in image.now name.now }
{
    match find_tables(image, DT_GNU_HASH)? {
        Some(parts) => look_up_gnu(image, parts, name),
        None => Ok(None),
    }
}

/// Looks a name up in the System V hash table of an image, and returns the index of the dynamic symbol. `None` if no symbol
/// has the name, or if the image has no such table, or one without buckets.
#[tactic(auto, unfolding(crate::specs::Image::sysv_lookup_in))]
pub fn lookup_sysv(image: &[u8], name: &[u8]) -> Result<Option<u64>, ImageFault>
    ensures { result ≡ sysv_lookup_in image.now name.now }
{
    match find_tables(image, DT_HASH)? {
        Some(parts) => look_up_sysv(image, parts, name),
        None => Ok(None),
    }
}
