//! The number of dynamic symbols of an image.
ghost use Rattle.std.specs.Prelude.{◌≡◌, ◌+◌, ◌*◌, ◌<◌, ◌≤◌, ◌^◌, length, IfOk};
ghost use Rattle.wild_records.specs.SectionHeader.{section_header_size};
ghost use Rattle.wild_loader.specs.Headers.{section_headers};
ghost use Rattle.wild_hashes.specs.Image.{bytes_of};
ghost use Rattle.wild_hashes.specs.ImageTables.{AreTablesInside};
ghost use Rattle.wild_imports.specs.SymbolCount.{greatest_word, count_chain, count_with, gnu_count, sysv_count, count_in, section_total, section_records, dynsym_size, dynsym_count, count_without, symbol_count};

use wild_hashes::{
    ImageFault, ImageTables, LookupFault, Part, Records, bytes_of, read_header, read_word,
};
use wild_records::abi::section::{SHN_UNDEF, SHT_DYNSYM};
use wild_records::{FileHeader, GnuHashHeader, SectionHeader, SymtabEntry};

/// The greatest of `count` words from an offset on; 0 without any.
#[tactic(auto, using(crate::proofs::Loops::greatest_steps))]
fn greatest_word(table: &[u8], count: u32, at: usize) -> Result<u32, LookupFault>
    requires { at < 2 ^ 40 }
    ensures { result ≡ greatest_word table.now count at 0 }
{
    let mut best: u32 = 0;
    for i in 0..count {
        let word = read_word(table, at + 4 * i as usize)?;
        best = best.max(word);
    }
    Ok(best)
}

/// The number of symbols up to the end of the chain from a symbol on, whose chain word is at an offset.
#[tactic(auto, using(crate::proofs::Loops::chain_steps))]
fn count_chain(table: &[u8], at: usize, first: u32) -> Result<u64, LookupFault>
    requires { at < 2 ^ 40 }
    ensures { result ≡ count_chain table.now (length table.now) at first }
{
    let mut place = at;
    let mut count = first as u64;
    for i in 0..table.len() {
        let word = read_word(table, place)?;
        count += 1;
        if word % 2 == 1 {
            return Ok(count);
        }
        place += 4;
    }
    Err(LookupFault::Cut {
        offset: place as u64,
    })
}

/// The number of symbols that a GNU hash table with this header tells.
fn count_with(table: &[u8], header: &GnuHashHeader) -> Result<u64, LookupFault>
    ensures { result ≡ count_with table.now header.now }
{
    let buckets = GnuHashHeader::SIZE + 8 * header.bloom_count as usize;
    let last = greatest_word(table, header.bucket_count, buckets)?;
    if last < header.symbol_base {
        return Ok(header.symbol_base as u64);
    }
    let chains = buckets + 4 * header.bucket_count as usize;
    count_chain(
        table,
        chains + 4 * (last - header.symbol_base) as usize,
        last,
    )
}

/// The number of symbols that a GNU hash table tells.
#[tactic(auto, unfolding(crate::specs::SymbolCount::gnu_count))]
fn gnu_count(table: &[u8]) -> Result<u64, LookupFault>
    ensures { result ≡ gnu_count table.now }
{
    match GnuHashHeader::get(table) {
        Some(header) => count_with(table, &header),
        None => Err(LookupFault::Cut { offset: 0 }),
    }
}

/// The number of symbols that a System V hash table tells.
#[tactic(auto, unfolding(crate::specs::SymbolCount::sysv_count))]
fn sysv_count(table: &[u8]) -> Result<u64, LookupFault>
    ensures { result ≡ sysv_count table.now }
{
    Ok(read_word(table, 4)? as u64)
}

/// A number of a table, with a fault's offset in the image.
fn count_in(part: Part, count: Result<u64, LookupFault>) -> Result<u64, ImageFault>
    ensures { result ≡ count_in part count }
{
    match count {
        Ok(count) => Ok(count),
        Err(LookupFault::Cut { offset }) => Err(ImageFault::Cut {
            offset: part.offset.wrapping_add(offset),
        }),
        Err(_) => Err(ImageFault::Cut {
            offset: part.offset,
        }),
    }
}

/// The number of section headers.
fn section_total(image: &[u8], header: &FileHeader) -> Result<u64, ImageFault>
    ensures { result ≡ section_total image.now header.now }
{
    if header.section_count != SHN_UNDEF {
        return Ok(header.section_count as u64);
    }
    let end = header.section_offset as u128 + SectionHeader::SIZE as u128;
    if end > image.len() as u128 {
        return Err(ImageFault::Cut {
            offset: header.section_offset,
        });
    }
    Ok(SectionHeader::read(image, header.section_offset as usize).size)
}

/// Where the section headers are.
#[tactic(auto, unfolding(crate::specs::SymbolCount::section_records))]
fn section_records(image: &[u8], header: &FileHeader) -> Result<Records, ImageFault>
    ensures is { result ≡ section_records image.now header.now }
    ensures room { IfOk result (λ r. r.start + section_header_size * r.count ≤ length image.now) }
{
    if header.section_offset == 0 {
        return Ok(Records { start: 0, count: 0 });
    }
    let count = section_total(image, header)?;
    let end = header.section_offset as u128 + SectionHeader::SIZE as u128 * count as u128;
    if end > image.len() as u128 {
        return Err(ImageFault::Cut {
            offset: header.section_offset,
        });
    }
    Ok(Records {
        start: header.section_offset as usize,
        count: count as usize,
    })
}

/// The size of the first section of type `SHT_DYNSYM`; 0 without one.
#[tactic(auto, using(crate::proofs::Loops::section_steps))]
fn dynsym_size(image: &[u8], sections: Records) -> u64
    requires { sections.start + section_header_size * sections.count ≤ length image.now }
    ensures { result ≡ dynsym_size (section_headers image.now sections.count sections.start) }
{
    for i in 0..sections.count {
        let section = SectionHeader::read(image, sections.start + SectionHeader::SIZE * i);
        if section.kind == SHT_DYNSYM {
            return section.size;
        }
    }
    0
}

/// The number of symbols that the section headers tell.
#[tactic(auto, unfolding(crate::specs::SymbolCount::dynsym_count))]
fn dynsym_count(image: &[u8]) -> Result<u64, ImageFault>
    ensures { result ≡ dynsym_count image.now }
{
    let header = read_header(image)?;
    let sections = section_records(image, &header)?;
    Ok(dynsym_size(image, sections) / SymtabEntry::SIZE as u64)
}

/// The number of symbols of an image without a hash table.
fn count_without(image: &[u8], symbols: Result<Part, ImageFault>) -> Result<u64, ImageFault>
    ensures { result ≡ count_without image.now symbols }
{
    match symbols {
        Err(ImageFault::NoTable { .. }) => Ok(0),
        _ => dynsym_count(image),
    }
}

/// The number of dynamic symbols, with the null symbol.
#[tactic(auto, unfolding(crate::specs::SymbolCount::symbol_count))]
pub fn symbol_count(image: &[u8], tables: &ImageTables) -> Result<u64, ImageFault>
    requires { AreTablesInside image.now tables.now }
    ensures { result ≡ symbol_count image.now tables.now }
{
    match (tables.sysv_hash, tables.gnu_hash) {
        (Some(hashes), _) => {
            let part = hashes?;
            count_in(part, sysv_count(bytes_of(image, part)))
        }
        (None, Some(hashes)) => {
            let part = hashes?;
            count_in(part, gnu_count(bytes_of(image, part)))
        }
        (None, None) => count_without(image, tables.symbols),
    }
}
