//! The entries of `.dynamic` that the last file writes (gABI, "Dynamic Section").
ghost use Rattle.std.specs.Prelude.{◌≡◌, ◌+◌, ◌*◌, ◌≤◌, ◌++◌, [], ◌∷◌, length, take, replicate};
ghost use Rattle.wild_records.specs.Dynamic.{dynamic_entry_size};
ghost use Rattle.wild_needs.specs.Dynamic.{entry_of, tag_entries, dynamic_count};
ghost use Rattle.wild_needs.specs.DynamicStrings.{named, offset_after_string, string_entries, auxiliary_strings, named_strings, string_start};
ghost use Rattle.wild_table_formats.specs.DynamicSection.{dynamic_bytes, entries_bytes, offset_after_strings};

use wild_needs::{DynamicTag, dynamic_entry, string_start};
use wild_records::DynamicEntry;
use wild_records::abi::dynamic::{DT_AUXILIARY, DT_RPATH, DT_RUNPATH, DT_SONAME};
use wild_types::Layout;
use wild_words::{Bytes, put};

/// Fills all bytes with zeros.
pub fn write_unused(out: &mut [u8])
    ensures { out.new ≡ replicate (length out.old) 0 }
{
    out.fill(0);
}

/// Writes an entry at an offset, and returns the offset after it.
#[tactic(auto, using(wild_table_formats::proofs::DynamicLemmas::entry_put, wild_table_formats::proofs::DynamicLemmas::entry_room))]
fn write_entry(out: &mut [u8], at: usize, entry: DynamicEntry) -> usize
    requires { at + dynamic_entry_size ≤ length out.old }
    ensures at { result ≡ at + dynamic_entry_size }
    ensures written { take result out.new ≡ take at out.old ++ entries_bytes (entry ∷ []) }
    ensures room { length out.new ≡ length out.old }
{
    let mut bytes = [0; DynamicEntry::SIZE];
    entry.put(&mut bytes);
    put(out, at, &bytes);
    at + DynamicEntry::SIZE
}

/// Writes the entry of a tag at an offset, if the layout has a value for it, and returns the offset after it.
fn write_tag(layout: &Layout, tag: DynamicTag, out: &mut [u8], at: usize) -> usize
    requires { at + dynamic_entry_size * length (entry_of layout.now tag) ≤ length out.old }
    ensures at { result ≡ at + dynamic_entry_size * length (entry_of layout.now tag) }
    ensures written { take result out.new ≡ take at out.old ++ entries_bytes (entry_of layout.now tag) }
    ensures room { length out.new ≡ length out.old }
{
    match dynamic_entry(layout, tag) {
        Some(value) => write_entry(
            out,
            at,
            DynamicEntry {
                tag: tag.number(),
                value,
            },
        ),
        None => at,
    }
}

/// Writes the entries whose values are not offsets of strings, and returns the offset after them.
#[tactic(auto, using(wild_table_formats::proofs::DynamicLemmas::tag_more, wild_table_formats::proofs::DynamicLemmas::tag_count), unfolding(wild_needs::specs::Dynamic::tag_entries, wild_needs::specs::Dynamic::all_tags))]
fn write_tags(layout: &Layout, out: &mut [u8], at: usize) -> usize
    requires { at + dynamic_entry_size * length (tag_entries layout.now) ≤ length out.old }
    ensures at { result ≡ at + dynamic_entry_size * length (tag_entries layout.now) }
    ensures written { take result out.new ≡ take at out.old ++ entries_bytes (tag_entries layout.now) }
    ensures room { length out.new ≡ length out.old }
{
    let mut at = at;
    if layout.kind.needs_dynamic() {
        for tag in DynamicTag::all() {
            at = write_tag(layout, tag, out, at);
        }
    }
    at
}

/// The offset of the next entry, and the offset of its string in `.dynstr`.
#[derive(Clone, Copy)]
struct Cursor {
    at: usize,
    offset: u64,
}

/// Writes the entry of a string, and returns the offsets of the next ones.
fn write_string(out: &mut [u8], cursor: Cursor, number: u64, text: &[u8]) -> Cursor
    requires { cursor.at + dynamic_entry_size ≤ length out.old }
    ensures at { result.at ≡ cursor.at + dynamic_entry_size }
    ensures offset { result.offset ≡ offset_after_string cursor.offset text.now }
    ensures written { take result.at out.new ≡ take cursor.at out.old ++ entries_bytes (record { tag = number; value = cursor.offset } ∷ []) }
    ensures room { length out.new ≡ length out.old }
{
    let entry = DynamicEntry {
        tag: number,
        value: cursor.offset,
    };
    Cursor {
        at: write_entry(out, cursor.at, entry),
        offset: cursor.offset.saturating_add(text.len() as u64 + 1),
    }
}

/// Writes the entry of a string if there is one.
#[tactic(auto, using(wild_table_formats::proofs::DynamicLemmas::option_none, wild_table_formats::proofs::DynamicLemmas::option_some))]
fn write_option(out: &mut [u8], cursor: Cursor, number: u64, text: &Option<Bytes>) -> Cursor
    requires { cursor.at + dynamic_entry_size * length (named number text.now) ≤ length out.old }
    ensures at { result.at ≡ cursor.at + dynamic_entry_size * length (named number text.now) }
    ensures offset { result.offset ≡ offset_after_strings cursor.offset (named number text.now) }
    ensures written { take result.at out.new ≡ take cursor.at out.old ++ entries_bytes (string_entries cursor.offset (named number text.now)) }
    ensures room { length out.new ≡ length out.old }
{
    match text {
        Some(text) => write_string(out, cursor, number, text.as_slice()),
        None => cursor,
    }
}

/// Writes the `DT_AUXILIARY` entries.
#[tactic(auto, using(wild_table_formats::proofs::DynamicLemmas::string_more, wild_table_formats::proofs::DynamicLemmas::strings_end))]
fn write_auxiliary(out: &mut [u8], cursor: Cursor, texts: &[Bytes]) -> Cursor
    requires { cursor.at + dynamic_entry_size * length texts.now ≤ length out.old }
    ensures at { result.at ≡ cursor.at + dynamic_entry_size * length texts.now }
    ensures offset { result.offset ≡ offset_after_strings cursor.offset (auxiliary_strings texts.now) }
    ensures written { take result.at out.new ≡ take cursor.at out.old ++ entries_bytes (string_entries cursor.offset (auxiliary_strings texts.now)) }
    ensures room { length out.new ≡ length out.old }
{
    let mut cursor = cursor;
    for text in texts {
        cursor = write_string(out, cursor, DT_AUXILIARY, text.as_slice());
    }
    cursor
}

/// Writes the entries that refer to strings, at the start of `out`, and returns the offset after them.
#[tactic(auto, using(wild_table_formats::proofs::DynamicLemmas::option_bytes, wild_table_formats::proofs::DynamicLemmas::option_count, wild_table_formats::proofs::DynamicLemmas::no_strings), unfolding(wild_needs::specs::DynamicStrings::named_strings))]
fn write_strings(layout: &Layout, out: &mut [u8]) -> usize
    requires { dynamic_entry_size * length (named_strings layout.now) ≤ length out.old }
    ensures at { result ≡ dynamic_entry_size * length (named_strings layout.now) }
    ensures written { take result out.new ≡ entries_bytes (string_entries (string_start layout.now) (named_strings layout.now)) }
    ensures room { length out.new ≡ length out.old }
{
    if !layout.kind.needs_dynamic() {
        return 0;
    }
    let options = &layout.options;
    let path = if options.new_dtags {
        DT_RUNPATH
    } else {
        DT_RPATH
    };
    let start = Cursor {
        at: 0,
        offset: string_start(layout),
    };
    let cursor = write_option(out, start, path, &options.rpath);
    let cursor = write_option(out, cursor, DT_SONAME, &options.soname);
    write_auxiliary(out, cursor, options.auxiliary.as_slice()).at
}

/// Writes the entries of the last file, and fills the rest of `out` with zeros.
#[tactic(auto, using(wild_needs::proofs::DynamicLemmas::length_dynamic_entries, wild_table_formats::proofs::DynamicLemmas::whole_entries))]
pub fn write_dynamic(layout: &Layout, out: &mut [u8])
    requires { dynamic_entry_size * dynamic_count layout.now ≤ length out.old }
    ensures { out.new ≡ dynamic_bytes layout.now (length out.old) }
{
    let at = write_strings(layout, out);
    let at = write_tags(layout, out, at);
    write_unused(&mut out[at..]);
}
