//! The sizes and offsets of strings in the dynamic string table (gABI, "String Table", "Symbol Table", "Dynamic Section").
ghost use Rattle.std.specs.Prelude.{◌≡◌, ◌+◌, ◌-◌, ◌^◌, ◌<◌, ◌≤◌, length, min};
ghost use Rattle.std.specs.List.{filter};
ghost use Rattle.wild_types.specs.declared.layout.Layout.{Layout};
ghost use Rattle.wild_needs.specs.DynamicSymbols.{is_undefined_entry};
ghost use Rattle.wild_needs.specs.DynamicStrings.{named_strings, text_room, room_of, epilogue_strings, epilogue_string_bytes, dynstr_prefix_strings, listed_names, symbol_names, entry_names, strings_room, next_dynstr, needed_count, start_among, string_start};
ghost use Rattle.wild_types.specs.Lists.{total};

use crate::dynsyms::{count_in as count_undefined, is_undefined_entry};
use crate::versions::version_room;
use wild_types::{DynamicSymbol, File, FileRole, Layout, Symbol};
use wild_words::Bytes;

/// The number of entries of the dynamic section that refer to strings.
#[tactic(auto, unfolding(crate::specs::DynamicStrings::named_strings))]
pub(crate) fn string_count(layout: &Layout) -> usize
    ensures count { result ≡ length (named_strings layout.now) }
    ensures few { result < 2 ^ 63 + 2 }
{
    let options = &layout.options;
    if !layout.kind.needs_dynamic() {
        return 0;
    }
    usize::from(options.rpath.is_some())
        + usize::from(options.soname.is_some())
        + options.auxiliary.as_slice().len()
}

/// The size of a string with its terminating zero, in bytes; 0 without a string.
fn room_of(text: &Option<Bytes>) -> u128
    ensures value { result ≡ room_of text.now }
    ensures small { result ≤ 2 ^ 64 }
{
    match text {
        Some(text) => text.len() as u128 + 1,
        None => 0,
    }
}

/// The size of strings in bytes, each with its terminating zero.
fn rooms_of(texts: &[Bytes]) -> u128
    ensures value { result ≡ total text_room texts.now }
    ensures small { result ≤ 2 ^ 127 }
{
    let mut sum: u128 = 0;
    for text in texts {
        sum += text.len() as u128 + 1;
    }
    sum
}

/// The size of the strings to which entries of the dynamic section refer, in bytes, each with its terminating zero.
#[tactic(auto, unfolding(crate::specs::DynamicStrings::named_strings), using(crate::proofs::StringLemmas::rooms))]
pub fn epilogue_string_bytes(layout: &Layout) -> u128
    ensures { result ≡ epilogue_string_bytes layout.now }
{
    let options = &layout.options;
    if !layout.kind.needs_dynamic() {
        return 0;
    }
    room_of(&options.rpath) + room_of(&options.soname) + rooms_of(options.auxiliary.as_slice())
}

/// That size is the length of the bytes that are written for these strings.
#[tactic(auto, using(crate::proofs::StringLemmas::length_strings))]
pub fn strings_have_their_room()
    ensures { (l : Layout) → length (epilogue_strings l) ≡ epilogue_string_bytes l }
{}

/// The size of a string with its terminating zero, in bytes, at most 2^64 - 1.
pub fn text_room(text: &Bytes) -> u64
    ensures { result ≡ min (2 ^ 64 - 1) (text_room text.now) }
{
    (text.len() as u64).saturating_add(1)
}

/// The size of the names of the symbols that have an undefined entry, among symbols of a file of that role, at most 2^64 - 1.
fn undefined_room(role: FileRole, symbols: &[Symbol]) -> u64
    ensures { result ≡ min (2 ^ 64 - 1) (total text_room (symbol_names (filter (is_undefined_entry role) symbols.now))) }
{
    let mut sum: u64 = 0;
    for symbol in symbols {
        if is_undefined_entry(role, symbol) {
            sum = sum.saturating_add(text_room(&symbol.name));
        }
    }
    sum
}

/// The size of the names of the layout's dynamic symbols (`dynsyms`), at most 2^64 - 1.
fn listed_room(listed: &[DynamicSymbol]) -> u64
    ensures { result ≡ min (2 ^ 64 - 1) (total text_room (listed_names listed.now)) }
{
    let mut sum: u64 = 0;
    for symbol in listed {
        sum = sum.saturating_add(text_room(&symbol.name));
    }
    sum
}

/// The size of a file's strings that are not the name of a symbol or version, at most 2^64 - 1.
pub fn dynstr_prefix(layout: &Layout, file: &File) -> u64
    ensures { result ≡ min (2 ^ 64 - 1) (total text_room (dynstr_prefix_strings layout.now file.now)) }
{
    match file.role {
        FileRole::Prelude => 1,
        FileRole::Dynamic => text_room(&file.lib_name),
        FileRole::Epilogue => u128::from(u64::MAX).min(epilogue_string_bytes(layout)) as u64,
        _ => 0,
    }
}

/// The size of the names of a file's entries in the dynamic symbol table, at most 2^64 - 1.
pub fn entry_room(layout: &Layout, file: &File) -> u64
    ensures { result ≡ min (2 ^ 64 - 1) (total text_room (entry_names layout.now file.now)) }
{
    if file.role.is_epilogue() {
        listed_room(layout.dynsyms.as_slice())
    } else {
        undefined_room(file.role, layout.symbols_of(file))
    }
}

/// The size of a file's strings, at most 2^64 - 1.
#[tactic(auto, unfolding(crate::specs::DynamicStrings::file_strings), using(crate::proofs::StringLemmas::total_joined))]
pub fn strings_room(layout: &Layout, file: &File) -> u64
    ensures { result ≡ min (2 ^ 64 - 1) (strings_room layout.now file.now) }
{
    if layout.kind.needs_dynsym() {
        dynstr_prefix(layout, file)
            .saturating_add(entry_room(layout, file))
            .saturating_add(version_room(layout, file))
    } else {
        0
    }
}

/// The number of a file's entries in the dynamic symbol table, without the null symbol.
#[tactic(auto, using(crate::proofs::StringLemmas::length_undefined, crate::proofs::StringLemmas::length_listed))]
pub fn entry_name_count(layout: &Layout, file: &File) -> usize
    ensures { result ≡ length (entry_names layout.now file.now) }
{
    if file.role.is_epilogue() {
        layout.dynsyms.len()
    } else {
        count_undefined(file.role, layout.symbols_of(file))
    }
}

/// The offset after the strings of a file that begin at `start`, at most 2^64 - 1.
pub fn next_dynstr(layout: &Layout, start: u64, file: &File) -> u64
    ensures { result ≡ next_dynstr layout.now start file.now }
{
    start.saturating_add(strings_room(layout, file))
}

/// The number of `DT_NEEDED` entries of a file: 1 for a library.
pub fn needed_count(layout: &Layout, file: &File) -> usize
    ensures is { result ≡ needed_count layout.now file.now }
    ensures few { result ≤ 1 }
{
    usize::from(layout.kind.needs_dynamic() && file.role.is_library())
}

/// The offset of the strings of the first epilogue file, if the strings of the files begin at `start`.
fn start_among(layout: &Layout, start: u64, files: &[File]) -> u64
    ensures { result ≡ start_among layout.now start files.now }
{
    let mut start = start;
    for file in files {
        if file.role.is_epilogue() {
            return start;
        }
        start = next_dynstr(layout, start, file);
    }
    start
}

/// The offset of the last file's strings in the table.
#[tactic(auto, unfolding(crate::specs::DynamicStrings::string_start))]
pub fn string_start(layout: &Layout) -> u64
    ensures { result ≡ string_start layout.now }
{
    let groups = layout.groups.as_slice();
    match groups.get(groups.len().saturating_sub(1)) {
        Some(last) => start_among(layout, last.dynstr_start, last.files.as_slice()),
        None => 0,
    }
}
