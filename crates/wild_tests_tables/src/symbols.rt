//! Symbols and strings by calls of their writer. The dynamic ones are those that `gcc -shared -fPIC -nostdlib -O1
//! -Wl,--hash-style=sysv` (12.2) made with GNU ld 2.40 of
//!
//! ```c
//! extern void exit(int) __attribute__((weak));
//! void finish(void) { exit(0); }
//! ```
ghost use Rattle.std.specs.Prelude.{◌≡◌, Option, IfOk};
ghost use Rattle.wild_types.specs.declared.file.File.{File};
ghost use Rattle.wild_types.specs.declared.layout.Layout.{Layout};
ghost use Rattle.wild_needs.specs.DynamicSymbols.{output_section};

use crate::layouts::{layout_of, symbol_of};
use std::alloc::{AllocError, Global};
use std::test::*;
use wild_plan::{
    Error, File, FileRole, Layout, Place, Role, SectionIndex, Symbol, SymbolIndex, SymtabName,
    is_local, share_of,
};
use wild_records::SymbolSection;
use wild_symbols::{
    SymbolAttributes, SymbolTableWriter, dynstr_start, entry_at, exported_symbol_fields,
    named_sections, null_table_fields, strtab_start, table_fields,
};

/// A call of the writer.
enum Call {
    /// Puts a symbol that is not defined: whether it is local, its name, and its `st_info`.
    Undefined(bool, &'static [u8], u8),
    /// Puts `finish`, a function of 14 bytes in section 7.
    Finish,
    /// Puts the null symbol and `finish` through a prefix of 8 bytes of strings, which they fill.
    Prefix,
    /// Takes a prefix of one symbol.
    OneMore,
    /// Puts the null symbol of `.symtab`.
    Null,
    /// Puts the entry of a symbol of the first file, with the fields that the layout gives it.
    Entry(usize),
    /// Puts a symbol by its name, in a section with a value.
    Copy(usize, &'static [u8], usize, u64),
    CopyAbsolute(usize, &'static [u8]),
    CopyShndx(usize, &'static [u8], u16, u64),
    /// Puts a name alone, at this offset.
    Name(&'static [u8], u32),
    /// Puts a local symbol `x` in section 65,280.
    Far,
    /// Puts the symbols of the slot and of the stub of the first symbol.
    Slots,
    /// Checks the entry of a library's symbol in `.dynsym`, whose name is at an offset.
    Listed(usize, u64, &'static [u8]),
    /// Checks that the strings are full.
    FullStrings,
    /// Checks that all tables are full.
    Full,
}

/// Local symbols, global ones, strings, and section indexes of local symbols.
type Bytes = [&'static [u8]; 4];

/// A plan, a group, whether the writer is that of its dynamic symbols, calls with whether they succeed, and the tables.
type Row = (&'static str, usize, bool, &'static [(Call, bool)], Bytes);

/// The null symbol and `finish`.
#[rattlefmt::skip]
const FINISH: &[u8] = &[
    0, 0, 0, 0, 0, 0, 0, 0, 0, 0, 0, 0, 0, 0, 0, 0, 0, 0, 0, 0, 0, 0, 0, 0,
    0x01, 0, 0, 0, 0x12, 0, 0x07, 0, 0x20, 0x10, 0, 0, 0, 0, 0, 0, 0x0e, 0, 0, 0, 0, 0, 0, 0,
];

/// `exit`, which is in the next group or in the same.
#[rattlefmt::skip]
const EXIT: &[u8] = &[
    0x08, 0, 0, 0, 0x20, 0, 0, 0, 0, 0, 0, 0, 0, 0, 0, 0, 0, 0, 0, 0, 0, 0, 0, 0,
];

#[rattlefmt::skip]
const FINISH_AND_EXIT: &[u8] = &[
    0, 0, 0, 0, 0, 0, 0, 0, 0, 0, 0, 0, 0, 0, 0, 0, 0, 0, 0, 0, 0, 0, 0, 0,
    0x01, 0, 0, 0, 0x12, 0, 0x07, 0, 0x20, 0x10, 0, 0, 0, 0, 0, 0, 0x0e, 0, 0, 0, 0, 0, 0, 0,
    0x08, 0, 0, 0, 0x20, 0, 0, 0, 0, 0, 0, 0, 0, 0, 0, 0, 0, 0, 0, 0, 0, 0, 0, 0,
];

/// A group for the first two, one for the third, and one for all.
const DYNAMIC: &str =
    r#"{"kind":"shared","parts":[{"role":"dynsym"},{"role":"dynstr"}],"groups":[{"part_sizes":[48,8]},{"part_sizes":[24,5],"dynstr_start":8},{"part_sizes":[72,13]}]}"#;

/// What GNU ld 2.40 wrote of the null symbol and `counter`, and of `limit`, `shared` and `slot`, of a program that gcc 12.2 made by
/// `-fcommon -fno-pic -no-pie -static -O1 -nostdlib -Wl,--defsym=limit=0x1234` of
///
/// ```c
/// static volatile int counter = 3;
/// __thread int slot = 5;
/// int shared[2];
/// extern char limit[];
/// void _start(void) { counter++; slot = shared[1] + (long)limit; for (;;) {} }
/// ```
///
/// but for the offsets of the names, since it has more of them.
#[rattlefmt::skip]
const LOCALS_OF_PROGRAM: &[u8] = &[
    0, 0, 0, 0, 0, 0, 0, 0, 0, 0, 0, 0, 0, 0, 0, 0, 0, 0, 0, 0, 0, 0, 0, 0,
    0x01, 0, 0, 0, 0x01, 0, 0x03, 0, 0, 0x30, 0x40, 0, 0, 0, 0, 0, 0x04, 0, 0, 0, 0, 0, 0, 0,
];

#[rattlefmt::skip]
const GLOBALS_OF_PROGRAM: &[u8] = &[
    0x09, 0, 0, 0, 0x10, 0, 0xf1, 0xff, 0x34, 0x12, 0, 0, 0, 0, 0, 0, 0, 0, 0, 0, 0, 0, 0, 0,
    0x0f, 0, 0, 0, 0x11, 0, 0x04, 0, 0x08, 0x30, 0x40, 0, 0, 0, 0, 0, 0x08, 0, 0, 0, 0, 0, 0, 0,
    0x16, 0, 0, 0, 0x16, 0, 0x02, 0, 0, 0, 0, 0, 0, 0, 0, 0, 0x04, 0, 0, 0, 0, 0, 0, 0,
];

/// The program, in which `.bss` is section 4. Its first group has room for all of them, the second for one.
const PROGRAM: &str =
    r#"{"parts":[{"role":"symtab_local"},{"role":"symtab_global"},{"role":"symtab_shndx_local"},{"role":"strtab"}],"sections":[{},{},{},{},{"name":"2e627373"}],"tls":{"start":4206588,"end":4206592,"align":4},"symbols":[{"name":"636f756e746572","info":1,"size":4,"place":{"output":3},"value":4206592,"resolution":{"raw_value":4206592}},{"name":"6c696d6974","info":16,"place":"absolute","value":4660,"resolution":{"raw_value":4660}},{"name":"736861726564","info":17,"size":8,"place":"common","value":4206600,"resolution":{"raw_value":4206600}},{"name":"736c6f74","info":22,"size":4,"place":{"output":2},"value":4206588,"resolution":{"raw_value":4206588}}],"groups":[{"files":[{"symbol_count":4}],"part_sizes":[48,72,8,27]},{"part_sizes":[24,0,4,2]}]}"#;

/// A symbol without a value whose section has no room in `st_shndx` (gABI, "Symbol Table", SHN_XINDEX).
#[rattlefmt::skip]
const FAR: &[u8] = &[
    0, 0, 0, 0, 0, 0, 0xff, 0xff, 0, 0, 0, 0, 0, 0, 0, 0, 0, 0, 0, 0, 0, 0, 0, 0,
];

/// A symbol with a slot in section 1 and a stub in section 2.
const NAMED: &str =
    r#"{"options":{"got_plt_syms":true},"parts":[{"role":"symtab_local"},{"role":"strtab"},{"role":"got","section":1},{"role":"plt_got","section":2}],"sections":[{},{},{}],"symbols":[{"name":"66","flags":["GOT","PLT"],"resolution":{"got":8192,"plt":4096}}],"groups":[{"part_sizes":[48,12,8,16]}]}"#;

/// Local symbols without a type at the slot and at the stub.
#[rattlefmt::skip]
const OF_SLOTS: &[u8] = &[
    0, 0, 0, 0, 0, 0, 0x01, 0, 0, 0x20, 0, 0, 0, 0, 0, 0, 0, 0, 0, 0, 0, 0, 0, 0,
    0x06, 0, 0, 0, 0, 0, 0x02, 0, 0, 0x10, 0, 0, 0, 0, 0, 0, 0, 0, 0, 0, 0, 0, 0, 0,
];

/// What GNU ld 2.40 wrote of `value`, which is copied, and of `call`, whose stub is its address in each module, of a program
/// that gcc 12.2 made by `-fno-pic -no-pie -O1 -nostdlib` of
///
/// ```c
/// extern int value;
/// extern void call(void);
/// void _start(void) { void (*volatile here)(void) = call; here(); value++; for (;;) {} }
/// ```
///
/// and a library that defines both; but for the header index of `.bss`, which is 14 there.
#[rattlefmt::skip]
const VALUE: &[u8] = &[
    0x01, 0, 0, 0, 0x11, 0, 0x01, 0, 0x08, 0x40, 0x40, 0, 0, 0, 0, 0, 0x04, 0, 0, 0, 0, 0, 0, 0,
];

#[rattlefmt::skip]
const CALL: &[u8] = &[
    0x07, 0, 0, 0, 0x12, 0, 0, 0, 0x10, 0x10, 0x40, 0, 0, 0, 0, 0, 0, 0, 0, 0, 0, 0, 0, 0,
];

/// The two, in an output whose section 1 is `.bss`.
const LIBRARY: &str =
    r#"{"sections":[{},{"name":"2e627373"}],"symbols":[{"info":17,"size":4,"place":"absolute","version":1,"flags":["COPY_RELOCATION"],"resolution":{"raw_value":4210696}},{"info":18,"size":1,"place":"absolute","version":1,"flags":["CANONICAL_PLT"],"resolution":{"plt":4198416}}]}"#;

#[rattlefmt::skip]
const ROWS: &[Row] = &[
    (DYNAMIC, 0, true, &[(Call::Undefined(false, b"", 0), true), (Call::Finish, true), (Call::Full, true)],
        [&[], FINISH, b"\0finish\0", &[]]),
    // A longer name has no room.
    (DYNAMIC, 1, true, &[(Call::Undefined(false, b"exits", 0x20), false), (Call::Undefined(false, b"exit", 0x20), true), (Call::Full, true)],
        [&[], EXIT, b"exit\0", &[]]),
    // `exit` comes after a prefix.
    (DYNAMIC, 2, true, &[(Call::Prefix, true), (Call::Undefined(false, b"exit", 0x20), true), (Call::Full, true), (Call::OneMore, false)],
        [&[], FINISH_AND_EXIT, b"\0finish\0exit\0", &[]]),
    // The program's symbols, with the fields that the layout gives them.
    (PROGRAM, 0, false, &[
        (Call::Null, true), (Call::Entry(0), true), (Call::Entry(1), true), (Call::Entry(2), true), (Call::Entry(3), true),
        (Call::Full, true),
    ], [LOCALS_OF_PROGRAM, GLOBALS_OF_PROGRAM, b"\0counter\0limit\0shared\0slot\0", &[0; 8]]),
    // The same, with sections and values that the caller gives.
    (PROGRAM, 0, false, &[
        (Call::Undefined(true, b"", 0), true), (Call::Copy(0, b"counter", 3, 0x40_3000), true),
        (Call::CopyAbsolute(1, b"limit"), true), (Call::CopyShndx(2, b"shared", 4, 0x40_3008), true),
        (Call::Copy(3, b"slot", 2, 0), true), (Call::Full, true),
    ], [LOCALS_OF_PROGRAM, GLOBALS_OF_PROGRAM, b"\0counter\0limit\0shared\0slot\0", &[0; 8]]),
    // Names at ld's offsets; then there is no room for more.
    (PROGRAM, 0, false, &[
        (Call::FullStrings, false), (Call::Name(b"", 0), true), (Call::FullStrings, false), (Call::Name(b"counter", 0x01), true),
        (Call::FullStrings, false), (Call::Name(b"limit", 0x09), true), (Call::FullStrings, false), (Call::Name(b"shared", 0x0f), true),
        (Call::FullStrings, false), (Call::Name(b"slot", 0x16), true), (Call::Name(b"", 0), false), (Call::FullStrings, true),
    ], [&[0; 48], &[0; 72], b"\0counter\0limit\0shared\0slot\0", &[0; 8]]),
    // The index of a section that is too high for the symbol is in the table of indexes.
    (PROGRAM, 1, false, &[(Call::Far, true), (Call::Full, true)], [FAR, &[], b"x\0", &[0, 0xff, 0, 0]]),
    (NAMED, 0, false, &[(Call::Slots, true), (Call::Full, true)], [OF_SLOTS, &[], b"f$got\0f$plt\0", &[]]),
    (LIBRARY, 0, false, &[(Call::Listed(0, 1, VALUE), true), (Call::Listed(1, 7, CALL), true)], [&[], &[], &[], &[]]),
];

/// The writer of a group's symbols, whose strings end below 200; out of memory if they do not.
fn writer(
    alloc: Global,
    layout: &Layout,
    group: usize,
    dynamic: bool,
) -> Result<SymbolTableWriter, AllocError> {
    if dynamic {
        let start = dynstr_start(layout, group);
        let room = share_of(layout, group, Role::Dynstr);
        if start > 100 {
            return Err(AllocError);
        }
        if room > 100 {
            return Err(AllocError);
        }
        return SymbolTableWriter::new_dynamic(alloc, layout, group);
    }
    let start = strtab_start(layout, group);
    let room = share_of(layout, group, Role::Strtab);
    if start > 100 {
        return Err(AllocError);
    }
    if room > 100 {
        return Err(AllocError);
    }
    SymbolTableWriter::new(alloc, layout, group)
}

/// Puts `finish`.
fn put_finish(writer: &mut SymbolTableWriter) -> Result<(), Error> {
    let attributes = SymbolAttributes {
        info: 0x12,
        other: 0,
        size: 14,
    };
    writer.define_symbol(
        false,
        b"finish",
        SymbolSection::Index(7),
        0x1020,
        attributes,
    )
}

/// Puts a symbol that is not defined.
fn put_undefined(
    writer: &mut SymbolTableWriter,
    is_local: bool,
    name: &[u8],
    info: u8,
) -> Result<(), Error> {
    let attributes = SymbolAttributes {
        info,
        other: 0,
        size: 0,
    };
    writer.undefined_symbol(is_local, name, attributes)
}

/// Puts the null symbol and `finish` through a prefix, which they fill.
fn put_prefix(writer: &mut SymbolTableWriter) -> Result<(), Error> {
    let prefix = writer.take_prefix_global(2, 8)?;
    put_undefined(prefix.writer, false, b"", 0)?;
    put_finish(prefix.writer)?;
    prefix.writer.check_exhausted()
}

/// The header index of the symbol's section; an error if it is in an input section.
fn section_of(symbol: &Symbol) -> Result<usize, Fail>
    ensures { IfOk result (λ s. (l : Layout) (f : Option File) → s ≡ output_section l f symbol.now.place) }
{
    match symbol.place {
        Place::Output(section) => Ok(section.0),
        Place::Undefined => Ok(0),
        Place::Absolute => Ok(0),
        Place::Common => Ok(0),
        Place::Section(_) => Err("an input section".into()),
    }
}

/// Puts the symbol of the first file with that index, with the fields that the layout gives it.
fn put_entry(writer: &mut SymbolTableWriter, layout: &Layout, index: usize) -> Result<bool, Fail> {
    if layout.kind.is_partial_link() {
        return Err("a relocatable object".into());
    }
    let group = layout.groups.as_slice().get(0).ok_or("no group")?;
    let file = group.files.as_slice().get(0).ok_or("no file")?;
    let sections = named_sections(layout);
    let symbol = symbol_of(layout, index)?;
    let section = section_of(symbol)?;
    let raw = layout.raw_value(SymbolIndex(index));
    let fields = table_fields(
        layout,
        file,
        SymtabName::Itself,
        index,
        symbol,
        section,
        raw,
        None,
        &sections,
    )
    .ok()
    .ok_or("no fields")?;
    let is_local = is_local(SymtabName::Itself, symbol);
    Ok(
        writer
            .write_entry(is_local, symbol.name.as_slice(), fields)
            .is_ok(),
    )
}

/// Puts a symbol in a section with a value.
fn put_copy(
    writer: &mut SymbolTableWriter,
    symbol: &Symbol,
    name: &[u8],
    section: usize,
    value: u64,
) -> Result<bool, Fail> {
    if section > 100 {
        return Err("many sections".into());
    }
    Ok(
        writer
            .copy_symbol(symbol, name, SectionIndex(section), value)
            .is_ok(),
    )
}

/// The bytes of the entry of a library's symbol whose name is at an offset.
fn entry_of(layout: &Layout, index: usize, name: u64) -> Result<[u8; 24], Fail> {
    let symbol = symbol_of(layout, index)?;
    let sections = named_sections(layout);
    let fields = exported_symbol_fields(layout, sections, 0, FileRole::Dynamic, 0, symbol)?;
    let mut bytes = [0; 24];
    entry_at(name, fields).put(&mut bytes);
    Ok(bytes)
}

/// Whether a call succeeds.
fn succeeds(writer: &mut SymbolTableWriter, layout: &Layout, call: &Call) -> Result<bool, Fail> {
    match call {
        Call::Undefined(is_local, name, info) => {
            Ok(put_undefined(writer, *is_local, *name, *info).is_ok())
        }
        Call::Finish => Ok(put_finish(writer).is_ok()),
        Call::Prefix => Ok(put_prefix(writer).is_ok()),
        Call::OneMore => Ok(writer.take_prefix_global(1, 0).is_ok()),
        Call::Null => Ok(writer.write_entry(true, b"", null_table_fields()).is_ok()),
        Call::Entry(index) => put_entry(writer, layout, *index),
        Call::Copy(index, name, section, value) => {
            put_copy(writer, symbol_of(layout, *index)?, *name, *section, *value)
        }
        Call::CopyAbsolute(index, name) => {
            Ok(
                writer
                    .copy_absolute_symbol(symbol_of(layout, *index)?, *name)
                    .is_ok(),
            )
        }
        Call::CopyShndx(index, name, section, value) => {
            let symbol = symbol_of(layout, *index)?;
            Ok(
                writer
                    .copy_symbol_shndx(symbol, *name, *section, *value)
                    .is_ok(),
            )
        }
        Call::Name(name, offset) => Ok(writer.strtab.write_str(*name).ok() == Some(*offset)),
        Call::Far => {
            let section = SymbolSection::Index(0xff00);
            let attributes = SymbolAttributes {
                info: 0,
                other: 0,
                size: 0,
            };
            Ok(
                writer
                    .define_symbol(true, b"x", section, 0, attributes)
                    .is_ok(),
            )
        }
        Call::Slots => {
            let sections = named_sections(layout);
            let symbol = symbol_of(layout, 0)?;
            Ok(
                writer
                    .write_got_plt_syms(layout, &sections, 0, symbol)
                    .is_ok(),
            )
        }
        Call::Listed(index, name, wanted) => {
            Ok(entry_of(layout, *index, *name)?.as_slice() == *wanted)
        }
        Call::FullStrings => Ok(writer.strtab.check_exhausted().is_ok()),
        Call::Full => Ok(writer.check_exhausted().is_ok()),
    }
}

/// Whether the calls end as a row says, and leave the tables as it says.
fn are_filled(alloc: Global, layout: &Layout, row: &Row) -> Result<bool, Fail> {
    let (_, group, dynamic, calls, tables) = row;
    let mut writer = writer(alloc, layout, *group, *dynamic)?;
    for (call, wanted) in *calls {
        if succeeds(&mut writer, layout, call)? != *wanted {
            return Ok(false);
        }
    }
    let [locals, globals, strings, indexes] = tables;
    Ok(
        writer.local_symbols() == *locals
            && writer.symbols() == *globals
            && writer.strings() == *strings
            && writer.local_indexes.bytes() == *indexes,
    )
}

#[test]
fn symbols_by_calls_of_their_writer(rt: HostRuntime) -> Result<(), Fail> {
    for (number, row) in ROWS.iter().enumerate() {
        let layout = layout_of(rt.alloc(), row.0)?;
        assert!(rt; are_filled(rt.alloc(), &layout, row)?, "row {number}");
    }
    Ok(())
}
