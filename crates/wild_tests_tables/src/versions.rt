//! Tables that GNU ld 2.40 wrote (gcc 12.2): `.gnu.version` and `.gnu.version_d` of the library that
//! `gcc -shared -fPIC -nostdlib -O1 -Wl,-soname,liba.so -Wl,--version-script=a.map` made of
//!
//! ```c
//! int first(void) { return 1; }
//! int second(void) { return 2; }
//! ```
//!
//! with the script `V1 { global: first; local: *; }; V2 { global: second; } V1;`, and `.gnu.version_r` of the program that
//! `gcc -O1 -fno-builtin` made with that library, `libm` and `libc` of
//!
//! ```c
//! #include <stdio.h>
//! #include <pthread.h>
//! #include <math.h>
//! extern int first(void), second(void);
//! int main(int argc, char **argv) { printf("%f %d", pow(argc, 2.5), first() + second()); return pthread_create(0, 0, 0, 0); }
//! ```
use crate::layouts::layout_of;
use std::alloc::Global;
use std::test::*;
use wild_plan::{Error, FileRole, Layout};
use wild_versions::{VersionWriter, file_definitions, file_versions};

/// The versions of the null symbol, `V1`, `first`, `second` and `V2`.
const SYMBOLS: &[u8] = &[0x00, 0, 0x02, 0, 0x02, 0, 0x03, 0, 0x03, 0];

/// `liba.so`, `V1` and its child `V2`, whose names are at 0x0e, 0x16 and 0x19.
#[rattlefmt::skip]
const DEFINITIONS: &[u8] = &[
    0x01, 0, 0x01, 0, 0x01, 0, 0x01, 0, 0xef, 0x45, 0xf8, 0x02, 0x14, 0, 0, 0, 0x1c, 0, 0, 0,
    0x0e, 0, 0, 0, 0, 0, 0, 0,
    0x01, 0, 0, 0, 0x02, 0, 0x01, 0, 0x91, 0x05, 0, 0, 0x14, 0, 0, 0, 0x1c, 0, 0, 0,
    0x16, 0, 0, 0, 0, 0, 0, 0,
    0x01, 0, 0, 0, 0x03, 0, 0x02, 0, 0x92, 0x05, 0, 0, 0x14, 0, 0, 0, 0, 0, 0, 0,
    0x19, 0, 0, 0, 0x08, 0, 0, 0,
    0x16, 0, 0, 0, 0, 0, 0, 0,
];

/// `GLIBC_2.29` of `libm.so.6`, `V1` and `V2` of `liba.so`, `GLIBC_2.2.5` and `GLIBC_2.34` of `libc.so.6`.
#[rattlefmt::skip]
const NEEDS: &[u8] = &[
    0x01, 0, 0x01, 0, 0x96, 0, 0, 0, 0x10, 0, 0, 0, 0x20, 0, 0, 0,
    0x89, 0x91, 0x96, 0x06, 0, 0, 0x04, 0, 0xaa, 0, 0, 0, 0, 0, 0, 0,
    0x01, 0, 0x02, 0, 0x8e, 0, 0, 0, 0x10, 0, 0, 0, 0x30, 0, 0, 0,
    0x91, 0x05, 0, 0, 0, 0, 0x06, 0, 0xb5, 0, 0, 0, 0x10, 0, 0, 0,
    0x92, 0x05, 0, 0, 0, 0, 0x03, 0, 0xb8, 0, 0, 0, 0, 0, 0, 0,
    0x01, 0, 0x02, 0, 0xa0, 0, 0, 0, 0x10, 0, 0, 0, 0, 0, 0, 0,
    0x75, 0x1a, 0x69, 0x09, 0, 0, 0x05, 0, 0xbb, 0, 0, 0, 0x10, 0, 0, 0,
    0xb4, 0x91, 0x96, 0x06, 0, 0, 0x02, 0, 0xc7, 0, 0, 0, 0, 0, 0, 0,
];

/// Where the names of the libraries and of these versions are in `.dynstr`.
const NAMES: [(u32, &[u32]); 3] = [
    (0x96, &[0xaa]),
    (0x8e, &[0xb5, 0xb8]),
    (0xa0, &[0xbb, 0xc7]),
];

/// The libraries of the program, in a group with too little room. Then the library, in a group with room for all tables; the strings
/// of its last file begin at 0x0e.
const PLAN: &str =
    r#"{"kind":"shared","options":{"soname":"6c6962612e736f","versions":true},"parts":[{"role":"gnu_version"},{"role":"gnu_version_d"},{"role":"gnu_version_r"}],"symbols":[{},{"version":2},{"version":2},{"version":3},{"version":3}],"groups":[{"files":[{"role":"dynamic","lib_name":"6c69626d2e736f2e36","verneed":{"versions":[{"name":"474c4942435f322e3239","index":4}]}},{"role":"dynamic","lib_name":"6c6962612e736f","verneed":{"versions":[{"name":"5631","index":6},{"name":"5632","index":3}]}},{"role":"dynamic","lib_name":"6c6962632e736f2e36","verneed":{"last":true,"versions":[{"name":"474c4942435f322e322e35","index":5},{"name":"474c4942435f322e3334","index":2}]}}],"part_sizes":[8,91,31]},{"files":[{"role":"prelude"},{"role":"epilogue"}],"part_sizes":[10,92,128],"dynstr_start":13}],"verdefs":[{"name":"62617365"},{"name":"5631"},{"name":"5632","parent":1}]}"#;

/// The three tables.
type Tables = [&'static [u8]; 3];

/// A group, whether symbols are put as those of a library or by the number of their version, whether all tables have room, and the
/// tables. What does not fit is refused, and leaves each table as it was.
const ROWS: &[(usize, bool, bool, Tables)] = &[
    (1, false, true, [SYMBOLS, DEFINITIONS, NEEDS]),
    (1, true, true, [SYMBOLS, DEFINITIONS, NEEDS]),
    (
        0,
        false,
        false,
        [&[0, 0, 2, 0, 2, 0, 3, 0], &[0; 91], &[0; 31]],
    ),
];

/// Puts the versions of the symbols.
fn put_symbols(writer: &mut VersionWriter, layout: &Layout, copied: bool) -> Result<(), Error> {
    for symbol in layout.symbols.as_slice() {
        if copied {
            writer.copy_symbol_version(FileRole::Dynamic, symbol)?;
        } else {
            writer.set_next_symbol_version(symbol.version)?;
        }
    }
    Ok(())
}

/// Whether the versions that the library defines have room.
fn put_definitions(writer: &mut VersionWriter, layout: &Layout) -> Result<bool, Fail> {
    if layout.verdefs.len() > 100 {
        return Err("many versions".into());
    }
    Ok(writer.write_verdef(layout, &[0x0e, 0x16, 0x19]).is_ok())
}

/// Whether the versions that are needed of each library of the first group have room.
fn put_needs(writer: &mut VersionWriter, layout: &Layout) -> Result<bool, Fail> {
    let libraries = layout.groups.as_slice().get(0).ok_or("no group")?;
    for (file, (library, names)) in libraries.files.as_slice().iter().zip(&NAMES) {
        let needs = file.verneed.as_ref().ok_or("no versions")?;
        if needs.versions.len() > 100 {
            return Err("many versions".into());
        }
        if writer.write_verneed(*library, *names, needs).is_err() {
            return Ok(false);
        }
    }
    Ok(true)
}

/// Whether all tables of a group have room for what is put into them, none has, or some of them.
fn are_put(
    writer: &mut VersionWriter,
    layout: &Layout,
    copied: bool,
) -> Result<Option<bool>, Fail> {
    let symbols = put_symbols(writer, layout, copied).is_ok();
    let definitions = put_definitions(writer, layout)?;
    let is_full_early = writer.check_exhausted().is_ok();
    let needs = put_needs(writer, layout)?;
    let is_full = writer.check_exhausted().is_ok();
    if symbols && definitions && needs {
        return Ok(Some(is_full && !is_full_early));
    }
    if symbols || definitions || needs || is_full {
        return Ok(None);
    }
    Ok(Some(false))
}

/// The definitions of the library are those of its last file, and the version of the null symbol is that of its first file.
fn are_of_files(alloc: Global, layout: &Layout) -> Result<bool, Fail> {
    let library = layout.groups.as_slice().get(1).ok_or("no group")?;
    let [first, last] = library.files.as_slice() else {
        return Err("other files".into());
    };
    if layout.verdefs.len() > 100 {
        return Err("many versions".into());
    }
    let definitions = file_definitions(alloc, layout, last)?;
    let versions = file_versions(alloc, layout, first)?;
    Ok(definitions.as_slice() == DEFINITIONS && versions.as_slice() == &SYMBOLS[..2])
}

#[test]
fn tables_of_versions(rt: HostRuntime) -> Result<(), Fail> {
    let layout = layout_of(rt.alloc(), PLAN)?;
    for (group, copied, has_room, tables) in ROWS {
        let mut writer = VersionWriter::new(rt.alloc(), &layout, *group)?;
        assert!(rt;
            are_put(&mut writer, &layout, *copied)? == Some(*has_room),
            "{group} {copied}"
        );
        let found = [
            writer.symbols.bytes(),
            writer.definitions.bytes(),
            writer.needs.bytes(),
        ];
        assert!(rt; found == *tables, "{group} {copied}");
    }
    assert!(rt; are_of_files(rt.alloc(), &layout)?);
    Ok(())
}
