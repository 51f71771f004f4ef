//! Hash tables and look-ups: the tables of "", "exit", "exit" from symbol 1 on, and those of the shared object that
//! `gcc -shared -fPIC -nostdlib -O1 -Wl,--hash-style=both` (12.2) made with GNU ld 2.40 of
//!
//! ```c
//! extern void exit(int) __attribute__((weak));
//! int alpha = 1;
//! int beta(void) { return 2; }
//! void gamma_(void) { exit(0); }
//! int delta(void) { return 4; }
//! int printf_(void) { return 5; }
//! ```
//!
//! `readelf --dyn-syms` numbers its symbols: 1 exit, 2 delta, 3 beta, 4 printf_, 5 alpha, 6 gamma_.

use std::alloc::{AllocError, Global};
use wild_hashes::{
    LookupFault, LookupTables, find_gnu_symbol, find_sysv_symbol, write_gnu_hash_tables,
    write_sysv_hash_table,
};
use wild_types::{DynamicSymbol, GnuHash, SymbolIndex};
use wild_words::Bytes;

/// The GNU table of "", "exit", "exit".
#[rattlefmt::skip]
const GNU: [u8; 40] = [
    0x01, 0x00, 0x00, 0x00, 0x01, 0x00, 0x00, 0x00, 0x01, 0x00, 0x00, 0x00, 0x06, 0x00, 0x00, 0x00,
    0x20, 0x00, 0x10, 0x00, 0x00, 0x00, 0x00, 0x81, 0x01, 0x00, 0x00, 0x00, 0x04, 0x15, 0x00, 0x00,
    0x3e, 0x7e, 0x96, 0x7c, 0x3f, 0x7e, 0x96, 0x7c,
];

/// Their System V table.
#[rattlefmt::skip]
const SYSV: [u8; 28] = [
    0x01, 0x00, 0x00, 0x00, 0x04, 0x00, 0x00, 0x00, 0x01, 0x00, 0x00, 0x00, 0x00, 0x00, 0x00, 0x00,
    0x02, 0x00, 0x00, 0x00, 0x03, 0x00, 0x00, 0x00, 0x00, 0x00, 0x00, 0x00,
];

/// Their symbols, whose strings are "\0exit\0".
#[rattlefmt::skip]
const SYMBOLS: [u8; 96] = [
    0x00, 0x00, 0x00, 0x00, 0, 0, 0, 0, 0, 0, 0, 0, 0, 0, 0, 0, 0, 0, 0, 0, 0, 0, 0, 0,
    0x00, 0x00, 0x00, 0x00, 0, 0, 0, 0, 0, 0, 0, 0, 0, 0, 0, 0, 0, 0, 0, 0, 0, 0, 0, 0,
    0x01, 0x00, 0x00, 0x00, 0, 0, 0, 0, 0, 0, 0, 0, 0, 0, 0, 0, 0, 0, 0, 0, 0, 0, 0, 0,
    0x01, 0x00, 0x00, 0x00, 0, 0, 0, 0, 0, 0, 0, 0, 0, 0, 0, 0, 0, 0, 0, 0, 0, 0, 0, 0,
];

/// `.gnu.hash` that ld made.
#[rattlefmt::skip]
const LD_GNU: [u8; 56] = [
    0x03, 0x00, 0x00, 0x00, 0x02, 0x00, 0x00, 0x00, 0x01, 0x00, 0x00, 0x00, 0x06, 0x00, 0x00, 0x00,
    0x80, 0x90, 0x80, 0x00, 0x42, 0x08, 0x01, 0x40, 0x02, 0x00, 0x00, 0x00, 0x06, 0x00, 0x00, 0x00,
    0x00, 0x00, 0x00, 0x00, 0x8e, 0xcf, 0x49, 0x0f, 0xa0, 0x89, 0x94, 0x7c, 0x16, 0xa3, 0xd0, 0xc2,
    0x2b, 0x6c, 0x17, 0x0f, 0x47, 0x48, 0x3b, 0xff,
];

/// Its `.hash`, which has the symbol that is not defined too.
#[rattlefmt::skip]
const LD_SYSV: [u8; 48] = [
    0x03, 0x00, 0x00, 0x00, 0x07, 0x00, 0x00, 0x00, 0x02, 0x00, 0x00, 0x00, 0x06, 0x00, 0x00, 0x00,
    0x05, 0x00, 0x00, 0x00, 0x00, 0x00, 0x00, 0x00, 0x04, 0x00, 0x00, 0x00, 0x00, 0x00, 0x00, 0x00,
    0x00, 0x00, 0x00, 0x00, 0x03, 0x00, 0x00, 0x00, 0x00, 0x00, 0x00, 0x00, 0x01, 0x00, 0x00, 0x00,
];

/// Its `.dynsym`.
#[rattlefmt::skip]
const LD_SYMBOLS: [u8; 168] = [
    0x00, 0x00, 0x00, 0x00, 0x00, 0, 0x00, 0, 0x00, 0x00, 0, 0, 0, 0, 0, 0, 0x00, 0, 0, 0, 0, 0, 0, 0,
    0x0d, 0x00, 0x00, 0x00, 0x20, 0, 0x00, 0, 0x00, 0x00, 0, 0, 0, 0, 0, 0, 0x00, 0, 0, 0, 0, 0, 0, 0,
    0x12, 0x00, 0x00, 0x00, 0x12, 0, 0x07, 0, 0x34, 0x10, 0, 0, 0, 0, 0, 0, 0x06, 0, 0, 0, 0, 0, 0, 0,
    0x01, 0x00, 0x00, 0x00, 0x12, 0, 0x07, 0, 0x20, 0x10, 0, 0, 0, 0, 0, 0, 0x06, 0, 0, 0, 0, 0, 0, 0,
    0x18, 0x00, 0x00, 0x00, 0x12, 0, 0x07, 0, 0x3a, 0x10, 0, 0, 0, 0, 0, 0, 0x06, 0, 0, 0, 0, 0, 0, 0,
    0x20, 0x00, 0x00, 0x00, 0x11, 0, 0x0c, 0, 0x08, 0x40, 0, 0, 0, 0, 0, 0, 0x04, 0, 0, 0, 0, 0, 0, 0,
    0x06, 0x00, 0x00, 0x00, 0x12, 0, 0x07, 0, 0x26, 0x10, 0, 0, 0, 0, 0, 0, 0x0e, 0, 0, 0, 0, 0, 0, 0,
];

/// Its `.dynstr`.
const LD_STRINGS: &[u8] = b"\0beta\0gamma_\0exit\0delta\0printf_\0alpha\0";

/// The defined symbols of these names.
fn definitions(alloc: Global, names: &[&[u8]]) -> Result<Vec<DynamicSymbol>, AllocError> {
    let mut symbols = Vec::new(alloc);
    for name in names {
        symbols.push(DynamicSymbol {
            symbol: SymbolIndex(0),
            name: Bytes::from_vec(Vec::from_slice(alloc, *name)?),
            version: 1,
        })?;
    }
    Ok(symbols)
}

/// Whether the symbols' GNU table of that shape, which is small, is these bytes, which it is written over.
fn is_gnu(out: &mut [u8], shape: &GnuHash, symbols: &[DynamicSymbol], wanted: &[u8]) -> bool {
    let has_buckets = 0 < shape.buckets && shape.buckets < 10;
    let has_words = 0 < shape.bloom_count && shape.bloom_count < 10;
    let is_short = shape.bloom_shift < 32 && shape.base < 10;
    if !has_buckets || !has_words || !is_short || symbols.len() >= 10 {
        return false;
    }
    let words = shape.buckets as usize + symbols.len();
    if out.len() != 16 + 8 * shape.bloom_count as usize + 4 * words {
        return false;
    }
    write_gnu_hash_tables(out, shape, symbols);
    &*out == wanted
}

/// Whether the symbols' System V table, of one bucket and with one symbol before them, is these bytes, which it is written over.
fn is_sysv(out: &mut [u8], symbols: &[DynamicSymbol], wanted: &[u8]) -> bool {
    if symbols.len() >= 10 || out.len() != 16 + 4 * symbols.len() {
        return false;
    }
    write_sysv_hash_table(out, 1, 1, symbols);
    &*out == wanted
}

const SHAPE: GnuHash = GnuHash {
    buckets: 1,
    bloom_count: 1,
    bloom_shift: 6,
    base: 1,
};

const LD_SHAPE: GnuHash = GnuHash {
    buckets: 3,
    bloom_count: 1,
    bloom_shift: 6,
    base: 2,
};

const EXIT_NAMES: &[&[u8]] = &[b"", b"exit", b"exit"];

const LD_NAMES: &[&[u8]] = &[b"delta", b"beta", b"printf_", b"alpha", b"gamma_"];

#[test]
fn tables_of_ld(rt: HostRuntime) -> Result<(), AllocError> {
    let exits = definitions(rt.alloc(), EXIT_NAMES)?;
    assert!(rt; is_gnu(&mut [0xff; 40], &SHAPE, exits.as_slice(), &GNU));
    assert!(rt; is_sysv(&mut [0xff; 28], exits.as_slice(), &SYSV));
    let of_ld = definitions(rt.alloc(), LD_NAMES)?;
    assert!(rt; is_gnu(&mut [0xff; 56], &LD_SHAPE, of_ld.as_slice(), &LD_GNU));
    Ok(())
}

/// A GNU table, its symbols, their strings, a name, and its index.
const GNU_NAMES: &[(&[u8], &[u8], &[u8], &[u8], Option<u64>)] = &[
    (&GNU, &SYMBOLS, b"\0exit\0", b"exit", Some(2)),
    (&GNU, &SYMBOLS, b"\0exit\0", b"", Some(1)),
    (&GNU, &SYMBOLS, b"\0exit\0", b"exim", None),
    (&LD_GNU, &LD_SYMBOLS, LD_STRINGS, b"beta", Some(3)),
    (&LD_GNU, &LD_SYMBOLS, LD_STRINGS, b"gamma_", Some(6)),
    (&LD_GNU, &LD_SYMBOLS, LD_STRINGS, b"exit", None),
];

/// The same for System V tables.
const SYSV_NAMES: &[(&[u8], &[u8], &[u8], &[u8], Option<u64>)] = &[
    (&SYSV, &SYMBOLS, b"\0exit\0", b"exit", Some(2)),
    (&SYSV, &SYMBOLS, b"\0exit\0", b"", Some(1)),
    (&SYSV, &SYMBOLS, b"\0exit\0", b"exim", None),
    (&LD_SYSV, &LD_SYMBOLS, LD_STRINGS, b"alpha", Some(5)),
    (&LD_SYSV, &LD_SYMBOLS, LD_STRINGS, b"exit", Some(1)),
    (&LD_SYSV, &LD_SYMBOLS, LD_STRINGS, b"omega", None),
];

#[test]
fn names_that_are_found(rt: HostRuntime) {
    for (hashes, symbols, strings, name, index) in GNU_NAMES {
        let tables = LookupTables {
            hashes,
            symbols,
            strings,
        };
        let found = find_gnu_symbol(&tables, name).ok();
        assert!(rt; found == Some(*index), "GNU, {name:?}");
    }
    for (hashes, symbols, strings, name, index) in SYSV_NAMES {
        let tables = LookupTables {
            hashes,
            symbols,
            strings,
        };
        let found = find_sysv_symbol(&tables, name).ok();
        assert!(rt; found == Some(*index), "System V, {name:?}");
    }
}

#[test]
fn names_that_are_not_found(rt: HostRuntime) {
    let cut = LookupTables {
        hashes: &GNU[..32],
        symbols: &SYMBOLS,
        strings: b"\0exit\0",
    };
    let found = find_gnu_symbol(&cut, b"exit");
    assert!(rt; matches!(found, Err(LookupFault::Cut { offset: 32 })));
    let mut hashes = SYSV;
    hashes[24] = 2;
    let round = LookupTables {
        hashes: &hashes,
        symbols: &SYMBOLS,
        strings: b"\0exit\0",
    };
    let found = find_sysv_symbol(&round, b"exim");
    assert!(rt; matches!(found, Err(LookupFault::Cycle { index: 3 })));
}
