//! Why the look-up of a name fails.

/// Why the look-up of a name in the bytes of tables fails.
#[derive(Clone, Copy, Drop)]
pub enum LookupFault {
    /// The word at this offset of the hash table goes past the end of the table.
    Cut { offset: u64 },
    /// The hash table refers to a symbol past the end of the symbol table.
    NoSymbol { index: u64 },
    /// The string at this offset has no zero at its end.
    NoString { offset: u64 },
    /// A System V chain has a cycle: it is longer than the table's number of symbols. The walk ended at this symbol.
    Cycle { index: u64 },
}

/// Why the look-up of a name in an image fails.
#[derive(Clone, Copy, Debug, PartialEq, Eq, Drop)]
pub enum ImageFault {
    /// The first 64 bytes are not the header of an ELF64 little-endian executable or shared object for a known machine.
    NotElf,
    /// What begins at this offset goes past the end of the image, or past the file bytes of its segment: a header, a
    /// table, a word or symbol of a table, or a string. If no segment contains the table's address, this is the address.
    Cut { offset: u64 },
    /// The look-up needs the dynamic entry with this tag, and the image has none. If only one of `DT_STRTAB` and
    /// `DT_STRSZ` is present, this is the tag of that one.
    NoTable { tag: u64 },
    /// A System V chain has a cycle: it is longer than the table's number of symbols. The walk ended at this symbol.
    Cycle { index: u64 },
}
