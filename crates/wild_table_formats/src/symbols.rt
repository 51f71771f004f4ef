//! What entries of the symbol tables say (gABI, "Symbol Table").

/// `st_info`, `st_other` and `st_size` of a symbol.
#[derive(Clone, Copy)]
pub struct SymbolAttributes {
    /// `st_info`, binding and type.
    pub info: u8,
    /// `st_other`, visibility.
    pub other: u8,
    /// `st_size`.
    pub size: u64,
}

/// An entry of the dynamic symbol table without its name.
#[derive(Clone, Copy)]
pub struct SymbolFields {
    /// `st_shndx`.
    pub section: u16,
    /// `st_value`.
    pub value: u64,
    pub attributes: SymbolAttributes,
}

/// The header indexes of output sections for symbols that are in no input section. `None`: there is no such section.
#[derive(Clone, Copy)]
pub struct NamedSections {
    /// `.bss`, for common symbols and for symbols that are copied from libraries.
    pub bss: Option<usize>,
    /// `.tbss`, for thread-local common symbols.
    pub tbss: Option<usize>,
    /// The section of the PLT entries.
    pub stubs: Option<usize>,
    /// The section of the GOT entries.
    pub got: Option<usize>,
    /// The section of the GOT entries whose relative relocations are packed.
    pub block: Option<usize>,
}

/// An entry of `.symtab` without its name.
#[derive(Clone, Copy)]
pub struct TableFields {
    pub fields: SymbolFields,
    /// The header index of its section modulo 2^32 if `st_shndx` has no room for it, else 0.
    pub long: u32,
}
