//! The contents of GOT slots (x86-64 psABI, "Global Offset Table (GOT)", "Procedure Linkage Table"; ELF Handling For Thread-Local
//! Storage).
use wild_reloc::DynamicRelocationKind;
use wild_types::{OutputKind, Tls};

/// The size of a slot in bytes.
pub const WORD_SIZE: usize = 8;

/// The greatest number of slots of a symbol: an offset, a module pair and a descriptor.
pub const MAX_WORDS: usize = 5;

/// The properties of the output on which the contents of slots depend.
#[derive(Clone, Copy)]
pub struct Setting {
    pub kind: OutputKind,
    /// Relative relocations are packed as RELR words.
    pub relr: bool,
    pub tls: Tls,
    /// The address of the thread pointer, relative to the initial thread-local data.
    pub thread_pointer: u64,
}

/// The dynamic relocation that fills a slot.
#[derive(Clone, Copy)]
pub struct SlotEntry {
    pub kind: DynamicRelocationKind,
    /// The index in the dynamic symbol table; 0 if the entry names no symbol.
    pub symbol: u64,
    /// The addend, modulo 2^64.
    pub addend: u64,
}

/// One word of the GOT: its contents in the file, and how a loader changes it.
#[derive(Clone, Copy)]
pub enum SlotWord {
    /// A number, which no loader changes.
    Number(u64),
    /// An address to which the loader adds the load bias. It has a relocation of its own: a RELR word, or a relative entry, for which
    /// the file has 0.
    Address(u64),
    /// An address to which the loader adds the load bias, in the group's run of consecutive words that are packed as RELR together.
    InRelrGot(u64),
    /// 0 in the file; an entry of `rela_dyn_general` fills it.
    General(SlotEntry),
    /// 0 in the file; an entry of `rela_plt` fills it.
    Plt(SlotEntry),
}

/// Why a slot cannot be written.
#[derive(Clone, Copy, Debug, PartialEq, Eq)]
pub enum SlotFault {
    /// The symbol needs an index in the dynamic symbol table and has none.
    NoDynamicSymbol,
    /// The slot holds the address of the symbol's stub, but there is no stub.
    NoStub,
    /// The stub is too far from its slot: the distance.
    PltTooFar { value: u64 },
    /// The symbol's address is outside the thread-local data.
    TlsOutOfSegment { value: u64 },
    /// A static executable has no code that a descriptor could call.
    StaticTlsDesc,
}

/// The slots and the stub of a symbol, one item each, in order.
#[derive(Clone, Copy)]
pub enum SlotItem {
    /// A word, 8 bytes after the word before it.
    Word(SlotWord),
    /// The stub that jumps to the word before it.
    Stub,
    /// A fault, after which nothing is written.
    Fault(SlotFault),
}
