//! The options of the link.
ghost use Rattle.std.specs.Prelude.{◌≡◌};
ghost use Rattle.wild_types.specs.Defaults.{no_options};

use std::alloc::Global;
use wild_words::{Bytes, Items};

/// The options of the link. An absent option is false, empty or none.
#[derive(Drop)]
pub struct Options {
    /// Instruction sequences may be rewritten.
    pub relax: bool,
    /// Relative relocations are packed as RELR words.
    pub relr: bool,
    /// No `.symtab`.
    pub strip_all: bool,
    /// A search table of frames (`.eh_frame_hdr`) is written.
    pub eh_frame_hdr: bool,
    /// `.eh_frame` ends with a zero length.
    pub terminator: bool,
    /// Branch target identification (AArch64).
    pub bti: bool,
    /// Symbol versions are written.
    pub versions: bool,
    /// Symbols for GOT and PLT entries are written.
    pub got_plt_syms: bool,
    /// The stack is executable.
    pub execstack: bool,
    /// `DT_RUNPATH` in place of `DT_RPATH`.
    pub new_dtags: bool,
    /// `DF_ORIGIN`.
    pub origin: bool,
    /// `DF_1_NODELETE`.
    pub nodelete: bool,
    /// `DF_1_INTERPOSE`.
    pub interpose: bool,
    /// `DT_TEXTREL`.
    pub textrel: bool,
    /// `DF_STATIC_TLS`.
    pub static_tls: bool,
    /// `DT_AARCH64_VARIANT_PCS`.
    pub variant_pcs: bool,
    /// A debug file: of allocated sections only headers and notes are written.
    pub only_keep_debug: bool,
    /// Debug sections mark discarded code with -1 and -2 (DWARF, "Tombstone Values").
    pub new_tombstones: bool,
    /// The search path of the dynamic linker.
    pub rpath: Option<Bytes>,
    /// `DT_SONAME`.
    pub soname: Option<Bytes>,
    /// `DT_AUXILIARY`, one entry each.
    pub auxiliary: Items<Bytes>,
}

impl Options {
    /// No option is set.
    pub fn none(alloc: Global) -> Options
        ensures { result ≡ no_options }
    {
        Options {
            relax: false,
            relr: false,
            strip_all: false,
            eh_frame_hdr: false,
            terminator: false,
            bti: false,
            versions: false,
            got_plt_syms: false,
            execstack: false,
            new_dtags: false,
            origin: false,
            nodelete: false,
            interpose: false,
            textrel: false,
            static_tls: false,
            variant_pcs: false,
            only_keep_debug: false,
            new_tombstones: false,
            rpath: None,
            soname: None,
            auxiliary: Items::new(alloc),
        }
    }
}
