//! An empty layout, the start value from which others are built.
ghost use Rattle.std.specs.Prelude.{◌≡◌};
ghost use Rattle.wild_types.specs.Empty.{empty_layout};

use crate::kind::{Machine, OutputKind, RelocationModel};
use crate::layout::{Identity, Layout, Tls};
use crate::options::Options;
use std::alloc::Global;
use wild_words::{Bytes, Items};

impl Tls {
    /// No thread-local data.
    pub const NONE: Tls = Tls {
        start: 0,
        end: 0,
        align: 1,
    };
}

impl Layout {
    /// An empty layout, for an executable that is loaded at fixed addresses.
    pub fn empty(alloc: Global) -> Layout
        ensures { result ≡ empty_layout }
    {
        Layout {
            machine: Machine::X86_64,
            kind: OutputKind::StaticExecutable(RelocationModel::NonRelocatable),
            options: Options::none(alloc),
            page_size: 0,
            parts: Items::new(alloc),
            sections: Items::new(alloc),
            segments: Items::new(alloc),
            tls: Tls::NONE,
            got_base: 0,
            got_header: 0,
            tlsld: None,
            primary_part: 0,
            symbols: Items::new(alloc),
            groups: Items::new(alloc),
            dynsyms: Items::new(alloc),
            sysv_hash: None,
            gnu_hash: None,
            verdefs: Items::new(alloc),
            thunk_blocks: Items::new(alloc),
            sorted: Items::new(alloc),
            merged: Items::new(alloc),
            identity: Identity {
                part: 0,
                bytes: Bytes::new(alloc),
            },
            interp: Bytes::new(alloc),
            properties: Items::new(alloc),
            entry: None,
            build_id: None,
        }
    }
}
