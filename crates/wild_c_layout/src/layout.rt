//! The whole layout.
ghost use Rattle.std.specs.Prelude.{◌≡◌, IfOk};
ghost use Rattle.wild_c_layout.specs.LayoutOf.{tls_of, entry_of, sysv_hash_of, gnu_hash_of, is_layout, layout_of, frame_of};

use crate::codes::{KnownCodes, is_kind, is_machine, kind_of, machine_of};
use crate::decode::{Decode, decode_all, decode_plain};
use crate::extras::{
    CDynamicSymbol, CMerged, CProperty, CSortedSection, CThunkBlock, CVersionDefinition,
};
use crate::input::CGroup;
use crate::options::COptions;
use crate::output::{CPart, CSection, CSegment};
use crate::symbol::CSymbol;
use crate::values::{bytes_of, is_set, present, present_bytes};
use std::alloc::{AllocError, Global};
use wild_types::{Entry, GnuHash, Identity, Layout, SymbolIndex, SysvHash, Tls, all_pass};

/// The version of these structs.
pub const VERSION: u32 = 1;

/// A finished layout.
#[repr(C)]
#[derive(Drop)]
pub struct CLayout<'a> {
    /// `VERSION`.
    pub version: u32,
    /// `EM_X86_64` or `EM_AARCH64`.
    pub machine: u32,
    /// The index in the list of kinds of output.
    pub kind: u32,
    /// 0: no entry. 1: at the address `entry`. 2: at the symbol with the index `entry`.
    pub entry_kind: u32,
    pub entry: u64,
    pub options: COptions<'a>,
    pub page_size: u64,
    pub parts: &'a [CPart],
    pub sections: &'a [CSection<'a>],
    pub segments: &'a [CSegment],
    pub tls_start: u64,
    pub tls_end: u64,
    pub tls_align: u64,
    pub got_base: u64,
    pub got_header: u64,
    /// An address, or `ABSENT`.
    pub tlsld: u64,
    pub primary_part: usize,
    pub symbols: &'a [CSymbol<'a>],
    pub groups: &'a [CGroup<'a>],
    pub dynsyms: &'a [CDynamicSymbol<'a>],
    pub has_sysv_hash: u8,
    pub has_gnu_hash: u8,
    pub has_build_id: u8,
    pub sysv_buckets: u32,
    pub gnu_buckets: u32,
    pub gnu_bloom_count: u32,
    pub gnu_bloom_shift: u32,
    pub gnu_base: u32,
    pub verdefs: &'a [CVersionDefinition<'a>],
    pub thunk_blocks: &'a [CThunkBlock<'a>],
    pub sorted: &'a [CSortedSection],
    pub merged: &'a [CMerged<'a>],
    pub identity_part: usize,
    pub identity: &'a [u8],
    pub interp: &'a [u8],
    pub properties: &'a [CProperty],
    pub build_id: &'a [u8],
}

/// The addresses of the initial thread-local data.
fn tls_of(layout: &CLayout) -> Tls
    ensures { result ≡ tls_of layout.now }
{
    Tls {
        start: layout.tls_start,
        end: layout.tls_end,
        align: layout.tls_align,
    }
}

/// Where execution begins.
fn entry_of(layout: &CLayout) -> Option<Entry>
    ensures { result ≡ entry_of layout.now.entry_kind layout.now.entry }
{
    match layout.entry_kind {
        1 => Some(Entry::Address(layout.entry)),
        2 => Some(Entry::Symbol(SymbolIndex(layout.entry as usize))),
        _ => None,
    }
}

/// The shape of the System V hash table, if there is one.
fn sysv_hash_of(layout: &CLayout) -> Option<SysvHash>
    ensures { result ≡ sysv_hash_of layout.now }
{
    if !is_set(layout.has_sysv_hash) {
        return None;
    }
    Some(SysvHash {
        buckets: layout.sysv_buckets,
    })
}

/// The shape of the GNU hash table, if there is one.
fn gnu_hash_of(layout: &CLayout) -> Option<GnuHash>
    ensures { result ≡ gnu_hash_of layout.now }
{
    if !is_set(layout.has_gnu_hash) {
        return None;
    }
    Some(GnuHash {
        buckets: layout.gnu_buckets,
        bloom_count: layout.gnu_bloom_count,
        bloom_shift: layout.gnu_bloom_shift,
        base: layout.gnu_base,
    })
}

/// Whether the structs represent a layout: they are of this version, and each number that represents a choice is one of those.
#[tactic(auto, unfolding(crate::specs::LayoutOf::is_layout))]
pub fn is_layout(layout: &CLayout) -> bool
    ensures { result ≡ is_layout layout.now }
{
    layout.version == VERSION
        && is_machine(layout.machine)
        && is_kind(layout.kind)
        && layout.entry_kind < 3
        && all_pass(&KnownCodes, layout.parts)
        && all_pass(&KnownCodes, layout.symbols)
        && all_pass(&KnownCodes, layout.groups)
}

/// The layout that the structs represent. A number that represents no choice counts as 0, or as `EM_X86_64`.
#[tactic(auto, unfolding(crate::specs::LayoutOf::layout_of))]
pub fn decode_layout(alloc: Global, layout: &CLayout) -> Result<Layout, AllocError>
    ensures { IfOk result (λ l. l ≡ layout_of layout.now) }
{
    let options = layout.options.decode(alloc)?;
    let parts = decode_plain(alloc, layout.parts)?;
    let sections = decode_all(alloc, layout.sections)?;
    let segments = decode_plain(alloc, layout.segments)?;
    let symbols = decode_all(alloc, layout.symbols)?;
    let groups = decode_all(alloc, layout.groups)?;
    let dynsyms = decode_all(alloc, layout.dynsyms)?;
    let verdefs = decode_all(alloc, layout.verdefs)?;
    let thunk_blocks = decode_all(alloc, layout.thunk_blocks)?;
    let sorted = decode_plain(alloc, layout.sorted)?;
    let merged = decode_all(alloc, layout.merged)?;
    let identity = bytes_of(alloc, layout.identity)?;
    let interp = bytes_of(alloc, layout.interp)?;
    let properties = decode_plain(alloc, layout.properties)?;
    let build_id = present_bytes(alloc, layout.has_build_id, layout.build_id)?;
    Ok(Layout {
        machine: machine_of(layout.machine),
        kind: kind_of(layout.kind),
        options,
        page_size: layout.page_size,
        parts,
        sections,
        segments,
        tls: tls_of(layout),
        got_base: layout.got_base,
        got_header: layout.got_header,
        tlsld: present(layout.tlsld),
        primary_part: layout.primary_part,
        symbols,
        groups,
        dynsyms,
        sysv_hash: sysv_hash_of(layout),
        gnu_hash: gnu_hash_of(layout),
        verdefs,
        thunk_blocks,
        sorted,
        merged,
        identity: Identity {
            part: layout.identity_part,
            bytes: identity,
        },
        interp,
        properties,
        entry: entry_of(layout),
        build_id,
    })
}

/// The options, parts and sections that the structs represent, in a layout that has nothing else.
#[tactic(auto, unfolding(crate::specs::LayoutOf::frame_of))]
pub fn decode_frame(alloc: Global, layout: &CLayout) -> Result<Layout, AllocError>
    ensures { IfOk result (λ l. l ≡ frame_of layout.now) }
{
    let options = layout.options.decode(alloc)?;
    let parts = decode_plain(alloc, layout.parts)?;
    let sections = decode_all(alloc, layout.sections)?;
    Ok(Layout {
        options,
        parts,
        sections,
        ..Layout::empty(alloc)
    })
}
