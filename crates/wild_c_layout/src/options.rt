//! The options of the link.
ghost use Rattle.std.specs.Prelude.{◌≡◌, IfOk};
ghost use Rattle.wild_c_layout.specs.Options.{options_of};

use crate::decode::{Decode, decode_all};
use crate::values::{CBytes, is_set, present_bytes};
use std::alloc::{AllocError, Global};
use wild_types::Options;

/// The options of the link. A flag is set if it is not 0.
#[repr(C)]
#[derive(Drop)]
pub struct COptions<'a> {
    pub relax: u8,
    pub relr: u8,
    pub strip_all: u8,
    pub eh_frame_hdr: u8,
    pub terminator: u8,
    pub bti: u8,
    pub versions: u8,
    pub got_plt_syms: u8,
    pub execstack: u8,
    pub new_dtags: u8,
    pub origin: u8,
    pub nodelete: u8,
    pub interpose: u8,
    pub textrel: u8,
    pub static_tls: u8,
    pub variant_pcs: u8,
    pub only_keep_debug: u8,
    pub new_tombstones: u8,
    pub has_rpath: u8,
    pub has_soname: u8,
    pub rpath: &'a [u8],
    pub soname: &'a [u8],
    pub auxiliary: &'a [CBytes<'a>],
}

impl Decode<Options> for COptions<'_> {
    ghost value_of = { options_of };

    #[tactic(auto, unfolding(crate::specs::Options::options_of))]
    fn decode(&self, alloc: Global) -> Result<Options, AllocError> {
        let rpath = present_bytes(alloc, self.has_rpath, self.rpath)?;
        let soname = present_bytes(alloc, self.has_soname, self.soname)?;
        let auxiliary = decode_all(alloc, self.auxiliary)?;
        Ok(Options {
            relax: is_set(self.relax),
            relr: is_set(self.relr),
            strip_all: is_set(self.strip_all),
            eh_frame_hdr: is_set(self.eh_frame_hdr),
            terminator: is_set(self.terminator),
            bti: is_set(self.bti),
            versions: is_set(self.versions),
            got_plt_syms: is_set(self.got_plt_syms),
            execstack: is_set(self.execstack),
            new_dtags: is_set(self.new_dtags),
            origin: is_set(self.origin),
            nodelete: is_set(self.nodelete),
            interpose: is_set(self.interpose),
            textrel: is_set(self.textrel),
            static_tls: is_set(self.static_tls),
            variant_pcs: is_set(self.variant_pcs),
            only_keep_debug: is_set(self.only_keep_debug),
            new_tombstones: is_set(self.new_tombstones),
            rpath,
            soname,
            auxiliary,
        })
    }
}
