//! Bytes of input files with their relocations, at one address: the input of the decision on each relocation.
ghost use Rattle.std.specs.Prelude.{◌≡◌};
ghost use Rattle.wild_types.specs.Item.{item_of, item_now};

use crate::file::File;
use crate::input::{InputRelocation, InputSection};
use crate::layout::Layout;

/// Input bytes and their relocations, at an address of the layout.
#[derive(Clone, Copy)]
pub struct ItemRef<'a> {
    pub address: u64,
    /// The input section's `sh_flags`.
    pub flags: u64,
    pub bytes: &'a [u8],
    pub relocations: &'a [InputRelocation],
    /// The block of thunks that branches use if their target is out of range.
    pub thunk_block: usize,
}

impl InputSection {
    /// The item of a section of that file: its address, flags, bytes and relocations, and the block of thunks that it uses.
    #[inline]
    pub fn item(&self, layout: &Layout, file: &File) -> ItemRef<'_>
        ensures { item_now result ≡ item_of layout.now file.now self.now }
    {
        ItemRef {
            address: self.address,
            flags: self.flags,
            bytes: self.bytes.as_slice(),
            relocations: self.relocations.as_slice(),
            thunk_block: if self.part == layout.primary_part {
                file.thunk_block
            } else {
                0
            },
        }
    }
}
