//! One table of versions: a buffer with the size of a group's share of a part.
ghost use Rattle.std.specs.Prelude.{◌≡◌, ◌^◌, ◌<◌, length, take, IfOk};
ghost use Rattle.wild_versions.specs.Table.{room_for, table_full_or_fault, empty_table};

use crate::room::FilledRoom;
use std::alloc::{AllocError, Global};
use wild_types::{Error, Layout, Role, excessive, insufficient, part_of, share_of};

/// A group's share of a part, filled from its front.
#[derive(Drop)]
pub struct VersionTable {
    pub(crate) part: usize,
    pub(crate) group: usize,
    pub(crate) filled: FilledRoom,
}

impl VersionTable {
    /// An empty table with the size of the group's share of the part with this role.
    pub(crate) fn new(
        alloc: Global,
        layout: &Layout,
        group: usize,
        role: Role,
    ) -> Result<Self, AllocError>
        ensures { IfOk result (λ t. t ≡ empty_table layout.now group role) }
    {
        let room = share_of(layout, group, role) as usize;
        Ok(VersionTable {
            part: part_of(layout, role),
            group,
            filled: FilledRoom::new(alloc, room)?,
        })
    }

    /// Checks that `size` more bytes fit.
    ///
    /// # Errors
    ///
    /// `InsufficientAllocation` exactly if they do not fit.
    pub(crate) fn check_room(&self, size: usize) -> Result<(), Error>
        requires { size < 2 ^ 32 }
        ensures { result ≡ room_for size self.now }
    {
        let given = self.filled.room();
        let needed = self.filled.used() + size;
        if given < needed {
            return Err(insufficient(self.part, self.group, given as u64, needed as u64));
        }
        Ok(())
    }

    /// Checks that the share is full.
    ///
    /// # Errors
    ///
    /// `ExcessiveAllocation` exactly if unwritten bytes are left.
    pub(crate) fn check_exhausted(&self) -> Result<(), Error>
        ensures { result ≡ table_full_or_fault self.now }
    {
        let given = self.filled.room();
        let used = self.filled.used();
        if used < given {
            return Err(excessive(self.part, self.group, given as u64, used as u64));
        }
        Ok(())
    }

    /// The bytes of the share: the written ones, then the unwritten ones.
    pub fn bytes(&self) -> &[u8]
        ensures written { take (length self.now.filled.bytes) result.now ≡ self.now.filled.bytes }
        ensures room { length result.now ≡ self.now.filled.room }
    {
        self.filled.bytes()
    }
}
