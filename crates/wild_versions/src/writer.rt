//! The writer of a group's tables of versions.
ghost use Rattle.std.specs.Prelude.{◌≡◌, ◌∷◌, [], ◌^◌, ◌<◌, length, take, OnOk, OnErr, IfOk};
ghost use Rattle.wild_records.specs.Versyms.{versym_size};
ghost use Rattle.wild_versions.specs.Table.{room_for};
ghost use Rattle.wild_table_formats.specs.SymbolVersions.{version_of};
ghost use Rattle.wild_needs.specs.Versions.{definitions_size, need_size};
ghost use Rattle.wild_versions.specs.Writer.{no_versions, with_versions, with_definitions, with_need, tables_full_or_fault};

use crate::definitions::push_definitions;
use crate::needs::push_need;
use crate::symbols::{push_version, version_of};
use crate::table::VersionTable;
use std::alloc::{AllocError, Global};
use wild_needs::{definitions_size, need_size};
use wild_records::Versym;
use wild_types::{Error, FileRole, Layout, Role, Symbol, VersionNeeds};

/// A group's three tables of versions, each filled from the front of the group's share. All memory is allocated by `new`.
#[derive(Drop)]
pub struct VersionWriter {
    /// The versions of the dynamic symbols (`.gnu.version`).
    pub symbols: VersionTable,
    /// The versions that the output defines (`.gnu.version_d`).
    pub definitions: VersionTable,
    /// The versions that are needed of libraries (`.gnu.version_r`).
    pub needs: VersionTable,
}

impl VersionWriter {
    /// Empty tables with the sizes of the group's shares of `gnu_version`, `gnu_version_d` and `gnu_version_r`. Nothing
    /// else is allocated, here or later.
    pub fn new(alloc: Global, layout: &Layout, group: usize) -> Result<Self, AllocError>
        ensures { IfOk result (λ w. w ≡ no_versions layout.now group) }
    {
        Ok(VersionWriter {
            symbols: VersionTable::new(alloc, layout, group, Role::GnuVersion)?,
            definitions: VersionTable::new(alloc, layout, group, Role::GnuVersionD)?,
            needs: VersionTable::new(alloc, layout, group, Role::GnuVersionR)?,
        })
    }

    /// Writes the version of the next dynamic symbol.
    ///
    /// # Errors
    ///
    /// `InsufficientAllocation` exactly if it does not fit in the rest of its share; then nothing changes.
    #[tactic(auto, using(wild_table_formats::proofs::VersionChains::alone))]
    pub fn set_next_symbol_version(&mut self, version: u16) -> Result<(), Error>
        ensures answered { result ≡ room_for versym_size self.old.symbols }
        ensures written { OnOk result (self.new ≡ with_versions (version ∷ []) self.old) }
        ensures kept { OnErr result (self.new ≡ self.old) }
    {
        self.symbols.check_room(Versym::SIZE)?;
        push_version(&mut self.symbols.filled, version);
        Ok(())
    }

    /// Writes the version of the next dynamic symbol, an entry of a file with that role: for a library the version that is
    /// needed of it, otherwise `VER_NDX_GLOBAL`.
    ///
    /// # Errors
    ///
    /// `InsufficientAllocation` exactly if it does not fit in the rest of its share; then nothing changes.
    pub fn copy_symbol_version(&mut self, role: FileRole, symbol: &Symbol) -> Result<(), Error>
        ensures answered { result ≡ room_for versym_size self.old.symbols }
        ensures written { OnOk result (self.new ≡ with_versions (version_of role symbol.now ∷ []) self.old) }
        ensures kept { OnErr result (self.new ≡ self.old) }
    {
        self.set_next_symbol_version(version_of(role, symbol))
    }

    /// Writes the versions that the output defines. `names` has the offset of each version's name in `.dynstr`. The first
    /// version is that of the output itself: with a soname, the first offset is that of the soname.
    ///
    /// # Errors
    ///
    /// `InsufficientAllocation` exactly if they do not fit in the rest of their share; then nothing changes.
    pub fn write_verdef(&mut self, layout: &Layout, names: &[u32]) -> Result<(), Error>
        requires few { length layout.now.verdefs < 2 ^ 16 }
        ensures answered { result ≡ room_for (definitions_size layout.now.verdefs) self.old.definitions }
        ensures written { OnOk result (self.new ≡ with_definitions names.now layout.now self.old) }
        ensures kept { OnErr result (self.new ≡ self.old) }
    {
        let definitions = layout.verdefs.as_slice();
        self.definitions.check_room(definitions_size(definitions))?;
        push_definitions(
            &mut self.definitions.filled,
            names,
            &layout.options.soname,
            definitions,
        );
        Ok(())
    }

    /// Writes the versions that are needed of a library. `file` is the offset of the library's name in `.dynstr`, and
    /// `names` has those of the versions' names.
    ///
    /// # Errors
    ///
    /// `InsufficientAllocation` exactly if they do not fit in the rest of their share; then nothing changes.
    pub fn write_verneed(
        &mut self,
        file: u32,
        names: &[u32],
        needs: &VersionNeeds,
    ) -> Result<(), Error>
        requires few { length needs.now.versions < 2 ^ 16 }
        ensures answered { result ≡ room_for (need_size needs.now) self.old.needs }
        ensures written { OnOk result (self.new ≡ with_need file names.now needs.now self.old) }
        ensures kept { OnErr result (self.new ≡ self.old) }
    {
        self.needs.check_room(need_size(needs))?;
        push_need(&mut self.needs.filled, file, names, needs);
        Ok(())
    }

    /// Checks that every table is full.
    ///
    /// # Errors
    ///
    /// `ExcessiveAllocation` for the first table with unwritten bytes, in the order of the roles of parts.
    pub fn check_exhausted(&self) -> Result<(), Error>
        ensures { result ≡ tables_full_or_fault self.now }
    {
        self.symbols.check_exhausted()?;
        self.definitions.check_exhausted()?;
        self.needs.check_exhausted()
    }
}
