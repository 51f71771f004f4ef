//! A buffer for the bytes of a group.
ghost use Rattle.std.specs.Prelude.{◌≡◌, [], ◌++◌, true, length, All, IfOk, OnOk};
ghost use Rattle.wild_frames.specs.Frames.{terminator};
ghost use Rattle.wild_types.specs.Faults.{Answers};
ghost use Rattle.wild_types.specs.Item.{item_now};
ghost use Rattle.wild_types.specs.Kinds.{is_partial_link};
ghost use Rattle.wild_layout.specs.Sites.{MovesApart, item_bytes};
ghost use Rattle.wild_layout.specs.Faults.{item_errors, debug_errors};
ghost use Rattle.wild_layout.specs.Debug.{debug_bytes};
ghost use Rattle.wild_layout.specs.Partial.{rela_bytes_of, group_words};
ghost use Rattle.wild_sections.specs.Origins.{ending_errors};
ghost use Rattle.wild_layout.specs.SectionPlaces.{FieldLies};

use std::alloc::{AllocError, Global};
use std::marker::Model;
use wild_debug::{DebugWriter, Workers};
use wild_frames::write_eh_frame_terminator;
use wild_relax::Arch;
use wild_sections::{Origin, Resolved, write_data, write_group_section, write_rela_section};
use wild_types::{Error, InputSection, ItemRef};

/// A growing buffer, which contracts see as a list of numbers.
#[derive(Drop)]
pub struct PartBytes {
    entries: Vec<u8>,
}

impl Model for PartBytes {
    ghost use Rattle.std.specs.Prelude.{List, ℕ};

    ghost Value = { List ℕ };

    ghost view = { λ a. a.entries.items };
}

impl PartBytes {
    /// An empty buffer.
    pub fn empty(alloc: Global) -> Self
        ensures { result ≡ [] }
    {
        PartBytes {
            entries: Vec::new(alloc),
        }
    }

    /// An empty buffer with capacity for `count` bytes.
    pub fn with_room(alloc: Global, count: usize) -> Result<Self, AllocError>
        ensures { IfOk result (λ v. v ≡ []) }
    {
        Ok(PartBytes {
            entries: Vec::with_capacity(alloc, count)?,
        })
    }

    /// A buffer of these bytes.
    pub fn from_vec(bytes: Vec<u8>) -> Self
        ensures { result ≡ bytes.items }
    {
        PartBytes { entries: bytes }
    }

    /// Appends bytes.
    pub fn extend(&mut self, bytes: &[u8]) -> Result<(), AllocError>
        ensures { OnOk result (self.new ≡ self.old ++ bytes.now) }
    {
        self.entries.extend_from_slice(bytes)
    }

    /// Appends the terminator of the output's frames.
    pub fn end_frames(&mut self) -> Result<(), AllocError>
        ensures { OnOk result (self.new ≡ self.old ++ terminator) }
    {
        write_eh_frame_terminator(&mut self.entries)
    }

    /// Appends the bytes of an item with its relocations applied, or returns its first fault, with its place in the input.
    pub fn add_data<A: Arch>(
        &mut self,
        alloc: Global,
        resolved: &Resolved<A>,
        origin: &Origin,
        item: &ItemRef,
    ) -> Result<(), Error>
        requires lies { All (FieldLies resolved.now.layout.now.machine (length item.now.bytes.now)) item.now.relocations.now }
        requires moves { MovesApart resolved.now.layout.now (item_now item.now) origin.now.relocations.now }
        ensures faults { Answers result (item_errors resolved.now.layout.now origin.now.place.group origin.now.place.file origin.now.place.section (item_now item.now) origin.now.relocations.now (ending_errors origin.now.place origin.now.ending)) }
        ensures bytes { OnOk result (self.new ≡ self.old ++ item_bytes resolved.now.layout.now (item_now item.now)) }
    {
        let from = self.entries.len();
        self.entries.extend_from_slice(item.bytes)?;
        write_data(alloc, resolved, origin, item, &mut self.entries[from..])
    }

    /// Appends the bytes of a placed debug section with its relocations applied, or returns its first fault, with its place in the input.
    /// The workers of `by` share a large section.
    pub fn add_debug<A: Arch, E: DebugWriter<A>>(
        &mut self,
        by: &Workers<E>,
        resolved: &Resolved<A>,
        origin: &Origin,
        section: &InputSection,
    ) -> Result<(), Error>
        requires ready { E.ready by.now.executor.now }
        requires lies { All (FieldLies resolved.now.layout.now.machine (length section.now.bytes)) section.now.relocations }
        requires origins { length origin.now.relocations.now ≡ length section.now.relocations }
        ensures faults { Answers result (debug_errors resolved.now.layout.now origin.now.place.group origin.now.place.file origin.now.place.section section.now origin.now.relocations.now) }
        ensures bytes { OnOk result (self.new ≡ self.old ++ debug_bytes resolved.now.layout.now section.now) }
    {
        let from = self.entries.len();
        self.entries.extend_from_slice(section.bytes.as_slice())?;
        E::apply_by_workers(
            by,
            resolved,
            origin.place,
            origin.relocations,
            section,
            &mut self.entries[from..],
        )
    }

    /// Appends the bytes of a relocation table that is placed with its target section.
    #[tactic(auto, using(crate::proofs::PartLemmas::rela_room))]
    pub fn add_rela<A: Arch>(
        &mut self,
        alloc: Global,
        resolved: &Resolved<A>,
        section: &InputSection,
    ) -> Result<(), AllocError>
        requires partial { is_partial_link resolved.now.layout.now.kind ≡ true }
        requires size { length (rela_bytes_of resolved.now.layout.now section.now) ≡ section.now.size }
        ensures { OnOk result (self.new ≡ self.old ++ rela_bytes_of resolved.now.layout.now section.now) }
    {
        let mut room = vec![in alloc; 0u8; section.size as usize]?;
        write_rela_section(resolved, section, &mut room);
        self.extend(&room)
    }

    /// Appends the bytes of a section group.
    pub fn add_group(&mut self, alloc: Global, section: &InputSection) -> Result<(), AllocError>
        requires size { length (group_words section.now) ≡ section.now.size }
        ensures { OnOk result (self.new ≡ self.old ++ group_words section.now) }
    {
        let mut room = vec![in alloc; 0u8; section.size as usize]?;
        write_group_section(section, &mut room);
        self.extend(&room)
    }

    /// The bytes.
    pub fn as_slice(&self) -> &[u8]
        ensures { result.now ≡ self.now }
    {
        self.entries.as_slice()
    }
}
