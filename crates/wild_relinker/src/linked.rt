//! A layout without faults, with its image.
ghost use Rattle.std.specs.Prelude.{◌≡◌, ◌≤◌, [], IfOk};
ghost use Rattle.wild_types.specs.Faults.{Answers};
ghost use Rattle.wild_layout.specs.Faults.{errors};
ghost use Rattle.wild_layout.specs.Image.{bytes, counts};
ghost use Rattle.wild_layout.specs.Warnings.{warnings};

use std::alloc::Global;
use std::marker::Model;
use wild_clauses::LayoutSurvey;
use wild_image::{Arch, GroupWriter, OpenGate, Prepared, write};
use wild_types::{EntryWarning, Error, Layout};
use wild_words::Items;

/// What was written for a layout, except for the warnings.
#[derive(Drop)]
pub(crate) struct WrittenImage {
    pub(crate) out: Vec<u8>,
    pub(crate) counts: Vec<u64>,
    /// The number of relocations of all sections.
    pub(crate) relocations: u64,
}

/// A layout with its image, and what the writer of a group needs of it.
#[derive(Drop)]
pub(crate) struct Image {
    pub(crate) layout: Layout,
    pub(crate) prepared: Prepared,
    pub(crate) written: WrittenImage,
}

/// A layout without faults, with its image, its warnings, and the number of relocations read for each section.
#[derive(Drop)]
pub struct Linked {
    pub(crate) image: Image,
    warnings: Items<EntryWarning>,
}

impl Model for Linked {
    ghost use Rattle.wild_relinker.specs.Linked.{LinkedImage, HoldsLinkedImage};

    ghost Value = { LinkedImage };

    ghost view = { λ k. record { layout = k.image.layout; out = k.image.written.out.items; warnings = k.warnings; counts = k.image.written.counts.items } };

    ghost invariant = { λ k. HoldsLinkedImage k.image k.warnings };
}

impl Linked {
    /// Writes the image of a layout, or returns its first fault. `workers` workers share the work.
    pub fn link<A: Arch, E: GroupWriter<A, OpenGate>>(
        executor: &E,
        alloc: Global,
        layout: Layout,
        workers: u8,
    ) -> Result<Linked, Error>
        requires ready { E.ready executor.now }
        requires machine { layout.machine ≡ A.machine }
        requires workers { (1 ≤ workers) × (workers ≤ 64) }
        ensures faults { Answers result (errors layout) }
        ensures layout { IfOk result (λ k. k.layout ≡ layout) }
    {
        let output = write::<A, E>(executor, alloc, &layout, workers)?;
        let prepared = Prepared::of::<A, E>(executor, alloc, &layout)?;
        let relocations = LayoutSurvey::of(&layout).relocations;
        Ok(Linked {
            image: Image {
                layout,
                prepared,
                written: WrittenImage {
                    out: output.out.into_vec(),
                    counts: output.counts.into_vec(),
                    relocations,
                },
            },
            warnings: output.warnings,
        })
    }

    /// The layout. It has no faults.
    pub fn layout(&self) -> &Layout
        ensures value { result.now ≡ self.now.layout }
        ensures faultless { errors result.now ≡ [] }
    {
        &self.image.layout
    }

    /// The bytes of its image.
    pub fn out(&self) -> &[u8]
        ensures value { result.now ≡ self.now.out }
        ensures image { result.now ≡ bytes self.now.layout }
    {
        &self.image.written.out
    }

    /// Its warnings.
    pub fn warnings(&self) -> &[EntryWarning]
        ensures value { result.now ≡ self.now.warnings }
        ensures image { result.now ≡ warnings self.now.layout }
    {
        self.warnings.as_slice()
    }

    /// The number of relocations read for each section.
    pub fn counts(&self) -> &[u64]
        ensures value { result.now ≡ self.now.counts }
        ensures image { result.now ≡ counts self.now.layout }
    {
        &self.image.written.counts
    }
}
