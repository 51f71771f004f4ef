//! The address at which the next frames of a group begin.
ghost use Rattle.std.specs.Prelude.{◌≡◌, ◌<◌, ◌^◌};
ghost use Rattle.wild_placement.specs.FrameInputs.{kept_size};
ghost use Rattle.wild_placement.specs.PlacedSections.{frames_at, address_after};

use std::marker::Model;
use wild_placement::{FileFrames, frames_at, kept_size};
use wild_types::{Group, Layout};

/// The address at which the next frames of a group begin. The size of the frames before it takes a walk over their entries, so it is added
/// only if the address is read.
#[derive(Drop)]
pub(crate) struct FrameCursor<'a> {
    at: u64,
    /// The frames at `at`, unless their size is added.
    last: Option<FileFrames<'a>>,
}

impl<'a> Model for FrameCursor<'a> {
    ghost use Rattle.std.specs.Prelude.{ℕ};
    ghost use Rattle.wild_contents.specs.FrameCursor.{address_after_last};

    ghost Value = { ℕ };

    ghost view = { λ c. address_after_last c.at c.last };
}

impl<'a> FrameCursor<'a> {
    /// The address at which the frames of a group begin.
    pub(crate) fn new(layout: &Layout, group: &Group) -> Self
        ensures { result ≡ frames_at layout.now group.now }
    {
        FrameCursor {
            at: frames_at(layout, group),
            last: None,
        }
    }

    /// The address is below 2^64.
    #[tactic(auto, using(crate::proofs::FrameCursorLemmas::address_fits))]
    pub(crate) fn fits(&self)
        ensures { self.now < 2 ^ 64 }
    {
        let _at = self.at;
    }

    /// The address, to which the size of the frames before it is added.
    pub(crate) fn address(&mut self) -> u64
        ensures is { result ≡ self.old }
        ensures same { self.new ≡ self.old }
    {
        if let Some(frames) = self.last {
            let size = kept_size(frames.layout, frames.file, frames.section);
            self.at = self.at.wrapping_add(size);
            self.last = None;
        }
        self.at
    }

    /// Moves past a section of a file. Only frames take room.
    #[tactic(auto, using(crate::proofs::FrameCursorLemmas::others_take_no_room))]
    pub(crate) fn pass(&mut self, section: FileFrames<'a>)
        ensures { self.new ≡ address_after self.old (kept_size section.entry.layout.now section.entry.file.now section.entry.section.now) }
    {
        self.fits();
        if section.section.slot.is_frame() {
            let at = self.address();
            self.at = at;
            self.last = Some(section);
        }
    }
}
