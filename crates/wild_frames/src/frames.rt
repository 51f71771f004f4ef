//! The interface through which frames are read.
ghost use Rattle.std.specs.Prelude.{◌≡◌, length};
ghost use Rattle.wild_frames.specs.Frames.{Frames};

use wild_types::InputRelocation;

/// Where the symbol of a relocation is defined, as far as it decides which FDEs are kept.
#[derive(Clone, Copy)]
pub enum Target {
    /// The relocation has no symbol, or one that is in no input section.
    NoSection,
    /// In an input section that has no address, or has size 0.
    Discarded,
    /// In an input section that has an address and a size other than 0.
    Loaded,
}

/// An input section of frames, its relocations, and the width and the target of each.
pub trait FrameSource {
    ghost frames: { Self → Frames };

    fn bytes(&self) -> &[u8]
        ensures { result.now ≡ (frames self.now).bytes };

    fn relocations(&self) -> &[InputRelocation]
        ensures { result.now ≡ (frames self.now).relocations };

    /// The width in bytes of a relocation's field.
    fn width(&self, relocation: &InputRelocation) -> usize
        ensures { result ≡ (frames self.now).width relocation.now };

    fn target(&self, relocation: &InputRelocation) -> Target
        ensures { result ≡ (frames self.now).target relocation.now };
}

/// The size of a section in bytes.
pub(crate) fn byte_count<F: FrameSource>(frames: &F) -> usize
    ensures { result ≡ length (F.frames frames.now).bytes }
{
    frames.bytes().len()
}
