//! The size of an image.
ghost use Rattle.std.specs.Prelude.{◌≡◌, ◌+◌, drop};
ghost use Rattle.wild_types.specs.Lookups.{file_end, parts_end, sections_end, image_size};

use crate::layout::Layout;
use crate::part::Part;
use crate::section::Section;

/// All items but the first.
pub fn all_but_first<T>(items: &[T]) -> &[T]
    ensures { result.now ≡ drop 1 items.now }
{
    match items {
        [] => &[],
        [_, rest @ ..] => rest,
    }
}

/// The sum, in 128 bits: it may be 2^64 or more.
pub fn wide_sum(left: u64, right: u64) -> u128
    ensures { result ≡ left + right }
{
    u128::from(left) + u128::from(right)
}

fn file_end(takes: bool, offset: u64, size: u64) -> u128
    ensures { result ≡ file_end takes offset size }
{
    if takes && size != 0 {
        wide_sum(offset, size)
    } else {
        0
    }
}

fn parts_end(layout: &Layout, parts: &[Part]) -> u128
    ensures { result ≡ parts_end layout.now parts.now }
{
    let mut end = 0;
    for part in parts {
        let takes = layout.takes_file_bytes(part.section);
        end = end.max(file_end(takes, part.offset, part.size));
    }
    end
}

fn sections_end(layout: &Layout, sections: &[Section]) -> u128
    ensures { result ≡ sections_end layout.now sections.now }
{
    let mut end = 0;
    for section in sections {
        let takes = layout.fills_file(section);
        end = end.max(file_end(takes, section.offset, section.size));
    }
    end
}

impl Layout {
    /// The greatest end of a file range of a part or a section.
    #[tactic(auto, unfolding(crate::specs::Lookups::image_size))]
    pub fn image_end(&self) -> u128
        ensures { result ≡ image_size self.now }
    {
        let parts = parts_end(self, self.parts.as_slice());
        let sections = sections_end(self, all_but_first(self.sections.as_slice()));
        parts.max(sections)
    }
}
