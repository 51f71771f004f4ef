//! What holds of a linked layout, whatever changes were made.
ghost use Rattle.wild_types.specs.ResolvedFlags.{HaveTheirFlags};
ghost use Rattle.wild_change.specs.declared.change.Change.{Change};
ghost use Rattle.wild_change.specs.Change.{changed_layout};
ghost use Rattle.wild_meaning.specs.LinkedImage.{IsSound};

use crate::linked::Linked;
use wild_laws::images_are_sound;
use wild_layout::numbers_fit;

/// The image of a linked layout is sound, after any changes, if the resolutions of the layout have their symbols' flags. A change
/// keeps these.
pub fn linked_images_are_sound(linked: &Linked)
    ensures sound { HaveTheirFlags linked.now.layout → IsSound linked.now.layout linked.now.out }
    ensures flags { (c : Change) → HaveTheirFlags linked.now.layout → HaveTheirFlags (changed_layout linked.now.layout c) }
{
    numbers_fit(&linked.image.layout);
    images_are_sound();
}
