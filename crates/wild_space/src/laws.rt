//! What follows from the definitions.
ghost use Rattle.wild_space.specs.OrderLaws.{OrdersAreBreadthFirst, OrdersAreShort, OrdersAreReached, MissingIsMissing};
ghost use Rattle.wild_space.specs.BindLaws.{FirstIsFirst, NoneIsNone, BindsAreFirst, UndefinedIsUndefined};
ghost use Rattle.wild_space.specs.BoundLaws.{SpacesAreMade, DefinitionsAreOne, SpacesOverlapNowhere};
ghost use Rattle.wild_space.specs.Counts.{LeastIsLeast, NoneIsInOne};

/// An order is image 0 and what all images of the order need, each only where it occurs first. No image is in it twice, and each but
/// the first is needed by an image before it. A name that is reported as missing is in that entry, and no image has it.
pub fn orders_are_breadth_first()
    ensures order { OrdersAreBreadthFirst }
    ensures short { OrdersAreShort }
    ensures reached { OrdersAreReached }
    ensures missing { MissingIsMissing }
{}

/// A symbol that is not bound to itself gets the first definition of its name in the order, and no image before that has one. A
/// symbol that is reported as undefined has no definition in any image, and is not weak.
pub fn binds_are_first()
    ensures first { FirstIsFirst }
    ensures none { NoneIsNone }
    ensures binds { BindsAreFirst }
    ensures undefined { UndefinedIsUndefined }
{}

/// An address that is reported as shared is in two images, and no lower one is. If none is reported, each address is in at most one
/// image.
pub fn least_overlaps_are_least()
    ensures least { LeastIsLeast }
    ensures none { NoneIsInOne }
{}

/// What binding makes of each image of a space: its binds and answers by their definitions, its world, and its memory, which is the
/// loader's in that world.
pub fn spaces_are_made()
    ensures { SpacesAreMade }
{}

/// Images of a space that are bound to one definition have one answer for it, but for its bytes.
pub fn definitions_are_one()
    ensures { DefinitionsAreOne }
{}

/// No address is in two images of a space.
pub fn spaces_overlap_nowhere()
    ensures { SpacesOverlapNowhere }
{}
