//! The images of a name space are linked: the world of each is legal for its layout.
#![tactic(auto)]

ghost use Rattle.wild_bound.specs.Legal.{BoundImagesAreLinked, BoundWorldsAreLegal};
ghost use Rattle.wild_bound.specs.SelfBinding.{FirstSymbolsAreBound, IndexesAreInRange, VisibleSymbolsAreBound};
ghost use Rattle.wild_bound.specs.Values.{BoundValuesAreDefinitions};
ghost use Rattle.wild_bound.specs.Worked.{ConditionsAreMet};

use wild_geometry::layouts_are_laid_out;
use wild_hashes::{gnu_look_up_finds_the_first, neighbours_ascend, sysv_look_up_finds_the_first};
use wild_laws::images_are_sound;
use wild_names::dynamic_symbols_are_read;
use wild_records::gnu_hash_header_is_read;
use wild_space::{binds_are_first, spaces_are_made};

mod numbers;

pub use numbers::{symbol_numbers_fit, world_numbers_fit};

/// The world of each image of a space is legal for the layout of that image, if its own symbols are bound to themselves and the other
/// conditions hold.
pub fn bound_worlds_are_legal()
    ensures { BoundWorldsAreLegal }
{
    binds_are_first();
    spaces_are_made();
    layouts_are_laid_out();
    dynamic_symbols_are_read();
}

/// Each image of a space is linked in its world, under the same conditions. Its memory is the one that the space has for it.
pub fn bound_images_are_linked()
    ensures { BoundImagesAreLinked }
{
    spaces_are_made();
    bound_worlds_are_legal();
    images_are_sound();
}

/// An exported symbol is bound to itself if its visibility is not the default. So is one of the first image that is the first with its
/// name there, if that image has a hash table.
pub fn exported_symbols_are_bound()
    ensures visible { VisibleSymbolsAreBound }
    ensures first { FirstSymbolsAreBound }
{
    layouts_are_laid_out();
    dynamic_symbols_are_read();
    gnu_look_up_finds_the_first();
    sysv_look_up_finds_the_first();
    neighbours_ascend();
}

/// In an image with a hash table each index in the dynamic symbol table is below the number of symbols that is read of the image.
pub fn indexes_are_in_range()
    ensures { IndexesAreInRange }
{
    layouts_are_laid_out();
    dynamic_symbols_are_read();
    gnu_hash_header_is_read();
    neighbours_ascend();
}

/// In the world of an image of a space, the value of a symbol that another module may define is the address of its definition: the
/// first of its name in the order, at the base of that image.
pub fn bound_values_are_definitions()
    ensures { BoundValuesAreDefinitions }
{
    binds_are_first();
    spaces_are_made();
    layouts_are_laid_out();
}

/// The conditions can be met: a program and a library are bound to each other, and each is the image of a layout for which they hold.
/// The function that the program calls is the library's.
pub fn conditions_are_met()
    ensures { ConditionsAreMet }
{}
