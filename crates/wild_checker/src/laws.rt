//! Laws of the checker.
ghost use Rattle.wild_checker.specs.Outline.{WorldsAreOutlined};
ghost use Rattle.wild_checker.specs.Verdict.{YesIsFounded};

use wild_loader::{stubs_are_read, stubs_of_words_are_read};
use wild_references::plain_items_are_read;
use wild_relax::{aarch64_code_reaches, stubs_jump_to_their_slots};
use wild_reloc::widths_of_fields;
use wild_terms::terms_are_loaded;

/// A legal world of a layout is one of its outline.
pub fn worlds_are_outlined()
    ensures { WorldsAreOutlined }
{}

/// After Yes the image holds in every legal world.
pub fn yes_is_founded()
    ensures { YesIsFounded }
{
    terms_are_loaded();
    worlds_are_outlined();
    plain_items_are_read();
    widths_of_fields();
    stubs_are_read();
    stubs_of_words_are_read();
    stubs_jump_to_their_slots();
    aarch64_code_reaches();
}
