//! What placed memories have.
ghost use Rattle.wild_placer.specs.Laws.{PlacementsAreSound, PlacedRunsAreSeparate, PlainLayoutsAreLoaded};

use wild_geometry::layouts_are_laid_out;
use wild_laws::images_are_sound;
use wild_loaded::headers_are_present;
use wild_records::{file_header_is_read, program_header_is_read, section_header_is_read};

/// The memory of a layout in a legal world is as the output requires: each reference of a kept item holds, with the exceptions of a
/// loaded image.
pub fn placements_are_sound()
    ensures { PlacementsAreSound }
{
    images_are_sound();
}

/// No two runs of a placed memory share an address.
pub fn placed_runs_are_separate()
    ensures { PlacedRunsAreSeparate }
{}

/// The memory of a layout without a dynamic section is that of its segments, with its relocation sections applied.
pub fn plain_layouts_are_loaded()
    ensures { PlainLayoutsAreLoaded }
{
    layouts_are_laid_out();
    headers_are_present();
    file_header_is_read();
    program_header_is_read();
    section_header_is_read();
}
