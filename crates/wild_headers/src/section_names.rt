//! The names of the sections (gABI, "String Table").
ghost use Rattle.std.specs.Prelude.{◌≡◌, ◌+◌, ◌≤◌, [], ◌∷◌, ◌++◌, length};
ghost use Rattle.wild_words.specs.Words.{place};
ghost use Rattle.wild_needs.specs.Needs.{name_bytes};
ghost use Rattle.wild_table_formats.specs.Headers.{names_of};

use wild_types::{Layout, Section};
use wild_words::{put, put_u8};

/// Writes the name of a section and the zero that ends it.
#[tactic(auto, using(wild_table_formats::proofs::HeaderLemmas::place_word_behind))]
fn put_name(section: &Section, at: usize, out: &mut [u8])
    requires { at + (length section.now.name + 1) ≤ length out.old }
    ensures { out.new ≡ place at (section.now.name ++ 0 ∷ []) out.old }
{
    put(out, at, section.name.as_slice());
    put_u8(out, at + section.name.len(), 0);
}

/// Writes the section names (`.shstrtab`). `out` has exactly their length.
pub fn write_section_names(layout: &Layout, out: &mut [u8])
    requires room { length out.old ≡ name_bytes layout.now }
    ensures { out.new ≡ names_of layout.now }
{
    let mut at = 0;
    for section in layout.sections.as_slice() {
        put_name(section, at, out);
        at += section.name.len() + 1;
    }
}
