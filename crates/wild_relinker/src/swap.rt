//! Exchanges the contents of an input section with those of a change.
ghost use Rattle.std.specs.Prelude.{◌≡◌, true, is_some, Some};
ghost use Rattle.wild_types.specs.declared.input.InputSection.{InputSection};
ghost use Rattle.wild_change.specs.Change.{section_in_file, section_in_group, changed_section, changed_file, changed_group, changed_layout};
ghost use Rattle.wild_relinker.specs.Find.{section_at, with_contents_of};

use std::alloc::Global;
use std::mem::{replace, swap};
use wild_change::Change;
use wild_types::{File, Group, InputSection, Layout};
use wild_words::Items;

/// Exchanges the contents of a section with those of a change.
fn swap_section(section: &mut InputSection, change: &mut Change)
    ensures section { section.new ≡ changed_section change.old section.old }
    ensures change { change.new ≡ with_contents_of section.old change.old }
{
    swap(&mut section.bytes, &mut change.bytes);
    swap(&mut section.relocations, &mut change.relocations);
}

/// The same for the section of a file that the change names.
fn swap_in_file(alloc: Global, file: &mut File, change: &mut Change)
    requires { is_some (section_in_file change.old file.old) ≡ true }
    ensures file { file.new ≡ changed_file change.old file.old }
    ensures change { (s : InputSection) → section_in_file change.old file.old ≡ Some s → change.new ≡ with_contents_of s change.old }
{
    let mut sections = replace(&mut file.sections, Items::new(alloc)).into_vec();
    let index = change.section;
    swap_section(&mut sections[index], change);
    file.sections = Items::from_vec(sections);
}

/// The same for the section of a group that the change names.
fn swap_in_group(alloc: Global, group: &mut Group, change: &mut Change)
    requires { is_some (section_in_group change.old group.old) ≡ true }
    ensures group { group.new ≡ changed_group change.old group.old }
    ensures change { (s : InputSection) → section_in_group change.old group.old ≡ Some s → change.new ≡ with_contents_of s change.old }
{
    let mut files = replace(&mut group.files, Items::new(alloc)).into_vec();
    let index = change.file;
    swap_in_file(alloc, &mut files[index], change);
    group.files = Items::from_vec(files);
}

/// Exchanges the contents of the section that a change names with those of the change. It takes no memory.
pub(crate) fn swap_contents(alloc: Global, layout: &mut Layout, change: &mut Change)
    requires { is_some (section_at layout.old change.old) ≡ true }
    ensures layout { layout.new ≡ changed_layout layout.old change.old }
    ensures change { (s : InputSection) → section_at layout.old change.old ≡ Some s → change.new ≡ with_contents_of s change.old }
{
    let mut groups = replace(&mut layout.groups, Items::new(alloc)).into_vec();
    let index = change.group;
    swap_in_group(alloc, &mut groups[index], change);
    layout.groups = Items::from_vec(groups);
}
