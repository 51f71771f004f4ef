//! The place of an input section, for error messages.
ghost use Rattle.std.specs.Prelude.{◌≡◌};
ghost use Rattle.wild_layout.specs.Faults.{at_file, at_offset, at_section};

use wild_types::At;

/// An input section: the number of its group, the index of its file in the group, and its index in the file.
#[derive(Clone, Copy)]
pub struct InputPlace {
    pub group: usize,
    pub file: usize,
    pub section: usize,
}

impl InputPlace {
    /// The place of the section's file, for a message that names no section.
    pub fn file(self) -> At
        ensures { result ≡ at_file self.group self.file }
    {
        At {
            group: Some(self.group),
            file: Some(self.file),
            section: None,
            offset: None,
        }
    }

    /// The place of the section, for a message that names no offset.
    pub fn section(self) -> At
        ensures { result ≡ at_section self.group self.file self.section }
    {
        At {
            section: Some(self.section),
            ..self.file()
        }
    }

    /// The place of an offset in the section.
    pub fn offset(self, offset: u64) -> At
        ensures { result ≡ at_offset self.group self.file self.section offset }
    {
        At {
            offset: Some(offset),
            ..self.section()
        }
    }
}
