//! The first input section of a layout that a question has an answer for.
ghost use Rattle.std.specs.Prelude.{◌≡◌};
ghost use Rattle.wild_checker.specs.Search.{in_sections, in_files, in_groups};

use wild_types::{File, Group, InputSection};

/// A place in an input section, by its position in the layout.
#[derive(Clone, Copy, PartialEq, Eq)]
pub struct Site {
    pub group: usize,
    pub file: usize,
    pub section: usize,
    /// The offset of a byte, or the position of a relocation.
    pub index: usize,
}

/// A question about an input section of a file; the answer is a number.
pub(crate) trait Question {
    ghost use Rattle.std.specs.Prelude.{◌≡◌, ℕ, Option};
    ghost use Rattle.wild_types.specs.declared.file.File.{File};
    ghost use Rattle.wild_types.specs.declared.input.InputSection.{InputSection};

    ghost asks: { Self → File → InputSection → Option ℕ };

    fn ask(&self, file: &File, section: &InputSection) -> Option<usize>
        ensures { result ≡ asks self.now file.now section.now };
}

/// The first answer among the sections of a file.
fn ask_sections<Q: Question>(
    question: &Q,
    group: usize,
    position: usize,
    file: &File,
) -> Option<Site>
    ensures { result ≡ in_sections (Q.asks question.now file.now) group position 0 file.now.sections }
{
    for (n, section) in file.sections.as_slice().iter().enumerate() {
        if let Some(index) = question.ask(file, section) {
            return Some(Site {
                group,
                file: position,
                section: n,
                index,
            });
        }
    }
    None
}

/// The first answer among the sections of the files of a group.
fn ask_files<Q: Question>(question: &Q, group: usize, files: &[File]) -> Option<Site>
    ensures { result ≡ in_files (Q.asks question.now) group 0 files.now }
{
    for (n, file) in files.iter().enumerate() {
        if let Some(site) = ask_sections(question, group, n, file) {
            return Some(site);
        }
    }
    None
}

/// The first answer among the sections of the files of groups.
pub(crate) fn ask_groups<Q: Question>(question: &Q, groups: &[Group]) -> Option<Site>
    ensures { result ≡ in_groups (Q.asks question.now) 0 groups.now }
{
    for (n, group) in groups.iter().enumerate() {
        if let Some(site) = ask_files(question, n, group.files.as_slice()) {
            return Some(site);
        }
    }
    None
}
