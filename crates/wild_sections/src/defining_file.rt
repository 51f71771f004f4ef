//! Which file a symbol belongs to, for layouts with merged sections and for relocatable outputs.
ghost use Rattle.std.specs.Prelude.{◌≡◌, ℕ, ◌<◌, length, None, slice_index_or, option_copied};
ghost use Rattle.std.specs.Option.{option_or};
ghost use Rattle.wild_sections.specs.DefiningFiles.{defining_file_if, defining_file_in, defining_file_among, file_at};

use wild_types::{File, Group, Layout};

/// A file: the number of its group, and its index in the group.
#[derive(Clone, Copy)]
pub struct DefiningFile {
    pub group: usize,
    pub file: usize,
}

/// Records the file for each of its symbols that no earlier file has.
fn find_in_file(owner: DefiningFile, file: &File, owners: &mut [Option<DefiningFile>])
    ensures { (k : ℕ) → k < length owners.old → slice_index_or owners.new k None
        ≡ option_or (slice_index_or owners.old k None) (defining_file_if owner file.now k) }
{
    let first = file.first_symbol.0;
    let end = first.saturating_add(file.symbol_count).min(owners.len());
    for i in first..end {
        let noted = owners[i];
        owners[i] = noted.or(Some(owner));
    }
}

/// Sets each entry of `owners` (by symbol) that is None to the first file of a group whose range of symbols has the symbol.
fn find_in_files(group: usize, files: &[File], owners: &mut [Option<DefiningFile>])
    ensures { (k : ℕ) → k < length owners.old → slice_index_or owners.new k None
        ≡ option_or (slice_index_or owners.old k None) (defining_file_in group 0 files.now k) }
{
    for i in 0..files.len() {
        find_in_file(DefiningFile { group, file: i }, &files[i], owners);
    }
}

/// Sets each entry of `owners` (by symbol) that is None to the first file whose range of symbols has the symbol.
pub(crate) fn find_defining_files(groups: &[Group], owners: &mut [Option<DefiningFile>])
    ensures { (k : ℕ) → k < length owners.old → slice_index_or owners.new k None
        ≡ option_or (slice_index_or owners.old k None) (defining_file_among 0 groups.now k) }
{
    for i in 0..groups.len() {
        let group = &groups[i];
        find_in_files(i, group.files.as_slice(), owners);
    }
}

/// The file that `owner` names by its group and its place in it; None if there is no such group or file.
pub(crate) fn file_at(layout: &Layout, owner: DefiningFile) -> Option<&File>
    ensures { option_copied result ≡ file_at layout.now owner }
{
    let group = layout.groups.as_slice().get(owner.group)?;
    group.files.as_slice().get(owner.file)
}
