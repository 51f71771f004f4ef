//! Merged strings: which section symbols refer to them, and where a byte of their input section is in the output (gABI, "Section
//! Header": SHF_MERGE, SHF_STRINGS).
ghost use Rattle.std.specs.Prelude.{◌≡◌, Bool, true, option_map, option_copied};
ghost use Rattle.wild_types.specs.declared.file.File.{File};
ghost use Rattle.wild_types.specs.declared.file.Group.{Group};
ghost use Rattle.wild_types.specs.declared.input.InputSection.{InputSection};
ghost use Rattle.wild_layout.specs.Merged.{is_section_symbol, is_plain_own, strings_in, string_before, string_place};
ghost use Rattle.wild_sections.specs.Strings.{offsets_ascend, section_ascends, last_string_up_to};
ghost use Rattle.wild_plan_rules.specs.MergedSections.{is_unmerged};

use wild_records::abi::symbol::STT_SECTION;
use wild_types::{
    File, Group, InputSection, MergedString, Place, Slot, Symbol, Test, ValueFlags, all_pass,
};

/// A test of input sections: the section does not consist of merged strings.
pub(crate) struct IsUnmerged;

impl Test<InputSection> for IsUnmerged {
    ghost test = { λ t. is_unmerged };

    fn passes(&self, section: &InputSection) -> bool {
        !matches!(section.slot, Slot::Merge)
    }
}

impl Test<File> for IsUnmerged {
    ghost use Rattle.std.specs.List.{list_all};

    ghost test = { λ t (f : File). list_all is_unmerged f.sections };

    fn passes(&self, file: &File) -> bool {
        all_pass(self, file.sections.as_slice())
    }
}

impl Test<Group> for IsUnmerged {
    ghost use Rattle.std.specs.List.{list_all};

    ghost test = { λ t (g : Group). list_all (λ (f : File). list_all is_unmerged f.sections) g.files };

    fn passes(&self, group: &Group) -> bool {
        all_pass(self, group.files.as_slice())
    }
}

/// A test of input sections: the section's strings are sorted by offset.
pub(crate) struct StringsAscend;

/// Whether strings are sorted by offset.
fn offsets_ascend(strings: &[MergedString]) -> bool
    ensures { result ≡ offsets_ascend 0 strings.now }
{
    let mut reach = 0;
    for string in strings {
        if string.offset < reach {
            return false;
        }
        reach = string.offset;
    }
    true
}

impl Test<InputSection> for StringsAscend {
    ghost test = { λ t. section_ascends };

    fn passes(&self, section: &InputSection) -> bool {
        offsets_ascend(section.strings.as_slice())
    }
}

impl Test<File> for StringsAscend {
    ghost use Rattle.std.specs.List.{list_all};

    ghost test = { λ t (f : File). list_all section_ascends f.sections };

    fn passes(&self, file: &File) -> bool {
        all_pass(self, file.sections.as_slice())
    }
}

impl Test<Group> for StringsAscend {
    ghost use Rattle.std.specs.List.{list_all};

    ghost test = { λ t (g : Group). list_all (λ (f : File). list_all section_ascends f.sections) g.files };

    fn passes(&self, group: &Group) -> bool {
        all_pass(self, group.files.as_slice())
    }
}

/// Whether a symbol's value is defined by the output and moves with the load bias.
pub(crate) fn is_plain_own(flags: ValueFlags) -> bool
    ensures { result ≡ is_plain_own flags }
{
    !flags.is_interposable()
        && !flags.is_dynamic()
        && !flags.is_absolute()
        && !flags.is_ifunc()
        && !flags.is_undefined_weak()
}

/// Whether the symbol is a section symbol (STT_SECTION).
pub(crate) fn is_section_symbol(symbol: &Symbol) -> bool
    ensures { result ≡ is_section_symbol symbol.now }
{
    symbol.info % 16 == STT_SECTION
}

/// The merged section of a file, if the symbol, one of the file's, is its section symbol.
pub(crate) fn merged_section<'f>(file: &'f File, symbol: &Symbol) -> Option<&'f InputSection>
    ensures { option_map (λ (s : InputSection). s.strings) (option_copied result) ≡ strings_in file.now symbol.now }
{
    if !is_section_symbol(symbol) {
        return None;
    }
    let Place::Section(index) = symbol.place else {
        return None;
    };
    match file.sections.as_slice().get(index) {
        Some(section) if matches!(section.slot, Slot::Merge) => Some(section),
        _ => None,
    }
}

/// The string if it begins at `byte` or before it, otherwise the previous one.
fn last_string_up_to(
    last: Option<MergedString>,
    string: MergedString,
    byte: u64,
) -> Option<MergedString>
    ensures { result ≡ last_string_up_to last string byte }
{
    if string.offset <= byte {
        Some(string)
    } else {
        last
    }
}

/// The last of the strings that begins at `byte` or before it. Time n.
fn find_by_walk(strings: &[MergedString], byte: u64) -> Option<MergedString>
    ensures { result ≡ string_before strings.now byte }
{
    let mut last = None;
    for string in strings {
        last = last_string_up_to(last, *string, byte);
    }
    last
}

/// The last of the strings, which are sorted by offset, that begins at `byte` or before it. Time log n.
fn find_by_halving(strings: &[MergedString], byte: u64) -> Option<MergedString>
    requires { offsets_ascend 0 strings.now ≡ true }
    ensures { result ≡ string_before strings.now byte }
{
    let count = strings.partition_point(|s| s.offset <= byte);
    if count == 0 {
        return None;
    }
    Some(strings[count - 1])
}

/// The address of a byte of a merged input section: its distance from the start of its string is kept. Its string is the last one that
/// begins at the byte or before it.
pub(crate) fn string_place(strings: &[MergedString], ascends: bool, byte: u64) -> Option<u64>
    requires { ascends ≡ true → offsets_ascend 0 strings.now ≡ true }
    ensures { result ≡ string_place strings.now byte }
{
    let string = if ascends {
        find_by_halving(strings, byte)
    } else {
        find_by_walk(strings, byte)
    };
    match string {
        Some(string) => Some(
            string
                .address
                .wrapping_add(byte.saturating_sub(string.offset)),
        ),
        None => None,
    }
}
