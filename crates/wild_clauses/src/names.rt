//! Clause 19: names.
ghost use Rattle.std.specs.Prelude.{◌≡◌};
ghost use Rattle.wild_plan_rules.specs.ZeroFree.{name_fits, optional_name_fits, section_name_fits, symbol_name_fits, input_name_fits, version_name_fits, file_names_fit, group_names_fit, listed_name_fits, definition_name_fits, ends_with_zero, interp_fits};
ghost use Rattle.wild_plan_rules.specs.ClauseTests.{check_names};
ghost use Rattle.wild_clauses.specs.FileTests.{library_names_fit, groups_pass};

use crate::survey::failing;
use crate::verdict::{fails, unless};
use wild_types::{
    Clause, DynamicSymbol, File, Group, InputSection, Layout, NeededVersion, Section, Symbol, Test,
    VersionDefinition, all_pass, first_failing,
};
use wild_words::Bytes;

/// Whether a name has no zero byte (gABI, "String Table"). Most names of sections and of libraries are empty.
#[tactic(auto, using(wild_types::proofs::ListLemmas::not_any))]
fn name_fits(name: &[u8]) -> bool
    ensures { result ≡ name_fits name.now }
{
    match name {
        [] => true,
        _ => !name.contains(&0),
    }
}

/// The same for an optional name.
fn optional_name_fits(name: &Option<Bytes>) -> bool
    ensures { result ≡ optional_name_fits name.now }
{
    match name {
        Some(name) => name_fits(name.as_slice()),
        None => true,
    }
}

/// The names of an item have no zero byte.
pub(crate) struct NamesFit;

impl NamesFit {
    /// Whether the file's name as a library has none, and neither have those of the versions needed from it.
    pub(crate) fn library_names_fit(&self, file: &File) -> bool
        ensures { result ≡ library_names_fit file.now }
    {
        name_fits(file.lib_name.as_slice())
            && match &file.verneed {
                Some(needs) => all_pass(self, needs.versions.as_slice()),
                None => true,
            }
    }
}

impl Test<Bytes> for NamesFit {
    ghost test = { λ t. name_fits };

    fn passes(&self, name: &Bytes) -> bool {
        name_fits(name.as_slice())
    }
}

impl Test<Section> for NamesFit {
    ghost test = { λ t. section_name_fits };

    fn passes(&self, section: &Section) -> bool {
        name_fits(section.name.as_slice())
    }
}

impl Test<Symbol> for NamesFit {
    ghost test = { λ t. symbol_name_fits };

    fn passes(&self, symbol: &Symbol) -> bool {
        name_fits(symbol.name.as_slice())
    }
}

impl Test<InputSection> for NamesFit {
    ghost test = { λ t. input_name_fits };

    fn passes(&self, section: &InputSection) -> bool {
        name_fits(section.name.as_slice())
    }
}

impl Test<NeededVersion> for NamesFit {
    ghost test = { λ t. version_name_fits };

    fn passes(&self, version: &NeededVersion) -> bool {
        name_fits(version.name.as_slice())
    }
}

impl Test<File> for NamesFit {
    ghost test = { λ t. file_names_fit };

    fn passes(&self, file: &File) -> bool {
        all_pass(self, file.sections.as_slice()) && self.library_names_fit(file)
    }
}

impl Test<Group> for NamesFit {
    ghost test = { λ t. group_names_fit };

    fn passes(&self, group: &Group) -> bool {
        all_pass(self, group.files.as_slice())
    }
}

impl Test<DynamicSymbol> for NamesFit {
    ghost test = { λ t. listed_name_fits };

    fn passes(&self, listed: &DynamicSymbol) -> bool {
        name_fits(listed.name.as_slice())
    }
}

impl Test<VersionDefinition> for NamesFit {
    ghost test = { λ t. definition_name_fits };

    fn passes(&self, definition: &VersionDefinition) -> bool {
        name_fits(definition.name.as_slice())
    }
}

/// Whether the first zero byte of a path is its last byte.
fn ends_with_zero(path: &[u8]) -> bool
    ensures { result ≡ ends_with_zero path.now }
{
    for (i, byte) in path.iter().enumerate() {
        if *byte == 0 {
            return i + 1 == path.len();
        }
    }
    false
}

/// Whether the path of the interpreter, if there is one, ends with its only zero byte (gABI, "Program Header": PT_INTERP).
fn interp_fits(path: &[u8]) -> bool
    ensures { result ≡ interp_fits path.now }
{
    path.is_empty() || ends_with_zero(path)
}

#[tactic(auto, using(crate::proofs::PassedLemmas::names_pass), unfolding(wild_plan_rules::specs::ClauseTests::check_names))]
pub(crate) fn check_names(layout: &Layout, tests_pass: bool) -> Result<(), Clause>
    requires tests_pass { tests_pass ≡ groups_pass layout.now }
    ensures { result ≡ check_names layout.now }
{
    let options = &layout.options;
    let given_fit = optional_name_fits(&options.rpath) && optional_name_fits(&options.soname);
    fails(19, unless(given_fit))?;
    fails(19, first_failing(&NamesFit, options.auxiliary.as_slice()))?;
    fails(19, first_failing(&NamesFit, layout.sections.as_slice()))?;
    fails(19, first_failing(&NamesFit, layout.symbols.as_slice()))?;
    fails(19, failing(tests_pass, &NamesFit, layout.groups.as_slice()))?;
    fails(19, first_failing(&NamesFit, layout.dynsyms.as_slice()))?;
    fails(19, first_failing(&NamesFit, layout.verdefs.as_slice()))?;
    fails(19, unless(interp_fits(layout.interp.as_slice())))
}
