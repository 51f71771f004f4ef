//! Properties of a layout that clauses and the writer of its image need, computed once.
ghost use Rattle.wild_clauses.specs.LayoutSurvey.{IsLayoutSurvey};

use crate::survey::survey_groups;
use crate::symbol_indexes::all_ranges_lie;
use wild_needs::inner_groups_need_no_tables;
use wild_types::Layout;

/// Properties of a layout that its clauses and the writer of its image need, computed once.
#[derive(Clone, Copy)]
pub struct LayoutSurvey {
    /// Whether the groups between the first and the last contribute to no table.
    pub inner_groups_need_no_tables: bool,
    /// Whether no section has merged strings.
    pub unmerged: bool,
    /// Whether the files' ranges of symbols are within the list of symbols and ascend.
    pub ranges_in_order: bool,
    pub(crate) tests_pass: bool,
    pub(crate) has_no_copies_versions_or_sorting: bool,
    /// The number of relocations, at most 2^64 - 1.
    pub relocations: u64,
}

impl LayoutSurvey {
    /// Computes them in one pass over the groups. It takes no memory.
    pub fn of(layout: &Layout) -> Self
        ensures { IsLayoutSurvey layout.now result }
    {
        let survey = survey_groups(layout);
        LayoutSurvey {
            inner_groups_need_no_tables: inner_groups_need_no_tables(layout),
            unmerged: survey.unmerged,
            ranges_in_order: all_ranges_lie(layout.symbols.len(), layout.groups.as_slice()),
            tests_pass: survey.tests_pass,
            has_no_copies_versions_or_sorting: survey.has_no_copies_versions_or_sorting,
            relocations: survey.relocations,
        }
    }
}
