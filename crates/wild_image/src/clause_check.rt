//! The clauses, and the symbol tables that are computed beside them.
ghost use Rattle.std.specs.Prelude.{◌≡◌, ◌≤◌, IfOk};
ghost use Rattle.wild_types.specs.Faults.{Answers};
ghost use Rattle.wild_plan_rules.specs.WellFormed.{first_clause};
ghost use Rattle.wild_clauses.specs.LayoutSurvey.{IsLayoutSurvey};
ghost use Rattle.wild_sections.specs.DefiningFiles.{layout_needs_owner_files};
ghost use Rattle.wild_sections.specs.SymbolTables.{HasSymbolTables};
ghost use Rattle.wild_layout.specs.Faults.{clause_errors};

use std::alloc::{AllocError, Global};
use std::thread::{Threads, join};
use wild_clauses::{LayoutSurvey, well_formed_with};
use wild_executor::{Alone, Executor, Threaded};
use wild_sections::SymbolTables;
use wild_types::{At, Error, Fault, Layout};

/// Refuses a layout if one of its clauses fails.
fn check_clauses(layout: &Layout, seen: LayoutSurvey) -> Result<(), Error>
    requires { IsLayoutSurvey layout.now seen }
    ensures { Answers result (clause_errors (first_clause layout.now)) }
{
    match well_formed_with(layout, seen) {
        Ok(()) => Ok(()),
        Err(clause) => Err(Error {
            fault: Fault::MalformedLayout {
                clause: clause.clause,
                index: clause.index,
            },
            at: At::NO_PLACE,
        }),
    }
}

/// Checks the clauses, then computes the symbol tables.
fn check_then_resolve(
    alloc: Global,
    layout: &Layout,
    seen: LayoutSurvey,
    needs_owner_files: bool,
) -> Result<SymbolTables, Error>
    requires survey { IsLayoutSurvey layout.now seen }
    requires needs_owner_files { needs_owner_files ≡ layout_needs_owner_files layout.now }
    ensures faults { Answers result (clause_errors (first_clause layout.now)) }
    ensures tables { IfOk result (λ t. HasSymbolTables layout.now t) }
{
    check_clauses(layout, seen)?;
    Ok(SymbolTables::with_survey(alloc, layout, needs_owner_files)?)
}

/// Checks the clauses in one thread, and computes the symbol tables in another.
fn check_while_resolving<R: Threads + Sync>(
    rt: &R,
    alloc: Global,
    layout: &Layout,
    seen: LayoutSurvey,
    needs_owner_files: bool,
) -> Result<SymbolTables, Error>
    requires survey { IsLayoutSurvey layout.now seen }
    requires needs_owner_files { needs_owner_files ≡ layout_needs_owner_files layout.now }
    ensures faults { Answers result (clause_errors (first_clause layout.now)) }
    ensures tables { IfOk result (λ t. HasSymbolTables layout.now t) }
{
    let check = move || -> Result<(), Error>
        requires { IsLayoutSurvey layout.now seen }
        ensures { Answers result (clause_errors (first_clause layout.entry.now)) }
    { check_clauses(layout, seen) };
    let resolve = move || -> Result<SymbolTables, AllocError>
        requires { needs_owner_files ≡ layout_needs_owner_files layout.now }
        ensures { IfOk result (λ t. HasSymbolTables layout.entry.now t) }
    { SymbolTables::with_survey(alloc, layout, needs_owner_files) };
    let (checked, symbols) = join(rt, check, resolve);
    checked?;
    Ok(symbols?)
}

/// An executor that checks the clauses of a layout and computes its symbol tables.
pub trait ClauseChecker: Executor {
    ghost use Rattle.std.specs.Prelude.{◌≡◌, ◌≤◌, IfOk};
    ghost use Rattle.wild_types.specs.Faults.{Answers};
    ghost use Rattle.wild_plan_rules.specs.WellFormed.{first_clause};
    ghost use Rattle.wild_clauses.specs.LayoutSurvey.{IsLayoutSurvey};
    ghost use Rattle.wild_sections.specs.DefiningFiles.{layout_needs_owner_files};
    ghost use Rattle.wild_sections.specs.SymbolTables.{HasSymbolTables};
    ghost use Rattle.wild_layout.specs.Faults.{clause_errors};

    /// The symbol tables of a layout whose clauses hold, or its first clause that fails. At most `workers` threads work.
    fn check_and_resolve(
        &self,
        alloc: Global,
        layout: &Layout,
        seen: LayoutSurvey,
        needs_owner_files: bool,
        workers: u8,
    ) -> Result<SymbolTables, Error>
        requires ready { Self.ready self.now }
        requires survey { IsLayoutSurvey layout.now seen }
        requires needs_owner_files { needs_owner_files ≡ layout_needs_owner_files layout.now }
        ensures faults { Answers result (clause_errors (first_clause layout.now)) }
        ensures tables { IfOk result (λ t. HasSymbolTables layout.now t) };
}

impl ClauseChecker for Alone {
    fn check_and_resolve(
        &self,
        alloc: Global,
        layout: &Layout,
        seen: LayoutSurvey,
        needs_owner_files: bool,
        _workers: u8,
    ) -> Result<SymbolTables, Error> {
        check_then_resolve(alloc, layout, seen, needs_owner_files)
    }
}

/// Tables of ranges that overlap would take more than linear time, so then the clauses are checked first.
impl<R: Threads + Sync> ClauseChecker for Threaded<'_, R> {
    fn check_and_resolve(
        &self,
        alloc: Global,
        layout: &Layout,
        seen: LayoutSurvey,
        needs_owner_files: bool,
        workers: u8,
    ) -> Result<SymbolTables, Error> {
        if workers < 2 || !seen.ranges_in_order {
            return check_then_resolve(alloc, layout, seen, needs_owner_files);
        }
        check_while_resolving(self.0, alloc, layout, seen, needs_owner_files)
    }
}
