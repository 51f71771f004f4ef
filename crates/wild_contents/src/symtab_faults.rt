//! Checks that the entries of `.symtab` can be computed (gABI, "Symbol Table").
ghost use Rattle.std.specs.Prelude.{◌≡◌};
ghost use Rattle.wild_types.specs.Faults.{Answers};
ghost use Rattle.wild_layout.specs.Faults.{flat_map_from, table_errors};

use crate::symtab::fields_of;
use std::marker::Model;
use wild_needs::{SymtabName, TableSink, give_table};
use wild_relax::Arch;
use wild_sections::{InputPlace, Resolved};
use wild_types::{Error, File, Symbol};

/// The sink that checks the entries of a file's symbols.
#[derive(Drop)]
struct SymtabCheck<'r, 'l, 'f, A: Arch> {
    resolved: &'r Resolved<'l, A>,
    file: &'f File,
    place: InputPlace,
}

impl<'r, 'l, 'f, A: Arch> Model for SymtabCheck<'r, 'l, 'f, A> {
    ghost use Rattle.wild_layout.specs.Faults.{at_file};
    ghost use Rattle.wild_contents.specs.Walks.{SymtabCheckState};

    ghost Value = { SymtabCheckState };

    ghost view = { λ w. record { layout = w.resolved.now.layout.now; file = w.file.now; at = at_file w.place.group w.place.file } };
}

impl<'r, 'l, 'f, A: Arch> TableSink for SymtabCheck<'r, 'l, 'f, A> {
    ghost use Rattle.wild_contents.specs.Walks.{Passes, Lacks};

    type Error = Error;

    ghost goes = { Passes };

    ghost refuses = { Lacks };

    #[inline(always)]
    #[tactic(auto, using(crate::proofs::SymtabFaultLemmas::looks), unfolding(wild_table_formats::specs::TableEntries::table_fields))]
    fn take(&mut self, named: SymtabName, index: usize, symbol: &Symbol) -> Result<(), Error> {
        match fields_of(self.resolved, self.file, named, index, symbol) {
            Ok(_) => Ok(()),
            Err(fault) => Err(Error {
                fault,
                at: self.place.file(),
            }),
        }
    }
}

/// Checks the entries of a file in `.symtab`.
#[tactic(auto, using(crate::proofs::SymtabFaultLemmas::looked), unfolding(wild_layout::specs::Faults::table_errors))]
fn check_file<A: Arch>(resolved: &Resolved<A>, place: InputPlace, file: &File) -> Result<(), Error>
    ensures { Answers result (table_errors resolved.now.layout.now place.group place.file file.now) }
{
    let mut look = SymtabCheck {
        resolved,
        file,
        place,
    };
    give_table(resolved.layout, file, &mut look)
}

/// Checks the entries of files in `.symtab`; returns the first fault in their order.
#[tactic(auto, using(wild_sections::proofs::FaultLemmas::first_from))]
fn check_files<A: Arch>(resolved: &Resolved<A>, group: usize, files: &[File]) -> Result<(), Error>
    ensures { Answers result (flat_map_from (table_errors resolved.now.layout.now group) 0 files.now) }
{
    for (i, file) in files.iter().enumerate() {
        let place = InputPlace {
            group,
            file: i,
            section: 0,
        };
        check_file(resolved, place, file)?;
    }
    Ok(())
}

/// Checks the entries of files in `.symtab`, if the output has one.
#[tactic(auto, using(crate::proofs::SymtabFaultLemmas::no_table))]
pub(crate) fn check_table<A: Arch>(
    resolved: &Resolved<A>,
    group: usize,
    files: &[File],
) -> Result<(), Error>
    ensures { Answers result (flat_map_from (table_errors resolved.now.layout.now group) 0 files.now) }
{
    if resolved.layout.has_symtab() {
        check_files(resolved, group, files)
    } else {
        Ok(())
    }
}
