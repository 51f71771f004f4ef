//! The work of writing an image, divided into batches of groups.
ghost use Rattle.std.specs.Prelude.{◌≡◌, ◌<◌, ◌^◌, length, Ok, []};
ghost use Rattle.wild_plan_rules.specs.WellFormed.{first_clause};
ghost use Rattle.wild_layout.specs.Faults.{flat_map_from, part_errors};
ghost use Rattle.wild_image.specs.Batches.{AreBatches};
ghost use Rattle.wild_image.specs.LayoutFacts.{AreFactsOf};
ghost use Rattle.wild_image.specs.Placed.{HasTableOrFault};

use crate::batch::Batch;
use crate::buffer::{GroupBytes, bytes_of_batch};
use crate::layout_facts::LayoutFacts;
use crate::relocation_counts::relocation_counts_of_groups;
use std::alloc::AllocError;
use wild_contents::SearchTable;
use wild_crew::{Counted, Job};
use wild_debug::{DebugWriter, Workers};
use wild_geometry::layouts_are_laid_out;
use wild_relax::Arch;
use wild_sections::Resolved;
use wild_types::Error;

/// The result of a batch: all its bytes or its first fault, and its relocation counts.
#[derive(Drop)]
pub struct Outcome {
    pub(crate) bytes: Result<GroupBytes, Error>,
    pub(crate) counts: Vec<(u32, u64)>,
}

impl Counted for Outcome {
    ghost listed = { λ o. o.counts.items };

    fn counts(&self) -> &[(u32, u64)] {
        self.counts.as_slice()
    }
}

/// The batches of a layout whose clauses hold and whose shares are correct.
#[derive(Drop)]
pub struct GroupJob<'r, 'a, 'l, 'b, 't, A: Arch, E> {
    pub(crate) by: Workers<'r, E>,
    pub(crate) resolved: &'a Resolved<'l, A>,
    pub(crate) batches: &'b [Batch<'b>],
    pub(crate) facts: LayoutFacts,
    pub(crate) table: &'t SearchTable,
    ghost clauses: { first_clause resolved.now.layout.now ≡ Ok tt },
    ghost shares: { flat_map_from (part_errors resolved.now.layout.now) 0 resolved.now.layout.now.parts ≡ [] },
    ghost batches_are: { AreBatches resolved.now.layout.now.groups batches.now },
    ghost few: { length batches.now < 2 ^ 32 },
    ghost facts_are: { AreFactsOf resolved.now.layout.now facts },
    ghost table_is: { HasTableOrFault resolved.now.layout.now table.now },
}

impl<'r, 'a, 'l, 'b, 't, A: Arch, E: DebugWriter<A>> Job<Outcome>
    for GroupJob<'r, 'a, 'l, 'b, 't, A, E> {
    ghost use Rattle.std.specs.Prelude.{length};
    ghost use Rattle.wild_image.specs.Batches.{GivesBatch, pairs_at};

    ghost number = { λ j. length j.batches.now };

    ghost gives = { λ j i o. GivesBatch j.resolved.now.layout.now j.batches.now i o.bytes };

    ghost counts_of = { λ j i. pairs_at j.resolved.now.layout.now j.batches.now i };

    ghost ready = { λ j. E.ready j.by.executor.now };

    fn groups(&self) -> u32 {
        self.batches.len() as u32
    }

    fn run(&self, group: u32) -> Result<Outcome, AllocError> {
        layouts_are_laid_out();
        let batch = &self.batches[group as usize];
        let counts = relocation_counts_of_groups(
            self.by.alloc,
            self.resolved.layout,
            batch.groups,
        )?;
        let bytes = bytes_of_batch(&self.by, self.resolved, batch, self.facts, self.table);
        Ok(Outcome { bytes, counts })
    }
}
