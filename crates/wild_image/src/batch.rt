//! Batches of groups, the unit of work of a thread. If there are many groups, a batch has several, which share the cost of
//! claiming the batch and of one buffer.
ghost use Rattle.std.specs.Prelude.{◌≡◌, ◌<◌, ◌≤◌, length, IfOk};
ghost use Rattle.wild_image.specs.Batches.{AreBatches};

use std::alloc::{AllocError, Global};
use wild_types::Group;

/// Consecutive groups of a layout.
#[derive(Drop)]
pub(crate) struct Batch<'a> {
    /// The number of the first of these groups.
    pub(crate) first: usize,
    pub(crate) groups: &'a [Group],
}

/// The approximate number of batches, if there are enough groups.
const BATCHES: usize = 1024;

/// Divides all groups into batches of `size` groups.
pub(crate) fn batches_of(
    alloc: Global,
    groups: &[Group],
    size: usize,
) -> Result<Vec<Batch<'_>>, AllocError>
    requires { 0 < size }
    ensures batches { IfOk result (λ v. AreBatches groups.now v.items) }
    ensures few { IfOk result (λ v. length v.items ≤ length groups.now) }
{
    let mut batches = Vec::with_capacity(alloc, groups.len() / size + 1)?;
    let mut first = 0;
    let mut rest = groups;
    while !rest.is_empty() {
        let (own, later) = rest.split_at(size.min(rest.len()));
        batches.push(Batch { first, groups: own })?;
        first += own.len();
        rest = later;
    }
    Ok(batches)
}

/// The number of groups of a batch: one, unless there are many groups.
pub(crate) fn batch_size(groups: usize) -> usize
    ensures { 0 < result }
{
    groups / BATCHES + 1
}
