//! Applies the relocations of a debug section, in sequence or in parallel shards.
#![tactic(auto)]

mod in_order;
mod ranges;
mod sharded;
mod step;

pub use in_order::{apply_in_order, fields_lie, other_bytes_stay};
pub use ranges::{
    DebugRelocationShardRange, Offsets, Sizes, debug_relocation_shard_ranges_parallel,
};
pub use sharded::{apply_by_workers, apply_sharded, ranges_of};
pub use step::Step;
