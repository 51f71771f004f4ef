//! The shapes of the hash tables, and thunks.
ghost use Rattle.wild_text.specs.Shapes.{sysv_hash_in, gnu_hash_in, thunk_in};

use crate::fault::PlanFault;
use crate::members::{Planned, member, members, object, without_other_members};
use json::Value;
use std::alloc::Global;
use wild_types::{GnuHash, SymbolIndex, SysvHash, Thunk};

impl Planned for SysvHash {
    ghost reads = { sysv_hash_in };

    #[tactic(auto, unfolding(crate::specs::Shapes::sysv_hash_in))]
    fn read(alloc: Global, json: &Value<'_>) -> std::result::Result<SysvHash, PlanFault> {
        members!(alloc, json; SysvHash {
            buckets: 0,
        })
    }
}

impl Planned for GnuHash {
    ghost reads = { gnu_hash_in };

    #[tactic(auto, unfolding(crate::specs::Shapes::gnu_hash_in))]
    fn read(alloc: Global, json: &Value<'_>) -> std::result::Result<GnuHash, PlanFault> {
        members!(alloc, json; GnuHash {
            buckets: 0,
            bloom_count: 0,
            bloom_shift: 0,
            base: 0,
        })
    }
}

impl Planned for Thunk {
    ghost reads = { thunk_in };

    #[tactic(auto, unfolding(crate::specs::Shapes::thunk_in))]
    fn read(alloc: Global, json: &Value<'_>) -> std::result::Result<Thunk, PlanFault> {
        members!(alloc, json; Thunk {
            symbol: SymbolIndex(0),
            address: 0,
        })
    }
}
