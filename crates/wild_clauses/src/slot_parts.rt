//! Clause 11: slots have addresses that are multiples of 8; there is a block of slots only if addresses are packed (RELR).
ghost use Rattle.wild_plan_rules.specs.SlotPlaces.{slot_is_even, block_needs_relr, block_has_base};

use wild_slot::WORD_SIZE;
use wild_types::{Layout, Part, Role, Symbol, Test, got_of, has_role};

/// A slot's address is a multiple of 8.
pub(crate) struct SlotIsEven;

impl Test<Symbol> for SlotIsEven {
    ghost test = { λ t. slot_is_even };

    fn passes(&self, symbol: &Symbol) -> bool {
        match got_of(symbol) {
            Some(address) => address % WORD_SIZE as u64 == 0,
            None => true,
        }
    }
}

/// The part of the block exists only if addresses are packed.
#[derive(Clone, Copy)]
pub(crate) struct BlockNeedsRelr<'a> {
    pub(crate) layout: &'a Layout,
}

impl Test<Part> for BlockNeedsRelr<'_> {
    ghost test = { λ t. block_needs_relr t.layout.now };

    fn passes(&self, part: &Part) -> bool {
        !has_role(Role::GotRelr, part) || self.layout.options.relr
    }
}

/// The part of the block is not at address 0.
pub(crate) struct BlockHasBase;

impl Test<Part> for BlockHasBase {
    ghost test = { λ t. block_has_base };

    fn passes(&self, part: &Part) -> bool {
        !has_role(Role::GotRelr, part) || part.address != 0
    }
}
