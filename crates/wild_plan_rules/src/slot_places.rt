//! The next free GOT entries and PLT entries.

/// The address of the next free word of `got` and of `got_relr`, that of the next free entry of `plt_got`, and the number of the first symbol
/// that has not been placed yet.
#[derive(Clone, Copy)]
pub struct SlotCursor {
    pub got: u128,
    pub block: u128,
    pub stub: u128,
    pub symbol: usize,
}
