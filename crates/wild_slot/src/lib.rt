//! The GOT slots and the PLT stub of a symbol, and how each relocation is treated, as far as the layout alone decides it.
#![tactic(auto)]

mod cases;
mod slot;
mod slot_parts;
mod stub;
mod stub_aarch64;
mod symbol_slots;
mod treatment;

pub use cases::{is_replaceable, slot_of, storage_pair, thread_pointer};
pub use slot::{MAX_WORDS, Setting, SlotEntry, SlotFault, SlotItem, SlotWord, WORD_SIZE};
pub use slot_parts::{
    EntryPart, WordPart, address_entry, begins_relr_got, count_entries, count_relr_slots,
    count_words, entry_at, entry_of, next_word, relr_slot_place, type_of, word_of,
};
pub use stub::{PltTooFar, STUB_SIZE, distance_if_too_far, put_stub, write_stub};
pub use stub_aarch64::{page_of, put_words};
pub use symbol_slots::SymbolSlots;
pub use treatment::{
    Treatment, flags_at, is_barred_in_shared, is_barred_type, row_that_accepts, row_treatment,
    treatment_of,
};
