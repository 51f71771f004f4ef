//! The change of one input section.
use wild_types::InputRelocation;
use wild_words::{Bytes, Items};

/// New bytes and relocations for one input section. The section is named by its place: its index in its file, that of the
/// file in its group, and that of the group.
#[derive(Drop)]
pub struct Change {
    pub group: usize,
    pub file: usize,
    pub section: usize,
    pub bytes: Bytes,
    pub relocations: Items<InputRelocation>,
}
