//! A fast test that a section contributes nothing to the tables of dynamic relocations. The relocations of frames are mostly distances.
ghost use Rattle.std.specs.Prelude.{◌≡◌, not};
ghost use Rattle.wild_contents.specs.NoEntries.{can_need_entry, needs_no_entry};

use wild_records::abi::relocation::{
    R_AARCH64_ABS64, R_X86_64_64, R_X86_64_SIZE32, R_X86_64_SIZE64,
};
use wild_types::{InputRelocation, InputSection, Test, all_pass};

/// Whether a relocation of that type can need an entry, or a RELR word: one of an 8-byte address, or of a size.
fn can_need_entry(number: u32) -> bool
    ensures { result ≡ can_need_entry number }
{
    matches!(
        number,
        R_X86_64_64 | R_AARCH64_ABS64 | R_X86_64_SIZE32 | R_X86_64_SIZE64
    )
}

/// The test that a relocation has another type.
struct NeedsNoEntry;

impl Test<InputRelocation> for NeedsNoEntry {
    ghost test = { λ t r. not (can_need_entry r.number) };

    fn passes(&self, relocation: &InputRelocation) -> bool {
        !can_need_entry(relocation.number)
    }
}

/// Whether the relocations of a section are not read, or it holds frames whose relocations all have other types.
#[tactic(auto, unfolding(crate::specs::NoEntries::needs_no_entry))]
pub(crate) fn needs_no_entry(section: &InputSection) -> bool
    ensures { result ≡ needs_no_entry section.now }
{
    !section.is_read()
        || (section.slot.is_frame() && all_pass(&NeedsNoEntry, section.relocations.as_slice()))
}
