//! The bytes that replace a rewritten instruction, as a whole.
ghost use Rattle.std.specs.Prelude.{◌≡◌, ◌+◌, true, false, length, slice_range, ◌≤◌};
ghost use Rattle.wild_words.specs.Words.{place};
ghost use Rattle.wild_relax.specs.Pattern.{field_of};
ghost use Rattle.wild_relax.specs.Rewrite.{is_skip};
ghost use Rattle.wild_relax.specs.RewriteX86_64.{rewrite_of};
ghost use Rattle.wild_relax.specs.LinkedPattern.{pattern_of, pattern_size, keeps_bytes, fits_in, template_of};

use crate::pattern::{self, Pattern};
use crate::rewrite::{self, change_of};
use crate::row::{Made, Row};

impl Row {
    // All input bytes of the row's pattern: those that it needs or, if there are none, those without which it does not apply.
    fn pattern(self) -> Pattern
        ensures { result ≡ pattern_of self }
    {
        match self.needed {
            Pattern::Nothing => self.required_bytes,
            other => other,
        }
    }

    /// The offset of the relocation's field from the start of its instruction in the input.
    pub fn pattern_field(self) -> u64
        ensures { result ≡ field_of (pattern_of self) }
    {
        pattern::field(self.pattern())
    }

    /// The number of input bytes in the row's pattern.
    pub fn pattern_size(self) -> u64
        ensures { result ≡ pattern_size self }
    {
        pattern::cells(self.pattern()).len() as u64
    }

    /// Whether only the field's bytes change.
    pub fn keeps_bytes(self) -> bool
        ensures { result ≡ keeps_bytes self }
    {
        matches!(self.made, Made::Kept)
    }

    /// Whether the next relocation belongs to the same sequence.
    pub fn takes_next(self) -> bool
        ensures { result ≡ is_skip (rewrite_of self).next }
    {
        self.partner.is_some()
    }

    /// Whether the bytes that it writes are within the row's pattern. This is so for each row of the table that changes bytes
    /// around its field.
    pub fn fits(self) -> bool
        ensures { result ≡ fits_in self }
    {
        let change = change_of(self.made);
        let (field, size) = (pattern::field(self.pattern()), self.pattern_size());
        if change.back > field {
            return false;
        }
        let start = field - change.back;
        start + change.size <= size
            && start + change.field + self.row_written().width() as u64 <= size
    }

    /// Writes the row's instruction, with the value in its field, over the input bytes at `start`. The bytes written are within
    /// the row's pattern.
    pub fn write_template(self, value: u64, room: &mut [u8], start: usize)
        requires inside { start + pattern_size self ≤ length room.old }
        requires changes { keeps_bytes self ≡ false }
        requires fits { fits_in self ≡ true }
        ensures { room.new ≡ place start (template_of self value (slice_range room.old start (start + pattern_size self))) room.old }
    {
        let size = self.pattern_size() as usize;
        write_part(self, value, &mut room[start..start + size]);
    }
}

// The same over exactly those bytes.
fn write_part(row: Row, value: u64, part: &mut [u8])
    requires whole { length part.old ≡ pattern_size row }
    requires changes { keeps_bytes row ≡ false }
    requires fits { fits_in row ≡ true }
    ensures template { part.new ≡ template_of row value part.old }
    ensures long { length part.new ≡ pattern_size row }
{
    let start = row.pattern_field().saturating_sub(row.back());
    rewrite::write(row.made, part, start as usize);
    let field = start + row.field();
    row.row_written().size.write_at(value, part, field as usize);
}
