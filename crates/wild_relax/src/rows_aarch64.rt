//! Which AArch64 row applies to a relocation. The first row that applies is chosen.
ghost use Rattle.std.specs.Prelude.{◌≡◌};
ghost use Rattle.wild_relax.specs.Question.{question};
ghost use Rattle.wild_relax.specs.FirstRow.{first_standing};
ghost use Rattle.wild_relax.specs.RowsAArch64.{applies_aarch64, has_its_words, first_row_aarch64, chosen_row_aarch64};

use crate::reference::{Reference, UnknownSequence};
use crate::row::{Row, has_its_sequence, is_applied};
use crate::sequence::has_around;
use crate::table_aarch64::rows_with_aarch64;

fn is_applied_aarch64(row: &Row, reference: &Reference) -> bool
    ensures { result ≡ applies_aarch64 (question reference.now) row.now }
{
    is_applied(row, reference) && has_around(reference, row.required_bytes)
}

// Whether the row, if it applies, has all that it needs.
fn has_its_words(row: &Row, reference: &Reference) -> bool
    ensures { result ≡ has_its_words (question reference.now) row.now }
{
    has_its_sequence(row, reference) && has_around(reference, row.needed)
}

// The first of the rows that applies.
fn first_of(rows: &[Row], reference: &Reference) -> Option<Row>
    ensures { result ≡ first_standing (applies_aarch64 (question reference.now)) rows.now }
{
    match rows.split_first() {
        None => None,
        Some((row, rest)) => {
            if is_applied_aarch64(row, reference) {
                Some(*row)
            } else {
                first_of(rest, reference)
            }
        }
    }
}

// The first row that applies, among those of the relocation's type.
fn first_row(reference: &Reference) -> Option<Row>
    ensures { result ≡ first_row_aarch64 (question reference.now) }
{
    first_of(rows_with_aarch64(reference.relocation().number), reference)
}

/// The first row that applies; refused if its sequence is missing.
#[tactic(auto, unfolding(crate::specs::RowsAArch64::chosen_row_aarch64))]
pub fn choose_aarch64(reference: &Reference) -> Result<Option<Row>, UnknownSequence>
    ensures { result ≡ chosen_row_aarch64 (question reference.now) }
{
    let Some(row) = first_row(reference) else {
        return Ok(None);
    };
    if has_its_words(&row, reference) {
        Ok(Some(row))
    } else {
        Err(UnknownSequence {
            number: reference.relocation().number,
            written: row.row_written(),
        })
    }
}
