//! Lines that name a member: what is wrong with it, and the number that is expected.

use crate::items::{Item, push_item};
use crate::text::Text;

/// The word of a line about a plan that was refused.
pub(crate) const LIKELY: &str = "likely";

/// The word of a line about a plan that has an image.
pub(crate) const ADVICE: &str = "advice";

/// Adds a line: a word, the path of a member, and a text about it.
pub(crate) fn push_hint(out: &mut Text, word: &str, item: Item, member: &str, text: &str) {
    write!(out, "{word}: ");
    push_item(out, item);
    writeln!(out, "{member} {text}");
}

/// Adds a line: a word, the path of a member, its number, the number that is expected, and why.
pub(crate) fn push_expected(
    out: &mut Text,
    word: &str,
    item: Item,
    member: &str,
    numbers: (u64, u64),
    why: &str,
) {
    let (found, expected) = numbers;
    write!(out, "{word}: ");
    push_item(out, item);
    writeln!(out, "{member} is {found}, expected {expected}: {why}");
}
