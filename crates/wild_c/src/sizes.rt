//! What groups need of parts.
ghost use Rattle.std.specs.Prelude.{◌≡◌, ◌≤◌, length};
ghost use Rattle.wild_c.specs.Answers.{AreNeeds, table_status};
ghost use Rattle.wild_c.specs.Statuses.{written};

use crate::{WRITTEN, WRONG_SIZE};
use wild_needs::needs;
use wild_types::Layout;

/// Writes how many bytes each group needs of each part.
fn fill_needs(layout: &Layout, sizes: &mut [u64])
    requires { 1 ≤ length layout.now.parts }
    ensures each { AreNeeds layout.now sizes.new }
    ensures same { length sizes.new ≡ length sizes.old }
{
    let parts = layout.parts.len();
    for (k, size) in sizes.iter_mut().enumerate() {
        *size = needs(layout, k % parts, k / parts);
    }
}

/// Writes how many bytes each group needs of each part, if there is one number for each.
pub(crate) fn write_needs(layout: &Layout, sizes: &mut [u64]) -> u32
    ensures status { result ≡ table_status layout.now (length sizes.old) }
    ensures sizes { result ≡ written → AreNeeds layout.now sizes.new }
    ensures unchanged { (result ≡ written → ⊥) → sizes.new ≡ sizes.old }
{
    let parts = layout.parts.len();
    let groups = layout.groups.len();
    if sizes.len() as u128 != groups as u128 * parts as u128 {
        return WRONG_SIZE;
    }
    if parts > 0 {
        fill_needs(layout, sizes);
    }
    WRITTEN
}
