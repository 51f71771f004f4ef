//! Writes the image of a changed layout over that of the layout before the change.
ghost use Rattle.std.specs.Prelude.{◌≡◌, ◌≤◌, ◌<◌, ◌+◌, ◌-◌, ◌^◌, ◌&&◌, not, nat_lt, length, Some, OnOk, OnErr, All, slice_get};
ghost use Rattle.wild_types.specs.Faults.{Answers};
ghost use Rattle.wild_types.specs.Lookups.{image_size};
ghost use Rattle.wild_types.specs.HeaderOnly.{is_omitted};
ghost use Rattle.wild_types.specs.Kinds.{is_partial_link};
ghost use Rattle.wild_types.specs.Lookups.{is_counted};
ghost use Rattle.wild_words.specs.Overlay.{overlay};
ghost use Rattle.wild_change.specs.Change.{with_item};
ghost use Rattle.wild_plan_rules.specs.Places.{relocation_count};
ghost use Rattle.wild_layout.specs.Faults.{errors};
ghost use Rattle.wild_layout.specs.Image.{group_pieces};
ghost use Rattle.wild_image.specs.Prepared.{IsPrepared};
ghost use Rattle.wild_relinker.specs.Changed.{HasFaultsOf, corrected_counts, AwaitsGroup, IsSameImage};
ghost use Rattle.wild_relinker.specs.Linked.{IsWritten};

use crate::changed_faults::check_changed;
use crate::find::NamedSection;
use crate::linked::WrittenImage;
use std::sync::ledger::Ledger;
use wild_image::{Arch, DebugWriter, Prepared, Steps, Workers, write_group_over};
use wild_types::{Error, InputSection, Layout};

/// A layout has fewer relocations than this.
const RELOCATION_LIMIT: u64 = (1 << 32) - 1;

/// Whether the relocations of a section are counted.
fn is_counted(layout: &Layout, section: &InputSection) -> bool
    ensures { result ≡ (not (is_partial_link layout.now.kind) && (is_counted section.now && not (is_omitted layout.now section.now))) }
{
    !layout.kind.is_partial_link() && section.is_counted() && !section.is_omitted(layout)
}

/// A count with the `after` relocations that a section has in place of the `before` that it had.
fn corrected_count(count: u64, before: u64, after: u64) -> u64
    requires { (count < 2 ^ 32) × (after < 2 ^ 32) }
    ensures { result ≡ count + after - before }
{
    (count + after).saturating_sub(before)
}

/// Corrects one of the counts in this way, if there is one with that index.
fn correct_count(counts: &mut [u64], index: usize, before: u64, after: u64)
    requires counts { All (λ n. n < 2 ^ 32) counts.old }
    requires after { after < 2 ^ 32 }
    ensures { counts.new ≡ with_item (λ n. n + after - before) index counts.old }
{
    if counts.len() <= index {
        return;
    }
    counts[index] = corrected_count(counts[index], before, after);
}

/// Corrects the count of the output section of a section that had `before` relocations, if its relocations are counted.
fn correct_counts(layout: &Layout, section: &InputSection, before: u64, counts: &mut [u64])
    requires counts { All (λ n. n < 2 ^ 32) counts.old }
    requires after { length section.now.relocations < 2 ^ 32 }
    ensures { counts.new ≡ corrected_counts layout.now section.now before counts.old }
{
    if is_counted(layout, section) {
        let index = layout.section_of(section.part).0;
        correct_count(counts, index, before, section.relocations.len() as u64);
    }
}

/// Checks the clauses and the shares that the change of a section of group `index` can break, and writes the group over the image. Refused
/// with the layout's first fault; then the image is unchanged. `count_fits`: the layout has fewer than 2^32 - 1 relocations.
fn write_checked<A: Arch, E: DebugWriter<A>, L: Ledger>(
    by: &Workers<E>,
    layout: &Layout,
    prepared: &Prepared,
    index: usize,
    found: NamedSection<'_>,
    count_fits: bool,
    out: &mut [u8],
    steps: &mut Steps<L>,
) -> Result<(), Error>
    requires ready { E.ready by.now.executor.now }
    requires machine { layout.now.machine ≡ A.machine }
    requires prepared { IsPrepared layout.now prepared.now }
    requires group { slice_get layout.now.groups index ≡ Some found.group.now }
    requires faults { HasFaultsOf layout.now index found.group.now found.file.now found.section.now }
    requires count { count_fits ≡ nat_lt (relocation_count layout.now) (2 ^ 32 - 1) }
    requires room { length out.old ≡ image_size layout.now }
    ensures faults { Answers result (errors layout.now) }
    ensures image { OnOk result (out.new ≡ overlay (group_pieces layout.now index found.entry.group.now) out.old) }
    ensures kept { OnErr result (out.new ≡ out.old) }
    ensures counted { OnOk result (steps.new ≡ steps.old + 1) }
    ensures most { steps.new ≤ steps.old + 1 }
{
    check_changed(layout, index, found, count_fits)?;
    write_group_over::<A, E, L>(by, layout, prepared, index, out, steps)
}

/// Writes the image of a layout, of which section `found` of group `index` was changed, over the image of the layout before the change.
/// Then the section had `before` relocations. Refused with the layout's first fault; then nothing is written.
pub(crate) fn write_changed<A: Arch, E: DebugWriter<A>, L: Ledger>(
    by: &Workers<E>,
    layout: &Layout,
    prepared: &Prepared,
    index: usize,
    found: NamedSection<'_>,
    before: u64,
    written: &mut WrittenImage,
    steps: &mut Steps<L>,
) -> Result<(), Error>
    requires ready { E.ready by.now.executor.now }
    requires machine { layout.now.machine ≡ A.machine }
    requires prepared { IsPrepared layout.now prepared.now }
    requires group { slice_get layout.now.groups index ≡ Some found.group.now }
    requires awaits { AwaitsGroup layout.now index found.group.now found.file.now found.section.now before written.old }
    ensures faults { Answers result (errors layout.now) }
    ensures written { OnOk result (IsWritten layout.now written.new) }
    ensures kept { OnErr result (IsSameImage written.new written.old) }
    ensures counted { OnOk result (steps.new ≡ steps.old + 1) }
    ensures most { steps.new ≤ steps.old + 1 }
{
    let after = found.section.relocations.len() as u64;
    let relocations = (written.relocations - before).saturating_add(after);
    let count_fits = relocations < RELOCATION_LIMIT;
    let out = &mut written.out;
    write_checked::<A, E, L>(by, layout, prepared, index, found, count_fits, out, steps)?;
    written.relocations = relocations;
    correct_counts(layout, found.section, before, &mut written.counts);
    Ok(())
}
