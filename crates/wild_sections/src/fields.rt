//! Writes one decided relocation: its field (0 if a dynamic relocation fills it), or a whole instruction.
ghost use Rattle.std.specs.Prelude.{◌≡◌, ℕ, ◌+◌, ◌≤◌, Some, length, if◌then◌else◌};
ghost use Rattle.wild_words.specs.Words.{word, place};
ghost use Rattle.wild_reloc.specs.declared.info.RelocationSize.TheVariants.{ByteSize};
ghost use Rattle.wild_reloc.specs.declared.info.Width.TheVariants.{Four};
ghost use Rattle.wild_reloc.specs.Field.{size_width};
ghost use Rattle.wild_layout.specs.Sites.{template_start};
ghost use Rattle.wild_sections.specs.WrittenDecisions.{put_field, end_of_field, put_template, TemplateLies, end_of_template, put_decision, DecisionLies, end_of_decision};

use crate::relocation::ADDRESS;
use wild_layout::Decision;
use wild_relax::Row;
use wild_reloc::RelocationSize;
use wild_types::InputRelocation;
use wild_words::put;

/// The content of the field of a RELATIVE relocation: the address if it is packed in `.relr.dyn`, otherwise 0.
#[inline]
fn relative_field_content(value: u64, packed: bool) -> u64
    ensures { result ≡ (if packed then value else 0) }
{
    if packed { value } else { 0 }
}

/// The offset at which the instruction of a row begins.
#[inline]
pub(crate) fn template_start(row: Row, relocation: &InputRelocation) -> u64
    ensures { result ≡ template_start row relocation.now }
{
    relocation.offset.saturating_sub(row.pattern_field())
}

/// Writes the whole instruction of a row, with a value in its field.
fn write_template(relocation: &InputRelocation, row: Row, value: u64, room: &mut [u8])
    requires lies { TemplateLies (length room.old) relocation.now row }
    ensures { room.new ≡ put_template room.old (template_start row relocation.now) row value }
{
    let start = template_start(row, relocation);
    row.write_template(value, room, start as usize);
}

/// Writes a decided relocation over the bytes of its section.
#[inline]
pub(crate) fn write_decision(relocation: &InputRelocation, decision: Decision, room: &mut [u8])
    requires lies { DecisionLies (length room.old) relocation.now decision }
    ensures { room.new ≡ put_decision room.old relocation.now decision }
{
    let at = relocation.offset as usize;
    match decision {
        Decision::Nothing | Decision::Partner => {}
        Decision::Field { size, value } => size.write_at(value, room, at),
        Decision::DynamicField { size, .. } => size.write_at(0, room, at),
        Decision::RelativeAddress { value, packed } => {
            ADDRESS.write_at(relative_field_content(value, packed), room, at);
        }
        Decision::Rewritten { row, value } => write_template(relocation, row, value, room),
    }
}

/// Writes a field if it begins at `end_of_last_field` or after it, and returns its end; otherwise None.
#[inline]
fn write_ascending_field(
    end_of_last_field: u64,
    offset: u64,
    size: RelocationSize,
    value: u64,
    room: &mut [u8],
) -> Option<u64>
    requires lies { offset + size_width size ≤ length room.old }
    ensures field_end { result ≡ end_of_field end_of_last_field offset size }
    ensures written { (end : ℕ) → result ≡ Some end → room.new ≡ put_field room.old offset size value }
{
    if offset < end_of_last_field {
        return None;
    }
    size.write_at(value, room, offset as usize);
    Some(offset + size.width() as u64)
}

/// Writes a whole instruction if it begins at `end_of_last_field` or after it, and returns its end; otherwise None.
fn write_ascending_template(
    end_of_last_field: u64,
    relocation: &InputRelocation,
    row: Row,
    value: u64,
    room: &mut [u8],
) -> Option<u64>
    requires lies { TemplateLies (length room.old) relocation.now row }
    ensures field_end { result ≡ end_of_template end_of_last_field (template_start row relocation.now) row }
    ensures written { (end : ℕ) → result ≡ Some end → room.new ≡ put_template room.old (template_start row relocation.now) row value }
{
    let start = template_start(row, relocation);
    if start < end_of_last_field {
        return None;
    }
    write_template(relocation, row, value, room);
    Some(start + row.pattern_size() as u64)
}

/// Writes the four low bytes of a value.
#[inline(always)]
#[tactic(auto, using(crate::proofs::FourByteLemmas::low_four))]
fn put_four(value: u64, room: &mut [u8], at: usize)
    requires { at + 4 ≤ length room.old }
    ensures { room.new ≡ place at (word 4 value) room.old }
{
    let low = (value % (1 << 32)) as u32;
    put(room, at, &low.to_le_bytes());
}

/// Writes a four-byte field if it begins at `end_of_last_field` or after it, and returns its end; otherwise None.
#[inline(always)]
pub(crate) fn write_ascending_u32(
    end_of_last_field: u64,
    offset: u64,
    value: u64,
    room: &mut [u8],
) -> Option<u64>
    requires lies { offset + 4 ≤ length room.old }
    ensures field_end { result ≡ end_of_field end_of_last_field offset (ByteSize Four) }
    ensures written { (end : ℕ) → result ≡ Some end → room.new ≡ put_field room.old offset (ByteSize Four) value }
{
    if end_of_last_field > offset {
        return None;
    }
    put_four(value, room, offset as usize);
    Some(offset + 4)
}

/// Writes a decided relocation if its field or instruction begins at `end_of_last_field` or after it, and returns its end; otherwise None.
#[inline]
pub(crate) fn write_ascending_decision(
    end_of_last_field: u64,
    relocation: &InputRelocation,
    decision: Decision,
    room: &mut [u8],
) -> Option<u64>
    requires lies { DecisionLies (length room.old) relocation.now decision }
    ensures field_end { result ≡ end_of_decision end_of_last_field relocation.now decision }
    ensures written { (end : ℕ) → result ≡ Some end → room.new ≡ put_decision room.old relocation.now decision }
{
    let offset = relocation.offset;
    match decision {
        Decision::Nothing | Decision::Partner => Some(end_of_last_field),
        Decision::Field { size, value } => write_ascending_field(
            end_of_last_field,
            offset,
            size,
            value,
            room,
        ),
        Decision::DynamicField { size, .. } => write_ascending_field(
            end_of_last_field,
            offset,
            size,
            0,
            room,
        ),
        Decision::RelativeAddress { value, packed } => {
            write_ascending_field(
                end_of_last_field,
                offset,
                ADDRESS,
                relative_field_content(value, packed),
                room,
            )
        }
        Decision::Rewritten { row, value } => write_ascending_template(
            end_of_last_field,
            relocation,
            row,
            value,
            room,
        ),
    }
}
