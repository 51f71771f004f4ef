//! Decides a relocation of a debug section (DWARF, "Relocation", "Tombstone Values").
ghost use Rattle.std.specs.Prelude.{◌≡◌, Some, None};
ghost use Rattle.wild_types.specs.Addresses.{raw_value};
ghost use Rattle.wild_types.specs.Rows.{row_of};
ghost use Rattle.wild_layout.specs.SymbolValues.{raw_address};
ghost use Rattle.wild_layout.specs.Merged.{address_for};
ghost use Rattle.wild_layout.specs.Values.{offset_from, pointer_offset};
ghost use Rattle.wild_layout.specs.Debug.{is_list_section, tombstone, tombstone_field, field_of_sum, field_of_address, field_without_address, by_address, field_without_symbol, field_by_symbol, debug_by, debug_with, debug_decided, width_by};

use wild_layout::Decision;
use wild_relax::Arch;
use wild_reloc::{RelocationKind, RelocationKindInfo};
use wild_sections::{Resolved, address_for, field, offset_from, pointer_offset, raw_address, sum};
use wild_types::{Fault, InputRelocation, InputSection, Layout, SymbolIndex};

/// Whether a section of that name has lists that end at 0.
fn is_list_section(name: &[u8]) -> bool
    ensures { result ≡ is_list_section name.now }
{
    name == b".debug_loc".as_slice() || name == b".debug_ranges".as_slice()
}

/// The value in a section that replaces the address of a discarded symbol.
pub fn tombstone(layout: &Layout, section: &InputSection) -> u64
    ensures { result ≡ tombstone layout.now section.now }
{
    let ends_at_zero = is_list_section(section.name.as_slice());
    if layout.options.new_tombstones {
        if ends_at_zero { u64::MAX - 1 } else { u64::MAX }
    } else if ends_at_zero {
        1
    } else {
        0
    }
}

/// The relocations of a debug section, with the tombstone that replaces an address which the output does not have.
#[derive(Drop)]
pub struct DebugStep<'r, 'l, A: Arch> {
    pub resolved: &'r Resolved<'l, A>,
    pub section: &'r InputSection,
    gone: u64,
    ghost gone_is: { gone ≡ tombstone resolved.now.layout.now section.now },
}

impl<'r, 'l, A: Arch> DebugStep<'r, 'l, A> {
    /// The relocations of that section.
    pub fn new(resolved: &'r Resolved<'l, A>, section: &'r InputSection) -> Self
        ensures resolved { result.resolved.now ≡ resolved.now }
        ensures section { result.section.now ≡ section.now }
    {
        DebugStep {
            resolved,
            section,
            gone: tombstone(resolved.layout, section),
        }
    }

    /// The row of a relocation's type.
    #[inline]
    pub(crate) fn row(&self, relocation: &InputRelocation) -> Option<RelocationKindInfo>
        ensures { result ≡ row_of self.now.resolved.now.layout.now.machine relocation.now.number }
    {
        A::relocation_from_raw(relocation.number)
    }

    /// The tombstone in the field: -1 and -2 are truncated to it, 0 and 1 are range-checked.
    fn tombstone_field(&self, row: &RelocationKindInfo) -> Result<Decision, Fault>
        ensures { result ≡ tombstone_field self.now.resolved.now.layout.now self.now.section.now row.now }
    {
        if self.resolved.layout.options.new_tombstones {
            Ok(Decision::Field {
                size: row.size,
                value: self.gone,
            })
        } else {
            field(row, self.gone)
        }
    }

    /// The field of a relocation whose symbol has an address.
    #[inline]
    fn field_of_address(
        &self,
        relocation: &InputRelocation,
        symbol: SymbolIndex,
        row: &RelocationKindInfo,
    ) -> Result<Decision, Fault>
        ensures { result ≡ field_of_address self.now.resolved.now.layout.now relocation.now symbol row.now row.now.kind }
    {
        let tls = self.resolved.layout.tls;
        match row.kind {
            RelocationKind::Absolute => {
                field_of_sum(relocation, row, address_for(self.resolved, relocation))
            }
            RelocationKind::DtpOff => {
                let address = raw_address(self.resolved, Some(symbol));
                field_of_sum(relocation, row, offset_from(tls.start, address))
            }
            RelocationKind::TpOff => {
                field_of_sum(relocation, row, pointer_offset(self.resolved, Some(symbol)))
            }
            _ => Err(Fault::UnsupportedRelocation {
                number: relocation.number,
            }),
        }
    }

    /// The field of a relocation whose symbol has no address: the address of the merged string, or the tombstone.
    fn field_without_address(
        &self,
        relocation: &InputRelocation,
        symbol: SymbolIndex,
        row: &RelocationKindInfo,
    ) -> Result<Decision, Fault>
        ensures { result ≡ field_without_address self.now.resolved.now.layout.now self.now.section.now relocation.now symbol row.now }
    {
        if self.resolved.names_merged(symbol) {
            field_of_sum(relocation, row, address_for(self.resolved, relocation))
        } else {
            self.tombstone_field(row)
        }
    }

    /// The field of a relocation, by its row.
    #[inline]
    fn field_by_symbol(
        &self,
        relocation: &InputRelocation,
        row: &RelocationKindInfo,
    ) -> Result<Decision, Fault>
        ensures { result ≡ field_by_symbol self.now.resolved.now.layout.now self.now.section.now relocation.now row.now relocation.now.symbol }
    {
        let Some(symbol) = relocation.symbol else {
            return field_without_symbol(relocation, row);
        };
        match self.resolved.address(symbol) {
            Some(_) => self.field_of_address(relocation, symbol, row),
            None => self.field_without_address(relocation, symbol, row),
        }
    }

    /// Decides a relocation.
    #[inline]
    #[tactic(auto, unfolding(wild_layout::specs::Debug::debug_decided))]
    pub fn decided(&self, relocation: &InputRelocation) -> Result<Decision, Fault>
        ensures { result ≡ debug_decided self.now.resolved.now.layout.now self.now.section.now relocation.now }
    {
        let row = self.row(relocation);
        match &row {
            None => Err(Fault::UnsupportedRelocation {
                number: relocation.number,
            }),
            Some(row) if matches!(row.kind, RelocationKind::None) => Ok(Decision::Nothing),
            Some(row) => self.field_by_symbol(relocation, row),
        }
    }
}

/// The value plus A in the row's field, or the fault of the value.
#[inline]
fn field_of_sum(
    relocation: &InputRelocation,
    row: &RelocationKindInfo,
    value: Result<u64, Fault>,
) -> Result<Decision, Fault>
    ensures { result ≡ field_of_sum relocation.now row.now value }
{
    field(row, sum(value?, relocation.addend))
}

/// The field of a relocation without a symbol: A, if the row is an absolute address. Others are refused.
fn field_without_symbol(
    relocation: &InputRelocation,
    row: &RelocationKindInfo,
) -> Result<Decision, Fault>
    ensures { result ≡ field_without_symbol relocation.now row.now row.now.kind }
{
    match row.kind {
        RelocationKind::Absolute => field(row, relocation.addend.cast_unsigned()),
        _ => Err(Fault::UnsupportedRelocation {
            number: relocation.number,
        }),
    }
}
