//! Types of program properties, by how a linker joins the values of its inputs (x86-64 psABI, "Program Property"; aaelf64,
//! "Program Property").
ghost use Rattle.std.specs.Prelude.{◌≡◌};
ghost use Rattle.wild_relax.specs.Properties.{property_class};

use wild_types::Machine;

/// How the values of a property are joined.
#[derive(Clone, Copy, Debug, PartialEq, Eq)]
pub enum PropertyClass {
    /// The bits that all inputs have; no property if an input lacks it.
    And,
    /// The bits that any input has.
    Or,
    /// The bits that any input has; no property if an input lacks it.
    AndOr,
}

/// The class of a property type (`pr_type`); none if the machine has none for it.
#[tactic(auto, unfolding(crate::specs::Properties::property_class))]
pub fn property_class(machine: Machine, ptype: u32) -> Option<PropertyClass>
    ensures { result ≡ property_class machine ptype }
{
    match (machine, ptype) {
        (Machine::X86_64, 0xb000_0000..=0xb000_7fff) => Some(PropertyClass::And),
        (Machine::X86_64, 0xb000_8000..=0xb000_ffff) => Some(PropertyClass::Or),
        (Machine::X86_64, 0xc000_0002..=0xc000_7fff) => Some(PropertyClass::And),
        (Machine::X86_64, 0xc000_8000..=0xc000_ffff) => Some(PropertyClass::Or),
        (Machine::X86_64, 0xc001_0000..=0xc001_7fff) => Some(PropertyClass::AndOr),
        (Machine::AArch64, 0xc000_0000) => Some(PropertyClass::And),
        _ => None,
    }
}
