//! The effect of one relocation.
ghost use Rattle.std.specs.Prelude.{◌≡◌, ◌≤◌, List, ℕ, length, IfOk};
ghost use Rattle.wild_shards.specs.InOrder.{Rule, width, AreSmall, ResultIs, KeepsLength};

use wild_types::{Error, InputRelocation};

/// A rule by which relocations are applied: each writes only its field, or has a fault. The width of the field is known without
/// applying the relocation; a relocation without a known width has no field.
pub trait Step {
    ghost use Rattle.wild_types.specs.declared.input.InputRelocation.{InputRelocation};

    ghost rule: { Self → Rule };

    /// The width of the field in bytes; none if it cannot be determined.
    fn size(&self, relocation: &InputRelocation) -> Option<usize>
        ensures { result ≡ (rule self.now).sized relocation.now };

    /// Writes the field, or returns the fault.
    fn write(&self, relocation: &InputRelocation, field: &mut [u8]) -> Result<(), Error>
        requires { length field.old ≡ width (rule self.now) relocation.now }
        ensures { ResultIs result field.new ((rule self.now).written relocation.now field.old) };

    ghost small: { (s : Self) (r : InputRelocation) → width (rule s) r ≤ 10 };

    ghost keeps: { (s : Self) (r : InputRelocation) (xs : List ℕ) → length xs ≡ width (rule s) r → IfOk ((rule s).written r xs) (λ ys. length ys ≡ length xs) };
}

/// Fields are at most 10 bytes wide, and a step does not change their width.
pub(crate) fn steps_stay_in_fields<S: Step>(_step: &S)
    ensures small { AreSmall (S.rule _step.now) }
    ensures keeps { KeepsLength (S.rule _step.now) }
{}
