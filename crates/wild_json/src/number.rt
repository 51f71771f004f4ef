//! Numbers of a text, as `serde_json` defines them.
ghost use Rattle.std.specs.Prelude.{◌≡◌, ◌<◌, ◌==◌, IsTrue, true, false, length, slice_index, option_map, option_and_then, is_some};
ghost use Rattle.serde_json.specs.Find.{as_u64, as_i64};
ghost use Rattle.serde_json.specs.Read.{number_of, number_from, float_of};
ghost use Rattle.wild_json.specs.Numbers.{num_of};

use fast_float::Numeral;

/// A number of JSON: an integer of 64 bits, or a finite float.
#[derive(Clone, Copy, Drop)]
pub(crate) enum Number {
    Unsigned(u64),
    /// Below 0.
    Negative(i64),
    Float(f64),
}

impl Number {
    /// The number of a text that is one.
    pub(crate) fn parse(text: &str) -> Option<Number>
        ensures { option_map num_of result ≡ number_of text.now }
    {
        let bytes = text.as_bytes();
        if has_minus(bytes) {
            Number::negative(&Numeral::scan(&bytes[1..]))
        } else {
            Number::unsigned(&Numeral::scan(bytes))
        }
    }

    fn unsigned(numeral: &Numeral<'_>) -> Option<Number>
        ensures { option_map num_of result ≡ number_from false numeral.now }
    {
        match numeral.to_u64() {
            Some(n) => Some(Number::Unsigned(n)),
            None => Number::nearest(false, numeral),
        }
    }

    fn negative(numeral: &Numeral<'_>) -> Option<Number>
        ensures { option_map num_of result ≡ number_from true numeral.now }
    {
        if let Some(n) = numeral.to_i64(true) {
            if n < 0 {
                return Some(Number::Negative(n));
            }
        }
        Number::nearest(true, numeral)
    }

    fn nearest(negative: bool, numeral: &Numeral<'_>) -> Option<Number>
        ensures { option_map num_of result ≡ float_of negative numeral.now }
    {
        let x = numeral.to_float::<f64>(negative);
        if x.is_finite() {
            Some(Number::Float(x))
        } else {
            None
        }
    }
}

fn has_minus(bytes: &[u8]) -> bool
    ensures value { result ≡ (slice_index bytes.now 0 == 45) }
    ensures some { IsTrue result → 0 < length bytes.now }
{
    !bytes.is_empty() && bytes[0] == b'-'
}

/// Whether the number of the text is in range.
pub(crate) fn is_in_range(text: &str) -> bool
    ensures { result ≡ is_some (number_of text.now) }
{
    Number::parse(text).is_some()
}

/// The number of the text, if it is a whole number below 2^64.
pub(crate) fn unsigned_in(text: &str) -> Option<u64>
    ensures { result ≡ option_and_then as_u64 (number_of text.now) }
{
    match Number::parse(text) {
        Some(Number::Unsigned(n)) => Some(n),
        _ => None,
    }
}

/// The number of the text, if it is a whole number from -2^63 to 2^63 - 1.
pub(crate) fn signed_in(text: &str) -> Option<i64>
    ensures { result ≡ option_and_then as_i64 (number_of text.now) }
{
    match Number::parse(text) {
        Some(Number::Unsigned(n)) if n < 1 << 63 => Some(n as i64),
        Some(Number::Negative(n)) => Some(n),
        _ => None,
    }
}
