//! What a value is as data.
ghost use Rattle.std.specs.Prelude.{◌≡◌, Some, option_map, option_and_then, is_some};
ghost use Rattle.std.specs.List.{list_any};
ghost use Rattle.std.specs.Str.{bytes_eq};
ghost use Rattle.serde_json.specs.Data.{object};
ghost use Rattle.serde_json.specs.Find.{get, as_u64, as_i64, as_number, as_bool, as_str, as_null, as_array, as_object};
ghost use Rattle.wild_json.specs.Values.{view, items_view, members_view};
ghost use Rattle.wild_json.specs.Names.{unknown_name, first_unknown, earlier_name, with_name, texts};

use crate::number::{signed_in, unsigned_in};
use json::Value;
use std::cmp::Ordering;

/// The last member of that name, if the value is an object that has one.
pub fn member<'v, 'a>(value: &'v Value<'a>, name: &str) -> Option<&'v Value<'a>>
    ensures { option_map (λ v. view v.now) result ≡ get name.now (view value.now) }
{
    value.get(name)
}

/// The object of these members.
pub fn object_of<'a>(members: Vec<(&'a str, Value<'a>)>) -> Value<'a>
    ensures { view result ≡ object (members_view members.entry.items) }
{
    Value::Object(members)
}

/// The items, if the value is an array.
pub fn items<'v, 'a>(value: &'v Value<'a>) -> Option<&'v [Value<'a>]>
    ensures { option_map (λ v. items_view v.now) result ≡ as_array (view value.now) }
{
    match value {
        Value::Array(items) => Some(items.as_slice()),
        _ => None,
    }
}

/// The text, if the value is one.
pub fn text<'a>(value: &Value<'a>) -> Option<&'a str>
    ensures { option_map (λ s. s.now) result ≡ as_str (view value.now) }
{
    value.as_str()
}

/// The number, if the value is a whole number below 2^64.
pub fn unsigned(value: &Value<'_>) -> Option<u64>
    ensures { result ≡ option_and_then as_u64 (as_number (view value.now)) }
{
    match value.as_number() {
        Some(number) => unsigned_in(number),
        None => None,
    }
}

/// The number, if the value is a whole number from -2^63 to 2^63 - 1.
pub fn signed(value: &Value<'_>) -> Option<i64>
    ensures { result ≡ option_and_then as_i64 (as_number (view value.now)) }
{
    match value.as_number() {
        Some(number) => signed_in(number),
        None => None,
    }
}

/// The flag, if the value is one.
pub fn flag(value: &Value<'_>) -> Option<bool>
    ensures { result ≡ as_bool (view value.now) }
{
    value.as_bool()
}

/// Whether the value is null.
pub fn is_null(value: &Value<'_>) -> bool
    ensures { result ≡ is_some (as_null (view value.now)) }
{
    value.is_null()
}

/// Whether the value is an object.
pub fn is_object(value: &Value<'_>) -> bool
    ensures { result ≡ is_some (as_object (view value.now)) }
{
    matches!(value, Value::Object(_))
}

fn has_name(names: &[&str], name: &str) -> bool
    ensures { result ≡ list_any (λ n. bytes_eq n.now name.now) names.now }
{
    names.iter().any(|known| *known == name)
}

/// Whether the name is one of these.
pub fn is_among(names: &[&str], name: &str) -> bool
    ensures { result ≡ list_any (λ n. bytes_eq n name.now) (texts names.now) }
{
    has_name(names, name)
}

/// The name that comes first in the order of bytes, of two.
fn earlier_name<'a>(before: Option<&'a str>, name: &'a str) -> Option<&'a str>
    ensures { option_map (λ s. s.now) result ≡ Some (earlier_name (option_map (λ s. s.now) before.entry) name.now) }
{
    let Some(least) = before else {
        return Some(name);
    };
    match name.cmp(least) {
        Ordering::Less => Some(name),
        Ordering::Equal | Ordering::Greater => before,
    }
}

/// The first unknown name of those before, and of one more name.
fn with_name<'a>(names: &[&str], name: &'a str, before: Option<&'a str>) -> Option<&'a str>
    ensures { option_map (λ s. s.now) result ≡ with_name (texts names.now) name.now (option_map (λ s. s.now) before.entry) }
{
    if is_among(names, name) {
        before
    } else {
        earlier_name(before, name)
    }
}

/// The first name of a member that is none of these, in the order of bytes.
fn unknown_of<'a>(members: &[(&'a str, Value<'a>)], names: &[&str]) -> Option<&'a str>
    ensures { option_map (λ s. s.now) result ≡ first_unknown (texts names.now) (members_view members.now) }
{
    let mut least = None;
    for member in members {
        least = with_name(names, member.0, least);
    }
    least
}

/// The first name of a member that is none of these, in the order of bytes.
pub fn unknown_name<'a>(value: &Value<'a>, names: &[&str]) -> Option<&'a str>
    ensures { option_map (λ s. s.now) result ≡ unknown_name (texts names.now) (view value.now) }
{
    match value {
        Value::Object(members) => unknown_of(members.as_slice(), names),
        _ => None,
    }
}
