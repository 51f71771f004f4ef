//! Whether a value is data: each of its numbers is in range.
ghost use Rattle.std.specs.Prelude.{◌≡◌};
ghost use Rattle.json.specs.Value.{value_view, items_view, members_view};
ghost use Rattle.wild_json.specs.Values.{has_data, items_have_data, members_have_data};

use crate::number::is_in_range;
use json::Value;

/// Whether the value is data: each of its numbers is in the range of floats.
#[cycle(range)]
pub fn has_data(value: &Value<'_>) -> bool
    ensures { result ≡ has_data (value_view value.now) }
{
    match value {
        Value::Number(text) => is_in_range(text),
        Value::Array(items) => items_have_data(items),
        Value::Object(members) => members_have_data(members),
        Value::Null | Value::Bool(_) | Value::String(_) => true,
    }
}

#[cycle(range)]
fn items_have_data(items: &Vec<Value<'_>>) -> bool
    ensures { result ≡ items_have_data (items_view items.now.items) }
{
    for item in items {
        if !has_data(item) {
            return false;
        }
    }
    true
}

#[cycle(range)]
fn members_have_data(members: &Vec<(&str, Value<'_>)>) -> bool
    ensures { result ≡ members_have_data (members_view members.now.items) }
{
    for member in members {
        if !has_data(&member.1) {
            return false;
        }
    }
    true
}
