//! Whether each number of a value is one.
ghost use Rattle.std.specs.Prelude.{◌≡◌};
ghost use Rattle.json.specs.Value.{value_view, items_view, members_view};
ghost use Rattle.lent_json.specs.Data as spec;

use crate::numbers::is_number;
use json::Value;

/// Whether each text of a number in a value is a number.
#[cycle(range)]
pub(crate) fn is_in_range(value: &Value<'_>) -> bool
    ensures { result ≡ spec.is_in_range (value_view value.now) }
{
    match value {
        Value::Number(text) => is_number(text),
        Value::Array(items) => are_in_range(items),
        Value::Object(members) => members_in_range(members),
        _ => true,
    }
}

#[cycle(range)]
fn are_in_range(items: &Vec<Value<'_>>) -> bool
    ensures { result ≡ spec.are_in_range (items_view items.now.items) }
{
    for item in items {
        if !is_in_range(item) {
            return false;
        }
    }
    true
}

#[cycle(range)]
fn members_in_range(members: &Vec<(&str, Value<'_>)>) -> bool
    ensures { result ≡ spec.members_in_range (members_view members.now.items) }
{
    for member in members {
        if !is_in_range(&member.1) {
            return false;
        }
    }
    true
}
