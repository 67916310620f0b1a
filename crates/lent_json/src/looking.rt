//! Looking into a value.
ghost use Rattle.std.specs.Prelude.{◌≡◌, is_some, option_map, option_and_then};
ghost use Rattle.std.specs.List.{list_all, list_any};
ghost use Rattle.std.specs.Str.{bytes_eq};
ghost use Rattle.serde_json.specs.Find as find;
ghost use Rattle.lent_json.specs.Data.{items, keys_of, meaning, members};

use crate::numbers::whole_of;
use json::Value;

/// Whether a value is an object.
pub fn is_object(value: &Value<'_>) -> bool
    ensures { result ≡ is_some (find.as_object (meaning value.now)) }
{
    matches!(value, Value::Object(_))
}

/// The value, where it is an object.
pub fn as_object<'v, 'a>(value: &'v Value<'a>) -> Option<&'v Value<'a>>
    ensures { option_map (λ object. members object.now) result ≡ find.as_object (meaning value.now) }
{
    if is_object(value) { Some(value) } else { None }
}

/// Whether a value is a text.
pub fn is_string(value: &Value<'_>) -> bool
    ensures { result ≡ is_some (find.as_str (meaning value.now)) }
{
    value.as_str().is_some()
}

fn is_one_of(keys: &[&str], key: &str) -> bool
    ensures { result ≡ list_any (λ known. bytes_eq key.now known.now) keys.now }
{
    keys.iter().any(|known| key == *known)
}

fn are_among(keys: &[&str], members: &[(&str, Value<'_>)]) -> bool
    ensures { result ≡ list_all (λ member. list_any (λ known. bytes_eq member.0.now known.now) keys.now) members.now }
{
    members.iter().all(|member| is_one_of(keys, member.0))
}

/// Whether an object has no key but these; of another value it is so.
pub fn has_only(object: &Value<'_>, keys: &[&str]) -> bool
    ensures { result ≡ list_all (λ key. list_any (λ known. bytes_eq key known.now) keys.now) (keys_of (members object.now)) }
{
    match object {
        Value::Object(members) => are_among(keys, members),
        _ => true,
    }
}

/// The last value at a key of an object; none of another value.
pub fn get<'v, 'a>(object: &'v Value<'a>, key: &str) -> Option<&'v Value<'a>>
    ensures { option_map (λ value. meaning value.now) result ≡ find.get_member key.now (members object.now) }
{
    object.get(key)
}

/// The values in an array.
pub fn as_array<'v, 'a>(value: &'v Value<'a>) -> Option<&'v [Value<'a>]>
    ensures { option_map (λ array. items array.now) result ≡ find.as_array (meaning value.now) }
{
    match value {
        Value::Array(items) => Some(items.as_slice()),
        _ => None,
    }
}

/// The text that a value is.
pub fn as_str<'a>(value: &Value<'a>) -> Option<&'a str>
    ensures { option_map (λ text. text.now) result ≡ find.as_str (meaning value.now) }
{
    value.as_str()
}

/// The whole number that a value is, where its text has no minus, no point and no exponent, and it fits 64 bits.
pub fn as_u64(value: &Value<'_>) -> Option<u64>
    ensures { result ≡ option_and_then find.as_u64 (find.as_number (meaning value.now)) }
{
    whole_of(value.as_number()?)
}
