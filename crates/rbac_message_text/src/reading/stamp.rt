//! The stamp of a message, read at a key.
ghost use Rattle.std.specs.Prelude.{◌≡◌, option_map, ok_or};
ghost use Rattle.lent_json.specs.Data.{items, meaning, members};
ghost use Rattle.rbac_message_text.specs.Message.{as_clock, stamp_in, two_of};

use lent_json::{Value, as_array, as_u64};
use rbac_text::LineRefusal;
use rbac_text::reading::fields::{Object, Reading, value_in, whole_of};
use rbac_words::Stamp;

/// The two elements of an array that has two.
fn two_of<'o, 'a>(array: &'o [Value<'a>]) -> Option<(&'o Value<'a>, &'o Value<'a>)>
    ensures { option_map (λ both. (meaning both.0.now, meaning both.1.now)) result ≡ two_of (items array.now) }
{
    if array.len() != 2 {
        return None;
    }
    Some((&array[0], &array[1]))
}

/// The clock that a value is: a whole number of 64 bits.
fn clock_of(value: &Value<'_>) -> Reading<u64>
    ensures { result ≡ (ok_or (as_clock (meaning value.now)) LineRefusal.WrongKind) }
{
    as_u64(value).ok_or(LineRefusal::WrongKind)
}

/// The stamp of a message at a key: an array of its clock and its member.
pub(crate) fn stamp_in(object: &Object<'_>, key: &str) -> Reading<Stamp>
    ensures { result ≡ stamp_in key.now (members object.now) }
{
    let value = value_in(object, key)?;
    let array = as_array(value).ok_or(LineRefusal::WrongKind)?;
    let both = two_of(array).ok_or(LineRefusal::WrongKind)?;
    let clock = clock_of(both.0)?;
    let member = whole_of(both.1)?;
    Ok(Stamp::at(clock, member))
}
