//! Reading what stands at the keys of a founding file, each value of its kind.
ghost use Rattle.std.specs.Prelude.{◌≡◌, if◌then◌else◌, Ok, Err, is_some, map, option_map};
ghost use Rattle.std.specs.List.{list_all};
ghost use Rattle.toml.specs.Data.{as_array, as_str};
ghost use Rattle.toml.specs.View.{view, items_view, table_view};
ghost use Rattle.rbac_text.specs.Steps.{seen};
ghost use Rattle.rbac_founding.specs.FoundingFile.{array_at, as_permission, as_permissions, as_texts, entries_of, text_or, whole_at, whole_or};
ghost use Rattle.rbac_founding.specs.FoundingEntries.{entries_view, pair_of, text_of};

use crate::document::{integer_at, value_at};
use crate::refusal::FoundingRefusal;
use crate::values::Entries;
use rbac_words::limits::MOST_SENT;
use toml::{Table, Value};

fn whole_at(document: &Table, key: &str) -> Result<i64, FoundingRefusal>
    ensures { result ≡ whole_at key.now (table_view document.now) }
{
    integer_at(document, key).ok_or(FoundingRefusal::WrongKind)
}

fn whole_or(document: &Table, key: &str, absent: i64) -> Result<i64, FoundingRefusal>
    ensures { result ≡ whole_or absent key.now (table_view document.now) }
{
    match value_at(document, key) {
        Some(value) => value.as_integer().ok_or(FoundingRefusal::WrongKind),
        None => Ok(absent),
    }
}

fn text_or<'d>(document: &'d Table, key: &str, absent: &'d str) -> Result<&'d str, FoundingRefusal>
    ensures { seen (λ text. text.now) result ≡ text_or absent.now key.now (table_view document.now) }
{
    match value_at(document, key) {
        Some(value) => value.as_str().ok_or(FoundingRefusal::WrongKind),
        None => Ok(absent),
    }
}

fn array_at<'d>(document: &'d Table, key: &str) -> Result<&'d [Value], FoundingRefusal>
    ensures { seen (λ array. items_view array.now) result ≡ array_at as_array key.now (table_view document.now) }
{
    let value = value_at(document, key).ok_or(FoundingRefusal::WrongKind)?;
    let array = value.as_array().ok_or(FoundingRefusal::WrongKind)?;
    Ok(array.as_slice())
}

/// The two texts of an array that has just these.
pub(crate) fn pair_of(value: &Value) -> Option<(&str, &str)>
    ensures { option_map (λ pair. (pair.0.now, pair.1.now)) result ≡ as_permission (view value.now) }
{
    let array = value.as_array()?;
    let [operation, object] = array.as_slice() else {
        return None;
    };
    Some((operation.as_str()?, object.as_str()?))
}

fn are_texts(array: &[Value]) -> bool
    ensures { result ≡ list_all (λ value. is_some (as_str (view value))) array.now }
{
    array.iter().all(|value| value.is_str())
}

fn is_pair(value: &Value) -> bool
    ensures { result ≡ is_some (as_permission (view value.now)) }
{
    pair_of(value).is_some()
}

fn are_pairs(array: &[Value]) -> bool
    ensures { result ≡ list_all (λ value. is_some (as_permission (view value))) array.now }
{
    array.iter().all(|value| is_pair(value))
}

// The array, if its values are of their kind.
fn all_of_kind(array: &[Value], are: bool) -> Result<&[Value], FoundingRefusal>
    ensures { seen (λ kept. kept.now) result ≡ (if are then Ok array.now else Err FoundingRefusal.WrongKind) }
{
    if are {
        Ok(array)
    } else {
        Err(FoundingRefusal::WrongKind)
    }
}

fn texts_at<'d>(document: &'d Table, key: &str) -> Result<&'d [Value], FoundingRefusal>
    ensures { seen (λ array. map text_of array.now) result ≡ array_at as_texts key.now (table_view document.now) }
{
    let array = array_at(document, key)?;
    all_of_kind(array, are_texts(array))
}

fn pairs_at<'d>(document: &'d Table, key: &str) -> Result<&'d [Value], FoundingRefusal>
    ensures { seen (λ array. map pair_of array.now) result ≡ array_at as_permissions key.now (table_view document.now) }
{
    let array = array_at(document, key)?;
    all_of_kind(array, are_pairs(array))
}

/// Reads what stands at the keys of a document.
pub(crate) fn entries_of(document: &Table) -> Result<Entries<'_>, FoundingRefusal>
    ensures { seen entries_view result ≡ entries_of (table_view document.now) }
{
    let members = whole_at(document, "members")?;
    let clock = whole_or(document, "clock", 0)?;
    let sent_limit = whole_or(document, "sent_limit", i64::from(MOST_SENT))?;
    let operations = texts_at(document, "operations")?;
    let objects = texts_at(document, "objects")?;
    let permissions = pairs_at(document, "permissions")?;
    let hierarchy = text_or(document, "hierarchy", "general")?;
    Ok(Entries {
        members,
        clock,
        sent_limit,
        operations,
        objects,
        permissions,
        hierarchy,
    })
}
