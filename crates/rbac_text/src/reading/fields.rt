//! The fields of a JSON object, each read as what it has to be: refused as MissingField where its key is not there, as
//! WrongKind where its value is of another kind, and as BadName where a name is due and the text is none.
ghost use Rattle.std.specs.Prelude.{◌≡◌, [], map, is_some, ok_or, unwrap_or};
ghost use Rattle.std.specs.List.{list_all};
ghost use Rattle.serde_json.specs.Find as find;
ghost use Rattle.lent_json.specs.Data.{items, meaning, members};
ghost use Rattle.rbac_text.specs.Steps.{seen};
ghost use Rattle.rbac_text.specs.Fields.{Reads, value_in, as_whole, whole_in, text_in, object_in, objects_of, objects_in, name_of, name_in, names_of, names_in, only_keys};

use crate::names::name_or;
use crate::refusal::LineRefusal;
use lent_json::{Value, as_array, as_object, as_str, as_u64, get, has_only, is_object, is_string};
use rbac_terms::{Name, NameSet};
use std::alloc::Global;

/// A JSON object, whose keys have no order. Where a key was given twice, it has the last value.
pub type Object<'a> = Value<'a>;

/// What is read, or the first refusal.
pub type Reading<T> = Result<T, LineRefusal>;

/// The value at a key.
///
/// # Errors
/// `MissingField` where the key is not there.
pub fn value_in<'o, 'a>(object: &'o Object<'a>, key: &str) -> Reading<&'o Value<'a>>
    ensures { seen (λ value. meaning value.now) result ≡ value_in key.now (members object.now) }
{
    get(object, key).ok_or(LineRefusal::MissingField)
}

/// The whole number that a value is, up to 4,294,967,295. Any other number is of another kind, 1.0 and negative ones among them.
///
/// # Errors
/// `WrongKind` where it is of another kind.
pub fn whole_of(value: &Value<'_>) -> Reading<u32>
    ensures { result ≡ (ok_or (as_whole (meaning value.now)) LineRefusal.WrongKind) }
{
    as_u64(value)
        .and_then(|number| u32::try_from(number).ok())
        .ok_or(LineRefusal::WrongKind)
}

/// The whole number at a key.
///
/// # Errors
/// `MissingField` where the key is not there, `WrongKind` where its value is of another kind.
pub fn whole_in(object: &Object<'_>, key: &str) -> Result<u32, LineRefusal>
    ensures { result ≡ whole_in key.now (members object.now) }
{
    let value = value_in(object, key)?;
    whole_of(value)
}

/// The text at a key.
///
/// # Errors
/// `MissingField` where the key is not there, `WrongKind` where its value is no text.
pub fn text_in<'a>(object: &Object<'a>, key: &str) -> Reading<&'a str>
    ensures { seen (λ text. text.now) result ≡ text_in key.now (members object.now) }
{
    let value = value_in(object, key)?;
    as_str(value).ok_or(LineRefusal::WrongKind)
}

/// The object at a key.
///
/// # Errors
/// `MissingField` where the key is not there, `WrongKind` where its value is no object.
pub fn object_in<'o, 'a>(object: &'o Object<'a>, key: &str) -> Reading<&'o Object<'a>>
    ensures { seen (λ inner. members inner.now) result ≡ object_in key.now (members object.now) }
{
    let value = value_in(object, key)?;
    as_object(value).ok_or(LineRefusal::WrongKind)
}

/// The name that a text is.
fn name_of(alloc: Global, text: &str) -> Reading<Name>
    ensures { Reads (name_of text.now) result }
{
    name_or(alloc, text, LineRefusal::BadName, LineRefusal::NoMemory)
}

/// The name at a key.
pub(crate) fn name_in(alloc: Global, object: &Object<'_>, key: &str) -> Reading<Name>
    ensures { Reads (name_in key.now (members object.now)) result }
{
    let text = text_in(object, key)?;
    name_of(alloc, text)
}

fn are_texts(array: &[Value<'_>]) -> bool
    ensures { result ≡ list_all (λ value. is_some (find.as_str (meaning value))) array.now }
{
    array.iter().all(|value| is_string(value))
}

/// A value's text, or an empty one where it is no text.
fn text_of<'a>(value: &Value<'a>) -> &'a str
    ensures { result.now ≡ unwrap_or (find.as_str (meaning value.now)) [] }
{
    as_str(value).unwrap_or("")
}

/// The set of the names in an array. An element that is no text is refused before any text that is no name, so that
/// the array is looked through before the first name is read. A name given twice counts once.
fn names_of(alloc: Global, array: &[Value<'_>]) -> Reading<NameSet>
    ensures { Reads (names_of (items array.now)) result }
{
    if !are_texts(array) {
        return Err(LineRefusal::WrongKind);
    }
    let mut names = NameSet::new(alloc);
    for value in array {
        let name = name_of(alloc, text_of(value))?;
        names.add(name)?;
    }
    Ok(names)
}

/// The set of the names at a key.
pub(crate) fn names_in(alloc: Global, object: &Object<'_>, key: &str) -> Reading<NameSet>
    ensures { Reads (names_in key.now (members object.now)) result }
{
    let value = value_in(object, key)?;
    let array = as_array(value).ok_or(LineRefusal::WrongKind)?;
    names_of(alloc, array)
}

fn are_objects(array: &[Value<'_>]) -> bool
    ensures { result ≡ list_all (λ value. is_some (find.as_object (meaning value))) array.now }
{
    array.iter().all(|value| is_object(value))
}

/// The array, if each of its elements is an object.
///
/// # Errors
/// `WrongKind` where an element is no object.
pub fn objects_of<'o, 'a>(array: &'o [Value<'a>]) -> Reading<&'o [Value<'a>]>
    ensures { seen (λ kept. items kept.now) result ≡ objects_of (items array.now) }
{
    if !are_objects(array) {
        return Err(LineRefusal::WrongKind);
    }
    Ok(array)
}

/// The array at a key, of which each element is an object.
///
/// # Errors
/// `MissingField` where the key is not there, `WrongKind` where its value is no array or an element is no object.
pub fn objects_in<'o, 'a>(object: &'o Object<'a>, key: &str) -> Reading<&'o [Value<'a>]>
    ensures { seen (λ array. items array.now) result ≡ objects_in key.now (members object.now) }
{
    let value = value_in(object, key)?;
    let array = as_array(value).ok_or(LineRefusal::WrongKind)?;
    objects_of(array)
}

/// Refuses an object that has a key besides these.
///
/// # Errors
/// `ExtraField` where there is one.
pub fn only_keys(object: &Object<'_>, keys: &[&str]) -> Reading<()>
    ensures { result ≡ only_keys (map (λ key. key.now) keys.now) (members object.now) }
{
    if has_only(object, keys) {
        Ok(())
    } else {
        Err(LineRefusal::ExtraField)
    }
}
