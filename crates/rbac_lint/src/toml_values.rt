//! What stands at the keys of a founding file.

use std::alloc::{AllocError, Global};
use toml::{Table, Value};

/// What a value is, as a person says it.
pub(crate) fn kind_words(value: &Value) -> &'static str {
    match value {
        Value::String(_) => "a text",
        Value::Integer(_) => "a whole number",
        Value::Float(_) => "a number that is not whole",
        Value::Boolean(_) => "true or false",
        Value::Datetime(_) => "a date or a time",
        Value::Array(_) => "an array",
        Value::Table(_) => "a table",
    }
}

/// The two texts that a value is, if it is an array of just two texts.
pub(crate) fn pair_of(value: &Value) -> Option<(&str, &str)> {
    match value.as_array()?.as_slice() {
        [first, second] => Some((first.as_str()?, second.as_str()?)),
        _ => None,
    }
}

/// The texts of an array; what is no text is left out.
pub(crate) fn texts_of<'d>(
    alloc: Global,
    document: &'d Table,
    key: &str,
) -> Result<Vec<&'d str>, AllocError> {
    let mut texts = Vec::new(alloc);
    let Some(array) = document.get(key).and_then(Value::as_array) else {
        return Ok(texts);
    };
    for value in array {
        if let Some(text) = value.as_str() {
            texts.push(text)?;
        }
    }
    Ok(texts)
}
