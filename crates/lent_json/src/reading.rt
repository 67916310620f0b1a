//! The value that a text is.
ghost use Rattle.std.specs.Prelude.{◌≡◌, Some, None, Err, IfOk};
ghost use Rattle.json.specs.Value.{value_view};
ghost use Rattle.lent_json.specs.Data.{document, json_of, meaning};

use crate::range::is_in_range;
use json::{Error, Reader, Scratch, Value};
use std::alloc::{AllocError, Global};

// How deep arrays and objects may nest, which is as deep as `serde_json` reads.
const DEEPEST: usize = 127;

/// Why a text was not read.
#[derive(Clone, Copy, Debug, PartialEq, Eq, Drop)]
pub enum Unread {
    NoMemory,
    NotJson,
}

impl From<AllocError> for Unread {
    ghost use Rattle.std.specs.Prelude.{◌≡◌};
    ghost use Rattle.lent_json.specs.declared.reading.Unread.TheVariants.{NoMemory};

    ghost from_gives = { λ _ made. made ≡ NoMemory };

    fn from(_refused: AllocError) -> Unread {
        Unread::NoMemory
    }
}

impl From<Error> for Unread {
    ghost use Rattle.std.specs.Prelude.{◌≡◌, ◌≢◌};
    ghost use Rattle.json.specs.declared.error.Error.TheVariants.{OutOfMemory};
    ghost use Rattle.lent_json.specs.declared.reading.Unread.TheVariants.{NotJson};

    ghost from_gives = { λ fault made. made ≡ NotJson → fault ≢ OutOfMemory };

    fn from(fault: Error) -> Unread {
        match fault {
            Error::OutOfMemory => Unread::NoMemory,
            _ => Unread::NotJson,
        }
    }
}

// The value of the grammar that a text is.
fn whole_value<'a>(
    alloc: Global,
    text: &'a str,
    scratch: &'a mut Scratch,
) -> Result<Value<'a>, Unread>
    ensures read { IfOk result (λ value. document text.now ≡ Some (value_view value)) }
    ensures refused { result ≡ Err Unread.NotJson → document text.now ≡ None }
{
    let mut reader = Reader::new(text, scratch)?;
    let value = Value::read(alloc, &mut reader, DEEPEST)?;
    if reader.next().is_some() {
        return Err(Unread::NotJson);
    }
    Ok(value)
}

/// The value that bytes are a text of. Bytes that are not UTF-8 are no JSON, nor is a number that is too large for a float, nor what nests
/// deeper than 127. The scratch takes strings that have an escape, and is kept from text to text.
///
/// # Errors
/// `NotJson` where the bytes are no JSON text, `NoMemory` where memory ends.
pub fn read<'a>(
    alloc: Global,
    text: &'a [u8],
    scratch: &'a mut Scratch,
) -> Result<Value<'a>, Unread>
    ensures read { IfOk result (λ value. json_of text.now ≡ Some (meaning value)) }
    ensures refused { result ≡ Err Unread.NotJson → json_of text.now ≡ None }
{
    let Ok(text) = simdutf8::compat::from_utf8(text) else {
        return Err(Unread::NotJson);
    };
    let value = whole_value(alloc, text, scratch)?;
    if is_in_range(&value) {
        Ok(value)
    } else {
        Err(Unread::NotJson)
    }
}
