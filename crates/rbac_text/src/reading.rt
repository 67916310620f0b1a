//! Texts as commands.
ghost use Rattle.std.specs.Prelude.{◌≡◌, ◌≢◌, IfOk, IfErr, Ok, Err};
ghost use Rattle.lent_json.specs.Data.{meaning};
ghost use Rattle.rbac_text.specs.Value.{value_of, value_within};

mod asked;
mod client;
mod command_array;
mod command_text;
mod commands;
pub mod fields;

use crate::refusal::LineRefusal;
pub use asked::read_asked;
pub use client::read_client;
pub use command_array::commands_of;
pub use command_text::read_command;
pub use commands::command_of;
use lent_json::{Scratch, Unread, Value};
use line_engine::LONGEST_LINE;
use std::alloc::Global;

/// The value of a text of JSON that has at most this many bytes. Bytes that are not UTF-8 are no JSON.
///
/// # Errors
/// `TooLong` where it has more bytes, `NotJson` where it is no JSON text, and `NoMemory` where memory ends.
pub fn value_within<'a>(
    alloc: Global,
    text: &'a [u8],
    longest: usize,
    scratch: &'a mut Scratch,
) -> Result<Value<'a>, LineRefusal>
    ensures value_read { IfOk result (λ value. value_within longest text.now ≡ Ok (meaning value)) }
    ensures first_refusal { IfErr result (λ refusal. refusal ≢ LineRefusal.NoMemory → value_within longest text.now ≡ Err refusal) }
{
    if longest < text.len() {
        return Err(LineRefusal::TooLong);
    }
    match lent_json::read(alloc, text, scratch) {
        Ok(value) => Ok(value),
        Err(Unread::NoMemory) => Err(LineRefusal::NoMemory),
        Err(Unread::NotJson) => Err(LineRefusal::NotJson),
    }
}

/// The value of a line of JSON, of at most 65,536 bytes.
///
/// # Errors
/// As `value_within`.
pub fn value_of<'a>(
    alloc: Global,
    line: &'a [u8],
    scratch: &'a mut Scratch,
) -> Result<Value<'a>, LineRefusal>
    ensures value_read { IfOk result (λ value. value_of line.now ≡ Ok (meaning value)) }
    ensures first_refusal { IfErr result (λ refusal. refusal ≢ LineRefusal.NoMemory → value_of line.now ≡ Err refusal) }
{
    value_within(alloc, line, LONGEST_LINE, scratch)
}
