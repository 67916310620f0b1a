//! The text of a record.
ghost use Rattle.std.specs.Prelude.{◌≡◌, ◌++◌, codes, decimal, OnOk};
ghost use Rattle.rbac_text.specs.AnswerText.{answer_text};
ghost use Rattle.rbac_text.specs.CommandText.{command_text};
ghost use Rattle.rbac_message_text.specs.StampText.{stamp_text};
ghost use Rattle.rbac_message_text.specs.RecordText.{record_text};

use crate::stamp::put_stamp;
use rbac_text::pieces::{put_number, put_piece};
use rbac_text::{put_answer, put_command};
use rbac_words::Record;
use std::alloc::AllocError;

// Its begin: the answer, the caller and the command.
fn put_begin(text: &mut Vec<u8>, delivered: &Record) -> Result<(), AllocError>
    ensures { OnOk result (text.new.items ≡ text.old.items ++ (codes "{\"answer\":" ++ answer_text delivered.now.answer ++ codes ",\"caller\":" ++ decimal delivered.now.caller ++ codes ",\"command\":" ++ command_text delivered.now.command)) }
{
    put_piece(text, "{\"answer\":")?;
    put_answer(text, &delivered.answer)?;
    put_number(text, ",\"caller\":", u64::from(delivered.caller))?;
    put_piece(text, ",\"command\":")?;
    put_command(text, delivered.command.get())
}

// Its end: the serial and the stamp.
fn put_end(text: &mut Vec<u8>, delivered: &Record) -> Result<(), AllocError>
    ensures { OnOk result (text.new.items ≡ text.old.items ++ (codes ",\"serial\":" ++ decimal delivered.now.serial ++ codes ",\"stamp\":" ++ stamp_text delivered.now.stamp ++ codes "}")) }
{
    put_number(text, ",\"serial\":", u64::from(delivered.serial))?;
    put_stamp(text, ",\"stamp\":", delivered.stamp)?;
    put_piece(text, "}")
}

/// The text of a record: its answer, and its command with the caller, the serial and the stamp.
///
/// # Errors
/// `AllocError` where there is no memory for it. The buffer may have a part of the text then.
pub fn put_record(text: &mut Vec<u8>, delivered: &Record) -> Result<(), AllocError>
    ensures { OnOk result (text.new.items ≡ text.old.items ++ record_text delivered.now) }
{
    put_begin(text, delivered)?;
    put_end(text, delivered)
}
