//! The texts that lines are answered with. Each call puts one text, its line feed included, behind what the buffer has. A buffer of
//! bytes refuses a write only for want of memory, and then it may have a part of the text.
ghost use Rattle.std.specs.Prelude.{◌≡◌, ◌++◌, codes, decimal, OnOk};
ghost use Rattle.rbac_member_lines.specs.Text.{delivered_line, dump_line, end_text, held_text, message_line, none_held_text, number_or_null, numbered_text, received_text, record_line, text_or_null, waits_line};

use rbac_embedded_member::Waiting;
use rbac_message_text::{put_record, put_stamp};
use rbac_text::pieces::{put_number, put_piece};
use rbac_text::put_commands;
use rbac_words::{Command, Record};
use std::alloc::AllocError;

/// The line as the last key.
fn end_at_line(text: &mut Vec<u8>, line: u64) -> Result<(), AllocError>
    ensures { OnOk result (text.new.items ≡ text.old.items ++ end_text line) }
{
    put_number(text, ",\"line\":", line)?;
    put_piece(text, "}\n")
}

/// A message was sent or taken, and this is its number.
pub(crate) fn put_numbered(text: &mut Vec<u8>, line: u64, number: u64) -> Result<(), AllocError>
    ensures { OnOk result (text.new.items ≡ text.old.items ++ numbered_text line number) }
{
    put_number(text, "{\"line\":", line)?;
    put_number(text, ",\"number\":", number)?;
    put_piece(text, "}\n")
}

fn put_number_or_null(text: &mut Vec<u8>, number: u64) -> Result<(), AllocError>
    ensures { OnOk result (text.new.items ≡ text.old.items ++ number_or_null number) }
{
    if number == 0 {
        return put_piece(text, "null");
    }
    put_number(text, "", number)
}

/// A message was received, and acknowledged by the message of this number, or, where that is 0, not acknowledged.
pub(crate) fn put_received(text: &mut Vec<u8>, line: u64, number: u64) -> Result<(), AllocError>
    ensures { OnOk result (text.new.items ≡ text.old.items ++ received_text line number) }
{
    put_piece(text, "{\"acknowledged\":")?;
    put_number_or_null(text, number)?;
    end_at_line(text, line)
}

fn put_text_or_null(text: &mut Vec<u8>, own: &[u8]) -> Result<(), AllocError>
    ensures { OnOk result (text.new.items ≡ text.old.items ++ text_or_null own.now) }
{
    match own {
        [] => put_piece(text, "null"),
        _ => text.extend_from_slice(own),
    }
}

/// A text behind a key that comes after that of the line.
fn put_keyed(text: &mut Vec<u8>, line: u64, key: &str, own: &[u8]) -> Result<(), AllocError>
    ensures { OnOk result (text.new.items ≡ text.old.items ++ codes "{\"line\":" ++ decimal line ++ key.now ++ text_or_null own.now ++ codes "}\n") }
{
    put_number(text, "{\"line\":", line)?;
    put_piece(text, key)?;
    put_text_or_null(text, own)?;
    put_piece(text, "}\n")
}

/// A message, or that there is none.
pub(crate) fn put_message(text: &mut Vec<u8>, line: u64, own: &[u8]) -> Result<(), AllocError>
    ensures { OnOk result (text.new.items ≡ text.old.items ++ message_line line own.now) }
{
    put_keyed(text, line, ",\"message\":", own)
}

/// A record, or that there is none.
pub(crate) fn put_recorded(text: &mut Vec<u8>, line: u64, own: &[u8]) -> Result<(), AllocError>
    ensures { OnOk result (text.new.items ≡ text.old.items ++ record_line line own.now) }
{
    put_keyed(text, line, ",\"record\":", own)
}

/// A command was delivered, and this is its record and that one's number.
pub(crate) fn put_delivered(
    text: &mut Vec<u8>,
    line: u64,
    number: u64,
    delivered: &Record,
) -> Result<(), AllocError>
    ensures { OnOk result (text.new.items ≡ text.old.items ++ delivered_line line number delivered.now) }
{
    put_number(text, "{\"line\":", line)?;
    put_number(text, ",\"number\":", number)?;
    put_piece(text, ",\"record\":")?;
    put_record(text, delivered)?;
    put_piece(text, "}\n")
}

// No command is held.
fn put_none_held(text: &mut Vec<u8>, line: u64) -> Result<(), AllocError>
    ensures { OnOk result (text.new.items ≡ text.old.items ++ none_held_text line) }
{
    put_number(text, "{\"line\":", line)?;
    put_piece(text, ",\"stamp\":null,\"waits\":0}\n")
}

// The least command that is held, and whom it waits for.
fn put_waiting(text: &mut Vec<u8>, line: u64, waiting: Waiting) -> Result<(), AllocError>
    ensures { OnOk result (text.new.items ≡ text.old.items ++ held_text line waiting) }
{
    put_number(text, "{\"line\":", line)?;
    put_stamp(text, ",\"stamp\":", waiting.stamp)?;
    put_number(text, ",\"waits\":", u64::from(waiting.awaited))?;
    put_piece(text, "}\n")
}

/// The least command that is held, if one is, and whom it waits for.
pub(crate) fn put_waits(
    text: &mut Vec<u8>,
    line: u64,
    waiting: Option<Waiting>,
) -> Result<(), AllocError>
    ensures { OnOk result (text.new.items ≡ text.old.items ++ waits_line line waiting) }
{
    match waiting {
        None => put_none_held(text, line),
        Some(waiting) => put_waiting(text, line, waiting),
    }
}

/// The commands that make a policy.
pub(crate) fn put_dump(
    text: &mut Vec<u8>,
    line: u64,
    commands: &[Command],
) -> Result<(), AllocError>
    ensures { OnOk result (text.new.items ≡ text.old.items ++ dump_line line commands.now) }
{
    put_commands(text, "{\"commands\":", commands)?;
    end_at_line(text, line)
}
