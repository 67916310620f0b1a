//! The texts that lines are answered with. Each call puts one text, its line feed included, behind what the buffer has. A
//! buffer of bytes refuses a write only for want of memory, and then it may have a part of the text.
ghost use Rattle.std.specs.Prelude.{◌≡◌, ◌≢◌, ◌++◌, true, codes, decimal, IfOk, OnOk, Some};
ghost use Rattle.rbac_text.specs.AnswerText.{answer_text};
ghost use Rattle.rbac_lines.specs.Text.{stamp_or_null, answered_text, bad_serial_text, reply_text, out_of_turn_text, submitted_text, received_text, delivered_text, nothing_delivered_text, refusal_word, refused_word_text, refused_text, refusal_text, line_refusal_text};

use crate::refusal::DeskRefusal;
use rbac_message_text::put_stamp;
use rbac_text::pieces::{put_number, put_piece};
use rbac_text::{LineRefusal, put_answer};
use rbac_words::{Answer, Record, Refusal, Stamp};
use std::alloc::AllocError;

/// The line as the last key.
fn end_at_line(text: &mut Vec<u8>, line: u64) -> Result<(), AllocError>
    ensures { OnOk result (text.new.items ≡ text.old.items ++ codes ",\"line\":" ++ decimal line ++ codes "}\n") }
{
    put_number(text, ",\"line\":", line)?;
    put_piece(text, "}\n")
}

/// A command was submitted at this stamp.
pub(crate) fn put_submitted(text: &mut Vec<u8>, line: u64, stamp: Stamp) -> Result<(), AllocError>
    ensures { OnOk result (text.new.items ≡ text.old.items ++ submitted_text line stamp) }
{
    put_number(text, "{\"line\":", line)?;
    put_stamp(text, ",\"stamp\":", stamp)?;
    put_piece(text, "}\n")
}

/// The first key of a text about a message that was received, and the stamp.
fn begin_acknowledged(text: &mut Vec<u8>, acknowledged: Option<Stamp>) -> Result<(), AllocError>
    ensures { OnOk result (text.new.items ≡ text.old.items ++ codes "{\"acknowledged\":" ++ stamp_or_null acknowledged) }
{
    match acknowledged {
        Some(stamp) => put_stamp(text, "{\"acknowledged\":", stamp),
        None => put_piece(text, "{\"acknowledged\":null"),
    }
}

/// A message was received, and acknowledged at this stamp if it was acknowledged.
pub(crate) fn put_received(
    text: &mut Vec<u8>,
    line: u64,
    acknowledged: Option<Stamp>,
) -> Result<(), AllocError>
    ensures { OnOk result (text.new.items ≡ text.old.items ++ received_text line acknowledged) }
{
    begin_acknowledged(text, acknowledged)?;
    end_at_line(text, line)
}

/// The first key of a text that has an answer, and the answer.
fn begin_answer(text: &mut Vec<u8>, answer: &Answer) -> Result<(), AllocError>
    ensures { OnOk result (text.new.items ≡ text.old.items ++ codes "{\"answer\":" ++ answer_text answer.now) }
{
    text.extend_from_slice(b"{\"answer\":")?;
    put_answer(text, answer)
}

/// A command was delivered, and this is its record.
pub(crate) fn put_delivered(
    text: &mut Vec<u8>,
    line: u64,
    delivered: &Record,
) -> Result<(), AllocError>
    ensures { OnOk result (text.new.items ≡ text.old.items ++ delivered_text line delivered.now) }
{
    begin_answer(text, &delivered.answer)?;
    put_number(text, ",\"caller\":", u64::from(delivered.caller))?;
    put_number(text, ",\"line\":", line)?;
    put_number(text, ",\"serial\":", u64::from(delivered.serial))?;
    put_stamp(text, ",\"stamp\":", delivered.stamp)?;
    put_piece(text, "}\n")
}

/// No command was due.
pub(crate) fn put_nothing_delivered(text: &mut Vec<u8>, line: u64) -> Result<(), AllocError>
    ensures { OnOk result (text.new.items ≡ text.old.items ++ nothing_delivered_text line) }
{
    put_piece(text, "{\"answer\":null")?;
    end_at_line(text, line)
}

/// The word of a refusal.
fn refusal_word(refusal: &Refusal) -> &'static str
    ensures { result.now ≡ refusal_word refusal.now }
{
    match refusal {
        Refusal::UnknownMember => "UnknownMember",
        Refusal::BadBatch => "BadBatch",
        Refusal::FromSelf => "FromSelf",
        Refusal::NotSent => "NotSent",
        Refusal::Repeat { .. } => "Repeat",
        Refusal::Gap { .. } => "Gap",
        Refusal::StampNotRising => "StampNotRising",
        Refusal::ClockFull => "ClockFull",
        Refusal::SentFull => "SentFull",
        Refusal::BadSerial { .. } => "BadSerial",
        Refusal::NoMemory => "NoMemory",
    }
}

/// How each refusal ends.
fn put_refused_word(text: &mut Vec<u8>, word: &str) -> Result<(), AllocError>
    ensures { OnOk result (text.new.items ≡ text.old.items ++ refused_word_text word.now) }
{
    put_piece(text, ",\"refused\":\"")?;
    put_piece(text, word)?;
    put_piece(text, "\"}\n")
}

/// A refusal that has no more to tell than its word.
///
/// # Errors
/// `AllocError` where there is no memory for it.
pub fn put_refused_line(text: &mut Vec<u8>, line: u64, word: &str) -> Result<(), AllocError>
    ensures { OnOk result (text.new.items ≡ text.old.items ++ refused_text line word.now) }
{
    put_number(text, "{\"line\":", line)?;
    put_refused_word(text, word)
}

fn put_out_of_turn(
    text: &mut Vec<u8>,
    line: u64,
    expected: u64,
    word: &str,
) -> Result<(), AllocError>
    ensures { OnOk result (text.new.items ≡ text.old.items ++ out_of_turn_text line expected word.now) }
{
    put_number(text, "{\"expected\":", expected)?;
    put_number(text, ",\"line\":", line)?;
    put_refused_word(text, word)
}

fn put_bad_serial(text: &mut Vec<u8>, line: u64, next: u64, word: &str) -> Result<(), AllocError>
    ensures { OnOk result (text.new.items ≡ text.old.items ++ bad_serial_text line next word.now) }
{
    put_number(text, "{\"line\":", line)?;
    put_number(text, ",\"next\":", next)?;
    put_refused_word(text, word)
}

/// The event was refused.
///
/// # Errors
/// `AllocError` where there is no memory for it.
pub fn put_refused(text: &mut Vec<u8>, line: u64, refusal: &Refusal) -> Result<(), AllocError>
    ensures { OnOk result (text.new.items ≡ text.old.items ++ refusal_text line refusal.now) }
{
    let word = refusal_word(refusal);
    match refusal {
        Refusal::Repeat { expected } | Refusal::Gap { expected } => {
            put_out_of_turn(text, line, *expected, word)
        }
        Refusal::BadSerial { next } => put_bad_serial(text, line, *next, word),
        _ => put_refused_line(text, line, word),
    }
}

/// The line was refused. Where that was for want of memory, there is no text. Ok says that it is refused.
///
/// # Errors
/// `AllocError` where the refusal is want of memory, and where there is no memory for the text.
pub fn refuse(text: &mut Vec<u8>, line: u64, refusal: LineRefusal) -> Result<bool, AllocError>
    ensures text { OnOk result (text.new.items ≡ text.old.items ++ line_refusal_text line refusal) }
    ensures refused { IfOk result (λ is_refused. is_refused ≡ true) }
    ensures other { OnOk result (refusal ≢ LineRefusal.NoMemory) }
{
    match refusal {
        LineRefusal::NoMemory => Err(AllocError),
        other => {
            put_refused_line(text, line, other.word())?;
            Ok(true)
        }
    }
}

/// The command of a client line was answered.
fn put_answered(text: &mut Vec<u8>, line: u64, answer: &Answer) -> Result<(), AllocError>
    ensures { OnOk result (text.new.items ≡ text.old.items ++ answered_text line answer.now) }
{
    begin_answer(text, answer)?;
    end_at_line(text, line)
}

/// What a desk replied to the command of a client line.
pub(crate) fn put_reply(
    text: &mut Vec<u8>,
    line: u64,
    reply: &Result<Answer, DeskRefusal>,
) -> Result<(), AllocError>
    ensures { OnOk result (text.new.items ≡ text.old.items ++ reply_text line reply.now) }
{
    match reply {
        Ok(answer) => put_answered(text, line, answer),
        Err(refusal) => put_refused_line(text, line, refusal.word()),
    }
}
