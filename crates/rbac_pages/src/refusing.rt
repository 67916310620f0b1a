//! Why an event of a schedule, or a line of it, is refused, as text. A contract names none of what `thiserror` shows, so the sentences
//! stand here.
ghost use Rattle.std.specs.Prelude.{◌≡◌, IfOk};
ghost use Rattle.rbac_pages.specs.RefusedText.{refusal_sentence, line_refusal_sentence, refused_text};

use crate::text::put;
use rbac_text::LineRefusal;
use rbac_words::Refusal;
use std::alloc::{AllocError, Global};
use std::fmt;
use std::fmt::Display;

/// The sentence that tells why an event is refused.
#[derive(Clone, Copy, Drop)]
pub(crate) struct Sentence {
    pub(crate) refusal: Refusal,
}

impl Display for Sentence {
    ghost use Rattle.std.specs.Prelude.{Some};
    ghost use Rattle.rbac_pages.specs.RefusedText.{refusal_sentence};

    ghost output = { λ sentence. Some (refusal_sentence sentence.refusal) };

    fn fmt<W: fmt::Write>(&self, f: &mut fmt::Formatter<W>) -> fmt::Result {
        match self.refusal {
            Refusal::UnknownMember => write!(f, "the group has no member of this number"),
            Refusal::BadBatch => write!(
                f,
                "a message has 1 to 64 commands, with serials up to 4294967295"
            ),
            Refusal::FromSelf => write!(f, "a member receives nothing from itself"),
            Refusal::NotSent => write!(f, "the sender has sent no message of this number"),
            Refusal::Repeat { expected } => write!(
                f,
                "the message was received before: expected message {expected}"
            ),
            Refusal::Gap { expected } => write!(
                f,
                "a message before this one is missing: expected message {expected}"
            ),
            Refusal::StampNotRising => write!(
                f,
                "the stamp is none of a message of the sender, or not above the last one taken from it"
            ),
            Refusal::ClockFull => write!(f, "the member's clock is at its limit"),
            Refusal::SentFull => write!(
                f,
                "the member has sent as many messages as the founding allows"
            ),
            Refusal::BadSerial { next } => write!(f, "expected serial {next}"),
            Refusal::NoMemory => write!(f, "no memory"),
        }
    }
}

// The sentence that tells why a line is refused.
fn line_sentence(refusal: LineRefusal) -> &'static str
    ensures { result.now ≡ line_refusal_sentence refusal }
{
    match refusal {
        LineRefusal::TooLong => "the line has more than 65536 bytes",
        LineRefusal::NotJson => "the line is no JSON text",
        LineRefusal::NotObject => "the value is no object",
        LineRefusal::UnknownWord =>
            "the word of the line, or the name of its command, is not known",
        LineRefusal::MissingField => "a field is not there",
        LineRefusal::WrongKind => {
            "a field is not of its kind: a whole number up to 4294967295, a text, an array of texts, an object or an array of objects"
        }
        LineRefusal::BadName => "a text is no name",
        LineRefusal::ExtraField => "there is a field that does not belong there",
        LineRefusal::NoMemory => "no memory",
    }
}

/// Why the event of a line was refused.
///
/// # Errors
/// `AllocError` where there is no memory for it.
pub fn refused_text(alloc: Global, line: u64, refusal: Refusal) -> Result<Vec<u8>, AllocError>
    ensures { IfOk result (λ text. text.items ≡ refused_text line (refusal_sentence refusal)) }
{
    let mut text = Vec::new(alloc);
    let sentence = Sentence { refusal };
    put(
        &mut text,
        format_args!("line {line}: refused: {sentence}\n"),
    )?;
    Ok(text)
}

/// Why a line is no event.
///
/// # Errors
/// `AllocError` where there is no memory for it.
pub fn refused_line_text(
    alloc: Global,
    line: u64,
    refusal: LineRefusal,
) -> Result<Vec<u8>, AllocError>
    ensures { IfOk result (λ text. text.items ≡ refused_text line (line_refusal_sentence refusal)) }
{
    let mut text = Vec::new(alloc);
    let sentence = line_sentence(refusal);
    put(
        &mut text,
        format_args!("line {line}: refused: {sentence}\n"),
    )?;
    Ok(text)
}
