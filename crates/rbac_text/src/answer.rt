//! The text of an answer. Each call puts one text behind what the buffer has. A buffer of bytes refuses a write only for want of
//! memory, and then it may have a part of the text.
ghost use Rattle.std.specs.Prelude.{◌≡◌, ◌++◌, OnOk};
ghost use Rattle.rbac_text.specs.AnswerText.{answer_text, count_text, denial_text};

mod lists;

use crate::pieces::{put_number, put_piece};
pub use lists::put_subjects;
use lists::{put_names, put_permissions};
use rbac_terms::{Answer, Denial};
use std::alloc::AllocError;

fn put_denial(text: &mut Vec<u8>, denial: Denial) -> Result<(), AllocError>
    ensures { OnOk result (text.new.items ≡ text.old.items ++ denial_text denial) }
{
    put_piece(text, "{\"denied\":\"")?;
    put_piece(text, denial.word())?;
    put_number(text, "\",\"number\":", u64::from(denial.number()))?;
    put_piece(text, "}")
}

fn put_count(text: &mut Vec<u8>, count: u32) -> Result<(), AllocError>
    ensures { OnOk result (text.new.items ≡ text.old.items ++ count_text count) }
{
    put_number(text, "{\"count\":", u64::from(count))?;
    put_piece(text, "}")
}

/// An answer by itself, without a line feed.
///
/// # Errors
/// `AllocError` where there is no memory for it.
pub fn put_answer(text: &mut Vec<u8>, answer: &Answer) -> Result<(), AllocError>
    ensures { OnOk result (text.new.items ≡ text.old.items ++ answer_text answer.now) }
{
    match answer {
        Answer::Done => text.extend_from_slice(b"\"Done\""),
        Answer::Granted => text.extend_from_slice(b"\"Granted\""),
        Answer::Refused => text.extend_from_slice(b"\"Refused\""),
        Answer::Names(names) => put_names(text, names.names()),
        Answer::Permissions(permissions) => put_permissions(text, permissions.permissions()),
        Answer::Count(count) => put_count(text, *count),
        Answer::Denied(denial) => put_denial(text, *denial),
    }
}
