//! A whole input answered by a desk.
ghost use Rattle.std.specs.Prelude.{◌≡◌, ◌≢◌, ◌≤◌, ◌⊎◌, ◌++◌, true, false, ℕ, List, Bool, length, IfOk, IfSome, OnOk, OnErr, Ok, Err};
ghost use Rattle.std.specs.Io.KnownBytes.{Appends, Consumes, IsAtEnd};
ghost use Rattle.line_engine.specs.Lines.{lines, lines_read};
ghost use Rattle.line_engine.specs.Runs.{RunOutcome, is_read_fault, is_write_fault};
ghost use Rattle.line_engine.specs.Watched.{ended_of, failed_of, inner_of, reads_of};
ghost use Rattle.rbac_lines.specs.Output.{most_reads};
ghost use Rattle.rbac_lines.specs.Conversation.{Answers, AnswersLine, Conversation};

use crate::desk::Desk;
use crate::refusal::DeskRefusal;
use crate::running::MOST_READS;
use crate::text::{put_reply, refuse};
use line_engine::{RunFault, Summary, Taking, Watched, run_lines};
use rbac_text::{Scratch, read_client};
use rbac_words::{Answer, Command};
use std::alloc::{AllocError, Global};
use std::io::{Read, Write};
use std::marker::PhantomData;

/// A desk takes lines: each asks it for a command, or is refused.
pub(crate) struct Conversing<D: Desk>(PhantomData<D>);

impl<D: Desk> Taking for Conversing<D> {
    type Over = D;

    type Scratch = Scratch;

    ghost State = { D };

    ghost state = { λ desk. desk };

    ghost takes = { AnswersLine D.asks };

    fn scratch(alloc: Global) -> Scratch {
        Scratch::new(alloc)
    }

    fn take_line(
        desk: &mut D,
        alloc: Global,
        scratch: &mut Scratch,
        number: u64,
        line: &[u8],
        text: &mut Vec<u8>,
    ) -> Result<bool, AllocError> {
        match read_client(alloc, line, scratch) {
            Ok((at, command)) => ask(desk, alloc, number, at, command, text),
            Err(refusal) => refuse(text, number, refusal),
        }
    }
}

fn is_lost(reply: &Result<Answer, DeskRefusal>) -> bool
    ensures lost { result ≡ true → reply.now ≡ Err DeskRefusal.NoMemory }
    ensures kept { result ≡ false → reply.now ≢ Err DeskRefusal.NoMemory }
{
    matches!(reply, Err(DeskRefusal::NoMemory))
}

// One command, and the reply's text behind what the buffer has. Ok says whether the reply is a refusal.
fn ask<D: Desk>(
    desk: &mut D,
    alloc: Global,
    number: u64,
    at: u32,
    command: Command,
    text: &mut Vec<u8>,
) -> Result<bool, AllocError>
    ensures answered { IfOk result (λ is_refused. (own : List ℕ) × (text.new.items ≡ text.old.items ++ own)
        × Answers D.asks desk.old number (Ok (at, command)) own is_refused desk.new) }
    ensures unchanged_or_answered { OnErr result ((desk.new ≡ desk.old)
        ⊎ ((own : List ℕ) × (is_refused : Bool) × Answers D.asks desk.old number (Ok (at, command)) own is_refused desk.new)) }
{
    let reply = desk.call(alloc, at, command);
    if is_lost(&reply) {
        return Err(AllocError);
    }
    put_reply(text, number, &reply)?;
    Ok(reply.is_err())
}

/// Asks the desk for the command of each line of the reader, once and in order, and writes each line's text right after its
/// reply; a line that asks for no command is refused. Where memory runs out, the desk's included, the conversation ends. On Ok the
/// input was read to its end, and each line has its answer. A fault says why the conversation ended early; the clause
/// `outcome` says which lines were answered by then. Of a line that is too long only the front is kept, which asks for the same
/// (`kept_line_asks_the_same`).
///
/// # Errors
/// `Read` where the reader fails, `Write` where the writer does, `TooManyReads` where the input has not ended after 268,435,456
/// reads, `NoMemory` where memory ends, the desk's included.
pub fn converse<R: Read, W: Write, D: Desk>(
    alloc: Global,
    reader: &mut Watched<R>,
    writer: &mut Watched<W>,
    desk: &mut D,
) -> Result<Summary, RunFault>
    requires reader_sound { failed_of reader.old ≡ false }
    requires unread { reads_of reader.old ≡ 0 }
    requires writer_sound { failed_of writer.old ≡ false }
    ensures read_to_end { OnOk result (IsAtEnd (R.remaining (inner_of reader.new))) }
    ensures answered { IfOk result (λ summary. IfSome (R.remaining (inner_of reader.old)) (λ input. (text : List ℕ)
        × Appends (W.contents (inner_of writer.old)) (W.contents (inner_of writer.new)) text
        × Conversation D.asks desk.old (lines input) text summary.refused desk.new)) }
    ensures counted { IfOk result (λ summary. IfSome (R.remaining (inner_of reader.old)) (λ input. summary.lines ≡ length (lines input))) }

    // What was read, and what of it was answered and written, at Ok and at each fault.
    ensures outcome { (input : List ℕ) × Consumes (R.remaining (inner_of reader.old)) (R.remaining (inner_of reader.new)) input
        × RunOutcome (AnswersLine D.asks) desk.old (W.contents (inner_of writer.old)) (lines_read (ended_of reader.new) input)
        desk.new (W.contents (inner_of writer.new)) result }
    ensures ended { OnOk result (ended_of reader.new ≡ true) }
    ensures read_fault { result ≡ Err RunFault.Read → ended_of reader.new ≡ false }
    ensures too_many_reads { result ≡ Err RunFault.TooManyReads → (ended_of reader.new ≡ false) × (reads_of reader.new ≡ most_reads) }
    ensures reads { reads_of reader.new ≤ most_reads }
    ensures reader_failed { failed_of reader.new ≡ is_read_fault result }
    ensures writer_failed { failed_of writer.new ≡ is_write_fault result }
{
    run_lines::<Conversing<D>, R, W>(alloc, reader, writer, desk, MOST_READS)
}
