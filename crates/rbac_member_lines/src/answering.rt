//! Lines taken by a member.
ghost use Rattle.std.specs.Prelude.{◌≡◌, ◌≢◌, ◌⊎◌, ◌++◌, List, ℕ, true, false, IfOk, IfErr, OnOk, OnErr, Err, is_err};
ghost use Rattle.rbac_words.specs.Keeping.Member.{due_at};
ghost use Rattle.rbac_dump.specs.Dump.{dump_of};
ghost use Rattle.line_engine.specs.Lines.{longest_line};
ghost use Rattle.rbac_embedded.specs.Status.{no_memory};
ghost use Rattle.rbac_embedded_member.specs.Status.{status_number};
ghost use Rattle.rbac_embedded_member.specs.Step.{batch_step, deliver_step, message_step, own_step};
ghost use Rattle.rbac_embedded_member.specs.Texts.{Told};
ghost use Rattle.rbac_member_lines.specs.Text.{dump_line, message_line, numbered_text, received_text, record_line};
ghost use Rattle.rbac_member_lines.specs.Output.{asked_step, asked_told, delivered, done_unless, longest_carried, question_told, status_text, told_text};

use crate::asked::{Asked, Brought, Question, Submission};
use crate::reading::read_asked;
use crate::text::{
    put_delivered, put_dump, put_message, put_numbered, put_received, put_recorded, put_waits,
};
use line_engine::{LONGEST_LINE, Taking};
use rbac_dump::commands_of;
use rbac_embedded::Status;
use rbac_embedded_member::steps::{deliver, receive, submit, take_own};
use rbac_embedded_member::texts::{first_answer, message_at, next_batch, record_at};
use rbac_embedded_member::{MemberStatus, waits_of};
use rbac_lines::{put_refused, put_refused_line, refuse};
use rbac_member::Member;
use rbac_text::Scratch;
use rbac_words::{Message, Refusal};
use std::alloc::{AllocError, Global};

/// The most bytes of a message's text, so that the line that brings it to another member is not too long.
const LONGEST_CARRIED: usize = 65_485;

/// A member takes lines: each asks one thing of it, or is refused.
pub(crate) struct Answering;

impl Taking for Answering {
    type Over = Member;

    type Scratch = Scratch;

    ghost use Rattle.rbac_words.specs.Keeping.Member.{Member as MemberValue};
    ghost use Rattle.rbac_member_lines.specs.Output.{ServesLine};

    ghost State = { MemberValue };

    ghost state = { λ v. v };

    ghost takes = { ServesLine };

    fn scratch(alloc: Global) -> Scratch {
        Scratch::new(alloc)
    }

    fn take_line(
        member: &mut Member,
        alloc: Global,
        scratch: &mut Scratch,
        number: u64,
        line: &[u8],
        text: &mut Vec<u8>,
    ) -> Result<bool, AllocError> {
        match read_asked(alloc, line, scratch) {
            Ok(asked) => answer(member, alloc, number, asked, text),
            Err(refusal) => refuse(text, number, refusal),
        }
    }
}

// A step that is refused, unless memory ran out. Ok says that it is refused.
fn refuse_step(text: &mut Vec<u8>, line: u64, status: MemberStatus) -> Result<bool, AllocError>
    ensures text { OnOk result (text.new.items ≡ text.old.items ++ status_text line status) }
    ensures refused { IfOk result (λ is_refused. is_refused ≡ true) }
    ensures other { OnOk result (status_number status ≢ no_memory) }
    ensures not_done { OnOk result ((own : List ℕ) → done_unless status own ≡ Err status) }
{
    match status {
        MemberStatus::Plain(_) | MemberStatus::Refused(Refusal::NoMemory) => Err(AllocError),
        MemberStatus::Refused(refusal) => {
            put_refused(text, line, &refusal)?;
            Ok(true)
        }
        MemberStatus::MessageTooLong => {
            put_refused_line(text, line, "MessageTooLong")?;
            Ok(true)
        }
        MemberStatus::NotYet => {
            put_refused_line(text, line, "NotYet")?;
            Ok(true)
        }
        MemberStatus::Observes => {
            put_refused_line(text, line, "Observes")?;
            Ok(true)
        }
        MemberStatus::NotAReview => {
            put_refused_line(text, line, "NotAReview")?;
            Ok(true)
        }
    }
}

// Commands are submitted.
fn answer_submit(
    member: &mut Member,
    alloc: Global,
    line: u64,
    one: Submission,
    text: &mut Vec<u8>,
) -> Result<bool, AllocError>
    ensures text { OnOk result (text.new.items ≡ text.old.items ++ told_text line (asked_told line (Asked.Submit one) member.old)) }
    ensures refused { IfOk result (λ is_refused. is_refused ≡ is_err (asked_told line (Asked.Submit one) member.old)) }
    ensures stepped { OnOk result (member.new ≡ (asked_step (Asked.Submit one) member.old).member) }
    ensures starved { OnErr result ((member.new ≡ member.old) ⊎ (member.new ≡ (asked_step (Asked.Submit one) member.old).member)) }
{
    let mut number = 0;
    let Submission {
        caller,
        serial,
        commands,
    } = one;
    match submit(
        alloc,
        member,
        LONGEST_CARRIED,
        caller,
        serial,
        commands,
        &mut number,
    ) {
        MemberStatus::Plain(Status::Done) => {
            put_numbered(text, line, number)?;
            Ok(false)
        }
        status => refuse_step(text, line, status),
    }
}

// A message of another member is received.
fn answer_receive(
    member: &mut Member,
    line: u64,
    one: &Brought,
    text: &mut Vec<u8>,
) -> Result<bool, AllocError>
    ensures text { OnOk result (text.new.items ≡ text.old.items ++ told_text line (asked_told line (Asked.Receive one.now) member.old)) }
    ensures refused { IfOk result (λ is_refused. is_refused ≡ is_err (asked_told line (Asked.Receive one.now) member.old)) }
    ensures stepped { OnOk result (member.new ≡ (asked_step (Asked.Receive one.now) member.old).member) }
    ensures starved { OnErr result ((member.new ≡ member.old) ⊎ (member.new ≡ (asked_step (Asked.Receive one.now) member.old).member)) }
{
    let mut number = 0;
    match receive(member, one.from, one.number, &one.message, &mut number) {
        MemberStatus::Plain(Status::Done) => {
            put_received(text, line, number)?;
            Ok(false)
        }
        status => refuse_step(text, line, status),
    }
}

// A message of the member's own row is taken.
fn answer_own(
    member: &mut Member,
    alloc: Global,
    line: u64,
    number: u32,
    message: Message,
    text: &mut Vec<u8>,
) -> Result<bool, AllocError>
    ensures text { OnOk result (text.new.items ≡ text.old.items ++ told_text line (asked_told line (Asked.Own number message) member.old)) }
    ensures refused { IfOk result (λ is_refused. is_refused ≡ is_err (asked_told line (Asked.Own number message) member.old)) }
    ensures stepped { OnOk result (member.new ≡ (asked_step (Asked.Own number message) member.old).member) }
    ensures starved { OnErr result ((member.new ≡ member.old) ⊎ (member.new ≡ (asked_step (Asked.Own number message) member.old).member)) }
{
    let mut told = 0;
    match take_own(alloc, member, LONGEST_CARRIED, number, message, &mut told) {
        MemberStatus::Plain(Status::Done) => {
            put_numbered(text, line, told)?;
            Ok(false)
        }
        status => refuse_step(text, line, status),
    }
}

// What is due is delivered.
fn answer_deliver(
    member: &mut Member,
    alloc: Global,
    line: u64,
    text: &mut Vec<u8>,
) -> Result<(), AllocError>
    ensures text { OnOk result (text.new.items ≡ text.old.items ++ delivered line member.old (due_at member.old)) }
    ensures stepped { OnOk result (member.new ≡ (deliver_step member.old).member) }
    ensures starved { OnErr result ((member.new ≡ member.old) ⊎ (member.new ≡ (deliver_step member.old).member)) }
{
    match member.deliver(alloc)? {
        Some(place) => match member.history().get(place) {
            Some(record) => put_delivered(text, line, place as u64 + 1, record),
            None => Err(AllocError),
        },
        None => put_recorded(text, line, &[]),
    }
}

// A message that was asked for. Ok says whether there is none.
fn answer_message(
    text: &mut Vec<u8>,
    line: u64,
    told: Result<Vec<u8>, MemberStatus>,
) -> Result<bool, AllocError>
    ensures told { IfOk told (λ own. IfOk result (λ is_refused. (text.new.items ≡ text.old.items ++ message_line line own.items) × (is_refused ≡ false))) }
    ensures refused { IfErr told (λ status. IfOk result (λ is_refused. (text.new.items ≡ text.old.items ++ status_text line status) × ((is_refused ≡ true) × (status_number status ≢ no_memory)))) }
{
    match told {
        Ok(own) => {
            put_message(text, line, &own)?;
            Ok(false)
        }
        Err(status) => refuse_step(text, line, status),
    }
}

// A record that was asked for. Ok says whether there is none.
fn answer_record(
    text: &mut Vec<u8>,
    line: u64,
    told: Result<Vec<u8>, MemberStatus>,
) -> Result<bool, AllocError>
    ensures told { IfOk told (λ own. IfOk result (λ is_refused. (text.new.items ≡ text.old.items ++ record_line line own.items) × (is_refused ≡ false))) }
    ensures refused { IfErr told (λ status. IfOk result (λ is_refused. (text.new.items ≡ text.old.items ++ status_text line status) × ((is_refused ≡ true) × (status_number status ≢ no_memory)))) }
{
    match told {
        Ok(own) => {
            put_recorded(text, line, &own)?;
            Ok(false)
        }
        Err(status) => refuse_step(text, line, status),
    }
}

// The commands that make the member's policy.
fn answer_dump(
    text: &mut Vec<u8>,
    alloc: Global,
    line: u64,
    member: &Member,
) -> Result<(), AllocError>
    ensures { OnOk result (text.new.items ≡ text.old.items ++ dump_line line (dump_of longest_line member.now.policy)) }
{
    let commands = commands_of(alloc, member.policy(), LONGEST_LINE)?;
    put_dump(text, line, &commands)
}

// What changes nothing is told. Ok says whether it is refused.
fn tell(
    member: &Member,
    alloc: Global,
    line: u64,
    question: Question,
    text: &mut Vec<u8>,
) -> Result<bool, AllocError>
    ensures text { OnOk result (text.new.items ≡ text.old.items ++ told_text line (question_told line question member.now)) }
    ensures refused { IfOk result (λ is_refused. is_refused ≡ is_err (question_told line question member.now)) }
{
    match question {
        Question::Next(
            Submission {
                caller,
                serial,
                commands,
            },
        ) => {
            let told = next_batch(alloc, member, LONGEST_CARRIED, caller, serial, commands);
            answer_message(text, line, told)
        }
        Question::Answer(
            Brought {
                from,
                number,
                message,
            },
        ) => {
            let told = first_answer(alloc, member, from, number, &message);
            drop(message);
            answer_message(text, line, told)
        }
        Question::Message { number } => {
            let told = message_at(alloc, member, number as usize);
            answer_message(text, line, told)
        }
        Question::Record { number } => {
            let told = record_at(alloc, member, number as usize);
            answer_record(text, line, told)
        }
        Question::Waits => {
            put_waits(text, line, waits_of(member))?;
            Ok(false)
        }
        Question::Dump => {
            answer_dump(text, alloc, line, member)?;
            Ok(false)
        }
    }
}

// One line's thing, and its text behind what the buffer has. Ok says whether it was refused.
fn answer(
    member: &mut Member,
    alloc: Global,
    line: u64,
    asked: Asked,
    text: &mut Vec<u8>,
) -> Result<bool, AllocError>
    ensures text { OnOk result (text.new.items ≡ text.old.items ++ told_text line (asked_told line asked member.old)) }
    ensures refused { IfOk result (λ is_refused. is_refused ≡ is_err (asked_told line asked member.old)) }
    ensures stepped { OnOk result (member.new ≡ (asked_step asked member.old).member) }
    ensures starved { OnErr result ((member.new ≡ member.old) ⊎ (member.new ≡ (asked_step asked member.old).member)) }
{
    match asked {
        Asked::Submit(one) => answer_submit(member, alloc, line, one, text),
        Asked::Receive(one) => {
            let answered = answer_receive(member, line, &one, text);
            drop(one);
            answered
        }
        Asked::Own { number, message } => answer_own(member, alloc, line, number, message, text),
        Asked::Deliver => {
            answer_deliver(member, alloc, line, text)?;
            Ok(false)
        }
        Asked::Tell(question) => tell(member, alloc, line, question, text),
    }
}
