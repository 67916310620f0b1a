//! The texts that a member tells.
ghost use Rattle.std.specs.Prelude.{◌≡◌, ◌≢◌, ◌≤◌, length, nat_lt, option_map, IfOk, IfErr, IfSome, OnOk, Ok, Err};
ghost use Rattle.rbac_words.specs.Message.{stamp_of};
ghost use Rattle.rbac_embedded.specs.Status.{no_memory};
ghost use Rattle.rbac_message_text.specs.MessageText.{longest_message, message_text};
ghost use Rattle.rbac_message_text.specs.Message.{message_read};
ghost use Rattle.rbac_message_text.specs.RecordText.{record_text};
ghost use Rattle.rbac_embedded_member.specs.Status.{status_number};
ghost use Rattle.rbac_embedded_member.specs.Step.{status_of};
ghost use Rattle.rbac_embedded_member.specs.Texts.{answer_text, batch_told, item_at, message_at, message_told, policy_dump, record_at, short_text, ReadsBackAs};

use crate::status::MemberStatus;
use crate::steps::refused;
use rbac_dump::dump_lines;
use rbac_embedded::Status;
use rbac_member::{Member, Record};
use rbac_message_text::{put_message, put_record};
use rbac_words::{Commands, Message, Refusal, Stamp};
use std::alloc::{AllocError, Global};

/// A text, or why there is none.
pub type Told = Result<Vec<u8>, MemberStatus>;

// Item number n of a list, counted from 1.
fn item_at<T>(items: &[T], number: usize) -> Option<&T>
    ensures { option_map (λ item. item.now) result ≡ item_at items.now number }
{
    if number < 1 {
        return None;
    }
    items.get(number - 1)
}

// The text of a message.
fn text_of(alloc: Global, message: &Message) -> Result<Vec<u8>, AllocError>
    ensures text { IfOk result (λ text. text.items ≡ message_text message.now) }
    ensures reads_back { OnOk result ((stamp_of message.now).place ≡ 0 → length (message_text message.now) ≤ longest_message → message_read (message_text message.now) ≡ Ok message.now) }
{
    let mut text = Vec::new(alloc);
    put_message(&mut text, message)?;
    Ok(text)
}

/// Whether the text of a message has more bytes than this.
pub(crate) fn is_long(alloc: Global, longest: usize, message: &Message) -> Result<bool, AllocError>
    ensures { IfOk result (λ long. long ≡ nat_lt longest (length (message_text message.now))) }
{
    let text = text_of(alloc, message)?;
    Ok(longest < text.len())
}

// The message of a number that a member sent.
fn sent_at(member: &Member, number: usize) -> Option<&Message>
    ensures item { option_map (λ message. message.now) result ≡ item_at member.now.sent number }
    ensures first { IfSome result (λ message. (stamp_of message.now).place ≡ 0) }
{
    member.invariants();
    item_at(member.sent(), number)
}

/// The text of the message of a number that a member sent.
pub fn message_at(alloc: Global, member: &Member, number: usize) -> Told
    ensures text { IfOk result (λ text. message_at number member.now ≡ Ok text.items) }
    ensures none { IfErr result (λ status. status_number status ≢ no_memory → message_at number member.now ≡ Err status) }
    ensures reads_back { OnOk result (ReadsBackAs (item_at member.now.sent number)) }
{
    let Some(message) = sent_at(member, number) else {
        return Err(MemberStatus::Refused(Refusal::NotSent));
    };
    match text_of(alloc, message) {
        Ok(text) => Ok(text),
        Err(AllocError) => Err(MemberStatus::Plain(Status::NoMemory)),
    }
}

// The text of a record.
fn record_of(alloc: Global, delivered: &Record) -> Result<Vec<u8>, AllocError>
    ensures { IfOk result (λ text. text.items ≡ record_text delivered.now) }
{
    let mut text = Vec::new(alloc);
    put_record(&mut text, delivered)?;
    Ok(text)
}

// The record of a number of a member's history.
fn delivered_at(member: &Member, number: usize) -> Option<&Record>
    ensures { option_map (λ delivered. delivered.now) result ≡ item_at member.now.history number }
{
    item_at(member.history(), number)
}

/// The text of the record of a number of a member's history.
pub fn record_at(alloc: Global, member: &Member, number: usize) -> Told
    ensures text { IfOk result (λ text. record_at number member.now ≡ Ok text.items) }
    ensures none { IfErr result (λ status. status_number status ≢ no_memory → record_at number member.now ≡ Err status) }
{
    let Some(delivered) = delivered_at(member, number) else {
        return Err(MemberStatus::Refused(Refusal::NotSent));
    };
    match record_of(alloc, delivered) {
        Ok(text) => Ok(text),
        Err(AllocError) => Err(MemberStatus::Plain(Status::NoMemory)),
    }
}

/// The dump of a member's policy.
pub fn policy_dump(alloc: Global, member: &Member) -> Told
    ensures text { IfOk result (λ text. policy_dump member.now ≡ Ok text.items) }
    ensures none { IfErr result (λ status. status_number status ≡ no_memory) }
{
    match dump_lines(alloc, member.policy()) {
        Ok(text) => Ok(text),
        Err(AllocError) => Err(MemberStatus::Plain(Status::NoMemory)),
    }
}

/// Why a text is not told.
pub(crate) fn not_told(refusal: Refusal) -> MemberStatus
    ensures { result ≡ status_of refusal }
{
    refused(refusal, &mut 0)
}

// The text of a message that is to be sent, where it has at most so many bytes.
fn short_text(alloc: Global, longest: usize, message: &Message) -> Told
    ensures text { IfOk result (λ text. short_text longest message.now ≡ Ok text.items) }
    ensures none { IfErr result (λ status. status_number status ≢ no_memory → short_text longest message.now ≡ Err status) }
{
    match text_of(alloc, message) {
        Ok(text) if longest < text.len() => Err(MemberStatus::MessageTooLong),
        Ok(text) => Ok(text),
        Err(AllocError) => Err(MemberStatus::Plain(Status::NoMemory)),
    }
}

/// The text of the message by which commands would be submitted.
pub fn next_batch(
    alloc: Global,
    member: &Member,
    longest: usize,
    caller: u32,
    serial: u32,
    commands: Commands,
) -> Told
    ensures text { IfOk result (λ text. batch_told longest caller serial commands member.now ≡ Ok text.items) }
    ensures none { IfErr result (λ status. status_number status ≢ no_memory → batch_told longest caller serial commands member.now ≡ Err status) }
{
    match member.next_batch(caller, serial, commands) {
        Ok(message) => {
            let told = short_text(alloc, longest, &message);
            drop(message);
            told
        }
        Err(refusal) => Err(not_told(Refusal::from(refusal))),
    }
}

// The text of an acknowledgement, or none.
fn answer_of(alloc: Global, stamp: Option<Stamp>) -> Told
    ensures text { IfOk result (λ text. text.items ≡ answer_text stamp) }
    ensures none { IfErr result (λ status. status_number status ≡ no_memory) }
{
    let Some(stamp) = stamp else {
        return Ok(Vec::new(alloc));
    };
    match text_of(alloc, &Message::Ack { stamp }) {
        Ok(text) => Ok(text),
        Err(AllocError) => Err(MemberStatus::Plain(Status::NoMemory)),
    }
}

/// The text of the acknowledgement that a message wants before it is received.
pub fn first_answer(
    alloc: Global,
    member: &Member,
    from: u32,
    number: u32,
    message: &Message,
) -> Told
    ensures text { IfOk result (λ text. message_told from number message.now member.now ≡ Ok text.items) }
    ensures none { IfErr result (λ status. status_number status ≢ no_memory → message_told from number message.now member.now ≡ Err status) }
{
    match member.first_answer(from, number, message) {
        Ok(stamp) => answer_of(alloc, stamp),
        Err(refusal) => Err(not_told(Refusal::from(refusal))),
    }
}
