//! The steps of a member, each from what was read of a text. Where memory runs out, a step is not taken.
ghost use Rattle.std.specs.Prelude.{◌≡◌, ◌≢◌};
ghost use Rattle.rbac_embedded.specs.Status.{no_memory};
ghost use Rattle.rbac_embedded_member.specs.Status.{status_number};
ghost use Rattle.rbac_embedded_member.specs.Step.{batch_step, deliver_step, message_step, own_step, status_of, told_by};

use crate::status::MemberStatus;
use crate::texts::is_long;
use rbac_embedded::Status;
use rbac_member::Member;
use rbac_words::{Commands, Message, Refusal};
use std::alloc::{AllocError, Global};

/// A refusal as it is told: with the number that is expected, where it has one.
pub(crate) fn refused(refusal: Refusal, told: &mut u64) -> MemberStatus
    ensures status { result ≡ status_of refusal }
    ensures number { told.new ≡ told_by refusal }
{
    *told = 0;
    match refusal {
        Refusal::Repeat { expected } | Refusal::Gap { expected } => *told = expected,
        Refusal::BadSerial { next } => *told = next,
        Refusal::NoMemory => return MemberStatus::Plain(Status::NoMemory),
        _ => {}
    }
    MemberStatus::Refused(refusal)
}

/// Takes a message as the next of the member's own row, where its text has at most `longest` bytes.
pub fn take_own(
    alloc: Global,
    member: &mut Member,
    longest: usize,
    number: u32,
    message: Message,
    told: &mut u64,
) -> MemberStatus
    ensures status { status_number result ≢ no_memory → result ≡ (own_step longest number message member.old).status }
    ensures member { status_number result ≢ no_memory → member.new ≡ (own_step longest number message member.old).member }
    ensures number { status_number result ≢ no_memory → told.new ≡ (own_step longest number message member.old).told }
    ensures unchanged { status_number result ≡ no_memory → member.new ≡ member.old }
    ensures no_number { status_number result ≡ no_memory → told.new ≡ 0 }
{
    *told = 0;
    match is_long(alloc, longest, &message) {
        Ok(false) => {}
        Ok(true) => {
            drop(message);
            return MemberStatus::MessageTooLong;
        }
        Err(AllocError) => {
            drop(message);
            return MemberStatus::Plain(Status::NoMemory);
        }
    }
    let next = member.sent().len() as u64 + 1;
    match member.take_own(number, message) {
        Ok(()) => {
            *told = next;
            MemberStatus::Plain(Status::Done)
        }
        Err(refusal) => refused(Refusal::from(refusal), told),
    }
}

/// Submits commands together: the message that sends them is taken as the next of the member's own row.
pub fn submit(
    alloc: Global,
    member: &mut Member,
    longest: usize,
    caller: u32,
    serial: u32,
    commands: Commands,
    told: &mut u64,
) -> MemberStatus
    ensures status { status_number result ≢ no_memory → result ≡ (batch_step longest caller serial commands member.old).status }
    ensures member { status_number result ≢ no_memory → member.new ≡ (batch_step longest caller serial commands member.old).member }
    ensures number { status_number result ≢ no_memory → told.new ≡ (batch_step longest caller serial commands member.old).told }
    ensures unchanged { status_number result ≡ no_memory → member.new ≡ member.old }
    ensures no_number { status_number result ≡ no_memory → told.new ≡ 0 }
{
    *told = 0;
    member.invariants();
    let number = member.sent().len() as u32 + 1;
    match member.next_batch(caller, serial, commands) {
        Ok(message) => take_own(alloc, member, longest, number, message, told),
        Err(refusal) => refused(Refusal::from(refusal), told),
    }
}

/// Receives a message of another member.
pub fn receive(
    member: &mut Member,
    from: u32,
    number: u32,
    message: &Message,
    told: &mut u64,
) -> MemberStatus
    ensures status { status_number result ≢ no_memory → result ≡ (message_step from number message.now member.old).status }
    ensures member { status_number result ≢ no_memory → member.new ≡ (message_step from number message.now member.old).member }
    ensures number { status_number result ≢ no_memory → told.new ≡ (message_step from number message.now member.old).told }
    ensures unchanged { status_number result ≡ no_memory → member.new ≡ member.old }
    ensures no_number { status_number result ≡ no_memory → told.new ≡ 0 }
{
    *told = 0;
    let next = member.sent().len() as u64 + 1;
    match member.receive(from, number, message) {
        Ok(Some(_)) => {
            *told = next;
            MemberStatus::Plain(Status::Done)
        }
        Ok(None) => MemberStatus::Plain(Status::Done),
        Err(refusal) => refused(Refusal::from(refusal), told),
    }
}

/// Delivers what is due.
pub fn deliver(alloc: Global, member: &mut Member, told: &mut u64) -> MemberStatus
    ensures status { status_number result ≢ no_memory → result ≡ (deliver_step member.old).status }
    ensures member { status_number result ≢ no_memory → member.new ≡ (deliver_step member.old).member }
    ensures number { status_number result ≢ no_memory → told.new ≡ (deliver_step member.old).told }
    ensures unchanged { status_number result ≡ no_memory → member.new ≡ member.old }
    ensures no_number { status_number result ≡ no_memory → told.new ≡ 0 }
{
    *told = 0;
    let next = member.history().len() as u64 + 1;
    match member.deliver(alloc) {
        Ok(Some(_)) => {
            *told = next;
            MemberStatus::Plain(Status::Done)
        }
        Ok(None) => MemberStatus::Plain(Status::Done),
        Err(_) => MemberStatus::Plain(Status::NoMemory),
    }
}
