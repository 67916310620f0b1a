//! What a place has of a member, and its steps from texts.
ghost use Rattle.std.specs.Prelude.{◌≡◌, ◌≢◌, IfErr, IfOk, Ok, Err};
ghost use Rattle.rbac_embedded.specs.Status.{no_memory};
ghost use Rattle.rbac_embedded_member.specs.Observing.{acting_step, acting_told, kept_after, receiving};
ghost use Rattle.rbac_embedded_member.specs.Status.{status_number};
ghost use Rattle.rbac_embedded_member.specs.Step.{submit_batch_step, submit_step, take_own_step};
ghost use Rattle.rbac_embedded_member.specs.Texts.{next_submit, next_submit_batch};

use crate::status::MemberStatus;
use crate::texts::Told;
use crate::{observing, steps, texts};
use rbac_embedded::Status;
use rbac_member::Member;
use rbac_message_text::{LONGEST_MESSAGE, read_commands, read_message, read_shared};
use rbac_text::{LineRefusal, Scratch};
use rbac_words::Commands;
use std::alloc::{AllocError, Global};
use std::marker::Model;

/// A member in a place, which acts, or only observes: it then takes its own row, receives what it need not acknowledge, and delivers, and
/// sends nothing.
#[derive(Drop)]
pub struct KeptMember {
    /// The member.
    pub member: Member,
    /// Whether it only observes.
    pub observes: bool,
    // What texts are read with, kept from text to text.
    scratch: Scratch,
}

impl Model for KeptMember {
    ghost use Rattle.rbac_embedded_member.specs.Place.{KeptMember as KeptValue};

    ghost Value = { KeptValue };

    ghost view = { λ k. record { member = k.member; observes = k.observes } };
}

/// Why a text is not read.
pub(crate) fn not_read(refusal: LineRefusal) -> MemberStatus
    ensures { result ≡ MemberStatus.Plain (Status.BadCommand refusal) }
{
    MemberStatus::Plain(Status::BadCommand(refusal))
}

impl KeptMember {
    /// A member for a place.
    pub(crate) fn boxed(
        alloc: Global,
        member: Member,
        observes: bool,
    ) -> Result<Box<KeptMember>, AllocError>
        ensures { IfOk result (λ kept. kept.value ≡ record { member = member; observes = observes }) }
    {
        let kept = KeptMember {
            member,
            observes,
            scratch: Scratch::new(alloc),
        };
        match Box::new(alloc, kept) {
            Ok(kept) => Ok(kept),
            Err(refused) => {
                drop(refused);
                Err(AllocError)
            }
        }
    }

    /// Submits the command that a text stands for, unless it only observes.
    pub(crate) fn submit(
        &mut self,
        alloc: Global,
        caller: u32,
        serial: u32,
        text: &[u8],
        told: &mut u64,
    ) -> MemberStatus
        ensures status { status_number result ≢ no_memory → result ≡ (acting_step (submit_step caller serial text.now) self.old).status }
        ensures kept { status_number result ≢ no_memory → self.new ≡ kept_after (acting_step (submit_step caller serial text.now)) self.old }
        ensures number { status_number result ≢ no_memory → told.new ≡ (acting_step (submit_step caller serial text.now) self.old).told }
        ensures unchanged { status_number result ≡ no_memory → self.new ≡ self.old }
        ensures no_number { status_number result ≡ no_memory → told.new ≡ 0 }
    {
        *told = 0;
        if self.observes {
            return MemberStatus::Observes;
        }
        match read_shared(alloc, text, &mut self.scratch) {
            Ok(command) => steps::submit(
                alloc,
                &mut self.member,
                LONGEST_MESSAGE,
                caller,
                serial,
                Commands::one(command),
                told,
            ),
            Err(refusal) => not_read(refusal),
        }
    }

    /// Submits the commands of an array of objects together, unless it only observes.
    pub(crate) fn submit_batch(
        &mut self,
        alloc: Global,
        caller: u32,
        serial: u32,
        text: &[u8],
        told: &mut u64,
    ) -> MemberStatus
        ensures status { status_number result ≢ no_memory → result ≡ (acting_step (submit_batch_step caller serial text.now) self.old).status }
        ensures kept { status_number result ≢ no_memory → self.new ≡ kept_after (acting_step (submit_batch_step caller serial text.now)) self.old }
        ensures number { status_number result ≢ no_memory → told.new ≡ (acting_step (submit_batch_step caller serial text.now) self.old).told }
        ensures unchanged { status_number result ≡ no_memory → self.new ≡ self.old }
        ensures no_number { status_number result ≡ no_memory → told.new ≡ 0 }
    {
        *told = 0;
        if self.observes {
            return MemberStatus::Observes;
        }
        match read_commands(alloc, text, &mut self.scratch) {
            Ok(commands) => steps::submit(
                alloc,
                &mut self.member,
                LONGEST_MESSAGE,
                caller,
                serial,
                commands,
                told,
            ),
            Err(refusal) => not_read(refusal),
        }
    }

    /// Receives message `number` of member `from`, by its text.
    pub(crate) fn receive(
        &mut self,
        alloc: Global,
        from: u32,
        number: u32,
        text: &[u8],
        told: &mut u64,
    ) -> MemberStatus
        ensures status { status_number result ≢ no_memory → result ≡ (receiving from number text.now self.old).status }
        ensures kept { status_number result ≢ no_memory → self.new ≡ kept_after (receiving from number text.now) self.old }
        ensures number { status_number result ≢ no_memory → told.new ≡ (receiving from number text.now self.old).told }
        ensures unchanged { status_number result ≡ no_memory → self.new ≡ self.old }
        ensures no_number { status_number result ≡ no_memory → told.new ≡ 0 }
    {
        *told = 0;
        let observes = self.observes;
        match read_message(alloc, text, &mut self.scratch) {
            Ok(message) => {
                let status = observing::receive(
                    &mut self.member,
                    observes,
                    from,
                    number,
                    &message,
                    told,
                );
                drop(message);
                status
            }
            Err(refusal) => not_read(refusal),
        }
    }

    /// Takes message `number` of the member's own row, by its text.
    pub(crate) fn take_own(
        &mut self,
        alloc: Global,
        number: u32,
        text: &[u8],
        told: &mut u64,
    ) -> MemberStatus
        ensures status { status_number result ≢ no_memory → result ≡ (take_own_step number text.now self.old.member).status }
        ensures kept { status_number result ≢ no_memory → self.new ≡ kept_after (λ k. take_own_step number text.now k.member) self.old }
        ensures number { status_number result ≢ no_memory → told.new ≡ (take_own_step number text.now self.old.member).told }
        ensures unchanged { status_number result ≡ no_memory → self.new ≡ self.old }
        ensures no_number { status_number result ≡ no_memory → told.new ≡ 0 }
    {
        *told = 0;
        match read_message(alloc, text, &mut self.scratch) {
            Ok(message) => steps::take_own(
                alloc,
                &mut self.member,
                LONGEST_MESSAGE,
                number,
                message,
                told,
            ),
            Err(refusal) => not_read(refusal),
        }
    }

    /// The text of the message by which `submit` would send the command that a text stands for.
    pub(crate) fn next_submit(&self, alloc: Global, caller: u32, serial: u32, text: &[u8]) -> Told
        ensures text { IfOk result (λ own. acting_told (next_submit caller serial text.now) self.now ≡ Ok own.items) }
        ensures none { IfErr result (λ status. status_number status ≢ no_memory → acting_told (next_submit caller serial text.now) self.now ≡ Err status) }
    {
        if self.observes {
            return Err(MemberStatus::Observes);
        }
        match read_shared(alloc, text, &mut Scratch::new(alloc)) {
            Ok(command) => texts::next_batch(
                alloc,
                &self.member,
                LONGEST_MESSAGE,
                caller,
                serial,
                Commands::one(command),
            ),
            Err(refusal) => Err(not_read(refusal)),
        }
    }

    /// The text of the message by which `submit_batch` would send the commands of an array.
    pub(crate) fn next_submit_batch(
        &self,
        alloc: Global,
        caller: u32,
        serial: u32,
        text: &[u8],
    ) -> Told
        ensures text { IfOk result (λ own. acting_told (next_submit_batch caller serial text.now) self.now ≡ Ok own.items) }
        ensures none { IfErr result (λ status. status_number status ≢ no_memory → acting_told (next_submit_batch caller serial text.now) self.now ≡ Err status) }
    {
        if self.observes {
            return Err(MemberStatus::Observes);
        }
        match read_commands(alloc, text, &mut Scratch::new(alloc)) {
            Ok(commands) => texts::next_batch(
                alloc,
                &self.member,
                LONGEST_MESSAGE,
                caller,
                serial,
                commands,
            ),
            Err(refusal) => Err(not_read(refusal)),
        }
    }
}
