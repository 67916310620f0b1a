//! A place for one member of a group: the calls that another language makes, over values.
ghost use Rattle.std.specs.Prelude.{◌≡◌, ◌≢◌, false, true, None, length, option_map, IfErr, IfOk};
ghost use Rattle.rbac_words.specs.Message.{next_serial, submissions};
ghost use Rattle.rbac_member.specs.Calls.{taken_of};
ghost use Rattle.rbac_embedded.specs.Status.{no_memory};
ghost use Rattle.rbac_embedded_member.specs.Holding.{asked, check_status, number_status, number_told, open_status, opened_as, step_kept, step_status, step_told, text_buffer, text_length, text_status, waits_of, ReadsBack};
ghost use Rattle.rbac_embedded_member.specs.Observing.{acting_step, acting_told, answering, receiving};
ghost use Rattle.rbac_embedded_member.specs.Status.{status_number};
ghost use Rattle.rbac_embedded_member.specs.Step.{deliver_step, submit_batch_step, submit_step, take_own_step};
ghost use Rattle.rbac_embedded_member.specs.Texts.{message_at, next_submit, next_submit_batch, policy_dump, record_at, review, subjects};

use crate::kept::{KeptMember, not_read};
use crate::status::MemberStatus;
use crate::texts::Told;
use crate::waiting::{Waiting, waits_of};
use crate::{observing, reviews, steps, texts};
use rbac_embedded::Status;
use rbac_embedded::buffer::tell;
use rbac_embedded::verdict::check;
use rbac_founding::read_founding;
use rbac_member::Member;
use rbac_message_text::read_message;
use rbac_text::{Scratch, read_command};
use rbac_words::Refusal;
use std::alloc::{AllocError, Global};
use std::marker::Model;

/// A member, which acts or only observes, or none.
#[derive(Drop)]
pub struct MemberHolder {
    kept: Option<Box<KeptMember>>,
}

impl Model for MemberHolder {
    ghost use Rattle.std.specs.Prelude.{Option, option_map};
    ghost use Rattle.rbac_embedded_member.specs.Place.{KeptMember as KeptValue};

    ghost Value = { Option KeptValue };

    ghost view = { λ h. option_map (λ b. b.value) h.kept };
}

const EMPTY: MemberStatus = MemberStatus::Plain(Status::EmptyPlace);

/// Puts a text into the buffer, where there is one.
fn tell_text(told: Told, out: &mut [u8], written: &mut usize) -> MemberStatus
    ensures status { IfOk told (λ text. result ≡ text_status (Ok text.items) out.old) }
    ensures buffer { IfOk told (λ text. out.new ≡ text_buffer (Ok text.items) out.old) }
    ensures length { IfOk told (λ text. written.new ≡ length text.items) }
    ensures none { IfErr told (λ status. (result ≡ status) × ((out.new ≡ out.old) × (written.new ≡ 0))) }
{
    match told {
        Ok(text) => MemberStatus::Plain(tell(&text, out, written)),
        Err(status) => {
            *written = 0;
            status
        }
    }
}

impl MemberHolder {
    /// None.
    pub fn empty() -> MemberHolder
        ensures { result ≡ None }
    {
        MemberHolder { kept: None }
    }

    /// What a place had.
    pub fn of(kept: Option<Box<KeptMember>>) -> MemberHolder
        ensures { result ≡ option_map (λ b. b.value) kept }
    {
        MemberHolder { kept }
    }

    /// What a place is to have.
    pub fn into_kept(self) -> Option<Box<KeptMember>>
        ensures { option_map (λ b. b.value) result ≡ self }
    {
        let MemberHolder { kept } = self;
        kept
    }

    // Founds the member of this number with what a founding file says, as one that acts, or only observes.
    fn open_as(&mut self, alloc: Global, file: &[u8], number: u32, observes: bool) -> MemberStatus
        ensures told { status_number result ≢ no_memory → result ≡ open_status file.now number self.old }
        ensures opened { status_number result ≢ no_memory → self.new ≡ opened_as observes file.now number self.old }
        ensures unchanged { status_number result ≡ no_memory → self.new ≡ self.old }
    {
        if self.kept.is_some() {
            return MemberStatus::Plain(Status::FullPlace);
        }
        let founding = match read_founding(alloc, file) {
            Ok(founding) => founding,
            Err(refusal) => return MemberStatus::Plain(Status::BadFounding(refusal)),
        };
        let member = match Member::found(alloc, founding.group, number, founding.vocabulary) {
            Ok(member) => member,
            Err(_) => return MemberStatus::Refused(Refusal::UnknownMember),
        };
        match KeptMember::boxed(alloc, member, observes) {
            Ok(kept) => {
                self.kept = Some(kept);
                MemberStatus::Plain(Status::Done)
            }
            Err(AllocError) => MemberStatus::Plain(Status::NoMemory),
        }
    }

    /// Founds the member of this number with what a founding file says.
    pub fn open(&mut self, alloc: Global, file: &[u8], number: u32) -> MemberStatus
        ensures told { status_number result ≢ no_memory → result ≡ open_status file.now number self.old }
        ensures opened { status_number result ≢ no_memory → self.new ≡ opened_as false file.now number self.old }
        ensures unchanged { status_number result ≡ no_memory → self.new ≡ self.old }
    {
        self.open_as(alloc, file, number, false)
    }

    /// Founds the member of this number as one that only observes: it takes its own row by `take_own`, receives what it need not acknowledge,
    /// delivers, and is asked as any other; it never sends. `submit`, `submit_batch`, `next_submit` and `next_submit_batch` are refused as
    /// Observes, whatever they are given; `receive` and `next_answer`, where they are not refused otherwise, of a message that it would
    /// have to acknowledge, as NotYet: a later message of its own row lets it be received.
    pub fn observe(&mut self, alloc: Global, file: &[u8], number: u32) -> MemberStatus
        ensures told { status_number result ≢ no_memory → result ≡ open_status file.now number self.old }
        ensures opened { status_number result ≢ no_memory → self.new ≡ opened_as true file.now number self.old }
        ensures unchanged { status_number result ≡ no_memory → self.new ≡ self.old }
    {
        self.open_as(alloc, file, number, true)
    }

    /// Submits the command that a text stands for, as a caller's next one, unless the place only observes. Tells the number of the message that sends it: `message` gives its
    /// text. Refused as BadSerial, it tells the serial that is due.
    pub fn submit(
        &mut self,
        alloc: Global,
        caller: u32,
        serial: u32,
        text: &[u8],
        told: &mut u64,
    ) -> MemberStatus
        ensures status { status_number result ≢ no_memory → result ≡ step_status (acting_step (submit_step caller serial text.now)) self.old }
        ensures kept { status_number result ≢ no_memory → self.new ≡ step_kept (acting_step (submit_step caller serial text.now)) self.old }
        ensures number { status_number result ≢ no_memory → told.new ≡ step_told (acting_step (submit_step caller serial text.now)) self.old }
        ensures unchanged { status_number result ≡ no_memory → self.new ≡ self.old }
        ensures no_number { status_number result ≡ no_memory → told.new ≡ 0 }
    {
        *told = 0;
        match &mut self.kept {
            Some(kept) => kept.submit(alloc, caller, serial, text, told),
            None => EMPTY,
        }
    }

    /// Submits the commands of an array of objects together, as a caller's next ones, in one message. As `submit`.
    pub fn submit_batch(
        &mut self,
        alloc: Global,
        caller: u32,
        serial: u32,
        text: &[u8],
        told: &mut u64,
    ) -> MemberStatus
        ensures status { status_number result ≢ no_memory → result ≡ step_status (acting_step (submit_batch_step caller serial text.now)) self.old }
        ensures kept { status_number result ≢ no_memory → self.new ≡ step_kept (acting_step (submit_batch_step caller serial text.now)) self.old }
        ensures number { status_number result ≢ no_memory → told.new ≡ step_told (acting_step (submit_batch_step caller serial text.now)) self.old }
        ensures unchanged { status_number result ≡ no_memory → self.new ≡ self.old }
        ensures no_number { status_number result ≡ no_memory → told.new ≡ 0 }
    {
        *told = 0;
        match &mut self.kept {
            Some(kept) => kept.submit_batch(alloc, caller, serial, text, told),
            None => EMPTY,
        }
    }

    /// Receives message `number` of member `from`, by its text. Tells the number of the acknowledgement that was sent, and 0 where none is
    /// due. Refused as Repeat or Gap, it tells the number that is expected.
    pub fn receive(
        &mut self,
        alloc: Global,
        from: u32,
        number: u32,
        text: &[u8],
        told: &mut u64,
    ) -> MemberStatus
        ensures status { status_number result ≢ no_memory → result ≡ step_status (receiving from number text.now) self.old }
        ensures kept { status_number result ≢ no_memory → self.new ≡ step_kept (receiving from number text.now) self.old }
        ensures number { status_number result ≢ no_memory → told.new ≡ step_told (receiving from number text.now) self.old }
        ensures unchanged { status_number result ≡ no_memory → self.new ≡ self.old }
        ensures no_number { status_number result ≡ no_memory → told.new ≡ 0 }
    {
        *told = 0;
        match &mut self.kept {
            Some(kept) => kept.receive(alloc, from, number, text, told),
            None => EMPTY,
        }
    }

    /// Takes message `number` of the member's own row, by its text: one that it sent before it was lost, or that another process which is the
    /// same member sent, or that was set there to be taken. Tells its number; refused as Repeat or Gap, the number that is expected.
    pub fn take_own(
        &mut self,
        alloc: Global,
        number: u32,
        text: &[u8],
        told: &mut u64,
    ) -> MemberStatus
        ensures status { status_number result ≢ no_memory → result ≡ step_status (λ k. take_own_step number text.now k.member) self.old }
        ensures kept { status_number result ≢ no_memory → self.new ≡ step_kept (λ k. take_own_step number text.now k.member) self.old }
        ensures number { status_number result ≢ no_memory → told.new ≡ step_told (λ k. take_own_step number text.now k.member) self.old }
        ensures unchanged { status_number result ≡ no_memory → self.new ≡ self.old }
        ensures no_number { status_number result ≡ no_memory → told.new ≡ 0 }
    {
        *told = 0;
        match &mut self.kept {
            Some(kept) => kept.take_own(alloc, number, text, told),
            None => EMPTY,
        }
    }

    /// Delivers the command that is due, if one is. Tells the number of its record, which `record` gives, and 0 where none is due.
    pub fn deliver(&mut self, alloc: Global, told: &mut u64) -> MemberStatus
        ensures status { status_number result ≢ no_memory → result ≡ step_status (λ k. deliver_step k.member) self.old }
        ensures kept { status_number result ≢ no_memory → self.new ≡ step_kept (λ k. deliver_step k.member) self.old }
        ensures number { status_number result ≢ no_memory → told.new ≡ step_told (λ k. deliver_step k.member) self.old }
        ensures unchanged { status_number result ≡ no_memory → self.new ≡ self.old }
        ensures no_number { status_number result ≡ no_memory → told.new ≡ 0 }
    {
        *told = 0;
        match &mut self.kept {
            Some(kept) => steps::deliver(alloc, &mut kept.member, told),
            None => EMPTY,
        }
    }

    /// The text of the message of this number, counted from 1, that the member sent. Where it is not too long, it reads as that message.
    pub fn message(
        &self,
        alloc: Global,
        number: usize,
        out: &mut [u8],
        written: &mut usize,
    ) -> MemberStatus
        ensures told { status_number result ≢ no_memory → result ≡ text_status (asked (λ k. message_at number k.member) self.now) out.old }
        ensures buffer { status_number result ≢ no_memory → out.new ≡ text_buffer (asked (λ k. message_at number k.member) self.now) out.old }
        ensures length { status_number result ≢ no_memory → written.new ≡ text_length (asked (λ k. message_at number k.member) self.now) }
        ensures reads_back { result ≡ MemberStatus.Plain Status.Done → ReadsBack number self.now }
        ensures buffer_unchanged { status_number result ≡ no_memory → out.new ≡ out.old }
        ensures no_length { status_number result ≡ no_memory → written.new ≡ 0 }
    {
        *written = 0;
        let Some(kept) = &self.kept else {
            return EMPTY;
        };
        tell_text(texts::message_at(alloc, &kept.member, number), out, written)
    }

    /// The text of the record of this number, counted from 1, of the member's history.
    pub fn record(
        &self,
        alloc: Global,
        number: usize,
        out: &mut [u8],
        written: &mut usize,
    ) -> MemberStatus
        ensures told { status_number result ≢ no_memory → result ≡ text_status (asked (λ k. record_at number k.member) self.now) out.old }
        ensures buffer { status_number result ≢ no_memory → out.new ≡ text_buffer (asked (λ k. record_at number k.member) self.now) out.old }
        ensures length { status_number result ≢ no_memory → written.new ≡ text_length (asked (λ k. record_at number k.member) self.now) }
        ensures buffer_unchanged { status_number result ≡ no_memory → out.new ≡ out.old }
        ensures no_length { status_number result ≡ no_memory → written.new ≡ 0 }
    {
        *written = 0;
        let Some(kept) = &self.kept else {
            return EMPTY;
        };
        tell_text(texts::record_at(alloc, &kept.member, number), out, written)
    }

    /// The client lines that make the member's policy.
    pub fn dump(&self, alloc: Global, out: &mut [u8], written: &mut usize) -> MemberStatus
        ensures told { status_number result ≢ no_memory → result ≡ text_status (asked (λ k. policy_dump k.member) self.now) out.old }
        ensures buffer { status_number result ≢ no_memory → out.new ≡ text_buffer (asked (λ k. policy_dump k.member) self.now) out.old }
        ensures length { status_number result ≢ no_memory → written.new ≡ text_length (asked (λ k. policy_dump k.member) self.now) }
        ensures buffer_unchanged { status_number result ≡ no_memory → out.new ≡ out.old }
        ensures no_length { status_number result ≡ no_memory → written.new ≡ 0 }
    {
        *written = 0;
        let Some(kept) = &self.kept else {
            return EMPTY;
        };
        tell_text(texts::policy_dump(alloc, &kept.member), out, written)
    }

    /// The text of the message by which a submit of this command would send it; nothing changes. It can be set in the member's row first, and
    /// taken from there by `take_own`, which leaves what the submit leaves.
    pub fn next_submit(
        &self,
        alloc: Global,
        caller: u32,
        serial: u32,
        text: &[u8],
        out: &mut [u8],
        written: &mut usize,
    ) -> MemberStatus
        ensures told { status_number result ≢ no_memory → result ≡ text_status (asked (acting_told (next_submit caller serial text.now)) self.now) out.old }
        ensures buffer { status_number result ≢ no_memory → out.new ≡ text_buffer (asked (acting_told (next_submit caller serial text.now)) self.now) out.old }
        ensures length { status_number result ≢ no_memory → written.new ≡ text_length (asked (acting_told (next_submit caller serial text.now)) self.now) }
        ensures buffer_unchanged { status_number result ≡ no_memory → out.new ≡ out.old }
        ensures no_length { status_number result ≡ no_memory → written.new ≡ 0 }
    {
        *written = 0;
        let Some(kept) = &self.kept else {
            return EMPTY;
        };
        tell_text(kept.next_submit(alloc, caller, serial, text), out, written)
    }

    /// The text of the message by which a submit of these commands would send them. As `next_submit`.
    pub fn next_submit_batch(
        &self,
        alloc: Global,
        caller: u32,
        serial: u32,
        text: &[u8],
        out: &mut [u8],
        written: &mut usize,
    ) -> MemberStatus
        ensures told { status_number result ≢ no_memory → result ≡ text_status (asked (acting_told (next_submit_batch caller serial text.now)) self.now) out.old }
        ensures buffer { status_number result ≢ no_memory → out.new ≡ text_buffer (asked (acting_told (next_submit_batch caller serial text.now)) self.now) out.old }
        ensures length { status_number result ≢ no_memory → written.new ≡ text_length (asked (acting_told (next_submit_batch caller serial text.now)) self.now) }
        ensures buffer_unchanged { status_number result ≡ no_memory → out.new ≡ out.old }
        ensures no_length { status_number result ≡ no_memory → written.new ≡ 0 }
    {
        *written = 0;
        let Some(kept) = &self.kept else {
            return EMPTY;
        };
        tell_text(
            kept.next_submit_batch(alloc, caller, serial, text),
            out,
            written,
        )
    }

    /// The text of the acknowledgement that message `number` of member `from` wants, as it can be set in the member's row and taken from there
    /// before the message is received, which then sends nothing; no bytes where none is wanted. Nothing changes.
    pub fn next_answer(
        &self,
        alloc: Global,
        from: u32,
        number: u32,
        text: &[u8],
        out: &mut [u8],
        written: &mut usize,
    ) -> MemberStatus
        ensures told { status_number result ≢ no_memory → result ≡ text_status (asked (answering from number text.now) self.now) out.old }
        ensures buffer { status_number result ≢ no_memory → out.new ≡ text_buffer (asked (answering from number text.now) self.now) out.old }
        ensures length { status_number result ≢ no_memory → written.new ≡ text_length (asked (answering from number text.now) self.now) }
        ensures buffer_unchanged { status_number result ≡ no_memory → out.new ≡ out.old }
        ensures no_length { status_number result ≡ no_memory → written.new ≡ 0 }
    {
        *written = 0;
        let Some(kept) = &self.kept else {
            return EMPTY;
        };
        let told = match read_message(alloc, text, &mut Scratch::new(alloc)) {
            Ok(message) => {
                let told = observing::next_answer(
                    alloc,
                    &kept.member,
                    kept.observes,
                    from,
                    number,
                    &message,
                );
                drop(message);
                told
            }
            Err(refusal) => Err(not_read(refusal)),
        };
        tell_text(told, out, written)
    }

    /// How many messages of member `from` were received; 0 of itself and of a stranger.
    pub fn read(&self, from: u32, told: &mut u64) -> MemberStatus
        ensures status { result ≡ number_status self.now }
        ensures number { told.new ≡ number_told (λ v. taken_of v from) self.now }
    {
        *told = 0;
        match &self.kept {
            Some(kept) => {
                *told = u64::from(kept.member.read(from));
                MemberStatus::Plain(Status::Done)
            }
            None => EMPTY,
        }
    }

    /// The serial of a caller's next command at this member.
    pub fn next_serial(&self, caller: u32, told: &mut u64) -> MemberStatus
        ensures status { result ≡ number_status self.now }
        ensures number { told.new ≡ number_told (λ v. next_serial caller (submissions v.sent)) self.now }
    {
        *told = 0;
        match &self.kept {
            Some(kept) => {
                *told = kept.member.next_serial(caller);
                MemberStatus::Plain(Status::Done)
            }
            None => EMPTY,
        }
    }

    /// The least command that is held back, and the members that it waits for; none where nothing is held.
    ///
    /// # Errors
    /// `EmptyPlace` where there is no member.
    pub fn waits(&self) -> Result<Option<Waiting>, MemberStatus>
        ensures { result ≡ waits_of self.now }
    {
        match &self.kept {
            Some(kept) => Ok(waits_of(&kept.member)),
            None => Err(EMPTY),
        }
    }

    /// Whether the session may perform the operation on the object by the policy that the member's history left, which is the member's own
    /// and may be behind that of others. Tells how many records that history has. It takes no memory.
    pub fn check(
        &self,
        session: &[u8],
        operation: &[u8],
        object: &[u8],
        told: &mut u64,
    ) -> MemberStatus
        ensures status { result ≡ check_status session.now operation.now object.now self.now }
        ensures number { told.new ≡ number_told (λ v. length v.history) self.now }
    {
        *told = 0;
        match &self.kept {
            Some(kept) => {
                *told = kept.member.history().len() as u64;
                let verdict = check(kept.member.policy(), session, operation, object);
                MemberStatus::Plain(Status::Checked(verdict))
            }
            None => EMPTY,
        }
    }

    /// The text of the answer that a command would have by the policy that the member's history left, where it is a review or a check of
    /// access; nothing changes. A review takes time and memory in proportion to the policy, a check neither.
    pub fn review(
        &self,
        alloc: Global,
        text: &[u8],
        out: &mut [u8],
        written: &mut usize,
    ) -> MemberStatus
        ensures told { status_number result ≢ no_memory → result ≡ text_status (asked (λ k. review text.now k.member) self.now) out.old }
        ensures buffer { status_number result ≢ no_memory → out.new ≡ text_buffer (asked (λ k. review text.now k.member) self.now) out.old }
        ensures length { status_number result ≢ no_memory → written.new ≡ text_length (asked (λ k. review text.now k.member) self.now) }
        ensures buffer_unchanged { status_number result ≡ no_memory → out.new ≡ out.old }
        ensures no_length { status_number result ≡ no_memory → written.new ≡ 0 }
    {
        *written = 0;
        let Some(kept) = &self.kept else {
            return EMPTY;
        };
        let told = match read_command(alloc, text, &mut Scratch::new(alloc)) {
            Ok(command) => {
                let told = reviews::question_told(alloc, &kept.member, &command);
                drop(command);
                told
            }
            Err(refusal) => Err(not_read(refusal)),
        };
        tell_text(told, out, written)
    }

    /// The text of who may perform the operation on the object by the policy that the member's history left, which is the member's own
    /// and may be behind that of others; nothing changes. What is told is the first that applies: that there is no member; that one of the
    /// texts is no name; that there is no such operation, no such object.
    pub fn subjects(
        &self,
        alloc: Global,
        operation: &[u8],
        object: &[u8],
        out: &mut [u8],
        written: &mut usize,
    ) -> MemberStatus
        ensures told { status_number result ≢ no_memory → result ≡ text_status (asked (λ k. subjects operation.now object.now k.member) self.now) out.old }
        ensures buffer { status_number result ≢ no_memory → out.new ≡ text_buffer (asked (λ k. subjects operation.now object.now k.member) self.now) out.old }
        ensures length { status_number result ≢ no_memory → written.new ≡ text_length (asked (λ k. subjects operation.now object.now k.member) self.now) }
        ensures buffer_unchanged { status_number result ≡ no_memory → out.new ≡ out.old }
        ensures no_length { status_number result ≡ no_memory → written.new ≡ 0 }
    {
        *written = 0;
        let Some(kept) = &self.kept else {
            return EMPTY;
        };
        let told = reviews::subjects_told(alloc, &kept.member, operation, object);
        tell_text(told, out, written)
    }

    /// Ends the member.
    pub fn close(&mut self) -> MemberStatus
        ensures told { result ≡ number_status self.old }
        ensures closed { self.new ≡ None }
    {
        match self.kept.take() {
            Some(kept) => {
                drop(kept);
                MemberStatus::Plain(Status::Done)
            }
            None => EMPTY,
        }
    }
}
