//! How a member sends the commands of its callers.
ghost use Rattle.std.specs.Prelude.{◌≡◌, ◌+◌, ◌++◌, ◌∷◌, [], false, None, length, IfOk, IfErr, OnOk, OnErr};
ghost use Rattle.rbac_words.specs.Stamp.{insert_all};
ghost use Rattle.rbac_words.specs.Message.{submitted_at, submissions_of, stamp_of, has_bad_batch};
ghost use Rattle.rbac_holdback.specs.Holdback.{CanAllBeHeld};
ghost use Rattle.rbac_member.specs.Serials.{counted};

use crate::member::Member;
use crate::member::counting::{hold, is_bad_batch, next_serial};
use crate::refusal::SubmitRefusal;
use rbac_holdback::Holdback;
use rbac_links::Outbox;
use rbac_words::limits::LAST_CLOCK;
use rbac_words::{Command, Commands, Message, SharedCommand, Stamp, Submission};
use sorted_keys::SortedMap;
use std::alloc::{AllocError, Global};

// Drops a message that is not sent, in this one place: a drop of a command is a case for each command.
fn dropped(_message: Message) -> AllocError {
    AllocError
}

// Sends a message of the member itself, counts its commands, and holds them.
pub(crate) fn send(
    alloc: Global,
    serials: &mut SortedMap<(u32, u32), u64>,
    outbox: &mut Outbox,
    held: &mut Holdback,
    message: Message,
) -> Result<(), AllocError>
    requires first { (stamp_of message).place ≡ 0 }
    requires batch { has_bad_batch message ≡ false }
    requires fit { CanAllBeHeld held.old (submissions_of message) }
    ensures counted { OnOk result (serials.new.content ≡ counted message serials.old.content) }
    ensures sent { OnOk result (outbox.new.sent ≡ outbox.old.sent ++ message ∷ []) }
    ensures held { OnOk result (held.new.held ≡ insert_all submitted_at (submissions_of message) held.old.held) }
    ensures limit { outbox.new.limit ≡ outbox.old.limit }
    ensures members { held.new.members ≡ held.old.members }
    ensures serials_unchanged { OnErr result (serials.new.content ≡ serials.old.content) }
    ensures sent_unchanged { OnErr result (outbox.new.sent ≡ outbox.old.sent) }
    ensures held_unchanged { OnErr result (held.new.held ≡ held.old.held) }
{
    if outbox.make_room().is_err() || hold(alloc, serials, held, &message).is_err() {
        return Err(dropped(message));
    }
    match outbox.push(message) {
        Ok(_) => Ok(()),
        Err(back) => {
            drop(back);
            unreachable!()
        }
    }
}

impl Member {
    ghost use Rattle.rbac_words.specs.Keeping.Member.{batch, submission, submitted, node_of};
    ghost use Rattle.rbac_words.specs.World.{stamp, submit_refusal};
    ghost use Rattle.rbac_member.specs.Calls.{submit_refused, rule_of};

    /// Sends a caller's next command to all members, and holds it. Serials count a caller's commands from 0.
    ///
    /// # Errors
    /// The first that applies: `ClockFull`, `SentFull`, `BadSerial`, `NoMemory`. The member is as before.
    pub fn submit(
        &mut self,
        caller: u32,
        serial: u32,
        command: Command,
    ) -> Result<Submission, SubmitRefusal>
        ensures submission { IfOk result (λ s. s ≡ submission self.old caller serial command) }
        ensures submitted { OnOk result (self.new ≡ submitted self.old caller serial (command ∷ [])) }
        ensures accepted { OnOk result (submit_refusal self.old.group (node_of self.old) caller serial 1 ≡ None) }
        ensures first_refusal { IfErr result (λ refusal. submit_refusal self.old.group (node_of self.old) caller serial 1 ≡ rule_of (submit_refused refusal)) }
        ensures unchanged { OnErr result (self.new ≡ self.old) }
    {
        let stamp = match self.next_stamp(caller, serial, 1) {
            Ok(next) => next,
            Err(refusal) => return Err(refusal),
        };
        let alloc = *self.history.allocator();
        match self.share_and_send(alloc, stamp, caller, serial, command) {
            Ok(command) => Ok(Submission {
                stamp,
                caller,
                serial,
                command,
            }),
            Err(AllocError) => Err(SubmitRefusal::NoMemory),
        }
    }

    /// Sends a caller's next commands to all members in one message, and holds them. The first has the serial, the others those after
    /// it; each is delivered and answered by itself.
    ///
    /// # Errors
    /// The first that applies: `BadBatch`, `ClockFull`, `SentFull`, `BadSerial`, `NoMemory`. The member is as before.
    pub fn submit_batch(
        &mut self,
        caller: u32,
        serial: u32,
        commands: Vec<Command>,
    ) -> Result<Stamp, SubmitRefusal>
        ensures stamp { IfOk result (λ s. s ≡ stamp (self.old.clock + 1) self.old.number) }
        ensures submitted { OnOk result (self.new ≡ submitted self.old caller serial commands.items) }
        ensures accepted { OnOk result (submit_refusal self.old.group (node_of self.old) caller serial (length commands.items) ≡ None) }
        ensures first_refusal { IfErr result (λ refusal. submit_refusal self.old.group (node_of self.old) caller serial (length commands.items) ≡ rule_of (submit_refused refusal)) }
        ensures unchanged { OnErr result (self.new ≡ self.old) }
    {
        let next = match self.next_stamp(caller, serial, commands.len()) {
            Ok(next) => next,
            Err(refusal) => return Err(refusal),
        };
        match self.share_and_send_all(next, caller, serial, commands) {
            Ok(()) => Ok(next),
            Err(AllocError) => Err(SubmitRefusal::NoMemory),
        }
    }

    /// Submits a command that is shared.
    ///
    /// # Errors
    /// As `submit`.
    pub fn submit_copy(
        &mut self,
        caller: u32,
        serial: u32,
        command: &SharedCommand,
    ) -> Result<Stamp, SubmitRefusal>
        ensures stamp { IfOk result (λ s. s ≡ stamp (self.old.clock + 1) self.old.number) }
        ensures submitted { OnOk result (self.new ≡ submitted self.old caller serial (command.now ∷ [])) }
        ensures accepted { OnOk result (submit_refusal self.old.group (node_of self.old) caller serial 1 ≡ None) }
        ensures first_refusal { IfErr result (λ refusal. submit_refusal self.old.group (node_of self.old) caller serial 1 ≡ rule_of (submit_refused refusal)) }
        ensures unchanged { OnErr result (self.new ≡ self.old) }
    {
        let next = self.next_stamp(caller, serial, 1)?;
        match self.send_copy(next, caller, serial, command) {
            Ok(()) => Ok(next),
            Err(AllocError) => Err(SubmitRefusal::NoMemory),
        }
    }

    /// Submits commands that are shared.
    ///
    /// # Errors
    /// As `submit_batch`.
    pub fn submit_batch_copy(
        &mut self,
        caller: u32,
        serial: u32,
        commands: &Commands,
    ) -> Result<Stamp, SubmitRefusal>
        ensures stamp { IfOk result (λ s. s ≡ stamp (self.old.clock + 1) self.old.number) }
        ensures submitted { OnOk result (self.new ≡ submitted self.old caller serial commands.now) }
        ensures accepted { OnOk result (submit_refusal self.old.group (node_of self.old) caller serial (length commands.now) ≡ None) }
        ensures first_refusal { IfErr result (λ refusal. submit_refusal self.old.group (node_of self.old) caller serial (length commands.now) ≡ rule_of (submit_refused refusal)) }
        ensures unchanged { OnErr result (self.new ≡ self.old) }
    {
        let next = self.next_stamp(caller, serial, commands.as_slice().len())?;
        let copy = match commands.copy() {
            Ok(copy) => copy,
            Err(AllocError) => return Err(SubmitRefusal::NoMemory),
        };
        match self.send_next(next, caller, serial, copy) {
            Ok(()) => Ok(next),
            Err(AllocError) => Err(SubmitRefusal::NoMemory),
        }
    }

    /// The message by which a submit of these commands would send them; nothing changes. It can be set in the member's row first, and taken
    /// from there by `take_own`, which leaves what the submit leaves.
    ///
    /// # Errors
    /// As `submit_batch`, but for want of memory.
    pub fn next_batch(
        &self,
        caller: u32,
        serial: u32,
        commands: Commands,
    ) -> Result<Message, SubmitRefusal>
        ensures made { IfOk result (λ message. message ≡ batch self.now caller serial commands) }
        ensures accepted { OnOk result (submit_refusal self.now.group (node_of self.now) caller serial (length commands) ≡ None) }
        ensures first_refusal { IfErr result (λ refusal. submit_refusal self.now.group (node_of self.now) caller serial (length commands) ≡ rule_of (submit_refused refusal)) }
    {
        let stamp = match self.next_stamp(caller, serial, commands.as_slice().len()) {
            Ok(next) => next,
            Err(refusal) => return Err(refusal),
        };
        Ok(Message::Batch {
            stamp,
            caller,
            serial,
            commands,
        })
    }

    // Sends a command with the next stamp, which nothing but memory stands in the way of; it is shared from then on.
    fn share_and_send(
        &mut self,
        alloc: Global,
        next: Stamp,
        caller: u32,
        serial: u32,
        command: Command,
    ) -> Result<SharedCommand, AllocError>
        requires accepted { submit_refusal self.old.group (node_of self.old) caller serial 1 ≡ None }
        requires next { next ≡ stamp (self.old.clock + 1) self.old.number }
        ensures shared { IfOk result (λ shared. shared ≡ command) }
        ensures submitted { OnOk result (self.new ≡ submitted self.old caller serial (command ∷ [])) }
        ensures unchanged { OnErr result (self.new ≡ self.old) }
    {
        let shared = SharedCommand::new(alloc, command)?;
        self.send_copy(next, caller, serial, &shared)?;
        Ok(shared)
    }

    // Sends a command that is shared, with the next stamp, which nothing but memory stands in the way of.
    fn send_copy(
        &mut self,
        next: Stamp,
        caller: u32,
        serial: u32,
        command: &SharedCommand,
    ) -> Result<(), AllocError>
        requires accepted { submit_refusal self.old.group (node_of self.old) caller serial 1 ≡ None }
        requires next { next ≡ stamp (self.old.clock + 1) self.old.number }
        ensures submitted { OnOk result (self.new ≡ submitted self.old caller serial (command.now ∷ [])) }
        ensures unchanged { OnErr result (self.new ≡ self.old) }
    {
        self.send_next(next, caller, serial, Commands::one(command.copy()?))
    }

    // Sends commands with the next stamp, which nothing but memory stands in the way of.
    fn share_and_send_all(
        &mut self,
        next: Stamp,
        caller: u32,
        serial: u32,
        commands: Vec<Command>,
    ) -> Result<(), AllocError>
        requires accepted { submit_refusal self.old.group (node_of self.old) caller serial (length commands.items) ≡ None }
        requires next { next ≡ stamp (self.old.clock + 1) self.old.number }
        ensures submitted { OnOk result (self.new ≡ submitted self.old caller serial commands.items) }
        ensures unchanged { OnErr result (self.new ≡ self.old) }
    {
        self.send_next(next, caller, serial, Commands::of(commands)?)
    }

    // The stamp of so many next commands of a caller, where nothing stands in their way.
    fn next_stamp(&self, caller: u32, serial: u32, count: usize) -> Result<Stamp, SubmitRefusal>
        ensures stamp { IfOk result (λ s. s ≡ stamp (self.now.clock + 1) self.now.number) }
        ensures accepted { OnOk result (submit_refusal self.now.group (node_of self.now) caller serial count ≡ None) }
        ensures first_refusal { IfErr result (λ refusal. submit_refusal self.now.group (node_of self.now) caller serial count ≡ rule_of (submit_refused refusal)) }
    {
        if is_bad_batch(serial, count) {
            return Err(SubmitRefusal::BadBatch);
        }
        // A command is an event of its member, and its stamp is the clock after it (Lamport 1978, "Logical Clocks", rule IR1).
        if LAST_CLOCK <= self.clock {
            return Err(SubmitRefusal::ClockFull);
        }
        // It is sent to each other member (Lamport 1978, "Ordering the Events Totally", rule 1).
        if self.outbox.is_full() {
            return Err(SubmitRefusal::SentFull);
        }
        // A caller's commands are numbered from 0 without a gap, so that each is submitted once.
        let next = next_serial(&self.serials, self.number, caller);
        if u64::from(serial) != next {
            return Err(SubmitRefusal::BadSerial { next });
        }
        Ok(Stamp {
            clock: self.clock + 1,
            member: self.number,
            place: 0,
        })
    }

    // Sends commands with the next stamp, which nothing but memory stands in the way of, and holds them.
    fn send_next(
        &mut self,
        next: Stamp,
        caller: u32,
        serial: u32,
        commands: Commands,
    ) -> Result<(), AllocError>
        requires accepted { submit_refusal self.old.group (node_of self.old) caller serial (length commands) ≡ None }
        requires next { next ≡ stamp (self.old.clock + 1) self.old.number }
        ensures submitted { OnOk result (self.new ≡ submitted self.old caller serial commands) }
        ensures unchanged { OnErr result (self.new ≡ self.old) }
    {
        let message = Message::Batch {
            stamp: next,
            caller,
            serial,
            commands,
        };
        // It joins the member's own queue too (rule 1).
        let alloc = *self.history.allocator();
        send(
            alloc,
            &mut self.serials,
            &mut self.outbox,
            &mut self.held,
            message,
        )?;
        self.clock = next.clock;
        Ok(())
    }
}
