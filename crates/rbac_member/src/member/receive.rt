//! How a member receives what the others send.
ghost use Rattle.std.specs.Prelude.{◌≡◌, ◌≢◌, ◌<◌, ◌≤◌, ◌++◌, true, None, Some, is_some, length, if◌then◌else◌, IfOk, IfErr, OnOk, OnErr};
ghost use Rattle.rbac_words.specs.Message.{has_commands as message_has_commands, has_bad_batch as message_has_bad_batch, has_later};
ghost use Rattle.rbac_words.specs.Stamp.{has_passed as stamp_has_passed};
ghost use Rattle.rbac_words.specs.World.{acks};

use crate::member::Member;
use crate::member::counting::{hold, is_bad_batch, next_serial};
use crate::refusal::ReceiveRefusal;
use rbac_links::Outbox;
use rbac_words::limits::LAST_CLOCK;
use rbac_words::{Message, Stamp};
use std::alloc::AllocError;

// Whether a message has a command.
fn has_commands(message: &Message) -> bool
    ensures { result ≡ message_has_commands message.now }
{
    match message {
        Message::Batch { commands, .. } => !commands.as_slice().is_empty(),
        Message::Ack { .. } => false,
    }
}

// Whether a message has commands that are no batch.
pub(crate) fn has_bad_batch(message: &Message) -> bool
    ensures { result ≡ message_has_bad_batch message.now }
{
    match message {
        Message::Batch {
            serial,
            commands,
            ..
        } => is_bad_batch(*serial, commands.as_slice().len()),
        Message::Ack { .. } => false,
    }
}

// Whether the last stamp, if there is one, comes after this one.
fn has_passed(last: Option<Stamp>, stamp: Stamp) -> bool
    ensures { result ≡ stamp_has_passed last stamp }
{
    last.is_some_and(|last| stamp < last)
}

// Makes room for an acknowledgement, where there is one.
fn make_room(outbox: &mut Outbox, stamp: Option<Stamp>) -> Result<(), AllocError>
    ensures room { OnOk result (is_some stamp ≡ true → (0 < outbox.new.room) × (length outbox.new.sent < outbox.new.limit)) }
    ensures wanted { OnErr result (is_some stamp ≡ true) }
    ensures sent { outbox.new.sent ≡ outbox.old.sent }
    ensures limit { outbox.new.limit ≡ outbox.old.limit }
{
    if stamp.is_none() {
        return Ok(());
    }
    match outbox.make_room() {
        Ok(()) => Ok(()),
        Err(_) => Err(AllocError),
    }
}

// Sends an acknowledgement, where there is one.
fn acknowledge(outbox: &mut Outbox, stamp: Option<Stamp>)
    requires { is_some stamp ≡ true → (0 < outbox.old.room) × (length outbox.old.sent < outbox.old.limit) }
    ensures sent { outbox.new.sent ≡ outbox.old.sent ++ acks stamp }
    ensures limit { outbox.new.limit ≡ outbox.old.limit }
{
    if let Some(stamp) = stamp {
        match outbox.push(Message::Ack { stamp }) {
            Ok(_) => {}
            Err(back) => {
                drop(back);
                unreachable!()
            }
        }
    }
}

// What a message leaves: the clock after it, and whether it is acknowledged.
#[derive(Clone, Copy, Drop)]
struct Receipt {
    clock: u64,
    is_acknowledged: bool,
}

impl Member {
    ghost use Rattle.rbac_words.specs.Keeping.Member.{IsNext, node_of, links_of, received, serial_refusal, message_refusal};
    ghost use Rattle.rbac_words.specs.World.{stamp, must_acknowledge, clock_after, acknowledgement, room_refusal};
    ghost use Rattle.rbac_words.specs.Keeping.Own.{first_answer};
    ghost use Rattle.rbac_words.specs.Limits.{last_clock};
    ghost use Rattle.rbac_member.specs.Calls.{receipt_refused, rule_of};

    /// Receives message `number` of member `from`, which is the next one that it has not received: its commands are held, all or
    /// none, and acknowledged where nothing was sent after it, and no message of a smaller stamp is taken of that member any more.
    /// Answers the acknowledgement's stamp.
    ///
    /// # Errors
    /// The first that applies: `UnknownMember`, `FromSelf`, `Repeat`, `Gap`, `StampNotRising` of the links; `BadBatch`; `ClockFull`,
    /// `SentFull`, `BadSerial`; `NoMemory`. The member is as before.
    pub fn receive(
        &mut self,
        from: u32,
        number: u32,
        message: &Message,
    ) -> Result<Option<Stamp>, ReceiveRefusal>
        ensures acknowledged { IfOk result (λ stamp. stamp ≡ acknowledgement (node_of self.old) message.now) }
        ensures received { OnOk result (self.new ≡ received self.old from message.now) }
        ensures accepted { OnOk result (message_refusal self.old from number message.now ≡ None) }
        ensures first_refusal { IfErr result (λ refusal. message_refusal self.old from number message.now ≡ rule_of (receipt_refused refusal)) }
        ensures memory_needed { IfErr result (λ refusal. refusal ≡ ReceiveRefusal.NoMemory → message_has_commands message.now ≡ true) }
        ensures unchanged { OnErr result (self.new ≡ self.old) }
    {
        let receipt = self.receipt(from, number, message)?;
        let stamp = self.stamp_if(receipt.is_acknowledged, receipt.clock);
        match self.take(from, number, message, receipt.clock, stamp) {
            Ok(()) => Ok(stamp),
            Err(AllocError) => Err(ReceiveRefusal::NoMemory),
        }
    }

    /// The stamp of the acknowledgement that a message wants, if it wants one, where it is to be set in the member's row and taken from there
    /// before the message is received; nothing changes. The message is then received without an acknowledgement, and leaves the same clock.
    ///
    /// # Errors
    /// As `receive`, but for want of memory.
    pub fn first_answer(
        &self,
        from: u32,
        number: u32,
        message: &Message,
    ) -> Result<Option<Stamp>, ReceiveRefusal>
        ensures answer { IfOk result (λ stamp. stamp ≡ first_answer self.now message.now) }
        ensures accepted { OnOk result (message_refusal self.now from number message.now ≡ None) }
        ensures first_refusal { IfErr result (λ refusal. message_refusal self.now from number message.now ≡ rule_of (receipt_refused refusal)) }
    {
        let receipt = self.receipt(from, number, message)?;
        Ok(self.answer_before(message, receipt.is_acknowledged))
    }

    // The stamp of what is sent before a message is received, if it is to be acknowledged, where the clock has room for it.
    fn answer_before(&self, message: &Message, is_acknowledged: bool) -> Option<Stamp>
        requires room { clock_after (node_of self.now) message.now ≤ last_clock }
        requires acknowledged { is_acknowledged ≡ must_acknowledge (node_of self.now) message.now }
        ensures { result ≡ first_answer self.now message.now }
    {
        if !is_acknowledged {
            return None;
        }
        Some(Stamp {
            clock: self.clock.max(message.stamp().clock) + 1,
            member: self.number,
            place: 0,
        })
    }

    // Whether something was sent after this stamp: the last message was, since stamps rise.
    fn has_later(&self, stamp: Stamp) -> bool
        ensures { result ≡ has_later self.now.sent stamp }
    {
        has_passed(self.outbox.last(), stamp)
    }

    // Whether a message is acknowledged: it is where it has a command and nothing was sent after it (Lamport 1978, "Ordering the Events
    // Totally", rule 2 and its footnote: a request is acknowledged, and need not be where a message of a later stamp was sent already).
    fn must_acknowledge(&self, message: &Message) -> bool
        ensures { result ≡ must_acknowledge (node_of self.now) message.now }
    {
        has_commands(message) && !self.has_later(message.stamp())
    }

    // The stamp of this member at a clock, where something is sent then.
    fn stamp_if(&self, is_sent: bool, clock: u64) -> Option<Stamp>
        ensures { result ≡ (if is_sent then Some (stamp clock self.now.number) else None) }
    {
        if !is_sent {
            return None;
        }
        Some(Stamp {
            clock,
            member: self.number,
            place: 0,
        })
    }

    // What a message leaves, where clock and sent list have room for it and its acknowledgement, if there is one.
    fn room_for(&self, message: &Message) -> Result<Receipt, ReceiveRefusal>
        ensures clock { IfOk result (λ receipt. receipt.clock ≡ clock_after (node_of self.now) message.now) }
        ensures acknowledged { IfOk result (λ receipt. receipt.is_acknowledged ≡ must_acknowledge (node_of self.now) message.now) }
        ensures accepted { OnOk result (room_refusal self.now.group (node_of self.now) message.now ≡ None) }
        ensures first_refusal { IfErr result (λ refusal. (room_refusal self.now.group (node_of self.now) message.now ≡ rule_of (receipt_refused refusal)) × (refusal ≢ ReceiveRefusal.NoMemory)) }
    {
        let is_acknowledged = self.must_acknowledge(message);
        // The clock passes the message's stamp (Lamport 1978, "Logical Clocks", rule IR2), and the acknowledgement is one event more.
        let steps = if is_acknowledged { 2 } else { 1 };
        let seen = self.clock.max(message.stamp().clock);
        if LAST_CLOCK - steps < seen {
            return Err(ReceiveRefusal::ClockFull);
        }
        // What must be acknowledged is received only where the acknowledgement can be sent: its sender waits for it.
        if is_acknowledged && self.outbox.is_full() {
            return Err(ReceiveRefusal::SentFull);
        }
        Ok(Receipt {
            clock: seen + steps,
            is_acknowledged,
        })
    }

    // Whether the first command of a message has its caller's next serial.
    fn serial_in_turn(&self, message: &Message) -> Result<(), ReceiveRefusal>
        ensures accepted { OnOk result (serial_refusal self.now message.now ≡ None) }
        ensures refused { IfErr result (λ refusal. (serial_refusal self.now message.now ≡ rule_of (receipt_refused refusal)) × (refusal ≢ ReceiveRefusal.NoMemory)) }
    {
        let Message::Batch {
            stamp,
            caller,
            serial,
            ..
        } = message
        else {
            return Ok(());
        };
        // A caller's commands are numbered from 0 without a gap, so that each is held once.
        let next = next_serial(&self.serials, stamp.member, *caller);
        if u64::from(*serial) != next {
            return Err(ReceiveRefusal::BadSerial { next });
        }
        Ok(())
    }

    // What a message leaves, where nothing but memory stands in its way.
    fn receipt(&self, from: u32, number: u32, message: &Message) -> Result<Receipt, ReceiveRefusal>
        ensures clock { IfOk result (λ receipt. receipt.clock ≡ clock_after (node_of self.now) message.now) }
        ensures acknowledged { IfOk result (λ receipt. receipt.is_acknowledged ≡ must_acknowledge (node_of self.now) message.now) }
        ensures accepted { OnOk result (message_refusal self.now from number message.now ≡ None) }
        ensures first_refusal { IfErr result (λ refusal. (message_refusal self.now from number message.now ≡ rule_of (receipt_refused refusal)) × (refusal ≢ ReceiveRefusal.NoMemory)) }
    {
        // Messages of one member are received in the order in which they were sent (Lamport 1978, "Ordering the Events Totally").
        self.links.check(from, number, message.stamp())?;
        if has_bad_batch(message) {
            return Err(ReceiveRefusal::BadBatch);
        }
        let receipt = self.room_for(message)?;
        self.serial_in_turn(message)?;
        Ok(receipt)
    }

    // Takes a message that nothing but memory stands in the way of.
    fn take(
        &mut self,
        from: u32,
        number: u32,
        message: &Message,
        clock: u64,
        stamp: Option<Stamp>,
    ) -> Result<(), AllocError>
        requires accepted { message_refusal self.old from number message.now ≡ None }
        requires clock { clock ≡ clock_after (node_of self.old) message.now }
        requires stamp { stamp ≡ acknowledgement (node_of self.old) message.now }
        ensures received { OnOk result (self.new ≡ received self.old from message.now) }
        ensures memory_needed { OnErr result (message_has_commands message.now ≡ true) }
        ensures unchanged { OnErr result (self.new ≡ self.old) }
    {
        // All memory is taken before anything changes.
        make_room(&mut self.outbox, stamp)?;
        let alloc = *self.history.allocator();
        hold(alloc, &mut self.serials, &mut self.held, message)?;
        let Ok(()) = self.links.accept(from, number, message.stamp()) else {
            unreachable!()
        };
        acknowledge(&mut self.outbox, stamp);
        self.clock = clock;
        Ok(())
    }
}
