//! How a member takes the messages of its own row.
ghost use Rattle.std.specs.Prelude.{◌≡◌, ◌≢◌, None, IfErr, OnOk, OnErr};
ghost use Rattle.rbac_words.specs.Stamp.{is_after as stamp_is_after};

use crate::member::Member;
use crate::member::counting::next_serial;
use crate::member::receive::has_bad_batch;
use crate::member::submit::send;
use crate::refusal::OwnRefusal;
use rbac_words::limits::LAST_CLOCK;
use rbac_words::{Message, Stamp};
use std::alloc::AllocError;

// Whether a stamp comes after the last one, if there is a last one.
fn comes_after(last: Option<Stamp>, stamp: Stamp) -> bool
    ensures { result ≡ stamp_is_after last stamp }
{
    match last {
        None => true,
        Some(last) => last.is_before(stamp),
    }
}

impl Member {
    ghost use Rattle.rbac_words.specs.Keeping.Member.{serial_refusal};
    ghost use Rattle.rbac_words.specs.Keeping.Own.{row_refusal, own_room_refusal, own_refusal, took_own};
    ghost use Rattle.rbac_member.specs.Calls.{own_refused, rule_of};

    /// Takes message `number` of its own row, which is the next after those that it sent and took: it joins what the member sent, its
    /// commands are held, and the clock moves to its stamp, where it is not there yet. Nothing is acknowledged or delivered. So a member
    /// takes what it sent in an earlier life, what another process that is the same member sent, or a seal.
    ///
    /// # Errors
    /// The first that applies: `Repeat`, `Gap`, `StampNotRising`, `BadBatch`, `ClockFull`, `SentFull`, `BadSerial`, `NoMemory`. The member
    /// is as before.
    pub fn take_own(&mut self, number: u32, message: Message) -> Result<(), OwnRefusal>
        ensures took { OnOk result (self.new ≡ took_own self.old message) }
        ensures accepted { OnOk result (own_refusal self.old number message ≡ None) }
        ensures first_refusal { IfErr result (λ refusal. own_refusal self.old number message ≡ rule_of (own_refused refusal)) }
        ensures unchanged { OnErr result (self.new ≡ self.old) }
    {
        match self.check_own(number, &message) {
            Ok(()) => {}
            Err(refusal) => return Err(refusal),
        }
        match self.take_next(number, message) {
            Ok(()) => Ok(()),
            Err(AllocError) => Err(OwnRefusal::NoMemory),
        }
    }

    // Whether a message of this number and stamp is the next of its own row.
    fn check_row(&self, number: u32, stamp: Stamp) -> Result<(), OwnRefusal>
        ensures accepted { OnOk result (row_refusal self.now number stamp ≡ None) }
        ensures refused { IfErr result (λ refusal. (row_refusal self.now number stamp ≡ rule_of (own_refused refusal)) × (refusal ≢ OwnRefusal.NoMemory)) }
    {
        // What it sends is numbered from 1 without a gap.
        let expected = u64::from(self.outbox.len()) + 1;
        if u64::from(number) < expected {
            return Err(OwnRefusal::Repeat { expected });
        }
        if expected < u64::from(number) {
            return Err(OwnRefusal::Gap { expected });
        }
        // Its stamps rise (Lamport 1978, "Logical Clocks", rule IR1).
        if stamp.member != self.number
            || stamp.place != 0
            || !comes_after(self.outbox.last(), stamp)
        {
            return Err(OwnRefusal::StampNotRising);
        }
        Ok(())
    }

    // Whether clock and sent list have room for a message of its own.
    fn check_room(&self, message: &Message) -> Result<(), OwnRefusal>
        ensures accepted { OnOk result (own_room_refusal self.now message.now ≡ None) }
        ensures refused { IfErr result (λ refusal. (own_room_refusal self.now message.now ≡ rule_of (own_refused refusal)) × (refusal ≢ OwnRefusal.NoMemory)) }
    {
        if LAST_CLOCK < message.stamp().clock {
            return Err(OwnRefusal::ClockFull);
        }
        if self.outbox.is_full() {
            return Err(OwnRefusal::SentFull);
        }
        Ok(())
    }

    // Whether the first command of a message has its caller's next serial.
    fn check_serial(&self, message: &Message) -> Result<(), OwnRefusal>
        ensures accepted { OnOk result (serial_refusal self.now message.now ≡ None) }
        ensures refused { IfErr result (λ refusal. (serial_refusal self.now message.now ≡ rule_of (own_refused refusal)) × (refusal ≢ OwnRefusal.NoMemory)) }
    {
        let Message::Batch {
            stamp,
            caller,
            serial,
            ..
        } = message
        else {
            return Ok(());
        };
        // A caller's commands are numbered from 0 without a gap, so that each is held once.
        let next = next_serial(&self.serials, stamp.member, *caller);
        if u64::from(*serial) != next {
            return Err(OwnRefusal::BadSerial { next });
        }
        Ok(())
    }

    // Whether nothing but memory stands in the way of a message of its own.
    fn check_own(&self, number: u32, message: &Message) -> Result<(), OwnRefusal>
        ensures accepted { OnOk result (own_refusal self.now number message.now ≡ None) }
        ensures first_refusal { IfErr result (λ refusal. (own_refusal self.now number message.now ≡ rule_of (own_refused refusal)) × (refusal ≢ OwnRefusal.NoMemory)) }
    {
        self.check_row(number, message.stamp())?;
        if has_bad_batch(message) {
            return Err(OwnRefusal::BadBatch);
        }
        self.check_room(message)?;
        self.check_serial(message)?;
        Ok(())
    }

    // Takes a message of its own, which nothing but memory stands in the way of.
    fn take_next(&mut self, number: u32, message: Message) -> Result<(), AllocError>
        requires accepted { own_refusal self.old number message ≡ None }
        ensures took { OnOk result (self.new ≡ took_own self.old message) }
        ensures unchanged { OnErr result (self.new ≡ self.old) }
    {
        let _number = number;
        let clock = self.clock.max(message.stamp().clock);
        let alloc = *self.history.allocator();
        send(
            alloc,
            &mut self.serials,
            &mut self.outbox,
            &mut self.held,
            message,
        )?;
        self.clock = clock;
        Ok(())
    }
}
