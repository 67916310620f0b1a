//! The sent list of a member.
ghost use Rattle.std.specs.Prelude.{◌≡◌, ◌<◌, ◌≤◌, ◌+◌, [], ◌∷◌, ◌++◌, length, nat_le, option_copied, IfOk, IfErr, OnOk, OnErr};
ghost use Rattle.rbac_words.specs.Message.{stamp_of};
ghost use Rattle.rbac_words.specs.Stamp.{last_stamp};
ghost use Rattle.rbac_links.specs.Outbox.{numbered};
ghost use Rattle.rbac_links.specs.Refusals.{IsSendRefused};

use crate::refusal::OutboxRefusal;
use rbac_words::{Message, Stamp};
use std::alloc::Global;
use std::marker::Model;

/// What a member sent, in order, and how many messages it may send.
#[derive(Drop)]
pub struct Outbox {
    limit: u32,
    messages: Vec<Message>,
}

impl Model for Outbox {
    ghost use Rattle.std.specs.Prelude.{◌-◌, ◌≤◌, length, vec_len, vec_capacity};
    ghost use Rattle.rbac_links.specs.Outbox.{Outbox as OutboxValue};

    ghost Value = { OutboxValue };

    ghost view = { λ a. record { limit = a.limit; sent = a.messages.items; room = vec_capacity a.messages - vec_len a.messages } };

    ghost invariant = { λ a. length a.messages.items ≤ a.limit };
}

impl Outbox {
    /// Nothing sent, and at most so many messages to be sent. It takes no memory.
    pub fn found(alloc: Global, limit: u32) -> Outbox
        ensures limit { result.limit ≡ limit }
        ensures sent { result.sent ≡ [] }
    {
        Outbox {
            limit,
            messages: Vec::new(alloc),
        }
    }

    /// What each sent list keeps.
    pub fn invariants(&self)
        ensures within_limit { length self.now.sent ≤ self.now.limit }
    {
        let _messages = &self.messages;
    }

    /// How many messages may be sent.
    pub fn limit(&self) -> u32
        ensures { result ≡ self.now.limit }
    {
        self.limit
    }

    /// How many messages were sent.
    pub fn len(&self) -> u32
        ensures { result ≡ length self.now.sent }
    {
        // The length is at most the limit.
        let _limit = self.limit;
        self.messages.len() as u32
    }

    /// Whether no more can be sent.
    pub fn is_full(&self) -> bool
        ensures { result ≡ nat_le self.now.limit (length self.now.sent) }
    {
        self.limit as usize <= self.messages.len()
    }

    /// What was sent, in order: message number j is item j, counted from 1.
    pub fn all(&self) -> &[Message]
        ensures { result.now ≡ self.now.sent }
    {
        &self.messages
    }

    /// When the last message was sent, if one was.
    pub fn last(&self) -> Option<Stamp>
        ensures { result ≡ last_stamp stamp_of self.now.sent }
    {
        match self.messages.last() {
            None => None,
            Some(message) => Some(message.stamp()),
        }
    }

    /// Message number j, counted from 1, if it was sent.
    pub fn get(&self, number: u32) -> Option<&Message>
        ensures { option_copied result ≡ numbered self.now.sent number }
    {
        if number == 0 {
            return None;
        }
        self.messages.get(number as usize - 1)
    }

    /// Makes room for the next message, which is then not refused.
    ///
    /// # Errors
    /// `Full` where as many messages are sent as may be; else `NoMemory` where there is no memory for one more.
    pub fn make_room(&mut self) -> Result<(), OutboxRefusal>
        ensures below_limit { OnOk result (length self.old.sent < self.old.limit) }
        ensures room { OnOk result (0 < self.new.room) }
        ensures first_refusal { IfErr result (IsSendRefused self.old) }
        ensures sent { self.new.sent ≡ self.old.sent }
        ensures limit { self.new.limit ≡ self.old.limit }
    {
        if self.is_full() {
            return Err(OutboxRefusal::Full);
        }
        if self.messages.reserve(1).is_err() {
            return Err(OutboxRefusal::NoMemory);
        }
        Ok(())
    }

    /// Sends a message, and answers its number: the first one is 1. A message that is not sent is handed back.
    ///
    /// # Errors
    /// `Full` where as many messages are sent as may be; else `NoMemory` where there is no memory for one more. The message comes back.
    pub fn push(&mut self, message: Message) -> Result<u32, (OutboxRefusal, Message)>
        ensures number { IfOk result (λ number. number ≡ length self.old.sent + 1) }
        ensures sent { OnOk result (self.new.sent ≡ self.old.sent ++ message ∷ []) }
        ensures below_limit { OnOk result (length self.old.sent < self.old.limit) }
        ensures first_refusal { IfErr result (λ refused. IsSendRefused self.old refused.0) }
        ensures handed_back { IfErr result (λ refused. refused.1 ≡ message) }
        ensures unchanged { OnErr result (self.new.sent ≡ self.old.sent) }
        ensures limit { self.new.limit ≡ self.old.limit }
    {
        if self.is_full() {
            return Err((OutboxRefusal::Full, message));
        }
        match self.messages.push(message) {
            Ok(()) => Ok(self.messages.len() as u32),
            Err(failed) => Err((OutboxRefusal::NoMemory, failed.value)),
        }
    }
}
