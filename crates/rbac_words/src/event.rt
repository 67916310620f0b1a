//! What can happen to a group of members, what comes of it, and why an event is refused.

use crate::commands::Commands;
use crate::shared_command::SharedCommand;
use crate::stamp::Stamp;
use thiserror::Error;

/// One atomic step on one member.
#[derive(Drop)]
pub enum Event {
    /// A caller of member `at` submits its next command.
    Submit {
        at: u32,
        caller: u32,
        serial: u32,
        command: SharedCommand,
    },
    /// A caller of member `at` submits its next commands together.
    SubmitBatch {
        at: u32,
        caller: u32,
        serial: u32,
        commands: Commands,
    },
    /// Message `number` (counted from 1) of member `from` comes to member `at`.
    Receive {
        at: u32,
        from: u32,
        number: u32,
    },
    /// Member `at` delivers its least held command, if that is stable.
    Deliver {
        at: u32,
    },
}

/// What an event that is not refused gives.
#[derive(Clone, Copy, Debug, PartialEq, Eq, Drop)]
pub enum Outcome {
    /// The stamp of the message: that of its first command.
    Submitted(Stamp),
    /// The stamp of the acknowledgement, if the message was acknowledged.
    Received(Option<Stamp>),
    /// The place of the new record in the member's history, if one was due.
    Delivered(Option<usize>),
}

/// Why an event is refused: the first that applies, in this order.
#[derive(Clone, Copy, Debug, PartialEq, Eq, Drop, Error)]
pub enum Refusal {
    /// `at` or `from` is no member.
    #[error("the group has no member of this number")]
    UnknownMember,
    /// No command, more than 64, or a last serial above 4,294,967,295.
    #[error("a message has 1 to 64 commands, with serials up to 4294967295")]
    BadBatch,
    /// A member receives nothing from itself.
    #[error("a member receives nothing from itself")]
    FromSelf,
    /// The sender has sent no message of this number.
    #[error("the sender has sent no message of this number")]
    NotSent,
    /// A message that was received before.
    #[error("the message was received before: expected message {expected}")]
    Repeat { expected: u64 },
    /// A message before which another one is missing.
    #[error("a message before this one is missing: expected message {expected}")]
    Gap { expected: u64 },
    /// The stamp is none of a message of the sender, or not above the last one taken from it.
    #[error("the stamp is none of a message of the sender, or not above the last one taken from it")]
    StampNotRising,
    /// The clock would pass its limit.
    #[error("the member's clock is at its limit")]
    ClockFull,
    /// No more can be sent.
    #[error("the member has sent as many messages as the founding allows")]
    SentFull,
    /// The serial is not the caller's next.
    #[error("expected serial {next}")]
    BadSerial { next: u64 },
    /// Memory ran out, and nothing happened.
    #[error("no memory")]
    NoMemory,
}
