//! Why a member takes no part in a group, no command, or no message.
ghost use Rattle.std.specs.Prelude.{◌≡◌};
ghost use Rattle.rbac_member.specs.Calls.{of_link, submit_refused, receipt_refused, own_refused};

use rbac_links::LinkRefusal;
use rbac_words::Refusal;
use thiserror::Error;

/// Why a member was not founded.
#[derive(Clone, Copy, Debug, PartialEq, Eq, Drop, Error)]
pub enum FoundRefusal {
    /// The group has no member of this number.
    #[error("the group has no member of this number")]
    UnknownMember,
}

/// Why a command was not submitted, in the order of the checks.
#[derive(Clone, Copy, Debug, PartialEq, Eq, Drop, Error)]
pub enum SubmitRefusal {
    /// No command, more than 64, or a last serial above 4,294,967,295.
    #[error("a message has 1 to 64 commands, with serials up to 4294967295")]
    BadBatch,
    /// The clock is at its limit.
    #[error("the member's clock is at its limit")]
    ClockFull,
    /// The member has sent as many messages as it may.
    #[error("the member has sent as many messages as the founding allows")]
    SentFull,
    /// The serial is not the caller's next.
    #[error("expected serial {next}")]
    BadSerial { next: u64 },
    #[error("no memory")]
    NoMemory,
}

/// Why a message was not received, in the order of the checks.
#[derive(Clone, Copy, Debug, PartialEq, Eq, Drop, Error)]
pub enum ReceiveRefusal {
    /// The group has no member of the sender's number.
    #[error("the group has no member of this number")]
    UnknownMember,
    /// A member receives nothing from itself.
    #[error("a member receives nothing from itself")]
    FromSelf,
    /// A message that was received before.
    #[error("the message was received before: expected message {expected}")]
    Repeat { expected: u64 },
    /// A message before which another one is missing.
    #[error("a message before this one is missing: expected message {expected}")]
    Gap { expected: u64 },
    /// The stamp is none of a message of the sender, or not above the last one taken from it.
    #[error("the stamp is none of a message of the sender, or not above the last one taken from it")]
    StampNotRising,
    /// No command, more than 64, or a last serial above 4,294,967,295.
    #[error("a message has 1 to 64 commands, with serials up to 4294967295")]
    BadBatch,
    /// The clock would pass its limit, the step of an acknowledgement that is due included.
    #[error("the member's clock is at its limit")]
    ClockFull,
    /// The message is to be acknowledged, and the member has sent as many messages as it may.
    #[error("the member has sent as many messages as the founding allows")]
    SentFull,
    /// The serial is not the number of its caller's commands that were received or submitted before.
    #[error("expected serial {next}")]
    BadSerial { next: u64 },
    #[error("no memory")]
    NoMemory,
}

/// Why a message of its own row was not taken by a member, in the order of the checks.
#[derive(Clone, Copy, Debug, PartialEq, Eq, Drop, Error)]
pub enum OwnRefusal {
    /// A message that was sent or taken before.
    #[error("the message was sent or taken before: expected message {expected}")]
    Repeat { expected: u64 },
    /// A message before which another one is missing.
    #[error("a message before this one is missing: expected message {expected}")]
    Gap { expected: u64 },
    /// The stamp is none of a message of this member, or not above the last one that it sent.
    #[error("the stamp is none of a message of this member, or not above the last one that it sent")]
    StampNotRising,
    /// No command, more than 64, or a last serial above 4,294,967,295.
    #[error("a message has 1 to 64 commands, with serials up to 4294967295")]
    BadBatch,
    /// The stamp's clock is above the limit.
    #[error("the stamp's clock is above its limit")]
    ClockFull,
    /// The member has sent as many messages as it may.
    #[error("the member has sent as many messages as the founding allows")]
    SentFull,
    /// The serial is not the number of its caller's commands that the member sent before.
    #[error("expected serial {next}")]
    BadSerial { next: u64 },
    #[error("no memory")]
    NoMemory,
}

impl From<LinkRefusal> for ReceiveRefusal {
    ghost from_gives = { λ refusal made. made ≡ of_link refusal };

    fn from(refusal: LinkRefusal) -> ReceiveRefusal {
        match refusal {
            LinkRefusal::UnknownMember => ReceiveRefusal::UnknownMember,
            LinkRefusal::FromSelf => ReceiveRefusal::FromSelf,
            LinkRefusal::Repeat { expected } => ReceiveRefusal::Repeat { expected },
            LinkRefusal::Gap { expected } => ReceiveRefusal::Gap { expected },
            LinkRefusal::StampNotRising => ReceiveRefusal::StampNotRising,
        }
    }
}

impl From<SubmitRefusal> for Refusal {
    ghost from_gives = { λ refusal made. made ≡ submit_refused refusal };

    fn from(refusal: SubmitRefusal) -> Refusal {
        match refusal {
            SubmitRefusal::BadBatch => Refusal::BadBatch,
            SubmitRefusal::ClockFull => Refusal::ClockFull,
            SubmitRefusal::SentFull => Refusal::SentFull,
            SubmitRefusal::BadSerial { next } => Refusal::BadSerial { next },
            SubmitRefusal::NoMemory => Refusal::NoMemory,
        }
    }
}

impl From<ReceiveRefusal> for Refusal {
    ghost from_gives = { λ refusal made. made ≡ receipt_refused refusal };

    fn from(refusal: ReceiveRefusal) -> Refusal {
        match refusal {
            ReceiveRefusal::UnknownMember => Refusal::UnknownMember,
            ReceiveRefusal::FromSelf => Refusal::FromSelf,
            ReceiveRefusal::Repeat { expected } => Refusal::Repeat { expected },
            ReceiveRefusal::Gap { expected } => Refusal::Gap { expected },
            ReceiveRefusal::StampNotRising => Refusal::StampNotRising,
            ReceiveRefusal::BadBatch => Refusal::BadBatch,
            ReceiveRefusal::ClockFull => Refusal::ClockFull,
            ReceiveRefusal::SentFull => Refusal::SentFull,
            ReceiveRefusal::BadSerial { next } => Refusal::BadSerial { next },
            ReceiveRefusal::NoMemory => Refusal::NoMemory,
        }
    }
}

impl From<OwnRefusal> for Refusal {
    ghost from_gives = { λ refusal made. made ≡ own_refused refusal };

    fn from(refusal: OwnRefusal) -> Refusal {
        match refusal {
            OwnRefusal::Repeat { expected } => Refusal::Repeat { expected },
            OwnRefusal::Gap { expected } => Refusal::Gap { expected },
            OwnRefusal::StampNotRising => Refusal::StampNotRising,
            OwnRefusal::BadBatch => Refusal::BadBatch,
            OwnRefusal::ClockFull => Refusal::ClockFull,
            OwnRefusal::SentFull => Refusal::SentFull,
            OwnRefusal::BadSerial { next } => Refusal::BadSerial { next },
            OwnRefusal::NoMemory => Refusal::NoMemory,
        }
    }
}
