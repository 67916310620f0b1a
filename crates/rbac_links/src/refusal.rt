//! Why a member sends no more, or takes no message.

use thiserror::Error;

/// Why no message is sent, in the order of the checks.
#[derive(Clone, Copy, Debug, PartialEq, Eq, Drop, Error)]
pub enum OutboxRefusal {
    /// As many messages were sent as may be.
    #[error("the member has sent as many messages as the founding allows")]
    Full,
    /// Memory ran out, and nothing was sent.
    #[error("no memory")]
    NoMemory,
}

/// Why a message is not taken from a member, in the order of the checks.
#[derive(Clone, Copy, Debug, PartialEq, Eq, Drop, Error)]
pub enum LinkRefusal {
    /// The group has no member of this number.
    #[error("the group has no member of this number")]
    UnknownMember,
    /// A member takes nothing from itself.
    #[error("a member receives nothing from itself")]
    FromSelf,
    /// A message that was taken before.
    #[error("the message was received before: expected message {expected}")]
    Repeat { expected: u64 },
    /// A message before which another one is missing.
    #[error("a message before this one is missing: expected message {expected}")]
    Gap { expected: u64 },
    /// The stamp is none of a message of the sender, or not above the last one taken from it.
    #[error("the stamp is none of a message of the sender, or not above the last one taken from it")]
    StampNotRising,
}
