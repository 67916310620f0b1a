//! Why calls of nodes and passes are refused.
ghost use Rattle.std.specs.Prelude.{◌≡◌, ◌≢◌};

use rbac_member::{ReceiveRefusal, SubmitRefusal};
use thiserror::Error;

/// Why nothing was received.
#[derive(Clone, Copy, Debug, PartialEq, Eq, Drop, Error)]
pub enum NodeRefusal {
    /// The sender's row does not show the next message yet.
    #[error("the sender has not published the next message yet")]
    NotShown,
    /// The member does not take the message.
    #[error(transparent)]
    Receive(ReceiveRefusal),
    #[error("no memory")]
    NoMemory,
}

/// Why not all was published.
#[derive(Clone, Copy, Debug, PartialEq, Eq, Drop, Error)]
pub enum PublishRefusal {
    /// A row has no place left.
    #[error("a row has no place left")]
    RowFull,
    /// Somebody else has set the next cell.
    #[error("somebody else has set the next cell")]
    Taken,
    #[error("no memory")]
    NoMemory,
}

/// Why a pass's command was not submitted, in the order of the checks.
#[derive(Clone, Copy, Debug, PartialEq, Eq, Drop, Error)]
pub enum ServiceRefusal {
    #[error("the service is stopped")]
    Stopped,
    /// The pass waits for an answer.
    #[error("the pass waits for an answer")]
    Busy,
    /// The clock is at its limit.
    #[error("the member's clock is at its limit")]
    ClockFull,
    /// The member has sent as many messages as it may.
    #[error("the member has sent as many messages as the founding allows")]
    SentFull,
    /// The pass is not of this service: its member or its caller's number is not the node's, both tried before the clock, or
    /// its serial is not one that the member expects.
    #[error("the pass is of another service, another member or another caller")]
    Foreign,
    #[error("no memory")]
    NoMemory,
}

/// Why two passes did not meet, in the order of the checks.
#[derive(Clone, Copy, Debug, PartialEq, Eq, Drop, Error)]
pub enum MeetRefusal {
    #[error("the passes are of two members")]
    OtherMember,
    #[error("no memory")]
    NoMemory,
}

impl From<SubmitRefusal> for ServiceRefusal {
    ghost use Rattle.rbac_member.specs.Calls.{submit_refused};
    ghost use Rattle.rbac_node.specs.Told.{told};
    ghost use Rattle.rbac_node.specs.declared.refusal.ServiceRefusal.TheVariants as refused;

    ghost from_gives = { λ refusal made. (made ≡ told (submit_refused refusal)) × (made ≢ refused.Busy) };

    fn from(refusal: SubmitRefusal) -> ServiceRefusal {
        match refusal {
            SubmitRefusal::ClockFull => ServiceRefusal::ClockFull,
            SubmitRefusal::SentFull => ServiceRefusal::SentFull,
            SubmitRefusal::BadBatch | SubmitRefusal::BadSerial { .. } => ServiceRefusal::Foreign,
            SubmitRefusal::NoMemory => ServiceRefusal::NoMemory,
        }
    }
}
