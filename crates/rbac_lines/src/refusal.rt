//! Why the command of a client line is refused.
ghost use Rattle.std.specs.Prelude.{◌≡◌};
ghost use Rattle.rbac_lines.specs.Text.{desk_refusal_word};

use thiserror::Error;

/// Why a desk did not answer a command, in the order of the checks.
#[derive(Clone, Copy, Debug, PartialEq, Eq, Drop, Error)]
pub enum DeskRefusal {
    /// There is no such member.
    #[error("the group has no member of this number")]
    UnknownMember,
    /// The member takes no more commands.
    #[error("the member takes no more commands")]
    Stopped,
    /// An earlier command of this caller has no answer yet.
    #[error("an earlier command of this caller has no answer yet")]
    Busy,
    /// The member's clock is at its limit.
    #[error("the member's clock is at its limit")]
    ClockFull,
    /// The member can send no more.
    #[error("the member has sent as many messages as the founding allows")]
    SentFull,
    /// Memory ran out, which ends a conversation.
    #[error("no memory")]
    NoMemory,
}

impl DeskRefusal {
    /// The word that a text shows.
    pub fn word(self) -> &'static str
        ensures { result.now ≡ desk_refusal_word self }
    {
        match self {
            DeskRefusal::UnknownMember => "UnknownMember",
            DeskRefusal::Stopped => "Stopped",
            DeskRefusal::Busy => "Busy",
            DeskRefusal::ClockFull => "ClockFull",
            DeskRefusal::SentFull => "SentFull",
            DeskRefusal::NoMemory => "NoMemory",
        }
    }
}
