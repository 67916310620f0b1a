//! Messages between members.
ghost use Rattle.std.specs.Prelude.{◌≡◌, IfOk};
ghost use Rattle.rbac_words.specs.Message.{stamp_of};

use crate::commands::Commands;
use crate::shared_command::SharedCommand;
use crate::stamp::Stamp;
use std::alloc::AllocError;

/// A command as it was submitted: when and where, by which caller of that member, and with which serial, the number of that
/// caller's commands before it.
#[derive(Drop)]
pub struct Submission {
    pub stamp: Stamp,
    pub caller: u32,
    pub serial: u32,
    pub command: SharedCommand,
}

/// What a member sends to all others: commands of one caller, or an acknowledgement that it received some (Lamport 1978). The
/// commands follow one another in places from the stamp's on, and in serials from this one on.
#[derive(Clone, Drop)]
pub enum Message {
    Batch {
        stamp: Stamp,
        caller: u32,
        serial: u32,
        commands: Commands,
    },
    Ack {
        stamp: Stamp,
    },
}

impl Message {
    /// When it was sent: the stamp of its first command.
    pub fn stamp(&self) -> Stamp
        ensures { result ≡ stamp_of self.now }
    {
        match self {
            Message::Batch { stamp, .. } => *stamp,
            Message::Ack { stamp } => *stamp,
        }
    }

    /// An equal message.
    ///
    /// # Errors
    /// `AllocError` where there is no memory for it.
    pub fn copy(&self) -> Result<Message, AllocError>
        ensures { IfOk result (λ copy. copy ≡ self.now) }
    {
        self.clone()
    }
}
