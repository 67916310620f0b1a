//! What answers the commands of client lines.

use crate::refusal::DeskRefusal;
use rbac_words::{Answer, Command};
use std::alloc::Global;

/// Answers commands, one after the other. It may wait for an answer: one that waits keeps its own handle.
pub trait Desk {
    ghost use Rattle.std.specs.Prelude.{◌≡◌, ◌≢◌, Err};
    ghost use Rattle.rbac_lines.specs.Conversation.{Asks, IsLost};

    /// What a desk tells of itself: the desk before, the member and the command that it was asked for, its reply, the desk
    /// after. One whose state nothing is known of tells that anything may be.
    ghost asks: { Asks Self };

    /// Asks a member for a command. Where memory runs out, the member may have taken the command all the same.
    ///
    /// # Errors
    /// `UnknownMember` where there is no such member, `Stopped` where it takes no more commands, `Busy` where an earlier command of
    /// this caller has no answer yet, `ClockFull` and `SentFull` where the member's clock or what it may send is at its limit,
    /// `NoMemory` where memory ends.
    fn call(&mut self, alloc: Global, at: u32, command: Command) -> Result<Answer, DeskRefusal>
        ensures asked { result ≢ Err DeskRefusal.NoMemory → asks self.old at command result self.new }
        ensures lost { result ≡ Err DeskRefusal.NoMemory → IsLost asks self.old at command self.new };
}
