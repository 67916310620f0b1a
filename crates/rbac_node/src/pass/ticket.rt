//! A submitted command that is to be answered, and its answer.
ghost use Rattle.std.specs.Prelude.{◌≡◌};

use rbac_words::{Answer, Stamp, Submission};
use std::marker::Model;

/// A command that was submitted and is to be answered. A pass has one at most, and it can't be copied.
#[derive(Drop)]
pub struct Ticket {
    pub(crate) call: Submission,
    // how long the pass's front was when the command was submitted
    pub(crate) seen: usize,
    // up to where the history was searched for it
    pub(crate) searched: usize,
}

impl Model for Ticket {
    ghost use Rattle.std.specs.Prelude.{◌≤◌};
    ghost use Rattle.rbac_node.specs.Pass.{TicketState};

    ghost Value = { TicketState };

    ghost view = { λ t. record { call = t.call; seen = t.seen } };

    ghost invariant = { λ t. t.seen ≤ t.searched };
}

impl Ticket {
    // The ticket of a command that was submitted while the pass knew so many records.
    pub(crate) fn new(call: Submission, seen: usize) -> Ticket
        ensures { result ≡ record { call = call; seen = seen } }
    {
        Ticket {
            call,
            seen,
            searched: seen,
        }
    }

    /// The stamp with which the command was submitted.
    pub fn stamp(&self) -> Stamp
        ensures { result ≡ self.now.call.stamp }
    {
        self.call.stamp
    }
}

/// The answer to a ticket's command: its stamp, its place in the member's history, and what it was answered.
#[derive(Drop)]
pub struct Receipt {
    pub stamp: Stamp,
    pub place: usize,
    pub answer: Answer,
}
