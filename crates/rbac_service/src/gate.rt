//! Where a test holds a call.

use rbac_words::Stamp;

/// How far a call has come.
#[derive(Clone, Copy, Debug, PartialEq, Eq, Drop)]
pub enum Moment {
    /// Its command was submitted with this stamp.
    Submitted(Stamp),
    /// The command of this stamp was answered.
    Answered(Stamp),
}

/// Is called last before a submit or an answer succeeds, with no lock held. It may wait: one that waits keeps its own handle.
pub trait Gate {
    fn at(&self, moment: Moment);
}

/// Lets each call pass.
#[derive(Drop)]
pub struct NoGate;

impl Gate for NoGate {
    fn at(&self, _moment: Moment) {}
}
