//! What a line asks of a member.
use rbac_words::{Commands, Message};

/// A caller's next commands, the first of which has this serial.
#[derive(Drop)]
pub struct Submission {
    pub caller: u32,
    pub serial: u32,
    pub commands: Commands,
}

/// A message that was brought as that of a number of a member.
#[derive(Drop)]
pub struct Brought {
    pub from: u32,
    pub number: u32,
    pub message: Message,
}

/// What a line asks a member to tell. It changes nothing.
#[derive(Drop)]
pub enum Question {
    /// The message by which commands would be submitted.
    Next(Submission),
    /// The acknowledgement that a message wants before it is received.
    Answer(Brought),
    /// The message of this number that the member sent.
    Message { number: u32 },
    /// The record of this number of the member's history.
    Record { number: u32 },
    /// The least command that is held, and whom it waits for.
    Waits,
    /// The commands that make the member's policy.
    Dump,
}

/// What a line asks of a member.
#[derive(Drop)]
pub enum Asked {
    /// Commands are submitted together.
    Submit(Submission),
    /// A message is received.
    Receive(Brought),
    /// Message `number` of the member's own row is taken.
    Own { number: u32, message: Message },
    /// What is due is delivered.
    Deliver,
    /// Something is told.
    Tell(Question),
}
