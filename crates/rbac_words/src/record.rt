//! What a member's history keeps of a delivered command.
ghost use Rattle.std.specs.Prelude.{◌≡◌, IfOk};

use crate::shared_command::SharedCommand;
use crate::stamp::Stamp;
use rbac_terms::Answer;
use std::alloc::AllocError;

/// A delivered command with its answer.
#[derive(Drop)]
pub struct Record {
    pub stamp: Stamp,
    pub caller: u32,
    pub serial: u32,
    pub command: SharedCommand,
    pub answer: Answer,
}

impl Record {
    /// An equal record.
    ///
    /// # Errors
    /// `AllocError` where there is no memory for it.
    pub fn copy(&self) -> Result<Record, AllocError>
        ensures { IfOk result (λ copy. copy ≡ self.now) }
    {
        Ok(Record {
            stamp: self.stamp,
            caller: self.caller,
            serial: self.serial,
            command: self.command.copy()?,
            answer: self.answer.copy()?,
        })
    }
}
