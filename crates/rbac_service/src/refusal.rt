//! Why calls of a service are refused.

use rbac_node::{ServiceRefusal, Ticket};
use std::fmt;
use std::fmt::{Debug, Formatter};
use thiserror::Error;

/// Why no pass was given, in the order of the checks.
#[derive(Clone, Copy, Debug, PartialEq, Eq, Drop, Error)]
pub enum EnrollRefusal {
    /// The group has no member of this number.
    #[error("the group has no member of this number")]
    UnknownMember,
    #[error("the service is stopped")]
    Stopped,
    /// The member has given 4,294,967,295 caller numbers.
    #[error("the member has given all 4294967295 caller numbers")]
    CallersFull,
}

/// Why a ticket was not answered, in the order of the checks. The ticket comes back, and stays its pass's outstanding one.
#[derive(Drop, Error)]
pub enum AwaitRefusal {
    /// The service was stopped before the answer was published.
    #[error("the service was stopped before the answer was published")]
    Stopped(Ticket),
    #[error("no memory")]
    NoMemory(Ticket),
}

// The ticket is not shown.
impl Debug for AwaitRefusal {
    fn fmt<W: fmt::Write>(&self, f: &mut Formatter<W>) -> fmt::Result {
        f.write_str(match self {
            AwaitRefusal::Stopped(_) => "Stopped(..)",
            AwaitRefusal::NoMemory(_) => "NoMemory(..)",
        })
    }
}

/// Why a call was not answered. A call that is refused while it waits has submitted its command.
#[derive(Debug, Drop, Error)]
pub enum CallRefusal {
    #[error("the command is not submitted: {0}")]
    Submit(ServiceRefusal),
    #[error("the command is submitted and not answered: {0}")]
    Await(AwaitRefusal),
}
