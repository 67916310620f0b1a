//! What an audit answers.

use thiserror::Error;

/// Why there is no audit, in the order of the checks.
#[derive(Clone, Copy, Debug, PartialEq, Eq, Drop, Error)]
pub enum AuditRefusal {
    /// The nodes are not each member once in order of number, or one has read more of a sender than that one's node has
    /// published.
    #[error("the nodes are not each member once in order of number, or one has read more than another has published")]
    NotAGroup,
    #[error("no memory")]
    NoMemory,
}

/// How many records each member delivered, in order of number.
#[derive(Drop)]
pub struct Audit {
    pub delivered: Vec<usize>,
}
