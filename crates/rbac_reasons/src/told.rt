//! What is told of an answer: the reason of a grant, and why a command is denied.

use crate::chain::Chain;
use rbac_decide::Hindrance;
use rbac_terms::{Name, NameSet};

/// Why a session may perform an operation on an object.
#[derive(Drop)]
pub struct Reason {
    /// A role that is active in the session.
    pub active: Name,
    /// The roles after it, of which each is a declared descendant of the one before it, down to the one that the permission is
    /// granted to. Empty where that is the active role.
    pub inherited: Vec<Name>,
    /// The role that the permission is granted to.
    pub granted: Name,
}

/// What the names of a hindrance don't tell.
#[derive(Drop)]
pub enum Explanation {
    /// Nothing: the names tell all.
    Nothing,
    /// Of a breach the roles of the set that the user would be authorized for, or that would be active in the session, and the set's
    /// number: as many are too many.
    Breach { roles: NameSet, number: u32 },
    /// Of a pair that would close a cycle the roles from the descendant down to the ascendant.
    Cycle { chain: Chain },
    /// Of a set that would be badly sized how many roles it would have, and its number then.
    Size { size: usize, number: u32 },
}

/// A hindrance, and what its names don't tell.
#[derive(Drop)]
pub struct Explained<'a> {
    pub hindrance: Hindrance<'a>,
    pub explanation: Explanation,
}
