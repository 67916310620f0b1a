//! Roles one under the other.

use rbac_terms::Name;

/// Roles one under the other: of each two neighbours the first is the ascendant, the second the descendant of a declared pair.
#[derive(Drop)]
pub struct Chain {
    pub first: Name,
    /// The roles after the first, in order, down to the last. Empty where the first is the last.
    pub rest: Vec<Name>,
    pub last: Name,
}
