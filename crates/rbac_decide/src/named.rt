//! Names, by what they name.

use rbac_terms::{Name, Separation};

/// What there may be no more of, by the limits of `rbac_terms`.
#[derive(Clone, Copy, Debug, PartialEq, Eq, Drop)]
pub enum Counted {
    Users,
    Roles,
    Sessions,
    /// Sets of separation of a kind.
    Sets(Separation),
}

/// The names that make a precondition fail, lent by the command and the policy.
#[derive(Clone, Copy)]
pub enum Named<'a> {
    User {
        user: &'a Name,
    },
    Role {
        role: &'a Name,
    },
    Session {
        session: &'a Name,
    },
    Operation {
        operation: &'a Name,
    },
    Object {
        object: &'a Name,
    },
    Permission {
        operation: &'a Name,
        object: &'a Name,
    },
    Grant {
        operation: &'a Name,
        object: &'a Name,
        role: &'a Name,
    },
    Assignment {
        user: &'a Name,
        role: &'a Name,
    },
    Activation {
        session: &'a Name,
        role: &'a Name,
    },
    /// A pair of the hierarchy.
    Pair {
        ascendant: &'a Name,
        descendant: &'a Name,
    },
    /// A set of separation of a kind.
    Set {
        kind: Separation,
        set: &'a Name,
    },
    /// A set of a kind, and a role that is in it or is not.
    Member {
        kind: Separation,
        set: &'a Name,
        role: &'a Name,
    },
    /// A set of a kind, and who would break it: a user a static one, a session a dynamic one.
    Breach {
        kind: Separation,
        holder: &'a Name,
        set: &'a Name,
    },
    /// What there may be no more of.
    Count {
        counted: Counted,
    },
}
