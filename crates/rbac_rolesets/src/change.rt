//! Changes of users, roles, UA and PA that may want memory.
use hashed_keys::KeySet;
use rbac_terms::Name;

/// A call that may be refused, with its arguments.
#[derive(Clone, Copy)]
pub enum Change<'a> {
    AddUser {
        user: &'a Name,
    },
    AddRole {
        role: &'a Name,
    },
    Assign {
        user: &'a Name,
        role: &'a Name,
    },
    Grant {
        operation: &'a Name,
        object: &'a Name,
        role: &'a Name,
    },
}

// A change with names of its own. A grant has all roles of its permission, so that no set in PA has to grow.
#[derive(Drop)]
pub enum Step {
    AddUser {
        user: Name,
    },
    AddRole {
        role: Name,
    },
    Assign {
        user: Name,
        role: Name,
    },
    Grant {
        permission: (Name, Name),
        roles: KeySet<Name>,
    },
}
