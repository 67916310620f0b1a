//! The commands of the policy.
use crate::name::Name;
use crate::name_set::NameSet;
use crate::review::Review;
use crate::separation::Separation;

/// A command of RBAC (ANSI INCITS 359-2004, 6.1 to 6.4), one variant for each that may change a policy or checks access, and one
/// for all reviews. Those about sets of separation serve both kinds: CreateSsdSet is `CreateSet` of the static kind,
/// CreateDsdSet of the dynamic one.
#[derive(PartialEq, Eq, Drop)]
pub enum Command {
    AddUser {
        user: Name,
    },
    DeleteUser {
        user: Name,
    },
    AddRole {
        role: Name,
    },
    DeleteRole {
        role: Name,
    },
    AssignUser {
        user: Name,
        role: Name,
    },
    DeassignUser {
        user: Name,
        role: Name,
    },
    GrantPermission {
        operation: Name,
        object: Name,
        role: Name,
    },
    RevokePermission {
        operation: Name,
        object: Name,
        role: Name,
    },
    AddInheritance {
        ascendant: Name,
        descendant: Name,
    },
    DeleteInheritance {
        ascendant: Name,
        descendant: Name,
    },
    AddAscendant {
        ascendant: Name,
        descendant: Name,
    },
    AddDescendant {
        ascendant: Name,
        descendant: Name,
    },
    CreateSet {
        kind: Separation,
        set: Name,
        roles: NameSet,
        n: u32,
    },
    DeleteSet {
        kind: Separation,
        set: Name,
    },
    AddRoleMember {
        kind: Separation,
        set: Name,
        role: Name,
    },
    DeleteRoleMember {
        kind: Separation,
        set: Name,
        role: Name,
    },
    SetCardinality {
        kind: Separation,
        set: Name,
        n: u32,
    },
    CreateSession {
        user: Name,
        session: Name,
        roles: NameSet,
    },
    DeleteSession {
        user: Name,
        session: Name,
    },
    AddActiveRole {
        user: Name,
        session: Name,
        role: Name,
    },
    DropActiveRole {
        user: Name,
        session: Name,
        role: Name,
    },
    CheckAccess {
        session: Name,
        operation: Name,
        object: Name,
    },
    Review(Review),
}

impl Command {
    ghost use Rattle.rbac_terms.specs.Sound.{BringsASet};

    /// The roles that a command brings are a set.
    pub fn invariants(&self)
        ensures { BringsASet self.now }
    {
        match self {
            Command::CreateSet { roles, .. } => {
                let _in_order = roles.names();
            }
            Command::CreateSession { roles, .. } => {
                let _in_order = roles.names();
            }
            _ => {}
        }
    }
}
