//! The reviews of a policy.
use crate::name::Name;
use crate::separation::Separation;

/// A review function of RBAC (ANSI INCITS 359-2004, 6.1.3, 6.1.4 and those of 6.2 to 6.4), one variant for each: it lists
/// what a policy says, and changes nothing. Those about sets of separation serve both kinds: SsdRoleSets is `RoleSets` of the
/// static kind, DsdRoleSets of the dynamic one.
#[derive(PartialEq, Eq, Drop)]
pub enum Review {
    AssignedUsers { role: Name },
    AssignedRoles { user: Name },
    AuthorizedUsers { role: Name },
    AuthorizedRoles { user: Name },
    RolePermissions { role: Name },
    UserPermissions { user: Name },
    SessionRoles { session: Name },
    SessionPermissions { session: Name },
    RoleOperationsOnObject { role: Name, object: Name },
    UserOperationsOnObject { user: Name, object: Name },
    RoleSets { kind: Separation },
    RoleSetRoles { kind: Separation, set: Name },
    RoleSetCardinality { kind: Separation, set: Name },
}
