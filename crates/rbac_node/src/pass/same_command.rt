//! Whether two commands are equal.
ghost use Rattle.std.specs.Prelude.{◌≡◌, true};

use rbac_words::Command;
use sorted_keys::Same;

// Whether both commands are equal.
pub(crate) fn is_same(command: &Command, other: &Command) -> bool
    ensures { result ≡ true → command.now ≡ other.now }
{
    match (command, other) {
        (Command::AddUser { user }, Command::AddUser { user: their_user }) => user == their_user,
        (Command::DeleteUser { user }, Command::DeleteUser { user: their_user }) => user
            == their_user,
        (Command::AddRole { role }, Command::AddRole { role: their_role }) => role == their_role,
        (Command::DeleteRole { role }, Command::DeleteRole { role: their_role }) => role
            == their_role,
        (
            Command::AssignUser { user, role },
            Command::AssignUser {
                user: their_user,
                role: their_role,
            },
        ) => user == their_user && role == their_role,
        (
            Command::DeassignUser { user, role },
            Command::DeassignUser {
                user: their_user,
                role: their_role,
            },
        ) => user == their_user && role == their_role,
        (
            Command::GrantPermission {
                operation,
                object,
                role,
            },
            Command::GrantPermission {
                operation: their_operation,
                object: their_object,
                role: their_role,
            },
        ) => operation == their_operation && object == their_object && role == their_role,
        (
            Command::RevokePermission {
                operation,
                object,
                role,
            },
            Command::RevokePermission {
                operation: their_operation,
                object: their_object,
                role: their_role,
            },
        ) => operation == their_operation && object == their_object && role == their_role,
        (
            Command::AddInheritance {
                ascendant,
                descendant,
            },
            Command::AddInheritance {
                ascendant: their_ascendant,
                descendant: their_descendant,
            },
        ) => ascendant == their_ascendant && descendant == their_descendant,
        (
            Command::DeleteInheritance {
                ascendant,
                descendant,
            },
            Command::DeleteInheritance {
                ascendant: their_ascendant,
                descendant: their_descendant,
            },
        ) => ascendant == their_ascendant && descendant == their_descendant,
        (
            Command::AddAscendant {
                ascendant,
                descendant,
            },
            Command::AddAscendant {
                ascendant: their_ascendant,
                descendant: their_descendant,
            },
        ) => ascendant == their_ascendant && descendant == their_descendant,
        (
            Command::AddDescendant {
                ascendant,
                descendant,
            },
            Command::AddDescendant {
                ascendant: their_ascendant,
                descendant: their_descendant,
            },
        ) => ascendant == their_ascendant && descendant == their_descendant,
        (
            Command::CreateSet {
                kind,
                set,
                roles,
                n,
            },
            Command::CreateSet {
                kind: their_kind,
                set: their_set,
                roles: their_roles,
                n: their_n,
            },
        ) => kind == their_kind && set == their_set && roles.same(their_roles) && n == their_n,
        (
            Command::DeleteSet { kind, set },
            Command::DeleteSet {
                kind: their_kind,
                set: their_set,
            },
        ) => kind == their_kind && set == their_set,
        (
            Command::AddRoleMember { kind, set, role },
            Command::AddRoleMember {
                kind: their_kind,
                set: their_set,
                role: their_role,
            },
        ) => kind == their_kind && set == their_set && role == their_role,
        (
            Command::DeleteRoleMember { kind, set, role },
            Command::DeleteRoleMember {
                kind: their_kind,
                set: their_set,
                role: their_role,
            },
        ) => kind == their_kind && set == their_set && role == their_role,
        (
            Command::SetCardinality { kind, set, n },
            Command::SetCardinality {
                kind: their_kind,
                set: their_set,
                n: their_n,
            },
        ) => kind == their_kind && set == their_set && n == their_n,
        (
            Command::CreateSession {
                user,
                session,
                roles,
            },
            Command::CreateSession {
                user: their_user,
                session: their_session,
                roles: their_roles,
            },
        ) => user == their_user && session == their_session && roles.same(their_roles),
        (
            Command::DeleteSession { user, session },
            Command::DeleteSession {
                user: their_user,
                session: their_session,
            },
        ) => user == their_user && session == their_session,
        (
            Command::AddActiveRole {
                user,
                session,
                role,
            },
            Command::AddActiveRole {
                user: their_user,
                session: their_session,
                role: their_role,
            },
        ) => user == their_user && session == their_session && role == their_role,
        (
            Command::DropActiveRole {
                user,
                session,
                role,
            },
            Command::DropActiveRole {
                user: their_user,
                session: their_session,
                role: their_role,
            },
        ) => user == their_user && session == their_session && role == their_role,
        (
            Command::CheckAccess {
                session,
                operation,
                object,
            },
            Command::CheckAccess {
                session: their_session,
                operation: their_operation,
                object: their_object,
            },
        ) => session == their_session && operation == their_operation && object == their_object,
        (Command::Review(review), Command::Review(their_review)) => review == their_review,
        _ => false,
    }
}
