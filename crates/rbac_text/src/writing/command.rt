//! A command as the text of its JSON object.
ghost use Rattle.std.specs.Prelude.{◌≡◌, ◌++◌, Some, codes, OnOk};
ghost use Rattle.std.specs.List.{flat_map};
ghost use Rattle.serde_json.specs.Data.{object};
ghost use Rattle.serde_json.specs.Read.{read};
ghost use Rattle.rbac_text.specs.Command.{command_fields, command_word};
ghost use Rattle.rbac_text.specs.CommandText.{command_text, field_text, AreFields};
ghost use Rattle.rbac_text.specs.CommandObject.{command_object};

use crate::writing::by_kind::by_kind;
use crate::writing::fields::{put_name, put_names, put_three, put_two, put_whole};
use crate::writing::reviews::{put_review_fields, review_word};
use rbac_terms::Command;
use std::alloc::AllocError;

/// The name of a command, as LINES has it.
pub fn command_word(command: &Command) -> &'static str
    ensures { result.now ≡ command_word command.now }
{
    match command {
        Command::AddUser { .. } => "AddUser",
        Command::DeleteUser { .. } => "DeleteUser",
        Command::AddRole { .. } => "AddRole",
        Command::DeleteRole { .. } => "DeleteRole",
        Command::AssignUser { .. } => "AssignUser",
        Command::DeassignUser { .. } => "DeassignUser",
        Command::GrantPermission { .. } => "GrantPermission",
        Command::RevokePermission { .. } => "RevokePermission",
        Command::AddInheritance { .. } => "AddInheritance",
        Command::DeleteInheritance { .. } => "DeleteInheritance",
        Command::AddAscendant { .. } => "AddAscendant",
        Command::AddDescendant { .. } => "AddDescendant",
        Command::CreateSet { kind, .. } => by_kind(*kind, "CreateSsdSet", "CreateDsdSet"),
        Command::DeleteSet { kind, .. } => by_kind(*kind, "DeleteSsdSet", "DeleteDsdSet"),
        Command::AddRoleMember { kind, .. } => {
            by_kind(*kind, "AddSsdRoleMember", "AddDsdRoleMember")
        }
        Command::DeleteRoleMember { kind, .. } => {
            by_kind(*kind, "DeleteSsdRoleMember", "DeleteDsdRoleMember")
        }
        Command::SetCardinality { kind, .. } => {
            by_kind(*kind, "SetSsdSetCardinality", "SetDsdSetCardinality")
        }
        Command::CreateSession { .. } => "CreateSession",
        Command::DeleteSession { .. } => "DeleteSession",
        Command::AddActiveRole { .. } => "AddActiveRole",
        Command::DropActiveRole { .. } => "DropActiveRole",
        Command::CheckAccess { .. } => "CheckAccess",
        Command::Review(review) => review_word(review),
    }
}

// The object's begin: the command's name at its key.
fn put_word(text: &mut Vec<u8>, command: &Command) -> Result<(), AllocError>
    ensures { OnOk result (text.new.items ≡ text.old.items ++ codes "{\"name\":\"" ++ command_word command.now ++ codes "\"") }
{
    text.extend_from_slice(b"{\"name\":\"")?;
    text.extend_from_slice(command_word(command).as_bytes())?;
    text.extend_from_slice(b"\"")
}

// The fields of a command.
fn put_fields(text: &mut Vec<u8>, command: &Command) -> Result<(), AllocError>
    ensures text { OnOk result (text.new.items ≡ text.old.items ++ flat_map field_text (command_fields command.now)) }
    ensures fit { OnOk result (AreFields (command_fields command.now)) }
{
    match command {
        Command::AddUser { user } | Command::DeleteUser { user } => put_name(text, "user", user),
        Command::AddRole { role } | Command::DeleteRole { role } => put_name(text, "role", role),
        Command::AssignUser { user, role } | Command::DeassignUser { user, role } => {
            put_two(text, "user", user, "role", role)
        }
        Command::GrantPermission {
            operation,
            object,
            role,
        }
        | Command::RevokePermission {
            operation,
            object,
            role,
        } => put_three(text, "operation", operation, "object", object, "role", role),
        Command::AddInheritance {
            ascendant,
            descendant,
        }
        | Command::DeleteInheritance {
            ascendant,
            descendant,
        }
        | Command::AddAscendant {
            ascendant,
            descendant,
        }
        | Command::AddDescendant {
            ascendant,
            descendant,
        } => put_two(text, "ascendant", ascendant, "descendant", descendant),
        Command::CreateSet { set, roles, n, .. } => {
            put_name(text, "set", set)?;
            put_names(text, "roles", roles)?;
            put_whole(text, "n", *n)
        }
        Command::DeleteSet { set, .. } => put_name(text, "set", set),
        Command::AddRoleMember { set, role, .. } | Command::DeleteRoleMember { set, role, .. } => {
            put_two(text, "set", set, "role", role)
        }
        Command::SetCardinality { set, n, .. } => {
            put_name(text, "set", set)?;
            put_whole(text, "n", *n)
        }
        Command::CreateSession {
            user,
            session,
            roles,
        } => {
            put_two(text, "user", user, "session", session)?;
            put_names(text, "roles", roles)
        }
        Command::DeleteSession { user, session } => {
            put_two(text, "user", user, "session", session)
        }
        Command::AddActiveRole {
            user,
            session,
            role,
        }
        | Command::DropActiveRole {
            user,
            session,
            role,
        } => put_three(text, "user", user, "session", session, "role", role),
        Command::CheckAccess {
            session,
            operation,
            object,
        } => put_three(
            text,
            "session",
            session,
            "operation",
            operation,
            "object",
            object,
        ),
        Command::Review(review) => put_review_fields(text, review),
    }
}

/// A command as the text of its JSON object: compact, its name first, and then its fields in the order in which they are read. The
/// text stands behind what the buffer has, and reads as just that object.
///
/// # Errors
/// `AllocError` where there is no memory for it. The buffer may have a part of the text then.
pub fn put_command(text: &mut Vec<u8>, command: &Command) -> Result<(), AllocError>
    ensures text { OnOk result (text.new.items ≡ text.old.items ++ command_text command.now) }
    ensures fit { OnOk result (AreFields (command_fields command.now)) }
    ensures reads_back { OnOk result (read (command_text command.now) ≡ Some (object (command_object command.now))) }
{
    put_word(text, command)?;
    put_fields(text, command)?;
    text.extend_from_slice(b"}")
}
