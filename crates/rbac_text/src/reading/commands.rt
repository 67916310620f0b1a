//! The command that an object stands for: its fields are taken from left to right, and there is no other key.
ghost use Rattle.std.specs.Prelude.{◌∷◌, []};
ghost use Rattle.lent_json.specs.Data.{members};
ghost use Rattle.rbac_text.specs.Steps.{seen};
ghost use Rattle.rbac_text.specs.Fields.{Reads};
ghost use Rattle.rbac_text.specs.Command.{a_name, command_of, object_key, operation_key, role_key, user_key, whole_of};

mod hierarchy;
mod reviews;
mod separation;
mod sessions;

use crate::reading::fields::{Object, Reading, name_in, only_keys, text_in};
use hierarchy::hierarchy_command;
use rbac_terms::{Command, Name};
use std::alloc::Global;

/// Reads a command object. It is refused for the first of these: its name is not there, is no text or is not known, a field that belongs
/// to that is not there or not of its kind, from left to right, or there is another key.
///
/// # Errors
/// `MissingField`, `WrongKind`, `UnknownWord`, `BadName` and `ExtraField` of the object, and `NoMemory` where memory ends.
pub fn command_of(alloc: Global, fields: &Object<'_>) -> Reading<Command>
    ensures { Reads (command_of (members fields.now)) result }
{
    match text_in(fields, "name")? {
        "AddUser" => one_user(alloc, fields).map(|user| Command::AddUser { user }),
        "DeleteUser" => one_user(alloc, fields).map(|user| Command::DeleteUser { user }),
        "AddRole" => one_role(alloc, fields).map(|role| Command::AddRole { role }),
        "DeleteRole" => one_role(alloc, fields).map(|role| Command::DeleteRole { role }),
        "AssignUser" => {
            let (user, role) = user_and_role(alloc, fields)?;
            Ok(Command::AssignUser { user, role })
        }
        "DeassignUser" => {
            let (user, role) = user_and_role(alloc, fields)?;
            Ok(Command::DeassignUser { user, role })
        }
        "GrantPermission" => {
            let (operation, object, role) = permission_of_role(alloc, fields)?;
            Ok(Command::GrantPermission {
                operation,
                object,
                role,
            })
        }
        "RevokePermission" => {
            let (operation, object, role) = permission_of_role(alloc, fields)?;
            Ok(Command::RevokePermission {
                operation,
                object,
                role,
            })
        }
        name => hierarchy_command(alloc, fields, name),
    }
}

/// The name at this key, where there is no other key but the command's name.
fn one_name(alloc: Global, fields: &Object<'_>, key: &str) -> Reading<Name>
    ensures { Reads (whole_of ((key.now, a_name) ∷ []) (members fields.now)) (seen (λ name. (name, tt)) result) }
{
    let name = name_in(alloc, fields, key)?;
    only_keys(fields, &["name", key])?;
    Ok(name)
}

/// The user, and no other key.
fn one_user(alloc: Global, fields: &Object<'_>) -> Reading<Name>
    ensures { Reads (whole_of (user_key ∷ []) (members fields.now)) (seen (λ name. (name, tt)) result) }
{
    one_name(alloc, fields, "user")
}

/// The role, and no other key.
fn one_role(alloc: Global, fields: &Object<'_>) -> Reading<Name>
    ensures { Reads (whole_of (role_key ∷ []) (members fields.now)) (seen (λ name. (name, tt)) result) }
{
    one_name(alloc, fields, "role")
}

/// The names at these two keys, and no other key.
fn two_names(alloc: Global, fields: &Object<'_>, first: &str, second: &str) -> Reading<(Name, Name)>
    ensures { Reads (whole_of ((first.now, a_name) ∷ (second.now, a_name) ∷ []) (members fields.now)) (seen (λ names. (names.0, (names.1, tt))) result) }
{
    let one = name_in(alloc, fields, first)?;
    let two = name_in(alloc, fields, second)?;
    only_keys(fields, &["name", first, second])?;
    Ok((one, two))
}

/// A user and a role, and no other key.
fn user_and_role(alloc: Global, fields: &Object<'_>) -> Reading<(Name, Name)>
    ensures { Reads (whole_of (user_key ∷ role_key ∷ []) (members fields.now)) (seen (λ names. (names.0, (names.1, tt))) result) }
{
    two_names(alloc, fields, "user", "role")
}

/// The names at these three keys, and no other key.
fn three_names(
    alloc: Global,
    fields: &Object<'_>,
    first: &str,
    second: &str,
    third: &str,
) -> Reading<(Name, Name, Name)>
    ensures { Reads (whole_of ((first.now, a_name) ∷ (second.now, a_name) ∷ (third.now, a_name) ∷ []) (members fields.now)) (seen (λ names. (names.0, (names.1, (names.2, tt)))) result) }
{
    let one = name_in(alloc, fields, first)?;
    let two = name_in(alloc, fields, second)?;
    let three = name_in(alloc, fields, third)?;
    only_keys(fields, &["name", first, second, third])?;
    Ok((one, two, three))
}

/// The operation and the object of a permission, and a role.
fn permission_of_role(alloc: Global, fields: &Object<'_>) -> Reading<(Name, Name, Name)>
    ensures { Reads (whole_of (operation_key ∷ object_key ∷ role_key ∷ []) (members fields.now)) (seen (λ names. (names.0, (names.1, (names.2, tt)))) result) }
{
    three_names(alloc, fields, "operation", "object", "role")
}
