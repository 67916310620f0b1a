//! Each thing that a policy holds as the command that makes it.
ghost use Rattle.std.specs.Prelude.{◌≡◌, ◌++◌, map, Result, IfOk, OnOk};
ghost use Rattle.std.specs.Fn.{FnReturnsAt};
ghost use Rattle.rbac_dump.specs.Dump.{user_command, role_command, assignment_command, declaration_command, grant_command, set_command, session_command};

use rbac_decide::{RoleSet, Session};
use rbac_terms::{Command, Name, Separation};
use std::alloc::AllocError;

pub(crate) fn tell_user(user: &Name) -> Result<Command, AllocError>
    ensures { IfOk result (λ command. command ≡ user_command user.now) }
{
    Ok(Command::AddUser { user: user.copy()? })
}

pub(crate) fn tell_role(role: &Name) -> Result<Command, AllocError>
    ensures { IfOk result (λ command. command ≡ role_command role.now) }
{
    Ok(Command::AddRole { role: role.copy()? })
}

pub(crate) fn tell_assignment(pair: &(Name, Name)) -> Result<Command, AllocError>
    ensures { IfOk result (λ command. command ≡ assignment_command pair.now) }
{
    Ok(Command::AssignUser {
        user: pair.0.copy()?,
        role: pair.1.copy()?,
    })
}

pub(crate) fn tell_declaration(pair: &(Name, Name)) -> Result<Command, AllocError>
    ensures { IfOk result (λ command. command ≡ declaration_command pair.now) }
{
    Ok(Command::AddInheritance {
        ascendant: pair.0.copy()?,
        descendant: pair.1.copy()?,
    })
}

pub(crate) fn tell_grant(grant: &((Name, Name), Name)) -> Result<Command, AllocError>
    ensures { IfOk result (λ command. command ≡ grant_command grant.now) }
{
    Ok(Command::GrantPermission {
        operation: grant.0.0.copy()?,
        object: grant.0.1.copy()?,
        role: grant.1.copy()?,
    })
}

pub(crate) fn tell_set(kind: Separation, entry: &(Name, RoleSet)) -> Result<Command, AllocError>
    ensures { IfOk result (λ command. command ≡ set_command kind entry.now) }
{
    Ok(Command::CreateSet {
        kind,
        set: entry.0.copy()?,
        roles: entry.1.roles.copy()?,
        n: entry.1.cardinality,
    })
}

pub(crate) fn tell_session(entry: &(Name, Session)) -> Result<Command, AllocError>
    ensures { IfOk result (λ command. command ≡ session_command entry.now) }
{
    Ok(Command::CreateSession {
        user: entry.1.owner.copy()?,
        session: entry.0.copy()?,
        roles: entry.1.active.copy()?,
    })
}

// Adds the command of each of the things.
pub(crate) fn tell_all<T, F: Fn(&T) -> Result<Command, AllocError>>(
    commands: &mut Vec<Command>,
    things: &[T],
    tell: F,
) -> Result<(), AllocError>
    requires { F.IsAlwaysCallable tell }
    ensures { (command_of : T → Command) → ((thing : T) (told : Result Command AllocError) → FnReturnsAt F.Fn tell thing told → IfOk told (λ command. command ≡ command_of thing)) → OnOk result (commands.new.items ≡ commands.old.items ++ map command_of things.now) }
{
    for thing in things {
        let command = tell(thing)?;
        commands.push(command)?;
    }
    Ok(())
}
