//! Sets and sessions: each as one command, or in parts where there is no room for that command's text.
ghost use Rattle.std.specs.Prelude.{◌≡◌, ◌++◌, map, take, drop, IfOk, OnOk};
ghost use Rattle.std.specs.List.{flat_map};
ghost use Rattle.std.specs.List.Sorted.{IsStrictlySortedBy};
ghost use Rattle.rbac_terms.specs.Name.{name_cmp};
ghost use Rattle.rbac_terms.specs.declared.command.Command.TheVariants.{CreateSet, CreateSession, SetCardinality};
ghost use Rattle.rbac_dump.specs.Dump.{activation_command, early_set, is_long, late_set, member_command, session_command, session_commands, session_parts, set_command, set_parts};

use crate::telling::{tell_all, tell_session, tell_set};
use rbac_decide::{RoleSet, Session};
use rbac_terms::{Command, Name, NameSet, Separation};
use rbac_text::put_command;
use sorted_keys::SortedSet;
use sorted_keys::duplicate::duplicate_all;
use std::alloc::{AllocError, Global};

// How many roles a set or a session begins with that is made in parts.
const FIRST: usize = 2;

// ---- Room

// Whether there is no room for the command's text.
fn is_long(alloc: Global, command: &Command, room: usize) -> Result<bool, AllocError>
    ensures { IfOk result (λ long. long ≡ is_long room command.now) }
{
    let mut text = Vec::new(alloc);
    put_command(&mut text, command)?;
    Ok(room < text.len())
}

fn set_is_long(
    alloc: Global,
    kind: Separation,
    entry: &(Name, RoleSet),
    room: usize,
) -> Result<bool, AllocError>
    ensures { IfOk result (λ long. long ≡ is_long room (set_command kind entry.now)) }
{
    let command = tell_set(kind, entry)?;
    let long = is_long(alloc, &command, room);
    drop(command);
    long
}

fn session_is_long(alloc: Global, entry: &(Name, Session), room: usize) -> Result<bool, AllocError>
    ensures { IfOk result (λ long. long ≡ is_long room (session_command entry.now)) }
{
    let command = tell_session(entry)?;
    let long = is_long(alloc, &command, room);
    drop(command);
    long
}

// ---- The first roles, and the others

// All where there are fewer.
fn first_names(names: &[Name]) -> &[Name]
    ensures { result.now ≡ take 2 names.now }
{
    if names.len() < FIRST {
        names
    } else {
        &names[..FIRST]
    }
}

fn other_names(names: &[Name]) -> &[Name]
    ensures { result.now ≡ drop 2 names.now }
{
    if names.len() < FIRST {
        &[]
    } else {
        &names[FIRST..]
    }
}

// A set of names that are one.
fn set_of(names: Vec<Name>) -> NameSet
    requires { IsStrictlySortedBy name_cmp names.items }
    ensures { result ≡ names.items }
{
    let Ok(names) = SortedSet::from_vec(names) else {
        unreachable!()
    };
    NameSet::of(names)
}

fn first_roles(alloc: Global, roles: &NameSet) -> Result<NameSet, AllocError>
    ensures { IfOk result (λ first. first ≡ take 2 roles.now) }
{
    let first = duplicate_all(alloc, first_names(roles.names()))?;
    Ok(set_of(first))
}

// ---- Sets

fn tell_first_of_set(
    alloc: Global,
    kind: Separation,
    entry: &(Name, RoleSet),
) -> Result<Command, AllocError>
    ensures { IfOk result (λ command. command ≡ CreateSet kind entry.now.0 (take 2 entry.now.1.roles) 2) }
{
    Ok(Command::CreateSet {
        kind,
        set: entry.0.copy()?,
        roles: first_roles(alloc, &entry.1.roles)?,
        n: 2,
    })
}

fn tell_member(kind: Separation, set: &Name, role: &Name) -> Result<Command, AllocError>
    ensures { IfOk result (λ command. command ≡ member_command kind set.now role.now) }
{
    Ok(Command::AddRoleMember {
        kind,
        set: set.copy()?,
        role: role.copy()?,
    })
}

fn tell_members(
    commands: &mut Vec<Command>,
    kind: Separation,
    set: &Name,
    roles: &[Name],
) -> Result<(), AllocError>
    ensures { OnOk result (commands.new.items ≡ commands.old.items ++ map (member_command kind set.now) roles.now) }
{
    tell_all(commands, roles, |role| tell_member(kind, set, role))
}

fn tell_number(kind: Separation, entry: &(Name, RoleSet)) -> Result<Command, AllocError>
    ensures { IfOk result (λ command. command ≡ SetCardinality kind entry.now.0 entry.now.1.cardinality) }
{
    Ok(Command::SetCardinality {
        kind,
        set: entry.0.copy()?,
        n: entry.1.cardinality,
    })
}

fn tell_set_parts(
    alloc: Global,
    commands: &mut Vec<Command>,
    kind: Separation,
    entry: &(Name, RoleSet),
) -> Result<(), AllocError>
    ensures { OnOk result (commands.new.items ≡ commands.old.items ++ set_parts kind entry.now) }
{
    let first = tell_first_of_set(alloc, kind, entry)?;
    commands.push(first)?;
    tell_members(commands, kind, &entry.0, other_names(entry.1.roles.names()))?;
    let number = tell_number(kind, entry)?;
    commands.push(number)?;
    Ok(())
}

fn tell_early_set(
    alloc: Global,
    commands: &mut Vec<Command>,
    kind: Separation,
    entry: &(Name, RoleSet),
    room: usize,
) -> Result<(), AllocError>
    ensures { OnOk result (commands.new.items ≡ commands.old.items ++ early_set room kind entry.now) }
{
    if set_is_long(alloc, kind, entry, room)? {
        return tell_set_parts(alloc, commands, kind, entry);
    }
    Ok(())
}

fn tell_late_set(
    alloc: Global,
    commands: &mut Vec<Command>,
    kind: Separation,
    entry: &(Name, RoleSet),
    room: usize,
) -> Result<(), AllocError>
    ensures { OnOk result (commands.new.items ≡ commands.old.items ++ late_set room kind entry.now) }
{
    if set_is_long(alloc, kind, entry, room)? {
        return Ok(());
    }
    let command = tell_set(kind, entry)?;
    commands.push(command)?;
    Ok(())
}

// Adds the commands of each set that is made in parts.
pub(crate) fn tell_early_sets(
    alloc: Global,
    commands: &mut Vec<Command>,
    kind: Separation,
    sets: &[(Name, RoleSet)],
    room: usize,
) -> Result<(), AllocError>
    ensures { OnOk result (commands.new.items ≡ commands.old.items ++ flat_map (early_set room kind) sets.now) }
{
    for entry in sets {
        tell_early_set(alloc, commands, kind, entry, room)?;
    }
    Ok(())
}

// Adds the command of each other set.
pub(crate) fn tell_late_sets(
    alloc: Global,
    commands: &mut Vec<Command>,
    kind: Separation,
    sets: &[(Name, RoleSet)],
    room: usize,
) -> Result<(), AllocError>
    ensures { OnOk result (commands.new.items ≡ commands.old.items ++ flat_map (late_set room kind) sets.now) }
{
    for entry in sets {
        tell_late_set(alloc, commands, kind, entry, room)?;
    }
    Ok(())
}

// ---- Sessions

fn tell_first_of_session(alloc: Global, entry: &(Name, Session)) -> Result<Command, AllocError>
    ensures { IfOk result (λ command. command ≡ CreateSession entry.now.1.owner entry.now.0 (take 2 entry.now.1.active)) }
{
    Ok(Command::CreateSession {
        user: entry.1.owner.copy()?,
        session: entry.0.copy()?,
        roles: first_roles(alloc, &entry.1.active)?,
    })
}

fn tell_activation(owner: &Name, session: &Name, role: &Name) -> Result<Command, AllocError>
    ensures { IfOk result (λ command. command ≡ activation_command owner.now session.now role.now) }
{
    Ok(Command::AddActiveRole {
        user: owner.copy()?,
        session: session.copy()?,
        role: role.copy()?,
    })
}

fn tell_activations(
    commands: &mut Vec<Command>,
    owner: &Name,
    session: &Name,
    roles: &[Name],
) -> Result<(), AllocError>
    ensures { OnOk result (commands.new.items ≡ commands.old.items ++ map (activation_command owner.now session.now) roles.now) }
{
    tell_all(commands, roles, |role| {
        tell_activation(owner, session, role)
    })
}

fn tell_session_parts(
    alloc: Global,
    commands: &mut Vec<Command>,
    entry: &(Name, Session),
) -> Result<(), AllocError>
    ensures { OnOk result (commands.new.items ≡ commands.old.items ++ session_parts entry.now) }
{
    let first = tell_first_of_session(alloc, entry)?;
    commands.push(first)?;
    let others = other_names(entry.1.active.names());
    tell_activations(commands, &entry.1.owner, &entry.0, others)?;
    Ok(())
}

fn tell_one_session(
    alloc: Global,
    commands: &mut Vec<Command>,
    entry: &(Name, Session),
    room: usize,
) -> Result<(), AllocError>
    ensures { OnOk result (commands.new.items ≡ commands.old.items ++ session_commands room entry.now) }
{
    if session_is_long(alloc, entry, room)? {
        return tell_session_parts(alloc, commands, entry);
    }
    let command = tell_session(entry)?;
    commands.push(command)?;
    Ok(())
}

// Adds the commands of each session.
pub(crate) fn tell_each_session(
    alloc: Global,
    commands: &mut Vec<Command>,
    sessions: &[(Name, Session)],
    room: usize,
) -> Result<(), AllocError>
    ensures { OnOk result (commands.new.items ≡ commands.old.items ++ flat_map (session_commands room) sessions.now) }
{
    for entry in sessions {
        tell_one_session(alloc, commands, entry, room)?;
    }
    Ok(())
}
