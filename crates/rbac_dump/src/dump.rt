//! The commands that make a policy again.
ghost use Rattle.std.specs.Prelude.{◌≡◌, ◌≤◌, [], ◌++◌, map, length, IfOk, OnOk};
ghost use Rattle.std.specs.List.{flat_map, AllByRecursion as Each};
ghost use Rattle.rbac_text.specs.Command.{command_fields};
ghost use Rattle.rbac_text.specs.CommandText.{AreFields, command_text};
ghost use Rattle.rbac_terms.specs.Replay.{state_after, replies};
ghost use Rattle.rbac_terms.specs.Sound.{BringsASet};
ghost use Rattle.rbac_terms.specs.State.{founding_state};
ghost use Rattle.rbac_terms.specs.declared.answer.Answer.TheVariants.{Done};
ghost use Rattle.rbac_dump.specs.Dump.{dump_of, grant_command, least_room, session_commands};

use crate::parts::{tell_each_session, tell_early_sets, tell_late_sets};
use crate::telling::{
    tell_all, tell_assignment, tell_declaration, tell_grant, tell_role, tell_user,
};
use rbac_decide::Policy;
use rbac_terms::{Command, Separation};
use std::alloc::{AllocError, Global};

// Adds the command of each grant.
fn tell_grants(
    alloc: Global,
    commands: &mut Vec<Command>,
    policy: &Policy,
) -> Result<(), AllocError>
    ensures { OnOk result (commands.new.items ≡ commands.old.items ++ map grant_command policy.now.granted) }
{
    let grants = policy.grants(alloc)?;
    tell_all(commands, &grants, tell_grant)
}

// Adds the commands of each session.
fn tell_sessions(
    alloc: Global,
    commands: &mut Vec<Command>,
    policy: &Policy,
    room: usize,
) -> Result<(), AllocError>
    ensures { OnOk result (commands.new.items ≡ commands.old.items ++ flat_map (session_commands room) policy.now.sessions) }
{
    let sessions = policy.sessions(alloc)?;
    tell_each_session(alloc, commands, &sessions, room)
}

// Fills an empty list with the commands.
fn fill(
    alloc: Global,
    commands: &mut Vec<Command>,
    policy: &Policy,
    room: usize,
) -> Result<(), AllocError>
    ensures { commands.old.items ≡ [] → OnOk result (commands.new.items ≡ dump_of room policy.now) }
{
    let static_sets = policy.separation_sets(Separation::Static);
    let dynamic_sets = policy.separation_sets(Separation::Dynamic);
    tell_all(commands, policy.users(), tell_user)?;
    tell_all(commands, policy.roles(), tell_role)?;
    tell_early_sets(alloc, commands, Separation::Static, static_sets, room)?;
    tell_early_sets(alloc, commands, Separation::Dynamic, dynamic_sets, room)?;
    tell_all(commands, policy.assignments(), tell_assignment)?;
    tell_all(commands, policy.declarations(), tell_declaration)?;
    tell_grants(alloc, commands, policy)?;
    tell_late_sets(alloc, commands, Separation::Static, static_sets, room)?;
    tell_sessions(alloc, commands, policy, room)?;
    tell_late_sets(alloc, commands, Separation::Dynamic, dynamic_sets, room)?;
    Ok(())
}

/// The commands that make this policy from its founding: one for each thing that it holds, but for a set or a session whose
/// command has a text (`rbac_text`) of more bytes than there is `room` for. Such a set is created right behind the roles,
/// with two of them and the number 2, and gets its other roles one by one and then its number; such a session is created with two
/// roles, and the others are activated one by one. Given in this order to a policy just founded with its vocabulary, each is
/// answered Done, and they leave this very state. Where the room is 512 bytes or more, there is room for each of them.
///
/// # Errors
/// `AllocError` where there is no memory for them.
pub fn commands_of(alloc: Global, policy: &Policy, room: usize) -> Result<Vec<Command>, AllocError>
    ensures listed { IfOk result (λ commands. commands.items ≡ dump_of room policy.now) }
    ensures made { IfOk result (λ commands. state_after (founding_state policy.now.vocabulary) commands.items ≡ policy.now) }
    ensures done { IfOk result (λ commands. Each (λ answer. answer ≡ Done) (replies (founding_state policy.now.vocabulary) commands.items)) }
    ensures sets { IfOk result (λ commands. Each BringsASet commands.items) }
    ensures fits { IfOk result (λ commands. least_room ≤ room → Each (λ command. AreFields (command_fields command) → length (command_text command) ≤ room) commands.items) }
{
    policy.invariants();
    let mut commands = Vec::new(alloc);
    fill(alloc, &mut commands, policy, room)?;
    Ok(commands)
}
