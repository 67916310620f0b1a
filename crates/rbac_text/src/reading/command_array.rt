//! The commands of an array.
ghost use Rattle.std.specs.Prelude.{◌≡◌, ◌++◌, ◌∷◌, [], IfErr, OnOk};
ghost use Rattle.lent_json.specs.Data.{items, meaning};
ghost use Rattle.rbac_text.specs.Steps.{seen};
ghost use Rattle.rbac_text.specs.Fields.{Reads};
ghost use Rattle.rbac_text.specs.CommandArray.{command_in, commands_of};

use crate::reading::commands::command_of;
use crate::reading::fields::Reading;
use crate::refusal::LineRefusal;
use lent_json::{Value, as_object};
use rbac_terms::Command;
use std::alloc::Global;

/// The command that an element of an array stands for.
fn command_in(alloc: Global, value: &Value<'_>) -> Reading<Command>
    ensures { Reads (command_in (meaning value.now)) result }
{
    let fields = as_object(value).ok_or(LineRefusal::WrongKind)?;
    command_of(alloc, fields)
}

/// One command more.
fn add(commands: &mut Vec<Command>, command: Command) -> Reading<()>
    ensures added { OnOk result (commands.new.items ≡ commands.old.items ++ command ∷ []) }
    ensures refused { IfErr result (λ refusal. refusal ≡ LineRefusal.NoMemory) }
{
    match commands.push(command) {
        Ok(()) => Ok(()),
        Err(command) => {
            drop(command);
            Err(LineRefusal::NoMemory)
        }
    }
}

/// The commands that the elements of an array stand for: the first refusal is that of the first element that is refused.
///
/// # Errors
/// `WrongKind` of an element that is no object, what `command_of` refuses an object for, and `NoMemory` where memory ends.
pub fn commands_of(alloc: Global, array: &[Value<'_>]) -> Reading<Vec<Command>>
    ensures { Reads (commands_of (items array.now)) (seen (λ commands. commands.items) result) }
{
    let mut commands = Vec::new(alloc);
    for value in array {
        let command = command_in(alloc, value)?;
        add(&mut commands, command)?;
    }
    Ok(commands)
}
