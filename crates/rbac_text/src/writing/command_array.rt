//! Commands as the text of an array.
ghost use Rattle.std.specs.Prelude.{◌≡◌, ◌++◌, OnOk};
ghost use Rattle.std.specs.List.{AllByRecursion as Each};
ghost use Rattle.rbac_text.specs.Command.{command_fields};
ghost use Rattle.rbac_text.specs.CommandText.{command_text, commands_text, AreFields};

use crate::arrays::{Element, put_array};
use crate::writing::command::put_command;
use rbac_terms::Command;
use std::alloc::AllocError;

impl Element for Command {
    ghost shown = { command_text };

    ghost Fits = { λ command. AreFields (command_fields command) };

    fn put(&self, text: &mut Vec<u8>) -> Result<(), AllocError> {
        put_command(text, self)
    }
}

/// The array of these commands, in order, behind what stands before it. A reader takes the fields of each command.
///
/// # Errors
/// `AllocError` where there is no memory for it. The buffer may have a part of the text then.
pub fn put_commands(
    text: &mut Vec<u8>,
    before: &str,
    commands: &[Command],
) -> Result<(), AllocError>
    ensures text { OnOk result (text.new.items ≡ text.old.items ++ before.now ++ commands_text commands.now) }
    ensures fit { OnOk result (Each (λ command. AreFields (command_fields command)) commands.now) }
{
    put_array(text, before, commands)
}
