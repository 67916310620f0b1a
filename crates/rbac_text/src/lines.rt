//! Commands told as client lines, each with its line feed.
ghost use Rattle.std.specs.Prelude.{◌≡◌, ◌≤◌, ◌++◌, length, map, IfOk, OnOk, Ok};
ghost use Rattle.std.specs.List.{AllByRecursion as Each};
ghost use Rattle.line_engine.specs.Lines.{lines};
ghost use Rattle.rbac_text.specs.Asked.{asked};
ghost use Rattle.rbac_text.specs.Client.{client};
ghost use Rattle.rbac_text.specs.Command.{command_fields};
ghost use Rattle.rbac_text.specs.CommandText.{command_text, AreFields};
ghost use Rattle.rbac_text.specs.Lines.{asking, asking_line, lines_text, room};

use crate::pieces::put_piece;
use crate::writing::put_command;
use line_engine::LONGEST_LINE;
use rbac_terms::Command;
use std::alloc::{AllocError, Global};

/// The most bytes that the text of a command has in a client line: the others are those round it.
pub const COMMAND_ROOM: usize = LONGEST_LINE - 19;

// The line by which member 1 is asked a command, without its line feed.
fn put_asking(text: &mut Vec<u8>, command: &Command) -> Result<(), AllocError>
    ensures text { OnOk result (text.new.items ≡ text.old.items ++ asking command.now) }
    ensures fit { OnOk result (AreFields (command_fields command.now)) }
{
    put_piece(text, "{\"at\":1,\"command\":")?;
    put_command(text, command)?;
    put_piece(text, "}")
}

// The same with its line feed.
fn put_line(text: &mut Vec<u8>, command: &Command) -> Result<(), AllocError>
    ensures text { OnOk result (text.new.items ≡ text.old.items ++ asking_line command.now) }
    ensures fit { OnOk result (AreFields (command_fields command.now)) }
{
    put_asking(text, command)?;
    text.extend_from_slice(b"\n")
}

// A line for each of these commands, in order. A reader takes the fields of each.
fn put_lines(text: &mut Vec<u8>, commands: &[Command]) -> Result<(), AllocError>
    ensures text { OnOk result (text.new.items ≡ text.old.items ++ lines_text commands.now) }
    ensures fit { OnOk result (Each (λ command. AreFields (command_fields command)) commands.now) }
{
    for command in commands {
        put_line(text, command)?;
    }
    Ok(())
}

/// The lines by which member 1 is asked these commands, in order. Where the text of each has room in a line, they are read as just
/// these commands: as client lines, and as what is asked of one policy.
///
/// # Errors
/// `AllocError` where there is no memory for them.
pub fn client_lines(alloc: Global, commands: &[Command]) -> Result<Vec<u8>, AllocError>
    ensures text { IfOk result (λ text. text.items ≡ lines_text commands.now) }
    ensures asks { Each (λ command. AreFields (command_fields command) → length (command_text command) ≤ room) commands.now
        → IfOk result (λ text. map client (lines text.items) ≡ map (λ command. Ok (1, command)) commands.now) }
    ensures reads { Each (λ command. AreFields (command_fields command) → length (command_text command) ≤ room) commands.now
        → IfOk result (λ text. map asked (lines text.items) ≡ map Ok commands.now) }
{
    let mut text = Vec::new(alloc);
    put_lines(&mut text, commands)?;
    Ok(text)
}
