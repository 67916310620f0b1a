//! Commands by themselves.
ghost use Rattle.std.specs.Prelude.{◌≡◌, ◌≢◌, IfOk, IfErr, Ok, Err};
ghost use Rattle.rbac_text.specs.ReadCommand.{command};

use crate::reading::commands::command_of;
use crate::reading::value_of;
use crate::refusal::LineRefusal;
use lent_json::{Scratch, as_object};
use rbac_terms::Command;
use std::alloc::Global;

/// Reads the text of a command's JSON object, of at most 65,536 bytes. It is refused for the first of the reasons that `value_of` and
/// then `command_of` name.
///
/// # Errors
/// `TooLong`, `NotJson` and `NotObject` of the text as a whole, then `MissingField`, `WrongKind`, `UnknownWord`, `BadName` and
/// `ExtraField` of its object, and `NoMemory` where memory ends at any of the checks.
#[tactic(auto, unfolding(crate::specs::ReadCommand::command))]
pub fn read_command(
    alloc: Global,
    text: &[u8],
    scratch: &mut Scratch,
) -> Result<Command, LineRefusal>
    ensures command_read { IfOk result (λ asked. command text.now ≡ Ok asked) }
    ensures first_refusal { IfErr result (λ refusal. refusal ≢ LineRefusal.NoMemory → command text.now ≡ Err refusal) }
{
    let value = value_of(alloc, text, scratch)?;
    let object = as_object(&value).ok_or(LineRefusal::NotObject)?;
    command_of(alloc, object)
}
