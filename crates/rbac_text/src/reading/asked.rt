//! Client lines and commands by themselves, where there is one policy.
ghost use Rattle.std.specs.Prelude.{◌≡◌, ◌≢◌, IfOk, IfErr, Ok, Err};
ghost use Rattle.lent_json.specs.Data.{members};
ghost use Rattle.rbac_text.specs.Fields.{Reads};
ghost use Rattle.rbac_text.specs.Asked.{asked, asked_of, is_client_line};

use crate::reading::client::client_of;
use crate::reading::commands::command_of;
use crate::reading::fields::{Object, Reading};
use crate::reading::value_of;
use crate::refusal::LineRefusal;
use lent_json::{Scratch, as_object, get};
use rbac_terms::Command;
use std::alloc::Global;

/// Reads the command that a text asks for, of at most 65,536 bytes: where its object has the key `command` it is a client line, of which
/// the member is read and not used, and otherwise a command by itself. It is refused as `read_client` or as `read_command` refuses it.
///
/// # Errors
/// `TooLong`, `NotJson` and `NotObject` of the text as a whole, then what a client line or a command is refused for, and `NoMemory`
/// where memory ends at any of the checks.
#[tactic(auto, unfolding(crate::specs::Asked::asked))]
pub fn read_asked(alloc: Global, text: &[u8], scratch: &mut Scratch) -> Result<Command, LineRefusal>
    ensures command_read { IfOk result (λ command. asked text.now ≡ Ok command) }
    ensures first_refusal { IfErr result (λ refusal. refusal ≢ LineRefusal.NoMemory → asked text.now ≡ Err refusal) }
{
    let value = value_of(alloc, text, scratch)?;
    let object = as_object(&value).ok_or(LineRefusal::NotObject)?;
    asked_of(alloc, object)
}

/// The command of a client line's object, or the command that an object is.
fn asked_of(alloc: Global, object: &Object<'_>) -> Reading<Command>
    ensures { Reads (asked_of (members object.now)) result }
{
    if is_client_line(object) {
        let (_at, command) = client_of(alloc, object)?;
        return Ok(command);
    }
    command_of(alloc, object)
}

/// Whether an object has the key `command`.
fn is_client_line(object: &Object<'_>) -> bool
    ensures { result ≡ is_client_line (members object.now) }
{
    get(object, "command").is_some()
}
