//! Client lines as commands for a member.
ghost use Rattle.std.specs.Prelude.{◌≡◌, ◌≢◌, IfOk, IfErr, Ok, Err};
ghost use Rattle.lent_json.specs.Data.{members};
ghost use Rattle.rbac_text.specs.Fields.{Reads};
ghost use Rattle.rbac_text.specs.Client.{client, client_of};

use crate::reading::commands::command_of;
use crate::reading::fields::{Object, object_in, only_keys, whole_in};
use crate::reading::value_of;
use crate::refusal::LineRefusal;
use lent_json::{Scratch, as_object};
use rbac_terms::Command;
use std::alloc::Global;

/// Reads a client line, without its line feed: the number of a member, and the command that it is asked for. It is refused for the
/// first of the reasons that `value_of` names, then for what its object lacks or has too much, and only then for what its command does.
///
/// # Errors
/// `TooLong`, `NotJson` and `NotObject` of the line as a whole, then `MissingField`, `WrongKind` and `ExtraField` of its object, then
/// these, `UnknownWord` and `BadName` of its command, and `NoMemory` where memory ends at any of the checks.
#[tactic(auto, unfolding(crate::specs::Client::client))]
pub fn read_client(
    alloc: Global,
    line: &[u8],
    scratch: &mut Scratch,
) -> Result<(u32, Command), LineRefusal>
    ensures command_read { IfOk result (λ asked. client line.now ≡ Ok asked) }
    ensures first_refusal { IfErr result (λ refusal. refusal ≢ LineRefusal.NoMemory → client line.now ≡ Err refusal) }
{
    let value = value_of(alloc, line, scratch)?;
    let object = as_object(&value).ok_or(LineRefusal::NotObject)?;
    client_of(alloc, object)
}

/// The outer object is checked whole before its command is looked into.
pub(super) fn client_of(alloc: Global, object: &Object<'_>) -> Result<(u32, Command), LineRefusal>
    ensures { Reads (client_of (members object.now)) result }
{
    let at = whole_in(object, "at")?;
    let fields = object_in(object, "command")?;
    only_keys(object, &["at", "command"])?;
    let command = command_of(alloc, fields)?;
    Ok((at, command))
}
