//! Texts as messages, and as commands that are submitted together.
ghost use Rattle.std.specs.Prelude.{◌≡◌, ◌≢◌, is_some, codes, IfOk, IfErr, Ok, Err};
ghost use Rattle.serde_json.specs.Find.{get_member};
ghost use Rattle.lent_json.specs.Data.{members};
ghost use Rattle.rbac_text.specs.Fields.{Reads};
ghost use Rattle.rbac_text.specs.ReadCommand.{command};
ghost use Rattle.rbac_message_text.specs.Message.{acknowledgement_of, batch_of, commands_read, message_of, message_read};

mod stamp;

use lent_json::{Scratch, as_array, as_object};
use rbac_text::reading::fields::{
    Object, Reading, objects_in, objects_of, only_keys, value_in, whole_in,
};
use rbac_text::reading::{commands_of, value_within};
use rbac_text::{LineRefusal, read_command};
use rbac_words::{Commands, Message, SharedCommand};
use stamp::stamp_in;
use std::alloc::Global;

/// The most bytes of a message's text: 1 MiB.
pub const LONGEST_MESSAGE: usize = 1_048_576;

/// Reads the text of a message. It is refused for the first of these: it is too long, it is no JSON, it is no object; and then for what
/// `message_of` refuses that for.
///
/// # Errors
/// `TooLong`, where it has more than 1,048,576 bytes, `NotJson` and `NotObject` of the text as a whole, then `MissingField`, `WrongKind`
/// and `ExtraField` of its object, then these, `UnknownWord` and `BadName` of its commands, and `NoMemory` where memory ends at any of
/// the checks.
#[tactic(auto, unfolding(crate::specs::Message::message_read))]
pub fn read_message(
    alloc: Global,
    text: &[u8],
    scratch: &mut Scratch,
) -> Result<Message, LineRefusal>
    ensures read { IfOk result (λ message. message_read text.now ≡ Ok message) }
    ensures first_refusal { IfErr result (λ refusal. refusal ≢ LineRefusal.NoMemory → message_read text.now ≡ Err refusal) }
{
    let value = value_within(alloc, text, LONGEST_MESSAGE, scratch)?;
    let object = as_object(&value).ok_or(LineRefusal::NotObject)?;
    message_of(alloc, object)
}

/// Reads the text of a command that is submitted alone.
///
/// # Errors
/// As `rbac_text::read_command`, and `NoMemory` where there is no memory to share it.
pub fn read_shared(
    alloc: Global,
    text: &[u8],
    scratch: &mut Scratch,
) -> Result<SharedCommand, LineRefusal>
    ensures read { IfOk result (λ shared. command text.now ≡ Ok shared) }
    ensures first_refusal { IfErr result (λ refusal. refusal ≢ LineRefusal.NoMemory → command text.now ≡ Err refusal) }
{
    Ok(SharedCommand::new(alloc, read_command(alloc, text, scratch)?)?)
}

/// Reads the text of commands that are submitted together: an array of their objects, of which there may be none.
///
/// # Errors
/// `TooLong`, where it has more than 1,048,576 bytes, and `NotJson` of the text as a whole, `WrongKind` where it is no array of objects,
/// then what the first command that is none is refused for, and `NoMemory` where memory ends at any of the checks.
#[tactic(auto, unfolding(crate::specs::Message::commands_read))]
pub fn read_commands(
    alloc: Global,
    text: &[u8],
    scratch: &mut Scratch,
) -> Result<Commands, LineRefusal>
    ensures read { IfOk result (λ commands. commands_read text.now ≡ Ok commands) }
    ensures first_refusal { IfErr result (λ refusal. refusal ≢ LineRefusal.NoMemory → commands_read text.now ≡ Err refusal) }
{
    let value = value_within(alloc, text, LONGEST_MESSAGE, scratch)?;
    let array = as_array(&value).ok_or(LineRefusal::WrongKind)?;
    let objects = objects_of(array)?;
    let commands = commands_of(alloc, objects)?;
    Ok(Commands::of(commands)?)
}

fn has_commands(object: &Object<'_>) -> bool
    ensures { result ≡ is_some (get_member (codes "commands") (members object.now)) }
{
    value_in(object, "commands").is_ok()
}

/// Reads the object of a message: a batch where it has commands, and else an acknowledgement. It is refused for what the outer object
/// lacks or has too much, and only then for what the first of its commands that does.
///
/// # Errors
/// `MissingField`, `WrongKind` and `ExtraField` of the object, then these, `UnknownWord` and `BadName` of its commands, and `NoMemory`
/// where memory ends.
pub fn message_of(alloc: Global, object: &Object<'_>) -> Reading<Message>
    ensures { Reads (message_of (members object.now)) result }
{
    if has_commands(object) {
        batch_of(alloc, object)
    } else {
        acknowledgement_of(object)
    }
}

/// The outer object is checked whole before its commands are looked into.
fn batch_of(alloc: Global, object: &Object<'_>) -> Reading<Message>
    ensures { Reads (batch_of (members object.now)) result }
{
    let caller = whole_in(object, "caller")?;
    let array = objects_in(object, "commands")?;
    let serial = whole_in(object, "serial")?;
    let stamp = stamp_in(object, "stamp")?;
    only_keys(object, &["caller", "commands", "serial", "stamp"])?;
    let commands = Commands::of(commands_of(alloc, array)?)?;
    Ok(Message::Batch {
        stamp,
        caller,
        serial,
        commands,
    })
}

fn acknowledgement_of(object: &Object<'_>) -> Reading<Message>
    ensures { result ≡ acknowledgement_of (members object.now) }
{
    let stamp = stamp_in(object, "stamp")?;
    only_keys(object, &["stamp"])?;
    Ok(Message::Ack { stamp })
}
