//! Lines as what they ask of a member.
ghost use Rattle.std.specs.Prelude.{◌≡◌, ◌≢◌, IfOk, IfErr, Ok, Err};
ghost use Rattle.lent_json.specs.Data.{members};
ghost use Rattle.rbac_text.specs.Fields.{Reads};
ghost use Rattle.rbac_member_lines.specs.Asked.{all_submitted, alone, asked, asked_of, brought, numbered, one_submitted, own};

use crate::asked::{Asked, Brought, Question, Submission};
use lent_json::as_object;
use rbac_message_text::message_of;
use rbac_text::reading::fields::{
    Object, Reading, object_in, objects_in, only_keys, text_in, whole_in,
};
use rbac_text::reading::{command_of, commands_of, value_of};
use rbac_text::{LineRefusal, Scratch};
use rbac_words::{Commands, SharedCommand};
use std::alloc::Global;

/// Reads a line, without its line feed. It is refused for the first of these: it is too long, it is no JSON, it is no object; then for what
/// the outer object lacks or has too much; and only then for what its commands or its message do.
///
/// # Errors
/// `TooLong`, `NotJson` and `NotObject` of the line as a whole, then `MissingField`, `WrongKind`, `UnknownWord` and `ExtraField` of its
/// object, then these and `BadName` of its commands or its message, and `NoMemory` where memory ends at any of the checks.
#[tactic(auto, unfolding(crate::specs::Asked::asked))]
pub fn read_asked(alloc: Global, line: &[u8], scratch: &mut Scratch) -> Result<Asked, LineRefusal>
    ensures read { IfOk result (λ answer. asked line.now ≡ Ok answer) }
    ensures first_refusal { IfErr result (λ refusal. refusal ≢ LineRefusal.NoMemory → asked line.now ≡ Err refusal) }
{
    let value = value_of(alloc, line, scratch)?;
    let object = as_object(&value).ok_or(LineRefusal::NotObject)?;
    asked_of(alloc, object)
}

fn asked_of(alloc: Global, object: &Object<'_>) -> Reading<Asked>
    ensures { Reads (asked_of (members object.now)) result }
{
    match text_in(object, "do")? {
        "submit" => one_submitted(alloc, object).map(|submission| Asked::Submit(submission)),
        "batch" => all_submitted(alloc, object).map(|submission| Asked::Submit(submission)),
        "receive" => brought(alloc, object).map(|brought| Asked::Receive(brought)),
        "own" => own(alloc, object),
        "deliver" => alone(object).map(|()| Asked::Deliver),
        "next" => all_submitted(alloc, object).map(|submission| Asked::Tell(Question::Next(
            submission,
        ))),
        "answer" => brought(alloc, object).map(|brought| Asked::Tell(Question::Answer(brought))),
        "message" => numbered(object).map(|number| Asked::Tell(Question::Message { number })),
        "record" => numbered(object).map(|number| Asked::Tell(Question::Record { number })),
        "waits" => alone(object).map(|()| Asked::Tell(Question::Waits)),
        "dump" => alone(object).map(|()| Asked::Tell(Question::Dump)),
        _ => Err(LineRefusal::UnknownWord),
    }
}

/// The outer object is checked whole before its command is looked into.
fn one_submitted(alloc: Global, object: &Object<'_>) -> Reading<Submission>
    ensures { Reads (one_submitted (members object.now)) result }
{
    let caller = whole_in(object, "caller")?;
    let serial = whole_in(object, "serial")?;
    let fields = object_in(object, "command")?;
    only_keys(object, &["do", "caller", "serial", "command"])?;
    let command = SharedCommand::new(alloc, command_of(alloc, fields)?)?;
    Ok(Submission {
        caller,
        serial,
        commands: Commands::one(command),
    })
}

/// As for one command, the outer object is checked whole before its commands are looked into.
fn all_submitted(alloc: Global, object: &Object<'_>) -> Reading<Submission>
    ensures { Reads (all_submitted (members object.now)) result }
{
    let caller = whole_in(object, "caller")?;
    let serial = whole_in(object, "serial")?;
    let array = objects_in(object, "commands")?;
    only_keys(object, &["do", "caller", "serial", "commands"])?;
    let commands = Commands::of(commands_of(alloc, array)?)?;
    Ok(Submission {
        caller,
        serial,
        commands,
    })
}

/// The outer object is checked whole before its message is looked into.
fn brought(alloc: Global, object: &Object<'_>) -> Reading<Brought>
    ensures { Reads (brought (members object.now)) result }
{
    let from = whole_in(object, "from")?;
    let number = whole_in(object, "number")?;
    let fields = object_in(object, "message")?;
    only_keys(object, &["do", "from", "number", "message"])?;
    let message = message_of(alloc, fields)?;
    Ok(Brought {
        from,
        number,
        message,
    })
}

fn numbered(object: &Object<'_>) -> Reading<u32>
    ensures { result ≡ numbered (members object.now) }
{
    let number = whole_in(object, "number")?;
    only_keys(object, &["do", "number"])?;
    Ok(number)
}

fn own(alloc: Global, object: &Object<'_>) -> Reading<Asked>
    ensures { Reads (own (members object.now)) result }
{
    let number = whole_in(object, "number")?;
    let fields = object_in(object, "message")?;
    only_keys(object, &["do", "number", "message"])?;
    let message = message_of(alloc, fields)?;
    Ok(Asked::Own { number, message })
}

/// A word that has nothing beside it.
fn alone(object: &Object<'_>) -> Reading<()>
    ensures { result ≡ alone (members object.now) }
{
    only_keys(object, &["do"])
}
