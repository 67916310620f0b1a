//! Lines as events.
ghost use Rattle.std.specs.Prelude.{◌≡◌, ◌≢◌, IfOk, IfErr, Ok, Err};
ghost use Rattle.lent_json.specs.Data.{members};
ghost use Rattle.rbac_text.specs.Fields.{Reads};
ghost use Rattle.rbac_lines.specs.Event.{event, event_of, submit, batch, receive, deliver};

mod client;

pub use client::kept_line_asks_the_same;
use lent_json::as_object;
use rbac_text::reading::fields::{Object, object_in, objects_in, only_keys, text_in, whole_in};
use rbac_text::reading::{command_of, commands_of, value_of};
use rbac_text::{LineRefusal, Scratch};
use rbac_words::{Commands, Event, SharedCommand};
use std::alloc::Global;

/// Reads a line, without its line feed. It is refused for the first of these: it is too long, it is no JSON, it is no
/// object; then for what the outer object lacks or has too much; and only then for what its command does, or the first of its
/// commands that does.
///
/// # Errors
/// `TooLong`, `NotJson` and `NotObject` of the line as a whole, then `MissingField`, `WrongKind`, `UnknownWord` and `ExtraField` of
/// its object, then these and `BadName` of its command, and `NoMemory` where memory ends at any of the checks.
#[tactic(auto, unfolding(crate::specs::Event::event))]
pub fn read_line(alloc: Global, line: &[u8], scratch: &mut Scratch) -> Result<Event, LineRefusal>
    ensures event_read { IfOk result (λ answer. event line.now ≡ Ok answer) }
    ensures first_refusal { IfErr result (λ refusal. refusal ≢ LineRefusal.NoMemory → event line.now ≡ Err refusal) }
{
    let value = value_of(alloc, line, scratch)?;
    let object = as_object(&value).ok_or(LineRefusal::NotObject)?;
    event_of(alloc, object)
}

fn event_of(alloc: Global, object: &Object<'_>) -> Result<Event, LineRefusal>
    ensures { Reads (event_of (members object.now)) result }
{
    let word = text_in(object, "do")?;
    match word {
        "submit" => submit(alloc, object),
        "batch" => batch(alloc, object),
        "receive" => receive(object),
        "deliver" => deliver(object),
        _ => Err(LineRefusal::UnknownWord),
    }
}

/// The outer object is checked whole before its command is looked into.
fn submit(alloc: Global, object: &Object<'_>) -> Result<Event, LineRefusal>
    ensures { Reads (submit (members object.now)) result }
{
    let at = whole_in(object, "at")?;
    let caller = whole_in(object, "caller")?;
    let serial = whole_in(object, "serial")?;
    let fields = object_in(object, "command")?;
    only_keys(object, &["do", "at", "caller", "serial", "command"])?;
    let command = SharedCommand::new(alloc, command_of(alloc, fields)?)?;
    Ok(Event::Submit {
        at,
        caller,
        serial,
        command,
    })
}

/// As of a submit, the outer object is checked whole before its commands are looked into.
fn batch(alloc: Global, object: &Object<'_>) -> Result<Event, LineRefusal>
    ensures { Reads (batch (members object.now)) result }
{
    let at = whole_in(object, "at")?;
    let caller = whole_in(object, "caller")?;
    let serial = whole_in(object, "serial")?;
    let array = objects_in(object, "commands")?;
    only_keys(object, &["do", "at", "caller", "serial", "commands"])?;
    let commands = Commands::of(commands_of(alloc, array)?)?;
    Ok(Event::SubmitBatch {
        at,
        caller,
        serial,
        commands,
    })
}

fn receive(object: &Object<'_>) -> Result<Event, LineRefusal>
    ensures { result ≡ receive (members object.now) }
{
    let at = whole_in(object, "at")?;
    let from = whole_in(object, "from")?;
    let number = whole_in(object, "number")?;
    only_keys(object, &["do", "at", "from", "number"])?;
    Ok(Event::Receive { at, from, number })
}

fn deliver(object: &Object<'_>) -> Result<Event, LineRefusal>
    ensures { result ≡ deliver (members object.now) }
{
    let at = whole_in(object, "at")?;
    only_keys(object, &["do", "at"])?;
    Ok(Event::Deliver { at })
}
