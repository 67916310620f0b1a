//! Texts that are read, their keys in any order and with blanks.

use crate::{Scratch, message_of, read_commands, read_message};
use lent_json::as_object;
use rbac_text::reading::fields::object_in;
use rbac_text::reading::value_of;
use rbac_words::{Command, Commands, Message, Stamp};
use std::process::Abort;

/// Whether these are the commands that add the user ann and the role payer.
fn add_ann_and_payer(commands: &[Command]) -> bool {
    match commands {
        [Command::AddUser { user }, Command::AddRole { role }] => {
            user.as_bytes() == b"ann".as_slice() && role.as_bytes() == b"payer".as_slice()
        }
        _ => false,
    }
}

/// Whether it is the batch of these two, of member 3's clock 6, caller 4 and serial 5.
pub(crate) fn is_batch_of_two(message: &Message) -> bool {
    match message {
        Message::Batch {
            stamp,
            caller: 4,
            serial: 5,
            commands,
        } => *stamp == Stamp::at(6, 3) && add_ann_and_payer(commands.as_slice()),
        _ => false,
    }
}

/// Whether it is the acknowledgement of this stamp.
pub(crate) fn acknowledges(message: &Message, wanted: Stamp) -> bool {
    match message {
        Message::Ack { stamp } => *stamp == wanted,
        _ => false,
    }
}

fn expect_commands(rt: &impl Abort, commands: Commands) {
    assert!(rt; add_ann_and_payer(commands.as_slice()));
    drop(commands);
}

#[test]
fn a_batch(rt: HostRuntime) {
    let text = br#" {"stamp": [6, 3], "serial": 5, "commands":
        [{"user": "ann", "name": "AddUser"}, {"name": "AddRole", "role": "payer"}], "caller": 4} "#;
    let Ok(message) = read_message(rt.alloc(), text, &mut Scratch::new(rt.alloc())) else {
        panic!(rt);
    };
    assert!(rt; is_batch_of_two(&message));
    drop(message);
}

#[test]
fn an_acknowledgement(rt: HostRuntime) {
    let Ok(message) = read_message(
        rt.alloc(),
        br#"{"stamp":[7,1]}"#,
        &mut Scratch::new(rt.alloc()),
    ) else {
        panic!(rt);
    };
    assert!(rt; acknowledges(&message, Stamp::at(7, 1)));
    drop(message);
}

#[test]
fn commands_by_themselves(rt: HostRuntime) {
    let text = br#"[{"name":"AddUser","user":"ann"},{"name":"AddRole","role":"payer"}]"#;
    let Ok(commands) = read_commands(rt.alloc(), text, &mut Scratch::new(rt.alloc())) else {
        panic!(rt);
    };
    expect_commands(&rt, commands);
    let Ok(none) = read_commands(rt.alloc(), b"[]", &mut Scratch::new(rt.alloc())) else {
        panic!(rt);
    };
    assert!(rt; none.as_slice().is_empty());
    drop(none);
}

#[test]
fn a_message_inside_an_object(rt: HostRuntime) {
    let line = br#"{"from":1,"message":{"stamp":[7,1]}}"#;
    let mut scratch = Scratch::new(rt.alloc());
    let Ok(value) = value_of(rt.alloc(), line, &mut scratch) else {
        panic!(rt);
    };
    let outer = as_object(&value).expect(&rt, "an object");
    let object = object_in(outer, "message").expect(&rt, "an object at the key");
    let Ok(message) = message_of(rt.alloc(), object) else {
        panic!(rt);
    };
    assert!(rt; acknowledges(&message, Stamp::at(7, 1)));
    drop(message);
    drop(value);
}
