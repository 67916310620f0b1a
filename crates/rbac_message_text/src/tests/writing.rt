//! Texts that are written, and that what is read of them is what was written.

use super::reading::{acknowledges, is_batch_of_two};
use crate::{
    Scratch, put_acknowledgement, put_batch, put_message, put_record, put_stamp, read_message,
};
use rbac_words::{Answer, Command, Commands, Message, Name, Record, SharedCommand, Stamp};
use std::alloc::Global;
use std::process::Abort;

const BATCH: &[u8] =
    br#"{"caller":4,"commands":[{"name":"AddUser","user":"ann"},{"name":"AddRole","role":"payer"}],"serial":5,"stamp":[6,3]}"#;

const NO_COMMANDS: &[u8] = br#"{"caller":0,"commands":[],"serial":4294967295,"stamp":[1,8]}"#;

const ACKNOWLEDGEMENT: &[u8] = br#"{"stamp":[18446744073709551615,2]}"#;

const RECORD: &[u8] =
    br#"{"answer":"Done","caller":4,"command":{"name":"AddUser","user":"ann"},"serial":5,"stamp":[6,3,1]}"#;

fn name(rt: &impl Abort, alloc: Global, text: &[u8]) -> Name {
    Name::read(alloc, text).expect(rt, "a name")
}

fn add_ann(rt: &impl Abort, alloc: Global) -> Command {
    let user = name(rt, alloc, b"ann");
    Command::AddUser { user }
}

/// The batch of two commands, of member 3's clock 6, caller 4 and serial 5.
fn batch_of_two(rt: &impl Abort, alloc: Global) -> Message {
    let role = name(rt, alloc, b"payer");
    let mut commands = Vec::new(alloc);
    commands.push(add_ann(rt, alloc)).expect(rt, "memory");
    commands
        .push(Command::AddRole { role })
        .expect(rt, "memory");
    Message::Batch {
        stamp: Stamp::at(6, 3),
        caller: 4,
        serial: 5,
        commands: Commands::of(commands).expect(rt, "memory"),
    }
}

#[test]
fn a_batch_and_back(rt: HostRuntime) {
    let message = batch_of_two(&rt, rt.alloc());
    let mut text = Vec::new(rt.alloc());
    put_message(&mut text, &message).expect(&rt, "memory");
    assert_eq!(rt; text.as_slice(), BATCH);
    let Ok(back) = read_message(rt.alloc(), text.as_slice(), &mut Scratch::new(rt.alloc())) else {
        panic!(rt);
    };
    assert!(rt; is_batch_of_two(&back));
    drop(back);
    drop(message);
}

#[test]
fn no_commands(rt: HostRuntime) {
    let mut text = Vec::new(rt.alloc());
    put_batch(&mut text, Stamp::at(1, 8), 0, u32::MAX, &[]).expect(&rt, "memory");
    assert_eq!(rt; text.as_slice(), NO_COMMANDS);
}

#[test]
fn an_acknowledgement_and_back(rt: HostRuntime) {
    let stamp = Stamp::at(u64::MAX, 2);
    let mut text = Vec::new(rt.alloc());
    put_acknowledgement(&mut text, stamp).expect(&rt, "memory");
    assert_eq!(rt; text.as_slice(), ACKNOWLEDGEMENT);
    let Ok(back) = read_message(rt.alloc(), text.as_slice(), &mut Scratch::new(rt.alloc())) else {
        panic!(rt);
    };
    assert!(rt; acknowledges(&back, stamp));
    drop(back);
    text.clear();
    put_message(&mut text, &Message::Ack { stamp }).expect(&rt, "memory");
    assert_eq!(rt; text.as_slice(), ACKNOWLEDGEMENT);
}

#[test]
fn a_record_behind_other_texts(rt: HostRuntime) {
    let stamp = Stamp {
        clock: 6,
        member: 3,
        place: 1,
    };
    let delivered = Record {
        stamp,
        caller: 4,
        serial: 5,
        command: SharedCommand::new(rt.alloc(), add_ann(&rt, rt.alloc())).expect(&rt, "memory"),
        answer: Answer::Done,
    };
    let mut text = Vec::new(rt.alloc());
    put_record(&mut text, &delivered).expect(&rt, "memory");
    assert_eq!(rt; text.as_slice(), RECORD);
    text.clear();
    put_stamp(&mut text, "at ", Stamp::at(6, 3)).expect(&rt, "memory");
    put_stamp(&mut text, ", ", stamp).expect(&rt, "memory");
    assert_eq!(rt; text.as_slice(), b"at [6,3], [6,3,1]".as_slice());
    drop(delivered);
}
