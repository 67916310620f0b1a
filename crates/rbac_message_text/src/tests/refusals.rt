//! Texts that are refused, and for which of several reasons.

use crate::{LineRefusal, Scratch, read_commands, read_message};
use std::alloc::Global;
use std::process::Abort;

/// Texts that are no message, and why: of two reasons the one that comes first.
const REFUSED: [(&[u8], LineRefusal); 22] = [
    (b"", LineRefusal::NotJson),
    (b"{\"stamp\":[7,1]}{", LineRefusal::NotJson),
    (b"{\"stamp\":[7,1],\"\xff\":0}", LineRefusal::NotJson),
    (b"[]", LineRefusal::NotObject),
    (b"{}", LineRefusal::MissingField),
    (br#"{"at":1}"#, LineRefusal::MissingField),
    (br#"{"stamp":7,"at":1}"#, LineRefusal::WrongKind),
    (br#"{"stamp":[7,1],"at":1}"#, LineRefusal::ExtraField),
    // An acknowledgement has no caller and no serial.
    (
        br#"{"caller":0,"serial":0,"stamp":[7,1]}"#,
        LineRefusal::ExtraField,
    ),
    // From left to right: caller, commands, serial, stamp.
    (br#"{"commands":0}"#, LineRefusal::MissingField),
    (br#"{"caller":"ann","commands":0}"#, LineRefusal::WrongKind),
    (
        br#"{"caller":4294967296,"commands":[]}"#,
        LineRefusal::WrongKind,
    ),
    (br#"{"caller":0,"commands":{}}"#, LineRefusal::WrongKind),
    (br#"{"caller":0,"commands":[]}"#, LineRefusal::MissingField),
    (
        br#"{"caller":0,"commands":[],"serial":1.0}"#,
        LineRefusal::WrongKind,
    ),
    (
        br#"{"caller":0,"commands":[],"serial":0}"#,
        LineRefusal::MissingField,
    ),
    (
        br#"{"caller":0,"commands":[],"serial":0,"stamp":[]}"#,
        LineRefusal::WrongKind,
    ),
    // An element that is no object comes before what is missing behind it, and before any command.
    (br#"{"caller":0,"commands":[{},7]}"#, LineRefusal::WrongKind),
    // The outer object comes before its commands.
    (
        br#"{"caller":0,"commands":[{}],"serial":0,"stamp":[6,1],"at":1}"#,
        LineRefusal::ExtraField,
    ),
    // The commands come one after the other.
    (
        br#"{"caller":0,"commands":[{"name":"AddUser","user":"a b"},{}],"serial":0,"stamp":[6,1]}"#,
        LineRefusal::BadName,
    ),
    (
        br#"{"caller":0,"commands":[{"name":"AddUser","user":"ann"},{"name":"Fly"},{}],"serial":0,"stamp":[6,1]}"#,
        LineRefusal::UnknownWord,
    ),
    (
        br#"{"caller":0,"commands":[{}],"serial":0,"stamp":[6,1]}"#,
        LineRefusal::MissingField,
    ),
];

/// Texts that are no commands.
const REFUSED_COMMANDS: [(&[u8], LineRefusal); 5] = [
    (b"[", LineRefusal::NotJson),
    (
        br#"{"name":"AddUser","user":"ann"}"#,
        LineRefusal::WrongKind,
    ),
    (br#"[{"name":"Fly"},[]]"#, LineRefusal::WrongKind),
    (
        br#"[{"name":"AddUser","user":""},{"name":"Fly"}]"#,
        LineRefusal::BadName,
    ),
    (
        br#"[{"name":"AddUser","user":"ann","role":"payer"}]"#,
        LineRefusal::ExtraField,
    ),
];

/// Stamps that are none: of one and three elements, and of other numbers.
const NO_STAMPS: [&[u8]; 9] = [
    br#"{"stamp":[7]}"#,
    br#"{"stamp":[7,1,0]}"#,
    br#"{"stamp":[18446744073709551616,1]}"#,
    br#"{"stamp":[-1,1]}"#,
    br#"{"stamp":[7.0,1]}"#,
    br#"{"stamp":[7,4294967296]}"#,
    br#"{"stamp":["7",1]}"#,
    br#"{"stamp":[7,null]}"#,
    br#"{"stamp":{"clock":7,"member":1}}"#,
];

fn expect_refusal(rt: &impl Abort, alloc: Global, text: &[u8], refusal: LineRefusal) {
    assert_eq!(rt;
        read_message(alloc, text, &mut Scratch::new(alloc)).err(),
        Some(refusal)
    );
}

#[test]
fn messages_are_refused_for_the_first_reason(rt: HostRuntime) {
    for (text, refusal) in REFUSED {
        expect_refusal(&rt, rt.alloc(), text, refusal);
    }
}

#[test]
fn commands_are_refused_for_the_first_reason(rt: HostRuntime) {
    for (text, refusal) in REFUSED_COMMANDS {
        assert_eq!(rt;
            read_commands(rt.alloc(), text, &mut Scratch::new(rt.alloc())).err(),
            Some(refusal)
        );
    }
}

#[test]
fn stamps_that_are_none(rt: HostRuntime) {
    for text in NO_STAMPS {
        expect_refusal(&rt, rt.alloc(), text, LineRefusal::WrongKind);
    }
}
