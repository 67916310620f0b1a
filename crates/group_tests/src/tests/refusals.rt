//! The text of each refusal. What is expected was written by hand.

use rbac_founding::FoundingRefusal;
use rbac_lines::{DeskRefusal, LineRefusal};
use rbac_links::{LinkRefusal, OutboxRefusal};
use rbac_member::{FoundRefusal, ReceiveRefusal, SubmitRefusal};
use rbac_node::{AuditRefusal, MeetRefusal, NodeRefusal, PublishRefusal, ServiceRefusal};
use rbac_words::{GroupRefusal, Refusal};
use rbac_world::Stopped;
use std::error::Error;
use std::fmt::InlineText;
use std::process::Abort;

fn expect_text<E: Error>(rt: &impl Abort, error: E, text: &str) {
    let shown: InlineText<128> = InlineText::of(error);
    assert_eq!(rt; shown.as_str(), text);
}

const MEMBER: &str = "the group has no member of this number";

const FROM_SELF: &str = "a member receives nothing from itself";

const REPEAT: &str = "the message was received before: expected message 3";

const GAP: &str = "a message before this one is missing: expected message 18446744073709551615";

const RISING: &str =
    "the stamp is none of a message of the sender, or not above the last one taken from it";

const BATCH: &str = "a message has 1 to 64 commands, with serials up to 4294967295";

const CLOCK: &str = "the member's clock is at its limit";

const SENT: &str = "the member has sent as many messages as the founding allows";

const SERIAL: &str = "expected serial 4294967295";

const NO_MEMORY: &str = "no memory";

#[test]
fn refusals_of_a_group(rt: HostRuntime) {
    let clock = "a clock begins at 9007199254740991 at most";
    for (refusal, text) in [
        (GroupRefusal::BadMembers, "a group has 1 to 8 members"),
        (GroupRefusal::BadClock, clock),
        (
            GroupRefusal::BadSentLimit,
            "a member may send 1 to 65536 messages",
        ),
    ] {
        expect_text(&rt, refusal, text);
    }
}

#[test]
fn refusals_of_an_event(rt: HostRuntime) {
    let expected = u64::MAX;
    let next = 4_294_967_295;
    for (refusal, text) in [
        (Refusal::UnknownMember, MEMBER),
        (Refusal::BadBatch, BATCH),
        (Refusal::FromSelf, FROM_SELF),
        (
            Refusal::NotSent,
            "the sender has sent no message of this number",
        ),
        (Refusal::Repeat { expected: 3 }, REPEAT),
        (Refusal::Gap { expected }, GAP),
        (Refusal::StampNotRising, RISING),
        (Refusal::ClockFull, CLOCK),
        (Refusal::SentFull, SENT),
        (Refusal::BadSerial { next }, SERIAL),
        (Refusal::NoMemory, NO_MEMORY),
    ] {
        expect_text(&rt, refusal, text);
    }
}

#[test]
fn refusals_of_links(rt: HostRuntime) {
    expect_text(&rt, OutboxRefusal::Full, SENT);
    expect_text(&rt, OutboxRefusal::NoMemory, NO_MEMORY);
    let expected = u64::MAX;
    for (refusal, text) in [
        (LinkRefusal::UnknownMember, MEMBER),
        (LinkRefusal::FromSelf, FROM_SELF),
        (LinkRefusal::Repeat { expected: 3 }, REPEAT),
        (LinkRefusal::Gap { expected }, GAP),
        (LinkRefusal::StampNotRising, RISING),
    ] {
        expect_text(&rt, refusal, text);
    }
}

#[test]
fn refusals_of_a_member(rt: HostRuntime) {
    expect_text(&rt, FoundRefusal::UnknownMember, MEMBER);
    let next = 4_294_967_295;
    for (refusal, text) in [
        (SubmitRefusal::BadBatch, BATCH),
        (SubmitRefusal::ClockFull, CLOCK),
        (SubmitRefusal::SentFull, SENT),
        (SubmitRefusal::BadSerial { next }, SERIAL),
        (SubmitRefusal::NoMemory, NO_MEMORY),
    ] {
        expect_text(&rt, refusal, text);
    }
}

#[test]
fn refusals_of_a_receipt(rt: HostRuntime) {
    let expected = u64::MAX;
    let next = 4_294_967_295;
    for (refusal, text) in [
        (ReceiveRefusal::UnknownMember, MEMBER),
        (ReceiveRefusal::FromSelf, FROM_SELF),
        (ReceiveRefusal::Repeat { expected: 3 }, REPEAT),
        (ReceiveRefusal::Gap { expected }, GAP),
        (ReceiveRefusal::StampNotRising, RISING),
        (ReceiveRefusal::BadBatch, BATCH),
        (ReceiveRefusal::ClockFull, CLOCK),
        (ReceiveRefusal::SentFull, SENT),
        (ReceiveRefusal::BadSerial { next }, SERIAL),
        (ReceiveRefusal::NoMemory, NO_MEMORY),
    ] {
        expect_text(&rt, refusal, text);
    }
}

#[test]
fn refusals_of_a_node(rt: HostRuntime) {
    let not_shown = "the sender has not published the next message yet";
    expect_text(&rt, NodeRefusal::NotShown, not_shown);
    let repeat = ReceiveRefusal::Repeat { expected: 3 };
    expect_text(&rt, NodeRefusal::Receive(repeat), REPEAT);
    expect_text(&rt, NodeRefusal::NoMemory, NO_MEMORY);
    let taken = "somebody else has set the next cell";
    expect_text(&rt, PublishRefusal::RowFull, "a row has no place left");
    expect_text(&rt, PublishRefusal::Taken, taken);
    expect_text(&rt, PublishRefusal::NoMemory, NO_MEMORY);
}

#[test]
fn refusals_of_an_audit(rt: HostRuntime) {
    let no_group =
        "the nodes are not each member once in order of number, or one has read more than another has published";
    expect_text(&rt, AuditRefusal::NotAGroup, no_group);
    expect_text(&rt, AuditRefusal::NoMemory, NO_MEMORY);
}

#[test]
fn refusals_of_a_pass(rt: HostRuntime) {
    for (refusal, text) in [
        (ServiceRefusal::Stopped, "the service is stopped"),
        (ServiceRefusal::Busy, "the pass waits for an answer"),
        (ServiceRefusal::ClockFull, CLOCK),
        (ServiceRefusal::SentFull, SENT),
        (
            ServiceRefusal::Foreign,
            "the pass is of another service, another member or another caller",
        ),
        (ServiceRefusal::NoMemory, NO_MEMORY),
    ] {
        expect_text(&rt, refusal, text);
    }
    let other_member = "the passes are of two members";
    expect_text(&rt, MeetRefusal::OtherMember, other_member);
    expect_text(&rt, MeetRefusal::NoMemory, NO_MEMORY);
}

#[test]
fn a_play_that_stopped(rt: HostRuntime) {
    expect_text(&rt, Stopped { done: 12 }, "no memory after 12 events");
}

#[test]
fn refusals_of_a_founding_file(rt: HostRuntime) {
    for (refusal, text) in [
        (
            FoundingRefusal::TooLong,
            "the file has more than 1048576 bytes",
        ),
        (FoundingRefusal::NotToml, "the file is no TOML text"),
        (
            FoundingRefusal::BadVersion,
            "`version` is not there, or is not the whole number 1 or 2",
        ),
        (
            FoundingRefusal::UnknownKey,
            "there is a key that is not known",
        ),
        (
            FoundingRefusal::MissingKey,
            "`members`, `operations`, `objects`, `permissions` or, in version 2, `hierarchy` is not there",
        ),
        (
            FoundingRefusal::WrongKind,
            "a value is not of its kind: a whole number, a text, an array of texts, or an array of pairs of texts",
        ),
        (
            FoundingRefusal::OutOfRange,
            "a number is outside its range, a list has too many entries, or `hierarchy` is neither `general` nor `limited`",
        ),
        (FoundingRefusal::BadName, "a text is no name"),
        (
            FoundingRefusal::Repeated,
            "an operation, an object or a permission stands twice",
        ),
        (
            FoundingRefusal::UnknownName,
            "a permission speaks of an operation or an object that is not listed",
        ),
        (FoundingRefusal::NoMemory, NO_MEMORY),
    ] {
        expect_text(&rt, refusal, text);
    }
}

#[test]
fn refusals_of_a_line(rt: HostRuntime) {
    for (refusal, text) in [
        (LineRefusal::TooLong, "the line has more than 65536 bytes"),
        (LineRefusal::NotJson, "the line is no JSON text"),
        (LineRefusal::NotObject, "the value is no object"),
        (
            LineRefusal::UnknownWord,
            "the word of the line, or the name of its command, is not known",
        ),
        (LineRefusal::MissingField, "a field is not there"),
        (
            LineRefusal::WrongKind,
            "a field is not of its kind: a whole number up to 4294967295, a text, an array of texts, an object or an array of objects",
        ),
        (LineRefusal::BadName, "a text is no name"),
        (
            LineRefusal::ExtraField,
            "there is a field that does not belong there",
        ),
        (LineRefusal::NoMemory, NO_MEMORY),
    ] {
        expect_text(&rt, refusal, text);
    }
}

#[test]
fn refusals_of_a_desk(rt: HostRuntime) {
    for (refusal, text) in [
        (DeskRefusal::UnknownMember, MEMBER),
        (DeskRefusal::Stopped, "the member takes no more commands"),
        (
            DeskRefusal::Busy,
            "an earlier command of this caller has no answer yet",
        ),
        (DeskRefusal::ClockFull, CLOCK),
        (DeskRefusal::SentFull, SENT),
        (DeskRefusal::NoMemory, NO_MEMORY),
    ] {
        expect_text(&rt, refusal, text);
    }
}
