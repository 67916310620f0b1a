//! The calls of another language on a policy.

use super::clerk::{
    ADD_ANN, CHECKS, DONE, DUTIES, FOUNDING, LINES, OTHERS, REASONS, REFUSED_COMMANDS,
    REFUSED_FOUNDINGS, SUBJECTS,
};
use crate::policy::calls::{
    policy_answer, policy_apply, policy_check, policy_close, policy_dump, policy_explain,
    policy_open, policy_subjects,
};
use crate::policy::place::PolicyPlace;
use std::alloc::Global;
use std::process::Abort;

fn expect_open(rt: &impl Abort, alloc: Global, place: &mut PolicyPlace, file: &[u8], status: u32) {
    assert_eq!(rt; policy_open(place, alloc, file), status);
}

/// Whether the buffer has the text at its front, of the length that was written, and nothing else.
fn has_text(out: &[u8], written: usize, text: &[u8]) -> bool {
    let rest = out.iter().skip(text.len());
    written == text.len() && out.starts_with(text) && rest.copied().all(|byte| byte == b'#')
}

fn expect_answer(
    rt: &impl Abort,
    alloc: Global,
    place: &mut PolicyPlace,
    command: &[u8],
    status: u32,
    text: &[u8],
) {
    let (mut out, mut written) = ([b'#'; 64], 9);
    let told = policy_apply(place, alloc, command, &mut out, &mut written);
    assert_eq!(rt; told, status);
    assert!(rt; has_text(&out, written, text));
}

fn expect_check(
    rt: &impl Abort,
    alloc: Global,
    place: &mut PolicyPlace,
    words: (&[u8], &[u8], &[u8]),
    status: u32,
) {
    let told = policy_check(place, alloc, words.0, words.1, words.2);
    assert_eq!(rt; told, status);
}

/// The last answer again, in a buffer of so many bytes.
fn expect_again(
    rt: &impl Abort,
    alloc: Global,
    place: &mut PolicyPlace,
    room: usize,
    status: u32,
    text: &[u8],
    length: usize,
) {
    let mut out = Vec::new(alloc);
    out.resize(room, b'#').expect(rt, "memory");
    let mut written = 9;
    let told = policy_answer(place, alloc, &mut out, &mut written);
    assert_eq!(rt; (told, written), (status, length));
    assert!(rt; has_text(&out, text.len(), text));
    drop(out);
}

/// Closes a place that has a policy, and lets it go.
fn expect_end(rt: &impl Abort, alloc: Global, place: PolicyPlace) {
    let mut place = place;
    let first = policy_close(&mut place, alloc);
    let second = policy_close(&mut place, alloc);
    place.forget();
    assert_eq!(rt; (first, second), (0, 40));
}

fn become_clerk(rt: &impl Abort, alloc: Global, place: &mut PolicyPlace) {
    expect_open(rt, alloc, place, FOUNDING, 0);
    expect_answer(rt, alloc, place, ADD_ANN, 0, DONE);
    for command in OTHERS {
        expect_answer(rt, alloc, place, command, 0, DONE);
    }
}

fn expect_checks(rt: &impl Abort, alloc: Global, place: &mut PolicyPlace) {
    for (session, operation, object, status) in CHECKS {
        let words = (session, operation, object);
        expect_check(rt, alloc, place, words, status);
    }
}

/// Who may, in a buffer of so many bytes.
fn expect_subjects(
    rt: &impl Abort,
    alloc: Global,
    place: &mut PolicyPlace,
    words: (&[u8], &[u8]),
    room: usize,
    status: u32,
    text: &[u8],
    length: usize,
) {
    let mut out = Vec::new(alloc);
    out.resize(room, b'#').expect(rt, "memory");
    let mut written = 9;
    let told = policy_subjects(place, alloc, words.0, words.1, &mut out, &mut written);
    assert_eq!(rt; (told, written), (status, length));
    assert!(rt; has_text(&out, text.len(), text));
    drop(out);
}

fn expect_all_subjects(rt: &impl Abort, alloc: Global, place: &mut PolicyPlace) {
    for (operation, object, status, text) in SUBJECTS {
        let words = (operation, object);
        expect_subjects(rt, alloc, place, words, 40, status, text, text.len());
    }
}

#[test]
fn who_may_is_told(rt: HostRuntime) {
    let mut place = PolicyPlace::empty();
    let words = (b"read".as_slice(), b"ledger".as_slice());
    expect_subjects(&rt, rt.alloc(), &mut place, words, 40, 40, b"", 0);
    become_clerk(&rt, rt.alloc(), &mut place);
    expect_all_subjects(&rt, rt.alloc(), &mut place);
    expect_subjects(&rt, rt.alloc(), &mut place, words, 34, 42, b"", 35);
    expect_again(&rt, rt.alloc(), &mut place, 9, 0, DONE, 6);
    expect_end(&rt, rt.alloc(), place);
}

/// Why, in a buffer of so many bytes.
fn expect_reason(
    rt: &impl Abort,
    alloc: Global,
    place: &mut PolicyPlace,
    command: &[u8],
    room: usize,
    status: u32,
    text: &[u8],
    length: usize,
) {
    let mut out = Vec::new(alloc);
    out.resize(room, b'#').expect(rt, "memory");
    let mut written = 9;
    let told = policy_explain(place, alloc, command, &mut out, &mut written);
    assert_eq!(rt; (told, written), (status, length));
    assert!(rt; has_text(&out, text.len(), text));
    drop(out);
}

fn expect_all_reasons(rt: &impl Abort, alloc: Global, place: &mut PolicyPlace) {
    for command in DUTIES {
        expect_answer(rt, alloc, place, command, 0, DONE);
    }
    for (command, text) in REASONS {
        expect_reason(rt, alloc, place, command, 200, 0, text, text.len());
    }
}

#[test]
fn why_is_told(rt: HostRuntime) {
    let mut place = PolicyPlace::empty();
    expect_reason(&rt, rt.alloc(), &mut place, ADD_ANN, 200, 40, b"", 0);
    become_clerk(&rt, rt.alloc(), &mut place);
    expect_all_reasons(&rt, rt.alloc(), &mut place);
    expect_reason(&rt, rt.alloc(), &mut place, b"[]", 200, 203, b"", 0);
    expect_reason(&rt, rt.alloc(), &mut place, ADD_ANN, 56, 42, b"", 57);
    expect_again(&rt, rt.alloc(), &mut place, 9, 0, DONE, 6);
    expect_end(&rt, rt.alloc(), place);
}

#[test]
fn each_answer_and_each_check(rt: HostRuntime) {
    let mut place = PolicyPlace::empty();
    become_clerk(&rt, rt.alloc(), &mut place);
    let denied = br#"{"denied":"UserExists","number":1}"#;
    expect_answer(&rt, rt.alloc(), &mut place, ADD_ANN, 0, denied);
    expect_checks(&rt, rt.alloc(), &mut place);
    expect_open(&rt, rt.alloc(), &mut place, FOUNDING, 41);
    expect_end(&rt, rt.alloc(), place);
}

fn expect_refused_foundings(rt: &impl Abort, alloc: Global, place: &mut PolicyPlace) {
    for (file, status) in REFUSED_FOUNDINGS {
        expect_open(rt, alloc, place, file, status);
    }
}

fn expect_refused_commands(rt: &impl Abort, alloc: Global, place: &mut PolicyPlace) {
    for (text, status) in REFUSED_COMMANDS {
        expect_answer(rt, alloc, place, text, status, b"");
    }
}

#[test]
fn each_refused_text(rt: HostRuntime) {
    let mut place = PolicyPlace::empty();
    expect_refused_foundings(&rt, rt.alloc(), &mut place);
    expect_open(&rt, rt.alloc(), &mut place, FOUNDING, 0);
    expect_refused_commands(&rt, rt.alloc(), &mut place);
    expect_end(&rt, rt.alloc(), place);
}

#[test]
fn what_is_too_long(rt: HostRuntime) {
    let mut place = PolicyPlace::empty();
    let mut text = Vec::new(rt.alloc());
    text.resize(1_048_577, b'\n').expect(&rt, "memory");
    expect_open(&rt, rt.alloc(), &mut place, &text, 101);
    text.truncate(65_537);
    expect_open(&rt, rt.alloc(), &mut place, FOUNDING, 0);
    expect_answer(&rt, rt.alloc(), &mut place, &text, 201, b"");
    drop(text);
    expect_end(&rt, rt.alloc(), place);
}

#[test]
fn a_short_buffer_has_the_command_applied_once(rt: HostRuntime) {
    let mut place = PolicyPlace::empty();
    expect_open(&rt, rt.alloc(), &mut place, FOUNDING, 0);
    expect_again(&rt, rt.alloc(), &mut place, 0, 0, b"", 0);
    let (mut out, mut written) = ([b'#'; 5], 9);
    let told = policy_apply(&mut place, rt.alloc(), ADD_ANN, &mut out, &mut written);
    assert_eq!(&rt; (told, written), (42, 6));
    assert!(&rt; has_text(&out, 0, b""));
    expect_again(&rt, rt.alloc(), &mut place, 5, 42, b"", 6);
    expect_again(&rt, rt.alloc(), &mut place, 6, 0, DONE, 6);
    expect_again(&rt, rt.alloc(), &mut place, 9, 0, DONE, 6);
    let denied = br#"{"denied":"UserExists","number":1}"#;
    expect_answer(&rt, rt.alloc(), &mut place, ADD_ANN, 0, denied);
    expect_end(&rt, rt.alloc(), place);
}

#[test]
fn no_buffer_at_all_has_the_command_applied(rt: HostRuntime) {
    let mut place = PolicyPlace::empty();
    expect_open(&rt, rt.alloc(), &mut place, FOUNDING, 0);
    let mut written = 9;
    let told = policy_apply(&mut place, rt.alloc(), ADD_ANN, &mut [], &mut written);
    assert_eq!(&rt; (told, written), (42, 6));
    expect_again(&rt, rt.alloc(), &mut place, 6, 0, DONE, 6);
    expect_end(&rt, rt.alloc(), place);
}

/// What `rbac_monitor dump` writes of this policy too.
const DUMP: &[u8] = br#"{"at":1,"command":{"name":"AddUser","user":"ann"}}
{"at":1,"command":{"name":"AddRole","role":"clerk"}}
{"at":1,"command":{"name":"AssignUser","user":"ann","role":"clerk"}}
{"at":1,"command":{"name":"GrantPermission","operation":"read","object":"ledger","role":"clerk"}}
{"at":1,"command":{"name":"CreateSession","user":"ann","session":"s1","roles":["clerk"]}}
"#;

/// The dump, in a buffer of so many bytes.
fn expect_dump(
    rt: &impl Abort,
    alloc: Global,
    place: &mut PolicyPlace,
    room: usize,
    status: u32,
    text: &[u8],
    length: usize,
) {
    let mut out = Vec::new(alloc);
    out.resize(room, b'#').expect(rt, "memory");
    let mut written = 9;
    let told = policy_dump(place, alloc, &mut out, &mut written);
    assert_eq!(rt; (told, written), (status, length));
    assert!(rt; has_text(&out, text.len(), text));
    drop(out);
}

#[test]
fn a_dump_is_the_commands_of_the_policy(rt: HostRuntime) {
    let mut place = PolicyPlace::empty();
    expect_dump(&rt, rt.alloc(), &mut place, 400, 40, b"", 0);
    become_clerk(&rt, rt.alloc(), &mut place);
    expect_dump(&rt, rt.alloc(), &mut place, 400, 0, DUMP, DUMP.len());
    expect_dump(&rt, rt.alloc(), &mut place, 9, 42, b"", DUMP.len());
    expect_again(&rt, rt.alloc(), &mut place, 9, 0, DONE, 6);
    expect_end(&rt, rt.alloc(), place);
}

fn expect_client_lines(rt: &impl Abort, alloc: Global, place: &mut PolicyPlace) {
    for line in LINES {
        expect_answer(rt, alloc, place, line, 0, DONE);
    }
}

#[test]
fn client_lines_are_applied_as_their_commands(rt: HostRuntime) {
    let mut place = PolicyPlace::empty();
    expect_open(&rt, rt.alloc(), &mut place, FOUNDING, 0);
    expect_client_lines(&rt, rt.alloc(), &mut place);
    expect_dump(&rt, rt.alloc(), &mut place, 400, 0, DUMP, DUMP.len());
    expect_end(&rt, rt.alloc(), place);
}

fn expect_dump_lines(rt: &impl Abort, alloc: Global, place: &mut PolicyPlace) {
    for line in DUMP.split(|byte| *byte == b'\n') {
        if !line.is_empty() {
            expect_answer(rt, alloc, place, line, 0, DONE);
        }
    }
}

#[test]
fn a_dump_is_applied_line_by_line(rt: HostRuntime) {
    let mut place = PolicyPlace::empty();
    expect_open(&rt, rt.alloc(), &mut place, FOUNDING, 0);
    expect_dump_lines(&rt, rt.alloc(), &mut place);
    expect_dump(&rt, rt.alloc(), &mut place, 400, 0, DUMP, DUMP.len());
    expect_end(&rt, rt.alloc(), place);
}

#[test]
fn an_empty_place(rt: HostRuntime) {
    let mut place = PolicyPlace::empty();
    expect_answer(&rt, rt.alloc(), &mut place, ADD_ANN, 40, b"");
    expect_again(&rt, rt.alloc(), &mut place, 8, 40, b"", 0);
    let words = (b"s1".as_slice(), b"read".as_slice(), b"ledger".as_slice());
    expect_check(&rt, rt.alloc(), &mut place, words, 40);
    become_clerk(&rt, rt.alloc(), &mut place);
    expect_end(&rt, rt.alloc(), place);
}
