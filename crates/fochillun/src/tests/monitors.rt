//! A monitor by itself.

use super::clerk::{
    ADD_ANN, CHECKS, DONE, DUTIES, FOUNDING, OTHERS, REASONS, REFUSED_COMMANDS, REFUSED_FOUNDINGS,
    SUBJECTS,
};
use rbac_embedded::{Monitor, Status};
use std::alloc::Global;
use std::process::Abort;

/// Applies a command, after which the last answer is this text.
fn expect_answer(
    rt: &impl Abort,
    alloc: Global,
    monitor: &mut Monitor,
    command: &[u8],
    text: &[u8],
) {
    assert!(rt; monitor.apply(alloc, command).is_ok());
    assert_eq!(rt; monitor.answer(), text);
}

fn expect_check(rt: &impl Abort, monitor: &Monitor, words: (&[u8], &[u8], &[u8]), number: u32) {
    let verdict = monitor.check(words.0, words.1, words.2);
    assert_eq!(rt; Status::Checked(verdict).number(), number);
}

fn expect_checks(rt: &impl Abort, monitor: &Monitor) {
    for (session, operation, object, number) in CHECKS {
        expect_check(rt, monitor, (session, operation, object), number);
    }
}

fn expect_subjects(
    rt: &impl Abort,
    alloc: Global,
    monitor: &Monitor,
    words: (&[u8], &[u8]),
    number: u32,
    text: &[u8],
) {
    match monitor.subjects(alloc, words.0, words.1) {
        Ok(told) => {
            let is_told = number == 0 && told.as_slice() == text;
            drop(told);
            assert!(rt; is_told);
        }
        Err(status) => assert_eq!(rt; status.number(), number),
    }
}

fn expect_all_subjects(rt: &impl Abort, alloc: Global, monitor: &Monitor) {
    for (operation, object, number, text) in SUBJECTS {
        expect_subjects(rt, alloc, monitor, (operation, object), number, text);
    }
}

fn expect_reason(
    rt: &impl Abort,
    alloc: Global,
    monitor: &Monitor,
    command: &[u8],
    number: u32,
    text: &[u8],
) {
    match monitor.explain(alloc, command) {
        Ok(told) => {
            let is_told = number == 0 && told.as_slice() == text;
            drop(told);
            assert!(rt; is_told);
        }
        Err(status) => assert_eq!(rt; status.number(), number),
    }
}

fn expect_all_reasons(rt: &impl Abort, alloc: Global, monitor: &mut Monitor) {
    for command in DUTIES {
        expect_answer(rt, alloc, monitor, command, DONE);
    }
    for (command, text) in REASONS {
        expect_reason(rt, alloc, monitor, command, 0, text);
    }
    for (command, number) in REFUSED_COMMANDS {
        expect_reason(rt, alloc, monitor, command, number, b"");
    }
}

#[test]
fn a_monitor_tells_why(rt: HostRuntime) {
    let mut monitor = founded(&rt, rt.alloc());
    become_clerk(&rt, rt.alloc(), &mut monitor);
    expect_all_reasons(&rt, rt.alloc(), &mut monitor);
    drop(monitor);
}

fn become_clerk(rt: &impl Abort, alloc: Global, monitor: &mut Monitor) {
    expect_answer(rt, alloc, monitor, ADD_ANN, DONE);
    for command in OTHERS {
        expect_answer(rt, alloc, monitor, command, DONE);
    }
}

fn refusal_of(alloc: Global, file: &[u8]) -> Option<u32> {
    match Monitor::found(alloc, file) {
        Ok(monitor) => {
            drop(monitor);
            None
        }
        Err(refusal) => Some(Status::BadFounding(refusal).number()),
    }
}

/// The text is refused so, and the last answer stays.
fn expect_refusal(rt: &impl Abort, alloc: Global, monitor: &mut Monitor, text: &[u8], number: u32) {
    let refusal = monitor.apply(alloc, text).err();
    let told = refusal.map(|refusal| Status::BadCommand(refusal).number());
    assert_eq!(rt; told, Some(number));
    assert_eq!(rt; monitor.answer(), DONE);
}

fn expect_refusals(rt: &impl Abort, alloc: Global, monitor: &mut Monitor) {
    for (text, number) in REFUSED_COMMANDS {
        expect_refusal(rt, alloc, monitor, text, number);
    }
}

fn founded(rt: &impl Abort, alloc: Global) -> Monitor {
    let Ok(monitor) = Monitor::found(alloc, FOUNDING) else {
        panic!(rt);
    };
    monitor
}

#[test]
fn a_monitor_answers_and_checks(rt: HostRuntime) {
    let mut monitor = founded(&rt, rt.alloc());
    assert!(&rt; monitor.answer().is_empty());
    become_clerk(&rt, rt.alloc(), &mut monitor);
    expect_checks(&rt, &monitor);
    expect_all_subjects(&rt, rt.alloc(), &monitor);
    let review = br#"{"name":"SessionPermissions","session":"s1"}"#;
    let listed = br#"{"permissions":[["read","ledger"]]}"#;
    expect_answer(&rt, rt.alloc(), &mut monitor, review, listed);
    drop(monitor);
}

#[test]
fn a_founding_that_is_refused(rt: HostRuntime) {
    for (file, number) in REFUSED_FOUNDINGS {
        assert_eq!(&rt; refusal_of(rt.alloc(), file), Some(number));
    }
}

#[test]
fn a_command_that_is_refused(rt: HostRuntime) {
    let mut monitor = founded(&rt, rt.alloc());
    expect_answer(&rt, rt.alloc(), &mut monitor, ADD_ANN, DONE);
    expect_refusals(&rt, rt.alloc(), &mut monitor);
    drop(monitor);
}
