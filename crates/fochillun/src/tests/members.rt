//! The calls of another language on one member of a group of two.

use crate::member::calls::{
    MemberWaiting, member_check, member_close, member_deliver, member_dump, member_message,
    member_next_answer, member_next_serial, member_next_submit, member_next_submit_batch,
    member_observe, member_open, member_read, member_receive, member_record, member_review,
    member_subjects, member_submit, member_submit_batch, member_take_own, member_waits,
};
use crate::member::place::MemberPlace;
use std::alloc::Global;
use std::process::Abort;

const FOUNDING: &[u8] = b"version = 1
members = 2
operations = [\"read\"]
objects = [\"ledger\"]
permissions = [[\"read\", \"ledger\"]]
";

const ADD_ANN: &[u8] = br#"{"name":"AddUser","user":"ann"}"#;

const TWO_COMMANDS: &[u8] =
    br#"[{"name":"AddUser","user":"ann"},{"name":"AddRole","role":"clerk"}]"#;

const ADD_CLERK: &[u8] = br#"{"name":"AddRole","role":"clerk"}"#;

const USERS: &[u8] = br#"{"name":"AssignedUsers","role":"clerk"}"#;

const CHECK: &[u8] =
    br#"{"name":"CheckAccess","session":"s1","operation":"read","object":"ledger"}"#;

const NOTHING: MemberWaiting = MemberWaiting {
    clock: 0,
    member: 0,
    place: 0,
    awaited: 0,
};

/// A member of the group in a place.
fn opened(rt: &impl Abort, alloc: Global, number: u32) -> MemberPlace {
    let mut place = MemberPlace::empty();
    assert_eq!(rt; member_open(&mut place, alloc, FOUNDING, number), 0);
    place
}

/// Closes a place that has a member, and lets it go.
fn expect_end(rt: &impl Abort, alloc: Global, place: MemberPlace) {
    let mut place = place;
    let first = member_close(&mut place, alloc);
    let second = member_close(&mut place, alloc);
    place.forget();
    assert_eq!(rt; (first, second), (0, 40));
}

fn expect_told(rt: &impl Abort, told: (u32, u64), wanted: (u32, u64)) {
    assert_eq!(rt; told, wanted);
}

fn submit(alloc: Global, place: &mut MemberPlace, serial: u32) -> (u32, u64) {
    let mut told = 9;
    let status = member_submit(place, alloc, 0, serial, ADD_ANN, &mut told);
    (status, told)
}

fn submit_batch(alloc: Global, place: &mut MemberPlace, serial: u32) -> (u32, u64) {
    let mut told = 9;
    let status = member_submit_batch(place, alloc, 0, serial, TWO_COMMANDS, &mut told);
    (status, told)
}

fn receive(
    alloc: Global,
    place: &mut MemberPlace,
    from: u32,
    number: u32,
    text: &[u8],
) -> (u32, u64) {
    let mut told = 9;
    let status = member_receive(place, alloc, from, number, text, &mut told);
    (status, told)
}

fn take_own(alloc: Global, place: &mut MemberPlace, number: u32, text: &[u8]) -> (u32, u64) {
    let mut told = 9;
    let status = member_take_own(place, alloc, number, text, &mut told);
    (status, told)
}

fn deliver(alloc: Global, place: &mut MemberPlace) -> (u32, u64) {
    let mut told = 9;
    let status = member_deliver(place, alloc, &mut told);
    (status, told)
}

fn check(alloc: Global, place: &mut MemberPlace, operation: &[u8]) -> (u32, u64) {
    let mut told = 9;
    let status = member_check(place, alloc, b"s1", operation, b"ledger", &mut told);
    (status, told)
}

fn read(alloc: Global, place: &mut MemberPlace, from: u32) -> (u32, u64) {
    let mut told = 9;
    (member_read(place, alloc, from, &mut told), told)
}

fn next_serial(alloc: Global, place: &mut MemberPlace) -> (u32, u64) {
    let mut told = 9;
    (member_next_serial(place, alloc, 0, &mut told), told)
}

fn expect_waits(
    rt: &impl Abort,
    alloc: Global,
    place: &mut MemberPlace,
    status: u32,
    wanted: MemberWaiting,
) {
    let mut waiting = MemberWaiting {
        clock: 9,
        member: 9,
        place: 9,
        awaited: 9,
    };
    assert_eq!(rt; member_waits(place, alloc, &mut waiting), status);
    assert_eq!(rt; waiting, wanted);
}

/// A call that put this text into a buffer.
fn expect_text(rt: &impl Abort, status: u32, out: &[u8], written: usize, wanted: &[u8]) {
    assert_eq!(rt; (status, written), (0, wanted.len()));
    assert!(rt; out.starts_with(wanted));
}

fn expect_message(
    rt: &impl Abort,
    alloc: Global,
    place: &mut MemberPlace,
    number: usize,
    wanted: &[u8],
) {
    let (mut out, mut written) = ([0; 200], 9);
    let status = member_message(place, alloc, number, &mut out, &mut written);
    expect_text(rt, status, &out, written, wanted);
}

fn expect_record(
    rt: &impl Abort,
    alloc: Global,
    place: &mut MemberPlace,
    number: usize,
    wanted: &[u8],
) {
    let (mut out, mut written) = ([0; 200], 9);
    let status = member_record(place, alloc, number, &mut out, &mut written);
    expect_text(rt, status, &out, written, wanted);
}

fn expect_dump(rt: &impl Abort, alloc: Global, place: &mut MemberPlace, wanted: &[u8]) {
    let (mut out, mut written) = ([0; 200], 9);
    let status = member_dump(place, alloc, &mut out, &mut written);
    expect_text(rt, status, &out, written, wanted);
}

fn expect_review(
    rt: &impl Abort,
    alloc: Global,
    place: &mut MemberPlace,
    command: &[u8],
    wanted: &[u8],
) {
    let (mut out, mut written) = ([0; 200], 9);
    let status = member_review(place, alloc, command, &mut out, &mut written);
    expect_text(rt, status, &out, written, wanted);
}

fn review(alloc: Global, place: &mut MemberPlace, command: &[u8]) -> (u32, usize) {
    let mut written = 9;
    let status = member_review(place, alloc, command, &mut [0; 5], &mut written);
    (status, written)
}

fn expect_subjects(rt: &impl Abort, alloc: Global, place: &mut MemberPlace, wanted: &[u8]) {
    let (mut out, mut written) = ([0; 200], 9);
    let status = member_subjects(place, alloc, b"read", b"ledger", &mut out, &mut written);
    expect_text(rt, status, &out, written, wanted);
}

fn subjects(alloc: Global, place: &mut MemberPlace, words: (&[u8], &[u8])) -> (u32, usize) {
    let mut written = 9;
    let status = member_subjects(place, alloc, words.0, words.1, &mut [0; 5], &mut written);
    (status, written)
}

/// What the calls that tell a next message answer, and that each of them writes no byte.
fn expect_no_next(rt: &impl Abort, alloc: Global, place: &mut MemberPlace) {
    let (mut out, mut written) = ([7; 20], 9);
    let status = member_next_submit(place, alloc, 0, 0, b"any", &mut out, &mut written);
    assert_eq!(rt; (status, written), (313, 0));
    let status = member_next_submit_batch(place, alloc, 0, 0, b"any", &mut out, &mut written);
    assert_eq!(rt; (status, written), (313, 0));
    assert!(rt; out == [7; 20]);
}

fn expect_next_answer(
    rt: &impl Abort,
    alloc: Global,
    place: &mut MemberPlace,
    number: u32,
    text: &[u8],
    wanted: u32,
) {
    let (mut out, mut written) = ([7; 20], 9);
    let status = member_next_answer(place, alloc, 1, number, text, &mut out, &mut written);
    assert_eq!(rt; (status, written), (wanted, 0));
    assert!(rt; out == [7; 20]);
}

#[test]
fn an_empty_place_has_no_member(rt: HostRuntime) {
    let alloc = rt.alloc();
    let mut place = MemberPlace::empty();
    expect_told(&rt, submit(alloc, &mut place, 0), (40, 0));
    expect_told(&rt, submit_batch(alloc, &mut place, 0), (40, 0));
    expect_told(&rt, receive(alloc, &mut place, 2, 1, b"{}"), (40, 0));
    expect_told(&rt, take_own(alloc, &mut place, 1, b"{}"), (40, 0));
    expect_told(&rt, deliver(alloc, &mut place), (40, 0));
    expect_told(&rt, check(alloc, &mut place, b"read"), (40, 0));
    expect_told(&rt, read(alloc, &mut place, 2), (40, 0));
    expect_told(&rt, next_serial(alloc, &mut place), (40, 0));
    expect_waits(&rt, alloc, &mut place, 40, NOTHING);
    assert_eq!(&rt; review(alloc, &mut place, USERS), (40, 0));
    assert_eq!(&rt; subjects(alloc, &mut place, (b"read", b"ledger")), (40, 0));
    assert_eq!(&rt; member_observe(&mut place, alloc, FOUNDING, 3), 301);
    assert_eq!(&rt; member_open(&mut place, alloc, FOUNDING, 3), 301);
    assert_eq!(&rt; member_open(&mut place, alloc, FOUNDING, 2), 0);
    assert_eq!(&rt; member_open(&mut place, alloc, FOUNDING, 2), 41);
    expect_end(&rt, alloc, place);
}

const SENT: &[u8] =
    br#"{"caller":0,"commands":[{"name":"AddUser","user":"ann"}],"serial":0,"stamp":[1,1]}"#;

const RECORD: &[u8] =
    br#"{"answer":"Done","caller":0,"command":{"name":"AddUser","user":"ann"},"serial":0,"stamp":[1,1]}"#;

#[test]
fn two_members_bring_each_other_their_messages(rt: HostRuntime) {
    let alloc = rt.alloc();
    let (mut first, mut second) = (opened(&rt, alloc, 1), opened(&rt, alloc, 2));
    expect_told(&rt, submit(alloc, &mut first, 1), (310, 0));
    expect_told(&rt, submit(alloc, &mut first, 0), (0, 1));
    expect_told(&rt, next_serial(alloc, &mut first), (0, 1));
    expect_message(&rt, alloc, &mut first, 1, SENT);
    let least = MemberWaiting {
        clock: 1,
        member: 1,
        place: 0,
        awaited: 2,
    };
    expect_waits(&rt, alloc, &mut first, 0, least);
    expect_told(&rt, deliver(alloc, &mut first), (0, 0));
    expect_told(&rt, receive(alloc, &mut second, 1, 1, SENT), (0, 1));
    expect_told(&rt, receive(alloc, &mut second, 1, 1, SENT), (305, 2));
    expect_told(&rt, read(alloc, &mut second, 1), (0, 1));
    let answer = br#"{"stamp":[3,2]}"#;
    expect_message(&rt, alloc, &mut second, 1, answer);
    expect_told(&rt, receive(alloc, &mut first, 2, 1, answer), (0, 0));
    expect_waits(
        &rt,
        alloc,
        &mut first,
        0,
        MemberWaiting {
            awaited: 0,
            ..least
        },
    );
    expect_told(&rt, deliver(alloc, &mut first), (0, 1));
    expect_told(&rt, deliver(alloc, &mut second), (0, 1));
    expect_waits(&rt, alloc, &mut first, 0, NOTHING);
    expect_record(&rt, alloc, &mut first, 1, RECORD);
    expect_record(&rt, alloc, &mut second, 1, RECORD);
    expect_dump(
        &rt,
        alloc,
        &mut second,
        b"{\"at\":1,\"command\":{\"name\":\"AddUser\",\"user\":\"ann\"}}\n",
    );
    expect_told(&rt, check(alloc, &mut first, b"read"), (10, 1));
    expect_told(&rt, check(alloc, &mut first, b""), (52, 1));
    expect_end(&rt, alloc, first);
    expect_end(&rt, alloc, second);
}

#[test]
fn a_member_acts_by_its_row(rt: HostRuntime) {
    let alloc = rt.alloc();
    let mut place = opened(&rt, alloc, 1);
    let (mut out, mut written) = ([0; 200], 9);
    let status = member_next_submit(&mut place, alloc, 0, 0, ADD_ANN, &mut out, &mut written);
    expect_text(&rt, status, &out, written, SENT);
    expect_told(&rt, take_own(alloc, &mut place, 1, SENT), (0, 1));
    expect_told(&rt, take_own(alloc, &mut place, 1, SENT), (305, 2));
    let both =
        br#"{"caller":0,"commands":[{"name":"AddUser","user":"ann"},{"name":"AddRole","role":"clerk"}],"serial":1,"stamp":[2,1]}"#;
    let status = member_next_submit_batch(
        &mut place,
        alloc,
        0,
        1,
        TWO_COMMANDS,
        &mut out,
        &mut written,
    );
    expect_text(&rt, status, &out, written, both);
    expect_told(&rt, submit_batch(alloc, &mut place, 1), (0, 2));
    expect_message(&rt, alloc, &mut place, 2, both);
    let theirs =
        br#"{"caller":3,"commands":[{"name":"AddUser","user":"bob"}],"serial":0,"stamp":[5,2]}"#;
    let status = member_next_answer(&mut place, alloc, 2, 1, theirs, &mut out, &mut written);
    let answer = br#"{"stamp":[6,1]}"#;
    expect_text(&rt, status, &out, written, answer);
    expect_told(&rt, take_own(alloc, &mut place, 3, answer), (0, 3));
    expect_told(&rt, receive(alloc, &mut place, 2, 1, theirs), (0, 0));
    let status = member_message(&mut place, alloc, 3, &mut [0; 5], &mut written);
    assert_eq!(&rt; (status, written), (42, 15));
    let status = member_message(&mut place, alloc, 4, &mut out, &mut written);
    assert_eq!(&rt; (status, written), (304, 0));
    expect_end(&rt, alloc, place);
}

#[test]
fn an_observer_follows_and_sends_nothing(rt: HostRuntime) {
    let alloc = rt.alloc();
    let mut place = MemberPlace::empty();
    assert_eq!(&rt; member_observe(&mut place, alloc, FOUNDING, 2), 0);
    assert_eq!(&rt; member_observe(&mut place, alloc, FOUNDING, 2), 41);
    expect_told(&rt, submit(alloc, &mut place, 0), (313, 0));
    expect_told(&rt, submit_batch(alloc, &mut place, 0), (313, 0));
    expect_no_next(&rt, alloc, &mut place);
    expect_told(&rt, receive(alloc, &mut place, 1, 1, b"{}"), (205, 0));
    expect_told(&rt, receive(alloc, &mut place, 1, 2, SENT), (306, 1));
    expect_told(&rt, receive(alloc, &mut place, 1, 1, SENT), (312, 0));
    expect_next_answer(&rt, alloc, &mut place, 1, SENT, 312);
    expect_told(&rt, read(alloc, &mut place, 1), (0, 0));
    let answer = br#"{"stamp":[3,2]}"#;
    expect_told(&rt, take_own(alloc, &mut place, 1, answer), (0, 1));
    expect_next_answer(&rt, alloc, &mut place, 1, SENT, 0);
    expect_next_answer(&rt, alloc, &mut place, 2, SENT, 306);
    expect_told(&rt, receive(alloc, &mut place, 1, 1, SENT), (0, 0));
    expect_told(&rt, deliver(alloc, &mut place), (0, 1));
    expect_record(&rt, alloc, &mut place, 1, RECORD);
    expect_message(&rt, alloc, &mut place, 1, answer);
    let status = member_message(&mut place, alloc, 2, &mut [], &mut 9);
    assert_eq!(&rt; status, 304);
    expect_end(&rt, alloc, place);
}

#[test]
fn reviews_tell_by_the_policy_of_the_history(rt: HostRuntime) {
    let alloc = rt.alloc();
    let mut place = opened(&rt, alloc, 1);
    let no_role = br#"{"denied":"NoRole","number":4}"#;
    expect_review(&rt, alloc, &mut place, USERS, no_role);
    let mut told = 9;
    let status = member_submit(&mut place, alloc, 0, 0, ADD_CLERK, &mut told);
    expect_told(&rt, (status, told), (0, 1));
    let answer = br#"{"stamp":[3,2]}"#;
    expect_told(&rt, receive(alloc, &mut place, 2, 1, answer), (0, 0));
    expect_review(&rt, alloc, &mut place, USERS, no_role);
    expect_told(&rt, deliver(alloc, &mut place), (0, 1));
    expect_review(&rt, alloc, &mut place, USERS, br#"{"names":[]}"#);
    let no_session = br#"{"denied":"NoSession","number":10}"#;
    expect_review(&rt, alloc, &mut place, CHECK, no_session);
    assert_eq!(&rt; review(alloc, &mut place, USERS), (42, 12));
    assert_eq!(&rt; review(alloc, &mut place, ADD_ANN), (314, 0));
    assert_eq!(&rt; review(alloc, &mut place, b"[]"), (203, 0));
    expect_told(&rt, deliver(alloc, &mut place), (0, 0));
    expect_end(&rt, alloc, place);
}

/// What makes a user and a session that may read the ledger.
const CLERK: &[u8] =
    br#"[{"name":"AddUser","user":"ann"},{"name":"AddRole","role":"clerk"},{"name":"GrantPermission","operation":"read","object":"ledger","role":"clerk"},{"name":"AssignUser","user":"ann","role":"clerk"},{"name":"CreateSession","user":"ann","session":"s1","roles":["clerk"]}]"#;

fn deliver_all(rt: &impl Abort, alloc: Global, place: &mut MemberPlace, records: u64) {
    for number in 1..=records {
        expect_told(rt, deliver(alloc, place), (0, number));
    }
}

#[test]
fn who_may_is_told_by_the_policy_of_the_history(rt: HostRuntime) {
    let alloc = rt.alloc();
    let mut place = opened(&rt, alloc, 1);
    let nobody = br#"{"sessions":[],"users":[]}"#;
    expect_subjects(&rt, alloc, &mut place, nobody);
    let mut told = 9;
    let status = member_submit_batch(&mut place, alloc, 0, 0, CLERK, &mut told);
    expect_told(&rt, (status, told), (0, 1));
    let answer = br#"{"stamp":[7,2]}"#;
    expect_told(&rt, receive(alloc, &mut place, 2, 1, answer), (0, 0));
    expect_subjects(&rt, alloc, &mut place, nobody);
    deliver_all(&rt, alloc, &mut place, 5);
    let ann = br#"{"sessions":["s1"],"users":["ann"]}"#;
    expect_subjects(&rt, alloc, &mut place, ann);
    assert_eq!(&rt; subjects(alloc, &mut place, (b"read", b"ledger")), (42, 35));
    assert_eq!(&rt; subjects(alloc, &mut place, (b"fly", b"moon")), (27, 0));
    assert_eq!(&rt; subjects(alloc, &mut place, (b"read", b"moon")), (28, 0));
    assert_eq!(&rt; subjects(alloc, &mut place, (b"read", b"mo on")), (52, 0));
    expect_told(&rt, deliver(alloc, &mut place), (0, 0));
    expect_end(&rt, alloc, place);
}
