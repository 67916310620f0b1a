//! Members of `rbac_member`: what is submitted, received and refused. A call changes what its member shows exactly where it is not
//! refused. Members and messages end in `drop`, since the proof of a value that goes out of scope writes its drop out in place, a case for
//! each variant.

use crate::tests::shown::Shown;
use crate::tests::stamps::{placed, stamp};
use rbac_member::{FoundRefusal, Member, ReceiveRefusal, SubmitRefusal};
use rbac_words::{
    Answer, Command, Commands, Denial, Group, Message, Name, SharedCommand, Stamp, Vocabulary,
};
use std::alloc::Global;
use std::process::Abort;

pub(crate) fn add_user(rt: &impl Abort, alloc: Global) -> Command {
    Command::AddUser {
        user: Name::read(alloc, b"ann").expect(rt, "a name"),
    }
}

pub(crate) fn shared_user(rt: &impl Abort, alloc: Global) -> SharedCommand {
    SharedCommand::new(alloc, add_user(rt, alloc)).expect(rt, "memory")
}

// A command of caller 0 as another member sends it.
pub(crate) fn call(rt: &impl Abort, alloc: Global, stamp: Stamp, serial: u32) -> Message {
    Message::Batch {
        stamp,
        caller: 0,
        serial,
        commands: Commands::one(shared_user(rt, alloc)),
    }
}

// So many times ann.
fn users(rt: &impl Abort, alloc: Global, count: usize) -> Vec<Command> {
    let mut commands = Vec::new(alloc);
    for _ in 0..count {
        commands.push(add_user(rt, alloc)).expect(rt, "memory");
    }
    commands
}

// Commands of caller 0 as another member sends them together.
fn batch(rt: &impl Abort, alloc: Global, stamp: Stamp, serial: u32, count: usize) -> Message {
    Message::Batch {
        stamp,
        caller: 0,
        serial,
        commands: Commands::of(users(rt, alloc, count)).expect(rt, "memory"),
    }
}

// Submits so many commands of caller 0 together, and compares the answer.
fn expect_batch(
    rt: &impl Abort,
    alloc: Global,
    member: &mut Member,
    (serial, count): (u32, usize),
    wanted: Result<Stamp, SubmitRefusal>,
) {
    let before = Shown::of(rt, alloc, member);
    let answer = member.submit_batch(0, serial, users(rt, alloc, count));
    before.expect_left(rt, alloc, member, answer.is_err());
    assert_eq!(rt; answer, wanted);
}

// Member 1 of a group of so many, whose clock starts here and which may send so much.
pub(crate) fn first_of(
    rt: &impl Abort,
    alloc: Global,
    members: u32,
    clock: u64,
    sent_limit: u32,
) -> Member {
    let group = Group::build(members, clock, sent_limit).expect(rt, "a group");
    let vocabulary = Vocabulary::build(Vec::new(alloc), Vec::new(alloc), Vec::new(alloc));
    Member::found(alloc, group, 1, vocabulary.expect(rt, "a vocabulary")).expect(rt, "a member")
}

// Submits that ann is added, and compares the answer.
pub(crate) fn expect_submit(
    rt: &impl Abort,
    alloc: Global,
    member: &mut Member,
    serial: u32,
    wanted: Result<Stamp, SubmitRefusal>,
) {
    let before = Shown::of(rt, alloc, member);
    let answer = member.submit(0, serial, add_user(rt, alloc));
    let answer = answer.map(|submission| submission.stamp);
    before.expect_left(rt, alloc, member, answer.is_err());
    assert_eq!(rt; answer, wanted);
}

// Receives a message, which is dropped here, and compares the answer.
pub(crate) fn expect_receipt(
    rt: &impl Abort,
    alloc: Global,
    member: &mut Member,
    (from, number): (u32, u32),
    message: Message,
    wanted: Result<Option<Stamp>, ReceiveRefusal>,
) {
    let before = Shown::of(rt, alloc, member);
    let answer = member.receive(from, number, &message);
    drop(message);
    before.expect_left(rt, alloc, member, answer.is_err());
    assert_eq!(rt; answer, wanted);
}

// Receives an acknowledgement, and compares the answer.
pub(crate) fn expect_ack(
    rt: &impl Abort,
    alloc: Global,
    member: &mut Member,
    number: u32,
    stamp: Stamp,
    wanted: Result<Option<Stamp>, ReceiveRefusal>,
) {
    let message = Message::Ack { stamp };
    expect_receipt(rt, alloc, member, (2, number), message, wanted);
}

// Delivers, and compares the place that it answers.
pub(crate) fn expect_delivery(
    rt: &impl Abort,
    alloc: Global,
    member: &mut Member,
    wanted: Option<usize>,
) {
    let before = Shown::of(rt, alloc, member);
    let place = member.deliver(alloc).expect(rt, "memory");
    before.expect_left(rt, alloc, member, place.is_none());
    assert_eq!(rt; place, wanted);
}

// Compares a record of the history.
fn expect_record(rt: &impl Abort, member: &Member, place: usize, wanted: Stamp, answer: Answer) {
    let record = member.history().get(place).expect(rt, "a record");
    assert_eq!(rt; record.stamp, wanted);
    assert!(rt; record.answer.same(&answer));
    drop(answer);
}

#[test]
fn founds_a_member_with_no_past(rt: HostRuntime) {
    let member = first_of(&rt, rt.alloc(), 2, 7, 5);
    assert_eq!(rt;
        (member.number(), member.clock(), member.read(2)),
        (1, 7, 0)
    );
    assert!(rt; member.sent().is_empty() && member.history().is_empty());
    member.invariants();
    drop(member);
}

#[test]
fn founds_no_stranger(rt: HostRuntime) {
    let alloc = rt.alloc();
    let group = Group::build(1, 0, 5).expect(&rt, "a group");
    let vocabulary = Vocabulary::build(Vec::new(alloc), Vec::new(alloc), Vec::new(alloc));
    let stranger = Member::found(alloc, group, 2, vocabulary.expect(&rt, "a vocabulary"));
    assert!(rt; matches!(stranger, Err(FoundRefusal::UnknownMember)));
}

#[test]
fn submits_in_turn(rt: HostRuntime) {
    let alloc = rt.alloc();
    let mut member = first_of(&rt, alloc, 1, 0, 2);
    let next = SubmitRefusal::BadSerial { next: 0 };
    expect_submit(&rt, alloc, &mut member, 1, Err(next));
    expect_submit(&rt, alloc, &mut member, 0, Ok(stamp(1, 1)));
    expect_submit(&rt, alloc, &mut member, 1, Ok(stamp(2, 1)));
    expect_submit(&rt, alloc, &mut member, 9, Err(SubmitRefusal::SentFull));
    let last = member.sent().last().expect(&rt, "a message");
    assert_eq!(rt; last.stamp(), stamp(2, 1));
    drop(member);
}

#[test]
fn submits_a_copy(rt: HostRuntime) {
    let alloc = rt.alloc();
    let mut member = first_of(&rt, alloc, 1, 0, 5);
    let command = shared_user(&rt, alloc);
    let copied = member.submit_copy(7, 0, &command);
    drop(command);
    assert_eq!(rt; copied, Ok(stamp(1, 1)));
    expect_delivery(&rt, alloc, &mut member, Some(0));
    expect_record(&rt, &member, 0, stamp(1, 1), Answer::Done);
    drop(member);
}

#[test]
fn names_a_full_clock_first(rt: HostRuntime) {
    let alloc = rt.alloc();
    let mut late = first_of(&rt, alloc, 2, 9_007_199_254_740_990, 1);
    let last = stamp(9_007_199_254_740_991, 1);
    expect_submit(&rt, alloc, &mut late, 0, Ok(last));
    expect_submit(&rt, alloc, &mut late, 9, Err(SubmitRefusal::ClockFull));
    let wanted = Err(ReceiveRefusal::ClockFull);
    expect_ack(&rt, alloc, &mut late, 1, stamp(1, 2), wanted);
    drop(late);
}

#[test]
fn receives_acknowledgements_that_rise(rt: HostRuntime) {
    let alloc = rt.alloc();
    let mut member = first_of(&rt, alloc, 2, 0, 5);
    let falls = Err(ReceiveRefusal::StampNotRising);
    expect_ack(&rt, alloc, &mut member, 1, stamp(5, 2), Ok(None));
    assert_eq!(rt; member.clock(), 6);
    expect_ack(&rt, alloc, &mut member, 2, stamp(5, 2), falls);
    expect_ack(&rt, alloc, &mut member, 2, stamp(6, 3), falls);
    expect_ack(&rt, alloc, &mut member, 2, stamp(7, 2), Ok(None));
    assert_eq!(rt; (member.clock(), member.read(2), member.read(1)), (8, 2, 0));
    drop(member);
}

#[test]
fn a_serial_out_of_turn_is_refused_after_acknowledgements(rt: HostRuntime) {
    let alloc = rt.alloc();
    let mut member = first_of(&rt, alloc, 2, 0, 5);
    expect_ack(&rt, alloc, &mut member, 1, stamp(5, 2), Ok(None));
    expect_ack(&rt, alloc, &mut member, 2, stamp(7, 2), Ok(None));
    let second = call(&rt, alloc, stamp(9, 2), 1);
    let next = ReceiveRefusal::BadSerial { next: 0 };
    expect_receipt(&rt, alloc, &mut member, (2, 3), second, Err(next));
    let first = call(&rt, alloc, stamp(9, 2), 0);
    expect_receipt(
        &rt,
        alloc,
        &mut member,
        (2, 3),
        first,
        Ok(Some(stamp(11, 1))),
    );
    drop(member);
}

#[test]
fn a_full_member_takes_an_acknowledgement(rt: HostRuntime) {
    let alloc = rt.alloc();
    let mut member = first_of(&rt, alloc, 2, 0, 1);
    expect_submit(&rt, alloc, &mut member, 0, Ok(stamp(1, 1)));
    expect_delivery(&rt, alloc, &mut member, None);
    expect_ack(&rt, alloc, &mut member, 1, stamp(3, 2), Ok(None));
    assert_eq!(rt; (member.clock(), member.sent().len()), (4, 1));
    expect_delivery(&rt, alloc, &mut member, Some(0));
    drop(member);
}

#[test]
fn receives_the_next_number_of_another_member(rt: HostRuntime) {
    let alloc = rt.alloc();
    let mut member = first_of(&rt, alloc, 2, 0, 5);
    let gap = ReceiveRefusal::Gap { expected: 1 };
    expect_ack(&rt, alloc, &mut member, 2, stamp(5, 2), Err(gap));
    expect_ack(&rt, alloc, &mut member, 1, stamp(5, 2), Ok(None));
    let repeat = ReceiveRefusal::Repeat { expected: 2 };
    expect_ack(&rt, alloc, &mut member, 1, stamp(5, 2), Err(repeat));
    for (from, wanted) in [
        (1, ReceiveRefusal::FromSelf),
        (3, ReceiveRefusal::UnknownMember),
    ] {
        let message = Message::Ack { stamp: stamp(9, 2) };
        expect_receipt(&rt, alloc, &mut member, (from, 2), message, Err(wanted));
    }
    drop(member);
}

#[test]
fn acknowledges_a_command_and_holds_it(rt: HostRuntime) {
    let alloc = rt.alloc();
    let mut member = first_of(&rt, alloc, 2, 0, 5);
    let first = call(&rt, alloc, stamp(9, 2), 1);
    let next = ReceiveRefusal::BadSerial { next: 0 };
    expect_receipt(&rt, alloc, &mut member, (2, 1), first, Err(next));
    let first = call(&rt, alloc, stamp(9, 2), 0);
    expect_receipt(
        &rt,
        alloc,
        &mut member,
        (2, 1),
        first,
        Ok(Some(stamp(11, 1))),
    );
    expect_delivery(&rt, alloc, &mut member, Some(0));
    expect_record(&rt, &member, 0, stamp(9, 2), Answer::Done);
    let again = call(&rt, alloc, stamp(12, 2), 0);
    let next = ReceiveRefusal::BadSerial { next: 1 };
    expect_receipt(&rt, alloc, &mut member, (2, 2), again, Err(next));
    drop(member);
}

#[test]
fn acknowledges_nothing_needless(rt: HostRuntime) {
    let alloc = rt.alloc();
    let mut member = first_of(&rt, alloc, 2, 0, 2);
    let first = call(&rt, alloc, stamp(9, 2), 0);
    expect_receipt(
        &rt,
        alloc,
        &mut member,
        (2, 1),
        first,
        Ok(Some(stamp(11, 1))),
    );
    let second = call(&rt, alloc, stamp(10, 2), 1);
    expect_receipt(&rt, alloc, &mut member, (2, 2), second, Ok(None));
    assert_eq!(rt; (member.clock(), member.sent().len()), (12, 1));
    let third = call(&rt, alloc, stamp(11, 2), 2);
    expect_receipt(
        &rt,
        alloc,
        &mut member,
        (2, 3),
        third,
        Ok(Some(stamp(14, 1))),
    );
    expect_delivery(&rt, alloc, &mut member, Some(0));
    expect_delivery(&rt, alloc, &mut member, Some(1));
    expect_delivery(&rt, alloc, &mut member, Some(2));
    expect_record(
        &rt,
        &member,
        2,
        stamp(11, 2),
        Answer::Denied(Denial::UserExists),
    );
    drop(member);
}

#[test]
fn a_full_member_takes_what_it_need_not_acknowledge(rt: HostRuntime) {
    let alloc = rt.alloc();
    let mut member = first_of(&rt, alloc, 2, 0, 2);
    expect_submit(&rt, alloc, &mut member, 0, Ok(stamp(1, 1)));
    expect_submit(&rt, alloc, &mut member, 1, Ok(stamp(2, 1)));
    let first = call(&rt, alloc, stamp(1, 2), 0);
    expect_receipt(&rt, alloc, &mut member, (2, 1), first, Ok(None));
    let second = call(&rt, alloc, stamp(2, 2), 1);
    let full = Err(ReceiveRefusal::SentFull);
    expect_receipt(&rt, alloc, &mut member, (2, 2), second, full);
    assert_eq!(rt; (member.clock(), member.read(2)), (3, 1));
    drop(member);
}

#[test]
fn a_clock_at_its_end_takes_one_step_for_what_is_not_acknowledged(rt: HostRuntime) {
    let alloc = rt.alloc();
    let mut member = first_of(&rt, alloc, 2, 9_007_199_254_740_989, 2);
    let own = stamp(9_007_199_254_740_990, 1);
    expect_submit(&rt, alloc, &mut member, 0, Ok(own));
    let first = call(&rt, alloc, stamp(9_007_199_254_740_988, 2), 0);
    expect_receipt(&rt, alloc, &mut member, (2, 1), first, Ok(None));
    assert_eq!(rt; member.clock(), 9_007_199_254_740_991);
    let full = Err(ReceiveRefusal::ClockFull);
    let second = call(&rt, alloc, stamp(9_007_199_254_740_989, 2), 1);
    expect_receipt(&rt, alloc, &mut member, (2, 2), second, full);
    drop(member);
}

#[test]
fn delivers_in_stamp_order_when_all_have_passed(rt: HostRuntime) {
    let alloc = rt.alloc();
    let mut member = first_of(&rt, alloc, 2, 0, 5);
    expect_submit(&rt, alloc, &mut member, 0, Ok(stamp(1, 1)));
    expect_delivery(&rt, alloc, &mut member, None);
    let theirs = call(&rt, alloc, stamp(1, 2), 0);
    expect_receipt(
        &rt,
        alloc,
        &mut member,
        (2, 1),
        theirs,
        Ok(Some(stamp(3, 1))),
    );
    expect_delivery(&rt, alloc, &mut member, Some(0));
    expect_delivery(&rt, alloc, &mut member, Some(1));
    expect_delivery(&rt, alloc, &mut member, None);
    let denied = Answer::Denied(Denial::UserExists);
    expect_record(&rt, &member, 0, stamp(1, 1), Answer::Done);
    expect_record(&rt, &member, 1, stamp(1, 2), denied);
    let next = SubmitRefusal::BadSerial { next: 1 };
    expect_submit(&rt, alloc, &mut member, 0, Err(next));
    drop(member);
}

#[test]
fn submits_a_batch(rt: HostRuntime) {
    let alloc = rt.alloc();
    let mut member = first_of(&rt, alloc, 1, 0, 5);
    expect_batch(&rt, alloc, &mut member, (0, 3), Ok(stamp(1, 1)));
    expect_submit(&rt, alloc, &mut member, 3, Ok(stamp(2, 1)));
    assert_eq!(rt; (member.clock(), member.sent().len()), (2, 2));
    for place in [Some(0), Some(1), Some(2), Some(3), None] {
        expect_delivery(&rt, alloc, &mut member, place);
    }
    expect_record(&rt, &member, 0, stamp(1, 1), Answer::Done);
    let exists = Answer::Denied(Denial::UserExists);
    expect_record(&rt, &member, 2, placed(1, 1, 2), exists);
    drop(member);
}

// Each is refused by the next check too.
#[test]
fn refuses_what_is_no_batch(rt: HostRuntime) {
    let alloc = rt.alloc();
    let mut full = first_of(&rt, alloc, 1, 9_007_199_254_740_991, 1);
    let bad = Err(SubmitRefusal::BadBatch);
    expect_batch(&rt, alloc, &mut full, (9, 0), bad);
    expect_batch(&rt, alloc, &mut full, (9, 65), bad);
    expect_batch(&rt, alloc, &mut full, (4_294_967_295, 2), bad);
    let late = Err(SubmitRefusal::ClockFull);
    expect_batch(&rt, alloc, &mut full, (4_294_967_295, 1), late);
    expect_batch(&rt, alloc, &mut full, (9, 64), late);
    drop(full);
}

#[test]
fn submits_copies_of_a_batch(rt: HostRuntime) {
    let alloc = rt.alloc();
    let mut member = first_of(&rt, alloc, 1, 0, 5);
    let commands = Commands::of(users(&rt, alloc, 2)).expect(&rt, "memory");
    let first = member.submit_batch_copy(0, 0, &commands);
    let before = Shown::of(&rt, alloc, &mut member);
    let again = member.submit_batch_copy(0, 1, &commands);
    drop(commands);
    before.expect_left(&rt, alloc, &mut member, true);
    assert_eq!(rt; first, Ok(stamp(1, 1)));
    assert_eq!(rt; again, Err(SubmitRefusal::BadSerial { next: 2 }));
    drop(member);
}

#[test]
fn receives_a_batch_whole(rt: HostRuntime) {
    let alloc = rt.alloc();
    let mut member = first_of(&rt, alloc, 2, 0, 5);
    let three = batch(&rt, alloc, stamp(4, 2), 0, 3);
    expect_receipt(
        &rt,
        alloc,
        &mut member,
        (2, 1),
        three,
        Ok(Some(stamp(6, 1))),
    );
    expect_ack(&rt, alloc, &mut member, 2, stamp(7, 2), Ok(None));
    for place in [Some(0), Some(1), Some(2), None] {
        expect_delivery(&rt, alloc, &mut member, place);
    }
    drop(member);
}

// A message of member 2 is refused so, by a member whose clock is full and that has read nothing.
fn expect_refused_receipt(
    rt: &impl Abort,
    alloc: Global,
    number: u32,
    message: Message,
    refusal: ReceiveRefusal,
) {
    let mut full = first_of(rt, alloc, 2, 9_007_199_254_740_991, 5);
    expect_receipt(rt, alloc, &mut full, (2, number), message, Err(refusal));
    drop(full);
}

// Each is refused by the next check too.
#[test]
fn receives_nothing_that_is_no_batch(rt: HostRuntime) {
    let alloc = rt.alloc();
    let gap = ReceiveRefusal::Gap { expected: 1 };
    let none = batch(&rt, alloc, stamp(4, 2), 9, 0);
    expect_refused_receipt(&rt, alloc, 2, none, gap);
    let foreign = batch(&rt, alloc, stamp(4, 3), 9, 65);
    expect_refused_receipt(&rt, alloc, 1, foreign, ReceiveRefusal::StampNotRising);
    let later = batch(&rt, alloc, placed(4, 2, 1), 9, 65);
    expect_refused_receipt(&rt, alloc, 1, later, ReceiveRefusal::StampNotRising);
    for (serial, count) in [(9, 0), (9, 65), (4_294_967_295, 2)] {
        let bad = batch(&rt, alloc, stamp(4, 2), serial, count);
        expect_refused_receipt(&rt, alloc, 1, bad, ReceiveRefusal::BadBatch);
    }
    let late = batch(&rt, alloc, stamp(4, 2), 9, 64);
    expect_refused_receipt(&rt, alloc, 1, late, ReceiveRefusal::ClockFull);
}
