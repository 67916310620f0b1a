//! What a member takes of its own row: what it sent before it was lost, and what it is to send. A call changes what its member shows
//! exactly where it is not refused.

use crate::tests::members::{
    call, expect_ack, expect_delivery, expect_receipt, expect_submit, first_of, shared_user,
};
use crate::tests::shown::Shown;
use crate::tests::stamps::stamp;
use rbac_member::{Member, OwnRefusal};
use rbac_words::{Commands, Message, Stamp};
use std::alloc::Global;
use std::process::Abort;

// Takes a message, and compares the answer.
fn expect_taken(
    rt: &impl Abort,
    alloc: Global,
    member: &mut Member,
    number: u32,
    message: Message,
    wanted: Result<(), OwnRefusal>,
) {
    let before = Shown::of(rt, alloc, member);
    let answer = member.take_own(number, message);
    before.expect_left(rt, alloc, member, answer.is_err());
    assert_eq!(rt; answer, wanted);
}

// Takes an acknowledgement, and compares the answer.
fn expect_own_ack(
    rt: &impl Abort,
    alloc: Global,
    member: &mut Member,
    number: u32,
    stamp: Stamp,
    wanted: Result<(), OwnRefusal>,
) {
    expect_taken(rt, alloc, member, number, Message::Ack { stamp }, wanted);
}

#[test]
fn goes_on_where_its_row_ends(rt: HostRuntime) {
    let alloc = rt.alloc();
    let mut member = first_of(&rt, alloc, 1, 0, 3);
    let command = call(&rt, alloc, stamp(1, 1), 0);
    expect_taken(&rt, alloc, &mut member, 1, command, Ok(()));
    expect_own_ack(&rt, alloc, &mut member, 2, stamp(5, 1), Ok(()));
    assert_eq!(rt; (member.clock(), member.next_serial(0)), (5, 1));
    expect_submit(&rt, alloc, &mut member, 1, Ok(stamp(6, 1)));
    expect_delivery(&rt, alloc, &mut member, Some(0));
    expect_delivery(&rt, alloc, &mut member, Some(1));
    let full = Err(OwnRefusal::SentFull);
    expect_own_ack(&rt, alloc, &mut member, 4, stamp(7, 1), full);
    drop(member);
}

#[test]
fn watches_and_sends_nothing(rt: HostRuntime) {
    let alloc = rt.alloc();
    let mut member = first_of(&rt, alloc, 2, 0, 3);
    expect_own_ack(&rt, alloc, &mut member, 1, stamp(3, 1), Ok(()));
    let command = call(&rt, alloc, stamp(1, 2), 0);
    expect_receipt(&rt, alloc, &mut member, (2, 1), command, Ok(None));
    expect_delivery(&rt, alloc, &mut member, Some(0));
    // Its clock is above the next of its row, which it takes all the same.
    expect_ack(&rt, alloc, &mut member, 2, stamp(9, 2), Ok(None));
    let own = call(&rt, alloc, stamp(4, 1), 0);
    expect_taken(&rt, alloc, &mut member, 2, own, Ok(()));
    assert_eq!(rt;
        (member.clock(), member.least_held()),
        (10, Some(stamp(4, 1)))
    );
    assert!(rt; member.has_passed(2, stamp(4, 1)) && !member.has_passed(2, stamp(9, 2)));
    expect_delivery(&rt, alloc, &mut member, Some(1));
    assert_eq!(rt; (member.least_held(), member.members()), (None, 2));
    drop(member);
}

#[test]
fn refuses_what_is_not_next_of_its_row(rt: HostRuntime) {
    let alloc = rt.alloc();
    let mut member = first_of(&rt, alloc, 2, 0, 3);
    let refused = [
        (0, stamp(3, 1), OwnRefusal::Repeat { expected: 1 }),
        (2, stamp(3, 1), OwnRefusal::Gap { expected: 1 }),
        (1, stamp(3, 2), OwnRefusal::StampNotRising),
        (1, stamp(9_007_199_254_740_992, 1), OwnRefusal::ClockFull),
    ];
    for (number, stamp, refusal) in refused {
        expect_own_ack(&rt, alloc, &mut member, number, stamp, Err(refusal));
    }
    let later = call(&rt, alloc, stamp(3, 1), 1);
    let bad_serial = Err(OwnRefusal::BadSerial { next: 0 });
    expect_taken(&rt, alloc, &mut member, 1, later, bad_serial);
    let none = Message::Batch {
        stamp: stamp(3, 1),
        caller: 0,
        serial: 0,
        commands: Commands::of(Vec::new(alloc)).expect(&rt, "memory"),
    };
    let bad_batch = Err(OwnRefusal::BadBatch);
    expect_taken(&rt, alloc, &mut member, 1, none, bad_batch);
    expect_own_ack(&rt, alloc, &mut member, 1, stamp(3, 1), Ok(()));
    let same = Err(OwnRefusal::StampNotRising);
    expect_own_ack(&rt, alloc, &mut member, 2, stamp(3, 1), same);
    drop(member);
}

#[test]
fn acts_by_its_row(rt: HostRuntime) {
    let alloc = rt.alloc();
    let mut member = first_of(&rt, alloc, 2, 0, 5);
    let brought = call(&rt, alloc, stamp(1, 2), 0);
    // The acknowledgement first, and then the message.
    assert_eq!(rt; member.first_answer(2, 1, &brought), Ok(Some(stamp(2, 1))));
    expect_own_ack(&rt, alloc, &mut member, 1, stamp(2, 1), Ok(()));
    assert_eq!(rt; member.first_answer(2, 1, &brought), Ok(None));
    expect_receipt(&rt, alloc, &mut member, (2, 1), brought, Ok(None));
    assert_eq!(rt; member.clock(), 3);
    // A submit by the row.
    let next = member.next_batch(0, 0, Commands::one(shared_user(&rt, alloc)));
    let next = next.expect(&rt, "a message");
    assert_eq!(rt; next.stamp(), stamp(4, 1));
    expect_taken(&rt, alloc, &mut member, 2, next, Ok(()));
    expect_delivery(&rt, alloc, &mut member, Some(0));
    drop(member);
}
