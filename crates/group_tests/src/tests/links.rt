//! Each public call of `rbac_links` with ample memory. What is expected was written by hand.

use crate::tests::stamps::{placed, stamp};
use rbac_links::{Inlinks, LinkRefusal, Outbox, OutboxRefusal};
use rbac_words::{Message, Stamp};
use std::process::Abort;

// Member 1 of a group of three.
fn links() -> Inlinks {
    Inlinks::found(1, 3)
}

// Asks whether a message would be taken, and takes it: both give this answer.
fn expect_answer(
    rt: &impl Abort,
    links: &mut Inlinks,
    from: u32,
    number: u32,
    stamp: Stamp,
    wanted: Result<(), LinkRefusal>,
) {
    assert_eq!(rt; links.check(from, number, stamp), wanted);
    assert_eq!(rt; links.accept(from, number, stamp), wanted);
}

// Compares how many messages were taken of a member, and the number of the next one.
fn expect_read(rt: &impl Abort, links: &Inlinks, from: u32, wanted: (u32, u64)) {
    assert_eq!(rt; (links.read(from), links.next(from)), wanted);
}

// Compares the stamps of the last messages that were taken.
fn expect_latest(rt: &impl Abort, links: &Inlinks, wanted: [Option<Stamp>; 3]) {
    assert_eq!(rt; links.latest(), wanted.as_slice());
}

#[test]
fn founds_links_of_which_nothing_was_taken(rt: HostRuntime) {
    let links = links();
    for from in 1..4 {
        expect_read(&rt, &links, from, (0, 1));
    }
    expect_latest(&rt, &links, [None, None, None]);
}

#[test]
fn founds_at_most_eight_links(rt: HostRuntime) {
    let links = Inlinks::found(1, u32::MAX);
    assert_eq!(rt; links.latest().len(), 8);
    expect_read(&rt, &links, 8, (0, 1));
    expect_read(&rt, &links, 9, (0, 0));
}

#[test]
fn takes_messages_in_order(rt: HostRuntime) {
    let mut links = links();
    expect_answer(&rt, &mut links, 3, 1, stamp(5, 3), Ok(()));
    expect_answer(&rt, &mut links, 3, 2, stamp(9, 3), Ok(()));
    expect_read(&rt, &links, 3, (2, 3));
    expect_read(&rt, &links, 2, (0, 1));
    expect_latest(&rt, &links, [None, None, Some(stamp(9, 3))]);
}

#[test]
fn a_stranger_is_named_first(rt: HostRuntime) {
    let mut links = links();
    let unknown = Err(LinkRefusal::UnknownMember);
    for from in [0, 4, u32::MAX] {
        expect_answer(&rt, &mut links, from, 1, stamp(1, from), unknown);
        expect_read(&rt, &links, from, (0, 0));
    }
    let mut foreign = Inlinks::found(4, 3);
    expect_answer(&rt, &mut foreign, 4, 0, stamp(1, 1), unknown);
}

#[test]
fn a_member_takes_nothing_from_itself(rt: HostRuntime) {
    let mut links = links();
    expect_answer(
        &rt,
        &mut links,
        1,
        1,
        stamp(1, 1),
        Err(LinkRefusal::FromSelf),
    );
    expect_answer(
        &rt,
        &mut links,
        1,
        0,
        stamp(1, 2),
        Err(LinkRefusal::FromSelf),
    );
    expect_answer(
        &rt,
        &mut links,
        1,
        u32::MAX,
        stamp(1, 2),
        Err(LinkRefusal::FromSelf),
    );
}

#[test]
fn repeats_and_gaps_come_before_stamps(rt: HostRuntime) {
    let mut links = links();
    expect_answer(&rt, &mut links, 2, 1, stamp(5, 2), Ok(()));
    let repeat = Err(LinkRefusal::Repeat { expected: 2 });
    let gap = Err(LinkRefusal::Gap { expected: 2 });
    expect_answer(&rt, &mut links, 2, 1, stamp(4, 3), repeat);
    expect_answer(&rt, &mut links, 2, 0, stamp(6, 2), repeat);
    expect_answer(&rt, &mut links, 2, 3, stamp(4, 3), gap);
    expect_answer(&rt, &mut links, 2, u32::MAX, stamp(6, 2), gap);
    expect_read(&rt, &links, 2, (1, 2));
}

#[test]
fn stamps_are_the_senders_and_rise(rt: HostRuntime) {
    let mut links = links();
    let fallen = Err(LinkRefusal::StampNotRising);
    expect_answer(&rt, &mut links, 2, 1, stamp(5, 3), fallen);
    expect_answer(&rt, &mut links, 2, 1, placed(5, 2, 1), fallen);
    expect_answer(&rt, &mut links, 2, 1, stamp(5, 2), Ok(()));
    expect_answer(&rt, &mut links, 2, 2, stamp(4, 2), fallen);
    expect_answer(&rt, &mut links, 2, 2, stamp(5, 2), fallen);
    expect_answer(&rt, &mut links, 2, 2, stamp(u64::MAX, 2), Ok(()));
    expect_answer(&rt, &mut links, 2, 3, stamp(u64::MAX, 2), fallen);
    expect_latest(&rt, &links, [None, Some(stamp(u64::MAX, 2)), None]);
}

#[test]
fn the_largest_number_and_stamp(rt: HostRuntime) {
    let mut links = links();
    let largest = placed(u64::MAX, u32::MAX, u32::MAX);
    let unknown = Err(LinkRefusal::UnknownMember);
    expect_answer(&rt, &mut links, u32::MAX, u32::MAX, largest, unknown);
    let itself = Err(LinkRefusal::FromSelf);
    expect_answer(&rt, &mut links, 1, u32::MAX, largest, itself);
    let gap = Err(LinkRefusal::Gap { expected: 1 });
    expect_answer(&rt, &mut links, 2, u32::MAX, largest, gap);
    let fallen = Err(LinkRefusal::StampNotRising);
    expect_answer(&rt, &mut links, 2, 1, largest, fallen);
    expect_answer(&rt, &mut links, 2, 1, stamp(u64::MAX, 2), Ok(()));
    let repeat = Err(LinkRefusal::Repeat { expected: 2 });
    expect_answer(&rt, &mut links, 2, 1, largest, repeat);
}

// Sends an acknowledgement, and compares the number that it gets.
fn expect_sent(rt: &impl Abort, outbox: &mut Outbox, wanted: u32) {
    let number = match outbox.push(Message::Ack {
        stamp: stamp(u64::from(wanted), 1),
    }) {
        Ok(number) => number,
        Err(_) => 0,
    };
    assert_eq!(rt; number, wanted);
}

// Sends one more acknowledgement than may be sent: it is handed back.
fn expect_full(rt: &impl Abort, outbox: &mut Outbox) {
    let refused = match outbox.push(Message::Ack { stamp: stamp(9, 1) }) {
        Ok(_) => None,
        Err((refusal, message)) => Some((refusal, message.stamp())),
    };
    assert!(rt; refused == Some((OutboxRefusal::Full, stamp(9, 1))));
}

// Compares the stamp of the last message, if there is one.
fn expect_last(rt: &impl Abort, outbox: &Outbox, wanted: Option<Stamp>) {
    assert_eq!(rt; outbox.last(), wanted);
}

// Compares the stamp of a message of this number, if there is one.
fn expect_message(rt: &impl Abort, outbox: &Outbox, number: u32, wanted: Option<Stamp>) {
    let found = outbox.get(number).map(|message| message.stamp());
    assert_eq!(rt; found, wanted);
}

#[test]
fn sends_up_to_the_limit(rt: HostRuntime) {
    let mut outbox = Outbox::found(rt.alloc(), 2);
    assert_eq!(rt; outbox.limit(), 2);
    assert_eq!(rt; outbox.make_room(), Ok(()));
    expect_sent(&rt, &mut outbox, 1);
    assert!(rt; !outbox.is_full());
    expect_sent(&rt, &mut outbox, 2);
    assert!(rt; outbox.is_full());
    assert_eq!(rt; outbox.make_room(), Err(OutboxRefusal::Full));
    expect_full(&rt, &mut outbox);
    assert_eq!(rt; outbox.len(), 2);
    assert_eq!(rt; outbox.all().len(), 2);
    drop(outbox);
}

#[test]
fn a_limit_of_none_sends_nothing(rt: HostRuntime) {
    let mut outbox = Outbox::found(rt.alloc(), 0);
    assert!(rt; outbox.is_full());
    expect_full(&rt, &mut outbox);
    drop(outbox);
}

#[test]
fn messages_are_counted_from_one(rt: HostRuntime) {
    let mut outbox = Outbox::found(rt.alloc(), u32::MAX);
    expect_last(&rt, &outbox, None);
    expect_sent(&rt, &mut outbox, 1);
    expect_last(&rt, &outbox, Some(stamp(1, 1)));
    expect_sent(&rt, &mut outbox, 2);
    expect_last(&rt, &outbox, Some(stamp(2, 1)));
    expect_message(&rt, &outbox, 0, None);
    expect_message(&rt, &outbox, 1, Some(stamp(1, 1)));
    expect_message(&rt, &outbox, 2, Some(stamp(2, 1)));
    expect_message(&rt, &outbox, 3, None);
    expect_message(&rt, &outbox, u32::MAX, None);
    drop(outbox);
}
