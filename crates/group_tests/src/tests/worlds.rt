//! Worlds of `rbac_world`: what each event does, and what refused ones leave.
use crate::tests::records::expect_record;
use crate::tests::sample::sample_world;
use crate::tests::stamps::stamp;
use rbac_words::{Answer, Command, Denial, Group, Name, SharedCommand, Vocabulary};
use rbac_world::{Event, Outcome, Refusal, World, play};
use std::alloc::Global;
use std::process::Abort;

fn founded(rt: &impl Abort, alloc: Global, members: u32, sent_limit: u32) -> World {
    let group = Group::build(members, 0, sent_limit).expect(rt, "a group");
    let vocabulary = Vocabulary::build(Vec::new(alloc), Vec::new(alloc), Vec::new(alloc));
    World::found(alloc, group, vocabulary.expect(rt, "a vocabulary")).expect(rt, "a world")
}

fn shared(rt: &impl Abort, alloc: Global, command: Command) -> SharedCommand {
    SharedCommand::new(alloc, command).expect(rt, "memory")
}

// Caller 0 of a member adds a role.
fn submit(rt: &impl Abort, alloc: Global, at: u32, serial: u32) -> Event {
    let role = Name::read(alloc, b"r").expect(rt, "a name");
    Event::Submit {
        at,
        caller: 0,
        serial,
        command: shared(rt, alloc, Command::AddRole { role }),
    }
}

// Caller 0 of a member adds ann, by its first command.
fn add_ann(rt: &impl Abort, alloc: Global, at: u32) -> Event {
    let user = Name::read(alloc, b"ann").expect(rt, "a name");
    Event::Submit {
        at,
        caller: 0,
        serial: 0,
        command: shared(rt, alloc, Command::AddUser { user }),
    }
}

fn receive(at: u32, from: u32, number: u32) -> Event {
    Event::Receive { at, from, number }
}

fn received(clock: u64, member: u32) -> Result<Outcome, Refusal> {
    Ok(Outcome::Received(Some(stamp(clock, member))))
}

fn delivered(place: Option<usize>) -> Result<Outcome, Refusal> {
    Ok(Outcome::Delivered(place))
}

// Steps by an event, which is dropped here, and compares the answer.
fn expect(
    rt: &impl Abort,
    alloc: Global,
    world: &mut World,
    event: Event,
    wanted: Result<Outcome, Refusal>,
) {
    let answer = world.step(alloc, &event);
    drop(event);
    assert_eq!(rt; answer, wanted);
}

// Member 1 delivers, and the place is compared.
fn expect_delivery(rt: &impl Abort, alloc: Global, world: &mut World, place: Option<usize>) {
    let event = Event::Deliver { at: 1 };
    expect(rt, alloc, world, event, delivered(place));
}

// Members 1 and 2 submit at once.
fn submit_at_both(rt: &impl Abort, alloc: Global, world: &mut World) {
    for at in [1, 2] {
        let wanted = Ok(Outcome::Submitted(stamp(1, at)));
        expect(rt, alloc, world, submit(rt, alloc, at, 0), wanted);
    }
}

#[test]
fn delivers_in_stamp_order_at_each_member(rt: HostRuntime) {
    let alloc = rt.alloc();
    let mut world = founded(&rt, alloc, 2, 5);
    submit_at_both(&rt, alloc, &mut world);
    assert!(rt; !world.read_to_end());
    expect(&rt, alloc, &mut world, receive(1, 2, 1), received(3, 1));
    for place in [Some(0), Some(1), None] {
        expect_delivery(&rt, alloc, &mut world, place);
    }
    let denied = Answer::Denied(Denial::RoleExists);
    expect_record(&rt, &world, 1, 0, stamp(1, 1), Answer::Done);
    expect_record(&rt, &world, 1, 1, stamp(1, 2), denied);
    world.right_histories();
    world.histories_are_one();
    drop(world);
}

// Plays events, and compares what they answer.
fn expect_play(
    rt: &impl Abort,
    alloc: Global,
    world: &mut World,
    events: &[Event],
    wanted: &[Result<Outcome, Refusal>],
) {
    let outcomes = play(world, alloc, events).expect(rt, "memory");
    assert!(rt; outcomes.as_slice() == wanted);
    drop(outcomes);
}

// A member's clock is here.
fn expect_clock(rt: &impl Abort, world: &World, at: u32, wanted: u64) {
    let member = world.member(at).expect(rt, "a member");
    assert_eq!(rt; member.clock(), wanted);
}

// Both of two members add ann at once.
fn add_ann_at_both(rt: &impl Abort, alloc: Global, world: &mut World) {
    let events = [add_ann(rt, alloc, 1), add_ann(rt, alloc, 2)];
    let wanted = [
        Ok(Outcome::Submitted(stamp(1, 1))),
        Ok(Outcome::Submitted(stamp(1, 2))),
    ];
    expect_play(rt, alloc, world, &events, &wanted);
    drop(events);
}

// Each message is received by the other one: member 2 need not acknowledge what comes before its own command.
fn read_all(rt: &impl Abort, alloc: Global, world: &mut World) {
    let events = [
        receive(1, 2, 1),
        receive(2, 1, 1),
        receive(1, 2, 2),
        receive(2, 1, 2),
    ];
    let wanted = [
        received(3, 1),
        Ok(Outcome::Received(None)),
        Err(Refusal::NotSent),
        Ok(Outcome::Received(None)),
    ];
    expect_play(rt, alloc, world, &events, &wanted);
    drop(events);
}

// A member delivers three times: the command of the smaller stamp is done, the other one denied, and there is no third.
fn deliver_all(rt: &impl Abort, alloc: Global, world: &mut World, at: u32, denial: Denial) {
    let events = [
        Event::Deliver { at },
        Event::Deliver { at },
        Event::Deliver { at },
    ];
    let wanted = [delivered(Some(0)), delivered(Some(1)), delivered(None)];
    expect_play(rt, alloc, world, &events, &wanted);
    drop(events);
    expect_record(rt, world, at, 0, stamp(1, 1), Answer::Done);
    expect_record(rt, world, at, 1, stamp(1, 2), Answer::Denied(denial));
}

#[test]
fn plays_events_until_all_is_read(rt: HostRuntime) {
    let alloc = rt.alloc();
    let mut world = sample_world(&rt, alloc, 2);
    add_ann_at_both(&rt, alloc, &mut world);
    assert!(rt; !world.read_to_end());
    read_all(&rt, alloc, &mut world);
    assert!(rt; world.read_to_end());
    expect_clock(&rt, &world, 2, 4);
    deliver_all(&rt, alloc, &mut world, 1, Denial::UserExists);
    deliver_all(&rt, alloc, &mut world, 2, Denial::UserExists);
    world.all_that_was_read_is_delivered();
    drop(world);
}

// Two members of three submit at once. Member 1 hears the others one after the other, and delivers nothing before it has heard both.
fn hear_the_others(rt: &impl Abort, alloc: Global, world: &mut World) {
    let events = [
        submit(rt, alloc, 1, 0),
        submit(rt, alloc, 2, 0),
        receive(1, 2, 1),
        Event::Deliver { at: 1 },
        receive(3, 1, 1),
        receive(1, 3, 1),
    ];
    let wanted = [
        Ok(Outcome::Submitted(stamp(1, 1))),
        Ok(Outcome::Submitted(stamp(1, 2))),
        received(3, 1),
        delivered(None),
        received(3, 3),
        Ok(Outcome::Received(None)),
    ];
    expect_play(rt, alloc, world, &events, &wanted);
    drop(events);
}

#[test]
fn waits_for_the_third_member(rt: HostRuntime) {
    let alloc = rt.alloc();
    let mut world = sample_world(&rt, alloc, 3);
    hear_the_others(&rt, alloc, &mut world);
    expect_clock(&rt, &world, 1, 4);
    deliver_all(&rt, alloc, &mut world, 1, Denial::RoleExists);
    drop(world);
}

#[test]
fn names_the_first_refusal(rt: HostRuntime) {
    let alloc = rt.alloc();
    let mut world = founded(&rt, alloc, 2, 1);
    for (at, from, number, wanted) in [
        (9, 9, 0, Refusal::UnknownMember),
        (1, 0, 0, Refusal::UnknownMember),
        (1, 1, 0, Refusal::FromSelf),
        (1, 2, 0, Refusal::NotSent),
        (1, 2, 1, Refusal::NotSent),
    ] {
        let event = receive(at, from, number);
        expect(&rt, alloc, &mut world, event, Err(wanted));
    }
    let unknown = Err(Refusal::UnknownMember);
    let event = Event::Deliver { at: 3 };
    expect(&rt, alloc, &mut world, event, unknown);
    let event = submit(&rt, alloc, 3, 1);
    expect(&rt, alloc, &mut world, event, unknown);
    let serial = Err(Refusal::BadSerial { next: 0 });
    let event = submit(&rt, alloc, 1, 1);
    expect(&rt, alloc, &mut world, event, serial);
    drop(world);
}

#[test]
fn shows_no_stranger(rt: HostRuntime) {
    let world = founded(&rt, rt.alloc(), 8, 1);
    assert!(rt; world.member(0).is_none() && world.member(9).is_none());
    let last = world.member(8).expect(&rt, "the last member");
    assert_eq!(rt; last.number(), 8);
    drop(world);
}
