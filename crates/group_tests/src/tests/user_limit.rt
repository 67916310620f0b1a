//! The limit of users, reached at each of two members of the sample founding. What whole schedules answer is played by the goldens.

use crate::tests::sample::sample_world;
use rbac_words::{Answer, Command, Denial, Name, SharedCommand};
use rbac_world::{Event, World};
use std::alloc::Global;
use std::process::Abort;

fn add_user(rt: &impl Abort, alloc: Global, text: &str) -> Command {
    Command::AddUser {
        user: Name::read(alloc, text.as_bytes()).expect(rt, "a name"),
    }
}

// Steps by an event, which is dropped here, and which is not refused.
fn step(rt: &impl Abort, alloc: Global, world: &mut World, event: Event) {
    let answer = world.step(alloc, &event);
    assert!(rt; answer.is_ok());
    drop(event);
}

// Member 1 submits that the user of this number is added, both members receive what the other one sent upon it, and both deliver.
fn add_numbered_user(rt: &impl Abort, alloc: Global, world: &mut World, number: u32) {
    let user = format!(in alloc; "u{number}").expect(rt, "memory");
    let event = Event::Submit {
        at: 1,
        caller: 0,
        serial: number.saturating_sub(1),
        command: SharedCommand::new(alloc, add_user(rt, alloc, user.as_str())).expect(rt, "memory"),
    };
    drop(user);
    step(rt, alloc, world, event);
    for (at, from) in [(2, 1), (1, 2)] {
        step(rt, alloc, world, Event::Receive { at, from, number });
    }
    for at in [1, 2] {
        step(rt, alloc, world, Event::Deliver { at });
    }
}

// So many commands of a member's history were answered so.
fn expect_count(rt: &impl Abort, world: &World, at: u32, answer: Answer, wanted: usize) {
    let member = world.member(at).expect(rt, "a member");
    let records = member.history().iter();
    let count = records.filter(|record| record.answer.same(&answer)).count();
    assert_eq!(rt; count, wanted);
    drop(answer);
}

// A member has delivered so many commands, and the last of them was answered so.
fn expect_last(rt: &impl Abort, world: &World, at: u32, count: usize, answer: Answer) {
    let member = world.member(at).expect(rt, "a member");
    assert_eq!(rt; member.history().len(), count);
    let record = member.history().last().expect(rt, "a record");
    assert!(rt; record.answer.same(&answer));
    drop(answer);
}

#[test]
fn the_user_past_the_limit_is_denied_at_each_member(rt: HostRuntime) {
    let alloc = rt.alloc();
    let mut world = sample_world(&rt, alloc, 2);
    for number in 1..4_098 {
        add_numbered_user(&rt, alloc, &mut world, number);
    }
    for at in [1, 2] {
        expect_count(&rt, &world, at, Answer::Done, 4_096);
        expect_last(&rt, &world, at, 4_097, Answer::Denied(Denial::Limit));
    }
    drop(world);
}
