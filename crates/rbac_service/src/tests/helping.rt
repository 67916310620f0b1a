//! Who has published takes the turns of members whose threads run, where their locks are free. The threads of these tests are marked
//! as running and never do: what is answered was answered by who submitted.
ghost use Rattle.std.specs.Prelude.{◌≡◌, length};

use super::hints::told;
use super::{
    Founding, Lost, add_ann, expect_no_record, expect_record, founded, founding_of, new_pass,
    submitted,
};
use crate::{GroupName, NoGate, Service};
use rbac_words::{Answer, Denial};
use std::alloc::Global;
use std::marker::Brand;
use std::process::Abort;
use std::sync::Wait;

// Marks a thread of a member as running.
fn begin<G: GroupName>(rt: &impl Abort, service: &Service<G, NoGate, Lost>, at: u32) {
    service.slot(at).expect(rt, "a member").begin_pump();
}

// A new caller of a member submits a command.
fn submit_at<G: GroupName, R: Wait + Abort>(
    rt: &R,
    alloc: Global,
    service: &Service<G, NoGate, Lost>,
    at: u32,
) {
    let mut pass = new_pass(rt, service, at);
    let ticket = submitted(rt, alloc, service, &mut pass, add_ann(rt, alloc));
    drop(ticket);
    drop(pass);
}

// A command is delivered by all members once it is submitted, and no hint is given.
fn run_helped<G: GroupName, R: Wait + Abort>(rt: &R, alloc: Global, founding: Founding)
    requires names { (founding.group ≡ G.group) × (founding.words ≡ G.vocabulary) × (founding.rows ≡ G.cells) }
    requires members { length founding.rows.sent ≡ founding.group.members }
{
    let service: Service<G, NoGate, Lost> = founded(rt, alloc, founding, Lost::new());
    for at in 1..4u32 {
        begin(rt, &service, at);
    }
    submit_at(rt, alloc, &service, 2);
    for at in 1..4u32 {
        expect_record(rt, &service, (at, 0), (1, 2), &Answer::Done);
    }
    submit_at(rt, alloc, &service, 3);
    let denied = Answer::Denied(Denial::UserExists);
    expect_record(rt, &service, (3, 1), (5, 3), &denied);
    drop(denied);
    assert_eq!(rt; told(&service), 0);
    drop(service);
}

#[test]
fn who_submits_takes_the_turns_of_all(rt: HostRuntime) {
    let founding = founding_of(&rt, rt.alloc(), 3, 16);
    run_helped::<Brand, _>(&rt, rt.alloc(), founding);
}

// A member whose thread does not run, or whose lock is held, is told: what is submitted waits for it.
fn run_told<G: GroupName, R: Wait + Abort>(rt: &R, alloc: Global, founding: Founding)
    requires names { (founding.group ≡ G.group) × (founding.words ≡ G.vocabulary) × (founding.rows ≡ G.cells) }
    requires members { length founding.rows.sent ≡ founding.group.members }
{
    let service: Service<G, NoGate, Lost> = founded(rt, alloc, founding, Lost::new());
    begin(rt, &service, 1);
    submit_at(rt, alloc, &service, 1);
    assert_eq!(rt; told(&service), 1);
    expect_no_record(rt, &service, 1, 0);
    begin(rt, &service, 2);
    let slot = service.slot(2).expect(rt, "a member");
    let held = slot.node.lock(rt);
    submit_at(rt, alloc, &service, 1);
    assert_eq!(rt; told(&service), 2);
    expect_no_record(rt, &service, 1, 0);
    drop(held);
    submit_at(rt, alloc, &service, 1);
    assert_eq!(rt; told(&service), 2);
    expect_record(rt, &service, (1, 0), (1, 1), &Answer::Done);
    expect_record(rt, &service, (2, 0), (1, 1), &Answer::Done);
    drop(service);
}

#[test]
fn who_cannot_be_helped_is_told(rt: HostRuntime) {
    let founding = founding_of(&rt, rt.alloc(), 2, 16);
    run_told::<Brand, _>(&rt, rt.alloc(), founding);
}

// A stopped member takes no turn, and is not told of what nobody submits any more.
fn run_stopped<G: GroupName, R: Wait + Abort>(rt: &R, alloc: Global, founding: Founding)
    requires names { (founding.group ≡ G.group) × (founding.words ≡ G.vocabulary) × (founding.rows ≡ G.cells) }
    requires members { length founding.rows.sent ≡ founding.group.members }
{
    let service: Service<G, NoGate, Lost> = founded(rt, alloc, founding, Lost::new());
    begin(rt, &service, 1);
    begin(rt, &service, 2);
    let slot = service.slot(2).expect(rt, "a member");
    slot.node.lock(rt).stop();
    submit_at(rt, alloc, &service, 1);
    assert_eq!(rt; told(&service), 0);
    expect_no_record(rt, &service, 1, 0);
    expect_no_record(rt, &service, 2, 0);
    drop(service);
}

#[test]
fn a_stopped_member_is_not_helped(rt: HostRuntime) {
    let founding = founding_of(&rt, rt.alloc(), 2, 16);
    run_stopped::<Brand, _>(&rt, rt.alloc(), founding);
}

// Where enough threads go round already, who submits leaves the news to them, and the next that goes round carries it.
fn run_left<G: GroupName, R: Wait + Abort>(rt: &R, alloc: Global, founding: Founding)
    requires names { (founding.group ≡ G.group) × (founding.words ≡ G.vocabulary) × (founding.rows ≡ G.cells) }
    requires members { length founding.rows.sent ≡ founding.group.members }
{
    let service: Service<G, NoGate, Lost> = founded(rt, alloc, founding, Lost::new());
    begin(rt, &service, 1);
    begin(rt, &service, 2);
    for _ in 0..4u32 {
        assert!(rt; service.round.begin());
    }
    submit_at(rt, alloc, &service, 1);
    assert!(rt; !service.round.is_empty());
    expect_no_record(rt, &service, 1, 0);
    service.round.end();
    submit_at(rt, alloc, &service, 2);
    assert!(rt; service.round.is_empty());
    expect_record(rt, &service, (1, 0), (1, 1), &Answer::Done);
    expect_record(rt, &service, (2, 0), (1, 1), &Answer::Done);
    assert_eq!(rt; told(&service), 0);
    drop(service);
}

#[test]
fn news_is_left_to_those_who_go_round(rt: HostRuntime) {
    let founding = founding_of(&rt, rt.alloc(), 2, 16);
    run_left::<Brand, _>(&rt, rt.alloc(), founding);
}
