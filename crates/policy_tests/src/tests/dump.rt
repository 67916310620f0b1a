//! A policy's dump, given to a policy that was just founded. What is expected was written by hand.

use super::named::{name, name_set};
use super::policy::{
    a_static_set, add_role, add_user, assign, expect_done, founded, grant, inherit, open_session,
};
use rbac_decide::Policy;
use rbac_dump::commands_of;
use rbac_terms::{Answer, Command, Separation};
use std::alloc::Global;
use std::process::Abort;

// A user, three roles, an assignment, a pair, a grant, two sessions and a set of each kind: one session has a role that is inherited,
// and one has none.
pub(super) fn a_policy_of_each_thing(rt: &impl Abort, alloc: Global) -> Policy {
    let mut policy = a_static_set(rt, alloc);
    inherit(rt, alloc, &mut policy, "a", "b");
    grant(rt, alloc, &mut policy, "b");
    open_session(rt, alloc, &mut policy, "s1", &["b"]);
    open_session(rt, alloc, &mut policy, "s2", &[]);
    let command = Command::CreateSet {
        kind: Separation::Dynamic,
        set: name(rt, alloc, "d"),
        roles: name_set(rt, alloc, &["a", "b"]),
        n: 2,
    };
    expect_done(rt, alloc, &mut policy, command);
    policy
}

// Gives commands to a policy, each of which it has to do.
fn play(rt: &impl Abort, alloc: Global, policy: &mut Policy, commands: &[Command]) {
    for command in commands {
        let answer = policy.apply(alloc, command).expect(rt, "memory");
        assert!(rt; answer.same(&Answer::Done));
        drop(answer);
    }
}

// The most bytes of a command's text that can be read.
const ROOM: usize = 65_536;

// How many commands tell the policy, of which each text has at most so many bytes where it has but few names. They make it again.
fn told_in(rt: &impl Abort, alloc: Global, policy: &Policy, room: usize) -> usize {
    let commands = commands_of(alloc, policy, room).expect(rt, "memory");
    let mut again = founded(rt, alloc);
    play(rt, alloc, &mut again, commands.as_slice());
    assert!(rt; again.same(policy));
    let count = commands.len();
    drop(commands);
    drop(again);
    count
}

#[test]
fn a_dump_makes_its_policy_again(rt: HostRuntime) {
    let policy = a_policy_of_each_thing(&rt, rt.alloc());
    assert_eq!(rt; told_in(&rt, rt.alloc(), &policy, ROOM), 11);
    drop(policy);
}

// Ann is authorized for two of three roles of the static set. The text of the command that creates it has 61 bytes.
#[test]
fn a_set_that_has_no_room_is_made_in_parts(rt: HostRuntime) {
    let policy = a_policy_of_each_thing(&rt, rt.alloc());
    assert_eq!(rt; told_in(&rt, rt.alloc(), &policy, 61), 11);
    assert_eq!(rt; told_in(&rt, rt.alloc(), &policy, 60), 13);
    assert_eq!(rt; told_in(&rt, rt.alloc(), &policy, 0), 14);
    drop(policy);
}

#[test]
fn a_session_that_has_no_room_is_made_in_parts(rt: HostRuntime) {
    let mut policy = founded(&rt, rt.alloc());
    add_user(&rt, rt.alloc(), &mut policy, "ann");
    for role in ["a", "b", "c"] {
        add_role(&rt, rt.alloc(), &mut policy, role);
        assign(&rt, rt.alloc(), &mut policy, "ann", role);
    }
    open_session(&rt, rt.alloc(), &mut policy, "s1", &["a", "b", "c"]);
    assert_eq!(rt; told_in(&rt, rt.alloc(), &policy, ROOM), 8);
    assert_eq!(rt; told_in(&rt, rt.alloc(), &policy, 0), 9);
    drop(policy);
}

#[test]
fn a_new_policy_needs_no_command(rt: HostRuntime) {
    let policy = founded(&rt, rt.alloc());
    assert_eq!(rt; told_in(&rt, rt.alloc(), &policy, ROOM), 0);
    drop(policy);
}
